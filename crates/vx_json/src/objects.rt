//! Objects of JSON, as the lines of a record have them. To write one fails for want of memory
//! alone.
ghost use Rattle.std.specs.Prelude.{◌≡◌, IfOk, string_bytes};
ghost use Rattle.vx_json.specs.Plain.{IsPlain};
ghost use Rattle.vx_json.specs.Records.{call_json, fate_json};

use crate::call_object::CallObject;
use crate::fate_object::FateObject;
use std::alloc::{AllocError, Global};

/// The text of a call.
pub fn call_json(alloc: Global, call: &CallObject) -> Result<String, AllocError>
    requires cmd { IsPlain call.now.cmd.now }
    requires player { IsPlain call.now.player.now }
    requires reply { IsPlain call.now.reply.now }
    ensures { IfOk result (λ text. string_bytes text ≡ call_json call.now.cmd.now
        call.now.player.now call.now.reply.now call.now.sector call.now.tick) }
{
    match serde_json::to_string(alloc, call) {
        Ok(text) => Ok(text),
        Err(_) => Err(AllocError),
    }
}

/// The text of a fate.
pub fn fate_json(alloc: Global, told: &FateObject) -> Result<String, AllocError>
    requires { IsPlain told.now.fate.now }
    ensures { IfOk result (λ text. string_bytes text ≡ fate_json told.now.fate.now told.now.tick) }
{
    match serde_json::to_string(alloc, told) {
        Ok(text) => Ok(text),
        Err(_) => Err(AllocError),
    }
}
