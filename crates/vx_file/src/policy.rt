//! The policy that a whole regions file describes.
ghost use Rattle.std.specs.Prelude.{◌≡◌, ◌⊎◌, List, map, IsUtf8, None, Some, Err, IfOk, IfErr, OnOk};
ghost use Rattle.std.specs.Option.{option_and_then};
ghost use Rattle.toml.specs.Parse.{parse_document};
ghost use Rattle.toml.specs.View.{table_view};
ghost use Rattle.vx_policy.specs.Asked.{Asked, asked};
ghost use Rattle.vx_policy.specs.Edits.{after, AreAccepted};
ghost use Rattle.vx_region.specs.Regions.{no_regions};
ghost use Rattle.vx_file.specs.FileReads.{applied, behind};
ghost use Rattle.vx_file.specs.RegionsFile.{edits_in, FileSays};

use crate::document::document;
use crate::edits::apply;
use std::alloc::Global;
use toml::Table;
use vx_base::Unread;
use vx_policy::{Edit, Policy};

/// How many bytes a regions file may have.
pub(crate) const MAX_BYTES: usize = 1_048_576;

/// The policy that a regions file describes: the edits that it means, applied to the policy without
/// regions. It is faulty where it means no edits, or one of them is refused.
pub fn read_policy(alloc: Global, bytes: &[u8]) -> Result<Policy, Unread>
    ensures ok { IfOk result (λ policy. (edits : List Asked) × FileSays bytes.now edits
        × AreAccepted no_regions edits × (policy ≡ after no_regions edits)) }
    ensures refused { result ≡ Err Unread.Faulty
        → (edits : List Asked) → FileSays bytes.now edits → AreAccepted no_regions edits → ⊥ }
{
    match policy_of(alloc, bytes) {
        Ok(policy) => Ok(policy),
        Err(unread) => Err(unread),
    }
}

fn policy_of(alloc: Global, bytes: &[u8]) -> Result<Policy, Unread>
    ensures text { IfOk result (λ _. IsUtf8 bytes.now) }
    ensures ok { IfOk result (λ policy.
        option_and_then (applied no_regions) (edits_in bytes.now) ≡ Some policy) }
    ensures refused { result ≡ Err Unread.Faulty → IsUtf8 bytes.now
        → option_and_then (applied no_regions) (edits_in bytes.now) ≡ None }
{
    let edits = edits_of(alloc, bytes)?;
    apply(alloc, edits)
}

// The edits that the bytes mean.
fn edits_of(alloc: Global, bytes: &[u8]) -> Result<Vec<Edit>, Unread>
    ensures text { IfOk result (λ _. IsUtf8 bytes.now) }
    ensures ok { IfOk result (λ edits. edits_in bytes.now ≡ Some (map asked edits.items)) }
    ensures refused { result ≡ Err Unread.Faulty → IsUtf8 bytes.now → edits_in bytes.now ≡ None }
{
    let mut edits = Vec::new(alloc);
    read(alloc, bytes, &mut edits)?;
    Ok(edits)
}

#[tactic(auto, unfolding(crate::specs::RegionsFile::edits_in))]
fn read(alloc: Global, bytes: &[u8], edits: &mut Vec<Edit>) -> Result<(), Unread>
    ensures text { IfOk result (λ _. IsUtf8 bytes.now) }
    ensures ok { OnOk result (behind (map asked edits.old.items) (edits_in bytes.now)
        ≡ Some (map asked edits.new.items)) }
    ensures refused { result ≡ Err Unread.Faulty → IsUtf8 bytes.now → edits_in bytes.now ≡ None }
{
    if MAX_BYTES < bytes.len() {
        return Err(Unread::Faulty);
    }
    let table = table_of(alloc, bytes)?;
    document(alloc, &table, edits)
}

// The document that the bytes are.
fn table_of(alloc: Global, bytes: &[u8]) -> Result<Table, Unread>
    ensures text { IfOk result (λ _. IsUtf8 bytes.now) }
    ensures ok { IfOk result (λ table. parse_document bytes.now ≡ Some (table_view table)) }
    ensures refused { result ≡ Err Unread.Faulty → IsUtf8 bytes.now
        → parse_document bytes.now ≡ None }
{
    match toml::table_from_slice(alloc, bytes) {
        Ok(table) => Ok(table),
        Err(error) => {
            if error.is_memory() {
                Err(Unread::NoMemory)
            } else {
                Err(Unread::Faulty)
            }
        }
    }
}
