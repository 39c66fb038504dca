ghost use Rattle.std.specs.Prelude.{◌≡◌, ◌⊎◌, List, Err, IfOk, IfErr, IfSome};
ghost use Rattle.vx_file.specs.RegionsFile.{FileSays};
ghost use Rattle.vx_policy.specs.Asked.{Asked};
ghost use Rattle.vx_policy.specs.Edits.{after, AreAccepted};
ghost use Rattle.vx_region.specs.Regions.{no_regions};

use crate::fault::Fault;
use std::alloc::Global;
use std::io::Read;
use vx_base::Unread;
use vx_file::{read_bytes, read_policy};
use vx_policy::Policy;

/// The policy that a regions file describes: the edits that it means, applied to the policy without
/// regions.
pub fn regions_file(alloc: Global, bytes: &[u8]) -> Result<Policy, Fault>
    ensures ok { IfOk result (λ policy. (edits : List Asked) × FileSays bytes.now edits
        × AreAccepted no_regions edits × (policy ≡ after no_regions edits)) }
    ensures refused { result ≡ Err Fault.BadRegionFile
        → (edits : List Asked) → FileSays bytes.now edits → AreAccepted no_regions edits → ⊥ }
    ensures err { IfErr result (λ fault. (fault ≡ Fault.BadRegionFile) ⊎ (fault ≡ Fault.NoMemory)) }
{
    match read_policy(alloc, bytes) {
        Ok(policy) => Ok(policy),
        Err(Unread::Faulty) => Err(Fault::BadRegionFile),
        Err(Unread::NoMemory) => Err(Fault::NoMemory),
    }
}

/// The policy that a regions file describes, which is read to its end: 1,048,576 bytes at most.
/// More are fault 41, and a read that fails is fault 42.
pub fn read_regions<R: Read>(alloc: Global, reader: &mut R) -> Result<Policy, Fault>
    ensures ok { IfOk result (λ policy. IfSome (R.remaining reader.old) (λ bytes.
        (edits : List Asked) × FileSays bytes edits × AreAccepted no_regions edits
        × (policy ≡ after no_regions edits))) }
    ensures refused { result ≡ Err Fault.BadRegionFile → IfSome (R.remaining reader.old) (λ bytes.
        (edits : List Asked) → FileSays bytes edits → AreAccepted no_regions edits → ⊥) }
{
    let bytes = read_bytes(alloc, reader)?;
    regions_file(alloc, &bytes)
}
