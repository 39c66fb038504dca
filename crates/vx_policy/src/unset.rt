//! The flags that are known to be set nowhere, by no region and not by the world at large.
ghost use Rattle.std.specs.Prelude.{◌≡◌, ◌≢◌, true, false, Some, IfOk};
ghost use Rattle.std.specs.List.{All};
ghost use Rattle.vx_decide.specs.Unset.{IsUnset};
ghost use Rattle.vx_flag.specs.declared.flag.Flag.{Flag};
ghost use Rattle.vx_policy.specs.Asked.{asked};
ghost use Rattle.vx_policy.specs.Edits.{edited};
ghost use Rattle.vx_policy.specs.Silence.{LeavesUnset, UnsetStaysBut};
ghost use Rattle.vx_region.specs.Regions.{Regions, no_regions};

use crate::edit::Edit;
use std::alloc::{AllocError, Global};
use vx_flag::Flag;

/// All flags: without regions none is set.
#[tactic(auto, using(crate::proofs::Silent::none_set))]
pub(crate) fn all_unset(alloc: Global) -> Result<Vec<Flag>, AllocError>
    ensures { IfOk result (λ unset. All (IsUnset no_regions) unset.items) }
{
    let mut unset = Vec::with_capacity(alloc, Flag::ALL.len())?;
    for flag in Flag::ALL {
        unset.push(flag)?;
    }
    Ok(unset)
}

// The flag that an edit sets somewhere, if it sets one.
fn flag_set(edit: &Edit) -> Option<Flag>
    ensures { (rs : Regions) → UnsetStaysBut result rs (edited rs (asked edit.now)) }
{
    set_by(edit)
}

// The flag that the edit sets, by its kind alone.
fn set_by(edit: &Edit) -> Option<Flag>
    ensures { (f : Flag) → result ≢ Some f → LeavesUnset (asked edit.now) f }
{
    match edit {
        Edit::SetFlag(_, flag, _) => Some(*flag),
        _ => None,
    }
}

/// Whether the edit sets none of the flags, so that all of them are set nowhere after it, too.
pub(crate) fn stay_unset(unset: &[Flag], edit: &Edit) -> bool
    ensures { result ≡ true → (rs : Regions) → All (IsUnset rs) unset.now
        → All (IsUnset (edited rs (asked edit.now))) unset.now }
{
    let set = flag_set(edit);
    for flag in unset {
        if is_flag(set, *flag) {
            return false;
        }
    }
    true
}

/// Those of the flags that are set nowhere after the edit, too. One that was set and is cleared
/// again is not found: only costs rest on it.
pub(crate) fn unset_after(
    alloc: Global,
    unset: &[Flag],
    edit: &Edit,
) -> Result<Vec<Flag>, AllocError>
    ensures { (rs : Regions) → All (IsUnset rs) unset.now
        → IfOk result (λ kept. All (IsUnset (edited rs (asked edit.now))) kept.items) }
{
    let set = flag_set(edit);
    let mut kept = Vec::with_capacity(alloc, unset.len())?;
    for flag in unset {
        if is_flag(set, *flag) {
            continue;
        }
        kept.push(*flag)?;
    }
    Ok(kept)
}

// Whether there is a flag, and it is that one.
fn is_flag(set: Option<Flag>, flag: Flag) -> bool
    ensures { result ≡ false → set ≢ Some flag }
{
    match set {
        Some(set) => set == flag,
        None => false,
    }
}
