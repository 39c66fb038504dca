//! Edits that are gathered from a regions file, and applied.
ghost use Rattle.std.specs.Prelude.{◌≡◌, [], ◌∷◌, map, Some};
ghost use Rattle.vx_policy.specs.Asked.{asked};
ghost use Rattle.vx_region.specs.Regions.{no_regions};
ghost use Rattle.vx_file.specs.FileReads.{Adds, accepted, applied};
ghost use Rattle.vx_base.specs.Unread.{Gives};

use std::alloc::Global;
use vx_base::Unread;
use vx_policy::{Edit, EditError, Policy};

/// Adds one edit.
pub fn add(edits: &mut Vec<Edit>, edit: Edit) -> Result<(), Unread>
    ensures { Adds result edits.old.items edits.new.items (Some (asked edit ∷ [])) }
{
    edits.push(edit)?;
    Ok(())
}

/// The policy that these edits make out of the empty one.
pub fn apply(alloc: Global, edits: Vec<Edit>) -> Result<Policy, Unread>
    ensures { Gives (λ policy. policy) result (applied no_regions (map asked edits.items)) }
{
    let mut policy = Policy::new(alloc)?;
    apply_all(alloc, &mut policy, edits)?;
    Ok(policy)
}

fn apply_all(alloc: Global, policy: &mut Policy, edits: Vec<Edit>) -> Result<(), Unread>
    ensures { Gives (λ _. policy.new) result (applied policy.old (map asked edits.items)) }
{
    for edit in edits {
        apply_one(alloc, policy, edit)?;
    }
    Ok(())
}

#[tactic(auto, unfolding(crate::specs::FileReads::accepted))]
fn apply_one(alloc: Global, policy: &mut Policy, edit: Edit) -> Result<(), Unread>
    ensures { Gives (λ _. policy.new) result (accepted policy.old (asked edit)) }
{
    match policy.apply(alloc, edit) {
        Ok(_) => Ok(()),
        Err(EditError::Refused(_)) => Err(Unread::Faulty),
        Err(EditError::NoMemory) => Err(Unread::NoMemory),
    }
}
