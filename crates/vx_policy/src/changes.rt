//! What an edit that was accepted changes.
ghost use Rattle.std.specs.Prelude.{◌≡◌, ◌+◌, true, false, None, Some, option_map, IsSome, IfOk, OnOk, OnErr};
ghost use Rattle.vx_geom.specs.Written.{written};
ghost use Rattle.vx_policy.specs.Asked.{Define, Reshape, Remove, Priority, Parent, SetFlag, ClearFlag, Listed, asked};
ghost use Rattle.vx_policy.specs.Edits.{edited, number_given};
ghost use Rattle.vx_policy.specs.Refusals.{refusal, is_known, is_at_large, numbered};
ghost use Rattle.vx_region.specs.Regions.{region_at, HasSettings};

use crate::edit::Edit;
use crate::listing::Listing;
use crate::reshaped::shape_of;
use std::alloc::{AllocError, Global};
use vx_flag::{Flag, Setting};
use vx_geom::ShapeSpec;
use vx_region::{Id, Name, RegionNo, RegionSet, Roster};

/// Makes an edit of the regions that nothing stands against, and answers the number that a
/// definition gave. Where copies share the region that it changes, that is copied first with its
/// block, and no other.
pub(crate) fn change(
    regions: &mut RegionSet,
    alloc: Global,
    edit: &Edit,
) -> Result<Option<RegionNo>, AllocError>
    requires { refusal regions.old (asked edit.now) ≡ None }
    ensures ok { IfOk result (λ n. (regions.new ≡ edited regions.old (asked edit.now))
        × (option_map (λ n. n.0) n ≡ number_given regions.old (asked edit.now))) }
    ensures err { OnErr result (regions.new ≡ regions.old) }
{
    match edit {
        Edit::Define(id, shape) => Ok(Some(define(regions, alloc, id, shape)?)),
        Edit::Owner(id, listing, name) => {
            list(regions, Roster::Owners, id, *listing, name).and(Ok(None))
        }
        Edit::Member(id, listing, name) => {
            list(regions, Roster::Members, id, *listing, name).and(Ok(None))
        }
        Edit::Domain(id, listing, name) => {
            list(regions, Roster::Domains, id, *listing, name).and(Ok(None))
        }
        Edit::Reshape(id, shape) => reshape(regions, alloc, id, shape).and(Ok(None)),
        Edit::Remove(id) => remove(regions, id).and(Ok(None)),
        Edit::Priority(id, priority) => set_priority(regions, id, *priority).and(Ok(None)),
        Edit::Parent(id, Some(parent)) => set_parent(regions, id, parent).and(Ok(None)),
        Edit::Parent(id, None) => clear_parent(regions, id).and(Ok(None)),
        Edit::SetFlag(id, flag, setting) => set_flag(regions, id, *flag, *setting).and(Ok(None)),
        Edit::ClearFlag(id, flag) => clear_flag(regions, id, *flag).and(Ok(None)),
    }
}

#[tactic(auto, unfolding(crate::specs::Edits::edited))]
fn define(
    regions: &mut RegionSet,
    alloc: Global,
    id: &str,
    shape: &ShapeSpec,
) -> Result<RegionNo, AllocError>
    requires { refusal regions.old (Define id.now (written shape.now)) ≡ None }
    ensures ok { IfOk result (λ n.
        (regions.new ≡ edited regions.old (Define id.now (written shape.now)))
        × (n.0 ≡ regions.old.last + 1)) }
    ensures err { OnErr result (regions.new ≡ regions.old) }
{
    let Ok(id) = Id::read(id) else {
        unreachable!();
    };
    let Some(shape) = shape_of(alloc, shape)? else {
        unreachable!();
    };
    regions.define(alloc, id, shape)
}

#[tactic(auto, unfolding(crate::specs::Edits::edited))]
fn reshape(
    regions: &mut RegionSet,
    alloc: Global,
    id: &str,
    shape: &ShapeSpec,
) -> Result<(), AllocError>
    requires { refusal regions.old (Reshape id.now (written shape.now)) ≡ None }
    ensures ok { OnOk result
        (regions.new ≡ edited regions.old (Reshape id.now (written shape.now))) }
    ensures err { OnErr result (regions.new ≡ regions.old) }
{
    let number = region(regions, id);
    let Some(shape) = shape_of(alloc, shape)? else {
        unreachable!();
    };
    regions.reshape(number, shape)
}

#[tactic(auto, unfolding(crate::specs::Edits::edited))]
fn remove(regions: &mut RegionSet, id: &str) -> Result<(), AllocError>
    requires { refusal regions.old (Remove id.now) ≡ None }
    ensures ok { OnOk result (regions.new ≡ edited regions.old (Remove id.now)) }
    ensures err { OnErr result (regions.new ≡ regions.old) }
{
    let number = region(regions, id);
    regions.remove(number)
}

#[tactic(auto, unfolding(crate::specs::Edits::edited))]
fn set_priority(regions: &mut RegionSet, id: &str, priority: i32) -> Result<(), AllocError>
    requires { refusal regions.old (Priority id.now priority) ≡ None }
    ensures ok { OnOk result (regions.new ≡ edited regions.old (Priority id.now priority)) }
    ensures err { OnErr result (regions.new ≡ regions.old) }
{
    let number = region(regions, id);
    regions.set_priority(number, priority)
}

#[tactic(auto, unfolding(crate::specs::Edits::edited))]
fn clear_parent(regions: &mut RegionSet, id: &str) -> Result<(), AllocError>
    requires { refusal regions.old (Parent id.now None) ≡ None }
    ensures ok { OnOk result (regions.new ≡ edited regions.old (Parent id.now None)) }
    ensures err { OnErr result (regions.new ≡ regions.old) }
{
    let number = region(regions, id);
    regions.set_parent(number, None)
}

#[tactic(auto, unfolding(crate::specs::Edits::edited))]
fn set_parent(regions: &mut RegionSet, id: &str, parent: &str) -> Result<(), AllocError>
    requires { refusal regions.old (Parent id.now (Some parent.now)) ≡ None }
    ensures ok { OnOk result (regions.new ≡ edited regions.old (Parent id.now (Some parent.now))) }
    ensures err { OnErr result (regions.new ≡ regions.old) }
{
    let number = region(regions, id);
    let above = region(regions, parent);
    regions.set_parent(number, Some(above))
}

#[tactic(auto, unfolding(crate::specs::Edits::edited))]
fn set_flag(
    regions: &mut RegionSet,
    id: &str,
    flag: Flag,
    setting: Setting,
) -> Result<(), AllocError>
    requires { refusal regions.old (SetFlag id.now flag setting) ≡ None }
    ensures ok { OnOk result (regions.new ≡ edited regions.old (SetFlag id.now flag setting)) }
    ensures err { OnErr result (regions.new ≡ regions.old) }
{
    let number = known(regions, id);
    regions.set_flag(number, flag, setting)
}

#[tactic(auto, unfolding(crate::specs::Edits::edited))]
fn clear_flag(regions: &mut RegionSet, id: &str, flag: Flag) -> Result<(), AllocError>
    requires { refusal regions.old (ClearFlag id.now flag) ≡ None }
    ensures ok { OnOk result (regions.new ≡ edited regions.old (ClearFlag id.now flag)) }
    ensures err { OnErr result (regions.new ≡ regions.old) }
{
    let number = known(regions, id);
    regions.clear_flag(number, flag)
}

#[tactic(auto, unfolding(crate::specs::Edits::edited))]
fn list(
    regions: &mut RegionSet,
    roster: Roster,
    id: &str,
    listing: Listing,
    name: &str,
) -> Result<(), AllocError>
    requires { refusal regions.old (Listed roster id.now listing name.now) ≡ None }
    ensures ok { OnOk result
        (regions.new ≡ edited regions.old (Listed roster id.now listing name.now)) }
    ensures err { OnErr result (regions.new ≡ regions.old) }
{
    let number = region(regions, id);
    let Ok(name) = Name::read(name) else {
        unreachable!();
    };
    match listing {
        Listing::Add => regions.add_name(number, roster, name),
        Listing::Drop => regions.drop_name(number, roster, &name),
    }
}

// The number of the region whose id the text spells.
fn region(regions: &RegionSet, id: &str) -> RegionNo
    requires known { is_known regions.now id.now ≡ true }
    requires local { is_at_large regions.now id.now ≡ false }
    ensures number { numbered regions.now id.now ≡ Some result.0 }
    ensures there { IsSome (region_at regions.now result.0) }
{
    known(regions, id)
}

// The number of the region whose id the text spells, 0 for the world at large.
fn known(regions: &RegionSet, id: &str) -> RegionNo
    requires { is_known regions.now id.now ≡ true }
    ensures number { numbered regions.now id.now ≡ Some result.0 }
    ensures there { HasSettings regions.now result.0 }
{
    let Ok(id) = Id::read(id) else {
        unreachable!();
    };
    let Some(number) = regions.find(&id) else {
        unreachable!();
    };
    number
}
