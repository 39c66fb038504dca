//! Why an edit is refused. Nothing here takes memory or changes anything.
ghost use Rattle.std.specs.Prelude.{◌≡◌, ◌≢◌, Some, None, option_map, MatchResult, OnOk};
ghost use Rattle.vx_geom.specs.Written.{written};
ghost use Rattle.vx_policy.specs.Asked.{Define, Reshape, Remove, Priority, Parent, SetFlag, ClearFlag, Listed, asked};
ghost use Rattle.vx_policy.specs.Refusals.{refusal, is_full, is_name, numbered};
ghost use Rattle.vx_region.specs.Regions.{number_of};

use crate::edit::Edit;
use crate::edit_refusal::EditRefusal;
use crate::listing::Listing;
use crate::policy::Policy;
use vx_flag::{Flag, Setting};
use vx_geom::ShapeSpec;
use vx_region::{Id, Name, RegionNo, RegionSet, Roster};

/// How many regions there may be.
const MAX_REGIONS: u32 = 4_096;

impl Policy {
    /// Why the edit is refused as things stand: the first cause that stands against it, in the
    /// order of docs/RULES.md.
    pub fn refusal(&self, edit: &Edit) -> Option<EditRefusal>
        ensures { result ≡ refusal self.now (asked edit.now) }
    {
        let regions = self.regions();
        let id = edit.target();
        match edit {
            Edit::Define(_, shape) => of_definition(regions, id, shape),
            Edit::Reshape(_, shape) => of_reshape(regions, id, shape),
            Edit::Remove(_) => of_removal(regions, id),
            Edit::Priority(_, priority) => of_priority(regions, id, *priority),
            Edit::Parent(_, None) => of_orphaning(regions, id),
            Edit::Parent(_, Some(parent)) => of_parent(regions, id, parent),
            Edit::SetFlag(_, flag, setting) => of_flag(regions, id, *flag, *setting),
            Edit::ClearFlag(_, flag) => of_clearing(regions, id, *flag),
            Edit::Owner(_, listing, name) => of_name(regions, Roster::Owners, id, *listing, name),
            Edit::Member(_, listing, name) => of_name(regions, Roster::Members, id, *listing, name),
            Edit::Domain(_, listing, name) => of_name(regions, Roster::Domains, id, *listing, name),
        }
    }
}

#[tactic(auto, unfolding(crate::specs::Refusals::refusal))]
fn of_definition(regions: &RegionSet, id: &str, shape: &ShapeSpec) -> Option<EditRefusal>
    ensures { result ≡ refusal regions.now (Define id.now (written shape.now)) }
{
    let Ok(id) = Id::read(id) else {
        return Some(EditRefusal::BadId);
    };
    if !shape.is_shape() {
        return Some(EditRefusal::BadShape);
    }
    if regions.find(&id).is_some() {
        return Some(EditRefusal::Known);
    }
    if is_full(regions) {
        return Some(EditRefusal::TooManyRegions);
    }
    None
}

#[tactic(auto, unfolding(crate::specs::Refusals::refusal))]
fn of_reshape(regions: &RegionSet, id: &str, shape: &ShapeSpec) -> Option<EditRefusal>
    ensures { result ≡ refusal regions.now (Reshape id.now (written shape.now)) }
{
    let Ok(id) = Id::read(id) else {
        return Some(EditRefusal::BadId);
    };
    if !shape.is_shape() {
        return Some(EditRefusal::BadShape);
    }
    let Some(number) = regions.find(&id) else {
        return Some(EditRefusal::Unknown);
    };
    if number.0 == 0 {
        return Some(EditRefusal::GlobalHasNone);
    }
    None
}

#[tactic(auto, unfolding(crate::specs::Refusals::refusal))]
fn of_removal(regions: &RegionSet, id: &str) -> Option<EditRefusal>
    ensures { result ≡ refusal regions.now (Remove id.now) }
{
    let Ok(id) = Id::read(id) else {
        return Some(EditRefusal::BadId);
    };
    let Some(number) = regions.find(&id) else {
        return Some(EditRefusal::Unknown);
    };
    if number.0 == 0 {
        return Some(EditRefusal::GlobalHasNone);
    }
    if regions.has_child(number) {
        return Some(EditRefusal::HasChildren);
    }
    None
}

#[tactic(auto, unfolding(crate::specs::Refusals::refusal))]
fn of_priority(regions: &RegionSet, id: &str, priority: i32) -> Option<EditRefusal>
    ensures { result ≡ refusal regions.now (Priority id.now priority) }
{
    let Ok(id) = Id::read(id) else {
        return Some(EditRefusal::BadId);
    };
    let Some(number) = regions.find(&id) else {
        return Some(EditRefusal::Unknown);
    };
    if number.0 == 0 {
        return Some(EditRefusal::GlobalHasNone);
    }
    None
}

#[tactic(auto, unfolding(crate::specs::Refusals::refusal))]
fn of_orphaning(regions: &RegionSet, id: &str) -> Option<EditRefusal>
    ensures { result ≡ refusal regions.now (Parent id.now None) }
{
    let Ok(id) = Id::read(id) else {
        return Some(EditRefusal::BadId);
    };
    let Some(number) = regions.find(&id) else {
        return Some(EditRefusal::Unknown);
    };
    if number.0 == 0 {
        return Some(EditRefusal::GlobalHasNone);
    }
    None
}

#[tactic(auto, unfolding(crate::specs::Refusals::refusal))]
fn of_parent(regions: &RegionSet, id: &str, parent: &str) -> Option<EditRefusal>
    ensures { result ≡ refusal regions.now (Parent id.now (Some parent.now)) }
{
    let Ok(id) = Id::read(id) else {
        return Some(EditRefusal::BadId);
    };
    let Ok(parent) = Id::read(parent) else {
        return Some(EditRefusal::BadId);
    };
    let Some(number) = regions.find(&id) else {
        return Some(EditRefusal::Unknown);
    };
    let Some(above) = regions.find(&parent) else {
        return Some(EditRefusal::Unknown);
    };
    if number.0 == 0 || above.0 == 0 {
        return Some(EditRefusal::GlobalHasNone);
    }
    if regions.under(above, number) {
        return Some(EditRefusal::Cycle);
    }
    None
}

#[tactic(auto, unfolding(crate::specs::Refusals::refusal))]
fn of_flag(regions: &RegionSet, id: &str, flag: Flag, setting: Setting) -> Option<EditRefusal>
    ensures { result ≡ refusal regions.now (SetFlag id.now flag setting) }
{
    let Ok(id) = Id::read(id) else {
        return Some(EditRefusal::BadId);
    };
    match regions.find(&id) {
        Some(_) => None,
        None => Some(EditRefusal::Unknown),
    }
}

#[tactic(auto, unfolding(crate::specs::Refusals::refusal))]
fn of_clearing(regions: &RegionSet, id: &str, flag: Flag) -> Option<EditRefusal>
    ensures { result ≡ refusal regions.now (ClearFlag id.now flag) }
{
    let Ok(id) = Id::read(id) else {
        return Some(EditRefusal::BadId);
    };
    match regions.find(&id) {
        Some(_) => None,
        None => Some(EditRefusal::Unknown),
    }
}

#[tactic(auto, unfolding(crate::specs::Refusals::refusal))]
fn of_name(
    regions: &RegionSet,
    roster: Roster,
    id: &str,
    listing: Listing,
    name: &str,
) -> Option<EditRefusal>
    ensures { result ≡ refusal regions.now (Listed roster id.now listing name.now) }
{
    let Ok(id) = Id::read(id) else {
        return Some(EditRefusal::BadId);
    };
    if Name::read(name).is_err() {
        return Some(EditRefusal::BadName);
    }
    let Some(number) = regions.find(&id) else {
        return Some(EditRefusal::Unknown);
    };
    if number.0 == 0 {
        return Some(EditRefusal::GlobalHasNone);
    }
    None
}

#[tactic(auto, unfolding(crate::specs::Refusals::is_full))]
fn is_full(regions: &RegionSet) -> bool
    ensures { result ≡ is_full regions.now }
{
    MAX_REGIONS <= regions.count() || regions.last() == u32::MAX
}
