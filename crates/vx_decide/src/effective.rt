ghost use Rattle.std.specs.Prelude.{◌≡◌, Some, is_some, option_map};
ghost use Rattle.vx_flag.specs.declared.association.Association.{Association};
ghost use Rattle.vx_flag.specs.Group.{fits};
ghost use Rattle.vx_region.specs.Ancestry.{chain};
ghost use Rattle.vx_region.specs.Association.{association};
ghost use Rattle.vx_region.specs.Regions.{parent_of, region_at, setting_at};
ghost use Rattle.vx_region.specs.Subjects.{actor_of};
ghost use Rattle.vx_decide.specs.Effective.{heard, value_at, first_of, effective, has_value, is_allow, is_deny};

use crate::asker::Asker;
use crate::value::Value;
use vx_flag::{Flag, Group, Setting, State, fits};
use vx_region::{Region, RegionNo, RegionSet};

/// The value of the flag for the subject at the region of that number: the one of the nearest
/// region of its ancestry that sets the flag for a group that the subject is of, as the subject is
/// to the region where the question began.
pub fn effective(asker: &Asker, flag: Flag, number: RegionNo) -> Option<Value>
    ensures { result ≡ effective asker.now.regions.now (actor_of asker.now.subject.now) flag
        number.0 }
{
    nearest(
        asker,
        flag,
        number,
        number,
        u64::from(asker.regions.last()) + 1,
    )
}

/// The value of the flag for the subject at a region that is at hand, which is not looked up again.
pub fn effective_of(asker: &Asker, flag: Flag, number: RegionNo, region: &Region) -> Option<Value>
    requires { region_at asker.now.regions.now number.0 ≡ Some region.now }
    ensures { result ≡ effective asker.now.regions.now (actor_of asker.now.subject.now) flag
        number.0 }
{
    // Says that no region has number 0, that of the world at large.
    asker.regions.soundness();
    let own = heard(asker, number, number, region.setting(flag));
    if own.is_some() {
        return own;
    }
    match region.parent() {
        Some(parent) => nearest(asker, flag, number, parent, u64::from(asker.regions.last())),
        None => None,
    }
}

// The value of the nearest of so many regions of an ancestry that sets the flag for those who are
// to the region `number` what the subject is.
fn nearest(asker: &Asker, flag: Flag, number: RegionNo, from: RegionNo, count: u64) -> Option<Value>
    ensures { result ≡ first_of (value_at asker.now.regions.now flag
        (association asker.now.regions.now (actor_of asker.now.subject.now) number.0))
        (chain count asker.now.regions.now from.0) }
{
    let mut at = from;
    for _ in 0..count {
        let (value, parent) = value_at(asker, flag, number, at);
        if value.is_some() {
            return value;
        }
        match parent {
            Some(parent) => at = parent,
            None => return None,
        }
    }
    None
}

/// Whether the flag has a value for the subject at the region of that number, which is at hand.
#[tactic(auto, unfolding(crate::specs::Effective::has_value))]
pub fn has_value(asker: &Asker, flag: Flag, number: RegionNo, region: &Region) -> bool
    requires { region_at asker.now.regions.now number.0 ≡ Some region.now }
    ensures { result ≡ has_value asker.now.regions.now (actor_of asker.now.subject.now) flag
        number.0 }
{
    effective_of(asker, flag, number, region).is_some()
}

/// Whether the value is there and denies.
pub fn is_deny(value: Option<Value>) -> bool
    ensures { result ≡ is_deny value }
{
    match value {
        Some(value) => matches!(value.state, State::Deny),
        None => false,
    }
}

/// Whether the value is there and allows.
pub fn is_allow(value: Option<Value>) -> bool
    ensures { result ≡ is_allow value }
{
    match value {
        Some(value) => matches!(value.state, State::Allow),
        None => false,
    }
}

// The value that the region at that number sets itself, for those who are to the region `number`
// what the subject is; and its parent.
#[tactic(auto, unfolding(crate::specs::Effective::value_at))]
fn value_at(
    asker: &Asker,
    flag: Flag,
    number: RegionNo,
    at: RegionNo,
) -> (Option<Value>, Option<RegionNo>)
    ensures value { result.0 ≡ value_at asker.now.regions.now flag
        (association asker.now.regions.now (actor_of asker.now.subject.now) number.0) at.0 }
    ensures parent { option_map (λ n. n.0) result.1 ≡ parent_of asker.now.regions.now at.0 }
{
    let (setting, parent) = set_at(asker.regions, flag, at);
    (heard(asker, number, at, setting), parent)
}

// What the region at that number sets for the flag itself, and its parent.
#[tactic(auto, unfolding(vx_region::specs::Regions::setting_at, vx_region::specs::Regions::parent_of))]
fn set_at(regions: &RegionSet, flag: Flag, at: RegionNo) -> (Option<Setting>, Option<RegionNo>)
    ensures setting { result.0 ≡ setting_at regions.now at.0 flag }
    ensures parent { option_map (λ n. n.0) result.1 ≡ parent_of regions.now at.0 }
{
    if at.0 == 0 {
        return (regions.setting(at, flag), regions.parent(at));
    }
    match regions.get(at) {
        Some(region) => (region.setting(flag), region.parent()),
        None => (None, None),
    }
}

// The value of what is set at that number, for those who are to the region `number` what the
// subject is.
fn heard(asker: &Asker, number: RegionNo, at: RegionNo, setting: Option<Setting>) -> Option<Value>
    ensures { result ≡ heard at.0
        (association asker.now.regions.now (actor_of asker.now.subject.now) number.0) setting }
{
    let setting = setting?;
    if !is_of(asker, number, setting.group) {
        return None;
    }
    Some(Value {
        state: setting.state,
        from: at,
    })
}

// Whether the group is that of those who are to the region `number` what the subject is. Everyone
// is of all, and then it is not asked what the subject is.
fn is_of(asker: &Asker, number: RegionNo, group: Group) -> bool
    ensures { result ≡ fits group
        (association asker.now.regions.now (actor_of asker.now.subject.now) number.0) }
{
    matches!(group, Group::All) || fits(group, asker.association(number))
}
