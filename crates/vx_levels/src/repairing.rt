//! Levels that were right before some cells changed, made right again in place.
ghost use Rattle.std.specs.Prelude.{◌≡◌, ◌≤◌, ◌+◌, ◌-◌, ◌==◌, ◌++◌, ◌∷◌, [], true, if◌then◌else◌, OnOk, IfOk, IfSome};
ghost use Rattle.std.specs.List.{filter};
ghost use Rattle.vx_block.specs.Components.{is_dust};
ghost use Rattle.vx_cells.specs.Maps.{cell_on};
ghost use Rattle.vx_levels.specs.Consistency.{greatest};
ghost use Rattle.vx_levels.specs.Linked.{level_at, linked, links_at, KnowsLinks};
ghost use Rattle.vx_levels.specs.Pending.{IsPut, is_between};
ghost use Rattle.vx_levels.specs.Repairs.{ChangesAt, Follows, IsRight, IsRightBut, IsUnderRepair};
ghost use Rattle.vx_power.specs.Levels.{is_place};
ghost use Rattle.vx_power.specs.Signals.{is_fed};

use crate::linked_levels::LinkedLevels;
use crate::links::greatest_linked;
use crate::pending::Pending;
use crate::sight::sight_at;
use std::alloc::{AllocError, Global};
use vx_cells::Frozen;
use vx_geom::Pos;
use vx_power::{FED, Leveled};

/// Makes levels right again that are right but at these positions: where a cell changed, and dust
/// in sight of one that did. It tells where levels changed, or `None` where it took more turns than
/// are allowed; then nothing is known of the levels. It costs what dust gets another level.
pub fn repair(
    alloc: Global,
    map: &Frozen<'_>,
    levels: &mut LinkedLevels,
    unsure: Vec<Pos>,
    turns: usize,
) -> Result<Option<Vec<Pos>>, AllocError>
    requires { IsRightBut (cell_on map.now) levels.old unsure.items }
    ensures right { IfOk result (λ done. IfSome done (λ put.
        IsRight (cell_on map.now) levels.new)) }
    ensures changes { IfOk result (λ done. IfSome done (λ put.
        ChangesAt put.items levels.old levels.new)) }
{
    let mut pending = Pending::at(alloc, unsure);
    let mut put = Vec::new(alloc);
    for _ in 0..turns {
        if pending.is_empty() {
            return Ok(Some(put));
        }
        turn(map, levels, &mut pending, &mut put)?;
    }
    Ok(None)
}

// Looks at one position.
#[tactic(auto, using(crate::proofs::Mending::falling_dust, crate::proofs::Mending::rising_dust))]
fn turn(
    map: &Frozen<'_>,
    levels: &mut LinkedLevels,
    pending: &mut Pending,
    put: &mut Vec<Pos>,
) -> Result<(), AllocError>
    requires { IsUnderRepair (cell_on map.now) levels.old pending.old }
    ensures right { OnOk result (IsUnderRepair (cell_on map.now) levels.new pending.new) }
    ensures follows { OnOk result (Follows put.old.items levels.old put.new.items levels.new) }
{
    if let Some(p) = pending.next_unsure() {
        return look_anew(map, levels, pending, put, p);
    }
    if let Some(p) = pending.next_falling() {
        return lower(map, levels, pending, put, p);
    }
    if let Some(p) = pending.next_rising() {
        return lift(map, levels, pending, put, p);
    }
    Ok(())
}

// Looks at a position of which nothing is known: what dust there links to, and whether it is fed.
fn look_anew(
    map: &Frozen<'_>,
    levels: &mut LinkedLevels,
    pending: &mut Pending,
    put: &mut Vec<Pos>,
    p: Pos,
) -> Result<(), AllocError>
    requires { IsUnderRepair (cell_on map.now) levels.old
        (record pending.old { unsure = pending.old.unsure ++ p ∷ [] }) }
    ensures right { OnOk result (IsUnderRepair (cell_on map.now) levels.new pending.new) }
    ensures follows { OnOk result (Follows put.old.items levels.old put.new.items levels.new) }
{
    let Some(sight) = sight_at(map, p) else {
        return clear(levels, put, p);
    };
    levels.put_links(p, sight.links)?;
    feed(map, levels, pending, put, p, sight.is_fed)
}

// Takes the level away from a position where no dust lies, if it has one.
fn clear(levels: &mut LinkedLevels, put: &mut Vec<Pos>, p: Pos) -> Result<(), AllocError>
    ensures levels { OnOk result (IsPut (level_at levels.old) (level_at levels.new) p 0) }
    ensures links { OnOk result ((q : Pos) → links_at levels.new q ≡ links_at levels.old q) }
    ensures follows { OnOk result (Follows put.old.items levels.old put.new.items levels.new) }
{
    if levels.at(p) == 0 {
        return Ok(());
    }
    put.push(p)?;
    levels.put(p, 0)
}

// Gives dust at a position, whose links are known, the level of fed dust, or takes that away, or
// notes that it may have another than its links tell.
fn feed(
    map: &Frozen<'_>,
    levels: &mut LinkedLevels,
    pending: &mut Pending,
    put: &mut Vec<Pos>,
    p: Pos,
    fed: bool,
) -> Result<(), AllocError>
    requires place { is_place p ≡ true }
    requires dust { is_dust (cell_on map.now p) ≡ true }
    requires right { IsUnderRepair (cell_on map.now) levels.old
        (record pending.old { unsure = pending.old.unsure ++ p ∷ [] }) }
    requires linked { KnowsLinks (cell_on map.now) levels.old p }
    requires feeding { fed ≡ is_fed (cell_on map.now) p }
    ensures right { OnOk result (IsUnderRepair (cell_on map.now) levels.new pending.new) }
    ensures follows { OnOk result (Follows put.old.items levels.old put.new.items levels.new) }
{
    let was = levels.at(p);
    if fed {
        if was == FED {
            return Ok(());
        }
        return rise(levels, pending, put, p, FED);
    }
    if was == FED {
        return fall(levels, pending, put, p, was);
    }
    if told_level(levels, p, was) == was {
        return Ok(());
    }
    pending.add_falling(p)
}

// Lets the level of dust at a position fall that nothing supports.
#[tactic(auto, using(vx_power::proofs::Stepping::dust_place))]
fn lower(
    map: &Frozen<'_>,
    levels: &mut LinkedLevels,
    pending: &mut Pending,
    put: &mut Vec<Pos>,
    p: Pos,
) -> Result<(), AllocError>
    requires dust { is_dust (cell_on map.now p) ≡ true }
    requires fed { pending.old.unsure ≡ [] }
    requires right { IsUnderRepair (cell_on map.now) levels.old
        (record pending.old { falling = pending.old.falling ++ p ∷ [] }) }
    ensures right { OnOk result (IsUnderRepair (cell_on map.now) levels.new pending.new) }
    ensures follows { OnOk result (Follows put.old.items levels.old put.new.items levels.new) }
{
    map.soundness();
    let was = levels.at(p);
    let told = told_level(levels, p, was);
    if told < was {
        fall(levels, pending, put, p, was)
    } else if was < told {
        pending.add_rising(p)
    } else {
        Ok(())
    }
}

// Lets the level of dust at a position rise to what it is told.
#[tactic(auto, using(vx_power::proofs::Stepping::dust_place))]
fn lift(
    map: &Frozen<'_>,
    levels: &mut LinkedLevels,
    pending: &mut Pending,
    put: &mut Vec<Pos>,
    p: Pos,
) -> Result<(), AllocError>
    requires dust { is_dust (cell_on map.now p) ≡ true }
    requires fed { pending.old.unsure ≡ [] }
    requires right { IsUnderRepair (cell_on map.now) levels.old
        (record pending.old { rising = pending.old.rising ++ p ∷ [] }) }
    ensures right { OnOk result (IsUnderRepair (cell_on map.now) levels.new pending.new) }
    ensures follows { OnOk result (Follows put.old.items levels.old put.new.items levels.new) }
{
    map.soundness();
    let was = levels.at(p);
    let told = told_level(levels, p, was);
    if was < told {
        rise(levels, pending, put, p, told)
    } else if told < was {
        pending.add_falling(p)
    } else {
        Ok(())
    }
}

// What dust at a position is told, where `was` is its level: that same level if it is that of fed
// dust, else one less than the greatest level that the dust links to.
#[inline(always)]
fn told_level(levels: &LinkedLevels, p: Pos, was: u8) -> u8
    requires { is_place p ≡ true }
    ensures value { result ≡ (if was == 15 then 15
        else greatest (level_at levels.now) (linked (links_at levels.now p) p) - 1) }
    ensures most { result ≤ 15 }
{
    if was == FED {
        FED
    } else {
        greatest_linked(levels, p).saturating_sub(1)
    }
}

/// Whether dust lies at a position, which is then one of the widest world.
#[tactic(auto, using(vx_power::proofs::Stepping::dust_place))]
pub(crate) fn lies(map: &Frozen<'_>, p: Pos) -> bool
    ensures dust { result ≡ is_dust (cell_on map.now p) }
    ensures place { result ≡ true → is_place p ≡ true }
{
    map.soundness();
    map.has_dust(p)
}

// Takes the level of dust away. What that may have supported may be too high now, and its own is
// too low perhaps.
fn fall(
    levels: &mut LinkedLevels,
    pending: &mut Pending,
    put: &mut Vec<Pos>,
    p: Pos,
    was: u8,
) -> Result<(), AllocError>
    requires place { is_place p ≡ true }
    requires most { was ≤ 15 }
    ensures levels { OnOk result (IsPut (level_at levels.old) (level_at levels.new) p 0) }
    ensures links { OnOk result ((q : Pos) → links_at levels.new q ≡ links_at levels.old q) }
    ensures pending { OnOk result (pending.new ≡ record pending.old {
      falling = pending.old.falling
          ++ filter (is_between (level_at levels.old) was (was + 1))
          (linked (links_at levels.old p) p);
      rising = pending.old.rising ++ p ∷ [];
    }) }
    ensures put { OnOk result (put.new.items ≡ put.old.items ++ p ∷ []) }
{
    pending.add_falling_below(levels, p, was, was + 1)?;
    pending.add_rising(p)?;
    put.push(p)?;
    levels.put(p, 0)
}

// Gives dust a higher level. What it links to may be too low now.
fn rise(
    levels: &mut LinkedLevels,
    pending: &mut Pending,
    put: &mut Vec<Pos>,
    p: Pos,
    level: u8,
) -> Result<(), AllocError>
    requires place { is_place p ≡ true }
    requires most { level ≤ 15 }
    ensures levels { OnOk result (IsPut (level_at levels.old) (level_at levels.new) p level) }
    ensures links { OnOk result ((q : Pos) → links_at levels.new q ≡ links_at levels.old q) }
    ensures pending { OnOk result (pending.new ≡ record pending.old {
      rising = pending.old.rising
          ++ filter (is_between (level_at levels.old) 0 level) (linked (links_at levels.old p) p);
    }) }
    ensures put { OnOk result (put.new.items ≡ put.old.items ++ p ∷ []) }
{
    pending.add_rising_below(levels, p, 0, level)?;
    put.push(p)?;
    levels.put(p, level)
}
