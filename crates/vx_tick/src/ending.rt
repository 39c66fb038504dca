ghost use Rattle.std.specs.Prelude.{◌≡◌, [], length, map, List, IfOk, OnOk};
ghost use Rattle.vx_region.specs.Regions.{Regions};
ghost use Rattle.vx_piston.specs.Claims.{IsTable};
ghost use Rattle.vx_piston.specs.Moves.{Moving};
ghost use Rattle.vx_cause.specs.Judging.{denial};
ghost use Rattle.vx_cause.specs.Laws.{permitted};
ghost use Rattle.vx_tick.specs.Fates.{IsFate, AreFates};

use crate::fate::Fate;
use std::alloc::{AllocError, Global};
use vx_cause::judge;
use vx_decide::{Decide, Rule};
use vx_geom::Pos;
use vx_piston::{Claims, Move};
use vx_policy::Version;

/// What becomes of these moves, each beside the position of its piston, in their order. The policy
/// is asked once for each cell; what beats a move costs the cells of the move.
pub fn fates<D: Decide>(
    alloc: Global,
    policy: &D,
    moves: &[Move],
) -> Result<Vec<(Pos, Fate)>, AllocError>
    ensures { IfOk result (λ fates.
        AreFates (D.policy policy.now) moves.now moves.now fates.items) }
{
    let denials = denials(alloc, policy, moves)?;
    fates_by(alloc, moves, denials.as_slice())
}

/// The fates of these moves under a version of the policy.
pub fn fates_under(
    alloc: Global,
    version: &Version,
    moves: &[Move],
) -> Result<Vec<(Pos, Fate)>, AllocError>
    ensures { IfOk result (λ fates.
        AreFates version.now.policy moves.now moves.now fates.items) }
{
    fates(alloc, &version.policy, moves)
}

/// The fates of these moves, by what denies each of them.
pub fn fates_by(
    alloc: Global,
    moves: &[Move],
    denials: &[Option<(Pos, Rule)>],
) -> Result<Vec<(Pos, Fate)>, AllocError>
    requires each { length denials.now ≡ length moves.now }
    ensures { IfOk result (λ fates. (rs : Regions) → denials.now ≡ map (denial rs) moves.now
        → AreFates rs moves.now moves.now fates.items) }
{
    let mut claims = Claims::new(alloc);
    add_permitted(&mut claims, moves, denials)?;
    ended(alloc, &claims, moves, denials)
}

/// What denies each of the moves, if anything does.
pub fn denials<D: Decide>(
    alloc: Global,
    policy: &D,
    moves: &[Move],
) -> Result<Vec<Option<(Pos, Rule)>>, AllocError>
    ensures { IfOk result (λ denials.
        denials.items ≡ map (denial (D.policy policy.now)) moves.now) }
{
    let mut denials = Vec::with_capacity(alloc, moves.len())?;
    for m in moves {
        denials.push(judge(policy, m).err())?;
    }
    Ok(denials)
}

// Adds the claims of the moves that nothing denies to none.
fn add_permitted(
    claims: &mut Claims,
    moves: &[Move],
    denials: &[Option<(Pos, Rule)>],
) -> Result<(), AllocError>
    requires none { claims.old ≡ [] }
    requires each { length denials.now ≡ length moves.now }
    ensures { OnOk result ((rs : Regions) → denials.now ≡ map (denial rs) moves.now
        → IsTable (permitted rs moves.now) claims.new) }
{
    for i in 0..moves.len() {
        if denials[i].is_none() {
            claims.add(&moves[i])?;
        }
    }
    Ok(())
}

// What becomes of each move, by what denies it and by these claims.
fn ended(
    alloc: Global,
    claims: &Claims,
    moves: &[Move],
    denials: &[Option<(Pos, Rule)>],
) -> Result<Vec<(Pos, Fate)>, AllocError>
    requires each { length denials.now ≡ length moves.now }
    ensures { IfOk result (λ fates. (rs : Regions) (all : List Moving)
        → denials.now ≡ map (denial rs) moves.now → IsTable (permitted rs all) claims.now
        → AreFates rs all moves.now fates.items) }
{
    let mut fates = Vec::with_capacity(alloc, moves.len())?;
    for i in 0..moves.len() {
        let m = &moves[i];
        fates.push((m.at, end_of(claims, m, denials[i])))?;
    }
    Ok(fates)
}

// What becomes of a move, by what denies it and by the claims of those that are permitted.
fn end_of(claims: &Claims, m: &Move, denied: Option<(Pos, Rule)>) -> Fate
    ensures { (rs : Regions) (all : List Moving) → denied ≡ denial rs m.now
        → IsTable (permitted rs all) claims.now → IsFate rs all m.now result }
{
    if let Some((p, rule)) = denied {
        return Fate::Denied(p, rule);
    }
    match claims.wins(m) {
        Some(by) => Fate::Beaten(by),
        None => Fate::Moved,
    }
}
