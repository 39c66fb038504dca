//! What the rules answer to a command, and what it does.
ghost use Rattle.std.specs.Prelude.{◌≡◌, ◌⊎◌, true, Some, None, IfOk, IfErr, MatchResult, Ok, Err};
ghost use Rattle.vx_cells.specs.SectorCells.{SectorCells, IsWhole, holds, cell_at};
ghost use Rattle.vx_sector.specs.SectorData.{seat_of};
ghost use Rattle.vx_sector.specs.Commands.{place_of};
ghost use Rattle.vx_sector.specs.Acting.{hindrance, ok_unless, slots_at, reply_by, effect_of, permitted_effect, rules_answer, Fits};

use crate::chests::{is_in_use, opening, putting, taking};
use crate::cmd::Cmd;
use crate::contents::Contents;
use crate::effect::Effect;
use crate::judge::Judge;
use crate::refusal::Refusal;
use crate::reply::Reply;
use crate::seat::Seat;
use crate::sight::Sight;
use std::alloc::Global;
use vx_block::{Cell, Part};
use vx_cells::Cells;
use vx_decide::{Rule, Verdict};
use vx_geom::Pos;

/// The reply to a command at a position of the sector that nothing stands against, and what the
/// command does. It takes memory for what an opened chest holds.
pub fn outcome_of(
    alloc: Global,
    judge: &mut Judge,
    cells: &Cells,
    seat: &Seat,
    cmd: &Cmd,
) -> Result<(Reply, Effect), Refusal>
    requires held { holds cells.now (place_of cmd.now) ≡ true }
    requires whole { IsWhole cells.now }
    ensures answer { MatchResult result
        (λ done. rules_answer judge.old.policy cells.now (seat_of seat.now) cmd.now ≡ Ok done.0)
        (λ refusal. (rules_answer judge.old.policy cells.now (seat_of seat.now) cmd.now ≡ Err refusal)
        ⊎ (refusal ≡ Refusal.NoMemory)) }
    ensures effect { IfOk result (λ done. done.1 ≡ effect_of cells.now cmd.now) }
    ensures fits { IfOk result (λ done. Fits cells.now (place_of cmd.now) done.1) }
    ensures judge { judge.new ≡ judge.old }
{
    // The cell is read before the policy is asked, so that it is fetched from memory meanwhile.
    let cell = cells.get(cmd.place());
    let rule = permitted(judge, seat, cmd)?;
    by_leave(alloc, cells, cell, rule, cmd)
}

// The rule that permits the player of the seat what the command asks leave for. A look asks nobody,
// and its reply tells no rule.
fn permitted(judge: &mut Judge, seat: &Seat, cmd: &Cmd) -> Result<Rule, Refusal>
    ensures leave { MatchResult result
        (λ rule. (c : SectorCells) → rules_answer judge.old.policy c (seat_of seat.now) cmd.now
        ≡ ok_unless (hindrance c cmd.now) (reply_by rule c cmd.now))
        (λ refusal. (c : SectorCells) → rules_answer judge.old.policy c (seat_of seat.now) cmd.now
        ≡ Err refusal) }
    ensures judge { judge.new ≡ judge.old }
{
    let Some(action) = cmd.action() else {
        return Ok(Rule::Default);
    };
    match judge.ask(&seat.name, action, cmd.place()) {
        Verdict::Permit(rule) => Ok(rule),
        Verdict::Deny(rule) => Err(Refusal::Denied(rule)),
    }
}

// The reply to a command at a position where that cell stands, by leave of the rule, and what the
// command does.
fn by_leave(
    alloc: Global,
    cells: &Cells,
    cell: Cell,
    rule: Rule,
    cmd: &Cmd,
) -> Result<(Reply, Effect), Refusal>
    requires held { holds cells.now (place_of cmd.now) ≡ true }
    requires whole { IsWhole cells.now }
    requires cell { cell ≡ cell_at cells.now (place_of cmd.now) }
    ensures answer { MatchResult result
        (λ done. (hindrance cells.now cmd.now ≡ None)
        × (done.0 ≡ reply_by rule cells.now cmd.now))
        (λ refusal. (hindrance cells.now cmd.now ≡ Some refusal)
        ⊎ (refusal ≡ Refusal.NoMemory)) }
    ensures effect { IfOk result (λ done. done.1 ≡ effect_of cells.now cmd.now) }
    ensures fits { IfOk result (λ done. Fits cells.now (place_of cmd.now) done.1) }
{
    match cmd {
        Cmd::Look(_) => Ok((Reply::Seen(Sight::new(cell)), Effect::Same)),
        Cmd::Place(_, part) => done(rule, placing(cell, *part)),
        Cmd::Break(p) => done(rule, breaking(cells, *p, cell)),
        Cmd::Turn(_) => done(rule, turning(cell)),
        Cmd::OpenChest(p) => {
            Ok((
                Reply::Opened(rule, shown(alloc, cells, *p, cell)?),
                Effect::Same,
            ))
        }
        Cmd::Put {
            at,
            slot,
            item,
            count,
        } => done(rule, putting(cells, *at, cell, *slot, *item, *count)),
        Cmd::Take { at, slot, count } => done(rule, taking(cells, *at, cell, *slot, *count)),
    }
}

// The reply to what is done by leave of the rule, unless something stands against it.
fn done(rule: Rule, effect: Result<Effect, Refusal>) -> Result<(Reply, Effect), Refusal>
    ensures { MatchResult result
        (λ done. (done.0 ≡ Reply.Done rule) × (effect ≡ Ok done.1))
        (λ refusal. effect ≡ Err refusal) }
{
    Ok((Reply::Done(rule), effect?))
}

// What the chest to be opened holds, if that cell is one.
fn shown(alloc: Global, cells: &Cells, p: Pos, cell: Cell) -> Result<Contents, Refusal>
    requires held { holds cells.now p ≡ true }
    requires cell { cell ≡ cell_at cells.now p }
    ensures { MatchResult result
        (λ contents. (hindrance cells.now (Cmd.OpenChest p) ≡ None)
        × (contents ≡ slots_at cells.now p))
        (λ refusal. (hindrance cells.now (Cmd.OpenChest p) ≡ Some refusal)
        ⊎ (refusal ≡ Refusal.NoMemory)) }
{
    let slots = opening(cells, p, cell)?;
    Contents::new(alloc, *slots).map_err(|_| Refusal::NoMemory)
}

// A part put where that cell stands, if it is air.
fn placing(cell: Cell, part: Part) -> Result<Effect, Refusal>
    ensures { (c : SectorCells) (p : Pos) → cell ≡ cell_at c p
        → result ≡ permitted_effect c (Cmd.Place p part) }
{
    let Cell::Air = cell else {
        return Err(Refusal::Occupied);
    };
    Ok(Effect::NewCell(part.cell()))
}

// Air left where that cell stands, if it is a part.
fn breaking(cells: &Cells, p: Pos, cell: Cell) -> Result<Effect, Refusal>
    requires held { holds cells.now p ≡ true }
    requires whole { IsWhole cells.now }
    requires cell { cell ≡ cell_at cells.now p }
    ensures { result ≡ permitted_effect cells.now (Cmd.Break p) }
{
    match cell {
        Cell::Air => Err(Refusal::Nothing),
        Cell::Piston { extended: true, .. } | Cell::Head { .. } => Err(Refusal::Extended),
        Cell::Bedrock => Err(Refusal::Unbreakable),
        _ if is_in_use(cells, p, cell) => Err(Refusal::NotEmpty),
        _ => Ok(Effect::NewCell(Cell::Air)),
    }
}

// That cell switched, if it is a lever.
fn turning(cell: Cell) -> Result<Effect, Refusal>
    ensures { (c : SectorCells) (p : Pos) → cell ≡ cell_at c p
        → result ≡ permitted_effect c (Cmd.Turn p) }
{
    let Cell::Lever { facing, on } = cell else {
        return Err(Refusal::NotLever);
    };
    Ok(Effect::NewCell(Cell::Lever { facing, on: !on }))
}
