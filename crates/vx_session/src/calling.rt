//! What is asked of the world and the desk, and what their answers say.
ghost use Rattle.std.specs.Prelude.{◌≡◌, ◌≢◌, false, None, Err, IfOk, IfSome, OnErr};
ghost use Rattle.vx_geom.specs.Sizes.{sector_of};
ghost use Rattle.vx_sector.specs.Commands.{place_of};
ghost use Rattle.vx_sector.specs.Windows.{is_recorded};
ghost use Rattle.vx_session.specs.Traces.{IsCalled};
ghost use Rattle.vx_session.specs.Sessions.{edits_to};

use crate::fronts::is_last;
use crate::session_error::SessionError;
use std::alloc::{AllocError, Global};
use std::sync::Wait;
use vx_board::{DeskError, Listed, Refused};
use vx_geom::Bounds;
use vx_keeper::{Keeper, Places};
use vx_policy::EditRefusal;
use vx_sector::{Cmd, Refusal, Reply};
use vx_step::NoGate;
use vx_world::{Pass, Seats, World};

/// Has the sector of that number begin its window anew, where it is one and a tick left it behind.
// No clause tells which was behind: if one stayed so, the next tick or the settlement would say so.
pub(crate) fn begin_anew<A: Places, B: Seats>(
    alloc: Global,
    world: &mut World<A, B>,
    keeper: &Keeper<A>,
    sector: Option<u32>,
) -> Result<(), AllocError>
    ensures { world.new.bounds ≡ world.old.bounds }
{
    match sector {
        Some(number) => world.begin_anew(alloc, number as usize, keeper),
        None => Ok(()),
    }
}

/// Carries out a command with the pass, in the world with these bounds, whose sector of that number
/// holds its position, and tells the answer. Where there is no room or no memory for the record,
/// the lists of the pass stay as they are.
// Inlined, so that the answer is not moved once more.
#[inline(always)]
pub(crate) fn called<A: Places, B: Seats>(
    bounds: &Bounds,
    world: &World<A, B>,
    rt: &impl Wait,
    pass: &mut Pass<A, B>,
    sector: Option<u32>,
    cmd: &Cmd,
) -> Result<Result<Reply, Refusal>, SessionError>
    requires bounds { world.now.bounds ≡ bounds.now }
    requires sector { sector ≡ sector_of bounds.now (place_of cmd.now) }
    ensures called { IfOk result (λ answer.
        IsCalled (sector_of bounds.now (place_of cmd.now)) pass.old.lists
        (record { cmd = cmd.now; answer = answer }) pass.new.lists) }
    ensures refused { OnErr result (pass.new.lists ≡ pass.old.lists) }
    ensures seat { pass.new.seat ≡ pass.old.seat }
{
    bounds.soundness();
    let answer = world.submit_in(rt, pass, sector, cmd, &NoGate);
    if let Some(error) = shortage(&answer) {
        return Err(error);
    }
    Ok(answer)
}

/// Carries out a command as `called` does, in a world that no other thread can reach meanwhile.
// Inlined, so that the answer is not moved once more.
#[inline(always)]
pub(crate) fn called_alone<A: Places, B: Seats>(
    bounds: &Bounds,
    world: &mut World<A, B>,
    rt: &impl Wait,
    pass: &mut Pass<A, B>,
    sector: Option<u32>,
    cmd: &Cmd,
) -> Result<Result<Reply, Refusal>, SessionError>
    requires bounds { world.old.bounds ≡ bounds.now }
    requires sector { sector ≡ sector_of bounds.now (place_of cmd.now) }
    ensures called { IfOk result (λ answer.
        IsCalled (sector_of bounds.now (place_of cmd.now)) pass.old.lists
        (record { cmd = cmd.now; answer = answer }) pass.new.lists) }
    ensures refused { OnErr result (pass.new.lists ≡ pass.old.lists) }
    ensures seat { pass.new.seat ≡ pass.old.seat }
    ensures bounds { world.new.bounds ≡ world.old.bounds }
{
    bounds.soundness();
    let answer = world.submit_alone(rt, pass, sector, cmd);
    if let Some(error) = shortage(&answer) {
        return Err(error);
    }
    Ok(answer)
}

// What was short, where the command was refused for want of room or memory.
fn shortage(answer: &Result<Reply, Refusal>) -> Option<SessionError>
    ensures short { IfSome result (λ _. is_recorded answer.now ≡ false) }
    ensures enough { result ≡ None → (answer.now ≢ Err Refusal.HistoryFull)
        × (answer.now ≢ Err Refusal.NoMemory) }
{
    match answer {
        Err(Refusal::HistoryFull) => Some(SessionError::HistoryFull),
        Err(Refusal::NoMemory) => Some(SessionError::NoMemory),
        _ => None,
    }
}

/// The cause for which the rules refuse the edit. It is an error where the edit was refused for
/// want of room or memory, or on other edits than those up to the last one.
pub(crate) fn cause_of<A: Places>(
    last: &Option<Listed<A>>,
    refused: &Refused<A>,
) -> Result<EditRefusal, SessionError>
    ensures { IfOk result (λ cause. (refused.now.front ≡ edits_to last.now)
        × (refused.now.error ≡ DeskError.Refused cause)) }
{
    if !is_last(last, &refused.front) {
        return Err(SessionError::elsewhere());
    }
    match refused.error {
        DeskError::Refused(cause) => Ok(cause),
        DeskError::HistoryFull => Err(SessionError::HistoryFull),
        DeskError::NoMemory => Err(SessionError::NoMemory),
    }
}
