ghost use Rattle.std.specs.Prelude.{◌≡◌, map, IfOk};
ghost use Rattle.vx_policy.specs.Asked.{asked};
ghost use Rattle.vx_record.specs.Chronicles.{IsRun};
ghost use Rattle.vx_core.specs.Events.{happening};
ghost use Rattle.vx_core.specs.Machines.{run, chronicle_of};
ghost use Rattle.vx_record.specs.Records.{chronicle_in};

use crate::core_state::Core;
use crate::event::Event;
use crate::machine::Machine;
use std::alloc::{AllocError, Global};
use std::marker::Brand;
use vx_board::Naming;
use vx_record::Opening;

/// What stands after these events, one after another, in the world of this opening. An event that
/// may not happen as things are then changes nothing. The chronicle is a run: each of its ticks is
/// what the one-threaded rules give from the commands before it.
pub fn run_core(alloc: Global, opening: &Opening, events: &[Event]) -> Result<Core, AllocError>
    ensures chronicle { IfOk result (λ core.
        chronicle_in core.chronicle ≡ chronicle_of opening.now (map happening events.now)) }
    ensures edits { IfOk result (λ core.
        map asked core.edits.items ≡ (run opening.now (map happening events.now)).play.accepted) }
    ensures sectors { IfOk result (λ core.
        core.sectors.items ≡ (run opening.now (map happening events.now)).play.sectors) }
    ensures stages { IfOk result (λ core.
        core.stages.items ≡ (run opening.now (map happening events.now)).stages) }
    ensures run { IfOk result (λ core. IsRun (chronicle_in core.chronicle)) }
{
    opening.soundness();
    run_named::<Brand>(alloc, opening, events)
}

fn run_named<J: Naming>(
    alloc: Global,
    opening: &Opening,
    events: &[Event],
) -> Result<Core, AllocError>
    requires named { opening.now.policy ≡ J.first }
    ensures chronicle { IfOk result (λ core.
        chronicle_in core.chronicle ≡ chronicle_of opening.now (map happening events.now)) }
    ensures edits { IfOk result (λ core.
        map asked core.edits.items ≡ (run opening.now (map happening events.now)).play.accepted) }
    ensures sectors { IfOk result (λ core.
        core.sectors.items ≡ (run opening.now (map happening events.now)).play.sectors) }
    ensures stages { IfOk result (λ core.
        core.stages.items ≡ (run opening.now (map happening events.now)).stages) }
{
    let mut machine = Machine::<J>::open(alloc, opening)?;
    machine.take_all(alloc, events)?;
    machine.into_core(alloc, opening)
}
