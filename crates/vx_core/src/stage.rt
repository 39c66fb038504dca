ghost use Rattle.std.specs.Prelude.{◌≡◌};
ghost use Rattle.vx_core.specs.Machines.{rank, is_stage, has_reached, due};

use vx_tick::Phase;

/// Where a sector of the core is.
#[derive(Clone, Copy, Debug, PartialEq, Eq)]
pub enum Stage {
    /// At home, where it takes commands.
    Home,
    /// Away for a tick, with no work done on it.
    Taken,
    /// Away, with the work of the phases up to this one done.
    Worked(Phase),
}

impl Stage {
    /// The stage at which the work of a phase is due.
    pub(crate) fn due(phase: Phase) -> Stage
        ensures { result ≡ due phase }
    {
        match phase {
            Phase::Parts => Stage::Taken,
            Phase::Fates => Stage::Worked(Phase::Parts),
            Phase::Cells => Stage::Worked(Phase::Fates),
        }
    }

    /// Whether it is this stage.
    pub(crate) fn is(self, stage: Stage) -> bool
        ensures { result ≡ is_stage stage self }
    {
        stage.rank() == self.rank()
    }

    /// Whether it is this stage or a later one.
    pub(crate) fn has_reached(self, stage: Stage) -> bool
        ensures { result ≡ has_reached stage self }
    {
        stage.rank() <= self.rank()
    }

    // The number of the stage in their order.
    fn rank(self) -> u8
        ensures { result ≡ rank self }
    {
        match self {
            Stage::Home => 0,
            Stage::Taken => 1,
            Stage::Worked(Phase::Parts) => 2,
            Stage::Worked(Phase::Fates) => 3,
            Stage::Worked(Phase::Cells) => 4,
        }
    }
}
