use vx_policy::Edit;
use vx_sector::Cmd;
use vx_tick::Phase;

/// What happens in the core. Each is one atomic step of some thread; one that may not happen yet
/// changes nothing.
#[derive(Drop)]
pub enum Event {
    /// The player of that seat asks for a command.
    Act(u8, Cmd),
    /// The policy is edited; the edit counts from the next tick on.
    Edit(Edit),
    /// The sector of that number is taken for a tick.
    Take(u32),
    /// The work of a phase of the tick is done on a sector.
    Work(Phase, u32),
    /// The tick is fixed: it goes on record, and the map steps.
    Fix,
    /// The sector is put back, and begins its next window.
    Put(u32),
}
