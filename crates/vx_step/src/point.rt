use vx_tick::Phase;

/// A point of a tick at which a gate is called.
#[derive(Clone, Copy, Debug, PartialEq, Eq)]
pub enum Point {
    /// A sector's lock is held.
    Held,
    /// A sector's piece of a phase begins.
    Working(Phase),
}
