//! How large a world may grow.

/// How many players a world may have.
pub const MAX_PLAYERS: usize = 64;

/// How many ticks a world may have.
pub const MAX_TICKS: u64 = 1_099_511_627_776;
