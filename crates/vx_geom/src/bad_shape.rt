use thiserror::Error;

/// The points and heights make no polygon: there are fewer than 3 or more than 64 points, or the
/// lowest y is above the highest.
#[derive(Clone, Copy, Debug, PartialEq, Eq, Error)]
#[error("bad shape")]
pub struct BadShape;
