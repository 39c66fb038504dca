use vx_session::Request;

/// So many commands a block has at most.
pub const MOST_REQUESTS: usize = 65_536;

/// Where a body is between two of its lines.
#[derive(Drop)]
pub enum Stage {
    /// In no block.
    Outside,
    /// In a block, whose lines have asked for this so far.
    Inside(Vec<Request>),
}
