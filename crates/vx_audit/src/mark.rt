/// What is kept of what was done, where the record and the players' own lists say the rest.
#[derive(Clone, Copy)]
pub enum Mark {
    /// A command: the number of its seat, and that of the sector that it speaks of; none out of the
    /// world.
    Call { seat: u8, sector: Option<u8> },
    /// An edit that was accepted.
    Edit,
    /// A tick.
    Tick,
    /// The calls from here to the next end are a block: several players made them at once, each
    /// player's in their order.
    Begin,
    /// The end of a block.
    End,
}
