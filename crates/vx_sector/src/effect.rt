use vx_block::Cell;
use vx_cells::Slot;

/// What a command does at its position.
#[derive(Clone, Copy, Debug, PartialEq, Eq)]
pub enum Effect {
    /// Nothing: what is there stays.
    Same,
    /// Another cell stands there.
    NewCell(Cell),
    /// Something else is in that slot of the chest there.
    NewSlot(u8, Slot),
}
