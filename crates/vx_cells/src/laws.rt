ghost use Rattle.vx_cells.specs.Laws.{SetBlockIsRead, OtherBlocksStay, EqualIsTheSame};
ghost use Rattle.vx_cells.specs.MapLaws.{CellOfBlock, PutInside, PutStaysFilled, PutCellIsRead, OthersStay};

/// What was put at a position stands there.
pub fn set_block_is_read()
    ensures { SetBlockIsRead }
{}

/// What is put at a position changes no other, neither its cell nor its slots.
pub fn other_blocks_stay()
    ensures { OtherBlocksStay }
{}

/// `==` of two sectors says yes exactly where all is the same: the size of the world, the number of
/// the sector, each cell and each slot.
pub fn equal_is_the_same()
    ensures { EqualIsTheSame }
{}

/// A cell is put down on a map at the positions inside the world alone. It stands there, a chest
/// empty, and what stands anywhere else stays, cell and slots; the world stays as large.
pub fn put_cell_is_read()
    ensures inside { PutInside }
    ensures filled { PutStaysFilled }
    ensures read { PutCellIsRead }
    ensures others { OthersStay }
    ensures cell { CellOfBlock }
{}
