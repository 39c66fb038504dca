ghost use Rattle.std.specs.Prelude.{◌≡◌, length};
ghost use Rattle.vx_block.specs.Cell.{cell_text, IsCell};
ghost use Rattle.vx_block.specs.Cells.{cells, times, AreCells};
ghost use Rattle.vx_block.specs.Part.{part_text};
ghost use Rattle.vx_block.specs.declared.cell.Cell.{Cell};
ghost use Rattle.vx_block.specs.declared.part.Part.{Part};

/// No two cells have one text, and no two parts.
pub fn one_text_each()
    ensures cells { (a b : Cell) → IsCell a → IsCell b → cell_text a ≡ cell_text b → a ≡ b }
    ensures parts { (a b : Part) → part_text a ≡ part_text b → a ≡ b }
{}

/// There are 165 cells: so many stand in a list that has each cell once, and nothing else.
pub fn number_of_cells()
    ensures count { length cells ≡ 165 }
    ensures ranged { AreCells cells }
    ensures once { (c : Cell) → IsCell c → times c ≡ 1 }
{}
