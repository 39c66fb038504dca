ghost use Rattle.std.specs.Prelude.{◌≡◌, Some};

use std::fmt;
use std::marker::Model;
use vx_block::Cell;

/// The cell that a look showed. Contracts see it as the cell.
// In an answer it lies where the rule of another answer does, at a multiple of 4 bytes. Where the
// two lie across one another, an answer is copied in pieces that do not fit those in which it was
// written, and the processor waits at each copy until all is written that a command writes.
#[derive_where(Clone, Copy, Debug, PartialEq, Eq)]
pub struct Sight {
    cell: Cell,
    #[derive_where(skip)]
    aligned: [u32; 0],
}

impl Model for Sight {
    ghost use Rattle.std.specs.Prelude.{◌≡◌, []};
    ghost use Rattle.std.proofs.Common.{sym};
    ghost use Rattle.vx_block.specs.declared.cell.Cell.{Cell};

    ghost Value = { Cell };

    ghost view = { λ a. a.cell };

    ghost invariant = { λ a. a.aligned ≡ [] };

    ghost inverse = { λ c. record { cell = c; aligned = [] } };

    ghost inverse_ok = { λ a h i. record { cell = a.cell; aligned = sym h i } };
}

impl Sight {
    /// This cell.
    pub fn new(cell: Cell) -> Sight
        ensures { result ≡ cell }
    {
        Sight { cell, aligned: [] }
    }

    /// The cell.
    pub fn cell(&self) -> Cell
        ensures { result ≡ self.now }
    {
        self.cell
    }
}

/// As the cell is written.
impl fmt::Display for Sight {
    ghost use Rattle.vx_block.specs.Cell.{cell_text};

    ghost output = { λ cell. Some (cell_text cell) };

    fn fmt<W: fmt::Write>(&self, f: &mut fmt::Formatter<W>) -> fmt::Result {
        self.cell.fmt(f)
    }
}
