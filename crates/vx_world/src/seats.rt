ghost use Rattle.std.specs.Prelude.{ℕ};

use std::marker::Brand;
use std::sync::ledger::Ledger;

/// Names the ledger of a world's passes in the types of what belongs to it, with how many there
/// are.
pub trait Seats: Ledger {
    ghost all: { ℕ };
}

impl Seats for Brand {
    ghost all = { 0 };
}
