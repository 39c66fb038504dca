ghost use Rattle.std.specs.Prelude.{ℕ};

use std::marker::Brand;
use std::sync::ledger::Ledger;
use vx_board::Board;
use vx_stamp::History;

/// Names a world in the types of what belongs to it: the ledger of its sectors, the policy that its
/// desk was opened with and the book of the edits that it accepts, the book of the marks that its
/// keeper gives, and how many sectors it has.
pub trait Places: Ledger + Board + History {
    ghost all: { ℕ };
}

impl Places for Brand {
    ghost all = { 0 };
}
