ghost use Rattle.std.specs.Prelude.{ℕ, List};
ghost use Rattle.vx_marks.specs.Marks.{IsFirstMarked};

use vx_marks::Marks;

/// Marks that are found in order.
pub trait InOrder {
    /// The words that have them.
    ghost words: { Self → List ℕ };

    /// The first marked index from this one on. It takes no memory.
    fn next_from(&self, from: u32) -> Option<u32>
        ensures { IsFirstMarked (words self.now) from result };
}

impl InOrder for Marks {
    ghost words = { λ marks. marks };

    fn next_from(&self, from: u32) -> Option<u32> {
        self.first_from(from)
    }
}
