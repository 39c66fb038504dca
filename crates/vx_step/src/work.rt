ghost use Rattle.std.specs.Prelude.{◌≡◌, ◌<◌, ℕ, IfOk};

use std::alloc::{AllocError, Global};
use vx_tick::Phase;

/// The work of a phase of a tick: a piece for each sector.
pub trait Work {
    /// What a sector's piece gives.
    type Out;

    /// How many sectors there are.
    ghost count: { Self → ℕ };

    /// What the piece of the sector of each number gives.
    ghost gives: { Self → ℕ → Self.Out → Type 0 };

    /// How many sectors there are.
    fn sectors(&self) -> u32
        ensures { result ≡ count self.now };

    /// The phase whose work it is.
    fn phase(&self) -> Phase;

    /// The piece of a sector.
    fn piece(&self, alloc: Global, sector: u32) -> Result<Self::Out, AllocError>
        requires { sector < count self.now }
        ensures { IfOk result (λ out. gives self.now sector out) };
}
