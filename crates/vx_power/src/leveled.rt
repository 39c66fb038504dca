ghost use Rattle.std.specs.Prelude.{◌≡◌, ◌<◌, ℕ};
ghost use Rattle.vx_geom.specs.declared.pos.Pos.{Pos};

use vx_geom::Pos;

/// What tells the level of dust.
pub trait Leveled {
    /// The level at each position.
    ghost level: { Self → Pos → ℕ };

    /// The level of the dust at a position, 0 to 15; 0 where no dust is. It takes no memory.
    fn at(&self, p: Pos) -> u8
        ensures value { result ≡ level self.now p }
        ensures most { result < 16 };
}
