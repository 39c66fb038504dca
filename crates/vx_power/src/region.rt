ghost use Rattle.std.specs.Prelude.{◌≡◌, Bool};
ghost use Rattle.vx_geom.specs.declared.pos.Pos.{Pos};

use vx_geom::Pos;

/// What tells at which positions levels are asked for.
pub trait Region {
    /// Whether it has the position.
    ghost holds: { Self → Pos → Bool };

    /// Whether it has the position. It takes no memory.
    fn hold(&self, p: Pos) -> bool
        ensures { result ≡ holds self.now p };
}
