//! The positions beside one of the widest world.
ghost use Rattle.std.specs.Prelude.{◌≡◌, true};
ghost use Rattle.vx_power.specs.Dust.{beside, over, under};
ghost use Rattle.vx_power.specs.Levels.{is_place};

use vx_block::Side;
use vx_geom::Pos;

/// The position beside one of the widest world on that side.
#[tactic(auto, using(vx_base::proofs::Signed::signed))]
pub fn place_beside(p: Pos, side: Side) -> Pos
    requires { is_place p ≡ true }
    ensures value { result ≡ beside p side }
    ensures level { result.y ≡ p.y }
{
    match side {
        Side::East => Pos { x: p.x + 1, ..p },
        Side::West => Pos { x: p.x - 1, ..p },
        Side::South => Pos { z: p.z + 1, ..p },
        Side::North => Pos { z: p.z - 1, ..p },
    }
}

/// The position over that one.
#[tactic(auto, using(vx_base::proofs::Signed::signed))]
pub fn place_over(p: Pos, side: Side) -> Pos
    requires { is_place p ≡ true }
    ensures { result ≡ over (beside p side) }
{
    let next = place_beside(p, side);
    Pos {
        y: next.y + 1,
        ..next
    }
}

/// The position under that one.
#[tactic(auto, using(vx_base::proofs::Signed::signed))]
pub fn place_under(p: Pos, side: Side) -> Pos
    requires { is_place p ≡ true }
    ensures { result ≡ under (beside p side) }
{
    let next = place_beside(p, side);
    Pos {
        y: next.y - 1,
        ..next
    }
}
