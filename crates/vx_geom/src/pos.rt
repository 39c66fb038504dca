ghost use Rattle.std.specs.Prelude.{◌≡◌, ◌+ℤ◌, SomeIff};
ghost use Rattle.vx_geom.specs.Neighbor.{neighbor, FitsPos};
ghost use Rattle.vx_geom.specs.Order.{comes_before};

use crate::dir::Dir;

/// A position in the world: x grows east, y up and z south. Positions are ordered by y, then z,
/// then x.
#[derive(Clone, Copy, Debug, Default, PartialEq, Eq, PartialOrd, Ord, Hash)]
pub struct Pos {
    pub y: i32,
    pub z: i32,
    pub x: i32,
}

impl Pos {
    /// The position with these coordinates, in the order in which people write them.
    pub fn new(x: i32, y: i32, z: i32) -> Pos
        ensures { result ≡ record { y = y; z = z; x = x } }
    {
        Pos { y, z, x }
    }

    /// Whether this position comes before the other: the lower one does, of one height the one
    /// further north, and in one row the one further west.
    #[tactic(auto, unfolding(crate::specs::Order::comes_before))]
    pub fn comes_before(&self, other: &Pos) -> bool
        ensures { result ≡ comes_before self.now other.now }
    {
        self < other
    }

    /// The next position on that side, or `None` past the ends of `i32`.
    pub fn step(self, dir: Dir) -> Option<Pos>
        ensures { SomeIff result (FitsPos (neighbor self dir)) (neighbor self dir) }
    {
        match dir {
            Dir::East => self.further_east(1),
            Dir::West => self.further_east(-1),
            Dir::Up => self.further_up(1),
            Dir::Down => self.further_up(-1),
            Dir::South => self.further_south(1),
            Dir::North => self.further_south(-1),
        }
    }

    // The position so much further east, or `None` past the ends of `i32`.
    fn further_east(self, by: i32) -> Option<Pos>
        ensures { let p : Pos = record self { x = self.x +ℤ by } in SomeIff result (FitsPos p) p }
    {
        Some(Pos {
            x: self.x.checked_add(by)?,
            ..self
        })
    }

    // The position so much further up, or `None` past the ends of `i32`.
    fn further_up(self, by: i32) -> Option<Pos>
        ensures { let p : Pos = record self { y = self.y +ℤ by } in SomeIff result (FitsPos p) p }
    {
        Some(Pos {
            y: self.y.checked_add(by)?,
            ..self
        })
    }

    // The position so much further south, or `None` past the ends of `i32`.
    fn further_south(self, by: i32) -> Option<Pos>
        ensures { let p : Pos = record self { z = self.z +ℤ by } in SomeIff result (FitsPos p) p }
    {
        Some(Pos {
            z: self.z.checked_add(by)?,
            ..self
        })
    }
}
