ghost use Rattle.std.specs.Prelude.{◌≡◌, IfSome, Some};
ghost use Rattle.vx_block.specs.Sides.{same_side, side_back, side_right};
ghost use Rattle.vx_block.specs.States.{side_dir, dir_word};

use vx_geom::Dir;

/// One of the four horizontal directions.
#[derive(Clone, Copy, Debug, PartialEq, Eq)]
pub enum Side {
    East,
    West,
    South,
    North,
}

impl Side {
    /// The four sides.
    pub const ALL: [Side; 4] = [Side::East, Side::West, Side::South, Side::North];

    /// Whether both are one side.
    pub fn is(self, other: Side) -> bool
        ensures { result ≡ same_side self other }
    {
        self == other
    }

    /// The side that leads back.
    pub fn back(self) -> Side
        ensures { result ≡ side_back self }
    {
        match self {
            Side::East => Side::West,
            Side::West => Side::East,
            Side::South => Side::North,
            Side::North => Side::South,
        }
    }

    /// The side to the right of one who looks to this side.
    pub fn right(self) -> Side
        ensures { result ≡ side_right self }
    {
        match self {
            Side::East => Side::South,
            Side::South => Side::West,
            Side::West => Side::North,
            Side::North => Side::East,
        }
    }

    /// The direction of this side.
    pub fn dir(self) -> Dir
        ensures { result ≡ side_dir self }
    {
        match self {
            Side::East => Dir::East,
            Side::West => Dir::West,
            Side::South => Dir::South,
            Side::North => Dir::North,
        }
    }

    /// The side that has this word, letter for letter.
    pub(crate) fn read(word: &str) -> Option<Side>
        ensures found { IfSome result (λ s. dir_word (side_dir s) ≡ word.now) }
        ensures only { (s : Side) → dir_word (side_dir s) ≡ word.now → result ≡ Some s }
    {
        match word {
            "east" => Some(Side::East),
            "west" => Some(Side::West),
            "south" => Some(Side::South),
            "north" => Some(Side::North),
            _ => None,
        }
    }
}
