ghost use Rattle.std.specs.Prelude.{◌≡◌};
ghost use Rattle.vx_geom.specs.Dirs.{opposite, same_dir};

/// One of the six directions. East is towards greater x, up towards greater y, south towards
/// greater z.
#[derive(Clone, Copy, Debug, PartialEq, Eq)]
pub enum Dir {
    East,
    West,
    Up,
    Down,
    South,
    North,
}

impl Dir {
    /// The six directions.
    pub const ALL: [Dir; 6] = [
        Dir::East,
        Dir::West,
        Dir::Up,
        Dir::Down,
        Dir::South,
        Dir::North,
    ];

    /// Whether both are one direction.
    pub fn is(self, other: Dir) -> bool
        ensures { result ≡ same_dir self other }
    {
        self == other
    }

    /// The direction that leads back.
    pub fn opposite(self) -> Dir
        ensures { result ≡ opposite self }
    {
        match self {
            Dir::East => Dir::West,
            Dir::West => Dir::East,
            Dir::Up => Dir::Down,
            Dir::Down => Dir::Up,
            Dir::South => Dir::North,
            Dir::North => Dir::South,
        }
    }
}
