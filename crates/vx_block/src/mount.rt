ghost use Rattle.std.specs.Prelude.{◌≡◌, IfSome, Some};
ghost use Rattle.vx_block.specs.States.{mount_dir, dir_word};

use crate::side::Side;
use vx_geom::Dir;

/// What a torch stands on or hangs on: the block below it, or one beside it.
#[derive(Clone, Copy, Debug, PartialEq, Eq)]
pub enum Mount {
    Floor,
    Wall(Side),
}

impl Mount {
    /// The direction from the torch to its block.
    pub fn dir(self) -> Dir
        ensures { result ≡ mount_dir self }
    {
        match self {
            Mount::Floor => Dir::Down,
            Mount::Wall(side) => side.dir(),
        }
    }

    /// The mount whose direction has this word, letter for letter.
    pub(crate) fn read(word: &str) -> Option<Mount>
        ensures found { IfSome result (λ m. dir_word (mount_dir m) ≡ word.now) }
        ensures only { (m : Mount) → dir_word (mount_dir m) ≡ word.now → result ≡ Some m }
    {
        match word {
            "down" => Some(Mount::Floor),
            "east" => Some(Mount::Wall(Side::East)),
            "west" => Some(Mount::Wall(Side::West)),
            "south" => Some(Mount::Wall(Side::South)),
            "north" => Some(Mount::Wall(Side::North)),
            _ => None,
        }
    }
}
