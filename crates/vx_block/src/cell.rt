ghost use Rattle.std.specs.Prelude.{◌≡◌, Bool, if◌then◌else◌, [], ◌∷◌, ◌++◌, codes, IfSome, Some};
ghost use Rattle.vx_block.specs.Cell.{kind_of, cell_state, cell_text, IsCell, IsSpelled};
ghost use Rattle.vx_block.specs.Components.{is_dust, is_device};
ghost use Rattle.vx_block.specs.Conductors.{conducts};
ghost use Rattle.vx_block.specs.Cut.{colon, tail_of};
ghost use Rattle.vx_block.specs.Kind.{kind_word};
ghost use Rattle.vx_block.specs.Mobilities.{mobility_of};
ghost use Rattle.vx_block.specs.States.{mount_dir, dir_word, on_word, out_word, grip_word};

use crate::cut::cut;
use crate::joined::{one_word, three_words, two_words};
use crate::kind::Kind;
use crate::lamp::Lamp;
use crate::level::Level;
use crate::mobility::Mobility;
use crate::mount::Mount;
use crate::repeater::Repeater;
use crate::words::{
    dir_word, grip_word, on_word, out_word, read_dir, read_grip, read_on, read_out,
};
use arrayvec::ArrayString;
use std::fmt;
use vx_geom::Dir;

/// What stands at one position of the world, with its state. There are 165 cells. The slots of a
/// chest stand beside it.
#[derive(Clone, Copy, Debug, PartialEq, Eq)]
pub enum Cell {
    Air,
    Stone,
    Dirt,
    Planks,
    Glass,
    Obsidian,
    Bedrock,
    Chest,
    /// Dust, at the level that it stores.
    Dust(Level),
    /// A torch, which faces the block that it is mounted on.
    Torch {
        facing: Mount,
        lit: bool,
    },
    /// A lever, which faces the block that it is mounted on.
    Lever {
        facing: Dir,
        on: bool,
    },
    Repeater(Repeater),
    Lamp(Lamp),
    /// A piston; where it is extended, its head stands before it.
    Piston {
        facing: Dir,
        sticky: bool,
        extended: bool,
    },
    /// The head of an extended piston, of the piston's facing and stickiness.
    Head {
        facing: Dir,
        sticky: bool,
    },
}

impl Cell {
    /// The kind of this cell, without its state.
    pub fn kind(self) -> Kind
        ensures { result ≡ kind_of self }
    {
        match self {
            Cell::Air => Kind::Air,
            Cell::Stone => Kind::Stone,
            Cell::Dirt => Kind::Dirt,
            Cell::Planks => Kind::Planks,
            Cell::Glass => Kind::Glass,
            Cell::Obsidian => Kind::Obsidian,
            Cell::Bedrock => Kind::Bedrock,
            Cell::Chest => Kind::Chest,
            Cell::Dust(_) => Kind::Dust,
            Cell::Torch { .. } => Kind::Torch,
            Cell::Lever { .. } => Kind::Lever,
            Cell::Repeater(_) => Kind::Repeater,
            Cell::Lamp(_) => Kind::Lamp,
            Cell::Piston { sticky: true, .. } => Kind::StickyPiston,
            Cell::Piston { sticky: false, .. } => Kind::Piston,
            Cell::Head { .. } => Kind::Head,
        }
    }

    /// Whether this cell takes power from its neighbors and hands it on (docs/RULES.md).
    pub fn conducts(self) -> bool
        ensures { result ≡ conducts self }
    {
        match self.kind() {
            Kind::Stone | Kind::Dirt | Kind::Planks | Kind::Obsidian | Kind::Bedrock | Kind::Lamp =>
                true,
            _ => false,
        }
    }

    /// Whether this cell is dust.
    pub fn is_dust(self) -> bool
        ensures { result ≡ is_dust self }
    {
        matches!(self, Cell::Dust(_))
    }

    /// Whether this cell is a component of machines other than dust: a torch, a lever, a repeater,
    /// a lamp or a piston.
    pub fn is_device(self) -> bool
        ensures { result ≡ is_device self }
    {
        matches!(
            self,
            Cell::Torch { .. }
                | Cell::Lever { .. }
                | Cell::Repeater(_)
                | Cell::Lamp(_)
                | Cell::Piston { .. }
        )
    }

    /// What this cell does in the way of a piston.
    pub fn mobility(self) -> Mobility
        ensures { result ≡ mobility_of self }
    {
        match self {
            Cell::Air => Mobility::Empty,
            Cell::Stone | Cell::Dirt | Cell::Planks | Cell::Glass | Cell::Lamp(_) =>
                Mobility::Moves,
            Cell::Piston {
                extended: false,
                ..
            } => Mobility::Moves,
            Cell::Dust(_) | Cell::Torch { .. } | Cell::Lever { .. } | Cell::Repeater(_) =>
                Mobility::Breaks,
            Cell::Obsidian
            | Cell::Bedrock
            | Cell::Chest
            | Cell::Piston { extended: true, .. }
            | Cell::Head { .. } => Mobility::Stays,
        }
    }

    /// The text of this cell, as replies write it (docs/FORMATS.md).
    pub fn text(self) -> ArrayString<32>
        ensures { result.bytes ≡ cell_text self }
    {
        let cell = self;
        let word = cell.kind().word();
        match self {
            Cell::Air
            | Cell::Stone
            | Cell::Dirt
            | Cell::Planks
            | Cell::Glass
            | Cell::Obsidian
            | Cell::Bedrock
            | Cell::Chest => one_word(word),
            Cell::Dust(level) => two_words(word, level.word()),
            Cell::Torch { facing, lit } => three_words(word, dir_word(facing.dir()), on_word(lit)),
            Cell::Lever { facing, on } => three_words(word, dir_word(facing), on_word(on)),
            Cell::Repeater(repeater) => two_words(word, &repeater.text()),
            Cell::Lamp(lamp) => two_words(word, lamp.text()),
            Cell::Piston {
                facing,
                extended,
                ..
            } => three_words(word, dir_word(facing), out_word(extended)),
            Cell::Head { facing, sticky } => {
                three_words(word, dir_word(facing), grip_word(sticky))
            }
        }
    }

    /// The cell that has this text, letter for letter.
    pub fn read(text: &str) -> Option<Cell>
        ensures found { IfSome result (λ c. IsCell c × (cell_text c ≡ text.now)) }
        ensures only { (c : Cell) → IsCell c → cell_text c ≡ text.now → result ≡ Some c }
    {
        let (word, state) = cut(text);
        let kind = Kind::read(word)?;
        match state {
            Some(state) => read_state(kind, state),
            None => read_plain(kind),
        }
    }
}

// The cell of this kind that has no state.
fn read_plain(kind: Kind) -> Option<Cell>
    ensures found { IfSome result (λ c. IsCell c × (cell_text c ≡ kind_word kind)) }
    ensures only { (c : Cell) → kind_of c ≡ kind → cell_state c ≡ [] → result ≡ Some c }
{
    match kind {
        Kind::Air => Some(Cell::Air),
        Kind::Stone => Some(Cell::Stone),
        Kind::Dirt => Some(Cell::Dirt),
        Kind::Planks => Some(Cell::Planks),
        Kind::Glass => Some(Cell::Glass),
        Kind::Obsidian => Some(Cell::Obsidian),
        Kind::Bedrock => Some(Cell::Bedrock),
        Kind::Chest => Some(Cell::Chest),
        _ => None,
    }
}

// The cell of this kind whose state has this text.
fn read_state(kind: Kind, state: &str) -> Option<Cell>
    ensures found { IfSome result (IsSpelled (kind_word kind) state.now) }
    ensures only { (c : Cell) → IsCell c → kind_of c ≡ kind
        → tail_of (cell_text c) ≡ Some state.now → result ≡ Some c }
{
    match kind {
        Kind::Dust => Some(Cell::Dust(Level::read(state)?)),
        Kind::Torch => read_torch(state),
        Kind::Lever => read_lever(state),
        Kind::Repeater => Some(Cell::Repeater(Repeater::read(state)?)),
        Kind::Lamp => Some(Cell::Lamp(Lamp::read(state)?)),
        Kind::Piston => read_piston(state, false),
        Kind::StickyPiston => read_piston(state, true),
        Kind::Head => read_head(state),
        _ => None,
    }
}

// The torch whose state has this text.
fn read_torch(state: &str) -> Option<Cell>
    ensures found { IfSome result (IsSpelled (codes "torch") state.now) }
    ensures only { (facing : Mount) → (lit : Bool)
        → dir_word (mount_dir facing) ++ colon ∷ on_word lit ≡ state.now
        → result ≡ Some (Cell.Torch facing lit) }
{
    let (facing, lit) = cut(state);
    Some(Cell::Torch {
        facing: Mount::read(facing)?,
        lit: read_on(lit?)?,
    })
}

// The lever whose state has this text.
fn read_lever(state: &str) -> Option<Cell>
    ensures found { IfSome result (IsSpelled (codes "lever") state.now) }
    ensures only { (facing : Dir) → (on : Bool)
        → dir_word facing ++ colon ∷ on_word on ≡ state.now
        → result ≡ Some (Cell.Lever facing on) }
{
    let (facing, on) = cut(state);
    Some(Cell::Lever {
        facing: read_dir(facing)?,
        on: read_on(on?)?,
    })
}

// The piston, sticky or plain, whose state has this text.
fn read_piston(state: &str, sticky: bool) -> Option<Cell>
    ensures found { IfSome result
        (IsSpelled (if sticky then codes "sticky" else codes "piston") state.now) }
    ensures only { (facing : Dir) → (extended : Bool)
        → dir_word facing ++ colon ∷ out_word extended ≡ state.now
        → result ≡ Some (Cell.Piston facing sticky extended) }
{
    let (facing, extended) = cut(state);
    Some(Cell::Piston {
        facing: read_dir(facing)?,
        sticky,
        extended: read_out(extended?)?,
    })
}

// The head whose state has this text.
fn read_head(state: &str) -> Option<Cell>
    ensures found { IfSome result (IsSpelled (codes "head") state.now) }
    ensures only { (facing : Dir) → (sticky : Bool)
        → dir_word facing ++ colon ∷ grip_word sticky ≡ state.now
        → result ≡ Some (Cell.Head facing sticky) }
{
    let (facing, sticky) = cut(state);
    Some(Cell::Head {
        facing: read_dir(facing)?,
        sticky: read_grip(sticky?)?,
    })
}

impl fmt::Display for Cell {
    ghost output = { λ c. Some (cell_text c) };

    fn fmt<W: fmt::Write>(&self, f: &mut fmt::Formatter<W>) -> fmt::Result {
        f.pad(&self.text())
    }
}
