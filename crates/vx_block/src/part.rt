ghost use Rattle.std.specs.Prelude.{◌≡◌, ◌∷◌, ◌++◌, codes, IfSome, Some};
ghost use Rattle.vx_base.specs.Digits.{small_word};
ghost use Rattle.vx_block.specs.Cell.{kind_of};
ghost use Rattle.vx_block.specs.Cut.{colon, tail_of};
ghost use Rattle.vx_block.specs.Kind.{kind_word};
ghost use Rattle.vx_block.specs.Part.{part_cell, part_text, part_of};
ghost use Rattle.vx_block.specs.States.{side_dir, ticks_of, dir_word};

use crate::cell::Cell;
use crate::cut::cut;
use crate::delay::Delay;
use crate::joined::{one_word, three_words, two_words};
use crate::kind::Kind;
use crate::lamp::Lamp;
use crate::level::Level;
use crate::mount::Mount;
use crate::repeater::Repeater;
use crate::side::Side;
use crate::words::{dir_word, read_dir};
use arrayvec::ArrayString;
use vx_geom::Dir;

/// What a player can place. Air, heads and extended pistons are no parts.
#[derive(Clone, Copy, Debug, PartialEq, Eq)]
pub enum Part {
    Stone,
    Dirt,
    Planks,
    Glass,
    Obsidian,
    Bedrock,
    Chest,
    Dust,
    /// A torch that faces the block that it is mounted on.
    Torch(Mount),
    /// A lever that faces the block that it is mounted on.
    Lever(Dir),
    /// A repeater with its front on that side.
    Repeater(Side, Delay),
    Lamp,
    /// A piston that pushes in that direction.
    Piston { facing: Dir, sticky: bool },
}

impl Part {
    /// The cell that this part begins as once it is placed.
    pub fn cell(self) -> Cell
        ensures { result ≡ part_cell self }
    {
        match self {
            Part::Stone => Cell::Stone,
            Part::Dirt => Cell::Dirt,
            Part::Planks => Cell::Planks,
            Part::Glass => Cell::Glass,
            Part::Obsidian => Cell::Obsidian,
            Part::Bedrock => Cell::Bedrock,
            Part::Chest => Cell::Chest,
            Part::Dust => Cell::Dust(Level::new(0)),
            Part::Torch(facing) => Cell::Torch { facing, lit: true },
            Part::Lever(facing) => Cell::Lever { facing, on: false },
            Part::Repeater(facing, delay) => {
                Cell::Repeater(Repeater::new(facing, delay, false, 0))
            }
            Part::Lamp => Cell::Lamp(Lamp::Off),
            Part::Piston { facing, sticky } => Cell::Piston {
                facing,
                sticky,
                extended: false,
            },
        }
    }

    /// The text of this part, as commands write it (docs/FORMATS.md).
    pub fn text(self) -> ArrayString<32>
        ensures { result.bytes ≡ part_text self }
    {
        let part = self;
        let word = part.cell().kind().word();
        match self {
            Part::Stone
            | Part::Dirt
            | Part::Planks
            | Part::Glass
            | Part::Obsidian
            | Part::Bedrock
            | Part::Chest
            | Part::Dust
            | Part::Lamp => one_word(word),
            Part::Torch(facing) => two_words(word, dir_word(facing.dir())),
            Part::Lever(facing) => two_words(word, dir_word(facing)),
            Part::Repeater(facing, delay) => {
                three_words(word, dir_word(facing.dir()), delay.word())
            }
            Part::Piston { facing, .. } => two_words(word, dir_word(facing)),
        }
    }

    /// The part that has this text, letter for letter.
    pub fn read(text: &str) -> Option<Part>
        ensures found { IfSome result (λ p. part_text p ≡ text.now) }
        ensures only { (p : Part) → part_text p ≡ text.now → result ≡ Some p }
        ensures named { result ≡ part_of text.now }
    {
        parse(text)
    }
}

// The part that has this text.
fn parse(text: &str) -> Option<Part>
    ensures found { IfSome result (λ p. part_text p ≡ text.now) }
    ensures only { (p : Part) → part_text p ≡ text.now → result ≡ Some p }
{
    let (word, placing) = cut(text);
    let kind = Kind::read(word)?;
    match placing {
        Some(placing) => read_placed(kind, placing),
        None => read_plain(kind),
    }
}

// The part of this kind that is placed in one way only.
fn read_plain(kind: Kind) -> Option<Part>
    ensures found { IfSome result (λ p. part_text p ≡ kind_word kind) }
    ensures only { (p : Part) → part_text p ≡ kind_word kind → result ≡ Some p }
{
    match kind {
        Kind::Stone => Some(Part::Stone),
        Kind::Dirt => Some(Part::Dirt),
        Kind::Planks => Some(Part::Planks),
        Kind::Glass => Some(Part::Glass),
        Kind::Obsidian => Some(Part::Obsidian),
        Kind::Bedrock => Some(Part::Bedrock),
        Kind::Chest => Some(Part::Chest),
        Kind::Dust => Some(Part::Dust),
        Kind::Lamp => Some(Part::Lamp),
        _ => None,
    }
}

// The part of this kind that is placed as this text tells.
fn read_placed(kind: Kind, placing: &str) -> Option<Part>
    ensures found { IfSome result (λ p. part_text p ≡ kind_word kind ++ colon ∷ placing.now) }
    ensures only { (p : Part) → kind_of (part_cell p) ≡ kind
        → tail_of (part_text p) ≡ Some placing.now → result ≡ Some p }
{
    match kind {
        Kind::Torch => Some(Part::Torch(Mount::read(placing)?)),
        Kind::Lever => Some(Part::Lever(read_dir(placing)?)),
        Kind::Repeater => read_repeater(placing),
        Kind::Piston => Some(Part::Piston {
            facing: read_dir(placing)?,
            sticky: false,
        }),
        Kind::StickyPiston => Some(Part::Piston {
            facing: read_dir(placing)?,
            sticky: true,
        }),
        _ => None,
    }
}

// The repeater that is placed as this text tells.
fn read_repeater(placing: &str) -> Option<Part>
    ensures found { IfSome result (λ p. part_text p ≡ codes "repeater" ++ colon ∷ placing.now) }
    ensures only { (facing : Side) → (delay : Delay)
        → dir_word (side_dir facing) ++ colon ∷ small_word (ticks_of delay) ≡ placing.now
        → result ≡ Some (Part.Repeater facing delay) }
{
    let (facing, delay) = cut(placing);
    Some(Part::Repeater(Side::read(facing)?, Delay::read(delay?)?))
}
