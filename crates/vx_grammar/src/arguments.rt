ghost use Rattle.std.specs.Prelude.{◌≡◌, option_map};
ghost use Rattle.vx_grammar.specs.Readings.{Reads, action_at, action_of, at_end, byte_at, height_at, item_at, coordinate_at, position_at, part_at, name_at};

use crate::number::{read_i32, read_u8, read_u16};
use crate::words::Words;
use vx_block::Part;
use vx_flag::Action;
use vx_geom::{LOW_HEIGHT, Pos};
use vx_region::Name;

/// Reads a number from 0 to 255.
#[tactic(auto, unfolding(crate::specs::Readings::byte_at))]
pub fn byte(words: &mut Words) -> Option<u8>
    ensures { Reads result words.new (byte_at words.old) }
{
    read_u8(words.next()?)
}

/// Reads the height of a world, a number from 0 to 255; where no word is left, it is that of a low
/// one.
#[tactic(auto, unfolding(crate::specs::Readings::height_at, crate::specs::Readings::byte_at))]
pub fn height(words: &mut Words) -> Option<u8>
    ensures { Reads result words.new (height_at words.old) }
{
    match words.next() {
        None => Some(LOW_HEIGHT),
        Some(word) => read_u8(word),
    }
}

/// Reads the number of an item, from 0 to 65535.
#[tactic(auto, unfolding(crate::specs::Readings::item_at))]
pub fn item(words: &mut Words) -> Option<u16>
    ensures { Reads result words.new (item_at words.old) }
{
    read_u16(words.next()?)
}

/// Reads a position: x, y and z.
#[inline(always)]
#[tactic(auto, unfolding(crate::specs::Readings::position_at))]
pub fn position(words: &mut Words) -> Option<Pos>
    ensures { Reads result words.new (position_at words.old) }
{
    let x = coordinate(words)?;
    let y = coordinate(words)?;
    let z = coordinate(words)?;
    Some(Pos { y, z, x })
}

/// Reads a part by its text.
#[tactic(auto, unfolding(crate::specs::Readings::part_at))]
pub fn part(words: &mut Words) -> Option<Part>
    ensures { Reads result words.new (part_at words.old) }
{
    Part::read(words.next_text()?)
}

/// Reads an action of a player, by the word of its flag.
#[tactic(auto, unfolding(crate::specs::Readings::action_at))]
pub fn action(words: &mut Words) -> Option<Action>
    ensures { Reads result words.new (action_at words.old) }
{
    action_of(words.next_text()?)
}

#[tactic(auto, unfolding(crate::specs::Readings::action_of))]
fn action_of(word: &str) -> Option<Action>
    ensures { result ≡ action_of word.now }
{
    match word {
        "block-place" => Some(Action::Placing),
        "block-break" => Some(Action::Breaking),
        "use" => Some(Action::Turning),
        "chest-access" => Some(Action::Reaching),
        _ => None,
    }
}

/// Reads a player's name.
#[inline(always)]
#[tactic(auto, unfolding(crate::specs::Readings::name_at))]
pub fn name(words: &mut Words) -> Option<Name>
    ensures { Reads (option_map (λ name. name.text.bytes) result) words.new (name_at words.old) }
{
    Name::read(words.next_text()?).ok()
}

/// The value, where no word is left.
pub fn at_end<X: Drop>(words: &mut Words, value: X) -> Option<X>
    ensures { result ≡ at_end words.old value }
{
    match words.next() {
        None => Some(value),
        Some(_) => None,
    }
}

/// Reads a number of 32 bits.
#[tactic(auto, unfolding(crate::specs::Readings::coordinate_at))]
pub fn coordinate(words: &mut Words) -> Option<i32>
    ensures { Reads result words.new (coordinate_at words.old) }
{
    read_i32(words.next()?)
}
