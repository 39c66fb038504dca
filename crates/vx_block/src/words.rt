//! The words of directions and states, as the texts of cells and parts have them.
ghost use Rattle.std.specs.Prelude.{◌≡◌, ◌≤◌, Bool, length, IfSome, Some};
ghost use Rattle.vx_block.specs.States.{dir_word, on_word, out_word, grip_word};

use vx_geom::Dir;

pub fn dir_word(dir: Dir) -> &'static str
    ensures word { result.now ≡ dir_word dir }
    ensures short { length result.now ≤ 5 }
{
    match dir {
        Dir::East => "east",
        Dir::West => "west",
        Dir::Up => "up",
        Dir::Down => "down",
        Dir::South => "south",
        Dir::North => "north",
    }
}

/// The direction that has this word, letter for letter.
pub fn read_dir(word: &str) -> Option<Dir>
    ensures found { IfSome result (λ d. dir_word d ≡ word.now) }
    ensures only { (d : Dir) → dir_word d ≡ word.now → result ≡ Some d }
{
    match word {
        "east" => Some(Dir::East),
        "west" => Some(Dir::West),
        "up" => Some(Dir::Up),
        "down" => Some(Dir::Down),
        "south" => Some(Dir::South),
        "north" => Some(Dir::North),
        _ => None,
    }
}

pub fn on_word(on: bool) -> &'static str
    ensures word { result.now ≡ on_word on }
    ensures short { length result.now ≤ 5 }
{
    if on { "on" } else { "off" }
}

/// Whether the word says on or off.
pub fn read_on(word: &str) -> Option<bool>
    ensures found { IfSome result (λ b. on_word b ≡ word.now) }
    ensures only { (b : Bool) → on_word b ≡ word.now → result ≡ Some b }
{
    match word {
        "on" => Some(true),
        "off" => Some(false),
        _ => None,
    }
}

pub fn out_word(out: bool) -> &'static str
    ensures word { result.now ≡ out_word out }
    ensures short { length result.now ≤ 5 }
{
    if out { "out" } else { "in" }
}

/// Whether the word says out or in.
pub fn read_out(word: &str) -> Option<bool>
    ensures found { IfSome result (λ b. out_word b ≡ word.now) }
    ensures only { (b : Bool) → out_word b ≡ word.now → result ≡ Some b }
{
    match word {
        "out" => Some(true),
        "in" => Some(false),
        _ => None,
    }
}

pub fn grip_word(sticky: bool) -> &'static str
    ensures word { result.now ≡ grip_word sticky }
    ensures short { length result.now ≤ 6 }
{
    if sticky { "sticky" } else { "plain" }
}

/// Whether the word says sticky or plain.
pub fn read_grip(word: &str) -> Option<bool>
    ensures found { IfSome result (λ b. grip_word b ≡ word.now) }
    ensures only { (b : Bool) → grip_word b ≡ word.now → result ≡ Some b }
{
    match word {
        "sticky" => Some(true),
        "plain" => Some(false),
        _ => None,
    }
}
