ghost use Rattle.std.specs.Prelude.{◌≡◌, ◌<◌, length, slice_get, Some, IfOk, IfSome};
ghost use Rattle.vx_name.specs.Texts.{texts};
ghost use Rattle.vx_play.specs.Guesses.{IsGuess, AreGuesses};
ghost use Rattle.vx_play.specs.Plays.{number_from};

use crate::names::number_of;
use std::alloc::{AllocError, Global};
use std::marker::Model;
use vx_region::Name;

/// Names in order of their numbers, of which one is mostly found at a look: by a mark of the bytes
/// of a name its number is guessed, and where the guess is wrong all names are gone over.
#[derive(Drop)]
pub struct NameIndex {
    names: Vec<Name>,
    guesses: [u8; 256],
}

impl Model for NameIndex {
    ghost use Rattle.std.specs.Prelude.{List, ℕ};
    ghost use Rattle.vx_name.specs.Texts.{texts};
    ghost use Rattle.vx_play.specs.Guesses.{AreGuesses};

    ghost Value = { List (List ℕ) };

    ghost view = { λ a. texts a.names.items };

    ghost invariant = { λ a. AreGuesses (texts a.names.items) a.guesses };
}

impl NameIndex {
    /// The index of these names.
    pub fn new(alloc: Global, names: &[Name]) -> Result<NameIndex, AllocError>
        ensures { IfOk result (λ index. index ≡ texts names.now) }
    {
        Ok(NameIndex {
            names: names.to_vec(alloc)?,
            guesses: guesses_of(names),
        })
    }

    /// The number of the name, counted from 0.
    pub fn number_of(&self, name: &Name) -> Option<usize>
        ensures value { result ≡ number_from 0 self.now name.now.text.bytes }
        ensures within { IfSome result (λ number. number < length self.now) }
    {
        let guess = usize::from(self.guesses[mark(name)]);
        if let Some(guessed) = self.names.get(guess) {
            if guessed == name {
                return Some(guess);
            }
        }
        number_of(&self.names, name)
    }
}

// What is guessed for each mark: the number of a name that has it, or 0.
fn guesses_of(names: &[Name]) -> [u8; 256]
    ensures { AreGuesses (texts names.now) result }
{
    let mut guesses = [0; 256];
    for (number, name) in names.iter().enumerate() {
        if let Some(guess) = guess_of(names, number, name) {
            guesses[mark(name)] = guess;
        }
    }
    guesses
}

// What may be guessed where the name of that number is asked for: that number, unless the name
// stands before it, too, or the number is too large to be kept.
fn guess_of(names: &[Name], number: usize, name: &Name) -> Option<u8>
    requires { slice_get names.now number ≡ Some name.now }
    ensures { IfSome result (λ guess. IsGuess (texts names.now) guess) }
{
    if number_of(names, name) == Some(number) {
        u8::try_from(number).ok()
    } else {
        None
    }
}

// A mark of the first byte of the name and its last two.
fn mark(name: &Name) -> usize
    ensures { result < 256 }
{
    name.spelling();
    let text = name.as_str().as_bytes();
    let last = text.len() - 1;
    let ends = text[last].wrapping_add(text[last.saturating_sub(1)].wrapping_mul(37));
    usize::from(ends.wrapping_add(text[0].wrapping_mul(101)))
}
