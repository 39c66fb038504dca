ghost use Rattle.std.specs.Prelude.{◌≡◌, ℕ, ◌<◌, ◌≤◌, length, IfSome, Some};
ghost use Rattle.vx_base.specs.Digits.{small_word};

use std::marker::Model;
use vx_base::{read_small, small_word};

/// The level of dust, 0 to 15.
#[derive(Clone, Copy, Debug, PartialEq, Eq)]
pub struct Level {
    value: u8,
}

impl Model for Level {
    ghost use Rattle.std.specs.Prelude.{ℕ, ◌<◌};

    ghost Value = { ℕ };

    ghost view = { λ a. a.value };

    ghost invariant = { λ a. a.value < 16 };

    ghost inverse = { λ n. record { value = n } };
}

impl Level {
    /// The level of that number.
    pub fn new(value: u8) -> Level
        requires { value < 16 }
        ensures { result ≡ value }
    {
        Level { value }
    }

    /// The number of this level.
    pub fn value(self) -> u8
        ensures value { result ≡ self }
        ensures most { result < 16 }
    {
        self.value
    }

    /// The level that has this word.
    pub(crate) fn read(word: &str) -> Option<Level>
        ensures found { IfSome result (λ n. (n < 16) × (small_word n ≡ word.now)) }
        ensures only { (n : ℕ) → n < 16 → small_word n ≡ word.now → result ≡ Some n }
    {
        Some(Level::new(read_small(word)?))
    }

    /// The word of this level: its number in decimal digits.
    pub(crate) fn word(self) -> &'static str
        ensures word { result.now ≡ small_word self }
        ensures short { length result.now ≤ 2 }
    {
        small_word(self.value)
    }
}
