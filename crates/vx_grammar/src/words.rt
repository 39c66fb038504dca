ghost use Rattle.std.specs.Prelude.{◌≡◌, ◌<◌, ◌==◌, [], ◌∷◌, length, position, MatchOption, IfSome};
ghost use Rattle.std.specs.List.{position_or_len, before_first, after_first};
ghost use Rattle.std.specs.Str.{IsUtf8};
ghost use Rattle.vx_grammar.specs.Words.{space};

use std::marker::Model;
use std::str;

/// The words of a line that are left to read. Words are separated by one or more spaces.
#[derive(Drop)]
pub struct Words<'a> {
    rest: &'a [u8],
}

impl<'a> Model for Words<'a> {
    ghost use Rattle.std.specs.Prelude.{List, ℕ};
    ghost use Rattle.std.specs.Str.{IsUtf8};

    ghost Value = { List (List ℕ) };

    ghost use Rattle.vx_grammar.specs.Words.{words_of};

    ghost view = { λ a. words_of a.rest.now };

    ghost invariant = { λ a. IsUtf8 a.rest.now };
}

impl<'a> Words<'a> {
    ghost use Rattle.vx_grammar.specs.Words.{words_of};

    /// The words of the line, which is a text.
    pub fn new(line: &'a [u8]) -> Words<'a>
        requires { IsUtf8 line.now }
        ensures { result ≡ words_of line.now }
    {
        Words { rest: line }
    }

    /// Takes the next word, by its bytes.
    pub fn next(&mut self) -> Option<&'a [u8]>
        ensures word { MatchOption result ((self.old ≡ []) × (self.new ≡ []))
            (λ word. self.old ≡ word.now ∷ self.new) }
        ensures text { IfSome result (λ word. IsUtf8 word.now) }
    {
        while let Some((piece, rest)) = cut(self.rest) {
            self.rest = rest;
            if !piece.is_empty() {
                return Some(piece);
            }
        }
        let last = self.rest;
        self.rest = &[];
        if last.is_empty() { None } else { Some(last) }
    }

    /// Takes the next word, as a text.
    pub fn next_text(&mut self) -> Option<&'a str>
        ensures { MatchOption result ((self.old ≡ []) × (self.new ≡ []))
            (λ word. self.old ≡ word.now ∷ self.new) }
    {
        let word = self.next()?;
        // The line is a text, and so is each of its words: they need not be read once more.
        Some(unsafe { str::from_utf8_unchecked(word) })
    }
}

// The bytes before the first space and those behind it.
fn cut(text: &[u8]) -> Option<(&[u8], &[u8])>
    ensures { MatchOption result (position_or_len (λ b. b == space) text.now ≡ length text.now)
        (λ parts. (parts.0.now ≡ before_first (λ b. b == space) text.now)
        × (parts.1.now ≡ after_first (λ b. b == space) text.now)
        × (position_or_len (λ b. b == space) text.now < length text.now)) }
{
    let place = first_space(text)?;
    Some((&text[..place], &text[place + 1..]))
}

// Where the first space stands.
fn first_space(text: &[u8]) -> Option<usize>
    ensures { result ≡ position (λ b. b == space) text.now }
{
    text.iter().position(|byte| *byte == b' ')
}
