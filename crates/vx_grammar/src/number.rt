ghost use Rattle.std.specs.Prelude.{◌≡◌, ◌+◌, ◌<◌, pos, [], ◌∷◌, Some, IfSome};
ghost use Rattle.vx_grammar.specs.Numbers.{i32_of, u8_of, u16_of};

use std::str;

/// The number of 32 bits that a word spells: decimal digits, leading zeros among them, with an
/// optional `-`.
#[inline(always)]
pub fn read_i32(word: &[u8]) -> Option<i32>
    ensures { result ≡ i32_of word.now }
{
    match read_short(word) {
        Some(number) => Some(i32::from(number)),
        None => read_any(word),
    }
}

// The number that one to three digits spell, as most numbers are; none for any other word.
#[inline(always)]
fn read_short(word: &[u8]) -> Option<u16>
    ensures { IfSome result (λ n. i32_of word.now ≡ Some (pos n)) }
{
    match word {
        [a] => read_one(*a),
        [a, b] => read_two(*a, *b),
        [a, b, c] => read_three(*a, *b, *c),
        _ => None,
    }
}

fn read_one(a: u8) -> Option<u16>
    ensures { IfSome result (λ n. i32_of (a ∷ []) ≡ Some (pos n)) }
{
    let a = digit(a)?;
    Some(a)
}

fn read_two(a: u8, b: u8) -> Option<u16>
    ensures { IfSome result (λ n. i32_of (a ∷ b ∷ []) ≡ Some (pos n)) }
{
    let a = digit(a)?;
    let b = digit(b)?;
    Some(a * 10 + b)
}

fn read_three(a: u8, b: u8, c: u8) -> Option<u16>
    ensures { IfSome result (λ n. i32_of (a ∷ b ∷ c ∷ []) ≡ Some (pos n)) }
{
    let a = digit(a)?;
    let b = digit(b)?;
    let c = digit(c)?;
    Some(a * 100 + b * 10 + c)
}

// What a digit stands for.
fn digit(byte: u8) -> Option<u16>
    ensures { IfSome result (λ n. (n < 10) × (byte ≡ n + 48)) }
{
    if !byte.is_ascii_digit() {
        return None;
    }
    Some(u16::from(byte - b'0'))
}

// The number that any word spells.
#[inline(never)]
fn read_any(word: &[u8]) -> Option<i32>
    ensures { result ≡ i32_of word.now }
{
    match str::from_utf8(word) {
        Ok(text) => read_text(text),
        Err(_) => None,
    }
}

// The number that a text spells. What `parse` reads besides begins with a `+`.
fn read_text(word: &str) -> Option<i32>
    ensures { result ≡ i32_of word.now }
{
    if word.starts_with('+') {
        return None;
    }
    word.parse::<i32>().ok()
}

/// The number of 8 bits that a word spells, as [`read_i32`] reads it.
pub fn read_u8(word: &[u8]) -> Option<u8>
    ensures { result ≡ u8_of word.now }
{
    u8::try_from(read_i32(word)?).ok()
}

/// The number of 16 bits that a word spells, as [`read_i32`] reads it.
pub fn read_u16(word: &[u8]) -> Option<u16>
    ensures { result ≡ u16_of word.now }
{
    u16::try_from(read_i32(word)?).ok()
}
