ghost use Rattle.std.specs.Prelude.{◌≡◌, ◌≤◌, ◌<◌, ◌&&◌, true, not, length, IfSome};
ghost use Rattle.std.specs.List.{list_all};
ghost use Rattle.std.specs.Option.{option_map};
ghost use Rattle.vx_name.specs.Words.{IsWord, is_amid, is_capital, is_name_byte, is_id_byte, lower, read_word};
ghost use Rattle.vx_name.specs.Alphabet.{passes};

use arrayvec::ArrayString;

/// The bytes that a word may have.
#[derive(Clone, Copy)]
pub enum Alphabet {
    /// Letters, digits and `_`.
    Name,
    /// Letters, digits, `_` and `-`.
    Id,
}

impl Alphabet {
    fn passes(self, byte: u8) -> bool
        ensures value { result ≡ passes self byte }
        ensures ascii { result ≡ true → byte < 128 }
    {
        match self {
            Alphabet::Name => is_name_byte(byte),
            Alphabet::Id => is_id_byte(byte),
        }
    }
}

/// The word in lower case that the text spells: 1 to `N` bytes that all pass.
#[tactic(auto, unfolding(crate::specs::Words::read_word))]
pub fn read_word<const N: usize>(text: &str, alphabet: Alphabet) -> Option<ArrayString<N>>
    ensures value { option_map (λ w. w.bytes) result ≡ read_word (passes alphabet) N text.now }
    ensures word { IfSome result (λ w. IsWord (passes alphabet) N w.bytes) }
{
    if !(1..=N).contains(&text.len()) {
        return None;
    }
    if are_small(text, alphabet) {
        Some(read_small(text))
    } else {
        read_any(text, alphabet)
    }
}

// Whether all bytes pass and none is a capital letter.
fn are_small(text: &str, alphabet: Alphabet) -> bool
    ensures { result ≡ list_all (λ b. passes alphabet b && not (is_capital b)) text.now }
{
    text.as_bytes()
        .iter()
        .all(|byte| alphabet.passes(*byte) && !is_capital(*byte))
}

// A text in lower case, copied whole.
fn read_small<const N: usize>(text: &str) -> ArrayString<N>
    requires { length text.now ≤ N }
    ensures { result.bytes ≡ text.now }
{
    let mut word = ArrayString::new();
    word.push_str(text);
    word
}

// A text of any letters, which is read byte by byte.
fn read_any<const N: usize>(text: &str, alphabet: Alphabet) -> Option<ArrayString<N>>
    requires some { 1 ≤ length text.now }
    requires short { length text.now ≤ N }
    ensures value { option_map (λ w. w.bytes) result ≡ read_word (passes alphabet) N text.now }
    ensures word { IfSome result (λ w. IsWord (passes alphabet) N w.bytes) }
{
    let mut word = ArrayString::new();
    for byte in text.as_bytes() {
        if !alphabet.passes(*byte) {
            return None;
        }
        word.push(char::from(lower(*byte)));
    }
    Some(word)
}

fn is_capital(byte: u8) -> bool
    ensures { result ≡ is_capital byte }
{
    byte.is_ascii_uppercase()
}

#[tactic(auto, unfolding(crate::specs::Words::is_name_byte))]
fn is_name_byte(byte: u8) -> bool
    ensures value { result ≡ is_name_byte byte }
    ensures ascii { result ≡ true → byte < 128 }
{
    byte.is_ascii_alphanumeric() || byte == b'_'
}

#[tactic(auto, unfolding(crate::specs::Words::is_id_byte))]
fn is_id_byte(byte: u8) -> bool
    ensures value { result ≡ is_id_byte byte }
    ensures ascii { result ≡ true → byte < 128 }
{
    is_name_byte(byte) || byte == b'-'
}

#[tactic(auto, unfolding(crate::specs::Words::lower))]
fn lower(byte: u8) -> u8
    ensures value { result ≡ lower byte }
    ensures ascii { byte < 128 → result < 128 }
{
    byte.to_ascii_lowercase()
}
