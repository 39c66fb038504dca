//! Texts of words with a colon between each two.
ghost use Rattle.std.specs.Prelude.{◌≡◌, ◌≤◌, ◌+◌, [], ◌∷◌, length};
ghost use Rattle.vx_block.specs.Cut.{joined};

use arrayvec::ArrayString;

pub fn one_word(word: &str) -> ArrayString<32>
    requires { length word.now ≤ 32 }
    ensures { result.bytes ≡ joined word.now [] }
{
    let mut text = ArrayString::new();
    text.push_str(word);
    text
}

pub fn two_words(first: &str, second: &str) -> ArrayString<32>
    requires { length first.now + length second.now ≤ 31 }
    ensures { result.bytes ≡ joined first.now (second.now ∷ []) }
{
    let mut text = ArrayString::new();
    text.push_str(first);
    text.push_str(":");
    text.push_str(second);
    text
}

pub fn three_words(first: &str, second: &str, third: &str) -> ArrayString<32>
    requires { length first.now + length second.now + length third.now ≤ 30 }
    ensures { result.bytes ≡ joined first.now (second.now ∷ third.now ∷ []) }
{
    let mut text = ArrayString::new();
    text.push_str(first);
    text.push_str(":");
    text.push_str(second);
    text.push_str(":");
    text.push_str(third);
    text
}
