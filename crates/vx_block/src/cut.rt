ghost use Rattle.std.specs.Prelude.{◌≡◌, ◌∷◌, ◌++◌, MatchOption};
ghost use Rattle.std.specs.Option.{option_copied};
ghost use Rattle.vx_block.specs.Cut.{colon, word_of, tail_of};

/// A text cut at its first colon: what stands before it, and what follows it where there is one.
pub fn cut(text: &str) -> (&str, Option<&str>)
    ensures word { result.0.now ≡ word_of text.now }
    ensures tail { option_copied result.1 ≡ tail_of text.now }
    ensures whole { MatchOption result.1 (text.now ≡ result.0.now)
        (λ tail. text.now ≡ result.0.now ++ colon ∷ tail.now) }
{
    match text.split_once(':') {
        Some((word, tail)) => (word, Some(tail)),
        None => (text, None),
    }
}
