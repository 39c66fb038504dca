ghost use Rattle.std.specs.Prelude.{◌≡◌, bytes_eq};

/// Whether the word is this text. Byte by byte, as words are short.
#[inline(always)]
pub fn is_spelled(word: &[u8], text: &[u8]) -> bool
    ensures { result ≡ bytes_eq word.now text.now }
{
    if word.len() != text.len() {
        return false;
    }
    for i in 0..text.len() {
        if word[i] != text[i] {
            return false;
        }
    }
    true
}
