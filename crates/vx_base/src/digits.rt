//! Numbers below 16 in decimal digits.
ghost use Rattle.std.specs.Prelude.{◌≡◌, ℕ, ◌<◌, ◌≤◌, length, IfSome, Some};
ghost use Rattle.vx_base.specs.Digits.{small_word};

/// The number below 16 that has these decimal digits, with no leading zero.
pub fn read_small(word: &str) -> Option<u8>
    ensures found { IfSome result (λ n. (n < 16) × (small_word n ≡ word.now)) }
    ensures only { (n : ℕ) → n < 16 → small_word n ≡ word.now → result ≡ Some n }
{
    match word.as_bytes() {
        [digit @ b'0'..=b'9'] => Some(digit - b'0'),
        [b'1', digit @ b'0'..=b'5'] => Some(10 + (digit - b'0')),
        _ => None,
    }
}

/// The decimal digits of a number.
pub fn small_word(number: u8) -> &'static str
    requires { number < 16 }
    ensures word { result.now ≡ small_word number }
    ensures short { length result.now ≤ 2 }
{
    match number {
        0 => "0",
        1 => "1",
        2 => "2",
        3 => "3",
        4 => "4",
        5 => "5",
        6 => "6",
        7 => "7",
        8 => "8",
        9 => "9",
        10 => "10",
        11 => "11",
        12 => "12",
        13 => "13",
        14 => "14",
        _ => "15",
    }
}
