//! Numbers below sixteen, two to a byte, and the bytes of a palette that they stand for.

ghost use Rattle.std.specs.Prelude.{◌≡◌, ◌*◌, ◌/◌, ◌%◌, ◌<◌, ◌≤◌, ℕ, List, false, nat_eq, length, take, None, IfSome, slice_index_or, slice_set};
ghost use Rattle.std.specs.List.{AllByRecursion, list_any};
ghost use Rattle.vx_section.specs.Forms.{unpacked, kind_at, filled, IsPair};

/// The number of a place.
#[inline(always)]
pub(crate) fn number(pairs: &[u8], place: u32) -> u8
    requires { place < 2 * length pairs.now }
    ensures low { place % 2 ≡ 0 → result ≡ slice_index_or pairs.now (place / 2) 0 % 16 }
    ensures high { place % 2 ≡ 1 → result ≡ slice_index_or pairs.now (place / 2) 0 / 16 }
    ensures small { result < 16 }
{
    let pair = pairs[(place / 2) as usize];
    if place % 2 == 0 { pair % 16 } else { pair / 16 }
}

/// The byte of a place.
#[inline(always)]
pub(crate) fn byte_of(palette: &[u8], pairs: &[u8], place: u32) -> u8
    requires palette { length palette.now ≡ 16 }
    requires within { place < 2 * length pairs.now }
    ensures { result ≡ slice_index_or (unpacked palette.now pairs.now) place 0 }
{
    palette[number(pairs, place) as usize]
}

/// Puts a number down at a place.
#[inline(always)]
pub(crate) fn set_number(pairs: &mut [u8], place: u32, number: u8)
    requires within { place < 2 * length pairs.old }
    requires small { number < 16 }
    ensures bytes { (palette : List ℕ) → unpacked palette pairs.new
        ≡ slice_set (unpacked palette pairs.old) place (kind_at palette number) }
    ensures length { length pairs.new ≡ length pairs.old }
    ensures kept { (count : ℕ) → number < count → AllByRecursion (IsPair count) pairs.old
        → AllByRecursion (IsPair count) pairs.new }
{
    let at = (place / 2) as usize;
    let pair = pairs[at];
    if place % 2 == 0 {
        pairs[at] = pair / 16 * 16 + number;
    } else {
        pairs[at] = 16 * number + pair % 16;
    }
}

/// The number of a byte, where it is among the first so many of the palette.
pub(crate) fn find(palette: &[u8], used: u8, byte: u8) -> Option<u8>
    requires { used ≤ length palette.now }
    ensures found { IfSome result (λ n. (n < used) × (kind_at palette.now n ≡ byte)) }
    ensures none { result ≡ None → list_any (nat_eq byte) (take used palette.now) ≡ false }
{
    for n in 0..used {
        if palette[n as usize] == byte {
            return Some(n);
        }
    }
    None
}

/// The number 0 at each place.
pub(crate) fn zeros() -> [u8; 2048]
    ensures bytes { (palette : List ℕ)
        → unpacked palette result ≡ filled 4096 (kind_at palette 0) }
    ensures length { length result ≡ 2048 }
    ensures numbers { AllByRecursion (IsPair 1) result }
{
    [0; 2048]
}
