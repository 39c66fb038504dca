//! Words of 64 bits, with a bit for each index.
ghost use Rattle.std.specs.Prelude.{◌≡◌, ◌≢◌, ◌+◌, ◌-◌, ◌*◌, ◌/◌, ◌%◌, ◌^◌, ◌<◌, ◌≤◌, ◌&&◌, ◌||◌, ℕ, nat_eq, nat_lt, nat_le, Some, length, slice_index_or, if◌then◌else◌};
ghost use Rattle.vx_marks.specs.Marks.{is_set, is_marked, IsFirst, IsFirstMarked, AreBits, IsRunMarked};

/// Whether a bit of that word is set.
#[inline(always)]
pub fn has_marks(words: &[u64], word: u32) -> bool
    requires { word < length words.now }
    ensures { result ≡ nat_lt 0 (slice_index_or words.now word 0) }
{
    words[word as usize] > 0
}

/// Whether the bit of that index is set. Past the last word none is.
#[inline(always)]
#[tactic(auto, unfolding(crate::specs::Marks::is_marked))]
pub fn has_mark(words: &[u64], index: u32) -> bool
    ensures { result ≡ is_marked words.now index }
{
    match words.get((index / 64) as usize) {
        Some(word) => has_bit(*word, index % 64),
        None => false,
    }
}

/// Sets the bit of that index, or clears it.
#[inline(always)]
pub fn set_mark(words: &mut [u64], index: u32, marked: bool)
    requires { index < 64 * length words.old }
    ensures length { length words.new ≡ length words.old }
    ensures marks { (i : ℕ) → is_marked words.new i
        ≡ (if nat_eq i index then marked else is_marked words.old i) }
    ensures words { (k : ℕ) → k ≢ index / 64
        → slice_index_or words.new k 0 ≡ slice_index_or words.old k 0 }
{
    let word = (index / 64) as usize;
    words[word] = with_bit(words[word], index % 64, marked);
}

/// Sets the bit of each index of a run: the index so many further on than the first as a bit that is
/// set. What lies past the first one's word is left out.
#[inline(always)]
pub fn mark_run(words: &mut [u64], first: u32, bits: u64)
    requires { first < 64 * length words.old }
    ensures marks { IsRunMarked words.old words.new first bits }
    ensures words { (k : ℕ) → k ≢ first / 64
        → slice_index_or words.new k 0 ≡ slice_index_or words.old k 0 }
{
    let word = (first / 64) as usize;
    words[word] = with_run(words[word], first % 64, bits);
}

/// The bits of so many indices from this one on, all in its word.
#[inline(always)]
pub fn run(words: &[u64], first: u32, count: u32) -> u64
    requires inside { first < 64 * length words.now }
    requires few { count < 64 }
    requires within { first % 64 + count ≤ 64 }
    ensures { AreBits words.now first count result }
{
    bits_from(words[(first / 64) as usize], first % 64, count)
}

/// The first index from this one on, in the same word, whose bit is set.
#[inline(always)]
pub fn first_in_word(words: &[u64], from: u32) -> Option<u32>
    requires { from < 64 * length words.now }
    ensures { IsFirst (is_marked words.now) (64 * (from / 64 + 1)) from result }
{
    let bit = first_bit(words[(from / 64) as usize], from % 64)?;
    Some(64 * (from / 64) + bit)
}

/// The first index of a word that has a bit set.
#[inline(always)]
pub fn first_of_word(words: &[u64], word: u32) -> u32
    requires room { 64 * length words.now < 2 ^ 32 }
    requires within { word < length words.now }
    requires marked { 0 < slice_index_or words.now word 0 }
    ensures { IsFirst (is_marked words.now) (64 * (word + 1)) (64 * word) (Some result) }
{
    let bit = lowest_bit(words[word as usize]);
    64 * word + bit
}

/// The first index from this one on whose bit is set. It goes from word to word.
pub fn first_from(words: &[u64], from: u32) -> Option<u32>
    requires { 64 * length words.now < 2 ^ 32 }
    ensures { IsFirstMarked words.now from result }
{
    let end = 64 * words.len() as u32;
    let mut next = from;
    while next < end {
        if let Some(index) = first_in_word(words, next) {
            return Some(index);
        }
        next = 64 * (next / 64 + 1);
    }
    None
}

// Whether that bit of a word is set.
fn has_bit(word: u64, bit: u32) -> bool
    requires { bit < 64 }
    ensures { result ≡ is_set word bit }
{
    (word >> bit) % 2 == 1
}

// The word with that bit set, or cleared.
fn with_bit(word: u64, bit: u32, marked: bool) -> u64
    requires { bit < 64 }
    ensures here { is_set result bit ≡ marked }
    ensures others { (i : ℕ) → i < 64 → i ≢ bit → is_set result i ≡ is_set word i }
{
    let mask = 1_u64 << bit;
    if marked { word | mask } else { word & !mask }
}

// The word with the bits of a run set that begins at that bit, as far as the word goes.
#[inline(always)]
fn with_run(word: u64, from: u32, bits: u64) -> u64
    requires { from < 64 }
    ensures { (i : ℕ) → i < 64
        → is_set result i ≡ (is_set word i || (nat_le from i && is_set bits (i - from))) }
{
    word | bits << from
}

// So many bits of a word, from this one on.
#[inline(always)]
fn bits_from(word: u64, from: u32, count: u32) -> u64
    requires from { from < 64 }
    requires few { count < 64 }
    ensures { (k : ℕ) → is_set result k ≡ (nat_lt k count && is_set word (from + k)) }
{
    word >> from & (1_u64 << count) - 1
}

// The first bit of a word, from this one on, that is set.
#[inline(always)]
fn first_bit(word: u64, from: u32) -> Option<u32>
    requires { from < 64 }
    ensures { IsFirst (is_set word) 64 from result }
{
    let rest = word >> from;
    if rest == 0 {
        return None;
    }
    Some(from + rest.trailing_zeros())
}

// The first bit of a word that is set.
fn lowest_bit(word: u64) -> u32
    requires { 0 < word }
    ensures { IsFirst (is_set word) 64 0 (Some result) }
{
    word.trailing_zeros()
}
