ghost use Rattle.std.specs.Prelude.{◌≡◌, ◌+◌, ◌/◌, ◌%◌, ◌<◌, ◌≤◌, ◌↔◌, false, replicate};
ghost use Rattle.vx_marks.specs.Marks.{is_marked, IsFirstMarked, IsMarkSet, AreBits, AreBlank, IsRunMarked};
ghost use Rattle.vx_marks.specs.declared.page.TheConstants.{PAGE};

use crate::words;
use std::alloc::AllocError;
use std::marker::Model;

/// How many indices a page has.
pub const PAGE: u32 = 4096;

/// Which of 4,096 indices are marked. It holds its bits itself, with no memory besides.
// The second level has a bit for each word of the first that has any.
#[derive(Drop)]
pub struct Page {
    words: [u64; 64],
    filled: [u64; 1],
}

impl Model for Page {
    ghost use Rattle.std.specs.Prelude.{ℕ, List};
    ghost use Rattle.vx_marks.specs.Marks.{AreFilled};

    ghost Value = { List ℕ };

    ghost view = { λ p. p.words };

    ghost invariant = { λ p. AreFilled p.words p.filled };
}

impl Page {
    /// A page with no index marked.
    pub fn new() -> Page
        ensures { result ≡ replicate 64 0 }
    {
        Page {
            words: [0; 64],
            filled: [0; 1],
        }
    }

    /// Marks an index, or takes its mark away.
    pub fn set(&mut self, index: u32, marked: bool)
        requires { index < PAGE }
        ensures { IsMarkSet self.old self.new index marked }
    {
        words::set_mark(&mut self.words, index, marked);
        let word = index / 64;
        words::set_mark(&mut self.filled, word, words::has_marks(&self.words, word));
    }

    /// Marks each index of a run: the index so many further on than the first as a bit that is set.
    /// What lies past the first one's word of 64 is left out.
    #[inline(always)]
    pub fn mark_run(&mut self, first: u32, bits: u64)
        requires { first < PAGE }
        ensures { IsRunMarked self.old self.new first bits }
    {
        words::mark_run(&mut self.words, first, bits);
        let place = first / 64;
        words::set_mark(
            &mut self.filled,
            place,
            words::has_marks(&self.words, place),
        );
    }

    /// Whether an index is marked. Past the last one none is.
    pub fn has(&self, index: u32) -> bool
        ensures { result ≡ is_marked self.now index }
    {
        words::has_mark(&self.words, index)
    }

    /// The first marked index from this one on.
    pub fn first_from(&self, from: u32) -> Option<u32>
        requires { from < PAGE }
        ensures { IsFirstMarked self.now from result }
    {
        if let Some(index) = words::first_in_word(&self.words, from) {
            return Some(index);
        }
        let word = words::first_from(&self.filled, from / 64 + 1)?;
        Some(words::first_of_word(&self.words, word))
    }

    /// Whether one of so many words of 64, from that one on, has a mark. It looks at none of them.
    #[inline(always)]
    pub fn has_marks_in(&self, word: u32, count: u32) -> bool
        requires inside { word < 64 }
        requires few { count < 64 }
        requires within { word + count ≤ 64 }
        ensures { result ≡ false ↔ AreBlank self.now word count }
    {
        words::run(&self.filled, word, count) > 0
    }

    /// Which of so many indices from this one on are marked, a bit for each; all of them lie in its
    /// word of 64.
    #[inline(always)]
    pub fn run(&self, first: u32, count: u32) -> u64
        requires inside { first < PAGE }
        requires few { count < 64 }
        requires within { first % 64 + count ≤ 64 }
        ensures { AreBits self.now first count result }
    {
        words::run(&self.words, first, count)
    }
}

impl Clone for Page {
    ghost is_clone = { λ page copy. copy ≡ page };

    fn clone(&self) -> Result<Page, AllocError> {
        Ok(Page {
            words: self.words,
            filled: self.filled,
        })
    }
}
