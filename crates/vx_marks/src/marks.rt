ghost use Rattle.std.specs.Prelude.{◌≡◌, ◌*◌, ◌%◌, ◌<◌, ℕ, false, length, IfOk, OnOk, OnErr};
ghost use Rattle.vx_marks.specs.Marks.{is_marked, IsFirstMarked, IsMarkSet, IsRunMarked};
ghost use Rattle.vx_marks.specs.declared.page.TheConstants.{PAGE};

use crate::lazy_page::LazyPage;
use crate::page::PAGE;
use std::alloc::{AllocError, Global};
use std::marker::Model;

/// Which indices below a bound are marked, in pages of 4,096. A page takes no memory before an
/// index of it is marked. The marked ones are found in order.
#[derive(Drop)]
pub struct Marks {
    pages: Vec<LazyPage>,
}

impl Model for Marks {
    ghost use Rattle.std.specs.Prelude.{ℕ, List};
    ghost use Rattle.vx_marks.specs.Pages.{joined, ArePages};

    ghost Value = { List ℕ };

    ghost view = { λ m. joined (λ page. page) m.pages.items };

    ghost invariant = { λ m. ArePages (λ page. page) m.pages.items };
}

impl Marks {
    /// Room for so many indices, none of which is marked.
    pub fn new(alloc: Global, count: u32) -> Result<Marks, AllocError>
        requires { count % PAGE ≡ 0 }
        ensures room { IfOk result (λ marks. 64 * length marks ≡ count) }
        ensures none { IfOk result (λ marks. (i : ℕ) → is_marked marks i ≡ false) }
    {
        let mut pages = Vec::with_capacity(alloc, (count / PAGE) as usize)?;
        for _ in 0..count / PAGE {
            pages.push(LazyPage::new())?;
        }
        Ok(Marks { pages })
    }

    /// Marks each index of a run: the index so many further on than the first as a bit that is set.
    /// What lies past the first one's word of 64 is left out. It takes memory for the first one of a
    /// page.
    #[inline(always)]
    pub fn mark_run(&mut self, alloc: Global, first: u32, bits: u64) -> Result<(), AllocError>
        requires { first < 64 * length self.old }
        ensures ok { OnOk result (IsRunMarked self.old self.new first bits) }
        ensures err { OnErr result (self.new ≡ self.old) }
    {
        self.pages[(first / PAGE) as usize].mark_run(alloc, first % PAGE, bits)
    }

    /// Takes the mark of an index away, if it has one. It takes no memory.
    #[inline(always)]
    pub fn clear(&mut self, index: u32)
        requires { index < 64 * length self.old }
        ensures { IsMarkSet self.old self.new index false }
    {
        self.pages[(index / PAGE) as usize].clear(index % PAGE);
    }

    /// Whether an index is marked. It takes no memory.
    pub fn has(&self, index: u32) -> bool
        ensures { result ≡ is_marked self.now index }
    {
        let number = (index / PAGE) as usize;
        if self.pages.len() <= number {
            return false;
        }
        self.pages[number].has(index % PAGE)
    }

    /// The first marked index from this one on. It costs a look at each page without marks.
    pub fn first_from(&self, from: u32) -> Option<u32>
        ensures { IsFirstMarked self.now from result }
    {
        let end = PAGE * self.pages.len() as u32;
        let mut next = from;
        while next < end {
            let number = next / PAGE;
            if let Some(index) = self.pages[number as usize].first_from(next % PAGE) {
                return Some(PAGE * number + index);
            }
            next = PAGE * (number + 1);
        }
        None
    }
}
