ghost use Rattle.std.specs.Option.{option_copied};
ghost use Rattle.std.specs.Prelude.{◌≡◌, ◌*◌, ◌/◌, ◌%◌, ◌<◌, ◌≤◌, ℕ, List, true, None, nat_lt, length, replicate, slice_index_or, slice_set, IfOk, OnOk, OnErr};
ghost use Rattle.vx_store.specs.Chests.{Changes, SameSlots, begun};
ghost use Rattle.vx_store.specs.Codes.{code_count, cell_of, is_chest};
ghost use Rattle.vx_store.specs.MarkedPlaces.{marked_places};
ghost use Rattle.vx_store.specs.MachineMarks.{words_of, AreMachineMarks};
ghost use Rattle.vx_store.specs.Placing.{CanPut};
ghost use Rattle.vx_store.specs.declared.mark_kind.MarkKind.{MarkKind};
ghost use Rattle.vx_geom.specs.Sizes.{Sizes, AreSizes, sector_count, sector_cells};
ghost use Rattle.vx_marks.specs.Marks.{IsFirstMarked};
ghost use Rattle.vx_marks.specs.Pages.{IsPage};
ghost use Rattle.vx_marks.specs.declared.page.TheConstants.{PAGE};

use crate::chest_parts::ChestParts;
use crate::code::{is_component, is_device};
use crate::kind_marks::KindMarks;
use crate::mark_kind::MarkKind;
use crate::marked::places_in_order;
use crate::shared_page::SharedPage;
use std::alloc::{AllocError, Global};
use std::marker::Model;
use vx_geom::{Bounds, Pos};
use vx_marks::{PAGE, Page};
use vx_section::Sections;

/// Where components of machines stand in a sector, and which of them are devices, as marks on the
/// indices of their cells, in pages of 4,096: sixteen layers of a narrow sector, or four of a wide
/// one. A page takes no memory before its first component, copies share the pages, and a change
/// copies one of them.
#[derive(Drop)]
pub struct MachineMarks {
    pages: Vec<SharedPage>,
    // Each mark is in a page from this number on, and in one below the other: so the pages over and
    // under all components are passed over, and those of a sector without any are not looked at.
    first: u32,
    end: u32,
    // How many components stand there. No clause says so: only costs rest on it.
    count: u32,
}

impl Model for MachineMarks {
    ghost use Rattle.vx_store.specs.MachineMarks.{MarkWords, joined, AreMarkedPages};

    ghost Value = { MarkWords };

    ghost view = { λ a. joined a.pages.items };

    ghost invariant = { λ a. AreMarkedPages a.pages.items a.first a.end };
}

impl MachineMarks {
    /// None of so many indices marked.
    pub fn new(alloc: Global, count: u32) -> Result<MachineMarks, AllocError>
        requires { count % PAGE ≡ 0 }
        ensures components { IfOk result (λ marks. marks.components ≡ replicate (count / 64) 0) }
        ensures devices { IfOk result (λ marks. marks.devices ≡ replicate (count / 64) 0) }
    {
        let mut pages = Vec::with_capacity(alloc, (count / PAGE) as usize)?;
        for _ in 0..count / PAGE {
            pages.push(SharedPage::new())?;
        }
        Ok(MachineMarks {
            pages,
            first: count / PAGE,
            end: 0,
            count: 0,
        })
    }

    /// Whether the marks of a sector stay as they are where a byte is put down in place of another.
    // It looks at no mark: the table is large, and the byte that was there is at hand.
    #[inline(always)]
    pub fn stay(was: u8, code: u8) -> bool
        requires was { was < code_count }
        requires code { code < code_count }
        ensures { result ≡ true → (store : List ℕ) (index : ℕ) (marks : _) → index < length store
            → slice_index_or store index 0 ≡ was → AreMachineMarks store marks
            → AreMachineMarks (slice_set store index code) marks }
    {
        is_component(was) == is_component(code) && is_device(was) == is_device(code)
    }

    /// Puts a byte down whose cell has other marks than the one that was there, and marks its
    /// index. The page of the index is made or copied before anything changes.
    pub fn put_down(
        &mut self,
        alloc: Global,
        store: &mut Sections,
        chests: &mut ChestParts,
        index: u32,
        code: u8,
    ) -> Result<(), AllocError>
        requires can { CanPut store.old chests.old index code }
        requires marks { AreMachineMarks store.old self.old }
        ensures store { OnOk result (store.new ≡ slice_set store.old index code) }
        ensures chests { OnOk result (Changes chests.old chests.new index
            (begun (is_chest (cell_of code)))) }
        ensures err { OnErr result ((store.new ≡ store.old)
            × SameSlots chests.old chests.new) }
        ensures marks { AreMachineMarks store.new self.new }
    {
        let was = u32::from(is_component(store.get(index)));
        let number = index / PAGE;
        self.pages[number as usize].put_down(alloc, store, chests, index, code)?;
        self.first = self.first.min(number);
        self.end = self.end.max(number + 1);
        let is = u32::from(is_component(code));
        self.count = self.count.saturating_add(is).saturating_sub(was);
        Ok(())
    }

    /// The positions of the sector whose indices have a mark of that kind, in order. It costs what
    /// is marked, and a look at each page from the lowest component on up to the highest.
    #[inline(always)]
    pub fn places(
        &self,
        alloc: Global,
        bounds: Bounds,
        sector: u32,
        kind: MarkKind,
    ) -> Result<Vec<Pos>, AllocError>
        requires sector { sector < sector_count bounds }
        requires all { 64 * length (words_of kind self.now) ≡ sector_cells bounds }
        ensures { IfOk result (λ found.
            found.items ≡ marked_places bounds sector (words_of kind self.now)) }
    {
        bounds.soundness();
        if self.is_blank() {
            return Ok(Vec::new(alloc));
        }
        places_in_order(alloc, bounds, sector, &KindMarks { marks: self, kind })
    }

    /// The first index from this one on with a mark of that kind. It looks at no page before the
    /// first component that was put down, nor behind the last.
    pub fn first_from(&self, kind: MarkKind, from: u32) -> Option<u32>
        ensures { IsFirstMarked (words_of kind self.now) from result }
    {
        let end = PAGE * self.end;
        let mut next = from.max(PAGE * self.first);
        while next < end {
            let number = next / PAGE;
            if let Some(index) = self.pages[number as usize].first_from(kind, next % PAGE) {
                return Some(PAGE * number + index);
            }
            next = PAGE * (number + 1);
        }
        None
    }

    /// The marks of a kind in the page of that number; none where nothing has one there.
    #[inline(always)]
    pub fn page(&self, kind: MarkKind, number: u32) -> Option<&Page>
        ensures { IsPage (words_of kind self.now) number (option_copied result) }
    {
        let number = number as usize;
        if self.pages.len() <= number {
            return None;
        }
        self.pages[number].of(kind)
    }

    /// Whether any index has a mark of that kind, in a sector of any world of so many cells a
    /// sector. It costs a look at each page from the lowest component on up to the highest.
    pub fn has_any(&self, kind: MarkKind) -> bool
        ensures { (bounds : Sizes) (sector : ℕ) → AreSizes bounds → sector < sector_count bounds
            → 64 * length (words_of kind self.now) ≡ sector_cells bounds
            → result ≡ nat_lt 0 (length (marked_places bounds sector (words_of kind self.now))) }
    {
        self.first_from(kind, 0).is_some()
    }

    /// How many components stand there. No clause tells the number, since only costs rest on it.
    pub fn count(&self) -> u32 {
        self.count
    }

    // Whether no component was put down there so far, so that nothing is marked.
    #[inline(always)]
    fn is_blank(&self) -> bool
        ensures { result ≡ true → (kind : MarkKind)
            → IsFirstMarked (words_of kind self.now) 0 None }
    {
        self.end <= self.first
    }
}

impl Clone for MachineMarks {
    ghost is_clone = { λ marks copy. copy ≡ marks };

    fn clone(&self) -> Result<MachineMarks, AllocError> {
        Ok(MachineMarks {
            pages: self.pages.clone()?,
            first: self.first,
            end: self.end,
            count: self.count,
        })
    }
}
