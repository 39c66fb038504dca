ghost use Rattle.std.specs.Prelude.{◌≡◌, ◌%◌, ◌<◌, None, replicate, slice_set, IfOk, OnOk, OnErr, IfSome};
ghost use Rattle.std.specs.Arc.{arc_value};
ghost use Rattle.vx_store.specs.Chests.{Changes, SameSlots, begun};
ghost use Rattle.vx_store.specs.Codes.{cell_of, is_chest};
ghost use Rattle.vx_store.specs.MachineMarks.{words_of, blank_page, AreMarksSet};
ghost use Rattle.vx_store.specs.Placing.{CanPut};
ghost use Rattle.vx_marks.specs.Marks.{IsFirstMarked};
ghost use Rattle.vx_marks.specs.declared.page.TheConstants.{PAGE};

use crate::chest_parts::ChestParts;
use crate::machine_page::MachinePage;
use crate::mark_kind::MarkKind;
use crate::put_down::put_over;
use std::alloc::{AllocError, Global};
use std::marker::Model;
use std::sync::Arc;
use vx_marks::{PAGE, Page};
use vx_section::Sections;

/// The marks of 4,096 cells of a sector. Copies share them until one of them changes.
#[derive(Drop)]
pub struct SharedPage {
    // `None` until a component stands there, so that it takes no memory.
    page: Option<Arc<MachinePage>>,
}

impl Model for SharedPage {
    ghost use Rattle.std.specs.Arc.{arc_value};
    ghost use Rattle.std.specs.Option.{option_map_or};
    ghost use Rattle.vx_store.specs.MachineMarks.{MarkWords, blank_page};

    ghost Value = { MarkWords };

    ghost view = { λ a. option_map_or (λ p. arc_value {X = MarkWords} p) a.page blank_page };
}

impl SharedPage {
    /// A page with nothing marked. It takes no memory.
    pub fn new() -> SharedPage
        ensures { result ≡ blank_page }
    {
        SharedPage { page: None }
    }

    /// The first index of the page, from this one on, with a mark of that kind.
    pub fn first_from(&self, kind: MarkKind, from: u32) -> Option<u32>
        requires { from < PAGE }
        ensures { IsFirstMarked (words_of kind self.now) from result }
    {
        match &self.page {
            Some(page) => page.of(kind).first_from(from),
            None => None,
        }
    }

    /// The marks of a kind; none where nothing has a mark.
    #[inline(always)]
    pub fn of(&self, kind: MarkKind) -> Option<&Page>
        ensures some { IfSome result (λ page. page.now ≡ words_of kind self.now) }
        ensures none { result ≡ None → words_of kind self.now ≡ replicate 64 0 }
    {
        match &self.page {
            Some(page) => Some(page.of(kind)),
            None => None,
        }
    }

    /// Puts a byte down whose cell has other marks than the one that was there, and marks its index
    /// within the page. The page is made or copied before anything changes.
    pub fn put_down(
        &mut self,
        alloc: Global,
        store: &mut Sections,
        chests: &mut ChestParts,
        index: u32,
        code: u8,
    ) -> Result<(), AllocError>
        requires { CanPut store.old chests.old index code }
        ensures store { OnOk result (store.new ≡ slice_set store.old index code) }
        ensures chests { OnOk result (Changes chests.old chests.new index
            (begun (is_chest (cell_of code)))) }
        ensures marks { OnOk result (AreMarksSet self.old self.new (index % PAGE) code) }
        ensures err { OnErr result ((store.new ≡ store.old)
            × SameSlots chests.old chests.new × (self.new ≡ self.old)) }
    {
        match &mut self.page {
            Some(shared) => put_in(shared, store, chests, index, code),
            None => {
                self.page = Some(put_first(alloc, store, chests, index, code)?);
                Ok(())
            }
        }
    }
}

impl Clone for SharedPage {
    ghost is_clone = { λ page copy. copy ≡ page };

    fn clone(&self) -> Result<SharedPage, AllocError> {
        let Some(page) = &self.page else {
            return Ok(SharedPage::new());
        };
        Ok(SharedPage {
            page: Some(Arc::try_clone(page)?),
        })
    }
}

// Puts a byte down, and marks its index in a page that copies may share.
fn put_in(
    shared: &mut Arc<MachinePage>,
    store: &mut Sections,
    chests: &mut ChestParts,
    index: u32,
    code: u8,
) -> Result<(), AllocError>
    requires { CanPut store.old chests.old index code }
    ensures store { OnOk result (store.new ≡ slice_set store.old index code) }
    ensures chests { OnOk result (Changes chests.old chests.new index
        (begun (is_chest (cell_of code)))) }
    ensures marks { OnOk result
        (AreMarksSet (arc_value shared.old) (arc_value shared.new) (index % PAGE) code) }
    ensures err { OnErr result ((store.new ≡ store.old)
        × SameSlots chests.old chests.new × (arc_value shared.new ≡ arc_value shared.old)) }
{
    let page = Arc::make_mut(shared)?;
    put_over(store, chests, index, code)?;
    page.set(index % PAGE, code);
    Ok(())
}

// Puts a byte down, and marks its index in a page of its own.
fn put_first(
    alloc: Global,
    store: &mut Sections,
    chests: &mut ChestParts,
    index: u32,
    code: u8,
) -> Result<Arc<MachinePage>, AllocError>
    requires { CanPut store.old chests.old index code }
    ensures store { OnOk result (store.new ≡ slice_set store.old index code) }
    ensures chests { OnOk result (Changes chests.old chests.new index
        (begun (is_chest (cell_of code)))) }
    ensures marks { IfOk result
        (λ page. AreMarksSet blank_page (arc_value page) (index % PAGE) code) }
    ensures err { OnErr result ((store.new ≡ store.old) × SameSlots chests.old chests.new) }
{
    let mut first = MachinePage::new();
    first.set(index % PAGE, code);
    let page = Arc::new(alloc, first)?;
    put_over(store, chests, index, code)?;
    Ok(page)
}
