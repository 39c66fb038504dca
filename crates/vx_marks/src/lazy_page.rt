ghost use Rattle.std.specs.Option.{option_map_or};
ghost use Rattle.std.specs.Prelude.{◌≡◌, ◌<◌, ℕ, false, List, replicate, box_value, IfOk, OnOk, OnErr};
ghost use Rattle.vx_marks.specs.Marks.{is_marked, IsFirstMarked, IsMarkSet, IsRunMarked};
ghost use Rattle.vx_marks.specs.declared.page.TheConstants.{PAGE};

use crate::page::{PAGE, Page};
use std::alloc::{AllocError, Global};
use std::marker::Model;

/// A page that takes no memory before an index of it is marked.
#[derive(Drop)]
pub struct LazyPage {
    page: Option<Box<Page>>,
}

impl Model for LazyPage {
    ghost use Rattle.std.specs.Prelude.{ℕ, List, replicate, box_value};
    ghost use Rattle.std.specs.Option.{option_map_or};

    ghost Value = { List ℕ };

    ghost view = { λ a. option_map_or (λ p. box_value {X = List ℕ} p) a.page (replicate 64 0) };
}

impl LazyPage {
    /// A page with no index marked. It takes no memory.
    pub fn new() -> LazyPage
        ensures { result ≡ replicate 64 0 }
    {
        LazyPage { page: None }
    }

    /// Whether an index is marked.
    pub fn has(&self, index: u32) -> bool
        ensures { result ≡ is_marked self.now index }
    {
        match &self.page {
            Some(page) => page.has(index),
            None => false,
        }
    }

    /// Marks each index of a run, as far as the first one's word goes.
    #[inline(always)]
    pub fn mark_run(&mut self, alloc: Global, first: u32, bits: u64) -> Result<(), AllocError>
        requires { first < PAGE }
        ensures ok { OnOk result (IsRunMarked self.old self.new first bits) }
        ensures err { OnErr result (self.new ≡ self.old) }
    {
        match &mut self.page {
            Some(page) => page.mark_run(first, bits),
            None => self.page = first_run(alloc, first, bits)?,
        }
        Ok(())
    }

    /// Takes the mark of an index away, if it has one. It takes no memory.
    #[inline(always)]
    pub fn clear(&mut self, index: u32)
        requires { index < PAGE }
        ensures { IsMarkSet self.old self.new index false }
    {
        let Some(page) = &mut self.page else {
            return;
        };
        page.set(index, false);
    }

    /// The first marked index from this one on.
    pub fn first_from(&self, from: u32) -> Option<u32>
        requires { from < PAGE }
        ensures { IsFirstMarked self.now from result }
    {
        match &self.page {
            Some(page) => page.first_from(from),
            None => None,
        }
    }
}

// A page with a run marked; none where the run is empty.
fn first_run(alloc: Global, first: u32, bits: u64) -> Result<Option<Box<Page>>, AllocError>
    requires { first < PAGE }
    ensures { IfOk result (λ page. IsRunMarked (replicate 64 0)
        (option_map_or (λ p. box_value {X = List ℕ} p) page (replicate 64 0)) first bits) }
{
    if bits == 0 {
        return Ok(None);
    }
    let mut page = Page::new();
    page.mark_run(first, bits);
    Ok(Some(Box::new(alloc, page)?))
}
