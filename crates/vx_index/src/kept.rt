ghost use Rattle.std.specs.Prelude.{◌≡◌, ◌⊎◌, [], Contains, IfSome};
ghost use Rattle.vx_decide.specs.declared.verdict.Verdict.{Verdict};
ghost use Rattle.vx_index.specs.SameAsked.{IsSameAsked};
ghost use Rattle.vx_index.specs.Verdicts.{KeepsFew, kept_verdicts};
ghost use Rattle.vx_index.specs.declared.asked.Asked.{Asked};

use crate::asked::Asked;
use lru::LruCache;
use std::alloc::Global;
use std::marker::Model;
use std::num::NonZeroUsize;
use vx_decide::Verdict;

/// How many verdicts are kept at most.
const MAX_KEPT: usize = 256;

/// The verdicts that were asked for last, at most 256. Contracts see it as these.
#[derive(Drop)]
pub(crate) struct Kept {
    // None until one is kept. It stands apart, since a sector that keeps none is moved by each tick.
    verdicts: Option<Box<LruCache<Asked, Verdict>>>,
}

impl Model for Kept {
    ghost use Rattle.std.specs.Prelude.{IfSome};
    ghost use Rattle.vx_index.specs.Verdicts.{Verdicts, KeepsFew, kept_verdicts};

    ghost Value = { Verdicts };

    ghost view = { λ a. kept_verdicts a.verdicts };

    ghost invariant = { λ a. IfSome a.verdicts (λ cache. KeepsFew cache.value) };
}

impl Kept {
    /// Nothing is kept yet. It takes no memory.
    pub(crate) fn new() -> Kept
        ensures { result ≡ [] }
    {
        Kept { verdicts: None }
    }

    /// The verdict that is kept on a question.
    pub(crate) fn get(&self, asked: &Asked) -> Option<Verdict>
        ensures { IfSome result (λ verdict. (same : Asked)
            × Contains self.now (same, verdict)
            × IsSameAsked asked.now same) }
    {
        self.verdicts.as_ref()?.peek(asked).copied()
    }

    /// The verdict that is kept on a question, which is then the one asked last.
    pub(crate) fn recall(&mut self, asked: &Asked) -> Option<Verdict>
        ensures found { IfSome result (λ verdict. (same : Asked)
            × Contains self.old (same, verdict)
            × IsSameAsked asked.now same) }
        ensures kept { (e : Asked × Verdict) → Contains self.new e
            → Contains self.old e }
    {
        let verdict = self.get(asked)?;
        let verdicts = self.verdicts.as_mut()?;
        verdicts.promote(asked);
        Some(verdict)
    }

    /// Keeps a verdict in place of the one that was not asked for the longest. Where memory is
    /// wanting it is not kept.
    pub(crate) fn keep(&mut self, alloc: Global, asked: &Asked, verdict: Verdict)
        ensures { (e : Asked × Verdict) → Contains self.new e
            → Contains self.old e
            ⊎ ((e.1 ≡ verdict) × IsSameAsked asked.now e.0) }
    {
        self.prepare(alloc);
        if let Some(verdicts) = &mut self.verdicts {
            let _ = verdicts.put(*asked, verdict);
        }
    }

    // Makes room for the first verdict, if memory is there.
    fn prepare(&mut self, alloc: Global)
        ensures { self.new ≡ self.old }
    {
        if self.verdicts.is_none() {
            self.verdicts = empty(alloc);
        }
    }
}

// A cache with nothing in it, if memory is there.
fn empty(alloc: Global) -> Option<Box<LruCache<Asked, Verdict>>>
    ensures few { IfSome result (λ cache. KeepsFew cache.value) }
    ensures nothing { kept_verdicts result ≡ [] }
{
    let verdicts = LruCache::sparse(alloc, NonZeroUsize::new(MAX_KEPT)?).ok()?;
    Box::new(alloc, verdicts).ok()
}
