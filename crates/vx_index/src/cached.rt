ghost use Rattle.std.specs.Prelude.{◌≡◌};
ghost use Rattle.vx_region.specs.Subjects.{actor_of};
ghost use Rattle.vx_decide.specs.Verdict.{verdict};

use crate::asked::Asked;
use crate::indexed::Indexed;
use crate::kept::Kept;
use std::marker::Model;
use vx_decide::{Decide, Verdict};
use vx_flag::Action;
use vx_geom::Pos;
use vx_region::Subject;

/// The policy of a set of regions, asked of an index that keeps the verdicts that players asked for
/// last.
#[derive(Drop)]
pub struct Cached<'a> {
    indexed: Indexed<'a>,
    kept: Kept,
}

impl<'a> Model for Cached<'a> {
    ghost use Rattle.vx_region.specs.Regions.{Regions};
    ghost use Rattle.vx_index.specs.Verdicts.{AreVerdicts};

    ghost Value = { Regions };

    ghost view = { λ a. a.indexed };

    ghost invariant = { λ a. AreVerdicts a.indexed a.kept };
}

impl<'a> Cached<'a> {
    /// The policy of the index, with no verdict kept yet. It takes no memory.
    pub fn new(indexed: Indexed<'a>) -> Cached<'a>
        ensures { result ≡ indexed.entry }
    {
        Cached {
            indexed,
            kept: Kept::new(),
        }
    }

    /// The verdict that `decide` gives. A player's is kept, unless memory is wanting.
    pub fn ask(&mut self, subject: &Subject, action: Action, p: Pos) -> Verdict
        ensures verdict { result ≡ verdict self.old (actor_of subject.now) action p }
        ensures same { self.new ≡ self.old }
    {
        let Subject::Player(name) = subject else {
            return self.indexed.decide(subject, action, p);
        };
        let asked = Asked {
            name: *name,
            action,
            place: p,
        };
        if let Some(verdict) = self.kept.recall(&asked) {
            return verdict;
        }
        let verdict = self.indexed.decide(subject, action, p);
        self.kept.keep(self.indexed.allocator(), &asked, verdict);
        verdict
    }
}

impl Decide for Cached<'_> {
    ghost policy = { λ a. a };

    fn decide(&self, subject: &Subject, action: Action, p: Pos) -> Verdict {
        if let Subject::Player(name) = subject {
            let asked = Asked {
                name: *name,
                action,
                place: p,
            };
            if let Some(verdict) = self.kept.get(&asked) {
                return verdict;
            }
        }
        self.indexed.decide(subject, action, p)
    }
}
