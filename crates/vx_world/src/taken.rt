ghost use Rattle.std.specs.List.{All};
ghost use Rattle.std.specs.Prelude.{◌≡◌, ◌+◌, ◌<◌, ◌≤◌, ◌++◌, ◌∷◌, [], map, vec_len, vec_capacity, IfOk, MatchOption, None, OnSome, true};
ghost use Rattle.vx_sector.specs.Windows.{count_of};
ghost use Rattle.vx_keeper.specs.Marks.{WorldData, IsPartOf, AreParts};

use crate::home::Home;
use std::alloc::{AllocError, Global};
use std::sync::ledger::Share;
use vx_keeper::{Keeper, Marked, Places};
use vx_sector::Sector;

/// The sectors that a tick has taken out of their locks, in order of their numbers, each beside its
/// share and whether its window is known to have begun with its part of the world.
// It is not `Drop`: a tick ends only once it has put each of them back.
pub struct Taken<A: Places> {
    pub(crate) sectors: Vec<Sector>,
    pub(crate) are_parts: Vec<bool>,
    shares: Vec<Share<A>>,
    ghost counted: { map count_of sectors.items ≡ map (λ share. share.amount) shares.items },
    ghost told: { vec_len are_parts ≡ vec_len sectors },
    ghost each: { vec_len shares ≡ vec_len sectors },
    ghost one_part: { All (λ share. share.parts ≡ 1) shares.items },
    ghost roomy: { (A.all ≤ vec_capacity sectors) × (A.all ≤ vec_capacity are_parts)
        × (A.all ≤ vec_capacity shares) },
}

impl<A: Places> Taken<A> {
    /// No sector, with room for all of the world.
    pub fn with_room(alloc: Global, count: usize) -> Result<Taken<A>, AllocError>
        requires { count ≡ A.all }
        ensures { IfOk result (λ taken. taken.sectors.items ≡ []) }
    {
        Ok(Taken {
            sectors: Vec::with_capacity(alloc, count)?,
            are_parts: Vec::with_capacity(alloc, count)?,
            shares: Vec::with_capacity(alloc, count)?,
        })
    }

    /// Adds a sector that was at home, under the number of the version that judges its window, with
    /// what the keeper's mark on it says. It takes no memory.
    pub fn add(&mut self, keeper: &Keeper<A>, home: Home<A>)
        requires more { vec_len self.old.sectors < A.all }
        requires parts { AreParts keeper.now.world self.old.are_parts.items
            self.old.sectors.items }
        ensures parts { AreParts keeper.now.world self.new.are_parts.items
            self.new.sectors.items }
        ensures count { vec_len self.new.sectors ≡ vec_len self.old.sectors + 1 }
    {
        let mut home = home;
        let is_part = home.catch_up(keeper);
        let (marked, share) = home.into_parts();
        self.push(marked.into_sector(), is_part, share);
    }

    // Adds a sector.
    fn push(&mut self, sector: Sector, is_part: bool, share: Share<A>)
        requires more { vec_len self.old.sectors < A.all }
        requires one_part { share.parts ≡ 1 }
        requires counted { share.amount ≡ count_of sector }
        ensures sectors { self.new.sectors.items ≡ self.old.sectors.items ++ sector ∷ [] }
        ensures are_parts { self.new.are_parts.items ≡ self.old.are_parts.items ++ is_part ∷ [] }
        ensures count { vec_len self.new.sectors ≡ vec_len self.old.sectors + 1 }
    {
        self.sectors.push_reserved(sector);
        self.are_parts.push_reserved(is_part);
        self.shares.push_reserved(share);
    }

    /// Takes the last sector out and sends it home, with the mark of what the keeper knows where its
    /// window began with its part of that.
    pub fn pop_home(&mut self, keeper: &Keeper<A>) -> Option<Home<A>>
        requires parts { AreParts keeper.now.world self.old.are_parts.items
            self.old.sectors.items }
        ensures parts { OnSome result (AreParts keeper.now.world self.new.are_parts.items
            self.new.sectors.items) }
        ensures count { OnSome result
            (vec_len self.new.sectors + 1 ≡ vec_len self.old.sectors) }
        ensures some { result ≡ None → self.old.sectors.items ≡ [] }
    {
        let (sector, is_part, share) = self.pop()?;
        Some(Home::new(marked(keeper, sector, is_part), share))
    }

    // Takes the last sector out.
    fn pop(&mut self) -> Option<(Sector, bool, Share<A>)>
        ensures count { OnSome result
            (vec_len self.new.sectors + 1 ≡ vec_len self.old.sectors) }
        ensures last { MatchOption result (self.old.sectors.items ≡ []) (λ last.
            (self.old.sectors.items ≡ self.new.sectors.items ++ last.0 ∷ [])
            × (self.old.are_parts.items ≡ self.new.are_parts.items ++ last.1 ∷ [])
            × (last.2.parts ≡ 1) × (last.2.amount ≡ count_of last.0)) }
    {
        let sector = self.sectors.pop()?;
        let Some(is_part) = self.are_parts.pop() else {
            unreachable!()
        };
        let Some(share) = self.shares.pop() else {
            unreachable!()
        };
        Some((sector, is_part, share))
    }

    /// Ends a tick that has put all of them back.
    pub fn end(self)
        requires { vec_len self.sectors ≡ 0 }
    {
        let Taken {
            sectors: _sectors,
            are_parts: _are_parts,
            shares: _shares,
        } = self;
    }

    /// Says of each that it is known to have begun with its part of the world.
    pub fn are_all_parts(&mut self)
        ensures count { vec_len self.new.sectors ≡ vec_len self.old.sectors }
        ensures parts { (world : WorldData) → All (IsPartOf world) self.old.sectors.items
            → AreParts world self.new.are_parts.items self.new.sectors.items }
    {
        self.are_parts.fill(true);
    }
}

// A sector with the mark of what the keeper knows, where its window began with its part of that.
fn marked<A: Places>(keeper: &Keeper<A>, sector: Sector, is_part: bool) -> Marked<A>
    requires { is_part ≡ true → IsPartOf keeper.now.world sector }
    ensures { result ≡ sector }
{
    if !is_part {
        return Marked::new(sector, None);
    }
    let mark = keeper.mark_for(&sector);
    Marked::new(sector, mark)
}
