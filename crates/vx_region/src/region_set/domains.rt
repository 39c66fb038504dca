//! The domains of machines: whether a machine may reach into a region by a domain that some region
//! that contains its place shares with it. It takes no memory.
ghost use Rattle.std.specs.Prelude.{◌≡◌, option_map};
ghost use Rattle.std.specs.List.{list_any};
ghost use Rattle.vx_region.specs.Association.{has_domain_along, share_domain, stands_in_domain};
ghost use Rattle.vx_region.specs.Domains.{lists_domains, lists_domains_along, lists_domain_of};
ghost use Rattle.vx_region.specs.Regions.{parent_of};

use super::RegionSet;
use crate::region_no::RegionNo;
use crate::roster::Roster;
use vx_geom::Pos;
use vx_name::Name;

impl RegionSet {
    // Whether some region that contains the place itself shares a domain with that of the number.
    pub(crate) fn stands_in_domain(&self, place: &Pos, number: RegionNo) -> bool
        ensures { result ≡ stands_in_domain self.now place.now number.0 }
    {
        // Most regions have no domain at all, and then no other is looked at.
        if !self.lists_domains_along(number) {
            return false;
        }
        self.stands_in_one_of(place, number)
    }

    // The same, region by region.
    #[tactic(auto, unfolding(crate::specs::Association::stands_in_domain))]
    fn stands_in_one_of(&self, place: &Pos, number: RegionNo) -> bool
        ensures { result ≡ stands_in_domain self.now place.now number.0 }
    {
        for i in 0..self.count() {
            let (other, region) = self.nth(i);
            if !region.contains(*place) {
                continue;
            }
            if self.share_domain(other, number) {
                return true;
            }
        }
        false
    }

    /// Whether some domain of the first region is one of the second.
    pub fn share_domain(&self, number: RegionNo, other: RegionNo) -> bool
        ensures { result ≡ share_domain self.now number.0 other.0 }
    {
        let mut at = number;
        for _ in 0..u64::from(self.last()) + 1 {
            let (is_shared, parent) = self.sharing_at(at, other);
            if is_shared {
                return true;
            }
            match parent {
                Some(parent) => at = parent,
                None => return false,
            }
        }
        // No walk comes here: no chain of parents is longer than the numbers that were given.
        false
    }

    // Whether the region of that number lists a domain of the other itself, and its parent.
    #[tactic(auto, using(vx_name::proofs::NameLemmas::any_texts), unfolding(crate::specs::Domains::lists_domain_of, crate::specs::Association::domains_at, crate::specs::Regions::parent_of))]
    fn sharing_at(&self, number: RegionNo, other: RegionNo) -> (bool, Option<RegionNo>)
        ensures shared { result.0 ≡ lists_domain_of self.now other.0 number.0 }
        ensures parent { option_map (λ n. n.0) result.1 ≡ parent_of self.now number.0 }
    {
        match self.get(number) {
            Some(region) => (self.has_one_along(region.domains(), other), region.parent()),
            None => (false, None),
        }
    }

    // Whether one of these domains is a domain of the region of that number.
    fn has_one_along(&self, domains: &[Name], number: RegionNo) -> bool
        ensures { result ≡
            list_any (λ d. has_domain_along self.now d.text.bytes number.0) domains.now }
    {
        for domain in domains {
            if self.has_name_along(Roster::Domains, domain, number) {
                return true;
            }
        }
        false
    }

    /// Whether the region of that number or one of its ancestors lists a domain.
    #[tactic(auto, unfolding(crate::specs::Domains::lists_domains_along))]
    pub fn lists_domains_along(&self, number: RegionNo) -> bool
        ensures { result ≡ lists_domains_along self.now number.0 }
    {
        let mut at = number;
        for _ in 0..u64::from(self.last()) + 1 {
            let (lists_some, parent) = self.listing_at(at);
            if lists_some {
                return true;
            }
            match parent {
                Some(parent) => at = parent,
                None => return false,
            }
        }
        // No walk comes here: no chain of parents is longer than the numbers that were given.
        false
    }

    // Whether the region of that number lists a domain itself, and its parent.
    #[tactic(auto, using(vx_name::proofs::NameLemmas::length_texts), unfolding(crate::specs::Domains::lists_domains, crate::specs::Association::domains_at, crate::specs::Regions::parent_of))]
    fn listing_at(&self, number: RegionNo) -> (bool, Option<RegionNo>)
        ensures some { result.0 ≡ lists_domains self.now number.0 }
        ensures parent { option_map (λ n. n.0) result.1 ≡ parent_of self.now number.0 }
    {
        match self.get(number) {
            Some(region) => (0 < region.domains().len(), region.parent()),
            None => (false, None),
        }
    }
}
