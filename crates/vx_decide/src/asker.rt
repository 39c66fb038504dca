ghost use Rattle.std.specs.Prelude.{◌≡◌, ◌&&◌};
ghost use Rattle.vx_decide.specs.Candidates.{Suffice};
ghost use Rattle.vx_decide.specs.Hosts.{HoldHosts, NameHosts};
ghost use Rattle.vx_geom.specs.Outline.{is_in};
ghost use Rattle.vx_region.specs.Association.{association, machine_association, share_domain, stands_in_domain};
ghost use Rattle.vx_region.specs.Subjects.{actor_of};

use crate::candidates::Candidates;
use vx_flag::Association;
use vx_geom::Pos;
use vx_region::{Region, RegionNo, RegionSet, Subject};

/// Who asks a policy, and of which regions. A machine's domains are found among its hosts, which
/// hold each region in which it stands.
#[derive(Drop)]
pub struct Asker<'a> {
    pub regions: &'a RegionSet,
    pub subject: &'a Subject,
    hosts: Candidates<'a>,
    ghost homes: { HoldHosts regions.now (actor_of subject.now) hosts },
}

impl<'a> Asker<'a> {
    /// The subject, whose hosts are all of these regions.
    pub fn new(regions: &'a RegionSet, subject: &'a Subject) -> Asker<'a>
        ensures regions { result.regions.now ≡ regions.now }
        ensures subject { result.subject.now ≡ subject.now }
    {
        regions.soundness();
        Asker {
            regions,
            subject,
            hosts: Candidates::all(regions),
        }
    }

    /// The subject, whose hosts are the regions of these numbers.
    pub fn at(regions: &'a RegionSet, subject: &'a Subject, numbers: &'a [u32]) -> Asker<'a>
        requires { NameHosts regions.now (actor_of subject.now) numbers.now }
        ensures regions { result.regions.now ≡ regions.now }
        ensures subject { result.subject.now ≡ subject.now }
    {
        regions.soundness();
        Asker {
            regions,
            subject,
            hosts: Candidates::at(regions, numbers),
        }
    }
}

impl Asker<'_> {
    /// What the subject is to the region of that number. It takes no memory. For a machine it costs
    /// a look at each host, and that only where the region or one of its ancestors lists a domain.
    #[tactic(auto, unfolding(vx_region::specs::Association::association))]
    pub fn association(&self, number: RegionNo) -> Association
        ensures { result
            ≡ association self.now.regions.now (actor_of self.now.subject.now) number.0 }
    {
        match self.subject {
            Subject::Player(_) => self.regions.association(self.subject, number),
            Subject::Machine(place) => self.machine_association(place, number),
        }
    }

    #[tactic(auto, unfolding(vx_region::specs::Association::machine_association))]
    fn machine_association(&self, place: &Pos, number: RegionNo) -> Association
        requires { Suffice self.now.regions.now.entries place.now self.now.hosts }
        ensures { result ≡ machine_association self.now.regions.now place.now number.0 }
    {
        if self.regions.holds_place(place, number) {
            return Association::Owner;
        }
        if self.stands_in_domain(place, number) {
            return Association::Owner;
        }
        Association::Stranger
    }

    // Whether some region that contains the place shares a domain with that of the number.
    fn stands_in_domain(&self, place: &Pos, number: RegionNo) -> bool
        requires { Suffice self.now.regions.now.entries place.now self.now.hosts }
        ensures { result ≡ stands_in_domain self.now.regions.now place.now number.0 }
    {
        // Most regions have no domain at all, and then no host is looked at.
        if !self.regions.lists_domains_along(number) {
            return false;
        }
        self.stands_in_host(place, number)
    }

    // Whether some host that contains the place shares a domain with the region of the number.
    fn stands_in_host(&self, place: &Pos, number: RegionNo) -> bool
        requires { Suffice self.now.regions.now.entries place.now self.now.hosts }
        ensures { result ≡ stands_in_domain self.now.regions.now place.now number.0 }
    {
        for i in 0..self.hosts.count() {
            let (host, region) = self.hosts.nth(i);
            if self.lets_in(host, region, place, number) {
                return true;
            }
        }
        false
    }

    // Whether the host contains the place and shares a domain with the region of the number.
    fn lets_in(&self, host: RegionNo, region: &Region, place: &Pos, number: RegionNo) -> bool
        ensures { result ≡ (is_in region.now.shape place.now
            && share_domain self.now.regions.now host.0 number.0) }
    {
        region.contains(*place) && self.regions.share_domain(host, number)
    }
}
