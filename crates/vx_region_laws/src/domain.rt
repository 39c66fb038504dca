ghost use Rattle.vx_region_laws.specs.Domain.{NoDomainAsBefore, DomainsAreNoPlayers, OneDomainJoins, LastDomainParts, ParentsAreTheChilds, ChildsAreNotTheParents};

/// To a region without a domain, of its own or of an ancestor, a machine is what it would be if
/// there were no domains: an owner exactly where its place is in the region.
pub fn no_domain_changes_nothing()
    ensures { NoDomainAsBefore }
{}

/// Whatever domains a region lists, each player is to every region what he was.
pub fn domains_are_no_players()
    ensures { DomainsAreNoPlayers }
{}

/// Where two regions list one domain, a machine in one is an owner of the other. Once the last
/// domain that they have in common is dropped, it is a stranger to the other, if it does not stand
/// there.
pub fn one_domain_joins()
    ensures joined { OneDomainJoins }
    ensures parted { LastDomainParts }
{}

/// The domains of a parent are domains of each of its children. What a child lists is none of its
/// parent's.
pub fn domains_come_from_above()
    ensures down { ParentsAreTheChilds }
    ensures up { ChildsAreNotTheParents }
{}
