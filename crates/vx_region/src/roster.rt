/// The lists of names that a region has: its owners and its members, who are players, and the domains
/// of machines.
#[derive(Clone, Copy, Debug, PartialEq, Eq)]
pub enum Roster {
    Owners,
    Members,
    Domains,
}
