/// The phases of a tick on several threads, in their order.
#[derive(Clone, Copy, Debug, PartialEq, Eq)]
pub enum Phase {
    /// What each component becomes, and what pistons ask for.
    Parts,
    /// Which of the moves the policy denies.
    Fates,
    /// The sectors with their next parts.
    Cells,
}
