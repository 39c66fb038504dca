use vx_region::Name;

/// A player's seat: its number, from 0 in the order in which the players were named, and the name.
#[derive(Clone, Copy, Debug, PartialEq, Eq)]
pub struct Seat {
    pub number: u8,
    pub name: Name,
}
