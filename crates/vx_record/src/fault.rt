/// Why a world is not settled.
#[derive(Clone, Copy, Debug, PartialEq, Eq)]
pub enum Fault {
    /// Not each pass of the world is there once.
    PassMissing,
    /// The sector of that number is away, or differs from what the keeper has of it.
    Torn(u32),
    /// The calls of that seat in the sector of that number are not those that the record says.
    ListsDiffer(u8, u32),
}
