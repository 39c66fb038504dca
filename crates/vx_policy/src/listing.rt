/// Whether a name is added to the owners or members of a region, or dropped from them.
#[derive(Clone, Copy, Debug, PartialEq, Eq)]
pub enum Listing {
    /// The name is added. One that is there already stays there once.
    Add,
    /// The name is dropped. Nothing changes where it is not there.
    Drop,
}
