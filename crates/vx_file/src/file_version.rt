/// The version in which a regions file is written.
#[derive(Clone, Copy)]
pub enum FileVersion {
    /// Regions have no domains.
    One,
    /// A region may have the key `domains`.
    Two,
}
