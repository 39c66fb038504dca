use vx_sector::Entry;

/// A window with entries, and the number of its sector.
#[derive(Drop)]
pub struct KeptWindow {
    pub sector: usize,
    pub entries: Vec<Entry>,
}
