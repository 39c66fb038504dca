/// The columns from the first of two up to below the second, in the rows from the first of two up to
/// below the second.
#[derive(Clone, Copy)]
pub(crate) struct Area {
    pub west: u32,
    pub east: u32,
    pub north: u32,
    pub south: u32,
}
