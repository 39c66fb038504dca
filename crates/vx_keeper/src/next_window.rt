use vx_sector::Fresh;

/// What the sector of that number begins its next window with.
#[derive(Drop)]
pub struct NextWindow {
    pub number: usize,
    pub fresh: Fresh,
}
