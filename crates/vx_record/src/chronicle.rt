use crate::opening::Opening;
use crate::tick::Tick;

/// How a world opened, and its ticks since.
#[derive(Drop)]
pub struct Chronicle {
    pub opening: Opening,
    pub ticks: Vec<Tick>,
}
