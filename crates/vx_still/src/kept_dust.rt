use vx_levels::LinkedLevels;
use vx_places::Places;

/// What is kept of the dust of a map between two ticks: its levels with their links, and such dust
/// as is known to be heeded by no device. How many components the map had as it was last rebuilt
/// stands beside; no clause speaks of that number, since nothing but costs rests on it.
#[derive(Drop)]
pub struct KeptDust {
    pub levels: LinkedLevels,
    pub unheeded: Places,
    pub components: usize,
}
