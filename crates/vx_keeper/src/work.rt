use vx_still::Watch;
use vx_tick::Plan;

/// What a tick does to the map, as it was worked, and what is kept of the map after it.
#[derive(Drop)]
pub struct Work {
    pub plan: Plan,
    pub watch: Watch,
}
