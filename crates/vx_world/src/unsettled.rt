use crate::lifted::Lifted;
use crate::pass::Pass;
use crate::seats::Seats;
use crate::settle_error::SettleError;
use vx_keeper::{Keeper, Places};

/// A world that was not settled, and why: all that was handed in.
#[derive(Drop)]
pub struct Unsettled<A: Places, B: Seats> {
    pub error: SettleError,
    pub lifted: Lifted<A, B>,
    pub keeper: Keeper<A>,
    pub passes: Vec<Pass<A, B>>,
}
