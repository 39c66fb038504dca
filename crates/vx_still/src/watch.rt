use crate::kept_dust::KeptDust;
use crate::waking::Waking;
use std::marker::Model;

/// What is kept of a map between two ticks: where it is not still, and what is known of its dust,
/// unless too much changed to keep it.
#[derive(Drop)]
pub struct Watch {
    pub waking: Waking,
    pub dust: Option<KeptDust>,
    /// For so many ticks on end little has changed, if nothing is kept of the dust. No clause says so: only
    /// costs rest on it.
    pub calm: u32,
}

impl Model for Watch {
    ghost use Rattle.vx_still.specs.Watching.{WatchData};

    ghost Value = { WatchData };

    ghost view = { λ a. record { waking = a.waking; dust = a.dust } };
}
