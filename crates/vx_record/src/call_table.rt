use crate::call::Call;
use vx_windows::MAX_PLAYERS;

/// The calls in a sector, by the numbers of the seats that made them.
#[derive(Clone, Copy)]
pub(crate) struct CallTable<'a> {
    pub(crate) calls: [&'a [Call]; MAX_PLAYERS],
}
