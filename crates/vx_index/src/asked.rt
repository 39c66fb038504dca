use vx_flag::Action;
use vx_geom::Pos;
use vx_region::Name;

/// What a player asked: whether one of that name may do this at the place.
#[derive(Clone, Copy, PartialEq, Eq, Hash)]
pub(crate) struct Asked {
    pub name: Name,
    pub action: Action,
    pub place: Pos,
}
