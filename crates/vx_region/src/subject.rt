use vx_geom::Pos;
use vx_name::Name;

/// Who acts: a player, or a machine by the place where it stands.
#[derive(Clone, Copy, Debug, PartialEq, Eq)]
pub enum Subject {
    Player(Name),
    Machine(Pos),
}
