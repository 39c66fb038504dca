use vx_block::Part;
use vx_flag::Action;
use vx_geom::{Bounds, Pos};
use vx_policy::Edit;
use vx_region::Name;
use vx_sector::Cmd;

/// What a line of a script says. docs/FORMATS.md has the table of the lines.
#[derive(Drop)]
pub enum Line {
    /// A blank line or a comment.
    Skipped,
    /// The size of the world.
    World(Bounds),
    /// A player, who gets the next seat.
    Player(Name),
    /// A cell of the world as it opens.
    Set(Pos, Part),
    /// A command of the player of that name.
    As(Name, Cmd),
    /// An edit of the policy.
    Region(Edit),
    /// The end of a window.
    Tick,
    /// Whether the player of that name may do this at the position.
    Explain(Name, Action, Pos),
    /// The beginning of a block: the commands up to its end are made at once.
    Together,
    /// The end of a block.
    End,
}
