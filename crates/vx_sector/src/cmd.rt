use vx_block::Part;
use vx_flag::Action;
use vx_geom::Pos;

/// A player's command. The rules are in docs/RULES.md.
#[derive(Clone, Copy, Debug, PartialEq, Eq)]
pub enum Cmd {
    /// Shows the cell, never what a chest holds.
    Look(Pos),
    /// Puts the part where there is air.
    Place(Pos, Part),
    /// Leaves air where there is a part.
    Break(Pos),
    /// Switches a lever.
    Turn(Pos),
    /// Shows what a chest holds.
    OpenChest(Pos),
    /// Puts so many of an item into a slot of a chest. Slots have the numbers 0 to 26, and take 64.
    Put {
        at: Pos,
        slot: u8,
        item: u16,
        count: u8,
    },
    /// Takes so many out of a slot of a chest.
    Take {
        at: Pos,
        slot: u8,
        count: u8,
    },
}

impl Cmd {
    ghost use Rattle.std.specs.Prelude.{◌≡◌};
    ghost use Rattle.vx_sector.specs.Commands.{place_of, action_of};

    /// The position that the command speaks of.
    pub fn place(&self) -> Pos
        ensures { result ≡ place_of self.now }
    {
        match self {
            Cmd::Look(p)
            | Cmd::Place(p, _)
            | Cmd::Break(p)
            | Cmd::Turn(p)
            | Cmd::OpenChest(p)
            | Cmd::Put { at: p, .. }
            | Cmd::Take { at: p, .. } => *p,
        }
    }

    /// The action that the command asks leave for. A look asks nobody.
    pub fn action(&self) -> Option<Action>
        ensures { result ≡ action_of self.now }
    {
        match self {
            Cmd::Look(_) => None,
            Cmd::Place(_, _) => Some(Action::Placing),
            Cmd::Break(_) => Some(Action::Breaking),
            Cmd::Turn(_) => Some(Action::Turning),
            Cmd::OpenChest(_) | Cmd::Put { .. } | Cmd::Take { .. } => Some(Action::Reaching),
        }
    }
}
