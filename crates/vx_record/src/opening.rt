ghost use Rattle.std.specs.Prelude.{◌≡◌, vec_len, IfOk};
ghost use Rattle.vx_name.specs.Texts.{texts};

use crate::opening_error::OpeningError;
use std::alloc::{AllocError, Global};
use std::marker::Model;
use vx_block::Part;
use vx_cells::Whole;
use vx_geom::{Bounds, Pos};
use vx_policy::Policy;
use vx_region::Name;
use vx_sector::Refusal;
use vx_windows::MAX_PLAYERS;

/// How a world opens: its terrain, its players in order of their seats, and its policy.
pub struct Opening {
    terrain: Whole,
    names: Vec<Name>,
    policy: Policy,
}

impl Model for Opening {
    ghost use Rattle.std.specs.Prelude.{◌≤◌, vec_len};
    ghost use Rattle.vx_record.specs.Openings.{OpeningData};
    ghost use Rattle.vx_windows.specs.Limits.{most_players};
    ghost use Rattle.vx_name.specs.Texts.{texts};

    ghost Value = { OpeningData };

    ghost view = { λ a.
        record { terrain = a.terrain; names = texts a.names.items; policy = a.policy } };

    ghost invariant = { λ a. vec_len a.names ≤ most_players };
}

// Written out, so that what is above this crate need not prove how its parts are let go.
impl Drop for Opening {
    fn drop(self) {
        let Opening {
            terrain: _terrain,
            names: _names,
            policy: _policy,
        } = self;
    }
}

impl Opening {
    ghost use Rattle.std.specs.Prelude.{◌<◌, ◌≤◌, ◌↔◌, Some, Err, OnOk, OnErr, IfErr};
    ghost use Rattle.vx_cells.specs.MapLaws.{IsFilled};
    ghost use Rattle.vx_record.specs.Openings.{bare_opening, with_part, IsUnset};
    ghost use Rattle.vx_record.specs.declared.opening_error.OpeningError.TheVariants.{TooManyPlayers};
    ghost use Rattle.vx_windows.specs.Limits.{most_players};

    /// A world of this size with nothing but air, for the players of these names, of which there
    /// may be 64. Two seats may have one name.
    pub fn new(
        alloc: Global,
        bounds: Bounds,
        names: Vec<Name>,
        policy: Policy,
    ) -> Result<Opening, OpeningError>
        ensures ok { IfOk result (λ opening.
            opening ≡ bare_opening bounds (texts names.items) policy) }
        ensures many { (result ≡ Err TooManyPlayers) ↔ (most_players < vec_len names) }
    {
        if MAX_PLAYERS < names.len() {
            return Err(OpeningError::TooManyPlayers);
        }
        Ok(Opening {
            terrain: Whole::new(alloc, bounds)?,
            names,
            policy,
        })
    }

    /// A world with this terrain, for the players of these names, of which there may be 64. Two
    /// seats may have one name. It takes no memory.
    pub fn of(terrain: Whole, names: Vec<Name>, policy: Policy) -> Result<Opening, OpeningError>
        ensures ok { IfOk result (λ opening. opening
            ≡ record { terrain = terrain; names = texts names.items; policy = policy }) }
        ensures many { OnErr result (most_players < vec_len names) }
        ensures err { IfErr result (λ error. error ≡ TooManyPlayers) }
    {
        if MAX_PLAYERS < names.len() {
            return Err(OpeningError::TooManyPlayers);
        }
        Ok(Opening {
            terrain,
            names,
            policy,
        })
    }

    /// Puts a part at a position of the terrain, in place of what was there; refused outside the
    /// world and for want of memory.
    #[tactic(auto, unfolding(vx_cells::specs::Wholes::with_cell_on, vx_geom::specs::Sizes::sector_of))]
    pub fn set(&mut self, p: Pos, part: Part) -> Result<(), Refusal>
        ensures ok { OnOk result (with_part self.old p part ≡ Some self.new) }
        ensures err { OnErr result (self.new ≡ self.old) }
        ensures refusal { IfErr result (IsUnset self.old p part) }
    {
        if !self.terrain.bounds().inside(p) {
            return Err(Refusal::OutOfWorld);
        }
        match self.terrain.set(p, part.cell()) {
            Ok(true) => Ok(()),
            Ok(false) => Err(Refusal::OutOfWorld),
            Err(_) => Err(Refusal::NoMemory),
        }
    }

    /// A copy of the opening.
    pub fn try_clone(&self) -> Result<Opening, AllocError>
        ensures { IfOk result (λ copy. copy ≡ self.now) }
    {
        Ok(Opening {
            terrain: self.terrain.try_clone()?,
            names: self.names.to_vec(*self.names.allocator())?,
            policy: self.policy.try_clone()?,
        })
    }

    /// Its terrain, names and policy. It takes no memory.
    pub fn into_parts(self) -> (Whole, Vec<Name>, Policy)
        ensures terrain { result.0 ≡ self.terrain }
        ensures names { texts result.1.items ≡ self.names }
        ensures policy { result.2 ≡ self.policy }
        ensures few { vec_len result.1 ≤ most_players }
    {
        let Opening {
            terrain,
            names,
            policy,
        } = self;
        (terrain, names, policy)
    }

    /// What holds of every opening: each sector of its terrain stands in its place, with something
    /// at each place of it.
    pub fn soundness(&self)
        ensures { IsFilled self.now.terrain }
    {
        self.terrain.soundness();
    }

    /// The terrain.
    pub fn terrain(&self) -> &Whole
        ensures { result.now ≡ self.now.terrain }
    {
        &self.terrain
    }

    /// The players' names, in order of their seats.
    pub fn names(&self) -> &[Name]
        ensures { texts result.now ≡ self.now.names }
    {
        &self.names
    }

    /// The policy that judges the first window.
    pub fn policy(&self) -> &Policy
        ensures { result.now ≡ self.now.policy }
    {
        &self.policy
    }
}
