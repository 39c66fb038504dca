ghost use Rattle.std.specs.Prelude.{◌≡◌, List, [], if◌then◌else◌, OnOk};
ghost use Rattle.std.specs.Map.{lookup};
ghost use Rattle.vx_geom.specs.declared.pos.Pos.{Pos};
ghost use Rattle.vx_power.specs.Levels.{has, same_place};
ghost use Rattle.vx_piston.specs.Claims.{first_of, first_found, before, IsTable, IsBeatenBy};
ghost use Rattle.vx_piston.specs.Moves.{Moving};

use crate::moves::Move;
use std::alloc::{AllocError, Global};
use std::collections::HashMap;
use std::marker::Model;
use vx_geom::Pos;

/// The claims of the pistons of a tick: for each cell that a move takes, the first piston that
/// wants it.
#[derive(Drop)]
pub struct Claims {
    first: HashMap<Pos, Pos>,
}

impl Model for Claims {
    ghost Value = { List (Pos × Pos) };

    ghost view = { λ a. a.first.entries };
}

impl Claims {
    /// No claims. It takes no memory.
    pub fn new(alloc: Global) -> Claims
        ensures { result ≡ [] }
    {
        Claims {
            first: HashMap::new(alloc),
        }
    }

    /// Adds the claims of a move: it wants each of its cells.
    pub fn add(&mut self, m: &Move) -> Result<(), AllocError>
        ensures { OnOk result ((q : Pos) → lookup (same_place q) self.new
            ≡ (if has m.now.cells q
            then first_of m.now.at (lookup (same_place q) self.old)
            else lookup (same_place q) self.old)) }
    {
        for p in m.cells.as_slice() {
            self.claim(*p, m.at)?;
        }
        Ok(())
    }

    // A piston wants a cell.
    fn claim(&mut self, p: Pos, by: Pos) -> Result<(), AllocError>
        ensures { OnOk result ((q : Pos) → lookup (same_place q) self.new
            ≡ (if same_place q p
            then first_of by (lookup (same_place q) self.old)
            else lookup (same_place q) self.old)) }
    {
        if self.before(p, by).is_some() {
            return Ok(());
        }
        match self.first.insert(p, by) {
            Ok(_) => Ok(()),
            Err(_) => Err(AllocError),
        }
    }

    /// The piston that beats a move: the first of those that come before its own and claim a cell
    /// of it, beaten themselves or not. It costs the cells of the move, and takes no memory.
    pub fn wins(&self, m: &Move) -> Option<Pos>
        ensures { (claims : List Moving) → IsTable claims self.now
            → IsBeatenBy claims m.now result }
    {
        let mut first = None;
        for p in m.cells.as_slice() {
            first = first_found(self.before(*p, m.at), first);
        }
        first
    }

    // The first piston that wants a cell, if it comes before this one.
    fn before(&self, p: Pos, at: Pos) -> Option<Pos>
        ensures { result ≡ before at (lookup (same_place p) self.now) }
    {
        match self.first.get(&p) {
            Some(first) if first.comes_before(&at) => Some(*first),
            _ => None,
        }
    }
}

// The first of two pistons, or the one that there is.
fn first_found(found: Option<Pos>, other: Option<Pos>) -> Option<Pos>
    ensures { result ≡ first_found found other }
{
    match (found, other) {
        (Some(p), Some(q)) if q.comes_before(&p) => Some(q),
        (Some(p), _) => Some(p),
        (None, _) => other,
    }
}
