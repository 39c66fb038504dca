//! How a session begins.
ghost use Rattle.std.specs.Prelude.{◌≡◌, ◌+◌, ◌*◌, ◌<◌, ◌≤◌, [], length, IfOk};
ghost use Rattle.vx_step.specs.declared.workers.TheConstants.{MAX_WORKERS};
ghost use Rattle.vx_session.specs.Sessions.{IsOf, opening_of, ticks_of};

use crate::player::players_of;
use crate::session::Session;
use std::alloc::{AllocError, Global};
use vx_board::View;
use vx_keeper::Places;
use vx_play::NameIndex;
use vx_record::Opening;
use vx_world::{Blanks, Seats, World};

impl<A: Places, B: Seats> Session<A, B> {
    /// Begins a session in a world that opens so, whose ticks are worked by 1 to 8 threads. The
    /// view is of the desk at which the policy is edited, and the types are named by the blanks.
    pub fn begin(
        alloc: Global,
        opening: Opening,
        view: View<A>,
        blanks: Blanks,
        workers: usize,
    ) -> Result<Session<A, B>, AllocError>
        requires places { (blanks.places.name ≡ A.name) × (blanks.places.parts ≡ A.parts) }
        requires seats { (blanks.seats.name ≡ B.name) × (blanks.seats.parts ≡ B.parts) }
        requires marks { blanks.marks ≡ A.book }
        requires sectors { (length opening.terrain.sectors ≡ A.all) × (A.parts ≡ A.all + B.all) }
        requires names { (length opening.names ≡ B.all) × (B.parts ≡ 2 * B.all) }
        requires first { opening.policy ≡ A.first }
        requires view { view ≡ [] }
        requires workers { (0 < workers) × (workers ≤ MAX_WORKERS) }
        ensures nothing { IfOk result (IsOf []) }
        ensures opening { IfOk result (λ session. opening_of session ≡ opening) }
        ensures ticks { IfOk result (λ session. ticks_of session ≡ 0) }
        ensures edits { IfOk result (λ session. session.edits ≡ []) }
    {
        let bounds = opening.terrain().frozen().bounds();
        let names = NameIndex::new(alloc, opening.names())?;
        let (world, keeper, passes) = World::<A, B>::new(alloc, opening, view, blanks)?;
        let players = players_of(alloc, passes)?;
        Ok(Session {
            bounds,
            world,
            keeper,
            names,
            players,
            view: None,
            last: None,
            is_shown: true,
            marks: Vec::new(alloc),
            workers,
        })
    }
}
