//! The players of a session, and what each of them does in a block of calls.
ghost use Rattle.std.specs.Prelude.{◌≡◌, ◌<◌, ◌∷◌, ◌++◌, [], None, IfOk, OnOk, length, map};
ghost use Rattle.vx_session.specs.Blocks.{calls_of, player_data, AreCalled, HasPlayed};

use crate::calling::called;
use crate::marking::sector_at;
use crate::request::Request;
use crate::session_error::SessionError;
use std::alloc::{AllocError, Global};
use std::collections::VecDeque;
use std::sync::Wait;
use vx_geom::Bounds;
use vx_keeper::Places;
use vx_sector::{Refusal, Reply};
use vx_world::{Pass, Seats, World};

/// A player: his pass, and of a block of calls what is asked of him, the answers that he got and
/// was not told yet, and why he stopped, where he did.
pub struct Player<A: Places, B: Seats> {
    pub(crate) pass: Pass<A, B>,
    pub(crate) asked: Vec<Request>,
    pub(crate) answers: VecDeque<Result<Reply, Refusal>>,
    pub(crate) stopped: Option<SessionError>,
}

// Written out, so that what is above this crate need not prove how its parts are let go.
impl<A: Places, B: Seats> Drop for Player<A, B> {
    fn drop(self) {
        let Player {
            pass: _pass,
            asked: _asked,
            answers: _answers,
            stopped: _,
        } = self;
    }
}

impl<A: Places, B: Seats> Player<A, B> {
    /// Whoever has the pass, before any block.
    pub fn new(alloc: Global, pass: Pass<A, B>) -> Player<A, B>
        ensures { result.pass ≡ pass }
    {
        Player {
            pass,
            asked: Vec::new(alloc),
            answers: VecDeque::new(alloc),
            stopped: None,
        }
    }

    /// His pass.
    pub fn into_pass(self) -> Pass<A, B>
        ensures { result ≡ self.pass }
    {
        let Player {
            pass,
            asked: _asked,
            answers: _answers,
            stopped: _,
        } = self;
        pass
    }

    /// Asks nothing of him any more.
    pub fn ask_nothing(&mut self)
        ensures asked { self.new.asked.items ≡ [] }
        ensures pass { self.new.pass ≡ self.old.pass }
    {
        self.asked.clear();
    }

    /// Asks one request more of him.
    pub fn ask(&mut self, request: Request) -> Result<(), AllocError>
        ensures asked { OnOk result (self.new.asked.items ≡ self.old.asked.items ++ request ∷ []) }
        ensures pass { self.new.pass ≡ self.old.pass }
    {
        match self.asked.push(request) {
            Ok(()) => Ok(()),
            Err(_) => Err(AllocError),
        }
    }

    /// Carries out what is asked of him, in its order, in the world with these bounds, and keeps
    /// the answers. What is left of an earlier block is let go.
    pub fn play(&mut self, rt: &impl Wait, bounds: &Bounds, world: &World<A, B>)
        requires { world.now.bounds ≡ bounds.now }
        ensures seat { self.new.pass.seat ≡ self.old.pass.seat }
        ensures played { self.new.stopped ≡ None → HasPlayed bounds.now self.old.asked.items
            (player_data self.old) (player_data self.new) }
    {
        self.answers.clear();
        self.stopped = carry_out(
            rt,
            bounds,
            world,
            &mut self.pass,
            &self.asked,
            &mut self.answers,
        )
        .err();
    }

    /// The first of the answers that he was not told yet.
    pub fn next_answer(&mut self) -> Result<Reply, Refusal>
        requires { 0 < length self.old.answers.items }
        ensures answer { self.old.answers.items ≡ result ∷ self.new.answers.items }
        ensures pass { self.new.pass ≡ self.old.pass }
    {
        self.answers.pop_front().unwrap()
    }
}

// Carries out what is asked with the pass, and keeps the answers behind none; ends early where
// there is no room or no memory.
fn carry_out<A: Places, B: Seats>(
    rt: &impl Wait,
    bounds: &Bounds,
    world: &World<A, B>,
    pass: &mut Pass<A, B>,
    asked: &[Request],
    answers: &mut VecDeque<Result<Reply, Refusal>>,
) -> Result<(), SessionError>
    requires bounds { world.now.bounds ≡ bounds.now }
    requires none { answers.old.items ≡ [] }
    ensures seat { pass.new.seat ≡ pass.old.seat }
    ensures count { OnOk result (length answers.new.items ≡ length asked.now) }
    ensures called { OnOk result (AreCalled bounds.now pass.old.lists
        (calls_of asked.now answers.new.items) pass.new.lists) }
{
    for request in asked {
        answers.reserve(1)?;
        let sector = sector_at(bounds, request.cmd.place());
        let answer = called(bounds, world, rt, pass, sector, &request.cmd)?;
        answers.push_back_reserved(answer);
    }
    Ok(())
}

/// A player for each of the passes, in their order.
pub(crate) fn players_of<A: Places, B: Seats>(
    alloc: Global,
    passes: Vec<Pass<A, B>>,
) -> Result<Vec<Player<A, B>>, AllocError>
    ensures { IfOk result (λ players. map (λ player. player.pass) players.items ≡ passes.items) }
{
    let mut players = Vec::with_capacity(alloc, passes.len())?;
    for pass in passes {
        players.push_reserved(Player::new(alloc, pass));
    }
    Ok(players)
}

/// The passes of the players, in their order.
pub(crate) fn passes_of<A: Places, B: Seats>(
    alloc: Global,
    players: Vec<Player<A, B>>,
) -> Result<Vec<Pass<A, B>>, AllocError>
    ensures { IfOk result (λ passes. passes.items ≡ map (λ player. player.pass) players.items) }
{
    let mut passes = Vec::with_capacity(alloc, players.len())?;
    for player in players {
        passes.push_reserved(player.into_pass());
    }
    Ok(passes)
}
