//! Calls that several players make at once.
ghost use Rattle.std.specs.Prelude.{◌≡◌, ℕ, ◌<◌, ◌≤◌, ◌+◌, ◌++◌, [], None, List, length, map, slice_index_or, vec_len, vec_capacity, IfOk, OnOk};
ghost use Rattle.std.specs.List.{All};
ghost use Rattle.vx_audit.specs.Deeds as deeds;
ghost use Rattle.vx_sector.specs.SectorData.{EntryData};
ghost use Rattle.vx_session.specs.Blocks.{marks_asked, player_data, AreAsked, AreCarriedOut, AreMade, AreTold, HasPlayed, HaveAllPlayed, HaveAnswers, HavePasses};
ghost use Rattle.vx_session.specs.Sessions.{Does, Stays, names_of, pass_in, player_in};

use crate::calling::{begin_anew, called_alone};
use crate::halving::at_once;
use crate::marking::{call_mark, sector_at};
use crate::player::Player;
use crate::request::Request;
use crate::session::Session;
use crate::session_error::SessionError;
use std::alloc::{AllocError, Global};
use std::sync::Wait;
use std::thread::Threads;
use vx_audit::Mark;
use vx_geom::Bounds;
use vx_keeper::{Keeper, Places};
use vx_sector::{Refusal, Reply};
use vx_step::MAX_WORKERS;
use vx_world::{Seats, World};

// A thread that carries out fewer requests than so many costs more than it saves.
const WORTH_A_THREAD: usize = 2048;

impl<A: Places + Send + Sync, B: Seats + Send + Sync> Session<A, B> {
    /// Carries out what is asked for, and tells the answers in the order of the requests. Where
    /// much is asked for, each player of whom much is asked has a thread of his own: each does what
    /// is asked of him in its order, and between players there is no order. Few requests are
    /// carried out in their order, without threads.
    pub fn together<T: Threads + Wait + Sync>(
        &mut self,
        rt: &T,
        alloc: Global,
        requests: &[Request],
    ) -> Result<Vec<Result<Reply, Refusal>>, SessionError>
        requires { All (λ request. request.seat < length (names_of self.old)) requests.now }
        ensures stays { Stays self.old self.new }
        ensures each { IfOk result (λ answers. length answers.items ≡ length requests.now) }
        ensures called { IfOk result (λ answers. (calls : List EntryData)
            → AreMade (names_of self.old) requests.now answers.items calls
            → Does self.old (deeds.Together calls) self.new) }
    {
        let Session {
            bounds,
            world,
            keeper,
            players,
            marks,
            ..
        } = self;
        // Before the calls: where they are answered, their marks have room.
        marks.reserve(requests.len() + 2)?;
        begin_all_anew(alloc, bounds, world, keeper, requests)?;
        let answers = answers_of(rt, alloc, bounds, world, players, requests)?;
        mark_all(bounds, requests, marks);
        Ok(answers)
    }
}

// Has each sector in which something is asked for begin its window anew, where a tick left it
// behind.
fn begin_all_anew<A: Places, B: Seats>(
    alloc: Global,
    bounds: &Bounds,
    world: &mut World<A, B>,
    keeper: &Keeper<A>,
    requests: &[Request],
) -> Result<(), AllocError>
    ensures { world.new.bounds ≡ world.old.bounds }
{
    for request in requests {
        begin_anew(alloc, world, keeper, sector_at(bounds, request.cmd.place()))?;
    }
    Ok(())
}

// Has the players do what is asked for, at once where threads are worth it, and tells the answers
// in the order of the requests.
fn answers_of<A: Places + Send + Sync, B: Seats + Send + Sync, T: Threads + Wait + Sync>(
    rt: &T,
    alloc: Global,
    bounds: &Bounds,
    world: &mut World<A, B>,
    players: &mut [Player<A, B>],
    requests: &[Request],
) -> Result<Vec<Result<Reply, Refusal>>, SessionError>
    requires bounds { world.old.bounds ≡ bounds.now }
    requires named { All (λ request. request.seat < length players.old) requests.now }
    ensures seats { map (λ player. (player_in player).seat) players.new
        ≡ map (λ player. (player_in player).seat) players.old }
    ensures each { IfOk result (λ answers. length answers.items ≡ length requests.now) }
    ensures carried_out { IfOk result (λ answers. AreCarriedOut bounds.now requests.now
        answers.items (map player_in players.old) (map player_in players.new)) }
    ensures bounds { world.new.bounds ≡ world.old.bounds }
{
    // Before the calls: where they are answered, their answers have room.
    let mut answers = Vec::with_capacity(alloc, requests.len())?;
    if requests.len() < 2 * WORTH_A_THREAD {
        answer_each(rt, bounds, world, players, requests, &mut answers)?;
    } else {
        answer_at_once(rt, bounds, world, players, requests, &mut answers)?;
    }
    Ok(answers)
}

// Has the players do what is asked for, one request after another, and tells the answers.
fn answer_each<A: Places, B: Seats>(
    rt: &impl Wait,
    bounds: &Bounds,
    world: &mut World<A, B>,
    players: &mut [Player<A, B>],
    requests: &[Request],
    answers: &mut Vec<Result<Reply, Refusal>>,
) -> Result<(), SessionError>
    requires bounds { world.old.bounds ≡ bounds.now }
    requires named { All (λ request. request.seat < length players.old) requests.now }
    requires none { answers.old.items ≡ [] }
    requires room { length requests.now ≤ vec_capacity answers.old }
    ensures seats { map (λ player. (player_in player).seat) players.new
        ≡ map (λ player. (player_in player).seat) players.old }
    ensures each { OnOk result (length answers.new.items ≡ length requests.now) }
    ensures carried_out { OnOk result (AreCarriedOut bounds.now requests.now answers.new.items
        (map player_in players.old) (map player_in players.new)) }
    ensures bounds { world.new.bounds ≡ world.old.bounds }
{
    for request in requests {
        let caller = &mut players[usize::from(request.seat)];
        let sector = sector_at(bounds, request.cmd.place());
        let answer = called_alone(bounds, world, rt, &mut caller.pass, sector, &request.cmd)?;
        answers.push_reserved(answer);
    }
    Ok(())
}

// Has the players do what is asked for at once, and tells the answers in the order of the requests.
fn answer_at_once<A: Places + Send + Sync, B: Seats + Send + Sync, T: Threads + Wait + Sync>(
    rt: &T,
    bounds: &Bounds,
    world: &World<A, B>,
    players: &mut [Player<A, B>],
    requests: &[Request],
    answers: &mut Vec<Result<Reply, Refusal>>,
) -> Result<(), SessionError>
    requires bounds { world.now.bounds ≡ bounds.now }
    requires named { All (λ request. request.seat < length players.old) requests.now }
    requires none { answers.old.items ≡ [] }
    requires room { length requests.now ≤ vec_capacity answers.old }
    ensures seats { map (λ player. (player_in player).seat) players.new
        ≡ map (λ player. (player_in player).seat) players.old }
    ensures each { OnOk result (length answers.new.items ≡ length requests.now) }
    ensures carried_out { OnOk result (AreCarriedOut bounds.now requests.now answers.new.items
        (map player_in players.old) (map player_in players.new)) }
{
    ask_all(players, requests)?;
    play_all(rt, bounds, world, players, requests)?;
    tell_all(players, requests, answers);
    Ok(())
}

// Asks of each player what is asked for from his seat, and nothing else.
fn ask_all<A: Places, B: Seats>(
    players: &mut [Player<A, B>],
    requests: &[Request],
) -> Result<(), AllocError>
    requires { All (λ request. request.seat < length players.old) requests.now }
    ensures passes { HavePasses (map player_data players.old) (map player_data players.new) }
    ensures asked { OnOk result (AreAsked requests.now (map player_data players.new)) }
{
    ask_nothing(players);
    hand_out(players, requests)
}

// Asks nothing of any player.
fn ask_nothing<A: Places, B: Seats>(players: &mut [Player<A, B>])
    ensures passes { HavePasses (map player_data players.old) (map player_data players.new) }
    ensures asked { AreAsked [] (map player_data players.new) }
{
    for player in players.iter_mut() {
        player.ask_nothing();
    }
}

// Asks each request of the player of its seat, where nothing is asked of any.
fn hand_out<A: Places, B: Seats>(
    players: &mut [Player<A, B>],
    requests: &[Request],
) -> Result<(), AllocError>
    requires named { All (λ request. request.seat < length players.old) requests.now }
    requires none { AreAsked [] (map player_data players.old) }
    ensures passes { HavePasses (map player_data players.old) (map player_data players.new) }
    ensures asked { OnOk result (AreAsked requests.now (map player_data players.new)) }
{
    for request in requests {
        players[usize::from(request.seat)].ask(*request)?;
    }
    Ok(())
}

// Has each player do what is asked of him.
fn play_all<A: Places + Send + Sync, B: Seats + Send + Sync, T: Threads + Wait + Sync>(
    rt: &T,
    bounds: &Bounds,
    world: &World<A, B>,
    players: &mut [Player<A, B>],
    requests: &[Request],
) -> Result<(), SessionError>
    requires bounds { world.now.bounds ≡ bounds.now }
    requires asked { AreAsked requests.now (map player_data players.old) }
    ensures seats { map (λ player. (player_in player).seat) players.new
        ≡ map (λ player. (player_in player).seat) players.old }
    ensures played { OnOk result (HaveAllPlayed bounds.now requests.now
        (map player_data players.old) (map player_data players.new)) }
{
    play_each(
        rt,
        bounds,
        world,
        players,
        share_of_a_thread(requests.len()),
    );
    match first_stop(players) {
        Some(error) => Err(error),
        None => Ok(()),
    }
}

// How many of so many requests a thread is to have at least: as many as are worth one, and so many
// that there are no more threads than a tick may have workers. Only costs rest on it.
fn share_of_a_thread(requests: usize) -> usize {
    WORTH_A_THREAD.max(requests / MAX_WORKERS)
}

// Has them play at once, as far as each thread has its share of what is asked. Who stopped is left
// to be seen.
fn play_each<A: Places + Send + Sync, B: Seats + Send + Sync, T: Threads + Wait + Sync>(
    rt: &T,
    bounds: &Bounds,
    world: &World<A, B>,
    players: &mut [Player<A, B>],
    share: usize,
)
    requires { world.now.bounds ≡ bounds.now }
    ensures seats { (k : ℕ) (d : _) → k < length players.old
        → (slice_index_or players.new k d).pass.seat ≡ (slice_index_or players.old k d).pass.seat }
    ensures played { (k : ℕ) (d : _) → k < length players.old
        → (slice_index_or players.new k d).stopped ≡ None
        → HasPlayed bounds.now (slice_index_or players.old k d).asked.items
        (player_data (slice_index_or players.old k d))
        (player_data (slice_index_or players.new k d)) }
{
    at_once(
        rt,
        &|some| are_asked(some, share),
        &|player| player.play(rt, bounds, world),
        players,
    );
}

// Whether at least so much is asked of these players. Only costs rest on it.
fn are_asked<A: Places, B: Seats>(players: &[Player<A, B>], share: usize) -> bool {
    let mut wanting = share;
    for player in players {
        wanting = wanting.saturating_sub(player.asked.len());
    }
    wanting == 0
}

// Why the first of the players stopped who did, if one did.
fn first_stop<A: Places, B: Seats>(players: &[Player<A, B>]) -> Option<SessionError>
    ensures { result ≡ None → All (λ player. player.stopped ≡ None) players.now }
{
    for player in players {
        if let Some(error) = player.stopped {
            return Some(error);
        }
    }
    None
}

// Tells the answers that the players got, in the order of the requests.
fn tell_all<A: Places, B: Seats>(
    players: &mut [Player<A, B>],
    requests: &[Request],
    answers: &mut Vec<Result<Reply, Refusal>>,
)
    requires named { All (λ request. request.seat < length players.old) requests.now }
    requires answered { HaveAnswers requests.now (map player_data players.old) }
    requires none { answers.old.items ≡ [] }
    requires room { length requests.now ≤ vec_capacity answers.old }
    ensures each { length answers.new.items ≡ length requests.now }
    ensures told { AreTold requests.now answers.new.items (map player_data players.old)
        (map player_data players.new) }
{
    for request in requests {
        let player = &mut players[usize::from(request.seat)];
        answers.push_reserved(player.next_answer());
    }
}

// Puts the marks of the block behind the others.
fn mark_all(bounds: &Bounds, requests: &[Request], marks: &mut Vec<Mark>)
    requires { vec_len marks.old + length requests.now + 2 ≤ vec_capacity marks.old }
    ensures { marks.new.items ≡ marks.old.items ++ marks_asked bounds.now requests.now }
{
    marks.push_reserved(Mark::Begin);
    for request in requests {
        let sector = sector_at(bounds, request.cmd.place());
        marks.push_reserved(call_mark(request.seat, sector));
    }
    marks.push_reserved(Mark::End);
}
