ghost use Rattle.std.specs.Prelude.{◌≡◌, ℕ, ◌+◌, ◌*◌, ◌<◌, ◌∷◌, ◌++◌, [], List, length, map, Ok, Err, IfOk, IfErr, OnOk, OnErr};
ghost use Rattle.vx_board.specs.Accepted.{IsAnswer};
ghost use Rattle.vx_policy.specs.Asked.{Asked, asked};
ghost use Rattle.vx_policy.specs.Edits.{after};
ghost use Rattle.vx_record.specs.Chronicles.{IsSeatOf};
ghost use Rattle.vx_audit.specs.Deeds as deeds;
ghost use Rattle.vx_session.specs.Sessions.{IsSession, Does, Stays, opening_of, ticks_of, names_of, edits_to, player_in};

use crate::calling::{begin_anew, called_alone, cause_of};
use crate::fronts::is_next;
use crate::marking::{busy_sectors, call_mark, sector_at};
use crate::player::Player;
use crate::session_error::SessionError;
use std::alloc::Global;
use std::marker::Model;
use std::sync::Wait;
use std::thread::Threads;
use vx_audit::Mark;
use vx_board::{Desk, DeskError, Edited, Listed, View};
use vx_geom::{Bounds, Pos};
use vx_keeper::{Keeper, Places};
use vx_play::NameIndex;
use vx_policy::{Edit, EditRefusal};
use vx_record::Opening;
use vx_sector::{Cmd, Refusal, Reply};
use vx_step::NoGate;
use vx_tick::Fate;
use vx_world::{Seats, World};

/// A session of play on the world that threads share: one who reads what is to be done has all its
/// passes and its keeper, alone edits at its desk, and is told in the end that all answers were
/// those of the rules.
// Of each call it keeps a mark, which says from which seat it was made and in which sector: the
// rest stands in the record, and on the lists of the passes.
pub struct Session<A: Places, B: Seats> {
    pub(crate) bounds: Bounds,
    pub(crate) world: World<A, B>,
    pub(crate) keeper: Keeper<A>,
    pub(crate) names: NameIndex,
    pub(crate) players: Vec<Player<A, B>>,
    pub(crate) view: Option<View<A>>,
    pub(crate) last: Option<Listed<A>>,
    // Whether the desk shows its views all edits up to the last one. No clause says so: if it did not,
    // a view that was told of one of them would answer `NoView`.
    pub(crate) is_shown: bool,
    pub(crate) marks: Vec<Mark>,
    pub(crate) workers: usize,
}

impl<A: Places, B: Seats> Model for Session<A, B> {
    ghost use Rattle.std.specs.Prelude.{◌≡◌, ◌+◌, ◌*◌, ◌<◌, ◌≤◌, map};
    ghost use Rattle.vx_session.specs.Sessions.{SessionData, IsSession, edits_to, player_in, session_data};
    ghost use Rattle.vx_step.specs.declared.workers.TheConstants.{MAX_WORKERS};

    ghost Value = { SessionData };

    ghost view = { λ s. session_data s.bounds s.keeper (map player_in s.players.items)
        (edits_to s.last) s.marks.items };

    ghost invariant = { λ s. IsSession (session_data s.bounds s.keeper
        (map player_in s.players.items) (edits_to s.last) s.marks.items)
        × (s.world.bounds ≡ s.bounds)
        × (s.names ≡ s.keeper.chronicle.opening.names)
        × (0 < s.workers) × (s.workers ≤ MAX_WORKERS)
        × (A.parts ≡ A.all + B.all) × (B.parts ≡ 2 * B.all) };
}

// Written out, so that what is above this crate need not prove how its parts are let go.
impl<A: Places, B: Seats> Drop for Session<A, B> {
    fn drop(self) {
        let Session {
            bounds: _,
            world: _world,
            keeper: _keeper,
            names: _names,
            players: _players,
            view: _view,
            last: _last,
            is_shown: _,
            marks: _marks,
            workers: _,
        } = self;
    }
}

impl<A: Places, B: Seats> Session<A, B> {
    /// How its world opened.
    pub fn opening(&self) -> &Opening
        ensures { result.now ≡ self.now.keeper.chronicle.opening }
    {
        self.keeper.opening()
    }

    /// How many ticks there were.
    pub fn ticks(&self) -> u64
        ensures { result ≡ ticks_of self.now }
    {
        self.keeper.archive().ticks().len() as u64
    }

    /// Carries out a command from the seat of that number, and tells the answer.
    pub fn command(
        &mut self,
        rt: &impl Wait,
        seat: usize,
        cmd: Cmd,
    ) -> Result<Result<Reply, Refusal>, SessionError>
        requires { seat < length (names_of self.old) }
        ensures stays { Stays self.old self.new }
        ensures called { IfOk result (λ answer. (name : List ℕ)
            → IsSeatOf (names_of self.old) (record { number = seat; name = name })
            → Does self.old (deeds.Called (record {
              seat = record { number = seat; name = name };
              cmd = cmd;
              answer = answer;
            })) self.new) }
        ensures refused { OnErr result (self.new ≡ self.old) }
    {
        let Session {
            bounds,
            world,
            keeper,
            players,
            marks,
            ..
        } = self;
        // Before the command: where it is answered, its mark has room.
        marks.reserve(1)?;
        let sector = sector_at(bounds, cmd.place());
        begin_anew(*marks.allocator(), world, keeper, sector)?;
        let player = &mut players[seat];
        let number = player.pass.seat().number;
        let answer = called_alone(bounds, world, rt, &mut player.pass, sector, &cmd)?;
        marks.push_reserved(call_mark(number, sector));
        Ok(answer)
    }

    /// Accepts an edit or refuses it, and tells which. An accepted edit counts from the next tick
    /// on.
    pub fn edit<D: Wait + Drop>(
        &mut self,
        rt: &impl Wait,
        alloc: Global,
        desk: &Desk<A, D>,
        edit: Edit,
    ) -> Result<Result<Edited, EditRefusal>, SessionError>
        ensures accepted { IfOk result (λ answer. IfOk answer (λ edited.
            Does self.old (deeds.Edited (asked edit)) self.new
            × (self.new.edits ≡ self.old.edits ++ asked edit ∷ [])
            × IsAnswer (after A.first self.old.edits) (length self.old.edits) (asked edit)
            (Ok edited))) }
        ensures refused { IfOk result (λ answer. IfErr answer (λ cause.
            (self.new ≡ self.old)
            × IsAnswer (after A.first self.old.edits) (length self.old.edits) (asked edit)
            (Err (DeskError.Refused cause)))) }
        ensures opening { self.new.keeper.chronicle ≡ self.old.keeper.chronicle }
        ensures sizes { self.new.sizes ≡ self.old.sizes }
    {
        let Session {
            keeper,
            last,
            is_shown,
            marks,
            ..
        } = self;
        // Before the edit: where it is accepted, its mark has room.
        marks.reserve(1)?;
        let listed = match desk.accept(rt, alloc, edit) {
            Ok(listed) => listed,
            Err(refused) => return Ok(Err(cause_of(last, &refused)?)),
        };
        if !is_next(last, &listed.front) {
            return Err(SessionError::elsewhere());
        }
        keeper.learn(&listed);
        let edited = listed.edited;
        *last = Some(listed);
        *is_shown = false;
        marks.push_reserved(Mark::Edit);
        Ok(Ok(edited))
    }

    /// Has the desk show its views all edits that were accepted so far, where it does not yet.
    pub(crate) fn show<D: Wait + Drop>(&mut self, rt: &impl Wait, desk: &Desk<A, D>)
        ensures { self.new ≡ self.old }
    {
        if self.is_shown {
            return;
        }
        desk.show(rt);
        self.is_shown = true;
    }

    /// Makes a tick, and tells what becomes of the moves that pistons asked for, in the order of
    /// positions. All edits accepted so far, at this desk, count from then on.
    pub fn tick<T: Threads + Wait + Sync, D: Wait + Drop>(
        &mut self,
        rt: &T,
        alloc: Global,
        desk: &Desk<A, D>,
    ) -> Result<Vec<(Pos, Fate)>, SessionError>
        ensures ticked { IfOk result (λ fates. Does self.old (deeds.Ticked fates.items) self.new) }
        ensures number { OnOk result (ticks_of self.new ≡ ticks_of self.old + 1) }
        ensures opening { opening_of self.new ≡ opening_of self.old }
        ensures sizes { self.new.sizes ≡ self.old.sizes }
        ensures edits { self.new.edits ≡ self.old.edits }
    {
        self.show(rt, desk);
        self.tick_by_what_is_shown(rt, alloc)
    }

    // Makes a tick, as `tick` does, by the edits that the desk shows its views.
    fn tick_by_what_is_shown<T: Threads + Wait + Sync>(
        &mut self,
        rt: &T,
        alloc: Global,
    ) -> Result<Vec<(Pos, Fate)>, SessionError>
        ensures ticked { IfOk result (λ fates. Does self.old (deeds.Ticked fates.items) self.new) }
        ensures number { OnOk result (ticks_of self.new ≡ ticks_of self.old + 1) }
        ensures opening { opening_of self.new ≡ opening_of self.old }
        ensures sizes { self.new.sizes ≡ self.old.sizes }
        ensures edits { self.new.edits ≡ self.old.edits }
    {
        self.marks.reserve(1)?;
        let sectors = self.bounds.sectors() as usize;
        let busy = busy_sectors(alloc, &self.marks, sectors);
        let fates = self.world.tick_alone(
            rt,
            alloc,
            &mut self.keeper,
            self.workers,
            &NoGate,
            busy.as_deref(),
        )?;
        self.marks.push_reserved(Mark::Tick);
        Ok(fates)
    }

    // What is settled in the end: the world, its keeper, its players, the answer to the last edit
    // that was accepted, and the marks.
    pub(crate) fn into_parts(
        self,
    ) -> (
        World<A, B>,
        Keeper<A>,
        Vec<Player<A, B>>,
        Option<Listed<A>>,
        Vec<Mark>,
    )
        ensures session { IsSession self }
        ensures bounds { result.0.bounds ≡ self.sizes }
        ensures keeper { result.1 ≡ self.keeper }
        ensures players { map player_in result.2.items ≡ self.passes }
        ensures last { edits_to result.3 ≡ self.edits }
        ensures marks { result.4.items ≡ self.marks }
        ensures ledgers { (A.parts ≡ A.all + B.all) × (B.parts ≡ 2 * B.all) }
    {
        let Session {
            bounds: _,
            world,
            keeper,
            names: _names,
            players,
            view: _view,
            last,
            is_shown: _,
            marks,
            workers: _,
        } = self;
        (world, keeper, players, last, marks)
    }
}
