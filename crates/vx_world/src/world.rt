ghost use Rattle.std.specs.List.{All};
ghost use Rattle.std.specs.Prelude.{◌≡◌, ℕ, ◌↔◌, ◌+◌, ◌*◌, ◌<◌, ◌≤◌, true, false, None, Some, Ok, Err, map, length, replicate, vec_len, IfOk, IfSome, IfNone, ◌≢◌, ◌^◌, []};
ghost use Rattle.vx_geom.specs.Sizes.{sector_count, sector_of};
ghost use Rattle.vx_sector.specs.Commands.{place_of};
ghost use Rattle.vx_sector.specs.SectorData.{seat_of};
ghost use Rattle.vx_sector.specs.Windows.{is_recorded};
ghost use Rattle.vx_windows.specs.Limits.{most_players};
ghost use Rattle.vx_windows.specs.Sectors.{first_version};
ghost use Rattle.vx_record.specs.Calls.{with_call};
ghost use Rattle.vx_world.specs.Openings.{seats_from};

use crate::blanks::Blanks;
use crate::books::Books;
use crate::lifted::Lifted;
use crate::opening::{kept, passes};
use crate::pass::Pass;
use crate::patience::patiently;
use crate::room::Room;
use crate::seats::Seats;
use crate::slot::Slot;
use crossbeam_utils::CachePadded;
use std::alloc::{AllocError, Global};
use std::sync::{Condvar, Mutex, Wait};
use vx_block::Part;
use vx_board::View;
use vx_geom::{Bounds, Pos};
use vx_keeper::{Keeper, Places};
use vx_record::Opening;
use vx_sector::{Cmd, Refusal, Reply};
use vx_step::{Gate, NoGate, Point};

/// A world that threads share. Each of its sectors stands under a lock of its own; commands are
/// carried out under that of one sector, and ticks take the sectors out and put them back.
// Whatever has a share of a ledger stands under a lock, also the room for the end of the world.
pub struct World<A: Places, B: Seats> {
    pub(crate) bounds: Bounds,
    pub(crate) slots: Vec<CachePadded<Mutex<Slot<A>>>>,
    pub(crate) came: Condvar,
    seats: u8,
    pub(crate) room: Mutex<Room<A>>,
    // Apart from the bounds and the slots, which every command reads.
    pub(crate) books: Mutex<Books<A, B>>,
    ghost all_here: { vec_len slots ≡ A.all },
    ghost divided: { sector_count bounds ≡ A.all },
    ghost few: { A.all < 2 ^ 32 },
    ghost seated: { seats ≡ B.all },
    ghost bounded: { B.all ≤ most_players },
}

// Written out, so that what is above this crate need not prove how its parts are let go.
impl<A: Places, B: Seats> Drop for World<A, B> {
    fn drop(self) {
        let World {
            bounds: _,
            slots: _slots,
            came: _came,
            seats: _,
            room: _room,
            books: _books,
        } = self;
    }
}

impl<A: Places, B: Seats> World<A, B> {
    /// Opens a world: the world itself, its keeper, and a pass for each seat in order. The blanks
    /// are those of the opening, and the types are named by them. The view is of the desk at which
    /// the policy is edited: each tick takes from it the version for the next windows.
    pub fn new(
        alloc: Global,
        opening: Opening,
        view: View<A>,
        blanks: Blanks,
    ) -> Result<(World<A, B>, Keeper<A>, Vec<Pass<A, B>>), AllocError>
        requires places { (blanks.places.name ≡ A.name) × (blanks.places.parts ≡ A.parts) }
        requires seats { (blanks.seats.name ≡ B.name) × (blanks.seats.parts ≡ B.parts) }
        requires marks { blanks.marks ≡ A.book }
        requires sectors { (length opening.terrain.sectors ≡ A.all) × (A.parts ≡ A.all + B.all) }
        requires names { (length opening.names ≡ B.all) × (B.parts ≡ 2 * B.all) }
        requires first { opening.policy ≡ A.first }
        ensures bounds { IfOk result (λ opened.
            opened.0.bounds ≡ opening.terrain.sizes) }
        ensures chronicle { IfOk result (λ opened.
            opened.1.chronicle ≡ record { opening = opening; ticks = [] }) }
        ensures world { IfOk result (λ opened. opened.1.world
            ≡ record { map = opening.terrain; version = first_version opening.policy }) }
        ensures seen { IfOk result (λ opened. opened.1.seen ≡ view) }
        ensures seats { IfOk result (λ opened.
            map (λ pass. seat_of pass.seat) opened.2.items ≡ seats_from 0 opening.names) }
        ensures empty { IfOk result (λ opened.
            All (λ pass. pass.lists ≡ replicate A.all []) opened.2.items) }
    {
        opening.soundness();
        let bounds = opening.terrain().frozen().bounds();
        let count = bounds.sectors() as usize;
        let number = opening.names().len() as u8;
        let Blanks {
            places,
            seats,
            marks,
        } = blanks;
        let (in_sectors, mut place_rest) = places.open::<A>();
        let (on_lists, mut seat_rest) = seats.open::<B>();
        let passes = passes(
            alloc,
            opening.names(),
            count,
            &mut place_rest,
            &mut seat_rest,
        )?;
        let (keeper, slots, room) = kept(alloc, opening, view, marks, &mut place_rest)?;
        let books = Books::new(in_sectors, on_lists, place_rest, seat_rest);
        Ok((
            World::of(bounds, slots, books, room, number),
            keeper,
            passes,
        ))
    }

    // A world with these parts.
    fn of(
        bounds: Bounds,
        slots: Vec<CachePadded<Mutex<Slot<A>>>>,
        books: Books<A, B>,
        room: Room<A>,
        seats: u8,
    ) -> World<A, B>
        requires all_here { vec_len slots ≡ A.all }
        requires divided { sector_count bounds ≡ A.all }
        requires few { A.all < 2 ^ 32 }
        requires seated { seats ≡ B.all }
        requires bounded { B.all ≤ most_players }
        ensures { result.bounds ≡ bounds }
    {
        World {
            bounds,
            slots,
            came: Condvar::new(),
            books: Mutex::new(books),
            room: Mutex::new(room),
            seats,
        }
    }

    /// Carries out a command from the seat of a pass under the lock of its sector, by the rules of
    /// docs/RULES.md, and waits while the sector is away. The gate is called under the lock. Where
    /// the answer is recorded, the command stands with it in the sector's record and on the pass's
    /// list of that sector; where it is not, the pass keeps what it had. It does not return where
    /// there would be 2^64 recorded calls, and those that passes have in reserve, at most 64 each,
    /// count among them.
    pub fn submit<R: Wait, G: Gate>(
        &self,
        rt: &R,
        pass: &mut Pass<A, B>,
        cmd: Cmd,
        gate: &G,
    ) -> Result<Reply, Refusal>
        ensures outside { (result ≡ Err Refusal.OutOfWorld)
            ↔ (sector_of self.now.bounds (place_of cmd) ≡ None) }
        ensures recorded { is_recorded result ≡ true → (at : ℕ)
            × (sector_of self.now.bounds (place_of cmd) ≡ Some at)
            × (pass.new.lists ≡ with_call pass.old.lists at (record { cmd = cmd; answer = result }))
            × (pass.new.share.amount ≡ pass.old.share.amount + 1) }
        ensures unrecorded { is_recorded result ≡ false → (pass.new.lists ≡ pass.old.lists)
            × (pass.new.share ≡ pass.old.share) × (pass.new.reserve ≡ pass.old.reserve) }
        ensures seat { pass.new.seat ≡ pass.old.seat }
    {
        self.submit_in(rt, pass, self.number_of(cmd.place()), &cmd, gate)
    }

    /// Carries out a command as `submit` does, where it was found before which sector of the world
    /// holds its position.
    pub fn submit_in<R: Wait, G: Gate>(
        &self,
        rt: &R,
        pass: &mut Pass<A, B>,
        number: Option<u32>,
        cmd: &Cmd,
        gate: &G,
    ) -> Result<Reply, Refusal>
        requires { number ≡ sector_of self.now.bounds (place_of cmd.now) }
        ensures outside { (result ≡ Err Refusal.OutOfWorld)
            ↔ (sector_of self.now.bounds (place_of cmd.now) ≡ None) }
        ensures recorded { is_recorded result ≡ true → (at : ℕ)
            × (sector_of self.now.bounds (place_of cmd.now) ≡ Some at)
            × (pass.new.lists ≡ with_call pass.old.lists at (record { cmd = cmd.now; answer = result }))
            × (pass.new.share.amount ≡ pass.old.share.amount + 1) }
        ensures unrecorded { is_recorded result ≡ false → (pass.new.lists ≡ pass.old.lists)
            × (pass.new.share ≡ pass.old.share) × (pass.new.reserve ≡ pass.old.reserve) }
        ensures seat { pass.new.seat ≡ pass.old.seat }
    {
        let Some(number) = number else {
            return Err(Refusal::OutOfWorld);
        };
        self.bounds.soundness();
        let at = number as usize;
        let slot = patiently(rt, &self.slots[at]);
        let mut slot = self
            .came
            .wait_while(rt, slot, |slot| !slot.is_home(&self.bounds, number));
        let Some(home) = &mut slot.home else {
            unreachable!()
        };
        gate.at(number, Point::Held);
        home.act(rt, &self.books, pass, at, cmd)
    }

    /// Carries out a command as `submit_in` does. Since no other thread can reach the world
    /// meanwhile, no lock is taken where the sector is at home.
    // Inlined, so that its answer is not moved once more.
    #[inline(always)]
    pub fn submit_alone<R: Wait>(
        &mut self,
        rt: &R,
        pass: &mut Pass<A, B>,
        number: Option<u32>,
        cmd: &Cmd,
    ) -> Result<Reply, Refusal>
        requires { number ≡ sector_of self.old.bounds (place_of cmd.now) }
        ensures outside { (result ≡ Err Refusal.OutOfWorld)
            ↔ (sector_of self.old.bounds (place_of cmd.now) ≡ None) }
        ensures recorded { is_recorded result ≡ true → (at : ℕ)
            × (sector_of self.old.bounds (place_of cmd.now) ≡ Some at)
            × (pass.new.lists ≡ with_call pass.old.lists at (record { cmd = cmd.now; answer = result }))
            × (pass.new.share.amount ≡ pass.old.share.amount + 1) }
        ensures unrecorded { is_recorded result ≡ false → (pass.new.lists ≡ pass.old.lists)
            × (pass.new.share ≡ pass.old.share) × (pass.new.reserve ≡ pass.old.reserve) }
        ensures seat { pass.new.seat ≡ pass.old.seat }
        ensures bounds { self.new.bounds ≡ self.old.bounds }
    {
        if let Some(at) = number {
            self.bounds.soundness();
            let slot = &mut self.slots[at as usize];
            if let Some(answer) = act_in(rt, slot, &self.bounds, &self.books, pass, at, cmd) {
                return answer;
            }
        }
        self.submit_in(rt, pass, number, cmd, &NoGate)
    }

    /// Puts a part down in the base and the cells of a sector, as no rule does; `Ok(false)` outside
    /// the world and where `Sector::tamper` says so. It is there for tests of the keeper.
    pub fn tamper<R: Wait>(&self, rt: &R, p: Pos, part: Part) -> Result<bool, AllocError>
        ensures outside { sector_of self.now.bounds p ≡ None → result ≡ Ok false }
    {
        let Some(number) = self.number_of(p) else {
            return Ok(false);
        };
        let mut slot = self.came.wait_while(
            rt,
            self.slots[number as usize].lock(rt),
            |slot| !slot.is_home_of(p),
        );
        match &mut slot.home {
            Some(home) => home.tamper(p, part),
            None => Ok(false),
        }
    }

    // The number of the sector that holds the position.
    fn number_of(&self, p: Pos) -> Option<u32>
        ensures value { result ≡ sector_of self.now.bounds p }
        ensures below { IfSome result (λ number. number < A.all) }
    {
        self.bounds.soundness();
        self.bounds.sector_of(p)
    }

    /// Ends the world and takes its sectors out of their locks. It takes no memory.
    pub fn lift(self) -> Lifted<A, B> {
        let World {
            bounds: _,
            slots,
            came: _came,
            seats,
            room,
            books,
        } = self;
        Lifted::new(room.into_inner().filled(slots), books.into_inner(), seats)
    }
}

// Carries out a command in the sector of that number, as `Home::act` does, where it is at home in
// its place; else nothing is done.
#[inline(always)]
fn act_in<A: Places, B: Seats, R: Wait>(
    rt: &R,
    slot: &mut Mutex<Slot<A>>,
    bounds: &Bounds,
    books: &Mutex<Books<A, B>>,
    pass: &mut Pass<A, B>,
    number: u32,
    cmd: &Cmd,
) -> Option<Result<Reply, Refusal>>
    requires there { number < A.all }
    requires held { sector_of bounds.now (place_of cmd.now) ≡ Some number }
    ensures inside { IfSome result (λ answer. answer ≢ Err Refusal.OutOfWorld) }
    ensures recorded { IfSome result (λ answer. is_recorded answer ≡ true
        → (pass.new.lists
        ≡ with_call pass.old.lists number (record { cmd = cmd.now; answer = answer }))
        × (pass.new.share.amount ≡ pass.old.share.amount + 1)) }
    ensures unrecorded { IfSome result (λ answer. is_recorded answer ≡ false
        → (pass.new.lists ≡ pass.old.lists) × (pass.new.share ≡ pass.old.share)
        × (pass.new.reserve ≡ pass.old.reserve)) }
    ensures away { IfNone result (pass.new ≡ pass.old) }
    ensures seat { pass.new.seat ≡ pass.old.seat }
{
    match slot.get_mut().home_mut(bounds, number) {
        Some(home) => Some(home.act(rt, books, pass, number as usize, cmd)),
        None => None,
    }
}
