//! How a world opens.
ghost use Rattle.std.specs.List.{All};
ghost use Rattle.std.specs.Prelude.{◌≡◌, ◌≤◌, ◌+◌, ◌*◌, length, vec_len, map, replicate, [], IfOk, OnOk};
ghost use Rattle.vx_name.specs.Texts.{texts};
ghost use Rattle.vx_sector.specs.SectorData.{seat_of};
ghost use Rattle.vx_sector.specs.Windows.{count_of};
ghost use Rattle.vx_windows.specs.Limits.{most_players};
ghost use Rattle.vx_windows.specs.Sectors.{first_version};
ghost use Rattle.vx_keeper.specs.Marks.{IsPartOf};
ghost use Rattle.vx_world.specs.Openings.{seats_from};

use crate::home::Home;
use crate::pass::Pass;
use crate::reserve::Reserve;
use crate::room::Room;
use crate::seats::Seats;
use crate::slot::Slot;
use crossbeam_utils::CachePadded;
use std::alloc::{AllocError, Global};
use std::sync::Mutex;
use std::sync::ledger::Share;
use vx_board::View;
use vx_keeper::{Keeper, Known, Marked, Places};
use vx_record::{Lists, Opening};
use vx_region::Name;
use vx_sector::{Seat, Sector};
use vx_stamp::Opened;

/// The keeper of a world that opens so, with a view of its desk, its sectors under their locks,
/// each with a part of the share, and room for the end of the world.
pub fn kept<A: Places>(
    alloc: Global,
    opening: Opening,
    view: View<A>,
    marks: Opened<Known>,
    rest: &mut Share<A>,
) -> Result<(Keeper<A>, Vec<CachePadded<Mutex<Slot<A>>>>, Room<A>), AllocError>
    requires first { opening.policy ≡ A.first }
    requires all { length opening.terrain.sectors ≡ A.all }
    requires marks { marks ≡ A.book }
    requires each { rest.old.parts ≡ A.all }
    requires amount { rest.old.amount ≡ 0 }
    ensures chronicle { IfOk result (λ kept.
        kept.0.chronicle ≡ record { opening = opening; ticks = [] }) }
    ensures world { IfOk result (λ kept. kept.0.world
        ≡ record { map = opening.terrain; version = first_version opening.policy }) }
    ensures seen { IfOk result (λ kept. kept.0.seen ≡ view) }
    ensures each { IfOk result (λ kept. vec_len kept.1 ≡ A.all) }
    ensures rest { OnOk result ((rest.new.parts ≡ 0) × (rest.new.amount ≡ 0)) }
{
    opening.soundness();
    let room = Room::new(alloc, opening.terrain().sectors().len())?;
    let (keeper, sectors) = Keeper::new(alloc, opening, view, marks.named())?;
    let slots = locked(alloc, &keeper, sectors, rest)?;
    Ok((keeper, slots, room))
}

// The sectors under their locks, each with a part of the share. What threads write in one sector
// stands apart from what others read of the next.
fn locked<A: Places>(
    alloc: Global,
    keeper: &Keeper<A>,
    sectors: Vec<Sector>,
    rest: &mut Share<A>,
) -> Result<Vec<CachePadded<Mutex<Slot<A>>>>, AllocError>
    requires none { All (λ s. count_of s ≡ 0) sectors.items }
    requires parts { All (IsPartOf keeper.now.world) sectors.items }
    requires each { rest.old.parts ≡ vec_len sectors }
    requires amount { rest.old.amount ≡ 0 }
    ensures each { IfOk result (λ slots. vec_len slots ≡ vec_len sectors) }
    ensures rest { OnOk result ((rest.new.parts ≡ 0) × (rest.new.amount ≡ 0)) }
{
    let mut slots = Vec::with_capacity(alloc, sectors.len())?;
    for sector in sectors {
        slots.push_reserved(locked_slot(keeper, sector, rest));
    }
    Ok(slots)
}

// A sector under its lock, with a part of the share.
fn locked_slot<A: Places>(
    keeper: &Keeper<A>,
    sector: Sector,
    rest: &mut Share<A>,
) -> CachePadded<Mutex<Slot<A>>>
    requires none { count_of sector ≡ 0 }
    requires part { IsPartOf keeper.now.world sector }
    requires amount { rest.old.amount ≡ 0 }
    requires more { 1 ≤ rest.old.parts }
    ensures parts { rest.new.parts + 1 ≡ rest.old.parts }
    ensures amount { rest.new.amount ≡ 0 }
{
    let share = rest.split_off(1, 0);
    let mark = keeper.mark_for(&sector);
    let marked = Marked::new(sector, mark);
    CachePadded::new(Mutex::new(Slot {
        home: Some(Home::new(marked, share)),
    }))
}

/// A pass for each seat, in order: each with two parts of the passes' share, and one of the
/// sectors'.
pub fn passes<A: Places, B: Seats>(
    alloc: Global,
    names: &[Name],
    sectors: usize,
    places: &mut Share<A>,
    seats: &mut Share<B>,
) -> Result<Vec<Pass<A, B>>, AllocError>
    requires few { length names.now ≤ most_players }
    requires sectors { sectors ≡ A.all }
    requires places { length names.now ≤ places.old.parts }
    requires seats { seats.old.parts ≡ 2 * length names.now }
    requires none { (places.old.amount ≡ 0) × (seats.old.amount ≡ 0) }
    ensures seated { IfOk result (λ passes.
        map (λ pass. seat_of pass.seat) passes.items ≡ seats_from 0 (texts names.now)) }
    ensures empty { IfOk result (λ passes.
        All (λ pass. pass.lists ≡ replicate A.all []) passes.items) }
    ensures places { OnOk result ((places.new.parts + length names.now ≡ places.old.parts)
        × (places.new.amount ≡ 0)) }
    ensures seats { OnOk result ((seats.new.parts ≡ 0) × (seats.new.amount ≡ 0)) }
{
    let mut passes = Vec::with_capacity(alloc, names.len())?;
    for (number, name) in names.iter().enumerate() {
        let seat = Seat {
            number: number as u8,
            name: *name,
        };
        passes.push_reserved(pass(seat, Lists::new(alloc, sectors)?, places, seats));
    }
    Ok(passes)
}

// The pass of a seat, with its parts of the shares.
fn pass<A: Places, B: Seats>(
    seat: Seat,
    lists: Lists,
    places: &mut Share<A>,
    seats: &mut Share<B>,
) -> Pass<A, B>
    requires none { lists ≡ replicate A.all [] }
    requires amounts { (places.old.amount ≡ 0) × (seats.old.amount ≡ 0) }
    requires more { (1 ≤ places.old.parts) × (2 ≤ seats.old.parts) }
    ensures seat { result.seat ≡ seat }
    ensures lists { result.lists ≡ lists }
    ensures places { (places.new.parts + 1 ≡ places.old.parts) × (places.new.amount ≡ 0) }
    ensures seats { (seats.new.parts + 2 ≡ seats.old.parts) × (seats.new.amount ≡ 0) }
{
    let share = seats.split_off(1, 0);
    let reserve = Reserve::new(places.split_off(1, 0), seats.split_off(1, 0));
    Pass::new(seat, lists, share, reserve)
}
