//! How levels spread: from the dust that is fed, link by link.
ghost use Rattle.std.specs.Prelude.{◌≡◌, ◌<◌, ◌≤◌, ◌+◌, ◌-◌, ◌&&◌, true, false, [], ◌∷◌, if◌then◌else◌, OnOk, IfOk, IfSome};
ghost use Rattle.std.specs.Option.{option_to_list};
ghost use Rattle.vx_block.specs.Components.{is_dust};
ghost use Rattle.vx_block.specs.Conductors.{conducts};
ghost use Rattle.vx_cells.specs.Listed.{devices_on};
ghost use Rattle.vx_cells.specs.Maps.{cell_on};
ghost use Rattle.vx_cells.specs.Nearby.{HasAround};
ghost use Rattle.vx_geom.specs.Neighbor.{neighbor};
ghost use Rattle.vx_geom.specs.declared.pos.Pos.{Pos};
ghost use Rattle.vx_geom.specs.Sizes.{sector_count};
ghost use Rattle.vx_power.specs.Dust.{over, links, links_on, links_up, links_down};
ghost use Rattle.vx_power.specs.Levels.{is_in, is_place, level_in, AreLevels, AreAllLevels};
ghost use Rattle.vx_power.specs.Signals.{drives};
ghost use Rattle.vx_power.specs.Spreading.{dust_at, each_dir, fed_towards, fed_from, fed_by, fed_by_sectors, linked_to, FeedAll, level_within, Reaches};

use crate::columns::Columns;
use crate::level_table::Levels;
use crate::leveled::Leveled;
use crate::links_nearby::{links_beside, links_down, links_up, may_climb, may_fall};
use crate::next_dust::{driven, dust_at, dust_given, dust_over, dust_under};
use crate::places::{place_beside, place_over, place_under};
use crate::region::Region;
use crate::signals::powers;
use std::alloc::{AllocError, Global};
use std::marker::Model;
use std::mem;
use vx_block::{Cell, Side};
use vx_cells::{Cells, Frozen};
use vx_geom::{Dir, Pos};

/// The level of dust that is fed.
pub const FED: u8 = 15;

// A walk from fed dust has at most so many links.
const MOST_LINKS: u8 = 14;

// Levels are told up to two columns off a sector, and a link leads at most one column further.
const COLUMNS_OFF: u32 = 16;

/// The levels of the dust of a sector, and of that up to two columns off it. It costs what the
/// devices of the sectors near feed.
pub fn levels(alloc: Global, map: &Frozen<'_>, sector: u32) -> Result<Levels, AllocError>
    requires { sector < sector_count map.now.sizes }
    ensures { IfOk result (λ levels. AreLevels map.now sector (level_in levels)) }
{
    map.soundness();
    let bounds = map.bounds();
    let columns = Columns::around(bounds, sector, COLUMNS_OFF);
    levels_in(
        alloc,
        map,
        columns,
        bounds.first_near(sector),
        bounds.end_near(sector),
    )
}

/// The levels of all dust of a map. It costs what its devices feed, each dust once.
pub fn all_levels(alloc: Global, map: &Frozen<'_>) -> Result<Levels, AllocError>
    ensures { IfOk result (λ levels. AreAllLevels map.now (level_in levels)) }
{
    map.soundness();
    levels_in(alloc, map, Columns::EVERYWHERE, 0, map.bounds().sectors())
}

// The levels of the dust in some columns, where the devices of the sectors from `first` up to below
// `end` feed all that is fed there.
fn levels_in(
    alloc: Global,
    map: &Frozen<'_>,
    columns: Columns,
    first: u32,
    end: u32,
) -> Result<Levels, AllocError>
    requires order { first ≤ end }
    requires there { end ≤ sector_count map.now.sizes }
    requires fed { FeedAll map.now (is_in columns) first end }
    ensures { IfOk result (λ levels. (p : Pos)
        → level_in levels p ≡ level_within (cell_on map.now) (is_in columns) p) }
{
    let mut spread = Spread::new(alloc);
    spread.begin(alloc, map, &columns, first, end)?;
    for links in 0..MOST_LINKS {
        spread.go_on(alloc, map, &columns, MOST_LINKS - links)?;
    }
    Ok(spread.into_levels())
}

// Levels as they spread within a region.
#[derive(Drop)]
struct Spread {
    levels: Levels,
    reached: Vec<Pos>,
}

impl Model for Spread {
    ghost use Rattle.vx_power.specs.Spreading.{SpreadData};

    ghost Value = { SpreadData };

    ghost view = { λ a. record { table = a.levels; reached = a.reached.items } };
}

impl Spread {
    // Nothing reached yet.
    fn new(alloc: Global) -> Spread
        ensures { result ≡ record { table = []; reached = [] } }
    {
        Spread {
            levels: Levels::new(alloc),
            reached: Vec::new(alloc),
        }
    }

    // Reaches the dust that the devices of the sectors from `first` up to below `end` feed.
    fn begin<R: Region>(
        &mut self,
        alloc: Global,
        map: &Frozen<'_>,
        region: &R,
        first: u32,
        end: u32,
    ) -> Result<(), AllocError>
        requires order { first ≤ end }
        requires there { end ≤ sector_count map.now.sizes }
        ensures { OnOk result (Reaches (R.holds region.now) 15 self.old self.new
            (fed_by_sectors map.now (cell_on map.now) first (end - first))) }
    {
        for number in first..end {
            self.begin_in(alloc, map, region, number)?;
        }
        Ok(())
    }

    // Reaches the dust that the devices of one sector feed.
    fn begin_in<R: Region>(
        &mut self,
        alloc: Global,
        map: &Frozen<'_>,
        region: &R,
        sector: u32,
    ) -> Result<(), AllocError>
        requires { sector < sector_count map.now.sizes }
        ensures { OnOk result (Reaches (R.holds region.now) 15 self.old self.new
            (fed_by (cell_on map.now) (devices_on map.now sector))) }
    {
        if !map.has_devices(sector) {
            return Ok(());
        }
        let devices = map.devices(alloc, sector)?;
        self.reach_all_fed(map, region, devices.as_slice())
    }

    // One link further: reaches what the positions reached last link to.
    fn go_on<R: Region>(
        &mut self,
        alloc: Global,
        map: &Frozen<'_>,
        region: &R,
        level: u8,
    ) -> Result<(), AllocError>
        requires some { 0 < level }
        requires most { level ≤ 15 }
        ensures { OnOk result (Reaches (R.holds region.now) level
            (record self.old { reached = [] }) self.new
            (linked_to (cell_on map.now) self.old.reached)) }
    {
        let from = mem::replace(&mut self.reached, Vec::new(alloc));
        self.reach_all_links(map, region, from.as_slice(), level)
    }

    // Reaches the dust that any of these devices feeds.
    fn reach_all_fed<R: Region>(
        &mut self,
        map: &Frozen<'_>,
        region: &R,
        devices: &[Pos],
    ) -> Result<(), AllocError>
        ensures { OnOk result (Reaches (R.holds region.now) 15 self.old self.new
            (fed_by (cell_on map.now) devices.now)) }
    {
        for device in devices {
            self.reach_fed(map, region, *device)?;
        }
        Ok(())
    }

    // Reaches the dust that a device feeds.
    fn reach_fed<R: Region>(
        &mut self,
        map: &Frozen<'_>,
        region: &R,
        device: Pos,
    ) -> Result<(), AllocError>
        ensures { OnOk result (Reaches (R.holds region.now) 15 self.old self.new
            (fed_from (cell_on map.now) device)) }
    {
        let cell = map.cell(device);
        if !powers(cell) {
            return Ok(());
        }
        for dir in Dir::ALL {
            self.reach_towards(map, region, &cell, device, dir)?;
        }
        Ok(())
    }

    // Reaches the dust that a device feeds in one direction.
    fn reach_towards<R: Region>(
        &mut self,
        map: &Frozen<'_>,
        region: &R,
        cell: &Cell,
        device: Pos,
        dir: Dir,
    ) -> Result<(), AllocError>
        requires { cell.now ≡ cell_on map.now device }
        ensures { OnOk result (Reaches (R.holds region.now) 15 self.old self.new
            (fed_towards (cell_on map.now) device dir)) }
    {
        self.reach_found(region, dust_given(map, cell, device, dir), FED)?;
        self.reach_driven(map, region, cell, device, dir)
    }

    // Reaches the dust around the conductor in one direction, if a cell at this position drives it.
    fn reach_driven<R: Region>(
        &mut self,
        map: &Frozen<'_>,
        region: &R,
        cell: &Cell,
        p: Pos,
        dir: Dir,
    ) -> Result<(), AllocError>
        ensures { OnOk result (Reaches (R.holds region.now) 15 self.old self.new
            (if drives cell.now dir && conducts (cell_on map.now (neighbor p dir))
            then each_dir (dust_at (cell_on map.now) (neighbor p dir)) else [])) }
    {
        match driven(map, cell, p, dir) {
            Some(block) => self.reach_around(map, region, block),
            None => Ok(()),
        }
    }

    // Reaches the dust beside a position in each direction.
    fn reach_around<R: Region>(
        &mut self,
        map: &Frozen<'_>,
        region: &R,
        p: Pos,
    ) -> Result<(), AllocError>
        ensures { OnOk result (Reaches (R.holds region.now) 15 self.old self.new
            (each_dir (dust_at (cell_on map.now) p))) }
    {
        for dir in Dir::ALL {
            self.reach_found(region, dust_at(map, p, dir), FED)?;
        }
        Ok(())
    }

    // Reaches what dust at any of these positions links to.
    fn reach_all_links<R: Region>(
        &mut self,
        map: &Frozen<'_>,
        region: &R,
        from: &[Pos],
        level: u8,
    ) -> Result<(), AllocError>
        requires some { 0 < level }
        requires most { level ≤ 15 }
        ensures { OnOk result (Reaches (R.holds region.now) level self.old self.new
            (linked_to (cell_on map.now) from.now)) }
    {
        for p in from {
            self.reach_links(map, region, *p, level)?;
        }
        Ok(())
    }

    // Reaches what dust at a position links to.
    fn reach_links<R: Region>(
        &mut self,
        map: &Frozen<'_>,
        region: &R,
        p: Pos,
        level: u8,
    ) -> Result<(), AllocError>
        requires some { 0 < level }
        requires most { level ≤ 15 }
        ensures { OnOk result (Reaches (R.holds region.now) level self.old self.new
            (links (cell_on map.now) p)) }
    {
        if !map.has_dust(p) {
            return Ok(());
        }
        match map.around(p) {
            Some(cells) => self.reach_close_links(map, cells, region, p, level),
            None => self.reach_any_links(map, region, p, level),
        }
    }

    // Reaches what dust at a position links to, wherever that is.
    fn reach_any_links<R: Region>(
        &mut self,
        map: &Frozen<'_>,
        region: &R,
        p: Pos,
        level: u8,
    ) -> Result<(), AllocError>
        requires dust { is_dust (cell_on map.now p) ≡ true }
        requires some { 0 < level }
        requires most { level ≤ 15 }
        ensures { OnOk result (Reaches (R.holds region.now) level self.old self.new
            (links (cell_on map.now) p)) }
    {
        for side in Side::ALL {
            self.reach_links_on(map, region, p, side, level)?;
        }
        Ok(())
    }

    // Reaches what dust at a position links to, where one sector has all around it.
    #[tactic(auto, using(crate::proofs::Stepping::dust_place))]
    fn reach_close_links<R: Region>(
        &mut self,
        map: &Frozen<'_>,
        cells: &Cells,
        region: &R,
        p: Pos,
        level: u8,
    ) -> Result<(), AllocError>
        requires around { HasAround map.now cells.now p }
        requires dust { is_dust (cell_on map.now p) ≡ true }
        requires some { 0 < level }
        requires most { level ≤ 15 }
        ensures { OnOk result (Reaches (R.holds region.now) level self.old self.new
            (links (cell_on map.now) p)) }
    {
        map.soundness();
        let climbs = may_climb(map, cells, p);
        let falls = may_fall(map, cells, p);
        for side in Side::ALL {
            self.reach_close_links_on(map, cells, region, p, side, climbs, falls, level)?;
        }
        Ok(())
    }

    // Reaches what it links to on one side, where these say whether it may climb or run down on any.
    #[inline(always)]
    fn reach_close_links_on<R: Region>(
        &mut self,
        map: &Frozen<'_>,
        cells: &Cells,
        region: &R,
        p: Pos,
        side: Side,
        climbs: bool,
        falls: bool,
        level: u8,
    ) -> Result<(), AllocError>
        requires around { HasAround map.now cells.now p }
        requires place { is_place p ≡ true }
        requires open { climbs ≡ true → conducts (cell_on map.now (over p)) ≡ false }
        requires low { climbs ≡ false → links_up (cell_on map.now) p side ≡ false }
        requires high { falls ≡ false → links_down (cell_on map.now) p side ≡ false }
        requires some { 0 < level }
        requires most { level ≤ 15 }
        ensures { OnOk result (Reaches (R.holds region.now) level self.old self.new
            (links_on (cell_on map.now) p side)) }
    {
        let beside = dust_if(
            map,
            links_beside(map, cells, p, side),
            place_beside(p, side),
        );
        self.reach_found(region, beside, level)?;
        let over = dust_if(
            map,
            links_up(map, cells, p, side, climbs),
            place_over(p, side),
        );
        self.reach_found(region, over, level)?;
        let under = dust_if(
            map,
            links_down(map, cells, p, side, falls),
            place_under(p, side),
        );
        self.reach_found(region, under, level)
    }

    // Reaches what dust at a position links to on one side.
    fn reach_links_on<R: Region>(
        &mut self,
        map: &Frozen<'_>,
        region: &R,
        p: Pos,
        side: Side,
        level: u8,
    ) -> Result<(), AllocError>
        requires some { 0 < level }
        requires most { level ≤ 15 }
        ensures { OnOk result (Reaches (R.holds region.now) level self.old self.new
            (links_on (cell_on map.now) p side)) }
    {
        self.reach_found(region, dust_at(map, p, side.dir()), level)?;
        self.reach_found(region, dust_over(map, p, side), level)?;
        self.reach_found(region, dust_under(map, p, side), level)
    }

    // Reaches a position, if there is one.
    #[inline(always)]
    fn reach_found<R: Region>(
        &mut self,
        region: &R,
        found: Option<Pos>,
        level: u8,
    ) -> Result<(), AllocError>
        requires place { IfSome found (λ p. is_place p ≡ true) }
        requires some { 0 < level }
        requires most { level ≤ 15 }
        ensures { OnOk result (Reaches (R.holds region.now) level self.old self.new
            (option_to_list found)) }
    {
        match found {
            Some(p) => self.reach(region, p, level),
            None => Ok(()),
        }
    }

    // Gives a position this level, if the region has it and it has none.
    #[inline(always)]
    fn reach<R: Region>(&mut self, region: &R, p: Pos, level: u8) -> Result<(), AllocError>
        requires place { is_place p ≡ true }
        requires some { 0 < level }
        requires most { level ≤ 15 }
        ensures { OnOk result (Reaches (R.holds region.now) level self.old self.new (p ∷ [])) }
    {
        if !region.hold(p) || self.levels.at(p) > 0 {
            return Ok(());
        }
        self.levels.put(p, level)?;
        self.reached.push(p)?;
        Ok(())
    }

    // The levels as they are.
    fn into_levels(self) -> Levels
        ensures { result ≡ self.table }
    {
        self.levels
    }
}

// A position, if dust lies there that is linked to.
#[inline(always)]
#[tactic(auto, using(crate::proofs::Stepping::dust_place))]
fn dust_if(map: &Frozen<'_>, is_linked: bool, p: Pos) -> Option<Pos>
    requires { is_linked ≡ true → is_dust (cell_on map.now p) ≡ true }
    ensures found { option_to_list result ≡ (if is_linked then p ∷ [] else []) }
    ensures there { IfSome result (λ q. is_place q ≡ true) }
{
    map.soundness();
    if is_linked { Some(p) } else { None }
}
