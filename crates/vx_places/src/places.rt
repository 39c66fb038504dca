ghost use Rattle.std.specs.Prelude.{◌≡◌, ◌+◌, ◌-◌, ◌*◌, ◌%◌, ◌<◌, ◌≤◌, ◌&&◌, ◌||◌, ℕ, [], pos, ◌-ℤ◌, unsigned_abs, false, true, not, nat_eq, nat_le, length, replicate, slice_index_or, if◌then◌else◌, None, Some, IfOk, OnOk, IfSome};
ghost use Rattle.std.specs.List.{All, filter, list_any};
ghost use Rattle.vx_geom.specs.declared.pos.Pos.{Pos};
ghost use Rattle.vx_geom.specs.Places.{positions};
ghost use Rattle.vx_geom.specs.Sizes.{AreSizes, span, sector_count, sector_cells, sector_number, is_inside};
ghost use Rattle.vx_cells.specs.Listed.{place};
ghost use Rattle.vx_cells.specs.Maps.{cell_on};
ghost use Rattle.vx_cells.specs.SectorCells.{cell_at};
ghost use Rattle.vx_marks.specs.Marks.{in_run};
ghost use Rattle.vx_marks.specs.declared.page.TheConstants.{PAGE};
ghost use Rattle.vx_places.specs.Areas.{IsPart, LiesInOne, IsSector, IsColumnOf, in_area, marked_by};
ghost use Rattle.vx_places.specs.Around.{is_kind_around, is_such_around, is_in_run, at_number, between_numbers, layer_of, row_of, Adds};
ghost use Rattle.vx_places.specs.Places.{marked_in, in_run_from, is_at, steps_between, HasRoom};

use crate::area::Area;
use crate::around::{end_within, layers, least_within, shared_columns, steps_along};
use std::alloc::{AllocError, Global};
use std::marker::Model;
use vx_cells::{Cells, Frozen};
use vx_geom::{Bounds, Pos};
use vx_marks::{Marks, PAGE, Page};
use vx_store::{MarkKind, marked_places};

/// A set of positions of a world, kept by sector. A sector where nothing was marked takes no memory
/// beside its entry, and neither do 4,096 places of a sector of which none was.
#[derive(Drop)]
pub struct Places {
    bounds: Bounds,
    // None before the first position is added, and then an entry for each sector.
    sectors: Vec<Option<Marks>>,
}

impl Model for Places {
    ghost use Rattle.vx_places.specs.Places.{PlacesData, ArePlaces};

    ghost Value = { PlacesData };

    ghost view = { λ a. record { sizes = a.bounds; marks = a.sectors.items } };

    ghost invariant = { λ a. ArePlaces a.bounds a.sectors.items };
}

impl Places {
    /// No positions of a world of this size. It takes no memory.
    pub fn new(alloc: Global, bounds: Bounds) -> Places
        ensures sizes { result.sizes ≡ bounds }
        ensures none { (p : Pos) → is_at result p ≡ false }
    {
        bounds.soundness();
        Places {
            bounds,
            sectors: Vec::new(alloc),
        }
    }

    /// The size of the world.
    pub fn bounds(&self) -> Bounds
        ensures { result ≡ self.now.sizes }
    {
        self.bounds
    }

    /// What holds of every such set: the size of its world is one that a world may have.
    pub fn soundness(&self)
        ensures { AreSizes self.now.sizes }
    {
        let _ = &self.sectors;
    }

    /// Whether it has the position. It takes no memory.
    #[tactic(auto, unfolding(crate::specs::Places::is_at))]
    pub fn has(&self, p: Pos) -> bool
        ensures { result ≡ is_at self.now p }
    {
        let Some(sector) = self.bounds.sector_of(p) else {
            return false;
        };
        match self.marks_of(sector) {
            Some(marks) => marks.has(self.bounds.index_in_sector(p)),
            None => false,
        }
    }

    /// Whether it is known to have no position: none was ever added. It looks at each sector's entry
    /// and at no marks.
    pub fn is_empty(&self) -> bool
        ensures { result ≡ true → (p : Pos) → is_at self.now p ≡ false }
    {
        have_no_marks(&self.sectors)
    }

    /// Adds a position, if it is of the world. Memory is wanted for the first of all, and for the
    /// first of 4,096 places.
    pub fn mark(&mut self, alloc: Global, p: Pos) -> Result<(), AllocError>
        ensures sizes { self.new.sizes ≡ self.old.sizes }
        ensures marked { OnOk result ((q : Pos) → is_at self.new q
            ≡ (is_at self.old q
            || (is_inside self.old.sizes q && nat_eq (steps_between p q) 0))) }
    {
        self.soundness();
        let bounds = self.bounds();
        if bounds.inside(p) {
            self.mark_from(alloc, bounds.sector_holding(p), p, 1)
        } else {
            Ok(())
        }
    }

    /// Adds each position of a list that is of the world.
    pub fn mark_all(&mut self, alloc: Global, places: &[Pos]) -> Result<(), AllocError>
        ensures sizes { self.new.sizes ≡ self.old.sizes }
        ensures marked { OnOk result ((q : Pos) → is_at self.new q
            ≡ (is_at self.old q || (is_inside self.old.sizes q
            && list_any (λ p. nat_eq (steps_between p q) 0) places.now))) }
    {
        for p in places {
            self.mark(alloc, *p)?;
        }
        Ok(())
    }

    /// Takes a position away, if it is among them. It takes no memory.
    pub fn forget(&mut self, p: Pos)
        ensures sizes { self.new.sizes ≡ self.old.sizes }
        ensures forgotten { (q : Pos) → is_at self.new q
            ≡ (is_at self.old q && not (nat_eq (steps_between p q) 0)) }
    {
        if !self.has_entries() {
            return;
        }
        let bounds = self.bounds;
        if !bounds.inside(p) {
            return;
        }
        let number = bounds.sector_holding(p) as usize;
        clear_in(&mut self.sectors[number], bounds.index_in_sector(p));
    }

    /// Takes away each position of a list that is among them. It takes no memory.
    pub fn forget_all(&mut self, places: &[Pos])
        ensures sizes { self.new.sizes ≡ self.old.sizes }
        ensures forgotten { (q : Pos) → is_at self.new q ≡ (is_at self.old q
            && not (list_any (λ p. nat_eq (steps_between p q) 0) places.now)) }
    {
        for p in places {
            self.forget(*p);
        }
    }

    /// Adds each position of a map to which at most so many steps lead from this one, which may lie
    /// anywhere, and at which something of that kind stands.
    pub fn mark_around(
        &mut self,
        alloc: Global,
        map: &Frozen<'_>,
        p: Pos,
        steps: u8,
        kind: MarkKind,
    ) -> Result<(), AllocError>
        requires { steps ≤ 8 }
        ensures sizes { self.new.sizes ≡ self.old.sizes }
        ensures marked { OnOk result ((q : Pos) → is_at self.new q
            ≡ (is_at self.old q || (is_inside self.old.sizes q
            && is_kind_around kind (cell_on map.now) p steps q))) }
    {
        let steps = u32::from(steps);
        let bounds = self.bounds();
        let count = bounds.rows();
        let end = end_within(p.z, steps, count);
        let mut next = least_within(p.z, steps, count);
        while next < end {
            let length = shared_columns(bounds, map.bounds(), next).min(end - next);
            self.mark_rows(alloc, map, p, steps, kind, next, next + length)?;
            next += length;
        }
        Ok(())
    }

    // Adds those of some rows alone, part by part: as many columns at once as lie in one sector here
    // and on the map. The rows do, too.
    #[inline(always)]
    fn mark_rows(
        &mut self,
        alloc: Global,
        map: &Frozen<'_>,
        p: Pos,
        steps: u32,
        kind: MarkKind,
        north: u32,
        south: u32,
    ) -> Result<(), AllocError>
        requires few { steps ≤ 8 }
        requires some { north < south }
        requires within { south ≤ self.old.sizes.sz * span self.old.sizes }
        requires here { north % span self.old.sizes + (south - north) ≤ span self.old.sizes }
        requires there { north % span map.now.sizes + (south - north) ≤ span map.now.sizes }
        ensures sizes { self.new.sizes ≡ self.old.sizes }
        ensures marked { OnOk result (Adds (between_numbers row_of
            (is_kind_around kind (cell_on map.now) p steps) north south) self.old self.new) }
    {
        self.soundness();
        let bounds = self.bounds();
        let count = bounds.columns();
        let end = end_within(p.x, steps, count);
        let mut west = least_within(p.x, steps, count);
        while west < end {
            let length = shared_columns(bounds, map.bounds(), west).min(end - west);
            let east = west + length;
            let area = Area {
                west,
                east,
                north,
                south,
            };
            self.mark_area(alloc, map, p, steps, kind, area)?;
            west = east;
        }
        Ok(())
    }

    // Adds those of an area alone.
    #[inline(always)]
    fn mark_area(
        &mut self,
        alloc: Global,
        map: &Frozen<'_>,
        p: Pos,
        steps: u32,
        kind: MarkKind,
        area: Area,
    ) -> Result<(), AllocError>
        requires few { steps ≤ 8 }
        requires here { IsPart self.old.sizes area }
        requires there { LiesInOne map.now.sizes area }
        ensures sizes { self.new.sizes ≡ self.old.sizes }
        ensures marked { OnOk result (Adds
            (in_area (is_kind_around kind (cell_on map.now) p steps) area) self.old self.new) }
    {
        self.soundness();
        map.soundness();
        let corner = Pos::new(area.west as i32, 0, area.north as i32);
        let Some(cells) = map.sector_of(corner) else {
            return Ok(());
        };
        let bounds = self.bounds();
        let there = cells.bounds();
        let sector = bounds.sector_holding(corner);
        let count = layers(bounds).min(layers(map.bounds()));
        let first = least_within(p.y, steps, count);
        for y in first..end_within(p.y, steps, count) {
            self.mark_layer(alloc, cells, there, p, steps, kind, area, sector, y)?;
        }
        Ok(())
    }

    // Adds those of a layer of an area alone, which a sector of the map has. Where nothing of the
    // kind stands in its rows it is passed over by one look.
    #[inline(always)]
    fn mark_layer(
        &mut self,
        alloc: Global,
        cells: &Cells,
        bounds: Bounds,
        p: Pos,
        steps: u32,
        kind: MarkKind,
        area: Area,
        sector: u32,
        y: u32,
    ) -> Result<(), AllocError>
        requires few { steps ≤ 8 }
        requires low { y < self.old.sizes.h }
        requires near { unsigned_abs (p.y -ℤ pos y) ≤ steps }
        requires here { IsPart self.old.sizes area }
        requires number { IsSector self.old.sizes area sector }
        requires size { bounds ≡ cells.now.bounds }
        requires there { IsPart bounds area }
        requires held { y < bounds.h }
        requires sector { IsSector bounds area cells.now.sector }
        ensures sizes { self.new.sizes ≡ self.old.sizes }
        ensures marked { OnOk result (Adds (at_number layer_of
            (in_area (is_kind_around kind (cell_at cells.now) p steps) area) y)
            self.old self.new) }
    {
        self.soundness();
        bounds.soundness();
        let Some(page) = cells.marks_in_layer(kind, y) else {
            return Ok(());
        };
        if !may_have_marks(page, bounds, area, y) {
            return Ok(());
        }
        let left = steps - steps_along(p.y, y);
        let first = least_within(p.z, left, area.south).max(area.north);
        for z in first..end_within(p.z, left, area.south) {
            self.mark_row(alloc, page, bounds, p, steps, area, sector, y, z)?;
        }
        Ok(())
    }

    // Adds those of one row of a layer of an area alone, by marks in a page.
    #[inline(always)]
    fn mark_row(
        &mut self,
        alloc: Global,
        page: &Page,
        bounds: Bounds,
        p: Pos,
        steps: u32,
        area: Area,
        sector: u32,
        y: u32,
        z: u32,
    ) -> Result<(), AllocError>
        requires few { steps ≤ 8 }
        requires low { y < self.old.sizes.h }
        requires near { unsigned_abs (p.y -ℤ pos y) + unsigned_abs (p.z -ℤ pos z) ≤ steps }
        requires here { IsPart self.old.sizes area }
        requires number { IsSector self.old.sizes area sector }
        requires there { IsPart bounds area }
        requires held { y < bounds.h }
        requires north { area.north ≤ z }
        requires south { z < area.south }
        ensures sizes { self.new.sizes ≡ self.old.sizes }
        ensures marked { OnOk result (Adds (at_number row_of (at_number layer_of
            (in_area (is_such_around (marked_by page.now bounds) p steps) area) y) z)
            self.old self.new) }
    {
        self.soundness();
        bounds.soundness();
        let left = steps - steps_along(p.y, y) - steps_along(p.z, z);
        let first = least_within(p.x, left, area.east).max(area.west);
        let end = end_within(p.x, left, area.east);
        if end <= first {
            return Ok(());
        }
        self.mark_run(alloc, page, bounds, sector, first, y, z, end - first)
    }

    // Adds the positions of so many columns of a row of a layer, from that one on, that have marks in
    // a page.
    #[inline(always)]
    fn mark_run(
        &mut self,
        alloc: Global,
        page: &Page,
        bounds: Bounds,
        sector: u32,
        x: u32,
        y: u32,
        z: u32,
        length: u32,
    ) -> Result<(), AllocError>
        requires inside { is_inside self.old.sizes (place x y z) ≡ true }
        requires here { x % span self.old.sizes + length ≤ span self.old.sizes }
        requires number { sector ≡ sector_number self.old.sizes (place x y z) }
        requires held { is_inside bounds (place x y z) ≡ true }
        requires there { x % span bounds + length ≤ span bounds }
        ensures sizes { self.new.sizes ≡ self.old.sizes }
        ensures marked { OnOk result (Adds (is_in_run (marked_by page.now bounds) x y z length)
            self.old self.new) }
    {
        self.soundness();
        bounds.soundness();
        let p = Pos::new(x as i32, y as i32, z as i32);
        let bits = page.run(bounds.index_in_sector(p) % PAGE, length);
        if bits == 0 {
            return Ok(());
        }
        self.mark_from(alloc, sector, p, bits)
    }

    // Adds the positions of a run of indices of a sector that begins with that of a position.
    #[inline(always)]
    fn mark_from(&mut self, alloc: Global, sector: u32, p: Pos, bits: u64) -> Result<(), AllocError>
        requires inside { is_inside self.old.sizes p ≡ true }
        requires number { sector ≡ sector_number self.old.sizes p }
        ensures sizes { self.new.sizes ≡ self.old.sizes }
        ensures marked { OnOk result (Adds (in_run_from self.old.sizes p bits) self.old self.new) }
    {
        self.make_entries(alloc)?;
        self.mark_in_entry(alloc, sector, p, bits)
    }

    // Makes an entry for each sector, where there is none yet.
    #[inline(always)]
    fn make_entries(&mut self, alloc: Global) -> Result<(), AllocError>
        ensures sizes { self.new.sizes ≡ self.old.sizes }
        ensures same { (p : Pos) → is_at self.new p ≡ is_at self.old p }
        ensures all { OnOk result (length self.new.marks ≡ sector_count self.new.sizes) }
    {
        if !self.has_entries() {
            self.sectors = unmarked(alloc, self.bounds.sectors())?;
        }
        Ok(())
    }

    // Whether each sector has an entry; else none has.
    #[inline(always)]
    fn has_entries(&self) -> bool
        ensures all { result ≡ true → length self.now.marks ≡ sector_count self.now.sizes }
        ensures none { result ≡ false → self.now.marks ≡ [] }
    {
        !self.sectors.as_slice().is_empty()
    }

    // Adds the positions of such a run, where each sector has an entry.
    #[inline(always)]
    fn mark_in_entry(
        &mut self,
        alloc: Global,
        sector: u32,
        p: Pos,
        bits: u64,
    ) -> Result<(), AllocError>
        requires all { length self.old.marks ≡ sector_count self.old.sizes }
        requires inside { is_inside self.old.sizes p ≡ true }
        requires number { sector ≡ sector_number self.old.sizes p }
        ensures sizes { self.new.sizes ≡ self.old.sizes }
        ensures marked { OnOk result (Adds (in_run_from self.old.sizes p bits) self.old self.new) }
    {
        let index = self.bounds.index_in_sector(p);
        let count = self.bounds.sector_cells();
        mark_in(
            alloc,
            &mut self.sectors[sector as usize],
            count,
            index,
            bits,
        )
    }

    /// The positions of a sector, in order. A sector without any costs a look.
    pub fn in_sector(&self, alloc: Global, sector: u32) -> Result<Vec<Pos>, AllocError>
        requires { sector < sector_count self.now.sizes }
        ensures { IfOk result (λ found.
            found.items ≡ filter (is_at self.now) (positions self.now.sizes sector)) }
    {
        self.soundness();
        match self.marks_of(sector) {
            Some(marks) => marked_places(alloc, self.bounds, sector, marks),
            None => Ok(Vec::new(alloc)),
        }
    }

    /// All positions of the set.
    pub fn all(&self, alloc: Global) -> Result<Vec<Pos>, AllocError>
        ensures { IfOk result (λ found. (p : Pos)
            → list_any (λ q. nat_eq (steps_between q p) 0) found.items ≡ is_at self.now p) }
    {
        self.soundness();
        let mut found = Vec::new(alloc);
        if !self.has_entries() {
            return Ok(found);
        }
        for sector in 0..self.bounds().sectors() {
            let Some(marks) = self.marks_of(sector) else {
                continue;
            };
            let mut places = marked_places(alloc, self.bounds, sector, marks)?;
            found.append(&mut places)?;
        }
        Ok(found)
    }

    // The marks of a sector, if any place there was ever marked.
    fn marks_of(&self, sector: u32) -> Option<&Marks>
        ensures some { IfSome result (λ marks.
            slice_index_or self.now.marks sector None ≡ Some marks.now) }
        ensures room { IfSome result (λ marks.
            64 * length marks.now ≡ sector_cells self.now.sizes) }
        ensures none { result ≡ None → slice_index_or self.now.marks sector None ≡ None }
    {
        match self.sectors.get(sector as usize) {
            Some(Some(marks)) => Some(marks),
            _ => None,
        }
    }
}

// Whether marks in a page may tell of anything in a layer of an area. It looks at no marks of single
// places.
#[inline(always)]
fn may_have_marks(page: &Page, bounds: Bounds, area: Area, y: u32) -> bool
    requires there { IsPart bounds area }
    requires low { y < bounds.h }
    ensures { result ≡ false → (x z : ℕ) → IsColumnOf area x z
        → marked_by page.now bounds (place x y z) ≡ false }
{
    bounds.soundness();
    let first = Pos::new(area.west as i32, 0, area.north as i32);
    let last = Pos::new((area.east - 1) as i32, 0, (area.south - 1) as i32);
    let word = bounds.index_in_sector(first) / 64;
    let count = bounds.index_in_sector(last) / 64 + 1 - word;
    let layer = bounds.span() * bounds.span() / 64 * y % 64;
    page.has_marks_in(layer + word, count)
}

// Whether nothing was ever marked in any of these sectors.
fn have_no_marks(sectors: &[Option<Marks>]) -> bool
    ensures { result ≡ true → All (λ marks. marks ≡ None) sectors.now }
{
    for marks in sectors {
        if let Some(_some) = marks {
            return false;
        }
    }
    true
}

// So many sectors in which nothing is marked. It is never inlined: it is called once for a set.
#[inline(never)]
fn unmarked(alloc: Global, count: u32) -> Result<Vec<Option<Marks>>, AllocError>
    ensures { IfOk result (λ sectors. sectors.items ≡ replicate count None) }
{
    let mut sectors = Vec::with_capacity(alloc, count as usize)?;
    for _number in 0..count {
        sectors.push(None)?;
    }
    Ok(sectors)
}

// Marks a run of indices of a sector that has so many places.
#[inline(always)]
fn mark_in(
    alloc: Global,
    sector: &mut Option<Marks>,
    count: u32,
    first: u32,
    bits: u64,
) -> Result<(), AllocError>
    requires count { count % PAGE ≡ 0 }
    requires index { first < count }
    requires room { HasRoom count sector.old }
    ensures room { HasRoom count sector.new }
    ensures marked { OnOk result ((i : ℕ) → marked_in sector.new i
        ≡ (marked_in sector.old i || in_run first bits i)) }
{
    match sector {
        Some(marks) => marks.mark_run(alloc, first, bits),
        None => {
            let mut marks = Marks::new(alloc, count)?;
            marks.mark_run(alloc, first, bits)?;
            *sector = Some(marks);
            Ok(())
        }
    }
}

// Takes away the mark of an index of a sector, if it has one.
#[inline(always)]
fn clear_in(sector: &mut Option<Marks>, index: u32)
    requires { IfSome sector.old (λ marks. index < 64 * length marks) }
    ensures room { (count : ℕ) → HasRoom count sector.old → HasRoom count sector.new }
    ensures cleared { (i : ℕ) → marked_in sector.new i
        ≡ (marked_in sector.old i && not (nat_eq i index)) }
{
    if let Some(marks) = sector {
        marks.clear(index);
    }
}
