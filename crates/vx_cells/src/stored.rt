ghost use Rattle.std.specs.Option.{option_copied};
ghost use Rattle.std.specs.Prelude.{◌≡◌, ◌<◌, ◌≤◌, ◌&&◌, not, nat_lt, length, true, IfOk, OnOk, OnErr, IfSome};
ghost use Rattle.std.specs.Bool.{Decides};
ghost use Rattle.std.specs.List.{All};
ghost use Rattle.vx_store.specs.declared.stack.TheConstants.{SLOTS};
ghost use Rattle.vx_geom.specs.Sizes.{sector_count};
ghost use Rattle.vx_geom.specs.declared.bounds.TheConstants.{HIGH_HEIGHT};
ghost use Rattle.vx_block.specs.Components.{is_device, is_dust};
ghost use Rattle.vx_block.specs.Conductors.{conducts};
ghost use Rattle.vx_store.specs.Codes.{code_count, cell_of};
ghost use Rattle.vx_store.specs.MachineMarks.{is_of};
ghost use Rattle.vx_cells.specs.Listed.{components_of, devices_of, AreInLayer};

use std::alloc::{AllocError, Global};
use std::marker::Model;
use std::sync::Arc;
use vx_block::Cell;
use vx_geom::{Bounds, LOW_HEIGHT, Pos};
use vx_marks::{PAGE, Page};
use vx_section::Sections;
use vx_store::{
    AIR, ChestParts, MachineMarks, MarkKind, SLOTS, Slot, conducts, decode, encode, is_device,
    is_dust, put_marked, put_over,
};

/// What a sector holds, as copies of it share it: the cells as bytes, section by section, and the
/// chests beside them, by their indices, with marks where components of machines stand, and which
/// of them are devices.
#[derive(Drop)]
pub(crate) struct Stored {
    alloc: Global,
    bounds: Bounds,
    sector: u32,
    store: Sections,
    chests: ChestParts,
    // Apart, since most changes leave them as they are.
    marks: Arc<MachineMarks>,
}

impl Model for Stored {
    ghost use Rattle.std.specs.Arc.{arc_value};
    ghost use Rattle.vx_cells.specs.SectorCells.{SectorCells};
    ghost use Rattle.vx_cells.specs.Stored.{stored, IsKept};

    ghost Value = { SectorCells };

    ghost view = { λ a. stored a.bounds a.sector a.store a.chests };

    ghost invariant = { λ a.
        IsKept a.bounds a.sector a.store a.chests (arc_value a.marks) };
}

impl Stored {
    ghost use Rattle.vx_store.specs.Codes.{is_chest};
    ghost use Rattle.vx_cells.specs.SectorCells.{holds, only_air, cell_at, chest_at, with_cell, with_cells, with_slot, IsWhole, IsSlot};

    /// The sector of that number, with nothing but air.
    pub fn new(alloc: Global, bounds: Bounds, sector: u32) -> Result<Stored, AllocError>
        requires { sector < sector_count bounds }
        ensures { IfOk result (λ cells. cells ≡ only_air bounds sector) }
    {
        bounds.soundness();
        let count = bounds.sector_cells();
        let wide = bounds.span() > NARROW;
        let high = bounds.height() > u32::from(LOW_HEIGHT);
        let store = Sections::new(alloc, wide, high, AIR)?;
        Ok(Stored {
            alloc,
            bounds,
            sector,
            store,
            chests: ChestParts::new(alloc)?,
            marks: Arc::new(alloc, MachineMarks::new(alloc, count)?)?,
        })
    }

    /// The bounds of the world that the sector is of.
    pub fn bounds(&self) -> Bounds
        ensures { result ≡ self.now.bounds }
    {
        self.bounds
    }

    /// The number of the sector.
    pub fn sector(&self) -> u32
        ensures { result ≡ self.now.sector }
    {
        self.sector
    }

    /// Whether the position is of this sector.
    #[tactic(auto, unfolding(crate::specs::SectorCells::holds))]
    pub fn holds(&self, p: Pos) -> bool
        ensures { result ≡ holds self.now p }
    {
        match self.bounds.sector_of(p) {
            Some(sector) => self.sector == sector,
            None => false,
        }
    }

    /// What holds of every sector of cells.
    pub fn soundness(&self)
        ensures { IsWhole self.now }
    {
        let _ = &self.store;
    }

    /// The cell at a position of this sector.
    #[inline(always)]
    pub fn get(&self, p: Pos) -> Cell
        requires { holds self.now p ≡ true }
        ensures { result ≡ cell_at self.now p }
    {
        decode(self.code(p))
    }

    /// Whether dust lies at a position of this sector.
    #[inline(always)]
    pub fn has_dust(&self, p: Pos) -> bool
        requires { holds self.now p ≡ true }
        ensures { result ≡ is_dust (cell_at self.now p) }
    {
        is_dust(self.code(p))
    }

    /// Whether a conductor stands at a position of this sector.
    #[inline(always)]
    pub fn has_conductor(&self, p: Pos) -> bool
        requires { holds self.now p ≡ true }
        ensures { result ≡ conducts (cell_at self.now p) }
    {
        conducts(self.code(p))
    }

    /// Whether neither a device nor a conductor stands at a position of this sector.
    #[inline(always)]
    pub fn is_idle(&self, p: Pos) -> bool
        requires { holds self.now p ≡ true }
        ensures { result
            ≡ (not (is_device (cell_at self.now p)) && not (conducts (cell_at self.now p))) }
    {
        let code = self.code(p);
        !is_device(code) && !conducts(code)
    }

    // The byte of the cell at a position of this sector.
    #[inline(always)]
    fn code(&self, p: Pos) -> u8
        requires { holds self.now p ≡ true }
        ensures cell { cell_of result ≡ cell_at self.now p }
        ensures within { result < code_count }
    {
        self.bounds.soundness();
        let (column, layer, row) = (p.x.unsigned_abs(), p.y.unsigned_abs(), p.z.unsigned_abs());
        self.store.at(column, layer, row)
    }

    /// Puts a cell down at a position of this sector, in place of what was there. A chest begins
    /// empty.
    pub fn set(&mut self, p: Pos, cell: Cell) -> Result<(), AllocError>
        requires { holds self.old p ≡ true }
        ensures ok { OnOk result (self.new ≡ with_cell self.old p cell) }
        ensures err { OnErr result (self.new ≡ self.old) }
    {
        let index = self.bounds.index_in_sector(p);
        let code = encode(cell);
        if MachineMarks::stay(self.store.get(index), code) {
            return put_over(&mut self.store, &mut self.chests, index, code);
        }
        put_marked(
            self.alloc,
            &mut self.marks,
            &mut self.store,
            &mut self.chests,
            index,
            code,
        )
    }

    /// Puts these cells down one after another, as `set` does each. Where memory is wanted, the
    /// first of them may be put down.
    pub fn set_all(&mut self, puts: &[(Pos, Cell)]) -> Result<(), AllocError>
        requires { All (λ put. holds self.old put.0 ≡ true) puts.now }
        ensures { OnOk result (self.new ≡ with_cells self.old puts.now) }
    {
        for (p, cell) in puts {
            self.set(*p, *cell)?;
        }
        Ok(())
    }

    /// The slots of the chest at a position of this sector, if there is one.
    pub fn slots(&self, p: Pos) -> Option<&[Slot; SLOTS]>
        requires { holds self.now p ≡ true }
        ensures slots { option_copied result ≡ chest_at self.now p }
        ensures each { IfSome result (λ slots. All IsSlot slots.now) }
    {
        self.chests.get(self.bounds.index_in_sector(p))
    }

    /// Puts something else into a slot of the chest at a position of this sector: nothing, or 1 to
    /// 64 of an item.
    pub fn set_slot(&mut self, p: Pos, slot: u8, content: Slot) -> Result<(), AllocError>
        requires held { holds self.old p ≡ true }
        requires chest { is_chest (cell_at self.old p) ≡ true }
        requires slot { slot < SLOTS }
        requires content { IsSlot content }
        ensures ok { OnOk result (self.new ≡ with_slot self.old p slot content) }
        ensures err { OnErr result (self.new ≡ self.old) }
    {
        let index = self.bounds.index_in_sector(p);
        self.chests.set(index, slot, content)
    }

    /// The form of the section that holds the position.
    pub fn form(&self, p: Pos) -> u8
        requires { holds self.now p ≡ true }
        ensures { (1 ≤ result) × (result ≤ 3) }
    {
        self.store.form(self.bounds.index_in_sector(p))
    }

    /// The positions where a component of machines stands, in order.
    pub fn components(&self, alloc: Global) -> Result<Vec<Pos>, AllocError>
        ensures { IfOk result (λ found. found.items ≡ components_of self.now) }
    {
        self.bounds.soundness();
        self.marks
            .places(alloc, self.bounds, self.sector, MarkKind::Component)
    }

    /// The positions where a device stands, in order.
    pub fn devices(&self, alloc: Global) -> Result<Vec<Pos>, AllocError>
        ensures { IfOk result (λ found. found.items ≡ devices_of self.now) }
    {
        self.bounds.soundness();
        self.marks
            .places(alloc, self.bounds, self.sector, MarkKind::Device)
    }

    /// Marks where something of a kind stands in a layer of this sector, in the page that has that
    /// layer; none where nothing of it stands there.
    #[inline(always)]
    pub fn marks_in_layer(&self, kind: MarkKind, y: u32) -> Option<&Page>
        requires { y < HIGH_HEIGHT }
        ensures { AreInLayer (λ p. is_of kind (cell_at self.now p)) self.now y
            (option_copied result) }
    {
        self.bounds.soundness();
        let span = self.bounds.span();
        self.marks.page(kind, span * span * y / PAGE)
    }

    /// How many components of machines stand in this sector.
    pub fn component_count(&self) -> u32 {
        self.marks.count()
    }

    /// Whether a device stands in this sector.
    pub fn has_devices(&self) -> bool
        ensures { result ≡ nat_lt 0 (length (devices_of self.now)) }
    {
        self.bounds.soundness();
        self.marks.has_any(MarkKind::Device)
    }

    /// Whether both are the same sector of worlds of one size, with the same at each position.
    pub fn is_same(&self, other: &Stored) -> bool
        ensures { Decides result (self.now ≡ other.now) }
    {
        if self.bounds != other.bounds || self.sector != other.sector {
            return false;
        }
        self.store.same(&other.store) && self.chests.same(&other.chests)
    }
}

impl Clone for Stored {
    ghost is_clone = { λ stored copy. copy ≡ stored };

    fn clone(&self) -> Result<Stored, AllocError> {
        Ok(Stored {
            alloc: self.alloc,
            bounds: self.bounds,
            sector: self.sector,
            store: self.store.clone()?,
            chests: self.chests.clone()?,
            marks: Arc::try_clone(&self.marks)?,
        })
    }
}

// How many columns a side a sector of one chunk has.
const NARROW: u32 = 16;
