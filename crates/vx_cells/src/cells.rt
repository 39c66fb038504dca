ghost use Rattle.std.specs.Option.{option_copied};
ghost use Rattle.std.specs.Prelude.{◌≡◌, ◌+◌, ◌%◌, ◌<◌, ◌≤◌, ◌&&◌, not, nat_lt, length, true, IfOk, OnOk, OnErr, IfSome};
ghost use Rattle.std.specs.List.{All};
ghost use Rattle.vx_store.specs.MachineMarks.{is_of};
ghost use Rattle.vx_store.specs.declared.stack.TheConstants.{SLOTS};
ghost use Rattle.vx_geom.specs.Sizes.{span, sector_count};
ghost use Rattle.vx_geom.specs.declared.bounds.TheConstants.{HIGH_HEIGHT};
ghost use Rattle.vx_block.specs.Components.{is_device, is_dust, is_component};
ghost use Rattle.vx_block.specs.Conductors.{conducts};
ghost use Rattle.vx_cells.specs.Listed.{place, components_of, devices_of, AreInLayer, AreInRow};

use crate::stored::Stored;
use std::alloc::{AllocError, Global};
use std::marker::Model;
use std::sync::Arc;
use vx_block::Cell;
use vx_geom::{Bounds, Pos};
use vx_marks::{PAGE, Page};
use vx_store::{MarkKind, SLOTS, Slot};

/// What stands in one sector of the world: a cell at each position, and the slots of each chest.
/// Copies share all of it until one of them changes, and then all sections but the changed one.
pub struct Cells {
    stored: Arc<Stored>,
}

impl Model for Cells {
    ghost use Rattle.std.specs.Arc.{arc_value};
    ghost use Rattle.vx_cells.specs.SectorCells.{SectorCells};

    ghost Value = { SectorCells };

    ghost view = { λ a. arc_value a.stored };
}

// Written out, so that what is above this crate need not prove how its parts are let go.
impl Drop for Cells {
    fn drop(self) {
        let Cells { stored: _stored } = self;
    }
}

impl Cells {
    ghost use Rattle.vx_store.specs.Codes.{is_chest};
    ghost use Rattle.vx_cells.specs.SectorCells.{holds, only_air, cell_at, chest_at, with_cell, with_cells, with_slot, IsWhole, IsSlot};

    /// The sector of that number, with nothing but air. It takes some hundred bytes.
    pub fn new(alloc: Global, bounds: Bounds, sector: u32) -> Result<Cells, AllocError>
        requires { sector < sector_count bounds }
        ensures { IfOk result (λ cells. cells ≡ only_air bounds sector) }
    {
        let stored = Stored::new(alloc, bounds, sector)?;
        Ok(Cells {
            stored: Arc::new(alloc, stored)?,
        })
    }

    /// The bounds of the world that the sector is of.
    pub fn bounds(&self) -> Bounds
        ensures { result ≡ self.now.bounds }
    {
        self.stored.bounds()
    }

    /// The number of the sector.
    pub fn sector(&self) -> u32
        ensures { result ≡ self.now.sector }
    {
        self.stored.sector()
    }

    /// Whether the position is of this sector.
    pub fn holds(&self, p: Pos) -> bool
        ensures { result ≡ holds self.now p }
    {
        self.stored.holds(p)
    }

    /// What holds of every sector of cells: something stands at each of its positions, each chest
    /// has its 27 slots, each empty or with 1 to 64 of an item, and no other cell has any.
    pub fn soundness(&self)
        ensures { IsWhole self.now }
    {
        self.stored.soundness();
    }

    /// The cell at a position of this sector.
    #[inline(always)]
    pub fn get(&self, p: Pos) -> Cell
        requires { holds self.now p ≡ true }
        ensures { result ≡ cell_at self.now p }
    {
        self.stored.get(p)
    }

    /// Whether dust lies at a position of this sector.
    pub fn has_dust(&self, p: Pos) -> bool
        requires { holds self.now p ≡ true }
        ensures { result ≡ is_dust (cell_at self.now p) }
    {
        self.stored.has_dust(p)
    }

    /// Whether a conductor stands at a position of this sector.
    pub fn has_conductor(&self, p: Pos) -> bool
        requires { holds self.now p ≡ true }
        ensures { result ≡ conducts (cell_at self.now p) }
    {
        self.stored.has_conductor(p)
    }

    /// Whether neither a device nor a conductor stands at a position of this sector.
    #[inline(always)]
    pub fn is_idle(&self, p: Pos) -> bool
        requires { holds self.now p ≡ true }
        ensures { result
            ≡ (not (is_device (cell_at self.now p)) && not (conducts (cell_at self.now p))) }
    {
        self.stored.is_idle(p)
    }

    /// Puts a cell down at a position of this sector, in place of what was there. A chest begins
    /// empty. It takes memory where a copy shares what changes, where the section has to go on to
    /// its next form, and for chests and the first component among 4,096 cells.
    pub fn set(&mut self, p: Pos, cell: Cell) -> Result<(), AllocError>
        requires { holds self.old p ≡ true }
        ensures ok { OnOk result (self.new ≡ with_cell self.old p cell) }
        ensures err { OnErr result (self.new ≡ self.old) }
    {
        Arc::make_mut(&mut self.stored)?.set(p, cell)
    }

    /// Puts these cells down one after another at positions of this sector, as `set` does each, but
    /// sees only once whether a copy shares the sector. Where memory is wanted, the first of them
    /// may be put down.
    pub fn set_all(&mut self, puts: &[(Pos, Cell)]) -> Result<(), AllocError>
        requires { All (λ put. holds self.old put.0 ≡ true) puts.now }
        ensures { OnOk result (self.new ≡ with_cells self.old puts.now) }
    {
        Arc::make_mut(&mut self.stored)?.set_all(puts)
    }

    /// The slots of the chest at a position of this sector, if there is one.
    pub fn chest(&self, p: Pos) -> Option<[Slot; SLOTS]>
        requires { holds self.now p ≡ true }
        ensures slots { result ≡ chest_at self.now p }
        ensures each { IfSome result (All IsSlot) }
    {
        match self.slots(p) {
            Some(slots) => Some(*slots),
            None => None,
        }
    }

    /// The slots of the chest at a position of this sector, if there is one, to read. It costs less
    /// than a copy of all of them.
    pub fn slots(&self, p: Pos) -> Option<&[Slot; SLOTS]>
        requires { holds self.now p ≡ true }
        ensures slots { option_copied result ≡ chest_at self.now p }
        ensures each { IfSome result (λ slots. All IsSlot slots.now) }
    {
        self.stored.slots(p)
    }

    /// Puts something else into a slot of the chest at a position of this sector: nothing, or 1 to
    /// 64 of an item. It takes memory where a copy shares the sector.
    pub fn set_slot(&mut self, p: Pos, slot: u8, content: Slot) -> Result<(), AllocError>
        requires held { holds self.old p ≡ true }
        requires chest { is_chest (cell_at self.old p) ≡ true }
        requires slot { slot < SLOTS }
        requires content { IsSlot content }
        ensures ok { OnOk result (self.new ≡ with_slot self.old p slot content) }
        ensures err { OnErr result (self.new ≡ self.old) }
    {
        Arc::make_mut(&mut self.stored)?.set_slot(p, slot, content)
    }

    /// In which form the section of 16 by 16 by 16 cells is kept that holds the position: 1, one
    /// cell for all; 2, up to sixteen different ones with four bits each; 3, a byte each. It takes
    /// no memory.
    pub fn form(&self, p: Pos) -> u8
        requires { holds self.now p ≡ true }
        ensures { (1 ≤ result) × (result ≤ 3) }
    {
        self.stored.form(p)
    }

    /// A copy of the sector, which shares what it holds. It costs the same whatever that is.
    pub fn try_clone(&self) -> Result<Cells, AllocError>
        ensures { IfOk result (λ copy. copy ≡ self.now) }
    {
        Ok(Cells {
            stored: Arc::try_clone(&self.stored)?,
        })
    }

    /// The positions where a component of machines stands, in order. It costs what stands there.
    pub fn components(&self, alloc: Global) -> Result<Vec<Pos>, AllocError>
        ensures { IfOk result (λ found. found.items ≡ components_of self.now) }
    {
        self.stored.components(alloc)
    }

    /// The positions where a device stands, in order. It costs what stands there.
    pub fn devices(&self, alloc: Global) -> Result<Vec<Pos>, AllocError>
        ensures { IfOk result (λ found. found.items ≡ devices_of self.now) }
    {
        self.stored.devices(alloc)
    }

    /// Marks where something of a kind stands in a layer of this sector, in the page that has that
    /// layer; none where nothing of it stands there.
    #[inline(always)]
    pub fn marks_in_layer(&self, kind: MarkKind, y: u32) -> Option<&Page>
        requires { y < HIGH_HEIGHT }
        ensures { AreInLayer (λ p. is_of kind (cell_at self.now p)) self.now y
            (option_copied result) }
    {
        self.stored.marks_in_layer(kind, y)
    }

    /// In which of so many columns of a row of a layer of this sector, from that one on, a component
    /// of machines stands, a bit for each.
    #[inline(always)]
    pub fn components_in_row(&self, x: u32, y: u32, z: u32, count: u32) -> u64
        requires here { holds self.now (place x y z) ≡ true }
        requires within { x % span self.now.bounds + count ≤ span self.now.bounds }
        ensures { AreInRow (λ p. is_component (cell_at self.now p)) x y z count result }
    {
        let bounds = self.bounds();
        bounds.soundness();
        let Some(page) = self.marks_in_layer(MarkKind::Component, y) else {
            return 0;
        };
        let p = Pos::new(x as i32, y as i32, z as i32);
        page.run(bounds.index_in_sector(p) % PAGE, count)
    }

    /// How many components of machines stand in this sector. No clause tells the number, since
    /// nothing but costs rests on it.
    pub fn component_count(&self) -> u32 {
        self.stored.component_count()
    }

    /// Whether a device stands in this sector. It costs a look at each 4,096 of its cells.
    pub fn has_devices(&self) -> bool
        ensures { result ≡ nat_lt 0 (length (devices_of self.now)) }
    {
        self.stored.has_devices()
    }
}

impl PartialEq for Cells {
    ghost use Rattle.std.specs.Cmp.{partial_equiv_from_equiv};
    ghost use Rattle.vx_cells.specs.CellsLaws.{cells_equiv};
    ghost use Rattle.vx_cells.specs.SameCells.{same_cells};

    ghost eq = { same_cells };

    ghost laws = { partial_equiv_from_equiv cells_equiv };

    /// Whether both are the same sector of worlds of one size, with the same at each position,
    /// slots too.
    fn eq(&self, other: &Cells) -> bool {
        self.stored.is_same(&other.stored)
    }
}

impl Eq for Cells {
    ghost use Rattle.vx_cells.specs.CellsLaws.{cells_equiv};

    ghost laws = { cells_equiv };
}
