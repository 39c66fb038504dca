ghost use Rattle.std.specs.Prelude.{◌≡◌, ◌≤◌, ℕ, false, Option, option_copied, Contains, IfOk, IfSome};
ghost use Rattle.std.specs.List.{All};
ghost use Rattle.vx_geom.specs.declared.bounds.TheConstants.{MAX_COLUMNS_EACH_WAY};
ghost use Rattle.vx_geom.specs.Outline.{Outline};
ghost use Rattle.vx_index.specs.Tiles.{IsTile, TellsOf};
ghost use Rattle.vx_index.specs.Plots.{LiesAlong};
ghost use Rattle.vx_index.specs.Shapes.{Shapes, renewed_at};
ghost use Rattle.vx_index.specs.Touching.{AreTouched};

use crate::cut::cut_along;
use crate::patches::{SIDE, square};
use crate::plot::Plot;
use crate::tile::Tile;
use crate::touched::Touched;
use std::alloc::{AllocError, Global};
use std::marker::Model;
use std::sync::Arc;
use vx_geom::{Extent, MAX_COLUMNS_EACH_WAY, Shape};
use vx_region::RegionSet;

/// The widest world has so many tiles from west to east, and from north to south.
pub(crate) const ACROSS: u32 = MAX_COLUMNS_EACH_WAY / SIDE;

/// The tiles of a land from the west to the east, at one distance from the north. Copies share
/// them. Contracts see it as its tiles.
#[derive(Drop)]
pub(crate) struct Row {
    // They lie as far from the north as those of each tile.
    columns: Extent,
    plots: Arc<Vec<Plot>>,
}

impl Model for Row {
    ghost use Rattle.std.specs.Prelude.{List};
    ghost use Rattle.std.specs.List.{All};
    ghost use Rattle.std.specs.Arc.{arc_value};
    ghost use Rattle.vx_index.specs.Plots.{LiesAlong};
    ghost use Rattle.vx_index.specs.declared.tile.Tile.{Tile};

    ghost Value = { List Tile };

    ghost view = { λ a. (arc_value a.plots).items };

    ghost invariant = { λ a. All (LiesAlong a.columns) (arc_value a.plots).items };
}

impl Row {
    /// The row of these regions that begins so far from the north. It costs a look at each region
    /// for each tile.
    pub(crate) fn of(alloc: Global, regions: &RegionSet, north: u32) -> Result<Row, AllocError>
        requires north { north ≤ MAX_COLUMNS_EACH_WAY }
        ensures { IfOk result (All (IsTile regions.now)) }
    {
        let columns = square(0, north);
        let mut plots = Vec::new(alloc);
        for column in 0..ACROSS {
            let tile = Tile::new(alloc, regions, SIDE * column, north)?;
            plots.push(Plot::new(alloc, tile)?)?;
        }
        Row::made(alloc, columns, plots)
    }

    // The row of these plots, which lie as far from the north as the columns.
    fn made(alloc: Global, columns: Extent, plots: Vec<Plot>) -> Result<Row, AllocError>
        requires { All (LiesAlong columns) plots.items }
        ensures { IfOk result (λ row. row ≡ plots.items) }
    {
        Ok(Row {
            columns,
            plots: Arc::new(alloc, plots)?,
        })
    }

    /// A copy, which shares all tiles.
    pub(crate) fn try_clone(&self) -> Result<Row, AllocError>
        ensures { IfOk result (λ copy. copy ≡ self.now) }
    {
        Ok(Row {
            columns: self.columns,
            plots: Arc::try_clone(&self.plots)?,
        })
    }

    /// The tile of that index from the west, if the row has so many.
    pub(crate) fn tile(&self, index: usize) -> Option<&Tile>
        ensures { IfSome result (λ tile. Contains self.now tile.now) }
    {
        Some(self.plots.get(index)?.tile())
    }

    /// Whether the region lies as far from the north as the row, before or after the change of its
    /// shape. Where it does not, the row tells of all shapes after the change too.
    pub(crate) fn is_touched(&self, touched: &Touched) -> bool
        ensures { result ≡ false → (shapes : Shapes) (number : ℕ) (shape : Option Outline)
            → All (TellsOf shapes) self.now → AreTouched (shapes number) shape touched.now
            → All (TellsOf (renewed_at shapes number shape)) self.now }
    {
        touched.touches_row(&self.columns)
    }

    /// The row where the region of that number has this shape, or is gone. The tiles in which
    /// neither the shape nor the one before it lies are shared. It is never inlined: a walk over
    /// all rows, of which few are touched, would pay for it at each.
    #[inline(never)]
    pub(crate) fn renewed(
        &self,
        alloc: Global,
        number: u32,
        shape: Option<&Shape>,
        touched: &Touched,
    ) -> Result<Row, AllocError>
        ensures { (shapes : Shapes) → All (TellsOf shapes) self.now
            → AreTouched (shapes number) (option_copied shape.entry) touched.now
            → IfOk result (All (TellsOf (renewed_at shapes number (option_copied shape.entry)))) }
    {
        let columns = self.columns;
        let touched = *touched;
        let cut = cut_along(alloc, shape, columns.north)?;
        let mut plots = Vec::with_capacity(alloc, self.plots.len())?;
        for plot in self.plots.iter() {
            if plot.is_touched(&touched) {
                plots.push_reserved(plot.renewed(alloc, number, cut.as_ref())?);
            } else {
                plots.push_reserved(plot.try_clone()?);
            }
        }
        Row::made(alloc, columns, plots)
    }
}
