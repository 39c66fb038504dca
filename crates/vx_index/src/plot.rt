ghost use Rattle.std.specs.Prelude.{◌≡◌, ℕ, false, Option, option_copied, IfOk};
ghost use Rattle.vx_geom.specs.Outline.{Outline};
ghost use Rattle.vx_index.specs.Tiles.{TellsOf};
ghost use Rattle.vx_index.specs.Shapes.{Shapes, renewed_at};
ghost use Rattle.vx_index.specs.Squares.{IsSquare};
ghost use Rattle.vx_index.specs.Touching.{AreTouched};

use crate::cut::Cut;
use crate::tile::Tile;
use crate::touched::Touched;
use std::alloc::{AllocError, Global};
use std::marker::Model;
use std::sync::Arc;

/// A tile as a land holds it: copies of the land share it. Contracts see it as the tile.
#[derive(Drop)]
pub(crate) struct Plot {
    tile: Arc<Tile>,
}

impl Model for Plot {
    ghost use Rattle.std.specs.Arc.{arc_value};
    ghost use Rattle.vx_index.specs.Squares.{IsSquare};
    ghost use Rattle.vx_index.specs.declared.tile.Tile.{Tile};

    ghost Value = { Tile };

    ghost view = { λ a. arc_value a.tile };

    ghost invariant = { λ a. IsSquare (arc_value a.tile).columns };
}

impl Plot {
    /// This tile, which nothing shares yet.
    pub(crate) fn new(alloc: Global, tile: Tile) -> Result<Plot, AllocError>
        requires square { IsSquare tile.columns }
        ensures { IfOk result (λ plot. plot ≡ tile) }
    {
        Ok(Plot {
            tile: Arc::new(alloc, tile)?,
        })
    }

    /// The tile, to read.
    pub(crate) fn tile(&self) -> &Tile
        ensures { result.now ≡ self.now }
    {
        &self.tile
    }

    /// A copy, which shares the tile.
    pub(crate) fn try_clone(&self) -> Result<Plot, AllocError>
        ensures { IfOk result (λ copy. copy ≡ self.now) }
    {
        Ok(Plot {
            tile: Arc::try_clone(&self.tile)?,
        })
    }

    /// Whether the region lies in the plot, before or after the change of its shape. Where it does
    /// not, the tile tells of all shapes after the change too.
    pub(crate) fn is_touched(&self, touched: &Touched) -> bool
        ensures { result ≡ false → (shapes : Shapes) (number : ℕ) (shape : Option Outline)
            → TellsOf shapes self.now → AreTouched (shapes number) shape touched.now
            → TellsOf (renewed_at shapes number shape) self.now }
    {
        touched.touches(self.tile.columns())
    }

    /// The plot of the same columns, where the region of that number has this shape, or is gone. It
    /// is never inlined: a walk over all plots of a row, of which few are touched, would pay for it
    /// at each.
    #[inline(never)]
    pub(crate) fn renewed(
        &self,
        alloc: Global,
        number: u32,
        shape: Option<&Cut>,
    ) -> Result<Plot, AllocError>
        ensures of { (shapes : Shapes) → TellsOf shapes self.now
            → IfOk result (TellsOf (renewed_at shapes number (option_copied shape.entry))) }
        ensures columns { IfOk result (λ plot. plot.columns ≡ self.now.columns) }
    {
        Plot::new(alloc, self.tile.renewed(alloc, number, shape)?)
    }
}
