ghost use Rattle.std.specs.Prelude.{◌≡◌, true, option_copied, Contains, IfOk, IfSome};
ghost use Rattle.std.specs.List.{All};
ghost use Rattle.vx_geom.specs.Extent.{is_within};
ghost use Rattle.vx_decide.specs.Unset.{IsUnset};
ghost use Rattle.vx_decide.specs.Verdict.{verdict};
ghost use Rattle.vx_index.specs.Tiles.{TellsOf};
ghost use Rattle.vx_index.specs.Lands.{IsLandOf, joined};
ghost use Rattle.vx_index.specs.Shapes.{Shapes, renewed_at, shape_at, with_at, without_at};
ghost use Rattle.vx_index.specs.Touching.{AreTouched};
ghost use Rattle.vx_region.specs.Subjects.{actor_of};

use crate::patches::SIDE;
use crate::row::{ACROSS, Row};
use crate::tile::Tile;
use crate::touched::Touched;
use std::alloc::{AllocError, Global};
use std::marker::Model;
use std::sync::Arc;
use vx_decide::{Asker, Decide, Plain, Verdict};
use vx_flag::{Action, Flag};
use vx_geom::{Pos, Shape};
use vx_region::{RegionNo, RegionSet, Subject};

/// Where regions lie in the widest world, tile by tile. It depends on their shapes alone. Copies
/// share it, and a land that differs by one region shares the rows and the tiles that tell the
/// same. Contracts see it as its tiles.
pub struct Land {
    // From the north.
    rows: Arc<Vec<Row>>,
}

impl Model for Land {
    ghost use Rattle.std.specs.Prelude.{List};
    ghost use Rattle.std.specs.Arc.{arc_value};
    ghost use Rattle.vx_index.specs.Lands.{joined};
    ghost use Rattle.vx_index.specs.declared.tile.Tile.{Tile};

    ghost Value = { List Tile };

    ghost view = { λ a. joined (arc_value a.rows).items };
}

// Written out, so that what is above this crate need not prove how its parts are let go.
impl Drop for Land {
    fn drop(self) {
        let Land { rows: _rows } = self;
    }
}

impl Land {
    /// The land of these regions. It costs a look at each region for each tile.
    pub fn of(alloc: Global, regions: &RegionSet) -> Result<Land, AllocError>
        ensures { IfOk result (IsLandOf (shape_at regions.now)) }
    {
        let mut rows = Vec::with_capacity(alloc, ACROSS as usize)?;
        for row in 0..ACROSS {
            rows.push(Row::of(alloc, regions, SIDE * row)?)?;
        }
        Land::made(alloc, rows)
    }

    // The land of these rows.
    fn made(alloc: Global, rows: Vec<Row>) -> Result<Land, AllocError>
        ensures { IfOk result (λ land. land ≡ joined rows.items) }
    {
        Ok(Land {
            rows: Arc::new(alloc, rows)?,
        })
    }

    /// A copy, which shares all.
    pub fn try_clone(&self) -> Result<Land, AllocError>
        ensures { IfOk result (λ copy. copy ≡ self.now) }
    {
        Ok(Land {
            rows: Arc::try_clone(&self.rows)?,
        })
    }

    /// The land of these regions where the one of that number, which may be new, has this shape.
    /// This one stays as it is. Only the tiles in which the shape or the one before it lies, and
    /// their rows, take memory of their own.
    pub fn put(
        &self,
        alloc: Global,
        regions: &RegionSet,
        number: RegionNo,
        shape: &Shape,
    ) -> Result<Land, AllocError>
        requires { IsLandOf (shape_at regions.now) self.now }
        ensures { IfOk result (IsLandOf (with_at (shape_at regions.now) number.0 shape.now)) }
    {
        self.renewed(alloc, regions, number, Some(shape))
    }

    /// The land of these regions without the one of that number. This one stays as it is. Only the
    /// tiles in which that region lies, and their rows, take memory of their own.
    pub fn without(
        &self,
        alloc: Global,
        regions: &RegionSet,
        number: RegionNo,
    ) -> Result<Land, AllocError>
        requires { IsLandOf (shape_at regions.now) self.now }
        ensures { IfOk result (IsLandOf (without_at (shape_at regions.now) number.0)) }
    {
        self.renewed(alloc, regions, number, None)
    }

    // The land of these regions where the one of that number has this shape, or is gone.
    fn renewed(
        &self,
        alloc: Global,
        regions: &RegionSet,
        number: RegionNo,
        shape: Option<&Shape>,
    ) -> Result<Land, AllocError>
        requires { IsLandOf (shape_at regions.now) self.now }
        ensures { IfOk result (IsLandOf
            (renewed_at (shape_at regions.now) number.0 (option_copied shape.entry))) }
    {
        let touched = Touched::of(regions, number, shape);
        let rows = renewed_rows(alloc, &self.rows, number.0, shape, &touched)?;
        Land::made(alloc, rows)
    }

    /// Whether the subject may do this at the place, and the rule that says so, by these regions;
    /// these flags are set nowhere. It costs the regions near the place, or those of its tile
    /// where many are near, and takes no memory. For each region with domains that a machine is
    /// asked about it costs a look at the regions of the tile in which the machine stands. Outside
    /// the widest world it walks all.
    pub fn decide(
        &self,
        regions: &RegionSet,
        unset: &[Flag],
        subject: &Subject,
        action: Action,
        p: Pos,
    ) -> Verdict
        requires land { IsLandOf (shape_at regions.now) self.now }
        requires unset { All (IsUnset regions.now) unset.now }
        ensures { result ≡ verdict regions.now (actor_of subject.now) action p }
    {
        match self.tile_at(p) {
            Some(tile) => tile.decide(&self.asker(regions, subject), unset, action, p),
            None => Plain::new(regions).decide(subject, action, p),
        }
    }

    /// The verdict of these regions where few of them are near the place; `None` where more are,
    /// and outside the widest world.
    pub(crate) fn decide_by_few(
        &self,
        regions: &RegionSet,
        unset: &[Flag],
        subject: &Subject,
        action: Action,
        p: Pos,
    ) -> Option<Verdict>
        requires land { IsLandOf (shape_at regions.now) self.now }
        requires unset { All (IsUnset regions.now) unset.now }
        ensures { IfSome result
            (λ answer. answer ≡ verdict regions.now (actor_of subject.now) action p) }
    {
        self.tile_at(p)?
            .decide_by_few(&self.asker(regions, subject), unset, action, p)
    }

    // The subject as one who asks of these regions. Where it is a machine its hosts are those of
    // the tile in which it stands; outside the widest world they are all.
    fn asker<'a>(&'a self, regions: &'a RegionSet, subject: &'a Subject) -> Asker<'a>
        requires { IsLandOf (shape_at regions.now) self.now }
        ensures regions { result.regions.now ≡ regions.now }
        ensures subject { result.subject.now ≡ subject.now }
    {
        let Subject::Machine(place) = subject else {
            return Asker::new(regions, subject);
        };
        match self.tile_at(*place) {
            Some(tile) => tile.asker(regions, subject),
            None => Asker::new(regions, subject),
        }
    }

    // The tile that holds the position, where that lies in the widest world.
    fn tile_at(&self, p: Pos) -> Option<&Tile>
        ensures among { IfSome result (λ tile. Contains self.now tile.now) }
        ensures within { IfSome result (λ tile. is_within tile.now.columns p ≡ true) }
    {
        let (row, column) = indices_of(p)?;
        let tile = self.rows.get(row)?.tile(column)?;
        if !tile.holds(p) {
            return None;
        }
        Some(tile)
    }
}

// These rows where the region of that number has this shape, or is gone. Those in which neither the
// shape nor the one before it lies are shared.
fn renewed_rows(
    alloc: Global,
    rows: &[Row],
    number: u32,
    shape: Option<&Shape>,
    touched: &Touched,
) -> Result<Vec<Row>, AllocError>
    ensures { (shapes : Shapes) → All (All (TellsOf shapes)) rows.now
        → AreTouched (shapes number) (option_copied shape.entry) touched.now
        → IfOk result (λ after.
        All (All (TellsOf (renewed_at shapes number (option_copied shape.entry)))) after.items) }
{
    let touched = *touched;
    let mut after = Vec::with_capacity(alloc, rows.len())?;
    for row in rows {
        if row.is_touched(&touched) {
            after.push_reserved(row.renewed(alloc, number, shape, &touched)?);
        } else {
            after.push_reserved(row.try_clone()?);
        }
    }
    Ok(after)
}

// The indices of the row and of the tile in it that hold the position, where that lies in the
// widest world.
fn indices_of(p: Pos) -> Option<(usize, usize)> {
    let column = u32::try_from(p.x).ok()? / SIDE;
    let row = u32::try_from(p.z).ok()? / SIDE;
    Some((row as usize, column as usize))
}
