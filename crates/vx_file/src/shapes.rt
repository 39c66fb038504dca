//! What the table of a region says of its shape.
ghost use Rattle.std.specs.Prelude.{◌≡◌, option_map};
ghost use Rattle.toml.specs.View.{view, table_view};
ghost use Rattle.vx_geom.specs.Written.{written};
ghost use Rattle.vx_base.specs.Unread.{Gives};
ghost use Rattle.vx_file.specs.FileValues.{corners_of};
ghost use Rattle.vx_file.specs.RegionsFile.{polygon_of, shape_of, shape_in};

use crate::keys::value_at;
use crate::values::{columns, heights, numbers};
use std::alloc::Global;
use toml::{Table, Value};
use vx_base::Unread;
use vx_geom::{Pos, ShapeSpec};

/// The shape of a region: `cuboid`, or `polygon` with `y`.
#[tactic(auto, unfolding(crate::specs::RegionsFile::shape_in))]
pub fn shape(alloc: Global, table: &Table) -> Result<ShapeSpec, Unread>
    ensures { Gives written result (shape_in (table_view table.now)) }
{
    let cuboid = value_at(table, "cuboid");
    let polygon = value_at(table, "polygon");
    let y = value_at(table, "y");
    shape_of(alloc, cuboid, polygon, y)
}

#[tactic(auto, unfolding(crate::specs::RegionsFile::shape_of))]
fn shape_of(
    alloc: Global,
    cuboid: Option<&Value>,
    polygon: Option<&Value>,
    y: Option<&Value>,
) -> Result<ShapeSpec, Unread>
    ensures { Gives written result
        (shape_of (option_map (λ v. view v.now) cuboid.entry)
        (option_map (λ v. view v.now) polygon.entry) (option_map (λ v. view v.now) y.entry)) }
{
    match (cuboid, polygon, y) {
        (Some(corners), None, None) => cuboid_of(&numbers(alloc, corners)?),
        (None, Some(points), Some(ends)) => polygon_of(alloc, points, ends),
        _ => Err(Unread::Faulty),
    }
}

#[tactic(auto, unfolding(crate::specs::FileValues::corners_of))]
fn cuboid_of(numbers: &[i32]) -> Result<ShapeSpec, Unread>
    ensures { Gives written result (corners_of numbers.now) }
{
    match numbers {
        [x, y, z, to_x, to_y, to_z] => {
            let from = corner(x, y, z);
            let to = corner(to_x, to_y, to_z);
            Ok(ShapeSpec::Cuboid(from, to))
        }
        _ => Err(Unread::Faulty),
    }
}

fn corner(x: &i32, y: &i32, z: &i32) -> Pos
    ensures { result ≡ record { y = y.now; z = z.now; x = x.now } }
{
    Pos::new(*x, *y, *z)
}

#[tactic(auto, unfolding(crate::specs::RegionsFile::polygon_of))]
fn polygon_of(alloc: Global, points: &Value, ends: &Value) -> Result<ShapeSpec, Unread>
    ensures { Gives written result (polygon_of (view points.now) (view ends.now)) }
{
    let columns = columns(alloc, points)?;
    let Some((low, high)) = heights(&numbers(alloc, ends)?) else {
        return Err(Unread::Faulty);
    };
    Ok(ShapeSpec::Poly(columns, low, high))
}
