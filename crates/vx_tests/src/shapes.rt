//! Positions, bounds and shapes where no world lies, and their copies.
use crate::same::same;
use std::alloc::{AllocError, Global};
use std::process::Abort;
use std::test::Fail;
use vx_geom::{Bounds, Dir, LOW_HEIGHT, Pos, Shape, ShapeSpec};

#[test]
fn steps_lead_to_the_neighbor_and_not_past_the_ends(rt: HostRuntime) {
    for (dir, x, y, z, is_up) in [
        (Dir::East, 2, 2, 3, true),
        (Dir::West, 0, 2, 3, false),
        (Dir::Up, 1, 3, 3, true),
        (Dir::Down, 1, 1, 3, false),
        (Dir::South, 1, 2, 4, true),
        (Dir::North, 1, 2, 2, false),
    ] {
        steps(&rt, dir, Pos::new(x, y, z), is_up);
    }
}

fn steps(rt: &impl Abort, dir: Dir, due: Pos, is_up: bool) {
    same(rt, &Pos::new(1, 2, 3).step(dir), &Some(due));
    let last = Pos::new(i32::MAX, i32::MAX, i32::MAX);
    same(rt, &last.step(dir).is_none(), &is_up);
    let first = Pos::new(i32::MIN, i32::MIN, i32::MIN);
    same(rt, &first.step(dir).is_none(), &!is_up);
}

#[test]
fn sectors_count_from_the_north_west(rt: HostRuntime) -> Result<(), Fail> {
    let bounds = Bounds::new(3, 2, 2, LOW_HEIGHT).ok_or("no bounds")?;
    same(
        &rt,
        &[bounds.sectors(), bounds.span(), bounds.sector_cells()],
        &[6, 32, 65_536],
    );
    for (x, z, sector) in [(0, 0, 0), (32, 31, 1), (95, 0, 2), (31, 32, 3), (95, 63, 5)] {
        same(&rt, &bounds.sector_of(Pos::new(x, 9, z)), &Some(sector));
    }
    Ok(())
}

// The half of all columns whose z is not below their x. The cross product of its longest edge and
// the way to the first position is 2^32 - 1 times 2^32 - 3, or 2^64 - 2^34 + 3. In 64 signed bits
// it would be 3 - 2^34, the other side of the edge.
#[test]
fn distances_may_be_as_great_as_the_numbers(rt: HostRuntime) -> Result<(), Fail> {
    let (first, last) = (i32::MIN, i32::MAX);
    let corners = [(first, first), (last, last), (first, last)];
    let half = polygon(rt.alloc(), &corners, first, last)?;
    for (x, y, z, is_in) in [
        (first + 1, 0, last - 1, true),
        (0, first, 0, true),
        (1, last, 0, false),
        (last - 1, 0, first + 1, false),
    ] {
        same(&rt, &half.contains(Pos::new(x, y, z)), &is_in);
    }
    Ok(())
}

#[test]
fn shapes_are_equal_where_their_parts_are(rt: HostRuntime) -> Result<(), Fail> {
    let triangle = polygon(rt.alloc(), &[(2, 2), (10, 2), (2, 10)], 0, 63)?;
    polygons_compare(&rt, rt.alloc(), &triangle)?;
    let cuboid = Shape::cuboid(Pos::new(2, 0, 2), Pos::new(10, 63, 10));
    assert!(rt; cuboid != triangle);
    cuboids_compare(&rt, rt.alloc(), &cuboid)
}

fn polygons_compare(rt: &impl Abort, alloc: Global, triangle: &Shape) -> Result<(), Fail> {
    is_its_copy(rt, alloc, triangle)?;
    differs(rt, alloc, triangle, &[(10, 2), (2, 10), (2, 2)], 63)?;
    differs(rt, alloc, triangle, &[(2, 2), (10, 2), (2, 10)], 62)
}

fn differs(
    rt: &impl Abort,
    alloc: Global,
    shape: &Shape,
    points: &[(i32, i32)],
    high: i32,
) -> Result<(), Fail> {
    let other = polygon(alloc, points, 0, high)?;
    assert!(rt; *shape != other);
    Ok(())
}

fn cuboids_compare(rt: &impl Abort, alloc: Global, cuboid: &Shape) -> Result<(), Fail> {
    is_cuboid(rt, cuboid, Pos::new(10, 0, 10), Pos::new(2, 63, 2), true);
    is_cuboid(rt, cuboid, Pos::new(2, 0, 2), Pos::new(10, 63, 11), false);
    Ok(is_its_copy(rt, alloc, cuboid)?)
}

fn is_cuboid(rt: &impl Abort, shape: &Shape, first: Pos, last: Pos, due: bool) {
    let other = Shape::cuboid(first, last);
    same(rt, &(*shape == other, *shape != other), &(due, !due));
}

fn is_its_copy(rt: &impl Abort, alloc: Global, shape: &Shape) -> Result<(), AllocError> {
    let copy = shape.try_clone(alloc)?;
    assert!(rt; *shape == copy);
    Ok(())
}

#[test]
fn a_copy_of_what_is_written_makes_the_same_shape(rt: HostRuntime) -> Result<(), Fail> {
    let alloc = rt.alloc();
    let cuboid = ShapeSpec::Cuboid(Pos::new(3, 1, 4), Pos::new(1, 5, 9));
    makes_the_same(&rt, alloc, cuboid)?;
    makes_the_same(&rt, alloc, written(alloc, &[(0, 0), (9, 0), (0, 9)])?)?;
    is_no_shape(&rt, written(alloc, &[(0, 0), (9, 0)])?);
    Ok(())
}

fn makes_the_same(rt: &impl Abort, alloc: Global, spec: ShapeSpec) -> Result<(), Fail> {
    let copy = spec.try_clone(alloc)?;
    assert!(rt; spec.is_shape() && copy.is_shape());
    are_one(rt, &copy.shape()?, &spec.shape()?);
    Ok(())
}

fn are_one(rt: &impl Abort, shape: &Shape, other: &Shape) {
    assert!(rt; *shape == *other);
}

fn is_no_shape(rt: &impl Abort, spec: ShapeSpec) {
    assert!(rt; !spec.is_shape() && spec.shape().is_err());
}

fn written(alloc: Global, points: &[(i32, i32)]) -> Result<ShapeSpec, AllocError> {
    Ok(ShapeSpec::Poly(Vec::from_slice(alloc, points)?, 2, 6))
}

fn polygon(alloc: Global, points: &[(i32, i32)], low: i32, high: i32) -> Result<Shape, Fail> {
    let points = Vec::from_slice(alloc, points)?;
    Ok(Shape::poly(points, low, high)?)
}
