ghost use Rattle.std.specs.Prelude.{ℤ, pos, neg_ℤ, ◌≡◌, ◌+ℤ◌, ◌-ℤ◌, ◌*ℤ◌, ◌<ℤ◌, ◌≤ℤ◌, ◌^◌, FitsSigned, int_div, None, true};
ghost use Rattle.std.specs.Int.{w32};
ghost use Rattle.vx_geom.specs.Polygon.{cross, edges, is_between, in_box, on_edge, spans, passes_east, meets_ray, in_polygon};
ghost use Rattle.vx_geom.specs.Row.{LiesWithin, shift, crossing, along, stretch, reaches, joined, with_edge, with_edges};

use crate::extent::Extent;
use crate::pos::Pos;

/// Whether the position's column is on an edge of the polygon or inside by the even-odd rule. Edges
/// may cross one another.
#[tactic(auto, unfolding(crate::specs::Polygon::in_polygon, crate::specs::Polygon::is_enclosed))]
pub(crate) fn in_polygon(points: &[(i32, i32)], p: &Pos) -> bool
    ensures { result ≡ in_polygon points.now p.now }
{
    let Some(last) = points.last() else {
        return false;
    };
    let mut from = *last;
    let mut met: usize = 0;
    for to in points {
        if on_edge(&from, to, p) {
            return true;
        }
        if meets_ray(&from, to, p) {
            met += 1;
        }
        from = *to;
    }
    met % 2 == 1
}

/// The columns of the row `z` from the first to the last that an edge of the polygon meets, if one
/// does.
pub(crate) fn row_of(points: &[(i32, i32)], z: i32) -> Option<Extent>
    ensures { result ≡ with_edges z None (edges points.now) }
{
    let mut from = *points.last()?;
    let mut row = None;
    for to in points {
        row = with_edge(row, &from, to, z);
        from = *to;
    }
    row
}

#[tactic(auto, using(vx_base::proofs::Signed::signed), unfolding(crate::specs::Row::with_edge))]
fn with_edge(row: Option<Extent>, a: &(i32, i32), b: &(i32, i32), z: i32) -> Option<Extent>
    ensures { result ≡ with_edge z row (a.now, b.now) }
{
    if !reaches(a, b, z) {
        return row;
    }
    let more = stretch(a, b, z);
    Some(match row {
        Some(row) => joined(&row, &more),
        None => more,
    })
}

#[tactic(auto, using(vx_base::proofs::Signed::signed), unfolding(crate::specs::Row::reaches))]
fn reaches(a: &(i32, i32), b: &(i32, i32), z: i32) -> bool
    ensures { result ≡ reaches z (a.now, b.now) }
{
    is_between(a.1, b.1, z)
}

#[tactic(auto, using(vx_base::proofs::Signed::signed), unfolding(crate::specs::Row::joined))]
fn joined(row: &Extent, more: &Extent) -> Extent
    ensures { result ≡ joined row.now more.now }
{
    Extent {
        west: row.west.min(more.west),
        east: row.east.max(more.east),
        north: row.north,
        south: row.south,
    }
}

#[tactic(auto, using(vx_base::proofs::Signed::signed), unfolding(crate::specs::Row::stretch))]
fn stretch(a: &(i32, i32), b: &(i32, i32), z: i32) -> Extent
    requires { reaches z (a.now, b.now) ≡ true }
    ensures { result ≡ stretch z (a.now, b.now) }
{
    if a.1 < b.1 {
        crossing(a, b, z)
    } else if b.1 < a.1 {
        crossing(b, a, z)
    } else {
        along(a, b, z)
    }
}

#[tactic(auto, using(vx_base::proofs::Signed::signed), unfolding(crate::specs::Row::along))]
fn along(a: &(i32, i32), b: &(i32, i32), z: i32) -> Extent
    ensures { result ≡ along a.now b.now z }
{
    Extent {
        west: a.0.min(b.0),
        east: a.0.max(b.0),
        north: z,
        south: z,
    }
}

#[tactic(auto, using(vx_base::proofs::Signed::signed), unfolding(crate::specs::Row::crossing))]
fn crossing(a: &(i32, i32), b: &(i32, i32), z: i32) -> Extent
    requires below { a.now.1 <ℤ b.now.1 }
    requires from { a.now.1 ≤ℤ z }
    requires to { z ≤ℤ b.now.1 }
    ensures { result ≡ crossing a.now b.now z }
{
    let x = (i64::from(a.0) + shift(a, b, z)) as i32;
    Extent {
        west: x,
        east: x,
        north: z,
        south: z,
    }
}

// How far east of a the way to b meets the row. The column there lies between those of the ends.
fn shift(a: &(i32, i32), b: &(i32, i32), z: i32) -> i64
    requires below { a.now.1 <ℤ b.now.1 }
    requires from { a.now.1 ≤ℤ z }
    requires to { z ≤ℤ b.now.1 }
    ensures value { result ≡ shift a.now b.now z }
    ensures fits { FitsSigned w32 (a.now.0 +ℤ result) }
{
    share(gap(a.0, b.0), gap(a.1, z), gap(a.1, b.1))
}

// The part of a gap that stands for so much of the whole way, cut to a whole number.
fn share(gap: i64, way: i64, whole: i64) -> i64
    requires gap_low { neg_ℤ (pos (2 ^ 32)) ≤ℤ gap }
    requires gap_high { gap ≤ℤ pos (2 ^ 32) }
    requires way_low { pos 0 ≤ℤ way }
    requires way_high { way ≤ℤ whole }
    requires whole_low { pos 0 <ℤ whole }
    requires whole_high { whole ≤ℤ pos (2 ^ 32) }
    ensures value { result ≡ int_div (gap *ℤ way) whole }
    ensures within { LiesWithin gap result }
{
    (product(gap, way) / i128::from(whole)) as i64
}

#[tactic(auto, unfolding(crate::specs::Polygon::on_edge))]
fn on_edge(a: &(i32, i32), b: &(i32, i32), p: &Pos) -> bool
    ensures { result ≡ on_edge p.now (a.now, b.now) }
{
    in_box(a, b, p) && cross(a, b, p) == 0
}

#[tactic(auto, unfolding(crate::specs::Polygon::meets_ray))]
fn meets_ray(a: &(i32, i32), b: &(i32, i32), p: &Pos) -> bool
    ensures { result ≡ meets_ray p.now (a.now, b.now) }
{
    passes_east(a, b, p) || passes_east(b, a, p)
}

#[tactic(auto, unfolding(crate::specs::Polygon::passes_east))]
fn passes_east(a: &(i32, i32), b: &(i32, i32), p: &Pos) -> bool
    ensures { result ≡ passes_east a.now b.now p.now }
{
    spans(a, b, p) && 0 < cross(a, b, p)
}

#[tactic(auto, using(vx_base::proofs::Signed::signed), unfolding(crate::specs::Polygon::spans))]
fn spans(a: &(i32, i32), b: &(i32, i32), p: &Pos) -> bool
    ensures { result ≡ spans a.now b.now p.now }
{
    a.1 <= p.z && p.z < b.1
}

#[tactic(auto, using(vx_base::proofs::Signed::signed), unfolding(crate::specs::Polygon::in_box))]
fn in_box(a: &(i32, i32), b: &(i32, i32), p: &Pos) -> bool
    ensures { result ≡ in_box a.now b.now p.now }
{
    is_between(a.0, b.0, p.x) && is_between(a.1, b.1, p.z)
}

#[tactic(auto, unfolding(crate::specs::Polygon::is_between))]
fn is_between(a: i32, b: i32, c: i32) -> bool
    ensures { result ≡ is_between a b c }
{
    a.min(b) <= c && c <= a.max(b)
}

// The gaps of coordinates have up to 33 bits, their products 65 and the difference of these 66.
#[tactic(auto, using(vx_base::proofs::Signed::signed), unfolding(crate::specs::Polygon::cross))]
fn cross(a: &(i32, i32), b: &(i32, i32), p: &Pos) -> i128
    ensures { result ≡ cross a.now b.now p.now }
{
    let first = product(gap(a.0, b.0), gap(a.1, p.z));
    let second = product(gap(a.1, b.1), gap(a.0, p.x));
    difference(first, second)
}

fn gap(from: i32, to: i32) -> i64
    ensures value { result ≡ to -ℤ from }
    ensures low { neg_ℤ (pos (2 ^ 32)) ≤ℤ result }
    ensures high { result ≤ℤ pos (2 ^ 32) }
{
    i64::from(to) - i64::from(from)
}

fn product(a: i64, b: i64) -> i128
    requires a_low { neg_ℤ (pos (2 ^ 32)) ≤ℤ a }
    requires a_high { a ≤ℤ pos (2 ^ 32) }
    requires b_low { neg_ℤ (pos (2 ^ 32)) ≤ℤ b }
    requires b_high { b ≤ℤ pos (2 ^ 32) }
    ensures value { result ≡ a *ℤ b }
    ensures low { neg_ℤ (pos (2 ^ 64)) ≤ℤ result }
    ensures high { result ≤ℤ pos (2 ^ 64) }
{
    i128::from(a) * i128::from(b)
}

fn difference(a: i128, b: i128) -> i128
    requires a_low { neg_ℤ (pos (2 ^ 64)) ≤ℤ a }
    requires a_high { a ≤ℤ pos (2 ^ 64) }
    requires b_low { neg_ℤ (pos (2 ^ 64)) ≤ℤ b }
    requires b_high { b ≤ℤ pos (2 ^ 64) }
    ensures { result ≡ a -ℤ b }
{
    a - b
}
