//! What of each coordinate lies within so many steps.
ghost use Rattle.std.specs.Prelude.{◌≡◌, ◌+◌, ◌%◌, ◌<◌, ◌≤◌, pos, ◌-ℤ◌, unsigned_abs};
ghost use Rattle.vx_geom.specs.Sizes.{span};
ghost use Rattle.vx_geom.specs.declared.bounds.TheConstants.{HIGH_HEIGHT, MAX_COLUMNS_EACH_WAY};
ghost use Rattle.vx_places.specs.Around.{least_within, end_within, shared_columns};

use vx_geom::Bounds;

/// The least of the numbers from 0 up to below `count` that are at most so many steps from a
/// coordinate, if there are any.
#[tactic(auto, using(vx_base::proofs::Signed::signed), unfolding(crate::specs::Around::least_within))]
pub fn least_within(c: i32, steps: u32, count: u32) -> u32
    ensures { result ≡ least_within c steps count }
{
    if c < 0 {
        0
    } else {
        c.unsigned_abs().saturating_sub(steps).min(count)
    }
}

/// One more than the greatest of them.
#[tactic(auto, using(vx_base::proofs::Signed::signed), unfolding(crate::specs::Around::end_within))]
pub fn end_within(c: i32, steps: u32, count: u32) -> u32
    requires { steps ≤ 8 }
    ensures { result ≡ end_within c steps count }
{
    if c < 0 {
        (steps + 1).saturating_sub(c.unsigned_abs()).min(count)
    } else {
        (c.unsigned_abs() + steps + 1).min(count)
    }
}

/// How many steps lead from a coordinate to a number.
pub fn steps_along(c: i32, n: u32) -> u32
    requires { n ≤ MAX_COLUMNS_EACH_WAY }
    ensures { result ≡ unsigned_abs (c -ℤ pos n) }
{
    c.abs_diff(n as i32)
}

/// How many layers a world has.
pub fn layers(bounds: Bounds) -> u32
    ensures value { result ≡ bounds.h }
    ensures most { result ≤ HIGH_HEIGHT }
{
    bounds.soundness();
    bounds.height()
}

/// How many columns from that one on lie in one sector of a world of this size, and also in one of
/// a world of that size.
// Each width stands as a number, so that the machine need not divide.
#[inline(always)]
#[tactic(auto, unfolding(crate::specs::Around::shared_columns))]
pub fn shared_columns(one: Bounds, other: Bounds, x: u32) -> u32
    ensures value { result ≡ shared_columns one other x }
    ensures some { 0 < result }
    ensures here { x % span one + result ≤ span one }
    ensures there { x % span other + result ≤ span other }
{
    one.soundness();
    other.soundness();
    if one.span() > 16 && other.span() > 16 {
        32 - x % 32
    } else {
        16 - x % 16
    }
}
