//! The centres of a column that lie below a triangle's plane.

ghost use Rattle.std.specs.Prelude.{◌≡◌, ℕ, ◌+◌, ◌*◌, ◌^◌, ◌<◌, ◌≤◌, true, false, unsigned_abs};
ghost use Rattle.solid_parity.specs.Parity.{have_opposite_signs};
ghost use Rattle.solid_parity.specs.Heights.{height_at, side_at, is_above_at, AreNear, AreLowest};

use tri_cube::scaled;

/// A column of centres and a triangle's plane. Centre `place`, counted upwards from 0, is
/// `low + step * place` above the triangle's first corner, and on the side of the plane that the sign
/// of `base + slope * (low + step * place)` says.
#[derive(Clone, Copy, Debug, PartialEq, Eq)]
pub struct Heights {
    pub slope: i128,
    pub base: i128,
    pub low: i64,
    pub step: u64,
}

/// How many of so many centres the plane passes above. These are the lowest ones, so they are
/// counted by halving.
pub fn number_below(heights: &Heights, count: u32) -> u32
    requires { AreNear heights.now count }
    ensures { AreLowest heights.now count result }
{
    let mut from = 0;
    let mut to = count;
    while from < to {
        let middle = from + (to - from) / 2;
        if is_above(heights, middle) {
            from = middle + 1;
        } else {
            to = middle;
        }
    }
    from
}

/// Whether the plane passes above a centre, and not through it.
#[tactic(auto, unfolding(crate::specs::Heights::is_above_at))]
fn is_above(heights: &Heights, place: u32) -> bool
    requires near { AreNear heights.now (place + 1) }
    ensures { result ≡ is_above_at heights.now place }
{
    have_opposite_signs(&heights.slope, &side(heights, place))
}

/// The side of the plane on which a centre is.
fn side(heights: &Heights, place: u32) -> i128
    requires near { AreNear heights.now (place + 1) }
    ensures { result ≡ side_at heights.now place }
{
    heights.base + scaled(heights.slope, height(heights, place))
}

/// The height of a centre above the triangle's first corner.
fn height(heights: &Heights, place: u32) -> i64
    requires near { AreNear heights.now (place + 1) }
    ensures value { result ≡ height_at heights.now place }
    ensures within { unsigned_abs result ≤ 2 ^ 34 }
{
    heights.low + (heights.step * u64::from(place)) as i64
}

/// Whether one number is above 0 and the other below.
fn have_opposite_signs(m: &i128, n: &i128) -> bool
    ensures { result ≡ have_opposite_signs m.now n.now }
{
    (*m > 0 && *n < 0) || (*m < 0 && *n > 0)
}
