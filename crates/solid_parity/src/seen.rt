//! Triangles and columns as seen along z, in doubled coordinates.

ghost use Rattle.std.specs.Prelude.{◌≡◌, ◌*◌, ◌^◌, ◌≤◌, ◌-ℤ◌, ◌*ℤ◌, int_lt, pos, unsigned_abs};
ghost use Rattle.octree_specs.specs.Vectors.{vector};
ghost use Rattle.solid_parity.specs.Parity.{rises, crosses, doubled, is_covered};
ghost use Rattle.solid_parity.specs.Seen.{seen, IsCorner, IsCentre};

use svo_base::Point;
use tri_cube::wide_product;

/// A corner of a triangle, or a column of centres.
#[derive(Clone, Copy, Debug, PartialEq, Eq)]
pub struct Seen {
    pub x: i64,
    pub y: i64,
}

/// A corner, doubled.
pub fn seen_corner(corner: &Point) -> Seen
    ensures x { result.x ≡ pos 2 *ℤ corner.now.x }
    ensures y { result.y ≡ pos 2 *ℤ corner.now.y }
    ensures within { IsCorner result }
{
    Seen {
        x: twice(&corner.x),
        y: twice(&corner.y),
    }
}

/// Twice a coordinate.
pub fn twice(coordinate: &i32) -> i64
    ensures value { result ≡ pos 2 *ℤ coordinate.now }
    ensures within { unsigned_abs result ≤ 2 ^ 32 }
{
    2 * i64::from(*coordinate)
}

/// Whether a ray along x from the column crosses the edge between two corners. Of its two ends the
/// lower one belongs to the edge.
#[tactic(auto, unfolding(crate::specs::Parity::crosses))]
pub fn crosses(u: &Seen, v: &Seen, q: &Seen) -> bool
    requires u { IsCorner u.now }
    requires v { IsCorner v.now }
    requires q { IsCentre q.now }
    ensures { result ≡ crosses (seen u.now) (seen v.now) (seen q.now) }
{
    rises(u, v, q) || rises(v, u, q)
}

/// Whether it does so where `u` is the lower end.
fn rises(u: &Seen, v: &Seen, q: &Seen) -> bool
    requires u { IsCorner u.now }
    requires v { IsCorner v.now }
    requires q { IsCentre q.now }
    ensures { result ≡ rises (seen u.now) (seen v.now) (seen q.now) }
{
    u.y <= q.y && q.y < v.y && has_on_left(u, v, q)
}

/// Whether `q` is on the left of the line that goes up from `u` to `v`.
fn has_on_left(u: &Seen, v: &Seen, q: &Seen) -> bool
    requires u { IsCorner u.now }
    requires v { IsCorner v.now }
    requires q { IsCentre q.now }
    ensures { result ≡ int_lt ((v.now.y -ℤ u.now.y) *ℤ (q.now.x -ℤ u.now.x)) ((v.now.x -ℤ u.now.x) *ℤ (q.now.y -ℤ u.now.y)) }
{
    minor_product(&u.y, &v.y, &u.x, &q.x) < minor_product(&u.x, &v.x, &u.y, &q.y)
}

/// The product of the ways from one corner to another and from a corner to a centre.
fn minor_product(u: &i64, v: &i64, from: &i64, to: &i64) -> i128
    requires u { unsigned_abs u.now ≤ 2 ^ 32 }
    requires v { unsigned_abs v.now ≤ 2 ^ 32 }
    requires from { unsigned_abs from.now ≤ 2 ^ 32 }
    requires to { unsigned_abs to.now ≤ 6 * 2 ^ 31 }
    ensures value { result ≡ (v.now -ℤ u.now) *ℤ (to.now -ℤ from.now) }
    ensures within { unsigned_abs result ≤ 2 ^ 68 }
{
    wide_product(way(u, v), way(from, to))
}

/// The way from a corner to a corner or a centre, along an axis.
pub fn way(from: &i64, to: &i64) -> i64
    requires from { unsigned_abs from.now ≤ 2 ^ 32 }
    requires to { unsigned_abs to.now ≤ 6 * 2 ^ 31 }
    ensures value { result ≡ to.now -ℤ from.now }
    ensures within { unsigned_abs result ≤ 2 ^ 34 }
{
    *to - *from
}
