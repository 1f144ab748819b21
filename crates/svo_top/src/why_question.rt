//! The triangle and the cube that a question names.

ghost use Rattle.std.specs.Prelude.{◌≡◌, ◌+◌, ◌≤◌, ◌^◌, true, length, unsigned_abs, ◌+ℤ◌, IfSome};
ghost use Rattle.std.specs.List.{list_all};
ghost use Rattle.svo_base.specs.GridLimits.{is_within};
ghost use Rattle.octree_specs.specs.Meeting.{HasPlanes};
ghost use Rattle.svo_top.specs.WhyQuestion.{at, cube_from, is_cube, point_at, triangle_from};

use svo_base::{Cube, Point, Triangle};

/// The greatest size of a triangle's coordinate.
const COORDINATE_LIMIT: u64 = 1 << 30;

/// The greatest size of a coordinate of a cube's lower corner, and the greatest side.
const CUBE_LIMIT: u64 = 1 << 32;

/// The triangle with these corners, if none of the coordinates has a size above 2^30.
#[tactic(auto, unfolding(crate::specs::WhyQuestion::triangle_from))]
pub fn triangle_of(numbers: &[i64; 9]) -> Option<Triangle>
    ensures { result ≡ triangle_from numbers.now }
{
    if !are_within(numbers, COORDINATE_LIMIT) {
        return None;
    }
    Some(Triangle {
        a: point(numbers, 0),
        b: point(numbers, 3),
        c: point(numbers, 6),
    })
}

/// The closed cube of a lower corner and a side, if no coordinate has a size above 2^32 and the side is
/// from 1 to 2^32.
#[tactic(auto, unfolding(crate::specs::WhyQuestion::cube_from))]
pub fn cube_of(numbers: &[i64; 4]) -> Option<Cube>
    ensures cube { result ≡ cube_from numbers.now }
    ensures planes { IfSome result HasPlanes }
{
    if !is_cube(numbers) {
        return None;
    }
    Some(Cube {
        lo: [part(numbers, 0), part(numbers, 1), part(numbers, 2)],
        hi: [upper(numbers, 0), upper(numbers, 1), upper(numbers, 2)],
    })
}

/// Whether the numbers are a cube's lower corner and its side.
fn is_cube(numbers: &[i64; 4]) -> bool
    ensures { result ≡ is_cube numbers.now }
{
    are_within(numbers, CUBE_LIMIT) && numbers[3] >= 1
}

/// Whether each number has a size of at most a limit.
fn are_within(numbers: &[i64], limit: u64) -> bool
    ensures { result ≡ list_all (is_within limit) numbers.now }
{
    numbers.iter().all(|number| number.unsigned_abs() <= limit)
}

/// The point of three coordinates in a row.
fn point(numbers: &[i64; 9], from: usize) -> Point
    requires within { list_all (is_within (2 ^ 30)) numbers.now ≡ true }
    requires place { from ≤ 6 }
    ensures { result ≡ point_at numbers.now from }
{
    Point {
        x: coordinate(numbers, from),
        y: coordinate(numbers, from + 1),
        z: coordinate(numbers, from + 2),
    }
}

/// A coordinate of a triangle.
fn coordinate(numbers: &[i64; 9], place: usize) -> i32
    requires within { list_all (is_within (2 ^ 30)) numbers.now ≡ true }
    requires place { place ≤ 8 }
    ensures { result ≡ at numbers.now place }
{
    numbers[place] as i32
}

/// A coordinate of a cube's lower corner, or its side.
fn part(numbers: &[i64; 4], place: usize) -> i64
    requires cube { is_cube numbers.now ≡ true }
    requires place { place ≤ 3 }
    ensures value { result ≡ at numbers.now place }
    ensures within { unsigned_abs result ≤ 2 ^ 32 }
{
    numbers[place]
}

/// The upper plane of a cube across an axis.
fn upper(numbers: &[i64; 4], axis: usize) -> i64
    requires cube { is_cube numbers.now ≡ true }
    requires axis { axis ≤ 2 }
    ensures value { result ≡ (at numbers.now axis +ℤ at numbers.now 3) }
    ensures within { unsigned_abs result ≤ 2 ^ 33 }
{
    part(numbers, axis) + part(numbers, 3)
}
