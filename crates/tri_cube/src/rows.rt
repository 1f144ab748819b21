//! The rows of a triangle and a cube, with a number for each corner of the triangle. Weights of the
//! corners clear a row where their product with it is not negative. Weights that are not all zero
//! name a point of the cube where they clear all rows.

ghost use Rattle.std.specs.Prelude.{◌≡◌, ◌++◌, ◌^◌, ◌<◌, ◌≤◌, ◌-ℤ◌, pos, unsigned_abs, slice_index_or, All};
ghost use Rattle.octree_specs.specs.Meeting.{HasPlanes};
ghost use Rattle.octree_specs.specs.Vectors.{vector};
ghost use Rattle.tri_cube.specs.Sides.{unit_rows, sides_of};

use crate::narrow::NarrowVector;
use svo_base::{Cube, Triangle};

/// The rows that weights clear where none of them is negative, and then these sides.
pub fn with_units(sides: &[NarrowVector; 6]) -> [NarrowVector; 9]
    ensures { result ≡ unit_rows ++ sides.now }
{
    [
        NarrowVector::new(1, 0, 0),
        NarrowVector::new(0, 1, 0),
        NarrowVector::new(0, 0, 1),
        sides[0],
        sides[1],
        sides[2],
        sides[3],
        sides[4],
        sides[5],
    ]
}

/// The coordinates of a triangle's corners along one axis.
#[derive(Clone, Copy)]
struct Coordinates {
    a: i32,
    b: i32,
    c: i32,
}

/// A row for each plane of the cube, which weights clear where they name a point on its inner side.
#[tactic(auto, unfolding(crate::specs::Sides::sides_of))]
pub fn sides(triangle: &Triangle, cube: &Cube) -> [NarrowVector; 6]
    requires { HasPlanes cube.now }
    ensures { result ≡ sides_of triangle.now cube.now }
{
    let Triangle { a, b, c } = triangle;
    let x = Coordinates {
        a: a.x,
        b: b.x,
        c: c.x,
    };
    let y = Coordinates {
        a: a.y,
        b: b.y,
        c: c.y,
    };
    let z = Coordinates {
        a: a.z,
        b: b.z,
        c: c.z,
    };
    [
        above(&x, &cube.lo, 0),
        below(&x, &cube.hi, 0),
        above(&y, &cube.lo, 1),
        below(&y, &cube.hi, 1),
        above(&z, &cube.lo, 2),
        below(&z, &cube.hi, 2),
    ]
}

/// How far the corners are above the plane across an axis.
fn above(corners: &Coordinates, planes: &[i64; 3], axis: usize) -> NarrowVector
    requires axis { axis < 3 }
    requires planes { All (λ plane. unsigned_abs plane ≤ 2 ^ 33) planes.now }
    ensures { let plane = slice_index_or planes.now axis (pos 0) in
        result ≡ vector (corners.now.a -ℤ plane) (corners.now.b -ℤ plane) (corners.now.c -ℤ plane) }
{
    let plane = planes[axis];
    NarrowVector::new(
        height(corners.a, plane),
        height(corners.b, plane),
        height(corners.c, plane),
    )
}

/// How far the corners are below the plane across an axis.
fn below(corners: &Coordinates, planes: &[i64; 3], axis: usize) -> NarrowVector
    requires axis { axis < 3 }
    requires planes { All (λ plane. unsigned_abs plane ≤ 2 ^ 33) planes.now }
    ensures { let plane = slice_index_or planes.now axis (pos 0) in
        result ≡ vector (plane -ℤ corners.now.a) (plane -ℤ corners.now.b) (plane -ℤ corners.now.c) }
{
    let plane = planes[axis];
    NarrowVector::new(
        depth(corners.a, plane),
        depth(corners.b, plane),
        depth(corners.c, plane),
    )
}

/// How far a corner is above a plane.
fn height(corner: i32, plane: i64) -> i64
    requires { unsigned_abs plane ≤ 2 ^ 33 }
    ensures value { result ≡ corner -ℤ plane }
    ensures within { unsigned_abs result ≤ 2 ^ 34 }
{
    i64::from(corner) - plane
}

/// How far a corner is below a plane.
fn depth(corner: i32, plane: i64) -> i64
    requires { unsigned_abs plane ≤ 2 ^ 33 }
    ensures value { result ≡ plane -ℤ corner }
    ensures within { unsigned_abs result ≤ 2 ^ 34 }
{
    plane - i64::from(corner)
}
