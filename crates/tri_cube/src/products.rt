//! Differences of coordinates, and products of vectors, which are in 128 bits.

ghost use Rattle.std.specs.Prelude.{◌≡◌, ◌^◌, ◌≤◌, ◌+ℤ◌, ◌-ℤ◌, ◌*ℤ◌, unsigned_abs};
ghost use Rattle.octree_specs.specs.Vectors.{IsWithin, cross_of, dot_of, opposite_of};

use crate::narrow::NarrowVector;
use svo_base::Vector;

/// From one coordinate to another.
pub fn step(from: i32, to: i32) -> i64
    ensures value { result ≡ to -ℤ from }
    ensures within { unsigned_abs result ≤ 2 ^ 33 }
{
    i64::from(to) - i64::from(from)
}

/// The cross product.
pub fn cross(a: &NarrowVector, b: &NarrowVector) -> Vector
    ensures value { result ≡ cross_of a.now b.now }
    ensures within { IsWithin (2 ^ 69) result }
{
    Vector {
        x: minor(a.y(), b.z(), a.z(), b.y()),
        y: minor(a.z(), b.x(), a.x(), b.z()),
        z: minor(a.x(), b.y(), a.y(), b.x()),
    }
}

/// `a * b - c * d`
fn minor(a: i64, b: i64, c: i64, d: i64) -> i128
    requires a_in { unsigned_abs a ≤ 2 ^ 34 }
    requires b_in { unsigned_abs b ≤ 2 ^ 34 }
    requires c_in { unsigned_abs c ≤ 2 ^ 34 }
    requires d_in { unsigned_abs d ≤ 2 ^ 34 }
    ensures value { result ≡ (a *ℤ b) -ℤ (c *ℤ d) }
    ensures within { unsigned_abs result ≤ 2 ^ 69 }
{
    wide_product(a, b) - wide_product(c, d)
}

/// The scalar product.
pub fn dot(a: &Vector, b: &NarrowVector) -> i128
    requires { IsWithin (2 ^ 69) a.now }
    ensures value { result ≡ dot_of a.now b.now }
    ensures within { unsigned_abs result ≤ 2 ^ 105 }
{
    dot_xy(a, b) + scaled(a.z, b.z())
}

/// The part of the product that is of x and y.
fn dot_xy(a: &Vector, b: &NarrowVector) -> i128
    requires { IsWithin (2 ^ 69) a.now }
    ensures value { result ≡ (a.now.x *ℤ b.now.x) +ℤ (a.now.y *ℤ b.now.y) }
    ensures within { unsigned_abs result ≤ 2 ^ 104 }
{
    scaled(a.x, b.x()) + scaled(a.y, b.y())
}

/// The product of two numbers of narrow vectors.
pub fn wide_product(a: i64, b: i64) -> i128
    requires a_in { unsigned_abs a ≤ 2 ^ 34 }
    requires b_in { unsigned_abs b ≤ 2 ^ 34 }
    ensures value { result ≡ a *ℤ b }
    ensures within { unsigned_abs result ≤ 2 ^ 68 }
{
    i128::from(a) * i128::from(b)
}

/// The product of a number of a vector and one of a narrow vector.
pub fn scaled(a: i128, b: i64) -> i128
    requires a_in { unsigned_abs a ≤ 2 ^ 69 }
    requires b_in { unsigned_abs b ≤ 2 ^ 34 }
    ensures value { result ≡ a *ℤ b }
    ensures within { unsigned_abs result ≤ 2 ^ 103 }
{
    a * i128::from(b)
}

/// The opposite vector.
pub fn opposite(a: &Vector) -> Vector
    requires { IsWithin (2 ^ 69) a.now }
    ensures value { result ≡ opposite_of a.now }
    ensures within { IsWithin (2 ^ 69) result }
{
    Vector {
        x: -a.x,
        y: -a.y,
        z: -a.z,
    }
}
