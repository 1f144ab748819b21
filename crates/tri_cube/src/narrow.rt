//! Vectors in 64 bits.

ghost use Rattle.std.specs.Prelude.{◌≡◌, ◌^◌, ◌≤◌, unsigned_abs};
ghost use Rattle.octree_specs.specs.Vectors.{IsWithin, vector};

use std::marker::Model;
use svo_base::Vector;

/// A vector whose numbers have a size of at most 2^34.
#[derive(Clone, Copy)]
pub struct NarrowVector {
    x: i64,
    y: i64,
    z: i64,
}

impl Model for NarrowVector {
    ghost use Rattle.std.specs.Prelude.{◌^◌};
    ghost use Rattle.svo_base.specs.declared.shapes.Vector.{Vector};
    ghost use Rattle.octree_specs.specs.Vectors.{vector, IsWithin};

    ghost Value = { Vector };

    ghost view = { λ r. vector r.x r.y r.z };

    ghost invariant = { λ r. IsWithin (2 ^ 34) (vector r.x r.y r.z) };

    ghost inverse = { λ v. record { x = v.x; y = v.y; z = v.z } };
}

impl NarrowVector {
    /// The vector of these numbers.
    pub fn new(x: i64, y: i64, z: i64) -> NarrowVector
        requires { IsWithin (2 ^ 34) (vector x y z) }
        ensures { result ≡ vector x y z }
    {
        NarrowVector { x, y, z }
    }

    /// The first number.
    pub fn x(&self) -> i64
        ensures value { result ≡ self.now.x }
        ensures within { unsigned_abs result ≤ 2 ^ 34 }
    {
        self.x
    }

    /// The second number.
    pub fn y(&self) -> i64
        ensures value { result ≡ self.now.y }
        ensures within { unsigned_abs result ≤ 2 ^ 34 }
    {
        self.y
    }

    /// The third number.
    pub fn z(&self) -> i64
        ensures value { result ≡ self.now.z }
        ensures within { unsigned_abs result ≤ 2 ^ 34 }
    {
        self.z
    }

    /// The same vector in 128 bits.
    pub fn widened(&self) -> Vector
        ensures value { result ≡ self.now }
        ensures within { IsWithin (2 ^ 34) result }
    {
        Vector {
            x: i128::from(self.x),
            y: i128::from(self.y),
            z: i128::from(self.z),
        }
    }
}
