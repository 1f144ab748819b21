//! How far a triangle or a cube goes along each axis.

ghost use Rattle.std.specs.Prelude.{◌≡◌, ◌^◌, ◌≤◌, unsigned_abs, int_le};
ghost use Rattle.octree_specs.specs.Meeting.{HasPlanes};
ghost use Rattle.tri_cube.specs.Boxes.{extents_miss, extents_in_order};
ghost use Rattle.tri_cube.specs.Extents.{ExtentWithin, between, extent_of, shapes_miss};
ghost use Rattle.tri_cube.specs.Views.{box_of, cube_box};

use std::marker::Model;
use svo_base::{Cube, Triangle};

/// From a lower to an upper coordinate, both of a size of at most 2^33. The lower one may be above
/// the upper one, and then nothing lies between.
#[derive(Clone, Copy)]
pub struct WideExtent {
    lo: i64,
    hi: i64,
}

impl Model for WideExtent {
    ghost use Rattle.std.specs.Prelude.{◌^◌};
    ghost use Rattle.tri_cube.specs.Extents.{ExtentShape, ExtentWithin, between};

    ghost Value = { ExtentShape };

    ghost view = { λ e. between e.lo e.hi };

    ghost invariant = { λ e. ExtentWithin (2 ^ 33) (between e.lo e.hi) };

    ghost inverse = { λ s. record { lo = s.low; hi = s.high } };
}

impl WideExtent {
    /// From a lower to an upper coordinate.
    pub fn new(lo: i64, hi: i64) -> WideExtent
        requires { ExtentWithin (2 ^ 33) (between lo hi) }
        ensures { result ≡ between lo hi }
    {
        WideExtent { lo, hi }
    }

    /// From the least of three coordinates to the greatest.
    pub fn around(a: i32, b: i32, c: i32) -> WideExtent
        ensures { result ≡ extent_of a b c }
    {
        WideExtent::new(i64::from(a.min(b).min(c)), i64::from(a.max(b).max(c)))
    }

    /// The lower coordinate.
    pub fn lo(&self) -> i64
        ensures value { result ≡ self.now.low }
        ensures within { unsigned_abs result ≤ 2 ^ 33 }
    {
        self.lo
    }

    /// The upper coordinate.
    pub fn hi(&self) -> i64
        ensures value { result ≡ self.now.high }
        ensures within { unsigned_abs result ≤ 2 ^ 33 }
    {
        self.hi
    }

    /// Whether one of two extents ends before the other begins.
    pub fn misses(&self, other: &WideExtent) -> bool
        ensures { result ≡ shapes_miss self.now other.now }
    {
        self.hi() < other.lo() || other.hi() < self.lo()
    }

    /// Whether something lies between the two coordinates, or on them.
    pub fn is_in_order(&self) -> bool
        ensures { result ≡ int_le self.now.low self.now.high }
    {
        self.lo() <= self.hi()
    }
}

/// An extent along each axis.
#[derive(Clone, Copy)]
pub struct Extents {
    pub x: WideExtent,
    pub y: WideExtent,
    pub z: WideExtent,
}

impl Extents {
    /// From the lower planes of a cube to its upper ones.
    #[tactic(auto, unfolding(crate::specs::Views::cube_box))]
    pub fn of_cube(cube: &Cube) -> Extents
        requires { HasPlanes cube.now }
        ensures { result ≡ cube_box cube.now }
    {
        Extents {
            x: WideExtent::new(cube.lo[0], cube.hi[0]),
            y: WideExtent::new(cube.lo[1], cube.hi[1]),
            z: WideExtent::new(cube.lo[2], cube.hi[2]),
        }
    }

    /// From the least coordinates of a triangle's corners to the greatest.
    #[tactic(auto, unfolding(crate::specs::Views::box_of))]
    pub fn of_triangle(triangle: &Triangle) -> Extents
        ensures { result ≡ box_of triangle.now }
    {
        let Triangle { a, b, c } = triangle;
        Extents {
            x: WideExtent::around(a.x, b.x, c.x),
            y: WideExtent::around(a.y, b.y, c.y),
            z: WideExtent::around(a.z, b.z, c.z),
        }
    }

    /// Whether the two boxes share no point.
    #[tactic(auto, unfolding(crate::specs::Boxes::extents_miss))]
    pub fn miss(&self, other: &Extents) -> bool
        ensures { result ≡ extents_miss self.now other.now }
    {
        self.x.misses(&other.x) || self.y.misses(&other.y) || self.z.misses(&other.z)
    }

    /// Whether the box has a point.
    #[tactic(auto, unfolding(crate::specs::Boxes::extents_in_order))]
    pub fn are_in_order(&self) -> bool
        ensures { result ≡ extents_in_order self.now }
    {
        self.x.is_in_order() && self.y.is_in_order() && self.z.is_in_order()
    }
}
