//! The plane of a small triangle, seen from the triangle's first corner: its direction in 64 bits, and
//! how far a box is in that direction in 128.

ghost use Rattle.std.specs.Prelude.{◌≡◌, ◌^◌, ◌≤◌, ◌+ℤ◌, ◌-ℤ◌, ◌*ℤ◌, unsigned_abs, pos};
ghost use Rattle.octree_specs.specs.Vectors.{cross_of};
ghost use Rattle.tri_cube.specs.Edges.{corner};
ghost use Rattle.tri_cube.specs.Lines.{greatest_of, least_of};
ghost use Rattle.tri_cube.specs.Near.{PointWithin};
ghost use Rattle.tri_cube.specs.Planes.{is_above, is_below, misses_plane, plane_form};

use crate::near::{NearExtent, NearExtents};
use std::marker::Model;
use svo_base::Point;

/// A direction across a plane through the first corner.
#[derive(Clone, Copy)]
pub struct NearPlane {
    x: i64,
    y: i64,
    z: i64,
}

impl Model for NearPlane {
    ghost use Rattle.std.specs.Prelude.{◌^◌};
    ghost use Rattle.svo_base.specs.declared.shapes.Vector.{Vector};
    ghost use Rattle.octree_specs.specs.Vectors.{vector, IsWithin};

    ghost Value = { Vector };

    ghost view = { λ p. vector p.x p.y p.z };

    ghost invariant = { λ p. IsWithin (2 ^ 59) (vector p.x p.y p.z) };

    ghost inverse = { λ v. record { x = v.x; y = v.y; z = v.z } };
}

impl NearPlane {
    /// The plane through the first corner, from which the two others are seen at these places.
    pub fn new(b: &Point, c: &Point) -> NearPlane
        requires b { PointWithin b.now }
        requires c { PointWithin c.now }
        ensures { result ≡ cross_of (corner b.now) (corner c.now) }
    {
        NearPlane {
            x: near_minor(b.y, c.z, b.z, c.y),
            y: near_minor(b.z, c.x, b.x, c.z),
            z: near_minor(b.x, c.y, b.y, c.x),
        }
    }

    /// The direction along x.
    pub fn x(&self) -> i64
        ensures { result ≡ self.now.x }
    {
        self.x
    }

    /// The direction along y.
    pub fn y(&self) -> i64
        ensures { result ≡ self.now.y }
    {
        self.y
    }

    /// The direction along z.
    pub fn z(&self) -> i64
        ensures { result ≡ self.now.z }
    {
        self.z
    }

    /// Whether a box is on one side of the plane.
    #[tactic(auto, unfolding(crate::specs::Planes::misses_plane))]
    pub fn misses(&self, extents: &NearExtents) -> bool
        ensures { result ≡ misses_plane (plane_form self.now (pos 0)) extents.now }
    {
        self.is_passed(extents) || self.is_not_reached(extents)
    }

    /// Whether all of a box is farther than the plane.
    #[tactic(auto, unfolding(crate::specs::Planes::is_above))]
    fn is_passed(&self, extents: &NearExtents) -> bool
        ensures { result ≡ is_above (plane_form self.now (pos 0)) extents.now }
    {
        near_least_xy(self, extents) + near_least(self.z, &extents.z()) > 0
    }

    /// Whether no part of a box is as far as the plane.
    #[tactic(auto, unfolding(crate::specs::Planes::is_below))]
    fn is_not_reached(&self, extents: &NearExtents) -> bool
        ensures { result ≡ is_below (plane_form self.now (pos 0)) extents.now }
    {
        near_greatest_xy(self, extents) + near_greatest(self.z, &extents.z()) < 0
    }
}

/// `a * b - c * d`
fn near_minor(a: i32, b: i32, c: i32, d: i32) -> i64
    requires a_in { unsigned_abs a ≤ 2 ^ 29 }
    requires b_in { unsigned_abs b ≤ 2 ^ 29 }
    requires c_in { unsigned_abs c ≤ 2 ^ 29 }
    requires d_in { unsigned_abs d ≤ 2 ^ 29 }
    ensures value { result ≡ (a *ℤ b) -ℤ (c *ℤ d) }
    ensures within { unsigned_abs result ≤ 2 ^ 59 }
{
    small_product(a, b) - small_product(c, d)
}

/// The product of two coordinates.
fn small_product(a: i32, b: i32) -> i64
    requires a_in { unsigned_abs a ≤ 2 ^ 29 }
    requires b_in { unsigned_abs b ≤ 2 ^ 29 }
    ensures value { result ≡ a *ℤ b }
    ensures within { unsigned_abs result ≤ 2 ^ 58 }
{
    i64::from(a) * i64::from(b)
}

/// The product of a direction and a coordinate.
fn long_product(step: i64, at: i64) -> i128
    requires step { unsigned_abs step ≤ 2 ^ 59 }
    requires at { unsigned_abs at ≤ 2 ^ 29 }
    ensures value { result ≡ step *ℤ at }
    ensures within { unsigned_abs result ≤ 2 ^ 88 }
{
    i128::from(step) * i128::from(at)
}

#[tactic(auto, unfolding(crate::specs::Lines::least_of))]
fn near_least(step: i64, extent: &NearExtent) -> i128
    requires { unsigned_abs step ≤ 2 ^ 59 }
    ensures value { result ≡ least_of step extent.now }
    ensures within { unsigned_abs result ≤ 2 ^ 88 }
{
    long_product(step, if step < 0 { extent.hi() } else { extent.lo() })
}

fn near_least_xy(plane: &NearPlane, extents: &NearExtents) -> i128
    ensures value { result ≡ least_of plane.now.x extents.now.x +ℤ least_of plane.now.y extents.now.y }
    ensures within { unsigned_abs result ≤ 2 ^ 89 }
{
    near_least(plane.x, &extents.x()) + near_least(plane.y, &extents.y())
}

#[tactic(auto, unfolding(crate::specs::Lines::greatest_of))]
fn near_greatest(step: i64, extent: &NearExtent) -> i128
    requires { unsigned_abs step ≤ 2 ^ 59 }
    ensures value { result ≡ greatest_of step extent.now }
    ensures within { unsigned_abs result ≤ 2 ^ 88 }
{
    long_product(step, if step < 0 { extent.lo() } else { extent.hi() })
}

fn near_greatest_xy(plane: &NearPlane, extents: &NearExtents) -> i128
    ensures value { result ≡ greatest_of plane.now.x extents.now.x +ℤ greatest_of plane.now.y extents.now.y }
    ensures within { unsigned_abs result ≤ 2 ^ 89 }
{
    near_greatest(plane.x, &extents.x()) + near_greatest(plane.y, &extents.y())
}
