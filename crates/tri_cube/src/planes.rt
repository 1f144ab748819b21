//! The plane of a triangle. A cube that is on one side of it shares no point with the triangle.

ghost use Rattle.std.specs.Prelude.{◌≡◌, ◌^◌, ◌≤◌, ◌+ℤ◌, unsigned_abs};
ghost use Rattle.octree_specs.specs.Vectors.{IsWithin, cross_of, dot_of};
ghost use Rattle.tri_cube.specs.Edges.{corner, edge_of};
ghost use Rattle.tri_cube.specs.Lines.{greatest_of, least_of};
ghost use Rattle.tri_cube.specs.Planes.{is_above, is_below, misses_plane, plane_form};

use crate::extents::{Extents, WideExtent};
use crate::narrow::NarrowVector;
use crate::products::{cross, dot, scaled, step};
use std::marker::Model;
use svo_base::{Point, Triangle, Vector};

/// A plane: a direction across it, and how far its points are in that direction.
#[derive(Clone, Copy)]
pub struct Plane {
    normal: Vector,
    reach: i128,
}

impl Model for Plane {
    ghost use Rattle.tri_cube.specs.Planes.{PlaneForm, PlaneWithin, plane_form};

    ghost Value = { PlaneForm };

    ghost view = { λ p. plane_form p.normal p.reach };

    ghost invariant = { λ p. PlaneWithin (plane_form p.normal p.reach) };

    ghost inverse = { λ f. record { normal = f.normal; reach = f.reach } };
}

impl Plane {
    /// The plane across a direction through a point.
    pub fn new(normal: &Vector, through: &Point) -> Plane
        requires { IsWithin (2 ^ 69) normal.now }
        ensures { result ≡ plane_form normal.now (dot_of normal.now (corner through.now)) }
    {
        Plane {
            normal: *normal,
            reach: reach(normal, through),
        }
    }

    /// Whether a box is on one side of the plane.
    #[tactic(auto, unfolding(crate::specs::Planes::misses_plane))]
    pub fn misses(&self, extents: &Extents) -> bool
        ensures { result ≡ misses_plane self.now extents.now }
    {
        self.is_passed(extents) || self.is_not_reached(extents)
    }

    /// Whether all of a box is farther than the plane.
    #[tactic(auto, unfolding(crate::specs::Planes::is_above))]
    fn is_passed(&self, extents: &Extents) -> bool
        ensures { result ≡ is_above self.now extents.now }
    {
        least(&self.normal, extents) > self.reach
    }

    /// Whether no part of a box is as far as the plane.
    #[tactic(auto, unfolding(crate::specs::Planes::is_below))]
    fn is_not_reached(&self, extents: &Extents) -> bool
        ensures { result ≡ is_below self.now extents.now }
    {
        greatest(&self.normal, extents) < self.reach
    }
}

/// A direction across a triangle's plane, or zero where the corners are on one line.
pub fn normal(triangle: &Triangle) -> Vector
    ensures value { result ≡ cross_of (edge_of triangle.now.a triangle.now.b) (edge_of triangle.now.a triangle.now.c) }
    ensures within { IsWithin (2 ^ 69) result }
{
    cross(
        &edge(&triangle.a, &triangle.b),
        &edge(&triangle.a, &triangle.c),
    )
}

/// From one corner to another.
pub fn edge(from: &Point, to: &Point) -> NarrowVector
    ensures { result ≡ edge_of from.now to.now }
{
    NarrowVector::new(step(from.x, to.x), step(from.y, to.y), step(from.z, to.z))
}

/// How far a point is in a direction.
pub fn reach(direction: &Vector, at: &Point) -> i128
    requires { IsWithin (2 ^ 69) direction.now }
    ensures value { result ≡ dot_of direction.now (corner at.now) }
    ensures within { unsigned_abs result ≤ 2 ^ 105 }
{
    dot(direction, &place(at))
}

/// A point as a vector.
fn place(at: &Point) -> NarrowVector
    ensures { result ≡ corner at.now }
{
    NarrowVector::new(i64::from(at.x), i64::from(at.y), i64::from(at.z))
}

/// The least product of a direction with a point of a box.
pub fn least(direction: &Vector, extents: &Extents) -> i128
    requires { IsWithin (2 ^ 69) direction.now }
    ensures { result ≡ (least_of direction.now.x extents.now.x +ℤ least_of direction.now.y extents.now.y) +ℤ least_of direction.now.z extents.now.z }
{
    least_xy(direction, extents) + least_along(direction.z, &extents.z)
}

fn least_xy(direction: &Vector, extents: &Extents) -> i128
    requires { IsWithin (2 ^ 69) direction.now }
    ensures value { result ≡ least_of direction.now.x extents.now.x +ℤ least_of direction.now.y extents.now.y }
    ensures within { unsigned_abs result ≤ 2 ^ 104 }
{
    least_along(direction.x, &extents.x) + least_along(direction.y, &extents.y)
}

#[tactic(auto, unfolding(crate::specs::Lines::least_of))]
fn least_along(step: i128, extent: &WideExtent) -> i128
    requires { unsigned_abs step ≤ 2 ^ 69 }
    ensures value { result ≡ least_of step extent.now }
    ensures within { unsigned_abs result ≤ 2 ^ 103 }
{
    scaled(step, if step < 0 { extent.hi() } else { extent.lo() })
}

/// The greatest product of a direction with a point of a box.
fn greatest(direction: &Vector, extents: &Extents) -> i128
    requires { IsWithin (2 ^ 69) direction.now }
    ensures { result ≡ (greatest_of direction.now.x extents.now.x +ℤ greatest_of direction.now.y extents.now.y) +ℤ greatest_of direction.now.z extents.now.z }
{
    greatest_xy(direction, extents) + greatest_along(direction.z, &extents.z)
}

fn greatest_xy(direction: &Vector, extents: &Extents) -> i128
    requires { IsWithin (2 ^ 69) direction.now }
    ensures value { result ≡ greatest_of direction.now.x extents.now.x +ℤ greatest_of direction.now.y extents.now.y }
    ensures within { unsigned_abs result ≤ 2 ^ 104 }
{
    greatest_along(direction.x, &extents.x) + greatest_along(direction.y, &extents.y)
}

#[tactic(auto, unfolding(crate::specs::Lines::greatest_of))]
fn greatest_along(step: i128, extent: &WideExtent) -> i128
    requires { unsigned_abs step ≤ 2 ^ 69 }
    ensures value { result ≡ greatest_of step extent.now }
    ensures within { unsigned_abs result ≤ 2 ^ 103 }
{
    scaled(step, if step < 0 { extent.lo() } else { extent.hi() })
}
