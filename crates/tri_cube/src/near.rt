//! A triangle and a box as they are seen from the triangle's first corner. A small triangle has small
//! numbers there, wherever it lies, and so has what of a box is within the triangle's box.

ghost use Rattle.std.specs.Prelude.{◌≡◌, ◌^◌, ◌≤◌, ◌-ℤ◌, false, true, unsigned_abs};
ghost use Rattle.tri_cube.specs.Boxes.{extents_miss};
ghost use Rattle.tri_cube.specs.Extents.{ExtentWithin};
ghost use Rattle.tri_cube.specs.Near.{IsNear, PointWithin, are_short, clip, clip_box, is_short, is_small, moved, seen_from};
ghost use Rattle.tri_cube.specs.Views.{box_of};

use crate::extents::{Extents, WideExtent};
use std::marker::Model;
use svo_base::{Point, Triangle};

/// The greatest length of a small triangle's box along each axis.
const SMALL: i64 = 1 << 29;

/// From a lower to an upper coordinate, both counted from a corner that is at most 2^29 away.
#[derive(Clone, Copy)]
pub struct NearExtent {
    lo: i64,
    hi: i64,
}

impl Model for NearExtent {
    ghost use Rattle.std.specs.Prelude.{◌^◌};
    ghost use Rattle.tri_cube.specs.Extents.{ExtentShape, ExtentWithin, between};

    ghost Value = { ExtentShape };

    ghost view = { λ e. between e.lo e.hi };

    ghost invariant = { λ e. ExtentWithin (2 ^ 29) (between e.lo e.hi) };

    ghost inverse = { λ s. record { lo = s.low; hi = s.high } };
}

impl NearExtent {
    /// What of an extent is within bounds, seen from a coordinate that is near both ends of it.
    fn new(bounds: &WideExtent, from: &i32, extent: &WideExtent) -> NearExtent
        requires { ExtentWithin (2 ^ 29) (clip bounds.now from.now extent.now) }
        ensures { result ≡ clip bounds.now from.now extent.now }
    {
        let lo = extent.lo().max(bounds.lo());
        let hi = extent.hi().min(bounds.hi());
        NearExtent {
            lo: counted_from(from, &lo),
            hi: counted_from(from, &hi),
        }
    }

    /// The lower coordinate.
    pub fn lo(&self) -> i64
        ensures value { result ≡ self.now.low }
        ensures within { unsigned_abs result ≤ 2 ^ 29 }
    {
        self.lo
    }

    /// The upper coordinate.
    pub fn hi(&self) -> i64
        ensures value { result ≡ self.now.high }
        ensures within { unsigned_abs result ≤ 2 ^ 29 }
    {
        self.hi
    }
}

/// A coordinate that is at most 2^29 away from another, counted from that one.
fn counted_from(from: &i32, at: &i64) -> i64
    requires { unsigned_abs (at.now -ℤ from.now) ≤ 2 ^ 29 }
    ensures value { result ≡ at.now -ℤ from.now }
    ensures within { unsigned_abs result ≤ 2 ^ 29 }
{
    *at - i64::from(*from)
}

/// A near extent along each axis.
#[derive(Clone, Copy)]
pub struct NearExtents {
    x: NearExtent,
    y: NearExtent,
    z: NearExtent,
}

impl Model for NearExtents {
    ghost use Rattle.tri_cube.specs.declared.extents.Extents.{Extents};

    ghost Value = { Extents };

    ghost view = { λ e. record { x = e.x; y = e.y; z = e.z } };

    ghost inverse = { λ e. record { x = e.x; y = e.y; z = e.z } };
}

impl NearExtents {
    /// What of a box is within the box of a small triangle that it reaches, seen from the triangle's
    /// first corner.
    pub fn new(triangle: &Triangle, bounds: &Extents, extents: &Extents) -> NearExtents
        requires small { is_small triangle.now ≡ true }
        requires bounds { bounds.now ≡ box_of triangle.now }
        requires reached { extents_miss bounds.now extents.now ≡ false }
        ensures { result ≡ clip_box bounds.now triangle.now.a extents.now }
    {
        let from = &triangle.a;
        NearExtents {
            x: NearExtent::new(&bounds.x, &from.x, &extents.x),
            y: NearExtent::new(&bounds.y, &from.y, &extents.y),
            z: NearExtent::new(&bounds.z, &from.z, &extents.z),
        }
    }

    pub fn x(&self) -> NearExtent
        ensures { result ≡ self.now.x }
    {
        self.x
    }

    pub fn y(&self) -> NearExtent
        ensures { result ≡ self.now.y }
    {
        self.y
    }

    pub fn z(&self) -> NearExtent
        ensures { result ≡ self.now.z }
    {
        self.z
    }
}

/// Whether a box is at most 2^29 long along each axis, so that a triangle in it is small.
#[tactic(auto, unfolding(crate::specs::Near::are_short))]
pub fn are_short(bounds: &Extents) -> bool
    ensures { result ≡ are_short bounds.now }
{
    is_short(&bounds.x) && is_short(&bounds.y) && is_short(&bounds.z)
}

fn is_short(extent: &WideExtent) -> bool
    ensures { result ≡ is_short extent.now }
{
    extent.hi() - extent.lo() <= SMALL
}

/// A small triangle, seen from its first corner.
#[tactic(auto, unfolding(crate::specs::Near::moved))]
pub fn moved(triangle: &Triangle) -> Triangle
    requires { is_small triangle.now ≡ true }
    ensures value { result ≡ moved triangle.now }
    ensures near { IsNear result }
{
    let Triangle { a, b, c } = triangle;
    Triangle {
        a: seen_from(a, a),
        b: seen_from(a, b),
        c: seen_from(a, c),
    }
}

/// A corner, seen from another that is at most 2^29 away along each axis.
fn seen_from(from: &Point, at: &Point) -> Point
    requires { PointWithin (seen_from from.now at.now) }
    ensures { result ≡ seen_from from.now at.now }
{
    Point {
        x: at.x - from.x,
        y: at.y - from.y,
        z: at.z - from.z,
    }
}
