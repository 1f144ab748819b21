//! Boxes around points.

ghost use Rattle.std.specs.Prelude.{◌≡◌, ◌≤◌, ◌<◌, ◌+◌, ◌*◌, ◌^◌, ◌≤ℤ◌, ◌+ℤ◌, pos, ℕ, ℤ, List, [], ◌∷◌, ◌++◌};
ghost use Rattle.std.specs.Int.{int_min, int_max};
ghost use Rattle.svo_base.specs.Boxes.{IsExtentOf, IsNearExtent, IsWithin, Holds, IsAround, extent_of, bounds_of};

use crate::grids::{Grid, MAX_DEPTH};
use crate::shapes::{Point, Triangle};
use std::marker::Model;

/// A stretch of an axis, both ends included.
#[derive(Clone, Copy, Debug, PartialEq, Eq)]
pub struct Extent {
    pub low: i32,
    pub high: i32,
}

/// A box, both planes of each axis included.
#[derive(Clone, Copy, Debug, PartialEq, Eq)]
pub struct Bounds {
    pub x: Extent,
    pub y: Extent,
    pub z: Extent,
}

impl Extent {
    /// From the least of three coordinates to the greatest.
    fn around(a: i32, b: i32, c: i32) -> Extent
        ensures { result ≡ extent_of a b c }
    {
        Extent {
            low: a.min(b).min(c),
            high: a.max(b).max(c),
        }
    }
}

impl Bounds {
    /// The least box around a triangle.
    #[tactic(auto, unfolding(crate::specs::Boxes::bounds_of))]
    pub fn of_triangle(triangle: &Triangle) -> Bounds
        ensures { result ≡ bounds_of triangle.now }
    {
        let Triangle { a, b, c } = triangle;
        Bounds {
            x: Extent::around(a.x, b.x, c.x),
            y: Extent::around(a.y, b.y, c.y),
            z: Extent::around(a.z, b.z, c.z),
        }
    }
}

/// The least box with all points that were added, if any were.
#[derive(Clone, Copy, Debug, PartialEq, Eq)]
pub struct BoundingBox {
    bounds: Option<Bounds>,
}

impl Model for BoundingBox {
    ghost use Rattle.std.specs.Prelude.{Option};
    ghost use Rattle.svo_base.specs.declared.boxes.Bounds.{Bounds};

    ghost Value = { Option Bounds };

    ghost view = { λ s. s.bounds };

    ghost inverse = { λ v. record { bounds = v } };
}

impl BoundingBox {
    ghost use Rattle.std.specs.Prelude.{None};
    ghost use Rattle.svo_base.specs.declared.shapes.Point.{Point};
    ghost use Rattle.svo_base.specs.Boxes.{IsPoint, IsBoxOf, IsNearBox, FitsBox};

    /// The box of no point.
    pub fn new() -> BoundingBox
        ensures { result ≡ None }
    {
        BoundingBox { bounds: None }
    }

    /// Widens the box to hold one point more.
    pub fn add(&mut self, point: &Point)
        ensures { (points : List Point) → IsPoint point.now → IsBoxOf points self.old → IsBoxOf (points ++ point.now ∷ []) self.new }
    {
        let bounds = match self.bounds {
            None => Bounds {
                x: extent_at(point.x),
                y: extent_at(point.y),
                z: extent_at(point.z),
            },
            Some(bounds) => Bounds {
                x: widened(&bounds.x, point.x),
                y: widened(&bounds.y, point.y),
                z: widened(&bounds.z, point.z),
            },
        };
        self.bounds = Some(bounds);
    }

    /// The grid of a depth, 1 to `MAX_DEPTH`, that begins at the box's lower corner and whose cells
    /// have the least side with which it holds the box. Without a point it begins at 0, and its cells
    /// have the side 1. No point may be farther than 2^30 from 0 along an axis.
    pub fn grid(&self, depth: u32) -> Grid
        requires some { 1 ≤ depth }
        requires deepest { depth ≤ MAX_DEPTH }
        requires near { IsNearBox self.now }
        ensures depth { result.depth ≡ depth }
        ensures fits { FitsBox self.now result }
    {
        match self.bounds {
            None => Grid::within(depth, [0; 3], 1),
            Some(bounds) => grid_around(&bounds, depth),
        }
    }
}

/// The extent of one number.
fn extent_at(number: i32) -> Extent
    ensures { IsExtentOf (number ∷ []) result }
{
    Extent {
        low: number,
        high: number,
    }
}

/// The extent that holds one number more.
fn widened(extent: &Extent, number: i32) -> Extent
    ensures { (numbers : List ℤ) → IsExtentOf numbers extent.now → IsExtentOf (numbers ++ number ∷ []) result }
{
    raised(&lowered(extent, number), number)
}

/// The extent that reaches down to a number.
fn lowered(extent: &Extent, number: i32) -> Extent
    ensures low { result.low ≡ int_min extent.now.low number }
    ensures high { result.high ≡ extent.now.high }
{
    if number < extent.low {
        return Extent {
            low: number,
            ..*extent
        };
    }
    *extent
}

/// The extent that reaches up to a number.
fn raised(extent: &Extent, number: i32) -> Extent
    ensures low { result.low ≡ extent.now.low }
    ensures high { result.high ≡ int_max extent.now.high number }
{
    if number > extent.high {
        return Extent {
            high: number,
            ..*extent
        };
    }
    *extent
}

/// The grid of a depth around a box.
fn grid_around(bounds: &Bounds, depth: u32) -> Grid
    requires some { 1 ≤ depth }
    requires deepest { depth ≤ MAX_DEPTH }
    requires x { IsNearExtent bounds.now.x }
    requires y { IsNearExtent bounds.now.y }
    requires z { IsNearExtent bounds.now.z }
    ensures depth { result.depth ≡ depth }
    ensures around { IsAround bounds.now result }
{
    let origin = [
        i64::from(bounds.x.low),
        i64::from(bounds.y.low),
        i64::from(bounds.z.low),
    ];
    Grid::within(depth, origin, cell_for(width_of(bounds), depth))
}

/// The side of a cube that holds a box.
fn width_of(bounds: &Bounds) -> u64
    requires x { IsNearExtent bounds.now.x }
    requires y { IsNearExtent bounds.now.y }
    requires z { IsNearExtent bounds.now.z }
    ensures least { (side : ℕ) → Holds side bounds.now → result ≤ side }
    ensures holds { (side : ℕ) → result ≤ side → Holds side bounds.now }
    ensures small { result ≤ 2 ^ 31 }
{
    let x = length_of(&bounds.x);
    let y = length_of(&bounds.y);
    let z = length_of(&bounds.z);
    x.max(y).max(z)
}

/// The least side of a cell with which a grid of a depth is so wide.
fn cell_for(width: u64, depth: u32) -> u64
    requires depth { depth ≤ MAX_DEPTH }
    requires small { width ≤ 2 ^ 31 }
    ensures some { 1 ≤ result }
    ensures wide { width ≤ result * 2 ^ depth }
    ensures least { (cell : ℕ) → 1 ≤ cell → width ≤ cell * 2 ^ depth → result ≤ cell }
    ensures narrow { result * 2 ^ depth ≤ 2 ^ 32 }
{
    width.div_ceil(1 << depth).max(1)
}

/// How long an extent is, or 0 where its ends are the wrong way round.
fn length_of(extent: &Extent) -> u64
    requires near { IsNearExtent extent.now }
    ensures least { (side : ℕ) → IsWithin side extent.now → result ≤ side }
    ensures holds { (side : ℕ) → result ≤ side → IsWithin side extent.now }
    ensures small { result ≤ 2 ^ 31 }
{
    (i64::from(extent.high) - i64::from(extent.low)).max(0) as u64
}
