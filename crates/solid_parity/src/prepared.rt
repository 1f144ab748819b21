//! A triangle that is asked about many columns.

ghost use Rattle.std.specs.Prelude.{◌≡◌, ℕ, ◌+◌, ◌*◌, ◌^◌, ◌≤◌, ◌+ℤ◌, ◌-ℤ◌, ◌*ℤ◌, ℤ, pos, unsigned_abs};
ghost use Rattle.octree_specs.specs.Vectors.{vector, IsWithin};
ghost use Rattle.solid_parity.specs.Heights.{is_above_at, AreNear};
ghost use Rattle.solid_parity.specs.Parity.{doubled, minus_of, normal_of, is_covered, is_above};
ghost use Rattle.solid_parity.specs.Seen.{IsCorner, IsCentre};

use crate::heights::Heights;
use crate::seen::{Seen, crosses, seen_corner, twice, way};
use std::marker::Model;
use svo_base::{Point, Triangle, Vector};
use tri_cube::{NarrowVector, cross, scaled};

/// A triangle with its doubled corners, as seen along z, and its normal.
#[derive(Drop)]
pub struct Shape {
    triangle: Triangle,
    a: Seen,
    b: Seen,
    c: Seen,
    normal: Vector,
}

impl Model for Shape {
    ghost use Rattle.svo_base.specs.declared.shapes.Triangle.{Triangle};
    ghost use Rattle.solid_parity.specs.Shapes.{IsPrepared};

    ghost Value = { Triangle };

    ghost view = { λ s. s.triangle };

    ghost invariant = { λ s. IsPrepared s.triangle s.a s.b s.c s.normal };
}

impl Shape {
    /// The triangle, prepared.
    pub fn new(triangle: &Triangle) -> Shape
        ensures { result ≡ triangle.now }
    {
        let Triangle { a, b, c } = triangle;
        Shape {
            triangle: *triangle,
            a: seen_corner(a),
            b: seen_corner(b),
            c: seen_corner(c),
            normal: normal(triangle),
        }
    }

    /// Whether the column of these centres goes through the triangle.
    #[tactic(auto, unfolding(crate::specs::Parity::is_covered, crate::specs::Parity::crossings, crate::specs::Parity::crosses))]
    pub fn is_on(&self, column: &Seen) -> bool
        requires { IsCentre column.now }
        ensures { (z : ℤ) → result ≡ is_covered self.now (vector column.now.x column.now.y z) }
    {
        let first = crosses(&self.a, &self.b, column);
        let second = crosses(&self.b, &self.c, column);
        let third = crosses(&self.c, &self.a, column);
        first ^ second ^ third
    }

    /// The column against the triangle's plane: its lowest centre is at `low`.
    pub fn heights(&self, column: &Seen, low: &i64, step: u64) -> Heights
        requires column { IsCentre column.now }
        requires low { unsigned_abs low.now ≤ 6 * 2 ^ 31 }
        ensures above { (place : ℕ) → is_above_at result place ≡ is_above self.now (vector column.now.x column.now.y (low.now +ℤ pos (step * place))) }
        ensures near { (count : ℕ) → unsigned_abs low.now + step * count ≤ 6 * 2 ^ 31 → AreNear result count }
    {
        Heights {
            slope: self.normal.z,
            base: base(&self.normal, &self.a, column),
            low: way(&twice(&self.triangle.a.z), low),
            step,
        }
    }
}

/// The product of a normal and the way from a corner to a column, without the part that is along z.
fn base(normal: &Vector, corner: &Seen, column: &Seen) -> i128
    requires normal { IsWithin (2 ^ 69) normal.now }
    requires corner { IsCorner corner.now }
    requires column { IsCentre column.now }
    ensures value { result ≡ (normal.now.x *ℤ (column.now.x -ℤ corner.now.x)) +ℤ (normal.now.y *ℤ (column.now.y -ℤ corner.now.y)) }
    ensures within { unsigned_abs result ≤ 2 ^ 104 }
{
    let x = along(&normal.x, &corner.x, &column.x);
    let y = along(&normal.y, &corner.y, &column.y);
    x + y
}

/// The part of the product that is along one axis.
fn along(normal: &i128, corner: &i64, column: &i64) -> i128
    requires normal { unsigned_abs normal.now ≤ 2 ^ 69 }
    requires corner { unsigned_abs corner.now ≤ 2 ^ 32 }
    requires column { unsigned_abs column.now ≤ 6 * 2 ^ 31 }
    ensures value { result ≡ normal.now *ℤ (column.now -ℤ corner.now) }
    ensures within { unsigned_abs result ≤ 2 ^ 103 }
{
    scaled(*normal, way(corner, column))
}

/// The normal of a triangle with doubled corners.
fn normal(triangle: &Triangle) -> Vector
    ensures value { result ≡ normal_of triangle.now }
    ensures within { IsWithin (2 ^ 69) result }
{
    cross(
        &side(&triangle.a, &triangle.b),
        &side(&triangle.a, &triangle.c),
    )
}

/// The way from one doubled corner to another.
fn side(from: &Point, to: &Point) -> NarrowVector
    ensures { result ≡ minus_of (doubled to.now) (doubled from.now) }
{
    NarrowVector::new(
        way(&twice(&from.x), &twice(&to.x)),
        way(&twice(&from.y), &twice(&to.y)),
        way(&twice(&from.z), &twice(&to.z)),
    )
}
