//! Why a triangle and a cube share a point, or do not.

ghost use Rattle.std.specs.Prelude.{◌≡◌, ◌<◌, ◌^◌, int_lt, None};
ghost use Rattle.octree_specs.specs.Meeting.{HasPlanes};
ghost use Rattle.octree_specs.specs.Vectors.{IsWithin, dot_of};
ghost use Rattle.tri_cube.specs.Axes.{axis_at, edge_at, first_separating, separates, unit_at};
ghost use Rattle.tri_cube.specs.Edges.{corner};
ghost use Rattle.tri_cube.specs.SeenAlong.{is_ahead, seen_along};
ghost use Rattle.tri_cube.specs.Verdicts.{Says};

use crate::candidates::first_good_weights;
use crate::extents::Extents;
use crate::narrow::NarrowVector;
use crate::planes::{edge, least, normal, reach};
use crate::products::{cross, opposite};
use case_table::axis_cases;
use svo_base::{Cube, Point, Triangle, Vector};

/// Why a triangle and a cube share a point, or do not.
#[derive(Clone, Copy, Debug, PartialEq, Eq)]
pub enum Verdict {
    /// They share the point with these weights of the triangle's corners, divided by their sum.
    Meets(i128, i128, i128),
    /// The axis with this number, from 0 to 12, separates them.
    Apart(u8),
}

/// Why a closed triangle and a closed cube share a point, or do not: the first good candidate for
/// weights where they share one, and else the first of the thirteen axes that separates them
/// (Schwarz, Seidel 2010). Planes of the cube may be at most 2^33 away from 0; a cube whose planes are
/// in the wrong order has no point, and each axis separates it.
pub fn why(triangle: &Triangle, cube: &Cube) -> Verdict
    requires { HasPlanes cube.now }
    ensures { Says triangle.now cube.now result }
{
    match first_axis(triangle, cube) {
        Some(number) => Verdict::Apart(number),
        None => shared_point(triangle, cube),
    }
}

/// The first good candidate, where no axis separates.
fn shared_point(triangle: &Triangle, cube: &Cube) -> Verdict
    requires planes { HasPlanes cube.now }
    requires unseparated { first_separating triangle.now cube.now ≡ None }
    ensures { Says triangle.now cube.now result }
{
    match first_good_weights(triangle, cube) {
        Some(weights) => Verdict::Meets(weights.x, weights.y, weights.z),
        None => unreachable!(),
    }
}

/// The number of the first axis that separates.
#[tactic(auto, unfolding(crate::specs::Axes::first_separating))]
fn first_axis(triangle: &Triangle, cube: &Cube) -> Option<u8>
    requires { HasPlanes cube.now }
    ensures { result ≡ first_separating triangle.now cube.now }
{
    (0..13).find(|number| is_separating(*number, triangle, cube))
}

/// Whether the axis with this number separates.
#[tactic(auto, using(crate::proofs::CornerProducts::separates_by_box))]
fn is_separating(number: u8, triangle: &Triangle, cube: &Cube) -> bool
    requires planes { HasPlanes cube.now }
    requires number { number < 13 }
    ensures { result ≡ separates triangle.now cube.now (axis_at triangle.now number) }
{
    let extents = Extents::of_cube(cube);
    !extents.are_in_order() || is_along(&axis(triangle, number), triangle, &extents)
}

/// Whether all of the triangle is before all of a box, or behind it, along an axis.
#[tactic(auto, unfolding(crate::specs::SeenAlong::seen_along))]
fn is_along(axis: &Vector, triangle: &Triangle, extents: &Extents) -> bool
    requires { IsWithin (2 ^ 69) axis.now }
    ensures { result ≡ seen_along triangle.now extents.now axis.now }
{
    is_before(axis, triangle, extents) || is_before(&opposite(axis), triangle, extents)
}

/// Whether all of a box is farther in a direction than the triangle.
#[tactic(auto, unfolding(crate::specs::SeenAlong::is_ahead))]
fn is_before(direction: &Vector, triangle: &Triangle, extents: &Extents) -> bool
    requires { IsWithin (2 ^ 69) direction.now }
    ensures { result ≡ is_ahead triangle.now extents.now direction.now }
{
    let least = least(direction, extents);
    is_nearer(direction, &triangle.a, &least)
        && is_nearer(direction, &triangle.b, &least)
        && is_nearer(direction, &triangle.c, &least)
}

/// Whether a corner is less far in a direction.
fn is_nearer(direction: &Vector, at: &Point, far: &i128) -> bool
    requires { IsWithin (2 ^ 69) direction.now }
    ensures { result ≡ int_lt (dot_of direction.now (corner at.now)) far.now }
{
    reach(direction, at) < *far
}

/// The axis with this number.
#[tactic(auto, unfolding(crate::specs::Axes::axis_at))]
fn axis(triangle: &Triangle, number: u8) -> Vector
    requires { number < 13 }
    ensures value { result ≡ axis_at triangle.now number }
    ensures within { IsWithin (2 ^ 69) result }
{
    let [kind, i, k] = axis_cases().get(usize::from(number));
    match kind {
        0 => unit(k).widened(),
        1 => normal(triangle),
        _ => cross(&numbered_edge(triangle, i), &unit(k)),
    }
}

/// The unit vector along an axis, which is numbered 0, 1, 2.
fn unit(k: u8) -> NarrowVector
    ensures { result ≡ unit_at k }
{
    match k {
        0 => NarrowVector::new(1, 0, 0),
        1 => NarrowVector::new(0, 1, 0),
        _ => NarrowVector::new(0, 0, 1),
    }
}

/// The edge from a corner to the next, by its number 0, 1, 2.
fn numbered_edge(triangle: &Triangle, i: u8) -> NarrowVector
    ensures { result ≡ edge_at triangle.now i }
{
    match i {
        0 => edge(&triangle.a, &triangle.b),
        1 => edge(&triangle.b, &triangle.c),
        _ => edge(&triangle.c, &triangle.a),
    }
}
