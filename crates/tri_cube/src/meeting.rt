//! The answer for a triangle and a cube.

ghost use Rattle.std.specs.Prelude.{◌≡◌, ◌+◌, ◌↔◌, IsTrue};
ghost use Rattle.octree_specs.specs.Meeting.{HasPlanes, Meets};

use crate::candidates::first_good_weights;
use crate::prepared::PreparedTriangle;
use std::sync::ledger::Ledger;
use svo_base::{Cube, Steps, Triangle};

/// Whether a closed triangle and a closed cube share a point, which is counted as one test. Planes
/// of the cube may be at most 2^33 away from 0. Whoever asks for many cubes prepares the triangle.
pub fn overlaps<L: Ledger>(triangle: &Triangle, cube: &Cube, tests: &mut Steps<L>) -> bool
    requires { HasPlanes cube.now }
    ensures meets { IsTrue result ↔ Meets triangle.now cube.now }
    ensures tests { tests.new ≡ tests.old + 1 }
{
    PreparedTriangle::new(triangle).overlaps(cube, tests)
}

/// The same by trying the candidates for weights one after the other, with which the faster test is
/// compared. It counts nothing.
#[tactic(auto, using(crate::proofs::FirstGood::some_good_where_met))]
pub fn overlaps_by_candidates(triangle: &Triangle, cube: &Cube) -> bool
    requires { HasPlanes cube.now }
    ensures { IsTrue result ↔ Meets triangle.now cube.now }
{
    first_good_weights(triangle, cube).is_some()
}
