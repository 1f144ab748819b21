//! The first candidate that is good. Candidates are the cross products of two rows, and their
//! opposites, as weights of a triangle's corners.

ghost use Rattle.std.specs.Prelude.{◌≡◌, ◌++◌, ◌^◌, ◌&&◌, ◌<◌, [], pos, int_le, slice_index_or};
ghost use Rattle.std.specs.List.{find, flat_map, list_all};
ghost use Rattle.case_table.specs.CaseLists.{row_pair_list};
ghost use Rattle.octree_specs.specs.Meeting.{HasPlanes};
ghost use Rattle.octree_specs.specs.Vectors.{IsWithin, dot_of, is_zero_vector};
ghost use Rattle.octree_specs.specs.Candidates.{is_good};
ghost use Rattle.tri_cube.specs.CandidatesInTurn.{candidates_at, candidates_by_case, first_good};
ghost use Rattle.tri_cube.specs.Sides.{unit_rows};

use crate::narrow::NarrowVector;
use crate::products::{cross, dot, opposite};
use crate::rows::{sides, with_units};
use case_table::{Cases, row_pairs};
use svo_base::{Cube, Triangle, Vector};

/// The first candidate of a triangle and a cube that is good.
pub fn first_good_weights(triangle: &Triangle, cube: &Cube) -> Option<Vector>
    requires { HasPlanes cube.now }
    ensures { result ≡ first_good triangle.now cube.now }
{
    let sides = sides(triangle, cube);
    first_good_of(&with_units(&sides), &sides)
}

/// The first good candidate, pair by pair of the rows.
fn first_good_of(rows: &[NarrowVector; 9], sides: &[NarrowVector; 6]) -> Option<Vector>
    ensures { result ≡ find (is_good (unit_rows ++ sides.now)) (flat_map (candidates_by_case rows.now) row_pair_list) }
{
    let pairs = row_pairs();
    for place in 0..36 {
        let found = good_at(&pairs, place, rows, sides);
        if found.is_some() {
            return found;
        }
    }
    None
}

/// The first of the two candidates of the pair at a place that is good.
#[tactic(auto, unfolding(crate::specs::CandidatesInTurn::candidates_by_case))]
fn good_at(
    pairs: &Cases<36>,
    place: usize,
    rows: &[NarrowVector; 9],
    sides: &[NarrowVector; 6],
) -> Option<Vector>
    requires pairs { pairs.now ≡ row_pair_list }
    requires place { place < 36 }
    ensures { result ≡ find (is_good (unit_rows ++ sides.now)) (candidates_by_case rows.now (slice_index_or row_pair_list place [])) }
{
    let [i, j, _] = pairs.get(place);
    good_of(&rows[usize::from(i)], &rows[usize::from(j)], sides)
}

/// The first of the two candidates of a pair of rows that is good.
fn good_of(a: &NarrowVector, b: &NarrowVector, sides: &[NarrowVector; 6]) -> Option<Vector>
    ensures { result ≡ find (is_good (unit_rows ++ sides.now)) (candidates_at a.now b.now) }
{
    let weights = cross(a, b);
    if are_good(&weights, sides) {
        return Some(weights);
    }
    let turned = opposite(&weights);
    if are_good(&turned, sides) {
        Some(turned)
    } else {
        None
    }
}

/// Whether weights are not all zero, none of them is negative, and they clear all sides.
fn are_good(weights: &Vector, sides: &[NarrowVector; 6]) -> bool
    requires { IsWithin (2 ^ 69) weights.now }
    ensures { result ≡ is_good (unit_rows ++ sides.now) weights.now }
{
    are_weights(weights) && clears(weights, sides)
}

/// Whether weights are not all zero, and none of them is negative.
fn are_weights(weights: &Vector) -> bool
    ensures { result ≡ is_good unit_rows weights.now }
{
    clears_units(weights) && !is_zero(weights)
}

/// Whether no weight is negative.
#[tactic(auto, using(octree_specs::proofs::Vectors::products_with_units))]
fn clears_units(weights: &Vector) -> bool
    ensures { result ≡ list_all (λ row. int_le (pos 0) (dot_of weights.now row)) unit_rows }
{
    weights.x >= 0 && weights.y >= 0 && weights.z >= 0
}

fn is_zero(weights: &Vector) -> bool
    ensures { result ≡ is_zero_vector weights.now }
{
    weights.x == 0 && weights.y == 0 && weights.z == 0
}

/// Whether weights clear all sides.
fn clears(weights: &Vector, sides: &[NarrowVector; 6]) -> bool
    requires { IsWithin (2 ^ 69) weights.now }
    ensures { result ≡ list_all (λ row. int_le (pos 0) (dot_of weights.now row)) sides.now }
{
    sides.iter().all(|row| dot(weights, row) >= 0)
}
