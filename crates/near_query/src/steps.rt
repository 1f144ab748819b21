//! What becomes of the children of a node.

ghost use Rattle.std.specs.Prelude.{◌≡◌, ◌+◌, ◌-◌, ◌*◌, ◌<◌, ◌^◌, IfOk, cond};
ghost use Rattle.std.specs.Result.{IfErr};
ghost use Rattle.svo_base.specs.GridShape.{IsGrid};
ghost use Rattle.octree_specs.specs.Walking.{child_number as number_of};
ghost use Rattle.near_query.specs.Distances.{IsPoint};
ghost use Rattle.near_query.specs.Halves.{AreOctants};
ghost use Rattle.near_query.specs.Nodes.{IsNode, IsRefusal, IsStep, improves_on, is_nearer_than};

use crate::cells::NearCell;
use crate::measures::{Measure, Octants};
use crate::queues::Waiting;
use node_check::{WalkFault, has_bit};

/// What becomes of a child.
#[derive(Clone, Copy)]
pub enum Step {
    /// It is empty, or no cell under it comes before the best cell so far.
    Skip,
    /// It is a cell, and the best so far.
    Take(NearCell),
    /// It is to wait.
    Enter(Waiting),
}

/// What becomes of the child at a place of a node, of which this is the word. It is refused where it
/// places the child at the node's own number or behind.
pub fn next(
    measure: &Measure,
    node: &Waiting,
    octants: &Octants,
    word: u64,
    place: u64,
    known: Option<NearCell>,
) -> Result<Step, WalkFault>
    requires place { place < 8 }
    requires grid { IsGrid measure.now.grid }
    requires node { IsNode measure.now.point measure.now.grid node.now }
    requires octants { AreOctants measure.now.point measure.now.grid (node.now.height - 1) node.now.code octants.now }
    ensures step { IfOk result (IsStep measure.now.point measure.now.grid node.now word place known) }
    ensures fault { IfErr result (IsRefusal node.now word) }
{
    if !has_bit(word, place) {
        return Ok(Step::Skip);
    }
    let distance = octants.distance(place);
    if is_nearer(known, distance) {
        return Ok(Step::Skip);
    }
    let code = 8 * node.code + place;
    if node.height == 1 {
        return Ok(taken(NearCell { distance, code }, known));
    }
    let number = child_number(word, place);
    if number >= node.number {
        return Err(WalkFault::Refused {
            number: node.number,
            word,
        });
    }
    Ok(Step::Enter(Waiting {
        distance,
        height: node.height - 1,
        code,
        number,
    }))
}

/// The number of the word of the child at a place.
fn child_number(word: u64, place: u64) -> u64
    requires { place < 8 }
    ensures { result ≡ number_of word place }
{
    word / 256 + u64::from((word % (1 << place)).count_ones())
}

/// Whether the best cell that is known is nearer than what is at a distance.
pub fn is_nearer(known: Option<NearCell>, distance: u128) -> bool
    ensures { result ≡ is_nearer_than known distance }
{
    match known {
        Some(best) => best.distance < distance,
        None => false,
    }
}

/// Whether a cell that is not farther than the best cell that is known comes before it.
fn improves(cell: &NearCell, known: Option<NearCell>) -> bool
    ensures { result ≡ improves_on cell.now known }
{
    match known {
        Some(best) => cell.distance < best.distance || cell.code < best.code,
        None => true,
    }
}

/// A cell that is not farther than the best cell that is known.
fn taken(cell: NearCell, known: Option<NearCell>) -> Step
    ensures { result ≡ cond (improves_on cell known) (Step.Take cell) Step.Skip }
{
    if improves(&cell, known) {
        Step::Take(cell)
    } else {
        Step::Skip
    }
}
