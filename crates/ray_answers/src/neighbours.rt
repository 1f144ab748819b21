//! The answers to points.

ghost use Rattle.std.specs.Prelude.{◌≡◌, ◌<◌, ◌^◌, List};
ghost use Rattle.octree_specs.specs.Cells.{Cell};
ghost use Rattle.near_query.specs.declared.cells.NearFault.{NearFault};
ghost use Rattle.node_check.specs.Counts.{HasCauseOf};
ghost use Rattle.node_check.specs.declared.walking.WalkFault.{WalkFault};
ghost use Rattle.ray_walk.specs.Answers.{TellsCells};
ghost use Rattle.ray_answers.specs.AnswerLines.{near_line};
ghost use Rattle.ray_answers.specs.Runs.{FindsNeighbour, HasCellFace, RefusesNear};

use crate::answer_line::{AnswerLine, push_number, push_square};
use crate::queries::Point;
use near_query::{NearCell, NearFault, Search};
use node_check::face_of;
use node_file::Records;
use std::sync::ledger::Ledger;
use svo_base::Steps;

/// The filled cell nearest to a point: the square of the distance to its closed cube, its Morton code
/// and its face.
#[derive(Clone, Copy, Debug, PartialEq, Eq)]
pub struct FacedCell {
    pub distance: u128,
    pub code: u64,
    pub face: u32,
}

/// The answer to a point. A filled cell has a face in every node file; on other words, where it may have
/// none, it is not answered.
pub fn neighbour_of<R: Records, L: Ledger>(
    nodes: &mut R,
    point: &Point,
    search: &mut Search,
    reads: &mut Steps<L>,
) -> Result<Option<FacedCell>, NearFault>
    ensures found { (cells : List Cell) → TellsCells (R.file nodes.old) cells → FindsNeighbour (R.file nodes.old).grid cells point.now result }
    ensures refused { RefusesNear (R.file nodes.old).words (R.file nodes.old).totals.records (R.file nodes.old).grid.depth result }
    ensures cause { HasCauseOf (R.faults nodes.old) (R.faults nodes.new) result (NearFault.Walk WalkFault.Failed) }
    ensures same { R.file nodes.new ≡ R.file nodes.old }
    ensures lender { R.lender nodes.new ≡ R.lender nodes.old }
{
    match search.near(nodes, point.at(), reads) {
        Err(fault) => Err(fault),
        Ok(None) => Ok(None),
        Ok(Some(cell)) => faced(nodes, &cell, reads),
    }
}

/// The cell with its face.
fn faced<R: Records, L: Ledger>(
    nodes: &mut R,
    cell: &NearCell,
    reads: &mut Steps<L>,
) -> Result<Option<FacedCell>, NearFault>
    requires { cell.now.code < 8 ^ (R.file nodes.old).grid.depth }
    ensures face { (cells : List Cell) → TellsCells (R.file nodes.old) cells → HasCellFace cells cell.now result }
    ensures refused { RefusesNear (R.file nodes.old).words (R.file nodes.old).totals.records (R.file nodes.old).grid.depth result }
    ensures cause { HasCauseOf (R.faults nodes.old) (R.faults nodes.new) result (NearFault.Walk WalkFault.Failed) }
    ensures same { R.file nodes.new ≡ R.file nodes.old }
    ensures lender { R.lender nodes.new ≡ R.lender nodes.old }
{
    match face_of(nodes, cell.code, reads) {
        Err(fault) => Err(NearFault::Walk(fault)),
        Ok(None) => Ok(None),
        Ok(Some(face)) => Ok(Some(FacedCell {
            distance: cell.distance,
            code: cell.code,
            face,
        })),
    }
}

/// The line of a nearest cell, or of none.
#[tactic(auto, unfolding(crate::specs::AnswerLines::near_line))]
pub fn near_line(answer: &Option<FacedCell>) -> AnswerLine
    ensures { result.bytes ≡ near_line answer.now }
{
    let mut line = AnswerLine::new();
    match answer {
        None => line.push_str("none\n"),
        Some(cell) => {
            line.push_str("near ");
            push_square(&mut line, cell.distance);
            line.push_str(" cell ");
            push_number(&mut line, cell.code);
            line.push_str(" face ");
            push_number(&mut line, u64::from(cell.face));
            line.push_str("\n");
        }
    }
    line
}
