//! What is found right under a node.

ghost use Rattle.std.specs.Prelude.{◌≡◌, ℕ, ◌+◌, ◌<◌, ◌≤◌, ◌^◌, All, List, IfOk, IfSome, OnOk};
ghost use Rattle.std.specs.Result.{IfErr};
ghost use Rattle.svo_base.specs.GridShape.{IsGrid};
ghost use Rattle.octree_specs.specs.Cells.{Cell};
ghost use Rattle.near_query.specs.Distances.{IsPoint};
ghost use Rattle.near_query.specs.Frontiers.{IsOnTree, IsVisited};
ghost use Rattle.near_query.specs.Nodes.{IsNode, IsStop};
ghost use Rattle.near_query.specs.Queues.{weight_of};

use crate::cells::{NearCell, NearFault};
use crate::measures::Measure;
use crate::queues::{Queue, Waiting};
use crate::steps::{Step, next};

/// The best of the cell that is known and of those right under a node, of which this is the word. Its
/// children above the cells are put among those that wait, where no cell that is known is nearer.
pub fn visit(
    measure: &Measure,
    node: &Waiting,
    word: u64,
    known: Option<NearCell>,
    waiting: &mut Queue,
) -> Result<Option<NearCell>, NearFault>
    requires point { IsPoint measure.now.point }
    requires grid { IsGrid measure.now.grid }
    requires node { IsNode measure.now.point measure.now.grid node.now }
    requires known { IfSome known (λ best. best.code < 8 ^ measure.now.grid.depth) }
    requires nodes { All (IsNode measure.now.point measure.now.grid) waiting.old }
    ensures told { (words : List ℕ) (cells : List Cell) → IsOnTree words cells node.now word → IsVisited words cells measure.now.point measure.now.grid node.now known waiting.old waiting.new result }
    ensures nodes { OnOk result (All (IsNode measure.now.point measure.now.grid) waiting.new) }
    ensures there { (records : ℕ) → node.now.number < records → All (λ other. other.number < records) waiting.old → OnOk result (All (λ other. other.number < records) waiting.new) }
    ensures code { IfOk result (λ best. IfSome best (λ b. b.code < 8 ^ measure.now.grid.depth)) }
    ensures fewer { OnOk result (weight_of waiting.new < weight_of waiting.old + 9 ^ node.now.height) }
    ensures cause { IfErr result (IsStop node.now word) }
{
    let octants = measure.octants(node.height, node.code);
    let mut best = known;
    for place in 0..8 {
        match next(measure, node, &octants, word, place, best)? {
            Step::Skip => {}
            Step::Take(cell) => best = Some(cell),
            Step::Enter(child) => waiting.put(child)?,
        }
    }
    Ok(best)
}
