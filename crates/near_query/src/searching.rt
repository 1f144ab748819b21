//! Searches for the nearest filled cell.

ghost use Rattle.std.specs.Prelude.{◌≡◌, ◌<◌, ◌≤◌, ◌^◌, List, IfOk, IfSome, Option};
ghost use Rattle.std.specs.Result.{IfErr};
ghost use Rattle.octree_specs.specs.Cells.{Cell};
ghost use Rattle.ray_walk.specs.Answers.{TellsCells};
ghost use Rattle.near_query.specs.Distances.{IsPoint};
ghost use Rattle.near_query.specs.Faults.{IsCaused, RefusesNone};
ghost use Rattle.near_query.specs.Nearest.{AreFew, IsNearest};

use crate::cells::{NearCell, NearFault};
use crate::measures::Measure;
use crate::queues::{Queue, Waiting};
use crate::steps::is_nearer;
use crate::walking::visit;
use node_file::Records;
use ray_walk::read_word;
use std::alloc::Global;
use std::sync::ledger::Ledger;
use svo_base::Steps;

/// What searches keep from one point to the next, so that they share the memory for nodes that wait.
#[derive(Drop)]
pub struct Search {
    waiting: Queue,
}

impl Search {
    /// Searches that took no memory yet.
    pub fn new(alloc: Global) -> Search {
        let waiting = Queue::new(alloc);
        Search { waiting }
    }

    /// The same as [`near`], in the memory that earlier searches took.
    pub fn near<R: Records, L: Ledger>(
        &mut self,
        nodes: &mut R,
        point: [i64; 3],
        reads: &mut Steps<L>,
    ) -> Result<Option<NearCell>, NearFault>
        requires { IsPoint point }
        ensures nearest { (cells : List Cell) → TellsCells (R.file nodes.old) cells → IfOk result (IsNearest point (R.file nodes.old).grid cells) }
        ensures reads { (cells : List Cell) → TellsCells (R.file nodes.old) cells → AreFew point (R.file nodes.old).grid cells reads.old reads.new }
        ensures looked { (cells : List Cell) → TellsCells (R.file nodes.old) cells → AreFew point (R.file nodes.old).grid cells (R.looked nodes.old) (R.looked nodes.new) }
        ensures sound { (cells : List Cell) → TellsCells (R.file nodes.old) cells → IfErr result RefusesNone }
        ensures code { IfOk result (λ nearest. IfSome nearest (λ cell. cell.code < 8 ^ (R.file nodes.old).grid.depth)) }
        ensures cause { IfErr result (IsCaused (R.file nodes.old).words (R.faults nodes.old) (R.faults nodes.new)) }
        ensures later { R.faults nodes.old ≤ R.faults nodes.new }
        ensures same { R.file nodes.new ≡ R.file nodes.old }
        ensures lender { R.lender nodes.new ≡ R.lender nodes.old }
    {
        let measure = Measure {
            grid: nodes.grid(),
            point,
        };
        self.waiting.clear();
        let root = Waiting {
            distance: measure.root(),
            height: measure.grid.depth(),
            code: 0,
            number: nodes.totals().records - 1,
        };
        self.waiting.put(root)?;
        let mut best: Option<NearCell> = None;
        while let Some(node) = self.waiting.take() {
            // A node as far as the best cell is read, too: a cell under it may have a lesser code.
            if is_nearer(best, node.distance) {
                break;
            }
            let word = read_word(nodes, node.number, reads)?;
            best = visit(&measure, &node, word, best, &mut self.waiting)?;
        }
        Ok(best)
    }
}

/// The filled cell whose closed cube is nearest to a point, of components of size at most 2^40, with the
/// square of the distance; the least code of those that are nearest; `None` where no cell is filled. That
/// is said of the words of a node file, in either format; on any others a code is below 8 to the depth. It
/// reads no more words than there are nodes above the cells that are not farther than that cell.
///
/// # Errors
/// - `Walk(Failed)`: a read failed, where a fault was counted.
/// - `Walk(Refused)`: a word places a child at its own number or behind, which no node file's word does.
/// - `Memory`: there is no memory for the nodes that wait.
pub fn near<R: Records, L: Ledger>(
    alloc: Global,
    nodes: &mut R,
    point: [i64; 3],
    reads: &mut Steps<L>,
) -> Result<Option<NearCell>, NearFault>
    requires { IsPoint point }
    ensures nearest { (cells : List Cell) → TellsCells (R.file nodes.old) cells → IfOk result (IsNearest point (R.file nodes.old).grid cells) }
    ensures reads { (cells : List Cell) → TellsCells (R.file nodes.old) cells → AreFew point (R.file nodes.old).grid cells reads.old reads.new }
    ensures looked { (cells : List Cell) → TellsCells (R.file nodes.old) cells → AreFew point (R.file nodes.old).grid cells (R.looked nodes.old) (R.looked nodes.new) }
    ensures sound { (cells : List Cell) → TellsCells (R.file nodes.old) cells → IfErr result RefusesNone }
    ensures code { IfOk result (λ nearest. IfSome nearest (λ cell. cell.code < 8 ^ (R.file nodes.old).grid.depth)) }
    ensures cause { IfErr result (IsCaused (R.file nodes.old).words (R.faults nodes.old) (R.faults nodes.new)) }
    ensures later { R.faults nodes.old ≤ R.faults nodes.new }
    ensures same { R.file nodes.new ≡ R.file nodes.old }
    ensures lender { R.lender nodes.new ≡ R.lender nodes.old }
{
    let mut search = Search::new(alloc);
    search.near(nodes, point, reads)
}
