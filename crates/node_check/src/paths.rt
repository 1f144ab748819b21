//! The nodes that a walk over cells is at, one of each height.

ghost use Rattle.std.specs.Prelude.{Option, List, IsTrue, ◌≡◌, ℕ, ◌+◌, ◌*◌, ◌/◌, ◌%◌, ◌^◌, ◌==◌, ◌<◌, ◌≤◌, true, slice_index, IfSome, IfOk, IfErr, OnOk};
ghost use Rattle.svo_base.specs.declared.grids.TheConstants.{MAX_DEPTH};
ghost use Rattle.octree_specs.specs.Walking.{child_number};
ghost use Rattle.node_check.specs.Counts.{HasCauseOf, LooksAsReads};
ghost use Rattle.node_check.specs.Walks.{IsWordOf, RefusesAbove, has_child};
ghost use Rattle.node_check.specs.Cursors.{IsKept};
ghost use Rattle.node_check.specs.declared.walking.WalkFault.TheVariants.{Failed};

use crate::walking::{Node, WalkFault, child_at, number_of_child};
use node_file::Records;
use std::sync::ledger::Ledger;
use svo_base::{MAX_LEVELS, Steps};

/// The node of each height that was entered last, and the one just above the cell that was found last.
#[derive(Clone, Copy, Debug)]
pub struct Path {
    pub nodes: [Node; MAX_LEVELS],
    pub parent: Node,
}

impl Path {
    /// A path on which nothing but this node was entered.
    pub fn at(root: Node) -> Path
        ensures { (told : Option (List ℕ)) → (records : ℕ) → IsWordOf told records root.number root.word → IsKept told records result }
    {
        Path {
            nodes: [root; MAX_LEVELS],
            parent: root,
        }
    }

    /// The child at a place, which the node's word has. It is read where it was not entered last.
    pub fn enter<R: Records, L: Ledger>(
        &mut self,
        nodes: &mut R,
        node: &Node,
        place: u64,
        height: u32,
        reads: &mut Steps<L>,
    ) -> Result<Node, WalkFault>
        requires octant { place < 8 }
        requires height { height < MAX_DEPTH }
        requires bit { has_child node.now.word place ≡ true }
        requires own { IsWordOf (R.file nodes.old).words (R.file nodes.old).totals.records node.now.number node.now.word }
        requires kept { IsKept (R.file nodes.old).words (R.file nodes.old).totals.records self.old }
        ensures number { IfOk result (λ child. child.number ≡ child_number node.now.word place) }
        ensures word { IfOk result (λ child. IsWordOf (R.file nodes.old).words (R.file nodes.old).totals.records child.number child.word) }
        ensures refused { RefusesAbove (R.file nodes.old).words (R.file nodes.old).totals.records result }
        ensures below { child_number node.now.word place < node.now.number → IfErr result (λ fault. fault ≡ Failed) }
        ensures kept { IsKept (R.file nodes.old).words (R.file nodes.old).totals.records self.new }
        ensures reads { reads.new ≤ reads.old + 1 }
        ensures looked { LooksAsReads (R.looked nodes.old) (R.looked nodes.new) reads.old reads.new }
        ensures same { R.file nodes.new ≡ R.file nodes.old }
        ensures lender { R.lender nodes.new ≡ R.lender nodes.old }
        ensures cause { HasCauseOf (R.faults nodes.old) (R.faults nodes.new) result Failed }
    {
        let entered = self.nodes[height as usize];
        if is_entered(&entered, node, place) {
            return Ok(entered);
        }
        let child = child_at(nodes, node, place, reads)?;
        self.nodes[height as usize] = child;
        Ok(child)
    }
}

/// Whether this is the child at a place, and stands before the node.
fn is_entered(entered: &Node, node: &Node, place: u64) -> bool
    requires octant { place < 8 }
    ensures { IsTrue result → (entered.now.number ≡ child_number node.now.word place) }
{
    let number = number_of_child(node.word, place);
    number < node.number && entered.number == number
}
