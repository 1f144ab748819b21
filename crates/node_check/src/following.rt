//! The next filled cell.

ghost use Rattle.std.specs.Prelude.{◌≡◌, ℕ, ◌+◌, ◌-◌, ◌*◌, ◌/◌, ◌%◌, ◌^◌, ◌<◌, ◌≤◌, List, IfSome, IfOk, OnOk};
ghost use Rattle.svo_base.specs.declared.grids.TheConstants.{MAX_DEPTH};
ghost use Rattle.octree_specs.specs.Cells.{Cell};
ghost use Rattle.octree_specs.specs.Formats.{StandFor};
ghost use Rattle.node_check.specs.Counts.{HasCauseOf, LooksAsReads};
ghost use Rattle.node_check.specs.Walks.{IsWordOf, RefusesAbove, has_child, GivesNext, GivesNextUnder, LeadsOn, passes};
ghost use Rattle.node_check.specs.Cursors.{IsKept, IsParent};
ghost use Rattle.node_check.specs.declared.walking.WalkFault.TheVariants.{Failed};

use crate::paths::Path;
use crate::walking::{Node, WalkFault, ancestor, has_bit, root};
use node_file::Records;
use std::sync::ledger::Ledger;
use svo_base::Steps;

/// The least code of a filled cell that is at least `from`, or `None` where there is none.
///
/// # Errors
///
/// - `Refused`: a word's children do not all stand before it, so that the file is no node file.
/// - `Failed`: a read failed.
pub fn next_cell<R: Records, L: Ledger>(
    nodes: &mut R,
    from: u64,
    reads: &mut Steps<L>,
) -> Result<Option<u64>, WalkFault>
    ensures told { IfSome (R.file nodes.old).words (λ words. (cells : List Cell) → StandFor (R.file nodes.old).format (R.file nodes.old).grid.depth words cells → GivesNext cells from result) }
    ensures inside { IfOk result (λ next. IfSome next (λ code. (from ≤ code) × (code < 8 ^ (R.file nodes.old).grid.depth))) }
    ensures refused { RefusesAbove (R.file nodes.old).words (R.file nodes.old).totals.records result }
    ensures looked { R.looked nodes.new + reads.old ≤ R.looked nodes.old + reads.new }
    ensures same { R.file nodes.new ≡ R.file nodes.old }
    ensures lender { R.lender nodes.new ≡ R.lender nodes.old }
    ensures cause { HasCauseOf (R.faults nodes.old) (R.faults nodes.new) result Failed }
{
    let depth = nodes.grid().depth();
    let node = root(nodes, reads)?;
    let mut path = Path::at(node);
    let next = next_under(nodes, &mut path, depth, &node, 0, from, reads)?;
    Ok(next)
}

/// The same below the node with this code, so many levels above the cells, along the nodes that were
/// entered last. The path then has the node just above the cell.
pub fn next_under<R: Records, L: Ledger>(
    nodes: &mut R,
    path: &mut Path,
    height: u32,
    node: &Node,
    code: u64,
    from: u64,
    reads: &mut Steps<L>,
) -> Result<Option<u64>, WalkFault>
    requires least { 1 ≤ height }
    requires most { height ≤ MAX_DEPTH }
    requires code { code < 8 ^ (MAX_DEPTH - height) }
    requires own { IsWordOf (R.file nodes.old).words (R.file nodes.old).totals.records node.now.number node.now.word }
    requires kept { IsKept (R.file nodes.old).words (R.file nodes.old).totals.records path.old }
    ensures told { IfSome (R.file nodes.old).words (λ words. (cells : List Cell) → LeadsOn words (R.file nodes.old).format cells height code node.now.number → GivesNextUnder cells height code from result) }
    ensures inside { IfOk result (λ next. IfSome next (λ cell. (from ≤ cell) × (cell / 8 ^ height ≡ code))) }
    ensures kept { IsKept (R.file nodes.old).words (R.file nodes.old).totals.records path.new }
    ensures parent { IfOk result (λ next. IfSome next (λ cell. IsParent (R.file nodes.old).words (R.file nodes.old).totals.records (R.file nodes.old).format height code node.now.number cell path.new.parent)) }
    ensures refused { RefusesAbove (R.file nodes.old).words (R.file nodes.old).totals.records result }
    ensures looked { LooksAsReads (R.looked nodes.old) (R.looked nodes.new) reads.old reads.new }
    ensures same { R.file nodes.new ≡ R.file nodes.old }
    ensures lender { R.lender nodes.new ≡ R.lender nodes.old }
    ensures cause { HasCauseOf (R.faults nodes.old) (R.faults nodes.new) result Failed }
{
    let below = height - 1;
    let least = ancestor(from, below);
    for place in 0..8 {
        let child = 8 * code + place;
        if is_passed(node.word, place, child, least) {
            continue;
        }
        if below == 0 {
            path.parent = *node;
            return Ok(Some(child));
        }
        let next = path.enter(nodes, node, place, below, reads)?;
        if let Some(cell) = next_under(nodes, path, below, &next, child, from, reads)? {
            return Ok(Some(cell));
        }
    }
    Ok(None)
}

/// Whether a child lies before the least node that is asked for, or is not there.
fn is_passed(word: u64, place: u64, child: u64, least: u64) -> bool
    requires { place < 8 }
    ensures { result ≡ passes word place child least }
{
    child < least || !has_bit(word, place)
}
