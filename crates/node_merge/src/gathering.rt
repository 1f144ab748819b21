//! The nodes of a file so many levels above its cells, each with the least face of its cells.

ghost use Rattle.std.specs.Prelude.{◌≡◌, ℕ, ◌+◌, ◌-◌, ◌*◌, ◌^◌, ◌<◌, ◌≤◌, List, IfOk, IfSome, OnOk};
ghost use Rattle.octree_specs.specs.Cells.{Cell};
ghost use Rattle.node_check.specs.Counts.{HasCauseOf};
ghost use Rattle.node_check.specs.Cursors.{RefusesAtNoCell};
ghost use Rattle.node_check.specs.declared.walking.WalkFault.TheVariants.{Failed};
ghost use Rattle.node_merge.specs.Gathered.{face_under, codes_left, GathersNext};
ghost use Rattle.node_merge.specs.Maps.{IsMapOf};
ghost use Rattle.node_merge.specs.Pushing.{IsFront, IsUnrefusedWalk};

use crate::fronts::Front;
use level_queues::ancestor;
use node_check::{CellWalk, FacedCell, WalkFault};
use node_file::Records;
use std::sync::ledger::Ledger;
use svo_base::Steps;

/// The first cell of a file.
pub fn first_cell<R: Records, L: Ledger>(
    nodes: &mut R,
    reads: &mut Steps<L>,
) -> Result<Front, WalkFault>
    ensures front { IfOk result (IsFront (R.file nodes.old) 0) }
    ensures unrefused { (cells : List Cell) → IsMapOf (R.file nodes.old) cells → IsUnrefusedWalk result }
    ensures refused { RefusesAtNoCell (R.file nodes.old).words (R.file nodes.old).totals.records (R.file nodes.old).grid.depth result }
    ensures same { R.file nodes.new ≡ R.file nodes.old }
    ensures lender { R.lender nodes.new ≡ R.lender nodes.old }
    ensures cause { HasCauseOf (R.faults nodes.old) (R.faults nodes.new) result Failed }
{
    let mut walk = CellWalk::new(nodes, 0, reads)?;
    let head = walk.next_faced(nodes, reads)?;
    Ok(Front { walk, head })
}

/// Goes on behind the cell that the walk gave last.
fn go_past<R: Records, L: Ledger>(
    nodes: &mut R,
    front: &mut Front,
    reads: &mut Steps<L>,
) -> Result<(), WalkFault>
    requires front { (at : ℕ) × IsFront (R.file nodes.old) at front.old }
    ensures front { OnOk result (IfSome front.old.head (λ cell. IsFront (R.file nodes.old) (cell.code + 1) front.new)) }
    ensures unrefused { (cells : List Cell) → IsMapOf (R.file nodes.old) cells → IsUnrefusedWalk result }
    ensures refused { RefusesAtNoCell (R.file nodes.old).words (R.file nodes.old).totals.records (R.file nodes.old).grid.depth result }
    ensures same { R.file nodes.new ≡ R.file nodes.old }
    ensures lender { R.lender nodes.new ≡ R.lender nodes.old }
    ensures cause { HasCauseOf (R.faults nodes.old) (R.faults nodes.new) result Failed }
{
    front.head = front.walk.next_faced(nodes, reads)?;
    Ok(())
}

/// The face of a cell, where it lies under this node.
fn face_under(levels: u32, node: u64, cell: Option<FacedCell>) -> Option<u32>
    requires { levels ≤ 20 }
    ensures { result ≡ face_under levels node cell }
{
    match cell {
        Some(cell) if ancestor(cell.code, levels) == node => Some(cell.face),
        _ => None,
    }
}

/// The node over the cell that the walk gave last, with the least face of the cells under it. All of
/// these are read, and the first cell behind them.
pub fn gather<R: Records, L: Ledger>(
    nodes: &mut R,
    levels: u32,
    front: &mut Front,
    reads: &mut Steps<L>,
) -> Result<Option<FacedCell>, WalkFault>
    requires levels { levels ≤ (R.file nodes.old).grid.depth }
    requires front { (from : ℕ) × IsFront (R.file nodes.old) (from * 8 ^ levels) front.old }
    ensures node { IfOk result (λ node. (from : ℕ) → IsFront (R.file nodes.old) (from * 8 ^ levels) front.old → GathersNext (R.file nodes.old) levels from front.new node) }
    ensures face { IfOk result (λ node. IfSome node (λ node. node.face ≤ 4294967294)) }
    ensures fewer { IfOk result (λ node. IfSome node (λ node. codes_left (8 ^ (R.file nodes.old).grid.depth) front.new.head < codes_left (8 ^ (R.file nodes.old).grid.depth) front.old.head)) }
    ensures unrefused { (cells : List Cell) → IsMapOf (R.file nodes.old) cells → IsUnrefusedWalk result }
    ensures refused { RefusesAtNoCell (R.file nodes.old).words (R.file nodes.old).totals.records (R.file nodes.old).grid.depth result }
    ensures same { R.file nodes.new ≡ R.file nodes.old }
    ensures lender { R.lender nodes.new ≡ R.lender nodes.old }
    ensures cause { HasCauseOf (R.faults nodes.old) (R.faults nodes.new) result Failed }
{
    let Some(cell) = front.head else {
        return Ok(None);
    };
    let node = ancestor(cell.code, levels);
    let mut face = cell.face;
    go_past(nodes, front, reads)?;
    'cells: loop {
        let Some(other) = face_under(levels, node, front.head) else {
            return Ok(Some(FacedCell { code: node, face }));
        };
        face = face.min(other);
        go_past(nodes, front, reads)?;
    }
}
