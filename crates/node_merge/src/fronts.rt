//! Where a walk over one of two files stands.

ghost use Rattle.std.specs.Prelude.{◌≡◌, ℕ, ◌+◌, ◌<◌, ◌≤◌, List, IfOk, IfSome, OnOk};
ghost use Rattle.octree_specs.specs.Cells.{Cell};
ghost use Rattle.node_check.specs.Counts.{HasCauseOf};
ghost use Rattle.node_check.specs.Cursors.{RefusesAtNoCell};
ghost use Rattle.node_check.specs.declared.walking.WalkFault.TheVariants.{Failed};
ghost use Rattle.node_merge.specs.Pushing.{IsFront, IsUnrefusedWalk, least_code, face_if};
ghost use Rattle.node_merge.specs.Maps.{IsMapOf};
ghost use Rattle.node_merge.specs.Sides.{turn_view};
ghost use Rattle.node_merge.specs.declared.pairs.Turn.TheVariants.{First, Second};

use crate::pairs::{Pair, Turn};
use crate::turning::{next_of, walk_of};
use dev_traits::NodeStore;
use node_check::{CellWalk, FacedCell, WalkFault};
use std::sync::ledger::Ledger;
use svo_base::Steps;

/// A walk over a file's cells, and the cell that it gave last.
#[derive(Drop)]
pub struct Front {
    pub walk: CellWalk,
    pub head: Option<FacedCell>,
}

/// The first cell of one of the files.
pub fn begin<N: NodeStore, L: Ledger>(
    pair: &mut Pair<'_, N>,
    turn: Turn,
    reads: &mut Steps<L>,
) -> Result<Front, WalkFault>
    ensures front { IfOk result (IsFront (turn_view turn pair.old) 0) }
    ensures unrefused { (cells : List Cell) → IsMapOf (turn_view turn pair.old) cells → IsUnrefusedWalk result }
    ensures refused { RefusesAtNoCell (turn_view turn pair.old).words (turn_view turn pair.old).totals.records (turn_view turn pair.old).grid.depth result }
    ensures first { turn_view First pair.new ≡ turn_view First pair.old }
    ensures second { turn_view Second pair.new ≡ turn_view Second pair.old }
    ensures store { pair.new.store.ghost_name ≡ pair.old.store.ghost_name }
    ensures cause { HasCauseOf (N.faults pair.old.store.now) (N.faults pair.new.store.now) result Failed }
{
    let mut walk = walk_of(pair, turn, reads)?;
    let head = next_of(pair, turn, &mut walk, reads)?;
    Ok(Front { walk, head })
}

/// Goes on to the first cell from this code on. The cell given last has the code before this one, or a
/// greater one.
pub fn go_on<N: NodeStore, L: Ledger>(
    pair: &mut Pair<'_, N>,
    turn: Turn,
    front: &mut Front,
    from: u64,
    reads: &mut Steps<L>,
) -> Result<(), WalkFault>
    requires front { (before : ℕ) × IsFront (turn_view turn pair.old) before front.old }
    requires near { IfSome front.old.head (λ cell. from ≤ cell.code + 1) }
    ensures front { OnOk result ((before : ℕ) → before < from → IsFront (turn_view turn pair.old) before front.old → IsFront (turn_view turn pair.old) from front.new) }
    ensures unrefused { (cells : List Cell) → IsMapOf (turn_view turn pair.old) cells → IsUnrefusedWalk result }
    ensures refused { RefusesAtNoCell (turn_view turn pair.old).words (turn_view turn pair.old).totals.records (turn_view turn pair.old).grid.depth result }
    ensures first { turn_view First pair.new ≡ turn_view First pair.old }
    ensures second { turn_view Second pair.new ≡ turn_view Second pair.old }
    ensures store { pair.new.store.ghost_name ≡ pair.old.store.ghost_name }
    ensures cause { HasCauseOf (N.faults pair.old.store.now) (N.faults pair.new.store.now) result Failed }
{
    let Some(cell) = front.head else {
        return Ok(());
    };
    if cell.code < from {
        front.head = next_of(pair, turn, &mut front.walk, reads)?;
    }
    Ok(())
}

/// The lesser code of two cells, of which either may be missing.
pub fn least_code(first: Option<FacedCell>, second: Option<FacedCell>) -> Option<u64>
    ensures { result ≡ least_code first second }
{
    match (first, second) {
        (None, None) => None,
        (Some(cell), None) | (None, Some(cell)) => Some(cell.code),
        (Some(cell), Some(other)) => Some(cell.code.min(other.code)),
    }
}

/// The face of a cell, where it has this code.
pub fn face_if(cell: Option<FacedCell>, code: u64) -> Option<u32>
    ensures { result ≡ face_if cell code }
{
    match cell {
        Some(cell) if cell.code == code => Some(cell.face),
        _ => None,
    }
}
