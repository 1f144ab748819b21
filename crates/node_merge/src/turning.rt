//! Walks over both files of a pair.

ghost use Rattle.std.specs.Prelude.{◌≡◌, ◌+◌, ◌^◌, ◌<◌, ◌≤◌, List, IfSome, IfOk, IfErr};
ghost use Rattle.octree_specs.specs.Cells.{Cell};
ghost use Rattle.octree_specs.specs.Formats.{StandFor};
ghost use Rattle.node_check.specs.Counts.{HasCauseOf};
ghost use Rattle.node_check.specs.Cursors.{IsOn, GivesNextFaced, RefusesAtNoCell};
ghost use Rattle.node_check.specs.declared.walking.WalkFault.TheVariants.{Failed};
ghost use Rattle.node_merge.specs.Sides.{turn_view};
ghost use Rattle.node_merge.specs.declared.pairs.Turn.TheVariants.{First, Second};

use crate::pairs::{Pair, Turn};
use crate::sides::Side;
use dev_traits::NodeStore;
use node_check::{CellWalk, FacedCell, WalkFault};
use std::sync::ledger::Ledger;
use svo_base::Steps;

/// The next cell of a walk over one of the files.
pub fn next_of<N: NodeStore, L: Ledger>(
    pair: &mut Pair<'_, N>,
    turn: Turn,
    walk: &mut CellWalk,
    reads: &mut Steps<L>,
) -> Result<Option<FacedCell>, WalkFault>
    requires on { IsOn (turn_view turn pair.old) walk.old }
    ensures told { IfSome (turn_view turn pair.old).words (λ words. (cells : List Cell) → StandFor (turn_view turn pair.old).format (turn_view turn pair.old).grid.depth words cells → GivesNextFaced cells walk.old.from result) }
    ensures inside { IfOk result (λ next. IfSome next (λ cell. (walk.old.from ≤ cell.code) × (cell.code < 8 ^ (turn_view turn pair.old).grid.depth) × (cell.face ≤ 4294967294))) }
    ensures from { IfOk result (λ next. IfSome next (λ cell. walk.new.from ≡ cell.code + 1)) }
    ensures on { IsOn (turn_view turn pair.old) walk.new }
    ensures refused { RefusesAtNoCell (turn_view turn pair.old).words (turn_view turn pair.old).totals.records (turn_view turn pair.old).grid.depth result }
    ensures first { turn_view First pair.new ≡ turn_view First pair.old }
    ensures second { turn_view Second pair.new ≡ turn_view Second pair.old }
    ensures store { pair.new.store.ghost_name ≡ pair.old.store.ghost_name }
    ensures cause { HasCauseOf (N.faults pair.old.store.now) (N.faults pair.new.store.now) result Failed }
{
    let mut side = Side {
        pair,
        turn,
        looked: 0,
    };
    walk.next_faced(&mut side, reads)
}

/// A walk over all cells of one of the files.
pub fn walk_of<N: NodeStore, L: Ledger>(
    pair: &mut Pair<'_, N>,
    turn: Turn,
    reads: &mut Steps<L>,
) -> Result<CellWalk, WalkFault>
    ensures on { IfOk result (IsOn (turn_view turn pair.old)) }
    ensures from { IfOk result (λ walk. walk.from ≡ 0) }
    ensures unrefused { IfErr result (λ fault. fault ≡ Failed) }
    ensures first { turn_view First pair.new ≡ turn_view First pair.old }
    ensures second { turn_view Second pair.new ≡ turn_view Second pair.old }
    ensures store { pair.new.store.ghost_name ≡ pair.old.store.ghost_name }
    ensures cause { HasCauseOf (N.faults pair.old.store.now) (N.faults pair.new.store.now) result Failed }
{
    let mut side = Side {
        pair,
        turn,
        looked: 0,
    };
    CellWalk::new(&mut side, 0, reads)
}
