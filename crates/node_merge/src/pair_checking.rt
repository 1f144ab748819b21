//! Whether a file of a pair is a node file.

ghost use Rattle.std.specs.Prelude.{◌≡◌, IfSome};
ghost use Rattle.octree_specs.specs.Checking.{refused_in};
ghost use Rattle.node_check.specs.Counts.{HasCauseOf};
ghost use Rattle.node_check.specs.Verdicts.{IsVerdict};
ghost use Rattle.node_check.specs.declared.checking.CheckFault.TheVariants.{Failed};
ghost use Rattle.node_merge.specs.Sides.{turn_view};
ghost use Rattle.node_merge.specs.declared.pairs.Turn.TheVariants.{First, Second};

use crate::pairs::{Pair, Turn};
use crate::sides::Side;
use dev_traits::NodeStore;
use node_check::{CheckFault, check};
use node_file::Totals;
use std::sync::ledger::Ledger;
use svo_base::Steps;

/// Whether one of the files is a node file, and of how many words and cells.
///
/// # Errors
///
/// As [`node_check::check`] of that file.
pub fn check_file<N: NodeStore, L: Ledger>(
    pair: &mut Pair<'_, N>,
    turn: Turn,
    reads: &mut Steps<L>,
) -> Result<Totals, CheckFault>
    ensures verdict { IfSome (turn_view turn pair.old).words (λ words. IsVerdict (refused_in (turn_view turn pair.old).format (turn_view turn pair.old).grid.depth words (turn_view turn pair.old).totals.cells) (turn_view turn pair.old).totals result) }
    ensures first { turn_view First pair.new ≡ turn_view First pair.old }
    ensures second { turn_view Second pair.new ≡ turn_view Second pair.old }
    ensures store { pair.new.store.ghost_name ≡ pair.old.store.ghost_name }
    ensures cause { HasCauseOf (N.faults pair.old.store.now) (N.faults pair.new.store.now) result Failed }
{
    let mut side = Side {
        pair,
        turn,
        looked: 0,
    };
    check(&mut side, reads)
}
