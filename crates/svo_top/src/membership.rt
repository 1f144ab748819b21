//! The command `has`: whether a cell is filled.

ghost use Rattle.std.specs.Prelude.{◌≡◌, ◌<◌, ◌^◌, is_some, List};
ghost use Rattle.octree_specs.specs.Cells.{Cell};
ghost use Rattle.node_check.specs.Stops.{Puts, HasStopCause};
ghost use Rattle.node_check.specs.Walks.{face_at};
ghost use Rattle.svo_top.specs.FileAnswers.{has_line};
ghost use Rattle.svo_top.specs.NodeFiles.{KeepsCells};

use crate::putting::put_text;
use dev_traits::ByteSink;
use node_check::{AnswerStop, has};
use node_file::Records;
use std::sync::ledger::Ledger;
use svo_base::Steps;

/// Puts out whether the cell of a code is filled: `yes` or `no`.
pub fn tell_membership<R: Records, O: ByteSink, L: Ledger>(
    nodes: &mut R,
    code: u64,
    out: &mut O,
    reads: &mut Steps<L>,
) -> Result<(), AnswerStop>
    requires { code < 8 ^ (R.file nodes.old).grid.depth }
    ensures told { (cells : List Cell) → KeepsCells (R.file nodes.old) cells → Puts (O.written out.old) (O.written out.new) (has_line (is_some (face_at cells code))) result }
    ensures cause { HasStopCause (O.faults out.old) (O.faults out.new) (R.faults nodes.old) (R.faults nodes.new) result }
    ensures lender { R.lender nodes.new ≡ R.lender nodes.old }
{
    match has(nodes, code, reads) {
        Err(fault) => Err(AnswerStop::Walk(fault)),
        Ok(filled) => put_text(has_line(filled).as_bytes(), out),
    }
}

/// The answer's line.
#[tactic(auto, unfolding(crate::specs::FileAnswers::has_line))]
fn has_line(filled: bool) -> &'static str
    ensures { result.now ≡ has_line filled }
{
    if filled { "yes\n" } else { "no\n" }
}
