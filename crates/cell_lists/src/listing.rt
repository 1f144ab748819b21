//! The list of a file's cells.

ghost use Rattle.std.specs.Prelude.{◌≡◌, ℕ, ◌+◌, ◌-◌, ◌^◌, ◌≤◌, List, length, IfSome, IfOk};
ghost use Rattle.octree_specs.specs.Cells.{Cell};
ghost use Rattle.octree_specs.specs.Formats.{StandFor};
ghost use Rattle.node_file.specs.Waiting.{given_by, GrewByFront};
ghost use Rattle.node_check.specs.Cursors.{IsOn};
ghost use Rattle.node_check.specs.Stops.{Puts, StopsAbove, HasStopCause};
ghost use Rattle.cell_lists.specs.Lists.{cells_text, Waits};

use crate::lines::cell_line;
use dev_traits::ByteSink;
use node_check::{AnswerStop, CellWalk};
use node_file::{Records, append, put_front};
use std::sync::ledger::Ledger;
use svo_base::Steps;

/// Puts out a line for each filled cell of a file, in ascending order of their codes: the code, and the
/// cell's place along x, y and z in cells. It is put in blocks of at most 4096 bytes.
///
/// # Errors
///
/// - `WriteFault`: the output refused a put; a front of the list was put out.
/// - `Walk`: the walk over the cells stopped; a front of the list was put out. A node file is never
///   refused.
pub fn list_cells<R: Records, O: ByteSink, L: Ledger>(
    nodes: &mut R,
    out: &mut O,
    reads: &mut Steps<L>,
) -> Result<(), AnswerStop>
    ensures told { IfSome (R.file nodes.old).words (λ words. (cells : List Cell) → StandFor (R.file nodes.old).format (R.file nodes.old).grid.depth words cells
        → Puts (O.written out.old) (O.written out.new) (cells_text cells) result) }
    ensures refused { StopsAbove (R.file nodes.old).words (R.file nodes.old).totals.records result }
    ensures looked { R.looked nodes.new + reads.old ≤ R.looked nodes.old + reads.new }
    ensures same { R.file nodes.new ≡ R.file nodes.old }
    ensures lender { R.lender nodes.new ≡ R.lender nodes.old }
    ensures cause { HasStopCause (O.faults out.old) (O.faults out.new) (R.faults nodes.old) (R.faults nodes.new) result }
{
    let mut walk = match CellWalk::new(nodes, 0, reads) {
        Ok(walk) => walk,
        Err(fault) => return Err(AnswerStop::Walk(fault)),
    };
    let mut block = [0; 4096];
    let used = match list_lines(nodes, &mut walk, out, &mut block, reads) {
        Ok(used) => used,
        Err(stop) => return Err(stop),
    };
    match put_front(out, &mut block, used) {
        Ok(()) => Ok(()),
        Err(_) => Err(AnswerStop::WriteFault),
    }
}

/// Adds a line for each cell that a walk still has to give, behind the bytes that wait in a block, of
/// which there are none yet. Answers how many bytes wait then.
fn list_lines<R: Records, O: ByteSink, L: Ledger>(
    nodes: &mut R,
    walk: &mut CellWalk,
    out: &mut O,
    block: &mut [u8],
    reads: &mut Steps<L>,
) -> Result<usize, AnswerStop>
    requires on { IsOn (R.file nodes.old) walk.old }
    requires from { walk.old.from ≡ 0 }
    requires room { length block.old ≡ 4096 }
    ensures told { IfSome (R.file nodes.old).words (λ words. (cells : List Cell) → StandFor (R.file nodes.old).format (R.file nodes.old).grid.depth words cells
        → Waits (O.written out.old) (O.written out.new) block.new (cells_text cells) result) }
    ensures inside { IfOk result (λ used. used ≤ length block.new) }
    ensures refused { StopsAbove (R.file nodes.old).words (R.file nodes.old).totals.records result }
    ensures looked { R.looked nodes.new + reads.old ≤ R.looked nodes.old + reads.new }
    ensures same { R.file nodes.new ≡ R.file nodes.old }
    ensures lender { R.lender nodes.new ≡ R.lender nodes.old }
    ensures cause { HasStopCause (O.faults out.old) (O.faults out.new) (R.faults nodes.old) (R.faults nodes.new) result }
{
    let mut used = 0;
    'cells: loop {
        let code = match walk.next(nodes, reads) {
            Err(fault) => return Err(AnswerStop::Walk(fault)),
            Ok(None) => return Ok(used),
            Ok(Some(code)) => code,
        };
        let line = cell_line(code);
        used = match append(out, block, used, line.as_str().as_bytes()) {
            Ok(waiting) => waiting,
            Err(_) => return Err(AnswerStop::WriteFault),
        };
    }
}
