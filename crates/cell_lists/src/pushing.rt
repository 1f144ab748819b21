//! The cells of a file, pushed into the queues of a new one.

ghost use Rattle.std.specs.Prelude.{◌≡◌, ℕ, ◌+◌, ◌*◌, ◌^◌, ◌<◌, ◌≤◌, [], List, Option, IfSome, OnOk};
ghost use Rattle.octree_specs.specs.Cells.{Cell};
ghost use Rattle.octree_specs.specs.Formats.{StandFor};
ghost use Rattle.node_check.specs.Cursors.{IsOn};
ghost use Rattle.node_check.specs.Stops.{StopsAtNoCell, HasStopCause};
ghost use Rattle.level_queues.specs.PushedFiles.{HasPushed};
ghost use Rattle.cell_lists.specs.Lifted.{PushesAll, HoldsFirst, IsUnrefused};

use dev_traits::ByteSink;
use level_queues::LevelQueues;
use node_check::{AnswerStop, CellWalk};
use node_file::{NodeWriter, Records};
use std::sync::ledger::Ledger;
use svo_base::Steps;

/// Pushes all cells that a walk gives, each with its face. At every answer the sink holds a front of
/// the file of the cells that were pushed, whatever cells follow. A cell takes at most as many moves
/// as the octree is deep.
pub fn push_cells<R: Records, O: ByteSink, L: Ledger, M: Ledger>(
    nodes: &mut R,
    walk: &mut CellWalk,
    queues: &mut LevelQueues<'_>,
    writer: &mut NodeWriter<'_, O>,
    reads: &mut Steps<L>,
    moves: &mut Steps<M>,
) -> Result<(), AnswerStop>
    requires on { IsOn (R.file nodes.old) walk.old }
    requires from { walk.old.from ≡ 0 }
    requires pushed { (start : Option (List ℕ)) × HasPushed (R.file nodes.old).grid start 0 [] queues.old writer.old }
    ensures pushed { OnOk result ((start : Option (List ℕ)) → HasPushed (R.file nodes.old).grid start 0 [] queues.old writer.old → PushesAll (R.file nodes.old) start queues.new writer.new) }
    ensures front { (start : Option (List ℕ)) → HasPushed (R.file nodes.old).grid start 0 [] queues.old writer.old → HoldsFirst (R.file nodes.old) start (O.written writer.new.sink.now) }
    ensures unrefused { IsUnrefused (R.file nodes.old) result }
    ensures refused { StopsAtNoCell (R.file nodes.old).words (R.file nodes.old).totals.records (R.file nodes.old).grid.depth result }
    ensures looked { R.looked nodes.new + reads.old ≤ R.looked nodes.old + reads.new }
    ensures same { R.file nodes.new ≡ R.file nodes.old }
    ensures lender { R.lender nodes.new ≡ R.lender nodes.old }
    ensures moves { OnOk result (moves.new + queues.old.depth * queues.old.cells ≤ moves.old + queues.old.depth * queues.new.cells) }
    ensures depth { queues.new.depth ≡ queues.old.depth }
    ensures sink { writer.new.sink.ghost_name ≡ writer.old.sink.ghost_name }
    ensures cause { HasStopCause (O.faults writer.old.sink.now) (O.faults writer.new.sink.now) (R.faults nodes.old) (R.faults nodes.new) result }
{
    'cells: loop {
        let cell = match walk.next_faced(nodes, reads) {
            Err(fault) => return Err(AnswerStop::Walk(fault)),
            Ok(None) => return Ok(()),
            Ok(Some(cell)) => cell,
        };
        match queues.push(cell.code, cell.face, writer, moves) {
            Ok(()) => {}
            Err(_) => return Err(AnswerStop::WriteFault),
        }
    }
}
