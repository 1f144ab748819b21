//! A file's nodes, pushed into the queues of a coarser one.

ghost use Rattle.std.specs.Prelude.{◌≡◌, ℕ, ◌+◌, ◌-◌, ◌*◌, ◌^◌, ◌<◌, ◌≤◌, [], List, Option, OnOk};
ghost use Rattle.octree_specs.specs.Cells.{Cell};
ghost use Rattle.node_check.specs.Stops.{StopsAtNoCell, HasStopCause};
ghost use Rattle.level_queues.specs.PushedFiles.{HasPushed};
ghost use Rattle.cell_lists.specs.Lifted.{Accepts};
ghost use Rattle.node_merge.specs.Combined.{coarse_grid};
ghost use Rattle.node_merge.specs.Maps.{IsCoarse};
ghost use Rattle.node_merge.specs.Pushing.{PushesAll, HoldsFirst};

use crate::gathering::{first_cell, gather};
use dev_traits::ByteSink;
use level_queues::LevelQueues;
use node_check::AnswerStop;
use node_file::{NodeWriter, Records};
use std::sync::ledger::Ledger;
use svo_base::Steps;

/// Pushes the nonempty nodes so many levels above the cells, each with the least face of the cells
/// under it. At every answer the sink holds a front of their file. A node takes at most as many moves
/// as the coarser octree is deep.
pub fn push_coarse<R: Records, O: ByteSink, L: Ledger, M: Ledger>(
    nodes: &mut R,
    levels: u32,
    queues: &mut LevelQueues<'_>,
    writer: &mut NodeWriter<'_, O>,
    reads: &mut Steps<L>,
    moves: &mut Steps<M>,
) -> Result<(), AnswerStop>
    requires levels { levels ≤ (R.file nodes.old).grid.depth }
    requires pushed { (start : Option (List ℕ)) × HasPushed (coarse_grid levels (R.file nodes.old).grid) start 0 [] queues.old writer.old }
    ensures pushed { OnOk result ((start : Option (List ℕ)) → HasPushed (coarse_grid levels (R.file nodes.old).grid) start 0 [] queues.old writer.old
        → PushesAll (coarse_grid levels (R.file nodes.old).grid) start (IsCoarse (R.file nodes.old) levels) queues.new writer.new) }
    ensures front { (start : Option (List ℕ)) → HasPushed (coarse_grid levels (R.file nodes.old).grid) start 0 [] queues.old writer.old
        → HoldsFirst (coarse_grid levels (R.file nodes.old).grid) start (IsCoarse (R.file nodes.old) levels) (O.written writer.new.sink.now) }
    ensures unrefused { (cells : List Cell) → IsCoarse (R.file nodes.old) levels cells → Accepts result }
    ensures refused { StopsAtNoCell (R.file nodes.old).words (R.file nodes.old).totals.records (R.file nodes.old).grid.depth result }
    ensures same { R.file nodes.new ≡ R.file nodes.old }
    ensures lender { R.lender nodes.new ≡ R.lender nodes.old }
    ensures moves { OnOk result (moves.new + queues.old.depth * queues.old.cells ≤ moves.old + queues.old.depth * queues.new.cells) }
    ensures depth { queues.new.depth ≡ queues.old.depth }
    ensures sink { writer.new.sink.ghost_name ≡ writer.old.sink.ghost_name }
    ensures cause { HasStopCause (O.faults writer.old.sink.now) (O.faults writer.new.sink.now) (R.faults nodes.old) (R.faults nodes.new) result }
{
    let mut front = match first_cell(nodes, reads) {
        Ok(front) => front,
        Err(fault) => return Err(AnswerStop::Walk(fault)),
    };
    'nodes: loop {
        let node = match gather(nodes, levels, &mut front, reads) {
            Err(fault) => return Err(AnswerStop::Walk(fault)),
            Ok(None) => return Ok(()),
            Ok(Some(node)) => node,
        };
        match queues.push(node.code, node.face, writer, moves) {
            Ok(()) => {}
            Err(_) => return Err(AnswerStop::WriteFault),
        }
    }
}
