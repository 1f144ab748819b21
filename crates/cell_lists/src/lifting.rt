//! The file of format 2 of a file's cells.

ghost use Rattle.std.specs.Prelude.{◌≡◌, ℕ, ◌+◌, ◌*◌, ◌^◌, ◌≤◌, List, length, IfSome, OnOk};
ghost use Rattle.octree_specs.specs.Cells.{Cell};
ghost use Rattle.octree_specs.specs.Formats.{StandFor};
ghost use Rattle.octree_specs.specs.OctreeFile.{image_of};
ghost use Rattle.node_check.specs.Cursors.{IsOn};
ghost use Rattle.node_check.specs.Stops.{Puts, StopsAtNoCell, HasStopCause};

use crate::pushing::push_cells;
use dev_traits::ByteSink;
use level_queues::LevelQueues;
use node_check::{AnswerStop, CellWalk};
use node_file::{NodeWriter, Records};
use room_plan::{QueueEntry, Queues};
use std::sync::ledger::Ledger;
use svo_base::{Grid, Steps};

/// Puts out the node file of format 2 of a file's grid, cells and faces. Of a file of format 1, which
/// keeps no faces, each cell has the face 0. It takes no memory but what lies on the stack, and counts
/// the numbers of words read and of entries moved in the queues: a node file takes at most as many
/// moves as the octree is deep for each cell, and as many more at the end.
///
/// # Errors
///
/// - `WriteFault`: the output refused a put; a front of the new file was put out.
/// - `Walk`: the walk over the cells stopped; a front of the new file was put out. A node file is never
///   refused.
pub fn lift<R: Records, O: ByteSink, L: Ledger, M: Ledger>(
    nodes: &mut R,
    out: &mut O,
    reads: &mut Steps<L>,
    moves: &mut Steps<M>,
) -> Result<(), AnswerStop>
    ensures told { IfSome (R.file nodes.old).words (λ words. (cells : List Cell) → StandFor (R.file nodes.old).format (R.file nodes.old).grid.depth words cells
        → Puts (O.written out.old) (O.written out.new) (image_of 2 (R.file nodes.old).grid cells) result) }
    ensures refused { StopsAtNoCell (R.file nodes.old).words (R.file nodes.old).totals.records (R.file nodes.old).grid.depth result }
    ensures moves { OnOk result (IfSome (R.file nodes.old).words (λ words. (cells : List Cell) → StandFor (R.file nodes.old).format (R.file nodes.old).grid.depth words cells
        → moves.new ≤ moves.old + (R.file nodes.old).grid.depth * (length cells + 1))) }
    ensures looked { R.looked nodes.new + reads.old ≤ R.looked nodes.old + reads.new }
    ensures same { R.file nodes.new ≡ R.file nodes.old }
    ensures lender { R.lender nodes.new ≡ R.lender nodes.old }
    ensures cause { HasStopCause (O.faults out.old) (O.faults out.new) (R.faults nodes.old) (R.faults nodes.new) result }
{
    let grid = nodes.grid();
    let mut walk = match CellWalk::new(nodes, 0, reads) {
        Ok(walk) => walk,
        Err(fault) => return Err(AnswerStop::Walk(fault)),
    };
    let mut block = [0; 4096];
    let mut entries = [QueueEntry { word: 0, state: 0 }; 96];
    let room = 8 * grid.depth() as usize;
    lift_cells(
        nodes,
        &mut walk,
        &grid,
        out,
        &mut block,
        &mut entries[..room],
        reads,
        moves,
    )
}

/// The same over a walk that has given no cell yet, in lent buffers.
fn lift_cells<R: Records, O: ByteSink, L: Ledger, M: Ledger>(
    nodes: &mut R,
    walk: &mut CellWalk,
    grid: &Grid,
    out: &mut O,
    block: &mut [u8],
    entries: &mut [QueueEntry],
    reads: &mut Steps<L>,
    moves: &mut Steps<M>,
) -> Result<(), AnswerStop>
    requires on { IsOn (R.file nodes.old) walk.old }
    requires from { walk.old.from ≡ 0 }
    requires grid { grid.now ≡ (R.file nodes.old).grid }
    requires block { length block.old ≡ 4096 }
    requires entries { length entries.old ≡ 8 * grid.now.depth }
    ensures told { IfSome (R.file nodes.old).words (λ words. (cells : List Cell) → StandFor (R.file nodes.old).format (R.file nodes.old).grid.depth words cells
        → Puts (O.written out.old) (O.written out.new) (image_of 2 (R.file nodes.old).grid cells) result) }
    ensures refused { StopsAtNoCell (R.file nodes.old).words (R.file nodes.old).totals.records (R.file nodes.old).grid.depth result }
    ensures moves { OnOk result (IfSome (R.file nodes.old).words (λ words. (cells : List Cell) → StandFor (R.file nodes.old).format (R.file nodes.old).grid.depth words cells
        → moves.new ≤ moves.old + (R.file nodes.old).grid.depth * (length cells + 1))) }
    ensures looked { R.looked nodes.new + reads.old ≤ R.looked nodes.old + reads.new }
    ensures same { R.file nodes.new ≡ R.file nodes.old }
    ensures lender { R.lender nodes.new ≡ R.lender nodes.old }
    ensures cause { HasStopCause (O.faults out.old) (O.faults out.new) (R.faults nodes.old) (R.faults nodes.new) result }
{
    let mut queues = LevelQueues::new(grid.depth(), Queues::new(entries));
    let mut writer = match NodeWriter::begin(out, block, grid) {
        Ok(writer) => writer,
        Err(_) => return Err(AnswerStop::WriteFault),
    };
    match push_cells(nodes, walk, &mut queues, &mut writer, reads, moves) {
        Ok(()) => {}
        Err(stop) => return Err(stop),
    }
    let Ok(totals) = queues.finish(&mut writer, moves) else {
        return Err(AnswerStop::WriteFault);
    };
    match writer.finish(totals.cells) {
        Ok(_) => Ok(()),
        Err(_) => Err(AnswerStop::WriteFault),
    }
}
