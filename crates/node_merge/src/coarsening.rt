//! The file of a node file with fewer levels.

ghost use Rattle.std.specs.Prelude.{◌≡◌, ℕ, ◌+◌, ◌-◌, ◌*◌, ◌<◌, ◌≤◌, List, length, IfOk, OnOk};
ghost use Rattle.octree_specs.specs.Cells.{Cell};
ghost use Rattle.octree_specs.specs.Formats.{file_words};
ghost use Rattle.node_check.specs.Stops.{StopsAtNoCell, HasStopCause};
ghost use Rattle.node_merge.specs.Combined.{coarse_grid};
ghost use Rattle.node_merge.specs.Maps.{IsCoarse};
ghost use Rattle.node_merge.specs.Pushing.{PutsMap};

use crate::coarse_pushing::push_coarse;
use dev_traits::ByteSink;
use level_queues::LevelQueues;
use node_check::AnswerStop;
use node_file::{NodeWriter, Records, Totals};
use room_plan::{QueueEntry, Queues};
use std::marker::Brand;
use std::sync::ledger::{Blank, Ledger};
use svo_base::{Grid, Steps};

/// Puts out the node file of format 2 of a file's nonempty nodes so many levels above its cells, as
/// cells of the coarser grid, each with the least face of the cells under it, in lent buffers, and
/// answers how many words and cells it has. Files of either format are read; a cell of format 1 has the
/// face 0. It takes no memory but what lies on the stack, and counts the numbers of entries moved in
/// the queues. The file is walked once from its first cell to its last, since the least face of a node
/// may be that of any of its cells.
///
/// At least one level is taken off, and at least one is left. The entries are eight for each level of
/// the new octree, and the block has at least 48 bytes.
///
/// # Errors
///
/// - `WriteFault`: the output refused a put; a front of the new file was put out.
/// - `Walk`: the walk over the cells stopped; a front of the new file was put out. A node file is never
///   refused.
pub fn coarsen<R: Records, O: ByteSink, L: Ledger>(
    nodes: &mut R,
    levels: u32,
    entries: &mut [QueueEntry],
    block: &mut [u8],
    out: &mut O,
    moves: &mut Steps<L>,
) -> Result<Totals, AnswerStop>
    requires levels { (1 ≤ levels) × (levels < (R.file nodes.old).grid.depth) }
    requires entries { length entries.old ≡ 8 * ((R.file nodes.old).grid.depth - levels) }
    requires block { 48 ≤ length block.old }
    ensures told { PutsMap (coarse_grid levels (R.file nodes.old).grid) (IsCoarse (R.file nodes.old) levels) (O.written out.old) (O.written out.new) result }
    ensures totals { IfOk result (λ totals. (cells : List Cell) → IsCoarse (R.file nodes.old) levels cells
        → totals ≡ record { records = length (file_words 2 ((R.file nodes.old).grid.depth - levels) cells); cells = length cells }) }
    ensures refused { StopsAtNoCell (R.file nodes.old).words (R.file nodes.old).totals.records (R.file nodes.old).grid.depth result }
    ensures moves { OnOk result ((cells : List Cell) → IsCoarse (R.file nodes.old) levels cells
        → moves.new ≤ moves.old + ((R.file nodes.old).grid.depth - levels) * (length cells + 1)) }
    ensures same { R.file nodes.new ≡ R.file nodes.old }
    ensures lender { R.lender nodes.new ≡ R.lender nodes.old }
    ensures cause { HasStopCause (O.faults out.old) (O.faults out.new) (R.faults nodes.old) (R.faults nodes.new) result }
{
    let blank = Blank::new(1);
    coarsen_counted::<R, O, L, Brand>(nodes, levels, entries, block, out, moves, blank)
}

/// The same, with the counter of reads in the ledger that the blank is for.
fn coarsen_counted<R: Records, O: ByteSink, L: Ledger, M: Ledger>(
    nodes: &mut R,
    levels: u32,
    entries: &mut [QueueEntry],
    block: &mut [u8],
    out: &mut O,
    moves: &mut Steps<L>,
    blank: Blank,
) -> Result<Totals, AnswerStop>
    requires name { blank.name ≡ M.name }
    requires parts { blank.parts ≡ M.parts }
    requires one { 0 < blank.parts }
    requires levels { levels < (R.file nodes.old).grid.depth }
    requires entries { length entries.old ≡ 8 * ((R.file nodes.old).grid.depth - levels) }
    requires block { 48 ≤ length block.old }
    ensures told { PutsMap (coarse_grid levels (R.file nodes.old).grid) (IsCoarse (R.file nodes.old) levels) (O.written out.old) (O.written out.new) result }
    ensures totals { IfOk result (λ totals. (cells : List Cell) → IsCoarse (R.file nodes.old) levels cells
        → totals ≡ record { records = length (file_words 2 ((R.file nodes.old).grid.depth - levels) cells); cells = length cells }) }
    ensures refused { StopsAtNoCell (R.file nodes.old).words (R.file nodes.old).totals.records (R.file nodes.old).grid.depth result }
    ensures moves { OnOk result ((cells : List Cell) → IsCoarse (R.file nodes.old) levels cells
        → moves.new ≤ moves.old + ((R.file nodes.old).grid.depth - levels) * (length cells + 1)) }
    ensures same { R.file nodes.new ≡ R.file nodes.old }
    ensures lender { R.lender nodes.new ≡ R.lender nodes.old }
    ensures cause { HasStopCause (O.faults out.old) (O.faults out.new) (R.faults nodes.old) (R.faults nodes.new) result }
{
    let grid = coarser(&nodes.grid(), levels);
    let mut reads = Steps::<M>::new(blank);
    let mut queues = LevelQueues::new(grid.depth(), Queues::new(entries));
    let mut writer = match NodeWriter::begin(out, block, &grid) {
        Ok(writer) => writer,
        Err(_) => return Err(AnswerStop::WriteFault),
    };
    match push_coarse(nodes, levels, &mut queues, &mut writer, &mut reads, moves) {
        Ok(()) => {}
        Err(stop) => return Err(stop),
    }
    let Ok(totals) = queues.finish(&mut writer, moves) else {
        return Err(AnswerStop::WriteFault);
    };
    match writer.finish(totals.cells) {
        Ok(_) => Ok(totals),
        Err(_) => Err(AnswerStop::WriteFault),
    }
}

/// The grid of so many levels less, whose cells are as much wider.
fn coarser(grid: &Grid, levels: u32) -> Grid
    requires levels { levels < grid.now.depth }
    ensures grid { result ≡ coarse_grid levels grid.now }
{
    let depth = i64::from(grid.depth() - levels);
    let side = grid.cell().unsigned_abs() << levels;
    Grid::new(depth, grid.origin(), side as i64).unwrap()
}
