//! The file of two node files put together.

ghost use Rattle.std.specs.Prelude.{◌≡◌, ℕ, ◌+◌, ◌*◌, ◌<◌, ◌≤◌, [], List, length, IfOk, OnOk};
ghost use Rattle.octree_specs.specs.Cells.{Cell};
ghost use Rattle.octree_specs.specs.Formats.{file_words};
ghost use Rattle.node_check.specs.Stops.{HasStopCause};
ghost use Rattle.node_merge.specs.Maps.{IsMerged};
ghost use Rattle.node_merge.specs.Pushing.{PutsMap, StopsInEither};
ghost use Rattle.node_merge.specs.Sides.{turn_view};
ghost use Rattle.node_merge.specs.declared.pairs.Turn.TheVariants.{First, Second};

use crate::kinds::MergeKind;
use crate::merging::push_merged;
use crate::pairs::{Pair, Turn};
use dev_traits::{ByteSink, NodeStore};
use level_queues::LevelQueues;
use node_check::AnswerStop;
use node_file::{NodeWriter, Totals};
use room_plan::{QueueEntry, Queues};
use std::marker::Brand;
use std::sync::ledger::{Blank, Ledger};
use svo_base::Steps;

/// Puts out the node file of format 2 of both files' cells together, in lent buffers, and answers how
/// many words and cells it has. Files of either format are read; a cell of format 1 has the face 0. It
/// takes no memory but what lies on the stack, and counts the numbers of entries moved in the queues.
/// Each file is walked once from its first cell to its last.
///
/// The two files have one grid. The entries are eight for each level of the octree, and the block has
/// at least 48 bytes.
///
/// # Errors
///
/// - `WriteFault`: the output refused a put; a front of the new file was put out.
/// - `Walk`: the walk over the cells of one of the files stopped; a front of the new file was put out. A
///   node file is never refused.
pub fn merge<N: NodeStore, O: ByteSink, L: Ledger>(
    pair: &mut Pair<'_, N>,
    kind: MergeKind,
    entries: &mut [QueueEntry],
    block: &mut [u8],
    out: &mut O,
    moves: &mut Steps<L>,
) -> Result<Totals, AnswerStop>
    requires grids { (turn_view Second pair.old).grid ≡ (turn_view First pair.old).grid }
    requires entries { length entries.old ≡ 8 * (turn_view First pair.old).grid.depth }
    requires block { 48 ≤ length block.old }
    ensures told { PutsMap (turn_view First pair.old).grid (IsMerged kind (turn_view First pair.old) (turn_view Second pair.old)) (O.written out.old) (O.written out.new) result }
    ensures totals { IfOk result (λ totals. (cells : List Cell) → IsMerged kind (turn_view First pair.old) (turn_view Second pair.old) cells
        → totals ≡ record { records = length (file_words 2 (turn_view First pair.old).grid.depth cells); cells = length cells }) }
    ensures refused { StopsInEither (turn_view First pair.old) (turn_view Second pair.old) result }
    ensures moves { OnOk result ((cells : List Cell) → IsMerged kind (turn_view First pair.old) (turn_view Second pair.old) cells
        → moves.new ≤ moves.old + (turn_view First pair.old).grid.depth * (length cells + 1)) }
    ensures first { turn_view First pair.new ≡ turn_view First pair.old }
    ensures second { turn_view Second pair.new ≡ turn_view Second pair.old }
    ensures store { pair.new.store.ghost_name ≡ pair.old.store.ghost_name }
    ensures cause { HasStopCause (O.faults out.old) (O.faults out.new) (N.faults pair.old.store.now) (N.faults pair.new.store.now) result }
{
    let blank = Blank::new(1);
    merge_counted::<N, O, L, Brand>(pair, kind, entries, block, out, moves, blank)
}

/// The same, with the counter of reads in the ledger that the blank is for.
fn merge_counted<N: NodeStore, O: ByteSink, L: Ledger, M: Ledger>(
    pair: &mut Pair<'_, N>,
    kind: MergeKind,
    entries: &mut [QueueEntry],
    block: &mut [u8],
    out: &mut O,
    moves: &mut Steps<L>,
    blank: Blank,
) -> Result<Totals, AnswerStop>
    requires name { blank.name ≡ M.name }
    requires parts { blank.parts ≡ M.parts }
    requires one { 0 < blank.parts }
    requires grids { (turn_view Second pair.old).grid ≡ (turn_view First pair.old).grid }
    requires entries { length entries.old ≡ 8 * (turn_view First pair.old).grid.depth }
    requires block { 48 ≤ length block.old }
    ensures told { PutsMap (turn_view First pair.old).grid (IsMerged kind (turn_view First pair.old) (turn_view Second pair.old)) (O.written out.old) (O.written out.new) result }
    ensures totals { IfOk result (λ totals. (cells : List Cell) → IsMerged kind (turn_view First pair.old) (turn_view Second pair.old) cells
        → totals ≡ record { records = length (file_words 2 (turn_view First pair.old).grid.depth cells); cells = length cells }) }
    ensures refused { StopsInEither (turn_view First pair.old) (turn_view Second pair.old) result }
    ensures moves { OnOk result ((cells : List Cell) → IsMerged kind (turn_view First pair.old) (turn_view Second pair.old) cells
        → moves.new ≤ moves.old + (turn_view First pair.old).grid.depth * (length cells + 1)) }
    ensures first { turn_view First pair.new ≡ turn_view First pair.old }
    ensures second { turn_view Second pair.new ≡ turn_view Second pair.old }
    ensures store { pair.new.store.ghost_name ≡ pair.old.store.ghost_name }
    ensures cause { HasStopCause (O.faults out.old) (O.faults out.new) (N.faults pair.old.store.now) (N.faults pair.new.store.now) result }
{
    let grid = pair.frame(Turn::First).grid;
    let mut reads = Steps::<M>::new(blank);
    let mut queues = LevelQueues::new(grid.depth(), Queues::new(entries));
    let mut writer = match NodeWriter::begin(out, block, &grid) {
        Ok(writer) => writer,
        Err(_) => return Err(AnswerStop::WriteFault),
    };
    match push_merged(pair, kind, &mut queues, &mut writer, &mut reads, moves) {
        Ok(()) => {}
        Err(stop) => return Err(stop),
    }
    let Ok(totals) = queues.finish(&mut writer, moves) else {
        return Err(AnswerStop::WriteFault);
    };
    match writer.finish(totals.cells) {
        Ok(_) => Ok(totals),
        Err(_) => Err(AnswerStop::WriteFault),
    }
}
