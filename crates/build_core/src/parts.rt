//! The parts of a grid, filled and pushed one after another.

ghost use Rattle.std.specs.Prelude.{◌≡◌, ℕ, Bool, ◌+◌, ◌-◌, ◌*◌, ◌^◌, ◌<◌, ◌≤◌, [], List, Option, Err, length, slice_index, OnOk};
ghost use Rattle.svo_base.specs.declared.grids.TheConstants.{MAX_DEPTH};
ghost use Rattle.dev_traits.specs.Faults.{Rose};
ghost use Rattle.octree_specs.specs.Cells.{Cell};
ghost use Rattle.octree_specs.specs.FacedTriangles.{Faced};
ghost use Rattle.octree_specs.specs.Parts.{part_of};
ghost use Rattle.tri_partition.specs.PartStreams.{HasStream};
ghost use Rattle.morton_scan.specs.FilledParts.{TestEachParcel, tests_of};
ghost use Rattle.morton_scan.specs.Putting.{first_of_part};
ghost use Rattle.level_queues.specs.PushedFiles.{HasPushed};
ghost use Rattle.build_core.specs.Pushing.{PushesOn, LeavesFront};
ghost use Rattle.build_core.specs.ScratchParts.{HasPartOf, HasPartsOf, tests_of_parts};
ghost use Rattle.build_core.specs.declared.faults.NodesFault.{NodesFault};

use crate::cells::push_cells;
use crate::faults::NodesFault;
use dev_traits::{ByteSink, Scratch};
use level_queues::LevelQueues;
use morton_scan::PartSlots;
use node_file::NodeWriter;
use std::sync::ledger::Ledger;
use svo_base::{Grid, Steps};

/// How many nodes there are so many levels below a node, up to the deepest.
fn nodes_below(levels: u32) -> u64
    requires { levels ≤ MAX_DEPTH }
    ensures { result ≡ 8 ^ levels }
{
    1 << (3 * levels)
}

/// How many parts a split into at most 4096 gives.
pub fn part_count(split: u32) -> u32
    requires { split ≤ 4 }
    ensures { result ≡ 8 ^ split }
{
    1 << (3 * split)
}

/// Fills one part from its stream, pushes its cells, and clears its slots again.
fn write_part<S: Scratch, O: ByteSink, L: Ledger, T: Ledger>(
    grid: &Grid,
    split: u32,
    part: u32,
    block: &mut [u8],
    slots: &mut PartSlots<'_>,
    scratch: &mut S,
    queues: &mut LevelQueues<'_>,
    writer: &mut NodeWriter<'_, O>,
    moves: &mut Steps<L>,
    tests: &mut Steps<T>,
) -> Result<(), NodesFault>
    requires split { split ≤ grid.now.depth }
    requires part { part < 8 ^ split }
    requires block { 40 ≤ length block.old }
    requires slots { 8 ^ (grid.now.depth - split) ≤ length slots.old }
    requires empty { (place : ℕ) → slice_index slots.old place ≡ 0 }
    requires stream { HasStream (S.started scratch.old) part }
    requires pushed { (start : Option (List ℕ)) × (cells : List Cell) × HasPushed grid.now start (first_of_part grid.now split part) cells queues.old writer.old }
    ensures pushed { OnOk result ((start : Option (List ℕ)) → (cells : List Cell) → HasPushed grid.now start (first_of_part grid.now split part) cells queues.old writer.old
        → PushesOn grid.now start (first_of_part grid.now split part) (first_of_part grid.now split (part + 1)) cells (HasPartOf grid.now split part (S.told scratch.old)) queues.new writer.new moves.old moves.new) }
    ensures front { (start : Option (List ℕ)) → (cells : List Cell) → HasPushed grid.now start (first_of_part grid.now split part) cells queues.old writer.old
        → LeavesFront grid.now start (first_of_part grid.now split part) (first_of_part grid.now split (part + 1)) cells (HasPartOf grid.now split part (S.told scratch.old)) (O.written writer.new.sink.now) moves.old moves.new }
    ensures tests { (test : Faced → ℕ → ℕ → Bool) → TestEachParcel grid.now test → (faced : List Faced) → HasPartOf grid.now split part (S.told scratch.old) faced
        → tests.new ≤ tests.old + tests_of grid.now split part test (part_of grid.now split part faced) }
    ensures empty { OnOk result ((place : ℕ) → slice_index slots.new place ≡ 0) }
    ensures length { length slots.new ≡ length slots.old }
    ensures sink { writer.new.sink.ghost_name ≡ writer.old.sink.ghost_name }
    ensures told { S.told scratch.new ≡ S.told scratch.old }
    ensures started { S.started scratch.new ≡ S.started scratch.old }
    ensures asked { S.asked scratch.new ≡ S.asked scratch.old }
    ensures read_later { S.faults scratch.old ≤ S.faults scratch.new }
    ensures put_later { O.faults writer.old.sink.now ≤ O.faults writer.new.sink.now }
    ensures read_cause { result ≡ Err NodesFault.Scratch → Rose (S.faults scratch.old) (S.faults scratch.new) }
    ensures put_cause { result ≡ Err NodesFault.Sink → Rose (O.faults writer.old.sink.now) (O.faults writer.new.sink.now) }
{
    if slots
        .fill_part(grid, split, part, block, scratch, tests)
        .is_err()
    {
        return Err(NodesFault::Scratch);
    }
    let codes = nodes_below(grid.depth() - split);
    if push_cells(slots, part, codes, queues, writer, moves).is_err() {
        return Err(NodesFault::Sink);
    }
    slots.clear();
    Ok(())
}

/// Fills all parts one after another from their streams, and pushes their cells. Where all went well,
/// the cells are those that the triangles fill whose parts lie on scratch. At every answer the sink
/// holds a front of the file of the cells pushed and of one more, whatever cells follow.
///
/// The slots are empty, and nothing was pushed yet.
///
/// # Errors
///
/// `Scratch`: the scratch refused a call. `Sink`: the sink refused a put.
pub fn write_parts<S: Scratch, O: ByteSink, L: Ledger, T: Ledger>(
    grid: &Grid,
    split: u32,
    block: &mut [u8],
    slots: &mut PartSlots<'_>,
    scratch: &mut S,
    queues: &mut LevelQueues<'_>,
    writer: &mut NodeWriter<'_, O>,
    moves: &mut Steps<L>,
    tests: &mut Steps<T>,
) -> Result<(), NodesFault>
    requires split { split ≤ grid.now.depth }
    requires few { split ≤ 4 }
    requires block { 40 ≤ length block.old }
    requires slots { 8 ^ (grid.now.depth - split) ≤ length slots.old }
    requires empty { (place : ℕ) → slice_index slots.old place ≡ 0 }
    requires streams { 8 ^ split < S.started scratch.old }
    requires pushed { (start : Option (List ℕ)) × HasPushed grid.now start 0 [] queues.old writer.old }
    ensures pushed { OnOk result ((start : Option (List ℕ)) → HasPushed grid.now start 0 [] queues.old writer.old
        → PushesOn grid.now start 0 (8 ^ grid.now.depth) [] (HasPartsOf grid.now split (S.told scratch.old)) queues.new writer.new moves.old moves.new) }
    ensures front { (start : Option (List ℕ)) → HasPushed grid.now start 0 [] queues.old writer.old
        → LeavesFront grid.now start 0 (8 ^ grid.now.depth) [] (HasPartsOf grid.now split (S.told scratch.old)) (O.written writer.new.sink.now) moves.old moves.new }
    ensures tests { (test : Faced → ℕ → ℕ → Bool) → TestEachParcel grid.now test → (faced : List Faced) → HasPartsOf grid.now split (S.told scratch.old) faced
        → tests.new ≤ tests.old + tests_of_parts grid.now split (8 ^ split) test faced }
    ensures sink { writer.new.sink.ghost_name ≡ writer.old.sink.ghost_name }
    ensures told { S.told scratch.new ≡ S.told scratch.old }
    ensures started { S.started scratch.new ≡ S.started scratch.old }
    ensures asked { S.asked scratch.new ≡ S.asked scratch.old }
    ensures read_later { S.faults scratch.old ≤ S.faults scratch.new }
    ensures put_later { O.faults writer.old.sink.now ≤ O.faults writer.new.sink.now }
    ensures read_cause { result ≡ Err NodesFault.Scratch → Rose (S.faults scratch.old) (S.faults scratch.new) }
    ensures put_cause { result ≡ Err NodesFault.Sink → Rose (O.faults writer.old.sink.now) (O.faults writer.new.sink.now) }
{
    for part in 0..part_count(split) {
        write_part(
            grid, split, part, block, slots, scratch, queues, writer, moves, tests,
        )?;
    }
    Ok(())
}
