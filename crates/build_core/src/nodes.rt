//! The node file of a mesh whose triangles lie on scratch.

ghost use Rattle.std.specs.Prelude.{◌≡◌, ℕ, Bool, ◌+◌, ◌-◌, ◌*◌, ◌^◌, ◌<◌, ◌≤◌, List, Err, length, OnOk, IfOk};
ghost use Rattle.svo_base.specs.GridShape.{IsGrid};
ghost use Rattle.dev_traits.specs.Faults.{Rose};
ghost use Rattle.octree_specs.specs.FacedTriangles.{Faced};
ghost use Rattle.morton_scan.specs.FilledParts.{TestEachParcel};
ghost use Rattle.build_core.specs.ScratchParts.{HasPartsOf, tests_of_parts};
ghost use Rattle.build_core.specs.PutFiles.{HasPutFile, HasPutFront};
ghost use Rattle.build_core.specs.declared.faults.NodesFault.{NodesFault};

use crate::faults::NodesFault;
use crate::parts::write_parts;
use dev_traits::{ByteSink, Scratch};
use level_queues::LevelQueues;
use morton_scan::PartSlots;
use node_file::{NodeWriter, Totals};
use room_plan::{Queues, Room};
use std::sync::ledger::Ledger;
use svo_base::{Grid, Steps};

/// Puts out the node file of the cells that the triangles on scratch fill, and answers how many words
/// and cells it has. At every answer the sink grew by a front of that file.
///
/// The parts of the grid at `split` lie in the streams from 1 on. The room's first block is for reads of
/// them, and its second one for puts; it has a slot for each cell of a part, and eight queue entries for
/// each level. What it holds does not matter.
///
/// # Errors
///
/// `Scratch`: the scratch refused a call. `Sink`: the sink refused a put.
pub fn write_nodes<S: Scratch, O: ByteSink, L: Ledger, T: Ledger>(
    grid: &Grid,
    split: u32,
    room: &mut Room,
    scratch: &mut S,
    out: &mut O,
    moves: &mut Steps<L>,
    tests: &mut Steps<T>,
) -> Result<Totals, NodesFault>
    requires split { split ≤ grid.now.depth }
    requires few { split ≤ 4 }
    requires block { 40 ≤ length room.old.block_a }
    requires words_block { 48 ≤ length room.old.block_b }
    requires slots { 8 ^ (grid.now.depth - split) ≤ length room.old.slots }
    requires entries { length room.old.queues ≡ 8 * grid.now.depth }
    requires streams { 8 ^ split < S.started scratch.old }
    ensures file { IfOk result (λ totals. HasPutFile grid.now split (S.told scratch.old) (O.written out.old) (O.written out.new) totals moves.old moves.new) }
    ensures front { HasPutFront grid.now split (S.told scratch.old) (O.written out.old) (O.written out.new) moves.old moves.new }
    ensures tests { (test : Faced → ℕ → ℕ → Bool) → TestEachParcel grid.now test → (faced : List Faced) → HasPartsOf grid.now split (S.told scratch.old) faced
        → tests.new ≤ tests.old + tests_of_parts grid.now split (8 ^ split) test faced }
    ensures limits { IsGrid grid.now }
    ensures told { S.told scratch.new ≡ S.told scratch.old }
    ensures started { S.started scratch.new ≡ S.started scratch.old }
    ensures asked { S.asked scratch.new ≡ S.asked scratch.old }
    ensures read_later { S.faults scratch.old ≤ S.faults scratch.new }
    ensures put_later { O.faults out.old ≤ O.faults out.new }
    ensures read_cause { result ≡ Err NodesFault.Scratch → Rose (S.faults scratch.old) (S.faults scratch.new) }
    ensures put_cause { result ≡ Err NodesFault.Sink → Rose (O.faults out.old) (O.faults out.new) }
{
    let mut slots = PartSlots::new(room.slots.as_mut_slice());
    let mut queues = LevelQueues::new(grid.depth(), Queues::new(room.queues.as_mut_slice()));
    let mut writer = match NodeWriter::begin(out, room.block_b.as_mut_slice(), grid) {
        Ok(writer) => writer,
        Err(_) => return Err(NodesFault::Sink),
    };
    write_parts(
        grid,
        split,
        room.block_a.as_mut_slice(),
        &mut slots,
        scratch,
        &mut queues,
        &mut writer,
        moves,
        tests,
    )?;
    let Ok(totals) = queues.finish(&mut writer, moves) else {
        return Err(NodesFault::Sink);
    };
    match writer.finish(totals.cells) {
        Ok(_) => Ok(totals),
        Err(_) => Err(NodesFault::Sink),
    }
}
