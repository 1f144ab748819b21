//! The command `coarse`: the node file of a file's cells with so many levels less.

ghost use Rattle.std.specs.Prelude.{◌≡◌, ◌<◌, ◌≤◌, List, IfSome};
ghost use Rattle.octree_specs.specs.Cells.{Cell};
ghost use Rattle.octree_specs.specs.Formats.{StandFor};
ghost use Rattle.octree_specs.specs.OctreeFile.{image_of};
ghost use Rattle.node_check.specs.Stops.{Puts, HasStopCause};
ghost use Rattle.node_merge.specs.Combined.{coarse, coarse_grid};

use dev_traits::ByteSink;
use node_check::AnswerStop;
use node_file::Records;
use node_merge::coarsen;
use room_plan::QueueEntry;
use std::marker::Brand;
use std::sync::ledger::{Blank, Ledger};
use svo_base::Steps;

/// Puts out the node file of format 2 of a file's map with so many levels less, with a counter of moves
/// of its own.
pub fn put_coarse<R: Records, O: ByteSink>(
    nodes: &mut R,
    levels: u32,
    out: &mut O,
) -> Result<(), AnswerStop>
    requires levels { (1 ≤ levels) × (levels < (R.file nodes.old).grid.depth) }
    ensures told { IfSome (R.file nodes.old).words (λ words. (cells : List Cell) → StandFor (R.file nodes.old).format (R.file nodes.old).grid.depth words cells
        → Puts (O.written out.old) (O.written out.new) (image_of 2 (coarse_grid levels (R.file nodes.old).grid) (coarse levels (R.file nodes.old).grid.depth cells)) result) }
    ensures cause { HasStopCause (O.faults out.old) (O.faults out.new) (R.faults nodes.old) (R.faults nodes.new) result }
    ensures lender { R.lender nodes.new ≡ R.lender nodes.old }
{
    put_counted::<R, O, Brand>(nodes, levels, out, Blank::new(1))
}

/// The same, with the counter of moves in the ledger that the blank is for.
fn put_counted<R: Records, O: ByteSink, L: Ledger>(
    nodes: &mut R,
    levels: u32,
    out: &mut O,
    blank: Blank,
) -> Result<(), AnswerStop>
    requires name { blank.name ≡ L.name }
    requires parts { blank.parts ≡ L.parts }
    requires one { 0 < blank.parts }
    requires levels { (1 ≤ levels) × (levels < (R.file nodes.old).grid.depth) }
    ensures told { IfSome (R.file nodes.old).words (λ words. (cells : List Cell) → StandFor (R.file nodes.old).format (R.file nodes.old).grid.depth words cells
        → Puts (O.written out.old) (O.written out.new) (image_of 2 (coarse_grid levels (R.file nodes.old).grid) (coarse levels (R.file nodes.old).grid.depth cells)) result) }
    ensures cause { HasStopCause (O.faults out.old) (O.faults out.new) (R.faults nodes.old) (R.faults nodes.new) result }
    ensures lender { R.lender nodes.new ≡ R.lender nodes.old }
{
    let mut moves = Steps::<L>::new(blank);
    let mut block = [0; 4096];
    let mut entries = [QueueEntry { word: 0, state: 0 }; 96];
    let room = 8 * (nodes.grid().depth() - levels) as usize;
    match coarsen(
        nodes,
        levels,
        &mut entries[..room],
        &mut block,
        out,
        &mut moves,
    ) {
        Err(stop) => Err(stop),
        Ok(_) => Ok(()),
    }
}
