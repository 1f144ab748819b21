//! The command `lift`: the node file of format 2 of a file's cells.

ghost use Rattle.std.specs.Prelude.{◌≡◌, ◌<◌, ℕ, List, IfSome};
ghost use Rattle.octree_specs.specs.Cells.{Cell};
ghost use Rattle.octree_specs.specs.Formats.{StandFor};
ghost use Rattle.octree_specs.specs.OctreeFile.{image_of};
ghost use Rattle.node_check.specs.Stops.{Puts, HasStopCause};

use cell_lists::lift;
use dev_traits::ByteSink;
use node_check::AnswerStop;
use node_file::Records;
use std::marker::Brand;
use std::sync::ledger::{Blank, Ledger};
use svo_base::Steps;

/// Puts out the node file of format 2 of a file's grid, cells and faces, with a counter of moves of
/// its own.
pub fn put_lifted<R: Records, O: ByteSink, L: Ledger>(
    nodes: &mut R,
    out: &mut O,
    reads: &mut Steps<L>,
) -> Result<(), AnswerStop>
    ensures told { IfSome (R.file nodes.old).words (λ words. (cells : List Cell) → StandFor (R.file nodes.old).format (R.file nodes.old).grid.depth words cells
        → Puts (O.written out.old) (O.written out.new) (image_of 2 (R.file nodes.old).grid cells) result) }
    ensures cause { HasStopCause (O.faults out.old) (O.faults out.new) (R.faults nodes.old) (R.faults nodes.new) result }
    ensures lender { R.lender nodes.new ≡ R.lender nodes.old }
{
    put_counted::<R, O, L, Brand>(nodes, out, reads, Blank::new(1))
}

/// The same, with the counter of moves in the ledger that the blank is for.
fn put_counted<R: Records, O: ByteSink, L: Ledger, M: Ledger>(
    nodes: &mut R,
    out: &mut O,
    reads: &mut Steps<L>,
    blank: Blank,
) -> Result<(), AnswerStop>
    requires name { blank.name ≡ M.name }
    requires parts { blank.parts ≡ M.parts }
    requires one { 0 < blank.parts }
    ensures told { IfSome (R.file nodes.old).words (λ words. (cells : List Cell) → StandFor (R.file nodes.old).format (R.file nodes.old).grid.depth words cells
        → Puts (O.written out.old) (O.written out.new) (image_of 2 (R.file nodes.old).grid cells) result) }
    ensures cause { HasStopCause (O.faults out.old) (O.faults out.new) (R.faults nodes.old) (R.faults nodes.new) result }
    ensures lender { R.lender nodes.new ≡ R.lender nodes.old }
{
    let mut moves = Steps::<M>::new(blank);
    lift(nodes, out, reads, &mut moves)
}
