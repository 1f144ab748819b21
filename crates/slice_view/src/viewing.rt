//! A view of an octree as a picture.

ghost use Rattle.std.specs.Prelude.{◌≡◌, [], ◌+◌, ◌-◌, ◌*◌, ◌<◌, ◌≤◌, min, List, length, IfOk, OnOk};
ghost use Rattle.std.specs.Result.{IfErr};
ghost use Rattle.octree_specs.specs.Cells.{Cell};
ghost use Rattle.node_check.specs.Stops.{HasStopCause};
ghost use Rattle.ray_walk.specs.Answers.{TellsCells};
ghost use Rattle.ray_walk.specs.Faults.{IsCaused};
ghost use Rattle.slice_view.specs.Greys.{AreGreys};
ghost use Rattle.slice_view.specs.Views.{PutsGreys, PutsView, StopsAsCast};

use crate::bands::ROOM;
use crate::cameras::Camera;
use crate::headers::{put, put_header};
use crate::pixels::grey;
use arrayvec::ArrayVec;
use dev_traits::ByteSink;
use node_check::{AnswerStop, WalkFault};
use node_file::Records;
use recent_words::RecentWords;
use std::sync::ledger::Ledger;
use svo_base::Steps;

/// How many greys are put out at once.
const BLOCK: u32 = 4096;

/// Puts out the picture, in the form of a binary PGM, that a camera takes of the filled cells. A
/// pixel is black (0) where its ray hits no cell or its direction is zero. Of a hit it is 255 at time
/// 0, the less the later, and 1 beyond the camera's far time.
///
/// # Errors
///
/// - `WriteFault`: the output did not take a piece; what it took is a front of the picture.
/// - `Walk(Refused)`: a word places a child not before itself, so that the file is no node file.
/// - `Walk(Failed)`: a read failed. Of a node file, what was put out until then is a front of the
///   picture.
pub fn view<R: Records, O: ByteSink, L: Ledger>(
    nodes: &mut R,
    camera: &Camera,
    out: &mut O,
    reads: &mut Steps<L>,
) -> Result<(), AnswerStop>
    ensures told { (cells : List Cell) → TellsCells (R.file nodes.old) cells → PutsView camera.now (R.file nodes.old).grid cells (O.written out.old) (O.written out.new) result }
    ensures refused { StopsAsCast (R.file nodes.old).words (R.faults nodes.old) (R.faults nodes.new) result }
    ensures same { R.file nodes.new ≡ R.file nodes.old }
    ensures lender { R.lender nodes.new ≡ R.lender nodes.old }
    ensures cause { HasStopCause (O.faults out.old) (O.faults out.new) (R.faults nodes.old) (R.faults nodes.new) result }
{
    put_header(out, camera.width(), camera.height())?;
    put_pixels(nodes, camera, out, reads)
}

/// Puts out the greys of all pixels. The words that a ray reads are remembered for those beside it,
/// which mostly go the same way.
fn put_pixels<R: Records, O: ByteSink, L: Ledger>(
    nodes: &mut R,
    camera: &Camera,
    out: &mut O,
    reads: &mut Steps<L>,
) -> Result<(), AnswerStop>
    ensures told { (cells : List Cell) → TellsCells (R.file nodes.old) cells → PutsGreys camera.now (R.file nodes.old).grid cells 0 (camera.now.width * camera.now.height) (O.written out.old) (O.written out.new) result }
    ensures refused { StopsAsCast (R.file nodes.old).words (R.faults nodes.old) (R.faults nodes.new) result }
    ensures same { R.file nodes.new ≡ R.file nodes.old }
    ensures lender { R.lender nodes.new ≡ R.lender nodes.old }
    ensures cause { HasStopCause (O.faults out.old) (O.faults out.new) (R.faults nodes.old) (R.faults nodes.new) result }
{
    let mut recent = RecentWords::new(nodes);
    put_blocks(&mut recent, camera, out, reads)
}

/// Puts out the greys of all pixels, a block at a time.
fn put_blocks<R: Records, O: ByteSink, L: Ledger>(
    nodes: &mut R,
    camera: &Camera,
    out: &mut O,
    reads: &mut Steps<L>,
) -> Result<(), AnswerStop>
    ensures told { (cells : List Cell) → TellsCells (R.file nodes.old) cells → PutsGreys camera.now (R.file nodes.old).grid cells 0 (camera.now.width * camera.now.height) (O.written out.old) (O.written out.new) result }
    ensures refused { StopsAsCast (R.file nodes.old).words (R.faults nodes.old) (R.faults nodes.new) result }
    ensures same { R.file nodes.new ≡ R.file nodes.old }
    ensures lender { R.lender nodes.new ≡ R.lender nodes.old }
    ensures cause { HasStopCause (O.faults out.old) (O.faults out.new) (R.faults nodes.old) (R.faults nodes.new) result }
{
    let count = camera.size();
    let mut from = 0;
    while from < count {
        let end = count.min(from + BLOCK);
        put_block(nodes, camera, from, end, out, reads)?;
        from = end;
    }
    Ok(())
}

/// Puts out the greys of the pixels from one up to another, which fit into a block.
fn put_block<R: Records, O: ByteSink, L: Ledger>(
    nodes: &mut R,
    camera: &Camera,
    from: u32,
    end: u32,
    out: &mut O,
    reads: &mut Steps<L>,
) -> Result<(), AnswerStop>
    requires order { from ≤ end }
    requires end { end ≤ camera.now.width * camera.now.height }
    requires few { end ≤ from + 4096 }
    ensures told { (cells : List Cell) → TellsCells (R.file nodes.old) cells → PutsGreys camera.now (R.file nodes.old).grid cells from end (O.written out.old) (O.written out.new) result }
    ensures refused { StopsAsCast (R.file nodes.old).words (R.faults nodes.old) (R.faults nodes.new) result }
    ensures same { R.file nodes.new ≡ R.file nodes.old }
    ensures lender { R.lender nodes.new ≡ R.lender nodes.old }
    ensures cause { HasStopCause (O.faults out.old) (O.faults out.new) (R.faults nodes.old) (R.faults nodes.new) result }
{
    let mut block = ArrayVec::<u8, ROOM>::new();
    fill(nodes, camera, from, end, &mut block, reads)?;
    put(out, block.as_slice())
}

/// Fills an empty block with the greys of the pixels from one up to another.
fn fill<R: Records, L: Ledger>(
    nodes: &mut R,
    camera: &Camera,
    from: u32,
    end: u32,
    block: &mut ArrayVec<u8, ROOM>,
    reads: &mut Steps<L>,
) -> Result<(), WalkFault>
    requires order { from ≤ end }
    requires end { end ≤ camera.now.width * camera.now.height }
    requires few { end ≤ from + 4096 }
    requires empty { block.old.items ≡ [] }
    ensures told { (cells : List Cell) → TellsCells (R.file nodes.old) cells → OnOk result (AreGreys camera.now (R.file nodes.old).grid cells from block.new.items) }
    ensures full { OnOk result (length block.new.items ≡ end - from) }
    ensures sound { (cells : List Cell) → TellsCells (R.file nodes.old) cells → IfErr result (λ fault. fault ≡ WalkFault.Failed) }
    ensures cause { IfErr result (IsCaused (R.file nodes.old).words (R.faults nodes.old) (R.faults nodes.new)) }
    ensures later { R.faults nodes.old ≤ R.faults nodes.new }
    ensures same { R.file nodes.new ≡ R.file nodes.old }
    ensures lender { R.lender nodes.new ≡ R.lender nodes.old }
{
    for pixel in from..end {
        let sample = grey(nodes, camera, pixel, reads)?;
        block.push(sample);
    }
    Ok(())
}
