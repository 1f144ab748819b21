//! A slice of an octree as a picture.

ghost use Rattle.std.specs.Prelude.{◌≡◌, ◌+◌, ◌-◌, ◌*◌, ◌^◌, ◌<◌, ◌≤◌, List, IfSome, map, min};
ghost use Rattle.std.specs.List.{range_with_len};
ghost use Rattle.slice_view.specs.declared.bands.TheConstants.{BAND_EXPONENT};
ghost use Rattle.svo_base.specs.declared.grids.TheConstants.{MAX_DEPTH};
ghost use Rattle.octree_specs.specs.Cells.{Cell};
ghost use Rattle.octree_specs.specs.Formats.{StandFor};
ghost use Rattle.node_check.specs.Counts.{LooksAsReads};
ghost use Rattle.node_check.specs.Stops.{HasStopCause, Puts, StopsAbove};
ghost use Rattle.node_check.specs.Walks.{IsWordOf, LeadsOn};
ghost use Rattle.slice_view.specs.Bands.{IsBand, IsBandOf, band_samples, band_size};
ghost use Rattle.slice_view.specs.Slices.{slice_picture, slice_sample};

use crate::axes::Axis;
use crate::bands::{BAND_EXPONENT, Band, ROOM};
use crate::headers::{put, put_header};
use crate::painting::paint;
use crate::squares::Square;
use dev_traits::ByteSink;
use node_check::{AnswerStop, Node, root};
use node_file::Records;
use std::sync::ledger::Ledger;
use svo_base::Steps;

/// Puts out the picture, in the form of a binary PGM, of the layer of cells at a place across an axis.
/// It is as wide and as high as there are cells along an axis, and a sample is 255 where the cell is
/// filled and else 0. Across x the columns go along y and the rows along z; across y they go along x
/// and z, across z along x and y. The uppermost row is that of the greatest place.
///
/// # Errors
///
/// - `WriteFault`: the output did not take a piece; what it took is a front of the picture.
/// - `Walk(Refused)`: a word's children do not all stand before it, so that the file is no node file.
/// - `Walk(Failed)`: a read failed. Of a node file, what was put out until then is a front of the
///   picture.
pub fn slice<R: Records, O: ByteSink, L: Ledger>(
    nodes: &mut R,
    axis: Axis,
    at: u32,
    out: &mut O,
    reads: &mut Steps<L>,
) -> Result<(), AnswerStop>
    requires { at < 2 ^ (R.file nodes.old).grid.depth }
    ensures told { IfSome (R.file nodes.old).words (λ words. (cells : List Cell) → StandFor (R.file nodes.old).format (R.file nodes.old).grid.depth words cells → Puts (O.written out.old) (O.written out.new) (slice_picture (R.file nodes.old).grid.depth axis at cells) result) }
    ensures refused { StopsAbove (R.file nodes.old).words (R.file nodes.old).totals.records result }
    ensures looked { LooksAsReads (R.looked nodes.old) (R.looked nodes.new) reads.old reads.new }
    ensures same { R.file nodes.new ≡ R.file nodes.old }
    ensures lender { R.lender nodes.new ≡ R.lender nodes.old }
    ensures cause { HasStopCause (O.faults out.old) (O.faults out.new) (R.faults nodes.old) (R.faults nodes.new) result }
{
    let depth = nodes.grid().depth();
    let width = power(depth);
    put_header(out, width, width)?;
    let root = root(nodes, reads)?;
    put_samples(nodes, axis, at, depth, &root, out, reads)
}

/// Puts out the samples, a band of rows at a time.
fn put_samples<R: Records, O: ByteSink, L: Ledger>(
    nodes: &mut R,
    axis: Axis,
    at: u32,
    depth: u32,
    root: &Node,
    out: &mut O,
    reads: &mut Steps<L>,
) -> Result<(), AnswerStop>
    requires halved { 1 ≤ depth }
    requires shallow { depth ≤ MAX_DEPTH }
    requires at { at < 2 ^ depth }
    requires own { IsWordOf (R.file nodes.old).words (R.file nodes.old).totals.records root.now.number root.now.word }
    ensures told { IfSome (R.file nodes.old).words (λ words. (cells : List Cell) → LeadsOn words (R.file nodes.old).format cells depth 0 root.now.number → Puts (O.written out.old) (O.written out.new) (map (slice_sample depth axis at cells) (range_with_len 0 (2 ^ depth * 2 ^ depth))) result) }
    ensures refused { StopsAbove (R.file nodes.old).words (R.file nodes.old).totals.records result }
    ensures looked { LooksAsReads (R.looked nodes.old) (R.looked nodes.new) reads.old reads.new }
    ensures same { R.file nodes.new ≡ R.file nodes.old }
    ensures lender { R.lender nodes.new ≡ R.lender nodes.old }
    ensures cause { HasStopCause (O.faults out.old) (O.faults out.new) (R.faults nodes.old) (R.faults nodes.new) result }
{
    for number in 0..power(depth - band_height(depth)) {
        let band = band_of(depth, axis, at, number);
        put_band(nodes, &band, root, out, reads)?;
    }
    Ok(())
}

/// The logarithm of the number of rows of a band: as many as a block has room for.
fn band_height(depth: u32) -> u32
    requires { depth ≤ MAX_DEPTH }
    ensures { result ≡ min depth (BAND_EXPONENT - depth) }
{
    depth.min(BAND_EXPONENT - depth)
}

/// The power of 2.
fn power(exponent: u32) -> u32
    requires { exponent ≤ MAX_DEPTH }
    ensures value { result ≡ 2 ^ exponent }
    ensures some { 1 ≤ result }
    ensures within { result ≤ 4096 }
{
    1 << exponent
}

/// The band of this number from the top.
fn band_of(depth: u32, axis: Axis, at: u32, number: u32) -> Band
    requires halved { 1 ≤ depth }
    requires shallow { depth ≤ MAX_DEPTH }
    requires at { at < 2 ^ depth }
    requires number { number < 2 ^ (depth - min depth (BAND_EXPONENT - depth)) }
    ensures band { IsBand result }
    ensures rows { IsBandOf result depth axis at number }
{
    let rows = power(band_height(depth));
    let high = power(depth) - 1 - number * rows;
    Band {
        depth,
        axis,
        at,
        low: high + 1 - rows,
        high,
    }
}

/// Puts out the samples of a band.
fn put_band<R: Records, O: ByteSink, L: Ledger>(
    nodes: &mut R,
    band: &Band,
    root: &Node,
    out: &mut O,
    reads: &mut Steps<L>,
) -> Result<(), AnswerStop>
    requires band { IsBand band.now }
    requires own { IsWordOf (R.file nodes.old).words (R.file nodes.old).totals.records root.now.number root.now.word }
    ensures told { IfSome (R.file nodes.old).words (λ words. (cells : List Cell) → LeadsOn words (R.file nodes.old).format cells band.now.depth 0 root.now.number → Puts (O.written out.old) (O.written out.new) (band_samples band.now cells) result) }
    ensures refused { StopsAbove (R.file nodes.old).words (R.file nodes.old).totals.records result }
    ensures looked { LooksAsReads (R.looked nodes.old) (R.looked nodes.new) reads.old reads.new }
    ensures same { R.file nodes.new ≡ R.file nodes.old }
    ensures lender { R.lender nodes.new ≡ R.lender nodes.old }
    ensures cause { HasStopCause (O.faults out.old) (O.faults out.new) (R.faults nodes.old) (R.faults nodes.new) result }
{
    let mut block = [0; ROOM];
    let whole = Square::root(band.axis, band.depth);
    paint(nodes, band, root, &whole, &mut block, reads)?;
    put(out, &block[..band.size()])
}
