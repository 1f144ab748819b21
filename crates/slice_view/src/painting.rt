//! The samples of a band, painted node by node.

ghost use Rattle.std.specs.Prelude.{◌≡◌, ℕ, ◌+◌, ◌<◌, ◌≤◌, ◌&&◌, List, IfSome, length};
ghost use Rattle.svo_base.specs.declared.grids.TheConstants.{MAX_DEPTH};
ghost use Rattle.octree_specs.specs.Cells.{Cell};
ghost use Rattle.node_check.specs.Counts.{HasCauseOf, LooksAsReads};
ghost use Rattle.node_check.specs.Walks.{IsWordOf, LeadsOn, RefusesAbove, has_child};
ghost use Rattle.node_check.specs.declared.walking.WalkFault.TheVariants.{Failed};
ghost use Rattle.slice_view.specs.Bands.{IsBand, IsSquare, PaintsUnder, band_size, crosses};

use crate::bands::Band;
use crate::squares::Square;
use node_check::{Node, WalkFault, child_at, has_bit};
use node_file::Records;
use std::sync::ledger::Ledger;
use svo_base::Steps;

/// Paints the filled cells under a node that the band shows, in a block that is black where they are.
/// Nodes that it does not show, and those without a filled cell, are not walked to.
pub fn paint<R: Records, L: Ledger>(
    nodes: &mut R,
    band: &Band,
    node: &Node,
    square: &Square,
    block: &mut [u8],
    reads: &mut Steps<L>,
) -> Result<(), WalkFault>
    requires band { IsBand band.now }
    requires square { IsSquare band.now.depth band.now.axis square.now }
    requires above { 1 ≤ square.now.height }
    requires own { IsWordOf (R.file nodes.old).words (R.file nodes.old).totals.records node.now.number node.now.word }
    requires room { band_size band.now ≤ length block.old }
    ensures told { IfSome (R.file nodes.old).words (λ words. (cells : List Cell) → LeadsOn words (R.file nodes.old).format cells square.now.height square.now.code node.now.number → PaintsUnder band.now cells square.now.height square.now.code block.old block.new result) }
    ensures room { length block.new ≡ length block.old }
    ensures refused { RefusesAbove (R.file nodes.old).words (R.file nodes.old).totals.records result }
    ensures looked { LooksAsReads (R.looked nodes.old) (R.looked nodes.new) reads.old reads.new }
    ensures same { R.file nodes.new ≡ R.file nodes.old }
    ensures lender { R.lender nodes.new ≡ R.lender nodes.old }
    ensures cause { HasCauseOf (R.faults nodes.old) (R.faults nodes.new) result Failed }
{
    for place in 0..8 {
        let child = square.child(band.axis, band.depth, place);
        if !is_entered(band, node.word, place, &child) {
            continue;
        }
        if child.height == 0 {
            block[band.sample(&child)] = WHITE;
            continue;
        }
        let next = child_at(nodes, node, place, reads)?;
        paint(nodes, band, &next, &child, block, reads)?;
    }
    Ok(())
}

/// The sample of a filled cell.
const WHITE: u8 = 255;

/// Whether the child at a place is there, and the band shows some of it.
fn is_entered(band: &Band, word: u64, place: u64, child: &Square) -> bool
    requires place { place < 8 }
    requires height { child.now.height ≤ MAX_DEPTH }
    ensures { result ≡ (has_child word place && crosses band.now child.now) }
{
    has_bit(word, place) && band.crosses(child)
}
