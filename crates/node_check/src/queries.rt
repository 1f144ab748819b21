//! Questions about cells of a node file.

ghost use Rattle.std.specs.Prelude.{◌≡◌, ℕ, ◌+◌, ◌-◌, ◌*◌, ◌/◌, ◌%◌, ◌^◌, ◌<◌, ◌≤◌, true, false, is_some, List, IfSome, IfNone, IfOk, OnOk};
ghost use Rattle.octree_specs.specs.Cells.{Cell};
ghost use Rattle.octree_specs.specs.Formats.{StandFor};
ghost use Rattle.node_check.specs.Counts.{HasCauseOf, LooksAsReads};
ghost use Rattle.node_check.specs.Walks.{face_at, keeps_face, has_child, led_to, IsWordOf, LeadsOn, Gives, RefusesAbove, RefusesNoCell};
ghost use Rattle.node_check.specs.Cursors.{GivesFace};
ghost use Rattle.node_check.specs.declared.walking.WalkFault.TheVariants.{Failed};

use crate::checking::is_face;
use crate::walking::{Node, WalkFault, child_at, has_bit, walk_to};
use node_file::Records;
use std::sync::ledger::Ledger;
use svo_base::Steps;

/// Whether a cell is filled. It reads at most as many words as the octree is deep.
///
/// # Errors
///
/// - `Refused`: a word's children do not all stand before it, so that the file is no node file.
/// - `Failed`: a read failed.
pub fn has<R: Records, L: Ledger>(
    nodes: &mut R,
    code: u64,
    reads: &mut Steps<L>,
) -> Result<bool, WalkFault>
    requires { code < 8 ^ (R.file nodes.old).grid.depth }
    ensures told { IfSome (R.file nodes.old).words (λ words. (cells : List Cell) → StandFor (R.file nodes.old).format (R.file nodes.old).grid.depth words cells → Gives (is_some (face_at cells code)) result) }
    ensures refused { RefusesAbove (R.file nodes.old).words (R.file nodes.old).totals.records result }
    ensures reads { reads.new ≤ reads.old + (R.file nodes.old).grid.depth }
    ensures looked { R.looked nodes.new ≤ R.looked nodes.old + (R.file nodes.old).grid.depth }
    ensures same { R.file nodes.new ≡ R.file nodes.old }
    ensures lender { R.lender nodes.new ≡ R.lender nodes.old }
    ensures cause { HasCauseOf (R.faults nodes.old) (R.faults nodes.new) result Failed }
{
    match walk_to(nodes, code, reads)? {
        None => Ok(false),
        Some(node) => Ok(has_bit(node.word, code % 8)),
    }
}

/// The face that fills a cell, or `None` where it is not filled. In format 1, which keeps no faces, it
/// is 0. It reads at most one word more than the octree is deep.
///
/// # Errors
///
/// - `Refused`: a word's children do not all stand before it, or the word to which masks and bases
///   lead is that of no cell, so that the file is no node file.
/// - `Failed`: a read failed.
pub fn face_of<R: Records, L: Ledger>(
    nodes: &mut R,
    code: u64,
    reads: &mut Steps<L>,
) -> Result<Option<u32>, WalkFault>
    requires { code < 8 ^ (R.file nodes.old).grid.depth }
    ensures told { IfSome (R.file nodes.old).words (λ words. (cells : List Cell) → StandFor (R.file nodes.old).format (R.file nodes.old).grid.depth words cells → Gives (face_at cells code) result) }
    ensures small { IfOk result (λ face. IfSome face (λ face. face ≤ 4294967294)) }
    ensures refused { RefusesNoCell (R.file nodes.old).words (R.file nodes.old).totals.records (R.file nodes.old).grid.depth code result }
    ensures reads { reads.new ≤ reads.old + ((R.file nodes.old).grid.depth + 1) }
    ensures looked { R.looked nodes.new ≤ R.looked nodes.old + ((R.file nodes.old).grid.depth + 1) }
    ensures same { R.file nodes.new ≡ R.file nodes.old }
    ensures lender { R.lender nodes.new ≡ R.lender nodes.old }
    ensures cause { HasCauseOf (R.faults nodes.old) (R.faults nodes.new) result Failed }
{
    let format = nodes.format();
    let Some(node) = walk_to(nodes, code, reads)? else {
        return Ok(None);
    };
    if !has_bit(node.word, code % 8) {
        return Ok(None);
    }
    if format == 1 {
        return Ok(Some(0));
    }
    let cell = child_at(nodes, &node, code % 8, reads)?;
    match face_in(cell.word) {
        Some(face) => Ok(Some(face)),
        None => Err(WalkFault::Refused {
            number: cell.number,
            word: cell.word,
        }),
    }
}

/// The face of a cell that the node just above it has.
pub fn cell_face<R: Records, L: Ledger>(
    nodes: &mut R,
    node: &Node,
    code: u64,
    reads: &mut Steps<L>,
) -> Result<u32, WalkFault>
    requires own { IsWordOf (R.file nodes.old).words (R.file nodes.old).totals.records node.now.number node.now.word }
    requires bit { has_child node.now.word (code % 8) ≡ true }
    requires leads { IfSome (R.file nodes.old).words (λ words. (cells : List Cell) → StandFor (R.file nodes.old).format (R.file nodes.old).grid.depth words cells → LeadsOn words (R.file nodes.old).format cells 1 (code / 8) node.now.number) }
    requires led { IfSome (R.file nodes.old).words (λ words. led_to words (R.file nodes.old).grid.depth code ((R.file nodes.old).totals.records - 1) ≡ led_to words 1 code node.now.number) }
    ensures told { IfSome (R.file nodes.old).words (λ words. (cells : List Cell) → StandFor (R.file nodes.old).format (R.file nodes.old).grid.depth words cells → GivesFace cells code result) }
    ensures small { IfOk result (λ face. face ≤ 4294967294) }
    ensures refused { RefusesNoCell (R.file nodes.old).words (R.file nodes.old).totals.records (R.file nodes.old).grid.depth code result }
    ensures looked { LooksAsReads (R.looked nodes.old) (R.looked nodes.new) reads.old reads.new }
    ensures same { R.file nodes.new ≡ R.file nodes.old }
    ensures lender { R.lender nodes.new ≡ R.lender nodes.old }
    ensures cause { HasCauseOf (R.faults nodes.old) (R.faults nodes.new) result Failed }
{
    if nodes.format() == 1 {
        return Ok(0);
    }
    let cell = child_at(nodes, node, code % 8, reads)?;
    match face_in(cell.word) {
        Some(face) => Ok(face),
        None => Err(WalkFault::Refused {
            number: cell.number,
            word: cell.word,
        }),
    }
}

/// The face in a cell's word of format 2, if it is one.
fn face_in(word: u64) -> Option<u32>
    ensures found { IfSome result (λ face. (face ≡ word / 256) × (face ≤ 4294967294) × (keeps_face word ≡ true)) }
    ensures missing { IfNone result (keeps_face word ≡ false) }
{
    if !is_face(word) {
        return None;
    }
    Some((word / 256) as u32)
}
