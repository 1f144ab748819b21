//! Steps down a file's words.

ghost use Rattle.std.specs.Prelude.{◌≡◌, ℕ, ◌+◌, ◌-◌, ◌*◌, ◌/◌, ◌%◌, ◌^◌, ◌==◌, ◌<◌, ◌≤◌, true, slice_index, List, IfSome, IfOk, IfErr, OnOk};
ghost use Rattle.svo_base.specs.declared.grids.TheConstants.{MAX_DEPTH};
ghost use Rattle.octree_specs.specs.Cells.{Cell};
ghost use Rattle.octree_specs.specs.Formats.{StandFor};
ghost use Rattle.octree_specs.specs.Walking.{child_number};
ghost use Rattle.node_check.specs.Counts.{HasCauseOf, LooksAsReads};
ghost use Rattle.node_check.specs.Walks.{IsWordOf, RefusesAbove, IfWalked, has_child, led_to, WalksTo};
ghost use Rattle.node_check.specs.declared.walking.WalkFault.TheVariants.{Failed};

use node_file::Records;
use std::sync::ledger::Ledger;
use svo_base::Steps;
use thiserror::Error;

/// Why a question about cells is not answered.
#[derive(Clone, Copy, Debug, Drop, Error, PartialEq, Eq)]
pub enum WalkFault {
    /// A read of the file failed.
    #[error("failed")]
    Failed,
    /// The file is no node file: the children of the word with this number do not all stand before it,
    /// or it stands where a cell's word would, and is none.
    #[error("number {number} refused")]
    Refused { number: u64, word: u64 },
}

impl From<dev_traits::Failed> for WalkFault {
    ghost from_gives = { λ _ e. e ≡ Failed };

    fn from(_fault: dev_traits::Failed) -> WalkFault {
        WalkFault::Failed
    }
}

/// A node of a file: its word, and the number of that.
#[derive(Clone, Copy, Debug)]
pub struct Node {
    pub number: u64,
    pub word: u64,
}

/// The root.
pub fn root<R: Records, L: Ledger>(nodes: &mut R, reads: &mut Steps<L>) -> Result<Node, WalkFault>
    ensures word { IfOk result (λ node. IsWordOf (R.file nodes.old).words (R.file nodes.old).totals.records node.number node.word) }
    ensures last { IfOk result (λ node. node.number ≡ (R.file nodes.old).totals.records - 1) }
    ensures unrefused { RefusesAbove (R.file nodes.old).words (R.file nodes.old).totals.records result }
    ensures real { IfErr result (λ fault. fault ≡ Failed) }
    ensures reads { reads.new ≡ reads.old + 1 }
    ensures looked { LooksAsReads (R.looked nodes.old) (R.looked nodes.new) reads.old reads.new }
    ensures same { R.file nodes.new ≡ R.file nodes.old }
    ensures lender { R.lender nodes.new ≡ R.lender nodes.old }
    ensures cause { HasCauseOf (R.faults nodes.old) (R.faults nodes.new) result Failed }
{
    let number = nodes.totals().records - 1;
    let word = nodes.word(number, reads)?;
    Ok(Node { number, word })
}

/// The child at a place, which the node's word has.
pub fn child_at<R: Records, L: Ledger>(
    nodes: &mut R,
    node: &Node,
    place: u64,
    reads: &mut Steps<L>,
) -> Result<Node, WalkFault>
    requires octant { place < 8 }
    requires bit { has_child node.now.word place ≡ true }
    requires own { IsWordOf (R.file nodes.old).words (R.file nodes.old).totals.records node.now.number node.now.word }
    ensures number { IfOk result (λ child. child.number ≡ child_number node.now.word place) }
    ensures word { IfOk result (λ child. IsWordOf (R.file nodes.old).words (R.file nodes.old).totals.records child.number child.word) }
    ensures refused { RefusesAbove (R.file nodes.old).words (R.file nodes.old).totals.records result }
    ensures below { child_number node.now.word place < node.now.number → IfErr result (λ fault. fault ≡ Failed) }
    ensures reads { reads.new ≤ reads.old + 1 }
    ensures looked { LooksAsReads (R.looked nodes.old) (R.looked nodes.new) reads.old reads.new }
    ensures same { R.file nodes.new ≡ R.file nodes.old }
    ensures lender { R.lender nodes.new ≡ R.lender nodes.old }
    ensures cause { HasCauseOf (R.faults nodes.old) (R.faults nodes.new) result Failed }
{
    let number = number_of_child(node.word, place);
    if number >= node.number {
        return Err(WalkFault::Refused {
            number: node.number,
            word: node.word,
        });
    }
    let word = nodes.word(number, reads)?;
    Ok(Node { number, word })
}

/// The number of the word of the child at a place.
pub fn number_of_child(word: u64, place: u64) -> u64
    requires { place < 8 }
    ensures { result ≡ child_number word place }
{
    word / 256 + u64::from((word % (1 << place)).count_ones())
}

/// Whether a word has a bit for the child at a place.
pub fn has_bit(word: u64, place: u64) -> bool
    requires { place < 8 }
    ensures { result ≡ has_child word place }
{
    (word >> place) & 1 == 1
}

/// The code of the node that a cell lies under, so many levels higher.
pub fn ancestor(code: u64, height: u32) -> u64
    requires { height ≤ MAX_DEPTH }
    ensures { result ≡ code / 8 ^ height }
{
    code >> (3 * height)
}

/// The place of a cell's ancestor among its siblings.
pub fn octant(code: u64, height: u32) -> u64
    requires { height ≤ MAX_DEPTH }
    ensures { result ≡ code / 8 ^ height % 8 }
{
    ancestor(code, height) % 8
}

/// The node just above a cell, if the masks lead to it.
pub fn walk_to<R: Records, L: Ledger>(
    nodes: &mut R,
    code: u64,
    reads: &mut Steps<L>,
) -> Result<Option<Node>, WalkFault>
    requires { code < 8 ^ (R.file nodes.old).grid.depth }
    ensures told { IfSome (R.file nodes.old).words (λ words. (cells : List Cell) → StandFor (R.file nodes.old).format (R.file nodes.old).grid.depth words cells → WalksTo words (R.file nodes.old).format cells code result) }
    ensures led { IfSome (R.file nodes.old).words (λ words. IfWalked result (λ node. led_to words (R.file nodes.old).grid.depth code ((R.file nodes.old).totals.records - 1) ≡ led_to words 1 code node.number)) }
    ensures word { IfWalked result (λ node. IsWordOf (R.file nodes.old).words (R.file nodes.old).totals.records node.number node.word) }
    ensures refused { RefusesAbove (R.file nodes.old).words (R.file nodes.old).totals.records result }
    ensures reads { reads.new ≤ reads.old + (R.file nodes.old).grid.depth }
    ensures looked { LooksAsReads (R.looked nodes.old) (R.looked nodes.new) reads.old reads.new }
    ensures same { R.file nodes.new ≡ R.file nodes.old }
    ensures lender { R.lender nodes.new ≡ R.lender nodes.old }
    ensures cause { HasCauseOf (R.faults nodes.old) (R.faults nodes.new) result Failed }
{
    let mut height = nodes.grid().depth();
    let mut node = root(nodes, reads)?;
    while height > 1 {
        height -= 1;
        let place = octant(code, height);
        if !has_bit(node.word, place) {
            return Ok(None);
        }
        node = child_at(nodes, &node, place, reads)?;
    }
    Ok(Some(node))
}
