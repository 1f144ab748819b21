//! Whether a framed file is a node file.

ghost use Rattle.std.specs.Prelude.{◌≡◌, ℕ, ◌+◌, ◌-◌, ◌*◌, ◌/◌, ◌%◌, ◌^◌, ◌==◌, ◌&&◌, ◌||◌, ◌<◌, ◌≤◌, nat_lt, nat_le, not, length, slice_index, IfSome, IfOk, OnOk, Ok, Err, count_ones};
ghost use Rattle.svo_base.specs.declared.grids.TheConstants.{MAX_DEPTH};
ghost use Rattle.octree_specs.specs.Checking.{rule_of, and_then, fit, fit_each, fit_parent, refused_by, refused_in};
ghost use Rattle.octree_specs.specs.Formats.{IsFormat, levels_of};
ghost use Rattle.node_check.specs.Counts.{HasCauseOf, LooksAsReads};
ghost use Rattle.node_check.specs.Verdicts.{Agrees, leaf_among, leaf_fit, IsVerdict, IsSettled, IsBounded, ReadsFew};
ghost use Rattle.node_check.specs.declared.checking.CheckFault.TheVariants.{Failed};

use crate::siblings::read_siblings;
use crate::walking::Node;
use node_file::{Records, Totals};
use std::sync::ledger::Ledger;
use svo_base::Steps;
use thiserror::Error;

/// Why a file is not taken for a node file.
#[derive(Clone, Copy, Debug, Drop, Error, PartialEq, Eq)]
pub enum CheckFault {
    /// A read of the file failed.
    #[error("failed")]
    Failed,
    /// The words are those of no cells. The number is that of the first word that does not fit, from
    /// the root down, or the number behind the last one for the trailer.
    #[error("number {number} refused")]
    Refused { number: u64 },
}

impl From<dev_traits::Failed> for CheckFault {
    ghost from_gives = { λ _ e. e ≡ Failed };

    fn from(_fault: dev_traits::Failed) -> CheckFault {
        CheckFault::Failed
    }
}

/// The greatest number of a face that a cell can keep.
const MAX_FACE: u64 = 4_294_967_294;

/// Of a node that fits: the number of the first word behind those below it, and how many cells it has.
#[derive(Clone, Copy, Debug)]
pub struct Subtree {
    pub next: u64,
    pub cells: u64,
}

/// Whether a file is a node file: whether there are cells with faces that it keeps, in its format, and
/// as many of them as its trailer says. Answers how many words and cells it has.
///
/// It reads each word once, and where a file is refused at most 8 words a level more than it has.
///
/// # Errors
///
/// - `Refused`: the file is none, with the number of the first word that does not fit.
/// - `Failed`: a read failed.
pub fn check<R: Records, L: Ledger>(
    nodes: &mut R,
    reads: &mut Steps<L>,
) -> Result<Totals, CheckFault>
    ensures verdict { IfSome (R.file nodes.old).words (λ words. IsVerdict (refused_in (R.file nodes.old).format (R.file nodes.old).grid.depth words (R.file nodes.old).totals.cells) (R.file nodes.old).totals result) }
    ensures settled { IfSome (R.file nodes.old).words (λ words. IsSettled (R.file nodes.old).format (R.file nodes.old).grid.depth (R.file nodes.old).totals.cells words result) }
    ensures totals { IfOk result (λ totals. totals ≡ (R.file nodes.old).totals) }
    ensures reads { reads.new ≤ reads.old + ((R.file nodes.old).totals.records + 8 * (R.file nodes.old).grid.depth) }
    ensures looked { R.looked nodes.new ≤ R.looked nodes.old + ((R.file nodes.old).totals.records + 8 * (R.file nodes.old).grid.depth) }
    ensures same { R.file nodes.new ≡ R.file nodes.old }
    ensures lender { R.lender nodes.new ≡ R.lender nodes.old }
    ensures cause { HasCauseOf (R.faults nodes.old) (R.faults nodes.new) result Failed }
{
    let totals = check_words(nodes, reads)?;
    Ok(totals)
}

/// The same, by the words alone.
fn check_words<R: Records, L: Ledger>(
    nodes: &mut R,
    reads: &mut Steps<L>,
) -> Result<Totals, CheckFault>
    ensures verdict { IfSome (R.file nodes.old).words (λ words. IsVerdict (refused_in (R.file nodes.old).format (R.file nodes.old).grid.depth words (R.file nodes.old).totals.cells) (R.file nodes.old).totals result) }
    ensures known { IsFormat (R.file nodes.old).format }
    ensures deep { 1 ≤ (R.file nodes.old).grid.depth }
    ensures some { IfSome (R.file nodes.old).words (λ words. 0 < length words) }
    ensures totals { IfOk result (λ totals. totals ≡ (R.file nodes.old).totals) }
    ensures reads { reads.new ≤ reads.old + ((R.file nodes.old).totals.records + 8 * (R.file nodes.old).grid.depth) }
    ensures looked { LooksAsReads (R.looked nodes.old) (R.looked nodes.new) reads.old reads.new }
    ensures same { R.file nodes.new ≡ R.file nodes.old }
    ensures lender { R.lender nodes.new ≡ R.lender nodes.old }
    ensures cause { HasCauseOf (R.faults nodes.old) (R.faults nodes.new) result Failed }
{
    let totals = nodes.totals();
    let format = nodes.format();
    let height = leaf_levels(format, nodes.grid().depth());
    let last = totals.records - 1;
    let word = nodes.word(last, reads)?;
    if is_empty(totals.records, word) {
        return root_verdict(&totals, &Subtree { next: 0, cells: 0 });
    }
    let root = Node { number: last, word };
    let span = check_node(nodes, format, height, &root, 0, reads)?;
    root_verdict(&totals, &span)
}

/// How many levels the leaves are below the root.
fn leaf_levels(format: u32, depth: u32) -> u32
    requires { 1 ≤ depth }
    ensures { result ≡ levels_of format depth }
{
    if format == 1 { depth - 1 } else { depth }
}

/// Whether a file with so many words, the last of which is this one, has no cells.
fn is_empty(records: u64, word: u64) -> bool
    ensures { result ≡ ((records == 1) && (word == 0)) }
{
    records == 1 && word == 0
}

/// What the root says of the file: all other words are below it, and as many cells as the trailer says.
fn root_verdict(totals: &Totals, root: &Subtree) -> Result<Totals, CheckFault>
    requires { 1 ≤ totals.now.records }
    ensures verdict { IsVerdict (refused_by totals.now.records totals.now.cells (Ok (record { next = root.now.next; cells = root.now.cells }))) totals.now result }
    ensures totals { IfOk result (λ answer. answer ≡ totals.now) }
    ensures unfailed { result ≡ Err Failed → ⊥ }
{
    if root.next != totals.records - 1 {
        return Err(CheckFault::Refused {
            number: totals.records - 1,
        });
    }
    if root.cells != totals.cells {
        return Err(CheckFault::Refused {
            number: totals.records,
        });
    }
    Ok(*totals)
}

/// Checks a node and all that lies below it, where the words below it are placed from `at` on.
fn check_node<R: Records, L: Ledger>(
    nodes: &mut R,
    format: u32,
    height: u32,
    node: &Node,
    at: u64,
    reads: &mut Steps<L>,
) -> Result<Subtree, CheckFault>
    requires shallow { height ≤ MAX_DEPTH }
    requires known { IsFormat format }
    requires number { node.now.number < (R.file nodes.old).totals.records }
    requires word { IfSome (R.file nodes.old).words (λ words. node.now.word ≡ slice_index words node.now.number) }
    requires place { at < (R.file nodes.old).totals.records }
    ensures fits { IfSome (R.file nodes.old).words (λ words. Agrees (fit (rule_of format) words height node.now.number at) result) }
    ensures bounds { IfOk result (IsBounded (R.file nodes.old).totals.records height at reads.old reads.new) }
    ensures few { ReadsFew (R.file nodes.old).totals.records height at reads.old reads.new }
    ensures looked { LooksAsReads (R.looked nodes.old) (R.looked nodes.new) reads.old reads.new }
    ensures same { R.file nodes.new ≡ R.file nodes.old }
    ensures lender { R.lender nodes.new ≡ R.lender nodes.old }
    ensures cause { HasCauseOf (R.faults nodes.old) (R.faults nodes.new) result Failed }
{
    if height == 0 {
        return leaf_subtree(format, node, at);
    }
    let base = node.word / 256;
    let count = ones(node.word);
    if is_misplaced(node, base, count) {
        return Err(CheckFault::Refused {
            number: node.number,
        });
    }
    let siblings = read_siblings(nodes, base, count, reads)?;
    if height == 1 {
        return leaves_subtree(format, node, base, &siblings, count, at);
    }
    let mut below = Subtree { next: at, cells: 0 };
    for place in 0..count {
        let child = Node {
            number: base + u64::from(place),
            word: siblings[place as usize],
        };
        let span = check_node(nodes, format, height - 1, &child, below.next, reads)?;
        below = Subtree {
            next: span.next,
            cells: below.cells + span.cells,
        };
    }
    parent_subtree(node, &below)
}

/// How many children a word has.
fn ones(word: u64) -> u32
    ensures value { result ≡ count_ones (word % 256) }
    ensures few { result ≤ 8 }
{
    (word % 256).count_ones()
}

/// Whether a node above the leaves has no child, or one that does not stand before it.
fn is_misplaced(node: &Node, base: u64, count: u32) -> bool
    requires { base < 2 ^ 60 }
    ensures { result ≡ ((node.now.word % 256 == 0) || nat_lt node.now.number (base + count)) }
{
    node.word % 256 == 0 || node.number < base + u64::from(count)
}

/// The span of a node above the leaves, of which this lies below.
fn parent_subtree(node: &Node, below: &Subtree) -> Result<Subtree, CheckFault>
    ensures fits { Agrees (fit_parent node.now.number node.now.word (record { next = below.now.next; cells = below.now.cells })) result }
    ensures next { IfOk result (λ span. (below.now.next ≡ node.now.word / 256) × (span.next ≡ node.now.word / 256 + count_ones (node.now.word % 256))) }
    ensures cells { IfOk result (λ span. span.cells ≡ below.now.cells) }
    ensures unfailed { result ≡ Err Failed → ⊥ }
{
    let base = node.word / 256;
    if below.next != base {
        return Err(CheckFault::Refused {
            number: node.number,
        });
    }
    Ok(Subtree {
        next: base + u64::from(ones(node.word)),
        cells: below.cells,
    })
}

/// The span of a node just above the leaves, of which so many from a number on have these words.
fn leaves_subtree(
    format: u32,
    node: &Node,
    base: u64,
    siblings: &[u64; 8],
    count: u32,
    at: u64,
) -> Result<Subtree, CheckFault>
    requires known { IsFormat format }
    requires count { count ≤ 8 }
    requires base { base < 2 ^ 60 }
    ensures fits { Agrees (and_then (fit_each (leaf_among (rule_of format) siblings.now base) count base at) (fit_parent node.now.number node.now.word)) result }
    ensures next { IfOk result (λ span. (at ≡ node.now.word / 256) × (span.next ≡ node.now.word / 256 + count_ones (node.now.word % 256))) }
    ensures cells { IfOk result (λ span. span.cells ≤ 8 * count) }
    ensures unfailed { result ≡ Err Failed → ⊥ }
{
    let mut cells = 0;
    for place in 0..count {
        let word = siblings[place as usize];
        if !is_lawful(format, word) {
            return Err(CheckFault::Refused {
                number: base + u64::from(place),
            });
        }
        cells += cell_count(format, word);
    }
    parent_subtree(node, &Subtree { next: at, cells })
}

/// The span of a leaf.
fn leaf_subtree(format: u32, node: &Node, at: u64) -> Result<Subtree, CheckFault>
    requires { IsFormat format }
    ensures fits { Agrees (leaf_fit (rule_of format) node.now.word node.now.number at) result }
    ensures next { IfOk result (λ span. span.next ≡ at) }
    ensures cells { IfOk result (λ span. span.cells ≤ 8) }
    ensures unfailed { result ≡ Err Failed → ⊥ }
{
    if !is_lawful(format, node.word) {
        return Err(CheckFault::Refused {
            number: node.number,
        });
    }
    Ok(Subtree {
        next: at,
        cells: cell_count(format, node.word),
    })
}

/// Whether a leaf may have this word.
fn is_lawful(format: u32, word: u64) -> bool
    ensures { result ≡ (rule_of format).allows word }
{
    if format == 1 {
        is_mask(word)
    } else {
        is_face(word)
    }
}

/// Whether it is a mask of some cells, with the base 0.
fn is_mask(word: u64) -> bool
    ensures { result ≡ (not (word % 256 == 0) && (word / 256 == 0)) }
{
    word % 256 != 0 && word / 256 == 0
}

/// Whether it is the word of a cell with a face.
pub fn is_face(word: u64) -> bool
    ensures { result ≡ ((word % 256 == 1) && nat_le (word / 256) 4294967294) }
{
    word % 256 == 1 && word / 256 <= MAX_FACE
}

/// How many cells a leaf with this word has.
fn cell_count(format: u32, word: u64) -> u64
    ensures value { result ≡ (rule_of format).cells word }
    ensures few { result ≤ 8 }
{
    if format == 1 {
        u64::from(ones(word))
    } else {
        1
    }
}
