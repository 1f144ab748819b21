//! Words of files in a store in memory, through kept blocks, and how often the store is called.

ghost use Rattle.std.specs.Prelude.{◌≡◌, ◌<◌, ◌≤◌, Err};
ghost use Rattle.dev_traits.specs.Faults.{HasCause, Rose};
ghost use Rattle.node_file.specs.declared.loading.LoadFault.TheVariants.{Failed};

use block_cache::{BlockCache, Blocks};
use dev_traits::{MemStore, NodeStore};
use node_file::{Frame, LoadFault, Nodes, Records, trailer_bytes};
use std::alloc::{AllocError, Global};
use std::marker::Brand;
use std::sync::ledger::{Blank, Ledger};
use svo_base::Steps;

const HEADER: [u8; 48] =
    *b"SVOCUBE2\x01\0\0\0\0\0\0\0\x05\0\0\0\0\0\0\0\xfe\xff\xff\xff\xff\xff\xff\xff\0\0\0\0\0\0\0\0\x03\0\0\0\0\0\0\0";

/// The word of a number in the files of these tests.
fn word_of(number: u64) -> u64 {
    number.wrapping_mul(0x9e37_79b9_7f4a_7c15)
}

/// A framed file of so many words.
fn file_of(alloc: Global, records: u64) -> Result<Vec<u8>, AllocError> {
    let mut bytes = Vec::from_slice(alloc, &HEADER)?;
    for number in 0..records {
        bytes.extend_from_slice(&word_of(number).to_le_bytes())?;
    }
    bytes.extend_from_slice(&trailer_bytes(records, 0))?;
    Ok(bytes)
}

/// What is read of a file: every `step`th word from the first on, round and round, so many in all.
#[derive(Clone, Copy)]
struct Walk {
    records: u64,
    keep: usize,
    step: u64,
    count: u64,
}

/// How many words of a walk are those of the file.
fn right_words<R: Records, L: Ledger>(
    nodes: &mut R,
    walk: &Walk,
    reads: &mut Steps<L>,
) -> Result<u64, dev_traits::Failed>
    ensures lender { R.lender nodes.new ≡ R.lender nodes.old }
    ensures cause { HasCause (R.faults nodes.old) (R.faults nodes.new) result }
{
    let records = nodes.totals().records;
    let mut right = 0;
    for turn in 0..walk.count {
        let number = turn.wrapping_mul(walk.step) % records;
        let word = nodes.word(number, reads)?;
        right += u64::from(word == word_of(number));
    }
    Ok(right)
}

/// The same of a named file, whose blocks are kept. A caller that lends its store knows it again.
fn right_words_named<N: NodeStore, L: Ledger>(
    store: &mut N,
    cache: &mut BlockCache,
    walk: &Walk,
    reads: &mut Steps<L>,
) -> Result<u64, LoadFault>
    ensures later { N.faults store.old ≤ N.faults store.new }
    ensures cause { result ≡ Err Failed → Rose (N.faults store.old) (N.faults store.new) }
{
    let frame = Frame::read(store, "octree")?;
    let mut blocks = Blocks::new(Nodes::new(store, frame), cache);
    match right_words(&mut blocks, walk, reads) {
        Ok(right) => Ok(right),
        Err(_) => Err(LoadFault::Failed),
    }
}

/// The same in a store that refuses the call of this number, and how often it was called.
#[tactic(auto, unfolding(dev_traits::specs::Files::file_named))]
fn walk_counted<L: Ledger>(
    alloc: Global,
    walk: &Walk,
    refused: u64,
    blank: Blank,
) -> Result<(Result<u64, LoadFault>, u64), AllocError>
    requires name { blank.name ≡ L.name }
    requires parts { blank.parts ≡ L.parts }
    requires one { 0 < blank.parts }
{
    let bytes = file_of(alloc, walk.records)?;
    let mut store = MemStore::new(alloc, &[refused])?;
    store.add("octree", bytes.as_slice())?;
    let mut cache = BlockCache::make(alloc, walk.keep.clamp(1, 65_536))?;
    let mut reads = Steps::<L>::new(blank);
    let right = right_words_named(&mut store, &mut cache, walk, &mut reads);
    Ok((right, store.calls()))
}

fn walked(
    alloc: Global,
    walk: &Walk,
    refused: u64,
) -> Result<(Result<u64, LoadFault>, u64), AllocError> {
    walk_counted::<Brand>(alloc, walk, refused, Blank::new(1))
}

/// How often the store is called until the file is loaded.
const LOADING: u64 = 5;

#[test]
fn the_store_is_read_where_a_block_is_not_kept(rt: HostRuntime) {
    // Words, blocks that are kept, step, words read, reads of the store. 1300 words are three blocks.
    for (records, keep, step, count, blocks) in [
        (1, 1, 1, 5, 1),
        (9, 1, 8, 2, 1),
        (512, 1, 511, 600, 1),
        (513, 1, 512, 10, 3),
        (513, 2, 512, 10, 2),
        (1300, 1, 1, 2600, 6),
        (1300, 1, 500, 60, 55),
        (1300, 2, 500, 60, 29),
        (1300, 2, 700, 200, 47),
        (1300, 3, 500, 60, 3),
        (1300, 64, 1299, 2600, 3),
        (2100, 3, 600, 60, 36),
        (2100, 65_536, 7, 5000, 5),
    ] {
        let walk = Walk {
            records,
            keep,
            step,
            count,
        };
        let (right, calls) = walked(rt.alloc(), &walk, 0).expect(&rt, "memory");
        assert_eq!(rt;
            right,
            Ok(count),
            "{records} words, {keep} blocks, step {step}"
        );
        assert_eq!(rt;
            calls.saturating_sub(LOADING),
            blocks,
            "{records} words, {keep} blocks, step {step}"
        );
    }
}

/// Word 8 of the store's file, then word 0, with one block kept.
fn two_words<N: NodeStore, L: Ledger>(
    store: &mut N,
    cache: &mut BlockCache,
    reads: &mut Steps<L>,
) -> Result<(u64, u64), LoadFault> {
    let nodes = match Nodes::load(store, "octree") {
        Err(unloaded) => return Err(unloaded.fault),
        Ok(nodes) => nodes,
    };
    if nodes.totals().records != 9 {
        return Err(LoadFault::NotNodes);
    }
    let mut blocks = Blocks::new(nodes, cache);
    let last = blocks.word(8, reads)?;
    let first = blocks.word(0, reads)?;
    Ok((last, first))
}

/// The same of a store with this file, and how often the store was called.
#[tactic(auto, unfolding(dev_traits::specs::Files::file_named))]
fn two_words_counted<L: Ledger>(
    alloc: Global,
    bytes: &[u8],
    blank: Blank,
) -> Result<(Result<(u64, u64), LoadFault>, u64), AllocError>
    requires name { blank.name ≡ L.name }
    requires parts { blank.parts ≡ L.parts }
    requires one { 0 < blank.parts }
{
    let mut store = MemStore::new(alloc, &[])?;
    store.add("octree", bytes)?;
    let mut cache = BlockCache::make(alloc, 1)?;
    let mut reads = Steps::<L>::new(blank);
    let words = two_words(&mut store, &mut cache, &mut reads);
    Ok((words, store.calls()))
}

fn two_words_of(
    alloc: Global,
    bytes: &[u8],
) -> Result<(Result<(u64, u64), LoadFault>, u64), AllocError> {
    two_words_counted::<Brand>(alloc, bytes, Blank::new(1))
}

const NINE_WORDS: [u8; 152] =
    *b"SVOCUBE1\x02\0\0\0\0\0\0\0\0\0\0\0\0\0\0\0\0\0\0\0\0\0\0\0\0\0\0\0\0\0\0\0\x01\0\0\0\0\0\0\0\x80\0\0\0\0\0\0\0\x40\0\0\0\0\0\0\0\x20\0\0\0\0\0\0\0\x10\0\0\0\0\0\0\0\x08\0\0\0\0\0\0\0\x04\0\0\0\0\0\0\0\x02\0\0\0\0\0\0\0\x01\0\0\0\0\0\0\0\xff\0\0\0\0\0\0\0\0\0\0\0\0\0\0\0\x09\0\0\0\0\0\0\0\x08\0\0\0\0\0\0\0SVOCEND1";

#[test]
fn two_words_of_one_block_are_one_read(rt: HostRuntime) {
    let (words, calls) = two_words_of(rt.alloc(), &NINE_WORDS).expect(&rt, "memory");
    assert_eq!(rt; words, Ok((255, 128)), "the last word and the first");
    assert_eq!(rt; calls, LOADING + 1, "one read behind the load");
}

#[test]
fn a_store_that_refuses_a_call_is_a_fault(rt: HostRuntime) {
    let walk = Walk {
        records: 1300,
        keep: 2,
        step: 512,
        count: 6,
    };
    // Of six blocks each is read at a call of its own.
    for refused in 1..LOADING + 7 {
        let (right, calls) = walked(rt.alloc(), &walk, refused).expect(&rt, "memory");
        assert_eq!(rt; right, Err(LoadFault::Failed), "at call {refused}");
        assert_eq!(rt; calls, refused, "at call {refused}");
    }
    let (right, calls) = walked(rt.alloc(), &walk, LOADING + 7).expect(&rt, "memory");
    assert_eq!(rt;
        (right, calls),
        (Ok(6), LOADING + 6),
        "behind the last call"
    );
}
