//! Files of a store in memory, framed and not, and a store that refuses a call.

ghost use Rattle.std.specs.Prelude.{◌≡◌, ◌<◌, ◌≤◌, ◌*◌, length};

use dev_traits::{MemStore, NodeStore};
use node_file::{LoadFault, Nodes, Records};
use std::alloc::{AllocError, Global};
use std::marker::Brand;
use std::sync::ledger::{Blank, Ledger};
use svo_base::Steps;

/// A file's format, its last word as `word` gives it, and the first byte of that word.
fn last_word<N: NodeStore, L: Ledger>(
    store: &mut N,
    name: &str,
    reads: &mut Steps<L>,
) -> Result<(u32, u64, u8), LoadFault> {
    let mut nodes = match Nodes::load(store, name) {
        Err(unloaded) => return Err(unloaded.fault),
        Ok(nodes) => nodes,
    };
    let last = nodes.totals().records - 1;
    let word = nodes.word(last, reads)?;
    let mut bytes = [0; 8];
    nodes.block(last, &mut bytes)?;
    Ok((nodes.format(), word, bytes[0]))
}

/// The same of a store whose one file has these bytes, and which refuses the call of this number.
#[tactic(auto, unfolding(dev_traits::specs::Files::file_named))]
fn last_word_counted<L: Ledger>(
    alloc: Global,
    bytes: &[u8],
    other: bool,
    refused: u64,
    blank: Blank,
) -> Result<Result<(u32, u64, u8), LoadFault>, AllocError>
    requires name { blank.name ≡ L.name }
    requires parts { blank.parts ≡ L.parts }
    requires one { 0 < blank.parts }
{
    let mut store = MemStore::new(alloc, &[refused])?;
    store.add("octree", bytes)?;
    let mut reads = Steps::<L>::new(blank);
    let name = if other { "octrees" } else { "octree" };
    Ok(last_word(&mut store, name, &mut reads))
}

fn last_word_from(
    alloc: Global,
    bytes: &[u8],
    other: bool,
    refused: u64,
) -> Result<Result<(u32, u64, u8), LoadFault>, AllocError> {
    last_word_counted::<Brand>(alloc, bytes, other, refused, Blank::new(1))
}

const FILE: [u8; 96] =
    *b"SVOCUBE2\x01\0\0\0\0\0\0\0\x05\0\0\0\0\0\0\0\xfe\xff\xff\xff\xff\xff\xff\xff\0\0\0\0\0\0\0\0\x03\0\0\0\0\0\0\0\x01\0\0\0\0\0\0\0\x08\0\0\0\0\0\0\0\0\0\0\0\0\0\0\0\x02\0\0\0\0\0\0\0\x01\0\0\0\0\0\0\0SVOCEND2";

#[test]
fn files_are_loaded_by_their_frame(rt: HostRuntime) {
    let loaded = last_word_from(rt.alloc(), &FILE, false, 0).expect(&rt, "memory");
    assert_eq!(rt; loaded, Ok((2, 8, 8)), "the file");
    for length in 0..96 {
        let front = last_word_from(rt.alloc(), &FILE[..length], false, 0).expect(&rt, "memory");
        assert_eq!(rt; front, Err(LoadFault::NotNodes), "its first {length} bytes");
    }
    // One byte of the names, the depth, the zeros, the side or the number of words is changed.
    for at in [0, 7, 11, 12, 47, 64, 72, 88, 95] {
        let mut bytes = FILE;
        bytes[at] ^= 3;
        let changed = last_word_from(rt.alloc(), &bytes, false, 0).expect(&rt, "memory");
        assert_eq!(rt; changed, Err(LoadFault::NotNodes), "with byte {at} changed");
    }
    let mut bytes = FILE;
    bytes[7] = b'1';
    bytes[95] = b'1';
    let other = last_word_from(rt.alloc(), &bytes, false, 0).expect(&rt, "memory");
    assert_eq!(rt; other, Ok((1, 8, 8)), "in format 1");
}

#[test]
fn a_store_that_refuses_a_call_is_no_other_file(rt: HostRuntime) {
    // The calls are whether the name is held, its selection, its length, header, trailer, word, block.
    for refused in 1..8 {
        let loaded = last_word_from(rt.alloc(), &FILE, false, refused).expect(&rt, "memory");
        assert_eq!(rt; loaded, Err(LoadFault::Failed), "at call {refused}");
    }
    let none = last_word_from(rt.alloc(), &FILE, true, 0).expect(&rt, "memory");
    assert_eq!(rt; none, Err(LoadFault::NoFile), "another name");
}
