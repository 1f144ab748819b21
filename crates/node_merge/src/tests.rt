//! Small files of a store in memory, put together and with fewer levels.

ghost use Rattle.std.specs.Prelude.{◌≡◌, ◌<◌, ◌≤◌, ◌*◌, length};

use crate::test_files::{
    BOTH, DEEP, DEEP_LESS_ONE, DEEP_LESS_TWO, FIRST, FIRST_IN_ONE, FIRST_LESS_ONE, MINUS, NONE,
    NONE_LESS_ONE, SECOND, UNION, UNION_OF_ONE,
};
use crate::{MergeKind, Pair, Side, Turn, coarsen, merge};
use dev_traits::{ByteSink, MemSink, MemStore, NodeStore};
use node_file::Totals;
use room_plan::QueueEntry;
use std::alloc::{AllocError, Global};
use std::marker::Brand;
use std::sync::ledger::{Blank, Ledger};
use svo_base::Steps;

/// The file of two of a store's put together, as far as it was put, and its numbers of words and cells.
fn put_merged<N: NodeStore, O: ByteSink, L: Ledger>(
    store: &mut N,
    kind: MergeKind,
    out: &mut O,
    moves: &mut Steps<L>,
) -> Option<Totals> {
    let mut pair = match Pair::load(store, "one", "two") {
        Err(_) => return None,
        Ok(pair) => pair,
    };
    if !pair.has_one_grid() {
        return None;
    }
    let grid = pair.frame(Turn::First).grid;
    let mut entries = [QueueEntry { word: 0, state: 0 }; 96];
    let mut block = [0; 64];
    let room = 8 * grid.depth() as usize;
    merge(
        &mut pair,
        kind,
        &mut entries[..room],
        &mut block,
        out,
        moves,
    )
    .ok()
}

/// The same of these files, in a sink of memory.
#[tactic(auto, unfolding(dev_traits::specs::Files::file_named))]
fn merged_counted<L: Ledger>(
    alloc: Global,
    one: &[u8],
    two: &[u8],
    kind: MergeKind,
    blank: Blank,
) -> Result<(MemSink, Option<Totals>), AllocError>
    requires name { blank.name ≡ L.name }
    requires parts { blank.parts ≡ L.parts }
    requires one { 0 < blank.parts }
{
    let mut store = MemStore::new(alloc, &[])?;
    store.add("one", one)?;
    store.add("two", two)?;
    let mut moves = Steps::<L>::new(blank);
    let mut out = MemSink::new(alloc, 1 << 12, &[])?;
    let totals = put_merged(&mut store, kind, &mut out, &mut moves);
    Ok((out, totals))
}

fn merged(
    alloc: Global,
    one: &[u8],
    two: &[u8],
    kind: MergeKind,
) -> Result<(MemSink, Option<Totals>), AllocError> {
    merged_counted::<Brand>(alloc, one, two, kind, Blank::new(1))
}

/// The file of a store's with so many levels less, as far as it was put, and its numbers of words and
/// cells.
fn put_coarser<N: NodeStore, O: ByteSink, L: Ledger>(
    store: &mut N,
    levels: u32,
    out: &mut O,
    moves: &mut Steps<L>,
) -> Option<Totals> {
    let mut pair = match Pair::load(store, "one", "two") {
        Err(_) => return None,
        Ok(pair) => pair,
    };
    let depth = pair.frame(Turn::First).grid.depth();
    if levels == 0 || levels >= depth {
        return None;
    }
    let mut side = Side {
        pair: &mut pair,
        turn: Turn::First,
        looked: 0,
    };
    let mut entries = [QueueEntry { word: 0, state: 0 }; 96];
    let mut block = [0; 64];
    let room = 8 * (depth - levels) as usize;
    coarsen(
        &mut side,
        levels,
        &mut entries[..room],
        &mut block,
        out,
        moves,
    )
    .ok()
}

/// The same of this file, in a sink of memory.
#[tactic(auto, unfolding(dev_traits::specs::Files::file_named))]
fn coarser_counted<L: Ledger>(
    alloc: Global,
    file: &[u8],
    levels: u32,
    blank: Blank,
) -> Result<(MemSink, Option<Totals>), AllocError>
    requires name { blank.name ≡ L.name }
    requires parts { blank.parts ≡ L.parts }
    requires one { 0 < blank.parts }
{
    let mut store = MemStore::new(alloc, &[])?;
    store.add("one", file)?;
    store.add("two", file)?;
    let mut moves = Steps::<L>::new(blank);
    let mut out = MemSink::new(alloc, 1 << 12, &[])?;
    let totals = put_coarser(&mut store, levels, &mut out, &mut moves);
    Ok((out, totals))
}

fn coarser(
    alloc: Global,
    file: &[u8],
    levels: u32,
) -> Result<(MemSink, Option<Totals>), AllocError> {
    coarser_counted::<Brand>(alloc, file, levels, Blank::new(1))
}

/// Two files, how they are put together, and their file with its numbers of words and cells.
type Merged = (
    &'static [u8],
    &'static [u8],
    MergeKind,
    &'static [u8],
    (u64, u64),
);

const MERGED: &[Merged] = &[
    (FIRST, SECOND, MergeKind::Union, UNION, (13, 8)),
    (FIRST, SECOND, MergeKind::Both, BOTH, (5, 2)),
    (FIRST, SECOND, MergeKind::Minus, MINUS, (6, 3)),
    (FIRST, FIRST, MergeKind::Union, FIRST, (9, 5)),
    (FIRST, FIRST, MergeKind::Minus, NONE, (1, 0)),
    (NONE, FIRST, MergeKind::Union, FIRST, (9, 5)),
    (FIRST, NONE, MergeKind::Both, NONE, (1, 0)),
    (
        FIRST_IN_ONE,
        SECOND,
        MergeKind::Union,
        UNION_OF_ONE,
        (13, 8),
    ),
];

#[test]
fn two_files_are_put_together(rt: HostRuntime) {
    for (one, two, kind, file, (records, cells)) in MERGED.iter().copied() {
        let (out, totals) = merged(rt.alloc(), one, two, kind).expect(&rt, "memory");
        assert_eq!(rt;
            totals,
            Some(Totals { records, cells }),
            "the numbers of {kind:?}"
        );
        assert_eq!(rt; out.bytes(), file, "the file of {kind:?}");
    }
}

/// A file, how many levels are taken off, and its coarser file with its numbers of words and cells.
type Coarser = (&'static [u8], u32, &'static [u8], (u64, u64));

const COARSER: &[Coarser] = &[
    (FIRST, 1, FIRST_LESS_ONE, (4, 3)),
    (NONE, 1, NONE_LESS_ONE, (1, 0)),
    (DEEP, 1, DEEP_LESS_ONE, (11, 6)),
    (DEEP, 2, DEEP_LESS_TWO, (5, 4)),
];

#[test]
fn a_file_loses_levels(rt: HostRuntime) {
    for (fine, levels, file, (records, cells)) in COARSER.iter().copied() {
        let (out, totals) = coarser(rt.alloc(), fine, levels).expect(&rt, "memory");
        assert_eq!(rt;
            totals,
            Some(Totals { records, cells }),
            "the numbers less {levels}"
        );
        assert_eq!(rt; out.bytes(), file, "the file less {levels}");
    }
}
