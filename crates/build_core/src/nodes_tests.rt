//! The node file of a point that eight cells share, from scratch in memory.

ghost use Rattle.std.specs.Prelude.{◌≡◌, ◌<◌, ◌≤◌, None, length, IfSome, OnOk};

use crate::faults::NodesFault;
use crate::nodes::write_nodes;
use dev_traits::{ByteSink, Failed, MemScratch, MemSink, PartFail, Scratch};
use node_file::{Totals, header_bytes, trailer_bytes};
use room_plan::{Room, plan};
use std::alloc::{AllocError, Global};
use std::marker::Brand;
use std::sync::ledger::{Blank, Ledger};
use svo_base::{Grid, Steps};

/// The point (2,2,2) as a triangle of the face 3.
const POINT: &[u8] = &[
    2, 0, 0, 0, 2, 0, 0, 0, 2, 0, 0, 0, 2, 0, 0, 0, 2, 0, 0, 0, 2, 0, 0, 0, 2, 0, 0, 0, 2, 0, 0, 0,
    2, 0, 0, 0, 3, 0, 0, 0,
];

/// The words of the eight cells around it in a grid of depth 2.
const WORDS: &[u64] = &[
    769, 769, 769, 769, 769, 769, 769, 769, 128, 320, 544, 784, 1032, 1284, 1538, 1793, 2303,
];

/// What a put answered, or `None` where there is no memory.
type Answer = Option<Result<Totals, NodesFault>>;

/// Room for a grid of depth 2 in one part, or `None` where there is no memory.
fn room_for(alloc: Global) -> Option<Room>
    ensures block { IfSome result (λ room. length room.block_a ≡ 4096) }
    ensures words_block { IfSome result (λ room. length room.block_b ≡ 4096) }
    ensures entries { IfSome result (λ room. length room.queues ≡ 16) }
    ensures slots { IfSome result (λ room. 64 ≤ length room.slots) }
{
    let plan = plan(2, 1 << 20).ok()?;
    if plan.depth != 2 || plan.slots < 64 {
        return None;
    }
    Room::make(alloc, &plan).ok()
}

/// Puts the node file, where the split is 0 or 1.
fn put_counted<S: Scratch, O: ByteSink, L: Ledger, T: Ledger>(
    alloc: Global,
    grid: &Grid,
    split: u32,
    scratch: &mut S,
    out: &mut O,
    blank: Blank,
    other: Blank,
) -> Answer
    requires depth { grid.now.depth ≡ 2 }
    requires split { split ≤ 1 }
    requires streams { 9 ≤ S.started scratch.old }
    requires name { blank.name ≡ L.name }
    requires parts { blank.parts ≡ L.parts }
    requires one { 0 < blank.parts }
    requires other_name { other.name ≡ T.name }
    requires other_parts { other.parts ≡ T.parts }
    requires other_one { 0 < other.parts }
{
    let mut room = room_for(alloc)?;
    let mut moves = Steps::<L>::new(blank);
    let mut tests = Steps::<T>::new(other);
    Some(write_nodes(grid, split, &mut room, scratch, out, &mut moves, &mut tests))
}

/// The same with a count of its own for each.
fn put<S: Scratch, O: ByteSink>(
    alloc: Global,
    grid: &Grid,
    split: u32,
    scratch: &mut S,
    out: &mut O,
) -> Answer
    requires depth { grid.now.depth ≡ 2 }
    requires split { split ≤ 1 }
    requires streams { 9 ≤ S.started scratch.old }
{
    put_counted::<S, O, Brand, Brand>(
        alloc,
        grid,
        split,
        scratch,
        out,
        Blank::new(1),
        Blank::new(1),
    )
}

/// The point's triangle in the streams from 1 to 8.
fn fill<S: Scratch>(scratch: &mut S) -> Result<(), Failed>
    requires { S.asked scratch.old ≡ None }
    ensures { OnOk result (S.started scratch.new ≡ 9) }
{
    scratch.start("", 9)?;
    for stream in 1..9 {
        scratch.append(stream, POINT)?;
    }
    Ok(())
}

/// Fills the streams, and puts the file.
fn there_and_put<S: Scratch, O: ByteSink>(
    alloc: Global,
    grid: &Grid,
    split: u32,
    scratch: &mut S,
    out: &mut O,
) -> Answer
    requires depth { grid.now.depth ≡ 2 }
    requires split { split ≤ 1 }
    requires asked { S.asked scratch.old ≡ None }
{
    match fill(scratch) {
        Ok(()) => put(alloc, grid, split, scratch, out),
        Err(_) => Some(Err(NodesFault::Scratch)),
    }
}

/// The file of the point's cells.
fn point_file(alloc: Global, grid: &Grid) -> Result<Vec<u8>, AllocError> {
    let mut bytes = Vec::from_slice(alloc, &header_bytes(grid))?;
    for word in WORDS {
        bytes.extend_from_slice(&word.to_le_bytes())?;
    }
    bytes.extend_from_slice(&trailer_bytes(17, 8))?;
    Ok(bytes)
}

#[test]
fn a_point_fills_eight_cells(rt: HostRuntime) {
    let grid = Grid::new(2, [0, 0, 0], 1).expect(&rt, "a grid");
    if grid.depth() != 2 {
        return;
    }
    let file = point_file(rt.alloc(), &grid).expect(&rt, "memory");
    for split in 0..2 {
        let mut scratch = MemScratch::new(rt.alloc(), 9, 4000, &[]).expect(&rt, "memory");
        let mut sink = MemSink::new(rt.alloc(), 1 << 12, &[]).expect(&rt, "memory");
        let put = there_and_put(rt.alloc(), &grid, split, &mut scratch, &mut sink);
        assert_eq!(rt;
            put,
            Some(Ok(Totals {
                records: 17,
                cells: 8
            })),
            "totals at split {split}"
        );
        assert!(rt;
            sink.bytes() == file.as_slice(),
            "the bytes at split {split}"
        );
    }
}

#[test]
fn a_fault_leaves_a_front_of_the_file(rt: HostRuntime) {
    let grid = Grid::new(2, [0, 0, 0], 1).expect(&rt, "a grid");
    if grid.depth() != 2 {
        return;
    }
    let file = point_file(rt.alloc(), &grid).expect(&rt, "memory");
    for call in 1..6 {
        let fails = [PartFail { call, taken: 5 }];
        let mut scratch = MemScratch::new(rt.alloc(), 9, 4000, &[]).expect(&rt, "memory");
        let mut sink = MemSink::new(rt.alloc(), 1 << 12, &fails).expect(&rt, "memory");
        let put = there_and_put(rt.alloc(), &grid, 1, &mut scratch, &mut sink);
        let whole = sink.bytes().len() == file.len();
        assert_eq!(rt;
            put,
            Some(if whole {
                Ok(Totals {
                    records: 17,
                    cells: 8
                })
            } else {
                Err(NodesFault::Sink)
            }),
            "the answer at call {call}"
        );
        assert!(rt;
            file.as_slice().starts_with(sink.bytes()),
            "a front at call {call}"
        );
    }
    for call in 10..20 {
        let fails = [PartFail { call, taken: 0 }];
        let mut scratch = MemScratch::new(rt.alloc(), 9, 4000, &fails).expect(&rt, "memory");
        let mut sink = MemSink::new(rt.alloc(), 1 << 12, &[]).expect(&rt, "memory");
        let put = there_and_put(rt.alloc(), &grid, 1, &mut scratch, &mut sink);
        assert_eq!(rt;
            put,
            Some(Err(NodesFault::Scratch)),
            "the answer at call {call}"
        );
        assert!(rt;
            file.as_slice().starts_with(sink.bytes()),
            "a front at call {call}"
        );
    }
}
