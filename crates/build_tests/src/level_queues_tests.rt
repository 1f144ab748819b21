//! Files of cells that are pushed, by a caller as a layer above would be, and beside them the same
//! words by a plain program of their definition.

ghost use Rattle.std.specs.Prelude.{◌≡◌, ◌∷◌, ◌+◌, ◌*◌, ◌/◌, ◌^◌, ◌<◌, ◌≤◌, [], ℕ, length, map, OnOk};
ghost use Rattle.std.specs.Io.KnownBytes.{append_known};
ghost use Rattle.octree_specs.specs.OctreeFile.{image_of};
ghost use Rattle.node_file.specs.Waiting.{GrewByFront};
ghost use Rattle.level_queues.specs.Fronts.{Ascend};

use dev_traits::{ByteSink, Failed, MemSink, PartFail};
use level_queues::{LevelQueues, ancestor, turning_height};
use node_file::{NodeWriter, Totals, header_bytes, trailer_bytes};
use room_plan::{QueueEntry, Queues};
use std::alloc::{AllocError, Global};
use std::marker::Brand;
use std::sync::ledger::{Blank, Ledger};
use svo_base::{Grid, Steps};

#[test]
fn cells_part_at_their_highest_differing_digit(rt: HostRuntime) {
    assert_eq!(rt; turning_height(0, 0, 1), 0, "one cell");
    assert_eq!(rt; turning_height(0, 63, 2), 1, "the ends of depth 2");
    assert_eq!(rt; turning_height(6, 7, 2), 0, "siblings");
    assert_eq!(rt; turning_height(7, 8, 2), 1, "neighbours with two parents");
    assert_eq!(rt;
        turning_height(0, 68719476735, 12),
        11,
        "the ends of depth 12"
    );
}

/// Puts the file of these cells, each a code and a face. It is refused where the sink fails, and where
/// the cells do not ascend, are none of the grid's, or have no face. Whatever the answer, the sink grew
/// by a front of the file of the cells, if they ascend.
fn put_file<O: ByteSink, L: Ledger>(
    sink: &mut O,
    block: &mut [u8],
    entries: &mut [QueueEntry],
    grid: &Grid,
    cells: &[(u64, u32)],
    moves: &mut Steps<L>,
) -> Result<Totals, Failed>
    requires block { 48 ≤ length block.old }
    requires room { length entries.old ≡ 8 * grid.now.depth }
    ensures whole { OnOk result (O.written sink.new ≡ append_known (O.written sink.old) (image_of 2 grid.now (map (λ (cell : ℕ × ℕ). record { code = cell.0; face = cell.1 }) cells.now))) }
    ensures front { Ascend grid.now.depth (map (λ (cell : ℕ × ℕ). record { code = cell.0; face = cell.1 }) cells.now)
        → GrewByFront (O.written sink.old) (O.written sink.new) (image_of 2 grid.now (map (λ (cell : ℕ × ℕ). record { code = cell.0; face = cell.1 }) cells.now)) }
    ensures moves { moves.new ≤ moves.old + 2 * (14 * grid.now.depth + 1) * (length cells.now + 1) }
{
    let depth = grid.depth();
    let mut writer = NodeWriter::begin(sink, block, grid)?;
    let mut queues = LevelQueues::new(depth, Queues::new(entries));
    let mut next = 0;
    for &(code, face) in cells {
        if code < next || face == u32::MAX || ancestor(code, depth) != 0 {
            return Err(Failed);
        }
        queues.push(code, face, &mut writer, moves)?;
        next = code + 1;
    }
    let totals = queues.finish(&mut writer, moves)?;
    writer.finish(totals.cells)?;
    Ok(totals)
}

/// The word of a node by the plain program of the definition, once the words below it are added
/// behind those so far: below its nonempty children, child by child, and then the children's own. The
/// height is the number of levels from the node down to the cells.
fn walk(
    alloc: Global,
    words: &mut Vec<u64>,
    cells: &[(u64, u32)],
    height: u32,
    node: u64,
) -> Result<u64, AllocError>
    requires { height ≤ 12 }
{
    if height == 0 {
        return Ok(1 + 256 * u64::from(face_at(cells, node)));
    }
    let mut mask = 0;
    let mut children = Vec::new(alloc);
    for octant in 0..8 {
        let child = node.wrapping_mul(8).wrapping_add(octant);
        if is_under(cells, height - 1, child) {
            children.push(walk(alloc, words, cells, height - 1, child)?)?;
            mask |= 1 << octant;
        }
    }
    let base = words.len() as u64;
    words.extend_from_slice(children.as_slice())?;
    Ok(base.wrapping_mul(256) | mask)
}

/// Whether one of these cells lies under a node, or is it.
fn is_under(cells: &[(u64, u32)], height: u32, node: u64) -> bool
    requires { height ≤ 12 }
{
    cells.iter().any(|cell| ancestor(cell.0, height) == node)
}

/// The face of the cell of this code, or 0.
fn face_at(cells: &[(u64, u32)], code: u64) -> u32 {
    for cell in cells {
        if cell.0 == code {
            return cell.1;
        }
    }
    0
}

/// The file with these words for so many cells.
fn file_bytes(
    alloc: Global,
    grid: &Grid,
    words: &[u64],
    cells: u64,
) -> Result<Vec<u8>, AllocError> {
    let mut bytes = Vec::from_slice(alloc, &header_bytes(grid))?;
    for word in words {
        bytes.extend_from_slice(&word.to_le_bytes())?;
    }
    bytes.extend_from_slice(&trailer_bytes(words.len() as u64, cells))?;
    Ok(bytes)
}

/// The file of these cells by the plain program.
fn plain_file(alloc: Global, grid: &Grid, cells: &[(u64, u32)]) -> Result<Vec<u8>, AllocError> {
    let mut words = Vec::new(alloc);
    let root = walk(alloc, &mut words, cells, grid.depth(), 0)?;
    words.push(root)?;
    file_bytes(alloc, grid, words.as_slice(), cells.len() as u64)
}

/// A sink in memory after the file of these cells was put into it as far as it went, and whether all
/// of it was put. The sink refuses the calls of a list.
fn put_counted<L: Ledger>(
    alloc: Global,
    grid: &Grid,
    cells: &[(u64, u32)],
    fails: &[PartFail],
    blank: Blank,
) -> Result<(MemSink, bool), AllocError>
    requires name { blank.name ≡ L.name }
    requires parts { blank.parts ≡ L.parts }
    requires one { 0 < blank.parts }
{
    let mut moves = Steps::<L>::new(blank);
    let mut sink = MemSink::new(alloc, 1 << 16, fails)?;
    let mut block = [0; 64];
    let rubbish = QueueEntry { word: 7, state: 9 };
    let mut entries = [rubbish; 96];
    let size = 8 * grid.depth() as usize;
    let put = put_file(
        &mut sink,
        &mut block,
        &mut entries[..size],
        grid,
        cells,
        &mut moves,
    );
    Ok((sink, put.is_ok()))
}

/// The same with a count of its own for the moves.
fn put(
    alloc: Global,
    grid: &Grid,
    cells: &[(u64, u32)],
    fails: &[PartFail],
) -> Result<(MemSink, bool), AllocError> {
    put_counted::<Brand>(alloc, grid, cells, fails, Blank::new(1))
}

/// A depth, cells and their words.
type Row = (i64, &'static [(u64, u32)], &'static [u64]);

const ROWS: &[Row] = &[
    (1, &[], &[0]),
    (1, &[(0, 0), (1, 0), (2, 0)], &[1, 1, 1, 7]),
    (
        1,
        &[(0, 1), (1, 1), (2, 1), (7, 0)],
        &[257, 257, 257, 1, 135],
    ),
    (2, &[(63, 0)], &[1, 128, 384]),
    (
        2,
        &[
            (7, 0),
            (14, 0),
            (21, 0),
            (28, 0),
            (35, 0),
            (42, 0),
            (49, 0),
            (56, 0),
        ],
        &[
            1, 1, 1, 1, 1, 1, 1, 1, 128, 320, 544, 784, 1032, 1284, 1538, 1793, 2303,
        ],
    ),
    (
        12,
        &[(0, 3), (68_719_476_735, 4_294_967_294)],
        &[
            769,
            1,
            257,
            513,
            769,
            1025,
            1281,
            1537,
            1793,
            2049,
            2305,
            1_099_511_627_265,
            2944,
            3200,
            3456,
            3712,
            3968,
            4224,
            4480,
            4736,
            4992,
            5248,
            2561,
            5504,
            5761,
        ],
    ),
];

#[test]
fn files_have_the_words_of_their_cells(rt: HostRuntime) {
    for (depth, cells, words) in ROWS.iter().copied() {
        let grid = Grid::new(depth, [0, -1, 2], 1).expect(&rt, "a grid");
        let (sink, whole) = put(rt.alloc(), &grid, cells, &[]).expect(&rt, "memory");
        let file = file_bytes(rt.alloc(), &grid, words, cells.len() as u64).expect(&rt, "memory");
        assert!(rt; whole, "all is put at depth {depth}");
        assert!(rt;
            sink.bytes() == file.as_slice(),
            "the bytes at depth {depth}"
        );
    }
}

/// Some cells of a depth in ascending order, as a number that is carried on says: one in so many.
fn some_cells(
    alloc: Global,
    depth: u32,
    one_in: u64,
    seed: &mut u64,
) -> Result<Vec<(u64, u32)>, AllocError>
    requires depth { depth ≤ 12 }
    requires some { 0 < one_in }
{
    let mut cells = Vec::new(alloc);
    for code in 0..1u64 << (3 * depth) {
        *seed = seed
            .wrapping_mul(6_364_136_223_846_793_005)
            .wrapping_add(1_442_695_040_888_963_407);
        let face = (*seed >> 40) as u32;
        if (*seed >> 33) % one_in == 0 {
            cells.push((code, face))?;
        }
    }
    Ok(cells)
}

#[test]
fn files_are_those_of_the_plain_program(rt: HostRuntime) {
    let mut seed = 1;
    for depth in 1..4u32 {
        for one_in in 1..40 {
            let cells = some_cells(rt.alloc(), depth, one_in, &mut seed).expect(&rt, "memory");
            let grid = Grid::new(i64::from(depth), [0, 0, 0], 1).expect(&rt, "a grid");
            let (sink, whole) = put(rt.alloc(), &grid, cells.as_slice(), &[]).expect(&rt, "memory");
            let file = plain_file(rt.alloc(), &grid, cells.as_slice()).expect(&rt, "memory");
            assert!(rt; whole, "all is put at depth {depth}, one cell in {one_in}");
            assert!(rt;
                sink.bytes() == file.as_slice(),
                "the bytes at depth {depth}, one cell in {one_in}"
            );
        }
    }
}

#[test]
fn a_fault_leaves_a_front_of_the_file(rt: HostRuntime) {
    let grid = Grid::new(2, [0, 0, 0], 1).expect(&rt, "a grid");
    let cells = [(7, 0), (14, 1), (21, 2), (28, 3), (63, 4)];
    let file = plain_file(rt.alloc(), &grid, &cells).expect(&rt, "memory");
    for call in 1..5 {
        for taken in 0..2 {
            let fails = [PartFail { call, taken }];
            let (sink, whole) = put(rt.alloc(), &grid, &cells, &fails).expect(&rt, "memory");
            let written = sink.bytes();
            assert!(rt;
                file.as_slice().starts_with(written),
                "a front of the file at call {call}"
            );
            assert_eq!(rt;
                whole,
                call > 3,
                "three calls are enough, of which {call} is refused"
            );
            assert_eq!(rt;
                whole,
                written.len() == file.len(),
                "the whole file at call {call}"
            );
        }
    }
}
