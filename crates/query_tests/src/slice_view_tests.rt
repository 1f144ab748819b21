//! Slices of octrees whose words are lent, and beside them the plain program, which asks cell by cell.

ghost use Rattle.std.specs.Prelude.{◌≡◌, ◌<◌, ◌≤◌, ◌^◌, length};

use crate::made_cells::{put_words, some_cells};
use dev_traits::{MemSink, PartFail};
use node_check::{WalkFault, has};
use node_file::LentWords;
use slice_view::{AnswerStop, Axis, slice};
use std::alloc::{AllocError, Global};
use std::marker::Brand;
use std::sync::ledger::{Blank, Ledger};
use svo_base::{Grid, Steps};

/// What is sliced: the grid, the file's words, the axis and the place across it, and the number of the
/// read that is refused, from 1.
#[derive(Clone, Copy)]
struct Case<'a> {
    grid: &'a Grid,
    words: &'a [u64],
    axis: Axis,
    at: u32,
    refused: u64,
}

/// The answer to a slice, and how many words it read.
type Report = (Result<(), AnswerStop>, u64);

fn sliced_in<L: Ledger>(case: &Case, out: &mut MemSink, blank: Blank) -> Report
    requires some { 1 ≤ length case.now.words.now }
    requires at { case.now.at < 2 ^ case.now.grid.now.depth }
    requires name { blank.name ≡ L.name }
    requires parts { blank.parts ≡ L.parts }
    requires one { 0 < blank.parts }
{
    let mut reads = Steps::<L>::new(blank);
    let _limits = case.grid.depth();
    let mut nodes = LentWords {
        masks: false,
        grid: *case.grid,
        cells: 0,
        words: case.words,
        refused: case.refused,
        calls: 0,
        faults: 0,
    };
    let answer = slice(&mut nodes, case.axis, case.at, out, &mut reads);
    (answer, nodes.calls)
}

/// Slices into a sink.
fn sliced(case: &Case, out: &mut MemSink) -> Report
    requires some { 1 ≤ length case.now.words.now }
    requires at { case.now.at < 2 ^ case.now.grid.now.depth }
{
    sliced_in::<Brand>(case, out, Blank::new(1))
}

/// The words of the eight cells around (2,2,2) at depth 2, in format 1, where the root is the last.
const EIGHT_CELLS: [u64; 9] = [128, 64, 32, 16, 8, 4, 2, 1, 255];

/// Cells 0 to 2 and 7 at depth 1, in format 2.
const FOUR_CELLS: [u64; 5] = [257, 257, 257, 1, 135];

/// The depth, the words, the axis and the place, and the picture.
type Row = (i64, &'static [u64], Axis, u32, &'static [u8]);

const ROWS: &[Row] = &[
    (
        2,
        &EIGHT_CELLS,
        Axis::Z,
        1,
        b"P5\n4 4\n255\n\0\0\0\0\0\xff\xff\0\0\xff\xff\0\0\0\0\0",
    ),
    (
        2,
        &EIGHT_CELLS,
        Axis::X,
        1,
        b"P5\n4 4\n255\n\0\0\0\0\0\xff\xff\0\0\xff\xff\0\0\0\0\0",
    ),
    (
        2,
        &EIGHT_CELLS,
        Axis::Y,
        3,
        b"P5\n4 4\n255\n\0\0\0\0\0\0\0\0\0\0\0\0\0\0\0\0",
    ),
    (1, &FOUR_CELLS, Axis::X, 0, b"P5\n2 2\n255\n\0\0\xff\xff"),
    (1, &FOUR_CELLS, Axis::X, 1, b"P5\n2 2\n255\n\0\xff\xff\0"),
    (1, &FOUR_CELLS, Axis::Y, 1, b"P5\n2 2\n255\n\0\xff\xff\0"),
    (1, &FOUR_CELLS, Axis::Z, 0, b"P5\n2 2\n255\n\xff\0\xff\xff"),
    (1, &FOUR_CELLS, Axis::Z, 1, b"P5\n2 2\n255\n\0\xff\0\0"),
    (1, &[0], Axis::Z, 1, b"P5\n2 2\n255\n\0\0\0\0"),
];

#[test]
fn slices_of_small_files(rt: HostRuntime) {
    for (depth, words, axis, at, picture) in ROWS.iter().copied() {
        let grid = Grid::new(depth, [0, 0, 0], 1).expect(&rt, "a grid");
        assert!(rt; !words.is_empty() && at < 1 << grid.depth(), "a place");
        let case = Case {
            grid: &grid,
            words,
            axis,
            at,
            refused: 0,
        };
        let mut out = MemSink::new(rt.alloc(), 64, &[]).expect(&rt, "memory");
        let (answer, reads) = sliced(&case, &mut out);
        assert_eq!(rt; answer, Ok(()), "{axis:?} at {at}");
        assert_eq!(rt; out.bytes(), picture, "{axis:?} at {at}");
        assert!(rt;
            reads <= words.len() as u64,
            "each word once, {axis:?} at {at}"
        );
    }
}

/// The code of a cell by the definition, a bit of each place at a time.
fn plain_code(x: u32, y: u32, z: u32) -> u64 {
    let mut code = 0;
    for digit in 0..12u32 {
        let bits = ((x >> digit) & 1) | ((y >> digit) & 1) << 1 | ((z >> digit) & 1) << 2;
        code |= u64::from(bits) << (3 * digit);
    }
    code
}

fn has_in<L: Ledger>(grid: &Grid, words: &[u64], code: u64, blank: Blank) -> bool
    requires some { 1 ≤ length words.now }
    requires code { code < 8 ^ grid.now.depth }
    requires name { blank.name ≡ L.name }
    requires parts { blank.parts ≡ L.parts }
    requires one { 0 < blank.parts }
{
    let mut reads = Steps::<L>::new(blank);
    let _limits = grid.depth();
    let mut nodes = LentWords {
        masks: false,
        grid: *grid,
        cells: 0,
        words,
        refused: 0,
        calls: 0,
        faults: 0,
    };
    has(&mut nodes, code, &mut reads) == Ok(true)
}

/// The code of a slice's cell.
fn code_in(case: &Case, column: u32, row: u32) -> u64 {
    match case.axis {
        Axis::X => plain_code(case.at, column, row),
        Axis::Y => plain_code(column, case.at, row),
        Axis::Z => plain_code(column, row, case.at),
    }
}

/// The sample of a cell by the plain program.
fn plain_sample(case: &Case, code: u64) -> u8
    requires { 1 ≤ length case.now.words.now }
{
    let depth = case.grid.depth();
    if code >> (3 * depth) == 0 && has_in::<Brand>(case.grid, case.words, code, Blank::new(1)) {
        255
    } else {
        0
    }
}

/// The picture by the plain program, behind its header.
fn plain_picture(alloc: Global, case: &Case, header: &[u8]) -> Result<Vec<u8>, AllocError>
    requires { 1 ≤ length case.now.words.now }
{
    let mut picture = Vec::from_slice(alloc, header)?;
    let width = 1u32 << case.grid.depth();
    for down in 0..width {
        for column in 0..width {
            let code = code_in(case, column, width - 1 - down);
            picture.push(plain_sample(case, code))?;
        }
    }
    Ok(picture)
}

/// Grids and headers of their slices, with how many cells there are for each filled one. The slices of
/// the last have four bands.
const GRIDS: &[(i64, u64, &'static [u8])] = &[
    (1, 2, b"P5\n2 2\n255\n"),
    (3, 3, b"P5\n8 8\n255\n"),
    (3, 40, b"P5\n8 8\n255\n"),
    (7, 40_000, b"P5\n128 128\n255\n"),
];

#[test]
fn slices_by_the_plain_program(rt: HostRuntime) {
    for (depth, one_in, header) in GRIDS.iter().copied() {
        let grid = Grid::new(depth, [-2, 0, 1], 2).expect(&rt, "a grid");
        let depth = grid.depth();
        assert!(rt; one_in > 0, "some cells");
        let mut seed = 1;
        let codes = some_cells(rt.alloc(), depth, one_in, &mut seed).expect(&rt, "memory");
        let mut words = Vec::new(rt.alloc());
        let root = put_words(rt.alloc(), &mut words, codes.as_slice(), depth, 0).expect(
            &rt, "memory",
        );
        words.push(root).expect(&rt, "memory");
        let words = words.as_slice();
        assert!(rt; !words.is_empty(), "the root's word");
        for axis in [Axis::X, Axis::Y, Axis::Z] {
            for at in [0, 1, 6, 51] {
                if at >= 1 << depth {
                    continue;
                }
                let case = Case {
                    grid: &grid,
                    words,
                    axis,
                    at,
                    refused: 0,
                };
                let plain = plain_picture(rt.alloc(), &case, header).expect(&rt, "memory");
                let mut out = MemSink::new(rt.alloc(), plain.len(), &[]).expect(&rt, "memory");
                let (answer, _reads) = sliced(&case, &mut out);
                assert_eq!(rt; answer, Ok(()), "{axis:?} at {at} of depth {depth}");
                assert_eq!(rt;
                    out.bytes(),
                    plain.as_slice(),
                    "{axis:?} at {at} of depth {depth}"
                );
            }
        }
    }
}

#[test]
fn stopped_slices_leave_fronts(rt: HostRuntime) {
    let grid = Grid::new(2, [0, 0, 0], 1).expect(&rt, "a grid");
    assert!(rt; 1 < 1 << grid.depth(), "a place");
    let whole: &[u8] = b"P5\n4 4\n255\n\0\0\0\0\0\xff\xff\0\0\xff\xff\0\0\0\0\0";
    for call in 1..3 {
        for taken in 0..20u64 {
            let fails = [PartFail { call, taken }];
            let mut out = MemSink::new(rt.alloc(), 64, &fails).expect(&rt, "memory");
            let case = Case {
                grid: &grid,
                words: &EIGHT_CELLS,
                axis: Axis::Z,
                at: 1,
                refused: 0,
            };
            let (answer, _reads) = sliced(&case, &mut out);
            assert_eq!(rt; answer, Err(AnswerStop::WriteFault), "put {call} refused");
            assert!(rt;
                whole.starts_with(out.bytes()),
                "put {call} refused after {taken} bytes"
            );
        }
    }
    for refused in 1..6 {
        let mut out = MemSink::new(rt.alloc(), 64, &[]).expect(&rt, "memory");
        let case = Case {
            grid: &grid,
            words: &EIGHT_CELLS,
            axis: Axis::Z,
            at: 1,
            refused,
        };
        let (answer, _reads) = sliced(&case, &mut out);
        assert_eq!(rt;
            answer,
            Err(AnswerStop::Walk(WalkFault::Failed)),
            "read {refused} refused"
        );
        assert_eq!(rt; out.bytes(), &whole[..11], "read {refused} refused");
    }
}

#[test]
fn children_behind_their_parent_are_refused(rt: HostRuntime) {
    let grid = Grid::new(2, [0, 0, 0], 1).expect(&rt, "a grid");
    assert!(rt; 1 < 1 << grid.depth(), "a place");
    let mut words = EIGHT_CELLS;
    words[8] = 2303;
    let mut out = MemSink::new(rt.alloc(), 64, &[]).expect(&rt, "memory");
    let case = Case {
        grid: &grid,
        words: &words,
        axis: Axis::Z,
        at: 1,
        refused: 0,
    };
    let (answer, _reads) = sliced(&case, &mut out);
    let above = WalkFault::Refused {
        number: 8,
        word: 2303,
    };
    assert_eq!(rt;
        answer,
        Err(AnswerStop::Walk(above)),
        "children behind their parent"
    );
}
