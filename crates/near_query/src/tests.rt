//! Searches in octrees whose words are lent, and beside them the plain program of the definition, which
//! measures every filled cube.

ghost use Rattle.std.specs.Prelude.{◌≡◌, ◌<◌, ◌≤◌, ◌^◌, length, unsigned_abs};
ghost use Rattle.near_query.specs.Distances.{IsPoint};

use crate::measures::distance;
use crate::{NearCell, NearFault, Search, is_in_reach, near};
use morton_code::cube_of;
use node_check::WalkFault;
use node_file::LentWords;
use std::alloc::{AllocError, Global};
use std::marker::Brand;
use std::sync::ledger::{Blank, Ledger};
use svo_base::{Grid, Steps};

/// A distance and a code.
type Found = (u128, u64);

/// What a search answers, and how many words it read.
#[derive(Drop)]
struct Report {
    found: Option<Found>,
    fault: Option<NearFault>,
    reads: u64,
}

fn found(cell: Option<NearCell>) -> Option<Found> {
    let cell = cell?;
    Some((cell.distance, cell.code))
}

/// The words of an octree, of which one call is refused.
#[derive(Clone, Copy)]
struct Octree<'a> {
    grid: Grid,
    words: &'a [u64],
    refused: u64,
}

fn told_in<L: Ledger>(
    search: &mut Search,
    octree: &Octree<'_>,
    point: [i64; 3],
    blank: Blank,
) -> Report
    requires some { 1 ≤ length octree.now.words.now }
    requires point { IsPoint point }
    requires name { blank.name ≡ L.name }
    requires parts { blank.parts ≡ L.parts }
    requires one { 0 < blank.parts }
{
    let mut reads = Steps::<L>::new(blank);
    let _limits = octree.grid.depth();
    let mut nodes = LentWords {
        masks: false,
        grid: octree.grid,
        cells: 0,
        words: octree.words,
        refused: octree.refused,
        calls: 0,
        faults: 0,
    };
    let answer = search.near(&mut nodes, point, &mut reads);
    let reads = nodes.calls;
    match answer {
        Ok(cell) => Report {
            found: found(cell),
            fault: None,
            reads,
        },
        Err(fault) => Report {
            found: None,
            fault: Some(fault),
            reads,
        },
    }
}

fn told(search: &mut Search, octree: &Octree<'_>, point: [i64; 3]) -> Report
    requires some { 1 ≤ length octree.now.words.now }
    requires point { IsPoint point }
{
    told_in::<Brand>(search, octree, point, Blank::new(1))
}

/// The words of the eight cells around (2,2,2) at depth 2, in format 1, where the root is the last.
const EIGHT_CELLS: [u64; 9] = [128, 64, 32, 16, 8, 4, 2, 1, 255];

const FAR: i64 = 1 << 40;

/// A point, the cell nearest to it of those eight with the square of its distance, and how many nodes are
/// not farther than it.
type Row = ([i64; 3], Found, u64);

const ROWS: &[Row] = &[
    ([2, 2, 2], (0, 7), 9),
    ([4, 0, 0], (3, 14), 2),
    ([0, 0, 0], (3, 7), 2),
    ([5, 2, 2], (4, 14), 5),
    ([2, 5, 2], (4, 21), 5),
    ([2, 2, 5], (4, 35), 5),
    ([-1, 2, 2], (4, 7), 5),
    ([2, -1, 2], (4, 7), 5),
    ([2, 2, -1], (4, 7), 5),
    ([1, 2, 2], (0, 7), 5),
    ([1, 1, 1], (0, 7), 2),
    ([-FAR, 2, 2], (1_208_925_819_616_828_197_961_729, 7), 5),
    ([FAR, FAR, FAR], (3_626_777_458_824_096_314_818_587, 56), 5),
];

#[test]
fn points_have_the_nearest_of_eight_cells(rt: HostRuntime) {
    let grid = Grid::new(2, [0, 0, 0], 1).expect(&rt, "a grid");
    let mut search = Search::new(rt.alloc());
    let octree = Octree {
        grid,
        words: &EIGHT_CELLS,
        refused: 0,
    };
    for (point, cell, reads) in ROWS.iter().copied() {
        assert!(rt; is_in_reach(&point), "{point:?} in reach");
        let told = told(&mut search, &octree, point);
        assert_eq!(rt; told.found, Some(cell), "from {point:?}");
        assert_eq!(rt; told.fault, None, "from {point:?}");
        assert_eq!(rt; told.reads, reads, "the reads from {point:?}");
    }
    assert!(rt; !is_in_reach(&[0, -FAR - 1, 0]), "out of reach");
}

/// Words at depth 1 or 2 with a point, the cell nearest to it, and the fault where the call with this
/// number is refused.
type Case = (
    &'static [u64],
    i64,
    [i64; 3],
    u64,
    Option<Found>,
    Option<NearFault>,
);

const REFUSED: NearFault = NearFault::Walk(WalkFault::Refused {
    number: 8,
    word: 2303,
});

const FAILED: NearFault = NearFault::Walk(WalkFault::Failed);

const CASES: &[Case] = &[
    (
        &[257, 257, 257, 1, 135],
        1,
        [3, 2, 2],
        0,
        Some((1, 7)),
        None,
    ),
    (
        &[257, 257, 257, 1, 135],
        1,
        [0, 0, 3],
        0,
        Some((3, 7)),
        None,
    ),
    (&[7], 1, [0, 0, 3], 0, Some((4, 0)), None),
    (&[0], 1, [0, 0, 0], 0, None, None),
    (
        &[128, 64, 32, 16, 8, 4, 2, 1, 2303],
        2,
        [2, 2, 2],
        0,
        None,
        Some(REFUSED),
    ),
    (&EIGHT_CELLS, 2, [2, 2, 2], 1, None, Some(FAILED)),
    (&EIGHT_CELLS, 2, [2, 2, 2], 9, None, Some(FAILED)),
    (&EIGHT_CELLS, 2, [0, 0, 0], 3, Some((3, 7)), None),
];

#[test]
fn searches_answer_in_either_format_or_say_why_not(rt: HostRuntime) {
    let mut search = Search::new(rt.alloc());
    for (words, depth, point, refused, cell, fault) in CASES.iter().copied() {
        let grid = Grid::new(depth, [0, 0, 0], 1).expect(&rt, "a grid");
        assert!(rt; !words.is_empty() && is_in_reach(&point), "a case");
        let octree = Octree {
            grid,
            words,
            refused,
        };
        let told = told(&mut search, &octree, point);
        assert_eq!(rt; told.found, cell, "from {point:?} in {words:?}");
        assert_eq!(rt; told.fault, fault, "from {point:?} in {words:?}");
    }
}

/// The next of some numbers, of which each is made from the one before.
fn next_number(seed: &mut u64) -> u64 {
    *seed = seed
        .wrapping_mul(6_364_136_223_846_793_005)
        .wrapping_add(1_442_695_040_888_963_407);
    *seed >> 33
}

/// Some cells of a depth in ascending order, one in so many.
fn some_cells(
    alloc: Global,
    depth: u32,
    one_in: u64,
    seed: &mut u64,
) -> Result<Vec<u64>, AllocError>
    requires depth { depth ≤ 12 }
    requires some { 0 < one_in }
{
    let mut codes = Vec::new(alloc);
    for code in 0..1u64 << (3 * depth) {
        if next_number(seed) % one_in == 0 {
            codes.push(code)?;
        }
    }
    Ok(codes)
}

/// The word of a node in format 2, once the words below it are added behind those so far.
fn put_words(
    alloc: Global,
    words: &mut Vec<u64>,
    codes: &[u64],
    height: u32,
    node: u64,
) -> Result<u64, AllocError>
    requires { height ≤ 12 }
{
    if height == 0 {
        return Ok(1);
    }
    let mut mask = 0;
    let mut children = Vec::new(alloc);
    for octant in 0..8 {
        let child = node.wrapping_mul(8).wrapping_add(octant);
        if codes
            .iter()
            .any(|code| *code >> (3 * (height - 1)) == child)
        {
            children.push(put_words(alloc, words, codes, height - 1, child)?)?;
            mask |= 1 << octant;
        }
    }
    let base = words.len() as u64;
    words.extend_from_slice(children.as_slice())?;
    Ok(base.wrapping_mul(256) | mask)
}

/// The nearest cell by the plain program: each filled cube is measured.
fn plain_nearest(grid: &Grid, codes: &[u64], point: &[i64; 3]) -> Option<Found>
    requires { IsPoint point.now }
{
    let depth = grid.depth();
    let mut best = None;
    for &code in codes {
        if code >> (3 * depth) == 0 {
            best = better(best, (distance(point, &cube_of(grid, depth, code)), code));
        }
    }
    best
}

/// The nearer of two cells, and of equal ones the one with the lesser code.
fn better(best: Option<Found>, cell: Found) -> Option<Found> {
    match best {
        Some(known) if known.0 < cell.0 || known.0 == cell.0 && known.1 <= cell.1 => Some(known),
        _ => Some(cell),
    }
}

/// A small number of either sign.
fn small(seed: &mut u64) -> i64
    ensures { unsigned_abs result ≤ 2 ^ 40 }
{
    let number = (next_number(seed) % 24) as u32;
    i64::from(number) - 8
}

#[test]
fn searches_find_what_the_plain_program_does(rt: HostRuntime) {
    let mut seed = 1;
    let mut search = Search::new(rt.alloc());
    for depth in 1..4u32 {
        for one_in in [1, 2, 5, 9, 40, 600] {
            let grid = Grid::new(i64::from(depth), [-2, 0, 1], 2).expect(&rt, "a grid");
            let codes = some_cells(rt.alloc(), depth, one_in, &mut seed).expect(&rt, "memory");
            let mut words = Vec::new(rt.alloc());
            let root = put_words(rt.alloc(), &mut words, codes.as_slice(), depth, 0).expect(
                &rt, "memory",
            );
            words.push(root).expect(&rt, "memory");
            assert!(rt; words.len() > 0, "the root's word");
            let octree = Octree {
                grid,
                words: words.as_slice(),
                refused: 0,
            };
            for _ in 0..60 {
                let point = [small(&mut seed), small(&mut seed), small(&mut seed)];
                assert!(rt; is_in_reach(&point), "a point");
                let told = told(&mut search, &octree, point);
                let plain = plain_nearest(&grid, codes.as_slice(), &point);
                assert_eq!(rt;
                    told.found,
                    plain,
                    "from {point:?} at depth {depth}, one cell in {one_in}"
                );
            }
        }
    }
}

#[test]
fn a_point_alone_takes_memory_of_its_own(rt: HostRuntime) {
    let grid = Grid::new(2, [0, 0, 0], 1).expect(&rt, "a grid");
    assert_eq!(rt; alone(rt.alloc(), &grid), Some((0, 7)), "from the middle");
}

fn alone_in<L: Ledger>(alloc: Global, grid: &Grid, blank: Blank) -> Option<Found>
    requires name { blank.name ≡ L.name }
    requires parts { blank.parts ≡ L.parts }
    requires one { 0 < blank.parts }
{
    let mut reads = Steps::<L>::new(blank);
    let _limits = grid.depth();
    let mut nodes = LentWords {
        masks: true,
        grid: *grid,
        cells: 8,
        words: &EIGHT_CELLS,
        refused: 0,
        calls: 0,
        faults: 0,
    };
    found(near(alloc, &mut nodes, [2, 2, 2], &mut reads).ok()?)
}

fn alone(alloc: Global, grid: &Grid) -> Option<Found> {
    alone_in::<Brand>(alloc, grid, Blank::new(1))
}
