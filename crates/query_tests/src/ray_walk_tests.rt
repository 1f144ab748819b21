//! Rays through octrees whose words are lent, and beside them the plain program of the definition,
//! which asks every filled cube.

ghost use Rattle.std.specs.Prelude.{◌≡◌, ◌<◌, ◌≤◌, ◌^◌, length};

use crate::made_cells::{next_number, put_words, some_cells};
use morton_code::cube_of;
use node_check::WalkFault;
use node_file::LentWords;
use ray_fraction::{Ray, compare, entry};
use ray_walk::{Hit, cast};
use std::cmp::Ordering;
use std::marker::Brand;
use std::sync::ledger::{Blank, Ledger};
use svo_base::{Grid, Steps};

/// A hit as `(n, m, code)`: at the time n / m in the cell of this code.
type Met = (u64, u64, u64);

/// What a cast answers, and how many words it read.
#[derive(Drop)]
struct Report {
    hit: Option<Met>,
    fault: Option<WalkFault>,
    reads: u64,
}

fn met(hit: Option<Hit>) -> Option<Met> {
    let hit = hit?;
    Some((hit.time.n, hit.time.m, hit.code))
}

fn told_in<L: Ledger>(grid: &Grid, words: &[u64], ray: &Ray, refused: u64, blank: Blank) -> Report
    requires some { 1 ≤ length words.now }
    requires name { blank.name ≡ L.name }
    requires parts { blank.parts ≡ L.parts }
    requires one { 0 < blank.parts }
{
    let mut reads = Steps::<L>::new(blank);
    let _limits = grid.depth();
    let mut nodes = LentWords {
        masks: false,
        grid: *grid,
        cells: 0,
        words,
        refused,
        calls: 0,
        faults: 0,
    };
    let answer = cast(&mut nodes, ray, &mut reads);
    let reads = nodes.calls;
    match answer {
        Ok(hit) => Report {
            hit: met(hit),
            fault: None,
            reads,
        },
        Err(fault) => Report {
            hit: None,
            fault: Some(fault),
            reads,
        },
    }
}

fn told(grid: &Grid, words: &[u64], ray: &Ray, refused: u64) -> Report
    requires { 1 ≤ length words.now }
{
    told_in::<Brand>(grid, words, ray, refused, Blank::new(1))
}

/// The words of the eight cells around (2,2,2) at depth 2, in format 1, where the root is the last.
const EIGHT_CELLS: [u64; 9] = [128, 64, 32, 16, 8, 4, 2, 1, 255];

/// Their codes.
const CODES: [u64; 8] = [7, 14, 21, 28, 35, 42, 49, 56];

/// A ray over the eight cells: its origin and its direction, the hit, and how many words may be read.
type Row = ([i64; 3], [i64; 3], Option<Met>, u64);

const FAR: i64 = 1 << 40;

const FAST: i64 = 1 << 30;

const ROWS: &[Row] = &[
    ([-1, 2, 2], [1, 0, 0], Some((2, 1, 7)), 9),
    ([-1, 0, 0], [4, 3, 3], Some((1, 2, 7)), 2),
    ([0, 4, 0], [1, -1, 0], None, 9),
    ([2, 2, 2], [1, 0, 0], Some((0, 1, 7)), 9),
    ([5, 2, 2], [-1, 0, 0], Some((2, 1, 14)), 9),
    ([0, 0, 0], [1, 1, 1], Some((1, 1, 7)), 2),
    ([4, 0, 2], [-1, 1, 0], Some((1, 1, 14)), 9),
    ([2, 2, 2], [-1, -1, -1], Some((0, 1, 7)), 9),
    ([-FAR, 2, 2], [1, 0, 0], Some((1_099_511_627_777, 1, 7)), 9),
    (
        [FAR, FAR, FAR],
        [-FAST, -FAST, -FAST],
        Some((1_099_511_627_773, 1_073_741_824, 56)),
        2,
    ),
    ([FAR, FAR, FAR], [FAST, FAST, FAST], None, 0),
    ([-1, 5, 2], [1, 0, 0], None, 0),
    (
        [2, 2, -FAR],
        [0, 0, FAST],
        Some((1_099_511_627_777, 1_073_741_824, 7)),
        9,
    ),
    ([1, 1, 0], [0, 0, 1], Some((1, 1, 7)), 9),
    ([3, 3, 0], [0, 0, 1], Some((1, 1, 28)), 9),
];

#[test]
fn rays_hit_the_first_of_eight_cells(rt: HostRuntime) {
    let grid = Grid::new(2, [0, 0, 0], 1).expect(&rt, "a grid");
    for (origin, direction, hit, reads) in ROWS.iter().copied() {
        let ray = Ray::new(origin, direction).expect(&rt, "a ray");
        let told = told(&grid, &EIGHT_CELLS, &ray, 0);
        assert_eq!(rt; told.hit, hit, "from {origin:?} by {direction:?}");
        assert_eq!(rt; told.fault, None, "from {origin:?} by {direction:?}");
        assert_eq!(rt;
            plain_hit(&grid, &CODES, &ray),
            hit,
            "the plain program from {origin:?} by {direction:?}"
        );
        assert!(rt;
            told.reads <= reads,
            "the reads from {origin:?} by {direction:?}"
        );
    }
}

/// Words at depth 1 with a ray, what it hits, and the fault where the call with this number is refused.
type Case = (
    &'static [u64],
    i64,
    [i64; 3],
    [i64; 3],
    u64,
    Option<Met>,
    Option<WalkFault>,
);

const CASES: &[Case] = &[
    (
        &[257, 257, 257, 1, 135],
        1,
        [-1, 0, 0],
        [1, 0, 0],
        0,
        Some((1, 1, 0)),
        None,
    ),
    (
        &[257, 257, 257, 1, 135],
        1,
        [3, 2, 2],
        [-1, 0, 0],
        0,
        Some((1, 1, 7)),
        None,
    ),
    (&[0], 1, [3, 1, 1], [-1, 0, 0], 0, None, None),
    (&[7], 1, [0, 0, 5], [0, 0, -1], 0, Some((4, 1, 0)), None),
    (
        &[128, 64, 32, 16, 8, 4, 2, 1, 2303],
        2,
        [0, 0, 0],
        [1, 1, 1],
        0,
        None,
        Some(WalkFault::Refused {
            number: 8,
            word: 2303,
        }),
    ),
    (
        &[128, 64, 32, 16, 8, 4, 2, 1, 255],
        2,
        [0, 0, 0],
        [1, 1, 1],
        1,
        None,
        Some(WalkFault::Failed),
    ),
    (
        &[128, 64, 32, 16, 8, 4, 2, 1, 255],
        2,
        [0, 0, 0],
        [1, 1, 1],
        2,
        None,
        Some(WalkFault::Failed),
    ),
];

#[test]
fn rays_hit_cells_of_either_format_or_say_why_not(rt: HostRuntime) {
    for (words, depth, origin, direction, refused, hit, fault) in CASES.iter().copied() {
        let grid = Grid::new(depth, [0, 0, 0], 1).expect(&rt, "a grid");
        let ray = Ray::new(origin, direction).expect(&rt, "a ray");
        assert!(rt; !words.is_empty(), "the root's word");
        let told = told(&grid, words, &ray, refused);
        assert_eq!(rt; told.hit, hit, "from {origin:?} by {direction:?}");
        assert_eq!(rt; told.fault, fault, "from {origin:?} by {direction:?}");
    }
}

/// The first hit by the plain program: each filled cube is asked when the ray enters it.
fn plain_hit(grid: &Grid, codes: &[u64], ray: &Ray) -> Option<Met> {
    let depth = grid.depth();
    let mut best: Option<Hit> = None;
    for &code in codes {
        if code >> (3 * depth) == 0 {
            best = better(best, ray, grid, code);
        }
    }
    met(best)
}

/// The better of a hit and the one of a cell.
fn better(best: Option<Hit>, ray: &Ray, grid: &Grid, code: u64) -> Option<Hit>
    requires { code < 8 ^ grid.now.depth }
{
    let Some(time) = entry(ray, &cube_of(grid, grid.depth(), code)) else {
        return best;
    };
    match best {
        Some(hit) if compare(&hit.time, &time) != Ordering::Greater => Some(hit),
        _ => Some(Hit { time, code }),
    }
}

/// A small number of either sign.
fn near(seed: &mut u64, size: u32) -> i64
    requires { 0 < size }
{
    let number = (next_number(seed) % u64::from(size)) as u32;
    i64::from(number) - i64::from(size / 2)
}

#[test]
fn rays_hit_what_the_plain_program_says(rt: HostRuntime) {
    let mut seed = 1;
    for depth in 1..4u32 {
        for one_in in 1..12 {
            let grid = Grid::new(i64::from(depth), [-2, 0, 1], 2).expect(&rt, "a grid");
            let codes = some_cells(rt.alloc(), depth, one_in, &mut seed).expect(&rt, "memory");
            let mut words = Vec::new(rt.alloc());
            let root = put_words(rt.alloc(), &mut words, codes.as_slice(), depth, 0).expect(
                &rt, "memory",
            );
            words.push(root).expect(&rt, "memory");
            assert!(rt; words.len() > 0, "the root's word");
            for _ in 0..100 {
                let origin = [
                    near(&mut seed, 24),
                    near(&mut seed, 24),
                    near(&mut seed, 24),
                ];
                let direction = [near(&mut seed, 7), near(&mut seed, 7), near(&mut seed, 7)];
                if let Ok(ray) = Ray::new(origin, direction) {
                    let told = told(&grid, words.as_slice(), &ray, 0);
                    let plain = plain_hit(&grid, codes.as_slice(), &ray);
                    assert_eq!(rt;
                        told.hit,
                        plain,
                        "from {origin:?} by {direction:?} at depth {depth}, one cell in {one_in}"
                    );
                }
            }
        }
    }
}
