//! Cells that were worked out by hand, and the plain program: every cell, every triangle.

ghost use Rattle.std.specs.Prelude.{◌≡◌, ◌^◌, ◌<◌, ◌≤◌, unsigned_abs, IfSome};

use morton_code::cube_of;
use morton_scan::{FilledCell, PartSlots, fill_triangle, next_code};
use std::marker::Brand;
use std::sync::ledger::{Blank, Ledger};
use svo_base::{Grid, Point, Steps, Triangle};
use tri_cube::overlaps_by_candidates;

/// The corners of a triangle.
type Corners = [[i32; 3]; 3];

/// A right angle in the plane z = 0.
const FLAT: Corners = [[0, 0, 0], [1, 0, 0], [0, 1, 0]];

/// A point, as a triangle.
const MIDDLE: Corners = [[2, 2, 2], [2, 2, 2], [2, 2, 2]];

/// A triangle through the middle of the widest grid, as large as coordinates are.
const WIDEST: Corners = [
    [-1 << 30, -1 << 30, -1 << 30],
    [1 << 30, 1 << 30, 1 << 30],
    [1 << 30, -1 << 30, 1 << 30],
];

/// The greatest point, as a triangle.
const GREATEST: Corners = [
    [i32::MAX, i32::MAX, i32::MAX],
    [i32::MAX, i32::MAX, i32::MAX],
    [i32::MAX, i32::MAX, i32::MAX],
];

/// A segment across a grid of depth 8, as a triangle.
const DIAGONAL: Corners = [[0, 0, 0], [0, 0, 0], [256, 256, 256]];

/// A name; the grid's depth, origin on each axis and cell; the split and the part; triangles with
/// their faces; and the filled places with the least face of each.
type Row = (
    &'static str,
    (i64, i64, i64),
    (u32, u32),
    &'static [(Corners, u32)],
    &'static [(usize, u32)],
);

const ROWS: &[Row] = &[
    (
        "three cells of eight",
        (1, 0, 1),
        (0, 0),
        &[(FLAT, 5)],
        &[(0, 5), (1, 5), (2, 5)],
    ),
    (
        "a point that eight cells share",
        (2, 0, 1),
        (0, 0),
        &[(MIDDLE, 0)],
        &[
            (7, 0),
            (14, 0),
            (21, 0),
            (28, 0),
            (35, 0),
            (42, 0),
            (49, 0),
            (56, 0),
        ],
    ),
    (
        "the same in one part of eight",
        (2, 0, 1),
        (1, 5),
        &[(MIDDLE, 3)],
        &[(2, 3)],
    ),
    (
        "two faces, the greater first",
        (1, 0, 1),
        (0, 0),
        &[(FLAT, 1), (MIDDLE, 0), (MIDDLE, 7)],
        &[(0, 1), (1, 1), (2, 1), (7, 0)],
    ),
    (
        "the widest triangle in the widest grid",
        (1, -1 << 30, 1 << 31),
        (0, 0),
        &[(WIDEST, 0)],
        &[
            (0, 0),
            (1, 0),
            (2, 0),
            (3, 0),
            (4, 0),
            (5, 0),
            (6, 0),
            (7, 0),
        ],
    ),
    (
        "the greatest face, in a part of the widest grid",
        (12, -1 << 30, 1 << 20),
        (10, 956_301_311),
        &[(GREATEST, u32::MAX - 1)],
        &[(63, u32::MAX - 1)],
    ),
];

#[test]
fn rows_are_filled(rt: HostRuntime) {
    for (name, (depth, origin, cell), (split, part), faces, filled) in ROWS {
        let grid = Grid::new(*depth, [*origin, *origin, *origin], *cell).expect(&rt, "a grid");
        let mut slots = [0_u32; 64];
        let mut wanted = [0_u32; 64];
        for (place, face) in *filled {
            assert!(rt; *place < 64 && *face < u32::MAX);
            wanted[*place] = *face + 1;
        }
        for (corners, face) in *faces {
            fill(&grid, *split, *part, &triangle(*corners), *face, &mut slots);
        }
        assert_eq!(rt; slots, wanted, "{name}");
    }
}

#[test]
fn filled_cells_come_in_order(rt: HostRuntime) {
    let slots = [0, 5, 0, 1, u32::MAX];
    for (from, wanted) in [
        (0, Some((13, 4))),
        (13, Some((13, 4))),
        (14, Some((15, 0))),
        (16, None),
        (u64::MAX, None),
    ] {
        let cell = next_code(&slots, 3, 4, from).map(|cell| (cell.code, cell.face));
        assert_eq!(rt; cell, wanted, "from {from} on");
    }
    assert_eq!(rt;
        next_code(&slots, 0, 5, 4),
        Some(FilledCell {
            code: 4,
            face: u32::MAX - 1
        })
    );
}

/// A grid of 16,777,216 cells, filled in parts.
#[test]
fn a_segment_is_filled_two_thousand_times(rt: HostRuntime) {
    let grid = Grid::new(8, [0, 0, 0], 1).expect(&rt, "a grid");
    let mut lent = [1_u32; 32_768];
    let mut slots = PartSlots::new(&mut lent);
    let mut cells = 0_u64;
    for part in 0..512 {
        fill_often(&grid, part, &mut slots);
        cells = cells.saturating_add(first_faces(&slots, part));
        slots.clear();
    }
    assert_eq!(rt; cells, 1786);
}

/// Puts the faces 0 to 1999 into a part of the third level.
fn fill_often(grid: &Grid, part: u32, slots: &mut PartSlots<'_>) {
    let diagonal = triangle(DIAGONAL);
    for face in 0..2000 {
        fill_slots(grid, 3, part, &diagonal, face, slots);
    }
}

/// How many cells of a part of the third level are filled, where each has the face 0.
fn first_faces(slots: &PartSlots<'_>, part: u32) -> u64 {
    let mut cells = 0_u64;
    let mut from = 0;
    for _cell in 0..32_768 {
        match next_cell(slots, part, 32_768, from) {
            Some(cell) if cell.face == 0 => {
                cells = cells.saturating_add(1);
                from = cell.code + 1;
            }
            _ => return cells,
        }
    }
    cells
}

/// Four triangles at a time, in a grid around 0 that is as wide as coordinates are far, and in a small
/// one, in one part and in parts.
#[test]
fn slots_are_those_of_the_plain_program(rt: HostRuntime) {
    let mut picker = Picker { seed: 7 };
    for _ in 0..6 {
        for (origin, cell) in [(-1 << 30, 1 << 28), (-3, 1), (0, 2)] {
            let grid = Grid::new(3, [origin, origin, origin], cell).expect(&rt, "a grid");
            let triangles = [
                picker.triangle(cell),
                picker.triangle(cell),
                picker.triangle(cell),
                picker.triangle(cell),
            ];
            for (split, count) in [(0, 512), (1, 64), (2, 8), (3, 1)] {
                assert!(rt;
                    are_plain(&grid, split, count, &triangles),
                    "cell {cell} split {split}"
                );
            }
        }
    }
}

/// Whether the slots of a grid of depth 3, part after part of so many cells, are those that the plain
/// program gives.
fn are_plain(grid: &Grid, split: u32, count: u64, triangles: &[Triangle; 4]) -> bool
    requires { 0 < count }
{
    let mut lent = [1_u32; 512];
    let mut slots = PartSlots::new(&mut lent);
    for code in 0..512_u64 {
        let part = (code / count) as u32;
        if code % count == 0 {
            slots.clear();
            fill_slots(grid, split, part, &triangles[0], 2, &mut slots);
            fill_slots(grid, split, part, &triangles[1], 3, &mut slots);
            fill_slots(grid, split, part, &triangles[2], 0, &mut slots);
            fill_slots(grid, split, part, &triangles[3], 1, &mut slots);
        }
        if slot_of(&slots, part, count, code) != plain_slot(grid, code, triangles) {
            return false;
        }
    }
    true
}

/// What the slot of a code's cell keeps.
fn slot_of(slots: &PartSlots<'_>, part: u32, count: u64, code: u64) -> u32 {
    match next_cell(slots, part, count, code) {
        Some(cell) if cell.code == code => cell.face.saturating_add(1),
        _ => 0,
    }
}

/// The next filled cell, where the slots are as many as they must be.
fn next_cell(slots: &PartSlots<'_>, part: u32, count: u64, from: u64) -> Option<FilledCell>
    ensures { IfSome result (λ cell. cell.code < 2 ^ 60) }
{
    if (slots.len() as u64) < count || count > 32_768 {
        return None;
    }
    slots.next_code(part, count, from)
}

/// The slot of a cell, each triangle asked.
fn plain_slot(grid: &Grid, code: u64, triangles: &[Triangle; 4]) -> u32
    requires { code < 512 }
{
    if grid.depth() != 3 {
        return 0;
    }
    let cube = cube_of(grid, 3, code);
    if overlaps_by_candidates(&triangles[2], &cube) {
        1
    } else if overlaps_by_candidates(&triangles[3], &cube) {
        2
    } else if overlaps_by_candidates(&triangles[0], &cube) {
        3
    } else if overlaps_by_candidates(&triangles[1], &cube) {
        4
    } else {
        0
    }
}

/// Numbers from a fixed generator.
#[derive(Drop)]
struct Picker {
    seed: u64,
}

impl Picker {
    /// A number below 8.
    fn pick(&mut self) -> i64
        ensures { unsigned_abs result < 8 }
    {
        self.seed = self
            .seed
            .wrapping_mul(6_364_136_223_846_793_005)
            .wrapping_add(1_442_695_040_888_963_407);
        (self.seed >> 61) as i64
    }

    /// A coordinate on a plane of cells or beside it.
    fn coordinate(&mut self, cell: i64) -> i32 {
        let plane = (self.pick() - 4).saturating_mul(cell);
        let beside = plane.saturating_add(self.pick() / 3 - 1);
        beside.clamp(i64::from(i32::MIN), i64::from(i32::MAX)) as i32
    }

    fn point(&mut self, cell: i64) -> Point {
        Point {
            x: self.coordinate(cell),
            y: self.coordinate(cell),
            z: self.coordinate(cell),
        }
    }

    fn triangle(&mut self, cell: i64) -> Triangle {
        Triangle {
            a: self.point(cell),
            b: self.point(cell),
            c: self.point(cell),
        }
    }
}

/// Fills a triangle in, where the part and its slots are as they must be.
fn fill(grid: &Grid, split: u32, part: u32, triangle: &Triangle, face: u32, slots: &mut [u32]) {
    fill_counted::<Brand>(grid, split, part, triangle, face, slots, Blank::new(1));
}

fn fill_counted<L: Ledger>(
    grid: &Grid,
    split: u32,
    part: u32,
    triangle: &Triangle,
    face: u32,
    slots: &mut [u32],
    blank: Blank,
)
    requires name { blank.name ≡ L.name }
    requires parts { blank.parts ≡ L.parts }
    requires one { 0 < blank.parts }
{
    let depth = grid.depth();
    if split > depth || depth > 12 || face == u32::MAX {
        return;
    }
    if u64::from(part) >= power_of_8(split) || (slots.len() as u64) < power_of_8(depth - split) {
        return;
    }
    let mut tests = Steps::<L>::new(blank);
    fill_triangle(grid, split, part, triangle, face, slots, &mut tests);
}

/// Fills a triangle into the slots of a part, where the part and the slots are as they must be.
fn fill_slots(
    grid: &Grid,
    split: u32,
    part: u32,
    triangle: &Triangle,
    face: u32,
    slots: &mut PartSlots<'_>,
) {
    fill_slots_counted::<Brand>(grid, split, part, triangle, face, slots, Blank::new(1));
}

fn fill_slots_counted<L: Ledger>(
    grid: &Grid,
    split: u32,
    part: u32,
    triangle: &Triangle,
    face: u32,
    slots: &mut PartSlots<'_>,
    blank: Blank,
)
    requires name { blank.name ≡ L.name }
    requires parts { blank.parts ≡ L.parts }
    requires one { 0 < blank.parts }
{
    let depth = grid.depth();
    if split > depth || depth > 12 || face == u32::MAX {
        return;
    }
    if u64::from(part) >= power_of_8(split) || (slots.len() as u64) < power_of_8(depth - split) {
        return;
    }
    let mut tests = Steps::<L>::new(blank);
    slots.fill_triangle(grid, split, part, triangle, face, &mut tests);
}

fn power_of_8(exponent: u32) -> u64
    requires { exponent ≤ 12 }
    ensures { result ≡ 8 ^ exponent }
{
    1 << (3 * exponent)
}

fn triangle(corners: Corners) -> Triangle {
    let [a, b, c] = corners;
    Triangle {
        a: point(a),
        b: point(b),
        c: point(c),
    }
}

fn point(at: [i32; 3]) -> Point {
    let [x, y, z] = at;
    Point { x, y, z }
}
