//! Views of an octree whose words are lent, and beside them the plain program, which asks every filled
//! cube when the ray of a pixel enters it.

ghost use Rattle.std.specs.Prelude.{◌≡◌, ◌<◌, ◌≤◌, ◌^◌, length};

use dev_traits::{MemSink, PartFail};
use morton_code::cube_of;
use node_check::WalkFault;
use node_file::LentWords;
use ray_fraction::{Ray, entry};
use slice_view::CameraKind::{self, Parallel, Pinhole};
use slice_view::{AnswerStop, Camera, view};
use std::alloc::{AllocError, Global};
use std::marker::Brand;
use std::sync::ledger::{Blank, Ledger};
use svo_base::{Grid, Steps};

/// The words of the eight cells around (2,2,2) at depth 2, in format 1, where the root is the last.
const EIGHT_CELLS: [u64; 9] = [128, 64, 32, 16, 8, 4, 2, 1, 255];

/// Their codes.
const CODES: [u64; 8] = [7, 14, 21, 28, 35, 42, 49, 56];

fn viewed_in<L: Ledger>(
    grid: &Grid,
    camera: &Camera,
    refused: u64,
    out: &mut MemSink,
    blank: Blank,
) -> Result<(), AnswerStop>
    requires name { blank.name ≡ L.name }
    requires parts { blank.parts ≡ L.parts }
    requires one { 0 < blank.parts }
{
    let mut reads = Steps::<L>::new(blank);
    let _limits = grid.depth();
    let mut nodes = LentWords {
        masks: true,
        grid: *grid,
        cells: 8,
        words: &EIGHT_CELLS,
        refused,
        calls: 0,
        faults: 0,
    };
    view(&mut nodes, camera, out, &mut reads)
}

/// Puts a view of the eight cells into a sink.
fn viewed(grid: &Grid, camera: &Camera, refused: u64, out: &mut MemSink) -> Result<(), AnswerStop> {
    viewed_in::<Brand>(grid, camera, refused, out, Blank::new(1))
}

/// When a ray enters a filled cube: the time `(n, m)` is n / m.
fn plain_entry(grid: &Grid, ray: &Ray, code: u64) -> Option<(u64, u64)>
    requires { code < 8 ^ grid.now.depth }
{
    let time = entry(ray, &cube_of(grid, grid.depth(), code))?;
    Some((time.n, time.m))
}

/// The sooner of two times.
fn sooner(best: Option<(u64, u64)>, other: Option<(u64, u64)>) -> Option<(u64, u64)> {
    let Some((n, m)) = other else {
        return best;
    };
    match best {
        Some((k, l)) if u128::from(k) * u128::from(m) <= u128::from(n) * u128::from(l) => Some((
            k, l,
        )),
        _ => Some((n, m)),
    }
}

/// When a ray enters the first of the cubes of some codes.
fn plain_time(grid: &Grid, codes: &[u64], ray: &Ray) -> Option<(u64, u64)> {
    let depth = grid.depth();
    let mut best = None;
    for &code in codes {
        if code >> (3 * depth) == 0 {
            best = sooner(best, plain_entry(grid, ray, code));
        }
    }
    best
}

/// The grey of a time: 255 less the 254th parts of the far time that are over, rounded up.
fn plain_grey(time: Option<(u64, u64)>, far: u64) -> u8 {
    let Some((n, m)) = time else {
        return 0;
    };
    let reach = u128::from(far).wrapping_mul(u128::from(m));
    let n = u128::from(n);
    if n > reach {
        return 1;
    }
    let left = reach.wrapping_mul(255).wrapping_sub(n.wrapping_mul(254));
    let rounded = left.wrapping_add(reach.wrapping_sub(1));
    (rounded.checked_div(reach).unwrap_or(0) % 256) as u8
}

/// The picture by the plain program, behind its header.
fn plain_picture(
    alloc: Global,
    grid: &Grid,
    camera: &Camera,
    header: &[u8],
) -> Result<Vec<u8>, AllocError> {
    let mut picture = Vec::from_slice(alloc, header)?;
    for row in 0..camera.height() {
        for column in 0..camera.width() {
            match camera.ray(column, row) {
                Ok(ray) => picture.push(plain_grey(plain_time(grid, &CODES, &ray), camera.far()))?,
                Err(_fault) => picture.push(0)?,
            }
        }
    }
    Ok(picture)
}

/// The kind, the eye, the way ahead, to the right and up, the width, the height, the far time, the
/// header and the last samples.
type Row = (
    CameraKind,
    [i64; 3],
    [i64; 3],
    [i64; 3],
    [i64; 3],
    i64,
    i64,
    i64,
    &'static [u8],
    &'static [u8],
);

const X: [i64; 3] = [1, 0, 0];

const Y: [i64; 3] = [0, 1, 0];

const Z: [i64; 3] = [0, 0, 1];

/// Views of one pixel: half of the far time is over, all of it and more; missed; no direction. Then
/// views of which one corner alone hits, and views of many pixels, which take more than one block.
const ROWS: &[Row] = &[
    (
        Parallel,
        [2, 2, -2],
        Z,
        X,
        Y,
        1,
        1,
        6,
        b"P5\n1 1\n255\n",
        &[128],
    ),
    (
        Parallel,
        [2, 2, -2],
        Z,
        X,
        Y,
        1,
        1,
        3,
        b"P5\n1 1\n255\n",
        &[1],
    ),
    (
        Parallel,
        [2, 2, -2],
        Z,
        X,
        Y,
        1,
        1,
        2,
        b"P5\n1 1\n255\n",
        &[1],
    ),
    (
        Parallel,
        [2, 2, -2],
        [0, 0, -1],
        X,
        Y,
        1,
        1,
        6,
        b"P5\n1 1\n255\n",
        &[0],
    ),
    (
        Parallel,
        [2, 2, 2],
        Z,
        X,
        Y,
        1,
        1,
        6,
        b"P5\n1 1\n255\n",
        &[255],
    ),
    (
        Parallel,
        [2, 2, 2],
        [0, 0, 0],
        X,
        Y,
        1,
        1,
        6,
        b"P5\n1 1\n255\n",
        &[0],
    ),
    (
        Pinhole,
        [2, 2, 2],
        [0, 0, 0],
        X,
        Y,
        3,
        1,
        6,
        b"P5\n3 1\n255\n",
        &[255, 0, 255],
    ),
    (
        Parallel,
        [1, 1, -2],
        Z,
        X,
        Y,
        2,
        2,
        6,
        b"P5\n2 2\n255\n",
        &[0, 128, 0, 0],
    ),
    (
        Parallel,
        [4, 3, -2],
        Z,
        X,
        [0, 2, 0],
        2,
        1,
        7,
        b"P5\n2 1\n255\n",
        &[147, 0],
    ),
    (
        Pinhole,
        [-3, 1, 2],
        [40, 1, 0],
        [0, -1, 1],
        [1, 0, 2],
        81,
        60,
        3,
        b"P5\n81 60\n255\n",
        &[],
    ),
    (
        Parallel,
        [9, -40, 40],
        [-1, 7, -7],
        Z,
        [1, 1, 1],
        64,
        65,
        6,
        b"P5\n64 65\n255\n",
        &[],
    ),
];

#[test]
fn views_by_the_plain_program(rt: HostRuntime) {
    let grid = Grid::new(2, [0, 0, 0], 1).expect(&rt, "a grid");
    for (kind, eye, toward, right, up, width, height, far, header, samples) in ROWS
        .iter()
        .copied()
    {
        let camera = Camera::new(kind, eye, toward, right, up, width, height, far).expect(
            &rt, "a camera",
        );
        let plain = plain_picture(rt.alloc(), &grid, &camera, header).expect(&rt, "memory");
        let whole = plain.as_slice();
        assert!(rt; whole.ends_with(samples), "{camera:?} by the plain program");
        let mut out = MemSink::new(rt.alloc(), 8192, &[]).expect(&rt, "memory");
        let answer = viewed(&grid, &camera, 0, &mut out);
        assert_eq!(rt; answer, Ok(()), "{camera:?}");
        assert_eq!(rt; out.bytes(), whole, "{camera:?}");
        for call in 1..3 {
            let fails = [PartFail { call, taken: 5 }];
            let mut out = MemSink::new(rt.alloc(), 8192, &fails).expect(&rt, "memory");
            let answer = viewed(&grid, &camera, 0, &mut out);
            assert_eq!(rt; answer, Err(AnswerStop::WriteFault), "put {call} refused");
            assert!(rt; whole.starts_with(out.bytes()), "put {call} refused");
        }
        let mut out = MemSink::new(rt.alloc(), 8192, &[]).expect(&rt, "memory");
        let answer = viewed(&grid, &camera, 1, &mut out);
        assert!(rt;
            answer == Ok(()) || answer == Err(AnswerStop::Walk(WalkFault::Failed)),
            "a read refused"
        );
        assert!(rt; whole.starts_with(out.bytes()), "a read refused");
    }
}

/// The greatest components and sides, and whether there is a camera.
type Limits = ([i64; 3], [i64; 3], [i64; 3], [i64; 3], i64, i64, i64, bool);

const EYE: i64 = 1 << 39;

const WAY: i64 = 1 << 16;

const FAR: i64 = 1 << 40;

const LIMITS: &[Limits] = &[
    (
        [EYE, -EYE, EYE],
        [WAY, -WAY, WAY],
        [-WAY, WAY, -WAY],
        [WAY, WAY, WAY],
        4096,
        4096,
        FAR,
        true,
    ),
    ([0, 0, 0], [0, 0, 0], [0, 0, 0], [0, 0, 0], 1, 1, 1, true),
    ([0, 0, 0], Z, X, Y, 1, -1, 1, false),
    ([i64::MIN, 0, 0], Z, X, Y, 1, 1, 1, false),
];

#[test]
fn cameras_are_within_their_limits(rt: HostRuntime) {
    for (eye, toward, right, up, width, height, far, is_camera) in LIMITS.iter().copied() {
        let camera = Camera::new(Pinhole, eye, toward, right, up, width, height, far);
        assert_eq!(rt;
            camera.is_some(),
            is_camera,
            "{eye:?}, {toward:?}, {right:?}, {up:?}, {width} by {height} to {far}"
        );
        if let Some(camera) = camera {
            assert!(rt;
                camera.ray(0, 0).is_ok() == (far > 1),
                "the ray of {camera:?}"
            );
        }
    }
}

/// The least and the greatest of a number of a camera.
type Range = (i64, i64);

const PLACE: Range = (-EYE, EYE);

const STEP: Range = (-WAY, WAY);

const SIDE: Range = (1, 4096);

const TIME: Range = (1, FAR);

/// The ranges of the eye, of the ways ahead, to the right and up, of the width, the height and the far
/// time.
const RANGES: [Range; 15] = [
    PLACE, PLACE, PLACE, STEP, STEP, STEP, STEP, STEP, STEP, STEP, STEP, STEP, SIDE, SIDE, TIME,
];

/// An honest camera's numbers, in this order.
const NUMBERS: [i64; 15] = [2, 2, -2, 0, 0, 1, 1, 0, 0, 0, 1, 0, 3, 2, 6];

/// The camera of these numbers but for one.
fn camera_with(at: usize, number: i64) -> Option<Camera>
    requires { at < 15 }
{
    let mut all = NUMBERS;
    all[at] = number;
    Camera::new(
        Pinhole,
        [all[0], all[1], all[2]],
        [all[3], all[4], all[5]],
        [all[6], all[7], all[8]],
        [all[9], all[10], all[11]],
        all[12],
        all[13],
        all[14],
    )
}

#[test]
fn each_number_of_a_camera_has_its_range(rt: HostRuntime) {
    for at in 0..15 {
        let (least, greatest) = RANGES[at];
        assert!(rt; camera_with(at, least).is_some(), "the least number {at}");
        assert!(rt;
            camera_with(at, greatest).is_some(),
            "the greatest number {at}"
        );
        let below = least.wrapping_sub(1);
        assert!(rt; camera_with(at, below).is_none(), "number {at} is {below}");
        let above = greatest.wrapping_add(1);
        assert!(rt; camera_with(at, above).is_none(), "number {at} is {above}");
    }
}
