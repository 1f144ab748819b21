//! Cases that were worked out by hand.

ghost use Rattle.std.specs.Prelude.{◌≡◌, ◌^◌, ◌<◌, ◌≤◌, unsigned_abs};
ghost use Rattle.octree_specs.specs.Meeting.{HasPlanes};

use std::marker::Brand;
use std::sync::ledger::{Blank, Ledger};
use svo_base::{Cube, Point, Steps, Triangle};
use tri_cube::{Verdict, overlaps, overlaps_by_candidates, why};

/// The corners of a triangle.
type Corners = [[i32; 3]; 3];

/// The lower and the upper planes of a cube.
type Planes = ([i64; 3], [i64; 3]);

/// The least coordinate of a corner, as a corner and as a plane.
const MIN: i32 = i32::MIN;

const LOW: i64 = -1 << 31;

/// The greatest coordinate of a corner, as a corner and as a plane.
const MAX: i32 = i32::MAX;

const HIGH: i64 = (1 << 31) - 1;

/// The greatest size of a plane.
const FAR: i64 = 1 << 33;

/// The greatest length of a triangle's box that is asked in 64 bits.
const LONG: i32 = 1 << 29;

/// A triangle with the greatest such box, far from 0. Its plane is across x and y.
const LONGEST: Corners = [
    [MIN, MIN + LONG, MIN],
    [MIN + LONG, MIN, MIN],
    [MIN, MIN + LONG, MIN + LONG],
];

/// The same with a box that is longer by one.
const LONGER: Corners = [
    [MIN, MIN + LONG + 1, MIN],
    [MIN + LONG + 1, MIN, MIN],
    [MIN, MIN + LONG + 1, MIN + LONG + 1],
];

/// A right angle in the plane z = 0.
const FLAT: Corners = [[0, 0, 0], [1, 0, 0], [0, 1, 0]];

/// The triangle where x + y + z = 4.
const SLANTED: Corners = [[4, 0, 0], [0, 4, 0], [0, 0, 4]];

/// A triangle in the plane y = z.
const RAMP: Corners = [[0, 0, 0], [3, 0, 0], [0, 3, 3]];

/// A triangle across all coordinates, with x = z and y at most x.
const WHOLE: Corners = [[MIN, MIN, MIN], [MAX, MAX, MAX], [MAX, MIN, MAX]];

const UNIT: Planes = ([0, 0, 0], [1, 1, 1]);

const TWO: Planes = ([0, 0, 0], [2, 2, 2]);

const CASES: &[(&str, Corners, Planes, bool)] = &[
    (
        "the cube is below the triangle's plane",
        SLANTED,
        UNIT,
        false,
    ),
    (
        "only an edge of the triangle separates",
        [[4, 1, 1], [1, 4, 1], [4, 4, 1]],
        TWO,
        false,
    ),
    (
        "a segment through the cube",
        [[-1, 1, 1], [3, 1, 1], [3, 1, 1]],
        TWO,
        true,
    ),
    ("a triangle on the lower face", FLAT, UNIT, true),
    (
        "a corner on the face x = 1",
        FLAT,
        ([1, 0, 0], [2, 1, 1]),
        true,
    ),
    ("past the long side", FLAT, ([1, 1, 0], [2, 2, 1]), false),
    (
        "a point inside",
        [[1, 1, 1], [1, 1, 1], [1, 1, 1]],
        TWO,
        true,
    ),
    (
        "a point on a corner",
        [[2, 2, 2], [2, 2, 2], [2, 2, 2]],
        TWO,
        true,
    ),
    (
        "a point just outside",
        [[3, 2, 2], [3, 2, 2], [3, 2, 2]],
        TWO,
        false,
    ),
    (
        "a segment that touches an edge",
        [[4, 1, 1], [0, 3, 1], [0, 3, 1]],
        TWO,
        true,
    ),
    (
        "a segment that just misses it",
        [[4, 1, 1], [1, 3, 1], [1, 3, 1]],
        TWO,
        false,
    ),
    (
        "a corner on a face from outside",
        [[2, 1, 1], [5, 1, 1], [5, 2, 1]],
        TWO,
        true,
    ),
    (
        "a corner on an edge from outside",
        [[2, 2, 1], [5, 5, 1], [5, 2, 4]],
        TWO,
        true,
    ),
    (
        "a corner on a corner from outside",
        [[2, 2, 2], [5, 3, 3], [3, 5, 3]],
        TWO,
        true,
    ),
    (
        "a corner just off a face",
        [[3, 1, 1], [5, 1, 1], [5, 2, 1]],
        TWO,
        false,
    ),
    (
        "a cube that is a point of the triangle",
        RAMP,
        ([1, 1, 1], [1, 1, 1]),
        true,
    ),
    (
        "a cube that is a point beside it",
        RAMP,
        ([1, 1, 2], [1, 1, 2]),
        false,
    ),
    (
        "the greatest cube",
        WHOLE,
        ([-FAR, -FAR, -FAR], [FAR, FAR, FAR]),
        true,
    ),
    (
        "the plane z = 0",
        WHOLE,
        ([-FAR, -FAR, 0], [FAR, FAR, 0]),
        true,
    ),
    (
        "beside the long edge",
        WHOLE,
        ([0, 5, 0], [1, FAR, 1]),
        false,
    ),
    (
        "the least corner",
        WHOLE,
        ([-FAR, -FAR, -FAR], [LOW, LOW, LOW]),
        true,
    ),
    (
        "just below it",
        WHOLE,
        ([-FAR, -FAR, -FAR], [LOW, LOW - 1, LOW]),
        false,
    ),
    (
        "the greatest corner",
        WHOLE,
        ([HIGH, HIGH, HIGH], [FAR, FAR, FAR]),
        true,
    ),
    (
        "just above it",
        WHOLE,
        ([HIGH, HIGH + 1, HIGH], [FAR, FAR, FAR]),
        false,
    ),
    (
        "the corner before the longest in 64 bits",
        LONGEST,
        ([-FAR, -FAR, LOW], [LOW + 1, LOW + (1 << 29) - 1, LOW]),
        true,
    ),
    (
        "just short of its plane",
        LONGEST,
        ([-FAR, -FAR, LOW], [LOW + 1, LOW + (1 << 29) - 2, LOW]),
        false,
    ),
    (
        "just short of one that is longer",
        LONGER,
        ([-FAR, -FAR, LOW], [LOW + 1, LOW + (1 << 29) - 1, LOW]),
        false,
    ),
    (
        "planes in the wrong order",
        FLAT,
        ([1, 0, 0], [0, 1, 1]),
        false,
    ),
    (
        "the farthest point",
        WHOLE,
        ([FAR, FAR, FAR], [FAR, FAR, FAR]),
        false,
    ),
    (
        "the farthest point below",
        WHOLE,
        ([-FAR, -FAR, -FAR], [-FAR, -FAR, -FAR]),
        false,
    ),
];

/// What the first axis is that separates, or the first good weights.
const REASONS: &[(&str, Corners, Planes, Verdict)] = &[
    (
        "only the triangle's plane separates",
        SLANTED,
        UNIT,
        Verdict::Apart(3),
    ),
    (
        "only an edge separates, with z",
        [[4, 1, 1], [1, 4, 1], [4, 4, 1]],
        TWO,
        Verdict::Apart(6),
    ),
    (
        "a segment through the cube",
        [[-1, 1, 1], [3, 1, 1], [3, 1, 1]],
        TWO,
        Verdict::Meets(3, 0, 1),
    ),
    (
        "a point before the cube along each axis",
        [[0, 0, 0], [0, 0, 0], [0, 0, 0]],
        ([1, 1, 1], [2, 2, 2]),
        Verdict::Apart(0),
    ),
    (
        "a point before the cube along y",
        [[0, 0, 0], [0, 0, 0], [0, 0, 0]],
        ([0, 1, 0], [1, 2, 1]),
        Verdict::Apart(1),
    ),
];

/// Coordinates near each other, and the least and the greatest.
const COORDINATES: [i32; 8] = [MIN, -3, -1, 0, 1, 2, MAX - 1, MAX];

/// Planes among them, and the farthest.
const PLANES: [i64; 8] = [-FAR, LOW, -2, 0, 1, 2, HIGH, FAR];

#[test]
fn shared_points_are_seen(rt: HostRuntime) {
    for (name, corners, (lo, hi), expected) in CASES {
        let triangle = triangle(*corners);
        let cube = cube(lo, hi);
        assert_eq!(rt; meets(&triangle, &cube), *expected, "{name}");
        assert_eq!(rt;
            overlaps_by_candidates(&triangle, &cube),
            *expected,
            "{name}"
        );
    }
}

#[test]
fn reasons_are_given(rt: HostRuntime) {
    for (name, corners, (lo, hi), expected) in REASONS {
        assert_eq!(rt;
            why(&triangle(*corners), &cube(lo, hi)),
            *expected,
            "{name}"
        );
    }
}

/// Triangles that are points, segments or flat as seen along an axis come up often, and cubes whose
/// planes are in the wrong order.
#[test]
fn all_bodies_agree(rt: HostRuntime) {
    let mut picker = Picker { seed: 7 };
    for _ in 0..20_000 {
        let far = triangle([picker.corner(), picker.corner(), picker.corner()]);
        assert!(rt; agree(&far, &cube(&picker.planes(), &picker.planes())));
        let near = triangle([picker.near(), picker.near(), picker.near()]);
        assert!(rt; agree(&near, &picker.near_cube()));
    }
}

/// Whether the prepared triangle, the candidates and the reason say the same.
fn agree(triangle: &Triangle, cube: &Cube) -> bool
    requires { HasPlanes cube.now }
{
    let shared = overlaps_by_candidates(triangle, cube);
    let explained = matches!(why(triangle, cube), Verdict::Meets(_, _, _));
    meets(triangle, cube) == shared && explained == shared
}

/// Numbers from a fixed generator.
#[derive(Drop)]
struct Picker {
    seed: u64,
}

impl Picker {
    /// A number below 8.
    fn pick(&mut self) -> usize
        ensures { result < 8 }
    {
        self.seed = self
            .seed
            .wrapping_mul(6_364_136_223_846_793_005)
            .wrapping_add(1_442_695_040_888_963_407);
        (self.seed >> 61) as usize
    }

    fn corner(&mut self) -> [i32; 3] {
        [
            COORDINATES[self.pick()],
            COORDINATES[self.pick()],
            COORDINATES[self.pick()],
        ]
    }

    /// A coordinate from -4 to 3.
    fn small(&mut self) -> i32
        ensures { unsigned_abs result ≤ 4 }
    {
        self.pick() as i32 - 4
    }

    fn near(&mut self) -> [i32; 3] {
        [self.small(), self.small(), self.small()]
    }

    /// A cube of side 0 to 3.
    fn near_cube(&mut self) -> Cube
        ensures { HasPlanes result }
    {
        let side = self.pick() as i64 / 2;
        let x = i64::from(self.small());
        let y = i64::from(self.small());
        let z = i64::from(self.small());
        cube(&[x, y, z], &[x + side, y + side, z + side])
    }

    fn planes(&mut self) -> [i64; 3] {
        [
            PLANES[self.pick()],
            PLANES[self.pick()],
            PLANES[self.pick()],
        ]
    }
}

fn meets(triangle: &Triangle, cube: &Cube) -> bool
    requires { HasPlanes cube.now }
{
    counted::<Brand>(triangle, cube, Blank::new(1))
}

fn counted<L: Ledger>(triangle: &Triangle, cube: &Cube, blank: Blank) -> bool
    requires planes { HasPlanes cube.now }
    requires name { blank.name ≡ L.name }
    requires parts { blank.parts ≡ L.parts }
    requires one { 0 < blank.parts }
{
    let mut tests = Steps::<L>::new(blank);
    overlaps(triangle, cube, &mut tests)
}

fn triangle(corners: Corners) -> Triangle {
    let [a, b, c] = corners;
    Triangle {
        a: point(a),
        b: point(b),
        c: point(c),
    }
}

fn point(at: [i32; 3]) -> Point {
    let [x, y, z] = at;
    Point { x, y, z }
}

fn cube(lo: &[i64; 3], hi: &[i64; 3]) -> Cube
    ensures { HasPlanes result }
{
    Cube {
        lo: [near(lo[0]), near(lo[1]), near(lo[2])],
        hi: [near(hi[0]), near(hi[1]), near(hi[2])],
    }
}

/// A plane, or the farthest one where it is beyond.
fn near(plane: i64) -> i64
    ensures { unsigned_abs result ≤ 2 ^ 33 }
{
    plane.clamp(-FAR, FAR)
}
