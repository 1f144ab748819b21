ghost use Rattle.std.specs.Prelude.{◌^◌, ◌≤◌, unsigned_abs, All};
ghost use Rattle.octree_specs.specs.Meeting.{HasPlanes};

use ray_fraction::{Ray, RayFault, Time, compare, entry, exit};
use std::cmp::Ordering;
use svo_base::Cube;

#[test]
fn rays_are_refused_at_their_first_broken_limit(rt: HostRuntime) {
    const FAR: i64 = 1 << 40;
    const FAST: i64 = 1 << 30;
    let cases = [
        ([FAR + 1, 0, 0], [0, 0, 0], RayFault::Origin),
        ([0, -FAR, 0], [0, -FAST - 1, 0], RayFault::Direction),
        ([0, 0, FAR], [0, 0, 0], RayFault::Zero),
    ];
    for (origin, direction, fault) in cases {
        assert_eq!(rt; Ray::new(origin, direction).err(), Some(fault), "{fault:?}");
    }
    let ray = Ray::new([-FAR, 0, FAR], [FAST, 0, -FAST]).expect(&rt, "the widest ray");
    let [x, _, z] = ray.origin();
    let [u, _, w] = ray.direction();
    assert_eq!(rt;
        (x, z, u, w),
        (-FAR, FAR, FAST, -FAST),
        "its origin and direction"
    );
}

#[test]
fn times_are_in_lowest_terms(rt: HostRuntime) {
    let cases = [
        (2, 4, 1, 2),
        (0, 7, 0, 1),
        (6, 3, 2, 1),
        (5, 7, 5, 7),
        (u64::MAX, u64::MAX, 1, 1),
    ];
    for (n, m, top, bottom) in cases {
        let time = Time::new(n, m);
        assert_eq!(rt; (time.n, time.m), (top, bottom), "{n} / {m}");
    }
}

#[test]
fn times_are_ordered_by_value(rt: HostRuntime) {
    let half = Time::new(1, 2);
    let third = Time::new(1, 3);
    let large = Time::new(u64::MAX, 1);
    assert_eq!(rt;
        compare(&half, &third),
        Ordering::Greater,
        "a half and a third"
    );
    assert_eq!(rt;
        compare(&third, &half),
        Ordering::Less,
        "a third and a half"
    );
    assert_eq!(rt;
        compare(&half, &Time::new(2, 4)),
        Ordering::Equal,
        "two quarters"
    );
    assert_eq!(rt;
        compare(&large, &half),
        Ordering::Greater,
        "the greatest time"
    );
}

/// When a ray enters and leaves a cube: `(n, m)` is the time n / m.
type Stay = ((u64, u64), (u64, u64));

/// A ray, the planes of a cube, and the ray's stay there.
#[derive(Clone, Copy)]
struct Case {
    what: &'static str,
    origin: [i64; 3],
    direction: [i64; 3],
    lo: [i32; 3],
    hi: [i32; 3],
    times: Option<Stay>,
}

const CASES: &[Case] = &[
    Case {
        what: "begins inside",
        origin: [1, 1, 1],
        direction: [1, 0, 0],
        lo: [0, 0, 0],
        hi: [4, 4, 4],
        times: Some(((0, 1), (3, 1))),
    },
    Case {
        what: "begins on a face and moves away",
        origin: [4, 1, 1],
        direction: [1, 0, 0],
        lo: [0, 0, 0],
        hi: [4, 4, 4],
        times: Some(((0, 1), (0, 1))),
    },
    Case {
        what: "moves along a face",
        origin: [4, -2, 1],
        direction: [0, 1, 0],
        lo: [0, 0, 0],
        hi: [4, 4, 4],
        times: Some(((2, 1), (6, 1))),
    },
    Case {
        what: "touches an edge",
        origin: [2, 6, 2],
        direction: [1, -1, 0],
        lo: [0, 0, 0],
        hi: [4, 4, 4],
        times: Some(((2, 1), (2, 1))),
    },
    Case {
        what: "touches a corner between whole times",
        origin: [1, 7, 1],
        direction: [2, -2, 2],
        lo: [0, 0, 0],
        hi: [4, 4, 4],
        times: Some(((3, 2), (3, 2))),
    },
    Case {
        what: "meets a cube that is a point",
        origin: [1, 7, 1],
        direction: [2, -2, 2],
        lo: [4, 4, 4],
        hi: [4, 4, 4],
        times: Some(((3, 2), (3, 2))),
    },
    Case {
        what: "misses a cube that is a point",
        origin: [1, 7, 2],
        direction: [2, -2, 2],
        lo: [4, 4, 4],
        hi: [4, 4, 4],
        times: None,
    },
    Case {
        what: "keeps to two of the planes",
        origin: [-2, 4, 0],
        direction: [3, 0, 0],
        lo: [0, 0, 0],
        hi: [4, 4, 4],
        times: Some(((2, 3), (2, 1))),
    },
    Case {
        what: "keeps just above an upper plane",
        origin: [-2, 5, 0],
        direction: [3, 0, 0],
        lo: [0, 0, 0],
        hi: [4, 4, 4],
        times: None,
    },
    Case {
        what: "keeps just below a lower plane",
        origin: [-2, 1, -1],
        direction: [3, 1, 0],
        lo: [0, 0, 0],
        hi: [4, 4, 4],
        times: None,
    },
    Case {
        what: "moves down on all axes",
        origin: [5, 3, 4],
        direction: [-2, -1, -1],
        lo: [0, 0, 0],
        hi: [4, 4, 4],
        times: Some(((1, 2), (5, 2))),
    },
    Case {
        what: "has the cube behind",
        origin: [5, 1, 1],
        direction: [1, 0, 0],
        lo: [0, 0, 0],
        hi: [4, 4, 4],
        times: None,
    },
    Case {
        what: "leaves by another axis than it enters by",
        origin: [-1, -1, 1],
        direction: [2, 3, 0],
        lo: [0, 0, 0],
        hi: [4, 4, 4],
        times: Some(((1, 2), (5, 3))),
    },
    Case {
        what: "is at both planes at times that are given in lowest terms",
        origin: [-1, 0, 0],
        direction: [4, 3, 3],
        lo: [1, 0, 0],
        hi: [2, 9, 9],
        times: Some(((1, 2), (3, 4))),
    },
    Case {
        what: "is between each two planes, but never at once",
        origin: [-3, 0, 1],
        direction: [1, 1, 0],
        lo: [0, 0, 0],
        hi: [2, 2, 2],
        times: None,
    },
    Case {
        what: "has planes in the wrong order",
        origin: [0, 1, 1],
        direction: [1, 0, 0],
        lo: [3, 0, 0],
        hi: [2, 4, 4],
        times: None,
    },
];

#[test]
fn rays_enter_and_leave_cubes(rt: HostRuntime) {
    for case in CASES {
        let ray = Ray::new(case.origin, case.direction).expect(&rt, "a ray");
        assert_eq!(rt;
            times(&ray, &cube(case.lo, case.hi)),
            case.times,
            "a ray that {}",
            case.what
        );
    }
}

/// The origin's and the direction's x and y of a ray whose z is 0, and the times in the widest cube.
type FarCase = ([i64; 2], [i64; 2], Option<Stay>);

#[test]
fn far_rays_enter_and_leave_the_widest_cube(rt: HostRuntime) {
    const FAR: i64 = 1 << 40;
    const FAST: i64 = 1 << 30;
    const CASES: &[FarCase] = &[
        (
            [-FAR, 0],
            [1, 0],
            Some((((1 << 40) - (1 << 33), 1), ((1 << 40) + (1 << 33), 1))),
        ),
        ([FAR, FAR], [-FAST, -FAST], Some(((1016, 1), (1032, 1)))),
        (
            [FAR, FAR],
            [1 - FAST, 1 - FAST],
            Some(((127 << 33, 1_073_741_823), (43 << 33, 357_913_941))),
        ),
        ([FAR, -FAR], [-1, FAST], None),
        ([FAR, FAR], [FAST, -FAST], None),
    ];
    for ([x, y], [u, v], expected) in CASES {
        let ray = Ray::new([*x, *y, 0], [*u, *v, 0]).expect(&rt, "a ray");
        assert_eq!(rt;
            times(&ray, &widest_cube()),
            *expected,
            "from {x} {y} by {u} {v}"
        );
    }
}

/// The cube whose planes have the greatest sizes.
fn widest_cube() -> Cube
    ensures { HasPlanes result }
{
    const EDGE: i64 = 1 << 33;
    Cube {
        lo: [-EDGE; 3],
        hi: [EDGE; 3],
    }
}

fn cube(lo: [i32; 3], hi: [i32; 3]) -> Cube
    ensures { HasPlanes result }
{
    Cube {
        lo: planes(lo),
        hi: planes(hi),
    }
}

fn planes(across: [i32; 3]) -> [i64; 3]
    ensures { All (λ plane. unsigned_abs plane ≤ 2 ^ 33) result }
{
    let [x, y, z] = across;
    [i64::from(x), i64::from(y), i64::from(z)]
}

/// When a ray enters and leaves a cube.
fn times(ray: &Ray, cube: &Cube) -> Option<Stay>
    requires { HasPlanes cube.now }
{
    let first = entry(ray, cube)?;
    let last = exit(ray, cube)?;
    Some(((first.n, first.m), (last.n, last.m)))
}
