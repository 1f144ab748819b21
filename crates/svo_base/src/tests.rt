ghost use Rattle.std.specs.Prelude.{◌≡◌, ◌<◌, ◌≤◌, [], ◌∷◌};
ghost use Rattle.svo_base.specs.declared.grids.TheConstants.{MAX_DEPTH};
ghost use Rattle.svo_base.specs.Boxes.{IsNearPoint, IsFitted};

use crate::{BoundingBox, Grid, GridFault, Point, Steps, Words};
use std::marker::Brand;
use std::sync::ledger::{Blank, Ledger};

#[test]
fn grids_are_refused_at_their_first_broken_limit(rt: HostRuntime) {
    const FAR: i64 = 1 << 30;
    let cases = [
        (0, [FAR + 1, 0, 0], 0, GridFault::Depth),
        (13, [0, 0, 0], 1, GridFault::Depth),
        (1, [0, -FAR - 1, 0], 0, GridFault::Origin),
        (1, [0, 0, FAR], 0, GridFault::Cell),
        (12, [0, 0, 0], (1 << 20) + 1, GridFault::TooWide),
        (1, [0, 0, 0], i64::MAX, GridFault::TooWide),
    ];
    for (depth, origin, cell, fault) in cases {
        assert_eq!(rt;
            Grid::new(depth, origin, cell).err(),
            Some(fault),
            "at depth {depth}, cell {cell}"
        );
    }
    let grid = Grid::new(12, [-FAR, 0, FAR], 1 << 20).expect(&rt, "the widest grid");
    let [x, y, z] = grid.origin();
    assert_eq!(rt;
        (grid.depth(), x, y, z),
        (12, -FAR, 0, FAR),
        "its depth and origin"
    );
    assert_eq!(rt; grid.cell(), 1 << 20, "its cell");
}

/// The grid of a depth around two points.
fn fitted(a: &Point, b: &Point, depth: u32) -> Grid
    requires a { IsNearPoint a.now }
    requires b { IsNearPoint b.now }
    requires some { 1 ≤ depth }
    requires deepest { depth ≤ MAX_DEPTH }
    ensures { IsFitted depth (a.now ∷ b.now ∷ []) result }
{
    let mut bounds = BoundingBox::new();
    bounds.add(a);
    bounds.add(b);
    bounds.grid(depth)
}

#[test]
fn grids_are_fitted_to_points(rt: HostRuntime) {
    const FAR: i32 = 1 << 30;
    let corner = Point { x: 5, y: 0, z: 0 };
    let grid = fitted(&corner, &Point { x: 9, y: 3, z: 0 }, 1);
    let [x, y, z] = grid.origin();
    assert_eq!(rt;
        (x, y, z, grid.cell()),
        (5, 0, 0, 2),
        "four wide, two cells"
    );
    let grid = fitted(&corner, &Point { x: 9, y: -5, z: 0 }, 2);
    let [x, y, z] = grid.origin();
    assert_eq!(rt;
        (x, y, z, grid.cell()),
        (5, -5, 0, 2),
        "five wide, four cells"
    );
    let grid = fitted(&corner, &corner, 12);
    assert_eq!(rt; (grid.depth(), grid.cell()), (12, 1), "one point");
    let low = Point {
        x: -FAR,
        y: -FAR,
        z: -FAR,
    };
    let grid = fitted(&Point { x: FAR, y: 0, z: 0 }, &low, 1);
    let [x, y, z] = grid.origin();
    let far = i64::from(-FAR);
    assert_eq!(rt;
        (x, y, z, grid.cell()),
        (far, far, far, 1 << 30),
        "the farthest points"
    );
    let grid = BoundingBox::new().grid(3);
    let [x, y, z] = grid.origin();
    assert_eq!(rt; (x, y, z, grid.cell()), (0, 0, 0, 1), "no point");
}

#[test]
fn words_are_kept_in_order(rt: HostRuntime) {
    let mut words = Words::new(rt.alloc());
    assert!(rt; words.is_empty(), "no words at first");
    words.push("build").expect(&rt, "memory");
    words.push("--depth").expect(&rt, "memory");
    assert_eq!(rt; words.len(), 2, "two words");
    if words.len() == 2 {
        assert_eq!(rt; words.get(1), "--depth", "the second word");
    }
}

#[test]
fn steps_take_no_room(rt: HostRuntime) {
    count();
    assert_eq!(rt; size_of::<Steps<Brand>>(), 0, "bytes of a counter");
}

fn count() {
    count_one::<Brand>(Blank::new(1));
}

fn count_one<L: Ledger>(blank: Blank)
    requires name { blank.name ≡ L.name }
    requires parts { blank.parts ≡ L.parts }
    requires one { 0 < blank.parts }
{
    let mut steps = Steps::<L>::new(blank);
    steps.tick();
}
