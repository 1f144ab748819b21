//! Triangles spilled to a scratch in memory, and read back.

ghost use Rattle.std.specs.Prelude.{◌≡◌, ◌^◌, ◌<◌, ◌≤◌, [], ◌∷◌, None, length, OnOk, IfSome};
ghost use Rattle.tri_partition.specs.Laws.{IsPartitioned};

use dev_traits::{Failed, MemScratch, PartFail, Scratch};
use room_plan::Parcel;
use svo_base::{Grid, Point, Triangle};
use tri_partition::{PartReader, Partition};

const NO_PARCEL: Parcel = Parcel {
    corners: [0; 9],
    face: 0,
    part: 0,
};

/// Splits, corners of a triangle, and the parts that it reaches, one bit a part, in the grid from 0
/// with four cells of side 1 along each axis.
const REACHED: &[(u32, [i32; 9], u64)] = &[
    // The middle of the grid is a corner of all eight parts.
    (1, [2, 2, 2, 2, 2, 2, 2, 2, 2], 0xff),
    // One unit off a plane is one side of it.
    (1, [1, 1, 1, 1, 1, 1, 1, 1, 1], 0x01),
    (1, [3, 1, 1, 3, 1, 1, 3, 1, 1], 0x02),
    (1, [1, 2, 3, 1, 2, 3, 1, 2, 3], 0x50),
    // The box of a triangle reaches a part that the triangle does not.
    (1, [0, 0, 0, 3, 0, 0, 0, 3, 0], 0x0f),
    // The grid's own planes belong to it, and what lies outside does not.
    (1, [4, 4, 4, 9, 9, 9, 9, 9, 9], 0x80),
    (1, [5, 0, 0, 9, 0, 0, 9, 9, 0], 0x00),
    (1, [-1, 0, 0, -2, 0, 0, -9, 4, 4], 0x00),
    (
        1,
        [
            -2147483648,
            -2147483648,
            -2147483648,
            2147483647,
            2147483647,
            2147483647,
            0,
            0,
            0,
        ],
        0xff,
    ),
    (0, [2, 2, 2, 3, 3, 3, 2, 2, 2], 0x01),
    (2, [1, 1, 1, 1, 1, 1, 1, 1, 1], 0xff),
    (2, [4, 4, 4, 4, 4, 4, 4, 4, 4], 0x8000_0000_0000_0000),
    (2, [0, 0, 0, 4, 0, 0, 0, 0, 0], 0x0000_0000_0000_0303),
];

/// The triangle with these coordinates.
fn triangle_of(corners: &[i32; 9]) -> Triangle {
    let [ax, ay, az, bx, by, bz, cx, cy, cz] = *corners;
    Triangle {
        a: Point {
            x: ax,
            y: ay,
            z: az,
        },
        b: Point {
            x: bx,
            y: by,
            z: bz,
        },
        c: Point {
            x: cx,
            y: cy,
            z: cz,
        },
    }
}

/// Spills triangles of the face 5.
fn spill<S: Scratch>(
    grid: &Grid,
    split: u32,
    pool: &mut [Parcel],
    triangles: &[[i32; 9]],
    scratch: &mut S,
) -> Result<(), Failed>
    requires split { split ≤ 2 }
    requires depth { split ≤ grid.now.depth }
    requires pool { 0 < length pool.old }
    requires streams { 64 < S.started scratch.old }
    ensures started { S.started scratch.new ≡ S.started scratch.old }
{
    let mut partition = Partition::new(*grid, split, pool);
    for corners in triangles {
        partition.add(&triangle_of(corners), 5, scratch)?;
    }
    partition.flush(scratch)
}

/// Which of 64 parts have one parcel, one bit a part.
fn filled_parts<S: Scratch>(scratch: &mut S) -> Result<u64, Failed>
    requires { 64 < S.started scratch.old }
{
    let mut filled = 0;
    for part in 0..64_u32 {
        if scratch.length(1 + part)? == 40 {
            filled |= 1 << part;
        }
    }
    Ok(filled)
}

/// Spills two triangles and reads the first parcel of a part. By how much the streams have grown
/// follows from the partition's contract.
fn spill_two<S: Scratch>(
    grid: Grid,
    split: u32,
    pool: &mut [Parcel],
    first: &Triangle,
    second: &Triangle,
    block: &mut [u8],
    scratch: &mut S,
) -> Result<Option<Parcel>, Failed>
    requires split { split ≤ 4 }
    requires depth { split ≤ grid.depth }
    requires pool { 0 < length pool.old }
    requires block { 40 ≤ length block.old }
    requires streams { 8 ^ split < S.started scratch.old }
    ensures parts { OnOk result (IfSome (S.told scratch.old) (λ before. IfSome (S.told scratch.new) (λ after. IsPartitioned grid split (record { triangle = first.now; face = 0 } ∷ record { triangle = second.now; face = 1 } ∷ []) before after))) }
{
    let mut partition = Partition::new(grid, split, pool);
    partition.add(first, 0, scratch)?;
    partition.add(second, 1, scratch)?;
    partition.flush(scratch)?;
    let mut reader = PartReader::new(0, block);
    let parcel = reader.next(scratch)?;
    Ok(parcel)
}

#[test]
fn triangles_go_to_the_parts_that_their_boxes_reach(rt: HostRuntime) {
    let grid = Grid::new(2, [0, 0, 0], 1).expect(&rt, "a grid");
    let mut pool = [NO_PARCEL; 9];
    for &(split, corners, parts) in REACHED {
        assert!(rt; split <= 2 && split <= grid.depth(), "a level of the grid");
        for places in 1..4_usize {
            let mut scratch = MemScratch::new(rt.alloc(), 65, 40, &[]).expect(&rt, "memory");
            assert_eq!(rt; scratch.start("", 65), Ok(()), "start");
            assert_eq!(rt;
                spill(&grid, split, &mut pool[..places], &[corners], &mut scratch),
                Ok(()),
                "spilled"
            );
            assert_eq!(rt;
                filled_parts(&mut scratch),
                Ok(parts),
                "parts, with {places} places"
            );
        }
    }
}

/// A triangle in part 0, and one in part 3, of eight.
const APART: &[[i32; 9]; 2] = &[[0, 0, 0, 1, 0, 0, 0, 1, 0], [3, 3, 1, 3, 3, 0, 3, 4, 0]];

#[test]
fn parcels_of_a_part_are_appended_together(rt: HostRuntime) {
    const CASES: &[(usize, usize, u64)] = &[
        (64, 64, 1),
        (65, 100, 2),
        (64, 1, 64),
        (65, 64, 2),
        (0, 9, 0),
    ];
    let grid = Grid::new(2, [0, 0, 0], 1).expect(&rt, "a grid");
    let mut pool = [NO_PARCEL; 100];
    let triangles = [APART[0]; 65];
    for &(count, places, appends) in CASES {
        assert!(rt;
            count <= 65 && 0 < places && places <= 100,
            "rows within the arrays"
        );
        let mut scratch = MemScratch::new(rt.alloc(), 65, 2600, &[]).expect(&rt, "memory");
        assert_eq!(rt; scratch.start("", 65), Ok(()), "start");
        assert_eq!(rt;
            spill(
                &grid,
                1,
                &mut pool[..places],
                &triangles[..count],
                &mut scratch
            ),
            Ok(()),
            "spilled"
        );
        assert_eq!(rt;
            scratch.calls(),
            1 + appends,
            "appends of {count} with {places} places"
        );
    }
}

#[test]
fn a_refused_append_is_answered(rt: HostRuntime) {
    let grid = Grid::new(2, [0, 0, 0], 1).expect(&rt, "a grid");
    let mut pool = [NO_PARCEL; 3];
    // A start, and an append for each of the eight parts around the middle.
    for call in 2..12 {
        let fails = [PartFail { call, taken: 7 }];
        let mut scratch = MemScratch::new(rt.alloc(), 65, 40, &fails).expect(&rt, "memory");
        assert_eq!(rt; scratch.start("", 65), Ok(()), "start");
        let spilled = spill(&grid, 1, &mut pool, &[[2; 9]], &mut scratch);
        assert_eq!(rt; spilled.is_ok(), 9 < call, "where call {call} is refused");
        assert_eq!(rt; scratch.fault_count() == 0, 9 < call, "faults");
    }
}

#[test]
fn parcels_are_read_back(rt: HostRuntime) {
    let grid = Grid::new(2, [0, 0, 0], 1).expect(&rt, "a grid");
    let mut pool = [NO_PARCEL; 4];
    let mut block = [0; 40];
    let mut scratch = MemScratch::new(rt.alloc(), 9, 80, &[]).expect(&rt, "memory");
    assert_eq!(rt; scratch.start("", 9), Ok(()), "start");
    assert!(rt; 1 <= grid.depth(), "a level of the grid");
    let read = spill_two(
        grid,
        1,
        &mut pool,
        &triangle_of(&[-3, 300, 3, 70000, 3, 4, 3, -4, 3]),
        &triangle_of(&[0, 0, 0, -1, 0, 0, 1, 70000, -65537]),
        &mut block,
        &mut scratch,
    );
    let parcel = read.expect(&rt, "no fault").expect(&rt, "a parcel");
    assert_eq!(rt;
        parcel.corners,
        [0, 0, 0, -1, 0, 0, 1, 70000, -65537],
        "corners"
    );
    assert_eq!(rt; (parcel.face, parcel.part), (1, 0), "face and part");
}
