//! A part filled from its stream, in memory.

ghost use Rattle.std.specs.Prelude.{◌≡◌, ◌<◌};
ghost use Rattle.tri_partition.specs.PartStreams.{HasStream};

use dev_traits::{Failed, MemScratch, PartFail, Scratch};
use morton_scan::fill_part;
use std::marker::Brand;
use std::sync::ledger::{Blank, Ledger};
use svo_base::{Grid, Steps};

/// The point (2,2,2) as a triangle of the greatest face, the same of the face 4, and five bytes more.
const POINTS: &[u8] = &[
    2, 0, 0, 0, 2, 0, 0, 0, 2, 0, 0, 0, 2, 0, 0, 0, 2, 0, 0, 0, 2, 0, 0, 0, 2, 0, 0, 0, 2, 0, 0, 0,
    2, 0, 0, 0, 255, 255, 255, 255, 2, 0, 0, 0, 2, 0, 0, 0, 2, 0, 0, 0, 2, 0, 0, 0, 2, 0, 0, 0, 2,
    0, 0, 0, 2, 0, 0, 0, 2, 0, 0, 0, 2, 0, 0, 0, 4, 0, 0, 0, 9, 9, 9, 9, 9,
];

/// The codes of the eight cells around the point.
const AROUND: &[usize] = &[7, 14, 21, 28, 35, 42, 49, 56];

/// What the cells' slots are where this slot is that of each.
fn around(slot: u32) -> [u32; 64] {
    let mut slots = [0; 64];
    for place in AROUND {
        if *place < 64 {
            slots[*place] = slot;
        }
    }
    slots
}

#[test]
fn a_stream_of_45_bytes_fills_eight_cells(rt: HostRuntime) {
    let mut scratch = MemScratch::new(rt.alloc(), 2, 45, &[]).expect(&rt, "memory");
    assert_eq!(rt; scratch.start("", 2), Ok(()), "start");
    assert_eq!(rt; scratch.append(1, &POINTS[40..]), Ok(()), "a parcel");
    let mut slots = [5; 64];
    assert_eq!(rt; fill_from(&mut scratch, &mut slots), Ok(()), "filled");
    assert_eq!(rt; slots, around(5), "one more than the face");
    assert_eq!(rt; scratch.length(1), Ok(45), "the stream is as before");
}

#[test]
fn the_greatest_face_counts_as_one_less(rt: HostRuntime) {
    let fails = [PartFail { call: 6, taken: 0 }];
    let mut scratch = MemScratch::new(rt.alloc(), 2, 85, &fails).expect(&rt, "memory");
    assert_eq!(rt; scratch.start("", 2), Ok(()), "start");
    assert_eq!(rt; scratch.append(1, &POINTS[..40]), Ok(()), "a parcel");
    let mut slots = [5; 64];
    assert_eq!(rt; fill_from(&mut scratch, &mut slots), Ok(()), "filled");
    assert_eq!(rt; slots, around(u32::MAX), "the greatest slot");
    assert_eq!(rt; fill_from(&mut scratch, &mut slots), Err(Failed), "refused");
    assert_eq!(rt; slots, [0; 64], "those of no parcel");
}

/// Fills the only part of a grid of depth 2.
fn fill_from<S: Scratch>(scratch: &mut S, slots: &mut [u32]) -> Result<(), Failed>
    requires { HasStream (S.started scratch.old) 0 }
    ensures { S.started scratch.new ≡ S.started scratch.old }
{
    fill_counted::<S, Brand>(scratch, slots, Blank::new(1))
}

fn fill_counted<S: Scratch, L: Ledger>(
    scratch: &mut S,
    slots: &mut [u32],
    blank: Blank,
) -> Result<(), Failed>
    requires stream { HasStream (S.started scratch.old) 0 }
    requires name { blank.name ≡ L.name }
    requires parts { blank.parts ≡ L.parts }
    requires one { 0 < blank.parts }
    ensures { S.started scratch.new ≡ S.started scratch.old }
{
    let mut tests = Steps::<L>::new(blank);
    let mut block = [0; 100];
    match Grid::new(2, [0, 0, 0], 1) {
        Ok(grid) if grid.depth() == 2 && slots.len() >= 64 => {
            fill_part(&grid, 0, 0, &mut block, slots, scratch, &mut tests)
        }
        _ => Ok(()),
    }
}
