//! Parcels read back from a scratch in memory, as what fills a part would read them.

ghost use Rattle.std.specs.Prelude.{◌≡◌, ◌<◌, ◌≤◌, None, length, IfOk, OnOk};
ghost use Rattle.tri_partition.specs.PartStreams.{HasStream};

use dev_traits::{Failed, MemScratch, PartFail, Scratch};
use tri_partition::PartReader;

/// What was read of a part.
#[derive(Clone, Copy, Debug, PartialEq, Eq)]
struct Seen {
    count: u64,
    last_face: u32,
    last_corner: i32,
}

/// Reads all parcels of a part.
fn see<S: Scratch>(scratch: &mut S, part: u32, block: &mut [u8]) -> Result<Seen, Failed>
    requires stream { HasStream (S.started scratch.old) part }
    requires block { 40 ≤ length block.old }
    ensures told { S.told scratch.new ≡ S.told scratch.old }
{
    let mut reader = PartReader::new(part, block);
    let mut seen = Seen {
        count: 0,
        last_face: 0,
        last_corner: 0,
    };
    while let Some(parcel) = reader.next(scratch)? {
        seen = Seen {
            count: seen.count.saturating_add(1),
            last_face: parcel.face,
            last_corner: parcel.corners[8],
        };
    }
    Ok(seen)
}

/// Fills the stream of part 1 with so many parcels, whose last coordinate is -2, and five more bytes.
fn fill<S: Scratch>(scratch: &mut S, parcels: u8) -> Result<(), Failed>
    requires { S.asked scratch.old ≡ None }
    ensures { OnOk result (S.started scratch.new ≡ 3) }
{
    scratch.start("", 3)?;
    let mut piece = [0; 40];
    piece[32] = 254;
    piece[33] = 255;
    piece[34] = 255;
    piece[35] = 255;
    for face in 0..parcels {
        piece[36] = face;
        scratch.append(2, &piece)?;
    }
    scratch.append(2, &[1; 5])?;
    Ok(())
}

/// Fills the stream, and reads it.
fn there_and_back<S: Scratch>(
    scratch: &mut S,
    parcels: u8,
    block: &mut [u8],
) -> Result<Seen, Failed>
    requires asked { S.asked scratch.old ≡ None }
    requires block { 40 ≤ length block.old }
{
    fill(scratch, parcels)?;
    let seen = see(scratch, 1, block)?;
    Ok(seen)
}

#[test]
fn parcels_are_read_in_whole_blocks(rt: HostRuntime) {
    const CASES: &[(usize, u64)] = &[(40, 101), (80, 51), (119, 51), (4096, 1)];
    let mut block = [0; 4096];
    for &(size, reads) in CASES {
        let mut scratch = MemScratch::new(rt.alloc(), 3, 5000, &[]).expect(&rt, "memory");
        let seen = there_and_back(&mut scratch, 101, &mut block[..size]);
        assert_eq!(rt;
            seen,
            Ok(Seen {
                count: 101,
                last_face: 100,
                last_corner: -2,
            }),
            "through {size} bytes"
        );
        // One start, 102 appends, a length before each read and one more at the end.
        assert_eq!(rt;
            scratch.calls(),
            104 + 2 * reads,
            "calls through {size} bytes"
        );
    }
}

#[test]
fn five_bytes_are_no_parcel(rt: HostRuntime) {
    let mut block = [0; 40];
    let mut scratch = MemScratch::new(rt.alloc(), 3, 5000, &[]).expect(&rt, "memory");
    let seen = there_and_back(&mut scratch, 0, &mut block).expect(&rt, "no fault");
    assert_eq!(rt; seen.count, 0, "parcels");
}

#[test]
fn a_refused_call_is_answered(rt: HostRuntime) {
    let mut block = [0; 40];
    for call in 1..9 {
        let fails = [PartFail { call, taken: 0 }];
        let mut scratch = MemScratch::new(rt.alloc(), 3, 200, &fails).expect(&rt, "memory");
        let seen = there_and_back(&mut scratch, 1, &mut block);
        assert_eq!(rt; seen.is_ok(), 6 < call, "where call {call} is refused");
    }
}
