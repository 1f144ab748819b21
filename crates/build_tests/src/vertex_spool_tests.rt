//! Points on a scratch that tells contracts nothing, against the plain list of points.

ghost use Rattle.std.specs.Prelude.{◌≡◌, ◌<◌, ◌≤◌, None, true, false, length, OnOk};

use dev_traits::{Asking, Failed, Scratch};
use room_plan::VertexBlock;
use std::alloc::Global;
use svo_base::Point;
use vertex_spool::Spool;

/// One stream, whose reads and appends are counted. The call with the number `refused` is refused.
#[derive(Drop)]
struct OneStream {
    bytes: Vec<u8>,
    asked: Option<Asking>,
    started: u32,
    reads: u64,
    appends: u64,
    refused: u64,
    faults: u64,
}

impl OneStream {
    fn new(alloc: Global, refused: u64) -> OneStream
        ensures { result.asked ≡ None }
    {
        OneStream {
            bytes: Vec::new(alloc),
            asked: None,
            started: 0,
            reads: 0,
            appends: 0,
            refused,
            faults: 0,
        }
    }

    /// Whether this call is refused.
    fn is_refused(&self) -> bool {
        self.reads.saturating_add(self.appends) == self.refused
    }
}

impl Scratch for OneStream {
    ghost use Rattle.std.specs.Prelude.{None};

    ghost told = { λ _. None };

    ghost started = { λ s. s.started };

    ghost asked = { λ s. s.asked };

    ghost faults = { λ s. s.faults };

    ghost all_told = { λ _. tt };

    fn start(&mut self, place: &str, streams: u32) -> Result<(), Failed> {
        self.asked = Some(Asking::new(place, streams));
        self.started = streams;
        Ok(())
    }

    fn append(&mut self, _stream: u32, piece: &[u8]) -> Result<(), Failed> {
        self.appends = self.appends.saturating_add(1);
        if self.is_refused() || self.bytes.extend_from_slice(piece).is_err() {
            self.faults = self.faults.saturating_add(1);
            return Err(Failed);
        }
        Ok(())
    }

    fn read_at(&mut self, _stream: u32, at: u64, into: &mut [u8]) -> Result<(), Failed> {
        self.reads = self.reads.saturating_add(1);
        let refused = self.is_refused();
        let bytes = self.bytes.as_slice();
        let at = at as usize;
        if refused || bytes.len() < at || bytes.len() - at < into.len() {
            self.faults = self.faults.saturating_add(1);
            return Err(Failed);
        }
        into.copy_from_slice(&bytes[at..at + into.len()]);
        Ok(())
    }

    fn length(&mut self, _stream: u32) -> Result<u64, Failed> {
        Ok(self.bytes.len() as u64)
    }
}

const EMPTY: VertexBlock = VertexBlock {
    number: 0,
    count: 63,
    numbers: [5; 189],
};

/// The point that is put at an index.
fn made(index: u32) -> Point {
    let x = (index % 1000) as i32 - 500;
    Point { x, y: -x, z: 7 }
}

/// Puts so many points, and closes the spool.
fn put_all(spool: &mut Spool<'_>, scratch: &mut OneStream, count: u32) -> Result<(), Failed>
    requires started { 0 < scratch.old.started }
    requires none { spool.old.count ≡ 0 }
    requires unclosed { spool.old.closed ≡ false }
    requires few { count ≤ 100000 }
    ensures closed { OnOk result (spool.new.closed ≡ true) }
    ensures count { OnOk result (spool.new.count ≡ count) }
    ensures started { scratch.new.started ≡ scratch.old.started }
{
    for index in 0..count {
        spool.put(made(index), scratch)?;
    }
    spool.close(scratch)
}

/// Whether the points of these indices are fetched as they were put.
fn fetch_all(
    spool: &mut Spool<'_>,
    scratch: &mut OneStream,
    count: u32,
    indices: &[u32],
) -> Result<bool, Failed>
    requires started { 0 < scratch.old.started }
    requires count { spool.old.count ≡ count }
    requires closed { spool.old.closed ≡ true }
{
    let mut same = true;
    for index in indices {
        let index = *index;
        if index < count && spool.fetch(index, scratch)? != made(index) {
            same = false;
        }
    }
    Ok(same)
}

/// Puts so many points through a block, and fetches those of these indices.
fn there_and_back(
    scratch: &mut OneStream,
    block: &mut [u8],
    window: &mut [VertexBlock],
    count: u32,
    indices: &[u32],
) -> Result<bool, Failed>
    requires asked { scratch.old.asked ≡ None }
    requires block { 12 ≤ length block.old }
    requires window { 0 < length window.old }
    requires few { count ≤ 100000 }
{
    scratch.start("", 1)?;
    let mut spool = Spool::new(block, window);
    put_all(&mut spool, scratch, count)?;
    fetch_all(&mut spool, scratch, count, indices)
}

#[test]
fn points_are_fetched_with_few_calls(rt: HostRuntime) {
    let mut scratch = OneStream::new(rt.alloc(), 0);
    let mut block = [0; 4096];
    let mut window = [EMPTY; 1];
    let same = there_and_back(&mut scratch, &mut block, &mut window, 64, &[63, 0, 62]);
    assert_eq!(rt;
        same,
        Ok(true),
        "the last point, the first and the last but one"
    );
    assert_eq!(rt;
        (scratch.appends, scratch.reads),
        (1, 2),
        "appends and reads"
    );
}

#[test]
fn windows_of_any_length_give_the_points(rt: HostRuntime) {
    const INDICES: &[u32] = &[0, 199, 63, 126, 62, 125, 188, 0, 64, 199];
    let mut block = [0; 30];
    let mut window = [EMPTY; 5];
    for blocks in 1..6 {
        let mut scratch = OneStream::new(rt.alloc(), 0);
        let same = there_and_back(
            &mut scratch,
            &mut block,
            &mut window[..blocks],
            200,
            INDICES,
        );
        assert_eq!(rt; same, Ok(true), "with {blocks} blocks");
        assert_eq!(rt; scratch.bytes.len(), 2400, "12 bytes a point");
    }
}

#[test]
fn each_refused_call_is_answered(rt: HostRuntime) {
    let mut block = [0; 24];
    let mut window = [EMPTY; 1];
    for refused in 1..7 {
        let mut scratch = OneStream::new(rt.alloc(), refused);
        let same = there_and_back(&mut scratch, &mut block, &mut window, 7, &[6, 0]);
        assert_eq!(rt;
            same.is_ok(),
            5 < refused,
            "where call {refused} is refused"
        );
        assert_eq!(rt; scratch.faults, u64::from(refused < 6), "faults");
    }
}
