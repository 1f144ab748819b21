//! The command `sum`: the counts of the octree of a made mesh.

ghost use Rattle.std.specs.Prelude.{◌≡◌, ◌≤◌, ◌+◌, ◌++◌, length, None, Ok, IfOk, decimal};
ghost use Rattle.arrayvec.specs.ArrayString.{array_string_len};
ghost use Rattle.build_core.specs.Meshes.{IsJob};
ghost use Rattle.dev_traits.specs.Change.{change_of, scratch_change_of};
ghost use Rattle.room_plan.specs.Rooms.{HasRoomOf};
ghost use Rattle.svo_top.specs.Causes.{DeviceCause};
ghost use Rattle.svo_top.specs.Endings.{status_of};
ghost use Rattle.svo_top.specs.Ranges.{build_words, range_of_sum, sum_job_from, RangeIs, job_from};
ghost use Rattle.svo_top.specs.Sum.{BuildsMade, EndsSum, SumMeans, sum_line, text_of_sum};

use crate::building::build_in;
use crate::jobs::{choice_of, planned_job};
use crate::making::mesh_of;
use crate::nowhere::Nowhere;
use crate::outcome::{Device, RangeFault, Status};
use crate::reporting::Ending;
use arrayvec::ArrayString;
use build_core::{Built, Job};
use dev_traits::{ByteSink, Failed, Scratch};
use itoa::Buffer;
use mesh_maker::MadeMesh;
use room_plan::Room;
use std::alloc::{AllocError, Global};
use svo_words::SumWords;

/// The side of a cell: as far apart as the vertices of a made mesh.
const CELL: i64 = 16;

/// A line; the longest has 145 bytes.
type SumLine = ArrayString<152>;

/// Builds the octree of a made mesh into nowhere, and puts out the counts of the mesh and of the octree,
/// in one line. All memory is asked for before anything else is done.
pub fn sum<O: ByteSink, S: Scratch>(
    alloc: Global,
    words: &SumWords,
    out: &mut O,
    scratch: &mut S,
) -> Ending
    requires unasked { S.asked scratch.old ≡ None }
    ensures range { RangeIs (range_of_sum words.now) (status_of result) }
    ensures ends { EndsSum result }
    ensures means { SumMeans words.now
        (change_of O.written O.faults out.old out.new)
        (scratch_change_of S.told S.asked S.faults scratch.old scratch.new) (status_of result) }
    ensures write { DeviceCause Device.Write (change_of O.written O.faults out.old out.new) (status_of result) }
    ensures scratch { DeviceCause Device.Scratch (change_of S.told S.faults scratch.old scratch.new) (status_of result) }
{
    let mut mesh = match mesh_of(words.number, words.side) {
        None => return Ending::Stopped(Status::Range(RangeFault::Made)),
        Some(mesh) => mesh,
    };
    let job = match sum_job(words) {
        Err(fault) => return Ending::Stopped(Status::Range(fault)),
        Ok(job) => job,
    };
    let mut room = match Room::make(alloc, &job.plan) {
        Err(AllocError) => return Ending::Stopped(Status::Memory),
        Ok(room) => room,
    };
    let built = match build_made(&job, words, &mut mesh, scratch, &mut room) {
        Err(Failed) => return Ending::Stopped(Status::Device(Device::Scratch)),
        Ok(built) => built,
    };
    match out.put(sum_line(&built).as_str().as_bytes()) {
        Err(Failed) => Ending::Stopped(Status::Device(Device::Write)),
        Ok(()) => Ending::Answered,
    }
}

/// The job of the words, or the first range that one of their numbers is out of: the depth comes before
/// the memory.
#[tactic(auto, unfolding(crate::specs::Ranges::job_from))]
fn sum_job(words: &SumWords) -> Result<Job, RangeFault>
    ensures job { result ≡ job_from (build_words words.now) }
    ensures is { IfOk result IsJob }
{
    match choice_of(words.depth, &Some([0, 0, 0]), &Some(CELL)) {
        Err(fault) => Err(RangeFault::Grid(fault)),
        Ok(grid) => planned_job(grid, 0, false, words.memory),
    }
}

/// Builds the made mesh of the words into nowhere. Its text is accepted, and neither it nor the sink
/// fails, so that it is refused only where the scratch counted a fault.
fn build_made<S: Scratch>(
    job: &Job,
    words: &SumWords,
    mesh: &mut MadeMesh,
    scratch: &mut S,
    room: &mut Room,
) -> Result<Built, Failed>
    requires named { sum_job_from words.now ≡ Ok job.now }
    requires text { mesh.old ≡ text_of_sum words.now }
    requires job { IsJob job.now }
    requires room { HasRoomOf job.now.plan room.old }
    requires unasked { S.asked scratch.old ≡ None }
    ensures { BuildsMade words.now job.now (scratch_change_of S.told S.asked S.faults scratch.old scratch.new) result }
{
    match build_in(job, &words.scratch, mesh, &mut Nowhere, scratch, room) {
        Ok(built) => Ok(built),
        // Nothing else fails.
        Err(_) => Err(Failed),
    }
}

/// The line of a sum.
#[tactic(auto, unfolding(crate::specs::Sum::sum_line))]
fn sum_line(built: &Built) -> SumLine
    ensures { result.bytes ≡ sum_line built.now.faces built.now.triangles built.now.parts built.now.cells built.now.records }
{
    let mut line = SumLine::new();
    push_count(&mut line, "faces ", built.faces);
    push_count(&mut line, " triangles ", built.triangles);
    push_count(&mut line, " parts ", built.parts);
    push_count(&mut line, " cells ", built.cells);
    push_count(&mut line, " records ", built.records);
    line.push_str("\n");
    line
}

/// Adds what is counted, and the count in digits.
fn push_count(line: &mut SumLine, front: &str, count: u64)
    requires { array_string_len line.old + length front.now + 20 ≤ 152 }
    ensures text { line.new.bytes ≡ line.old.bytes ++ front.now ++ decimal count }
    ensures length { array_string_len line.new ≤ array_string_len line.old + length front.now + 20 }
{
    let mut buffer = Buffer::new();
    line.push_str(front);
    line.push_str(buffer.format(count));
}
