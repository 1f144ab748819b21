//! The command `build`: a mesh in, a node file out.

ghost use Rattle.std.specs.Prelude.{◌≡◌, ◌<◌, None, Some};
ghost use Rattle.dev_traits.specs.Change.{change_of, scratch_change_of};
ghost use Rattle.dev_traits.specs.Streams.{asked_of};
ghost use Rattle.build_core.specs.Meshes.{IsJob};
ghost use Rattle.room_plan.specs.Rooms.{HasRoomOf};
ghost use Rattle.svo_top.specs.CoreRuns.{BuildsJob, BuildsAscii};
ghost use Rattle.svo_top.specs.Causes.{DeviceCause};
ghost use Rattle.svo_top.specs.Endings.{status_of, ending_of, BuildEnds};
ghost use Rattle.svo_top.specs.Ranges.{RangeIs, job_from, range_of_build};

use crate::jobs::job_from;
use crate::outcome::{Device, InputKind, Status};
use crate::reporting::{Counts, Ending};
use build_core::{BuildFault, Built, Job, build_core};
use dev_traits::{ByteSink, ByteSource, Scratch};
use ply_binary::{AsciiReading, AsciiSource, HeldInput, Start};
use room_plan::Room;
use std::alloc::{AllocError, Global};
use std::marker::Brand;
use std::sync::ledger::{Blank, Ledger};
use svo_base::Steps;
use svo_words::{BuildWords, Text};

/// Builds the octree of the mesh on `input`, in ASCII or binary little-endian PLY, and puts its node file out, in the memory that the words
/// allow. All of it is asked for before anything is read. The mesh is read to its end and accepted
/// before anything is put out.
pub fn build<I: ByteSource, O: ByteSink, S: Scratch>(
    alloc: Global,
    words: &BuildWords,
    input: &mut I,
    out: &mut O,
    scratch: &mut S,
) -> Ending
    requires unasked { S.asked scratch.old ≡ None }
    ensures range { RangeIs (range_of_build words.now) (status_of result) }
    ensures ends { BuildEnds words.now
        (change_of I.rest I.faults input.old input.new)
        (change_of O.written O.faults out.old out.new)
        (scratch_change_of S.told S.asked S.faults scratch.old scratch.new) result }
    ensures read { DeviceCause Device.Read (change_of I.rest I.faults input.old input.new) (status_of result) }
    ensures write { DeviceCause Device.Write (change_of O.written O.faults out.old out.new) (status_of result) }
    ensures scratch { DeviceCause Device.Scratch (change_of S.told S.faults scratch.old scratch.new) (status_of result) }
{
    let job = match job_from(words) {
        Err(fault) => return Ending::Stopped(Status::Range(fault)),
        Ok(job) => job,
    };
    let mut room = match Room::make(alloc, &job.plan) {
        Err(AllocError) => return Ending::Stopped(Status::Memory),
        Ok(room) => room,
    };
    let place = &words.scratch;
    ending_of(build_text::<I, O, S, Brand>(&job, place, input, out, scratch, &mut room))
}

/// Builds the mesh of an input that is read as ASCII, and that told at the start what `T` tells.
fn build_text<I: ByteSource, O: ByteSink, S: Scratch, T: Start>(
    job: &Job,
    place: &Text,
    input: &mut I,
    out: &mut O,
    scratch: &mut S,
    room: &mut Room,
) -> Result<Built, BuildFault>
    requires start { T.told ≡ I.rest input.old }
    requires job { IsJob job.now }
    requires room { HasRoomOf job.now.plan room.old }
    requires unasked { S.asked scratch.old ≡ None }
    ensures { BuildsAscii job.now place.now
        (change_of I.rest I.faults input.old input.new)
        (change_of O.written O.faults out.old out.new)
        (scratch_change_of S.told S.asked S.faults scratch.old scratch.new) result }
{
    let source = AsciiSource::new(HeldInput::new(input));
    let mut text = AsciiReading::<I, T>::new(source);
    build_in(job, place, &mut text, out, scratch, room)
}

/// Builds in a room, with a counter of moves and one of tests of its own.
pub fn build_in<I: ByteSource, O: ByteSink, S: Scratch>(
    job: &Job,
    place: &Text,
    input: &mut I,
    out: &mut O,
    scratch: &mut S,
    room: &mut Room,
) -> Result<Built, BuildFault>
    requires job { IsJob job.now }
    requires room { HasRoomOf job.now.plan room.old }
    requires unasked { S.asked scratch.old ≡ None }
    ensures builds { BuildsJob job.now place.now
        (change_of I.rest I.faults input.old input.new)
        (change_of O.written O.faults out.old out.new)
        (scratch_change_of S.told S.asked S.faults scratch.old scratch.new) result }
    ensures lender { I.lender input.new ≡ I.lender input.old }
{
    let moves = Blank::new(1);
    let tests = Blank::new(1);
    build_counted::<I, O, S, Brand, Brand>(job, place, input, out, scratch, room, moves, tests)
}

/// The same, with the counters in the ledgers that the blanks are for.
fn build_counted<I: ByteSource, O: ByteSink, S: Scratch, L: Ledger, T: Ledger>(
    job: &Job,
    place: &Text,
    input: &mut I,
    out: &mut O,
    scratch: &mut S,
    room: &mut Room,
    moves: Blank,
    tests: Blank,
) -> Result<Built, BuildFault>
    requires moves_name { moves.name ≡ L.name }
    requires moves_parts { moves.parts ≡ L.parts }
    requires moves_one { 0 < moves.parts }
    requires tests_name { tests.name ≡ T.name }
    requires tests_parts { tests.parts ≡ T.parts }
    requires tests_one { 0 < tests.parts }
    requires job { IsJob job.now }
    requires room { HasRoomOf job.now.plan room.old }
    requires unasked { S.asked scratch.old ≡ None }
    ensures builds { BuildsJob job.now place.now
        (change_of I.rest I.faults input.old input.new)
        (change_of O.written O.faults out.old out.new)
        (scratch_change_of S.told S.asked S.faults scratch.old scratch.new) result }
    ensures lender { I.lender input.new ≡ I.lender input.old }
{
    let mut moves = Steps::<L>::new(moves);
    let mut tests = Steps::<T>::new(tests);
    let place = place.as_str();
    build_core(
        job, place, input, scratch, out, room, &mut moves, &mut tests,
    )
}

/// How a build ends.
fn ending_of(answer: Result<Built, BuildFault>) -> Ending
    ensures { result ≡ ending_of answer }
{
    match answer {
        Ok(built) => Ending::Built(Counts {
            cells: built.cells,
            records: built.records,
            parts: built.parts,
        }),
        Err(BuildFault::Input { kind, place }) => Ending::Stopped(Status::Input {
            kind: InputKind::Ply(kind),
            place,
        }),
        Err(BuildFault::ReadFault) => Ending::Stopped(Status::Device(Device::Read)),
        Err(BuildFault::ScratchFault) => Ending::Stopped(Status::Device(Device::Scratch)),
        Err(BuildFault::WriteFault) => Ending::Stopped(Status::Device(Device::Write)),
    }
}
