//! The whole build.

ghost use Rattle.std.specs.Prelude.{◌≡◌, ◌+◌, ◌-◌, ◌*◌, ◌^◌, ◌≤◌, ◌<◌, None, Some, Err, IfErr};
ghost use Rattle.dev_traits.specs.Change.{change_of, scratch_change_of};
ghost use Rattle.dev_traits.specs.Faults.{Rose};
ghost use Rattle.dev_traits.specs.Streams.{asked_of};
ghost use Rattle.room_plan.specs.Rooms.{HasRoomOf};
ghost use Rattle.build_core.specs.Meshes.{AreEmpty, IsJob};
ghost use Rattle.build_core.specs.Building.{Builds, StopsInTime, devices_of};
ghost use Rattle.build_core.specs.declared.faults.BuildFault.{BuildFault};

use crate::faults::BuildFault;
use crate::jobs::{Built, Job};
use crate::nodes::write_nodes;
use crate::parts::part_count;
use crate::spilling::spill;
use dev_traits::{ByteSink, ByteSource, Scratch};
use room_plan::Room;
use std::sync::ledger::Ledger;
use svo_base::Steps;

/// Builds the node file, of format 2, of the cells that the triangles of a mesh text meet, each with
/// the least face that meets it. It takes no memory but the room that is lent, whatever the mesh.
///
/// The text is read once, to its end, before anything is put out. Its vertices go to stream 0 of the
/// scratch, and its triangles to the streams of the parts of the grid that their boxes reach; then the
/// parts are filled and put out one after another, in Morton order (Baert, Lagae, Dutré 2013). The
/// scratch is started at `place`.
///
/// At every answer each cell of the file, and its end, took at most a move a level, and each triangle of
/// a part at most one test and eight for each node of the part whose cube it meets; before the text is
/// accepted whole nothing is moved or tested.
///
/// # Errors
///
/// - `Input`: the text is refused, at a place; all bytes before it were read, and nothing was put out.
/// - `ReadFault`: the source refused a read; nothing was put out.
/// - `ScratchFault`: the scratch refused a call; a front of the node file was put out, or nothing.
/// - `WriteFault`: the sink refused a put; a front of the node file was put out.
pub fn build_core<I: ByteSource, S: Scratch, O: ByteSink, L: Ledger, T: Ledger>(
    job: &Job,
    place: &str,
    input: &mut I,
    scratch: &mut S,
    out: &mut O,
    room: &mut Room,
    moves: &mut Steps<L>,
    tests: &mut Steps<T>,
) -> Result<Built, BuildFault>
    requires job { IsJob job.now }
    requires room { HasRoomOf job.now.plan room.old }
    requires unasked { S.asked scratch.old ≡ None }
    ensures builds { Builds job.now (devices_of (change_of I.rest I.faults input.old input.new) (change_of O.written O.faults out.old out.new) (scratch_change_of S.told S.asked S.faults scratch.old scratch.new))
        moves.old moves.new tests.old tests.new result }
    ensures in_time { IfErr result (StopsInTime job.now (devices_of (change_of I.rest I.faults input.old input.new) (change_of O.written O.faults out.old out.new) (scratch_change_of S.told S.asked S.faults scratch.old scratch.new))
        moves.old moves.new tests.old tests.new) }
    ensures asked { S.asked scratch.new ≡ Some (asked_of place.now (1 + 8 ^ job.now.plan.split)) }
    ensures lender { I.lender input.new ≡ I.lender input.old }
    ensures read_later { I.faults input.old ≤ I.faults input.new }
    ensures spill_later { S.faults scratch.old ≤ S.faults scratch.new }
    ensures put_later { O.faults out.old ≤ O.faults out.new }
    ensures read_cause { result ≡ Err BuildFault.ReadFault → Rose (I.faults input.old) (I.faults input.new) }
    ensures spill_cause { result ≡ Err BuildFault.ScratchFault → Rose (S.faults scratch.old) (S.faults scratch.new) }
    ensures put_cause { result ≡ Err BuildFault.WriteFault → Rose (O.faults out.old) (O.faults out.new) }
{
    if scratch
        .start(place, 1 + part_count(job.plan.split))
        .is_err()
    {
        return Err(BuildFault::ScratchFault);
    }
    build_parts(job, input, scratch, out, room, moves, tests)
}

/// The build on a scratch that was started.
fn build_parts<I: ByteSource, S: Scratch, O: ByteSink, L: Ledger, T: Ledger>(
    job: &Job,
    input: &mut I,
    scratch: &mut S,
    out: &mut O,
    room: &mut Room,
    moves: &mut Steps<L>,
    tests: &mut Steps<T>,
) -> Result<Built, BuildFault>
    requires job { IsJob job.now }
    requires room { HasRoomOf job.now.plan room.old }
    requires started { S.started scratch.old ≡ 1 + 8 ^ job.now.plan.split }
    requires empty { AreEmpty (1 + 8 ^ job.now.plan.split) (S.told scratch.old) }
    ensures builds { Builds job.now (devices_of (change_of I.rest I.faults input.old input.new) (change_of O.written O.faults out.old out.new) (scratch_change_of S.told S.asked S.faults scratch.old scratch.new))
        moves.old moves.new tests.old tests.new result }
    ensures in_time { IfErr result (StopsInTime job.now (devices_of (change_of I.rest I.faults input.old input.new) (change_of O.written O.faults out.old out.new) (scratch_change_of S.told S.asked S.faults scratch.old scratch.new))
        moves.old moves.new tests.old tests.new) }
    ensures asked { S.asked scratch.new ≡ S.asked scratch.old }
    ensures lender { I.lender input.new ≡ I.lender input.old }
    ensures read_later { I.faults input.old ≤ I.faults input.new }
    ensures spill_later { S.faults scratch.old ≤ S.faults scratch.new }
    ensures put_later { O.faults out.old ≤ O.faults out.new }
    ensures read_cause { result ≡ Err BuildFault.ReadFault → Rose (I.faults input.old) (I.faults input.new) }
    ensures spill_cause { result ≡ Err BuildFault.ScratchFault → Rose (S.faults scratch.old) (S.faults scratch.new) }
    ensures put_cause { result ≡ Err BuildFault.WriteFault → Rose (O.faults out.old) (O.faults out.new) }
{
    let spilled = spill(
        job,
        input,
        room.block_a.as_mut_slice(),
        room.block_b.as_mut_slice(),
        &mut room.window,
        &mut room.pool,
        scratch,
    )?;
    let totals = write_nodes(
        &spilled.grid,
        job.plan.split,
        room,
        scratch,
        out,
        moves,
        tests,
    )?;
    Ok(Built {
        grid: spilled.grid,
        faces: spilled.taken.faces,
        triangles: spilled.taken.triangles,
        cells: totals.cells,
        records: totals.records,
        parts: u64::from(part_count(job.plan.split)),
    })
}
