//! The command `make`: the text of a mesh that is made from a number.

ghost use Rattle.std.specs.Prelude.{◌≡◌, ◌≢◌, ◌<◌, ◌≤◌, ◌++◌, true, false, [], length, take, unsigned_abs, None, IfSome};
ghost use Rattle.dev_traits.specs.Change.{change_of};
ghost use Rattle.dev_traits.specs.Contents.{PutsPiece};
ghost use Rattle.dev_traits.specs.Faults.{HasCause};
ghost use Rattle.mesh_maker.specs.MadeText.{made_text};
ghost use Rattle.svo_top.specs.Causes.{DeviceCause};
ghost use Rattle.svo_top.specs.Endings.{status_of, EndsWhy};
ghost use Rattle.svo_top.specs.Make.{MakeMeans};
ghost use Rattle.svo_top.specs.Ranges.{is_made, range_of_make, RangeIs};

use crate::outcome::{Device, RangeFault, Status};
use crate::reporting::Ending;
use dev_traits::{ByteSink, ByteSource, Failed};
use mesh_maker::MadeMesh;
use svo_words::MakeWords;

/// The most faces along a side.
const MOST_FACES: i64 = 1024;

/// The bytes that are put out at a time.
const BLOCK: usize = 4096;

/// Puts out the text of the mesh of a number, in blocks. It takes no memory.
pub fn make<O: ByteSink>(words: &MakeWords, out: &mut O) -> Ending
    ensures range { RangeIs (range_of_make words.now) (status_of result) }
    ensures ends { EndsWhy result }
    ensures remembers { status_of result ≢ Status.Memory }
    ensures means { MakeMeans words.now (change_of O.written O.faults out.old out.new) (status_of result) }
    ensures write { DeviceCause Device.Write (change_of O.written O.faults out.old out.new) (status_of result) }
{
    let mut mesh = match mesh_of(words.number, words.side) {
        None => return Ending::Stopped(Status::Range(RangeFault::Made)),
        Some(mesh) => mesh,
    };
    match put_mesh(&mut mesh, out) {
        Err(Failed) => Ending::Stopped(Status::Device(Device::Write)),
        Ok(()) => Ending::Answered,
    }
}

/// The mesh of a number from 0 on, with a side of 1 to 1024 faces.
pub fn mesh_of(number: i64, side: i64) -> Option<MadeMesh>
    ensures made { IfSome result (λ mesh. (is_made number side ≡ true) × (mesh ≡ made_text (unsigned_abs number) (unsigned_abs side))) }
    ensures none { result ≡ None → is_made number side ≡ false }
{
    if number >= 0 && (1..=MOST_FACES).contains(&side) {
        Some(MadeMesh::new(number.unsigned_abs(), side.unsigned_abs() as u32))
    } else {
        None
    }
}

/// Puts out all that is left of a mesh.
fn put_mesh<O: ByteSink>(mesh: &mut MadeMesh, out: &mut O) -> Result<(), Failed>
    ensures bytes { PutsPiece (O.written out.old) (O.written out.new) mesh.old result }
    ensures cause { HasCause (O.faults out.old) (O.faults out.new) result }
{
    let mut block = [0; BLOCK];
    loop {
        let count = next_bytes(mesh, &mut block);
        if count == 0 {
            return Ok(());
        }
        out.put(&block[..count])?;
    }
}

/// The next bytes of a mesh, as many as fit into the block; none only at its end.
fn next_bytes(mesh: &mut MadeMesh, block: &mut [u8]) -> usize
    requires { 0 < length block.old }
    ensures size { length block.new ≡ length block.old }
    ensures bound { result ≤ length block.old }
    ensures bytes { mesh.old ≡ take result block.new ++ mesh.new }
    ensures end { result ≡ 0 → mesh.new ≡ [] }
{
    match mesh.read(block) {
        Err(Failed) => unreachable!(),
        Ok(count) => count,
    }
}
