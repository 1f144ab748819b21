//! Points as bytes that wait in a lent block until they are appended.

ghost use Rattle.std.specs.Prelude.{◌≡◌, ◌+◌, ◌<◌, ◌≤◌, ◌++◌, [], length, take, OnOk, IfOk};
ghost use Rattle.dev_traits.specs.Faults.{HasCause};
ghost use Rattle.octree_specs.specs.Parcels.{point_bytes};
ghost use Rattle.vertex_spool.specs.Spooling.{with_waiting};

use byteorder::{ByteOrder, LittleEndian};
use dev_traits::{Failed, Scratch};
use svo_base::Point;

/// The stream that the vertices stand in.
pub const STREAM: u32 = 0;

/// How many bytes a point has: three little-endian numbers of 4 bytes.
pub const POINT_SIZE: usize = 12;

/// A point as bytes.
#[tactic(auto, unfolding(octree_specs::specs::Parcels::point_bytes))]
fn bytes_of(point: &Point) -> [u8; 12]
    ensures { result ≡ point_bytes point.now }
{
    let mut bytes = [0; POINT_SIZE];
    LittleEndian::write_i32_into(&[point.x, point.y, point.z], &mut bytes);
    bytes
}

/// Writes a point behind the bytes that wait, and answers how many wait then.
pub fn write_point(block: &mut [u8], used: usize, point: &Point) -> usize
    requires { used + 12 ≤ length block.old }
    ensures waiting { take result block.new ≡ take used block.old ++ point_bytes point.now }
    ensures result { result ≡ used + 12 }
    ensures room { length block.new ≡ length block.old }
{
    let end = used + POINT_SIZE;
    block[used..end].copy_from_slice(&bytes_of(point));
    end
}

/// Appends the bytes that wait, if there are some.
pub fn append_waiting<S: Scratch>(
    scratch: &mut S,
    block: &mut [u8],
    used: usize,
) -> Result<(), Failed>
    requires stream { 0 < S.started scratch.old }
    requires used { used ≤ length block.old }
    ensures told { OnOk result (S.told scratch.new ≡ with_waiting (S.told scratch.old) (take used block.old)) }
    ensures block { block.new ≡ block.old }
    ensures started { S.started scratch.new ≡ S.started scratch.old }
    ensures asked { S.asked scratch.new ≡ S.asked scratch.old }
    ensures cause { HasCause (S.faults scratch.old) (S.faults scratch.new) result }
{
    if used == 0 {
        return Ok(());
    }
    scratch.append(STREAM, &block[..used])?;
    Ok(())
}

/// Appends the bytes that wait where a further point does not fit behind them. Answers how many bytes
/// wait then.
pub fn make_room<S: Scratch>(
    scratch: &mut S,
    block: &mut [u8],
    used: usize,
) -> Result<usize, Failed>
    requires stream { 0 < S.started scratch.old }
    requires used { used ≤ length block.old }
    requires size { 12 ≤ length block.old }
    ensures told { IfOk result (λ n. with_waiting (S.told scratch.new) (take n block.new) ≡ with_waiting (S.told scratch.old) (take used block.old)) }
    ensures room { IfOk result (λ n. n + 12 ≤ length block.old) }
    ensures block { block.new ≡ block.old }
    ensures started { S.started scratch.new ≡ S.started scratch.old }
    ensures asked { S.asked scratch.new ≡ S.asked scratch.old }
    ensures cause { HasCause (S.faults scratch.old) (S.faults scratch.new) result }
{
    if POINT_SIZE <= block.len() - used {
        return Ok(used);
    }
    append_waiting(scratch, block, used)?;
    Ok(0)
}
