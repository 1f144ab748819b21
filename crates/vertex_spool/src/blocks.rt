//! Blocks of points, read from the stream.

ghost use Rattle.std.specs.Prelude.{◌≡◌, ◌+◌, ◌*◌, ◌/◌, ◌%◌, ◌^◌, ◌<◌, ◌≤◌, ◌↔◌, ℕ, pos, length, slice_index_or, IsTrue, IfOk, IfSome};
ghost use Rattle.dev_traits.specs.Faults.{HasCause};
ghost use Rattle.dev_traits.specs.Streams.{stream_of};
ghost use Rattle.room_plan.specs.Coordinates.{coordinate_at};
ghost use Rattle.vertex_spool.specs.Window.{IsBlockOf, AreBlocksOf, point_in};
ghost use Rattle.room_plan.specs.declared.elements.VertexBlock.{VertexBlock};

use crate::waiting::{POINT_SIZE, STREAM};
use byteorder::{ByteOrder, LittleEndian};
use dev_traits::{Failed, Scratch};
use room_plan::VertexBlock;
use svo_base::Point;

/// How many points a full block has.
pub const BLOCK_POINTS: u32 = 63;

/// How many bytes a full block has on scratch.
const BLOCK_SIZE: usize = 756;

/// The point of a block at a place.
pub fn point_of(block: &VertexBlock, place: u32) -> Point
    requires { place < 63 }
    ensures { result ≡ point_in block.now place }
{
    let at = 3 * place as usize;
    Point {
        x: block.numbers[at],
        y: block.numbers[at + 1],
        z: block.numbers[at + 2],
    }
}

/// The block whose points these bytes stand for.
fn block_from(number: u64, count: u32, bytes: &[u8]) -> VertexBlock
    requires count { count ≤ 63 }
    requires bytes { length bytes.now ≡ 12 * count }
    ensures number { result.number ≡ number }
    ensures count { result.count ≡ count }
    ensures numbers { (k : ℕ) → k < 3 * count → slice_index_or result.numbers k (pos 0) ≡ coordinate_at bytes.now k }
{
    let mut numbers = [0; 189];
    LittleEndian::read_i32_into(bytes, &mut numbers[..3 * count as usize]);
    VertexBlock {
        number,
        count,
        numbers,
    }
}

/// Reads so many points of the block with a number, in one read.
pub fn read_block<S: Scratch>(
    scratch: &mut S,
    number: u64,
    count: u32,
) -> Result<VertexBlock, Failed>
    requires stream { 0 < S.started scratch.old }
    requires number { number < 2 ^ 32 }
    requires count { count ≤ 63 }
    requires there { IfSome (S.told scratch.old) (λ streams. 756 * number + 12 * count ≤ length (stream_of streams 0)) }
    ensures number { IfOk result (λ block. block.number ≡ number) }
    ensures count { IfOk result (λ block. block.count ≡ count) }
    ensures block { IfSome (S.told scratch.old) (λ streams. IfOk result (IsBlockOf (stream_of streams 0))) }
    ensures told { S.told scratch.new ≡ S.told scratch.old }
    ensures started { S.started scratch.new ≡ S.started scratch.old }
    ensures asked { S.asked scratch.new ≡ S.asked scratch.old }
    ensures cause { HasCause (S.faults scratch.old) (S.faults scratch.new) result }
{
    let mut bytes = [0; BLOCK_SIZE];
    let bytes = &mut bytes[..POINT_SIZE * count as usize];
    scratch.read_at(STREAM, BLOCK_SIZE as u64 * number, bytes)?;
    Ok(block_from(number, count, bytes))
}

/// Takes all points from the blocks of a window.
pub fn forget(window: &mut [VertexBlock])
    ensures none { (slot : ℕ) (empty : VertexBlock) → slot < length window.new → (slice_index_or window.new slot empty).count ≡ 0 }
    ensures length { length window.new ≡ length window.old }
{
    for slot in 0..window.len() {
        window[slot].count = 0;
    }
}

/// Whether a block is the one with this number, and has a point at this place.
fn has_point(block: &VertexBlock, number: u64, place: u32) -> bool
    ensures { IsTrue result ↔ ((block.now.number ≡ number) × (place < block.now.count)) }
{
    block.number == number && place < block.count
}

/// Has the block of a point in its slot of the window, read if need be, and answers the slot.
pub fn load<S: Scratch>(
    scratch: &mut S,
    window: &mut [VertexBlock],
    count: u64,
    index: u32,
) -> Result<usize, Failed>
    requires stream { 0 < S.started scratch.old }
    requires window { 0 < length window.old }
    requires index { index < count }
    requires long { IfSome (S.told scratch.old) (λ streams. length (stream_of streams 0) ≡ 12 * count) }
    requires kept { IfSome (S.told scratch.old) (λ streams. AreBlocksOf (stream_of streams 0) window.old) }
    ensures kept { IfSome (S.told scratch.old) (λ streams. AreBlocksOf (stream_of streams 0) window.new) }
    ensures slot { IfOk result (λ slot. slot < length window.new) }
    ensures block { IfOk result (λ slot. (empty : VertexBlock) → ((slice_index_or window.new slot empty).number ≡ index / 63) × (index % 63 < (slice_index_or window.new slot empty).count)) }
    ensures length { length window.new ≡ length window.old }
    ensures told { S.told scratch.new ≡ S.told scratch.old }
    ensures started { S.started scratch.new ≡ S.started scratch.old }
    ensures asked { S.asked scratch.new ≡ S.asked scratch.old }
    ensures cause { HasCause (S.faults scratch.old) (S.faults scratch.new) result }
{
    let number = index / BLOCK_POINTS;
    let slot = (u64::from(number) % window.len() as u64) as usize;
    if has_point(&window[slot], u64::from(number), index % BLOCK_POINTS) {
        return Ok(slot);
    }
    let first = u64::from(number * BLOCK_POINTS);
    let points = (count - first).min(u64::from(BLOCK_POINTS)) as u32;
    window[slot] = read_block(scratch, u64::from(number), points)?;
    Ok(slot)
}
