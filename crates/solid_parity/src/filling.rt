//! The slots of a part's solid cells, filled from the part's stream of parcels.

ghost use Rattle.std.specs.Prelude.{◌≡◌, ℕ, ◌-◌, ◌^◌, ◌<◌, ◌≤◌, length, slice_index};
ghost use Rattle.bit_grid.specs.Touched.{AreTouched};
ghost use Rattle.dev_traits.specs.Faults.{HasCause};
ghost use Rattle.tri_partition.specs.PartStreams.{HasStream, corner_at, faced_of};
ghost use Rattle.solid_parity.specs.Counts.{AreKept};
ghost use Rattle.solid_parity.specs.PartCells.{part_side};
ghost use Rattle.solid_parity.specs.SolidParts.{TakesNotes, TakesParities};

use crate::columns::PartColumns;
use crate::notes::{MARK_WORDS, note_triangle};
use crate::settling::settle;
use bit_grid::{TouchedBlocks, clear_slots};
use dev_traits::{Failed, Scratch};
use room_plan::Parcel;
use svo_base::{Grid, Point, Triangle};
use tri_partition::PartReader;

/// Fills the slots of a part from its stream: 1 for each cell that an odd number of the stream's
/// triangles is over, else 0. Slot `place` is that of the part's cell with `place` cells of the part
/// before it in Morton order. A part has at most 512 cells along an axis. Bytes of the stream behind
/// its last whole parcel are left. The block takes as many parcels at a time as it has whole pieces of
/// 40 bytes.
///
/// # Errors
///
/// `Failed`: the scratch refused a call. The slots then say nothing.
pub fn fill_solid_part<S: Scratch>(
    grid: &Grid,
    split: u32,
    part: u32,
    block: &mut [u8],
    slots: &mut [u32],
    scratch: &mut S,
) -> Result<(), Failed>
    requires split { split ≤ grid.now.depth }
    requires part { part < 8 ^ split }
    requires side { part_side grid.now split ≤ 512 }
    requires block { 40 ≤ length block.old }
    requires slots { 8 ^ (grid.now.depth - split) ≤ length slots.old }
    requires stream { HasStream (S.started scratch.old) part }
    ensures filled { TakesParities grid.now split part (S.told scratch.old) result slots.new }
    ensures told { S.told scratch.new ≡ S.told scratch.old }
    ensures started { S.started scratch.new ≡ S.started scratch.old }
    ensures asked { S.asked scratch.new ≡ S.asked scratch.old }
    ensures cause { HasCause (S.faults scratch.old) (S.faults scratch.new) result }
{
    clear_slots(slots);
    let mut blocks = TouchedBlocks::none(slots.len());
    fill_solid_slots(grid, split, part, block, slots, &mut blocks, scratch)
}

/// The same for slots that are empty, where the blocks of slots that are touched are remembered.
///
/// # Errors
///
/// `Failed`: the scratch refused a call. The slots then say nothing.
pub fn fill_solid_slots<S: Scratch>(
    grid: &Grid,
    split: u32,
    part: u32,
    block: &mut [u8],
    slots: &mut [u32],
    blocks: &mut TouchedBlocks,
    scratch: &mut S,
) -> Result<(), Failed>
    requires split { split ≤ grid.now.depth }
    requires part { part < 8 ^ split }
    requires side { part_side grid.now split ≤ 512 }
    requires block { 40 ≤ length block.old }
    requires slots { 8 ^ (grid.now.depth - split) ≤ length slots.old }
    requires empty { (place : ℕ) → slice_index slots.old place ≡ 0 }
    requires touched { AreTouched slots.old blocks.old }
    requires stream { HasStream (S.started scratch.old) part }
    ensures filled { TakesParities grid.now split part (S.told scratch.old) result slots.new }
    ensures touched { AreTouched slots.new blocks.new }
    ensures told { S.told scratch.new ≡ S.told scratch.old }
    ensures started { S.started scratch.new ≡ S.started scratch.old }
    ensures asked { S.asked scratch.new ≡ S.asked scratch.old }
    ensures cause { HasCause (S.faults scratch.old) (S.faults scratch.new) result }
{
    let columns = PartColumns::new(grid, split, part);
    let mut marks = [0; MARK_WORDS];
    note_parcels(&columns, part, block, slots, blocks, &mut marks, scratch)?;
    settle(&columns, slots, blocks, &marks);
    Ok(())
}

/// Notes the triangles of a part's stream in its columns.
fn note_parcels<S: Scratch>(
    columns: &PartColumns,
    part: u32,
    block: &mut [u8],
    slots: &mut [u32],
    blocks: &mut TouchedBlocks,
    marks: &mut [u64],
    scratch: &mut S,
) -> Result<(), Failed>
    requires part { part ≡ columns.now.part }
    requires block { 40 ≤ length block.old }
    requires kept { AreKept columns.now slots.old blocks.old marks.old }
    requires stream { HasStream (S.started scratch.old) part }
    ensures noted { TakesNotes columns.now (S.told scratch.old) result slots.old slots.new }
    ensures kept { AreKept columns.now slots.new blocks.new marks.new }
    ensures told { S.told scratch.new ≡ S.told scratch.old }
    ensures started { S.started scratch.new ≡ S.started scratch.old }
    ensures asked { S.asked scratch.new ≡ S.asked scratch.old }
    ensures cause { HasCause (S.faults scratch.old) (S.faults scratch.new) result }
{
    let mut reader = PartReader::new(part, block);
    let end = reader.stream_length(scratch)?;
    while let Some(parcel) = reader.next_before(end, scratch)? {
        note_triangle(columns, &triangle_of(&parcel), slots, blocks, marks);
    }
    Ok(())
}

/// The triangle of a parcel.
#[tactic(auto, unfolding(tri_partition::specs::PartStreams::faced_of))]
fn triangle_of(parcel: &Parcel) -> Triangle
    ensures { result ≡ (faced_of parcel.now).triangle }
{
    Triangle {
        a: corner(parcel, 0),
        b: corner(parcel, 3),
        c: corner(parcel, 6),
    }
}

/// The corner whose coordinates stand at a place and behind it.
fn corner(parcel: &Parcel, place: usize) -> Point
    requires { place ≤ 6 }
    ensures { result ≡ corner_at parcel.now.corners place }
{
    Point {
        x: parcel.corners[place],
        y: parcel.corners[place + 1],
        z: parcel.corners[place + 2],
    }
}
