//! The slots of a part, filled from the part's stream of parcels.

ghost use Rattle.std.specs.Prelude.{◌≡◌, ℕ, Bool, ◌+◌, ◌-◌, ◌*◌, ◌^◌, ◌<◌, ◌≤◌, min, length};
ghost use Rattle.bit_grid.specs.Touched.{AreTouched};
ghost use Rattle.dev_traits.specs.Faults.{HasCause};
ghost use Rattle.octree_specs.specs.Parts.{passing, PassWhereMet};
ghost use Rattle.tri_partition.specs.PartStreams.{HasStream, corner_at, faced_of};
ghost use Rattle.morton_scan.specs.FilledParts.{AddsTriangles, HasSlotsFor, TakesParcels};
ghost use Rattle.morton_scan.specs.Putting.{ArePut, MeetsInPart, first_of_part};

use crate::filling::fill_touched;
use bit_grid::{TouchedBlocks, clear_slots};
use dev_traits::{Failed, Scratch};
use room_plan::Parcel;
use std::sync::ledger::Ledger;
use svo_base::{Grid, Point, Steps, Triangle};
use tri_partition::PartReader;

/// Fills the slots of a part from its stream: 0 for each cell that no triangle of the stream meets,
/// else one more than the least face that does. Slot `place` is that of the part's cell with `place`
/// cells of the part before it in Morton order. The greatest face, 4,294,967,295, counts as
/// 4,294,967,294. Bytes of the stream behind its last whole parcel are left. The block takes as many
/// parcels at a time as it has whole pieces of 40 bytes.
///
/// # Errors
///
/// `Failed`: the scratch refused a call. The slots are then those of the first parcels of the stream.
pub fn fill_part<S: Scratch, L: Ledger>(
    grid: &Grid,
    split: u32,
    part: u32,
    block: &mut [u8],
    slots: &mut [u32],
    scratch: &mut S,
    tests: &mut Steps<L>,
) -> Result<(), Failed>
    requires split { split ≤ grid.now.depth }
    requires part { part < 8 ^ split }
    requires block { 40 ≤ length block.old }
    requires slots { 8 ^ (grid.now.depth - split) ≤ length slots.old }
    requires stream { HasStream (S.started scratch.old) part }
    ensures filled { TakesParcels grid.now split part (S.told scratch.old) tests.old tests.new result (λ parcels. HasSlotsFor grid.now split part parcels slots.new) }
    ensures told { S.told scratch.new ≡ S.told scratch.old }
    ensures started { S.started scratch.new ≡ S.started scratch.old }
    ensures asked { S.asked scratch.new ≡ S.asked scratch.old }
    ensures cause { HasCause (S.faults scratch.old) (S.faults scratch.new) result }
{
    clear_slots(slots);
    let mut blocks = TouchedBlocks::none(slots.len());
    fill_parcels(grid, split, part, block, slots, &mut blocks, scratch, tests)
}

/// Adds the parcels of a part's stream to the slots of the part, where the blocks of slots that were
/// touched are remembered.
pub fn fill_parcels<S: Scratch, L: Ledger>(
    grid: &Grid,
    split: u32,
    part: u32,
    block: &mut [u8],
    slots: &mut [u32],
    blocks: &mut TouchedBlocks,
    scratch: &mut S,
    tests: &mut Steps<L>,
) -> Result<(), Failed>
    requires split { split ≤ grid.now.depth }
    requires part { part < 8 ^ split }
    requires block { 40 ≤ length block.old }
    requires slots { 8 ^ (grid.now.depth - split) ≤ length slots.old }
    requires touched { AreTouched slots.old blocks.old }
    requires stream { HasStream (S.started scratch.old) part }
    ensures filled { TakesParcels grid.now split part (S.told scratch.old) tests.old tests.new result (AddsTriangles grid.now split part slots.old slots.new) }
    ensures touched { AreTouched slots.new blocks.new }
    ensures told { S.told scratch.new ≡ S.told scratch.old }
    ensures started { S.started scratch.new ≡ S.started scratch.old }
    ensures asked { S.asked scratch.new ≡ S.asked scratch.old }
    ensures cause { HasCause (S.faults scratch.old) (S.faults scratch.new) result }
{
    let mut reader = PartReader::new(part, block);
    let end = reader.stream_length(scratch)?;
    while let Some(parcel) = reader.next_before(end, scratch)? {
        fill_parcel(grid, split, part, &parcel, slots, blocks, tests);
    }
    Ok(())
}

/// Puts the face of a parcel into the slots of the cells that its triangle meets.
fn fill_parcel<L: Ledger>(
    grid: &Grid,
    split: u32,
    part: u32,
    parcel: &Parcel,
    slots: &mut [u32],
    blocks: &mut TouchedBlocks,
    tests: &mut Steps<L>,
)
    requires split { split ≤ grid.now.depth }
    requires part { part < 8 ^ split }
    requires slots { 8 ^ (grid.now.depth - split) ≤ length slots.old }
    requires touched { AreTouched slots.old blocks.old }
    ensures slots { ArePut (MeetsInPart grid.now split part (faced_of parcel.now).triangle) (first_of_part grid.now split part) (min (faced_of parcel.now).face (2 ^ 32 - 2)) slots.old slots.new }
    ensures touched { AreTouched slots.new blocks.new }
    ensures tests { (test : ℕ → ℕ → Bool) → PassWhereMet grid.now (faced_of parcel.now).triangle test → tests.new ≤ tests.old + 1 + 8 * passing test (grid.now.depth - split) part }
{
    let triangle = triangle_of(parcel);
    let face = limited_face(parcel);
    fill_touched(grid, split, part, &triangle, face, slots, blocks, tests);
}

/// The face of a parcel, as far as a slot keeps it.
#[tactic(auto, unfolding(tri_partition::specs::PartStreams::faced_of))]
fn limited_face(parcel: &Parcel) -> u32
    ensures { result ≡ min (faced_of parcel.now).face (2 ^ 32 - 2) }
{
    parcel.face.min(u32::MAX - 1)
}

/// The triangle of a parcel.
#[tactic(auto, unfolding(tri_partition::specs::PartStreams::faced_of))]
fn triangle_of(parcel: &Parcel) -> Triangle
    ensures { result ≡ (faced_of parcel.now).triangle }
{
    Triangle {
        a: point_at(parcel, 0),
        b: point_at(parcel, 3),
        c: point_at(parcel, 6),
    }
}

/// The point whose coordinates stand at a place and behind it.
fn point_at(parcel: &Parcel, place: usize) -> Point
    requires { place ≤ 6 }
    ensures { result ≡ corner_at parcel.now.corners place }
{
    Point {
        x: parcel.corners[place],
        y: parcel.corners[place + 1],
        z: parcel.corners[place + 2],
    }
}
