//! From what triangles noted in a part's columns to what they are over: one pass down a column.

ghost use Rattle.std.specs.Prelude.{◌≡◌, ◌≢◌, ℕ, ◌-◌, ◌^◌, ◌<◌, ◌≤◌, cond, nat_lt, length, slice_index};
ghost use Rattle.bit_grid.specs.Slots.{turned_slot};
ghost use Rattle.bit_grid.specs.Touched.{AreTouched};
ghost use Rattle.solid_parity.specs.Counts.{AreKept, IsSettled, IsSettledColumn, OthersStay};
ghost use Rattle.solid_parity.specs.PartCells.{part_side};

use crate::columns::PartColumns;
use crate::notes::ROW_MARKS;
use bit_grid::{TouchedBlocks, next_set, turn_touched};
use morton_code::encode;

/// Makes each slot of a marked column as odd as what was noted in it and in those above it. Columns
/// without a mark have no notes.
pub fn settle(columns: &PartColumns, slots: &mut [u32], blocks: &mut TouchedBlocks, marks: &[u64])
    requires kept { AreKept columns.now slots.old blocks.old marks.now }
    ensures settled { IsSettled (part_side columns.now.grid columns.now.split) slots.old slots.new }
    ensures touched { AreTouched slots.new blocks.new }
{
    let mut at = 0;
    while let Some(mark) = next_set(marks, at) {
        let x = (mark % ROW_MARKS) as u32;
        let y = (mark / ROW_MARKS) as u32;
        settle_column(columns, x, y, slots, blocks);
        at = mark + 1;
    }
}

/// Settles one column, from its top down.
fn settle_column(
    columns: &PartColumns,
    x: u32,
    y: u32,
    slots: &mut [u32],
    blocks: &mut TouchedBlocks,
)
    requires x { x < part_side columns.now.grid columns.now.split }
    requires y { y < part_side columns.now.grid columns.now.split }
    requires slots { 8 ^ (columns.now.grid.depth - columns.now.split) ≤ length slots.old }
    requires touched { AreTouched slots.old blocks.old }
    ensures settled { IsSettledColumn (part_side columns.now.grid columns.now.split) x y slots.old slots.new }
    ensures others { OthersStay (part_side columns.now.grid columns.now.split) x y slots.old slots.new }
    ensures touched { AreTouched slots.new blocks.new }
{
    let mut z = columns.side();
    let mut is_odd = false;
    while z > 0 {
        z -= 1;
        is_odd = settle_cell(slots, blocks, encode(x, y, z), is_odd);
    }
}

/// Turns a slot where what stands above it is odd, and answers whether it is odd with that.
fn settle_cell(slots: &mut [u32], blocks: &mut TouchedBlocks, place: u64, is_odd: bool) -> bool
    requires place { place < length slots.old }
    requires touched { AreTouched slots.old blocks.old }
    ensures this { slice_index slots.new place ≡ cond is_odd (turned_slot (slice_index slots.old place)) (slice_index slots.old place) }
    ensures others { (other : ℕ) → other ≢ place → slice_index slots.new other ≡ slice_index slots.old other }
    ensures odd { result ≡ nat_lt 0 (slice_index slots.new place) }
    ensures touched { AreTouched slots.new blocks.new }
{
    if is_odd {
        turn_touched(slots, blocks, place);
    }
    slots[place as usize] > 0
}
