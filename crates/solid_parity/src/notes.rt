//! What a triangle leaves in the slots of a part's columns: one slot a column is turned.

ghost use Rattle.std.specs.Prelude.{◌≡◌, ℕ, ◌-◌, ◌^◌, ◌<◌, ◌≤◌, true, false, length};
ghost use Rattle.bit_grid.specs.Touched.{AreTouched};
ghost use Rattle.solid_parity.specs.Counts.{AddsCounts, AreKept, OthersStay, notes, row_notes, column_notes};
ghost use Rattle.solid_parity.specs.Notes.{IsNoted, is_highest};
ghost use Rattle.solid_parity.specs.PartCells.{part_side};
ghost use Rattle.solid_parity.specs.Spans.{AreAcross};

use crate::columns::PartColumns;
use crate::prepared::Shape;
use bit_grid::{TouchedBlocks, set, turn_touched};
use morton_code::encode;
use svo_base::{Bounds, Triangle};
use tri_partition::PartRange;

/// How many marks a row of columns has.
pub const ROW_MARKS: u64 = 512;

/// How many words of marks a part has: one mark for each of its columns.
pub const MARK_WORDS: usize = 4096;

/// Turns the slot of the highest cell of a column that the triangle is over, if there is one, and
/// answers whether there is. The slots are those of the part's cells, in Morton order.
pub fn note_column(
    columns: &PartColumns,
    shape: &Shape,
    x: u32,
    y: u32,
    slots: &mut [u32],
    blocks: &mut TouchedBlocks,
) -> bool
    requires x { x < part_side columns.now.grid columns.now.split }
    requires y { y < part_side columns.now.grid columns.now.split }
    requires slots { 8 ^ (columns.now.grid.depth - columns.now.split) ≤ length slots.old }
    requires touched { AreTouched slots.old blocks.old }
    ensures noted { IsNoted columns.now shape.now x y slots.old slots.new }
    ensures counted { AddsCounts (part_side columns.now.grid columns.now.split) (column_notes columns.now shape.now x y) slots.old slots.new }
    ensures others { OthersStay (part_side columns.now.grid columns.now.split) x y slots.old slots.new }
    ensures none { result ≡ false → slots.new ≡ slots.old }
    ensures some { result ≡ true → (z : ℕ) × (z < part_side columns.now.grid columns.now.split) × (is_highest columns.now shape.now x y z ≡ true) }
    ensures touched { AreTouched slots.new blocks.new }
{
    let count = columns.number_under(shape, x, y);
    if count == 0 {
        return false;
    }
    turn_touched(slots, blocks, encode(x, y, count - 1));
    true
}

/// The same, where columns with a turned slot are marked.
fn mark_column(
    columns: &PartColumns,
    shape: &Shape,
    x: u32,
    y: u32,
    slots: &mut [u32],
    blocks: &mut TouchedBlocks,
    marks: &mut [u64],
)
    requires x { x < part_side columns.now.grid columns.now.split }
    requires y { y < part_side columns.now.grid columns.now.split }
    requires kept { AreKept columns.now slots.old blocks.old marks.old }
    ensures counted { AddsCounts (part_side columns.now.grid columns.now.split) (column_notes columns.now shape.now x y) slots.old slots.new }
    ensures kept { AreKept columns.now slots.new blocks.new marks.new }
{
    if note_column(columns, shape, x, y, slots, blocks) {
        set(marks, ROW_MARKS * u64::from(y) + u64::from(x));
    }
}

/// Notes a triangle in the columns of a row that it may cover.
fn note_row(
    columns: &PartColumns,
    shape: &Shape,
    xs: &PartRange,
    y: u32,
    slots: &mut [u32],
    blocks: &mut TouchedBlocks,
    marks: &mut [u64],
)
    requires xs { AreAcross columns.now shape.now xs.now }
    requires y { y < part_side columns.now.grid columns.now.split }
    requires kept { AreKept columns.now slots.old blocks.old marks.old }
    ensures counted { AddsCounts (part_side columns.now.grid columns.now.split) (row_notes columns.now shape.now y) slots.old slots.new }
    ensures kept { AreKept columns.now slots.new blocks.new marks.new }
{
    for x in xs.from..xs.to {
        mark_column(columns, shape, x, y, slots, blocks, marks);
    }
}

/// Notes a triangle in the columns that it covers: of each one the slot of the highest cell that it is
/// over is turned. Only columns are asked whose centres lie in the triangle's box.
pub fn note_triangle(
    columns: &PartColumns,
    triangle: &Triangle,
    slots: &mut [u32],
    blocks: &mut TouchedBlocks,
    marks: &mut [u64],
)
    requires kept { AreKept columns.now slots.old blocks.old marks.old }
    ensures counted { AddsCounts (part_side columns.now.grid columns.now.split) (notes columns.now triangle.now) slots.old slots.new }
    ensures kept { AreKept columns.now slots.new blocks.new marks.new }
{
    let bounds = Bounds::of_triangle(triangle);
    let xs = columns.xs(&bounds.x);
    let ys = columns.ys(&bounds.y);
    let shape = Shape::new(triangle);
    for y in ys.from..ys.to {
        note_row(columns, &shape, &xs, y, slots, blocks, marks);
    }
}
