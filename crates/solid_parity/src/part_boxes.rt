//! Which parts need a triangle for their solid cells.

ghost use Rattle.std.specs.Prelude.{◌≡◌, ℕ, ◌^◌, ◌<◌, ◌≤◌, int_le, pos, slice_index_or};
ghost use Rattle.tri_partition.specs.PartRanges.{in_range, plane_of};
ghost use Rattle.solid_parity.specs.ColumnParts.{AreColumnParts};

use svo_base::{Bounds, Extent, Grid, Triangle};
use tri_partition::{PartRange, reached_parts};

/// A box of parts.
#[derive(Clone, Copy)]
pub struct PartBox {
    pub x: PartRange,
    pub y: PartRange,
    pub z: PartRange,
}

/// The parts that need a triangle for their solid cells: those that its box reaches, and those below
/// them.
pub fn column_parts(grid: &Grid, split: u32, triangle: &Triangle) -> PartBox
    requires split { split ≤ 4 }
    requires depth { split ≤ grid.now.depth }
    ensures { AreColumnParts grid.now split triangle.now result }
{
    let bounds = Bounds::of_triangle(triangle);
    PartBox {
        x: reached_parts(&bounds.x, grid, split, 0),
        y: reached_parts(&bounds.y, grid, split, 1),
        z: parts_up_to(&bounds.z, grid, split),
    }
}

/// The parts along z whose lower planes are not above an extent.
fn parts_up_to(extent: &Extent, grid: &Grid, split: u32) -> PartRange
    requires split { split ≤ 4 }
    requires depth { split ≤ grid.now.depth }
    ensures reached { (part : ℕ) → part < 2 ^ split → in_range result part ≡ int_le (plane_of grid.now split 2 part) extent.now.high }
    ensures to { result.to ≤ 2 ^ split }
{
    let below = Extent {
        low: lowest(grid),
        high: extent.high,
    };
    reached_parts(&below, grid, split, 2)
}

/// The lowest plane of a grid.
fn lowest(grid: &Grid) -> i32
    ensures { result ≡ slice_index_or grid.now.origin 2 (pos 0) }
{
    grid.origin()[2] as i32
}
