//! The cells under a node that a triangle's box reaches.

ghost use Rattle.std.specs.Prelude.{◌≡◌, ℕ, ◌-◌, ◌*◌, ◌/◌, ◌^◌, ◌<◌, ◌≤◌, true};
ghost use Rattle.svo_base.specs.Boxes.{bounds_of};
ghost use Rattle.svo_base.specs.declared.shapes.Triangle.{Triangle as TriangleShape};
ghost use Rattle.tri_partition.specs.PartRanges.{extent_reaches};
ghost use Rattle.morton_scan.specs.CellBoxes.{HoldsMet, IsBoxUnder, IsInRange, cells_in, places_in};
ghost use Rattle.morton_scan.specs.Nodes.{IsNode};

use crate::nodes::Node;
use morton_code::decode;
use svo_base::{Bounds, Extent, Grid};
use tri_partition::{PartRange, reached_parts};

/// Cells by their places along each axis, counted from the grid's lower corner.
#[derive(Clone, Copy)]
pub struct CellBox {
    pub x: PartRange,
    pub y: PartRange,
    pub z: PartRange,
}

impl CellBox {
    /// The cells under a node that a box reaches.
    pub fn new(grid: &Grid, node: &Node, bounds: &Bounds) -> CellBox
        requires { IsNode grid.now node.now }
        ensures under { IsBoxUnder grid.now node.now result }
        ensures held { (t : TriangleShape) → bounds.now ≡ bounds_of t → HoldsMet grid.now t node.now result }
    {
        let (x, y, z) = decode(node.code);
        CellBox {
            x: reached_cells(&bounds.x, grid, node.height, x, 0),
            y: reached_cells(&bounds.y, grid, node.height, y, 1),
            z: reached_cells(&bounds.z, grid, node.height, z, 2),
        }
    }

    /// How many cells there are.
    pub fn count(&self) -> u64
        requires x { self.now.x.to ≤ 2 ^ 20 }
        requires y { self.now.y.to ≤ 2 ^ 20 }
        requires z { self.now.z.to ≤ 2 ^ 20 }
        ensures { result ≡ cells_in self.now }
    {
        length(&self.z) * (length(&self.y) * length(&self.x))
    }
}

/// How many places a range has.
fn length(range: &PartRange) -> u64
    requires { range.now.to ≤ 2 ^ 20 }
    ensures value { result ≡ places_in range.now }
    ensures within { result ≤ 2 ^ 20 }
{
    u64::from(range.to.saturating_sub(range.from))
}

/// The cells that an extent reaches along an axis, of those under a node of this height and place.
fn reached_cells(extent: &Extent, grid: &Grid, height: u32, place: u32, axis: usize) -> PartRange
    requires height { height ≤ grid.now.depth }
    requires place { place < 2 ^ (grid.now.depth - height) }
    requires axis { axis < 3 }
    ensures to { result.to ≤ 2 ^ grid.now.depth }
    ensures under { (cell : ℕ) → IsInRange result cell → cell / 2 ^ height ≡ place }
    ensures reached { (cell : ℕ) → cell / 2 ^ height ≡ place → extent_reaches grid.now grid.now.depth axis extent.now cell ≡ true → IsInRange result cell }
{
    let reached = reached_parts(extent, grid, grid.depth(), axis);
    let from = place << height;
    PartRange {
        from: reached.from.max(from),
        to: reached.to.min(from + (1 << height)),
    }
}
