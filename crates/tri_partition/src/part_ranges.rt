//! Which parts of a grid a triangle's box reaches, along one axis at a time.

ghost use Rattle.std.specs.Prelude.{◌≡◌, ℕ, ◌+◌, ◌-◌, ◌*◌, ◌/◌, ◌^◌, ◌<◌, ◌≤◌, min, pos, ℤ, ◌-ℤ◌, ◌+ℤ◌, slice_index_or, unsigned_abs};
ghost use Rattle.std.specs.Int.{int_max};
ghost use Rattle.octree_specs.specs.NodeCube.{side_of, code_of};
ghost use Rattle.tri_partition.specs.PartRanges.{extent_reaches, in_range};

use morton_code::encode;
use svo_base::{Extent, Grid};

/// The parts along an axis from one on to before another.
#[derive(Clone, Copy)]
pub struct PartRange {
    pub from: u32,
    pub to: u32,
}

/// The parts of a level that an extent reaches along an axis; those of the last level are the cells.
/// Where the extent ends on the plane between two parts, it reaches both.
pub fn reached_parts(extent: &Extent, grid: &Grid, split: u32, axis: usize) -> PartRange
    requires split { split ≤ 20 }
    requires depth { split ≤ grid.now.depth }
    requires axis { axis < 3 }
    ensures reached { (part : ℕ) → part < 2 ^ split → in_range result part ≡ extent_reaches grid.now split axis extent.now part }
    ensures to { result.to ≤ 2 ^ split }
{
    let side = side(grid, split);
    let parts = 1 << split;
    // A part is reached from its upper plane on, so from one unit behind the plane before it.
    let from = whole_sides(above(grid, axis, extent.low) - 1, side).min(parts);
    let to = whole_sides(above(grid, axis, extent.high) + side as i64, side).min(parts);
    PartRange {
        from: from as u32,
        to: to as u32,
    }
}

/// The same of the parts of a level that lie under one node of level 4, by the node's place along the
/// axis; they are counted from the first of them on.
pub fn reached_under(extent: &Extent, grid: &Grid, split: u32, axis: usize, node: u32) -> PartRange
    requires deep { 4 ≤ split }
    requires split { split ≤ 8 }
    requires depth { split ≤ grid.now.depth }
    requires axis { axis < 3 }
    requires node { node < 2 ^ 4 }
    ensures reached { (place : ℕ) → place < 2 ^ (split - 4) → in_range result place ≡ extent_reaches grid.now split axis extent.now (node * 2 ^ (split - 4) + place) }
    ensures to { result.to ≤ 2 ^ (split - 4) }
{
    let all = reached_parts(extent, grid, split, axis);
    let parts = 1 << (split - 4);
    let first = node * parts;
    PartRange {
        from: all.from.saturating_sub(first),
        to: all.to.saturating_sub(first).min(parts),
    }
}

/// How far a coordinate lies above the grid's lower corner along an axis.
fn above(grid: &Grid, axis: usize, coordinate: i32) -> i64
    requires { axis < 3 }
    ensures value { result ≡ coordinate -ℤ slice_index_or grid.now.origin axis (pos 0) }
    ensures near { unsigned_abs result ≤ 2 ^ 32 }
{
    i64::from(coordinate) - grid.origin()[axis]
}

/// How many whole sides lie in a distance; none where it is negative.
fn whole_sides(distance: i64, side: u64) -> u64
    requires { 0 < side }
    ensures { result ≡ unsigned_abs (int_max distance (pos 0)) / side }
{
    distance.max(0) as u64 / side
}

/// The side of a part's cube.
fn side(grid: &Grid, split: u32) -> u64
    requires { split ≤ grid.now.depth }
    ensures value { result ≡ side_of grid.now split }
    ensures some { 0 < result }
    ensures narrow { result ≤ 2 ^ 32 }
{
    (grid.cell() as u64) << (grid.depth() - split)
}

/// The part with these coordinates.
pub fn part_at(split: u32, x: u32, y: u32, z: u32) -> u32
    requires split { split ≤ 4 }
    requires x { x < 2 ^ split }
    requires y { y < 2 ^ split }
    requires z { z < 2 ^ split }
    ensures code { result ≡ code_of split x y z }
    ensures below { result < 8 ^ split }
{
    encode(x, y, z) as u32
}
