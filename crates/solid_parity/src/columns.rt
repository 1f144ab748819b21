//! The columns of a part.

ghost use Rattle.std.specs.Prelude.{◌≡◌, ◌+◌, ◌*◌, ◌^◌, ◌<◌, ◌≤◌, ◌+ℤ◌, ◌*ℤ◌, pos, unsigned_abs};
ghost use Rattle.solid_parity.specs.PartCells.{part_side};
ghost use Rattle.solid_parity.specs.Shapes.{AreUnder};
ghost use Rattle.solid_parity.specs.Spans.{AreReached};

use crate::heights::number_below;
use crate::prepared::Shape;
use crate::seen::Seen;
use crate::spans::reached;
use morton_code::cube_of;
use std::marker::Model;
use svo_base::{Extent, Grid};
use tri_partition::PartRange;

/// The columns of a part, by the centres of its cells in doubled coordinates: those of the lowest
/// cell, the step from one cell to the next along an axis, and how many cells there are along an axis.
#[derive(Drop)]
pub struct PartColumns {
    grid: Grid,
    split: u32,
    part: u32,
    x: i64,
    y: i64,
    z: i64,
    step: u64,
    side: u32,
}

impl Model for PartColumns {
    ghost use Rattle.solid_parity.specs.PartCells.{Part, HasCentres};

    ghost Value = { Part };

    ghost view = { λ c. record { grid = c.grid; split = c.split; part = c.part } };

    ghost invariant = { λ c. HasCentres (record { grid = c.grid; split = c.split; part = c.part }) c.x c.y c.z c.step c.side };
}

impl PartColumns {
    /// The columns of a part of the grid, which is a node of level `split`.
    pub fn new(grid: &Grid, split: u32, part: u32) -> PartColumns
        requires split { split ≤ grid.now.depth }
        requires part { part < 8 ^ split }
        ensures { result ≡ record { grid = grid.now; split = split; part = part } }
    {
        let cube = cube_of(grid, split, u64::from(part));
        let cell = grid.cell();
        PartColumns {
            grid: *grid,
            split,
            part,
            x: first_centre(&cube.lo[0], cell),
            y: first_centre(&cube.lo[1], cell),
            z: first_centre(&cube.lo[2], cell),
            step: 2 * cell as u64,
            side: 1 << (grid.depth() - split),
        }
    }

    /// How many cells the part has along an axis.
    pub fn side(&self) -> u32
        ensures value { result ≡ part_side self.now.grid self.now.split }
        ensures short { result ≤ 2 ^ 12 }
    {
        self.side
    }

    /// The places along x of the columns that an extent reaches: the triangles in it cover no other.
    pub fn xs(&self, extent: &Extent) -> PartRange
        ensures { AreReached self.now 0 extent.now result }
    {
        reached(&self.x, self.step, self.side, extent)
    }

    /// The places along y of such columns.
    pub fn ys(&self, extent: &Extent) -> PartRange
        ensures { AreReached self.now 1 extent.now result }
    {
        reached(&self.y, self.step, self.side, extent)
    }

    /// How many cells of a column the triangle is over. These are the column's lowest ones.
    pub fn number_under(&self, shape: &Shape, x: u32, y: u32) -> u32
        requires x { x < part_side self.now.grid self.now.split }
        requires y { y < part_side self.now.grid self.now.split }
        ensures under { AreUnder self.now shape.now x y result }
        ensures short { part_side self.now.grid self.now.split ≤ 2 ^ 12 }
    {
        let column = Seen {
            x: centre(&self.x, self.step, x),
            y: centre(&self.y, self.step, y),
        };
        if !shape.is_on(&column) {
            return 0;
        }
        let heights = shape.heights(&column, &self.z, self.step);
        number_below(&heights, self.side)
    }
}

/// The centre of the first cell above a plane.
fn first_centre(plane: &i64, cell: i64) -> i64
    requires plane { unsigned_abs plane.now ≤ 2 ^ 33 }
    requires cell { unsigned_abs cell ≤ 2 ^ 32 }
    ensures value { result ≡ (pos 2 *ℤ plane.now) +ℤ cell }
    ensures within { unsigned_abs result ≤ 2 ^ 35 }
{
    2 * *plane + cell
}

/// The centre of a cell along an axis.
fn centre(first: &i64, step: u64, place: u32) -> i64
    requires { unsigned_abs first.now + step * place ≤ 6 * 2 ^ 31 }
    ensures value { result ≡ first.now +ℤ pos (step * place) }
    ensures within { unsigned_abs result ≤ 6 * 2 ^ 31 }
{
    *first + (step * u64::from(place)) as i64
}
