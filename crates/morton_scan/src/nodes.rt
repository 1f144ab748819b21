//! The nodes that a walk passes on its way down.

ghost use Rattle.std.specs.Prelude.{◌≡◌, ◌+◌, ◌-◌, ◌*◌, ◌^◌, ◌<◌, ◌≤◌, pos, ◌+ℤ◌, unsigned_abs};
ghost use Rattle.svo_base.specs.GridShape.{IsGrid};
ghost use Rattle.morton_scan.specs.Nodes.{IsNode};

use morton_code::cube_of;
use svo_base::{Cube, Grid};

/// A node: how many levels it stands above the cells, its Morton code, and its cube.
#[derive(Clone, Copy)]
pub struct Node {
    pub height: u32,
    pub code: u64,
    pub cube: Cube,
}

impl Node {
    /// The node of this level and code.
    pub fn new(grid: &Grid, level: u32, code: u64) -> Node
        requires level { level ≤ grid.now.depth }
        requires code { code < 8 ^ level }
        ensures node { IsNode grid.now result }
        ensures height { result.height ≡ grid.now.depth - level }
        ensures code { result.code ≡ code }
    {
        Node {
            height: grid.depth() - level,
            code,
            cube: cube_of(grid, level, code),
        }
    }

    /// The child at this place among its siblings. Its planes are the node's, or lie halfway between
    /// them: they are carried down, and not made from the code.
    pub fn child(&self, grid: &Grid, octant: u64) -> Node
        requires node { IsNode grid.now self.now }
        requires above { 0 < self.now.height }
        requires octant { octant < 8 }
        ensures node { IsNode grid.now result }
        ensures height { result.height + 1 ≡ self.now.height }
        ensures code { result.code ≡ 8 * self.now.code + octant }
    {
        let height = self.height - 1;
        let side = side(grid, height);
        let x = plane(self.cube.lo[0], octant % 2, side);
        let y = plane(self.cube.lo[1], octant / 2 % 2, side);
        let z = plane(self.cube.lo[2], octant / 4 % 2, side);
        Node {
            height,
            code: 8 * self.code + octant,
            cube: Cube {
                lo: [x, y, z],
                hi: [plane(x, 1, side), plane(y, 1, side), plane(z, 1, side)],
            },
        }
    }
}

/// The side of a cube that stands so many levels above the cells.
pub fn side(grid: &Grid, height: u32) -> u64
    requires { height ≤ grid.now.depth }
    ensures value { result ≡ grid.now.cell * 2 ^ height }
    ensures narrow { result ≤ 2 ^ 32 }
    ensures limits { IsGrid grid.now }
{
    (grid.cell() as u64) << height
}

/// The plane that lies a number of sides above another: none or one.
pub fn plane(low: i64, sides: u64, side: u64) -> i64
    requires near { unsigned_abs low ≤ 2 ^ 34 }
    requires sides { sides < 2 }
    requires narrow { side ≤ 2 ^ 32 }
    ensures value { result ≡ low +ℤ pos (side * sides) }
    ensures near { unsigned_abs result ≤ unsigned_abs low + 2 ^ 32 }
{
    if sides == 0 { low } else { low + side as i64 }
}
