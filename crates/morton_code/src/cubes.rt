//! The cubes of nodes.

ghost use Rattle.std.specs.Prelude.{◌≡◌, ◌+◌, ◌*◌, ◌^◌, ◌<◌, ◌≤◌, [], ◌∷◌, All, unsigned_abs};
ghost use Rattle.octree_specs.specs.NodeCube.{side_of, node_cube};
ghost use Rattle.octree_specs.specs.Meeting.{HasPlanes};
ghost use Rattle.morton_code.specs.Cubes.{IsUpright, plane_at};

use crate::codes::decode;
use svo_base::{Cube, Grid};

/// The closed cube of a node: of its level, counted from the root's 0, and of its Morton code.
pub fn cube_of(grid: &Grid, level: u32, code: u64) -> Cube
    requires depth { level ≤ grid.now.depth }
    requires code { code < 8 ^ level }
    ensures cube { result ≡ node_cube grid.now level code }
    ensures planes { HasPlanes result }
    ensures upright { IsUpright result }
{
    let origin = grid.origin();
    let side = side(grid, level);
    let (x, y, z) = decode(code);
    let x = offset(side, x, level);
    let y = offset(side, y, level);
    let z = offset(side, z, level);
    Cube {
        lo: corner(&origin, x, y, z),
        hi: corner(&origin, x + side, y + side, z + side),
    }
}

/// The side of a cube of this level.
fn side(grid: &Grid, level: u32) -> u64
    requires { level ≤ grid.now.depth }
    ensures value { result ≡ side_of grid.now level }
    ensures narrow { result * 2 ^ level ≤ 2 ^ 32 }
{
    (grid.cell() as u64) << (grid.depth() - level)
}

/// How far a node's cube is from the grid's lower corner along an axis.
fn offset(side: u64, coordinate: u32, level: u32) -> u64
    requires coordinate { coordinate < 2 ^ level }
    requires narrow { side * 2 ^ level ≤ 2 ^ 32 }
    ensures value { result ≡ side * coordinate }
    ensures within { result + side ≤ 2 ^ 32 }
{
    side * u64::from(coordinate)
}

/// The corner at these distances from the grid's lower corner.
fn corner(origin: &[i64; 3], x: u64, y: u64, z: u64) -> [i64; 3]
    requires near { All (λ o. unsigned_abs o ≤ 2 ^ 30) origin.now }
    requires x { x ≤ 2 ^ 32 }
    requires y { y ≤ 2 ^ 32 }
    requires z { z ≤ 2 ^ 32 }
    ensures value { result ≡ plane_at origin.now 0 x ∷ plane_at origin.now 1 y ∷ plane_at origin.now 2 z ∷ [] }
    ensures near { All (λ plane. unsigned_abs plane ≤ 2 ^ 33) result }
{
    [
        plane(origin, 0, x),
        plane(origin, 1, y),
        plane(origin, 2, z),
    ]
}

/// The plane at this distance above the grid's lower corner, across an axis.
fn plane(origin: &[i64; 3], axis: usize, offset: u64) -> i64
    requires axis { axis < 3 }
    requires near { All (λ o. unsigned_abs o ≤ 2 ^ 30) origin.now }
    requires within { offset ≤ 2 ^ 32 }
    ensures value { result ≡ plane_at origin.now axis offset }
    ensures near { unsigned_abs result ≤ 2 ^ 33 }
{
    origin[axis] + offset as i64
}
