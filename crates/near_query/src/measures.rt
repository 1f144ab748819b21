//! Distances of nodes from a point.

ghost use Rattle.std.specs.Prelude.{◌≡◌, ◌↔◌, true, ℕ, ◌+◌, ◌-◌, ◌*◌, ◌<◌, ◌≤◌, ◌^◌, List, ℤ};
ghost use Rattle.svo_base.specs.GridShape.{GridShape};
ghost use Rattle.octree_specs.specs.Meeting.{HasPlanes};
ghost use Rattle.near_query.specs.Distances.{IsPoint, along, distance_of, distance_to};
ghost use Rattle.near_query.specs.Halves.{AreOctants, AreSmall};

use crate::gaps::{Halves, Interval, square};
use morton_code::cube_of;
use svo_base::{Cube, Grid};

/// A point, and the grid whose cells it is asked for.
#[derive(Clone, Copy)]
pub struct Measure {
    pub grid: Grid,
    pub point: [i64; 3],
}

impl Measure {
    /// The square of the distance from the point to the cube of the whole grid.
    #[tactic(auto, unfolding(crate::specs::Distances::distance_to))]
    pub fn root(&self) -> u128
        requires { IsPoint self.now.point }
        ensures { result ≡ distance_to self.now.point self.now.grid self.now.grid.depth 0 }
    {
        distance(&self.point, &cube_of(&self.grid, 0, 0))
    }

    /// The squares from which those of the distances to a node's children are added up. The node's cube is
    /// taken from its code once, and its children's planes are halved from its own.
    pub fn octants(&self, height: u32, code: u64) -> Octants
        requires point { IsPoint self.now.point }
        requires above { 1 ≤ height }
        requires within { height ≤ self.now.grid.depth }
        requires code { code < 8 ^ (self.now.grid.depth - height) }
        ensures { AreOctants self.now.point self.now.grid (height - 1) code result }
    {
        let cube = cube_of(&self.grid, self.grid.depth() - height, code);
        Octants {
            x: Halves::new(&self.point, &cube, 0),
            y: Halves::new(&self.point, &cube, 1),
            z: Halves::new(&self.point, &cube, 2),
        }
    }
}

/// The squares of the gaps to the halves of a node's cube along each axis.
#[derive(Clone, Copy)]
pub struct Octants {
    pub x: Halves,
    pub y: Halves,
    pub z: Halves,
}

impl Octants {
    /// The square of the distance to the child at a place.
    pub fn distance(&self, place: u64) -> u128
        requires place { place < 8 }
        requires x { AreSmall self.now.x }
        requires y { AreSmall self.now.y }
        requires z { AreSmall self.now.z }
        ensures { (point : List ℤ) (grid : GridShape) (height node : ℕ) → AreOctants point grid height node self.now → result ≡ distance_to point grid height (8 * node + place) }
    {
        self.x.side(place % 2 == 1)
            + self.y.side(place / 2 % 2 == 1)
            + self.z.side(place / 4 % 2 == 1)
    }
}

/// The square of the distance from a point to a closed cube.
#[tactic(auto, unfolding(crate::specs::Distances::distance_of))]
pub fn distance(point: &[i64; 3], cube: &Cube) -> u128
    requires point { IsPoint point.now }
    requires planes { HasPlanes cube.now }
    ensures { result ≡ distance_of point.now cube.now }
{
    square(Interval::across(cube, 0).gap(point, 0))
        + square(Interval::across(cube, 1).gap(point, 1))
        + square(Interval::across(cube, 2).gap(point, 2))
}

/// Whether the components of a point have a size of at most 2^40, as searches ask of it.
pub fn is_in_reach(point: &[i64; 3]) -> bool
    ensures { (result ≡ true) ↔ IsPoint point.now }
{
    point.iter().all(|at| at.unsigned_abs() <= 1 << 40)
}
