//! The planes of nodes as a ray meets them, carried down from the root.

ghost use Rattle.std.specs.Prelude.{◌≡◌, ℕ, ◌≤◌, ◌<◌, ◌+◌, ◌*◌, ◌^◌, max, pos, unsigned_abs, ◌*ℤ◌, ◌+ℤ◌, ◌-ℤ◌};
ghost use Rattle.std.specs.List.{slice_index_or};
ghost use Rattle.svo_base.specs.GridShape.{IsGrid};
ghost use Rattle.ray_fraction.specs.RayShape.{IsRay};
ghost use Rattle.ray_walk.specs.Octants.{direction_along, falls, turn_of, visited};
ghost use Rattle.ray_walk.specs.Stays.{AreNear, InBox, IsEntry, IsFlight, IsLane, IsPace, IsStay, box_side, moves_along, near_of};
ghost use Rattle.ray_walk.specs.Lanes.{IsNear};

use crate::lanes::Lane;
use case_table::{Cases, octant_orders};
use ray_fraction::Ray;
use svo_base::Grid;

/// A ray over a grid. Its times are whole ticks, of which `scale` are a unit of time. A unit of length
/// along an axis takes `x`, `y` or `z` ticks. `turn` has a bit for each axis along which it goes down.
#[derive(Drop)]
pub struct Flight {
    pub ray: Ray,
    pub grid: Grid,
    pub turn: u64,
    pub orders: Cases<64>,
    pub scale: u128,
    pub x: u64,
    pub y: u64,
    pub z: u64,
}

/// The planes of a node across each axis.
#[derive(Clone, Copy)]
pub struct Stay {
    pub x: Lane,
    pub y: Lane,
    pub z: Lane,
}

impl Flight {
    /// The flight of a ray over a grid.
    pub fn new(ray: &Ray, grid: &Grid) -> Flight
        requires { IsGrid grid.now }
        ensures flight { IsFlight result }
        ensures ray { result.ray ≡ ray.now }
        ensures grid { result.grid ≡ grid.now }
    {
        let x = factor(ray, 0);
        let y = factor(ray, 1);
        let z = factor(ray, 2);
        Flight {
            ray: *ray,
            grid: *grid,
            turn: turn(ray),
            orders: octant_orders(),
            scale: scale(x, y, z),
            x: y * z,
            y: x * z,
            z: x * y,
        }
    }

    /// The planes of the whole grid.
    pub fn root(&self) -> Stay
        requires { IsFlight self.now }
        ensures { IsStay self.now self.now.grid.depth 0 result }
    {
        Stay {
            x: lane(&self.ray, &self.grid, 0, self.x),
            y: lane(&self.ray, &self.grid, 1, self.y),
            z: lane(&self.ray, &self.grid, 2, self.z),
        }
    }

    /// The place of the child that is visited as the k-th.
    pub fn place(&self, k: u64) -> u64
        requires flight { IsFlight self.now }
        requires k { k < 8 }
        ensures place { result ≡ visited self.now.turn k }
        ensures octant { result < 8 }
    {
        let [place, _, _] = self.orders.get((8 * self.turn + k) as usize);
        u64::from(place)
    }

    /// The planes of the child that is visited as the k-th. In the way of the ray it is the farther
    /// half along each axis whose bit k has, whichever way the ray goes.
    pub fn child(&self, stay: &Stay, k: u64) -> Stay
        requires flight { IsFlight self.now }
        requires near { AreNear stay.now }
        requires k { k < 8 }
        ensures near { AreNear result }
        ensures planes { (height node : ℕ) → height < self.now.grid.depth → IsStay self.now (height + 1) node stay.now → IsStay self.now height (8 * node + visited self.now.turn k) result }
    {
        Stay {
            x: stay.x.half(k % 2 == 1),
            y: stay.y.half(k / 2 % 2 == 1),
            z: stay.z.half(k / 4 % 2 == 1),
        }
    }

    /// The ticks at which the ray enters a node, if it does.
    pub fn entry(&self, stay: &Stay) -> Option<u128>
        requires flight { IsFlight self.now }
        requires near { AreNear stay.now }
        ensures { (height node : ℕ) → height ≤ self.now.grid.depth → IsStay self.now height node stay.now → IsEntry (InBox self.now.ray self.now.grid height node) self.now.scale result }
    {
        let ticks = stay.z.after(stay.y.after(stay.x.after(0)));
        if stay.x.allows(ticks) && stay.y.allows(ticks) && stay.z.allows(ticks) {
            Some(ticks)
        } else {
            None
        }
    }
}

/// How far the ray goes along an axis in a unit of time, and 1 where it does not.
fn factor(ray: &Ray, axis: usize) -> u64
    requires { axis < 3 }
    ensures value { result ≡ max (unsigned_abs (direction_along ray.now axis)) 1 }
    ensures some { 1 ≤ result }
    ensures within { result ≤ 2 ^ 30 }
    ensures limits { IsRay ray.now }
{
    ray.direction()[axis].unsigned_abs().max(1)
}

/// The product of three.
fn scale(x: u64, y: u64, z: u64) -> u128
    requires x { x ≤ 2 ^ 30 }
    requires y { y ≤ 2 ^ 30 }
    requires z { z ≤ 2 ^ 30 }
    ensures { result ≡ x * (y * z) }
{
    u128::from(x) * u128::from(y * z)
}

/// A bit for each axis along which the ray goes down.
#[tactic(auto, unfolding(crate::specs::Octants::turn_of))]
fn turn(ray: &Ray) -> u64
    ensures { result ≡ turn_of ray.now }
{
    let [x, y, z] = ray.direction();
    u64::from(x < 0) + 2 * u64::from(y < 0) + 4 * u64::from(z < 0)
}

/// The planes of the whole grid across an axis, along which a unit of length takes `pace` ticks.
fn lane(ray: &Ray, grid: &Grid, axis: usize, pace: u64) -> Lane
    requires axis { axis < 3 }
    requires pace { pace ≤ 2 ^ 60 }
    ensures lane { IsLane ray.now grid.now pace axis grid.now.depth 0 result }
    ensures near { IsNear result }
{
    let near = ticks(pace, way(ray, grid, axis));
    Lane {
        near,
        far: beyond(near, pace, width(grid)),
        moving: is_moving(ray, axis),
    }
}

/// How far ahead the nearer of the grid's two outer planes across an axis is, in the way of the ray.
fn way(ray: &Ray, grid: &Grid, axis: usize) -> i64
    requires { axis < 3 }
    ensures value { result ≡ near_of ray.now grid.now axis grid.now.depth 0 }
    ensures within { unsigned_abs result ≤ 2 ^ 41 }
{
    let origin = ray.origin()[axis];
    if is_falling(ray, axis) {
        difference(origin, upper(grid, axis))
    } else {
        difference(grid.origin()[axis], origin)
    }
}

/// Whether the ray goes down along an axis.
fn is_falling(ray: &Ray, axis: usize) -> bool
    requires { axis < 3 }
    ensures { result ≡ falls ray.now axis }
{
    ray.direction()[axis] < 0
}

/// Whether the ray moves along an axis.
fn is_moving(ray: &Ray, axis: usize) -> bool
    requires { axis < 3 }
    ensures { result ≡ moves_along ray.now axis }
{
    ray.direction()[axis] != 0
}

/// The grid's upper plane across an axis.
fn upper(grid: &Grid, axis: usize) -> i64
    requires { axis < 3 }
    ensures value { result ≡ slice_index_or grid.now.origin axis (pos 0) +ℤ pos (box_side grid.now grid.now.depth) }
    ensures within { unsigned_abs result ≤ 2 ^ 40 }
{
    grid.origin()[axis] + width(grid) as i64
}

/// The grid's width.
fn width(grid: &Grid) -> u64
    ensures value { result ≡ box_side grid.now grid.now.depth }
    ensures within { result ≤ 2 ^ 32 }
{
    (grid.cell() as u64) << grid.depth()
}

fn difference(a: i64, b: i64) -> i64
    requires a { unsigned_abs a ≤ 2 ^ 40 }
    requires b { unsigned_abs b ≤ 2 ^ 40 }
    ensures value { result ≡ a -ℤ b }
    ensures within { unsigned_abs result ≤ 2 ^ 41 }
{
    a - b
}

/// The ticks of a way.
fn ticks(pace: u64, way: i64) -> i128
    requires pace { pace ≤ 2 ^ 60 }
    requires way { unsigned_abs way ≤ 2 ^ 41 }
    ensures value { result ≡ pos pace *ℤ way }
    ensures within { unsigned_abs result ≤ 2 ^ 101 }
{
    i128::from(pace) * i128::from(way)
}

/// The ticks to a plane that lies a grid's width beyond another.
fn beyond(near: i128, pace: u64, width: u64) -> i128
    requires near { unsigned_abs near ≤ 2 ^ 101 }
    requires pace { pace ≤ 2 ^ 60 }
    requires width { width ≤ 2 ^ 32 }
    ensures value { result ≡ near +ℤ pos (pace * width) }
    ensures within { unsigned_abs result ≤ 2 ^ 102 }
{
    near + i128::from(pace) * i128::from(width)
}
