//! When a ray is between two planes that are across an axis.

ghost use Rattle.std.specs.Prelude.{◌≡◌, ◌≢◌, ◌^◌, ◌<◌, ◌≤◌, ◌-ℤ◌, ◌<ℤ◌, neg_ℤ, pos, unsigned_abs, slice_index_or};
ghost use Rattle.octree_specs.specs.Meeting.{HasPlanes, low_of, high_of};
ghost use Rattle.ray_fraction.specs.InCube.{IsInAlong};
ghost use Rattle.ray_fraction.specs.RayShape.{IsRay};
ghost use Rattle.ray_fraction.specs.Spans.{AreSameTimes, HasGone, IsDuring};

use crate::fractions::Fraction;
use crate::rays::Ray;
use crate::spans::TimeSpan;
use std::cmp::Ordering;
use svo_base::Cube;

/// How far the lower and the upper plane are from where the ray begins, and how far the ray goes in
/// each unit of time.
#[derive(Clone, Copy)]
struct Approach {
    low: i64,
    high: i64,
    speed: i64,
}

/// When the ray is between the planes across an axis, or on one of them.
pub fn crossing(ray: &Ray, cube: &Cube, axis: usize) -> TimeSpan
    requires axis { axis < 3 }
    requires planes { HasPlanes cube.now }
    ensures times { AreSameTimes (IsDuring result) (IsInAlong axis ray.now cube.now) }
    ensures always { result ≡ TimeSpan.Always → slice_index_or ray.now.direction axis (pos 0) ≡ pos 0 }
    ensures limits { IsRay ray.now }
{
    passage(&approach_along(ray, cube, axis))
}

fn approach_along(ray: &Ray, cube: &Cube, axis: usize) -> Approach
    requires axis { axis < 3 }
    requires planes { HasPlanes cube.now }
    ensures low { result.low ≡ low_of cube.now axis -ℤ slice_index_or ray.now.origin axis (pos 0) }
    ensures high { result.high ≡ high_of cube.now axis -ℤ slice_index_or ray.now.origin axis (pos 0) }
    ensures speed { result.speed ≡ slice_index_or ray.now.direction axis (pos 0) }
    ensures low_in { unsigned_abs result.low ≤ 2 ^ 41 }
    ensures high_in { unsigned_abs result.high ≤ 2 ^ 41 }
    ensures speed_in { unsigned_abs result.speed ≤ 2 ^ 30 }
    ensures limits { IsRay ray.now }
{
    let origin = ray.origin()[axis];
    Approach {
        low: difference(cube.lo[axis], origin),
        high: difference(cube.hi[axis], origin),
        speed: ray.direction()[axis],
    }
}

fn difference(plane: i64, origin: i64) -> i64
    requires plane_in { unsigned_abs plane ≤ 2 ^ 33 }
    requires origin_in { unsigned_abs origin ≤ 2 ^ 40 }
    ensures value { result ≡ plane -ℤ origin }
    ensures within { unsigned_abs result ≤ 2 ^ 41 }
{
    plane - origin
}

/// When what begins at 0 is between the planes.
fn passage(approach: &Approach) -> TimeSpan
    requires low { unsigned_abs approach.now.low ≤ 2 ^ 41 }
    requires high { unsigned_abs approach.now.high ≤ 2 ^ 41 }
    requires speed { unsigned_abs approach.now.speed ≤ 2 ^ 30 }
    ensures times { AreSameTimes (IsDuring result) (HasGone approach.now.low approach.now.high approach.now.speed) }
    ensures always { result ≡ TimeSpan.Always → approach.now.speed ≡ pos 0 }
{
    match approach.speed.cmp(&0) {
        Ordering::Less => forward(&turned(approach)),
        Ordering::Equal => standing(approach),
        Ordering::Greater => forward(approach),
    }
}

/// The same motion as it is seen from the other side.
fn turned(approach: &Approach) -> Approach
    requires low { unsigned_abs approach.now.low ≤ 2 ^ 41 }
    requires high { unsigned_abs approach.now.high ≤ 2 ^ 41 }
    requires speed { unsigned_abs approach.now.speed ≤ 2 ^ 30 }
    ensures low { result.low ≡ neg_ℤ approach.now.high }
    ensures high { result.high ≡ neg_ℤ approach.now.low }
    ensures speed { result.speed ≡ neg_ℤ approach.now.speed }
{
    Approach {
        low: -approach.high,
        high: -approach.low,
        speed: -approach.speed,
    }
}

/// When what stands at 0 is between the planes.
fn standing(approach: &Approach) -> TimeSpan
    requires { approach.now.speed ≡ pos 0 }
    ensures { AreSameTimes (IsDuring result) (HasGone approach.now.low approach.now.high approach.now.speed) }
{
    if approach.low <= 0 && approach.high >= 0 {
        TimeSpan::Always
    } else {
        TimeSpan::Never
    }
}

/// When what goes on from 0 is between the planes: from when it reaches the lower one, or from the
/// start where that plane lies behind, until it reaches the upper one.
fn forward(approach: &Approach) -> TimeSpan
    requires { pos 0 <ℤ approach.now.speed }
    ensures times { AreSameTimes (IsDuring result) (HasGone approach.now.low approach.now.high approach.now.speed) }
    ensures ends { result ≢ TimeSpan.Always }
{
    if approach.high < 0 {
        return TimeSpan::Never;
    }
    let speed = approach.speed.unsigned_abs();
    let from = Fraction {
        n: approach.low.max(0).unsigned_abs(),
        m: speed,
    };
    let until = Fraction {
        n: approach.high.unsigned_abs(),
        m: speed,
    };
    TimeSpan::between(from, until)
}
