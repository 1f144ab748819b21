//! The first and the last time at which a ray is in a cube.

ghost use Rattle.std.specs.Prelude.{◌≡◌};
ghost use Rattle.octree_specs.specs.Meeting.{HasPlanes};
ghost use Rattle.ray_fraction.specs.EndTimes.{IsGreatestTime, IsLeastTime};
ghost use Rattle.ray_fraction.specs.InCube.{InAt};
ghost use Rattle.ray_fraction.specs.Spans.{AreSameTimes, IsDuringSome};

use crate::rays::Ray;
use crate::slabs::crossing;
use crate::spans::{Interval, TimeSpan};
use crate::times::Time;
use svo_base::Cube;

/// The least time from 0 on at which the ray is in the closed cube, or `None` where there is none.
/// Planes of the cube may be at most 2^33 away from 0. A cube with a lower plane above the upper
/// one has no points. The times are those of the slab method of Kay and Kajiya (1986), in whole
/// numbers.
pub fn entry(ray: &Ray, cube: &Cube) -> Option<Time>
    requires { HasPlanes cube.now }
    ensures { IsLeastTime (InAt ray.now cube.now) result }
{
    let times = times_in(ray, cube)?;
    Some(times.from.time())
}

/// The greatest time from 0 on at which the ray is in the closed cube, or `None` where there is
/// none. Planes of the cube may be at most 2^33 away from 0. A cube with a lower plane above the
/// upper one has no points.
pub fn exit(ray: &Ray, cube: &Cube) -> Option<Time>
    requires { HasPlanes cube.now }
    ensures { IsGreatestTime (InAt ray.now cube.now) result }
{
    let times = times_in(ray, cube)?;
    Some(times.until.time())
}

/// The times at which the ray is in the cube.
fn times_in(ray: &Ray, cube: &Cube) -> Option<Interval>
    requires { HasPlanes cube.now }
    ensures { AreSameTimes (IsDuringSome result) (InAt ray.now cube.now) }
{
    let x = crossing(ray, cube, 0);
    let y = crossing(ray, cube, 1);
    let z = crossing(ray, cube, 2);
    match x.meet(&y).meet(&z) {
        TimeSpan::Between(times) => Some(times),
        // A ray moves along some axis, so that it is not always between the planes across it.
        TimeSpan::Never | TimeSpan::Always => None,
    }
}
