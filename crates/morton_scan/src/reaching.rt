//! Which cubes and halves of nodes a box reaches.

ghost use Rattle.std.specs.Prelude.{◌≡◌, ◌<◌};
ghost use Rattle.morton_scan.specs.Reaching.{bounds_reach, bounds_within, extent_reaches, extent_within, halves_of};

use crate::octants::Halves;
use svo_base::{Bounds, Cube, Extent};

/// Whether a box and a closed cube share a point. This is no overlap test, and is not counted.
#[tactic(auto, unfolding(crate::specs::Reaching::bounds_reach))]
pub fn bounds_reach(bounds: &Bounds, cube: &Cube) -> bool
    ensures { result ≡ bounds_reach bounds.now cube.now }
{
    extent_reaches(&bounds.x, cube, 0)
        && extent_reaches(&bounds.y, cube, 1)
        && extent_reaches(&bounds.z, cube, 2)
}

/// Whether an extent and a cube share a point along an axis: neither ends before the other begins.
fn extent_reaches(extent: &Extent, cube: &Cube, axis: usize) -> bool
    requires { axis < 3 }
    ensures { result ≡ extent_reaches extent.now cube.now axis }
{
    i64::from(extent.low) <= cube.hi[axis] && cube.lo[axis] <= i64::from(extent.high)
}

/// Whether a box lies within a closed cube. This is no overlap test, and is not counted.
#[tactic(auto, unfolding(crate::specs::Reaching::bounds_within))]
pub fn bounds_within(bounds: &Bounds, cube: &Cube) -> bool
    ensures { result ≡ bounds_within bounds.now cube.now }
{
    extent_within(&bounds.x, cube, 0)
        && extent_within(&bounds.y, cube, 1)
        && extent_within(&bounds.z, cube, 2)
}

/// Whether an extent lies between the planes of a cube along an axis.
fn extent_within(extent: &Extent, cube: &Cube, axis: usize) -> bool
    requires { axis < 3 }
    ensures { result ≡ extent_within extent.now cube.now axis }
{
    cube.lo[axis] <= i64::from(extent.low) && i64::from(extent.high) <= cube.hi[axis]
}

/// Which halves along an axis an extent reaches of a node whose last child has this cube.
pub fn halves_of(extent: &Extent, last: &Cube, axis: usize) -> Halves
    requires { axis < 3 }
    ensures { result ≡ halves_of extent.now last.now axis }
{
    Halves {
        lower: i64::from(extent.low) <= last.lo[axis],
        upper: last.lo[axis] <= i64::from(extent.high),
    }
}
