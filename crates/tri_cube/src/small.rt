//! A small triangle with what an overlap test needs of it, in 64 bits, as it is seen from its first
//! corner.

ghost use Rattle.std.specs.Prelude.{◌≡◌, ◌||◌, pos, true};
ghost use Rattle.tri_cube.specs.Outlines.{area_of, misses_outline};
ghost use Rattle.tri_cube.specs.Prepared.{IsNearForm};
ghost use Rattle.tri_cube.specs.Near.{IsNear, is_small, moved, passes};
ghost use Rattle.tri_cube.specs.Planes.{plane_form};
ghost use Rattle.tri_cube.specs.Views.{outline_x, outline_y, outline_z, seen_x, seen_y, seen_z};

use crate::near::{NearExtents, moved};
use crate::near_outlines::NearOutline;
use crate::near_planes::NearPlane;
use crate::outlines::{seen_x, seen_y, seen_z};
use svo_base::Triangle;

/// The plane of a small triangle, and its outlines.
#[derive(Clone, Copy)]
pub struct NearForm {
    plane: NearPlane,
    x: NearOutline,
    y: NearOutline,
    z: NearOutline,
}

impl NearForm {
    /// The form of a small triangle.
    pub fn new(triangle: &Triangle) -> NearForm
        requires { is_small triangle.now ≡ true }
        ensures { IsNearForm (moved triangle.now) result }
    {
        let near = moved(triangle);
        let plane = NearPlane::new(&near.b, &near.c);
        NearForm {
            plane,
            x: along_x(&near, &plane),
            y: along_y(&near, &plane),
            z: along_z(&near, &plane),
        }
    }

    /// Whether a box is on one side of the plane, or past the triangle as it is seen along some axis.
    #[tactic(auto, unfolding(crate::specs::Near::passes))]
    pub fn misses(&self, extents: &NearExtents) -> bool
        ensures { result ≡ passes (plane_form self.now.plane (pos 0)) self.now.x self.now.y self.now.z extents.now }
    {
        self.plane.misses(extents) || self.is_past_an_edge(extents)
    }

    fn is_past_an_edge(&self, extents: &NearExtents) -> bool
        ensures { result ≡ (misses_outline self.now.x extents.now.y extents.now.z || misses_outline self.now.y extents.now.z extents.now.x || misses_outline self.now.z extents.now.x extents.now.y) }
    {
        self.x.misses(&extents.y(), &extents.z())
            || self.y.misses(&extents.z(), &extents.x())
            || self.z.misses(&extents.x(), &extents.y())
    }
}

/// The outline of a triangle as it is seen along x.
#[tactic(auto, unfolding(crate::specs::Views::outline_x))]
fn along_x(triangle: &Triangle, normal: &NearPlane) -> NearOutline
    requires area { normal.now.x ≡ area_of (seen_x triangle.now.a) (seen_x triangle.now.b) (seen_x triangle.now.c) }
    requires near { IsNear triangle.now }
    ensures { result ≡ outline_x triangle.now }
{
    NearOutline::new(
        &seen_x(&triangle.a),
        &seen_x(&triangle.b),
        &seen_x(&triangle.c),
        &normal.x(),
    )
}

/// The outline of a triangle as it is seen along y.
#[tactic(auto, unfolding(crate::specs::Views::outline_y))]
fn along_y(triangle: &Triangle, normal: &NearPlane) -> NearOutline
    requires area { normal.now.y ≡ area_of (seen_y triangle.now.a) (seen_y triangle.now.b) (seen_y triangle.now.c) }
    requires near { IsNear triangle.now }
    ensures { result ≡ outline_y triangle.now }
{
    NearOutline::new(
        &seen_y(&triangle.a),
        &seen_y(&triangle.b),
        &seen_y(&triangle.c),
        &normal.y(),
    )
}

/// The outline of a triangle as it is seen along z.
#[tactic(auto, unfolding(crate::specs::Views::outline_z))]
fn along_z(triangle: &Triangle, normal: &NearPlane) -> NearOutline
    requires area { normal.now.z ≡ area_of (seen_z triangle.now.a) (seen_z triangle.now.b) (seen_z triangle.now.c) }
    requires near { IsNear triangle.now }
    ensures { result ≡ outline_z triangle.now }
{
    NearOutline::new(
        &seen_z(&triangle.a),
        &seen_z(&triangle.b),
        &seen_z(&triangle.c),
        &normal.z(),
    )
}
