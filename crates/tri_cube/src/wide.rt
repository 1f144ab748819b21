//! A triangle with what an overlap test needs of it, in 128 bits: its plane, and its outlines as it is
//! seen along each axis.

ghost use Rattle.std.specs.Prelude.{◌≡◌, ◌||◌};
ghost use Rattle.tri_cube.specs.Outlines.{area_of, misses_outline};
ghost use Rattle.tri_cube.specs.Prepared.{IsWide};
ghost use Rattle.tri_cube.specs.Near.{passes};
ghost use Rattle.tri_cube.specs.Views.{outline_x, outline_y, outline_z, seen_x, seen_y, seen_z};

use crate::extents::Extents;
use crate::outlines::{Outline, seen_x, seen_y, seen_z};
use crate::planes::{Plane, normal};
use svo_base::{Triangle, Vector};

/// The plane of a triangle of any size, and its outlines.
#[derive(Clone, Copy)]
pub struct WideForm {
    plane: Plane,
    x: Outline,
    y: Outline,
    z: Outline,
}

impl WideForm {
    /// The form of a triangle.
    pub fn new(triangle: &Triangle) -> WideForm
        ensures { IsWide triangle.now result }
    {
        let normal = normal(triangle);
        WideForm {
            plane: Plane::new(&normal, &triangle.a),
            x: along_x(triangle, &normal),
            y: along_y(triangle, &normal),
            z: along_z(triangle, &normal),
        }
    }

    /// Whether a box is on one side of the plane, or past the triangle as it is seen along some axis.
    #[tactic(auto, unfolding(crate::specs::Near::passes))]
    pub fn misses(&self, extents: &Extents) -> bool
        ensures { result ≡ passes self.now.plane self.now.x self.now.y self.now.z extents.now }
    {
        self.plane.misses(extents) || self.is_past_an_edge(extents)
    }

    fn is_past_an_edge(&self, extents: &Extents) -> bool
        ensures { result ≡ (misses_outline self.now.x extents.now.y extents.now.z || misses_outline self.now.y extents.now.z extents.now.x || misses_outline self.now.z extents.now.x extents.now.y) }
    {
        self.x.misses(&extents.y, &extents.z)
            || self.y.misses(&extents.z, &extents.x)
            || self.z.misses(&extents.x, &extents.y)
    }
}

/// The outline of a triangle as it is seen along x.
#[tactic(auto, unfolding(crate::specs::Views::outline_x))]
fn along_x(triangle: &Triangle, normal: &Vector) -> Outline
    requires { normal.now.x ≡ area_of (seen_x triangle.now.a) (seen_x triangle.now.b) (seen_x triangle.now.c) }
    ensures { result ≡ outline_x triangle.now }
{
    Outline::new(
        &seen_x(&triangle.a),
        &seen_x(&triangle.b),
        &seen_x(&triangle.c),
        &normal.x,
    )
}

/// The outline of a triangle as it is seen along y.
#[tactic(auto, unfolding(crate::specs::Views::outline_y))]
fn along_y(triangle: &Triangle, normal: &Vector) -> Outline
    requires { normal.now.y ≡ area_of (seen_y triangle.now.a) (seen_y triangle.now.b) (seen_y triangle.now.c) }
    ensures { result ≡ outline_y triangle.now }
{
    Outline::new(
        &seen_y(&triangle.a),
        &seen_y(&triangle.b),
        &seen_y(&triangle.c),
        &normal.y,
    )
}

/// The outline of a triangle as it is seen along z.
#[tactic(auto, unfolding(crate::specs::Views::outline_z))]
fn along_z(triangle: &Triangle, normal: &Vector) -> Outline
    requires { normal.now.z ≡ area_of (seen_z triangle.now.a) (seen_z triangle.now.b) (seen_z triangle.now.c) }
    ensures { result ≡ outline_z triangle.now }
{
    Outline::new(
        &seen_z(&triangle.a),
        &seen_z(&triangle.b),
        &seen_z(&triangle.c),
        &normal.z,
    )
}
