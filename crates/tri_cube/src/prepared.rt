//! A triangle that is asked many cubes.

ghost use Rattle.std.specs.Prelude.{◌≡◌, ◌+◌, ◌&&◌, ◌↔◌, IsTrue, false, not};
ghost use Rattle.octree_specs.specs.Meeting.{HasPlanes, Meets};
ghost use Rattle.tri_cube.specs.Boxes.{extents_in_order, extents_miss};
ghost use Rattle.tri_cube.specs.Near.{are_apart, is_passed};
ghost use Rattle.tri_cube.specs.Prepared.{IsForm};
ghost use Rattle.tri_cube.specs.Views.{box_of};

use crate::extents::Extents;
use crate::near::{NearExtents, are_short};
use crate::small::NearForm;
use crate::wide::WideForm;
use std::marker::Model;
use std::sync::ledger::Ledger;
use svo_base::{Cube, Steps, Triangle};

/// A triangle with what an overlap test needs of it: its box, its plane, and its outlines as it is
/// seen along each axis. It is made once, and then asked for many cubes.
#[derive(Drop)]
pub struct PreparedTriangle {
    triangle: Triangle,
    extents: Extents,
    form: Form,
}

/// What is asked of a triangle once its box is reached: a small one in 64 bits, any other in 128.
#[derive(Clone, Copy)]
enum Form {
    Near(NearForm),
    Wide(WideForm),
}

impl Form {
    #[tactic(auto, unfolding(crate::specs::Near::is_small))]
    fn new(triangle: &Triangle, bounds: &Extents) -> Form
        requires { bounds.now ≡ box_of triangle.now }
        ensures { IsForm triangle.now result }
    {
        if are_short(bounds) {
            Form::Near(NearForm::new(triangle))
        } else {
            Form::Wide(WideForm::new(triangle))
        }
    }
}

impl Model for PreparedTriangle {
    ghost use Rattle.svo_base.specs.declared.shapes.Triangle.{Triangle};

    ghost Value = { Triangle };

    ghost use Rattle.tri_cube.specs.Prepared.{IsPrepared};

    ghost view = { λ p. p.triangle };

    ghost invariant = { IsPrepared };
}

impl PreparedTriangle {
    /// Prepares a triangle.
    pub fn new(triangle: &Triangle) -> PreparedTriangle
        ensures { result ≡ triangle.now }
    {
        let extents = Extents::of_triangle(triangle);
        PreparedTriangle {
            triangle: *triangle,
            extents,
            form: Form::new(triangle, &extents),
        }
    }

    /// Whether the closed triangle and a closed cube share a point, which is counted as one test.
    /// Planes of the cube may be at most 2^33 away from 0; between planes in the wrong order there is
    /// no point.
    #[tactic(auto, using(crate::proofs::Clipping::met_where_not_apart))]
    pub fn overlaps<L: Ledger>(&self, cube: &Cube, tests: &mut Steps<L>) -> bool
        requires { HasPlanes cube.now }
        ensures meets { IsTrue result ↔ Meets self.now cube.now }
        ensures tests { tests.new ≡ tests.old + 1 }
    {
        tests.tick();
        self.share_point(&Extents::of_cube(cube))
    }

    /// Whether the triangle and a box share a point. That the box has a point at all is asked last,
    /// since it is seldom in doubt.
    fn share_point(&self, extents: &Extents) -> bool
        ensures { result ≡ (not (are_apart self.now extents.now) && extents_in_order extents.now) }
    {
        !self.is_apart(extents) && extents.are_in_order()
    }

    /// Whether an axis of the box, of the triangle's plane or of an edge is seen to separate the two.
    #[tactic(auto, unfolding(crate::specs::Near::are_apart))]
    fn is_apart(&self, extents: &Extents) -> bool
        ensures { result ≡ are_apart self.now extents.now }
    {
        if self.extents.miss(extents) {
            return true;
        }
        self.is_beside(extents)
    }

    fn is_beside(&self, extents: &Extents) -> bool
        requires { extents_miss (box_of self.now) extents.now ≡ false }
        ensures { result ≡ is_passed self.now extents.now }
    {
        match &self.form {
            Form::Near(form) => {
                form.misses(&NearExtents::new(&self.triangle, &self.extents, extents))
            }
            Form::Wide(form) => form.misses(extents),
        }
    }
}
