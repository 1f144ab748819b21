//! A small triangle as it is seen along an axis, in 64 bits. See `outlines`.

ghost use Rattle.std.specs.Prelude.{◌≡◌, ◌^◌, ◌≤◌, ◌*ℤ◌, ◌+ℤ◌, ◌-ℤ◌, ◌&&◌, unsigned_abs};
ghost use Rattle.std.specs.List.{list_any};
ghost use Rattle.tri_cube.specs.Lines.{least_of, greatest_of, is_beyond, is_short};
ghost use Rattle.tri_cube.specs.Outlines.{area_of, line_of, misses_outline, outline_of};
ghost use Rattle.tri_cube.specs.Near.{SeenWithin};

use crate::near::NearExtent;
use crate::outlines::Seen;
use std::marker::Model;

/// A side of a small triangle's outline.
#[derive(Clone, Copy)]
pub struct NearSide {
    first: i64,
    second: i64,
    reach: i64,
}

impl Model for NearSide {
    ghost use Rattle.tri_cube.specs.Lines.{Line, line};
    ghost use Rattle.tri_cube.specs.Near.{NearLineWithin};

    ghost Value = { Line };

    ghost view = { λ s. line s.first s.second s.reach };

    ghost invariant = { λ s. NearLineWithin (line s.first s.second s.reach) };

    ghost inverse = { λ l. record { first = l.first; second = l.second; reach = l.reach } };
}

impl NearSide {
    /// The side from one corner to another.
    #[tactic(auto, unfolding(crate::specs::Outlines::line_of))]
    fn new(from: &Seen, to: &Seen) -> NearSide
        requires from { SeenWithin from.now }
        requires to { SeenWithin to.now }
        ensures { result ≡ line_of from.now to.now }
    {
        let first = near_step(from.second, to.second);
        let second = near_step(to.first, from.first);
        NearSide {
            first,
            second,
            reach: near_reach(first, second, from),
        }
    }

    /// Whether all of a box is farther than the side.
    #[tactic(auto, unfolding(crate::specs::Lines::is_beyond))]
    fn is_passed(&self, first: &NearExtent, second: &NearExtent) -> bool
        ensures { result ≡ is_beyond self.now first.now second.now }
    {
        near_least(self.first, first) + near_least(self.second, second) > self.reach
    }

    /// Whether no part of a box is as far as the side.
    #[tactic(auto, unfolding(crate::specs::Lines::is_short))]
    fn is_not_reached(&self, first: &NearExtent, second: &NearExtent) -> bool
        ensures { result ≡ is_short self.now first.now second.now }
    {
        near_greatest(self.first, first) + near_greatest(self.second, second) < self.reach
    }
}

/// From one coordinate to another.
fn near_step(from: i32, to: i32) -> i64
    requires from { unsigned_abs from ≤ 2 ^ 29 }
    requires to { unsigned_abs to ≤ 2 ^ 29 }
    ensures value { result ≡ to -ℤ from }
    ensures within { unsigned_abs result ≤ 2 ^ 30 }
{
    i64::from(to) - i64::from(from)
}

/// The product of a step and a coordinate.
fn near_product(step: i64, at: i64) -> i64
    requires step { unsigned_abs step ≤ 2 ^ 30 }
    requires at { unsigned_abs at ≤ 2 ^ 29 }
    ensures value { result ≡ step *ℤ at }
    ensures within { unsigned_abs result ≤ 2 ^ 59 }
{
    step * at
}

/// How far a corner is in a direction.
fn near_reach(first: i64, second: i64, at: &Seen) -> i64
    requires first { unsigned_abs first ≤ 2 ^ 30 }
    requires second { unsigned_abs second ≤ 2 ^ 30 }
    requires at { SeenWithin at.now }
    ensures value { result ≡ (first *ℤ at.now.first) +ℤ (second *ℤ at.now.second) }
    ensures within { unsigned_abs result ≤ 2 ^ 60 }
{
    near_product(first, i64::from(at.first)) + near_product(second, i64::from(at.second))
}

/// The least product of a step with a coordinate of an extent.
#[tactic(auto, unfolding(crate::specs::Lines::least_of))]
fn near_least(step: i64, extent: &NearExtent) -> i64
    requires { unsigned_abs step ≤ 2 ^ 30 }
    ensures value { result ≡ least_of step extent.now }
    ensures within { unsigned_abs result ≤ 2 ^ 59 }
{
    near_product(step, if step < 0 { extent.hi() } else { extent.lo() })
}

/// The greatest product of a step with a coordinate of an extent.
#[tactic(auto, unfolding(crate::specs::Lines::greatest_of))]
fn near_greatest(step: i64, extent: &NearExtent) -> i64
    requires { unsigned_abs step ≤ 2 ^ 30 }
    ensures value { result ≡ greatest_of step extent.now }
    ensures within { unsigned_abs result ≤ 2 ^ 59 }
{
    near_product(step, if step < 0 { extent.lo() } else { extent.hi() })
}

/// A small triangle as it is seen along an axis, with the senses in which its corners are passed.
#[derive(Clone, Copy)]
pub struct NearOutline {
    is_forward: bool,
    is_backward: bool,
    sides: [NearSide; 3],
}

impl Model for NearOutline {
    ghost use Rattle.tri_cube.specs.declared.outlines.Outline.{Outline};

    ghost Value = { Outline };

    ghost view = { λ o. record { is_forward = o.is_forward; is_backward = o.is_backward; sides = o.sides } };

    ghost inverse = { λ o. record { is_forward = o.is_forward; is_backward = o.is_backward; sides = o.sides } };
}

impl NearOutline {
    /// The outline with these corners, whose sense is that of the area.
    #[tactic(auto, unfolding(crate::specs::Outlines::outline_of))]
    pub fn new(a: &Seen, b: &Seen, c: &Seen, area: &i64) -> NearOutline
        requires area { area.now ≡ area_of a.now b.now c.now }
        requires a { SeenWithin a.now }
        requires b { SeenWithin b.now }
        requires c { SeenWithin c.now }
        ensures { result ≡ outline_of a.now b.now c.now }
    {
        NearOutline {
            is_forward: *area >= 0,
            is_backward: *area <= 0,
            sides: [
                NearSide::new(a, b),
                NearSide::new(b, c),
                NearSide::new(c, a),
            ],
        }
    }

    /// Whether a box that is seen along the axis is on the outer side of one of the sides.
    #[tactic(auto, unfolding(crate::specs::Outlines::misses_outline))]
    pub fn misses(&self, first: &NearExtent, second: &NearExtent) -> bool
        ensures { result ≡ misses_outline self.now first.now second.now }
    {
        self.is_passed(first, second) || self.is_not_reached(first, second)
    }

    fn is_passed(&self, first: &NearExtent, second: &NearExtent) -> bool
        ensures { result ≡ (self.now.is_forward && list_any (λ side. is_beyond side first.now second.now) self.now.sides) }
    {
        self.is_forward && passes_any(&self.sides, first, second)
    }

    fn is_not_reached(&self, first: &NearExtent, second: &NearExtent) -> bool
        ensures { result ≡ (self.now.is_backward && list_any (λ side. is_short side first.now second.now) self.now.sides) }
    {
        self.is_backward && falls_short_of_any(&self.sides, first, second)
    }
}

/// Whether a box is beyond one of the sides.
fn passes_any(sides: &[NearSide; 3], first: &NearExtent, second: &NearExtent) -> bool
    ensures { result ≡ list_any (λ side. is_beyond side first.now second.now) sides.now }
{
    sides.iter().any(|side| side.is_passed(first, second))
}

/// Whether a box is short of one of the sides.
fn falls_short_of_any(sides: &[NearSide; 3], first: &NearExtent, second: &NearExtent) -> bool
    ensures { result ≡ list_any (λ side. is_short side first.now second.now) sides.now }
{
    sides.iter().any(|side| side.is_not_reached(first, second))
}
