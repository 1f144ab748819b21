//! A triangle as it is seen along an axis: an outline of three sides. A cube that is beyond a side
//! shares no point with the triangle.

ghost use Rattle.std.specs.Prelude.{◌≡◌, ◌^◌, ◌≤◌, ◌*ℤ◌, ◌+ℤ◌, ◌&&◌, unsigned_abs};
ghost use Rattle.std.specs.List.{list_any};
ghost use Rattle.tri_cube.specs.Lines.{least_of, greatest_of, is_beyond, is_short};
ghost use Rattle.tri_cube.specs.Outlines.{area_of, line_of, misses_outline, outline_of};
ghost use Rattle.tri_cube.specs.Views.{seen_x, seen_y, seen_z};

use crate::extents::WideExtent;
use crate::products::{step, wide_product};
use std::marker::Model;
use svo_base::Point;

/// A corner as it is seen along an axis: its coordinates along the two other axes.
#[derive(Clone, Copy)]
pub struct Seen {
    pub first: i32,
    pub second: i32,
}

/// A corner as it is seen along x.
pub fn seen_x(at: &Point) -> Seen
    ensures { result ≡ seen_x at.now }
{
    Seen {
        first: at.y,
        second: at.z,
    }
}

/// A corner as it is seen along y.
pub fn seen_y(at: &Point) -> Seen
    ensures { result ≡ seen_y at.now }
{
    Seen {
        first: at.z,
        second: at.x,
    }
}

/// A corner as it is seen along z.
pub fn seen_z(at: &Point) -> Seen
    ensures { result ≡ seen_z at.now }
{
    Seen {
        first: at.x,
        second: at.y,
    }
}

/// A side of an outline: a direction across it, and how far its points are in that direction.
#[derive(Clone, Copy)]
pub struct Side {
    first: i64,
    second: i64,
    reach: i128,
}

impl Model for Side {
    ghost use Rattle.tri_cube.specs.Lines.{Line, LineWithin, line};

    ghost Value = { Line };

    ghost view = { λ s. line s.first s.second s.reach };

    ghost invariant = { λ s. LineWithin (line s.first s.second s.reach) };

    ghost inverse = { λ l. record { first = l.first; second = l.second; reach = l.reach } };
}

impl Side {
    /// The side from one corner to another.
    #[tactic(auto, unfolding(crate::specs::Outlines::line_of))]
    pub fn new(from: &Seen, to: &Seen) -> Side
        ensures { result ≡ line_of from.now to.now }
    {
        let first = step(from.second, to.second);
        let second = step(to.first, from.first);
        Side {
            first,
            second,
            reach: reach(first, second, from),
        }
    }

    /// Whether all of a box is farther than the side.
    #[tactic(auto, unfolding(crate::specs::Lines::is_beyond))]
    fn is_passed(&self, first: &WideExtent, second: &WideExtent) -> bool
        ensures { result ≡ is_beyond self.now first.now second.now }
    {
        least(self.first, first) + least(self.second, second) > self.reach
    }

    /// Whether no part of a box is as far as the side.
    #[tactic(auto, unfolding(crate::specs::Lines::is_short))]
    fn is_not_reached(&self, first: &WideExtent, second: &WideExtent) -> bool
        ensures { result ≡ is_short self.now first.now second.now }
    {
        greatest(self.first, first) + greatest(self.second, second) < self.reach
    }
}

/// How far a corner is in a direction.
fn reach(first: i64, second: i64, at: &Seen) -> i128
    requires first { unsigned_abs first ≤ 2 ^ 33 }
    requires second { unsigned_abs second ≤ 2 ^ 33 }
    ensures value { result ≡ (first *ℤ at.now.first) +ℤ (second *ℤ at.now.second) }
    ensures within { unsigned_abs result ≤ 2 ^ 69 }
{
    wide_product(first, i64::from(at.first)) + wide_product(second, i64::from(at.second))
}

/// The least product of a step with a coordinate of an extent.
#[tactic(auto, unfolding(crate::specs::Lines::least_of))]
fn least(step: i64, extent: &WideExtent) -> i128
    requires { unsigned_abs step ≤ 2 ^ 33 }
    ensures value { result ≡ least_of step extent.now }
    ensures within { unsigned_abs result ≤ 2 ^ 68 }
{
    wide_product(step, if step < 0 { extent.hi() } else { extent.lo() })
}

/// The greatest product of a step with a coordinate of an extent.
#[tactic(auto, unfolding(crate::specs::Lines::greatest_of))]
fn greatest(step: i64, extent: &WideExtent) -> i128
    requires { unsigned_abs step ≤ 2 ^ 33 }
    ensures value { result ≡ greatest_of step extent.now }
    ensures within { unsigned_abs result ≤ 2 ^ 68 }
{
    wide_product(step, if step < 0 { extent.lo() } else { extent.hi() })
}

/// A triangle as it is seen along an axis. Where the corners are passed in one sense, all of the
/// triangle is within its sides, and where they are passed in the other, all of it is beyond them.
/// A flat outline has both senses.
#[derive(Clone, Copy)]
pub struct Outline {
    is_forward: bool,
    is_backward: bool,
    sides: [Side; 3],
}

impl Outline {
    /// The outline with these corners, whose sense is that of the area.
    #[tactic(auto, unfolding(crate::specs::Outlines::outline_of))]
    pub fn new(a: &Seen, b: &Seen, c: &Seen, area: &i128) -> Outline
        requires { area.now ≡ area_of a.now b.now c.now }
        ensures { result ≡ outline_of a.now b.now c.now }
    {
        Outline {
            is_forward: *area >= 0,
            is_backward: *area <= 0,
            sides: [Side::new(a, b), Side::new(b, c), Side::new(c, a)],
        }
    }

    /// Whether a box that is seen along the axis is on the outer side of one of the sides.
    #[tactic(auto, unfolding(crate::specs::Outlines::misses_outline))]
    pub fn misses(&self, first: &WideExtent, second: &WideExtent) -> bool
        ensures { result ≡ misses_outline self.now first.now second.now }
    {
        self.is_passed(first, second) || self.is_not_reached(first, second)
    }

    fn is_passed(&self, first: &WideExtent, second: &WideExtent) -> bool
        ensures { result ≡ (self.now.is_forward && list_any (λ side. is_beyond side first.now second.now) self.now.sides) }
    {
        self.is_forward && passes_any(&self.sides, first, second)
    }

    fn is_not_reached(&self, first: &WideExtent, second: &WideExtent) -> bool
        ensures { result ≡ (self.now.is_backward && list_any (λ side. is_short side first.now second.now) self.now.sides) }
    {
        self.is_backward && falls_short_of_any(&self.sides, first, second)
    }
}

/// Whether a box is beyond one of the sides.
fn passes_any(sides: &[Side; 3], first: &WideExtent, second: &WideExtent) -> bool
    ensures { result ≡ list_any (λ side. is_beyond side first.now second.now) sides.now }
{
    sides.iter().any(|side| side.is_passed(first, second))
}

/// Whether a box is short of one of the sides.
fn falls_short_of_any(sides: &[Side; 3], first: &WideExtent, second: &WideExtent) -> bool
    ensures { result ≡ list_any (λ side. is_short side first.now second.now) sides.now }
{
    sides.iter().any(|side| side.is_not_reached(first, second))
}
