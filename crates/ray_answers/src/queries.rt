//! What the lines of a text ask.

ghost use Rattle.std.specs.Prelude.{◌≡◌, ◌^◌, Option, None, Some, if◌then◌else◌};
ghost use Rattle.std.specs.List.{list_all};
ghost use Rattle.near_query.specs.Distances.{IsPoint};
ghost use Rattle.ray_fraction.specs.RayLimits.{is_within};

use ray_fraction::Ray;
use std::marker::Model;

/// The greatest size of a component of a point.
const POINT_LIMIT: u64 = 1 << 40;

/// What all lines of a text ask.
#[derive(Clone, Copy, Debug, PartialEq, Eq)]
pub enum QueryKind {
    /// Which filled cell a ray hits first.
    Rays,
    /// Which filled cell is nearest to a point.
    Points,
}

/// What a line asks.
#[derive(Clone, Copy, Debug, PartialEq, Eq)]
pub enum Query {
    /// Which filled cell the ray hits first.
    Ray(Ray),
    /// Which filled cell is nearest to the point.
    Point(Point),
}

/// A point, of components of size at most 2^40.
#[derive(Clone, Copy, Debug, PartialEq, Eq)]
pub struct Point {
    at: [i64; 3],
}

impl Model for Point {
    ghost use Rattle.std.specs.Prelude.{List, ℤ};
    ghost use Rattle.near_query.specs.Distances.{IsPoint};

    ghost Value = { List ℤ };

    ghost view = { λ p. p.at };

    ghost invariant = { λ p. IsPoint p.at };

    ghost inverse = { λ v. record { at = v } };
}

impl Point {
    /// The point at these coordinates, unless one is out of range.
    pub fn new(at: [i64; 3]) -> Option<Point>
        ensures { result ≡ (if list_all (is_within (2 ^ 40)) at then Some at else None) }
    {
        if is_near(&at) {
            Some(Point { at })
        } else {
            None
        }
    }

    /// Its coordinates.
    pub fn at(&self) -> [i64; 3]
        ensures value { result ≡ self.now }
        ensures near { IsPoint self.now }
    {
        self.at
    }
}

/// Whether no component is out of range.
fn is_near(at: &[i64; 3]) -> bool
    ensures { result ≡ list_all (is_within (2 ^ 40)) at.now }
{
    at.iter()
        .all(|component| component.unsigned_abs() <= POINT_LIMIT)
}
