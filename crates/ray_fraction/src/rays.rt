//! The rays that are cast.

ghost use Rattle.std.specs.Prelude.{◌≡◌, ◌^◌, nat_le};
ghost use Rattle.std.specs.List.{list_all};
ghost use Rattle.ray_fraction.specs.RayLimits.{is_within, is_zero};

use std::marker::Model;

/// The greatest size of a component of a ray's origin.
const ORIGIN_LIMIT: u64 = 1 << 40;

/// The greatest size of a component of a ray's direction.
const DIRECTION_LIMIT: u64 = 1 << 30;

/// Which limit of a ray was broken first.
#[derive(Clone, Copy, Debug, PartialEq, Eq)]
pub enum RayFault {
    /// A component of the origin has a size above 2^40.
    Origin,
    /// A component of the direction has a size above 2^30.
    Direction,
    /// All components of the direction are 0.
    Zero,
}

/// A ray: at time t it is at its origin plus t times its direction.
#[derive(Clone, Copy, Debug, PartialEq, Eq)]
pub struct Ray {
    origin: [i64; 3],
    direction: [i64; 3],
}

impl Model for Ray {
    ghost use Rattle.ray_fraction.specs.RayShape.{RayShape, IsRay};

    ghost Value = { RayShape };

    ghost view = { λ r. record { origin = r.origin; direction = r.direction } };

    ghost invariant = { λ r. IsRay (record { origin = r.origin; direction = r.direction }) };

    ghost inverse = { λ v. record { origin = v.origin; direction = v.direction } };
}

impl Ray {
    ghost use Rattle.ray_fraction.specs.RayShape.{RayShape, IsRay};
    ghost use Rattle.ray_fraction.specs.RayFrom.{ray_from};

    /// The ray of these numbers, or the first of its limits that is broken, in the order of the
    /// variants of [`RayFault`].
    #[tactic(auto, unfolding(crate::specs::RayFrom::ray_from))]
    pub fn new(origin: [i64; 3], direction: [i64; 3]) -> Result<Ray, RayFault>
        ensures { result ≡ ray_from origin direction }
    {
        if !are_within(&origin, ORIGIN_LIMIT) {
            return Err(RayFault::Origin);
        }
        if !are_within(&direction, DIRECTION_LIMIT) {
            return Err(RayFault::Direction);
        }
        if are_zero(&direction) {
            return Err(RayFault::Zero);
        }
        Ok(Ray { origin, direction })
    }

    /// Where the ray is at time 0.
    pub fn origin(&self) -> [i64; 3]
        ensures value { result ≡ self.now.origin }
        ensures limits { IsRay self.now }
    {
        self.origin
    }

    /// How far the ray goes in each unit of time.
    pub fn direction(&self) -> [i64; 3]
        ensures value { result ≡ self.now.direction }
        ensures limits { IsRay self.now }
    {
        self.direction
    }
}

/// Whether all components are at most of a size.
fn are_within(components: &[i64; 3], limit: u64) -> bool
    ensures { result ≡ list_all (is_within limit) components.now }
{
    components
        .iter()
        .all(|component| component.unsigned_abs() <= limit)
}

/// Whether all components are 0.
fn are_zero(components: &[i64; 3]) -> bool
    ensures { result ≡ list_all is_zero components.now }
{
    components.iter().all(|component| *component == 0)
}
