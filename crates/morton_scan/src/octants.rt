//! Which children of a node a triangle's box reaches.

ghost use Rattle.std.specs.Prelude.{◌≡◌, ◌≢◌, ℕ, ◌<◌, true, false, IfSome};
ghost use Rattle.std.specs.Option.{IfNone};
ghost use Rattle.morton_scan.specs.Reaching.{has_half, has_octant, octants_of, HasOther};

use crate::reaching::halves_of;
use svo_base::{Bounds, Cube};

/// Which halves of a node along an axis a box reaches, of which the middle plane belongs to both.
#[derive(Clone, Copy)]
pub struct Halves {
    pub lower: bool,
    pub upper: bool,
}

impl Halves {
    /// Whether the lower half (0) or the upper one (1) is reached.
    fn has(&self, half: u64) -> bool
        ensures { result ≡ has_half self.now half }
    {
        if half == 0 { self.lower } else { self.upper }
    }

    /// The half that alone may be reached, or `None` where both are.
    fn only(&self) -> Option<u64>
        ensures half { IfSome result (λ half. half < 2) }
        ensures only { IfSome result (λ half. (other : ℕ) → other < 2 → other ≢ half → has_half self.now other ≡ false) }
        ensures both { IfNone result ((self.now.lower ≡ true) × (self.now.upper ≡ true)) }
    {
        if !self.upper {
            Some(0)
        } else if !self.lower {
            Some(1)
        } else {
            None
        }
    }
}

/// Which children of a node a box reaches, by halves along each axis.
#[derive(Clone, Copy)]
pub struct Octants {
    pub x: Halves,
    pub y: Halves,
    pub z: Halves,
}

impl Octants {
    /// The children that a box reaches of a node that it reaches, and whose last child has this cube.
    #[tactic(auto, unfolding(crate::specs::Reaching::octants_of))]
    pub fn new(bounds: &Bounds, last: &Cube) -> Octants
        ensures { result ≡ octants_of bounds.now last.now }
    {
        Octants {
            x: halves_of(&bounds.x, last, 0),
            y: halves_of(&bounds.y, last, 1),
            z: halves_of(&bounds.z, last, 2),
        }
    }

    /// Whether the child at this place among its siblings is reached.
    #[tactic(auto, unfolding(crate::specs::Reaching::has_octant))]
    pub fn has(&self, octant: u64) -> bool
        ensures { result ≡ has_octant self.now octant }
    {
        self.x.has(octant % 2) && self.y.has(octant / 2 % 2) && self.z.has(octant / 4 % 2)
    }

    /// The place of the child that alone may be reached, or `None` where no child is reached, or more
    /// than one.
    pub fn only(&self) -> Option<u64>
        ensures octant { IfSome result (λ octant. octant < 8) }
        ensures only { IfSome result (λ octant. (other : ℕ) → other < 8 → other ≢ octant → has_octant self.now other ≡ false) }
        ensures others { IfNone result ((octant : ℕ) → octant < 8 → has_octant self.now octant ≡ true → HasOther self.now octant) }
    {
        let x = self.x.only()?;
        let y = self.y.only()?;
        let z = self.z.only()?;
        Some(x + 2 * y + 4 * z)
    }
}
