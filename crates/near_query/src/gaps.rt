//! How far a point is from a cube along one axis.

ghost use Rattle.std.specs.Prelude.{◌≡◌, ℕ, ◌<◌, ◌≤◌, ◌*◌, ◌^◌, cond, pos, ◌+ℤ◌, ◌-ℤ◌, unsigned_abs};
ghost use Rattle.std.specs.List.{slice_index_or};
ghost use Rattle.octree_specs.specs.Meeting.{HasPlanes, high_of, low_of};
ghost use Rattle.near_query.specs.Distances.{IsPoint, gap_of};
ghost use Rattle.near_query.specs.Halves.{AreSmall, IsKept, halves_at};

use svo_base::Cube;

/// The lower and the upper plane of a cube across an axis.
#[derive(Clone, Copy)]
pub struct Interval {
    pub low: i64,
    pub high: i64,
}

impl Interval {
    /// The planes of a cube across an axis.
    pub fn across(cube: &Cube, axis: usize) -> Interval
        requires axis { axis < 3 }
        requires planes { HasPlanes cube.now }
        ensures low { result.low ≡ low_of cube.now axis }
        ensures high { result.high ≡ high_of cube.now axis }
        ensures kept { IsKept result }
    {
        Interval {
            low: cube.lo[axis],
            high: cube.hi[axis],
        }
    }

    /// The upper or the lower half.
    pub fn half(&self, upper: bool) -> Interval
        requires { IsKept self.now }
        ensures low { (size : ℕ) → self.now.high ≡ self.now.low +ℤ pos (2 * size) → result.low ≡ self.now.low +ℤ pos (size * cond upper 1 0) }
        ensures high { (size : ℕ) → self.now.high ≡ self.now.low +ℤ pos (2 * size) → result.high ≡ result.low +ℤ pos size }
        ensures kept { IsKept result }
    {
        // A cube above the cells is an even number of units wide, so the shift loses nothing.
        let middle = (self.low + self.high) >> 1;
        if upper {
            Interval {
                low: middle,
                ..*self
            }
        } else {
            Interval {
                high: middle,
                ..*self
            }
        }
    }

    /// How far a point is from what lies between the planes.
    #[tactic(auto, unfolding(crate::specs::Distances::gap_of))]
    pub fn gap(&self, point: &[i64; 3], axis: usize) -> u64
        requires axis { axis < 3 }
        requires point { IsPoint point.now }
        requires kept { IsKept self.now }
        ensures value { result ≡ gap_of (slice_index_or point.now axis (pos 0)) self.now.low self.now.high }
        ensures within { result ≤ 2 ^ 41 }
    {
        let at = point[axis];
        let below = difference(self.low, at);
        let above = difference(at, self.high);
        below.max(0).max(above).unsigned_abs()
    }
}

fn difference(a: i64, b: i64) -> i64
    requires a { unsigned_abs a ≤ 2 ^ 40 }
    requires b { unsigned_abs b ≤ 2 ^ 40 }
    ensures value { result ≡ a -ℤ b }
    ensures within { unsigned_abs result ≤ 2 ^ 41 }
{
    a - b
}

/// The squares of the gaps between a point and the two halves of a cube along an axis.
#[derive(Clone, Copy)]
pub struct Halves {
    pub lower: u128,
    pub upper: u128,
}

impl Halves {
    /// Those of a cube whose side is even.
    pub fn new(point: &[i64; 3], cube: &Cube, axis: usize) -> Halves
        requires axis { axis < 3 }
        requires point { IsPoint point.now }
        requires planes { HasPlanes cube.now }
        ensures value { (size : ℕ) → high_of cube.now axis ≡ low_of cube.now axis +ℤ pos (2 * size) → result ≡ halves_at (slice_index_or point.now axis (pos 0)) (low_of cube.now axis) size }
        ensures small { AreSmall result }
    {
        let whole = Interval::across(cube, axis);
        Halves {
            lower: square(whole.half(false).gap(point, axis)),
            upper: square(whole.half(true).gap(point, axis)),
        }
    }

    /// The square for the upper or the lower half.
    pub fn side(&self, upper: bool) -> u128
        requires { AreSmall self.now }
        ensures value { result ≡ cond upper self.now.upper self.now.lower }
        ensures small { result ≤ 2 ^ 82 }
    {
        if upper { self.upper } else { self.lower }
    }
}

/// The square of a gap.
pub fn square(gap: u64) -> u128
    requires { gap ≤ 2 ^ 41 }
    ensures value { result ≡ gap * gap }
    ensures small { result ≤ 2 ^ 82 }
{
    u128::from(gap) * u128::from(gap)
}
