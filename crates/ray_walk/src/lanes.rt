//! The planes of a node across one axis, as a ray meets them.

ghost use Rattle.std.specs.Prelude.{◌≡◌, ℕ, ◌*◌, ◌^◌, ◌≤◌, cond, pos, ◌+ℤ◌};
ghost use Rattle.ray_walk.specs.Lanes.{IsNear, allows_at, later_of};

/// How many ticks ahead of where the ray begins the nearer and the farther plane of a node lie, and
/// whether the ray moves along the axis. Where it does not, both are in units of length.
#[derive(Clone, Copy)]
pub struct Lane {
    pub near: i128,
    pub far: i128,
    pub moving: bool,
}

impl Lane {
    /// The farther or the nearer half.
    pub fn half(&self, farther: bool) -> Lane
        requires { IsNear self.now }
        ensures near { (size : ℕ) → self.now.far ≡ self.now.near +ℤ pos (2 * size) → result.near ≡ self.now.near +ℤ pos (size * cond farther 1 0) }
        ensures far { (size : ℕ) → self.now.far ≡ self.now.near +ℤ pos (2 * size) → result.far ≡ result.near +ℤ pos size }
        ensures moving { result.moving ≡ self.now.moving }
        ensures bounds { IsNear result }
    {
        // A node above the cells is an even number of ticks wide, so the shift loses nothing.
        let middle = (self.near + self.far) >> 1;
        if farther {
            Lane {
                near: middle,
                ..*self
            }
        } else {
            Lane {
                far: middle,
                ..*self
            }
        }
    }

    /// The later of a number of ticks and of those to the nearer plane, where the ray moves.
    pub fn after(&self, ticks: u128) -> u128
        ensures value { result ≡ later_of self.now ticks }
        ensures within { IsNear self.now → ticks ≤ 2 ^ 120 → result ≤ 2 ^ 120 }
    {
        if self.moving {
            ticks.max(self.near.max(0).unsigned_abs())
        } else {
            ticks
        }
    }

    /// Whether the ray is between the planes after so many ticks, by which it has come to the nearer
    /// one if it moves.
    pub fn allows(&self, ticks: u128) -> bool
        requires { ticks ≤ 2 ^ 120 }
        ensures { result ≡ allows_at self.now ticks }
    {
        if self.moving {
            ticks as i128 <= self.far
        } else {
            self.near <= 0 && 0 <= self.far
        }
    }
}
