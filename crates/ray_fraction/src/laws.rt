//! Laws of the times at which rays are in cubes. Each function does nothing: a call gives its
//! `ensures`.

ghost use Rattle.ray_fraction.specs.Laws.{HaveNoGaps, GrowWithCube, BoundedByEntries, LeastOfCubes, AreOrdered};

/// Between two times at which a ray is in a cube it is there too.
pub fn times_have_no_gaps()
    ensures { HaveNoGaps }
{}

/// Where a cube lies in another, a ray that is in it is in the other, which it enters no later and
/// leaves no earlier.
pub fn times_grow_with_cubes()
    ensures { GrowWithCube }
{}

/// A ray is in a cube at no time before the cube's entry, nor before that of a cube around it.
pub fn entries_bound_times()
    ensures { BoundedByEntries }
{}

/// The least time at which a ray is in some cube of a list is the entry of one of them, before
/// which it is in none.
pub fn least_time_is_an_entry()
    ensures { LeastOfCubes }
{}

/// Times are ordered by value, and a value has one time, so that a ray's first and last time in a
/// cube are one each.
pub fn times_are_ordered()
    ensures { AreOrdered }
{}
