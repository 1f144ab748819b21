//! Which centres of a row of cells lie in a stretch of its axis.

ghost use Rattle.std.specs.Prelude.{◌≡◌, ℕ, ◌+◌, ◌*◌, ◌^◌, ◌<◌, ◌≤◌, pos, ◌+ℤ◌, ◌-ℤ◌, ◌*ℤ◌, ◌≤ℤ◌, ◌<ℤ◌, unsigned_abs};
ghost use Rattle.std.specs.Int.{int_max};

use crate::seen::twice;
use svo_base::Extent;
use tri_partition::PartRange;

/// The places of the centres that lie in an extent, of which the upper end is none. The first centre,
/// the step to the next one and how many there are are given in doubled coordinates.
pub fn reached(first: &i64, step: u64, side: u32, extent: &Extent) -> PartRange
    requires near { unsigned_abs first.now + step * side ≤ 6 * 2 ^ 31 }
    requires step { 0 < step }
    requires side { 0 < side }
    ensures within { result.to ≤ side }
    ensures before { (place : ℕ) → place < result.from → (first.now +ℤ pos (step * place)) <ℤ (pos 2 *ℤ extent.now.low) }
    ensures behind { (place : ℕ) → result.to ≤ place → place < side → (pos 2 *ℤ extent.now.high) ≤ℤ (first.now +ℤ pos (step * place)) }
{
    PartRange {
        from: centres_below(first, step, side, &twice(&extent.low)),
        to: centres_below(first, step, side, &twice(&extent.high)),
    }
}

/// How many centres lie below a coordinate. These are the first ones.
fn centres_below(first: &i64, step: u64, side: u32, coordinate: &i64) -> u32
    requires first { unsigned_abs first.now ≤ 2 ^ 34 }
    requires step { 0 < step }
    requires short { step ≤ 2 ^ 34 }
    requires coordinate { unsigned_abs coordinate.now ≤ 2 ^ 32 }
    ensures within { result ≤ side }
    ensures before { (place : ℕ) → place < result → (first.now +ℤ pos (step * place)) <ℤ coordinate.now }
    ensures behind { (place : ℕ) → result ≤ place → place < side → coordinate.now ≤ℤ (first.now +ℤ pos (step * place)) }
{
    let way = way_up(first, coordinate);
    ((way + (step - 1)) / step).min(u64::from(side)) as u32
}

/// How far it is up from one coordinate to another; 0 where the other is not above.
fn way_up(from: &i64, to: &i64) -> u64
    requires from { unsigned_abs from.now ≤ 2 ^ 34 }
    requires to { unsigned_abs to.now ≤ 2 ^ 32 }
    ensures value { result ≡ unsigned_abs (int_max (to.now -ℤ from.now) (pos 0)) }
    ensures near { result ≤ 2 ^ 35 }
{
    (*to - *from).max(0) as u64
}
