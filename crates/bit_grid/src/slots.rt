//! Lent slots of 32 bits. A slot is 0 where nothing stands in it, else one more than the least number
//! that was put there.

ghost use Rattle.std.specs.Prelude.{◌≡◌, ℕ, ◌+◌, ◌^◌, ◌<◌, ◌≤◌, length, slice_index, set, IfNone, IfSome, MatchOption};
ghost use Rattle.bit_grid.specs.Slots.{lesser_slot, turned_slot, HasNoSlotFrom, IsNextSlot};

/// Empties every slot.
pub fn clear_slots(slots: &mut [u32])
    ensures { (place : ℕ) → slice_index slots.new place ≡ 0 }
{
    slots.fill(0);
}

/// Puts a number into a slot, which keeps the lesser of it and what stands there. Numbers are at most
/// 4,294,967,294, so that one more fits into a slot.
pub fn put_least(slots: &mut [u32], place: u64, face: u32)
    requires place { place < length slots.old }
    requires face { face + 1 < 2 ^ 32 }
    ensures { slots.new ≡ set slots.old place (lesser_slot (slice_index slots.old place) face) }
{
    let slot = &mut slots[place as usize];
    *slot = lesser(*slot, face);
}

/// What a slot keeps once this number is put into it.
#[tactic(auto, unfolding(crate::specs::Slots::lesser_slot))]
fn lesser(slot: u32, face: u32) -> u32
    requires { face + 1 < 2 ^ 32 }
    ensures { result ≡ lesser_slot slot face }
{
    if slot == 0 || face < slot - 1 {
        face + 1
    } else {
        slot
    }
}

/// Turns a slot to 1 where it is 0, and else to 0.
pub fn turn(slots: &mut [u32], place: u64)
    requires { place < length slots.old }
    ensures { slots.new ≡ set slots.old place (turned_slot (slice_index slots.old place)) }
{
    let slot = &mut slots[place as usize];
    *slot = u32::from(*slot == 0);
}

/// The least place from `from` on whose slot isn't 0, if there is one.
pub fn next_slot(slots: &[u32], from: u64) -> Option<u64>
    ensures { MatchOption result (HasNoSlotFrom slots.now from) (IsNextSlot slots.now from) }
{
    let start = from as usize;
    if start >= slots.len() {
        return None;
    }
    let step = first_filled(&slots[start..])?;
    Some((start + step) as u64)
}

/// The number of the first slot that isn't 0.
fn first_filled(slots: &[u32]) -> Option<usize>
    ensures none { IfNone result ((k : ℕ) → slice_index slots.now k ≡ 0) }
    ensures within { IfSome result (λ number. number < length slots.now) }
    ensures some { IfSome result (λ number. 0 < slice_index slots.now number) }
    ensures before { IfSome result (λ number. (k : ℕ) → k < number → slice_index slots.now k ≡ 0) }
{
    slots.iter().position(|slot| *slot != 0)
}
