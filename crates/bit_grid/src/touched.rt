//! Lent slots that are cleared and searched at the cost of what was put into them, by a small table
//! of the blocks that were touched.

ghost use Rattle.std.specs.Prelude.{◌≡◌, ℕ, ◌+◌, ◌*◌, ◌^◌, ◌<◌, ◌≤◌, List, length, slice_index, set as put_at, MatchOption};
ghost use Rattle.bit_grid.specs.Slots.{lesser_slot, turned_slot, HasNoSlotFrom, IsNextSlot};
ghost use Rattle.bit_grid.specs.Touched.{AreTouched, HasNoTouchedFrom, IsNextRun};

use crate::slots::{next_slot, put_least, turn};
use crate::{next_set, set};

/// How many words the table has, of 64 blocks each.
const TABLE_WORDS: usize = 512;

/// Which blocks of slots were touched. There are up to 32,768 blocks, of a power of two of slots each.
#[derive(Drop)]
pub struct TouchedBlocks {
    table: [u64; TABLE_WORDS],
    shift: u32,
}

/// Places from a start on and before an end.
#[derive(Clone, Copy)]
struct Run {
    start: usize,
    end: usize,
}

impl TouchedBlocks {
    /// For so many slots, which are all 0: no block is touched.
    pub fn none(slots: usize) -> TouchedBlocks
        requires { slots < 2 ^ 62 }
        ensures { (list : List ℕ) → length list ≡ slots → ((place : ℕ) → slice_index list place ≡ 0) → AreTouched list result }
    {
        TouchedBlocks {
            table: [0; TABLE_WORDS],
            shift: block_shift(slots),
        }
    }

    /// For so many slots, which may hold anything: all blocks are held to be touched.
    pub fn all(slots: usize) -> TouchedBlocks
        requires { slots < 2 ^ 62 }
        ensures { (list : List ℕ) → length list ≡ slots → AreTouched list result }
    {
        TouchedBlocks {
            table: [u64::MAX; TABLE_WORDS],
            shift: block_shift(slots),
        }
    }

    /// The next places of one block that was touched, from `from` on and below `count`.
    fn next_run(&self, from: usize, count: usize) -> Option<Run>
        requires long { length self.now.table ≡ 512 }
        requires shift { self.now.shift < 48 }
        requires count { count < 2 ^ 62 }
        ensures { MatchOption result (HasNoTouchedFrom self.now from count) (λ run. IsNextRun self.now from count run.start run.end) }
    {
        if from >= count {
            return None;
        }
        let block = next_set(&self.table, (from >> self.shift) as u64)?;
        let first = (block as usize) << self.shift;
        Some(Run {
            start: first.max(from).min(count),
            end: (first + (1 << self.shift)).min(count),
        })
    }
}

/// How many bits of a place say where it lies in its block, so that so many slots have at most 32,768
/// blocks.
fn block_shift(slots: usize) -> u32
    requires { slots < 2 ^ 62 }
    ensures shallow { result < 48 }
    ensures covered { slots ≤ 32768 * 2 ^ result }
{
    match slots.checked_ilog2() {
        Some(log) => log.saturating_sub(14),
        None => 0,
    }
}

/// Puts a number into a slot, which keeps the lesser of it and what stands there, and touches its
/// block. Numbers are at most 4,294,967,294, so that one more fits into a slot.
pub fn put_touched(slots: &mut [u32], blocks: &mut TouchedBlocks, place: u64, face: u32)
    requires place { place < length slots.old }
    requires face { face + 1 < 2 ^ 32 }
    requires touched { AreTouched slots.old blocks.old }
    ensures slot { slots.new ≡ put_at slots.old place (lesser_slot (slice_index slots.old place) face) }
    ensures touched { AreTouched slots.new blocks.new }
{
    set(&mut blocks.table, place >> blocks.shift);
    put_least(slots, place, face);
}

/// Turns a slot to 1 where it is 0, and else to 0, and touches its block.
pub fn turn_touched(slots: &mut [u32], blocks: &mut TouchedBlocks, place: u64)
    requires place { place < length slots.old }
    requires touched { AreTouched slots.old blocks.old }
    ensures slot { slots.new ≡ put_at slots.old place (turned_slot (slice_index slots.old place)) }
    ensures touched { AreTouched slots.new blocks.new }
{
    let block = place >> blocks.shift;
    set(&mut blocks.table, block);
    turn(slots, place);
}

/// The least place from `from` on whose slot isn't 0, if there is one. Only touched blocks are
/// searched.
pub fn next_touched(slots: &[u32], blocks: &TouchedBlocks, from: u64) -> Option<u64>
    requires { AreTouched slots.now blocks.now }
    ensures { MatchOption result (HasNoSlotFrom slots.now from) (IsNextSlot slots.now from) }
{
    let mut at = from as usize;
    while let Some(run) = blocks.next_run(at, slots.len()) {
        if let Some(place) = next_slot(&slots[..run.end], run.start as u64) {
            return Some(place);
        }
        at = run.end;
    }
    None
}

/// Empties every slot. Only touched blocks are written, and then none is touched.
pub fn clear_touched(slots: &mut [u32], blocks: &mut TouchedBlocks)
    requires { AreTouched slots.old blocks.old }
    ensures empty { (place : ℕ) → slice_index slots.new place ≡ 0 }
    ensures touched { AreTouched slots.new blocks.new }
{
    let mut at = 0;
    while let Some(run) = blocks.next_run(at, slots.len()) {
        empty_run(slots, run.start, run.end);
        at = run.end;
    }
    blocks.table = [0; TABLE_WORDS];
}

/// Empties the slots of a run of places.
fn empty_run(slots: &mut [u32], start: usize, end: usize)
    requires order { start ≤ end }
    requires within { end ≤ length slots.old }
    ensures inside { (place : ℕ) → start ≤ place → place < end → slice_index slots.new place ≡ 0 }
    ensures before { (place : ℕ) → place < start → slice_index slots.new place ≡ slice_index slots.old place }
    ensures behind { (place : ℕ) → end ≤ place → slice_index slots.new place ≡ slice_index slots.old place }
{
    slots[start..end].fill(0);
}
