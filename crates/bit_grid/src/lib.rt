//! A set of small numbers, kept as the bits of lent words: bit `place % 64` of word `place / 64`
//! says whether the set has `place`. Beside it, slots that each keep the least number put into them.
#![tactic(auto)]

mod slots;
mod touched;

ghost use Rattle.std.specs.Prelude.{◌≡◌, ◌≢◌, ℕ, ◌*◌, ◌/◌, ◌%◌, ◌^◌, ◌<◌, ◌≤◌, true, false, length, slice_index, IfNone, IfSome, MatchOption};
ghost use Rattle.std.specs.Int.{bit_at};
ghost use Rattle.bit_grid.specs.Touched.{AreTouched};
ghost use Rattle.bit_grid.specs.Places.{is_set_at, HasNoneFrom, IsNextSet, IsLowestBit};

pub use slots::{clear_slots, next_slot, put_least};
pub use touched::{TouchedBlocks, clear_touched, next_touched, put_touched, turn_touched};

/// The number of places that a word has.
const WORD_BITS: u64 = 64;

/// Unsets every place.
pub fn clear(words: &mut [u64])
    ensures { (place : ℕ) → is_set_at words.new place ≡ false }
{
    words.fill(0);
}

/// Sets one place.
pub fn set(words: &mut [u64], place: u64)
    requires { place < 64 * length words.old }
    ensures this { is_set_at words.new place ≡ true }
    ensures others { (other : ℕ) → other ≢ place → is_set_at words.new other ≡ is_set_at words.old other }
{
    words[(place / WORD_BITS) as usize] |= 1 << (place % WORD_BITS);
}

/// Whether a place is set.
pub fn test(words: &[u64], place: u64) -> bool
    requires { place < 64 * length words.now }
    ensures { result ≡ is_set_at words.now place }
{
    (words[(place / WORD_BITS) as usize] >> (place % WORD_BITS)) & 1 == 1
}

/// The least place from `from` on that is set, if there is one that 64 bits can name.
pub fn next_set(words: &[u64], from: u64) -> Option<u64>
    ensures { MatchOption result (HasNoneFrom words.now from) (IsNextSet words.now from) }
{
    let start = (from / WORD_BITS) as usize;
    if start >= words.len() {
        return None;
    }
    let first = from_bit(words[start], from % WORD_BITS);
    if first != 0 {
        return lowest_place(start, first);
    }
    first_set_from(words, start + 1)
}

/// The word without its bits below this one.
fn from_bit(word: u64, bit: u64) -> u64
    requires { bit < 64 }
    ensures cleared { (k : ℕ) → k < bit → bit_at result k ≡ 0 }
    ensures kept { (k : ℕ) → bit ≤ k → bit_at result k ≡ bit_at word k }
{
    word & (u64::MAX << bit)
}

/// The place of the lowest 1 of the word of this number, if 64 bits can name it.
fn lowest_place(number: usize, word: u64) -> Option<u64>
    requires { 0 < word }
    ensures { MatchOption result (2 ^ 64 ≤ 64 * number) (IsLowestBit number word) }
{
    let base = (number as u64).checked_mul(WORD_BITS)?;
    Some(base + u64::from(word.trailing_zeros()))
}

/// The least place that is set in the words from this number on.
fn first_set_from(words: &[u64], start: usize) -> Option<u64>
    requires { start ≤ length words.now }
    ensures { MatchOption result (HasNoneFrom words.now (64 * start)) (IsNextSet words.now (64 * start)) }
{
    let number = start + first_nonzero(&words[start..])?;
    lowest_place(number, words[number])
}

/// The number of the first word that is not 0.
fn first_nonzero(words: &[u64]) -> Option<usize>
    ensures none { IfNone result ((k : ℕ) → slice_index words.now k ≡ 0) }
    ensures within { IfSome result (λ number. number < length words.now) }
    ensures some { IfSome result (λ number. 0 < slice_index words.now number) }
    ensures before { IfSome result (λ number. (k : ℕ) → k < number → slice_index words.now k ≡ 0) }
{
    words.iter().position(|word| *word != 0)
}

#[cfg(test)]
mod tests {
    use super::*;

    #[test]
    fn places_of_three_words(rt: HostRuntime) {
        let words = [(1 << 63) + 32, 0, 1];
        let cases = [
            (0, Some(5)),
            (5, Some(5)),
            (6, Some(63)),
            (64, Some(128)),
            (128, Some(128)),
            (129, None),
            (u64::MAX, None),
        ];
        for (from, wanted) in cases {
            assert_eq!(rt;
                next_set(&words, from),
                wanted,
                "the least place from {from} on"
            );
        }
    }

    #[test]
    fn slots_keep_the_least(rt: HostRuntime) {
        let mut slots = [7; 5];
        clear_slots(&mut slots);
        assert_eq!(rt; slots, [0; 5]);
        for (place, face) in [(1, 9), (1, 4), (1, 6), (3, 0), (3, 2), (4, 4_294_967_294)] {
            put_least(&mut slots, place, face);
        }
        assert_eq!(rt; slots, [0, 5, 0, 1, u32::MAX]);
        for (from, wanted) in [
            (0, Some(1)),
            (2, Some(3)),
            (4, Some(4)),
            (5, None),
            (u64::MAX, None),
        ] {
            assert_eq!(rt;
                next_slot(&slots, from),
                wanted,
                "the least place from {from} on"
            );
        }
        assert_eq!(rt; next_slot(&slots[2..3], 0), None);
    }

    /// Blocks of four slots.
    #[test]
    fn touched_blocks_are_searched_and_cleared(rt: HostRuntime) {
        let mut slots = [7; 70_000];
        let mut blocks = cleared(&mut slots);
        put_touched(&mut slots, &mut blocks, 5, 2);
        put_touched(&mut slots, &mut blocks, 69_999, 0);
        put_touched(&mut slots, &mut blocks, 5, 7);
        put_touched(&mut slots, &mut blocks, 4096, 1);
        for (from, wanted) in [
            (0, Some(5)),
            (5, Some(5)),
            (6, Some(4096)),
            (4097, Some(69_999)),
            (70_000, None),
            (u64::MAX, None),
        ] {
            assert_eq!(rt;
                next_touched(&slots, &blocks, from),
                wanted,
                "the least place from {from} on"
            );
        }
        assert_eq!(rt; (slots[5], slots[4096], slots[69_999]), (3, 2, 1));
        clear_touched(&mut slots, &mut blocks);
        assert_eq!(rt; next_touched(&slots, &blocks, 0), None);
        assert_eq!(rt; next_slot(&slots, 0), None);
    }

    /// Slots that are 0, and that no block was touched.
    fn cleared(slots: &mut [u32]) -> TouchedBlocks
        ensures { AreTouched slots.new result }
    {
        clear_slots(slots);
        TouchedBlocks::none(slots.len())
    }

    #[test]
    fn set_and_clear(rt: HostRuntime) {
        let mut words = [u64::MAX; 3];
        clear(&mut words);
        assert_eq!(rt; words, [0, 0, 0]);
        set(&mut words, 5);
        set(&mut words, 63);
        set(&mut words, 128);
        assert_eq!(rt; words, [(1 << 63) + 32, 0, 1]);
        for (place, wanted) in [
            (5, true),
            (6, false),
            (63, true),
            (64, false),
            (128, true),
            (191, false),
        ] {
            assert_eq!(rt; test(&words, place), wanted, "place {place}");
        }
    }
}
