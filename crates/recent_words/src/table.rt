//! A table of numbered words.

ghost use Rattle.std.specs.Prelude.{◌≡◌, ◌%◌, IfSome, replicate, slice_index, slice_set};

/// How many words are remembered. A word's place is its number's remainder.
const ROOM: u64 = 1024;

/// The number of an empty place. No file has so many words.
const NONE: u64 = u64::MAX;

/// Words by their numbers, one at each place.
#[derive(Drop)]
pub struct Table {
    numbers: [u64; 1024],
    words: [u64; 1024],
}

impl Table {
    /// A table without words.
    pub fn new() -> Table
        ensures { result.numbers ≡ replicate 1024 18446744073709551615 }
    {
        Table {
            numbers: [NONE; 1024],
            words: [0; 1024],
        }
    }

    /// The word of a number, where it is remembered.
    pub fn get(&self, number: u64) -> Option<u64>
        ensures { IfSome result (λ word. (slice_index self.now.numbers (number % 1024) ≡ number) × (slice_index self.now.words (number % 1024) ≡ word)) }
    {
        let at = (number % ROOM) as usize;
        if self.numbers[at] != number {
            return None;
        }
        Some(self.words[at])
    }

    /// Remembers the word of a number in the place of another.
    pub fn put(&mut self, number: u64, word: u64)
        ensures numbers { self.new.numbers ≡ slice_set self.old.numbers (number % 1024) number }
        ensures words { self.new.words ≡ slice_set self.old.words (number % 1024) word }
    {
        let at = (number % ROOM) as usize;
        self.numbers[at] = number;
        self.words[at] = word;
    }
}
