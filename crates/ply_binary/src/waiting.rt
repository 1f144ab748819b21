//! Text that was made and waits to be given.

ghost use Rattle.std.specs.Prelude.{◌≡◌, ◌+◌, ◌-◌, ◌≤◌, ◌<◌, ◌++◌, [], length, take, drop, codes, replicate};
ghost use Rattle.ply_binary.specs.HeaderTexts.{ascii_with};

use arrayvec::ArrayVec;
use std::marker::Model;

/// Room for the longest line and its end.
const ROOM: usize = 1040;

/// The word of the binary format, and what stands in its place.
const BINARY_SIZE: usize = 20;

const ASCII: &[u8] = b"ascii";

const SPACES: &[u8] = b"               ";

/// Text that waits, of which a front was given.
#[derive(Drop)]
pub(crate) struct Waiting {
    bytes: ArrayVec<u8, ROOM>,
    given: usize,
}

impl Model for Waiting {
    ghost use Rattle.std.specs.Prelude.{◌≤◌, ℕ, List, length, drop};

    ghost Value = { List ℕ };

    ghost view = { λ w. drop w.given w.bytes.items };

    ghost invariant = { λ w. w.given ≤ length w.bytes.items };
}

impl Waiting {
    /// No text.
    pub(crate) fn new() -> Waiting
        ensures { result ≡ [] }
    {
        Waiting {
            bytes: ArrayVec::new(),
            given: 0,
        }
    }

    /// A text of at most 1040 bytes.
    pub(crate) fn of(text: &[u8]) -> Waiting
        requires { length text.now ≤ 1040 }
        ensures { result ≡ text.now }
    {
        let mut bytes = ArrayVec::new();
        bytes.try_extend_from_slice(text).unwrap();
        Waiting { bytes, given: 0 }
    }

    /// A format line of this tail with `ascii` in the place of the 20 bytes before it, 15 spaces, and
    /// the line's end.
    #[tactic(auto, unfolding(crate::specs::HeaderTexts::ascii_with))]
    pub(crate) fn of_format(line: &[u8], tail: &[u8], end: &[u8]) -> Waiting
        requires tail { length tail.now + 20 ≤ length line.now }
        requires short { length line.now + length end.now ≤ 1040 }
        ensures { result ≡ ascii_with line.now tail.now ++ end.now }
    {
        let mut bytes = ArrayVec::new();
        let front = line.len() - (tail.len() + BINARY_SIZE);
        bytes.try_extend_from_slice(&line[..front]).unwrap();
        bytes.try_extend_from_slice(ASCII).unwrap();
        bytes.try_extend_from_slice(tail).unwrap();
        bytes.try_extend_from_slice(SPACES).unwrap();
        bytes.try_extend_from_slice(end).unwrap();
        Waiting { bytes, given: 0 }
    }

    /// The text.
    pub(crate) fn text(&self) -> &[u8]
        ensures { result.now ≡ self.now }
    {
        &self.bytes.as_slice()[self.given..]
    }

    /// Gives the front of the text, as much as there is room for, and none only where no text waits.
    pub(crate) fn give(&mut self, into: &mut [u8]) -> usize
        requires { 0 < length into.old }
        ensures bound { result ≤ length into.old }
        ensures text { self.old ≡ take result into.new ++ self.new }
        ensures end { result ≡ 0 → self.old ≡ [] }
    {
        let text = &self.bytes.as_slice()[self.given..];
        let count = text.len().min(into.len());
        into[..count].copy_from_slice(&text[..count]);
        self.given += count;
        count
    }
}
