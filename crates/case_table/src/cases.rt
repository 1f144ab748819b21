//! A table of cases.

ghost use Rattle.std.specs.Prelude.{◌≡◌, ◌<◌, [], slice_index_or};

use std::marker::Model;

/// A table of N cases, each of three small numbers.
#[derive(Clone, Copy)]
pub struct Cases<const N: usize> {
    entries: [[u8; 3]; N],
}

impl<const N: usize> Model for Cases<N> {
    ghost use Rattle.std.specs.Prelude.{List, ℕ};

    ghost Value = { List (List ℕ) };

    ghost view = { λ c. c.entries };

    ghost inverse = { λ entries. record { entries = entries } };
}

impl<const N: usize> Cases<N> {
    /// The table with these entries.
    pub fn new(entries: [[u8; 3]; N]) -> Cases<N>
        ensures { result ≡ entries.entry }
    {
        Cases { entries }
    }

    /// The case at a place.
    pub fn get(&self, place: usize) -> [u8; 3]
        requires { place < N }
        ensures { result ≡ slice_index_or self.now place [] }
    {
        self.entries[place]
    }
}
