//! What a file of an octree's words is, however its words are kept.

ghost use Rattle.std.specs.Prelude.{◌≡◌, ℕ, ◌+◌, ◌<◌};
ghost use Rattle.dev_traits.specs.Faults.{HasCause, counted};
ghost use Rattle.node_file.specs.FileView.{FileView, IsFileView};
ghost use Rattle.node_file.specs.Told.{GivesWord};

use dev_traits::Failed;
use std::sync::ledger::Ledger;
use svo_base::{Grid, Steps};

/// How many words and how many filled cells a node file has, as its trailer says.
#[derive(Clone, Copy, Debug, PartialEq, Eq)]
pub struct Totals {
    pub records: u64,
    pub cells: u64,
}

/// The words of a framed node file, by number. They are 64 bits each, and numbered from 0.
pub trait Records {
    /// The file, with its words where they are told. No call changes it.
    ghost file: { Self → FileView };

    /// The faults so far. The count never falls; at 2^64 - 1, the last value of a counter of 64 bits,
    /// it may stay while faults go on.
    ghost faults: { Self → ℕ };

    /// The calls of `word` so far, in a counter of 64 bits that stays at its last value.
    ghost looked: { Self → ℕ };

    /// The name of the loan that the file is read through, where it is read through one. No call
    /// changes it, so that whoever lent a store knows what it is once the loan is over.
    ghost lender: { Self → ℕ } = { λ _. 0 };

    /// The grid whose cells the file keeps.
    fn grid(&self) -> Grid
        ensures value { result ≡ (file self.now).grid }
        ensures framed { IsFileView (file self.now) };

    /// The numbers of words and of cells.
    fn totals(&self) -> Totals
        ensures value { result ≡ (file self.now).totals }
        ensures framed { IsFileView (file self.now) };

    /// The number of the file's format, 1 or 2.
    fn format(&self) -> u32
        ensures value { result ≡ (file self.now).format }
        ensures framed { IsFileView (file self.now) };

    /// Reads the word of a number. It is refused only where a fault was counted. Each call counts as
    /// one of `reads`.
    fn word<L: Ledger>(&mut self, number: u64, reads: &mut Steps<L>) -> Result<u64, Failed>
        requires { number < (file self.old).totals.records }
        ensures word { GivesWord (file self.old).words number result }
        ensures same { file self.new ≡ file self.old }
        ensures reads { reads.new ≡ reads.old + 1 }
        ensures looked { looked self.new ≡ counted (looked self.old) }
        ensures lender { lender self.new ≡ lender self.old }
        ensures cause { HasCause (faults self.old) (faults self.new) result };
}
