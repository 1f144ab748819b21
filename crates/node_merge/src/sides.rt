//! One file of a pair, as its words are read.

use crate::pairs::{Pair, Turn};
use dev_traits::{Failed, NodeStore};
use node_file::{Records, Totals};
use std::sync::ledger::Ledger;
use svo_base::{Grid, Steps};

/// One file of a pair, which is lent whole. A word is read from the store only where the file's block
/// does not hold it, and the file is made the current one before that where the other was read since.
#[derive(Drop)]
pub struct Side<'a, 'b, N: NodeStore> {
    pub pair: &'a mut Pair<'b, N>,
    pub turn: Turn,
    pub looked: u64,
}

impl<'a, 'b, N: NodeStore> Records for Side<'a, 'b, N> {
    ghost use Rattle.node_merge.specs.Sides.{side_view, side_number};

    ghost file = { λ s. side_view s };

    ghost faults = { λ s. N.faults s.pair.now.store.now };

    ghost looked = { λ s. s.looked };

    ghost lender = { λ s. side_number s };

    fn grid(&self) -> Grid {
        self.pair.frame(self.turn).grid
    }

    fn totals(&self) -> Totals {
        self.pair.frame(self.turn).totals
    }

    fn format(&self) -> u32 {
        self.pair.frame(self.turn).format
    }

    fn word<L: Ledger>(&mut self, number: u64, reads: &mut Steps<L>) -> Result<u64, Failed> {
        reads.tick();
        self.looked = self.looked.saturating_add(1);
        self.pair.word_of(self.turn, number)
    }
}
