//! Words in memory as those of a node file, for trying what asks files.

ghost use Rattle.std.specs.Prelude.{◌≡◌, ◌≤◌, cond, length};
ghost use Rattle.svo_base.specs.GridShape.{IsGrid};

use crate::records::{Records, Totals};
use dev_traits::Failed;
use std::sync::ledger::Ledger;
use svo_base::{Grid, Steps};

/// Lent words as those of a file, in format 1 where they are masks of cells, else in format 2. One call
/// of `word` is refused: the one with this number, from 1.
#[derive(Drop)]
pub struct LentWords<'a> {
    pub masks: bool,
    pub grid: Grid,
    pub cells: u64,
    pub words: &'a [u64],
    pub refused: u64,
    pub calls: u64,
    pub faults: u64,
    pub ghost limits: { IsGrid grid },
    pub ghost some: { 1 ≤ length words.now },
}

impl<'a> Records for LentWords<'a> {
    ghost use Rattle.std.specs.Prelude.{cond, length, Some};

    ghost file = { λ s. record { format = cond s.masks 1 2; grid = s.grid; totals = record { records = length s.words.now; cells = s.cells }; words = Some s.words.now } };

    ghost faults = { λ s. s.faults };

    ghost looked = { λ s. s.calls };

    fn grid(&self) -> Grid {
        self.grid
    }

    fn totals(&self) -> Totals {
        Totals {
            records: self.words.len() as u64,
            cells: self.cells,
        }
    }

    fn format(&self) -> u32 {
        number_of_format(self.masks)
    }

    fn word<L: Ledger>(&mut self, number: u64, reads: &mut Steps<L>) -> Result<u64, Failed> {
        reads.tick();
        self.calls = self.calls.saturating_add(1);
        if self.calls == self.refused {
            self.faults = self.faults.saturating_add(1);
            return Err(Failed);
        }
        let words = self.words;
        Ok(words[number as usize])
    }
}

fn number_of_format(masks: bool) -> u32
    ensures { result ≡ cond masks 1 2 }
{
    if masks { 1 } else { 2 }
}
