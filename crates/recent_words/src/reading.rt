//! Words of a file through a table of those that were read lately.

ghost use Rattle.std.specs.Prelude.{◌≡◌};
ghost use Rattle.recent_words.specs.Tables.{AreWords};

use crate::table::Table;
use dev_traits::Failed;
use node_file::{Records, Totals};
use std::sync::ledger::Ledger;
use svo_base::{Grid, Steps};

/// The words of a lent file. Those that were read lately are given without it, so that walks which go
/// the same way again, as those of rays that lie side by side, cost it nothing where they do.
#[derive(Drop)]
pub struct RecentWords<'a, R: Records> {
    nodes: &'a mut R,
    table: Table,
    looked: u64,
    ghost right: { AreWords (R.file nodes.now) table },
}

impl<'a, R: Records> RecentWords<'a, R> {
    /// The words of this file, of which none is remembered yet.
    pub fn new(nodes: &'a mut R) -> RecentWords<'a, R>
        ensures loan { result.nodes.ghost_name ≡ nodes.entry.ghost_name }
        ensures now { result.nodes.now ≡ nodes.old }
    {
        count_records(nodes);
        RecentWords {
            nodes,
            table: Table::new(),
            looked: 0,
        }
    }
}

/// How many words a file has, which a number of 64 bits tells.
fn count_records<R: Records>(nodes: &R) -> u64
    ensures { result ≡ (R.file nodes.now).totals.records }
{
    nodes.totals().records
}

impl<'a, R: Records> Records for RecentWords<'a, R> {
    ghost use Rattle.recent_words.specs.Loans.{loan_number};

    ghost file = { λ s. R.file s.nodes.now };

    ghost faults = { λ s. R.faults s.nodes.now };

    ghost looked = { λ s. s.looked };

    ghost lender = { λ s. loan_number s.nodes.ghost_name (R.lender s.nodes.now) };

    fn grid(&self) -> Grid {
        self.nodes.grid()
    }

    fn totals(&self) -> Totals {
        self.nodes.totals()
    }

    fn format(&self) -> u32 {
        self.nodes.format()
    }

    /// As [`Records::word`]. A word that is remembered comes without the file.
    fn word<L: Ledger>(&mut self, number: u64, reads: &mut Steps<L>) -> Result<u64, Failed> {
        self.looked = self.looked.saturating_add(1);
        if let Some(word) = self.table.get(number) {
            reads.tick();
            return Ok(word);
        }
        let word = self.nodes.word(number, reads)?;
        self.table.put(number, word);
        Ok(word)
    }
}
