//! The table, line by line.

use crate::entries::{Entry, NamedBytes, Row};
use crate::faults::RowFault;
use crate::members::FromValue;
use crate::spelling::{Known, Names, spelled};
use crate::sweeping::{Shelf, run_row};
use serde_json::Value;
use std::alloc::{AllocError, Global};
use std::collections::BTreeMap;

/// What the lines of a table have brought so far.
#[derive(Drop)]
pub struct Table {
    named: Names,
    outputs: Names,
    rows: u64,
    holding: u64,
    runs: u64,
    complaints: Vec<String>,
}

impl Table {
    /// A table without a line.
    pub fn new(alloc: Global) -> Table {
        Table {
            named: BTreeMap::new(alloc),
            outputs: BTreeMap::new(alloc),
            rows: 0,
            holding: 0,
            runs: 0,
            complaints: Vec::new(alloc),
        }
    }

    /// Takes a line: a row of it is run. Blank lines and those that begin with `#` are passed over.
    pub fn take(&mut self, alloc: Global, number: u64, line: &str) -> Result<(), AllocError> {
        let line = line.trim();
        if line.is_empty() || line.starts_with('#') {
            return Ok(());
        }
        match serde_json::from_str::<Value>(alloc, line) {
            Ok(entry) => self.take_entry(alloc, number, named_in(line), entry),
            Err(error) => {
                let what = named_in(line);
                self.complain(format!(in alloc; "line {number}{what}: {error}")?)
            }
        }
    }

    /// Keeps what does not hold: a row that does not, or a line that is no entry.
    fn complain(&mut self, text: String) -> Result<(), AllocError> {
        self.complaints.push(text)?;
        Ok(())
    }

    /// Keeps bytes with a name.
    fn keep(&mut self, alloc: Global, number: u64, bytes: NamedBytes) -> Result<(), AllocError> {
        let known = Known {
            named: &self.named,
            outputs: &self.outputs,
            setup: None,
        };
        let made = spelled(alloc, &known, &bytes.are);
        let name = bytes.name.as_str();
        match made {
            Err(RowFault::Memory) => Err(AllocError),
            Err(RowFault::Malformed(cause)) => {
                self.complain(format!(in alloc; "line {number} of {name}: {cause}")?)
            }
            Ok(_) if self.named.contains_key(name) => {
                self.complain(format!(in alloc; "line {number}: {name} is there already")?)
            }
            Ok(made) => {
                self.named.insert(String::from_str(alloc, name)?, made)?;
                Ok(())
            }
        }
    }

    /// Keeps the bytes of an entry, or runs its row.
    fn take_entry(
        &mut self,
        alloc: Global,
        number: u64,
        named: &str,
        entry: Value,
    ) -> Result<(), AllocError> {
        match Entry::read(alloc, entry) {
            Ok(Entry::Bytes(bytes)) => self.keep(alloc, number, bytes),
            Ok(Entry::Row(row)) => self.run(alloc, &row),
            Err(RowFault::Memory) => Err(AllocError),
            Err(RowFault::Malformed(cause)) => {
                self.complain(format!(in alloc; "line {number}{named}: {cause}")?)
            }
        }
    }

    /// Runs a row.
    fn run(&mut self, alloc: Global, row: &Row) -> Result<(), AllocError> {
        self.rows = self.rows.saturating_add(1);
        let name = row.name.as_str();
        if self.outputs.contains_key(name) {
            return self.complain(format!(in alloc; "{name}: a row of this name is there already")?);
        }
        let shelf = Shelf {
            named: &self.named,
            outputs: &self.outputs,
        };
        match run_row(alloc, &shelf, row) {
            Err(RowFault::Memory) => Err(AllocError),
            Err(RowFault::Malformed(cause)) => self.complain(format!(in alloc; "{name}: {cause}")?),
            Ok(tally) => {
                self.runs = self.runs.saturating_add(tally.runs);
                if tally.complaints.is_empty() {
                    self.holding = self.holding.saturating_add(1);
                }
                for complaint in tally.complaints.as_slice() {
                    self.complain(format!(in alloc; "{name}: {complaint}")?)?;
                }
                self.outputs
                    .insert(String::from_str(alloc, name)?, tally.out)?;
                Ok(())
            }
        }
    }

    /// What did not hold, a line each.
    pub fn complaints(&self) -> &[String] {
        self.complaints.as_slice()
    }

    /// How many rows there are, how many of them hold, and how many runs they made.
    pub fn counts(&self) -> Counts {
        Counts {
            rows: self.rows,
            holding: self.holding,
            runs: self.runs,
        }
    }
}

/// The counts of a table.
#[derive(Clone, Copy)]
pub struct Counts {
    pub rows: u64,
    pub holding: u64,
    pub runs: u64,
}

/// The name that a line has which is no entry, to tell it by.
fn named_in(line: &str) -> &str {
    match line.split_once("\"name\"") {
        Some((_, rest)) => match rest.split_once(',') {
            Some((name, _)) => name,
            None => "",
        },
        None => "",
    }
}
