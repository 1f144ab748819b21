//! Runs worked rows from a table: command lines of the program over devices in memory, each with what
//! must come. `docs/ROWS.md` says what a row is.
//!
//! The table is the standard input. What does not hold is named on the standard output, a line each, and
//! behind that stands how many rows hold and how many runs they made. The exit status is 1 where a row
//! does not hold or a line is no entry.
//!
//! The data's way: a line of the table (`entries`, `members`), its bytes (`spelling`), what a run is given
//! (`setups`), the run (`running`, over a scratch of `watching`), what it left beside what must come
//! (`comparing`), the runs of a row (`sweeping`), and all rows (`table`).
#![tactic(auto)]

mod comparing;
mod entries;
mod faults;
mod members;
mod running;
mod setups;
mod spelling;
mod sweeping;
mod table;
mod watching;

use crate::table::Table;
use std::io;
use std::process::ExitCode;

fn main(rt: HostRuntime) -> io::Result<ExitCode> {
    let mut table = Table::new(rt.alloc());
    let mut number: u64 = 0;
    for line in rt.lines(rt.alloc()) {
        number = number.saturating_add(1);
        table.take(rt.alloc(), number, line?.as_str())?;
    }
    for complaint in table.complaints() {
        println!(rt; "{complaint}")?;
    }
    let counts = table.counts();
    let (holding, rows, runs) = (counts.holding, counts.rows, counts.runs);
    println!(rt; "{holding} of {rows} rows hold, {runs} runs")?;
    if table.complaints().is_empty() {
        Ok(ExitCode::SUCCESS)
    } else {
        Ok(ExitCode::FAILURE)
    }
}
