//! The runs of a row.

use crate::comparing::first_difference;
use crate::entries::{CallSweep, CutSweep, Refusal, Row, Sweep, Want};
use crate::faults::{RowFault, malformed};
use crate::running::{Outcome, run_once};
use crate::setups::{Setup, StoreFile, words_of};
use crate::spelling::{Known, Names, spelled, unknown};
use std::alloc::{AllocError, Global};

/// The most complaints that are kept of a row.
const MOST: usize = 3;

/// The most calls of a device that are refused in turn.
const MOST_CALLS: u64 = 1_000_000;

/// How many runs a row made, what did not come as wanted, and what its last run put out.
#[derive(Drop)]
pub struct Tally {
    pub runs: u64,
    pub complaints: Vec<String>,
    pub out: Vec<u8>,
}

/// The bytes that the table names, and what its rows put out.
#[derive(Clone, Copy)]
pub struct Shelf<'a> {
    pub named: &'a Names,
    pub outputs: &'a Names,
}

/// Makes the runs of a row.
pub fn run_row(alloc: Global, shelf: &Shelf<'_>, row: &Row) -> Result<Tally, RowFault> {
    let setup = setup_of(alloc, shelf, row)?;
    let mut tally = Tally {
        runs: 0,
        complaints: Vec::new(alloc),
        out: Vec::new(alloc),
    };
    match &row.sweep {
        None => {
            let came = run_once(alloc, &setup)?;
            judge(alloc, shelf, row, &setup, &came, 0, &mut tally)?;
            tally.out = Vec::from_slice(alloc, came.out.bytes())?;
        }
        Some(sweep) => run_sweep(alloc, shelf, row, setup, sweep, &mut tally)?,
    }
    if let Some(runs) = row.runs
        && runs != tally.runs
    {
        let made = tally.runs;
        let text = format!(in alloc; "wanted {runs} runs, made {made}")?;
        tally.complaints.push(text)?;
    }
    Ok(tally)
}

/// What the runs of a row are given.
fn setup_of(alloc: Global, shelf: &Shelf<'_>, row: &Row) -> Result<Setup, RowFault> {
    let known = Known {
        named: shelf.named,
        outputs: shelf.outputs,
        setup: None,
    };
    let input = match &row.given.input {
        Some(bytes) => spelled(alloc, &known, bytes)?,
        None => Vec::new(alloc),
    };
    let mut files = Vec::new(alloc);
    for file in row.given.files.as_slice() {
        files.push(StoreFile {
            name: String::from_str(alloc, file.name.as_str())?,
            bytes: spelled(alloc, &known, &file.are)?,
        })?;
    }
    if row.given.piece == 0 {
        return Err(malformed(alloc, "a piece of no byte"));
    }
    Ok(Setup {
        words: words_of(alloc, &row.run)?,
        input,
        piece: row.given.piece,
        room: row.given.room,
        streams: row.given.streams,
        stream_room: row.given.stream_room,
        refuses: Vec::from_slice(alloc, row.given.refuses.as_slice())?,
        files,
    })
}

/// Counts a run, and complains where it is neither as wanted nor as the other want says.
fn judge(
    alloc: Global,
    shelf: &Shelf<'_>,
    row: &Row,
    setup: &Setup,
    came: &Outcome,
    number: usize,
    tally: &mut Tally,
) -> Result<(), RowFault> {
    let known = Known {
        named: shelf.named,
        outputs: shelf.outputs,
        setup: Some(setup),
    };
    tally.runs = tally.runs.saturating_add(1);
    let Some(difference) = first_difference(alloc, &known, &row.want, number, came)? else {
        return Ok(());
    };
    if let Some(or) = &row.or
        && first_difference(alloc, &known, or, number, came)?.is_none()
    {
        return Ok(());
    }
    complain(alloc, difference.as_str(), number, tally)
}

/// Keeps a complaint, with the number at which the sweep stands.
fn complain(
    alloc: Global,
    difference: &str,
    number: usize,
    tally: &mut Tally,
) -> Result<(), RowFault> {
    if tally.complaints.len() < MOST {
        let text = format!(in alloc; "{difference} (at {number})")?;
        tally.complaints.push(text)?;
    }
    Ok(())
}

/// The same for the run that ends a sweep of calls.
fn judge_last(
    alloc: Global,
    shelf: &Shelf<'_>,
    then: &Want,
    setup: &Setup,
    came: &Outcome,
    tally: &mut Tally,
) -> Result<(), RowFault> {
    let known = Known {
        named: shelf.named,
        outputs: shelf.outputs,
        setup: Some(setup),
    };
    tally.runs = tally.runs.saturating_add(1);
    if let Some(difference) = first_difference(alloc, &known, then, 0, came)? {
        complain(alloc, difference.as_str(), 0, tally)?;
    }
    Ok(())
}

/// Makes the runs of a sweep.
fn run_sweep(
    alloc: Global,
    shelf: &Shelf<'_>,
    row: &Row,
    setup: Setup,
    sweep: &Sweep,
    tally: &mut Tally,
) -> Result<(), RowFault> {
    match sweep {
        Sweep::Calls(calls) => sweep_calls(alloc, shelf, row, setup, calls, tally),
        Sweep::Cuts(cuts) => sweep_cuts(alloc, shelf, row, setup, cuts, tally),
        Sweep::EachByte(name) => sweep_bytes(alloc, shelf, row, setup, name.as_str(), tally),
        Sweep::Pieces(pieces) => sweep_pieces(alloc, shelf, row, setup, pieces.as_slice(), tally),
        Sweep::Words(words) => sweep_words(alloc, shelf, row, setup, words.as_slice(), tally),
    }
}

/// Each call of a device in turn is refused, for each number of bytes that it takes.
fn sweep_calls(
    alloc: Global,
    shelf: &Shelf<'_>,
    row: &Row,
    mut setup: Setup,
    calls: &CallSweep,
    tally: &mut Tally,
) -> Result<(), RowFault> {
    let Some(then) = &row.then else {
        return Err(malformed(alloc, "a sweep of calls without a last run"));
    };
    for taken in calls.taken.as_slice() {
        sweep_taken(
            alloc,
            shelf,
            row,
            then,
            &mut setup,
            Refusal {
                device: calls.device,
                call: 1,
                taken: *taken,
            },
            tally,
        )?;
    }
    Ok(())
}

/// The same for one number of bytes.
fn sweep_taken(
    alloc: Global,
    shelf: &Shelf<'_>,
    row: &Row,
    then: &Want,
    setup: &mut Setup,
    first: Refusal,
    tally: &mut Tally,
) -> Result<(), RowFault> {
    for before in 0..MOST_CALLS {
        let call = before.saturating_add(1);
        setup.refuses = with_refusal(
            alloc,
            row.given.refuses.as_slice(),
            Refusal { call, ..first },
        )?;
        let came = run_once(alloc, setup)?;
        if !came.refused(first.device) {
            return judge_last(alloc, shelf, then, setup, &came, tally);
        }
        judge(alloc, shelf, row, setup, &came, call as usize, tally)?;
    }
    Err(malformed(alloc, "a sweep of calls without an end"))
}

/// Refusals, and one more.
fn with_refusal(
    alloc: Global,
    refuses: &[Refusal],
    more: Refusal,
) -> Result<Vec<Refusal>, AllocError> {
    let mut all = Vec::from_slice(alloc, refuses)?;
    all.push(more)?;
    Ok(all)
}

/// The bytes that a sweep changes.
fn swept(alloc: Global, setup: &Setup, name: &str) -> Result<Vec<u8>, RowFault> {
    match setup.given(name) {
        Some(bytes) => Ok(Vec::from_slice(alloc, bytes)?),
        None => Err(unknown(alloc, "input or file of the row", name)),
    }
}

/// The input, or a file, is cut to each length.
fn sweep_cuts(
    alloc: Global,
    shelf: &Shelf<'_>,
    row: &Row,
    mut setup: Setup,
    cuts: &CutSweep,
    tally: &mut Tally,
) -> Result<(), RowFault> {
    let whole = swept(alloc, &setup, cuts.of.as_str())?;
    for length in cuts.from..=cuts.to {
        let Some(front) = whole.as_slice().get(..length) else {
            return Err(malformed(alloc, "a cut behind the end"));
        };
        setup.put(cuts.of.as_str(), Vec::from_slice(alloc, front)?);
        let came = run_once(alloc, &setup)?;
        judge(alloc, shelf, row, &setup, &came, length, tally)?;
    }
    Ok(())
}

/// Each byte of the input, or of a file, is each other value.
fn sweep_bytes(
    alloc: Global,
    shelf: &Shelf<'_>,
    row: &Row,
    mut setup: Setup,
    name: &str,
    tally: &mut Tally,
) -> Result<(), RowFault> {
    let whole = swept(alloc, &setup, name)?;
    for at in 0..whole.len() {
        for step in 1..=255u8 {
            let mut bytes = Vec::from_slice(alloc, whole.as_slice())?;
            if let Some(byte) = bytes.get_mut(at) {
                *byte = byte.wrapping_add(step);
            }
            setup.put(name, bytes);
            let came = run_once(alloc, &setup)?;
            judge(alloc, shelf, row, &setup, &came, at, tally)?;
        }
    }
    Ok(())
}

/// A read gives at most so many bytes.
fn sweep_pieces(
    alloc: Global,
    shelf: &Shelf<'_>,
    row: &Row,
    mut setup: Setup,
    pieces: &[usize],
    tally: &mut Tally,
) -> Result<(), RowFault> {
    for piece in pieces {
        if *piece == 0 {
            return Err(malformed(alloc, "a piece of no byte"));
        }
        setup.piece = *piece;
        let came = run_once(alloc, &setup)?;
        judge(alloc, shelf, row, &setup, &came, *piece, tally)?;
    }
    Ok(())
}

/// Each word in turn stands behind the command line.
fn sweep_words(
    alloc: Global,
    shelf: &Shelf<'_>,
    row: &Row,
    mut setup: Setup,
    words: &[String],
    tally: &mut Tally,
) -> Result<(), RowFault> {
    for (number, word) in words.iter().enumerate() {
        setup.words = words_of(alloc, &row.run)?;
        setup.words.push(String::from_str(alloc, word.as_str())?)?;
        let came = run_once(alloc, &setup)?;
        judge(alloc, shelf, row, &setup, &came, number, tally)?;
    }
    Ok(())
}
