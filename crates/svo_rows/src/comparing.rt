//! What a run left, compared with what must come.

use crate::entries::{Calls, Device, Stream, Want, WantedErr, WantedOut};
use crate::faults::RowFault;
use crate::running::Outcome;
use crate::spelling::{Known, int_bytes, spelled};
use sha2::{Digest, Sha256};
use std::alloc::{AllocError, Global};

/// The first thing that is not as wanted, in words; `None` where all is. A `#` in a wanted line stands
/// for `number`.
pub fn first_difference(
    alloc: Global,
    known: &Known<'_>,
    want: &Want,
    number: usize,
    came: &Outcome,
) -> Result<Option<String>, RowFault> {
    if let Some(difference) = in_status(alloc, want, number, came)? {
        return Ok(Some(difference));
    }
    if let Some(difference) = in_out(alloc, known, want, came)? {
        return Ok(Some(difference));
    }
    in_devices(alloc, want, came)
}

/// A difference of the status or of the line that says why.
fn in_status(
    alloc: Global,
    want: &Want,
    number: usize,
    came: &Outcome,
) -> Result<Option<String>, RowFault> {
    let err = came.err.bytes();
    let line = printable(alloc, err)?;
    if want.status != came.status {
        let (wanted, status) = (want.status, came.status);
        let text = format!(in alloc; "wanted status {wanted}, came {status} with err {line}")?;
        return Ok(Some(text));
    }
    let wanted = wanted_line(alloc, want, number)?;
    if wanted.is_met(err) {
        return Ok(None);
    }
    let text = wanted.text.as_str();
    Ok(Some(format!(in alloc; "wanted err {text:?}, came {line}")?))
}

/// How far bytes must be those of a text.
#[derive(Clone, Copy)]
enum Extent {
    Whole,
    Front,
    Beginning,
}

/// A line that must come.
#[derive(Drop)]
struct WantedLine {
    text: String,
    extent: Extent,
}

impl WantedLine {
    /// Whether these bytes are as wanted.
    fn is_met(&self, came: &[u8]) -> bool {
        let wanted = self.text.as_bytes();
        match self.extent {
            Extent::Whole => came == wanted,
            Extent::Front => wanted.starts_with(came),
            Extent::Beginning => came.starts_with(wanted),
        }
    }
}

/// The line that must come, with its end; nothing where the row names none.
fn wanted_line(alloc: Global, want: &Want, number: usize) -> Result<WantedLine, AllocError> {
    match &want.err {
        WantedErr::Nothing => Ok(WantedLine {
            text: String::new(alloc),
            extent: Extent::Whole,
        }),
        WantedErr::Line(line) => Ok(WantedLine {
            text: numbered(alloc, line.as_str(), number)?,
            extent: Extent::Whole,
        }),
        WantedErr::Front(line) => Ok(WantedLine {
            text: numbered(alloc, line.as_str(), number)?,
            extent: Extent::Front,
        }),
        WantedErr::Begins(front) => Ok(WantedLine {
            text: String::from_str(alloc, front.as_str())?,
            extent: Extent::Beginning,
        }),
    }
}

/// A line with its end, and with a number in the place of its first `#`.
fn numbered(alloc: Global, line: &str, number: usize) -> Result<String, AllocError> {
    match line.split_once('#') {
        None => format!(in alloc; "{line}\n"),
        Some((front, back)) => format!(in alloc; "{front}{number}{back}\n"),
    }
}

/// A difference of what was put out.
fn in_out(
    alloc: Global,
    known: &Known<'_>,
    want: &Want,
    came: &Outcome,
) -> Result<Option<String>, RowFault> {
    let out = came.out.bytes();
    match &want.out {
        WantedOut::Nothing => differs(alloc, out.is_empty(), b"", out),
        WantedOut::Whole(bytes) => {
            let wanted = spelled(alloc, known, bytes)?;
            differs(alloc, out == wanted.as_slice(), wanted.as_slice(), out)
        }
        WantedOut::Front(bytes) => {
            let wanted = spelled(alloc, known, bytes)?;
            differs(alloc, wanted.starts_with(out), wanted.as_slice(), out)
        }
        WantedOut::Sha256(digest) => {
            let found = hex::encode(alloc, Sha256::digest(out))?;
            differs(
                alloc,
                found.as_str() == digest.as_str(),
                digest.as_bytes(),
                found.as_bytes(),
            )
        }
    }
}

/// What was wanted and what came, where it is not as wanted.
fn differs(
    alloc: Global,
    is_met: bool,
    wanted: &[u8],
    came: &[u8],
) -> Result<Option<String>, RowFault> {
    if is_met {
        return Ok(None);
    }
    let wanted = printable(alloc, wanted)?;
    let came = printable(alloc, came)?;
    Ok(Some(format!(in alloc; "wanted out {wanted}, came {came}")?))
}

/// The most bytes that a complaint shows.
const SHOWN: usize = 400;

/// Bytes as text where they are some, and else in hexadecimal digits; no more than a complaint shows.
fn printable(alloc: Global, bytes: &[u8]) -> Result<String, AllocError> {
    let length = bytes.len();
    let shown = bytes.get(..SHOWN).unwrap_or(bytes);
    match std::str::from_utf8(shown) {
        Ok(text) if !shown.contains(&0) => format!(in alloc; "{text:?} ({length} bytes)"),
        _ => {
            let digits = hex::encode(alloc, shown)?;
            format!(in alloc; "{digits} ({length} bytes)")
        }
    }
}

/// A difference of what the devices had to do.
fn in_devices(alloc: Global, want: &Want, came: &Outcome) -> Result<Option<String>, RowFault> {
    if let Some(left) = want.left
        && left != came.left
    {
        let found = came.left;
        let text = format!(in alloc; "wanted {left} bytes of the input left, came {found}")?;
        return Ok(Some(text));
    }
    if let Some(place) = &want.place
        && came.scratch.place() != Some(place.as_str())
    {
        let place = place.as_str();
        return Ok(Some(format!(in alloc; "wanted the scratch at {place}")?));
    }
    if let Some(calls) = &want.calls
        && let Some(difference) = in_calls(alloc, calls, came)?
    {
        return Ok(Some(difference));
    }
    for stream in want.streams.as_slice() {
        if !has_stream(alloc, stream, came)? {
            let number = stream.stream;
            return Ok(Some(format!(in alloc; "stream {number} has other records")?));
        }
    }
    Ok(None)
}

/// A difference of how many calls a device had.
fn in_calls(alloc: Global, calls: &Calls, came: &Outcome) -> Result<Option<String>, AllocError> {
    let wanted = [
        (Device::Read, calls.read),
        (Device::Out, calls.out),
        (Device::Err, calls.err),
        (Device::Scratch, calls.scratch),
        (Device::Nodes, calls.nodes),
    ];
    for (device, count) in wanted {
        if let Some(count) = count
            && count != came.calls(device)
        {
            let found = came.calls(device);
            return Ok(Some(format!(in alloc; "wanted {count} calls of {device:?}, came {found}")?));
        }
    }
    Ok(None)
}

/// Whether a stream holds just these records.
fn has_stream(alloc: Global, stream: &Stream, came: &Outcome) -> Result<bool, AllocError> {
    let Some(bytes) = came.scratch.stream(stream.stream) else {
        return Ok(false);
    };
    let mut whole = Vec::new(alloc);
    let mut found = true;
    for record in stream.records.as_slice() {
        let record = int_bytes(alloc, record.as_slice())?;
        whole.extend_from_slice(record.as_slice())?;
        found = found && stands_in(bytes, record.as_slice());
    }
    if stream.in_any_order {
        return Ok(found && bytes.len() == whole.len());
    }
    Ok(bytes == whole.as_slice())
}

/// Whether a record stands among those of its length.
fn stands_in(bytes: &[u8], record: &[u8]) -> bool {
    if record.is_empty() {
        return false;
    }
    bytes.chunks(record.len()).any(|chunk| chunk == record)
}
