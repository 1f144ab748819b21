//! The bytes that a table spells.

use crate::entries::{Bytes, Change, Changed, MeshLines, NodeWords, Placed, Spelling};
use crate::faults::{RowFault, malformed};
use crate::setups::Setup;
use std::alloc::{AllocError, Global};
use std::collections::BTreeMap;

/// Bytes by name.
pub type Names = BTreeMap<String, Vec<u8>>;

/// Where the bytes of names are found.
#[derive(Clone, Copy)]
pub struct Known<'a> {
    /// Those that the table names.
    pub named: &'a Names,
    /// What earlier rows put out, by the names of the rows.
    pub outputs: &'a Names,
    /// What the run is given, where there is one.
    pub setup: Option<&'a Setup>,
}

/// A fault that names what is not known.
pub fn unknown(alloc: Global, what: &str, name: &str) -> RowFault {
    match format!(in alloc; "no {what} is named {name}") {
        Ok(cause) => RowFault::Malformed(cause),
        Err(_) => RowFault::Memory,
    }
}

/// Bytes as the table spells them.
pub fn spelled(alloc: Global, known: &Known<'_>, bytes: &Bytes) -> Result<Vec<u8>, RowFault> {
    match bytes {
        Bytes::Name(name) => named(alloc, known, name.as_str()),
        Bytes::Changed(changed) => with_changes(alloc, known, changed),
        Bytes::Spelled(spelling) => spelled_out(alloc, known, spelling),
    }
}

/// The bytes of a name of the table.
fn named(alloc: Global, known: &Known<'_>, name: &str) -> Result<Vec<u8>, RowFault> {
    match known.named.get(name) {
        Some(bytes) => Ok(Vec::from_slice(alloc, bytes.as_slice())?),
        None => Err(unknown(alloc, "text or file", name)),
    }
}

/// What the row of a name put out.
fn output(alloc: Global, known: &Known<'_>, name: &str) -> Result<Vec<u8>, RowFault> {
    match known.outputs.get(name) {
        Some(bytes) => Ok(Vec::from_slice(alloc, bytes.as_slice())?),
        None => Err(unknown(alloc, "earlier row", name)),
    }
}

/// The run's own input or file.
fn given(alloc: Global, known: &Known<'_>, name: &str) -> Result<Vec<u8>, RowFault> {
    match known.setup.and_then(|setup| setup.given(name)) {
        Some(bytes) => Ok(Vec::from_slice(alloc, bytes)?),
        None => Err(unknown(alloc, "input or file of the row", name)),
    }
}

/// Bytes that are spelled out.
fn spelled_out(alloc: Global, known: &Known<'_>, spelling: &Spelling) -> Result<Vec<u8>, RowFault> {
    match spelling {
        Spelling::Text(text) => Ok(Vec::from_slice(alloc, text.as_bytes())?),
        Spelling::Lines(lines) => Ok(lines_of(alloc, lines.as_slice(), "\n")?),
        Spelling::CrlfLines(lines) => Ok(lines_of(alloc, lines.as_slice(), "\r\n")?),
        Spelling::Mesh(mesh) => Ok(mesh_text(alloc, mesh)?),
        Spelling::Hex(digits) => hex_bytes(alloc, digits.as_str()),
        Spelling::Nodes(nodes) => Ok(node_bytes(alloc, nodes)?),
        Spelling::Ints(numbers) => Ok(int_bytes(alloc, numbers.as_slice())?),
        Spelling::OutOf(row) => output(alloc, known, row.as_str()),
        Spelling::Given(name) => given(alloc, known, name.as_str()),
    }
}

/// Lines with their ends.
fn lines_of(alloc: Global, lines: &[String], end: &str) -> Result<Vec<u8>, AllocError> {
    let mut bytes = Vec::new(alloc);
    for line in lines {
        bytes.extend_from_slice(line.as_bytes())?;
        bytes.extend_from_slice(end.as_bytes())?;
    }
    Ok(bytes)
}

/// The text of a mesh in whole numbers, with lines ended by LF.
fn mesh_text(alloc: Global, mesh: &MeshLines) -> Result<Vec<u8>, AllocError> {
    let vertices = mesh.vertices.len();
    let faces = mesh.faces.len();
    let header = format!(in alloc;
        "ply\nformat ascii 1.0\nelement vertex {vertices}\nproperty int x\nproperty int y\nproperty int z\nelement face {faces}\nproperty list uchar int vertex_indices\nend_header\n"
    )?;
    let mut bytes = Vec::from_slice(alloc, header.as_bytes())?;
    for list in [&mesh.vertices, &mesh.faces] {
        let lines = lines_of(alloc, list.as_slice(), "\n")?;
        bytes.extend_from_slice(lines.as_slice())?;
    }
    Ok(bytes)
}

/// The bytes of hexadecimal digits, with blanks between them.
fn hex_bytes(alloc: Global, digits: &str) -> Result<Vec<u8>, RowFault> {
    let mut bytes = Vec::new(alloc);
    for group in digits.split(' ') {
        match hex::decode(alloc, group) {
            Ok(decoded) => bytes.extend_from_slice(decoded.as_slice())?,
            Err(_) => return Err(malformed(alloc, "no hexadecimal digits")),
        }
    }
    Ok(bytes)
}

/// A node file, little-endian: the mark of its format, the depth, the grid, the words, and a trailer with
/// their number, the number of cells, and a mark again.
fn node_bytes(alloc: Global, nodes: &NodeWords) -> Result<Vec<u8>, AllocError> {
    let format = nodes.format;
    let records = nodes.words.len() as u64;
    let mark = format!(in alloc; "SVOCUBE{format}")?;
    let mut bytes = Vec::from_slice(alloc, mark.as_bytes())?;
    bytes.extend_from_slice(&u64::from(nodes.depth).to_le_bytes())?;
    for number in nodes.origin.as_slice() {
        bytes.extend_from_slice(&number.to_le_bytes())?;
    }
    bytes.extend_from_slice(&nodes.cell.to_le_bytes())?;
    for word in nodes.words.as_slice() {
        bytes.extend_from_slice(&word.to_le_bytes())?;
    }
    for number in [0, records, nodes.cells] {
        bytes.extend_from_slice(&number.to_le_bytes())?;
    }
    let mark = format!(in alloc; "SVOCEND{format}")?;
    bytes.extend_from_slice(mark.as_bytes())?;
    Ok(bytes)
}

/// Numbers of four bytes, little-endian.
pub fn int_bytes(alloc: Global, numbers: &[i32]) -> Result<Vec<u8>, AllocError> {
    let mut bytes = Vec::new(alloc);
    for number in numbers {
        bytes.extend_from_slice(&number.to_le_bytes())?;
    }
    Ok(bytes)
}

/// The bytes of a name, with changes.
fn with_changes(alloc: Global, known: &Known<'_>, changed: &Changed) -> Result<Vec<u8>, RowFault> {
    let mut bytes = named(alloc, known, changed.of.as_str())?;
    for change in changed.changes.as_slice() {
        bytes = with_change(alloc, bytes, change)?;
    }
    Ok(bytes)
}

/// Bytes with a change.
fn with_change(alloc: Global, mut bytes: Vec<u8>, change: &Change) -> Result<Vec<u8>, RowFault> {
    match change {
        Change::Cut(length) if *length <= bytes.len() => bytes.truncate(*length),
        Change::Cut(_) => return Err(malformed(alloc, "a cut behind the end")),
        Change::Put(placed) => put(alloc, &mut bytes, placed)?,
        Change::Word(word) => {
            let at = word.number.saturating_mul(8).saturating_add(48);
            put_at(alloc, &mut bytes, at, &word.is.to_le_bytes())?;
        }
        Change::Add(added) => {
            for _ in 0..added.times {
                bytes.extend_from_slice(added.text.as_bytes())?;
            }
        }
        Change::Repeat(repeated) => {
            bytes = with_line(alloc, bytes.as_slice(), repeated.line, repeated.times)?;
        }
    }
    Ok(bytes)
}

/// Puts other bytes at a place.
fn put(alloc: Global, bytes: &mut Vec<u8>, placed: &Placed) -> Result<(), RowFault> {
    let piece = hex_bytes(alloc, placed.hex.as_str())?;
    put_at(alloc, bytes, placed.at, piece.as_slice())
}

/// Puts a piece at a place, within the bytes.
fn put_at(alloc: Global, bytes: &mut Vec<u8>, at: usize, piece: &[u8]) -> Result<(), RowFault> {
    let mut place = at;
    for byte in piece {
        match bytes.get_mut(place) {
            Some(old) => *old = *byte,
            None => return Err(malformed(alloc, "a place behind the end")),
        }
        place = place.saturating_add(1);
    }
    Ok(())
}

/// A text whose line of this number, counted from 1, stands so many times.
fn with_line(alloc: Global, text: &[u8], number: u64, times: u64) -> Result<Vec<u8>, AllocError> {
    let mut result = Vec::new(alloc);
    let mut line = Vec::new(alloc);
    let mut count: u64 = 1;
    for byte in text {
        line.push(*byte)?;
        if *byte == b'\n' {
            let often = if count == number { times } else { 1 };
            repeat(&mut result, line.as_slice(), often)?;
            line = Vec::new(alloc);
            count = count.saturating_add(1);
        }
    }
    result.extend_from_slice(line.as_slice())?;
    Ok(result)
}

/// Adds a piece so many times.
fn repeat(text: &mut Vec<u8>, piece: &[u8], times: u64) -> Result<(), AllocError> {
    for _ in 0..times {
        text.extend_from_slice(piece)?;
    }
    Ok(())
}
