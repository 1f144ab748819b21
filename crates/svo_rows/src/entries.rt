//! The lines of a table, as they are written down.

use crate::faults::{RowFault, malformed};
use crate::members::{FromValue, Members, only_member, plain, read_all, read_if, unknown_key};
use serde_json::Value;
use std::alloc::Global;

/// A line of the table.
#[derive(Drop)]
pub enum Entry {
    /// Bytes with a name, for the lines behind this one.
    Bytes(NamedBytes),
    /// A worked row.
    Row(Row),
}

impl FromValue for Entry {
    fn read(alloc: Global, value: Value) -> Result<Entry, RowFault> {
        let (kind, value) = only_member(alloc, value)?;
        match kind.as_str() {
            "bytes" => Ok(Entry::Bytes(NamedBytes::read(alloc, value)?)),
            "row" => Ok(Entry::Row(Row::read(alloc, value)?)),
            other => unknown_key(alloc, other),
        }
    }
}

/// Bytes with a name.
#[derive(Drop)]
pub struct NamedBytes {
    pub name: String,
    pub are: Bytes,
}

impl FromValue for NamedBytes {
    fn read(alloc: Global, value: Value) -> Result<NamedBytes, RowFault> {
        let mut members = Members::of(alloc, value)?;
        let name = members.required(alloc, "name")?;
        let are = Bytes::read(alloc, members.required(alloc, "are")?)?;
        members.end(alloc)?;
        Ok(NamedBytes { name, are })
    }
}

/// Bytes: those of a name, those of a name with changes, or bytes that are spelled out.
#[derive(Drop)]
pub enum Bytes {
    Name(String),
    Changed(Changed),
    Spelled(Spelling),
}

impl FromValue for Bytes {
    fn read(alloc: Global, value: Value) -> Result<Bytes, RowFault> {
        match value {
            Value::String(name) => Ok(Bytes::Name(name)),
            other => spelled_or_changed(alloc, other),
        }
    }
}

/// Bytes of an object.
fn spelled_or_changed(alloc: Global, value: Value) -> Result<Bytes, RowFault> {
    if value.get("of").is_some() {
        Ok(Bytes::Changed(Changed::read(alloc, value)?))
    } else {
        Ok(Bytes::Spelled(Spelling::read(alloc, value)?))
    }
}

/// The bytes of a name, with changes, made one behind the other.
#[derive(Drop)]
pub struct Changed {
    pub of: String,
    pub changes: Vec<Change>,
}

impl FromValue for Changed {
    fn read(alloc: Global, value: Value) -> Result<Changed, RowFault> {
        let mut members = Members::of(alloc, value)?;
        let of = members.required(alloc, "of")?;
        let changes = read_all(alloc, members.required(alloc, "changes")?)?;
        members.end(alloc)?;
        Ok(Changed { of, changes })
    }
}

/// A change of bytes.
#[derive(Drop)]
pub enum Change {
    /// Only so many of the first bytes are left.
    Cut(usize),
    /// Other bytes stand at a place.
    Put(Placed),
    /// The word of this number, of a node file, is another.
    Word(Numbered),
    /// A text stands behind them, so many times.
    Add(Added),
    /// A line, counted from 1, stands so many times.
    Repeat(Repeated),
}

impl FromValue for Change {
    fn read(alloc: Global, value: Value) -> Result<Change, RowFault> {
        let (kind, value) = only_member(alloc, value)?;
        match kind.as_str() {
            "cut" => Ok(Change::Cut(plain(alloc, "cut", value)?)),
            "put" => Ok(Change::Put(Placed::read(alloc, value)?)),
            "word" => Ok(Change::Word(Numbered::read(alloc, value)?)),
            "add" => Ok(Change::Add(Added::read(alloc, value)?)),
            "repeat" => Ok(Change::Repeat(Repeated::read(alloc, value)?)),
            other => unknown_key(alloc, other),
        }
    }
}

/// Bytes in hexadecimal digits, and their place.
#[derive(Drop)]
pub struct Placed {
    pub at: usize,
    pub hex: String,
}

impl FromValue for Placed {
    fn read(alloc: Global, value: Value) -> Result<Placed, RowFault> {
        let mut members = Members::of(alloc, value)?;
        let at = members.required(alloc, "at")?;
        let hex = members.required(alloc, "hex")?;
        members.end(alloc)?;
        Ok(Placed { at, hex })
    }
}

/// A word of a node file.
#[derive(Drop)]
pub struct Numbered {
    pub number: usize,
    pub is: u64,
}

impl FromValue for Numbered {
    fn read(alloc: Global, value: Value) -> Result<Numbered, RowFault> {
        let mut members = Members::of(alloc, value)?;
        let number = members.required(alloc, "number")?;
        let is = members.required(alloc, "is")?;
        members.end(alloc)?;
        Ok(Numbered { number, is })
    }
}

/// A text, and how often it stands.
#[derive(Drop)]
pub struct Added {
    pub text: String,
    pub times: u64,
}

impl FromValue for Added {
    fn read(alloc: Global, value: Value) -> Result<Added, RowFault> {
        let mut members = Members::of(alloc, value)?;
        let text = members.required(alloc, "text")?;
        let times = members.or(alloc, "times", 1)?;
        members.end(alloc)?;
        Ok(Added { text, times })
    }
}

/// A line, and how often it stands.
#[derive(Drop)]
pub struct Repeated {
    pub line: u64,
    pub times: u64,
}

impl FromValue for Repeated {
    fn read(alloc: Global, value: Value) -> Result<Repeated, RowFault> {
        let mut members = Members::of(alloc, value)?;
        let line = members.required(alloc, "line")?;
        let times = members.required(alloc, "times")?;
        members.end(alloc)?;
        Ok(Repeated { line, times })
    }
}

/// Bytes that are spelled out, or that a run gave or got.
#[derive(Drop)]
pub enum Spelling {
    /// A text.
    Text(String),
    /// Lines, each ended by LF.
    Lines(Vec<String>),
    /// Lines, each ended by CR and LF.
    CrlfLines(Vec<String>),
    /// A mesh in whole numbers.
    Mesh(MeshLines),
    /// Hexadecimal digits; blanks between them count for nothing.
    Hex(String),
    /// A node file.
    Nodes(NodeWords),
    /// Numbers of four bytes, little-endian.
    Ints(Vec<i32>),
    /// What an earlier row put out.
    OutOf(String),
    /// The row's own input, or the named file of its own store, as it is in this run.
    Given(String),
}

impl FromValue for Spelling {
    fn read(alloc: Global, value: Value) -> Result<Spelling, RowFault> {
        let (kind, value) = only_member(alloc, value)?;
        match kind.as_str() {
            "text" => Ok(Spelling::Text(plain(alloc, "text", value)?)),
            "lines" => Ok(Spelling::Lines(plain(alloc, "lines", value)?)),
            "crlf_lines" => Ok(Spelling::CrlfLines(plain(alloc, "crlf_lines", value)?)),
            "mesh" => Ok(Spelling::Mesh(MeshLines::read(alloc, value)?)),
            "hex" => Ok(Spelling::Hex(plain(alloc, "hex", value)?)),
            "nodes" => Ok(Spelling::Nodes(NodeWords::read(alloc, value)?)),
            "ints" => Ok(Spelling::Ints(plain(alloc, "ints", value)?)),
            "out_of" => Ok(Spelling::OutOf(plain(alloc, "out_of", value)?)),
            "given" => Ok(Spelling::Given(plain(alloc, "given", value)?)),
            other => unknown_key(alloc, other),
        }
    }
}

/// The lines of vertices and faces of a mesh.
#[derive(Drop)]
pub struct MeshLines {
    pub vertices: Vec<String>,
    pub faces: Vec<String>,
}

impl FromValue for MeshLines {
    fn read(alloc: Global, value: Value) -> Result<MeshLines, RowFault> {
        let mut members = Members::of(alloc, value)?;
        let vertices = members.required(alloc, "vertices")?;
        let faces = members.required(alloc, "faces")?;
        members.end(alloc)?;
        Ok(MeshLines { vertices, faces })
    }
}

/// What a node file holds.
#[derive(Drop)]
pub struct NodeWords {
    pub format: u8,
    pub depth: u32,
    pub origin: Vec<i64>,
    pub cell: i64,
    pub words: Vec<u64>,
    pub cells: u64,
}

impl FromValue for NodeWords {
    fn read(alloc: Global, value: Value) -> Result<NodeWords, RowFault> {
        let mut members = Members::of(alloc, value)?;
        let format = members.required(alloc, "format")?;
        let depth = members.required(alloc, "depth")?;
        let origin = members.required(alloc, "origin")?;
        let cell = members.required(alloc, "cell")?;
        let words = members.required(alloc, "words")?;
        let cells = members.required(alloc, "cells")?;
        members.end(alloc)?;
        Ok(NodeWords {
            format,
            depth,
            origin,
            cell,
            words,
            cells,
        })
    }
}

/// A run of the program, or many, and what must come.
#[derive(Drop)]
pub struct Row {
    pub name: String,
    pub run: CommandLine,
    pub given: Given,
    pub sweep: Option<Sweep>,
    pub runs: Option<u64>,
    pub want: Want,
    pub or: Option<Want>,
    pub then: Option<Want>,
}

impl FromValue for Row {
    fn read(alloc: Global, value: Value) -> Result<Row, RowFault> {
        let mut members = Members::of(alloc, value)?;
        let name = members.required(alloc, "name")?;
        let run = CommandLine::read(alloc, members.required(alloc, "run")?)?;
        let given = Given::read(alloc, &mut members)?;
        let sweep = read_if(alloc, members.optional(alloc, "sweep")?)?;
        let runs = members.optional(alloc, "runs")?;
        let want = Want::read(alloc, members.required(alloc, "want")?)?;
        let or = read_if(alloc, members.optional(alloc, "or")?)?;
        let then = read_if(alloc, members.optional(alloc, "then")?)?;
        members.end(alloc)?;
        Ok(Row {
            name,
            run,
            given,
            sweep,
            runs,
            want,
            or,
            then,
        })
    }
}

/// What the devices of a run hold, how much room they have, and which of their calls are refused.
#[derive(Drop)]
pub struct Given {
    pub input: Option<Bytes>,
    pub files: Vec<NamedBytes>,
    pub piece: usize,
    pub room: usize,
    pub streams: u32,
    pub stream_room: usize,
    pub refuses: Vec<Refusal>,
}

impl Given {
    /// Reads it of the keys of a row.
    fn read(alloc: Global, members: &mut Members) -> Result<Given, RowFault> {
        let input = read_if(alloc, members.optional(alloc, "input")?)?;
        let files = read_all(alloc, members.or(alloc, "files", Vec::new(alloc))?)?;
        let piece = members.or(alloc, "piece", 4096)?;
        let room = members.or(alloc, "room", 65_536)?;
        let streams = members.or(alloc, "streams", 9)?;
        let stream_room = members.or(alloc, "stream_room", 4096)?;
        let refuses = read_all(alloc, members.or(alloc, "refuses", Vec::new(alloc))?)?;
        Ok(Given {
            input,
            files,
            piece,
            room,
            streams,
            stream_room,
            refuses,
        })
    }
}

/// The words of a command: a line with a space between each two of them, a list, or a list with one word
/// more, so many times.
#[derive(Drop)]
pub enum CommandLine {
    Line(String),
    Words(Vec<String>),
    Many(ManyWords),
}

impl FromValue for CommandLine {
    fn read(alloc: Global, value: Value) -> Result<CommandLine, RowFault> {
        match value {
            Value::String(line) => Ok(CommandLine::Line(line)),
            other => listed_words(alloc, other),
        }
    }
}

/// Words of a list or of an object.
fn listed_words(alloc: Global, value: Value) -> Result<CommandLine, RowFault> {
    if value.is_array() {
        Ok(CommandLine::Words(plain(alloc, "run", value)?))
    } else {
        Ok(CommandLine::Many(ManyWords::read(alloc, value)?))
    }
}

/// Words, and a word that stands so many times behind them.
#[derive(Drop)]
pub struct ManyWords {
    pub words: Vec<String>,
    pub more: String,
    pub times: u64,
}

impl FromValue for ManyWords {
    fn read(alloc: Global, value: Value) -> Result<ManyWords, RowFault> {
        let mut members = Members::of(alloc, value)?;
        let words = members.required(alloc, "words")?;
        let more = members.required(alloc, "more")?;
        let times = members.required(alloc, "times")?;
        members.end(alloc)?;
        Ok(ManyWords { words, more, times })
    }
}

/// A call of a device, counted from 1, that is refused, and how many bytes it takes first.
#[derive(Clone, Copy)]
pub struct Refusal {
    pub device: Device,
    pub call: u64,
    pub taken: u64,
}

impl FromValue for Refusal {
    fn read(alloc: Global, value: Value) -> Result<Refusal, RowFault> {
        let mut members = Members::of(alloc, value)?;
        let device = Device::read(alloc, members.required(alloc, "device")?)?;
        let call = members.required(alloc, "call")?;
        let taken = members.or(alloc, "taken", 0)?;
        members.end(alloc)?;
        Ok(Refusal {
            device,
            call,
            taken,
        })
    }
}

/// A device of a run.
#[derive(Clone, Copy, Debug, PartialEq, Eq)]
pub enum Device {
    Read,
    Out,
    Err,
    Scratch,
    Nodes,
}

impl FromValue for Device {
    fn read(alloc: Global, value: Value) -> Result<Device, RowFault> {
        match value.as_str() {
            Some("read") => Ok(Device::Read),
            Some("out") => Ok(Device::Out),
            Some("err") => Ok(Device::Err),
            Some("scratch") => Ok(Device::Scratch),
            Some("nodes") => Ok(Device::Nodes),
            _ => Err(malformed(alloc, "a device is wanted")),
        }
    }
}

/// What changes from run to run of a row.
#[derive(Drop)]
pub enum Sweep {
    /// Call 1, 2 and on of a device is refused, until a run in which the device refuses none.
    Calls(CallSweep),
    /// The input, or a file, is cut to each length of a range.
    Cuts(CutSweep),
    /// Each byte of the input, or of a file, is each other value.
    EachByte(String),
    /// A read gives at most so many bytes.
    Pieces(Vec<usize>),
    /// An option more in the command line, each of a list in turn.
    Words(Vec<String>),
}

impl FromValue for Sweep {
    fn read(alloc: Global, value: Value) -> Result<Sweep, RowFault> {
        let (kind, value) = only_member(alloc, value)?;
        match kind.as_str() {
            "calls" => Ok(Sweep::Calls(CallSweep::read(alloc, value)?)),
            "cuts" => Ok(Sweep::Cuts(CutSweep::read(alloc, value)?)),
            "each_byte" => Ok(Sweep::EachByte(plain(alloc, "each_byte", value)?)),
            "pieces" => Ok(Sweep::Pieces(plain(alloc, "pieces", value)?)),
            "words" => Ok(Sweep::Words(plain(alloc, "words", value)?)),
            other => unknown_key(alloc, other),
        }
    }
}

/// The calls of a device, and how many bytes a refused one takes.
#[derive(Drop)]
pub struct CallSweep {
    pub device: Device,
    pub taken: Vec<u64>,
}

impl FromValue for CallSweep {
    fn read(alloc: Global, value: Value) -> Result<CallSweep, RowFault> {
        let mut members = Members::of(alloc, value)?;
        let device = Device::read(alloc, members.required(alloc, "device")?)?;
        let taken = members.required(alloc, "taken")?;
        members.end(alloc)?;
        Ok(CallSweep { device, taken })
    }
}

/// Lengths, the last one of them included.
#[derive(Drop)]
pub struct CutSweep {
    pub of: String,
    pub from: usize,
    pub to: usize,
}

impl FromValue for CutSweep {
    fn read(alloc: Global, value: Value) -> Result<CutSweep, RowFault> {
        let mut members = Members::of(alloc, value)?;
        let of = members.required(alloc, "of")?;
        let from = members.required(alloc, "from")?;
        let to = members.required(alloc, "to")?;
        members.end(alloc)?;
        Ok(CutSweep { of, from, to })
    }
}

/// What must come of a run.
#[derive(Drop)]
pub struct Want {
    pub status: u8,
    pub err: WantedErr,
    pub out: WantedOut,
    pub left: Option<u64>,
    pub calls: Option<Calls>,
    pub streams: Vec<Stream>,
    pub place: Option<String>,
}

impl FromValue for Want {
    fn read(alloc: Global, value: Value) -> Result<Want, RowFault> {
        let mut members = Members::of(alloc, value)?;
        let status = members.required(alloc, "status")?;
        let err = WantedErr::read(alloc, &mut members)?;
        let out = WantedOut::read(alloc, &mut members)?;
        let left = members.optional(alloc, "left")?;
        let calls = read_if(alloc, members.optional(alloc, "calls")?)?;
        let streams = read_all(alloc, members.or(alloc, "streams", Vec::new(alloc))?)?;
        let place = members.optional(alloc, "place")?;
        members.end(alloc)?;
        Ok(Want {
            status,
            err,
            out,
            left,
            calls,
            streams,
            place,
        })
    }
}

/// What must come on the error output: nothing, a line, a front of one, or one that begins so.
#[derive(Drop)]
pub enum WantedErr {
    Nothing,
    Line(String),
    Front(String),
    Begins(String),
}

impl WantedErr {
    /// Reads it of the keys of a want.
    fn read(alloc: Global, members: &mut Members) -> Result<WantedErr, RowFault> {
        let keys = [
            members.has("err"),
            members.has("err_front"),
            members.has("err_begins"),
        ];
        match keys {
            [false, false, false] => Ok(WantedErr::Nothing),
            [true, false, false] => Ok(WantedErr::Line(members.required(alloc, "err")?)),
            [false, true, false] => Ok(WantedErr::Front(members.required(alloc, "err_front")?)),
            [false, false, true] => Ok(WantedErr::Begins(members.required(alloc, "err_begins")?)),
            _ => Err(malformed(alloc, "two wants of err")),
        }
    }
}

/// What must come on the output: nothing, bytes, a front of bytes, or bytes of a digest.
#[derive(Drop)]
pub enum WantedOut {
    Nothing,
    Whole(Bytes),
    Front(Bytes),
    Sha256(String),
}

impl WantedOut {
    /// Reads it of the keys of a want.
    fn read(alloc: Global, members: &mut Members) -> Result<WantedOut, RowFault> {
        let keys = [
            members.has("out"),
            members.has("out_front"),
            members.has("out_sha256"),
        ];
        match keys {
            [false, false, false] => Ok(WantedOut::Nothing),
            [true, false, false] => {
                let bytes = members.required(alloc, "out")?;
                Ok(WantedOut::Whole(Bytes::read(alloc, bytes)?))
            }
            [false, true, false] => {
                let bytes = members.required(alloc, "out_front")?;
                Ok(WantedOut::Front(Bytes::read(alloc, bytes)?))
            }
            [false, false, true] => Ok(WantedOut::Sha256(members.required(alloc, "out_sha256")?)),
            _ => Err(malformed(alloc, "two wants of out")),
        }
    }
}

/// How many calls each device had.
#[derive(Clone, Copy)]
pub struct Calls {
    pub read: Option<u64>,
    pub out: Option<u64>,
    pub err: Option<u64>,
    pub scratch: Option<u64>,
    pub nodes: Option<u64>,
}

impl FromValue for Calls {
    fn read(alloc: Global, value: Value) -> Result<Calls, RowFault> {
        let mut members = Members::of(alloc, value)?;
        let read = members.optional(alloc, "read")?;
        let out = members.optional(alloc, "out")?;
        let err = members.optional(alloc, "err")?;
        let scratch = members.optional(alloc, "scratch")?;
        let nodes = members.optional(alloc, "nodes")?;
        members.end(alloc)?;
        Ok(Calls {
            read,
            out,
            err,
            scratch,
            nodes,
        })
    }
}

/// What a stream of the scratch holds: these records, in this order or in any.
#[derive(Drop)]
pub struct Stream {
    pub stream: u32,
    pub in_any_order: bool,
    pub records: Vec<Vec<i32>>,
}

impl FromValue for Stream {
    fn read(alloc: Global, value: Value) -> Result<Stream, RowFault> {
        let mut members = Members::of(alloc, value)?;
        let stream = members.required(alloc, "stream")?;
        let in_any_order = members.or(alloc, "in_any_order", false)?;
        let records = members.required(alloc, "records")?;
        members.end(alloc)?;
        Ok(Stream {
            stream,
            in_any_order,
            records,
        })
    }
}
