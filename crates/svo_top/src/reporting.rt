//! The line on the error output.

ghost use Rattle.std.specs.Prelude.{◌≡◌, [], ◌≤◌, ◌+◌, ◌++◌, length, codes, decimal};
ghost use Rattle.arrayvec.specs.ArrayString.{array_string_len};
ghost use Rattle.dev_traits.specs.Change.{change_of, IsKept};
ghost use Rattle.svo_top.specs.Lines.{usage_word, input_word, ply_word, grid_word, range_word, device_word, refusal_side, refusal_word, stop_line, built_line, Says};
ghost use Rattle.svo_top.specs.Endings.{line_of, status_of};

use crate::outcome::{Device, InputKind, NodeRefusal, RangeFault, Status, UsageKind};
use arrayvec::ArrayString;
use dev_traits::ByteSink;
use itoa::Buffer;
use ply_reader::PlyKind;
use svo_base::GridFault;

/// A line; the longest has 89 bytes.
type Line = ArrayString<96>;

/// What the line of a finished build counts.
#[derive(Clone, Copy, Debug, PartialEq, Eq)]
pub struct Counts {
    /// Filled cells.
    pub cells: u64,
    /// Records of the node file.
    pub records: u64,
    /// Parts that were built one after another.
    pub parts: u64,
}

/// How a command ended, with what its line says.
#[derive(Clone, Copy, Debug, PartialEq, Eq)]
pub enum Ending {
    /// A build is done.
    Built(Counts),
    /// A command that counts nothing is done, which has no line.
    Answered,
    /// A command ended so, and counted nothing.
    Stopped(Status),
}

impl Ending {
    /// The status of a run that ends so.
    pub fn status(&self) -> Status
        ensures { result ≡ status_of self.now }
    {
        match self {
            Ending::Built(_) | Ending::Answered => Status::Done,
            Ending::Stopped(status) => *status,
        }
    }
}

/// Puts out the line of an ending, if it has one. A fault of the device changes nothing else.
pub fn report<E: ByteSink>(ending: &Ending, err: &mut E)
    ensures says { Says (change_of E.written E.faults err.old err.new) (line_of ending.now) }
    ensures silent { line_of ending.now ≡ [] → IsKept (change_of E.written E.faults err.old err.new) }
{
    let line = line_of(ending);
    if line.is_empty() {
        return;
    }
    let _ = err.put(line.as_str().as_bytes());
}

/// The line of an ending.
fn line_of(ending: &Ending) -> Line
    ensures { result.bytes ≡ line_of ending.now }
{
    match ending {
        Ending::Built(counts) => built_line(counts),
        Ending::Answered => Line::new(),
        Ending::Stopped(status) => stop_line(status),
    }
}

#[tactic(auto, unfolding(crate::specs::Lines::built_line))]
fn built_line(counts: &Counts) -> Line
    ensures { result.bytes ≡ built_line counts.now.cells counts.now.records counts.now.parts }
{
    let mut line = Line::new();
    line.push_str("built cells ");
    push_number(&mut line, counts.cells);
    line.push_str(" records ");
    push_number(&mut line, counts.records);
    line.push_str(" parts ");
    push_number(&mut line, counts.parts);
    line.push_str("\n");
    line
}

#[tactic(auto, unfolding(crate::specs::Lines::stop_line))]
fn stop_line(status: &Status) -> Line
    ensures { result.bytes ≡ stop_line status.now }
{
    match status {
        Status::Done => Line::new(),
        Status::Usage(kind) => worded_line("usage: ", usage_word(*kind)),
        Status::Input { kind, place } => placed_line(input_word(*kind), *place),
        Status::Range(fault) => range_line(*fault),
        Status::Device(device) => worded_line("device: ", device_word(*device)),
        Status::Refused(refusal) => refusal_line(*refusal),
        Status::Memory => worded_line("memory", ""),
    }
}

/// Two texts and the end of the line.
fn worded_line(front: &str, word: &str) -> Line
    requires { length front.now + length word.now ≤ 95 }
    ensures { result.bytes ≡ front.now ++ word.now ++ codes "\n" }
{
    let mut line = Line::new();
    line.push_str(front);
    line.push_str(word);
    line.push_str("\n");
    line
}

/// The line of an input that was refused at a place.
fn placed_line(word: &str, place: u64) -> Line
    requires { length word.now ≤ 32 }
    ensures { result.bytes ≡ codes "input: " ++ word.now ++ codes " at " ++ decimal place ++ codes "\n" }
{
    let mut line = Line::new();
    line.push_str("input: ");
    line.push_str(word);
    line.push_str(" at ");
    push_number(&mut line, place);
    line.push_str("\n");
    line
}

/// Adds a number in digits.
fn push_number(line: &mut Line, number: u64)
    requires { array_string_len line.old + 20 ≤ 96 }
    ensures text { line.new.bytes ≡ line.old.bytes ++ decimal number }
    ensures length { array_string_len line.new ≤ array_string_len line.old + 20 }
{
    let mut buffer = Buffer::new();
    line.push_str(buffer.format(number));
}

fn usage_word(kind: UsageKind) -> &'static str
    ensures word { result.now ≡ usage_word kind }
    ensures short { length result.now ≤ 32 }
{
    match kind {
        UsageKind::Command => "command",
        UsageKind::Options => "options",
        UsageKind::Value => "value",
    }
}

fn input_word(kind: InputKind) -> &'static str
    ensures word { result.now ≡ input_word kind }
    ensures short { length result.now ≤ 32 }
{
    match kind {
        InputKind::Ply(kind) => ply_word(kind),
        InputKind::BadRay => "BadRay",
        InputKind::BadPoint => "BadPoint",
        InputKind::LineTooLong => "LineTooLong",
        InputKind::TooLong => "TooLong",
    }
}

fn ply_word(kind: PlyKind) -> &'static str
    ensures word { result.now ≡ ply_word kind }
    ensures short { length result.now ≤ 32 }
{
    match kind {
        PlyKind::NotPly => "NotPly",
        PlyKind::BadFormat => "BadFormat",
        PlyKind::BadHeader => "BadHeader",
        PlyKind::HeaderTooLarge => "HeaderTooLarge",
        PlyKind::NoVertexElement => "NoVertexElement",
        PlyKind::NoFaceElement => "NoFaceElement",
        PlyKind::FaceFirst => "FaceFirst",
        PlyKind::LineTooLong => "LineTooLong",
        PlyKind::Truncated => "Truncated",
        PlyKind::BadNumber => "BadNumber",
        PlyKind::NotWhole => "NotWhole",
        PlyKind::OutOfRange => "OutOfRange",
        PlyKind::BadCount => "BadCount",
        PlyKind::BadIndex => "BadIndex",
        PlyKind::TokenTooLong => "TokenTooLong",
        PlyKind::TrailingData => "TrailingData",
        PlyKind::TooLong => "TooLong",
    }
}

/// The line of a range that a number is out of.
fn range_line(fault: RangeFault) -> Line
    ensures { result.bytes ≡ codes "range: " ++ range_word fault ++ codes "\n" }
{
    let mut line = Line::new();
    line.push_str("range: ");
    match fault {
        RangeFault::Decimals => line.push_str("decimals"),
        RangeFault::Grid(fault) => line.push_str(grid_word(fault)),
        RangeFault::TooLarge => line.push_str("memory"),
        RangeFault::TooSmall(least) => {
            line.push_str("memory least ");
            push_number(&mut line, least);
        }
        RangeFault::Triangle => line.push_str("triangle"),
        RangeFault::Cube => line.push_str("cube"),
        RangeFault::Keep => line.push_str("keep"),
        RangeFault::Code => line.push_str("code"),
        RangeFault::Made => line.push_str("made"),
        RangeFault::Slice => line.push_str("slice"),
        RangeFault::View => line.push_str("view"),
        RangeFault::Ray(place) => {
            line.push_str("ray at ");
            push_number(&mut line, place);
        }
        RangeFault::Point(place) => {
            line.push_str("point at ");
            push_number(&mut line, place);
        }
        RangeFault::Grids => line.push_str("grids"),
        RangeFault::Levels => line.push_str("levels"),
    }
    line.push_str("\n");
    line
}

fn grid_word(fault: GridFault) -> &'static str
    ensures word { result.now ≡ grid_word fault }
    ensures short { length result.now ≤ 32 }
{
    match fault {
        GridFault::Depth => "depth",
        GridFault::Origin => "origin",
        GridFault::Cell => "cell",
        GridFault::TooWide => "wide",
    }
}

fn device_word(device: Device) -> &'static str
    ensures word { result.now ≡ device_word device }
    ensures short { length result.now ≤ 32 }
{
    match device {
        Device::Read => "read",
        Device::Scratch => "scratch",
        Device::Write => "write",
        Device::Nodes => "nodes",
    }
}

/// The line of a named file that is no node file.
fn refusal_line(refusal: NodeRefusal) -> Line
    ensures { result.bytes ≡ refusal_side refusal ++ refusal_word refusal ++ codes "\n" }
{
    let mut line = Line::new();
    line.push_str(refusal_side(refusal));
    match refusal {
        NodeRefusal::NoFile | NodeRefusal::WithNoFile => line.push_str("no file"),
        NodeRefusal::NotNodes | NodeRefusal::WithNotNodes => line.push_str("not a node file"),
        NodeRefusal::Number(number) => push_refused(&mut line, number),
        NodeRefusal::WithNumber(number) => push_refused(&mut line, number),
    }
    line.push_str("\n");
    line
}

/// Adds the number of a refused word.
fn push_refused(line: &mut Line, number: u64)
    requires { array_string_len line.old + 35 ≤ 96 }
    ensures text { line.new.bytes ≡ line.old.bytes ++ (codes "number " ++ decimal number ++ codes " refused") }
    ensures length { array_string_len line.new ≤ array_string_len line.old + 35 }
{
    line.push_str("number ");
    push_number(line, number);
    line.push_str(" refused");
}

/// The option that names the refused file.
fn refusal_side(refusal: NodeRefusal) -> &'static str
    ensures word { result.now ≡ refusal_side refusal }
    ensures short { length result.now ≤ 32 }
{
    match refusal {
        NodeRefusal::NoFile | NodeRefusal::NotNodes | NodeRefusal::Number(_) => "nodes: ",
        NodeRefusal::WithNoFile | NodeRefusal::WithNotNodes | NodeRefusal::WithNumber(_) => {
            "with: "
        }
    }
}
