//! The command `check`: whether a file is a node file.

ghost use Rattle.std.specs.Prelude.{◌≡◌, ◌++◌, ◌+◌, ◌≤◌, List, length, codes, decimal};
ghost use Rattle.arrayvec.specs.ArrayString.{array_string_len};
ghost use Rattle.octree_specs.specs.Cells.{Cell};
ghost use Rattle.octree_specs.specs.Formats.{file_words};
ghost use Rattle.node_check.specs.Stops.{Puts, HasStopCause};
ghost use Rattle.svo_top.specs.FileAnswers.{check_line};
ghost use Rattle.svo_top.specs.NodeFiles.{KeepsCells};

use crate::putting::put_text;
use arrayvec::ArrayString;
use dev_traits::ByteSink;
use itoa::Buffer;
use node_check::AnswerStop;
use node_file::Records;

/// A line of an answer; the longest has 77 bytes.
type AnswerLine = ArrayString<96>;

/// Puts out the depth of a file that was checked, and its numbers of words and of cells.
pub fn tell_numbers<R: Records, O: ByteSink>(nodes: &R, out: &mut O) -> Result<(), AnswerStop>
    ensures told { (cells : List Cell) → KeepsCells (R.file nodes.now) cells
        → Puts (O.written out.old) (O.written out.new) (check_line (R.file nodes.now).grid.depth (length (file_words (R.file nodes.now).format (R.file nodes.now).grid.depth cells)) (length cells)) result }
    ensures cause { HasStopCause (O.faults out.old) (O.faults out.new) (R.faults nodes.now) (R.faults nodes.now) result }
{
    let totals = nodes.totals();
    let line = check_line(nodes.grid().depth(), totals.records, totals.cells);
    put_text(line.as_str().as_bytes(), out)
}

/// The line of a file that is a node file.
#[tactic(auto, unfolding(crate::specs::FileAnswers::check_line))]
fn check_line(depth: u32, records: u64, cells: u64) -> AnswerLine
    ensures { result.bytes ≡ check_line depth records cells }
{
    let mut line = AnswerLine::new();
    line.push_str("ok depth ");
    push_number(&mut line, u64::from(depth));
    line.push_str(" records ");
    push_number(&mut line, records);
    line.push_str(" cells ");
    push_number(&mut line, cells);
    line.push_str("\n");
    line
}

/// Adds a number in digits.
fn push_number(line: &mut AnswerLine, number: u64)
    requires { array_string_len line.old + 20 ≤ 96 }
    ensures text { line.new.bytes ≡ line.old.bytes ++ decimal number }
    ensures length { array_string_len line.new ≤ array_string_len line.old + 20 }
{
    let mut buffer = Buffer::new();
    line.push_str(buffer.format(number));
}
