//! The command `why`: why a triangle and a cube share a point, or do not.

ghost use Rattle.std.specs.Prelude.{◌≢◌, ◌≡◌, ◌≤◌, ◌+◌, ◌++◌, length};
ghost use Rattle.std.specs.Fmt.{signed_decimal};
ghost use Rattle.arrayvec.specs.ArrayString.{array_string_len};
ghost use Rattle.dev_traits.specs.Change.{change_of};
ghost use Rattle.svo_top.specs.Causes.{DeviceCause};
ghost use Rattle.svo_top.specs.Endings.{status_of, EndsWhy};
ghost use Rattle.svo_top.specs.Ranges.{RangeIs, range_of_question};
ghost use Rattle.svo_top.specs.Why.{verdict_line, WhyMeans};

use crate::outcome::{Device, RangeFault, Status};
use crate::reporting::Ending;
use crate::why_question::{cube_of, triangle_of};
use arrayvec::ArrayString;
use dev_traits::{ByteSink, Failed};
use itoa::Buffer;
use svo_words::WhyWords;
use tri_cube::{Verdict, why};

/// A line of an answer; the longest has 129 bytes.
type AnswerLine = ArrayString<136>;

/// Puts out why a triangle and a cube share a point, or do not: `meets` and the weights of the first
/// shared point in their order, or `apart` and the number of the first axis that separates.
pub fn explain<O: ByteSink>(question: &WhyWords, out: &mut O) -> Ending
    ensures range { RangeIs (range_of_question question.now) (status_of result) }
    ensures ends { EndsWhy result }
    ensures remembers { status_of result ≢ Status.Memory }
    ensures means { WhyMeans question.now (change_of O.written O.faults out.old out.new) (status_of result) }
    ensures write { DeviceCause Device.Write (change_of O.written O.faults out.old out.new) (status_of result) }
{
    let triangle = match triangle_of(&question.triangle) {
        None => return Ending::Stopped(Status::Range(RangeFault::Triangle)),
        Some(triangle) => triangle,
    };
    let cube = match cube_of(&question.cube) {
        None => return Ending::Stopped(Status::Range(RangeFault::Cube)),
        Some(cube) => cube,
    };
    let line = verdict_line(&why(&triangle, &cube));
    match out.put(line.as_str().as_bytes()) {
        Err(Failed) => Ending::Stopped(Status::Device(Device::Write)),
        Ok(()) => Ending::Answered,
    }
}

/// The line of a verdict.
#[tactic(auto, unfolding(crate::specs::Why::verdict_line))]
fn verdict_line(verdict: &Verdict) -> AnswerLine
    ensures { result.bytes ≡ verdict_line verdict.now }
{
    let mut line = AnswerLine::new();
    match verdict {
        Verdict::Meets(first, second, third) => {
            line.push_str("meets ");
            push_weight(&mut line, *first);
            line.push_str(" ");
            push_weight(&mut line, *second);
            line.push_str(" ");
            push_weight(&mut line, *third);
        }
        Verdict::Apart(axis) => {
            line.push_str("apart ");
            line.push_str(Buffer::new().format(*axis));
        }
    }
    line.push_str("\n");
    line
}

/// Adds a weight in digits.
fn push_weight(line: &mut AnswerLine, weight: i128)
    requires { array_string_len line.old + 40 ≤ 136 }
    ensures text { line.new.bytes ≡ line.old.bytes ++ signed_decimal weight }
    ensures length { array_string_len line.new ≤ array_string_len line.old + 40 }
{
    let mut buffer = Buffer::new();
    line.push_str(buffer.format(weight));
}
