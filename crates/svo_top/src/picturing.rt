//! The commands `slice` and `view`: the pictures that words name.

ghost use Rattle.std.specs.Prelude.{◌≡◌, ◌≢◌, None};
ghost use Rattle.dev_traits.specs.Change.{change_of};
ghost use Rattle.svo_top.specs.Causes.{DeviceCause};
ghost use Rattle.svo_top.specs.Endings.{status_of};
ghost use Rattle.svo_top.specs.CommandEndings.{CarriesOutQuestion, CarriesOutView, StopsQuestion, StopsView};
ghost use Rattle.svo_top.specs.Picturing.{axis_from, camera_of, kind_from};
ghost use Rattle.svo_top.specs.Ranges.{range_of_keep};
ghost use Rattle.svo_top.specs.declared.file_question.Question.TheVariants as question;

use crate::file_commands::{carry_out_question, keep_from};
use crate::file_question::{Question, ask};
use crate::outcome::{Device, RangeFault, Status};
use crate::reporting::Ending;
use dev_traits::{ByteSink, ByteSource, NodeStore};
use slice_view::{Axis, Camera, CameraKind};
use std::alloc::Global;
use svo_words::{AxisWord, KindWord, SliceWords, ViewWords};

/// Puts out the layer of the file that the words name, unless a number is out of a range that needs no
/// file.
pub fn show_slice<I: ByteSource, O: ByteSink, N: NodeStore>(
    alloc: Global,
    words: &SliceWords,
    input: &mut I,
    out: &mut O,
    nodes: &mut N,
) -> Ending
    ensures carries_out { CarriesOutQuestion (question.Slice (axis_from words.now.axis) words.now.at) words.now.nodes (range_of_keep words.now.keep)
        (change_of I.rest I.faults input.old input.new)
        (change_of O.written O.faults out.old out.new)
        (change_of N.files N.faults nodes.old nodes.new) result }
    ensures stops { StopsQuestion (question.Slice (axis_from words.now.axis) words.now.at) (range_of_keep words.now.keep)
        (change_of I.rest I.faults input.old input.new)
        (change_of O.written O.faults out.old out.new)
        (change_of N.files N.faults nodes.old nodes.new) (status_of result) }
    ensures read { DeviceCause Device.Read (change_of I.rest I.faults input.old input.new) (status_of result) }
    ensures write { DeviceCause Device.Write (change_of O.written O.faults out.old out.new) (status_of result) }
    ensures nodes { DeviceCause Device.Nodes (change_of N.files N.faults nodes.old nodes.new) (status_of result) }
    ensures unspilled { status_of result ≢ Status.Device Device.Scratch }
{
    let keep = keep_from(alloc, words.keep);
    let question = Question::Slice(axis_from(words.axis), words.at);
    carry_out_question(keep, &words.nodes, &question, input, out, nodes)
}

/// Puts out a view of the file that the words name, unless a number is out of a range that needs no
/// file.
pub fn show_view<I: ByteSource, O: ByteSink, N: NodeStore>(
    alloc: Global,
    words: &ViewWords,
    input: &mut I,
    out: &mut O,
    nodes: &mut N,
) -> Ending
    ensures carries_out { CarriesOutView words.now
        (change_of I.rest I.faults input.old input.new)
        (change_of O.written O.faults out.old out.new)
        (change_of N.files N.faults nodes.old nodes.new) result }
    ensures stops { StopsView words.now
        (change_of I.rest I.faults input.old input.new)
        (change_of O.written O.faults out.old out.new)
        (change_of N.files N.faults nodes.old nodes.new) (status_of result) }
    ensures read { DeviceCause Device.Read (change_of I.rest I.faults input.old input.new) (status_of result) }
    ensures write { DeviceCause Device.Write (change_of O.written O.faults out.old out.new) (status_of result) }
    ensures nodes { DeviceCause Device.Nodes (change_of N.files N.faults nodes.old nodes.new) (status_of result) }
    ensures unspilled { status_of result ≢ Status.Device Device.Scratch }
{
    let keep = match keep_from(alloc, words.keep) {
        Err(fault) => return Ending::Stopped(Status::Range(fault)),
        Ok(keep) => keep,
    };
    match camera_of(words) {
        Err(fault) => Ending::Stopped(Status::Range(fault)),
        Ok(camera) => {
            let question = Question::View(camera);
            Ending::Stopped(ask(&keep, &words.nodes, &question, input, out, nodes))
        }
    }
}

/// The camera that words name, or that it is out of its limits.
fn camera_of(words: &ViewWords) -> Result<Camera, RangeFault>
    ensures { result ≡ camera_of None words.now }
{
    let kind = kind_from(words.kind);
    match Camera::new(
        kind,
        words.eye,
        words.toward,
        words.right,
        words.up,
        words.width,
        words.height,
        words.far,
    ) {
        None => Err(RangeFault::View),
        Some(camera) => Ok(camera),
    }
}

/// How the rays of a view run.
fn kind_from(word: KindWord) -> CameraKind
    ensures { result ≡ kind_from word }
{
    match word {
        KindWord::Parallel => CameraKind::Parallel,
        KindWord::Pinhole => CameraKind::Pinhole,
    }
}

/// The axis that a slice is across.
fn axis_from(word: AxisWord) -> Axis
    ensures { result ≡ axis_from word }
{
    match word {
        AxisWord::X => Axis::X,
        AxisWord::Y => Axis::Y,
        AxisWord::Z => Axis::Z,
    }
}
