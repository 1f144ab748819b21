//! The commands that ask about a node file.

ghost use Rattle.std.specs.Prelude.{◌≡◌, ◌≢◌, ◌≤◌, None};
ghost use Rattle.std.specs.Result.{result_err};
ghost use Rattle.dev_traits.specs.Change.{change_of};
ghost use Rattle.svo_base.specs.GridLimits.{is_positive, is_within};
ghost use Rattle.svo_top.specs.Causes.{DeviceCause};
ghost use Rattle.svo_top.specs.Endings.{status_of};
ghost use Rattle.svo_top.specs.CommandEndings.{CarriesOutQuestion, StopsQuestion};
ghost use Rattle.svo_top.specs.Ranges.{range_of_keep};

use crate::file_question::{Keeping, Question, ask};
use crate::outcome::{Device, RangeFault, Status};
use crate::reporting::Ending;
use dev_traits::{ByteSink, ByteSource, NodeStore};
use std::alloc::Global;
use svo_words::Text;

/// The most blocks of a file that are kept.
const MAX_KEEP: i64 = 65_536;

/// How many blocks of a file are kept by a command that has no word for it.
const USUAL_KEEP: usize = 64;

/// Asks a question about the file of a name, with so many of its blocks kept, unless that number is out
/// of its range.
pub fn carry_out_question<I: ByteSource, O: ByteSink, N: NodeStore>(
    keep: Result<Keeping, RangeFault>,
    name: &Text,
    question: &Question,
    input: &mut I,
    out: &mut O,
    nodes: &mut N,
) -> Ending
    ensures carries_out { CarriesOutQuestion question.now name.now (result_err keep)
        (change_of I.rest I.faults input.old input.new)
        (change_of O.written O.faults out.old out.new)
        (change_of N.files N.faults nodes.old nodes.new) result }
    ensures stops { StopsQuestion question.now (result_err keep)
        (change_of I.rest I.faults input.old input.new)
        (change_of O.written O.faults out.old out.new)
        (change_of N.files N.faults nodes.old nodes.new) (status_of result) }
    ensures read { DeviceCause Device.Read (change_of I.rest I.faults input.old input.new) (status_of result) }
    ensures write { DeviceCause Device.Write (change_of O.written O.faults out.old out.new) (status_of result) }
    ensures nodes { DeviceCause Device.Nodes (change_of N.files N.faults nodes.old nodes.new) (status_of result) }
    ensures unspilled { status_of result ≢ Status.Device Device.Scratch }
{
    match keep {
        Err(fault) => Ending::Stopped(Status::Range(fault)),
        Ok(keeping) => Ending::Stopped(ask(&keeping, name, question, input, out, nodes)),
    }
}

/// How many blocks are to be kept, or that the number is out of its range.
pub fn keep_from(alloc: Global, keep: i64) -> Result<Keeping, RangeFault>
    ensures { result_err result ≡ range_of_keep keep }
{
    if (1..=MAX_KEEP).contains(&keep) {
        Ok(Keeping {
            alloc,
            blocks: keep as usize,
        })
    } else {
        Err(RangeFault::Keep)
    }
}

/// The usual number of blocks is kept.
pub fn usual_keep(alloc: Global) -> Result<Keeping, RangeFault>
    ensures { result_err result ≡ None }
{
    Ok(Keeping {
        alloc,
        blocks: USUAL_KEEP,
    })
}
