//! A question about a loaded file.

ghost use Rattle.std.specs.Prelude.{◌≡◌, ◌≢◌, ◌≤◌, ◌<◌, ◌&&◌, ◌^◌, ℤ, pos, int_le, nat_lt, unsigned_abs, List, None, false, IfSome};
ghost use Rattle.dev_traits.specs.Change.{change_of};
ghost use Rattle.octree_specs.specs.Cells.{Cell};
ghost use Rattle.svo_base.specs.declared.grids.TheConstants.{MAX_DEPTH};
ghost use Rattle.node_file.specs.FileView.{IsFileView};
ghost use Rattle.svo_top.specs.FileAnswers.{bar, is_code, is_coarser};
ghost use Rattle.svo_top.specs.FileQuestion.{Ends, Works, IsLate, NeedsGrid, Admits, takes_memory};
ghost use Rattle.svo_top.specs.Picturing.{is_layer};
ghost use Rattle.svo_top.specs.Loaded.{status_of_answer};
ghost use Rattle.svo_top.specs.NodeFiles.{KeepsCells};
ghost use Rattle.svo_top.specs.declared.outcome.Status.TheVariants.{Memory, Range, Refused};
ghost use Rattle.svo_top.specs.declared.outcome.RangeFault.{RangeFault};
ghost use Rattle.svo_top.specs.declared.outcome.NodeRefusal.{NodeRefusal};

use crate::checking::tell_numbers;
use crate::coarsening::put_coarse;
use crate::file_question::Question;
use crate::input_lines::status_of_lines;
use crate::lifting::put_lifted;
use crate::membership::tell_membership;
use crate::outcome::{Device, NodeRefusal, RangeFault, Status};
use cell_lists::list_cells;
use dev_traits::{ByteSink, ByteSource};
use node_check::{AnswerStop, CheckFault, WalkFault, check};
use node_file::Records;
use ray_answers::answer_text;
use slice_view::{slice, view};
use std::alloc::Global;
use std::sync::ledger::Ledger;
use svo_base::Steps;

/// Whether the file is a node file and the numbers of the question are in its grid; if not, how the
/// run ends.
pub fn admit<R: Records, L: Ledger>(
    question: &Question,
    nodes: &mut R,
    reads: &mut Steps<L>,
) -> Result<(), Status>
    ensures admits { Admits question.now (R.file nodes.old) (R.faults nodes.old) (R.faults nodes.new) result }
    ensures later { R.faults nodes.old ≤ R.faults nodes.new }
    ensures same { R.file nodes.new ≡ R.file nodes.old }
    ensures lender { R.lender nodes.new ≡ R.lender nodes.old }
    ensures framed { IsFileView (R.file nodes.old) }
{
    let depth = nodes.grid().depth();
    match check(nodes, reads) {
        Err(CheckFault::Failed) => return Err(Status::Device(Device::Nodes)),
        Err(CheckFault::Refused { number }) => {
            return Err(Status::Refused(NodeRefusal::Number(number)));
        }
        Ok(_) => {}
    }
    match bar(question, depth) {
        Some(fault) => Err(Status::Range(fault)),
        None => Ok(()),
    }
}

/// The first range that needs the grid of the file and that a number of the question is out of.
fn bar(question: &Question, depth: u32) -> Option<RangeFault>
    requires { depth ≤ MAX_DEPTH }
    ensures bar { result ≡ bar question.now depth }
    ensures late { IfSome result (λ fault. IsLate question.now fault × NeedsGrid fault) }
{
    match question {
        Question::Has(code) => {
            if is_code(code, depth) {
                None
            } else {
                Some(RangeFault::Code)
            }
        }
        Question::Slice(_, at) => {
            if is_layer(at, depth) {
                None
            } else {
                Some(RangeFault::Slice)
            }
        }
        Question::Coarse(levels) => {
            if is_coarser(levels, depth) {
                None
            } else {
                Some(RangeFault::Levels)
            }
        }
        Question::Check
        | Question::Cells
        | Question::Lift
        | Question::Lines(_)
        | Question::View(_) => None,
    }
}

/// Whether a number is the code of a cell of a grid of this depth.
fn is_code(code: &i64, depth: u32) -> bool
    requires { depth ≤ MAX_DEPTH }
    ensures { result ≡ is_code code.now depth }
{
    *code >= 0 && code.unsigned_abs() < cell_count(depth)
}

/// A code without its sign.
fn magnitude(code: &i64) -> u64
    ensures { result ≡ unsigned_abs code.now }
{
    code.unsigned_abs()
}

/// Whether a number is the place of a layer of a grid of this depth.
fn is_layer(at: &i64, depth: u32) -> bool
    requires { depth ≤ MAX_DEPTH }
    ensures { result ≡ is_layer at.now depth }
{
    *at >= 0 && at.unsigned_abs() < layer_count(depth)
}

/// The place of a layer without its sign.
fn place(at: &i64) -> u32
    requires { unsigned_abs at.now < 2 ^ 12 }
    ensures { result ≡ unsigned_abs at.now }
{
    at.unsigned_abs() as u32
}

/// Whether a grid of this depth can lose so many levels and keep one.
fn is_coarser(levels: &i64, depth: u32) -> bool
    ensures { result ≡ is_coarser levels.now depth }
{
    *levels >= 1 && levels.unsigned_abs() < u64::from(depth)
}

/// How many layers of cells a grid of this depth has.
fn layer_count(depth: u32) -> u64
    requires { depth ≤ MAX_DEPTH }
    ensures { result ≡ 2 ^ depth }
{
    1 << depth
}

/// How many cells a grid of this depth has.
fn cell_count(depth: u32) -> u64
    requires { depth ≤ MAX_DEPTH }
    ensures { result ≡ 8 ^ depth }
{
    8u64.pow(depth)
}

/// The work of a question over a file that was checked.
pub fn answer<I: ByteSource, O: ByteSink, R: Records, L: Ledger>(
    alloc: Global,
    question: &Question,
    input: &mut I,
    out: &mut O,
    nodes: &mut R,
    reads: &mut Steps<L>,
) -> Status
    requires unbarred { bar question.now (R.file nodes.old).grid.depth ≡ None }
    requires shallow { (R.file nodes.old).grid.depth ≤ MAX_DEPTH }
    ensures works { (cells : List Cell) → KeepsCells (R.file nodes.old) cells → Works question.now (R.file nodes.old).format (R.file nodes.old).grid cells
        (change_of I.rest I.faults input.old input.new)
        (change_of O.written O.faults out.old out.new)
        (R.faults nodes.old) (R.faults nodes.new) result }
    ensures sure { (cells : List Cell) → KeepsCells (R.file nodes.old) cells → (refusal : NodeRefusal) → result ≡ Refused refusal → ⊥ }
    ensures ends { Ends question.now
        (change_of I.rest I.faults input.old input.new)
        (change_of O.written O.faults out.old out.new)
        (R.faults nodes.old) (R.faults nodes.new) result }
    ensures remembered { takes_memory question.now ≡ false → result ≢ Memory }
    ensures unbarred { (fault : RangeFault) → NeedsGrid fault → result ≡ Range fault → ⊥ }
    ensures later { R.faults nodes.old ≤ R.faults nodes.new }
    ensures lender { R.lender nodes.new ≡ R.lender nodes.old }
{
    match question {
        Question::Check => status_of_answer(tell_numbers(nodes, out)),
        Question::Has(code) => {
            status_of_answer(tell_membership(nodes, magnitude(code), out, reads))
        }
        Question::Cells => status_of_answer(list_cells(nodes, out, reads)),
        Question::Lift => status_of_answer(put_lifted(nodes, out, reads)),
        Question::Lines(kind) => {
            status_of_lines(answer_text(alloc, *kind, nodes, input, out, reads))
        }
        Question::Slice(axis, at) => {
            status_of_answer(slice(nodes, *axis, place(at), out, reads))
        }
        Question::View(camera) => status_of_answer(view(nodes, camera, out, reads)),
        Question::Coarse(levels) => status_of_answer(put_coarse(nodes, place(levels), out)),
    }
}

/// How a run ends whose answer is put out so.
pub fn status_of_answer(answer: Result<(), AnswerStop>) -> Status
    ensures { result ≡ status_of_answer answer }
{
    match answer {
        Ok(()) => Status::Done,
        Err(AnswerStop::WriteFault) => Status::Device(Device::Write),
        Err(AnswerStop::Walk(WalkFault::Failed)) => Status::Device(Device::Nodes),
        Err(AnswerStop::Walk(WalkFault::Refused { number, .. })) => {
            Status::Refused(NodeRefusal::Number(number))
        }
    }
}
