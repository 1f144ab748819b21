//! The whole program over its devices.

ghost use Rattle.std.specs.Prelude.{◌≡◌, ◌⊎◌, None, Ok};
ghost use Rattle.dev_traits.specs.Change.{change_of, scratch_change_of};
ghost use Rattle.svo_top.specs.Causes.{UsageCauses, RangeCauses, RefusalCauses, DeviceCause, KeepsDevices, SaysWhy};
ghost use Rattle.svo_top.specs.CommandRuns.{Does, IsForgotten};
ghost use Rattle.svo_top.specs.Endings.{status_of};
ghost use Rattle.svo_top.specs.CommandEndings.{CarriesOut, Stops};
ghost use Rattle.svo_top.specs.Usage.{status_of_fault};
ghost use Rattle.svo_words.specs.Meaning.{Means};

use crate::building::build;
use crate::explaining::explain;
use crate::file_commands::{carry_out_question, keep_from, usual_keep};
use crate::file_question::Question;
use crate::making::make;
use crate::merging::merge_files;
use crate::outcome::{Device, Status, UsageKind};
use crate::picturing::{show_slice, show_view};
use crate::reporting::{Ending, report};
use crate::summing::sum;
use dev_traits::{ByteSink, ByteSource, NodeStore, Scratch};
use ray_answers::QueryKind;
use std::alloc::Global;
use svo_base::Words;
use svo_words::{Command, WordFault, read_words};

/// Runs the command that the words are, over an input, an output, an output for the one line that says
/// how the run ended, a scratch, and a store of node files.
///
/// `Done`: the command's work is done. `Usage`: the words are no command line. `Range`: a number among
/// them, or one that a node file or the input bounds, is out of range. `Input`: the input was refused.
/// `Refused`: the named file is no node file. `Device`: a device failed. `Memory`: memory ran out while
/// the words were read, the room of a build was made, or the table of the blocks of a file that are
/// kept, once the file was accepted; then nothing was read, put out or kept. In a search of the cells
/// nearest to points it may run out at each of them, once the answers to those before were put out.
///
/// The scratch was not started yet.
pub fn run<I: ByteSource, O: ByteSink, E: ByteSink, S: Scratch, N: NodeStore>(
    alloc: Global,
    words: &Words,
    input: &mut I,
    out: &mut O,
    err: &mut E,
    scratch: &mut S,
    nodes: &mut N,
) -> Status
    requires unasked { S.asked scratch.old ≡ None }

    // Why a run stops before its work is done. Want of memory has no cause that a clause can name.
    ensures usage { UsageCauses words.now result }
    ensures range { RangeCauses words.now result }
    ensures refusal { RefusalCauses words.now result }
    ensures read { DeviceCause Device.Read (change_of I.rest I.faults input.old input.new) result }
    ensures write { DeviceCause Device.Write (change_of O.written O.faults out.old out.new) result }
    ensures scratch { DeviceCause Device.Scratch (change_of S.told S.faults scratch.old scratch.new) result }
    ensures nodes { DeviceCause Device.Nodes (change_of N.files N.faults nodes.old nodes.new) result }

    // What the run of a command does.
    ensures does { (command : Command) → Means words.now (Ok command) → IsForgotten
        (change_of I.rest I.faults input.old input.new)
        (change_of O.written O.faults out.old out.new)
        (scratch_change_of S.told S.asked S.faults scratch.old scratch.new)
        (change_of N.files N.faults nodes.old nodes.new) result ⊎ Does command
        (change_of I.rest I.faults input.old input.new)
        (change_of O.written O.faults out.old out.new)
        (scratch_change_of S.told S.asked S.faults scratch.old scratch.new)
        (change_of N.files N.faults nodes.old nodes.new)
        (change_of E.written E.faults err.old err.new) result }

    // What a run that stops leaves as it was, and what it says.
    ensures keeps { KeepsDevices words.now
        (change_of I.rest I.faults input.old input.new)
        (change_of O.written O.faults out.old out.new)
        (scratch_change_of S.told S.asked S.faults scratch.old scratch.new)
        (change_of N.files N.faults nodes.old nodes.new) result }
    ensures says_why { SaysWhy (change_of E.written E.faults err.old err.new) result }
{
    let ending = carry_out(alloc, words, input, out, scratch, nodes);
    report(&ending, err);
    ending.status()
}

/// Reads the words, and carries out their command.
fn carry_out<I: ByteSource, O: ByteSink, S: Scratch, N: NodeStore>(
    alloc: Global,
    words: &Words,
    input: &mut I,
    out: &mut O,
    scratch: &mut S,
    nodes: &mut N,
) -> Ending
    requires unasked { S.asked scratch.old ≡ None }
    ensures usage { UsageCauses words.now (status_of result) }
    ensures range { RangeCauses words.now (status_of result) }
    ensures refusal { RefusalCauses words.now (status_of result) }
    ensures read { DeviceCause Device.Read (change_of I.rest I.faults input.old input.new) (status_of result) }
    ensures write { DeviceCause Device.Write (change_of O.written O.faults out.old out.new) (status_of result) }
    ensures scratch { DeviceCause Device.Scratch (change_of S.told S.faults scratch.old scratch.new) (status_of result) }
    ensures nodes { DeviceCause Device.Nodes (change_of N.files N.faults nodes.old nodes.new) (status_of result) }
    ensures carries_out { (command : Command) → Means words.now (Ok command) → IsForgotten
        (change_of I.rest I.faults input.old input.new)
        (change_of O.written O.faults out.old out.new)
        (scratch_change_of S.told S.asked S.faults scratch.old scratch.new)
        (change_of N.files N.faults nodes.old nodes.new) (status_of result) ⊎ CarriesOut command
        (change_of I.rest I.faults input.old input.new)
        (change_of O.written O.faults out.old out.new)
        (scratch_change_of S.told S.asked S.faults scratch.old scratch.new)
        (change_of N.files N.faults nodes.old nodes.new) result }
    ensures keeps { KeepsDevices words.now
        (change_of I.rest I.faults input.old input.new)
        (change_of O.written O.faults out.old out.new)
        (scratch_change_of S.told S.asked S.faults scratch.old scratch.new)
        (change_of N.files N.faults nodes.old nodes.new) (status_of result) }
{
    match read_words(alloc, words) {
        Err(fault) => Ending::Stopped(status_of_fault(fault)),
        Ok(command) => carry_out_command(alloc, &command, input, out, scratch, nodes),
    }
}

/// Carries out a command.
fn carry_out_command<I: ByteSource, O: ByteSink, S: Scratch, N: NodeStore>(
    alloc: Global,
    command: &Command,
    input: &mut I,
    out: &mut O,
    scratch: &mut S,
    nodes: &mut N,
) -> Ending
    requires unasked { S.asked scratch.old ≡ None }
    ensures stops { Stops command.now
        (change_of I.rest I.faults input.old input.new)
        (change_of O.written O.faults out.old out.new)
        (scratch_change_of S.told S.asked S.faults scratch.old scratch.new)
        (change_of N.files N.faults nodes.old nodes.new) (status_of result) }
    ensures carries_out { CarriesOut command.now
        (change_of I.rest I.faults input.old input.new)
        (change_of O.written O.faults out.old out.new)
        (scratch_change_of S.told S.asked S.faults scratch.old scratch.new)
        (change_of N.files N.faults nodes.old nodes.new) result }
    ensures scratch { DeviceCause Device.Scratch (change_of S.told S.faults scratch.old scratch.new) (status_of result) }
    ensures read { DeviceCause Device.Read (change_of I.rest I.faults input.old input.new) (status_of result) }
    ensures write { DeviceCause Device.Write (change_of O.written O.faults out.old out.new) (status_of result) }
    ensures nodes { DeviceCause Device.Nodes (change_of N.files N.faults nodes.old nodes.new) (status_of result) }
{
    let usual = usual_keep(alloc);
    match command {
        Command::Build(words) => build(alloc, words, input, out, scratch),
        Command::Why(words) => explain(words, out),
        Command::Make(words) => make(words, out),
        Command::Sum(words) => sum(alloc, words, out, scratch),
        Command::Slice(words) => show_slice(alloc, words, input, out, nodes),
        Command::View(words) => show_view(alloc, words, input, out, nodes),
        Command::Merge(words) => merge_files(words, out, nodes),
        Command::Check(words) => {
            let question = Question::Check;
            carry_out_question(usual, &words.nodes, &question, input, out, nodes)
        }
        Command::Has(words) => {
            let question = Question::Has(words.code);
            carry_out_question(usual, &words.nodes, &question, input, out, nodes)
        }
        Command::Lift(words) => {
            let question = Question::Lift;
            carry_out_question(usual, &words.nodes, &question, input, out, nodes)
        }
        Command::Coarse(words) => {
            let question = Question::Coarse(words.levels);
            carry_out_question(usual, &words.nodes, &question, input, out, nodes)
        }
        Command::Cells(words) => {
            let keep = keep_from(alloc, words.keep);
            let question = Question::Cells;
            carry_out_question(keep, &words.nodes, &question, input, out, nodes)
        }
        Command::Cast(words) => {
            let keep = keep_from(alloc, words.keep);
            let question = Question::Lines(QueryKind::Rays);
            carry_out_question(keep, &words.nodes, &question, input, out, nodes)
        }
        Command::Near(words) => {
            let keep = keep_from(alloc, words.keep);
            let question = Question::Lines(QueryKind::Points);
            carry_out_question(keep, &words.nodes, &question, input, out, nodes)
        }
    }
}

/// How a run ends that could not read its words.
fn status_of_fault(fault: WordFault) -> Status
    ensures { result ≡ status_of_fault fault }
{
    match fault {
        WordFault::Command => Status::Usage(UsageKind::Command),
        WordFault::Options => Status::Usage(UsageKind::Options),
        WordFault::Value => Status::Usage(UsageKind::Value),
        WordFault::Memory => Status::Memory,
    }
}
