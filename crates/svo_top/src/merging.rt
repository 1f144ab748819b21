//! The command `merge`: the node file of two files' cells put together.

ghost use Rattle.std.specs.Prelude.{◌≡◌, ◌<◌, ◌≤◌};
ghost use Rattle.dev_traits.specs.Change.{change_of};
ghost use Rattle.node_check.specs.Stops.{HasStopCause};
ghost use Rattle.node_merge.specs.Maps.{IsMerged};
ghost use Rattle.node_merge.specs.Pushing.{PutsMap};
ghost use Rattle.node_merge.specs.Sides.{turn_view};
ghost use Rattle.node_merge.specs.declared.pairs.Turn.TheVariants.{First, Second};
ghost use Rattle.svo_top.specs.Causes.{DeviceCause};
ghost use Rattle.svo_top.specs.Endings.{status_of, EndsQuietly};
ghost use Rattle.svo_top.specs.Loaded.{status_of_answer};
ghost use Rattle.svo_top.specs.Merging.{AdmitsPair, Merges, StopsMerge, merge_kind_from, status_of_check, status_of_pair};

use crate::open_file::status_of_answer;
use crate::outcome::{Device, NodeRefusal, RangeFault, Status};
use crate::reporting::Ending;
use dev_traits::{ByteSink, NodeStore};
use node_check::{AnswerStop, CheckFault};
use node_merge::{MergeKind, Pair, PairFault, Turn, check_file, merge, read_frames};
use room_plan::QueueEntry;
use std::marker::Brand;
use std::sync::ledger::{Blank, Ledger};
use svo_base::Steps;
use svo_words::{MergeWord, MergeWords};

/// Puts out the node file of the cells of the two files that the words name, put together as they say.
pub fn merge_files<O: ByteSink, N: NodeStore>(
    words: &MergeWords,
    out: &mut O,
    nodes: &mut N,
) -> Ending
    ensures merges { Merges words.now
        (change_of O.written O.faults out.old out.new)
        (change_of N.files N.faults nodes.old nodes.new) (status_of result) }
    ensures quiet { EndsQuietly result }
    ensures stops { StopsMerge (status_of result) }
    ensures write { DeviceCause Device.Write (change_of O.written O.faults out.old out.new) (status_of result) }
    ensures nodes { DeviceCause Device.Nodes (change_of N.files N.faults nodes.old nodes.new) (status_of result) }
{
    let blank = Blank::new(1);
    Ending::Stopped(merge_named::<O, N, Brand>(words, out, nodes, blank))
}

/// The same, with the counter of the checks' reads in the ledger that the blank is for. Both files are
/// loaded before either is checked, and their grids are compared last.
fn merge_named<O: ByteSink, N: NodeStore, L: Ledger>(
    words: &MergeWords,
    out: &mut O,
    store: &mut N,
    blank: Blank,
) -> Status
    requires name { blank.name ≡ L.name }
    requires parts { blank.parts ≡ L.parts }
    requires one { 0 < blank.parts }
    ensures { Merges words.now
        (change_of O.written O.faults out.old out.new)
        (change_of N.files N.faults store.old store.new) result }
{
    let mut reads = Steps::<L>::new(blank);
    let frames = match read_frames(store, words.nodes.as_str(), words.with.as_str()) {
        Err(fault) => return status_of_pair(fault),
        Ok(frames) => frames,
    };
    let mut pair = Pair::new(store, words.nodes.as_str(), words.with.as_str(), frames);
    if let Err(status) = admit_pair(&mut pair, &mut reads) {
        return status;
    }
    status_of_answer(put_merged(&mut pair, merge_kind_from(words.kind), out))
}

/// Whether both files are node files of one grid; if not, how the run ends.
fn admit_pair<N: NodeStore, L: Ledger>(
    pair: &mut Pair<'_, N>,
    reads: &mut Steps<L>,
) -> Result<(), Status>
    ensures admits { AdmitsPair (turn_view First pair.old) (turn_view Second pair.old) (N.faults pair.old.store.now) (N.faults pair.new.store.now) result }
    ensures later { N.faults pair.old.store.now ≤ N.faults pair.new.store.now }
    ensures first { turn_view First pair.new ≡ turn_view First pair.old }
    ensures second { turn_view Second pair.new ≡ turn_view Second pair.old }
    ensures store { pair.new.store.ghost_name ≡ pair.old.store.ghost_name }
{
    if let Err(fault) = check_file(pair, Turn::First, reads) {
        return Err(status_of_check(Turn::First, fault));
    }
    if let Err(fault) = check_file(pair, Turn::Second, reads) {
        return Err(status_of_check(Turn::Second, fault));
    }
    if pair.has_one_grid() {
        Ok(())
    } else {
        Err(Status::Range(RangeFault::Grids))
    }
}

/// Puts out the file of both files' cells, with a counter of moves of its own.
fn put_merged<N: NodeStore, O: ByteSink>(
    pair: &mut Pair<'_, N>,
    kind: MergeKind,
    out: &mut O,
) -> Result<(), AnswerStop>
    requires grids { (turn_view Second pair.old).grid ≡ (turn_view First pair.old).grid }
    ensures told { PutsMap (turn_view First pair.old).grid (IsMerged kind (turn_view First pair.old) (turn_view Second pair.old)) (O.written out.old) (O.written out.new) result }
    ensures store { pair.new.store.ghost_name ≡ pair.old.store.ghost_name }
    ensures cause { HasStopCause (O.faults out.old) (O.faults out.new) (N.faults pair.old.store.now) (N.faults pair.new.store.now) result }
{
    put_counted::<N, O, Brand>(pair, kind, out, Blank::new(1))
}

/// The same, with the counter of moves in the ledger that the blank is for.
fn put_counted<N: NodeStore, O: ByteSink, L: Ledger>(
    pair: &mut Pair<'_, N>,
    kind: MergeKind,
    out: &mut O,
    blank: Blank,
) -> Result<(), AnswerStop>
    requires name { blank.name ≡ L.name }
    requires parts { blank.parts ≡ L.parts }
    requires one { 0 < blank.parts }
    requires grids { (turn_view Second pair.old).grid ≡ (turn_view First pair.old).grid }
    ensures told { PutsMap (turn_view First pair.old).grid (IsMerged kind (turn_view First pair.old) (turn_view Second pair.old)) (O.written out.old) (O.written out.new) result }
    ensures store { pair.new.store.ghost_name ≡ pair.old.store.ghost_name }
    ensures cause { HasStopCause (O.faults out.old) (O.faults out.new) (N.faults pair.old.store.now) (N.faults pair.new.store.now) result }
{
    let mut moves = Steps::<L>::new(blank);
    let mut block = [0; 4096];
    let mut entries = [QueueEntry { word: 0, state: 0 }; 96];
    let room = 8 * pair.frame(Turn::First).grid.depth() as usize;
    match merge(
        pair,
        kind,
        &mut entries[..room],
        &mut block,
        out,
        &mut moves,
    ) {
        Err(stop) => Err(stop),
        Ok(_) => Ok(()),
    }
}

/// How the words name the way in which cells are put together.
fn merge_kind_from(kind: MergeWord) -> MergeKind
    ensures { result ≡ merge_kind_from kind }
{
    match kind {
        MergeWord::Union => MergeKind::Union,
        MergeWord::Both => MergeKind::Both,
        MergeWord::Minus => MergeKind::Minus,
    }
}

/// How a run ends that cannot load two files.
fn status_of_pair(fault: PairFault) -> Status
    ensures { result ≡ status_of_pair fault }
{
    match fault {
        PairFault::NoFirst => Status::Refused(NodeRefusal::NoFile),
        PairFault::First => Status::Refused(NodeRefusal::NotNodes),
        PairFault::NoSecond => Status::Refused(NodeRefusal::WithNoFile),
        PairFault::Second => Status::Refused(NodeRefusal::WithNotNodes),
        PairFault::Failed => Status::Device(Device::Nodes),
    }
}

/// How a run ends where one of two files is no node file.
fn status_of_check(turn: Turn, fault: CheckFault) -> Status
    ensures { result ≡ status_of_check turn fault }
{
    match (turn, fault) {
        (_, CheckFault::Failed) => Status::Device(Device::Nodes),
        (Turn::First, CheckFault::Refused { number }) => {
            Status::Refused(NodeRefusal::Number(number))
        }
        (Turn::Second, CheckFault::Refused { number }) => {
            Status::Refused(NodeRefusal::WithNumber(number))
        }
    }
}
