//! A text of rays or points in, a line for each of them out.

ghost use Rattle.std.specs.Prelude.{◌≡◌, ◌≢◌, Ok, ◌<◌, ℕ, List, ◌≤◌, ◌⊎◌, Option, None, Some, Err, true, IfOk, IfErr, OnOk};
ghost use Rattle.std.specs.Result.{result_err};
ghost use Rattle.std.specs.Io.KnownBytes.{append_known};
ghost use Rattle.dev_traits.specs.Faults.{DidNotRise, Rose};
ghost use Rattle.octree_specs.specs.Cells.{Cell};
ghost use Rattle.ply_text.specs.Reading.{Reading, reading};
ghost use Rattle.ply_text.specs.Calls.{SameLent};
ghost use Rattle.ray_walk.specs.Answers.{TellsCells};
ghost use Rattle.ray_answers.specs.LineCalls.{IsLineOf, IsOfKind, ReadsLine};
ghost use Rattle.ray_answers.specs.QueryTexts.{queries_of};
ghost use Rattle.ray_answers.specs.Answering.{EndsSo, HasAnswered, HasLineCause, HasRead, MayStop, RefusesNoWord, RefusesSo};
ghost use Rattle.ray_answers.specs.Runs.{GivesAnswer, KeepsGiven, IsQueryStop, IsUnderWay, IsOver, GoesOn, PutsRest, HasRestCause};
ghost use Rattle.ray_answers.specs.declared.queries.QueryKind.{QueryKind};
ghost use Rattle.ray_answers.specs.declared.stops.LineStop.TheVariants.{Memory};
ghost use Rattle.node_check.specs.Stops.{PutsFront};

use crate::answer_line::AnswerLine;
use crate::answers::answer_of;
use crate::lines::{Line, read_line};
use crate::queries::{Query, QueryKind};
use crate::stops::{LineStop, stop_of_fault};
use crate::waiting::{BLOCK, Waiting, add, put_waiting};
use dev_traits::{ByteSink, ByteSource};
use near_query::Search;
use node_file::Records;
use ply_text::Tokens;
use recent_words::RecentWords;
use std::alloc::Global;
use std::sync::ledger::Ledger;
use svo_base::Steps;

/// Answers the rays or the points of a text, and puts out a line for each: `hit n/m cell code face face`
/// of a ray, with the time in lowest terms and the face that the cell keeps; `near distance cell code
/// face face` of a point, with the square of the distance from the closed cube of the nearest cell; or
/// `none`. Where the queries end before the text, a device fails or memory runs out, the answers so far
/// are put out first. Memory is taken for the search of points alone.
///
/// A line of the text is blank, or has whole numbers with spaces or tabs between them, each an optional
/// `-` and 1 to 18 digits: six for a ray, its origin and its direction, or the three of a point.
///
/// # Errors
///
/// - `AtLine`: the first line that is neither blank nor such a query.
/// - `ReadFault`, `WriteFault`, `Walk(Failed)`: the input, the output or the file failed.
/// - `Walk(Refused)`: a word shows that the file is no node file.
/// - `Memory`: there is none for the search of points.
pub fn answer_text<R: Records, I: ByteSource, O: ByteSink, L: Ledger>(
    alloc: Global,
    kind: QueryKind,
    nodes: &mut R,
    input: &mut I,
    out: &mut O,
    reads: &mut Steps<L>,
) -> Result<(), LineStop>
    ensures ends { (text : List ℕ) → I.rest input.old ≡ Some text → EndsSo (queries_of kind text).end result }
    ensures answered { (text : List ℕ) (cells : List Cell) → I.rest input.old ≡ Some text → TellsCells (R.file nodes.old) cells
        → HasAnswered (R.file nodes.old).grid cells (queries_of kind text).queries (O.written out.old) (O.written out.new) result }
    ensures read { (text : List ℕ) → I.rest input.old ≡ Some text → HasRead text (I.rest input.new) result }
    ensures complete { (text : List ℕ) (cells : List Cell) → I.rest input.old ≡ Some text → TellsCells (R.file nodes.old) cells
        → DidNotRise (I.faults input.old) (I.faults input.new) → DidNotRise (O.faults out.old) (O.faults out.new) → DidNotRise (R.faults nodes.old) (R.faults nodes.new)
        → (result_err result ≡ (queries_of kind text).end) ⊎ (result ≡ Err Memory) }
    ensures stops { IfErr result (MayStop kind) }
    ensures sound { (cells : List Cell) → TellsCells (R.file nodes.old) cells → RefusesNoWord result }
    ensures refused { RefusesSo (R.file nodes.old).words (R.file nodes.old).totals.records (R.file nodes.old).grid.depth result }
    ensures cause { HasLineCause (I.faults input.old) (I.faults input.new) (O.faults out.old) (O.faults out.new) (R.faults nodes.old) (R.faults nodes.new) result }
    ensures same { R.file nodes.new ≡ R.file nodes.old }
    ensures lender { R.lender nodes.new ≡ R.lender nodes.old }
{
    let mut block = [0; BLOCK];
    let mut waiting = Waiting::new();
    let mut tokens = Tokens::new(input, &mut block);
    let mut search = Search::new(alloc);
    let answered = answer_lines(
        kind,
        nodes,
        &mut tokens,
        out,
        &mut waiting,
        &mut search,
        reads,
    );
    put_rest(out, &mut waiting, answered)
}

/// Answers the queries of all lines. The last answers wait. The words that a query reads are remembered
/// for those behind it: many go the same way at first, and the face of a cell that was hit is found by
/// the way on which the cell was.
fn answer_lines<R: Records, I: ByteSource, O: ByteSink, L: Ledger>(
    kind: QueryKind,
    nodes: &mut R,
    tokens: &mut Tokens<'_, I>,
    out: &mut O,
    waiting: &mut Waiting,
    search: &mut Search,
    reads: &mut Steps<L>,
) -> Result<(), LineStop>
    requires free { tokens.old.stopped ≡ None }
    ensures lent { SameLent tokens.old tokens.new }
    ensures stops { IfErr result (MayStop kind) }
    ensures over { (a : Reading) (start : Option (List ℕ)) → IsUnderWay kind (R.file nodes.old) a (reading tokens.old) start (O.written out.old) waiting.old.items
        → IsOver kind (R.file nodes.old) a (reading tokens.new) start (O.written out.new) waiting.new.items result }
    ensures sound { (cells : List Cell) → TellsCells (R.file nodes.old) cells → RefusesNoWord result }
    ensures refused { RefusesSo (R.file nodes.old).words (R.file nodes.old).totals.records (R.file nodes.old).grid.depth result }
    ensures cause { HasLineCause (I.faults tokens.old.input.now) (I.faults tokens.new.input.now) (O.faults out.old) (O.faults out.new) (R.faults nodes.old) (R.faults nodes.new) result }
    ensures same { R.file nodes.new ≡ R.file nodes.old }
    ensures lender { R.lender nodes.new ≡ R.lender nodes.old }
{
    let mut recent = RecentWords::new(nodes);
    answer_each(kind, &mut recent, tokens, out, waiting, search, reads)
}

/// Answers the queries of the lines, one after another.
fn answer_each<R: Records, I: ByteSource, O: ByteSink, L: Ledger>(
    kind: QueryKind,
    nodes: &mut R,
    tokens: &mut Tokens<'_, I>,
    out: &mut O,
    waiting: &mut Waiting,
    search: &mut Search,
    reads: &mut Steps<L>,
) -> Result<(), LineStop>
    requires free { tokens.old.stopped ≡ None }
    ensures lent { SameLent tokens.old tokens.new }
    ensures stops { IfErr result (MayStop kind) }
    ensures over { (a : Reading) (start : Option (List ℕ)) → IsUnderWay kind (R.file nodes.old) a (reading tokens.old) start (O.written out.old) waiting.old.items
        → IsOver kind (R.file nodes.old) a (reading tokens.new) start (O.written out.new) waiting.new.items result }
    ensures sound { (cells : List Cell) → TellsCells (R.file nodes.old) cells → RefusesNoWord result }
    ensures refused { RefusesSo (R.file nodes.old).words (R.file nodes.old).totals.records (R.file nodes.old).grid.depth result }
    ensures cause { HasLineCause (I.faults tokens.old.input.now) (I.faults tokens.new.input.now) (O.faults out.old) (O.faults out.new) (R.faults nodes.old) (R.faults nodes.new) result }
    ensures same { R.file nodes.new ≡ R.file nodes.old }
    ensures lender { R.lender nodes.new ≡ R.lender nodes.old }
{
    loop {
        match answer_next(kind, nodes, tokens, out, waiting, search, reads) {
            Err(stop) => return Err(stop),
            Ok(false) => return Ok(()),
            Ok(true) => {}
        }
    }
}

/// Answers the query of the next line, if it asks, and says whether there is a line.
fn answer_next<R: Records, I: ByteSource, O: ByteSink, L: Ledger>(
    kind: QueryKind,
    nodes: &mut R,
    tokens: &mut Tokens<'_, I>,
    out: &mut O,
    waiting: &mut Waiting,
    search: &mut Search,
    reads: &mut Steps<L>,
) -> Result<bool, LineStop>
    requires free { tokens.old.stopped ≡ None }
    ensures lent { SameLent tokens.old tokens.new }
    ensures free { IfOk result (λ _. tokens.new.stopped ≡ None) }
    ensures onward { IfOk result (λ more. more ≡ true → tokens.old.place < tokens.new.place) }
    ensures stops { IfErr result (MayStop kind) }
    ensures goes { (a : Reading) (start : Option (List ℕ)) → IsUnderWay kind (R.file nodes.old) a (reading tokens.old) start (O.written out.old) waiting.old.items
        → GoesOn kind (R.file nodes.old) a (reading tokens.new) start (O.written out.new) waiting.new.items result }
    ensures sound { (cells : List Cell) → TellsCells (R.file nodes.old) cells → RefusesNoWord result }
    ensures refused { RefusesSo (R.file nodes.old).words (R.file nodes.old).totals.records (R.file nodes.old).grid.depth result }
    ensures cause { HasLineCause (I.faults tokens.old.input.now) (I.faults tokens.new.input.now) (O.faults out.old) (O.faults out.new) (R.faults nodes.old) (R.faults nodes.new) result }
    ensures same { R.file nodes.new ≡ R.file nodes.old }
    ensures lender { R.lender nodes.new ≡ R.lender nodes.old }
{
    match read_line(kind, tokens) {
        Err(stop) => Err(stop),
        Ok(line) => take_line(nodes, &line, out, waiting, search, reads),
    }
}

/// Answers the query of a line that was read, if it asks, and says whether there is a line.
fn take_line<R: Records, O: ByteSink, L: Ledger>(
    nodes: &mut R,
    line: &Line,
    out: &mut O,
    waiting: &mut Waiting,
    search: &mut Search,
    reads: &mut Steps<L>,
) -> Result<bool, LineStop>
    ensures more { IfOk result (λ more. more ≡ true → line.now ≢ Line.End) }
    ensures goes { (kind : QueryKind) (a b c : Reading) (start : Option (List ℕ)) → IsUnderWay kind (R.file nodes.old) a b start (O.written out.old) waiting.old.items → ReadsLine kind b c (Ok line.now)
        → GoesOn kind (R.file nodes.old) a c start (O.written out.new) waiting.new.items result }
    ensures stops { (kind : QueryKind) → IsLineOf kind line.now → IfErr result (IsQueryStop kind) }
    ensures sound { (cells : List Cell) → TellsCells (R.file nodes.old) cells → RefusesNoWord result }
    ensures refused { RefusesSo (R.file nodes.old).words (R.file nodes.old).totals.records (R.file nodes.old).grid.depth result }
    ensures cause { HasLineCause 0 0 (O.faults out.old) (O.faults out.new) (R.faults nodes.old) (R.faults nodes.new) result }
    ensures same { R.file nodes.new ≡ R.file nodes.old }
    ensures lender { R.lender nodes.new ≡ R.lender nodes.old }
{
    match line {
        Line::End => Ok(false),
        Line::Blank => Ok(true),
        Line::Asks(query) => match answer(nodes, query, out, waiting, search, reads) {
            Err(stop) => Err(stop),
            Ok(()) => Ok(true),
        },
    }
}

/// Answers a query.
fn answer<R: Records, O: ByteSink, L: Ledger>(
    nodes: &mut R,
    query: &Query,
    out: &mut O,
    waiting: &mut Waiting,
    search: &mut Search,
    reads: &mut Steps<L>,
) -> Result<(), LineStop>
    ensures gives { (cells : List Cell) → TellsCells (R.file nodes.old) cells → GivesAnswer (R.file nodes.old).grid cells query.now
        (append_known (O.written out.old) waiting.old.items) (append_known (O.written out.new) waiting.new.items) result }
    ensures kept { KeepsGiven (append_known (O.written out.old) waiting.old.items) (append_known (O.written out.new) waiting.new.items) result }
    ensures front { PutsFront (O.written out.old) (O.written out.new) waiting.old.items }
    ensures stops { (kind : QueryKind) → IsOfKind kind query.now → IfErr result (IsQueryStop kind) }
    ensures sound { (cells : List Cell) → TellsCells (R.file nodes.old) cells → RefusesNoWord result }
    ensures refused { RefusesSo (R.file nodes.old).words (R.file nodes.old).totals.records (R.file nodes.old).grid.depth result }
    ensures cause { HasLineCause 0 0 (O.faults out.old) (O.faults out.new) (R.faults nodes.old) (R.faults nodes.new) result }
    ensures same { R.file nodes.new ≡ R.file nodes.old }
    ensures lender { R.lender nodes.new ≡ R.lender nodes.old }
{
    match answer_of(nodes, query, search, reads) {
        Err(fault) => Err(stop_of_fault(fault)),
        Ok(line) => add_line(out, waiting, &line),
    }
}

/// Adds the line of an answer to those that wait.
fn add_line<O: ByteSink>(
    out: &mut O,
    waiting: &mut Waiting,
    line: &AnswerLine,
) -> Result<(), LineStop>
    ensures given { OnOk result (append_known (O.written out.new) waiting.new.items ≡ append_known (append_known (O.written out.old) waiting.old.items) line.now.bytes) }
    ensures front { PutsFront (O.written out.old) (O.written out.new) waiting.old.items }
    ensures later { O.faults out.old ≤ O.faults out.new }
    ensures failed { IfErr result (λ stop. (stop ≡ LineStop.WriteFault) × Rose (O.faults out.old) (O.faults out.new)) }
{
    match add(out, waiting, line.as_str().as_bytes()) {
        Ok(()) => Ok(()),
        Err(_) => Err(LineStop::WriteFault),
    }
}

/// Puts out the answers that wait, unless the output has failed.
fn put_rest<O: ByteSink>(
    out: &mut O,
    waiting: &mut Waiting,
    answered: Result<(), LineStop>,
) -> Result<(), LineStop>
    ensures sound { RefusesNoWord answered → RefusesNoWord result }
    ensures stops { (kind : QueryKind) → IfErr answered (MayStop kind) → IfErr result (MayStop kind) }
    ensures rest { PutsRest (O.written out.old) waiting.old.items (O.written out.new) answered result }
    ensures cause { HasRestCause (O.faults out.old) (O.faults out.new) answered result }
{
    if let Err(LineStop::WriteFault) = answered {
        return answered;
    }
    match put_waiting(out, waiting) {
        Ok(()) => answered,
        Err(_) => Err(LineStop::WriteFault),
    }
}
