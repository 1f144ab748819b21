//! Two node files put together.

ghost use Rattle.std.specs.Prelude.{◌≡◌, ℕ, ◌+◌, ◌-◌, ◌*◌, ◌^◌, ◌<◌, ◌≤◌, [], List, Option, IfSome, OnOk};
ghost use Rattle.svo_base.specs.GridShape.{GridShape};
ghost use Rattle.dev_traits.specs.Faults.{HasCause};
ghost use Rattle.octree_specs.specs.Cells.{Cell};
ghost use Rattle.node_file.specs.FileView.{FileView};
ghost use Rattle.node_check.specs.Stops.{HasStopCause};
ghost use Rattle.level_queues.specs.PushedFiles.{HasPushed};
ghost use Rattle.cell_lists.specs.Lifted.{Accepts};
ghost use Rattle.node_merge.specs.Maps.{IsMerged, AreMergedFaces};
ghost use Rattle.node_merge.specs.Pushing.{PushesAll, PushesTo, HoldsFirst, IsNextFace, StopsInEither};
ghost use Rattle.node_merge.specs.Sides.{turn_view};
ghost use Rattle.node_merge.specs.declared.kinds.MergeKind.{MergeKind};
ghost use Rattle.node_merge.specs.declared.pairs.Turn.TheVariants.{First, Second};

use crate::fronts::{begin, face_if, go_on, least_code};
use crate::kinds::{MergeKind, chosen};
use crate::pairs::{Pair, Turn};
use dev_traits::{ByteSink, Failed, NodeStore};
use level_queues::LevelQueues;
use node_check::AnswerStop;
use node_file::NodeWriter;
use std::sync::ledger::Ledger;
use svo_base::Steps;

/// Pushes the cells of both files together, each with its face. At every answer the sink holds a front
/// of their file. A cell takes at most as many moves as the octree is deep.
pub fn push_merged<N: NodeStore, O: ByteSink, L: Ledger, M: Ledger>(
    pair: &mut Pair<'_, N>,
    kind: MergeKind,
    queues: &mut LevelQueues<'_>,
    writer: &mut NodeWriter<'_, O>,
    reads: &mut Steps<L>,
    moves: &mut Steps<M>,
) -> Result<(), AnswerStop>
    requires grids { (turn_view Second pair.old).grid ≡ (turn_view First pair.old).grid }
    requires pushed { (start : Option (List ℕ)) × HasPushed (turn_view First pair.old).grid start 0 [] queues.old writer.old }
    ensures pushed { OnOk result ((start : Option (List ℕ)) → HasPushed (turn_view First pair.old).grid start 0 [] queues.old writer.old
        → PushesAll (turn_view First pair.old).grid start (IsMerged kind (turn_view First pair.old) (turn_view Second pair.old)) queues.new writer.new) }
    ensures front { (start : Option (List ℕ)) → HasPushed (turn_view First pair.old).grid start 0 [] queues.old writer.old
        → HoldsFirst (turn_view First pair.old).grid start (IsMerged kind (turn_view First pair.old) (turn_view Second pair.old)) (O.written writer.new.sink.now) }
    ensures unrefused { (cells : List Cell) → IsMerged kind (turn_view First pair.old) (turn_view Second pair.old) cells → Accepts result }
    ensures refused { StopsInEither (turn_view First pair.old) (turn_view Second pair.old) result }
    ensures first { turn_view First pair.new ≡ turn_view First pair.old }
    ensures second { turn_view Second pair.new ≡ turn_view Second pair.old }
    ensures store { pair.new.store.ghost_name ≡ pair.old.store.ghost_name }
    ensures moves { OnOk result (moves.new + queues.old.depth * queues.old.cells ≤ moves.old + queues.old.depth * queues.new.cells) }
    ensures depth { queues.new.depth ≡ queues.old.depth }
    ensures sink { writer.new.sink.ghost_name ≡ writer.old.sink.ghost_name }
    ensures cause { HasStopCause (O.faults writer.old.sink.now) (O.faults writer.new.sink.now) (N.faults pair.old.store.now) (N.faults pair.new.store.now) result }
{
    let mut first = match begin(pair, Turn::First, reads) {
        Ok(front) => front,
        Err(fault) => return Err(AnswerStop::Walk(fault)),
    };
    let mut second = match begin(pair, Turn::Second, reads) {
        Ok(front) => front,
        Err(fault) => return Err(AnswerStop::Walk(fault)),
    };
    let mut from = 0;
    'cells: loop {
        let Some(code) = least_code(first.head, second.head) else {
            return Ok(());
        };
        let face = chosen(kind, face_if(first.head, code), face_if(second.head, code));
        match put(queues, writer, code, face, moves) {
            Ok(()) => {}
            Err(_) => return Err(AnswerStop::WriteFault),
        }
        from = code + 1;
        match go_on(pair, Turn::First, &mut first, from, reads) {
            Ok(()) => {}
            Err(fault) => return Err(AnswerStop::Walk(fault)),
        }
        match go_on(pair, Turn::Second, &mut second, from, reads) {
            Ok(()) => {}
            Err(fault) => return Err(AnswerStop::Walk(fault)),
        }
    }
}

/// Pushes a cell, where it has a face.
fn put<O: ByteSink, M: Ledger>(
    queues: &mut LevelQueues<'_>,
    writer: &mut NodeWriter<'_, O>,
    code: u64,
    face: Option<u32>,
    moves: &mut Steps<M>,
) -> Result<(), Failed>
    requires inside { code < 8 ^ queues.old.depth }
    requires small { IfSome face (λ face. face ≤ 2 ^ 32 - 2) }
    requires pushed { (grid : GridShape) × (start : Option (List ℕ)) × (from : ℕ) × (cells : List Cell) × (from ≤ code) × HasPushed grid start from cells queues.old writer.old }
    ensures pushed { OnOk result ((kind : MergeKind) → (first second : FileView) → (grid : GridShape) → (start : Option (List ℕ)) → (from : ℕ) → from ≤ code
        → IsNextFace (AreMergedFaces kind first second) from code face → PushesTo grid start (AreMergedFaces kind first second) from queues.old writer.old
        → PushesTo grid start (AreMergedFaces kind first second) (code + 1) queues.new writer.new) }
    ensures front { (kind : MergeKind) → (first second : FileView) → (grid : GridShape) → (start : Option (List ℕ)) → (from : ℕ) → from ≤ code → code < 8 ^ grid.depth → first.grid ≡ grid
        → IsNextFace (AreMergedFaces kind first second) from code face → PushesTo grid start (AreMergedFaces kind first second) from queues.old writer.old
        → HoldsFirst grid start (IsMerged kind first second) (O.written writer.new.sink.now) }
    ensures moves { OnOk result (moves.new + queues.old.depth * queues.old.cells ≤ moves.old + queues.old.depth * queues.new.cells) }
    ensures depth { queues.new.depth ≡ queues.old.depth }
    ensures sink { writer.new.sink.ghost_name ≡ writer.old.sink.ghost_name }
    ensures cause { HasCause (O.faults writer.old.sink.now) (O.faults writer.new.sink.now) result }
{
    let Some(face) = face else {
        return Ok(());
    };
    queues.push(code, face, writer, moves)?;
    Ok(())
}
