//! The filled cells of a part, pushed into the queues.

ghost use Rattle.std.specs.Prelude.{◌≡◌, ℕ, ◌+◌, ◌*◌, ◌^◌, ◌<◌, ◌≤◌, List, Option, length, slice_index, OnOk};
ghost use Rattle.dev_traits.specs.Faults.{HasCause};
ghost use Rattle.svo_base.specs.GridShape.{GridShape};
ghost use Rattle.octree_specs.specs.Cells.{Cell};
ghost use Rattle.level_queues.specs.PushedFiles.{HasPushed};
ghost use Rattle.build_core.specs.Pushing.{AreSlotsOf, PushesOn, LeavesFront};

use dev_traits::{ByteSink, Failed};
use level_queues::LevelQueues;
use morton_scan::PartSlots;
use node_file::NodeWriter;
use std::sync::ledger::Ledger;
use svo_base::Steps;

/// Pushes the filled cells of a part, of which there are `codes` in all, in ascending order. It is
/// refused only where the writer's sink counted a fault. At every answer the sink holds a front of the
/// file of the cells pushed and of one more, whatever cells follow, and each of these took at most a move
/// a level.
///
/// The cells of all parts before were pushed into the queues, and nothing failed.
pub fn push_cells<O: ByteSink, L: Ledger>(
    slots: &PartSlots<'_>,
    part: u32,
    codes: u64,
    queues: &mut LevelQueues<'_>,
    writer: &mut NodeWriter<'_, O>,
    moves: &mut Steps<L>,
) -> Result<(), Failed>
    requires slots { codes ≤ length slots.now }
    requires faces { (place : ℕ) → place < codes → slice_index slots.now place < 2 ^ 32 }
    requires codes { (part + 1) * codes ≤ 2 ^ 60 }
    requires inside { (part + 1) * codes ≤ 8 ^ queues.old.depth }
    requires pushed { (grid : GridShape) × (start : Option (List ℕ)) × (cells : List Cell) × HasPushed grid start (part * codes) cells queues.old writer.old }
    ensures pushed { OnOk result ((grid : GridShape) → (start : Option (List ℕ)) → (cells : List Cell) → HasPushed grid start (part * codes) cells queues.old writer.old
        → PushesOn grid start (part * codes) ((part + 1) * codes) cells (AreSlotsOf slots.now (part * codes) codes grid) queues.new writer.new moves.old moves.new) }
    ensures front { (grid : GridShape) → (start : Option (List ℕ)) → (cells : List Cell) → HasPushed grid start (part * codes) cells queues.old writer.old
        → LeavesFront grid start (part * codes) ((part + 1) * codes) cells (AreSlotsOf slots.now (part * codes) codes grid) (O.written writer.new.sink.now) moves.old moves.new }
    ensures sink { writer.new.sink.ghost_name ≡ writer.old.sink.ghost_name }
    ensures depth { queues.new.depth ≡ queues.old.depth }
    ensures cause { HasCause (O.faults writer.old.sink.now) (O.faults writer.new.sink.now) result }
{
    let mut from = u64::from(part) * codes;
    while let Some(cell) = slots.next_code(part, codes, from) {
        queues.push(cell.code, cell.face, writer, moves)?;
        from = cell.code + 1;
    }
    Ok(())
}
