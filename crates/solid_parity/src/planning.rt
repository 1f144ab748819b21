//! The memory of a build of solid cells.

ghost use Rattle.std.specs.Prelude.{◌≡◌, ◌≤◌, ◌-◌, ◌^◌, ◌≤ℤ◌, ◌<ℤ◌, ◌↔◌, pos, Err, IfOk};
ghost use Rattle.svo_base.specs.declared.grids.TheConstants.{MAX_DEPTH};
ghost use Rattle.octree_specs.specs.MemoryPlan.{least_memory, plan_need};
ghost use Rattle.room_plan.specs.Planning.{plan_from, plan_with, IsValid};
ghost use Rattle.room_plan.specs.declared.planning.PlanFault.{PlanFault};

use room_plan::{MemPlan, PlanFault, plan};

/// The plan for a grid of this depth and a limit of memory in bytes: that of a build of the same depth,
/// since a part is filled in one go. Its parts have at most 512 cells along an axis.
///
/// # Errors
///
/// - `TooLarge`: exactly where the limit is above 2^31.
/// - `TooSmall`: exactly where the limit is below the least for this depth, which it carries.
pub fn solid_plan(depth: u32, limit: i64) -> Result<MemPlan, PlanFault>
    requires some { 1 ≤ depth }
    requires deepest { depth ≤ MAX_DEPTH }
    ensures plan { result ≡ plan_from depth limit }
    ensures large { (result ≡ Err PlanFault.TooLarge) ↔ (pos (2 ^ 31) <ℤ limit) }
    ensures small { (result ≡ Err (PlanFault.TooSmall (least_memory depth))) ↔ (limit <ℤ pos (least_memory depth)) }
    ensures need { IfOk result (λ plan. pos (plan_need (plan_with plan)) ≤ℤ limit) }
    ensures valid { IfOk result IsValid }
    ensures narrow { IfOk result (λ plan. 2 ^ (plan.depth - plan.split) ≤ 512) }
{
    plan(depth, limit)
}
