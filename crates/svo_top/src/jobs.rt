//! From the words of `build` to what is to be built.

ghost use Rattle.std.specs.Prelude.{◌≡◌, ◌≤◌, ◌&&◌, true, false, unsigned_abs, Ok, IfOk, IfSome, None};
ghost use Rattle.svo_base.specs.GridLimits.{is_positive, is_within};
ghost use Rattle.svo_base.specs.declared.grids.TheConstants.{MAX_DEPTH};
ghost use Rattle.build_core.specs.Meshes.{IsJob, depth_of};
ghost use Rattle.room_plan.specs.Planning.{plan_from};
ghost use Rattle.svo_top.specs.Ranges.{choice_from, fitted_at, given_by, has_decimals, job_from, job_on, planned_job};

use crate::outcome::RangeFault;
use build_core::{GridChoice, Job};
use room_plan::{MemPlan, PlanFault, plan};
use svo_base::{Grid, GridFault, MAX_DEPTH};
use svo_words::BuildWords;

/// The job that the words name, or the first range that one of their numbers is out of: the decimals
/// come first, then the grid, and then the memory.
#[tactic(auto, unfolding(crate::specs::Ranges::job_from))]
pub fn job_from(words: &BuildWords) -> Result<Job, RangeFault>
    ensures job { result ≡ job_from words.now }
    ensures is { IfOk result IsJob }
{
    let Some(decimals) = decimals_of(words.decimals) else {
        return Err(RangeFault::Decimals);
    };
    let grid = match choice_of(words.depth, &words.origin, &words.cell) {
        Err(fault) => return Err(RangeFault::Grid(fault)),
        Ok(grid) => grid,
    };
    planned_job(grid, decimals, words.cut, words.memory)
}

/// The job on a grid, in so many bytes of memory.
pub fn planned_job(
    grid: GridChoice,
    decimals: u32,
    cut: bool,
    memory: i64,
) -> Result<Job, RangeFault>
    requires depth { (1 ≤ depth_of grid) × (depth_of grid ≤ MAX_DEPTH) }
    requires decimals { decimals ≤ 9 }
    ensures job { result ≡ planned_job decimals cut grid (plan_from (depth_of grid) memory) }
    ensures is { IfOk result IsJob }
{
    match plan(depth_of(&grid), memory) {
        Err(PlanFault::TooLarge) => Err(RangeFault::TooLarge),
        Err(PlanFault::TooSmall(least)) => Err(RangeFault::TooSmall(least)),
        Ok(plan) => Ok(Job {
            grid,
            decimals,
            cut,
            plan,
        }),
    }
}

/// How many decimals are kept, if from 0 to 9.
fn decimals_of(decimals: i64) -> Option<u32>
    ensures named { IfSome result (λ kept. (has_decimals decimals ≡ true) × (kept ≡ unsigned_abs decimals)) }
    ensures few { IfSome result (λ kept. kept ≤ 9) }
    ensures none { result ≡ None → has_decimals decimals ≡ false }
{
    if (0..=9).contains(&decimals) {
        Some(decimals.unsigned_abs() as u32)
    } else {
        None
    }
}

/// The grid of these numbers; without an origin and a cell it is fitted to the mesh.
pub fn choice_of(
    depth: i64,
    origin: &Option<[i64; 3]>,
    cell: &Option<i64>,
) -> Result<GridChoice, GridFault>
    ensures choice { result ≡ choice_from depth origin.now cell.now }
    ensures depth { IfOk result (λ choice. (1 ≤ depth_of choice) × (depth_of choice ≤ MAX_DEPTH)) }
{
    let (Some(origin), Some(cell)) = (origin, cell) else {
        return fitted_at(depth);
    };
    match Grid::new(depth, *origin, *cell) {
        Ok(grid) => Ok(GridChoice::Given(grid)),
        Err(fault) => Err(fault),
    }
}

/// A grid of a depth that is to be fitted.
fn fitted_at(depth: i64) -> Result<GridChoice, GridFault>
    ensures choice { result ≡ fitted_at depth }
    ensures depth { IfOk result (λ choice. (1 ≤ depth_of choice) × (depth_of choice ≤ MAX_DEPTH)) }
{
    if (1..=i64::from(MAX_DEPTH)).contains(&depth) {
        Ok(GridChoice::Fit(depth.unsigned_abs() as u32))
    } else {
        Err(GridFault::Depth)
    }
}

/// The depth of a grid.
fn depth_of(choice: &GridChoice) -> u32
    ensures { result ≡ depth_of choice.now }
{
    match choice {
        GridChoice::Given(grid) => grid.depth(),
        GridChoice::Fit(depth) => *depth,
    }
}
