//! How much memory a build is given, and for what.

ghost use Rattle.std.specs.Prelude.{◌≡◌, ◌+◌, ◌-◌, ◌*◌, ◌^◌, ◌<◌, ◌≤◌, ◌≤ℤ◌, ◌<ℤ◌, ◌↔◌, pos, Err, IfOk};
ghost use Rattle.svo_base.specs.declared.grids.TheConstants.{MAX_DEPTH};
ghost use Rattle.octree_specs.specs.MemoryPlan.{base_size, slots_size, finest_split, least_memory, split_of, plan_at, plan_need};
ghost use Rattle.room_plan.specs.Planning.{bytes_within, mem_plan, plan_with, plan_from, IsValid};

/// The most memory that a build may be given, in bytes.
const MOST: i64 = 1 << 31;

/// What every build has besides its slots and queues: two blocks of 4096 bytes, four vertex blocks of
/// 768 and 64 parcels of 44.
const BASE_SIZE: u64 = 14080;

/// Eight queue entries of 16 bytes.
const LEVEL_SIZE: u64 = 128;

const SLOT_SIZE: u64 = 4;

const PARCEL_SIZE: u64 = 44;

const VERTEX_BLOCK_SIZE: u64 = 768;

/// Parts are nodes of this level at most.
const FINEST_SPLIT: u32 = 4;

const LARGEST_POOL: u64 = 1 << 20;

const LARGEST_WINDOW: u64 = 1 << 16;

/// What the memory of a build is for. A grid of this depth is filled in `8^split` parts, which are
/// nodes of one level.
#[derive(Clone, Copy, Debug, PartialEq, Eq)]
pub struct MemPlan {
    pub depth: u32,
    pub split: u32,
    /// How many parcels are gathered before they go to scratch.
    pub pool: u32,
    /// How many blocks of vertices are kept.
    pub window: u32,
    /// How many slots for cells there are: one for each cell of a part.
    pub slots: u32,
}

/// Why there is no plan for a limit of memory.
#[derive(Clone, Copy, Debug, PartialEq, Eq)]
pub enum PlanFault {
    /// The limit is above 2^31 bytes.
    TooLarge,
    /// The limit is below the least that this depth needs, which is carried, in bytes.
    TooSmall(u64),
}

/// The plan for a grid of this depth and a limit of memory in bytes: the coarsest parts whose slots
/// find room, and as many parcels and vertices as the rest has room for by halves. Its buffers take
/// no more than the limit.
///
/// # Errors
///
/// - `TooLarge`: exactly where the limit is above 2^31.
/// - `TooSmall`: exactly where the limit is below the least for this depth, which it carries.
#[tactic(auto, unfolding(crate::specs::Planning::plan_from, octree_specs::specs::MemoryPlan::plan_of))]
pub fn plan(depth: u32, limit: i64) -> Result<MemPlan, PlanFault>
    requires some { 1 ≤ depth }
    requires deepest { depth ≤ MAX_DEPTH }
    ensures plan { result ≡ plan_from depth limit }
    ensures large { (result ≡ Err PlanFault.TooLarge) ↔ (pos (2 ^ 31) <ℤ limit) }
    ensures small { (result ≡ Err (PlanFault.TooSmall (least_memory depth))) ↔ (limit <ℤ pos (least_memory depth)) }
    ensures need { IfOk result (λ plan. pos (plan_need (plan_with plan)) ≤ℤ limit) }
    ensures valid { IfOk result IsValid }
{
    if limit > MOST {
        return Err(PlanFault::TooLarge);
    }
    let limit = bytes_of(limit);
    match split_for(depth, limit) {
        None => Err(PlanFault::TooSmall(size_with(depth, depth.min(FINEST_SPLIT)))),
        Some(split) => Ok(plan_for(depth, limit, split)),
    }
}

/// How many bytes a limit allows: none where it is negative.
fn bytes_of(limit: i64) -> u64
    ensures { result ≡ bytes_within limit }
{
    limit.max(0).unsigned_abs()
}

/// The least split whose slots find room beside what every build has.
fn split_for(depth: u32, limit: u64) -> Option<u32>
    requires { depth ≤ MAX_DEPTH }
    ensures { result ≡ split_of depth limit }
{
    (0..depth.min(FINEST_SPLIT) + 1).find(|split| size_with(depth, *split) <= limit)
}

/// The bytes of what every build has and of a part's slots.
fn size_with(depth: u32, split: u32) -> u64
    requires depth { depth ≤ MAX_DEPTH }
    requires split { split ≤ depth }
    ensures { result ≡ base_size depth + slots_size depth split }
{
    BASE_SIZE + LEVEL_SIZE * u64::from(depth) + SLOT_SIZE * cells(depth - split)
}

/// How many cells there are under a node so many levels above them.
fn cells(height: u32) -> u64
    requires { height ≤ MAX_DEPTH }
    ensures value { result ≡ 8 ^ height }
    ensures most { result ≤ 2 ^ 36 }
{
    8u64.pow(height)
}

/// The plan at a split whose slots find room.
#[tactic(auto, unfolding(octree_specs::specs::MemoryPlan::plan_at))]
fn plan_for(depth: u32, limit: u64, split: u32) -> MemPlan
    requires depth { depth ≤ MAX_DEPTH }
    requires split { split ≤ depth }
    requires fits { base_size depth + slots_size depth split ≤ limit }
    requires limit { limit ≤ 2 ^ 31 }
    ensures plan { result ≡ mem_plan (plan_at depth limit split) }
    ensures need { plan_need (plan_with result) ≤ limit }
{
    let rest = limit - size_with(depth, split);
    let half = rest / 2;
    MemPlan {
        depth,
        split,
        pool: (64 + half / PARCEL_SIZE).min(LARGEST_POOL) as u32,
        window: (4 + (rest - half) / VERTEX_BLOCK_SIZE).min(LARGEST_WINDOW) as u32,
        slots: cells(depth - split) as u32,
    }
}
