//! A mesh text, read once from front to end and put on scratch.

ghost use Rattle.std.specs.Prelude.{◌≡◌, ◌+◌, ◌≤◌, ◌<◌, ◌^◌, ℕ, [], false, List, Err, length, MatchResult};
ghost use Rattle.svo_base.specs.declared.grids.TheConstants.{MAX_DEPTH};
ghost use Rattle.dev_traits.specs.Faults.{Rose};
ghost use Rattle.ply_text.specs.Calls.{SameLent};
ghost use Rattle.ply_reader.specs.Declarations.{declared};
ghost use Rattle.ply_reader.specs.Layout.{vertex_count, face_count};
ghost use Rattle.ply_reader.specs.MeshCalls.{mesh_reading, most_corners, IsReady};
ghost use Rattle.svo_base.specs.Boxes.{IsNearBox};
ghost use Rattle.vertex_spool.specs.Window.{AreBlocksOf};
ghost use Rattle.build_core.specs.Spilling.{StopsSpilling};
ghost use Rattle.build_core.specs.Meshes.{IsJob, IsGridFor, AreEmpty, SpillsMesh, SpillsText, TellsStop, depth_of};
ghost use Rattle.build_core.specs.declared.faults.SpillFault.{SpillFault};
ghost use Rattle.ply_reader.specs.declared.fault.PlyFault.{PlyFault};

use crate::faults::SpillFault;
use crate::jobs::{GridChoice, Job};
use crate::triangles::{Taken, spill_triangles};
use crate::vertices::spool_points;
use dev_traits::{ByteSource, Scratch};
use ply_reader::MeshReader;
use ply_text::Tokens;
use room_plan::{Parcel, Reserved, VertexBlock};
use svo_base::{BoundingBox, Grid};
use tri_partition::Partition;
use vertex_spool::Spool;

/// A mesh on scratch: the grid of its parts, and how many faces and triangles it has.
#[derive(Clone, Copy, Debug, PartialEq, Eq)]
pub struct Spilled {
    pub grid: Grid,
    pub taken: Taken,
}

/// How many points a block of the window has.
const BLOCK_POINTS: u64 = 63;

/// So many parcels more than two a face are used of the pool, so that a face that reaches several parts
/// has room as well.
const MORE_PARCELS: u64 = 4096;

/// Reads a mesh text whole and puts the mesh on scratch: its vertices in stream 0, and each triangle in
/// the streams of the parts that its box reaches. Of the window and the pool only as much is used as a
/// mesh of so many vertices and faces asks for, so that a small one costs little.
pub fn spill<I: ByteSource, S: Scratch>(
    job: &Job,
    input: &mut I,
    block: &mut [u8],
    points_block: &mut [u8],
    window: &mut Reserved<VertexBlock>,
    pool: &mut Reserved<Parcel>,
    scratch: &mut S,
) -> Result<Spilled, SpillFault>
    requires job { IsJob job.now }
    requires block { 2048 ≤ length block.old }
    requires points_block { 12 ≤ length points_block.old }
    requires window { 0 < window.old }
    requires pool { 0 < pool.old }
    requires started { S.started scratch.old ≡ 1 + 8 ^ job.now.plan.split }
    requires empty { AreEmpty (1 + 8 ^ job.now.plan.split) (S.told scratch.old) }
    ensures spills { MatchResult result (SpillsText job.now (I.rest input.old) (I.rest input.new) (S.told scratch.new)) (TellsStop job.now (I.rest input.old) (I.rest input.new)) }
    ensures started { S.started scratch.new ≡ S.started scratch.old }
    ensures asked { S.asked scratch.new ≡ S.asked scratch.old }
    ensures lender { I.lender input.new ≡ I.lender input.old }
    ensures read_later { I.faults input.old ≤ I.faults input.new }
    ensures read_cause { result ≡ Err (SpillFault.Text PlyFault.ReadFault) → Rose (I.faults input.old) (I.faults input.new) }
    ensures spill_later { S.faults scratch.old ≤ S.faults scratch.new }
    ensures spill_cause { result ≡ Err SpillFault.Scratch → Rose (S.faults scratch.old) (S.faults scratch.new) }
{
    let mut tokens = Tokens::new(input, block);
    let mut reader = MeshReader::begin(&mut tokens, job.decimals, job.cut);
    let blocks = front_size(reader.vertex_count() / BLOCK_POINTS + 1, window.len());
    let mut spool = Spool::new(points_block, window.front_mut(blocks));
    let parcels = front_size(2 * reader.face_count() + MORE_PARCELS, pool.len());
    let pool = pool.front_mut(parcels);
    spill_mesh(job, &mut tokens, &mut reader, &mut spool, pool, scratch)
}

/// How many items of a buffer are used, where so many would do.
fn front_size(wanted: u64, room: usize) -> usize
    requires wanted { 0 < wanted }
    requires room { 0 < room }
    ensures some { 0 < result }
    ensures within { result ≤ room }
{
    wanted.min(room as u64) as usize
}

/// Puts all that a reader has still to give on scratch.
fn spill_mesh<I: ByteSource, S: Scratch>(
    job: &Job,
    tokens: &mut Tokens<'_, I>,
    reader: &mut MeshReader,
    spool: &mut Spool<'_>,
    pool: &mut [Parcel],
    scratch: &mut S,
) -> Result<Spilled, SpillFault>
    requires job { IsJob job.now }
    requires ready { IsReady (mesh_reading tokens.old reader.old) }
    requires start { reader.old.body.vertices ≡ vertex_count (declared reader.old.body.header) }
    requires corners { most_corners (mesh_reading tokens.old reader.old).body < 2 ^ 64 }
    requires none { spool.old.count ≡ 0 }
    requires waiting { spool.old.waiting ≡ [] }
    requires unclosed { spool.old.closed ≡ false }
    requires window { (bytes : List ℕ) → AreBlocksOf bytes spool.old.window }
    requires pool { 0 < length pool.old }
    requires started { S.started scratch.old ≡ 1 + 8 ^ job.now.plan.split }
    requires empty { AreEmpty (1 + 8 ^ job.now.plan.split) (S.told scratch.old) }
    ensures same { SameLent tokens.old tokens.new }
    ensures spills { MatchResult result
        (SpillsMesh job.now (mesh_reading tokens.old reader.old) (mesh_reading tokens.new reader.new) (S.told scratch.new))
        (StopsSpilling (mesh_reading tokens.old reader.old) (mesh_reading tokens.new reader.new)) }
    ensures started { S.started scratch.new ≡ S.started scratch.old }
    ensures asked { S.asked scratch.new ≡ S.asked scratch.old }
    ensures later { S.faults scratch.old ≤ S.faults scratch.new }
    ensures cause { result ≡ Err SpillFault.Scratch → Rose (S.faults scratch.old) (S.faults scratch.new) }
{
    let bounds = spool_points(tokens, reader, spool, scratch)?;
    let grid = chosen(&job.grid, &bounds);
    let mut partition = Partition::new(grid, job.plan.split, pool);
    let taken = spill_triangles(tokens, reader, spool, &mut partition, scratch)?;
    reader.finish(tokens)?;
    Ok(Spilled { grid, taken })
}

/// The grid that is given, or the one that is fitted to a box.
fn chosen(choice: &GridChoice, bounds: &BoundingBox) -> Grid
    requires some { 1 ≤ depth_of choice.now }
    requires deepest { depth_of choice.now ≤ MAX_DEPTH }
    requires near { IsNearBox bounds.now }
    ensures grid { IsGridFor choice.now bounds.now result }
    ensures depth { result.depth ≡ depth_of choice.now }
{
    match choice {
        GridChoice::Given(grid) => *grid,
        GridChoice::Fit(depth) => bounds.grid(*depth),
    }
}
