//! The triangles of a mesh, given to the parts that their boxes reach.

ghost use Rattle.std.specs.Prelude.{◌≡◌, ◌≤◌, ◌<◌, ◌^◌, ℕ, [], List, Err, IfOk, OnOk, IfSome, All, MatchResult};
ghost use Rattle.dev_traits.specs.Faults.{HasCause, Rose};
ghost use Rattle.svo_base.specs.declared.shapes.Point.{Point};
ghost use Rattle.ply_text.specs.Calls.{SameLent};
ghost use Rattle.ply_reader.specs.Declarations.{declared};
ghost use Rattle.ply_reader.specs.Layout.{vertex_count, face_count};
ghost use Rattle.ply_reader.specs.MeshCalls.{mesh_reading, most_corners, IsReady, HasNoFace};
ghost use Rattle.mesh_laws.specs.Meshes.{faced_at};
ghost use Rattle.octree_specs.specs.Mesh.{vertex_at};
ghost use Rattle.build_core.specs.Spilling.{IsSpooled, SpillsTriangles, StopsTriangles};

use crate::faults::SpillFault;
use dev_traits::{ByteSource, Failed, Scratch};
use ply_reader::{FaceTriangle, MeshReader};
use ply_text::Tokens;
use svo_base::{Point, Triangle};
use tri_partition::Partition;
use vertex_spool::Spool;

/// How many faces and triangles a mesh has.
#[derive(Clone, Copy, Debug, PartialEq, Eq)]
pub struct Taken {
    pub faces: u64,
    pub triangles: u64,
}

/// Takes all triangles, whose corners are fetched from scratch, and gives each to the parts that its
/// box reaches.
pub fn spill_triangles<I: ByteSource, S: Scratch>(
    tokens: &mut Tokens<'_, I>,
    reader: &mut MeshReader,
    spool: &mut Spool<'_>,
    partition: &mut Partition<'_>,
    scratch: &mut S,
) -> Result<Taken, SpillFault>
    requires ready { IsReady (mesh_reading tokens.old reader.old) }
    requires used_up { reader.old.body.vertices ≡ 0 }
    requires corners { most_corners (mesh_reading tokens.old reader.old).body < 2 ^ 64 }
    requires faces { face_count (declared reader.old.body.header) < 2 ^ 32 }
    requires vertices { spool.old.count ≡ vertex_count (declared reader.old.body.header) }
    requires spooled { (points : List Point) × IsSpooled points spool.old (S.told scratch.old) }
    requires streams { 8 ^ partition.old.split < S.started scratch.old }
    ensures same { SameLent tokens.old tokens.new }
    ensures ready { IsReady (mesh_reading tokens.new reader.new) }
    ensures spills { (points : List Point) → IsSpooled points spool.old (S.told scratch.old) → MatchResult result
        (λ taken. SpillsTriangles partition.old.grid partition.old.split points (mesh_reading tokens.old reader.old) (mesh_reading tokens.new reader.new)
        (S.told scratch.old) (S.told scratch.new) partition.old.waiting [] taken.faces taken.triangles)
        (StopsTriangles points (mesh_reading tokens.old reader.old) (mesh_reading tokens.new reader.new)) }
    ensures no_face { OnOk result (HasNoFace (mesh_reading tokens.new reader.new).body) }
    ensures started { S.started scratch.new ≡ S.started scratch.old }
    ensures asked { S.asked scratch.new ≡ S.asked scratch.old }
    ensures later { S.faults scratch.old ≤ S.faults scratch.new }
    ensures cause { result ≡ Err SpillFault.Scratch → Rose (S.faults scratch.old) (S.faults scratch.new) }
{
    let mut taken = Taken {
        faces: 0,
        triangles: 0,
    };
    while let Some(found) = reader.next_triangle(tokens)? {
        let triangle = fetch_corners(&found, spool, scratch)?;
        partition.add(&triangle, found.face, scratch)?;
        taken = Taken {
            faces: u64::from(found.face) + 1,
            triangles: taken.triangles + 1,
        };
    }
    partition.flush(scratch)?;
    Ok(taken)
}

/// The triangle whose corners are the points of these numbers.
fn fetch_corners<S: Scratch>(
    found: &FaceTriangle,
    spool: &mut Spool<'_>,
    scratch: &mut S,
) -> Result<Triangle, Failed>
    requires spooled { (points : List Point) × IsSpooled points spool.old (S.told scratch.old) }
    requires corners { All (λ corner. corner < spool.old.count) found.now.corners }
    requires stream { 0 < S.started scratch.old }
    ensures spooled { (points : List Point) → IsSpooled points spool.old (S.told scratch.old) → IsSpooled points spool.new (S.told scratch.old) }
    ensures triangle { (points : List Point) → IsSpooled points spool.old (S.told scratch.old) → IfSome (S.told scratch.old) (λ _. IfOk result (λ triangle. triangle ≡ (faced_at points found.now).triangle)) }
    ensures count { spool.new.count ≡ spool.old.count }
    ensures told { S.told scratch.new ≡ S.told scratch.old }
    ensures started { S.started scratch.new ≡ S.started scratch.old }
    ensures asked { S.asked scratch.new ≡ S.asked scratch.old }
    ensures cause { HasCause (S.faults scratch.old) (S.faults scratch.new) result }
{
    let [a, b, c] = found.corners;
    Ok(Triangle {
        a: fetch_corner(a, spool, scratch)?,
        b: fetch_corner(b, spool, scratch)?,
        c: fetch_corner(c, spool, scratch)?,
    })
}

/// The point of a number.
fn fetch_corner<S: Scratch>(
    number: u32,
    spool: &mut Spool<'_>,
    scratch: &mut S,
) -> Result<Point, Failed>
    requires spooled { (points : List Point) × IsSpooled points spool.old (S.told scratch.old) }
    requires corner { number < spool.old.count }
    requires stream { 0 < S.started scratch.old }
    ensures spooled { (points : List Point) → IsSpooled points spool.old (S.told scratch.old) → IsSpooled points spool.new (S.told scratch.old) }
    ensures point { (points : List Point) → IsSpooled points spool.old (S.told scratch.old) → IfSome (S.told scratch.old) (λ _. IfOk result (λ point. point ≡ vertex_at points number)) }
    ensures count { spool.new.count ≡ spool.old.count }
    ensures told { S.told scratch.new ≡ S.told scratch.old }
    ensures started { S.started scratch.new ≡ S.started scratch.old }
    ensures asked { S.asked scratch.new ≡ S.asked scratch.old }
    ensures cause { HasCause (S.faults scratch.old) (S.faults scratch.new) result }
{
    spool.fetch(number, scratch)
}
