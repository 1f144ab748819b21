//! A whole mesh, in memory.

ghost use Rattle.std.specs.Prelude.{◌≡◌, ◌≤◌, [], List, ℕ, length, Some, Err, IfOk, MatchResult};
ghost use Rattle.std.specs.List.{All};
ghost use Rattle.ply_text.specs.Reading.{Reading};
ghost use Rattle.ply_text.specs.Calls.{SameLent};
ghost use Rattle.svo_base.specs.declared.shapes.Point.{Point};
ghost use Rattle.ply_reader.specs.declared.scales.Scale.{Scale};
ghost use Rattle.ply_reader.specs.Bounds.{IsNear};
ghost use Rattle.ply_reader.specs.MeshCalls.{mesh_reading, IsReady, HasNoFace, IsWithinMesh};
ghost use Rattle.ply_reader.specs.Declarations.{declared};
ghost use Rattle.ply_reader.specs.Layout.{vertex_count};
ghost use Rattle.ply_reader.specs.Gathering.{Gave, GaveAll, IsStopped};
ghost use Rattle.ply_reader.specs.WholeMeshes.{Answers};
ghost use Rattle.dev_traits.specs.Faults.{Rose};

use crate::fans::FaceTriangle;
use crate::fault::PlyFault;
use crate::mesh::MeshReader;
use dev_traits::ByteSource;
use ply_text::Tokens;
use std::alloc::{AllocFailed, Global};
use std::marker::Model;
use svo_base::Point;

/// Why there is no mesh in memory.
#[derive(Clone, Copy, Debug, PartialEq, Eq)]
pub enum MeshFault {
    /// The text is refused, or the source refused a read.
    Text(PlyFault),
    /// Memory ran out.
    Memory,
}

impl From<PlyFault> for MeshFault {
    ghost use Rattle.std.specs.Prelude.{◌≡◌};
    ghost use Rattle.ply_reader.specs.declared.whole_mesh.MeshFault.TheVariants.{Text};

    ghost from_gives = { λ fault e. e ≡ Text fault };

    fn from(fault: PlyFault) -> MeshFault {
        MeshFault::Text(fault)
    }
}

impl<T: Drop> From<AllocFailed<T>> for MeshFault {
    ghost use Rattle.std.specs.Prelude.{◌≡◌};
    ghost use Rattle.ply_reader.specs.declared.whole_mesh.MeshFault.TheVariants.{Memory};

    ghost from_gives = { λ _ e. e ≡ Memory };

    fn from(_error: AllocFailed<T>) -> MeshFault {
        MeshFault::Memory
    }
}

/// The points and triangles of a mesh text.
#[derive(Drop)]
pub struct WholeMesh {
    points: Vec<Point>,
    triangles: Vec<FaceTriangle>,
}

impl Model for WholeMesh {
    ghost use Rattle.ply_reader.specs.PlyMeaning.{PlyMesh};
    ghost use Rattle.ply_reader.specs.WholeMeshes.{IsWhole};

    ghost Value = { PlyMesh };

    ghost view = { λ m. record { points = m.points.items; triangles = m.triangles.items } };

    ghost invariant = { λ m. IsWhole (record { points = m.points.items; triangles = m.triangles.items }) };
}

impl WholeMesh {
    ghost use Rattle.ply_reader.specs.WholeMeshes.{IsWhole};

    /// The points, numbered from 0.
    pub fn points(&self) -> &[Point]
        ensures points { result.now ≡ self.now.points }
        ensures whole { IsWhole self.now }
    {
        &self.points
    }

    /// The triangles of the faces, in order.
    pub fn triangles(&self) -> &[FaceTriangle]
        ensures triangles { result.now ≡ self.now.triangles }
        ensures whole { IsWhole self.now }
    {
        &self.triangles
    }
}

/// Reads a mesh whole, through a lent block; a larger block takes fewer reads.
///
/// Coordinates are multiplied by ten to the power of `decimals`, which is at most 9; with `cut` they
/// are then cut toward zero.
///
/// # Errors
///
/// - `Text(Refused { kind, place })`: the text is refused; all bytes before the place were read.
/// - `Text(ReadFault)`: the source refused a read.
/// - `Memory`: the points or triangles do not fit in memory.
pub fn read_mesh<I: ByteSource>(
    alloc: Global,
    input: &mut I,
    block: &mut [u8],
    decimals: u32,
    cut: bool,
) -> Result<WholeMesh, MeshFault>
    requires block { 2048 ≤ length block.old }
    requires decimals { decimals ≤ 9 }
    ensures told { (text : List ℕ) → I.rest input.old ≡ Some text → Answers (record { decimals = decimals; cut = cut }) text (I.rest input.new) result }
    ensures later { I.faults input.old ≤ I.faults input.new }
    ensures cause { result ≡ Err (MeshFault.Text PlyFault.ReadFault) → Rose (I.faults input.old) (I.faults input.new) }
{
    let mut tokens = Tokens::new(input, block);
    let mut reader = MeshReader::begin(&mut tokens, decimals, cut);
    take_mesh(alloc, &mut tokens, &mut reader)
}

/// Takes all points.
fn take_points<I: ByteSource>(
    alloc: Global,
    tokens: &mut Tokens<'_, I>,
    reader: &mut MeshReader,
) -> Result<Vec<Point>, MeshFault>
    requires ready { IsReady (mesh_reading tokens.old reader.old) }
    ensures same { SameLent tokens.old tokens.new }
    ensures ready { IsReady (mesh_reading tokens.new reader.new) }
    ensures gave { (scale : Scale) (start : Reading) → Gave scale start [] [] (mesh_reading tokens.old reader.old) → MatchResult result
        (λ points. Gave scale start points.items [] (mesh_reading tokens.new reader.new)) (IsStopped scale start (mesh_reading tokens.new reader.new)) }
    ensures used_up { IfOk result (λ _. reader.new.body.vertices ≡ 0) }
    ensures counted { IfOk result (λ points. length points.items ≡ reader.old.body.vertices) }
    ensures header { IfOk result (λ _. declared reader.new.body.header ≡ declared reader.old.body.header) }
    ensures near { IfOk result (λ points. All IsNear points.items) }
{
    let mut points = Vec::new(alloc);
    while let Some(point) = reader.next_vertex(tokens)? {
        points.push(point)?;
    }
    Ok(points)
}

/// Takes all triangles, where the points are used up.
fn take_triangles<I: ByteSource>(
    alloc: Global,
    tokens: &mut Tokens<'_, I>,
    reader: &mut MeshReader,
) -> Result<Vec<FaceTriangle>, MeshFault>
    requires ready { IsReady (mesh_reading tokens.old reader.old) }
    requires used_up { reader.old.body.vertices ≡ 0 }
    ensures same { SameLent tokens.old tokens.new }
    ensures ready { IsReady (mesh_reading tokens.new reader.new) }
    ensures gave { (scale : Scale) (start : Reading) (points : List Point) → Gave scale start points [] (mesh_reading tokens.old reader.old) → MatchResult result
        (λ triangles. Gave scale start points triangles.items (mesh_reading tokens.new reader.new)) (IsStopped scale start (mesh_reading tokens.new reader.new)) }
    ensures used_up { IfOk result (λ _. HasNoFace (mesh_reading tokens.new reader.new).body) }
    ensures within { IfOk result (λ triangles. All (IsWithinMesh (declared reader.old.body.header)) triangles.items) }
{
    let mut triangles = Vec::new(alloc);
    while let Some(triangle) = reader.next_triangle(tokens)? {
        triangles.push(triangle)?;
    }
    Ok(triangles)
}

/// Takes all that the text has.
fn take_mesh<I: ByteSource>(
    alloc: Global,
    tokens: &mut Tokens<'_, I>,
    reader: &mut MeshReader,
) -> Result<WholeMesh, MeshFault>
    requires ready { IsReady (mesh_reading tokens.old reader.old) }
    requires start { reader.old.body.vertices ≡ vertex_count (declared reader.old.body.header) }
    ensures same { SameLent tokens.old tokens.new }
    ensures gave { (scale : Scale) (start : Reading) → Gave scale start [] [] (mesh_reading tokens.old reader.old) → MatchResult result
        (λ mesh. GaveAll scale start mesh (mesh_reading tokens.new reader.new)) (IsStopped scale start (mesh_reading tokens.new reader.new)) }
{
    let points = take_points(alloc, tokens, reader)?;
    let triangles = take_triangles(alloc, tokens, reader)?;
    reader.finish(tokens)?;
    Ok(WholeMesh { points, triangles })
}
