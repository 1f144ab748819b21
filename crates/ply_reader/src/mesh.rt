//! A mesh, item by item.

ghost use Rattle.std.specs.Prelude.{◌≡◌, ◌≤◌, ◌<◌, ◌^◌, None};

use crate::body::Body;
use crate::fans::FaceTriangle;
use crate::fault::PlyFault;
use crate::header::Header;
use crate::header_lines::read_to_vertices;
use crate::scales::Scale;
use dev_traits::ByteSource;
use ply_text::Tokens;
use svo_base::Point;

/// Reads a mesh in ASCII PLY: its vertices one after the other, then the triangles of its faces. It
/// keeps one token, the header's tables and a face's first and last corner, and nothing of the mesh's
/// size.
///
/// The text is read through the same tokens in each call, which are lent for the call alone.
///
/// After a refusal or a read fault each call answers it again and changes nothing.
#[derive(Drop)]
pub struct MeshReader {
    body: Body,
    stopped: Option<PlyFault>,
}

impl MeshReader {
    ghost use Rattle.std.specs.Prelude.{None, Ok, IfOk};
    ghost use Rattle.ply_text.specs.Calls.{SameLent};
    ghost use Rattle.ply_reader.specs.Declarations.{declared};
    ghost use Rattle.ply_reader.specs.Layout.{vertex_count, face_count};
    ghost use Rattle.ply_reader.specs.MeshCalls.{mesh_reading, IsReady, MeshCall, Begins, HasNoFace, AtEnd, CountsVertex, CountsFace, give_vertex, give_face, give_end};
    ghost use Rattle.ply_text.specs.Reading.{reading};

    /// How many vertices the header declares; 0 where it was refused.
    pub fn vertex_count(&self) -> u64
        ensures value { result ≡ vertex_count (declared self.now.body.header) }
        ensures few { result < 2 ^ 32 }
    {
        self.body.vertex_count()
    }

    /// How many faces the header declares; 0 where it was refused.
    pub fn face_count(&self) -> u64
        ensures value { result ≡ face_count (declared self.now.body.header) }
        ensures few { result < 2 ^ 32 }
    {
        self.body.face_count()
    }

    /// The next vertex, its coordinates times ten to the power of the decimals. `None` exactly where
    /// the vertices are used up.
    ///
    /// # Errors
    ///
    /// - `Refused` with `BadNumber`, `NotWhole`, `OutOfRange`: a coordinate is refused, at its place.
    /// - `Refused` with `BadCount`, `TokenTooLong`, `Truncated`, `TooLong`: so is what stands between.
    /// - `ReadFault`: the source refused a read.
    pub fn next_vertex<I: ByteSource>(
        &mut self,
        tokens: &mut Tokens<'_, I>,
    ) -> Result<Option<Point>, PlyFault>
        requires ready { IsReady (mesh_reading tokens.old self.old) }
        ensures same { SameLent tokens.old tokens.new }
        ensures ready { IsReady (mesh_reading tokens.new self.new) }
        ensures call { MeshCall give_vertex (mesh_reading tokens.old self.old) (mesh_reading tokens.new self.new) result }
        ensures counted { IfOk result (CountsVertex (mesh_reading tokens.old self.old).body (mesh_reading tokens.new self.new).body) }
        ensures used_up { self.old.stopped ≡ None → self.old.body.vertices ≡ 0 → result ≡ Ok None }
        ensures faces { self.new.body.faces ≡ self.old.body.faces }
        ensures fan { self.new.body.fan ≡ self.old.body.fan }
    {
        if let Some(fault) = self.stopped {
            return Err(fault);
        }
        let found = self.body.next_vertex(tokens);
        self.stopped = found.err();
        found
    }

    /// The next triangle of the faces: a face with the corners c0, c1, c2, c3, .. stands for the
    /// triangles (c0, c1, c2), (c0, c2, c3), ... `None` exactly where the faces are used up.
    ///
    /// # Errors
    ///
    /// - `Refused` with `BadCount`: a face has not 3 to 255 corners, or another list no count.
    /// - `Refused` with `BadIndex`: a corner is not the number of a vertex.
    /// - `Refused` with `TokenTooLong`, `Truncated`, `TooLong`: so is what stands between.
    /// - `ReadFault`: the source refused a read.
    pub fn next_triangle<I: ByteSource>(
        &mut self,
        tokens: &mut Tokens<'_, I>,
    ) -> Result<Option<FaceTriangle>, PlyFault>
        requires ready { IsReady (mesh_reading tokens.old self.old) }
        requires vertices { self.old.stopped ≡ None → self.old.body.vertices ≡ 0 }
        ensures same { SameLent tokens.old tokens.new }
        ensures ready { IsReady (mesh_reading tokens.new self.new) }
        ensures call { MeshCall give_face (mesh_reading tokens.old self.old) (mesh_reading tokens.new self.new) result }
        ensures counted { IfOk result (CountsFace (mesh_reading tokens.old self.old).body (mesh_reading tokens.new self.new).body) }
    {
        if let Some(fault) = self.stopped {
            return Err(fault);
        }
        let found = self.body.next_triangle(tokens);
        self.stopped = found.err();
        found
    }

    /// Passes the elements behind the faces and the white space at the end, and gives the text's
    /// length in bytes.
    ///
    /// # Errors
    ///
    /// - `Refused` with `TrailingData`: something else follows, at its place.
    /// - `Refused` with `BadCount`, `TokenTooLong`, `Truncated`, `TooLong`: an element is refused.
    /// - `ReadFault`: the source refused a read.
    pub fn finish<I: ByteSource>(&mut self, tokens: &mut Tokens<'_, I>) -> Result<u64, PlyFault>
        requires ready { IsReady (mesh_reading tokens.old self.old) }
        requires faces { self.old.stopped ≡ None → HasNoFace (mesh_reading tokens.old self.old).body }
        ensures same { SameLent tokens.old tokens.new }
        ensures ready { IsReady (mesh_reading tokens.new self.new) }
        ensures call { MeshCall give_end (mesh_reading tokens.old self.old) (mesh_reading tokens.new self.new) result }
        ensures ended { IfOk result (AtEnd (mesh_reading tokens.old self.old).body.text (mesh_reading tokens.new self.new).body.text) }
    {
        if let Some(fault) = self.stopped {
            return Err(fault);
        }
        let found = self.body.finish(tokens);
        self.stopped = found.err();
        found
    }

    /// A reader at the first vertex of the text that the tokens are of: it reads the header and passes
    /// the elements before the vertices. Where these are refused, or the source refuses a read, the
    /// reader has no vertex and no face, and each of its calls answers that.
    ///
    /// Coordinates are multiplied by ten to the power of `decimals`, which is at most 9; with `cut`
    /// they are then cut toward zero.
    pub fn begin<I: ByteSource>(tokens: &mut Tokens<'_, I>, decimals: u32, cut: bool) -> MeshReader
        requires decimals { decimals ≤ 9 }
        requires fresh { tokens.old.stopped ≡ None }
        ensures same { SameLent tokens.old tokens.new }
        ensures ready { IsReady (mesh_reading tokens.new result) }
        ensures begins { Begins (record { decimals = decimals; cut = cut }) (reading tokens.old) (mesh_reading tokens.new result) }
    {
        let scale = Scale { decimals, cut };
        match read_to_vertices(tokens) {
            Ok(header) => MeshReader {
                body: Body::new(header, scale),
                stopped: None,
            },
            Err(fault) => MeshReader {
                body: Body::new(Header::new(), scale),
                stopped: Some(fault),
            },
        }
    }
}
