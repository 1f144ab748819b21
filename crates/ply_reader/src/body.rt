//! The body of a mesh text behind its header, item by item.

ghost use Rattle.std.specs.Prelude.{◌≡◌, ◌≤◌, ◌<◌, ◌^◌, Some, None, true};
ghost use Rattle.ply_reader.specs.declared.fans.Fan.{Fan};
ghost use Rattle.ply_reader.specs.Declarations.{declared};
ghost use Rattle.ply_reader.specs.Layout.{layout_of};

use crate::faces::{open_fan, take_corner};
use crate::fans::{FaceTriangle, Fan};
use crate::fault::PlyFault;
use crate::header::Header;
use crate::layouts::{Layout, layout_of};
use crate::rows::{pass_elements, pass_row};
use crate::scales::Scale;
use crate::slices::{all_behind, first_ones};
use crate::taking::take_end;
use crate::vertices::take_vertex;
use dev_traits::ByteSource;
use ply_text::Tokens;
use svo_base::Point;

/// What is still to be read of a body.
#[derive(Drop)]
pub(crate) struct Body {
    scale: Scale,
    header: Header,
    layout: Layout,
    // How many vertices are left.
    vertices: u64,
    // Whether the elements before the faces are still to be passed.
    waits: bool,
    // How many faces are left whose corners were not begun.
    faces: u64,
    // The face whose corners are being read.
    fan: Option<Fan>,
    ghost decimals: { scale.decimals ≤ 9 },
    ghost laid: { layout ≡ layout_of (declared header) },
    ghost few: { (layout.vertex.count < 2 ^ 32) × (layout.face.count < 2 ^ 32) },
    ghost left: { faces ≤ layout.face.count },
    ghost inside: { (f : Fan) → fan ≡ Some f → (f.first < layout.vertex.count) × (f.last < layout.vertex.count) × (faces < layout.face.count) },
    ghost whole: { waits ≡ true → (faces ≡ layout.face.count) × (fan ≡ None) },
}

impl Body {
    ghost use Rattle.std.specs.Prelude.{Ok, IfOk, IfSome, IsSome, MatchOption, false, ℕ, List, []};
    ghost use Rattle.ply_text.specs.Reading.{Reading, reading};
    ghost use Rattle.ply_text.specs.Calls.{SameLent};
    ghost use Rattle.ply_reader.specs.Layout.{vertex_count, face_count};
    ghost use Rattle.ply_reader.specs.MeshCalls.{body_reading, start_of, MeshRun, HasNoFace, HasNoCorner, CountsVertex, CountsFace, IsWithinMesh, give_nothing, give_vertex, give_face, give_end, AtEnd, most_corners};

    /// The body behind this header, at its first vertex.
    pub(crate) fn new(header: Header, scale: Scale) -> Body
        requires { scale.decimals ≤ 9 }
        ensures { (text : Reading) → body_reading text result ≡ start_of text scale (declared header) }
    {
        let layout = layout_of(&header);
        Body {
            scale,
            header,
            layout,
            vertices: layout.vertex.count,
            waits: true,
            faces: layout.face.count,
            fan: None,
        }
    }

    pub(crate) fn vertex_count(&self) -> u64
        ensures value { result ≡ vertex_count (declared self.now.header) }
        ensures few { result < 2 ^ 32 }
    {
        self.layout.vertex.count
    }

    pub(crate) fn face_count(&self) -> u64
        ensures value { result ≡ face_count (declared self.now.header) }
        ensures few { result < 2 ^ 32 }
    {
        self.layout.face.count
    }

    /// Takes the next vertex; `None` where none is left.
    pub(crate) fn next_vertex<I: ByteSource>(
        &mut self,
        tokens: &mut Tokens<'_, I>,
    ) -> Result<Option<Point>, PlyFault>
        requires free { tokens.old.stopped ≡ None }
        ensures same { SameLent tokens.old tokens.new }
        ensures run { MeshRun give_vertex (body_reading (reading tokens.old) self.old) (body_reading (reading tokens.new) self.new) result }
        ensures counted { IfOk result (CountsVertex (body_reading (reading tokens.old) self.old) (body_reading (reading tokens.new) self.new)) }
        ensures used_up { self.old.vertices ≡ 0 → result ≡ Ok None }
        ensures faces { self.new.faces ≡ self.old.faces }
        ensures fan { self.new.fan ≡ self.old.fan }
    {
        if self.vertices == 0 {
            return Ok(None);
        }
        let properties = self.header.properties_of(&self.layout.vertex);
        let point = take_vertex(tokens, &self.scale, properties)?;
        self.vertices -= 1;
        Ok(Some(point))
    }

    /// Passes the elements before the faces, where that was not done.
    fn pass_to_faces<I: ByteSource>(&mut self, tokens: &mut Tokens<'_, I>) -> Result<(), PlyFault>
        requires free { tokens.old.stopped ≡ None }
        requires vertices { self.old.vertices ≡ 0 }
        ensures same { SameLent tokens.old tokens.new }
        ensures run { MeshRun give_nothing (body_reading (reading tokens.old) self.old) (body_reading (reading tokens.new) self.new) result }
        ensures passed { IfOk result (λ _. (self.new.waits ≡ false) × (self.new.vertices ≡ 0) × (self.new.faces ≡ self.old.faces) × (self.new.fan ≡ self.old.fan)) }
    {
        if !self.waits {
            return Ok(());
        }
        let behind = all_behind(self.header.all_elements(), self.layout.vertex_at);
        let count = self.layout.face_at.saturating_sub(self.layout.vertex_at);
        pass_elements(
            tokens,
            &self.header,
            first_ones(behind, count.saturating_sub(1)),
        )?;
        self.waits = false;
        Ok(())
    }

    /// Passes what is left of the face whose corners were all read.
    fn close_face<I: ByteSource>(&mut self, tokens: &mut Tokens<'_, I>) -> Result<(), PlyFault>
        requires free { tokens.old.stopped ≡ None }
        requires vertices { self.old.vertices ≡ 0 }
        requires passed { self.old.waits ≡ false }
        ensures same { SameLent tokens.old tokens.new }
        ensures run { MeshRun give_nothing (body_reading (reading tokens.old) self.old) (body_reading (reading tokens.new) self.new) result }
        ensures passed { IfOk result (λ _. (self.new.waits ≡ false) × (self.new.vertices ≡ 0) × (self.new.faces ≡ self.old.faces)) }
        ensures open { IfOk result (λ _. IfSome self.new.fan (λ fan. 0 < fan.left)) }
        ensures corners { IfOk result (λ _. most_corners (body_reading (reading tokens.new) self.new) ≤ most_corners (body_reading (reading tokens.old) self.old)) }
        ensures closed { IfOk result (λ _. HasNoCorner self.old.fan → self.new.fan ≡ None) }
    {
        let Some(fan) = self.fan else {
            return Ok(());
        };
        if fan.left > 0 {
            return Ok(());
        }
        let properties = self.header.properties_of(&self.layout.face);
        pass_row(tokens, all_behind(properties, self.layout.list_at))?;
        self.fan = None;
        Ok(())
    }

    /// The face whose corners are being read, or the next one, of which two corners are then read.
    fn begin_face<I: ByteSource>(
        &mut self,
        tokens: &mut Tokens<'_, I>,
    ) -> Result<Option<Fan>, PlyFault>
        requires free { tokens.old.stopped ≡ None }
        requires vertices { self.old.vertices ≡ 0 }
        requires passed { self.old.waits ≡ false }
        requires open { IfSome self.old.fan (λ fan. 0 < fan.left) }
        ensures same { SameLent tokens.old tokens.new }
        ensures run { MeshRun give_nothing (body_reading (reading tokens.old) self.old) (body_reading (reading tokens.new) self.new) result }
        ensures passed { IfOk result (λ _. (self.new.waits ≡ false) × (self.new.vertices ≡ 0)) }
        ensures corners { IfOk result (λ _. most_corners (body_reading (reading tokens.new) self.new) ≤ most_corners (body_reading (reading tokens.old) self.old)) }
        ensures begun { IfOk result (λ found. MatchOption found ((self.new.faces ≡ 0) × (self.new.fan ≡ None)) (λ fan. (self.new.fan ≡ Some fan) × (0 < fan.left))) }
    {
        if let Some(fan) = self.fan {
            return Ok(Some(fan));
        }
        if self.faces == 0 {
            return Ok(None);
        }
        let properties = self.header.properties_of(&self.layout.face);
        let front = first_ones(properties, self.layout.list_at);
        let fan = open_fan(tokens, self.layout.vertex.count, front)?;
        self.faces -= 1;
        self.fan = Some(fan);
        Ok(Some(fan))
    }

    /// The triangle of the next corner.
    fn take_triangle<I: ByteSource>(
        &mut self,
        tokens: &mut Tokens<'_, I>,
        fan: &Fan,
    ) -> Result<Option<FaceTriangle>, PlyFault>
        requires free { tokens.old.stopped ≡ None }
        requires vertices { self.old.vertices ≡ 0 }
        requires passed { self.old.waits ≡ false }
        requires fan { self.old.fan ≡ Some fan.now }
        requires left { 0 < fan.now.left }
        ensures same { SameLent tokens.old tokens.new }
        ensures run { MeshRun give_face (body_reading (reading tokens.old) self.old) (body_reading (reading tokens.new) self.new) result }
        ensures within { IfOk result (λ found. IfSome found (IsWithinMesh (declared self.old.header))) }
        ensures corners { IfOk result (λ _. most_corners (body_reading (reading tokens.new) self.new) < most_corners (body_reading (reading tokens.old) self.old)) }
        ensures some { IfOk result IsSome }
        ensures vertices { self.new.vertices ≡ 0 }
    {
        let corner = take_corner(tokens, self.layout.vertex.count)?;
        let face = self.layout.face.count - self.faces - 1;
        self.fan = Some(Fan {
            first: fan.first,
            last: corner,
            left: fan.left - 1,
        });
        Ok(Some(FaceTriangle {
            face: face as u32,
            corners: [fan.first, fan.last, corner],
        }))
    }

    /// Takes the next triangle; `None` where no face is left.
    pub(crate) fn next_triangle<I: ByteSource>(
        &mut self,
        tokens: &mut Tokens<'_, I>,
    ) -> Result<Option<FaceTriangle>, PlyFault>
        requires free { tokens.old.stopped ≡ None }
        requires vertices { self.old.vertices ≡ 0 }
        ensures same { SameLent tokens.old tokens.new }
        ensures run { MeshRun give_face (body_reading (reading tokens.old) self.old) (body_reading (reading tokens.new) self.new) result }
        ensures counted { IfOk result (CountsFace (body_reading (reading tokens.old) self.old) (body_reading (reading tokens.new) self.new)) }
    {
        self.pass_to_faces(tokens)?;
        self.close_face(tokens)?;
        match self.begin_face(tokens)? {
            None => Ok(None),
            Some(fan) => self.take_triangle(tokens, &fan),
        }
    }

    /// Passes what stands behind the faces, and gives the text's length.
    pub(crate) fn finish<I: ByteSource>(
        &mut self,
        tokens: &mut Tokens<'_, I>,
    ) -> Result<u64, PlyFault>
        requires free { tokens.old.stopped ≡ None }
        requires faces { HasNoFace (body_reading (reading tokens.old) self.old) }
        ensures same { SameLent tokens.old tokens.new }
        ensures run { MeshRun give_end (body_reading (reading tokens.old) self.old) (body_reading (reading tokens.new) self.new) result }
        ensures ended { IfOk result (AtEnd (reading tokens.old) (reading tokens.new)) }
    {
        self.pass_to_faces(tokens)?;
        self.close_face(tokens)?;
        self.pass_end(tokens)
    }

    /// Passes the elements behind the faces, and the white space at the end.
    fn pass_end<I: ByteSource>(&self, tokens: &mut Tokens<'_, I>) -> Result<u64, PlyFault>
        requires free { tokens.old.stopped ≡ None }
        requires vertices { self.now.vertices ≡ 0 }
        requires passed { self.now.waits ≡ false }
        requires faces { self.now.faces ≡ 0 }
        requires fan { self.now.fan ≡ None }
        ensures same { SameLent tokens.old tokens.new }
        ensures run { MeshRun give_end (body_reading (reading tokens.old) self.now) (body_reading (reading tokens.new) self.now) result }
        ensures ended { IfOk result (AtEnd (reading tokens.old) (reading tokens.new)) }
    {
        let behind = all_behind(self.header.all_elements(), self.layout.face_at);
        pass_elements(tokens, &self.header, behind)?;
        take_end(tokens)
    }
}
