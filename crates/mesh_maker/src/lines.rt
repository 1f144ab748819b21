//! The lines of a made text, each built in a string of fixed room.

ghost use Rattle.std.specs.Prelude.{◌≡◌, ◌+◌, ◌*◌, ◌^◌, ◌<◌, ◌≤◌, ◌++◌, decimal};
ghost use Rattle.arrayvec.specs.ArrayString.{array_string_len};
ghost use Rattle.octree_specs.specs.PlainText.{plain_header, vertex_line};
ghost use Rattle.mesh_maker.specs.MadeText.{vertex_with, made_face, quad_line};

use arrayvec::ArrayString;
use itoa::Buffer;

/// Room for the longest line, and for a header as a whole, which has at most 165 bytes.
pub const ROOM: usize = 176;

pub type Line = ArrayString<ROOM>;

/// Makes the header of so many vertices and faces.
#[tactic(auto, unfolding(octree_specs::specs::PlainText::plain_header))]
pub fn write_header(line: &mut Line, vertices: u32, faces: u32)
    ensures { line.new.bytes ≡ plain_header vertices faces }
{
    line.clear();
    line.push_str("ply\nformat ascii 1.0\nelement vertex ");
    push_number(line, vertices);
    line.push_str("\nproperty int x\nproperty int y\nproperty int z\nelement face ");
    push_number(line, faces);
    line.push_str("\nproperty list uchar int vertex_indices\nend_header\n");
}

/// Makes the line of a vertex.
#[tactic(auto, unfolding(octree_specs::specs::PlainText::vertex_line))]
pub fn write_vertex(line: &mut Line, side: u32, vertex: u32, height: u32)
    requires side { side ≤ 1024 }
    requires vertex { vertex < 2 ^ 21 }
    ensures { line.new.bytes ≡ vertex_line (vertex_with side vertex height) }
{
    let columns = side + 1;
    line.clear();
    push_number(line, 16 * (vertex % columns));
    line.push_str(" ");
    push_number(line, 16 * (vertex / columns));
    line.push_str(" ");
    push_number(line, height);
    line.push_str("\n");
}

/// Makes the line of a face.
#[tactic(auto, using(crate::proofs::MadeLines::face_bytes), unfolding(crate::specs::MadeText::quad_line))]
pub fn write_face(line: &mut Line, side: u32, face: u32)
    requires some { 1 ≤ side }
    requires side { side ≤ 1024 }
    requires face { face < 2 ^ 20 }
    ensures { line.new.bytes ≡ quad_line (made_face side face) }
{
    let first = face / side * (side + 1) + face % side;
    line.clear();
    line.push_str("4 ");
    push_number(line, first);
    line.push_str(" ");
    push_number(line, first + 1);
    line.push_str(" ");
    push_number(line, first + side + 2);
    line.push_str(" ");
    push_number(line, first + side + 1);
    line.push_str("\n");
}

/// Adds a number in digits.
fn push_number(line: &mut Line, number: u32)
    requires { array_string_len line.old ≤ 150 }
    ensures bytes { line.new.bytes ≡ line.old.bytes ++ decimal number }
    ensures room { array_string_len line.new ≤ array_string_len line.old + 10 }
{
    line.push_str(Buffer::new().format(number));
}
