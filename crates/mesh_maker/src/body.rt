//! The lines behind the header, one after the other.

ghost use Rattle.std.specs.Prelude.{◌≡◌, ◌++◌, [], ◌≤◌};

use crate::generator::next_number;
use crate::lines::{Line, write_face, write_vertex};
use std::marker::Model;

/// What is left of the vertices and faces of a made text.
#[derive(Drop)]
pub struct Body {
    side: u32,
    // The generator's number of the vertex before the next one.
    number: u64,
    // The next vertex and the next face.
    vertex: u32,
    face: u32,
}

impl Model for Body {
    ghost use Rattle.std.specs.Prelude.{◌≤◌, ℕ, List};
    ghost use Rattle.mesh_maker.specs.Left.{lines_left};
    ghost use Rattle.mesh_maker.specs.MadeText.{vertex_total, face_total};

    ghost Value = { List ℕ };

    ghost view = { λ b. lines_left b.side b.number b.vertex b.face };

    ghost invariant = { λ b. (1 ≤ b.side) × (b.side ≤ 1024) × (b.vertex ≤ vertex_total b.side) × (b.face ≤ face_total b.side) };
}

impl Body {
    ghost use Rattle.mesh_maker.specs.MadeText.{made_body};

    /// All vertices and faces of the mesh of a number.
    pub fn new(number: u64, side: u32) -> Body
        requires least { 1 ≤ side }
        requires most { side ≤ 1024 }
        ensures { result ≡ made_body number side }
    {
        Body {
            side,
            number,
            vertex: 0,
            face: 0,
        }
    }

    /// Makes the next line, and an empty one at the end.
    pub fn next_line(&mut self, line: &mut Line)
        ensures line { self.old ≡ line.new.bytes ++ self.new }
        ensures end { line.new.bytes ≡ [] → self.old ≡ [] }
    {
        let columns = self.side + 1;
        if self.vertex < columns * columns {
            self.number = next_number(self.number);
            write_vertex(line, self.side, self.vertex, (self.number >> 58) as u32);
            self.vertex += 1;
        } else if self.face < self.side * self.side {
            write_face(line, self.side, self.face);
            self.face += 1;
        } else {
            line.clear();
        }
    }
}
