//! The made mesh as a source of bytes.

ghost use Rattle.std.specs.Prelude.{◌≡◌, ◌≤◌, ◌<◌, ◌++◌, [], min, drop, length, Some, Ok};
ghost use Rattle.arrayvec.specs.ArrayString.{array_string_len};
ghost use Rattle.dev_traits.specs.Contents.{TakesFront, GivesAtMost};
ghost use Rattle.dev_traits.specs.Faults.{HasCause};

use crate::body::Body;
use crate::lines::{Line, write_header};
use dev_traits::{ByteSource, Failed};
use std::marker::Model;

/// The text of a made mesh, a line at a time. It takes no memory and never fails.
#[derive(Drop)]
pub struct MadeMesh {
    body: Body,
    // The line that is being given, and how many of its bytes were given.
    line: Line,
    given: usize,
}

impl Model for MadeMesh {
    ghost use Rattle.std.specs.Prelude.{◌≤◌, ℕ, List, ◌++◌, drop};
    ghost use Rattle.arrayvec.specs.ArrayString.{array_string_len};

    ghost Value = { List ℕ };

    ghost view = { λ m. drop m.given m.line.bytes ++ m.body };

    ghost invariant = { λ m. m.given ≤ array_string_len m.line };
}

impl MadeMesh {
    ghost use Rattle.std.specs.Prelude.{take};
    ghost use Rattle.mesh_maker.specs.MadeText.{made_text};

    /// The mesh of a number, with a side of 1 to 1024 faces: the text has `(side + 1)^2` vertices and
    /// `side^2` faces of four corners.
    pub fn new(number: u64, side: u32) -> MadeMesh
        requires least { 1 ≤ side }
        requires most { side ≤ 1024 }
        ensures { result ≡ made_text number side }
    {
        let mut line = Line::new();
        write_header(&mut line, (side + 1) * (side + 1), side * side);
        MadeMesh {
            body: Body::new(number, side),
            line,
            given: 0,
        }
    }

    /// Gives bytes of one line, as many as fit; none only at the end of the text.
    fn give(&mut self, into: &mut [u8]) -> usize
        requires { 0 < length into.old }
        ensures bound { result ≤ length into.old }
        ensures size { length into.new ≡ length into.old }
        ensures bytes { self.old ≡ take result into.new ++ self.new }
        ensures end { result ≡ 0 → self.old ≡ [] }
    {
        self.given = refill(&mut self.body, &mut self.line, self.given);
        let count = into.len().min(self.line.len() - self.given);
        let end = self.given + count;
        into[..count].copy_from_slice(&self.line.as_str().as_bytes()[self.given..end]);
        self.given = end;
        count
    }
}

/// Makes the next line where the last one was given as a whole, and answers how many bytes of the line
/// were given.
fn refill(body: &mut Body, line: &mut Line, given: usize) -> usize
    requires { given ≤ array_string_len line.old }
    ensures bound { result ≤ array_string_len line.new }
    ensures same { drop given line.old.bytes ++ body.old ≡ drop result line.new.bytes ++ body.new }
    ensures end { result ≡ array_string_len line.new → drop given line.old.bytes ++ body.old ≡ [] }
{
    if given < line.len() {
        return given;
    }
    body.next_line(line);
    0
}

impl ByteSource for MadeMesh {
    ghost rest = { λ s. Some s };

    ghost faults = { λ _. 0 };

    fn read(&mut self, into: &mut [u8]) -> Result<usize, Failed>
        requires { 0 < length into.old }
        ensures bound { GivesAtMost (length into.old) result }
        ensures bytes { TakesFront (Some self.old) (Some self.new) into.new result }
        ensures cause { HasCause 0 0 result }
        ensures full { result ≡ Ok (min (length into.old) (length self.old)) }
    {
        let mut done = 0;
        while done < into.len() {
            let count = self.give(&mut into[done..]);
            if count == 0 {
                return Ok(done);
            }
            done += count;
        }
        Ok(done)
    }
}
