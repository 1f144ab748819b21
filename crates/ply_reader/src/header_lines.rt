//! The lines of a header.

ghost use Rattle.std.specs.Prelude.{◌≡◌, ◌<◌, None, IfOk, true};
ghost use Rattle.ply_text.specs.Reading.{reading};
ghost use Rattle.ply_text.specs.Calls.{SameLent};
ghost use Rattle.ply_reader.specs.Declarations.{declared};
ghost use Rattle.ply_reader.specs.Cursors.{mapped};
ghost use Rattle.ply_reader.specs.HeaderRules.{HasMesh};
ghost use Rattle.ply_reader.specs.HeaderSteps.{whole_header, header_line, taken_from, refused_at};
ghost use Rattle.ply_reader.specs.PlyMeaning.{vertices_reached};
ghost use Rattle.ply_reader.specs.Runs.{Runs};

use crate::fault::{PlyFault, PlyKind};
use crate::header::Header;
use crate::layouts::before_vertices;
use crate::rows::pass_elements;
use crate::taking::of_text;
use dev_traits::ByteSource;
use ply_text::Tokens;

/// Takes the header of a text, with the line `end_header`.
fn read_header<I: ByteSource>(tokens: &mut Tokens<'_, I>) -> Result<Header, PlyFault>
    requires free { tokens.old.stopped ≡ None }
    ensures same { SameLent tokens.old tokens.new }
    ensures runs { Runs whole_header (reading tokens.old) (reading tokens.new) (mapped declared result) }
    ensures mesh { IfOk result (λ header. HasMesh (declared header)) }
{
    let mut header = Header::new();
    while !take_line(tokens, &mut header)? {}
    Ok(header)
}

/// Takes the header of a text, and passes the elements before the vertices.
pub(crate) fn read_to_vertices<I: ByteSource>(
    tokens: &mut Tokens<'_, I>,
) -> Result<Header, PlyFault>
    requires free { tokens.old.stopped ≡ None }
    ensures same { SameLent tokens.old tokens.new }
    ensures runs { Runs vertices_reached (reading tokens.old) (reading tokens.new) (mapped declared result) }
{
    let header = read_header(tokens)?;
    pass_elements(tokens, &header, before_vertices(&header))?;
    Ok(header)
}

/// Takes the next line of a header, and says whether it ends the header.
fn take_line<I: ByteSource>(
    tokens: &mut Tokens<'_, I>,
    header: &mut Header,
) -> Result<bool, PlyFault>
    requires free { tokens.old.stopped ≡ None }
    ensures same { SameLent tokens.old tokens.new }
    ensures runs { Runs (header_line (declared header.old)) (reading tokens.old) (reading tokens.new)
        (mapped (taken_from (declared header.new)) result) }
    ensures onward { IfOk result (λ _. tokens.old.place < tokens.new.place) }
    ensures mesh { IfOk result (λ ended. ended ≡ true → HasMesh (declared header.new)) }
{
    match tokens.next_line() {
        Ok(Some(line)) => refused_at(line.place, header.take(line.bytes)),
        Ok(None) => Err(header.cut_off(tokens.place())),
        Err(fault) => Err(of_text(fault)),
    }
}

/// The answer for a line at a place.
fn refused_at(place: u64, taken: Result<bool, PlyKind>) -> Result<bool, PlyFault>
    ensures { result ≡ refused_at place taken }
{
    match taken {
        Ok(ended) => Ok(ended),
        Err(kind) => Err(PlyFault::Refused { kind, place }),
    }
}
