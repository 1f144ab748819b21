//! Faces.

ghost use Rattle.std.specs.Prelude.{◌≡◌, ◌≤◌, ◌<◌, ◌^◌, None, IfOk};
ghost use Rattle.ply_text.specs.Reading.{reading};
ghost use Rattle.ply_text.specs.Calls.{SameLent};
ghost use Rattle.ply_reader.specs.Rows.{corner, fan_opened};
ghost use Rattle.ply_reader.specs.Runs.{Runs};

use crate::fans::Fan;
use crate::fault::{PlyFault, PlyKind};
use crate::properties::Property;
use crate::rows::pass_row;
use crate::taking::take_whole;
use dev_traits::ByteSource;
use ply_text::Tokens;

/// The fewest corners of a face.
const LEAST_CORNERS: u64 = 3;

/// A face has fewer corners than this.
const CORNERS_BOUND: u64 = 256;

/// Takes a face up to the second corner of its list; `front` are the properties before the list.
pub(crate) fn open_fan<I: ByteSource>(
    tokens: &mut Tokens<'_, I>,
    vertices: u64,
    front: &[Property],
) -> Result<Fan, PlyFault>
    requires free { tokens.old.stopped ≡ None }
    requires few { vertices < 2 ^ 32 }
    ensures same { SameLent tokens.old tokens.new }
    ensures runs { Runs (fan_opened vertices front.now) (reading tokens.old) (reading tokens.new) result }
    ensures bounds { IfOk result (λ fan. (fan.first < vertices) × (fan.last < vertices) × (0 < fan.left) × (fan.left ≤ 253)) }
{
    pass_row(tokens, front)?;
    let count = take_whole(tokens, PlyKind::BadCount, LEAST_CORNERS, CORNERS_BOUND)?;
    let first = take_corner(tokens, vertices)?;
    let last = take_corner(tokens, vertices)?;
    Ok(Fan {
        first,
        last,
        left: count - 2,
    })
}

/// Takes the number of a corner, one of so many vertices.
pub(crate) fn take_corner<I: ByteSource>(
    tokens: &mut Tokens<'_, I>,
    vertices: u64,
) -> Result<u32, PlyFault>
    requires free { tokens.old.stopped ≡ None }
    requires few { vertices < 2 ^ 32 }
    ensures same { SameLent tokens.old tokens.new }
    ensures runs { Runs (corner vertices) (reading tokens.old) (reading tokens.new) result }
    ensures bounds { IfOk result (λ n. n < vertices) }
{
    let number = take_whole(tokens, PlyKind::BadIndex, 0, vertices)?;
    Ok(number as u32)
}
