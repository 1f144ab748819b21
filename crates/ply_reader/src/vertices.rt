//! Vertices.

ghost use Rattle.std.specs.Prelude.{◌≡◌, ◌≤◌, ◌^◌, None, IfOk, unsigned_abs};
ghost use Rattle.ply_text.specs.Reading.{reading};
ghost use Rattle.ply_text.specs.Calls.{SameLent};
ghost use Rattle.ply_reader.specs.Declarations.{is_coordinate};
ghost use Rattle.ply_reader.specs.Rows.{coordinate_taken, vertex_row, with_part, origin};
ghost use Rattle.ply_reader.specs.Runs.{Runs};
ghost use Rattle.ply_reader.specs.Bounds.{IsNear};

use crate::fault::PlyFault;
use crate::properties::{Part, Property};
use crate::rows::pass_property;
use crate::scales::Scale;
use crate::taking::take_coordinate;
use dev_traits::ByteSource;
use ply_text::Tokens;
use svo_base::Point;

const ORIGIN: Point = Point { x: 0, y: 0, z: 0 };

/// Takes the row of a vertex.
pub(crate) fn take_vertex<I: ByteSource>(
    tokens: &mut Tokens<'_, I>,
    scale: &Scale,
    properties: &[Property],
) -> Result<Point, PlyFault>
    requires free { tokens.old.stopped ≡ None }
    requires scale { scale.now.decimals ≤ 9 }
    ensures same { SameLent tokens.old tokens.new }
    ensures runs { Runs (vertex_row scale.now properties.now origin) (reading tokens.old) (reading tokens.new) result }
    ensures bounds { IfOk result IsNear }
{
    let mut point = ORIGIN;
    for property in properties {
        point = take_property(tokens, scale, property, &point)?;
    }
    Ok(point)
}

/// Takes a property of a vertex: a coordinate of the point, or what is passed.
fn take_property<I: ByteSource>(
    tokens: &mut Tokens<'_, I>,
    scale: &Scale,
    property: &Property,
    point: &Point,
) -> Result<Point, PlyFault>
    requires free { tokens.old.stopped ≡ None }
    requires scale { scale.now.decimals ≤ 9 }
    requires near { IsNear point.now }
    ensures same { SameLent tokens.old tokens.new }
    ensures runs { Runs (coordinate_taken scale.now property.now point.now) (reading tokens.old) (reading tokens.new) result }
    ensures bounds { IfOk result IsNear }
{
    if !is_coordinate(property.part) {
        pass_property(tokens, property)?;
        return Ok(*point);
    }
    let value = take_coordinate(tokens, scale)?;
    Ok(with_part(property.part, point, &value))
}

fn is_coordinate(part: Part) -> bool
    ensures { result ≡ is_coordinate part }
{
    matches!(part, Part::X | Part::Y | Part::Z)
}

/// The point with a coordinate put in.
fn with_part(part: Part, point: &Point, value: &i32) -> Point
    requires near { IsNear point.now }
    requires value { unsigned_abs value.now ≤ 2 ^ 30 }
    ensures point { result ≡ with_part part point.now value.now }
    ensures bounds { IsNear result }
{
    match part {
        Part::X => Point {
            x: *value,
            ..*point
        },
        Part::Y => Point {
            y: *value,
            ..*point
        },
        Part::Z => Point {
            z: *value,
            ..*point
        },
        Part::Indices | Part::Other => *point,
    }
}
