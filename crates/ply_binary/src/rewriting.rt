//! A part of a binary body, rewritten.

ghost use Rattle.std.specs.Prelude.{◌≡◌, ◌+◌, ◌*◌, ◌≤◌, ◌<◌, ◌++◌, ℕ, List, length, take, drop};
ghost use Rattle.ply_reader.specs.Declarations.{declared};
ghost use Rattle.ply_binary.specs.Values.{size_of, number_of, token_of};
ghost use Rattle.ply_binary.specs.BodyStates.{IsIn, IsAt, Halts, body_left, left_behind, passed, is_last, is_coordinate_kind};

use crate::body::{Body, Due, Kind};
use crate::values::{TOKEN_ROOM, put_token, size_of};
use ply_reader::Header;

/// Why a part of a body is not rewritten further.
#[derive(Clone, Copy, Debug, PartialEq, Eq)]
pub(crate) enum Halt {
    /// There is no room for a further token.
    Filled,
    /// The bytes of the next value are not all there.
    Short,
    /// No value is left.
    Ended,
    /// A negative count ends the body.
    Over,
}

/// What was done with a part of a body.
#[derive(Clone, Copy, Debug, PartialEq, Eq)]
pub(crate) struct Done {
    /// How far the body was passed.
    pub(crate) body: Body,
    /// How many bytes were used, and how many were made.
    pub(crate) used: usize,
    pub(crate) made: usize,
    pub(crate) halt: Halt,
}

/// A step of the rewriting.
#[derive(Clone, Copy, Debug, PartialEq, Eq)]
struct Taken {
    made: usize,
    over: bool,
}

/// Takes the value that comes next, and writes its token behind the first `made` bytes.
fn take_value(body: &mut Body, due: Due, value: &[u8], into: &mut [u8], made: usize) -> Taken
    requires here { IsAt body.old due.kind }
    requires size { length value.now ≡ size_of due.scalar }
    requires room { made + 24 ≤ length into.old }
    ensures made { (made < result.made) × (result.made ≤ made + 24) }
    ensures size { length into.new ≡ length into.old }
    ensures text { take result.made into.new ≡ take made into.old ++ token_of (is_coordinate_kind due.kind) due.scalar value.now }
    ensures place { body.new ≡ passed due.kind (number_of due.scalar value.now) body.old }
    ensures over { result.over ≡ is_last due (number_of due.scalar value.now) }
{
    let coordinate = matches!(due.kind, Kind::Single(true));
    let made = put_token(into, made, coordinate, due.scalar, value);
    Taken {
        made,
        over: body.pass(due, value),
    }
}

/// Rewrites the values of a part of a body as tokens at the front of `into`.
pub(crate) fn rewrite(body: Body, header: &Header, bytes: &[u8], into: &mut [u8]) -> Done
    requires { IsIn (declared header.now) body }
    ensures used { result.used ≤ length bytes.now }
    ensures made { result.made ≤ length into.new }
    ensures size { length into.new ≡ length into.old }
    ensures inside { IsIn (declared header.now) result.body }
    ensures left { (behind : List ℕ) → body_left (declared header.now) body (bytes.now ++ behind)
        ≡ take result.made into.new ++ left_behind result.halt (declared header.now) result.body (drop result.used bytes.now ++ behind) }
    ensures grew { result.used ≤ 8 * result.made }
    ensures filled { result.halt ≡ Halt.Filled → length into.new < result.made + 24 }
    ensures over { result.halt ≡ Halt.Over → 0 < result.made }
    ensures halt { Halts result.halt (body_left (declared header.now) result.body) (drop result.used bytes.now) }
{
    let mut body = body;
    let mut used = 0;
    let mut made = 0;
    'values: loop {
        if into.len() - made < TOKEN_ROOM {
            return Done {
                body,
                used,
                made,
                halt: Halt::Filled,
            };
        }
        if !body.settle(header) {
            return Done {
                body,
                used,
                made,
                halt: Halt::Ended,
            };
        }
        let due = body.due(header);
        let size = size_of(due.scalar);
        if bytes.len() - used < size {
            return Done {
                body,
                used,
                made,
                halt: Halt::Short,
            };
        }
        let taken = take_value(&mut body, due, &bytes[used..used + size], into, made);
        used += size;
        made = taken.made;
        if taken.over {
            return Done {
                body,
                used,
                made,
                halt: Halt::Over,
            };
        }
    }
}
