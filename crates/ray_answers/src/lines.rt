//! The lines of a text of rays or points.

ghost use Rattle.std.specs.Prelude.{◌≡◌, None};
ghost use Rattle.ply_text.specs.Reading.{reading};
ghost use Rattle.ply_text.specs.Calls.{SameLent};
ghost use Rattle.ray_answers.specs.LineWords.{line_words};
ghost use Rattle.ray_answers.specs.LineMeanings.{line_meaning, point_of, ray_of, stop_of};
ghost use Rattle.ray_answers.specs.LineCalls.{ReadsLine, line_of};
ghost use Rattle.text_words.specs.LineWords.{texts};

use crate::queries::{Point, Query, QueryKind};
use crate::stops::{LineFault, LineStop};
use arrayvec::ArrayVec;
use dev_traits::ByteSource;
use ply_text::{TextFault, Tokens};
use ray_fraction::Ray;
use text_words::{line_words, three_numbers};

/// How many words of a line are looked at: one more than a ray has.
const MOST_WORDS: usize = 7;

/// How many words a ray has.
const RAY_WORDS: usize = 6;

/// How many words a point has.
const POINT_WORDS: usize = 3;

/// What the next line of a text is.
#[derive(Clone, Copy, Debug, PartialEq, Eq)]
pub enum Line {
    /// There is none.
    End,
    /// A line without words.
    Blank,
    /// One that asks.
    Asks(Query),
}

/// The next line of a text of such lines, which is passed.
pub fn read_line<I: ByteSource>(
    kind: QueryKind,
    tokens: &mut Tokens<'_, I>,
) -> Result<Line, LineStop>
    requires free { tokens.old.stopped ≡ None }
    ensures same { SameLent tokens.old tokens.new }
    ensures call { ReadsLine kind (reading tokens.old) (reading tokens.new) result }
{
    match tokens.next_line() {
        Ok(Some(line)) => line_of(meaning(kind, line.place, line.bytes)),
        Ok(None) => Ok(Line::End),
        Err(fault) => Err(stop_of(fault)),
    }
}

/// Why a text is not read on.
fn stop_of(fault: TextFault) -> LineStop
    ensures { result ≡ stop_of fault }
{
    match fault {
        TextFault::LineTooLong(place) | TextFault::TokenTooLong(place) => {
            LineStop::AtLine(LineFault::LineTooLong(place))
        }
        TextFault::TooLong => LineStop::AtLine(LineFault::TooLong(1 << 62)),
        TextFault::ReadFault => LineStop::ReadFault,
    }
}

/// A line with this meaning.
fn line_of(meaning: Result<Option<Query>, LineFault>) -> Result<Line, LineStop>
    ensures { result ≡ line_of meaning }
{
    match meaning {
        Ok(Some(query)) => Ok(Line::Asks(query)),
        Ok(None) => Ok(Line::Blank),
        Err(fault) => Err(LineStop::AtLine(fault)),
    }
}

/// What a line asks, whose first byte has that place; nothing where it has no words.
#[tactic(auto, unfolding(crate::specs::LineWords::line_words, crate::specs::LineMeanings::line_meaning))]
fn meaning(kind: QueryKind, place: u64, line: &[u8]) -> Result<Option<Query>, LineFault>
    ensures { result ≡ line_meaning kind place (line_words line.now) }
{
    let words: ArrayVec<&[u8], MOST_WORDS> = line_words(line);
    let words = words.as_slice();
    if words.is_empty() {
        return Ok(None);
    }
    let query = match kind {
        QueryKind::Rays => ray_of(place, words),
        QueryKind::Points => point_of(place, words),
    };
    match query {
        Ok(query) => Ok(Some(query)),
        Err(fault) => Err(fault),
    }
}

/// The ray of these words.
#[tactic(auto, unfolding(crate::specs::LineMeanings::ray_of))]
fn ray_of(place: u64, words: &[&[u8]]) -> Result<Query, LineFault>
    ensures { result ≡ ray_of place (texts words.now) }
{
    if words.len() != RAY_WORDS {
        return Err(LineFault::BadRay(place));
    }
    let (Some(origin), Some(direction)) = (three_numbers(words, 0), three_numbers(words, 3)) else {
        return Err(LineFault::BadRay(place));
    };
    match Ray::new(origin, direction) {
        Ok(ray) => Ok(Query::Ray(ray)),
        Err(_) => Err(LineFault::RayRange(place)),
    }
}

/// The point of these words.
#[tactic(auto, unfolding(crate::specs::LineMeanings::point_of))]
fn point_of(place: u64, words: &[&[u8]]) -> Result<Query, LineFault>
    ensures { result ≡ point_of place (texts words.now) }
{
    if words.len() != POINT_WORDS {
        return Err(LineFault::BadPoint(place));
    }
    let Some(at) = three_numbers(words, 0) else {
        return Err(LineFault::BadPoint(place));
    };
    match Point::new(at) {
        Some(point) => Ok(Query::Point(point)),
        None => Err(LineFault::PointRange(place)),
    }
}
