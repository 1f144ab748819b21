//! The place in a binary body: which value comes next.

ghost use Rattle.std.specs.Prelude.{◌≡◌, ◌+◌, ◌≤◌, ◌<◌, length, false, true, MatchBool};
ghost use Rattle.ply_reader.specs.Declarations.{Declared, declared, is_coordinate};
ghost use Rattle.ply_binary.specs.BodyStates.{IsIn};

use crate::values::{is_negative, number_of};
use ply_reader::{Header, Part, Scalar};

/// What a value is to a body.
#[derive(Clone, Copy, Debug, PartialEq, Eq)]
pub(crate) enum Kind {
    /// A value of a list.
    Item,
    /// A property of one value; whether it is a coordinate.
    Single(bool),
    /// The count of a list, of values of this type.
    Count(Scalar),
}

/// A value that comes next.
#[derive(Clone, Copy, Debug, PartialEq, Eq)]
pub(crate) struct Due {
    pub(crate) scalar: Scalar,
    pub(crate) kind: Kind,
}

/// How far a body was passed.
#[derive(Clone, Copy, Debug, PartialEq, Eq)]
pub(crate) struct Body {
    /// The next element.
    next: usize,
    /// The rows of the element before it that are not begun, and where its properties begin and end.
    rows: u64,
    first: usize,
    end: usize,
    /// The next property of a row that is begun.
    property: usize,
    /// The values of a list that are still to come, and their type.
    list: Scalar,
    values: u64,
}

impl Body {
    ghost use Rattle.ply_binary.specs.Values.{size_of, number_of};
    ghost use Rattle.ply_binary.specs.Bodies.{body_text, end_text};
    ghost use Rattle.ply_binary.specs.BodyStates.{body_left, HasValue, HasRow, HasNoRow, IsBetween, IsDue, IsAt, begun_row, begun_element, passed, is_last};

    /// The start of any body.
    pub(crate) fn new() -> Body
        ensures inside { (d : Declared) → IsIn d result }
        ensures left { (d : Declared) → body_left d result ≡ body_text d }
    {
        Body {
            next: 0,
            rows: 0,
            first: 0,
            end: 0,
            property: 0,
            list: Scalar::Int8,
            values: 0,
        }
    }

    /// Whether a value of a list or of a row is to come.
    fn has_value(&self) -> bool
        requires { self.now.property ≤ self.now.end }
        ensures { MatchBool result (HasValue self.now) (IsBetween self.now) }
    {
        self.values > 0 || self.property < self.end
    }

    /// Whether a row of the element is to come that has properties.
    fn has_row(&self) -> bool
        requires { self.now.first ≤ self.now.end }
        ensures { MatchBool result (HasRow self.now) (HasNoRow self.now) }
    {
        self.rows > 0 && self.first < self.end
    }

    fn begin_row(&mut self)
        requires { HasRow self.old }
        ensures { self.new ≡ begun_row self.old }
    {
        self.rows -= 1;
        self.property = self.first;
    }

    /// Begins the next element, where there is one.
    fn begin_element(&mut self, header: &Header) -> bool
        requires { IsIn (declared header.now) self.old }
        ensures begun { result ≡ true → (self.old.next < length (declared header.now).elements)
            × (self.new ≡ begun_element (declared header.now) self.old) }
        ensures none { result ≡ false → (self.old.next ≡ length (declared header.now).elements) × (self.new ≡ self.old) }
        ensures inside { IsIn (declared header.now) self.new }
    {
        if self.next >= header.elements() {
            return false;
        }
        // There are so few properties that no sum overflows.
        header.properties();
        let element = header.element(self.next);
        self.next += 1;
        self.rows = element.count;
        self.first = element.first;
        self.end = element.first + element.properties;
        self.property = self.end;
        true
    }

    /// Goes on to the next value, through elements that have none. Whether there is one.
    pub(crate) fn settle(&mut self, header: &Header) -> bool
        requires { IsIn (declared header.now) self.old }
        ensures inside { IsIn (declared header.now) self.new }
        ensures left { body_left (declared header.now) self.new ≡ body_left (declared header.now) self.old }
        ensures found { result ≡ true → HasValue self.new }
        ensures ended { result ≡ false → body_left (declared header.now) self.new ≡ end_text }
    {
        if self.has_value() {
            return true;
        }
        while !self.has_row() {
            if !self.begin_element(header) {
                return false;
            }
        }
        self.begin_row();
        true
    }

    /// The next value, where one is to come.
    pub(crate) fn due(&self, header: &Header) -> Due
        requires inside { IsIn (declared header.now) self.now }
        requires value { HasValue self.now }
        ensures due { IsDue (declared header.now) self.now result }
        ensures here { IsAt self.now result.kind }
    {
        if self.values > 0 {
            return Due {
                scalar: self.list,
                kind: Kind::Item,
            };
        }
        let property = header.property(self.property);
        match property.counts {
            None => Due {
                scalar: property.values,
                kind: Kind::Single(is_coordinate(property.part)),
            },
            Some(counts) => Due {
                scalar: counts,
                kind: Kind::Count(property.values),
            },
        }
    }

    /// Passes the value that comes next. Whether it ends the body: a negative count does.
    pub(crate) fn pass(&mut self, due: Due, value: &[u8]) -> bool
        requires here { IsAt self.old due.kind }
        requires size { length value.now ≡ size_of due.scalar }
        ensures place { self.new ≡ passed due.kind (number_of due.scalar value.now) self.old }
        ensures over { result ≡ is_last due (number_of due.scalar value.now) }
    {
        match due.kind {
            Kind::Item => {
                self.values -= 1;
                false
            }
            Kind::Single(_) => {
                self.property += 1;
                false
            }
            Kind::Count(values) => {
                self.property += 1;
                self.list = values;
                self.values = number_of(due.scalar, value);
                is_negative(due.scalar, self.values)
            }
        }
    }
}

/// Whether a property is a coordinate of a vertex.
fn is_coordinate(part: Part) -> bool
    ensures { result ≡ is_coordinate part }
{
    matches!(part, Part::X | Part::Y | Part::Z)
}
