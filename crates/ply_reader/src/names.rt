//! The names that a header line may have.

ghost use Rattle.std.specs.Prelude.{◌≡◌};
ghost use Rattle.ply_reader.specs.Names.{scalar_of, is_whole_type, role_of, part_of, coordinate_of, is_either, keyword_of};
ghost use Rattle.text_words.specs.LineWords.{texts};

use crate::elements::Role;
use crate::properties::{Part, Scalar};

/// What a header line is about.
#[derive(Clone, Copy, Debug, PartialEq, Eq)]
pub(crate) enum Keyword {
    Blank,
    Comment,
    Format,
    NewElement,
    NewProperty,
    EndHeader,
    Unknown,
}

/// The keyword of a line of these words.
#[tactic(auto, unfolding(crate::specs::Names::keyword_of))]
pub(crate) fn keyword_of(words: &[&[u8]]) -> Keyword
    ensures { result ≡ keyword_of (texts words.now) }
{
    let Some(first) = words.first() else {
        return Keyword::Blank;
    };
    if is_either(first, b"comment", b"obj_info") {
        return Keyword::Comment;
    }
    if *first == b"format".as_slice() {
        return Keyword::Format;
    }
    if *first == b"element".as_slice() {
        return Keyword::NewElement;
    }
    if *first == b"property".as_slice() {
        return Keyword::NewProperty;
    }
    if *first == b"end_header".as_slice() {
        return Keyword::EndHeader;
    }
    Keyword::Unknown
}

fn is_either(word: &[u8], a: &[u8], b: &[u8]) -> bool
    ensures { result ≡ is_either word.now a.now b.now }
{
    word == a || word == b
}

/// The scalar type of a name.
#[tactic(auto, unfolding(crate::specs::Names::scalar_of))]
pub(crate) fn scalar_of(name: &[u8]) -> Option<Scalar>
    ensures { result ≡ scalar_of name.now }
{
    if is_either(name, b"char", b"int8") {
        return Some(Scalar::Int8);
    }
    if is_either(name, b"uchar", b"uint8") {
        return Some(Scalar::UInt8);
    }
    if is_either(name, b"short", b"int16") {
        return Some(Scalar::Int16);
    }
    if is_either(name, b"ushort", b"uint16") {
        return Some(Scalar::UInt16);
    }
    if is_either(name, b"int", b"int32") {
        return Some(Scalar::Int32);
    }
    if is_either(name, b"uint", b"uint32") {
        return Some(Scalar::UInt32);
    }
    if is_either(name, b"float", b"float32") {
        return Some(Scalar::Float32);
    }
    if is_either(name, b"double", b"float64") {
        return Some(Scalar::Float64);
    }
    None
}

/// Whether the values of a type are whole numbers.
pub(crate) fn is_whole_type(scalar: Scalar) -> bool
    ensures { result ≡ is_whole_type scalar }
{
    !matches!(scalar, Scalar::Float32 | Scalar::Float64)
}

/// What an element of a name is.
#[tactic(auto, unfolding(crate::specs::Names::role_of))]
pub(crate) fn role_of(name: &[u8]) -> Role
    ensures { result ≡ role_of name.now }
{
    if name == b"vertex".as_slice() {
        return Role::Vertex;
    }
    if name == b"face".as_slice() {
        return Role::Face;
    }
    Role::Other
}

/// What a property of a name is in an element.
#[tactic(auto, unfolding(crate::specs::Names::part_of))]
pub(crate) fn part_of(role: Role, name: &[u8]) -> Part
    ensures { result ≡ part_of role name.now }
{
    match role {
        Role::Vertex => coordinate_of(name),
        Role::Face if is_either(name, b"vertex_indices", b"vertex_index") => Part::Indices,
        Role::Face | Role::Other => Part::Other,
    }
}

fn coordinate_of(name: &[u8]) -> Part
    ensures { result ≡ coordinate_of name.now }
{
    if name == b"x".as_slice() {
        return Part::X;
    }
    if name == b"y".as_slice() {
        return Part::Y;
    }
    if name == b"z".as_slice() {
        return Part::Z;
    }
    Part::Other
}
