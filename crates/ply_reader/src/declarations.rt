//! What the words of a header line declare.

ghost use Rattle.std.specs.Prelude.{◌≡◌, Some, IfSome, false};
ghost use Rattle.ply_reader.specs.Declarations.{is_role, is_part};
ghost use Rattle.ply_reader.specs.HeaderRules.{is_only, is_ascii_format, count_of, element_of, property_of, single_property, list_property, is_list, is_too_many};
ghost use Rattle.text_words.specs.LineWords.{texts};
ghost use Rattle.ply_reader.specs.Ranges.{IsFew};

use crate::elements::{Element, Role};
use crate::names::{is_whole_type, part_of, role_of, scalar_of};
use crate::properties::{Part, Property, Scalar};
use ply_text::read_whole;

/// The most vertices, and the most faces.
const MAX_COUNT: u64 = (1 << 32) - 1;

/// The most digits of an element's count.
const MAX_COUNT_DIGITS: usize = 19;

/// The largest count of an element.
const MAX_ELEMENT_COUNT: u64 = (1 << 63) - 1;

/// Whether the words are this one alone.
pub(crate) fn is_only(words: &[&[u8]], name: &[u8]) -> bool
    ensures { result ≡ is_only (texts words.now) name.now }
{
    match words {
        [word] => *word == name,
        _ => false,
    }
}

/// Whether the words are `format ascii 1.0`, the first of which is known.
#[tactic(auto, unfolding(crate::specs::HeaderRules::is_ascii_format))]
pub(crate) fn is_ascii_format(words: &[&[u8]]) -> bool
    ensures { result ≡ is_ascii_format (texts words.now) }
{
    match words {
        [_, format, version] => { *format == b"ascii".as_slice() && *version == b"1.0".as_slice() }
        _ => false,
    }
}

/// The element that the words `element <name> <count>` declare behind so many properties.
#[tactic(auto, unfolding(crate::specs::HeaderRules::element_of))]
pub(crate) fn element_of(first: usize, words: &[&[u8]]) -> Option<Element>
    ensures element { result ≡ element_of first (texts words.now) }
    ensures empty { IfSome result (λ element. (element.first ≡ first) × (element.properties ≡ 0)) }
{
    match words {
        [_, name, count] => Some(Element {
            count: count_of(count)?,
            first,
            properties: 0,
            role: role_of(name),
        }),
        _ => None,
    }
}

/// The count that a word writes.
#[tactic(auto, unfolding(crate::specs::HeaderRules::count_of))]
fn count_of(word: &[u8]) -> Option<u64>
    ensures { result ≡ count_of word.now }
{
    if word.len() <= MAX_COUNT_DIGITS {
        read_whole(word, MAX_ELEMENT_COUNT)
    } else {
        None
    }
}

/// The property that the words `property <type> <name>` or `property list <type> <type> <name>`
/// declare in an element of this role.
#[tactic(auto, unfolding(crate::specs::HeaderRules::property_of))]
pub(crate) fn property_of(role: Role, words: &[&[u8]]) -> Option<Property>
    ensures { result ≡ property_of role (texts words.now) }
{
    match words {
        [_, values, name] => single_property(role, name, scalar_of(values)),
        [_, list, counts, values, name] => {
            if *list == b"list".as_slice() {
                list_property(role, name, scalar_of(counts), scalar_of(values))
            } else {
                None
            }
        }
        _ => None,
    }
}

fn single_property(role: Role, name: &[u8], values: Option<Scalar>) -> Option<Property>
    ensures { result ≡ single_property role name.now values }
{
    Some(Property {
        counts: None,
        values: values?,
        part: part_of(role, name),
    })
}

fn list_property(
    role: Role,
    name: &[u8],
    counts: Option<Scalar>,
    values: Option<Scalar>,
) -> Option<Property>
    ensures { result ≡ list_property role name.now counts values }
{
    let counts = counts?;
    let values = values?;
    if !is_whole_type(counts) {
        return None;
    }
    Some(Property {
        counts: Some(counts),
        values,
        part: part_of(role, name),
    })
}

pub(crate) fn is_list(property: &Property) -> bool
    ensures { result ≡ is_list property.now }
{
    property.counts.is_some()
}

/// Whether an element has more vertices or faces than a mesh may have.
pub(crate) fn is_too_many(element: &Element) -> bool
    ensures value { result ≡ is_too_many (Some element.now) }
    ensures few { result ≡ false → IsFew element.now }
{
    match element.role {
        Role::Vertex | Role::Face => element.count > MAX_COUNT,
        Role::Other => false,
    }
}

pub(crate) fn is_role(a: Role, b: Role) -> bool
    ensures { result ≡ is_role a b }
{
    a == b
}

pub(crate) fn is_part(a: Part, b: Part) -> bool
    ensures { result ≡ is_part a b }
{
    a == b
}
