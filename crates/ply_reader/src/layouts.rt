//! Where the vertices and the faces stand in a body.

ghost use Rattle.std.specs.Prelude.{◌≡◌, ◌<◌, ◌^◌, not, slice_index_or};
ghost use Rattle.std.specs.List.{prefix_len};
ghost use Rattle.ply_reader.specs.Declarations.{declared, is_role, is_part};
ghost use Rattle.ply_reader.specs.Layout.{layout_of, before_vertices, no_element, list_place};

use crate::declarations::{is_part, is_role};
use crate::elements::{Element, Role};
use crate::header::Header;
use crate::properties::{Part, Property};
use crate::slices::first_ones;

/// The numbers of the elements `vertex` and `face`, the elements themselves, and the number of the
/// list of corners among the properties of a face.
#[derive(Clone, Copy, Debug, PartialEq, Eq)]
pub(crate) struct Layout {
    pub(crate) vertex_at: usize,
    pub(crate) face_at: usize,
    pub(crate) list_at: usize,
    pub(crate) vertex: Element,
    pub(crate) face: Element,
}

/// Stands for an element that is not there.
const NO_ELEMENT: Element = Element {
    count: 0,
    first: 0,
    properties: 0,
    role: Role::Vertex,
};

/// Where the vertices and the faces stand that a header declares.
pub(crate) fn layout_of(header: &Header) -> Layout
    ensures value { result ≡ layout_of (declared header.now) }
    ensures vertices { result.vertex.count < 2 ^ 32 }
    ensures faces { result.face.count < 2 ^ 32 }
{
    let elements = header.all_elements();
    let vertex_at = first_of(Role::Vertex, elements);
    let face_at = first_of(Role::Face, elements);
    let face = element_at(elements, face_at);
    Layout {
        vertex_at,
        face_at,
        list_at: list_place(header.properties_of(&face)),
        vertex: element_at(elements, vertex_at),
        face,
    }
}

/// The elements before the vertices.
pub(crate) fn before_vertices(header: &Header) -> &[Element]
    ensures { result.now ≡ before_vertices (declared header.now) }
{
    let elements = header.all_elements();
    first_ones(elements, first_of(Role::Vertex, elements))
}

/// The number of the first element of a role.
fn first_of(role: Role, elements: &[Element]) -> usize
    ensures { result ≡ prefix_len (λ element. not (is_role role element.role)) elements.now }
{
    elements
        .iter()
        .take_while(|element| !is_role(role, element.role))
        .count()
}

/// The number of the list of corners.
fn list_place(properties: &[Property]) -> usize
    ensures { result ≡ list_place properties.now }
{
    properties
        .iter()
        .take_while(|property| !is_part(Part::Indices, property.part))
        .count()
}

/// The element of a number.
fn element_at(elements: &[Element], at: usize) -> Element
    ensures { result ≡ slice_index_or elements.now at no_element }
{
    match elements.get(at) {
        Some(element) => *element,
        None => NO_ELEMENT,
    }
}
