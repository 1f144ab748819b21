//! The header of a mesh text.

ghost use Rattle.std.specs.Prelude.{length};
ghost use Rattle.ply_reader.specs.Ranges.{AreWithin, AreFew};

use crate::declarations::{
    element_of, is_ascii_format, is_list, is_only, is_part, is_role, is_too_many, property_of,
};
use crate::elements::{Element, Role};
use crate::fault::{PlyFault, PlyKind};
use crate::names::{Keyword, is_whole_type, keyword_of};
use crate::properties::{Part, Property};
use crate::slices::{all_from, first_ones};
use arrayvec::ArrayVec;
use text_words::line_words;

/// How many words of a line are looked at: the longest line that is not passed over has five.
const MOST_WORDS: usize = 6;

/// The most elements of a header.
const MAX_ELEMENTS: usize = 16;

/// The most properties of a header, over all its elements.
const MAX_PROPERTIES: usize = 128;

/// What the header lines that were taken declare.
///
/// The keywords, types and their order are those of PLY 1.0, with the limits of this project: at most
/// 16 elements and 128 properties, and 4,294,967,295 vertices and faces.
#[derive(Drop)]
pub struct Header {
    begun: bool,
    format: bool,
    elements: ArrayVec<Element, MAX_ELEMENTS>,
    properties: ArrayVec<Property, MAX_PROPERTIES>,
    ghost within: { AreWithin (length properties.items) elements.items },
    ghost few: { AreFew elements.items },
}

impl Header {
    ghost use Rattle.std.specs.Prelude.{◌≡◌, ◌≤◌, ◌<◌, ◌+◌, length, false, true, slice_index_or, IfNone, IfSome, IfOk, OnOk};
    ghost use Rattle.ply_reader.specs.Declarations.{declared, nothing_declared, has_role, has_part, last_role, with_property, properties_of};
    ghost use Rattle.ply_reader.specs.HeaderRules.{TakesLine, TakesBy, first_rules, format_rules, element_rules, property_rules, end_rules, element_of, property_of, with_beginning, with_format, with_one_element, with_one_property, first_broken, is_misplaced, has_vertices, HasMesh};
    ghost use Rattle.ply_reader.specs.Ranges.{IsFew};
    ghost use Rattle.ply_reader.specs.HeaderSteps.{cut_off};
    ghost use Rattle.ply_reader.specs.LineWords.{line_words};
    ghost use Rattle.text_words.specs.LineWords.{texts};

    /// A header of no line.
    pub fn new() -> Header
        ensures { declared result ≡ nothing_declared }
    {
        Header {
            begun: false,
            format: false,
            elements: ArrayVec::new(),
            properties: ArrayVec::new(),
        }
    }

    /// Takes the next line of a header, without its end, and says whether it ends the header.
    ///
    /// # Errors
    ///
    /// The kind of the first rule that the line breaks, after the lines that were taken before; the
    /// header is then as it was.
    #[tactic(auto, unfolding(crate::specs::LineWords::line_words, crate::specs::HeaderRules::rules_of, crate::specs::HeaderRules::after, crate::specs::HeaderRules::is_end))]
    pub fn take(&mut self, line: &[u8]) -> Result<bool, PlyKind>
        ensures line { TakesLine (line_words line.now) (declared self.old) (declared self.new) result }
        ensures mesh { IfOk result (λ ended. ended ≡ true → HasMesh (declared self.new)) }
    {
        let words: ArrayVec<&[u8], MOST_WORDS> = line_words(line);
        let words = words.as_slice();
        if !self.begun {
            return self.take_first(words);
        }
        match keyword_of(words) {
            Keyword::Blank | Keyword::Comment => Ok(false),
            Keyword::Format => self.take_format(words),
            Keyword::NewElement => self.take_element(words),
            Keyword::NewProperty => self.take_property(words),
            Keyword::EndHeader => self.take_end(words),
            Keyword::Unknown => Err(PlyKind::BadHeader),
        }
    }

    /// How many elements were declared.
    pub fn elements(&self) -> usize
        ensures { result ≡ length (declared self.now).elements }
    {
        self.elements.len()
    }

    /// The element of a number, counted from 0 in the order of the lines.
    pub fn element(&self, at: usize) -> Element
        requires { at < length (declared self.now).elements }
        ensures value { result ≡ slice_index_or (declared self.now).elements at result }
        ensures within { result.first + result.properties ≤ length (declared self.now).properties }
    {
        self.elements.as_slice()[at]
    }

    /// How many properties were declared, over all elements: at most 128.
    pub fn properties(&self) -> usize
        ensures value { result ≡ length (declared self.now).properties }
        ensures most { result ≤ 128 }
    {
        self.properties.as_slice().len()
    }

    /// The property of a number, counted from 0 over the whole header.
    pub fn property(&self, at: usize) -> Property
        requires { at < length (declared self.now).properties }
        ensures { result ≡ slice_index_or (declared self.now).properties at result }
    {
        self.properties.as_slice()[at]
    }

    /// The properties of an element.
    pub(crate) fn properties_of(&self, element: &Element) -> &[Property]
        ensures { result.now ≡ properties_of (declared self.now) element.now }
    {
        first_ones(
            all_from(self.properties.as_slice(), element.first),
            element.properties,
        )
    }

    /// All elements.
    pub(crate) fn all_elements(&self) -> &[Element]
        ensures { result.now ≡ (declared self.now).elements }
    {
        self.elements.as_slice()
    }

    #[tactic(auto, unfolding(crate::specs::HeaderRules::first_rules))]
    fn take_first(&mut self, words: &[&[u8]]) -> Result<bool, PlyKind>
        ensures { TakesBy (first_rules (texts words.now)) false (declared self.old)
            (with_beginning (declared self.old)) (declared self.new) result }
    {
        if !is_only(words, b"ply") {
            return Err(PlyKind::NotPly);
        }
        self.begun = true;
        Ok(false)
    }

    #[tactic(auto, unfolding(crate::specs::HeaderRules::format_rules))]
    fn take_format(&mut self, words: &[&[u8]]) -> Result<bool, PlyKind>
        ensures { TakesBy (format_rules (declared self.old) (texts words.now)) false (declared self.old)
            (with_format (declared self.old)) (declared self.new) result }
    {
        if !is_ascii_format(words) || self.format {
            return Err(PlyKind::BadFormat);
        }
        self.format = true;
        Ok(false)
    }

    fn take_element(&mut self, words: &[&[u8]]) -> Result<bool, PlyKind>
        ensures { TakesBy (element_rules (declared self.old) (element_of (length (declared self.old).properties) (texts words.now))) false (declared self.old)
            (with_one_element (declared self.old) (element_of (length (declared self.old).properties) (texts words.now))) (declared self.new) result }
    {
        let element = element_of(self.properties.len(), words);
        if let Some(kind) = self.element_fault(&element) {
            return Err(kind);
        }
        if let Some(element) = element {
            self.elements.push(element);
        }
        Ok(false)
    }

    fn take_property(&mut self, words: &[&[u8]]) -> Result<bool, PlyKind>
        ensures { TakesBy (property_rules (declared self.old) (property_of (last_role (declared self.old)) (texts words.now))) false (declared self.old)
            (with_one_property (declared self.old) (property_of (last_role (declared self.old)) (texts words.now))) (declared self.new) result }
    {
        let property = property_of(self.last_role(), words);
        if let Some(kind) = self.property_fault(&property) {
            return Err(kind);
        }
        if let Some(property) = property {
            self.add_property(property);
        }
        Ok(false)
    }

    #[tactic(auto, unfolding(crate::specs::HeaderRules::end_rules))]
    fn take_end(&self, words: &[&[u8]]) -> Result<bool, PlyKind>
        ensures line { TakesBy (end_rules (declared self.now) (texts words.now)) true (declared self.now)
            (declared self.now) (declared self.now) result }
        ensures mesh { OnOk result (HasMesh (declared self.now)) }
    {
        if !self.format {
            return Err(PlyKind::BadFormat);
        }
        if !is_only(words, b"end_header") {
            return Err(PlyKind::BadHeader);
        }
        if !self.has_vertices() {
            return Err(PlyKind::NoVertexElement);
        }
        if !(self.has_role(Role::Face) && self.has_part(Part::Indices)) {
            return Err(PlyKind::NoFaceElement);
        }
        Ok(true)
    }

    /// The first rule that a line breaks which declares this element, or none.
    #[tactic(auto, unfolding(crate::specs::HeaderRules::element_rules))]
    fn element_fault(&self, element: &Option<Element>) -> Option<PlyKind>
        ensures fault { result ≡ first_broken (element_rules (declared self.now) element.now) }
        ensures room { IfNone result (length (declared self.now).elements < 16) }
        ensures few { IfNone result (IfSome element.now IsFew) }
    {
        if !self.format {
            return Some(PlyKind::BadFormat);
        }
        let Some(element) = element else {
            return Some(PlyKind::BadHeader);
        };
        if is_role(Role::Vertex, element.role) && self.has_role(Role::Vertex) {
            return Some(PlyKind::BadHeader);
        }
        if is_role(Role::Face, element.role) && self.has_role(Role::Face) {
            return Some(PlyKind::BadHeader);
        }
        if is_role(Role::Face, element.role) && !self.has_role(Role::Vertex) {
            return Some(PlyKind::FaceFirst);
        }
        if self.elements.len() >= MAX_ELEMENTS || is_too_many(element) {
            return Some(PlyKind::HeaderTooLarge);
        }
        None
    }

    /// The first rule that a line breaks which declares this property, or none.
    #[tactic(auto, unfolding(crate::specs::HeaderRules::property_rules))]
    fn property_fault(&self, property: &Option<Property>) -> Option<PlyKind>
        ensures fault { result ≡ first_broken (property_rules (declared self.now) property.now) }
        ensures room { IfNone result ((length (declared self.now).elements ≤ 16) × (length (declared self.now).properties < 128)) }
    {
        if !self.format {
            return Some(PlyKind::BadFormat);
        }
        if self.elements.len() == 0 {
            return Some(PlyKind::BadHeader);
        }
        let Some(property) = property else {
            return Some(PlyKind::BadHeader);
        };
        if self.is_misplaced(property) {
            return Some(PlyKind::BadHeader);
        }
        if self.properties.len() >= MAX_PROPERTIES {
            return Some(PlyKind::HeaderTooLarge);
        }
        None
    }

    /// Whether a property may not stand here: a coordinate is one value, the indices are a list of
    /// whole numbers, and each is there once at most.
    #[tactic(auto, unfolding(crate::specs::HeaderRules::is_misplaced))]
    fn is_misplaced(&self, property: &Property) -> bool
        ensures { result ≡ is_misplaced (declared self.now) property.now }
    {
        match property.part {
            Part::X | Part::Y | Part::Z => is_list(property) || self.has_part(property.part),
            Part::Indices => {
                !is_list(property)
                    || !is_whole_type(property.values)
                    || self.has_part(Part::Indices)
            }
            Part::Other => false,
        }
    }

    fn has_role(&self, role: Role) -> bool
        ensures { result ≡ has_role role (declared self.now) }
    {
        self.elements
            .as_slice()
            .iter()
            .any(|element| is_role(role, element.role))
    }

    fn has_part(&self, part: Part) -> bool
        ensures { result ≡ has_part part (declared self.now) }
    {
        self.properties
            .as_slice()
            .iter()
            .any(|property| is_part(part, property.part))
    }

    /// Whether vertices were declared, with their three coordinates.
    fn has_vertices(&self) -> bool
        ensures { result ≡ has_vertices (declared self.now) }
    {
        self.has_role(Role::Vertex)
            && self.has_part(Part::X)
            && self.has_part(Part::Y)
            && self.has_part(Part::Z)
    }

    /// The role of the element that was declared last.
    fn last_role(&self) -> Role
        ensures { result ≡ last_role (declared self.now) }
    {
        match self.elements.as_slice().last() {
            Some(element) => element.role,
            None => Role::Other,
        }
    }

    /// Adds a property to the last element.
    fn add_property(&mut self, property: Property)
        requires elements { length (declared self.old).elements ≤ 16 }
        requires room { length (declared self.old).properties < 128 }
        ensures { declared self.new ≡ with_property (declared self.old) property }
    {
        if let Some(last) = self.elements.pop() {
            self.elements.push(Element {
                properties: last.properties + 1,
                ..last
            });
        }
        self.properties.push(property);
    }

    /// The refusal of a text that ends at this place, before its header does.
    pub(crate) fn cut_off(&self, place: u64) -> PlyFault
        ensures { result ≡ cut_off (declared self.now) place }
    {
        PlyFault::Refused {
            kind: if self.begun {
                PlyKind::Truncated
            } else {
                PlyKind::NotPly
            },
            place,
        }
    }
}
