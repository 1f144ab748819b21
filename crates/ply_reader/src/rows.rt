//! Rows that are passed.

ghost use Rattle.std.specs.Prelude.{◌≡◌, ◌≤◌, ◌+◌, ◌-◌, length, take, drop, None};
ghost use Rattle.ply_text.specs.Reading.{reading};
ghost use Rattle.ply_text.specs.Calls.{SameLent};
ghost use Rattle.ply_reader.specs.Declarations.{declared};
ghost use Rattle.ply_reader.specs.Rows.{passed, list_passed, property_passed, row_passed, rows_passed, elements_passed};
ghost use Rattle.ply_reader.specs.Runs.{Runs};

use crate::elements::Element;
use crate::fault::{PlyFault, PlyKind};
use crate::header::Header;
use crate::properties::Property;
use crate::taking::{pass_token, take_whole};
use dev_traits::ByteSource;
use ply_text::Tokens;

/// The count of a list that is passed is below this.
const COUNT_BOUND: u64 = 1 << 32;

/// Passes elements, each as often as its count says. An element without properties takes no token.
pub(crate) fn pass_elements<I: ByteSource>(
    tokens: &mut Tokens<'_, I>,
    header: &Header,
    elements: &[Element],
) -> Result<(), PlyFault>
    requires free { tokens.old.stopped ≡ None }
    ensures same { SameLent tokens.old tokens.new }
    ensures runs { Runs (elements_passed (declared header.now) elements.now) (reading tokens.old) (reading tokens.new) result }
{
    for element in elements {
        pass_rows(tokens, header.properties_of(element), element.count)?;
    }
    Ok(())
}

/// Passes so many rows of these properties.
fn pass_rows<I: ByteSource>(
    tokens: &mut Tokens<'_, I>,
    properties: &[Property],
    count: u64,
) -> Result<(), PlyFault>
    requires free { tokens.old.stopped ≡ None }
    ensures same { SameLent tokens.old tokens.new }
    ensures runs { Runs (rows_passed properties.now count) (reading tokens.old) (reading tokens.new) result }
{
    if properties.is_empty() {
        return Ok(());
    }
    let mut left = count;
    while left > 0 {
        pass_row(tokens, properties)?;
        left -= 1;
    }
    Ok(())
}

/// Passes one row of these properties.
pub(crate) fn pass_row<I: ByteSource>(
    tokens: &mut Tokens<'_, I>,
    properties: &[Property],
) -> Result<(), PlyFault>
    requires free { tokens.old.stopped ≡ None }
    ensures same { SameLent tokens.old tokens.new }
    ensures runs { Runs (row_passed properties.now) (reading tokens.old) (reading tokens.new) result }
{
    for property in properties {
        pass_property(tokens, property)?;
    }
    Ok(())
}

/// Passes a property: one token, or the tokens of a list.
#[tactic(auto, unfolding(crate::specs::Rows::property_passed))]
pub(crate) fn pass_property<I: ByteSource>(
    tokens: &mut Tokens<'_, I>,
    property: &Property,
) -> Result<(), PlyFault>
    requires free { tokens.old.stopped ≡ None }
    ensures same { SameLent tokens.old tokens.new }
    ensures runs { Runs (property_passed property.now) (reading tokens.old) (reading tokens.new) result }
{
    match property.counts {
        None => pass_token(tokens),
        Some(_) => pass_list(tokens),
    }
}

/// Passes a list: its count, and as many tokens.
fn pass_list<I: ByteSource>(tokens: &mut Tokens<'_, I>) -> Result<(), PlyFault>
    requires free { tokens.old.stopped ≡ None }
    ensures same { SameLent tokens.old tokens.new }
    ensures runs { Runs list_passed (reading tokens.old) (reading tokens.new) result }
{
    let count = take_whole(tokens, PlyKind::BadCount, 0, COUNT_BOUND)?;
    pass_tokens(tokens, count)
}

/// Passes so many tokens.
fn pass_tokens<I: ByteSource>(tokens: &mut Tokens<'_, I>, count: u64) -> Result<(), PlyFault>
    requires free { tokens.old.stopped ≡ None }
    ensures same { SameLent tokens.old tokens.new }
    ensures runs { Runs (passed count) (reading tokens.old) (reading tokens.new) result }
{
    let mut left = count;
    while left > 0 {
        pass_token(tokens)?;
        left -= 1;
    }
    Ok(())
}
