//! The words of the commands on a node file: `check`, `has`, `cells`, `lift`, `cast` and `near`.

ghost use Rattle.std.specs.Prelude.{◌≡◌, true, codes};
ghost use Rattle.svo_words.specs.Choices.{are_names};
ghost use Rattle.svo_words.specs.Nodes.{nodes_choices, has_choices, kept_choices, check_from, has_from, cells_from, lift_from, cast_from, near_from};
ghost use Rattle.svo_words.specs.Reading.{IsMade};
ghost use Rattle.svo_words.specs.Seen.{values_of};
ghost use Rattle.svo_words.specs.Values.{text_in};

use crate::choices::Choice;
use crate::commands::WordFault;
use crate::kinds::Text;
use crate::values::Values;
use std::alloc::Global;

/// How many blocks are kept, where no number is given.
pub(crate) const KEEP: i64 = 64;

/// The values of `check`.
#[derive(Debug, Drop)]
pub struct CheckWords {
    /// The name of the node file.
    pub nodes: Text,
}

/// The values of `has`, whatever their ranges.
#[derive(Debug, Drop)]
pub struct HasWords {
    /// The name of the node file.
    pub nodes: Text,
    /// The code of the cell that is asked about.
    pub code: i64,
}

/// The values of `cells`, whatever their ranges.
#[derive(Debug, Drop)]
pub struct CellsWords {
    /// The name of the node file.
    pub nodes: Text,
    /// How many blocks of the file are kept.
    pub keep: i64,
}

/// The values of `lift`.
#[derive(Debug, Drop)]
pub struct LiftWords {
    /// The name of the node file.
    pub nodes: Text,
}

/// The values of `cast`, whatever their ranges.
#[derive(Debug, Drop)]
pub struct CastWords {
    /// The name of the node file.
    pub nodes: Text,
    /// How many blocks of the file are kept.
    pub keep: i64,
}

/// The values of `near`, whatever their ranges.
#[derive(Debug, Drop)]
pub struct NearWords {
    /// The name of the node file.
    pub nodes: Text,
    /// How many blocks of the file are kept.
    pub keep: i64,
}

/// The options of `check` and `lift`.
#[tactic(auto, unfolding(crate::specs::Nodes::nodes_choices))]
pub(crate) fn nodes_choices() -> [Choice<'static>; 1]
    ensures table { result ≡ nodes_choices }
    ensures names { are_names result ≡ true }
{
    [Choice::required("nodes")]
}

/// The options of `has`.
#[tactic(auto, unfolding(crate::specs::Nodes::has_choices))]
pub(crate) fn has_choices() -> [Choice<'static>; 2]
    ensures table { result ≡ has_choices }
    ensures names { are_names result ≡ true }
{
    [Choice::required("nodes"), Choice::required("code")]
}

/// The options of `cells`, `cast` and `near`.
#[tactic(auto, unfolding(crate::specs::Nodes::kept_choices))]
pub(crate) fn kept_choices() -> [Choice<'static>; 2]
    ensures table { result ≡ kept_choices }
    ensures names { are_names result ≡ true }
{
    [Choice::required("nodes"), Choice::optional("keep")]
}

/// The name of the node file: `Value` where it is no text, `Memory` where there is no memory for it.
pub(crate) fn nodes_from(alloc: Global, values: &Values) -> Result<Text, WordFault>
    ensures { IsMade (text_in (values_of values.now) (codes "nodes")) result }
{
    let Some(name) = values.text("nodes") else {
        return Err(WordFault::Value);
    };
    match Text::new(alloc, name) {
        Err(_) => Err(WordFault::Memory),
        Ok(nodes) => Ok(nodes),
    }
}

/// The values of `check`.
#[tactic(auto, unfolding(crate::specs::Nodes::check_from))]
pub(crate) fn check_from(alloc: Global, values: &Values) -> Result<CheckWords, WordFault>
    ensures { IsMade (check_from (values_of values.now)) result }
{
    match nodes_from(alloc, values) {
        Err(fault) => Err(fault),
        Ok(nodes) => Ok(CheckWords { nodes }),
    }
}

/// The values of `has`: `Value` where one is not of its kind.
#[tactic(auto, unfolding(crate::specs::Nodes::has_from))]
pub(crate) fn has_from(alloc: Global, values: &Values) -> Result<HasWords, WordFault>
    ensures { IsMade (has_from (values_of values.now)) result }
{
    let Some(code) = values.number("code") else {
        return Err(WordFault::Value);
    };
    match nodes_from(alloc, values) {
        Err(fault) => Err(fault),
        Ok(nodes) => Ok(HasWords { nodes, code }),
    }
}

/// The values of `cells`: `Value` where one is not of its kind.
#[tactic(auto, unfolding(crate::specs::Nodes::cells_from))]
pub(crate) fn cells_from(alloc: Global, values: &Values) -> Result<CellsWords, WordFault>
    ensures { IsMade (cells_from (values_of values.now)) result }
{
    let Some(keep) = values.number_or(KEEP, "keep") else {
        return Err(WordFault::Value);
    };
    match nodes_from(alloc, values) {
        Err(fault) => Err(fault),
        Ok(nodes) => Ok(CellsWords { nodes, keep }),
    }
}

/// The values of `lift`.
#[tactic(auto, unfolding(crate::specs::Nodes::lift_from))]
pub(crate) fn lift_from(alloc: Global, values: &Values) -> Result<LiftWords, WordFault>
    ensures { IsMade (lift_from (values_of values.now)) result }
{
    match nodes_from(alloc, values) {
        Err(fault) => Err(fault),
        Ok(nodes) => Ok(LiftWords { nodes }),
    }
}

/// The values of `cast`: `Value` where one is not of its kind.
#[tactic(auto, unfolding(crate::specs::Nodes::cast_from))]
pub(crate) fn cast_from(alloc: Global, values: &Values) -> Result<CastWords, WordFault>
    ensures { IsMade (cast_from (values_of values.now)) result }
{
    let Some(keep) = values.number_or(KEEP, "keep") else {
        return Err(WordFault::Value);
    };
    match nodes_from(alloc, values) {
        Err(fault) => Err(fault),
        Ok(nodes) => Ok(CastWords { nodes, keep }),
    }
}

/// The values of `near`: `Value` where one is not of its kind.
#[tactic(auto, unfolding(crate::specs::Nodes::near_from))]
pub(crate) fn near_from(alloc: Global, values: &Values) -> Result<NearWords, WordFault>
    ensures { IsMade (near_from (values_of values.now)) result }
{
    let Some(keep) = values.number_or(KEEP, "keep") else {
        return Err(WordFault::Value);
    };
    match nodes_from(alloc, values) {
        Err(fault) => Err(fault),
        Ok(nodes) => Ok(NearWords { nodes, keep }),
    }
}
