//! The words of the commands that make a node file of others: `merge` and `coarse`.

ghost use Rattle.std.specs.Prelude.{◌≡◌, true, Some};
ghost use Rattle.svo_words.specs.Choices.{are_names};
ghost use Rattle.svo_words.specs.Combining.{merge_choices, merge_from, merge_with, coarse_choices, coarse_from};
ghost use Rattle.svo_words.specs.Reading.{IsMade};
ghost use Rattle.svo_words.specs.Seen.{values_of};

use crate::choices::Choice;
use crate::commands::WordFault;
use crate::kinds::{MergeWord, Text};
use crate::nodes::nodes_from;
use crate::values::Values;
use std::alloc::Global;

/// The values of `merge`.
#[derive(Debug, Drop)]
pub struct MergeWords {
    /// How the cells of the two files are put together.
    pub kind: MergeWord,
    /// The name of the first node file.
    pub nodes: Text,
    /// The name of the second.
    pub with: Text,
}

/// The values of `coarse`, whatever their ranges.
#[derive(Debug, Drop)]
pub struct CoarseWords {
    /// The name of the node file.
    pub nodes: Text,
    /// How many levels the octree is to lose.
    pub levels: i64,
}

/// The options of `merge`.
#[tactic(auto, unfolding(crate::specs::Combining::merge_choices))]
pub(crate) fn merge_choices() -> [Choice<'static>; 3]
    ensures table { result ≡ merge_choices }
    ensures names { are_names result ≡ true }
{
    [
        Choice::required("kind"),
        Choice::required("nodes"),
        Choice::required("with"),
    ]
}

/// The options of `coarse`.
#[tactic(auto, unfolding(crate::specs::Combining::coarse_choices))]
pub(crate) fn coarse_choices() -> [Choice<'static>; 2]
    ensures table { result ≡ coarse_choices }
    ensures names { are_names result ≡ true }
{
    [Choice::required("nodes"), Choice::required("levels")]
}

/// The values of `merge`: `Value` where one is not of its kind, `Memory` where there is no memory for
/// the two names.
#[tactic(auto, unfolding(crate::specs::Combining::merge_from))]
pub(crate) fn merge_from(alloc: Global, values: &Values) -> Result<MergeWords, WordFault>
    ensures { IsMade (merge_from (values_of values.now)) result }
{
    let Some(kind) = values.merge_kind("kind") else {
        return Err(WordFault::Value);
    };
    let Some(second) = values.text("with") else {
        return Err(WordFault::Value);
    };
    match nodes_from(alloc, values) {
        Err(fault) => Err(fault),
        Ok(nodes) => merge_with(alloc, kind, nodes, second),
    }
}

/// The kind and the first name with a copy of the second.
fn merge_with(
    alloc: Global,
    kind: MergeWord,
    nodes: Text,
    second: &str,
) -> Result<MergeWords, WordFault>
    ensures { IsMade (Some (merge_with kind nodes second.now)) result }
{
    match Text::new(alloc, second) {
        Err(_) => Err(WordFault::Memory),
        Ok(with) => Ok(MergeWords { kind, nodes, with }),
    }
}

/// The values of `coarse`: `Value` where one is not of its kind.
#[tactic(auto, unfolding(crate::specs::Combining::coarse_from))]
pub(crate) fn coarse_from(alloc: Global, values: &Values) -> Result<CoarseWords, WordFault>
    ensures { IsMade (coarse_from (values_of values.now)) result }
{
    let Some(levels) = values.number("levels") else {
        return Err(WordFault::Value);
    };
    match nodes_from(alloc, values) {
        Err(fault) => Err(fault),
        Ok(nodes) => Ok(CoarseWords { nodes, levels }),
    }
}
