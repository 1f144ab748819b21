//! The words of the commands on a made mesh: `make` and `sum`.

ghost use Rattle.std.specs.Prelude.{◌≡◌, true};
ghost use Rattle.svo_words.specs.Choices.{are_names};
ghost use Rattle.svo_words.specs.Made.{make_choices, make_from, sum_choices, sum_numbers, sum_from, sum_with};
ghost use Rattle.svo_words.specs.Reading.{IsMade};
ghost use Rattle.svo_words.specs.Seen.{values_of};

use crate::build::{MEMORY, scratch_from};
use crate::choices::Choice;
use crate::commands::WordFault;
use crate::kinds::Text;
use crate::values::Values;
use std::alloc::Global;

/// The values of `make`, whatever their ranges.
#[derive(Clone, Copy, Debug, PartialEq, Eq)]
pub struct MakeWords {
    /// The number that the mesh is made from.
    pub number: i64,
    /// How many faces stand along a side of the mesh.
    pub side: i64,
}

/// The values of `sum`, whatever their ranges.
#[derive(Debug, Drop)]
pub struct SumWords {
    /// The number that the mesh is made from.
    pub number: i64,
    /// How many faces stand along a side of the mesh.
    pub side: i64,
    /// How often the grid is halved.
    pub depth: i64,
    /// The memory limit in bytes.
    pub memory: i64,
    /// The place of the scratch.
    pub scratch: Text,
}

/// The options of `make`.
#[tactic(auto, unfolding(crate::specs::Made::make_choices))]
pub(crate) fn make_choices() -> [Choice<'static>; 2]
    ensures table { result ≡ make_choices }
    ensures names { are_names result ≡ true }
{
    [Choice::required("number"), Choice::required("side")]
}

/// The values of `make`, if each is of its kind.
#[tactic(auto, unfolding(crate::specs::Made::make_from))]
pub(crate) fn make_from(values: &Values) -> Option<MakeWords>
    ensures { result ≡ make_from (values_of values.now) }
{
    Some(MakeWords {
        number: values.number("number")?,
        side: values.number("side")?,
    })
}

/// The options of `sum`.
#[tactic(auto, unfolding(crate::specs::Made::sum_choices))]
pub(crate) fn sum_choices() -> [Choice<'static>; 5]
    ensures table { result ≡ sum_choices }
    ensures names { are_names result ≡ true }
{
    [
        Choice::required("number"),
        Choice::required("side"),
        Choice::required("depth"),
        Choice::optional("memory"),
        Choice::optional("scratch"),
    ]
}

/// The values of `sum` but the text.
#[derive(Clone, Copy)]
pub(crate) struct SumNumbers {
    made: MakeWords,
    depth: i64,
    memory: i64,
}

/// These values, if each is of its kind.
#[tactic(auto, unfolding(crate::specs::Made::sum_numbers))]
fn numbers_from(values: &Values) -> Option<SumNumbers>
    ensures { result ≡ sum_numbers (values_of values.now) }
{
    Some(SumNumbers {
        made: make_from(values)?,
        depth: values.number("depth")?,
        memory: values.number_or(MEMORY, "memory")?,
    })
}

/// The values of `sum`: `Value` where one is not of its kind, `Memory` where there is no memory for the text.
#[tactic(auto, unfolding(crate::specs::Made::sum_from))]
pub(crate) fn sum_from(alloc: Global, values: &Values) -> Result<SumWords, WordFault>
    ensures { IsMade (sum_from (values_of values.now)) result }
{
    let Some(numbers) = numbers_from(values) else {
        return Err(WordFault::Value);
    };
    match scratch_from(alloc, values) {
        Err(fault) => Err(fault),
        Ok(scratch) => Ok(with_scratch(&numbers, scratch)),
    }
}

/// The numbers with the text.
fn with_scratch(numbers: &SumNumbers, scratch: Text) -> SumWords
    ensures { result ≡ sum_with numbers.now scratch }
{
    SumWords {
        number: numbers.made.number,
        side: numbers.made.side,
        depth: numbers.depth,
        memory: numbers.memory,
        scratch,
    }
}
