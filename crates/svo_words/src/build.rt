//! The words of the command `build`.

ghost use Rattle.std.specs.Prelude.{◌≡◌, true, codes};
ghost use Rattle.svo_words.specs.Build.{build_choices, build_numbers, unless, with_scratch, build_from};
ghost use Rattle.svo_words.specs.Choices.{are_names};
ghost use Rattle.svo_words.specs.Reading.{IsMade};
ghost use Rattle.svo_words.specs.Seen.{values_of};
ghost use Rattle.svo_words.specs.Values.{number_in, numbers_in, text_or};

use crate::choices::Choice;
use crate::commands::WordFault;
use crate::kinds::Text;
use crate::values::Values;
use std::alloc::Global;

/// The memory limit in bytes, where none is given.
pub(crate) const MEMORY: i64 = 268435456;

/// The values of `build`, whatever their ranges.
#[derive(Debug, Drop)]
pub struct BuildWords {
    /// How often the grid is halved.
    pub depth: i64,
    /// The memory limit in bytes.
    pub memory: i64,
    /// How many decimals of the coordinates are kept.
    pub decimals: i64,
    /// Whether further decimals are cut off.
    pub cut: bool,
    /// The place of the scratch.
    pub scratch: Text,
    /// Whether the grid is fitted to the mesh.
    pub fit: bool,
    /// The lower corner of the grid: none exactly where it is fitted.
    pub origin: Option<[i64; 3]>,
    /// The side of a cell: none exactly where the grid is fitted.
    pub cell: Option<i64>,
}

/// The options of `build`.
#[tactic(auto, unfolding(crate::specs::Build::build_choices))]
pub(crate) fn build_choices() -> [Choice<'static>; 8]
    ensures table { result ≡ build_choices }
    ensures names { are_names result ≡ true }
{
    [
        Choice::required("depth"),
        Choice::optional("memory"),
        Choice::optional("decimals"),
        Choice::flag("cut"),
        Choice::optional("scratch"),
        Choice::flag("fit"),
        Choice::required_unless("fit", "origin"),
        Choice::required_unless("fit", "cell"),
    ]
}

/// The values of `build` but the text.
#[derive(Clone, Copy)]
pub(crate) struct BuildNumbers {
    depth: i64,
    memory: i64,
    decimals: i64,
    cut: bool,
    fit: bool,
    origin: Option<[i64; 3]>,
    cell: Option<i64>,
}

/// These values, if each is of its kind.
#[tactic(auto, unfolding(crate::specs::Build::build_numbers))]
fn numbers_from(values: &Values) -> Option<BuildNumbers>
    ensures { result ≡ build_numbers (values_of values.now) }
{
    let fit = values.is_set("fit");
    Some(BuildNumbers {
        depth: values.number("depth")?,
        memory: values.number_or(MEMORY, "memory")?,
        decimals: values.number_or(0, "decimals")?,
        cut: values.is_set("cut"),
        fit,
        origin: origin_unless(fit, values)?,
        cell: cell_unless(fit, values)?,
    })
}

/// The lower corner of the grid, where it is not fitted.
fn origin_unless(fit: bool, values: &Values) -> Option<Option<[i64; 3]>>
    ensures { result ≡ unless fit (numbers_in 3 (values_of values.now) (codes "origin")) }
{
    if fit {
        return Some(None);
    }
    Some(Some(values.numbers("origin")?))
}

/// The side of a cell, where the grid is not fitted.
fn cell_unless(fit: bool, values: &Values) -> Option<Option<i64>>
    ensures { result ≡ unless fit (number_in (values_of values.now) (codes "cell")) }
{
    if fit {
        return Some(None);
    }
    Some(Some(values.number("cell")?))
}

/// The values of `build`: `Value` where one is not of its kind, `Memory` where there is no memory for the
/// text.
#[tactic(auto, unfolding(crate::specs::Build::build_from))]
pub(crate) fn build_from(alloc: Global, values: &Values) -> Result<BuildWords, WordFault>
    ensures { IsMade (build_from (values_of values.now)) result }
{
    let Some(numbers) = numbers_from(values) else {
        return Err(WordFault::Value);
    };
    match scratch_from(alloc, values) {
        Err(fault) => Err(fault),
        Ok(scratch) => Ok(with_scratch(&numbers, scratch)),
    }
}

/// The place of the scratch: `Value` where it is no text, `Memory` where there is no memory for it.
pub(crate) fn scratch_from(alloc: Global, values: &Values) -> Result<Text, WordFault>
    ensures { IsMade (text_or (codes "svo_scratch") (values_of values.now) (codes "scratch")) result }
{
    let Some(place) = values.text_or("svo_scratch", "scratch") else {
        return Err(WordFault::Value);
    };
    match Text::new(alloc, place) {
        Err(_) => Err(WordFault::Memory),
        Ok(scratch) => Ok(scratch),
    }
}

/// The numbers with the text.
fn with_scratch(numbers: &BuildNumbers, scratch: Text) -> BuildWords
    ensures { result ≡ with_scratch numbers.now scratch }
{
    BuildWords {
        depth: numbers.depth,
        memory: numbers.memory,
        decimals: numbers.decimals,
        cut: numbers.cut,
        scratch,
        fit: numbers.fit,
        origin: numbers.origin,
        cell: numbers.cell,
    }
}
