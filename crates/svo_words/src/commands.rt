//! The commands of the program.

ghost use Rattle.std.specs.Prelude.{map};
ghost use Rattle.std.specs.String.{string_bytes};
ghost use Rattle.svo_words.specs.Build.{build_choices};
ghost use Rattle.svo_words.specs.Steps.{settings_in};
ghost use Rattle.svo_words.specs.Forms.{form_of, build_form, cast_form, check_form, cells_form, has_form, why_form, slice_form, view_form, lift_form, make_form, sum_form, near_form, merge_form, coarse_form, read_as};
ghost use Rattle.svo_words.specs.Combining.{merge_choices, coarse_choices};
ghost use Rattle.svo_words.specs.Made.{make_choices, sum_choices};
ghost use Rattle.svo_words.specs.Nodes.{nodes_choices, has_choices, kept_choices};
ghost use Rattle.svo_words.specs.Pictures.{slice_choices, view_choices};
ghost use Rattle.svo_words.specs.Reading.{IsRead, AreValues};
ghost use Rattle.svo_words.specs.Why.{why_choices};

use crate::build::{BuildWords, build_choices, build_from};
use crate::choices::Choice;
use crate::combining::{
    CoarseWords, MergeWords, coarse_choices, coarse_from, merge_choices, merge_from,
};
use crate::form_test::is_in_form;
use crate::made::{MakeWords, SumWords, make_choices, make_from, sum_choices, sum_from};
use crate::matching::matches_of;
use crate::nodes::{
    CastWords, CellsWords, CheckWords, HasWords, LiftWords, NearWords, cast_from, cells_from,
    check_from, has_choices, has_from, kept_choices, lift_from, near_from, nodes_choices,
};
use crate::pictures::{SliceWords, ViewWords, slice_choices, slice_from, view_choices, view_from};
use crate::values::Values;
use crate::why::{WhyWords, why_choices, why_from};
use std::alloc::Global;
use svo_base::Words;
use thiserror::Error;

/// A command with its values.
#[derive(Drop)]
pub enum Command {
    Build(BuildWords),
    Cast(CastWords),
    Check(CheckWords),
    Cells(CellsWords),
    Has(HasWords),
    Why(WhyWords),
    Slice(SliceWords),
    View(ViewWords),
    Lift(LiftWords),
    Make(MakeWords),
    Sum(SumWords),
    Near(NearWords),
    Merge(MergeWords),
    Coarse(CoarseWords),
}

/// Why words are no command.
#[derive(Clone, Copy, Debug, Drop, Error, PartialEq, Eq)]
pub enum WordFault {
    /// The first word is missing, or names no command.
    #[error("command")]
    Command,
    /// The words after it are not in the command's form.
    #[error("options")]
    Options,
    /// They are, and the text of a value is not of its kind.
    #[error("value")]
    Value,
    /// Memory ran out.
    #[error("memory")]
    Memory,
}

/// The command that the words are.
#[tactic(auto, unfolding(crate::specs::Forms::form_of))]
pub fn read_words(alloc: Global, words: &Words) -> Result<Command, WordFault>
    ensures { IsRead (form_of words.now) result }
{
    if words.is_empty() {
        return Err(WordFault::Command);
    }
    match words.get(0) {
        "build" => read_build(alloc, words.tail(1)),
        "cast" => read_cast(alloc, words.tail(1)),
        "check" => read_check(alloc, words.tail(1)),
        "cells" => read_cells(alloc, words.tail(1)),
        "has" => read_has(alloc, words.tail(1)),
        "why" => read_why(alloc, words.tail(1)),
        "slice" => read_slice(alloc, words.tail(1)),
        "view" => read_view(alloc, words.tail(1)),
        "lift" => read_lift(alloc, words.tail(1)),
        "make" => read_make(alloc, words.tail(1)),
        "sum" => read_sum(alloc, words.tail(1)),
        "near" => read_near(alloc, words.tail(1)),
        "merge" => read_merge(alloc, words.tail(1)),
        "coarse" => read_coarse(alloc, words.tail(1)),
        _ => Err(WordFault::Command),
    }
}

/// The command `build` of the words after its name.
fn read_build(alloc: Global, words: &[String]) -> Result<Command, WordFault>
    ensures { IsRead (read_as build_form (settings_in build_choices (map string_bytes words.now))) result }
{
    let choices = build_choices();
    let values = read_values(alloc, &choices, words)?;
    match build_from(alloc, &values) {
        Err(fault) => Err(fault),
        Ok(build) => Ok(Command::Build(build)),
    }
}

/// The command `why` of the words after its name.
fn read_why(alloc: Global, words: &[String]) -> Result<Command, WordFault>
    ensures { IsRead (read_as why_form (settings_in why_choices (map string_bytes words.now))) result }
{
    let choices = why_choices();
    let values = read_values(alloc, &choices, words)?;
    match why_from(&values) {
        None => Err(WordFault::Value),
        Some(why) => Ok(Command::Why(why)),
    }
}

/// The command `check` of the words after its name.
fn read_check(alloc: Global, words: &[String]) -> Result<Command, WordFault>
    ensures { IsRead (read_as check_form (settings_in nodes_choices (map string_bytes words.now))) result }
{
    let choices = nodes_choices();
    let values = read_values(alloc, &choices, words)?;
    match check_from(alloc, &values) {
        Err(fault) => Err(fault),
        Ok(check) => Ok(Command::Check(check)),
    }
}

/// The command `has` of the words after its name.
fn read_has(alloc: Global, words: &[String]) -> Result<Command, WordFault>
    ensures { IsRead (read_as has_form (settings_in has_choices (map string_bytes words.now))) result }
{
    let choices = has_choices();
    let values = read_values(alloc, &choices, words)?;
    match has_from(alloc, &values) {
        Err(fault) => Err(fault),
        Ok(has) => Ok(Command::Has(has)),
    }
}

/// The command `cells` of the words after its name.
fn read_cells(alloc: Global, words: &[String]) -> Result<Command, WordFault>
    ensures { IsRead (read_as cells_form (settings_in kept_choices (map string_bytes words.now))) result }
{
    let choices = kept_choices();
    let values = read_values(alloc, &choices, words)?;
    match cells_from(alloc, &values) {
        Err(fault) => Err(fault),
        Ok(cells) => Ok(Command::Cells(cells)),
    }
}

/// The command `lift` of the words after its name.
fn read_lift(alloc: Global, words: &[String]) -> Result<Command, WordFault>
    ensures { IsRead (read_as lift_form (settings_in nodes_choices (map string_bytes words.now))) result }
{
    let choices = nodes_choices();
    let values = read_values(alloc, &choices, words)?;
    match lift_from(alloc, &values) {
        Err(fault) => Err(fault),
        Ok(lift) => Ok(Command::Lift(lift)),
    }
}

/// The command `cast` of the words after its name.
fn read_cast(alloc: Global, words: &[String]) -> Result<Command, WordFault>
    ensures { IsRead (read_as cast_form (settings_in kept_choices (map string_bytes words.now))) result }
{
    let choices = kept_choices();
    let values = read_values(alloc, &choices, words)?;
    match cast_from(alloc, &values) {
        Err(fault) => Err(fault),
        Ok(cast) => Ok(Command::Cast(cast)),
    }
}

/// The command `slice` of the words after its name.
fn read_slice(alloc: Global, words: &[String]) -> Result<Command, WordFault>
    ensures { IsRead (read_as slice_form (settings_in slice_choices (map string_bytes words.now))) result }
{
    let choices = slice_choices();
    let values = read_values(alloc, &choices, words)?;
    match slice_from(alloc, &values) {
        Err(fault) => Err(fault),
        Ok(slice) => Ok(Command::Slice(slice)),
    }
}

/// The command `view` of the words after its name.
fn read_view(alloc: Global, words: &[String]) -> Result<Command, WordFault>
    ensures { IsRead (read_as view_form (settings_in view_choices (map string_bytes words.now))) result }
{
    let choices = view_choices();
    let values = read_values(alloc, &choices, words)?;
    match view_from(alloc, &values) {
        Err(fault) => Err(fault),
        Ok(view) => Ok(Command::View(view)),
    }
}

/// The command `make` of the words after its name.
fn read_make(alloc: Global, words: &[String]) -> Result<Command, WordFault>
    ensures { IsRead (read_as make_form (settings_in make_choices (map string_bytes words.now))) result }
{
    let choices = make_choices();
    let values = read_values(alloc, &choices, words)?;
    match make_from(&values) {
        None => Err(WordFault::Value),
        Some(make) => Ok(Command::Make(make)),
    }
}

/// The command `sum` of the words after its name.
fn read_sum(alloc: Global, words: &[String]) -> Result<Command, WordFault>
    ensures { IsRead (read_as sum_form (settings_in sum_choices (map string_bytes words.now))) result }
{
    let choices = sum_choices();
    let values = read_values(alloc, &choices, words)?;
    match sum_from(alloc, &values) {
        Err(fault) => Err(fault),
        Ok(sum) => Ok(Command::Sum(sum)),
    }
}

/// The command `near` of the words after its name.
fn read_near(alloc: Global, words: &[String]) -> Result<Command, WordFault>
    ensures { IsRead (read_as near_form (settings_in kept_choices (map string_bytes words.now))) result }
{
    let choices = kept_choices();
    let values = read_values(alloc, &choices, words)?;
    match near_from(alloc, &values) {
        Err(fault) => Err(fault),
        Ok(near) => Ok(Command::Near(near)),
    }
}

/// The command `merge` of the words after its name.
fn read_merge(alloc: Global, words: &[String]) -> Result<Command, WordFault>
    ensures { IsRead (read_as merge_form (settings_in merge_choices (map string_bytes words.now))) result }
{
    let choices = merge_choices();
    let values = read_values(alloc, &choices, words)?;
    match merge_from(alloc, &values) {
        Err(fault) => Err(fault),
        Ok(merge) => Ok(Command::Merge(merge)),
    }
}

/// The command `coarse` of the words after its name.
fn read_coarse(alloc: Global, words: &[String]) -> Result<Command, WordFault>
    ensures { IsRead (read_as coarse_form (settings_in coarse_choices (map string_bytes words.now))) result }
{
    let choices = coarse_choices();
    let values = read_values(alloc, &choices, words)?;
    match coarse_from(alloc, &values) {
        Err(fault) => Err(fault),
        Ok(coarse) => Ok(Command::Coarse(coarse)),
    }
}

/// The values of a command's options.
pub(crate) fn read_values<'a>(
    alloc: Global,
    choices: &'a [Choice<'a>],
    words: &'a [String],
) -> Result<Values<'a>, WordFault>
    ensures { AreValues (settings_in choices.entry.now (map string_bytes words.entry.now)) result }
{
    if !is_in_form(choices, words) {
        return Err(WordFault::Options);
    }
    match matches_of(alloc, choices, words) {
        Err(_) => Err(WordFault::Memory),
        Ok(matches) => Ok(Values::new(matches)),
    }
}
