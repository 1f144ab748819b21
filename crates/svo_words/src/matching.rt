//! The options of a command, read with `clap`.

ghost use Rattle.std.specs.Prelude.{◌≡◌, IfOk, IfErr, IfSome, map, true, false};
ghost use Rattle.std.specs.String.{string_bytes};
ghost use Rattle.clap.specs.Simple.{app_of};
ghost use Rattle.clap.specs.Walk.{rule_of};
ghost use Rattle.clap.specs.Matches.{found_of};
ghost use Rattle.clap.specs.Values.{kind_of};
ghost use Rattle.clap.specs.declared.error.kind.ErrorKind.TheVariants.{OutOfMemory};
ghost use Rattle.svo_words.specs.Settings.{are_counted};
ghost use Rattle.svo_words.specs.Steps.{settings_of, settings_in};
ghost use Rattle.svo_words.specs.Names.{passes};
ghost use Rattle.svo_words.specs.Matching.{rule_for, app_for, HasFound};

use crate::choices::Choice;
use clap::{Arg, ArgAction, ArgMatches, Command, Error};
use std::alloc::{AllocError, Global};

/// The values that `clap` reads from words that are in the form of these options.
pub(crate) fn matches_of<'a>(
    alloc: Global,
    choices: &'a [Choice<'a>],
    words: &'a [String],
) -> Result<ArgMatches<'a>, Error>
    requires { passes (are_counted choices.now) (settings_of choices.now (map string_bytes words.now)) ≡ true }
    ensures found { IfOk result (λ m. IfSome (settings_in choices.entry.now (map string_bytes words.entry.now)) (HasFound (found_of m))) }
    ensures memory { IfErr result (λ e. kind_of e ≡ OutOfMemory) }
{
    let command = command(alloc, choices)?;
    parsed(command, choices, words)
}

/// The same, by the command that the options make.
fn parsed<'a>(
    command: Command<'a>,
    choices: &'a [Choice<'a>],
    words: &'a [String],
) -> Result<ArgMatches<'a>, Error>
    requires command { app_of command ≡ app_for choices.now }
    requires form { passes (are_counted choices.now) (settings_of choices.now (map string_bytes words.now)) ≡ true }
    ensures found { IfOk result (λ m. IfSome (settings_in choices.entry.now (map string_bytes words.entry.now)) (HasFound (found_of m))) }
    ensures memory { IfErr result (λ e. kind_of e ≡ OutOfMemory) }
{
    command.try_get_matches_from(words)
}

/// The command for `clap`: these options, no name before the words, and no help.
fn command<'a>(alloc: Global, choices: &'a [Choice<'a>]) -> Result<Command<'a>, AllocError>
    ensures { IfOk result (λ c. app_of c ≡ app_for choices.now) }
{
    let mut command = Command::new(alloc, "options")
        .no_binary_name(true)
        .disable_help_flag(true)
        .disable_version_flag(true);
    for choice in choices {
        command = command.arg(argument(alloc, choice))?;
    }
    Ok(command)
}

/// An option for `clap`. One without a value stands for the value `true`, and is not found where it does not stand.
#[tactic(auto, unfolding(crate::specs::Matching::rule_for))]
fn argument<'a>(alloc: Global, choice: &'a Choice<'a>) -> Arg<'a>
    ensures rule { rule_of result ≡ rule_for choice.now }
    ensures own { result.global ≡ false }
{
    let arg = Arg::new(alloc, choice.name)
        .long(choice.name)
        .action(ArgAction::Set);
    if choice.takes_value {
        arg
    } else {
        arg.num_args(0).default_missing_value("true")
    }
}
