//! Whether words are in the form of a command, found out without memory.

ghost use Rattle.std.specs.Prelude.{◌≡◌, ◌+◌, ◌==◌, ◌<◌, option_map, map, None, IfSome, MatchOption, length, if◌then◌else◌};
ghost use Rattle.std.specs.List.{list_all, position};
ghost use Rattle.std.specs.String.{string_bytes};
ghost use Rattle.clap.specs.Lexer.{long_of, name_and_value};
ghost use Rattle.svo_words.specs.Choices.{choice_of};
ghost use Rattle.svo_words.specs.Grammar.{is_separate};
ghost use Rattle.svo_words.specs.Settings.{count_of, is_replaced, may_stand, is_counted, are_counted};
ghost use Rattle.svo_words.specs.Steps.{step_of, settings_of, named, met, met_if};
ghost use Rattle.svo_words.specs.Names.{names_of_step, step_seen, parts_seen, passes, count_done};

use crate::choices::Choice;

/// What a word does: the option that then waits for its value, and the one that is set.
#[derive(Clone, Copy)]
struct Step<'a> {
    waiting: Option<&'a str>,
    done: Option<&'a str>,
}

/// A word `--name` or `--name=value`.
#[derive(Clone, Copy)]
struct Parts<'a> {
    name: &'a [u8],
    value: Option<&'a [u8]>,
}

/// Whether the words spell settings of these options, each as often as it may stand.
pub(crate) fn is_in_form(choices: &[Choice], words: &[String]) -> bool
    ensures { result ≡ passes (are_counted choices.now) (settings_of choices.now (map string_bytes words.now)) }
{
    let spelled = count_of(choices, words, "").is_some();
    let counted = are_counted(choices, words);
    spelled && counted
}

/// Whether each option stands as often as it may.
fn are_counted(choices: &[Choice], words: &[String]) -> bool
    ensures { result ≡ list_all (λ choice. passes (λ settings. is_counted settings choice) (settings_of choices.now (map string_bytes words.now))) choices.now }
{
    choices
        .iter()
        .all(|choice| is_counted(choices, words, choice))
}

/// Whether an option stands as often as it may.
#[tactic(auto, using(crate::proofs::FormTests::none_passes))]
fn is_counted(choices: &[Choice], words: &[String], choice: &Choice) -> bool
    ensures { result ≡ passes (λ settings. is_counted settings choice.now) (settings_of choices.now (map string_bytes words.now)) }
{
    let is_replaced = is_replaced(choices, words, choice.unless);
    match count_of(choices, words, choice.name) {
        None => false,
        Some(count) => may_stand(choice.is_required, is_replaced, count),
    }
}

/// Whether an option may stand so often.
fn may_stand(is_required: bool, is_replaced: bool, count: usize) -> bool
    ensures { result ≡ may_stand is_required is_replaced count }
{
    if !is_required {
        return count <= 1;
    }
    if is_replaced { count == 0 } else { count == 1 }
}

/// Whether the option that may stand in the place of another does.
fn is_replaced(choices: &[Choice], words: &[String], other: Option<&str>) -> bool
    ensures { result ≡ passes (is_replaced (option_map (λ name. name.now) other.entry)) (settings_of choices.now (map string_bytes words.now)) }
{
    match other {
        None => false,
        Some(name) => count_of(choices, words, name).is_some_and(|count| count > 0),
    }
}

/// How often the option of this name stands, where the words spell settings of these options.
fn count_of(choices: &[Choice], words: &[String], name: &str) -> Option<usize>
    ensures { result ≡ option_map (count_of name.now) (settings_of choices.now (map string_bytes words.now)) }
{
    let mut waiting = None;
    let mut count = 0;
    for word in words {
        let step = take_word(choices, waiting, word.as_str())?;
        count += count_done(step.done, name);
        waiting = step.waiting;
    }
    match waiting {
        None => Some(count),
        Some(_) => None,
    }
}

/// 1 where the option that is set has this name, and else 0.
fn count_done(done: Option<&str>, name: &str) -> usize
    ensures { result ≡ count_done name.now (option_map (λ one. one.now) done.entry) }
{
    match done {
        None => 0,
        Some(set) => usize::from(set == name),
    }
}

/// What a word does, where an option may wait for its value.
#[tactic(auto, unfolding(crate::specs::Steps::step_of))]
fn take_word<'a>(choices: &[Choice<'a>], waiting: Option<&'a str>, word: &str) -> Option<Step<'a>>
    ensures { option_map step_seen result ≡ names_of_step (step_of choices.now (option_map (λ name. name.now) waiting.entry) word.now) }
{
    match waiting {
        None => {
            let parts = take_apart(word.as_bytes())?;
            let choice = choice_named(choices, parts.name)?;
            met(choice, parts.value)
        }
        Some(name) => {
            if !is_separate(word.as_bytes()) {
                return None;
            }
            Some(Step {
                waiting: None,
                done: Some(name),
            })
        }
    }
}

/// What an option does that was met with this value, or with none.
fn met<'a>(choice: &Choice<'a>, value: Option<&[u8]>) -> Option<Step<'a>>
    ensures { option_map step_seen result ≡ names_of_step (met choice.now (option_map (λ text. text.now) value.entry)) }
{
    let set = Step {
        waiting: None,
        done: Some(choice.name),
    };
    match value {
        None if choice.takes_value => Some(Step {
            waiting: Some(choice.name),
            done: None,
        }),
        None => Some(set),
        Some(text) if choice.takes_value && !text.is_empty() => Some(set),
        _ => None,
    }
}

/// The option of this name.
fn choice_named<'c, 'a>(choices: &'c [Choice<'a>], name: &[u8]) -> Option<&'c Choice<'a>>
    ensures { option_map (λ choice. choice.now) result ≡ choice_of choices.now name.now }
{
    choices.iter().find(|choice| choice.name.as_bytes() == name)
}

/// The name and the value of a word `--name` or `--name=value`.
fn take_apart(word: &[u8]) -> Option<Parts<'_>>
    ensures { option_map parts_seen result ≡ long_of word.now }
{
    match word {
        [b'-', b'-', first, rest @ ..] => Some(parts_behind(&word[2..])),
        _ => None,
    }
}

/// What stands before the first `=`, and what stands after it.
fn parts_behind(text: &[u8]) -> Parts<'_>
    ensures { parts_seen result ≡ name_and_value text.now }
{
    match equals_sign(text) {
        None => Parts {
            name: text,
            value: None,
        },
        Some(at) => Parts {
            name: &text[..at],
            value: Some(&text[at + 1..]),
        },
    }
}

/// The place of the first `=`.
fn equals_sign(text: &[u8]) -> Option<usize>
    ensures place { result ≡ position (λ byte. byte == 61) text.now }
    ensures within { IfSome result (λ at. at < length text.now) }
{
    text.iter().position(|byte| *byte == b'=')
}

/// Whether a text may be a value in a word of its own.
pub(crate) fn is_separate(text: &[u8]) -> bool
    ensures { result ≡ is_separate text.now }
{
    match text {
        [] => false,
        [first, ..] => *first != b'-',
    }
}
