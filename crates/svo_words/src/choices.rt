//! The options of a command, as data.

ghost use Rattle.std.specs.Prelude.{◌≡◌};
ghost use Rattle.svo_words.specs.Tables.{flag, optional, required, required_unless};

use std::marker::Model;

/// An option of a command.
#[derive(Drop)]
pub(crate) struct Choice<'a> {
    /// Its name, without `--`.
    pub(crate) name: &'a str,
    /// Whether a value belongs to it.
    pub(crate) takes_value: bool,
    /// Whether it has to stand.
    pub(crate) is_required: bool,
    /// The name of the option that may stand in its place, if it has to stand.
    pub(crate) unless: Option<&'a str>,
}

impl<'a> Model for Choice<'a> {
    ghost use Rattle.svo_words.specs.Choices.{Choice as View};
    ghost use Rattle.std.specs.Prelude.{option_map};

    ghost Value = { View };

    ghost view = { λ c. record { name = c.name.now; takes_value = c.takes_value; is_required = c.is_required; unless = option_map (λ other. other.now) c.unless } };
}

impl<'a> Choice<'a> {
    /// An option without a value, which may stand.
    pub(crate) fn flag(name: &'a str) -> Choice<'a>
        ensures { result ≡ flag name.entry.now }
    {
        Choice {
            name,
            takes_value: false,
            is_required: false,
            unless: None,
        }
    }

    /// An option with a value, which may stand.
    pub(crate) fn optional(name: &'a str) -> Choice<'a>
        ensures { result ≡ optional name.entry.now }
    {
        Choice {
            name,
            takes_value: true,
            is_required: false,
            unless: None,
        }
    }

    /// An option with a value, which has to stand.
    pub(crate) fn required(name: &'a str) -> Choice<'a>
        ensures { result ≡ required name.entry.now }
    {
        Choice {
            name,
            takes_value: true,
            is_required: true,
            unless: None,
        }
    }

    /// An option with a value, which has to stand where another does not, and may not where it does.
    pub(crate) fn required_unless(other: &'a str, name: &'a str) -> Choice<'a>
        ensures { result ≡ required_unless other.entry.now name.entry.now }
    {
        Choice {
            name,
            takes_value: true,
            is_required: true,
            unless: Some(other),
        }
    }
}
