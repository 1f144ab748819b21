//! The values of a command's options.

ghost use Rattle.std.specs.Prelude.{◌≡◌, ◌<◌, option_map};
ghost use Rattle.clap.specs.Matches.{found_of, first_value};
ghost use Rattle.svo_words.specs.Seen.{values_of};
ghost use Rattle.svo_words.specs.Values.{is_set, number_in, number_or, numbers_in, text_in, text_or, axis_in, kind_in, merge_in};

use crate::kinds::{AxisWord, KindWord, MergeWord, axis_of, kind_of, merge_of, text_of};
use crate::numbers::numbers;
use clap::ArgMatches;
use text_words::number;

/// The values of a command's options, each by its name.
#[derive(Drop)]
pub(crate) struct Values<'a> {
    matches: ArgMatches<'a>,
}

impl<'a> Values<'a> {
    /// The values that `clap` found.
    pub(crate) fn new(matches: ArgMatches<'a>) -> Values<'a>
        ensures { values_of result ≡ first_value (found_of matches.entry) }
    {
        Values { matches }
    }

    /// The value of an option, if it stands.
    fn value(&self, name: &str) -> Option<&'a str>
        ensures { option_map (λ text. text.now) result ≡ values_of self.now name.now }
    {
        self.matches.get_str(name)
    }

    /// Whether an option stands.
    pub(crate) fn is_set(&self, name: &str) -> bool
        ensures { result ≡ is_set (values_of self.now) name.now }
    {
        self.value(name).is_some()
    }

    /// The number of an option that stands.
    #[tactic(auto, unfolding(crate::specs::Values::number_in))]
    pub(crate) fn number(&self, name: &str) -> Option<i64>
        ensures { result ≡ number_in (values_of self.now) name.now }
    {
        number(self.value(name)?.as_bytes())
    }

    /// The number of an option, or a default where it does not stand.
    #[tactic(auto, unfolding(crate::specs::Values::number_or))]
    pub(crate) fn number_or(&self, default: i64, name: &str) -> Option<i64>
        ensures { result ≡ number_or default (values_of self.now) name.now }
    {
        let Some(text) = self.value(name) else {
            return Some(default);
        };
        number(text.as_bytes())
    }

    /// So many numbers with commas between them.
    #[tactic(auto, unfolding(crate::specs::Values::numbers_in))]
    pub(crate) fn numbers<const N: usize>(&self, name: &str) -> Option<[i64; N]>
        requires { 0 < N }
        ensures { result ≡ numbers_in N (values_of self.now) name.now }
    {
        numbers(self.value(name)?.as_bytes())
    }

    /// The text of an option that stands.
    #[tactic(auto, unfolding(crate::specs::Values::text_in))]
    pub(crate) fn text(&self, name: &str) -> Option<&'a str>
        ensures { option_map (λ text. text.now) result ≡ text_in (values_of self.now) name.now }
    {
        text_of(self.value(name)?)
    }

    /// The text of an option, or a default where it does not stand.
    #[tactic(auto, unfolding(crate::specs::Values::text_or))]
    pub(crate) fn text_or(&self, default: &'a str, name: &str) -> Option<&'a str>
        ensures { option_map (λ text. text.now) result ≡ text_or default.entry.now (values_of self.now) name.now }
    {
        match self.value(name) {
            None => Some(default),
            Some(text) => text_of(text),
        }
    }

    /// The axis that an option names.
    #[tactic(auto, unfolding(crate::specs::Values::axis_in))]
    pub(crate) fn axis(&self, name: &str) -> Option<AxisWord>
        ensures { result ≡ axis_in (values_of self.now) name.now }
    {
        axis_of(self.value(name)?)
    }

    /// The kind of view that an option names.
    #[tactic(auto, unfolding(crate::specs::Values::kind_in))]
    pub(crate) fn kind(&self, name: &str) -> Option<KindWord>
        ensures { result ≡ kind_in (values_of self.now) name.now }
    {
        kind_of(self.value(name)?)
    }

    /// The kind of merge that an option names.
    #[tactic(auto, unfolding(crate::specs::Values::merge_in))]
    pub(crate) fn merge_kind(&self, name: &str) -> Option<MergeWord>
        ensures { result ≡ merge_in (values_of self.now) name.now }
    {
        merge_of(self.value(name)?)
    }
}
