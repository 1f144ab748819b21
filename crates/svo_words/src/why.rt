//! The words of the command `why`.

ghost use Rattle.std.specs.Prelude.{◌≡◌, true};
ghost use Rattle.svo_words.specs.Choices.{are_names};
ghost use Rattle.svo_words.specs.Seen.{values_of};
ghost use Rattle.svo_words.specs.Why.{why_choices, why_from};

use crate::choices::Choice;
use crate::values::Values;

/// The values of `why`, whatever their ranges.
#[derive(Clone, Copy, Debug, PartialEq, Eq)]
pub struct WhyWords {
    /// The three corners of a triangle, each as x, y and z.
    pub triangle: [i64; 9],
    /// The lower corner of a cube, and its side.
    pub cube: [i64; 4],
}

/// The options of `why`.
#[tactic(auto, unfolding(crate::specs::Why::why_choices))]
pub(crate) fn why_choices() -> [Choice<'static>; 2]
    ensures table { result ≡ why_choices }
    ensures names { are_names result ≡ true }
{
    [Choice::required("triangle"), Choice::required("cube")]
}

/// The values of `why`, if each is of its kind.
#[tactic(auto, unfolding(crate::specs::Why::why_from))]
pub(crate) fn why_from(values: &Values) -> Option<WhyWords>
    ensures { result ≡ why_from (values_of values.now) }
{
    Some(WhyWords {
        triangle: values.numbers("triangle")?,
        cube: values.numbers("cube")?,
    })
}
