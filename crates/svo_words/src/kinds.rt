//! Values that are texts, axes, or kinds of pictures or of merges.

ghost use Rattle.std.specs.Prelude.{◌≡◌, ℕ, List, IfOk, option_map};
ghost use Rattle.std.specs.String.{string_bytes};
ghost use Rattle.svo_words.specs.Values.{text_of};
ghost use Rattle.svo_words.specs.Kinds.{axis_of, kind_of, merge_of};

use crate::form_test::is_separate;
use std::alloc::{AllocError, Global};
use std::marker::Model;

/// A text among the values, which contracts see as its bytes.
#[derive(Debug, Drop)]
pub struct Text {
    text: String,
}

impl Model for Text {
    ghost Value = { List ℕ };

    ghost view = { λ t. string_bytes t.text };
}

impl Text {
    /// A copy of a text.
    pub(crate) fn new(alloc: Global, text: &str) -> Result<Text, AllocError>
        ensures { IfOk result (λ t. t ≡ text.now) }
    {
        let text = String::from_str(alloc, text)?;
        Ok(Text { text })
    }

    /// The text.
    pub fn as_str(&self) -> &str
        ensures { result.now ≡ self.now }
    {
        self.text.as_str()
    }
}

/// One of the three axes.
#[derive(Clone, Copy, Debug, PartialEq, Eq)]
pub enum AxisWord {
    X,
    Y,
    Z,
}

/// A kind of view: along one direction, or from one point.
#[derive(Clone, Copy, Debug, PartialEq, Eq)]
pub enum KindWord {
    Parallel,
    Pinhole,
}

/// How the cells of two files are put together: those of either, those of both, or those of the first
/// alone.
#[derive(Clone, Copy, Debug, PartialEq, Eq)]
pub enum MergeWord {
    Union,
    Both,
    Minus,
}

/// A value that is a text: not empty, and without a `-` before it.
pub(crate) fn text_of(value: &str) -> Option<&str>
    ensures { option_map (λ text. text.now) result ≡ text_of value.now }
{
    if is_separate(value.as_bytes()) {
        Some(value)
    } else {
        None
    }
}

/// The axis `x`, `y` or `z`.
#[tactic(auto, unfolding(crate::specs::Kinds::axis_of))]
pub(crate) fn axis_of(value: &str) -> Option<AxisWord>
    ensures { result ≡ axis_of value.now }
{
    match value {
        "x" => Some(AxisWord::X),
        "y" => Some(AxisWord::Y),
        "z" => Some(AxisWord::Z),
        _ => None,
    }
}

/// The kind of view `parallel` or `pinhole`.
#[tactic(auto, unfolding(crate::specs::Kinds::kind_of))]
pub(crate) fn kind_of(value: &str) -> Option<KindWord>
    ensures { result ≡ kind_of value.now }
{
    match value {
        "parallel" => Some(KindWord::Parallel),
        "pinhole" => Some(KindWord::Pinhole),
        _ => None,
    }
}

/// The kind of merge `union`, `both` or `minus`.
#[tactic(auto, unfolding(crate::specs::Kinds::merge_of))]
pub(crate) fn merge_of(value: &str) -> Option<MergeWord>
    ensures { result ≡ merge_of value.now }
{
    match value {
        "union" => Some(MergeWord::Union),
        "both" => Some(MergeWord::Both),
        "minus" => Some(MergeWord::Minus),
        _ => None,
    }
}
