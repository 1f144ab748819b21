//! The words of the commands that put out pictures: `slice` and `view`.

ghost use Rattle.std.specs.Prelude.{◌≡◌, true};
ghost use Rattle.svo_words.specs.Choices.{are_names};
ghost use Rattle.svo_words.specs.Pictures.{slice_choices, slice_values, slice_from, slice_with, view_choices, view_frame, view_sizes, view_from, view_with};
ghost use Rattle.svo_words.specs.Reading.{IsMade};
ghost use Rattle.svo_words.specs.Seen.{values_of};

use crate::choices::Choice;
use crate::commands::WordFault;
use crate::kinds::{AxisWord, KindWord, Text};
use crate::nodes::{KEEP, nodes_from};
use crate::values::Values;
use std::alloc::Global;

/// The values of `slice`, whatever their ranges.
#[derive(Debug, Drop)]
pub struct SliceWords {
    /// The name of the node file.
    pub nodes: Text,
    /// The axis that the slice is across.
    pub axis: AxisWord,
    /// The place of the slice along this axis, in cells.
    pub at: i64,
    /// How many blocks of the file are kept.
    pub keep: i64,
}

/// The values of `view`, whatever their ranges.
#[derive(Debug, Drop)]
pub struct ViewWords {
    /// The name of the node file.
    pub nodes: Text,
    /// The kind of view.
    pub kind: KindWord,
    /// The point that is looked from.
    pub eye: [i64; 3],
    /// The direction of the rays of a parallel view, and of the middle of another.
    pub toward: [i64; 3],
    /// Half the step from a pixel to the next on its right.
    pub right: [i64; 3],
    /// Half the step from a pixel to the next above it.
    pub up: [i64; 3],
    /// How many pixels the picture is wide.
    pub width: i64,
    /// How many pixels the picture is high.
    pub height: i64,
    /// The time of a ray up to which a hit is shaded by its time.
    pub far: i64,
    /// How many blocks of the file are kept.
    pub keep: i64,
}

/// The options of `slice`.
#[tactic(auto, unfolding(crate::specs::Pictures::slice_choices))]
pub(crate) fn slice_choices() -> [Choice<'static>; 4]
    ensures table { result ≡ slice_choices }
    ensures names { are_names result ≡ true }
{
    [
        Choice::required("nodes"),
        Choice::required("axis"),
        Choice::required("at"),
        Choice::optional("keep"),
    ]
}

/// The values of `slice` but the text.
#[derive(Clone, Copy)]
pub(crate) struct SliceValues {
    axis: AxisWord,
    at: i64,
    keep: i64,
}

/// These values, if each is of its kind.
#[tactic(auto, unfolding(crate::specs::Pictures::slice_values))]
fn slice_values(values: &Values) -> Option<SliceValues>
    ensures { result ≡ slice_values (values_of values.now) }
{
    Some(SliceValues {
        axis: values.axis("axis")?,
        at: values.number("at")?,
        keep: values.number_or(KEEP, "keep")?,
    })
}

/// The values of `slice`: `Value` where one is not of its kind.
#[tactic(auto, unfolding(crate::specs::Pictures::slice_from))]
pub(crate) fn slice_from(alloc: Global, values: &Values) -> Result<SliceWords, WordFault>
    ensures { IsMade (slice_from (values_of values.now)) result }
{
    let Some(others) = slice_values(values) else {
        return Err(WordFault::Value);
    };
    match nodes_from(alloc, values) {
        Err(fault) => Err(fault),
        Ok(nodes) => Ok(slice_with(&others, nodes)),
    }
}

/// The values with the text.
fn slice_with(others: &SliceValues, nodes: Text) -> SliceWords
    ensures { result ≡ slice_with others.now nodes }
{
    SliceWords {
        nodes,
        axis: others.axis,
        at: others.at,
        keep: others.keep,
    }
}

/// The options of `view`.
#[tactic(auto, unfolding(crate::specs::Pictures::view_choices))]
pub(crate) fn view_choices() -> [Choice<'static>; 10]
    ensures table { result ≡ view_choices }
    ensures names { are_names result ≡ true }
{
    [
        Choice::required("nodes"),
        Choice::required("kind"),
        Choice::required("eye"),
        Choice::required("toward"),
        Choice::required("right"),
        Choice::required("up"),
        Choice::required("width"),
        Choice::required("height"),
        Choice::required("far"),
        Choice::optional("keep"),
    ]
}

/// From where a view looks, and whereto.
#[derive(Clone, Copy)]
pub(crate) struct ViewFrame {
    kind: KindWord,
    eye: [i64; 3],
    toward: [i64; 3],
    right: [i64; 3],
    up: [i64; 3],
}

/// These values, if each is of its kind.
#[tactic(auto, unfolding(crate::specs::Pictures::view_frame))]
fn view_frame(values: &Values) -> Option<ViewFrame>
    ensures { result ≡ view_frame (values_of values.now) }
{
    Some(ViewFrame {
        kind: values.kind("kind")?,
        eye: values.numbers("eye")?,
        toward: values.numbers("toward")?,
        right: values.numbers("right")?,
        up: values.numbers("up")?,
    })
}

/// How large the picture is, and what else is a number.
#[derive(Clone, Copy)]
pub(crate) struct ViewSizes {
    width: i64,
    height: i64,
    far: i64,
    keep: i64,
}

/// These values, if each is of its kind.
#[tactic(auto, unfolding(crate::specs::Pictures::view_sizes))]
fn view_sizes(values: &Values) -> Option<ViewSizes>
    ensures { result ≡ view_sizes (values_of values.now) }
{
    Some(ViewSizes {
        width: values.number("width")?,
        height: values.number("height")?,
        far: values.number("far")?,
        keep: values.number_or(KEEP, "keep")?,
    })
}

/// The values of `view`: `Value` where one is not of its kind.
#[tactic(auto, unfolding(crate::specs::Pictures::view_from))]
pub(crate) fn view_from(alloc: Global, values: &Values) -> Result<ViewWords, WordFault>
    ensures { IsMade (view_from (values_of values.now)) result }
{
    let Some(frame) = view_frame(values) else {
        return Err(WordFault::Value);
    };
    let Some(sizes) = view_sizes(values) else {
        return Err(WordFault::Value);
    };
    match nodes_from(alloc, values) {
        Err(fault) => Err(fault),
        Ok(nodes) => Ok(view_with(&frame, &sizes, nodes)),
    }
}

/// The values with the text.
fn view_with(frame: &ViewFrame, sizes: &ViewSizes, nodes: Text) -> ViewWords
    ensures { result ≡ view_with frame.now sizes.now nodes }
{
    ViewWords {
        nodes,
        kind: frame.kind,
        eye: frame.eye,
        toward: frame.toward,
        right: frame.right,
        up: frame.up,
        width: sizes.width,
        height: sizes.height,
        far: sizes.far,
        keep: sizes.keep,
    }
}
