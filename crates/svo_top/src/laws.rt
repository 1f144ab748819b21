//! A law of what the program answers. The function does nothing but call on laws of the crates below: a
//! call gives its `ensures`.

ghost use Rattle.svo_top.specs.Laws.{AnswersAreOne};

/// What a question puts out of a node file is one, as is how the run ends: neither depends on how many
/// blocks are kept, nor on whether there was memory for each of them.
pub fn answers_are_one()
    ensures { AnswersAreOne }
{
    ray_answers::answers_are_one();
    slice_view::views_are_one();
}
