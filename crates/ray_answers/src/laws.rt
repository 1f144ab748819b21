//! Laws of the answers to rays and points. Each function does nothing: a call gives its `ensures`.

ghost use Rattle.ray_answers.specs.Laws.{AnswersAreOne, FrontsOfAnswers};

/// Queries have one text of answers at most: it is a function of the grid, the cells and the queries.
pub fn answers_are_one()
    ensures { AnswersAreOne }
{}

/// What is put of the answers to the first queries is a front of the answers to all of them.
pub fn fronts_are_of_all_answers()
    ensures { FrontsOfAnswers }
{}
