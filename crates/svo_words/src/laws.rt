//! The form of a command line in the words of its grammar.

ghost use Rattle.std.specs.Prelude.{◌≡◌, ◌↔◌, true, List, ℕ, Result, Ok};
ghost use Rattle.svo_words.specs.Choices.{Choice as View, are_names};
ghost use Rattle.svo_words.specs.Settings.{Setting};
ghost use Rattle.svo_words.specs.Grammar.{Spells};
ghost use Rattle.svo_words.specs.Build.{HasOneGrid};
ghost use Rattle.svo_words.specs.Forms.{form_of};
ghost use Rattle.svo_words.specs.Meaning.{Means};
ghost use Rattle.svo_words.specs.declared.build.BuildWords.{BuildWords};
ghost use Rattle.svo_words.specs.declared.commands.Command.{Command};
ghost use Rattle.svo_words.specs.declared.commands.Command.TheVariants.{Build};
ghost use Rattle.svo_words.specs.declared.commands.WordFault.{WordFault};

/// Words mean one thing: what reading them a word at a time gives.
pub fn one_meaning()
    ensures { (words : List (List ℕ)) (reading : Result Command WordFault) → form_of words ≡ reading ↔ Means words reading }
{}

/// Words spell one list of settings at most.
pub fn one_spelling()
    ensures { (choices : List View) (words : List (List ℕ)) (a b : List Setting) → are_names choices ≡ true → Spells choices words a → Spells choices words b → a ≡ b }
{}

/// Words that mean a build give its corner and its cell exactly where its grid is not fitted.
pub fn one_grid()
    ensures { (words : List (List ℕ)) (job : BuildWords) → Means words (Ok (Build job)) → HasOneGrid job }
{}
