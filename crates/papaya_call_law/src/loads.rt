//! A bound on what a lookup loads. The function has an empty body; its contract is the bound.
ghost use Rattle.std.specs.Prelude.{ℕ, List, Option};
ghost use Rattle.papaya_words.specs.declared.resize_mode.ResizeMode.{ResizeMode};
ghost use Rattle.papaya_call.specs.declared.ask.Answer.{Answer};
ghost use Rattle.papaya_call.specs.declared.call.Task.TheVariants.{Get};
ghost use Rattle.papaya_call.specs.Machine.{started};
ghost use Rattle.papaya_call_law.specs.Loads.{AreAnswers, IsBounded, asked};

/// States that a lookup loads at most `limit + 1` slot words, and at most as many hints, of each
/// table that it enters, whatever they are. It enters no table twice, since each has a greater
/// number than the one before. It loads from no other table, and changes and makes nothing.
pub fn lookups_are_bounded()
    ensures { (hash initial : ℕ) (mode : ResizeMode) (most : Option ℕ) (limit : ℕ → ℕ)
        (answers : List Answer) → AreAnswers limit (started Get hash mode initial most) answers
        → IsBounded limit (asked (started Get hash mode initial most) answers) }
{}
