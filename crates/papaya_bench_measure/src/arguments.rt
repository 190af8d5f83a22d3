//! The program's arguments.
ghost use Rattle.std.specs.Prelude.{◌≡◌, ℕ, [], ◌∷◌, map, string_bytes, MatchOption};
ghost use Rattle.papaya_bench_measure.specs.declared.arguments.BenchTask.{BenchTask};
ghost use Rattle.papaya_bench_measure.specs.Arguments.{AskFor, WritesCount};

/// The task of the program.
#[derive(Clone, Copy)]
pub enum BenchTask {
    /// Compare the backends' results on small maps: no argument.
    Check,
    /// Time the workloads: the argument `time`.
    Time,
    /// Time maps that grow from empty: the argument `grow`.
    Grow,
    /// Time maps that are filled and reclaimed: the argument `reclaim`.
    Reclaim,
    /// Keep maps at work for as many operations as the argument behind `soak` says, or for the
    /// default number.
    Soak(Option<u32>),
}

/// Returns the number that a word denotes, within 32 bits.
fn count_of(word: &str) -> Option<u32>
    ensures { MatchOption result ((n : ℕ) → ¬ (WritesCount word.now n)) (WritesCount word.now) }
{
    word.parse().ok()
}

/// Returns the task of one word.
fn task_of(word: &str) -> Option<BenchTask>
    ensures { MatchOption result ((task : BenchTask) → ¬ (AskFor (word.now ∷ []) task))
        (AskFor (word.now ∷ [])) }
{
    match word {
        "time" => Some(BenchTask::Time),
        "grow" => Some(BenchTask::Grow),
        "reclaim" => Some(BenchTask::Reclaim),
        "soak" => Some(BenchTask::Soak(None)),
        _ => None,
    }
}

/// Returns the task of a word and a number behind it.
fn counted_task_of(word: &str, count: &str) -> Option<BenchTask>
    ensures { MatchOption result ((task : BenchTask) → ¬ (AskFor (word.now ∷ count.now ∷ []) task))
        (AskFor (word.now ∷ count.now ∷ [])) }
{
    match word {
        "soak" => Some(BenchTask::Soak(Some(count_of(count)?))),
        _ => None,
    }
}

impl BenchTask {
    /// Returns the task of the arguments behind the program's name, or `None` if they are bad.
    pub fn from_words(words: &[String]) -> Option<BenchTask>
        ensures { MatchOption result ((task : BenchTask) → ¬ (AskFor (map string_bytes words.now) task))
            (AskFor (map string_bytes words.now)) }
    {
        match words {
            [] => Some(BenchTask::Check),
            [word] => task_of(word.as_str()),
            [word, count] => counted_task_of(word.as_str(), count.as_str()),
            _ => None,
        }
    }
}
