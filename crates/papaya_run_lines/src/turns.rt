//! The lines of a script, which are turns of callers.
ghost use Rattle.std.specs.Prelude.{◌≡◌, ◌≢◌, ℕ, List, MatchOption};
ghost use Rattle.papaya_call.specs.declared.call.Call.{Call};
ghost use Rattle.papaya_core_timeline.specs.declared.trace.Turn.{Turn};
ghost use Rattle.papaya_run_lines.specs.Turns.{WritesCaller, WritesCall, WritesTurn, verb_word};
ghost use Rattle.papaya_run_lines.specs.declared.closures.Answering.{Answering};
ghost use Rattle.papaya_run_lines.specs.declared.turns.Verb.{Verb};

use crate::closures::Answering;
use crate::commands::{Command, command_of, parted};
use crate::numbers::number_of;
use papaya_call::call::Call;
use papaya_core_timeline::trace::Turn;

/// The number of callers that a script may name.
pub(crate) const CALLERS: u64 = 64;

/// The most steps that `finish` makes.
const MOST_STEPS: usize = 1_000_000;

/// Returns the caller of this number.
fn caller_of(text: &[u8]) -> Option<usize>
    ensures { MatchOption result ((caller : ℕ) → ¬ (WritesCaller text.now caller))
        (WritesCaller text.now) }
{
    let caller = number_of(text)?;
    if caller < CALLERS {
        Some(caller as usize)
    } else {
        None
    }
}

/// Returns the call of this text. A query is none.
fn call_of(text: &[u8]) -> Option<Call<u64, u64, Answering>>
    ensures { MatchOption result ((call : Call ℕ ℕ Answering) → ¬ (WritesCall text.now call))
        (WritesCall text.now) }
{
    match command_of(text)? {
        Command::Get(key) => Some(Call::Get(key)),
        Command::Insert(key, value) => Some(Call::Insert(key, value)),
        Command::Remove(key) => Some(Call::RemoveIf(key, Answering)),
        Command::Update(key) => Some(Call::Compute(key, Answering)),
        Command::Clear => Some(Call::Clear),
        Command::Walk => Some(Call::Walk),
        Command::Len | Command::Slots => None,
    }
}

/// The verb of a line.
enum Verb {
    Begin,
    Step,
    Refuse,
    Finish,
}

/// Returns the verb of this word.
fn verb_of(word: &[u8]) -> Option<Verb>
    ensures { MatchOption result ((verb : Verb) → word.now ≢ verb_word verb)
        (λ verb. word.now ≡ verb_word verb) }
{
    match word {
        b"begin" => Some(Verb::Begin),
        b"step" => Some(Verb::Step),
        b"refuse" => Some(Verb::Refuse),
        b"finish" => Some(Verb::Finish),
        _ => None,
    }
}

/// Returns the turn of a line, or `None` if the line is bad. An empty line has no turn: a script
/// skips it.
pub fn turn_of(line: &[u8]) -> Option<Turn<u64, u64, Answering>>
    ensures { MatchOption result ((turn : Turn ℕ ℕ Answering) → ¬ (WritesTurn line.now turn))
        (WritesTurn line.now) }
{
    let (verb, rest) = parted(line)?;
    match verb_of(verb)? {
        Verb::Begin => {
            let (caller, call) = parted(rest)?;
            Some(Turn::Begin(caller_of(caller)?, call_of(call)?))
        }
        Verb::Step => Some(Turn::Step(caller_of(rest)?, false)),
        Verb::Refuse => Some(Turn::Step(caller_of(rest)?, true)),
        Verb::Finish => Some(Turn::Finish(caller_of(rest)?, MOST_STEPS)),
    }
}
