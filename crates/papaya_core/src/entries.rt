//! The entries of a trace.
ghost use Rattle.std.specs.Prelude.{◌≡◌, ◌+◌, ◌<◌, ◌≤◌, ◌∷◌, reverse, OnOk, IfErr, vec_len, vec_capacity};
ghost use Rattle.papaya_core_timeline.specs.Advances.{answered_event, call_event, copy_event, event_of, exchange_event, shown_event};
ghost use Rattle.papaya_core_timeline.specs.Outcomes.{as_reply};
ghost use Rattle.papaya_core_timeline.specs.Runs.{with_step};
ghost use Rattle.papaya_core_timeline.specs.ScanGoes.{event_of_scan};

use papaya_call::ask::{Answer as CallAnswer, Ask as CallAsk, StepKind};
use papaya_call::call::Reply;
use papaya_call::chain::ask::{Answer, Ask, ScanAsk};
use papaya_call::copy_ask::CopyAsk;
use papaya_core_timeline::outcome::Outcome;
use papaya_core_timeline::trace::{Entry, Event};
use papaya_words::refused::Refused;
use papaya_words::word::Word;

/// Returns the event of an exchange that was made.
fn exchange_event(kind: StepKind, old: u64, new: u64) -> Event
    ensures { result ≡ exchange_event kind old new }
{
    let (old, new) = (Word(old).pair(), Word(new).pair());
    match kind {
        StepKind::Claim => Event::Changed(kind, None, Some(new)),
        StepKind::Replace => Event::Changed(kind, Some(old), Some(new)),
        StepKind::Bury => Event::Changed(kind, Some(old), None),
        _ => Event::Moved(kind),
    }
}

/// Returns the event of an exchange that was asked for, which may have failed.
fn answered_event(kind: Option<StepKind>, old: u64, new: u64, answer: CallAnswer) -> Event
    ensures { result ≡ answered_event kind old new answer }
{
    match (answer, kind) {
        (CallAnswer::Exchanged, Some(kind)) => exchange_event(kind, old, new),
        _ => Event::Other,
    }
}

/// Returns the event of a call of a closure.
fn shown_event(shown: Option<u64>, answer: CallAnswer) -> Event
    ensures { result ≡ shown_event shown answer }
{
    match answer {
        CallAnswer::Op(kind) => Event::Shown(shown, kind),
        CallAnswer::Yes(agrees) => match shown {
            Some(pair) => Event::Asked(pair, agrees),
            None => Event::Other,
        },
        _ => Event::Other,
    }
}

/// Returns the event of an ask of the call itself, with its answer.
fn call_event(kind: Option<StepKind>, ask: CallAsk, answer: CallAnswer) -> Event
    ensures { result ≡ call_event kind ask answer }
{
    match ask {
        CallAsk::Exchange(_, old, new) => answered_event(kind, old, new, answer),
        CallAsk::ShowNone => shown_event(None, answer),
        CallAsk::ShowPair(pair) => shown_event(Some(pair), answer),
        _ => Event::Other,
    }
}

/// Returns the event of an ask while a table is made or copied. A copy calls no closure.
fn copy_event(kind: Option<StepKind>, ask: CopyAsk, answer: CallAnswer) -> Event
    ensures { result ≡ copy_event kind ask answer }
{
    match ask {
        CopyAsk::Exchange(_, old, new) => answered_event(kind, old, new, answer),
        _ => Event::Other,
    }
}

/// Returns the event of an ask, with its answer.
pub(crate) fn event_of(kind: Option<StepKind>, ask: Ask, answer: Answer) -> Event
    ensures { result ≡ event_of kind ask answer }
{
    match (ask, answer) {
        (Ask::Call(ask), Answer::Call(answer)) => call_event(kind, ask, answer),
        (Ask::Copy(ask), Answer::Call(answer)) => copy_event(kind, ask, answer),
        _ => Event::Other,
    }
}

/// Returns the event of an ask of a call that scans a table, with its answer.
pub(crate) fn event_of_scan(kind: Option<StepKind>, ask: ScanAsk, answer: Answer) -> Event
    ensures { result ≡ event_of_scan kind ask answer }
{
    let Answer::Call(answer) = answer else {
        return Event::Other;
    };
    match (ask, answer) {
        (ScanAsk::Copy(ask), answer) => copy_event(kind, ask, answer),
        (ScanAsk::Show(pair), answer) => shown_event(Some(pair), answer),
        (ScanAsk::Given(pair), CallAnswer::Ok) => Event::Gave(pair),
        _ => Event::Other,
    }
}

/// Makes room for `more` further entries.
pub(crate) fn reserve_entries(entries: &mut Vec<Entry>, more: usize) -> Result<(), Refused>
    ensures room { OnOk result (vec_len entries.new + more ≤ vec_capacity entries.new) }
    ensures err { IfErr result (λ e. e ≡ Refused.Memory) }
    ensures items { entries.new.items ≡ entries.old.items }
{
    match entries.reserve(more) {
        Ok(()) => Ok(()),
        Err(_) => Err(Refused::Memory),
    }
}

/// Adds an entry, for which there is room.
pub(crate) fn push_entry(entries: &mut Vec<Entry>, entry: Entry)
    requires { vec_len entries.old < vec_capacity entries.old }
    ensures newest { reverse entries.new.items ≡ entry ∷ reverse entries.old.items }
    ensures len { vec_len entries.new ≡ vec_len entries.old + 1 }
    ensures capacity { vec_capacity entries.old ≤ vec_capacity entries.new }
{
    let _ = entries.push(entry);
}

/// Adds the entries of a step, for which there is room.
pub(crate) fn push_step(
    entries: &mut Vec<Entry>,
    turn: usize,
    caller: usize,
    event: Event,
    reply: Option<Reply>,
)
    requires { vec_len entries.old + 2 ≤ vec_capacity entries.old }
    ensures { reverse entries.new.items ≡ with_step turn caller event reply
        (reverse entries.old.items) }
{
    push_entry(
        entries,
        Entry {
            turn,
            caller,
            event,
        },
    );
    if let Some(reply) = reply {
        let event = Event::Replied(reply);
        push_entry(
            entries,
            Entry {
                turn,
                caller,
                event,
            },
        );
    }
}

/// Returns the reply of a call, if it has ended.
pub(crate) fn reply_of(outcome: &Option<Outcome>) -> Option<Reply>
    ensures { result ≡ as_reply outcome.now }
{
    match outcome {
        Some(outcome) => Some(outcome.reply()),
        None => None,
    }
}
