//! Schedules, and the events of their runs.
use papaya_call::ask::{OpKind, StepKind};
use papaya_call::call::{Call, Reply};

/// A turn of a schedule.
#[derive(Debug, Drop)]
pub enum Turn<K, V, A> {
    /// This caller begins a call.
    Begin(usize, Call<K, V, A>),
    /// This caller makes a step. If the second field is true, memory runs out in that step.
    Step(usize, bool),
    /// This caller makes all steps that its call needs, with memory, and at most the second number.
    Finish(usize, usize),
}

/// An event of a run. Pairs are named by number.
#[derive(Clone, Copy, Debug, PartialEq)]
pub enum Event {
    /// A call began.
    Begun,
    /// An exchange changed the map: the pair taken out, and the pair put in.
    Changed(StepKind, Option<u64>, Option<u64>),
    /// An exchange left the map as it was.
    Moved(StepKind),
    /// The closure was called with a pair and returned this: of a removal whether it is removed, of
    /// a retain whether it stays.
    Asked(u64, bool),
    /// The closure of a call that may insert, remove or abort was called with a pair, or without
    /// one, and returned this.
    Shown(Option<u64>, OpKind),
    /// An iteration returned this pair.
    Gave(u64),
    /// A step changed no word, and called no closure.
    Other,
    /// The call replied.
    Replied(Reply),
}

/// An event of one caller.
#[derive(Clone, Copy, Debug, PartialEq)]
pub struct Entry {
    /// The index of the turn in the schedule.
    pub turn: usize,
    /// The caller whose turn it was.
    pub caller: usize,
    /// The event.
    pub event: Event,
}

/// The events of a run, in order. A begin has one entry. A step has one for its ask, and a second
/// if the call replied.
#[derive(Debug, Drop)]
pub struct Trace {
    /// The entries, the first one first.
    pub entries: Vec<Entry>,
}
