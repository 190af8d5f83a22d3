//! Outcomes of calls.
ghost use Rattle.std.specs.Prelude.{◌≡◌};
ghost use Rattle.papaya_core_timeline.specs.Outcomes.{reply_told};

use papaya_call::call::Reply;

/// The outcome of a call, at its last step.
#[derive(Debug, PartialEq, Eq, Drop)]
pub enum Outcome {
    /// The call replied with this.
    Replied(Reply),
    /// The call was an iteration and is finished: the numbers of its pairs, in order.
    Walked(Vec<u64>),
}

impl Outcome {
    /// Returns the reply as a trace records it: for a finished iteration, [`Reply::Done`].
    pub fn reply(&self) -> Reply
        ensures { result ≡ reply_told self.now }
    {
        match self {
            Outcome::Replied(reply) => *reply,
            Outcome::Walked(_) => Reply::Done,
        }
    }
}
