//! How a call takes numbers for the pairs that it makes, in a map that limits them, if there is no
//! other caller. The function has an empty body; its contract is the law.
ghost use Rattle.std.specs.Prelude.{◌≡◌, ◌⊎◌, ℕ, ◌+◌, ◌<◌, ◌≤◌, Option, Some};
ghost use Rattle.papaya_words.specs.declared.resize_mode.ResizeMode.{ResizeMode};
ghost use Rattle.papaya_call.specs.declared.ask.StepKind.TheVariants.{Take};
ghost use Rattle.papaya_call.specs.ChainMachine.{after, ask_of, kind_of_ask, started};
ghost use Rattle.papaya_call_alone.specs.Ahead.{IsCurrent};
ghost use Rattle.papaya_call_alone.specs.Limits.{HasNumber, IsMakingPart, IsNumberTaken, IsPairMade};

use papaya_call::ask::{Answer as CallAnswer, Ask as CallAsk, At};
use papaya_call::call::{Reply, Task};
use papaya_call::chain::ask::{Answer, Ask};
use papaya_call::chain::machine::Machine;
use papaya_words::refused::Refused;

/// States that a call that is about to make a pair loads how many numbers were taken. If that is
/// the limit, the call ends refused. Below the limit it takes the next number, which is still free
/// because nobody else takes one. Then it continues, and stores something.
///
/// Each pair needs a number of its own. So a call stores nothing before it has taken a number, and
/// after it has stored a pair, nothing more before it has taken the next.
pub fn alone_limits()
    ensures full { (m : Machine) (most count : ℕ) → m.call.made.limit ≡ Some most
        → ask_of m ≡ Ask.Call (CallAsk.Load At.Made) → most ≤ count
        → ask_of (after m (Answer.Call (CallAnswer.Word count)))
        ≡ Ask.Call (CallAsk.Done (Reply.Refused Refused.Limit)) }
    ensures free { (m : Machine) (most count : ℕ) → m.call.made.limit ≡ Some most
        → ask_of m ≡ Ask.Call (CallAsk.Load At.Made) → count < most
        → ask_of (after m (Answer.Call (CallAnswer.Word count)))
        ≡ Ask.Call (CallAsk.Exchange At.Made count (count + 1)) }
    ensures takes { (words : At → ℕ) (m : Machine) (old new : ℕ) → IsCurrent words m
        → ask_of m ≡ Ask.Call (CallAsk.Exchange At.Made old new)
        → (words At.Made ≡ old) × (new ≡ old + 1) × (kind_of_ask m ≡ Some Take) }
    ensures goes_on { (m : Machine) (old new : ℕ)
        → ask_of m ≡ Ask.Call (CallAsk.Exchange At.Made old new)
        → IsMakingPart (ask_of (after m (Answer.Call CallAnswer.Exchanged))) }
    ensures begins { (task : Task) (hash : ℕ) (mode : ResizeMode) (initial number most : ℕ)
        → HasNumber (started task hash mode initial number (Some most)) → ⊥ }
    ensures stores { (m : Machine) → IsMakingPart (ask_of m) → HasNumber m }
    ensures each { (m : Machine) (answer : Answer) (most : ℕ) → m.call.made.limit ≡ Some most
        → HasNumber (after m answer) → IsNumberTaken (ask_of m) answer
        ⊎ (HasNumber m × (IsPairMade (ask_of m) answer → ⊥)) }
{}
