//! A call whose words nobody else changes.
//!
//! The functions have empty bodies. Their contracts are laws, for backends with one caller.
ghost use Rattle.std.specs.Prelude.{◌≡◌, ℕ, ◌<◌};
ghost use Rattle.papaya_call_law.specs.Alone.{HasMetNone, IsCurrent, IsPrompt, IsSeeker, IsUnmatched, left};
ghost use Rattle.papaya_call.specs.Machine.{IsLookup, after, ask_of};
ghost use Rattle.papaya_call.specs.declared.call.Reply.TheVariants.{Absent};

use papaya_call::ask::{Answer, Ask, At};
use papaya_call::call::Reply;
use papaya_call::machine::Machine;

/// States that each answer brings a call nearer to its end, while no table has a next one. The
/// words that the call has read have not changed, so no exchange fails.
pub fn calls_end()
    ensures nearer { (words words' : At → ℕ) (m : Machine) (answer : Answer)
        → IsCurrent words m → ((t : ℕ) → words (At.Next t) ≡ 0)
        → IsPrompt m.task words (ask_of m) answer words' → left (after m answer) < left m }
    ensures current { (words words' : At → ℕ) (m : Machine) (answer : Answer)
        → IsCurrent words m → IsPrompt m.task words (ask_of m) answer words'
        → IsCurrent words' (after m answer) }
    ensures single { (words words' : At → ℕ) (m : Machine) (answer : Answer)
        → ((t : ℕ) → words (At.Next t) ≡ 0) → IsPrompt m.task words (ask_of m) answer words'
        → (t : ℕ) → words' (At.Next t) ≡ 0 }
{}

/// States that a call that looks for its key and meets no pair with it only loads, and finds
/// nothing.
pub fn unmatched_keys_are_absent()
    ensures goes_on { (m : Machine) (answer : Answer) → IsSeeker m.task → HasMetNone m.state
        → IsUnmatched (ask_of m) answer → HasMetNone (after m answer).state }
    ensures asks { (m : Machine) → HasMetNone m.state → IsLookup (ask_of m) }
    ensures replies { (m : Machine) (reply : Reply) → HasMetNone m.state → ask_of m ≡ Ask.Done reply
        → reply ≡ Absent }
{}
