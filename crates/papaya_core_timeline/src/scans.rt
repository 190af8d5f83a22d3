//! How a call that scans a table affects the words and the facts on which all calls rely. The
//! functions have empty bodies; their contracts are the laws.
ghost use Rattle.std.specs.Prelude.{◌≡◌, ◌⊎◌, ℕ, ◌<◌, IsSome, List, [], None, Some, Option, Bool};
ghost use Rattle.papaya_call.specs.declared.call.Reply.{Reply};
ghost use Rattle.papaya_call.specs.declared.call.Reply.TheVariants.{Done as Reply_done};
ghost use Rattle.papaya_words_keys.specs.Hashes.{hash_of};
ghost use Rattle.papaya_words_law.specs.Exchange.{Exchange};
ghost use Rattle.papaya_core_store.specs.Store.{StoreState, Stored};
ghost use Rattle.papaya_core_store.specs.Tables.{word_at};
ghost use Rattle.papaya_core_timeline.specs.declared.trace.Event.{Event};
ghost use Rattle.papaya_core_timeline.specs.Core.{CoreState, IsCore, work_of};
ghost use Rattle.papaya_core_timeline.specs.Ends.{budget_of};
ghost use Rattle.papaya_core_timeline.specs.Kept.{CallTrace, HasAnswers, IsConsistent, IsScanning, ScanTrace};
ghost use Rattle.papaya_core_timeline.specs.Runs.{Steps};
ghost use Rattle.papaya_call.specs.Scanner.{IsValidScanner, after, ask_of, begun, reply_of};
ghost use Rattle.papaya_call.specs.ChainMachine.{IsFit};
ghost use Rattle.papaya_call_alone.specs.Scanners.{IsScannerRead, scanner_measure};
ghost use Rattle.papaya_call_law.specs.ScanAnswers.{nothing_loaded};
ghost use Rattle.papaya_core_store.specs.Scans.{PerformsScan};
ghost use Rattle.papaya_core_timeline.specs.Scans.{HasScannedIn, IsScanAnswered, IsListRefused};
ghost use Rattle.papaya_core_timeline.specs.Scans.{IsCountedBeside, MovesScan, StaysBeside};

use papaya_call::answers::Answers;
use papaya_call::chain::ask::{Answer, ScanAsk};
use papaya_call::chain::scanner::Scan;
use papaya_core_store::scans::Scanning;
use std::hash::{BuildHasher, Hash};

/// States that a scanner can run beside any number of callers. The facts on which it relies stay
/// true from its begin on, whatever the others do; and so do the facts on which they rely, whatever
/// it does.
pub fn scans_keep<K: Hash + Eq, V, S: BuildHasher, A: Answers<K, V>>()
    ensures begins { (s : CoreState K V S A) → IsCore s.store s.callers s.mode
        → (es : List (Exchange (Stored K V))) (scan : Scan) (initial number : ℕ)
        (v : Scanning A) → v.scanner ≡ begun scan s.mode.resize initial number
        → HasAnswers scan v.answers
        → v.given ≡ [] → IsScanning K.eq
        (hash_of K.hash_input S.build_hasher S.Hasher.write S.Hasher.finish s.store.hasher)
        s.mode s.store v es (record { begun = es; since = []; loaded = nothing_loaded }) }
    ensures steps { (refuse : Bool) (s : CoreState K V S A)
        → IsCore s.store s.callers s.mode → (caller : ℕ) → work_of s caller ≡ None
        → (es : List (Exchange (Stored K V))) (call_traces : ℕ → CallTrace K V) → IsConsistent K.eq
        (hash_of K.hash_input S.build_hasher S.Hasher.write S.Hasher.finish s.store.hasher)
        s.mode s.store s.callers es call_traces → (v : Scanning A) (call_trace : ScanTrace K V)
        → IsScanning K.eq
        (hash_of K.hash_input S.build_hasher S.Hasher.write S.Hasher.finish s.store.hasher)
        s.mode s.store v es call_trace → (ask : ScanAsk) → ask_of v.scanner ≡ Some ask
        → (a : Answer) (store' : StoreState K V S) (v' : Scanning A)
        → PerformsScan K.eq (record { op = A.op_gives; yes = A.yes_gives })
        (hash_of K.hash_input S.build_hasher S.Hasher.write S.Hasher.finish) refuse ask s.store v a
        store' v' → IsListRefused s.store v a store' ⊎ IsScanAnswered K.eq
        (hash_of K.hash_input S.build_hasher S.Hasher.write S.Hasher.finish s.store.hasher) s
        caller es call_traces v call_trace a store' v' }
    ensures stands { (refuse : Bool) (s : CoreState K V S A) → IsCore s.store s.callers s.mode
        → (v : Scanning A) → IsValidScanner v.scanner → (ask : ScanAsk)
        → ask_of v.scanner ≡ Some ask → (a : Answer) (store' : StoreState K V S)
        (v' : Scanning A) → PerformsScan K.eq (record { op = A.op_gives; yes = A.yes_gives })
        (hash_of K.hash_input S.build_hasher S.Hasher.write S.Hasher.finish) refuse ask s.store v a
        store' v' → IsCore store' s.callers s.mode × IsFit a
        × IsValidScanner (after v.scanner a) }
    ensures asks { (s : CoreState K V S A) (es : List (Exchange (Stored K V))) (v : Scanning A)
        (call_trace : ScanTrace K V) → IsScanning K.eq
        (hash_of K.hash_input S.build_hasher S.Hasher.write S.Hasher.finish s.store.hasher)
        s.mode s.store v es call_trace → reply_of v.scanner ≡ None → IsSome (ask_of v.scanner) }
    ensures over { (s : CoreState K V S A) (es : List (Exchange (Stored K V))) (v : Scanning A)
        (call_trace : ScanTrace K V) → IsScanning K.eq
        (hash_of K.hash_input S.build_hasher S.Hasher.write S.Hasher.finish s.store.hasher)
        s.mode s.store v es call_trace → reply_of v.scanner ≡ Some Reply_done
        → HasScannedIn K.eq
        (hash_of K.hash_input S.build_hasher S.Hasher.write S.Hasher.finish s.store.hasher)
        s.mode s.store v call_trace }
    ensures beside { (refuse : Bool) (s : CoreState K V S A)
        → IsCore s.store s.callers s.mode → (es : List (Exchange (Stored K V)))
        (call_traces : ℕ → CallTrace K V) → IsConsistent K.eq
        (hash_of K.hash_input S.build_hasher S.Hasher.write S.Hasher.finish s.store.hasher)
        s.mode s.store s.callers es call_traces → (v : Scanning A) (call_trace : ScanTrace K V)
        → IsScanning K.eq
        (hash_of K.hash_input S.build_hasher S.Hasher.write S.Hasher.finish s.store.hasher)
        s.mode s.store v es call_trace → (caller : ℕ) (s' : CoreState K V S A) (event : Event)
        (reply : Option Reply) → Steps K.eq (record { op = A.op_gives; yes = A.yes_gives })
        (hash_of K.hash_input S.build_hasher S.Hasher.write S.Hasher.finish) refuse s caller s'
        event reply → StaysBeside K.eq
        (hash_of K.hash_input S.build_hasher S.Hasher.write S.Hasher.finish s.store.hasher) s' es v
        call_trace }
{}

/// States that a scanner's step leaves the map as it is, or takes one pair out, and an iteration
/// takes none. A retain takes out only pairs for which its closure last returned `false`. The
/// count, with what the scanner and all callers have yet to add, is always the number of pairs.
pub fn scans_move<K: Hash + Eq, V, S: BuildHasher, A>()
    ensures moves { (s : CoreState K V S A) → IsCore s.store s.callers s.mode
        → (es : List (Exchange (Stored K V))) (call_traces : ℕ → CallTrace K V) → IsConsistent K.eq
        (hash_of K.hash_input S.build_hasher S.Hasher.write S.Hasher.finish s.store.hasher)
        s.mode s.store s.callers es call_traces → (v : Scanning A) (call_trace : ScanTrace K V)
        → IsScanning K.eq
        (hash_of K.hash_input S.build_hasher S.Hasher.write S.Hasher.finish s.store.hasher)
        s.mode s.store v es call_trace → (caller : ℕ) (a : Answer) (store' : StoreState K V S)
        (v' : Scanning A) → IsScanAnswered K.eq
        (hash_of K.hash_input S.build_hasher S.Hasher.write S.Hasher.finish s.store.hasher) s
        caller es call_traces v call_trace a store' v' → IsCore store' s.callers s.mode
        → MovesScan K.eq s.store store' v.scanner.scan call_trace.loaded.shown }
    ensures counted { (s : CoreState K V S A) → IsCore s.store s.callers s.mode
        → (es : List (Exchange (Stored K V))) (call_traces : ℕ → CallTrace K V) → IsConsistent K.eq
        (hash_of K.hash_input S.build_hasher S.Hasher.write S.Hasher.finish s.store.hasher)
        s.mode s.store s.callers es call_traces → (v : Scanning A) (call_trace : ScanTrace K V)
        → IsScanning K.eq
        (hash_of K.hash_input S.build_hasher S.Hasher.write S.Hasher.finish s.store.hasher)
        s.mode s.store v es call_trace → (caller : ℕ) (a : Answer) (store' : StoreState K V S)
        (v' : Scanning A) → IsScanAnswered K.eq
        (hash_of K.hash_input S.build_hasher S.Hasher.write S.Hasher.finish s.store.hasher) s
        caller es call_traces v call_trace a store' v' → IsCore store' s.callers s.mode
        → IsCountedBeside K.eq s.store s.callers v.scanner.state
        → IsCountedBeside K.eq store' s.callers (after v.scanner a).state }
{}

/// States that each step of a scanner brings it nearer to its end, by a measure of the words, if
/// nobody else changes them. The words that it has read have not changed. So a single caller may
/// step it until it replies.
pub fn scans_end<K: Hash + Eq, V, S: BuildHasher, A: Answers<K, V>>()
    ensures { (refuse : Bool) (s : CoreState K V S A) → IsCore s.store s.callers s.mode
        → (es : List (Exchange (Stored K V))) (call_traces : ℕ → CallTrace K V) → IsConsistent K.eq
        (hash_of K.hash_input S.build_hasher S.Hasher.write S.Hasher.finish s.store.hasher)
        s.mode s.store s.callers es call_traces → (v : Scanning A) (call_trace : ScanTrace K V)
        → IsScanning K.eq
        (hash_of K.hash_input S.build_hasher S.Hasher.write S.Hasher.finish s.store.hasher)
        s.mode s.store v es call_trace → IsValidScanner v.scanner
        → IsScannerRead (word_at s.store.words) v.scanner
        → (ask : ScanAsk) → ask_of v.scanner ≡ Some ask → (a : Answer)
        (store' : StoreState K V S) (v' : Scanning A)
        → PerformsScan K.eq (record { op = A.op_gives; yes = A.yes_gives })
        (hash_of K.hash_input S.build_hasher S.Hasher.write S.Hasher.finish) refuse ask s.store v a
        store' v' → (caller : ℕ) → IsScanAnswered K.eq
        (hash_of K.hash_input S.build_hasher S.Hasher.write S.Hasher.finish s.store.hasher) s
        caller es call_traces v call_trace a store' v'
        → IsScannerRead (word_at store'.words) (after v.scanner a)
        × (scanner_measure (budget_of store') (word_at store'.words) (after v.scanner a)
        < scanner_measure (budget_of s.store) (word_at s.store.words) v.scanner) }
{}
