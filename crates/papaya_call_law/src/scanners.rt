//! The facts on which a call that scans a whole table relies. The functions have empty bodies;
//! their contracts are the laws.
ghost use Rattle.std.specs.Prelude.{◌≡◌, ◌++◌, ℕ, List, [], Option, Some};
ghost use Rattle.papaya_words.specs.declared.resize_mode.ResizeMode.{ResizeMode};
ghost use Rattle.papaya_words.specs.declared.refused.Refused.{Refused};
ghost use Rattle.papaya_call.specs.declared.ask.Answer.TheVariants.{Exchanged};
ghost use Rattle.papaya_call.specs.declared.ask.StepKind.TheVariants.{Bury};
ghost use Rattle.papaya_call.specs.declared.call.Reply.TheVariants.{Done, Refused as Reply_refused};
ghost use Rattle.papaya_call.specs.declared.copy_ask.CopyAsk.TheVariants.{Exchange as Ask_exchange, WriteHint};
ghost use Rattle.papaya_words_law.specs.Allows.{AllAllowed, Allows};
ghost use Rattle.papaya_words_law.specs.Class.{IsOn};
ghost use Rattle.papaya_words_law.specs.Code.{Coding, IsHashed};
ghost use Rattle.papaya_words_law.specs.Exchange.{Setting, State, Exchange, after as state_after, run};
ghost use Rattle.papaya_words_law.specs.Grows.{Agrees};
ghost use Rattle.papaya_words_law.specs.Hints.{IsHint};
ghost use Rattle.papaya_words_law.specs.Invariant.{IsKeeping};
ghost use Rattle.papaya_call_law.specs.Copier.{HasWords};
ghost use Rattle.papaya_call_law.specs.Relies.{IsCutAs, IsModeOf};
ghost use Rattle.papaya_call_law.specs.TrueAnswers.{IsWritten, word_of};
ghost use Rattle.papaya_call.specs.Scanner.{after, ask_of, begun, kind_of_ask, reply_of};
ghost use Rattle.papaya_call.specs.declared.chain.ask.ScanAsk.TheVariants.{Copy as Copy_ask};
ghost use Rattle.papaya_call_law.specs.ScanOutcomes.{HasDone, IsScanCause, IsAtRoot};
ghost use Rattle.papaya_call_law.specs.ScanAnswers.{IsTrueOfScan, LoadedPairs, nothing_loaded};
ghost use Rattle.papaya_call_law.specs.Scans.{HasCleared, HasRetained, HasWalked};
ghost use Rattle.papaya_call_law.specs.Scans.{IsNamed, IsScanAsked, ReliesScanner, link_in_scan};

use papaya_call::ask::At;
use papaya_call::chain::ask::{Answer, ScanAsk};
use papaya_call::chain::scanner::{Scan, Scanner};

/// States that a scanner relies on the words as they are when it begins. The facts on which it
/// relies stay true, whatever others exchange and whichever tables are made.
pub fn scanners_rely<K, P>()
    ensures begins { (g : Setting K P) (c : Coding K P) (s : State P) (m : K → Option P)
        (scan : Scan) (mode : ResizeMode) (initial number : ℕ) → IsModeOf mode g.blocking
        → IsCutAs mode g.chunk_of
        → ReliesScanner g c s m [] (begun scan mode initial number) nothing_loaded }
    ensures exchanges { (g : Setting K P) (c : Coding K P) → IsHashed g c
        → (s : State P) (m : K → Option P) → IsKeeping g s m → (since es : List (Exchange P))
        → AllAllowed g s (since ++ es) → (scanner : Scanner) (loaded : LoadedPairs P)
        → ReliesScanner g c s m since scanner loaded
        → ReliesScanner g c s m (since ++ es) scanner loaded }
    ensures tables { (g g' : Setting K P) (c : Coding K P) → IsHashed g c
        → (s : State P) (m : K → Option P) → IsKeeping g s m → (since : List (Exchange P))
        → AllAllowed g s since → Agrees (IsOn (run since s).first (run since s).next) g g'
        → (scanner : Scanner) (loaded : LoadedPairs P) → ReliesScanner g c s m since scanner loaded
        → ReliesScanner g' c s m since scanner loaded }
{}

/// States that a scanner names only what is there. Its exchange that finds its old word is allowed
/// and writes only its word: it is one of the copy, or deletes the pair in its slot. A hint that it
/// writes may be there. A table that is linked must have as many words for chunks as the ask said.
pub fn scanners_ask<K, P>()
    ensures names { (g : Setting K P) (c : Coding K P) → IsHashed g c
        → (s : State P) (m : K → Option P) → IsKeeping g s m → (since : List (Exchange P))
        → AllAllowed g s since → (scanner : Scanner) (loaded : LoadedPairs P)
        → ReliesScanner g c s m since scanner loaded → (ask : ScanAsk) → ask_of scanner ≡ Some ask
        → IsNamed g c s m since loaded ask }
    ensures guarantee { (g : Setting K P) (c : Coding K P) → IsHashed g c
        → (s : State P) (m : K → Option P) → IsKeeping g s m → (since : List (Exchange P))
        → AllAllowed g s since → (scanner : Scanner) (loaded : LoadedPairs P)
        → ReliesScanner g c s m since scanner loaded → HasWords g (link_in_scan scanner.state)
        → (at : At) (old new : ℕ)
        → ask_of scanner ≡ Some (Copy_ask (Ask_exchange at old new))
        → word_of g c (run since s) at ≡ old → (e : Exchange P)
        × IsScanAsked g c s m since scanner.scan scanner.state at new loaded e
        × Allows g (run since s) e
        × IsWritten g c (run since s) at new (state_after (run since s) e) }
    ensures guarantees_hint { (g : Setting K P) (c : Coding K P) → IsHashed g c
        → (s : State P) (m : K → Option P) → IsKeeping g s m → (since : List (Exchange P))
        → AllAllowed g s since → (scanner : Scanner) (loaded : LoadedPairs P)
        → ReliesScanner g c s m since scanner loaded → (t x n : ℕ)
        → ask_of scanner ≡ Some (Copy_ask (WriteHint t x n)) → IsHint g c (run since s) t x n }
{}

/// States that after a true answer the facts on which a scanner relies hold again, and its exchange
/// was allowed. A table that was linked must have as many words for chunks as the ask said.
pub fn scanners_learn<K, P>()
    ensures { (g : Setting K P) (c : Coding K P) → IsHashed g c
        → (s : State P) (m : K → Option P) → IsKeeping g s m → (since : List (Exchange P))
        → AllAllowed g s since → (scanner : Scanner) (loaded : LoadedPairs P)
        → ReliesScanner g c s m since scanner loaded → (answer : Answer)
        → (answer ≡ Answer.Call Exchanged → HasWords g (link_in_scan scanner.state))
        → (es : List (Exchange P)) (loaded' : LoadedPairs P)
        → IsTrueOfScan g c (run since s) since scanner.state loaded answer es loaded'
        → AllAllowed g s (since ++ es)
        × ReliesScanner g c s m (since ++ es) (after scanner answer) loaded' }
{}

/// States the effect of an answer to a scanner. An iteration changes no pair of the map. A clear
/// and a retain delete one pair at a time and take 1 from the count next; their other exchanges
/// change no pair. All three are refused only if a table is refused or would be too long.
pub fn scanners_do<K, P>()
    ensures changes { (g : Setting K P) (c : Coding K P) (s : State P) (m : K → Option P)
        (since : List (Exchange P)) (scanner : Scanner) (loaded : LoadedPairs P)
        → ReliesScanner g c s m since scanner loaded
        → (answer : Answer) (es : List (Exchange P)) (loaded' : LoadedPairs P)
        → IsTrueOfScan g c (run since s) since scanner.state loaded answer es loaded'
        → HasDone g scanner answer es }
    ensures refusals { (g : Setting K P) (c : Coding K P) (s : State P) (m : K → Option P)
        (since : List (Exchange P)) (scanner : Scanner) (loaded : LoadedPairs P)
        → ReliesScanner g c s m since scanner loaded
        → (answer : Answer) (es : List (Exchange P)) (loaded' : LoadedPairs P)
        → IsTrueOfScan g c (run since s) since scanner.state loaded answer es loaded'
        → (refused : Refused) → reply_of (after scanner answer) ≡ Some (Reply_refused refused)
        → IsScanCause scanner answer refused }
{}

/// States that while the root has no next table, and nobody else makes one, a scan copies nothing.
/// So no table is made for it and it is not refused.
pub fn scanners_undisturbed<K, P>()
    ensures begins { (s : State P) (scan : Scan) (mode : ResizeMode) (initial number : ℕ)
        → IsAtRoot s (begun scan mode initial number).state }
    ensures stable { (g : Setting K P) (c : Coding K P) (s : State P) (m : K → Option P)
        (since : List (Exchange P)) (scanner : Scanner) (loaded : LoadedPairs P)
        → ReliesScanner g c s m since scanner loaded
        → (run since s).next (run since s).root ≡ 0 → IsAtRoot (run since s) scanner.state
        → (answer : Answer) (es : List (Exchange P)) (loaded' : LoadedPairs P)
        → IsTrueOfScan g c (run since s) since scanner.state loaded answer es loaded'
        → ((run (since ++ es) s).next (run (since ++ es) s).root ≡ 0)
        × IsAtRoot (run (since ++ es) s) (after scanner answer).state }
    ensures unrefused { (s : State P) (scanner : Scanner) (refused : Refused)
        → IsAtRoot s scanner.state → reply_of scanner ≡ Some (Reply_refused refused) → ⊥ }
{}

/// States what a scan has done when it ends. An iteration has returned exactly once each key that
/// was in the map all the time, and nothing that was not there; it deletes no pair. A clear leaves
/// none of the pairs of the map as it began, and a retain those for which the closure last returned
/// `true`.
pub fn scanners_end<K, P>()
    ensures walked { (g : Setting K P) (c : Coding K P) (s : State P) (m : K → Option P)
        (since : List (Exchange P)) (scanner : Scanner) (loaded : LoadedPairs P)
        → ReliesScanner g c s m since scanner loaded → reply_of scanner ≡ Some Done
        → scanner.scan ≡ Scan.Walk → HasWalked g c s m since loaded }
    ensures cleared { (g : Setting K P) (c : Coding K P) (s : State P) (m : K → Option P)
        (since : List (Exchange P)) (scanner : Scanner) (loaded : LoadedPairs P)
        → ReliesScanner g c s m since scanner loaded → reply_of scanner ≡ Some Done
        → scanner.scan ≡ Scan.Clear → HasCleared g c s m since }
    ensures retained { (g : Setting K P) (c : Coding K P) (s : State P) (m : K → Option P)
        (since : List (Exchange P)) (scanner : Scanner) (loaded : LoadedPairs P)
        → ReliesScanner g c s m since scanner loaded → reply_of scanner ≡ Some Done
        → scanner.scan ≡ Scan.Retain → HasRetained g c s m since loaded }
    ensures leaves { (g : Setting K P) (c : Coding K P) (s : State P) (m : K → Option P)
        (since : List (Exchange P)) (scanner : Scanner) (loaded : LoadedPairs P)
        → ReliesScanner g c s m since scanner loaded → scanner.scan ≡ Scan.Walk
        → kind_of_ask scanner ≡ Some Bury → ⊥ }
{}
