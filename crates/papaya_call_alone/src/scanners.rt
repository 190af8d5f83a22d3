//! How an answer brings a call that scans a table nearer to its end if there is no other caller.
//! The function has an empty body; its contract is the law.
ghost use Rattle.std.specs.Prelude.{◌≡◌, ℕ, ◌<◌, ◌^◌, List, Option, Some, ◌++◌};
ghost use Rattle.papaya_words.specs.declared.resize_mode.ResizeMode.{ResizeMode};
ghost use Rattle.papaya_words_law.specs.Allows.{AllAllowed};
ghost use Rattle.papaya_words_law.specs.Code.{Coding, IsHashed};
ghost use Rattle.papaya_words_law.specs.Exchange.{Setting, State, Exchange, run};
ghost use Rattle.papaya_words_law.specs.Invariant.{IsKeeping};
ghost use Rattle.papaya_call_law.specs.Copier.{HasWords};
ghost use Rattle.papaya_call_law.specs.TrueAnswers.{word_of};
ghost use Rattle.papaya_call_alone.specs.Budget.{Budget};
ghost use Rattle.papaya_call_alone.specs.Prompt.{IsBounded};
ghost use Rattle.papaya_call.specs.Scanner.{IsValidScanner, after, ask_of, begun};
ghost use Rattle.papaya_call_law.specs.ScanAnswers.{IsTrueOfScan, LoadedPairs};
ghost use Rattle.papaya_call_law.specs.Scans.{ReliesScanner, link_in_scan};
ghost use Rattle.papaya_call_alone.specs.Scanners.{IsScannerRead, SpendsScan, scanner_measure};

use papaya_call::ask::At;
use papaya_call::chain::ask::{Answer, ScanAsk};
use papaya_call::chain::scanner::{Scan, Scanner};

/// States that each answer brings a scanner nearer to its end: its measure falls. The words that it
/// has read have not changed, so no exchange fails. `scanners_end` states what holds when an
/// iteration, a clear or a retain ends.
pub fn alone_scanners<K, P>()
    ensures begins { (words : At → ℕ) (scan : Scan) (mode : ResizeMode)
        (initial number : ℕ) → IsScannerRead words (begun scan mode initial number) }
    ensures nearer { (g : Setting K P) (c : Coding K P) → IsHashed g c
        → (s : State P) (m : K → Option P) → IsKeeping g s m → (since : List (Exchange P))
        → AllAllowed g s since → IsBounded g (run since s)
        → (scanner : Scanner) (loaded : LoadedPairs P)
        → ReliesScanner g c s m since scanner loaded → HasWords g (link_in_scan scanner.state)
        → IsScannerRead (word_of g c (run since s)) scanner
        → (answer : Answer) (es : List (Exchange P)) (loaded' : LoadedPairs P)
        → IsTrueOfScan g c (run since s) since scanner.state loaded answer es loaded'
        → (ask : ScanAsk) → ask_of scanner ≡ Some ask → (before later : Budget)
        → SpendsScan ask answer before later → later.exchanges < 2 ^ 128
        → IsValidScanner (after scanner answer)
        → scanner_measure later (word_of g c (run (since ++ es) s)) (after scanner answer)
        < scanner_measure before (word_of g c (run since s)) scanner }
    ensures current { (g : Setting K P) (c : Coding K P) → IsHashed g c
        → (s : State P) (m : K → Option P) → IsKeeping g s m → (since : List (Exchange P))
        → AllAllowed g s since → IsBounded g (run since s)
        → (scanner : Scanner) (loaded : LoadedPairs P)
        → ReliesScanner g c s m since scanner loaded → HasWords g (link_in_scan scanner.state)
        → IsScannerRead (word_of g c (run since s)) scanner
        → (answer : Answer) (es : List (Exchange P)) (loaded' : LoadedPairs P)
        → IsTrueOfScan g c (run since s) since scanner.state loaded answer es loaded'
        → IsScannerRead (word_of g c (run (since ++ es) s)) (after scanner answer) }
{}
