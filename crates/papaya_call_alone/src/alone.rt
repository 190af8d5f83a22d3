//! How an answer brings calls over a chain of tables, and copies, nearer to their end if there is
//! no other caller. The functions have empty bodies; their contracts are the laws.
ghost use Rattle.std.specs.Prelude.{◌≡◌, ◌⊎◌, ℕ, ◌<◌, ◌^◌, List, Option, Some, ◌++◌};
ghost use Rattle.papaya_words.specs.declared.resize_mode.ResizeMode.{ResizeMode};
ghost use Rattle.papaya_call.specs.declared.call.Reply.TheVariants.{Done as Reply_done};
ghost use Rattle.papaya_call.specs.declared.copy.copying.Copying.{Copying};
ghost use Rattle.papaya_call.specs.Copying.{copying_ask, copying_follows, copying_kind};
ghost use Rattle.papaya_words_law.specs.Allows.{AllAllowed};
ghost use Rattle.papaya_words_law.specs.Code.{Coding, IsHashed};
ghost use Rattle.papaya_words_law.specs.Exchange.{Setting, State, Exchange, run, start};
ghost use Rattle.papaya_words_law.specs.Invariant.{IsKeeping};
ghost use Rattle.papaya_call_law.specs.Copier.{HasWords, ReliesCopying, link_in_copying};
ghost use Rattle.papaya_call_law.specs.TrueAnswers.{word_of};
ghost use Rattle.papaya_call.specs.Resizer.{IsValidResizer, after as resizer_after};
ghost use Rattle.papaya_call.specs.Resizer.{ask_of as resizer_ask, begun, reply_of};
ghost use Rattle.papaya_call.specs.ChainMachine.{IsValid, after, ask_of, copying_after, follows_of, kind_of_ask, started};
ghost use Rattle.papaya_call_law.specs.Goes.{link_in};
ghost use Rattle.papaya_call_law.specs.Resizers.{IsTrueOfStage, ReliesResizer, link_of};
ghost use Rattle.papaya_call_law.specs.ChainRelies.{Relies};
ghost use Rattle.papaya_call_law.specs.ChainAnswers.{IsTrueOfCopy, IsTrueOf, LoadedPairs};
ghost use Rattle.papaya_call_alone.specs.Ahead.{IsCurrent};
ghost use Rattle.papaya_call_alone.specs.Budget.{Budget, IsSpent, Spends, SpendsCopy};
ghost use Rattle.papaya_call_alone.specs.Resizers.{HasResized, IsResizerRead, resizer_measure};
ghost use Rattle.papaya_call_alone.specs.Current.{IsCopiedRead, IsCopyingRead};
ghost use Rattle.papaya_call_alone.specs.Measure.{left_of_copied, left_of_copying};
ghost use Rattle.papaya_call_alone.specs.Prompt.{IsBounded, IsServedAsk};
ghost use Rattle.papaya_call_alone.specs.Rank.{measure};

use papaya_call::ask::At;
use papaya_call::call::Task;
use papaya_call::chain::ask::Answer;
use papaya_call::chain::machine::Machine;
use papaya_call::chain::resizer::{Resize, Resizer};
use papaya_call::copy_ask::CopyAsk;

/// States that each answer brings a copy nearer to its end: it spends some of the budget, or less
/// work is left. The words that the copy has read have not changed, so no exchange fails.
pub fn alone_copiers<K, P>()
    ensures nearer { (g : Setting K P) (c : Coding K P) → IsHashed g c
        → (s : State P) (m : K → Option P) → IsKeeping g s m → IsBounded g s
        → (mode : ResizeMode) (initial number : ℕ) (loaded : LoadedPairs P) (copying : Copying)
        → ReliesCopying g c s loaded.call.last loaded.kept copying
        → HasWords g (link_in_copying copying)
        → IsCopyingRead mode (word_of g c s) copying
        → (answer : Answer) (es : List (Exchange P)) (loaded' : LoadedPairs P)
        → IsTrueOfCopy g c s (copying_kind copying) (copying_follows copying) loaded
        (copying_ask copying) answer es loaded' → (before later : Budget)
        → SpendsCopy (copying_ask copying) answer before later
        → IsSpent before later ⊎ ((later ≡ before)
        × (left_of_copied (copying_after copying mode initial number answer)
        < left_of_copying copying)) }
    ensures current { (g : Setting K P) (c : Coding K P) → IsHashed g c
        → (s : State P) (m : K → Option P) → IsKeeping g s m → IsBounded g s
        → (mode : ResizeMode) (initial number : ℕ) (loaded : LoadedPairs P) (copying : Copying)
        → ReliesCopying g c s loaded.call.last loaded.kept copying
        → HasWords g (link_in_copying copying)
        → IsCopyingRead mode (word_of g c s) copying
        → (answer : Answer) (es : List (Exchange P)) (loaded' : LoadedPairs P)
        → IsTrueOfCopy g c s (copying_kind copying) (copying_follows copying) loaded
        (copying_ask copying) answer es loaded' → IsCopiedRead mode (word_of g c (run es s))
        (copying_after copying mode initial number answer) }
{}

/// States that each answer brings a call over a chain nearer to its end: its measure falls. The
/// words that the call has read have not changed, so no exchange fails. A budget counts how many
/// tables may still be made and words exchanged. Whatever the call asks for is made or refused, and
/// its closure returns.
pub fn alone_calls<K, P>()
    ensures begins { (words : At → ℕ) (task : Task) (hash : ℕ) (mode : ResizeMode)
        (initial number : ℕ) (limit : Option ℕ)
        → IsCurrent words (started task hash mode initial number limit) }
    ensures nearer { (g : Setting K P) (c : Coding K P) → IsHashed g c
        → (begun since : List (Exchange P)) → AllAllowed g start (begun ++ since)
        → IsBounded g (run (begun ++ since) start) → (k : K) (m : Machine) (loaded : LoadedPairs P)
        → Relies g c begun since k m loaded → HasWords g (link_in m.phase)
        → IsCurrent (word_of g c (run (begun ++ since) start)) m
        → (answer : Answer) (es : List (Exchange P)) (loaded' : LoadedPairs P)
        → IsTrueOf g c k (run (begun ++ since) start) (kind_of_ask m) (follows_of m) loaded (ask_of m)
        answer es loaded' → IsServedAsk m.call.task (ask_of m) answer → (before later : Budget)
        → Spends (kind_of_ask m) (ask_of m) answer before later → later.exchanges < 2 ^ 128
        → IsValid (after m answer)
        → measure later (run (begun ++ (since ++ es)) start).root (after m answer)
        < measure before (run (begun ++ since) start).root m }
    ensures current { (g : Setting K P) (c : Coding K P) → IsHashed g c
        → (begun since : List (Exchange P)) → AllAllowed g start (begun ++ since)
        → IsBounded g (run (begun ++ since) start) → (k : K) (m : Machine) (loaded : LoadedPairs P)
        → Relies g c begun since k m loaded → HasWords g (link_in m.phase)
        → IsCurrent (word_of g c (run (begun ++ since) start)) m
        → (answer : Answer) (es : List (Exchange P)) (loaded' : LoadedPairs P)
        → IsTrueOf g c k (run (begun ++ since) start) (kind_of_ask m) (follows_of m) loaded (ask_of m)
        answer es loaded' → IsServedAsk m.call.task (ask_of m) answer
        → IsCurrent (word_of g c (run (begun ++ (since ++ es)) start)) (after m answer) }
{}

/// States that each answer brings a resizer nearer to its end: its measure falls, and the words
/// that it has read have not changed. When it has ended, the resize that was wanted is finished.
pub fn alone_resizers<K, P>()
    ensures begins { (words : At → ℕ) (resize : Resize) (mode : ResizeMode)
        (initial number : ℕ) → IsResizerRead words (begun resize mode initial number) }
    ensures nearer { (g : Setting K P) (c : Coding K P) → IsHashed g c
        → (s : State P) (m : K → Option P) → IsKeeping g s m → IsBounded g s
        → (resizer : Resizer) (loaded : LoadedPairs P) → ReliesResizer g c s resizer loaded
        → HasWords g (link_of resizer.state)
        → IsResizerRead (word_of g c s) resizer
        → (answer : Answer) (es : List (Exchange P)) (loaded' : LoadedPairs P)
        → IsTrueOfStage g c s resizer.state loaded answer es loaded' → (ask : CopyAsk)
        → resizer_ask resizer ≡ Some ask → (before later : Budget)
        → SpendsCopy ask answer before later → later.exchanges < 2 ^ 128
        → IsValidResizer (resizer_after resizer answer)
        → resizer_measure later (run es s).root (resizer_after resizer answer)
        < resizer_measure before s.root resizer }
    ensures current { (g : Setting K P) (c : Coding K P) → IsHashed g c
        → (s : State P) (m : K → Option P) → IsKeeping g s m → IsBounded g s
        → (resizer : Resizer) (loaded : LoadedPairs P) → ReliesResizer g c s resizer loaded
        → HasWords g (link_of resizer.state)
        → IsResizerRead (word_of g c s) resizer
        → (answer : Answer) (es : List (Exchange P)) (loaded' : LoadedPairs P)
        → IsTrueOfStage g c s resizer.state loaded answer es loaded'
        → IsResizerRead (word_of g c (run es s)) (resizer_after resizer answer) }
    ensures ends { (g : Setting K P) (c : Coding K P) → IsHashed g c
        → (s : State P) (m : K → Option P) → IsKeeping g s m → IsBounded g s
        → (resizer : Resizer) (loaded : LoadedPairs P) → ReliesResizer g c s resizer loaded
        → IsResizerRead (word_of g c s) resizer
        → (answer : Answer) (es : List (Exchange P)) (loaded' : LoadedPairs P)
        → IsTrueOfStage g c s resizer.state loaded answer es loaded'
        → reply_of (resizer_after resizer answer) ≡ Some Reply_done
        → HasResized (word_of g c (run es s)) g.size answer resizer.resize }
{}
