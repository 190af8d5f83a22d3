//! The facts on which a call that resizes the map relies, all of the words alone. No exchange
//! undoes them. The functions have empty bodies; their contracts are the laws.
ghost use Rattle.std.specs.Prelude.{◌≡◌, ℕ, List, None, Option, Some};
ghost use Rattle.papaya_words.specs.declared.refused.Refused.{Refused};
ghost use Rattle.papaya_words.specs.declared.resize_mode.ResizeMode.{ResizeMode};
ghost use Rattle.papaya_call.specs.declared.ask.Answer.TheVariants.{Exchanged};
ghost use Rattle.papaya_call.specs.declared.call.Reply.TheVariants.{Refused as Reply_refused};
ghost use Rattle.papaya_call.specs.declared.copy_ask.CopyAsk.TheVariants.{Exchange as Copy_exchange};
ghost use Rattle.papaya_words_law.specs.Allows.{AllAllowed, Allows};
ghost use Rattle.papaya_words_law.specs.Class.{IsOn};
ghost use Rattle.papaya_words_law.specs.Code.{Coding, IsHashed};
ghost use Rattle.papaya_words_law.specs.Exchange.{Setting, State, Exchange, after as state_after, run};
ghost use Rattle.papaya_words_law.specs.Grows.{Agrees};
ghost use Rattle.papaya_words_law.specs.Hints.{IsHint};
ghost use Rattle.papaya_words_law.specs.Invariant.{IsKeeping};
ghost use Rattle.papaya_call_law.specs.Copier.{AreThere, HasWords};
ghost use Rattle.papaya_call_law.specs.Relies.{IsCutAs, IsModeOf};
ghost use Rattle.papaya_call_law.specs.TrueAnswers.{IsWritten, word_of};
ghost use Rattle.papaya_call.specs.Resizer.{after, ask_of, begun, reply_of};
ghost use Rattle.papaya_call_law.specs.Resizers.{IsResizeCause, IsStageAsked, IsTrueOfStage};
ghost use Rattle.papaya_call_law.specs.Resizers.{ReliesResizer, link_of};
ghost use Rattle.papaya_call_law.specs.ChainAnswers.{LoadedPairs};

use papaya_call::ask::At;
use papaya_call::chain::ask::Answer;
use papaya_call::chain::resizer::{Resize, Resizer};
use papaya_call::copy_ask::CopyAsk;

/// States that a resizer relies on nothing when it begins. The facts on which it relies later stay
/// true, whatever others exchange and whichever tables are made.
pub fn resizers_rely<K, P>()
    ensures begins { (g : Setting K P) (c : Coding K P) (s : State P) (loaded : LoadedPairs P)
        (resize : Resize) (mode : ResizeMode) (initial number : ℕ) → IsModeOf mode g.blocking
        → IsCutAs mode g.chunk_of → ReliesResizer g c s (begun resize mode initial number) loaded }
    ensures exchanges { (g : Setting K P) (c : Coding K P) → IsHashed g c
        → (s : State P) (m : K → Option P) → IsKeeping g s m → (es : List (Exchange P))
        → AllAllowed g s es → (resizer : Resizer) (loaded : LoadedPairs P)
        → ReliesResizer g c s resizer loaded → ReliesResizer g c (run es s) resizer loaded }
    ensures tables { (g g' : Setting K P) (c : Coding K P) (s : State P) (m : K → Option P)
        → IsKeeping g s m → Agrees (IsOn s.first s.next) g g'
        → (resizer : Resizer) (loaded : LoadedPairs P)
        → ReliesResizer g c s resizer loaded → ReliesResizer g' c s resizer loaded }
{}

/// States that a resizer names only what is there. Its exchange that finds its old word is allowed
/// and writes only its word. A hint that it writes may be there. After a true answer the facts on
/// which it relies hold again, and its exchange was allowed. It is refused for one of three
/// reasons: a table was refused, the next one would be longer than a table may be, or no table has
/// the room asked for. A table that is linked must have as many words for chunks as the ask said.
pub fn resizers_go_on<K, P>()
    ensures names { (g : Setting K P) (c : Coding K P) → IsHashed g c
        → (s : State P) (m : K → Option P) → IsKeeping g s m
        → (resizer : Resizer) (loaded : LoadedPairs P)
        → ReliesResizer g c s resizer loaded → (ask : CopyAsk) → ask_of resizer ≡ Some ask
        → AreThere g c s loaded.call.last loaded.kept ask }
    ensures guarantee { (g : Setting K P) (c : Coding K P) → IsHashed g c
        → (s : State P) (m : K → Option P) → IsKeeping g s m
        → (resizer : Resizer) (loaded : LoadedPairs P)
        → ReliesResizer g c s resizer loaded → HasWords g (link_of resizer.state)
        → (at : At) (old new : ℕ)
        → ask_of resizer ≡ Some (Copy_exchange at old new) → word_of g c s at ≡ old
        → (e : Exchange P) × IsStageAsked g c s resizer.state at new loaded e
        × Allows g s e × IsWritten g c s at new (state_after s e) }
    ensures guarantees_hint { (g : Setting K P) (c : Coding K P) → IsHashed g c
        → (s : State P) (m : K → Option P) → IsKeeping g s m
        → (resizer : Resizer) (loaded : LoadedPairs P)
        → ReliesResizer g c s resizer loaded → (t x n : ℕ)
        → ask_of resizer ≡ Some (CopyAsk.WriteHint t x n) → IsHint g c s t x n }
    ensures learns { (g : Setting K P) (c : Coding K P) → IsHashed g c
        → (s : State P) (m : K → Option P) → IsKeeping g s m
        → (resizer : Resizer) (loaded : LoadedPairs P)
        → ReliesResizer g c s resizer loaded → (answer : Answer)
        → (answer ≡ Answer.Call Exchanged → HasWords g (link_of resizer.state))
        → (es : List (Exchange P)) (loaded' : LoadedPairs P)
        → IsTrueOfStage g c s resizer.state loaded answer es loaded'
        → AllAllowed g s es × ReliesResizer g c (run es s) (after resizer answer) loaded' }
    ensures refusals { (g : Setting K P) (c : Coding K P) (s : State P) (resizer : Resizer)
        (loaded : LoadedPairs P) → ReliesResizer g c s resizer loaded
        → (answer : Answer) (es : List (Exchange P)) (loaded' : LoadedPairs P)
        → IsTrueOfStage g c s resizer.state loaded answer es loaded' → (refused : Refused)
        → reply_of (after resizer answer) ≡ Some (Reply_refused refused)
        → IsResizeCause resizer answer refused }
{}
