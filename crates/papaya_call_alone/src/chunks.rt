//! How many copies of a chunk end a resize without blocking, if there is no other caller. The
//! function has an empty body; its contract is the law.
ghost use Rattle.std.specs.Prelude.{◌≡◌, ℕ, ◌+◌, ◌-◌, ◌/◌, ◌<◌, List, Option, Some};
ghost use Rattle.papaya_words.specs.declared.resize_mode.ResizeMode.TheVariants.{Incremental};
ghost use Rattle.papaya_call.specs.declared.call.Reply.TheVariants.{Done as Reply_done};
ghost use Rattle.papaya_words_law.specs.Code.{Coding, IsHashed};
ghost use Rattle.papaya_words_law.specs.Exchange.{Setting, State, Exchange, run};
ghost use Rattle.papaya_words_law.specs.Invariant.{IsKeeping};
ghost use Rattle.papaya_call_law.specs.Copier.{HasWords};
ghost use Rattle.papaya_call_law.specs.TrueAnswers.{word_of};
ghost use Rattle.papaya_call.specs.declared.chain.resizer.Resize.TheVariants.{Chunk};
ghost use Rattle.papaya_call.specs.Resizer.{after, begun, reply_of};
ghost use Rattle.papaya_call_law.specs.Resizers.{IsTrueOfStage, ReliesResizer, link_of};
ghost use Rattle.papaya_call_law.specs.ChainAnswers.{LoadedPairs};
ghost use Rattle.papaya_call_alone.specs.Chunks.{AllFallShort, AllLeaveRoot, HasCopied, IsDue};
ghost use Rattle.papaya_call_alone.specs.Chunks.{WillCopy, chunks_of};
ghost use Rattle.papaya_call_alone.specs.Prompt.{IsBounded};
ghost use Rattle.papaya_call_alone.specs.Resizers.{IsResizerRead};

use papaya_call::ask::At;
use papaya_call::chain::ask::Answer;
use papaya_call::chain::resizer::Resizer;

/// States that a copy of a chunk that is not refused ends the pending resize, or copies one more
/// chunk and leaves one that is not copied. So at most as many copies as the root has chunks end
/// the resize: its slots divided by those of a chunk, rounded up.
pub fn alone_chunks<K, P>()
    ensures begins { (words : At → ℕ) (size : ℕ → ℕ) (from to slots due initial number : ℕ)
        → IsDue words from to (chunks_of (size from) slots) due
        → WillCopy words size from to slots due (begun Chunk (Incremental slots) initial number) }
    ensures goes_on { (g : Setting K P) (c : Coding K P) → IsHashed g c
        → (s : State P) (m : K → Option P) → IsKeeping g s m → IsBounded g s
        → (resizer : Resizer) (loaded : LoadedPairs P) → ReliesResizer g c s resizer loaded
        → HasWords g (link_of resizer.state)
        → IsResizerRead (word_of g c s) resizer → (from to slots due : ℕ)
        → WillCopy (word_of g c s) g.size from to slots due resizer
        → (answer : Answer) (es : List (Exchange P)) (loaded' : LoadedPairs P)
        → IsTrueOfStage g c s resizer.state loaded answer es loaded'
        → WillCopy (word_of g c (run es s)) g.size from to slots due (after resizer answer) }
    ensures ends { (words : At → ℕ) (size : ℕ → ℕ) (from to slots due : ℕ) (resizer : Resizer)
        → WillCopy words size from to slots due resizer → reply_of resizer ≡ Some Reply_done
        → HasCopied words from to (chunks_of (size from) slots) due }
    ensures rounded_up { (len slots : ℕ) → 0 < len → 0 < slots
        → chunks_of len slots ≡ (len + (slots - 1)) / slots }
    ensures fewer { (left : ℕ → ℕ) (copies : ℕ) → 0 < left 0 → AllFallShort left copies
        → copies < left 0 }
    ensures at_most { (words : ℕ → At → ℕ) (size : ℕ → ℕ) (from to slots copies : ℕ)
        → AllLeaveRoot words from to (chunks_of (size from) slots) copies
        → copies < chunks_of (size from) slots }
{}
