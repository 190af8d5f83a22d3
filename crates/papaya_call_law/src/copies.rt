//! The facts on which a copier relies, while others exchange words between its asks.
//!
//! The machines of a resize ask and are answered as those of calls are. They rely only on facts of
//! the words that no exchange undoes, so these laws mention no list of exchanges and no point in
//! time. `last` is the pair that the copier was last given, `kept` the one that it carries. The
//! functions have empty bodies; their contracts are the laws.
ghost use Rattle.std.specs.Prelude.{◌≡◌, ℕ, ◌+◌, ◌<◌, List, Option, Some};
ghost use Rattle.papaya_words.specs.declared.refused.Refused.{Refused};
ghost use Rattle.papaya_words.specs.declared.resize_mode.ResizeMode.{ResizeMode};
ghost use Rattle.papaya_call.specs.declared.ask.At.{At};
ghost use Rattle.papaya_call.specs.declared.ask.StepKind.{StepKind};
ghost use Rattle.papaya_call.specs.declared.copy_ask.CopyAsk.TheVariants as asks;
ghost use Rattle.papaya_call.specs.declared.copy.copying.Aim.{Aim};
ghost use Rattle.papaya_call.specs.declared.copy.copying.Copying.{Copying};
ghost use Rattle.papaya_call.specs.declared.copy.copying.Copying.TheVariants as copyings;
ghost use Rattle.papaya_call.specs.declared.copy.step.Step.TheVariants as steps;
ghost use Rattle.papaya_call.specs.Copying.{at_count, at_exchanged, at_found, at_hash, at_made, at_ok, at_refused};
ghost use Rattle.papaya_call.specs.Copying.{at_size, at_word, at_yes, copying_ask, copying_follows, copying_kind};
ghost use Rattle.papaya_words_law.specs.Allows.{AllAllowed, Allows};
ghost use Rattle.papaya_words_law.specs.Class.{IsOn};
ghost use Rattle.papaya_words_law.specs.Code.{Coding, IsHashed};
ghost use Rattle.papaya_words_law.specs.Exchange.{Setting, State, Exchange, after, run};
ghost use Rattle.papaya_words_law.specs.Grows.{Agrees};
ghost use Rattle.papaya_words_law.specs.Hints.{IsHint};
ghost use Rattle.papaya_words_law.specs.Invariant.{IsKeeping};
ghost use Rattle.papaya_call_law.specs.Copier.{AreThere, HasWords, IsCopyAsked, ReliesAim, ReliesCopied, ReliesCopying};
ghost use Rattle.papaya_call_law.specs.Copier.{aim_of, last_after, link_in_copying, told_last};
ghost use Rattle.papaya_call_law.specs.Relies.{IsCutAs, IsModeOf};
ghost use Rattle.papaya_call_law.specs.TrueAnswers.{IsWritten, word_of};

/// States that a copier's facts stay true, whatever others exchange and whichever tables are made.
pub fn copiers_stable<K, P>()
    ensures exchanges { (g : Setting K P) (c : Coding K P) → IsHashed g c
        → (s : State P) (m : K → Option P) → IsKeeping g s m → (es : List (Exchange P))
        → AllAllowed g s es → (last kept : Option P) (copying : Copying)
        → ReliesCopying g c s last kept copying → ReliesCopying g c (run es s) last kept copying }
    ensures tables { (g g' : Setting K P) (c : Coding K P) (s : State P) (m : K → Option P)
        → IsKeeping g s m → Agrees (IsOn s.first s.next) g g'
        → (last kept : Option P) (copying : Copying) → ReliesCopying g c s last kept copying
        → ReliesCopying g' c s last kept copying }
{}

/// States that an exchange that finds its old word is one of the law, is allowed, and writes only
/// its word. A table that is linked was made with as many words for chunks as the ask said.
pub fn copiers_guarantee<K, P>()
    ensures guarantee { (g : Setting K P) (c : Coding K P) → IsHashed g c
        → (s : State P) (m : K → Option P) → IsKeeping g s m
        → (last kept : Option P) (copying : Copying) → ReliesCopying g c s last kept copying
        → HasWords g (link_in_copying copying) → (at : At) (old new : ℕ)
        → copying_ask copying ≡ asks.Exchange at old new
        → word_of g c s at ≡ old → (e : Exchange P)
        × IsCopyAsked c (copying_kind copying) at new s kept e × Allows g s e
        × IsWritten g c s at new (after s e) }
    ensures one { (c : Coding K P) (kind : Option StepKind) (at : At) (new : ℕ) (s : State P)
        (kept : Option P) (e e' : Exchange P) → IsCopyAsked c kind at new s kept e
        → IsCopyAsked c kind at new s kept e' → e ≡ e' }
{}

/// States that a hint that a copier writes may be there: it put a pair of that key into the slot,
/// or sealed it.
pub fn copiers_guarantee_hint<K, P>()
    ensures { (g : Setting K P) (c : Coding K P) → IsHashed g c → (s : State P) (m : K → Option P)
        → IsKeeping g s m → (mode : ResizeMode) → IsModeOf mode g.blocking
        → (last kept : Option P) (copying : Copying) → ReliesCopying g c s last kept copying
        → (t x n : ℕ) → copying_ask copying ≡ asks.WriteHint t x n → IsHint g c s t x n }
{}

/// States that a copier names only words of tables that were opened or linked, slots within them,
/// the pair that it was last given and the one that it carries.
pub fn copiers_name<K, P>()
    ensures { (g : Setting K P) (c : Coding K P) → IsHashed g c → (s : State P) (m : K → Option P)
        → IsKeeping g s m → (last kept : Option P) (copying : Copying)
        → ReliesCopying g c s last kept copying → AreThere g c s last kept (copying_ask copying) }
{}

/// States that after a true answer the facts on which a copier relies hold again, or it returns
/// where it ended: the table in which the call is to look for its key, or the root.
///
/// A load and an exchange are answered with the word that is there, and the load of a hint with any
/// that may be there. A copier that asks for a hash carries the pair that it was last given. A new
/// table gets a number above that of the table before. If it is linked, it has as many words for
/// chunks as the ask said.
pub fn copiers_learn<K, P>()
    ensures begins { (g : Setting K P) (c : Coding K P) (s : State P) (last kept : Option P)
        (aim : Aim) → ReliesAim g c s last kept aim
        → ReliesCopying g c s last kept (copyings.Stepping aim steps.AtRoot) }
    ensures load { (g : Setting K P) (c : Coding K P) → IsHashed g c
        → (s : State P) (m : K → Option P) → IsKeeping g s m → (mode : ResizeMode)
        → IsModeOf mode g.blocking → (last kept : Option P) (copying : Copying)
        → ReliesCopying g c s last kept copying → (at : At)
        → copying_ask copying ≡ asks.Load at → ReliesCopied g c s (told_last s at last) kept
        (aim_of copying) (at_word copying mode (word_of g c s at)) }
    ensures hint { (g : Setting K P) (c : Coding K P) → IsHashed g c
        → (s : State P) (m : K → Option P) → IsKeeping g s m → (mode : ResizeMode)
        → IsModeOf mode g.blocking → (last kept : Option P) (copying : Copying)
        → ReliesCopying g c s last kept copying → (t x : ℕ)
        → copying_ask copying ≡ asks.LoadHint t x → (n : ℕ) → IsHint g c s t x n
        → ReliesCopied g c s last kept (aim_of copying) (at_word copying mode n) }
    ensures noted { (g : Setting K P) (c : Coding K P) → IsHashed g c
        → (s : State P) (m : K → Option P) → IsKeeping g s m → (mode : ResizeMode)
        → IsModeOf mode g.blocking → (last kept : Option P) (copying : Copying)
        → ReliesCopying g c s last kept copying → (t x n : ℕ)
        → copying_ask copying ≡ asks.WriteHint t x n
        → ReliesCopied g c s last kept (aim_of copying) (at_ok copying mode) }
    ensures exchanged { (g : Setting K P) (c : Coding K P) → IsHashed g c
        → (s : State P) (m : K → Option P) → IsKeeping g s m → (mode : ResizeMode)
        → IsModeOf mode g.blocking → (last kept : Option P) (copying : Copying)
        → ReliesCopying g c s last kept copying → HasWords g (link_in_copying copying)
        → (at : At) (old new : ℕ) → copying_ask copying ≡ asks.Exchange at old new
        → word_of g c s at ≡ old → (e : Exchange P)
        → IsCopyAsked c (copying_kind copying) at new s kept e
        → ReliesCopied g c (after s e) (last_after e last) kept (aim_of copying)
        (at_exchanged copying mode) }
    ensures found { (g : Setting K P) (c : Coding K P) → IsHashed g c
        → (s : State P) (m : K → Option P) → IsKeeping g s m → (mode : ResizeMode)
        → IsModeOf mode g.blocking → (last kept : Option P) (copying : Copying)
        → ReliesCopying g c s last kept copying → (at : At) (old new : ℕ)
        → copying_ask copying ≡ asks.Exchange at old new → (word_of g c s at ≡ old → ⊥)
        → ReliesCopied g c s (told_last s at last) kept (aim_of copying)
        (at_found copying mode (word_of g c s at)) }
    ensures size { (g : Setting K P) (c : Coding K P) → IsHashed g c
        → (s : State P) (m : K → Option P) → IsKeeping g s m → (mode : ResizeMode)
        → IsModeOf mode g.blocking → IsCutAs mode g.chunk_of → (last kept : Option P)
        (copying : Copying) → ReliesCopying g c s last kept copying → (number t limit : ℕ)
        → copying_ask copying ≡ asks.SizeOf t → limit + 1 ≡ g.places t
        → (aim_of (at_size copying mode number (g.size t) limit) ≡ aim_of copying)
        × ReliesCopying g c s last kept (at_size copying mode number (g.size t) limit) }
    ensures hash { (g : Setting K P) (c : Coding K P) → IsHashed g c
        → (s : State P) (m : K → Option P) → IsKeeping g s m → (mode : ResizeMode)
        → IsModeOf mode g.blocking → (last kept : Option P) (copying : Copying)
        → ReliesCopying g c s last kept copying → (n : ℕ) → copying_ask copying ≡ asks.HashOf n
        → (q : P) → last ≡ Some q → (aim_of (at_hash copying (c.hash (g.key q))) ≡ aim_of copying)
        × ReliesCopying g c s last last (at_hash copying (c.hash (g.key q))) }
    ensures same { (g : Setting K P) (c : Coding K P) → IsHashed g c
        → (s : State P) (m : K → Option P) → IsKeeping g s m → (mode : ResizeMode)
        → IsModeOf mode g.blocking → (last kept : Option P) (copying : Copying)
        → ReliesCopying g c s last kept copying → (i n : ℕ)
        → copying_ask copying ≡ asks.SamePair i n → (p q : P) → kept ≡ Some p → last ≡ Some q
        → ReliesCopied g c s last kept (aim_of copying)
        (at_yes copying mode (g.same (g.key p) (g.key q))) }
    ensures count { (g : Setting K P) (c : Coding K P) → IsHashed g c
        → (s : State P) (m : K → Option P) → IsKeeping g s m → (mode : ResizeMode)
        → IsModeOf mode g.blocking → IsCutAs mode g.chunk_of → (last kept : Option P)
        (copying : Copying) → ReliesCopying g c s last kept copying → (count initial : ℕ)
        → ReliesCopied g c s last kept (aim_of copying) (at_count copying mode count initial) }
    ensures made { (g : Setting K P) (c : Coding K P) → IsHashed g c
        → (s : State P) (m : K → Option P) → IsKeeping g s m → (mode : ResizeMode)
        → IsModeOf mode g.blocking → (last kept : Option P) (copying : Copying)
        → ReliesCopying g c s last kept copying → (n : ℕ) → copying_follows copying < n
        → (aim_of (at_made copying n) ≡ aim_of copying)
        × ReliesCopying g c s last kept (at_made copying n) }
    ensures refused { (g : Setting K P) (c : Coding K P) → IsHashed g c
        → (s : State P) (m : K → Option P) → IsKeeping g s m → (mode : ResizeMode)
        → IsModeOf mode g.blocking → (last kept : Option P) (copying : Copying)
        → ReliesCopying g c s last kept copying → (refused : Refused)
        → ReliesCopied g c s last kept (aim_of copying) (at_refused copying mode refused) }
{}
