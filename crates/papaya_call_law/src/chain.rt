//! The facts on which a call over a chain of tables relies. The functions have empty bodies; their
//! contracts are the laws.
ghost use Rattle.std.specs.Prelude.{◌≡◌, ◌⊎◌, ℕ, List, [], Option, ◌++◌};
ghost use Rattle.papaya_words.specs.declared.resize_mode.ResizeMode.{ResizeMode};
ghost use Rattle.papaya_call.specs.declared.ask.Answer.TheVariants.{Exchanged};
ghost use Rattle.papaya_call.specs.declared.copy_ask.CopyAsk.TheVariants.{Exchange as Copy_exchange};
ghost use Rattle.papaya_call.specs.Machine.{IsValid, ask_of as call_ask_of, kind_of_ask as call_kind};
ghost use Rattle.papaya_words_law.specs.Allows.{AllAllowed, Allows};
ghost use Rattle.papaya_words_law.specs.Class.{IsOn};
ghost use Rattle.papaya_words_law.specs.Code.{Coding, IsHashed};
ghost use Rattle.papaya_words_law.specs.Exchange.{Setting, Exchange, after as state_after, run, start};
ghost use Rattle.papaya_words_law.specs.Grows.{Agrees};
ghost use Rattle.papaya_words_law.specs.Hints.{IsHint};
ghost use Rattle.papaya_call_law.specs.Copier.{AreThere, HasWords, IsCopyAsked};
ghost use Rattle.papaya_call_law.specs.Relies.{IsCutAs, IsModeOf, Relies as CallRelies, change_in};
ghost use Rattle.papaya_call_law.specs.Says.{HasCalledNone, IsResultBy, ClosureResult, NamesPairs, ActsOn};
ghost use Rattle.papaya_call_law.specs.TrueAnswers.{IsWritten, word_of};
ghost use Rattle.papaya_call.specs.ChainMachine.{after, ask_of, follows_of, kind_of_ask, started};
ghost use Rattle.papaya_call_law.specs.Goes.{Goes, IsCause, IsOwnStep, change_by, grown_by, link_in, owed_in};
ghost use Rattle.papaya_call_law.specs.ChainRelies.{Relies};
ghost use Rattle.papaya_call_law.specs.ChainAnswers.{IsTrueOf, LoadedPairs, nothing_loaded};

use papaya_call::ask::{Answer as CallAnswer, Ask as CallAsk, At, OpKind};
use papaya_call::call::{Reply, Task};
use papaya_call::chain::ask::{Answer, Ask};
use papaya_call::chain::machine::Machine;
use papaya_call::copy_ask::CopyAsk;
use papaya_words::refused::Refused;

/// States that a call relies on the exchanges as they are when it begins.
pub fn begins<K, P>()
    ensures { (g : Setting K P) (c : Coding K P)
        → (begun : List (Exchange P)) (k : K) (task : Task) (mode : ResizeMode)
        (initial number : ℕ) (limit : Option ℕ) → IsModeOf mode g.blocking → limit ≡ g.most
        → IsCutAs mode g.chunk_of
        → Relies g c begun [] k (started task (c.hash k) mode initial number limit) nothing_loaded }
{}

/// States that a call's facts stay true, whatever others exchange and whichever tables are made.
pub fn stable<K, P>()
    ensures exchanges { (g : Setting K P) (c : Coding K P) → IsHashed g c
        → (begun since es : List (Exchange P)) → AllAllowed g start (begun ++ (since ++ es))
        → (k : K) (m : Machine) (loaded : LoadedPairs P) → Relies g c begun since k m loaded
        → Relies g c begun (since ++ es) k m loaded }
    ensures tables { (g g' : Setting K P) (c : Coding K P) → IsHashed g c → IsHashed g' c
        → (begun since : List (Exchange P)) → AllAllowed g start (begun ++ since)
        → Agrees (IsOn (run (begun ++ since) start).first (run (begun ++ since) start).next) g g'
        → (k : K) (m : Machine) (loaded : LoadedPairs P) → Relies g c begun since k m loaded
        → Relies g' c begun since k m loaded }
{}

/// States that an ask of the call itself relies on what calls rely on, so the laws of
/// `papaya_call_law` hold for it. An ask of a copy names only what is there.
pub fn names<K, P>()
    ensures calls { (g : Setting K P) (c : Coding K P) (begun since : List (Exchange P)) (k : K)
        (m : Machine) (loaded : LoadedPairs P) → Relies g c begun since k m loaded → (ask : CallAsk)
        → ask_of m ≡ Ask.Call ask → CallRelies g c begun since k m.call loaded.call
        × (call_ask_of m.call ≡ ask) × (kind_of_ask m ≡ call_kind m.call) }
    ensures copies { (g : Setting K P) (c : Coding K P) → IsHashed g c
        → (begun since : List (Exchange P)) → AllAllowed g start (begun ++ since) → (k : K)
        (m : Machine) (loaded : LoadedPairs P) → Relies g c begun since k m loaded → (ask : CopyAsk)
        → ask_of m ≡ Ask.Copy ask
        → AreThere g c (run (begun ++ since) start) loaded.call.last loaded.kept ask }
{}

/// States that an exchange of a copy that finds its old word is one of the law, is allowed, and
/// writes only its word. It never changes the map. It is a link, a mark, a sealed slot, a placed
/// copy, a finished slot, the word of a chunk, a new root or a table that is given up. A table that
/// is linked must have as many words for chunks as the ask said.
pub fn copies_guarantee<K, P>()
    ensures { (g : Setting K P) (c : Coding K P) → IsHashed g c → (begun since : List (Exchange P))
        → AllAllowed g start (begun ++ since) → (k : K) (m : Machine) (loaded : LoadedPairs P)
        → Relies g c begun since k m loaded → HasWords g (link_in m.phase) → (at : At) (old new : ℕ)
        → ask_of m ≡ Ask.Copy (Copy_exchange at old new)
        → word_of g c (run (begun ++ since) start) at ≡ old → (e : Exchange P)
        × IsCopyAsked c (kind_of_ask m) at new (run (begun ++ since) start) loaded.kept e
        × Allows g (run (begun ++ since) start) e × IsWritten g c (run (begun ++ since) start) at
        new (state_after (run (begun ++ since) start) e) }
{}

/// States that a hint that a copy writes may be there: a pair of its key was put into that slot, or
/// the slot was sealed.
pub fn copies_guarantee_hint<K, P>()
    ensures { (g : Setting K P) (c : Coding K P) → IsHashed g c → (begun since : List (Exchange P))
        → AllAllowed g start (begun ++ since) → (k : K) (m : Machine) (loaded : LoadedPairs P)
        → Relies g c begun since k m loaded → (t x n : ℕ)
        → ask_of m ≡ Ask.Copy (CopyAsk.WriteHint t x n)
        → IsHint g c (run (begun ++ since) start) t x n }
{}

/// States that after a true answer the facts on which the call relies hold again, and its exchange
/// was allowed. A table that was linked must have as many words for chunks as the ask said.
pub fn learns<K, P>()
    ensures { (g : Setting K P) (c : Coding K P) → IsHashed g c → (begun since : List (Exchange P))
        → AllAllowed g start (begun ++ since) → (k : K) (m : Machine) (loaded : LoadedPairs P)
        → Relies g c begun since k m loaded → (answer : Answer)
        → (answer ≡ Answer.Call Exchanged → HasWords g (link_in m.phase))
        → (es : List (Exchange P)) (loaded' : LoadedPairs P)
        → IsTrueOf g c k (run (begun ++ since) start)
        (kind_of_ask m) (follows_of m) loaded (ask_of m) answer es loaded'
        → AllAllowed g start (begun ++ (since ++ es))
        × Relies g c begun (since ++ es) k (after m answer) loaded' }
{}

/// States that an answer goes to the call itself, or to what the call waits for. Then the call
/// still waits, continues in a later table, begins again at the root, or ends refused. So a copy
/// changes no pair of the map, counts none and calls no closure.
pub fn goes<K, P>()
    ensures leaves { (g : Setting K P) (c : Coding K P) (begun since : List (Exchange P)) (k : K)
        (m : Machine) (loaded : LoadedPairs P) → Relies g c begun since k m loaded
        → (answer : Answer)
        (es : List (Exchange P)) (loaded' : LoadedPairs P)
        → IsTrueOf g c k (run (begun ++ since) start)
        (kind_of_ask m) (follows_of m) loaded (ask_of m) answer es loaded' → Goes m answer }
    ensures changes { (g : Setting K P) (c : Coding K P) → IsHashed g c
        → (begun since : List (Exchange P)) (k : K) (m : Machine) (loaded : LoadedPairs P)
        → Relies g c begun since k m loaded → (answer : Answer) (es : List (Exchange P))
        (loaded' : LoadedPairs P) → IsTrueOf g c k (run (begun ++ since) start) (kind_of_ask m)
        (follows_of m) loaded (ask_of m) answer es loaded' → change_in (after m answer).call.state
        ≡ change_by (kind_of_ask m) (ask_of m) answer (change_in m.call.state) }
    ensures counts { (g : Setting K P) (c : Coding K P) (begun since : List (Exchange P)) (k : K)
        (m : Machine) (loaded : LoadedPairs P) → Relies g c begun since k m loaded
        → (answer : Answer)
        (es : List (Exchange P)) (loaded' : LoadedPairs P)
        → IsTrueOf g c k (run (begun ++ since) start)
        (kind_of_ask m) (follows_of m) loaded (ask_of m) answer es loaded'
        → owed_in (ask_of (after m answer)) ≡ grown_by (kind_of_ask m) (ask_of m) answer }
    ensures task { (g : Setting K P) (c : Coding K P) (begun since : List (Exchange P)) (k : K)
        (m : Machine) (loaded : LoadedPairs P) → Relies g c begun since k m loaded
        → (answer : Answer)
        (es : List (Exchange P)) (loaded' : LoadedPairs P)
        → IsTrueOf g c k (run (begun ++ since) start)
        (kind_of_ask m) (follows_of m) loaded (ask_of m) answer es loaded'
        → ((after m answer).call.task ≡ m.call.task) × ((after m answer).call.hash ≡ m.call.hash) }
    ensures words { (g : Setting K P) (c : Coding K P) (begun since : List (Exchange P)) (k : K)
        (m : Machine) (loaded : LoadedPairs P) → Relies g c begun since k m loaded
        → (answer : Answer)
        (es : List (Exchange P)) (loaded' : LoadedPairs P)
        → IsTrueOf g c k (run (begun ++ since) start)
        (kind_of_ask m) (follows_of m) loaded (ask_of m) answer es loaded'
        → NamesPairs m.call → NamesPairs (after m answer).call }
    ensures says { (g : Setting K P) (c : Coding K P) (begun since : List (Exchange P)) (k : K)
        (m : Machine) (loaded : LoadedPairs P) → Relies g c begun since k m loaded
        → (answer : Answer)
        (es : List (Exchange P)) (loaded' : LoadedPairs P)
        → IsTrueOf g c k (run (begun ++ since) start)
        (kind_of_ask m) (follows_of m) loaded (ask_of m) answer es loaded' → IsValid m.call
        → NamesPairs m.call → (said : ClosureResult) → ActsOn (after m answer).call said
        → ActsOn m.call said ⊎ ((own : IsOwnStep m answer) × IsResultBy m.call own.told said) }
{}

/// States that a closure is called at most once without a pair, however often the call is set
/// aside: after that call it is not called so again.
pub fn once<K, P>()
    ensures stable { (g : Setting K P) (c : Coding K P) (begun since : List (Exchange P)) (k : K)
        (m : Machine) (loaded : LoadedPairs P) → Relies g c begun since k m loaded
        → (answer : Answer)
        (es : List (Exchange P)) (loaded' : LoadedPairs P)
        → IsTrueOf g c k (run (begun ++ since) start)
        (kind_of_ask m) (follows_of m) loaded (ask_of m) answer es loaded'
        → HasCalledNone m.call.remembered.fill m.call.state
        → (ask_of m ≡ Ask.Call CallAsk.ShowNone → ⊥)
        × HasCalledNone (after m answer).call.remembered.fill (after m answer).call.state }
    ensures shown { (m : Machine) (kind : OpKind) → ask_of m ≡ Ask.Call CallAsk.ShowNone
        → HasCalledNone (after m (Answer.Call (CallAnswer.Op kind))).call.remembered.fill
        (after m (Answer.Call (CallAnswer.Op kind))).call.state }
{}

/// States that a call is refused for one of five reasons: something that it asked for was refused,
/// as many pairs were stored as the limit allows, or its closure returned a removal without a pair.
/// Or, while it was set aside, the next table was refused or would be longer than a table may be.
pub fn refusals<K, P>()
    ensures { (g : Setting K P) (c : Coding K P) (begun since : List (Exchange P)) (k : K)
        (m : Machine) (loaded : LoadedPairs P) → Relies g c begun since k m loaded
        → (answer : Answer)
        (es : List (Exchange P)) (loaded' : LoadedPairs P)
        → IsTrueOf g c k (run (begun ++ since) start)
        (kind_of_ask m) (follows_of m) loaded (ask_of m) answer es loaded' → (refused : Refused)
        → ((reply : Reply) → ask_of m ≡ Ask.Call (CallAsk.Done reply) → ⊥)
        → ask_of (after m answer) ≡ Ask.Call (CallAsk.Done (Reply.Refused refused))
        → IsCause m answer refused }
{}
