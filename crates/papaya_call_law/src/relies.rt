//! The facts on which a machine relies, while others exchange words between its asks.
//!
//! A backend answers what machines ask. For each call it keeps the exchanges before the call began,
//! those since then, and the pairs that the call has loaded. By these laws it need not look into a
//! machine. The functions have empty bodies; their contracts are the laws.
ghost use Rattle.std.specs.Prelude.{◌≡◌, ◌⊎◌, ℕ, Bool, true, ◌<◌, ◌^◌, ◌++◌, List, [], Option, None, Some};
ghost use Rattle.papaya_words.specs.Word.{pair_of};
ghost use Rattle.papaya_words.specs.declared.refused.Refused.{Refused};
ghost use Rattle.papaya_words.specs.declared.resize_mode.ResizeMode.{ResizeMode};
ghost use Rattle.papaya_call_law.specs.Followed.{IsAtTable, IsCounting, MayAsk, table_asked, told_table};
ghost use Rattle.papaya_words_law.specs.Allows.{AllAllowed, Allows};
ghost use Rattle.papaya_words_law.specs.Class.{IsOn};
ghost use Rattle.papaya_words_law.specs.Code.{Coding};
ghost use Rattle.papaya_words_law.specs.Exchange.{Setting, State, Exchange, after as state_after, run, start};
ghost use Rattle.papaya_words_law.specs.Further.{coding_with, with_key};
ghost use Rattle.papaya_words_law.specs.Hints.{IsHint};
ghost use Rattle.papaya_words_law.specs.Grows.{Agrees};
ghost use Rattle.papaya_call.specs.Machine.{IsValid, IsWriter, ask_of, kind_of_ask, after, started};
ghost use Rattle.papaya_call_law.specs.Owed.{owed_by, grows_by};
ghost use Rattle.papaya_call_law.specs.Relies.{Relies, IsAtLimit, IsModeOf, IsReply, WasAtMoment, change_in, change_of_reply, change_after};
ghost use Rattle.papaya_call_law.specs.Says.{Agrees as Said_agrees, HasCalledNone, HasValue};
ghost use Rattle.papaya_call_law.specs.Says.{Inserts, IsPaired, IsResultBy, IsResultChange};
ghost use Rattle.papaya_call_law.specs.Says.{IsResultExchange, KeepsFill, MakesPair};
ghost use Rattle.papaya_call_law.specs.Says.{Removes, ClosureResult, NamesPairs, ActsOn, result_in, result_in_reply, show};
ghost use Rattle.papaya_call_law.specs.TrueAnswers.{IsOneOf, IsAsked, IsTrueOf, IsWritten, LoadedPairs, nothing_loaded, word_of};
ghost use Rattle.papaya_words_law.specs.Code.{IsHashed};

use papaya_call::ask::{Answer, Ask, At, OpKind, StepKind};
use papaya_call::call::{Reply, Task};
use papaya_call::machine::Machine;

/// States that a call relies on the exchanges as they are when it begins.
pub fn begins<K, P>()
    ensures { (g : Setting K P) (c : Coding K P)
        → (begun : List (Exchange P)) (k : K) (task : Task) (mode : ResizeMode) (initial : ℕ)
        (limit : Option ℕ) → IsModeOf mode g.blocking → limit ≡ g.most
        → Relies g c begun [] k (started task (c.hash k) mode initial limit) nothing_loaded }
{}

/// States that a machine's facts stay true, whatever others exchange and whichever tables are made.
pub fn stable<K, P>()
    ensures exchanges { (g : Setting K P) (c : Coding K P) → IsHashed g c
        → (begun since es : List (Exchange P)) → AllAllowed g start (begun ++ (since ++ es))
        → (k : K) (m : Machine) (loaded : LoadedPairs P) → Relies g c begun since k m loaded
        → Relies g c begun (since ++ es) k m loaded }
    ensures tables { (g g' : Setting K P) (c : Coding K P) → IsHashed g c → IsHashed g' c
        → (begun since : List (Exchange P)) → AllAllowed g start (begun ++ since)
        → Agrees (IsOn (run (begun ++ since) start).first (run (begun ++ since) start).next) g g'
        → (k : K) (m : Machine) (loaded : LoadedPairs P) → Relies g c begun since k m loaded
        → Relies g' c begun since k m loaded }
{}

/// States that a machine names only tables that were opened or linked, slots within them with their
/// hints, and the pair last loaded. It makes a pair with that pair's key only if the key is the
/// call's.
pub fn names<K, P>()
    ensures size { (g : Setting K P) (c : Coding K P) → IsHashed g c
        → (begun since : List (Exchange P)) → AllAllowed g start (begun ++ since)
        → (k : K) (m : Machine) (loaded : LoadedPairs P) → Relies g c begun since k m loaded
        → (t : ℕ) → ask_of m ≡ Ask.SizeOf t → IsOn (run (begun ++ since) start).first
        (run (begun ++ since) start).next t }
    ensures next { (g : Setting K P) (c : Coding K P) → IsHashed g c
        → (begun since : List (Exchange P)) → AllAllowed g start (begun ++ since)
        → (k : K) (m : Machine) (loaded : LoadedPairs P) → Relies g c begun since k m loaded
        → (t : ℕ) → ask_of m ≡ Ask.Load (At.Next t) → IsOn (run (begun ++ since) start).first
        (run (begun ++ since) start).next t }
    ensures slot { (g : Setting K P) (c : Coding K P) → IsHashed g c
        → (begun since : List (Exchange P)) → AllAllowed g start (begun ++ since)
        → (k : K) (m : Machine) (loaded : LoadedPairs P) → Relies g c begun since k m loaded
        → (t x : ℕ) → (ask_of m ≡ Ask.Load (At.Slot t x)) ⊎ ((old : ℕ) × (new : ℕ)
        × (ask_of m ≡ Ask.Exchange (At.Slot t x) old new))
        → IsOn (run (begun ++ since) start).first (run (begun ++ since) start).next t
        × (x < g.size t) }
    ensures hint { (g : Setting K P) (c : Coding K P) → IsHashed g c
        → (begun since : List (Exchange P)) → AllAllowed g start (begun ++ since)
        → (k : K) (m : Machine) (loaded : LoadedPairs P) → Relies g c begun since k m loaded
        → (t x : ℕ)
        → (ask_of m ≡ Ask.LoadHint t x) ⊎ ((hint : ℕ) × (ask_of m ≡ Ask.WriteHint t x hint))
        → IsOn (run (begun ++ since) start).first (run (begun ++ since) start).next t
        × (x < g.size t) }
    ensures pair { (g : Setting K P) (c : Coding K P) → IsHashed g c
        → (begun since : List (Exchange P)) → AllAllowed g start (begun ++ since)
        → (k : K) (m : Machine) (loaded : LoadedPairs P) → Relies g c begun since k m loaded
        → (n : ℕ) → ask_of m ≡ Ask.SameKey n → (p : P) × (loaded.last ≡ Some p) × (c.number p ≡ n) }
    ensures made { (g : Setting K P) (c : Coding K P)
        → (begun since : List (Exchange P)) (k : K) (m : Machine) (loaded : LoadedPairs P)
        → Relies g c begun since k m loaded → (t x old new : ℕ)
        → ask_of m ≡ Ask.Exchange (At.Slot t x) old new → IsWriter m.task
        → (q : P) × IsOneOf loaded.made q × (g.same k (g.key q) ≡ true) }
    ensures copied { (g : Setting K P) (c : Coding K P) → IsHashed g c
        → (begun since : List (Exchange P)) → AllAllowed g start (begun ++ since)
        → (k : K) (m : Machine) (loaded : LoadedPairs P) → Relies g c begun since k m loaded
        → (n : ℕ)
        → ask_of m ≡ Ask.MakePairOf n → (p : P) × (loaded.last ≡ Some p) × (c.number p ≡ n)
        × (g.same k (g.key p) ≡ true) }
    ensures opened { (m : Machine) (answer : Answer) (t : ℕ)
        → ask_of (after m answer) ≡ Ask.Exchange At.Root 0 t
        → ((answer ≡ Answer.Made t) × ((len limit : ℕ) × (ask_of m ≡ Ask.MakeTable len limit 0)))
        ⊎ (ask_of m ≡ Ask.Exchange At.Root 0 t) }
{}

/// States that a hint that a machine writes may be there: a pair of its key was claimed in that
/// slot.
pub fn guarantees_hint<K, P>()
    ensures { (g : Setting K P) (c : Coding K P) → (begun since : List (Exchange P))
        → (k : K) (m : Machine) (loaded : LoadedPairs P) → Relies g c begun since k m loaded
        → (t x n : ℕ)
        → ask_of m ≡ Ask.WriteHint t x n → IsHint g c (run (begun ++ since) start) t x n }
{}

/// States that a machine names no table but the one whose number it was given last, and asks only
/// what its task asks. It tries to open a table once. After it changed the map it only counts and
/// writes a hint.
pub fn follows()
    ensures begins { (task : Task) (hash : ℕ) (mode : ResizeMode) (initial table : ℕ)
        (limit : Option ℕ) → IsAtTable table (started task hash mode initial limit).state }
    ensures table { (m : Machine) (answer : Answer) (table : ℕ) → IsAtTable table m.state
        → IsAtTable (told_table (ask_of m) answer table) (after m answer).state }
    ensures named { (m : Machine) (table t : ℕ) → IsAtTable table m.state
        → table_asked (ask_of m) ≡ Some t → t ≡ table }
    ensures asks { (m : Machine) → IsValid m → MayAsk m.task (kind_of_ask m) (ask_of m) }
    ensures opens { (m : Machine) (answer : Answer) (t n : ℕ) → ask_of m ≡ Ask.Exchange At.Root 0 t
        → (answer ≡ Answer.Exchanged) ⊎ ((word : ℕ) × (answer ≡ Answer.Found word))
        → ask_of (after m answer) ≡ Ask.Exchange At.Root 0 n → ⊥ }
    ensures changed { (m : Machine) (change : Option ℕ × Option ℕ) → change_in m.state ≡ Some change
        → IsCounting (ask_of m) }
{}

/// States that a closure is called with what the map has at some point during the call: with no
/// pair, or with the pair last loaded, which has the call's key.
pub fn shows<K, P>()
    ensures none { (g : Setting K P) (c : Coding K P) (begun since : List (Exchange P)) (k : K)
        (m : Machine) (loaded : LoadedPairs P) → Relies g c begun since k m loaded
        → ask_of m ≡ Ask.ShowNone
        → WasAtMoment g c begun since k None }
    ensures pair { (g : Setting K P) (c : Coding K P) → IsHashed g c
        → (begun since : List (Exchange P)) → AllAllowed g start (begun ++ since)
        → (k : K) (m : Machine) (loaded : LoadedPairs P) → Relies g c begun since k m loaded
        → (n : ℕ) → ask_of m ≡ Ask.ShowPair n → (p : P) × (loaded.last ≡ Some p) × (c.number p ≡ n)
        × (g.same k (g.key p) ≡ true) × WasAtMoment g c begun since k (Some p) }
{}

/// States that a machine acts only on results that its closure returned for exactly the pair
/// concerned.
///
/// A removal deletes a pair only after its closure was called with it and agreed. A compute stores
/// a pair only if it was made of the value that its closure returned for what the pair replaces.
/// Its closure is called at most once without a pair. A pair with which a closure is called has a
/// word that is not 0: a call that begins calls no closure, and each answer keeps this.
///
/// A compute keeps one pair for an absent key, and one result for a pair. A newer result for a pair
/// replaces the older one, and leaves the pair for an absent key. A pair that would be needed in
/// another slot than the one it was made for is made again of the same value, which was stored
/// last. A compute exchanges in a slot only what it keeps.
pub fn says()
    ensures begins { (task : Task) (hash : ℕ) (mode : ResizeMode) (initial : ℕ) (limit : Option ℕ)
        (said : ClosureResult) → ActsOn (started task hash mode initial limit) said → ⊥ }
    ensures words { (m : Machine) (answer : Answer) → NamesPairs m → NamesPairs (after m answer) }
    ensures values { (m : Machine) (answer : Answer) → HasValue m → HasValue (after m answer) }
    ensures said { (m : Machine) (answer : Answer) (said : ClosureResult) → IsValid m → NamesPairs m
        → ActsOn (after m answer) said → ActsOn m said ⊎ IsResultBy m answer said }
    ensures pairs { (m : Machine) (n : ℕ) (shown : Option ℕ) → MakesPair (ask_of m)
        → ActsOn (after m (Answer.Made n)) (Inserts shown) → ⊥ }
    ensures one { (m : Machine) (shown other : Option ℕ) → ActsOn m (Inserts shown)
        → ActsOn m (Inserts other) → shown ≡ other }
    ensures silent { (m : Machine) (shown other : Option ℕ) → ActsOn m (Inserts shown)
        → ask_of m ≡ show other → ⊥ }
    ensures chosen { (m : Machine) (n : ℕ) (said : ClosureResult) → m.task ≡ Task.Compute
        → ask_of m ≡ Ask.ShowPair n → ActsOn (after m (Answer.Op OpKind.Remove)) said
        → (said ≡ Removes n) ⊎ KeepsFill m said }
    ensures paired { (m : Machine) (n : ℕ) → m.task ≡ Task.Compute → IsValid m
        → NamesPairs m → MakesPair (ask_of m) → IsPaired m n }
    ensures exchanges { (m : Machine) (t x old new : ℕ) → m.task ≡ Task.Compute → m.hash < 2 ^ 64
        → IsValid m → ask_of m ≡ Ask.Exchange (At.Slot t x) old new
        → IsResultExchange m (pair_of old) (pair_of new) }
    ensures computes { (m : Machine) (n : ℕ) (agrees : Bool) → m.task ≡ Task.Compute
        → ActsOn m (Said_agrees n agrees) → ⊥ }
    ensures fresh { (m : Machine) (shown n : ℕ) (agrees : Bool) → ask_of m ≡ Ask.ShowPair shown
        → ActsOn m (Said_agrees n agrees) → ⊥ }
    ensures changes { (m : Machine) (answer : Answer) (old new : Option ℕ) → IsValid m
        → change_in m.state ≡ None → change_in (after m answer).state ≡ Some (old, new)
        → IsResultChange m.task m old new }
    ensures replies { (m : Machine) (reply : Reply) → ask_of m ≡ Ask.Done reply
        → result_in m.task m.state ≡ result_in_reply m.task reply }
    ensures aborts { (m : Machine) (answer : Answer) (with : ℕ)
        → ((reply : Reply) → ask_of m ≡ Ask.Done reply → ⊥)
        → ask_of (after m answer) ≡ Ask.Done (Reply.Aborted with)
        → (shown : Option ℕ) × (ask_of m ≡ show shown) × (answer ≡ Answer.Op (OpKind.Abort with)) }
    ensures once { (m : Machine) (answer : Answer) → HasCalledNone m.remembered.fill m.state
        → (ask_of m ≡ Ask.ShowNone → ⊥) × HasCalledNone (after m answer).remembered.fill
        (after m answer).state }
    ensures shown { (m : Machine) (kind : OpKind) → ask_of m ≡ Ask.ShowNone
        → HasCalledNone (after m (Answer.Op kind)).remembered.fill (after m (Answer.Op kind)).state }
{}

/// States that a removal is never refused while no table has a next one.
pub fn removals_are_not_refused<K, P>()
    ensures { (g : Setting K P) (c : Coding K P) → IsHashed g c → (begun since : List (Exchange P))
        → AllAllowed g start (begun ++ since) → ((t : ℕ) → (run (begun ++ since) start).next t ≡ 0)
        → (k : K) (m : Machine) (loaded : LoadedPairs P) → Relies g c begun since k m loaded
        → m.task ≡ Task.RemoveIf → ((reply : Reply) → ask_of m ≡ Ask.Done reply → ⊥)
        → (answer : Answer) (refused : Refused) → ask_of (after m answer) ≡ Ask.Done
        (Reply.Refused refused) → ⊥ }
{}

/// States that an exchange that finds its old word is one of the law, is allowed, and writes only
/// its word.
pub fn guarantees<K, P>()
    ensures { (g : Setting K P) (c : Coding K P) → IsHashed g c → (begun since : List (Exchange P))
        → AllAllowed g start (begun ++ since) → (k : K) (m : Machine) (loaded : LoadedPairs P)
        → Relies g c begun since k m loaded → (at : At) (old new : ℕ)
        → ask_of m ≡ Ask.Exchange at old new → word_of g c (run (begun ++ since) start) at ≡ old
        → (e : Exchange P)
        × IsAsked g c k (kind_of_ask m) at new (run (begun ++ since) start) loaded e
        × Allows g (run (begun ++ since) start) e × IsWritten g c (run (begun ++ since) start) at
        new (state_after (run (begun ++ since) start) e) }
{}

/// States that after a true answer the facts on which the machine relies hold again, and its
/// exchange was allowed.
pub fn learns<K, P>()
    ensures { (g : Setting K P) (c : Coding K P) → IsHashed g c → (begun since : List (Exchange P))
        → AllAllowed g start (begun ++ since) → (k : K) (m : Machine) (loaded : LoadedPairs P)
        → Relies g c begun since k m loaded → (answer : Answer) (es : List (Exchange P))
        (loaded' : LoadedPairs P) → IsTrueOf g c k (run (begun ++ since) start) (kind_of_ask m) loaded
        (ask_of m) answer es loaded' → AllAllowed g start (begun ++ (since ++ es))
        × Relies g c begun (since ++ es) k (after m answer) loaded' }
{}

/// States that a reply is true of the map at some point during the call. A change was made by an
/// exchange of the call's own, at most one in a call, and no refusal follows a change.
pub fn replies<K, P>()
    ensures reply { (g : Setting K P) (c : Coding K P) (begun since : List (Exchange P)) (k : K)
        (m : Machine) (loaded : LoadedPairs P) → Relies g c begun since k m loaded → (reply : Reply)
        → ask_of m ≡ Ask.Done reply → IsReply g c begun since k loaded m.task reply
        × (change_in m.state ≡ change_of_reply reply) }
    ensures change { (g : Setting K P) (c : Coding K P) → IsHashed g c
        → (begun since : List (Exchange P)) (k : K) (m : Machine) (loaded : LoadedPairs P)
        → Relies g c begun since k m loaded → (s : _) (answer : Answer) (es : List (Exchange P))
        (loaded' : LoadedPairs P) → IsTrueOf g c k s (kind_of_ask m) loaded (ask_of m) answer es
        loaded'
        → change_in (after m answer).state ≡ change_after (kind_of_ask m) (ask_of m) answer
        (change_in m.state) }
    ensures once { (m : Machine) (at : At) (old new : ℕ) → ask_of m ≡ Ask.Exchange at old new
        → change_in m.state ≡ None }
    ensures task { (m : Machine) (answer : Answer)
        → ((after m answer).task ≡ m.task) × ((after m answer).hash ≡ m.hash) }
    ensures refusal { (m : Machine) (answer : Answer) (refused : Refused)
        → ((reply : Reply) → ask_of m ≡ Ask.Done reply → ⊥)
        → ask_of (after m answer) ≡ Ask.Done (Reply.Refused refused)
        → (answer ≡ Answer.Refused refused) ⊎ ((refused ≡ Refused.Capacity)
        × ((t : ℕ) × (ask_of m ≡ Ask.Load (At.Next t))))
        ⊎ ((refused ≡ Refused.Limit) × IsAtLimit m answer)
        ⊎ ((refused ≡ Refused.RemoveNothing) × (ask_of m ≡ Ask.ShowNone)
        × (answer ≡ Answer.Op OpKind.Remove)) }
{}

/// States that the amount that a machine has yet to add to the count after an answer is what the
/// map grew by. It counts a claim in its next step, and a replacement never.
pub fn counts<K, P>()
    ensures { (g : Setting K P) (c : Coding K P) (k : K) (s : _) (m : Machine)
        (loaded : LoadedPairs P)
        (answer : Answer) (es : List (Exchange P)) (loaded' : LoadedPairs P)
        → IsTrueOf g c k s (kind_of_ask m) loaded (ask_of m) answer es loaded'
        → owed_by (ask_of (after m answer)) ≡ grows_by (kind_of_ask m) (ask_of m) answer }
{}

/// States that a lookup by a further form of a key meets the words that there are. The law
/// `further_keys` defines such a form.
pub fn further_words<K, P>()
    ensures { (g : Setting K P) (c : Coding K P) (matches : K → Bool) (hash : ℕ) (s : State P)
        (at : At) → word_of (with_key g matches hash) (coding_with c hash) s at ≡ word_of g c s at }
{}
