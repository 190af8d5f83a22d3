//! The law of exchanges: what every list of allowed exchanges preserves. The functions have empty
//! bodies; the layers above use their contracts.

ghost use Rattle.papaya_words_law.specs.Allows.{AllAllowed, Allows, MayAbort, MayClaim, MayFinish, MayPlace};
ghost use Rattle.papaya_words_law.specs.ChainContent.{chain_content, joined};
ghost use Rattle.papaya_words_law.specs.Code.{AreAlike, ChangesSlot, Coding, IsLawfulCoding, IsOfKind, code, kind};
ghost use Rattle.papaya_words_law.specs.Hints.{IsHint, IsHintOf};
ghost use Rattle.papaya_words_law.specs.Content.{AreApart, IsCountAfter, content, lookup, pairs_in};
ghost use Rattle.papaya_words_law.specs.Copying.{Covers, IsPutting, IsSettled, IsTaker, IsTarget};
ghost use Rattle.papaya_words_law.specs.Example.{by_two, two_tables, of_one, three_tables};
ghost use Rattle.papaya_words_law.specs.Exchange.{Empty, Marked, Exchange, Setting, State, Word, after, run, start, walk};
ghost use Rattle.papaya_words_law.specs.Further.{IsLawfulKey, IsMapWith, IsMatchedAtMoment, coding_with, hash_with, same_with, with_key};
ghost use Rattle.papaya_words_law.specs.Grows.{Agrees, AllSized, Comes, Entry, IsLawfulPlan, Plan, brings, exchanges, planned, setting_in};
ghost use Rattle.papaya_words_law.specs.Hashing.{hashed};
ghost use Rattle.papaya_words_law.specs.Invariant.{IsKeeping, named, shut};
ghost use Rattle.papaya_words_law.specs.Class.{IsOn};
ghost use Rattle.papaya_words_law.specs.Later.{IsLasting, IsLater, IsOfKey};
ghost use Rattle.papaya_words_law.specs.Meaning.{AllLegal, IsAtMoment, IsLawful, IsLegal, IsMeaning, map_after, map_left, map_of};
ghost use Rattle.papaya_words_law.specs.View.{Foreign, Free, Gone, Grave, Here, HasWord, IsPassed, IsReached, Leaving, active, beyond, held, look, own, view};
ghost use Rattle.papaya_words_law.specs.Code.{IsHashed};
ghost use Rattle.papaya_words.specs.Word.{IsSlotStep, hint_of, kind_of, may_hold, pair_of, shut_hint};
ghost use Rattle.papaya_words.specs.declared.word.Kind.TheVariants as kinds;
ghost use Rattle.std.specs.Prelude.{◌≡◌, ◌⊎◌, ◌↔◌, ℕ, zero, suc, ◌*◌, ◌<◌, ◌≤◌, ◌^◌, ◌==◌};
ghost use Rattle.std.specs.Prelude.{◌++◌, Bool, true, false, List, [], ◌∷◌, length, Option, None, Some};

/// States the law: after each list of allowed exchanges the tables represent one map. Only claims,
/// replacements and deletions change it, and each takes out exactly the pair that was there.
pub fn one_map<K, P>()
    ensures meaning { (g : Setting K P) → IsLawful g → (es : List (Exchange P))
        → AllAllowed g start es → (k : K) → IsMeaning g (run es start) k (map_left g es k) }
    ensures only { (g : Setting K P) → IsLawful g → (es : List (Exchange P)) → AllAllowed g start es
        → (k : K) (value : Option P) → IsMeaning g (run es start) k value
        → value ≡ map_left g es k }
    ensures legal { (g : Setting K P) → IsLawful g → (es : List (Exchange P))
        → AllAllowed g start es → AllLegal g (λ k. None) es }
{}

/// States the law of one step, for a backend that keeps a state and no list.
pub fn each_step<K, P>()
    ensures first { (g : Setting K P) → IsLawful g → IsKeeping g start (λ k. None) }
    ensures step { (g : Setting K P) → IsLawful g → (s : State P) (m : K → Option P)
        → IsKeeping g s m → (e : Exchange P) → Allows g s e
        → IsLegal g m e × IsKeeping g (after s e) (map_after g m e) }
    ensures means { (g : Setting K P) → IsLawful g → (s : State P) (m : K → Option P)
        → IsKeeping g s m → (k : K) → IsMeaning g s k (m k) }
{}

/// States that an exchange that fills an Empty slot is a claim or a copy; it may never be both.
pub fn claim_or_copy<K, P>()
    ensures { (g : Setting K P) → IsLawful g → (s : State P) (m : K → Option P) → IsKeeping g s m
        → (t x : ℕ) (p : P) → MayClaim g s t x p → MayPlace g s t x p → ⊥ }
{}

/// States that later tables do not affect what was kept and allowed before them.
pub fn tables_come_later<K, P>()
    ensures keeps { (g g' : Setting K P) (s : State P) (m : K → Option P)
        → Agrees (IsOn s.first s.next) g g' → IsKeeping g s m → IsKeeping g' s m }
    ensures allows { (g g' : Setting K P) (s : State P) (m : K → Option P)
        → Agrees (IsOn s.first s.next) g g' → IsKeeping g s m → (e : Exchange P)
        → ((n : ℕ) → brings e n ≡ true → g'.chunks n ≡ g.chunks n) → Allows g s e
        → Allows g' s e }
    ensures reaches { (g g' : Setting K P) (s : State P) (m : K → Option P)
        → Agrees (IsOn s.first s.next) g g' → IsKeeping g s m → (k : K) (t : ℕ) → IsReached g s k t
        → IsReached g' s k t }
    ensures list { (g : Setting K P) → IsLawful g → (g' : Setting K P) (es : List (Exchange P))
        → AllAllowed g start es → Agrees (IsOn (run es start).first (run es start).next) g g'
        → AllAllowed g' start es }
    ensures later { (g g' : Setting K P) (s s' : State P) → Agrees (IsOn s'.first s'.next) g g'
        → IsLater g s s' → IsLater g' s s' }
    ensures map { (g g' : Setting K P) (s : State P) → Agrees (IsOn s.first s.next) g g'
        → (es : List (Exchange P)) (m : K → Option P) → map_of g' m es ≡ map_of g m es }
{}

/// States which tables a chain has, by a plan and growing lists of tables, and which setting a log
/// gives. The log's entries say how long the tables are that they open and link.
pub fn tables_of_a_log<K, P>()
    ensures comes { (s : State P) (t : ℕ) → IsOn s.first s.next t → Comes s t }
    ensures brings { (s : State P) (e : Exchange P) (t : ℕ) → Comes (after s e) t
        → (brings e t ≡ true) ⊎ Comes s t }
    ensures planned { (h : Plan K P) (s : State P)
        (size size' places places' chunks chunks' : ℕ → ℕ)
        → ((t : ℕ) → IsOn s.first s.next t → size' t ≡ size t)
        → ((t : ℕ) → IsOn s.first s.next t → places' t ≡ places t)
        → ((t : ℕ) → IsOn s.first s.next t → chunks' t ≡ chunks t) → Agrees (IsOn s.first s.next)
        (planned h size places chunks) (planned h size' places' chunks') }
    ensures lawful { (h : Plan K P) → IsLawfulPlan h → (es : List (Entry P)) → AllSized es
        → IsLawful (setting_in h es) }
    ensures log { (h : Plan K P) (es : List (Entry P)) (e : Entry P) → IsLawful (setting_in h es)
        → AllAllowed (setting_in h es) start (exchanges es)
        → Allows (setting_in h (es ++ e ∷ [])) (run (exchanges es) start) e.by
        → AllAllowed (setting_in h (es ++ e ∷ [])) start (exchanges (es ++ e ∷ [])) }
{}

/// States that a caller may still use facts that it observed at an earlier point in time.
pub fn facts_last<K, P>()
    ensures later { (g : Setting K P) → IsLawful g → (fs : List (Exchange P)) (s : State P)
        → AllAllowed g s fs → IsLater g s (run fs s) }
    ensures through { (g : Setting K P) → IsLawful g → (s s' s'' : State P) → IsLater g s s'
        → IsLater g s' s'' → IsLater g s s'' }
    ensures facts { (g : Setting K P) → IsLawful g → (s s' : State P) → s.next 0 ≡ 0
        → IsLater g s s' → IsLasting g s s' }
    ensures root { (g : Setting K P) → IsLawful g → (s : State P) (m : K → Option P)
        → IsKeeping g s m → (k : K) → 0 < s.root → IsReached g s k s.root }
{}

/// States that the key of a filled slot never changes.
pub fn keys_stay<K, P>()
    ensures { (g : Setting K P) (s s' : State P) → IsLater g s s' → (t x : ℕ) (k : K)
        → IsOfKey g (s.slot t x) k → IsOfKey g (s'.slot t x) k }
{}

/// States that numbers for pairs are taken one after another, and no more than the limit allows.
pub fn numbers<K, P>()
    ensures { (g : Setting K P) (n : ℕ) → g.most ≡ Some n → (s : State P) (es : List (Exchange P))
        → AllAllowed g s es → s.made ≤ n → (run es s).made ≤ n }
{}

/// States that with blocking, a reader that took t for the root may be slow. The value that it
/// finds there after the exchanges fs was the map's at some point during them.
pub fn slow_readers<K, P>()
    ensures found { (g : Setting K P) → IsLawful g → g.blocking ≡ true
        → (s : State P) (m : K → Option P) → IsKeeping g s m → (t : ℕ) → s.root ≡ t → 0 < t
        → (fs : List (Exchange P)) → AllAllowed g s fs → (k : K) (j : ℕ) (p : P) → j < g.places t
        → (look g (run fs s) k t j ≡ Here p) ⊎ (look g (run fs s) k t j ≡ Leaving p)
        → IsAtMoment g m fs k (Some p) }
    ensures empty { (g : Setting K P) → IsLawful g → g.blocking ≡ true
        → (s : State P) (m : K → Option P) → IsKeeping g s m → (t : ℕ) → s.root ≡ t → 0 < t
        → (fs : List (Exchange P)) → AllAllowed g s fs → (k : K) (j : ℕ) → j < g.places t
        → ((i : ℕ) → i < j → beyond (look g (run fs s) k t i) ≡ true)
        → look g (run fs s) k t j ≡ Free → IsAtMoment g m fs k None }
    ensures over { (g : Setting K P) → IsLawful g → g.blocking ≡ true
        → (s : State P) (m : K → Option P) → IsKeeping g s m → (t : ℕ) → s.root ≡ t → 0 < t
        → (fs : List (Exchange P)) → AllAllowed g s fs → (k : K)
        → IsPassed g.places (look g (run fs s) k) t → IsAtMoment g m fs k None }
{}

/// States that if a search met a copier's work, there is a next table. Without blocking, if there
/// is no next table, the map has no pair of the key.
pub fn goes_on<K, P>()
    ensures shut { (g : Setting K P) (s : State P) (m : K → Option P) → IsKeeping g s m → (t x : ℕ)
        → shut (s.slot t x) ≡ true → 0 < s.next t }
    ensures leaving { (g : Setting K P) (s : State P) (m : K → Option P) → IsKeeping g s m
        → (k : K) (t j : ℕ) (p : P) → look g s k t j ≡ Leaving p → 0 < s.next t }
    ensures gone { (g : Setting K P) (s : State P) (m : K → Option P) → IsKeeping g s m
        → (k : K) (t j : ℕ) (p : P) → look g s k t j ≡ Gone p → 0 < s.next t }
    ensures next { (g : Setting K P) (s : State P) → g.blocking ≡ false → (k : K) (t : ℕ)
        → IsReached g s k t → IsPassed g.places (look g s k) t → 0 < s.next t
        → IsReached g s k (s.next t) }
    ensures none { (g : Setting K P) (s : State P) (m : K → Option P) → IsKeeping g s m → IsLawful g
        → g.blocking ≡ false → (k : K) (t : ℕ) → IsReached g s k t
        → IsPassed g.places (look g s k) t ⊎ ((j : ℕ) × (p : P) × (look g s k t j ≡ Leaving p))
        → s.next t ≡ 0 → m k ≡ None }
{}

/// Iterations over the slots of a root: which pairs one meets. Removes that lost their exchange.
pub fn walks_of_a_root<K, P>()
    ensures holds { (g : Setting K P) → IsLawful g → (s : State P) (m : K → Option P)
        → IsKeeping g s m → (g.blocking ≡ false → s.next s.root ≡ 0) → (k : K) (p : P)
        → m k ≡ Some p → (j : ℕ) × (j < g.places s.root) × (held (look g s k s.root j) ≡ true) }
    ensures stays { (g : Setting K P) → IsLawful g
        → (m : K → Option P) (k : K) (t j : ℕ) (fs : List (Exchange P)) (s : State P)
        → AllAllowed g s fs → held (look g s k t j) ≡ true
        → (active (look g (run fs s) k t j) ≡ true) ⊎ IsAtMoment g m fs k None }
    ensures gone { (g : Setting K P) → IsLawful g → g.blocking ≡ false
        → (s : State P) (m : K → Option P) → IsKeeping g s m
        → (k : K) (t j : ℕ) (p : P) (fs : List (Exchange P)) → AllAllowed g s fs → IsReached g s k t
        → j < g.places t → (look g s k t j ≡ Gone p → ⊥) → look g (run fs s) k t j ≡ Gone p
        → IsAtMoment g m fs k (Some p) }
    ensures buried { (g : Setting K P) → IsLawful g
        → (m : K → Option P) (k : K) (t j : ℕ) (p : P) (fs : List (Exchange P)) (s : State P)
        → AllAllowed g s fs → (look g s k t j ≡ Grave p → ⊥) → look g (run fs s) k t j ≡ Grave p
        → IsAtMoment g m fs k None }
{}

/// States how a copier meets the conditions of its exchanges.
pub fn copiers<K, P>()
    ensures first { (g : Setting K P) (s : State P) (t : ℕ) → 0 < s.next t
        → IsTarget g s t (s.next t) }
    ensures aborted { (g : Setting K P) (s : State P) → g.blocking ≡ true → (t n : ℕ)
        → IsTarget g s t n → s.aborted n ≡ true → 0 < s.next n → IsTarget g s t (s.next n) }
    ensures takes { (g : Setting K P) (s : State P) (k : K) (t n : ℕ) → IsTarget g s t n
        → IsTaker g s k t n }
    ensures meets { (g : Setting K P) (s : State P) (t x : ℕ) (p : P) (n j : ℕ)
        → IsPutting g s t x p n j → IsPutting g s t x p n (suc j) ⊎ (look g s (g.key p) n j ≡ Free)
        ⊎ (own (look g s (g.key p) n j) ≡ true) }
    ensures place { (g : Setting K P) (s : State P) (t x : ℕ) (p : P) (n j : ℕ)
        → IsPutting g s t x p n j → j < g.places n → s.slot n (g.place (g.key p) n j) ≡ Empty
        → MayPlace g s n (g.place (g.key p) n j) p }
    ensures abort { (g : Setting K P) (s : State P) (t x : ℕ) (p : P) (n : ℕ)
        → IsPutting g s t x p n (g.places n) → g.blocking ≡ true → s.aborted n ≡ false
        → MayAbort g s n }
    ensures on { (g : Setting K P) (s : State P) (t x : ℕ) (p : P) (n : ℕ)
        → IsPutting g s t x p n (g.places n) → g.blocking ≡ false → 0 < s.next n
        → IsPutting g s t x p (s.next n) 0 }
    ensures finish { (g : Setting K P) (s : State P) (t x : ℕ) (p : P) (n j : ℕ)
        → IsPutting g s t x p n j → HasWord g.places (look g s (g.key p)) n → g.blocking ≡ false
        → s.slot t x ≡ Marked p → MayFinish g s t x p }
{}

/// States that a table to which a former root is copied has a word for each chunk of that root.
pub fn chunk_words<K, P>()
    ensures { (g : Setting K P) (s : State P) (m : K → Option P) → IsKeeping g s m → (t n : ℕ)
        → s.was_root t ≡ true → IsTarget g s t n → Covers g t n }
{}

/// States that a former root without a next table is the root. A search that met its key's pair
/// leaving may go on to a later table once the slot is settled.
pub fn after_copies<K, P>()
    ensures last_root { (g : Setting K P) (s : State P) (m : K → Option P) → IsKeeping g s m
        → (t : ℕ) → s.was_root t ≡ true → s.next t ≡ 0 → s.root ≡ t }
    ensures moved { (g : Setting K P) (s : State P) → g.blocking ≡ false
        → (k : K) (t j n : ℕ) (p : P) → j < g.places t
        → (look g s k t j ≡ Leaving p) ⊎ (look g s k t j ≡ Gone p)
        → IsSettled g s n (s.slot t (g.place k t j)) → IsPassed g.places (look g s k) t }
{}

/// States what the numbers in memory say about the words. Each exchange is a legal step of a
/// number. A number does not identify a pair by itself: two words with one number are only alike.
pub fn codes<K, P>()
    ensures kind { (g : Setting K P) (c : Coding K P) (w : Word P) → kind_of (code g c w) ≡ kind w }
    ensures empty { (g : Setting K P) (c : Coding K P) (w : Word P) → code g c w ≡ 0 → w ≡ Empty }
    ensures pair { (g : Setting K P) (c : Coding K P) → IsLawfulCoding g c → (w : Word P) (p : P)
        → named w ≡ Some p → pair_of (code g c w) ≡ c.number p }
    ensures fits { (g : Setting K P) (c : Coding K P) → IsLawfulCoding g c → (w : Word P)
        → ((p : P) → named w ≡ Some p → c.number p < 2 ^ 54) → code g c w < 2 ^ 64 }
    ensures alike { (g : Setting K P) (c : Coding K P) → IsLawfulCoding g c → (v w : Word P)
        → code g c v ≡ code g c w → AreAlike g c v w }
    ensures step { (g : Setting K P) (c : Coding K P) → IsLawfulCoding g c
        → (s : State P) (e : Exchange P) → Allows g s e → (t x : ℕ) → ChangesSlot e t x
        → IsSlotStep (code g c (s.slot t x)) (code g c ((after s e).slot t x)) }
    ensures stays { (s : State P) (e : Exchange P) (t x : ℕ) → (ChangesSlot e t x → ⊥)
        → (after s e).slot t x ≡ s.slot t x }
{}

/// States what a search for a key learns from the number that it loads, and from comparing keys.
pub fn words_in_a_search<K, P>()
    ensures kind { (g : Setting K P) (c : Coding K P) (w : Word P)
        → IsOfKind (kind_of (code g c w)) w }
    ensures past_buried { (g : Setting K P) (c : Coding K P) (k : K) (w : Word P)
        → kind_of (code g c w) ≡ kinds.Buried → beyond (view g k w) ≡ true }
    ensures past_closed { (g : Setting K P) (c : Coding K P) (k : K) (w : Word P)
        → kind_of (code g c w) ≡ kinds.Closed → beyond (view g k w) ≡ true }
    ensures other_key { (g : Setting K P) (k : K) (w : Word P) (p : P) → named w ≡ Some p
        → g.same k (g.key p) ≡ false → view g k w ≡ Foreign }
{}

/// States that a hint lasts. A search that reads the byte of another key or of a sealed slot may
/// pass the slot without its word. A caller that fills or seals a slot may write its hint.
pub fn hints<K, P>()
    ensures none { (g : Setting K P) (c : Coding K P) (w : Word P) → IsHintOf g c w 0 }
    ensures lasts { (g : Setting K P) (c : Coding K P) → IsLawfulCoding g c → (s s' : State P)
        → IsLater g s s' → (t x n : ℕ) → IsHint g c s t x n → IsHint g c s' t x n }
    ensures passes { (g : Setting K P) (c : Coding K P) → IsLawfulCoding g c → (k : K) (w : Word P)
        (n : ℕ) → IsHintOf g c w n → may_hold n (c.hash k) ≡ false → view g k w ≡ Foreign }
    ensures fills { (g : Setting K P) (c : Coding K P) → IsLawfulCoding g c → (k : K) (w : Word P)
        (p : P) → w ≡ Word.Live p → g.same k (g.key p) ≡ true
        → IsHintOf g c w (hint_of (c.hash k)) }
    ensures shut { (g : Setting K P) (c : Coding K P) (w : Word P) → w ≡ Word.Closed
        → IsHintOf g c w shut_hint }
{}

/// States that searching keys by their hash is a lawful plan, and a lawful plan gives lawful
/// settings.
pub fn plans_by_hash<K, P>()
    ensures plan { (blocking : Bool) (chunk_of : ℕ → ℕ) (most : Option ℕ) (key : P → K)
        (same : K → K → Bool) (hash : K → ℕ) → ((k : K) → same k k ≡ true)
        → ((k l : K) → same k l ≡ true → same l k ≡ true)
        → ((k l m : K) → same k l ≡ true → same l m ≡ true → same k m ≡ true)
        → ((k l : K) → same k l ≡ true → hash k ≡ hash l)
        → IsLawfulPlan (hashed blocking chunk_of most key same hash) }
    ensures setting { (h : Plan K P) → IsLawfulPlan h → (size places chunks : ℕ → ℕ)
        → ((t : ℕ) → 0 < size t) → ((t : ℕ) → 0 < places t)
        → IsLawful (planned h size places chunks) }
{}

/// States what holds of lookups by a borrowed form of a key, on every backend: by a `&str` if the
/// keys are `String`s. Such a form is not a key of the map's type: it matches the keys of one
/// class, or none. The laws speak of a setting's keys. They serve such a lookup in the setting that
/// has the form as one further key, over the same exchanges of the same pairs. The map's own keys
/// are forms of themselves.
pub fn further_keys<K, P>()
    ensures itself { (g : Setting K P) (c : Coding K P) → IsHashed g c → (k : K)
        → IsLawfulKey g c (g.same k) (c.hash k) }
    ensures lawful { (g : Setting K P) (c : Coding K P) → IsHashed g c → ((t : ℕ) → 0 < g.size t)
        → (matches : K → Bool) (hash : ℕ) → IsLawfulKey g c matches hash
        → IsHashed (with_key g matches hash) (coding_with c hash) }
    ensures planned { (blocking : Bool) (chunk_of : ℕ → ℕ) (most : Option ℕ) (key : P → K)
        (same : K → K → Bool) (hash_of : K → ℕ) (size places chunks : ℕ → ℕ) (matches : K → Bool)
        (hash : ℕ)
        → with_key (planned (hashed blocking chunk_of most key same hash_of) size places chunks)
        matches hash
        ≡ planned (hashed blocking chunk_of most (λ p. Some (key p)) (same_with same matches)
        (hash_with hash_of hash)) size places chunks }
    ensures agrees { (g g' : Setting K P) (s : State P) → Agrees (IsOn s.first s.next) g g'
        → (matches : K → Bool) (hash : ℕ) → Agrees (IsOn s.first s.next) (with_key g matches hash)
        (with_key g' matches hash) }
    ensures allows { (g : Setting K P) (matches : K → Bool) (hash : ℕ) (s : State P)
        (e : Exchange P) → Allows g s e ↔ Allows (with_key g matches hash) s e }
    ensures list { (g : Setting K P) (matches : K → Bool) (hash : ℕ) (s : State P)
        (es : List (Exchange P)) → AllAllowed g s es ↔ AllAllowed (with_key g matches hash) s es }
    ensures code { (g : Setting K P) (c : Coding K P) (matches : K → Bool) (hash : ℕ) (w : Word P)
        → code (with_key g matches hash) (coding_with c hash) w ≡ code g c w }
    ensures legal { (g : Setting K P) (matches : K → Bool) (hash : ℕ) (m : K → Option P)
        (m' : Option K → Option P) → ((k : K) → m' (Some k) ≡ m k) → (e : Exchange P)
        → IsLegal g m e ↔ IsLegal (with_key g matches hash) m' e }
    ensures all_legal { (g : Setting K P) (matches : K → Bool) (hash : ℕ) (m : K → Option P)
        (m' : Option K → Option P) → ((k : K) → m' (Some k) ≡ m k) → (es : List (Exchange P))
        → AllLegal g m es ↔ AllLegal (with_key g matches hash) m' es }
    ensures map { (g : Setting K P) (c : Coding K P) (matches : K → Bool) (hash : ℕ)
        → IsLawfulKey g c matches hash → (m : K → Option P) (m' : Option K → Option P)
        → IsMapWith g matches m m' → (s : State P) (es : List (Exchange P)) → AllAllowed g s es
        → IsMapWith g matches (map_of g m es) (map_of (with_key g matches hash) m' es) }
    ensures left { (g : Setting K P) (c : Coding K P) (matches : K → Bool) (hash : ℕ)
        → IsLawfulKey g c matches hash → (es : List (Exchange P)) → AllAllowed g start es
        → IsMapWith g matches (map_left g es) (map_left (with_key g matches hash) es) }
    ensures moment { (g : Setting K P) (c : Coding K P) (matches : K → Bool) (hash : ℕ)
        → IsLawfulKey g c matches hash → (begun since : List (Exchange P))
        → AllAllowed g start (begun ++ since) → (value : Option P)
        → IsAtMoment (with_key g matches hash) (map_left (with_key g matches hash) begun) since None
        value → IsMatchedAtMoment g matches (map_left g begun) since value }
{}

/// States that the root's table, as a list of pairs, is the map with blocking, or while the root
/// has no next table. While there is one table, each exchange adds, takes out or keeps as many
/// pairs as its kind says.
pub fn content_of_a_table<K, P>()
    ensures holds { (g : Setting K P) → IsLawful g → (s : State P) (m : K → Option P)
        → IsKeeping g s m → (g.blocking ≡ false → s.next s.root ≡ 0) → (k : K)
        → lookup g.same g.key (content g s) k ≡ m k }
    ensures apart { (g : Setting K P) → IsLawful g → (s : State P) (m : K → Option P)
        → IsKeeping g s m → (t n : ℕ) → AreApart g.same g.key (pairs_in (s.slot t) n) }
    ensures nothing { (g : Setting K P) → IsLawful g → (s : State P) (m : K → Option P)
        → IsKeeping g s m → s.root ≡ 0 → (content g s ≡ []) × ((k : K) → m k ≡ None) }
    ensures count { (g : Setting K P) → IsLawful g → (s : State P) (m : K → Option P)
        → IsKeeping g s m → ((t : ℕ) → s.next t ≡ 0) → (e : Exchange P) → Allows g s e
        → IsCountAfter e (length (content g s)) (length (content g (after s e))) }
{}

/// States that the tables of a chain together, as a list of pairs, are the map, in both modes and
/// in any state of a resize. Each exchange adds, takes out or keeps as many pairs as its kind says.
/// `n` is the number of tables that the list covers, large enough that the chain ends within them.
pub fn content_of_a_chain<K, P>()
    ensures holds { (g : Setting K P) → IsLawful g → (s : State P) (m : K → Option P)
        → IsKeeping g s m → (n : ℕ) → walk s.next n s.root ≡ 0 → (k : K)
        → lookup g.same g.key (chain_content g s n) k ≡ m k }
    ensures apart { (g : Setting K P) → IsLawful g → (s : State P) (m : K → Option P)
        → IsKeeping g s m → (n : ℕ) → AreApart g.same g.key (chain_content g s n) }
    ensures nothing { (g : Setting K P) → IsLawful g → (s : State P) (m : K → Option P)
        → IsKeeping g s m → s.root ≡ 0
        → ((n : ℕ) → chain_content g s n ≡ []) × ((k : K) → m k ≡ None) }
    ensures count { (g : Setting K P) → IsLawful g → (s : State P) (m : K → Option P)
        → IsKeeping g s m → (e : Exchange P) → Allows g s e
        → (n now : ℕ) → walk s.next n s.root ≡ 0 → walk (after s e).next now (after s e).root ≡ 0
        → IsCountAfter e (length (chain_content g s n)) (length (chain_content g (after s e) now)) }
{}

/// Lists of a chain: how many tables one has to cover, when it equals the root's own list, and how
/// long it can be. A list that is built in the same way, table by table, is the same list.
pub fn lists_of_a_chain<K, P>()
    ensures ends { (g : Setting K P) → IsLawful g → (s : State P) (m : K → Option P)
        → IsKeeping g s m → (n : ℕ) → s.root ≤ n → ((t : ℕ) → s.next t ≤ n)
        → walk s.next n s.root ≡ 0 }
    ensures enough { (g : Setting K P) → IsLawful g → (s : State P) (n more : ℕ)
        → walk s.next n s.root ≡ 0 → walk s.next more s.root ≡ 0
        → chain_content g s n ≡ chain_content g s more }
    ensures alone { (g : Setting K P) → IsLawful g → (s : State P) (m : K → Option P)
        → IsKeeping g s m → (g.blocking ≡ false → s.next s.root ≡ 0) → (n : ℕ)
        → walk s.next n s.root ≡ 0 → chain_content g s n ≡ content g s }
    ensures few { (g : Setting K P) → IsLawful g → (s : State P) (m : K → Option P)
        → IsKeeping g s m → (b : ℕ) → ((t : ℕ) → IsOn s.first s.next t → g.size t ≤ b) → (n : ℕ)
        → length (chain_content g s n) ≤ n * b }
    ensures alike { (g : Setting K P) → IsLawful g → (s : State P) (m : K → Option P)
        → IsKeeping g s m → (list : ℕ → ℕ → List P) → ((t : ℕ) → list 0 t ≡ [])
        → ((n : ℕ) → list (suc n) 0 ≡ [])
        → ((n t : ℕ) → IsOn s.first s.next t → list (suc n) t
        ≡ joined g.same g.key (pairs_in (s.slot t) (g.size t)) (list n (s.next t)))
        → (n : ℕ) → list n s.root ≡ chain_content g s n }
    ensures later { (g g' : Setting K P) → IsLawful g → IsLawful g' → (s : State P)
        (m : K → Option P) → IsKeeping g s m → Agrees (IsOn s.first s.next) g g' → (n : ℕ)
        → chain_content g' s n ≡ chain_content g s n }
{}

/// States that the map is a list in which no key occurs twice, whatever tables there are. After
/// each exchange there is still such a list, all such lists have the same length, and that length
/// follows the claims and deletions.
pub fn finite_maps<K, P>()
    ensures list { (g : Setting K P) → IsLawful g → (s : State P) (m : K → Option P)
        → IsKeeping g s m → (e : Exchange P) → Allows g s e → (a : List P) → AreApart g.same g.key a
        → ((k : K) → lookup g.same g.key a k ≡ m k)
        → (b : List P) × AreApart g.same g.key b × ((k : K)
        → lookup g.same g.key b k ≡ map_after g m e k) }
    ensures length { (g : Setting K P) → IsLawful g → (a b : List P) → AreApart g.same g.key a
        → AreApart g.same g.key b → ((k : K) → lookup g.same g.key a k ≡ lookup g.same g.key b k)
        → length a ≡ length b }
    ensures count { (g : Setting K P) → IsLawful g → (m : K → Option P) (e : Exchange P)
        → IsLegal g m e → (a b : List P) → AreApart g.same g.key a → AreApart g.same g.key b
        → ((k : K) → lookup g.same g.key a k ≡ m k)
        → ((k : K) → lookup g.same g.key b k ≡ map_after g m e k)
        → IsCountAfter e (length a) (length b) }
{}

/// States that the conditions can be met: two lists in lawful settings, one in each mode. Together
/// they have exchanges of every kind.
pub fn examples()
    ensures incremental { IsLawful by_two × AllAllowed by_two start two_tables }
    ensures blocking { IsLawful of_one × AllAllowed of_one start three_tables }
{}
