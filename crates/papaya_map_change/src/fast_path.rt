//! Insertions whose search of the root ends as most do: their pair is stored and put in at once.
//! Only the proof has the machine. Computes search in the same way, and put in their pairs so.
ghost use Rattle.papaya_map_change.specs.Window.Ends.{Ends, HasTried, HasCause};
ghost use Rattle.std.specs.Prelude.{◌≡◌, ◌==◌, ◌<◌, true, is_ok, length};
ghost use Rattle.std.specs.Prelude.{Ok, Err, IfErr, IfOk, None, Some};
ghost use Rattle.std.specs.Int.{IsPowerOfTwo};
ghost use Rattle.papaya_call.specs.Search.{IsWithin};
ghost use Rattle.papaya_call.specs.declared.ask.StepKind.TheVariants.{Bury};
ghost use Rattle.papaya_call.specs.declared.search.Search.TheVariants.{Looking, Reading};
ghost use Rattle.papaya_call.specs.Remove.{grave_word};
ghost use Rattle.papaya_call.specs.declared.machine.State.TheVariants.{Searching};
ghost use Rattle.papaya_words.specs.Word.{kind_of, pair_of};
ghost use Rattle.papaya_words.specs.declared.word.Kind.TheVariants.{Live};
ghost use Rattle.papaya_map_book.specs.declared.rule.entry.Named.TheVariants.{Pair as PairNamed};
ghost use Rattle.papaya_map_book.specs.Pairs.{IsKeyIn};
ghost use Rattle.papaya_map_book.specs.Windows.{CanTrySlot, Does, IsIn, IsLawful, IsOpen, IsTable, Observes, Sees};
ghost use Rattle.papaya_map_book.specs.Windows.{TriesSlot};
ghost use Rattle.papaya_map_lookup.specs.Drivers.{own, past};
ghost use Rattle.papaya_map_lookup.specs.History.{key_of};
ghost use Rattle.papaya_map_change.specs.Changes.{IsPut};
ghost use Rattle.papaya_map_change.specs.Seeking.{left_at, left_to, hit_of};
ghost use Rattle.papaya_map_change.specs.ClosureCalls.{IsSamePair};
ghost use Rattle.papaya_map_change.specs.Window.Seeking.{HasWritten, IsFoundFor, ProbesAt, ReadsAt, IsStateAfter};
ghost use Rattle.papaya_map_change.specs.Window.Seeking.{Probes};
ghost use Rattle.papaya_map_change.specs.Tries.{CanBury, Offers, CallsWith, TakesOut, TriesBurial};
ghost use Rattle.papaya_map_change.specs.declared.fast_path.Tried.TheVariants.{Back, Put};
ghost use Rattle.papaya_map_change.specs.declared.fast_path.ProbeHit.TheVariants.{Empty, Next};
ghost use Rattle.papaya_map_change.specs.declared.fast_path.ProbeHit.TheVariants.{Met as MetPair};
ghost use Rattle.papaya_map_change.specs.Writing.{IsMemoryCapacityOrLimit};

use crate::driver::Means;
use crate::insertion::{insert_met, insert_onward, insert_slow, insert_stored};
use papaya_call::ask::StepKind;
use papaya_call::search::{Place, ProbeStep, Search};
use papaya_call::write::Write;
use papaya_map_book::book::Book;
use papaya_map_book::book::gains::named_pair;
use papaya_map_book::count::Shard;
use papaya_map_book::keyed::Hashed;
use papaya_map_book::rule::entry::Stored;
use papaya_map_book::rule::own::{CapacityCause, OwnSteps};
use papaya_map_book::rule::pair::Pair;
use papaya_map_book::table::Table;
use papaya_map_book::window::Window;
use papaya_map_lookup::lookup::{Met, hash};
use papaya_words::refused::Refused;
use papaya_words::word::{Kind, Word, hint};
use std::alloc::Global;
use std::hash::{BuildHasher, Hash};
use std::marker::Model;
use std::sync::Wait;

/// A live pair of the key that a search has met, and where it is in the arena of pairs.
#[derive(Drop)]
pub struct Live<'a, K, V> {
    pub(crate) met: Met<K, V>,
    pub(crate) pair: &'a Pair<K, V>,
}

impl<'a, K, V> Model for Live<'a, K, V> {
    ghost use Rattle.std.specs.Prelude.{◌≡◌};
    ghost use Rattle.papaya_words.specs.Word.{kind_of};
    ghost use Rattle.papaya_words.specs.declared.word.Kind.TheVariants as kinds;
    ghost use Rattle.papaya_map_lookup.specs.declared.lookup.Met.{Met};

    ghost Value = { Met K V };

    ghost view = { λ live. live.met };

    ghost invariant = { λ live. (kind_of live.met.word ≡ kinds.Live)
        × (live.pair.now ≡ live.met.stored.value) };
}

impl<'a, K, V> Live<'a, K, V> {
    /// Returns the pair.
    #[inline(always)]
    pub fn pair(&self) -> &'a Pair<K, V>
        ensures { result.now ≡ self.now.stored.value }
    {
        self.pair
    }

    /// Returns where it was met.
    #[inline(always)]
    pub fn met(&self) -> &Met<K, V>
        ensures { result.now ≡ self.now }
    {
        &self.met
    }

    /// Returns where it was met, without the pair.
    pub fn into_met(self) -> Met<K, V>
        ensures { result ≡ self.entry }
    {
        let Self { met, pair: _ } = self;
        met
    }
}

/// The result of one turn of a search.
#[derive(Drop)]
pub enum ProbeHit<M> {
    /// The search looks at this place next.
    Next(Place),
    /// This place is empty, and no pair has the key.
    Empty(Place),
    /// A live pair has the key.
    Met(M),
    /// The table of this number has no place for the key.
    Over(u64),
    /// The pair of the key is being moved, or a pair's value is another pair's.
    Else,
}

/// Returns where a search continues that has met no pair of the key.
#[inline(always)]
fn without<M>(seen: ProbeStep) -> ProbeHit<M>
    ensures { result ≡ hit_of seen }
{
    match seen {
        ProbeStep::On(Search::Looking(at)) => ProbeHit::Next(at),
        ProbeStep::Empty(at) => ProbeHit::Empty(at),
        ProbeStep::Over(table) => ProbeHit::Over(table),
        _ => ProbeHit::Else,
    }
}

/// Returns whether the pair's key equals this one, or `None` if its value is another pair's.
#[inline(always)]
fn has_key<K: Hash + Eq, V, S: BuildHasher>(
    book: &Book<K, V, S>,
    pair: &Pair<K, V>,
    key: &K,
) -> Option<bool>
    requires { IsKeyIn book.now.parts.pairs pair.now.key }
    ensures { (same : _) → result ≡ Some same → same ≡ K.eq key.now pair.now.key.value }
{
    let (stored, _) = book.near_entry(pair)?;
    Some(*key == *stored)
}

/// Loads the word at one place of a table, and compares the key of the pair that it names, if it
/// names one.
#[inline(always)]
fn read_at<'a, K: Hash + Eq, V, S: BuildHasher>(
    window: &mut Window<'a, K, V, S>,
    key: &K,
    table: &Table<K, V, S>,
    at: Place,
) -> ProbeHit<Live<'a, K, V>>
    requires within { IsWithin at }
    requires stands { ReadsAt window.old key.now table.now at }
    ensures sees { Observes window.old window.new }
    ensures turns { Probes window.old window.new key.now table.now (Searching (Reading at)) result }
    ensures next { (next : _) → result ≡ Next next → IsWithin next }
    ensures stays { (next : _) → result ≡ Next next → next ≡ record at { probe = next.probe } }
    ensures fewer { left_to result < left_at at }
{
    let (word, offer) = window.slot_word(table, at.table, at.probe.i);
    let mut seen = at.look(word);
    if let ProbeStep::On(Search::Comparing(..)) = seen {
        let book = window.book;
        let stored = named_pair(word, offer);
        let pair = book.pair(&stored);
        match has_key(book, pair, key) {
            Some(true) if Word(word).kind() == Kind::Live => {
                let met = Met {
                    place: at,
                    word,
                    stored,
                };
                return ProbeHit::Met(Live { met, pair });
            }
            Some(false) => seen = Search::Comparing(at, word).at_yes(false),
            _ => return ProbeHit::Else,
        }
    }
    without(seen)
}

/// Looks at one place of a table: loads its hint, and its word if the hint says nothing or is the
/// key's.
#[inline(always)]
fn probe_at<'a, K: Hash + Eq, V, S: BuildHasher>(
    window: &mut Window<'a, K, V, S>,
    key: &K,
    hash: u64,
    table: &Table<K, V, S>,
    at: Place,
) -> ProbeHit<Live<'a, K, V>>
    requires within { IsWithin at }
    requires hashed { hash ≡ ⟦<S as Hashed<K>>⟧.hash window.old.book.now.parts.hasher key.now }
    requires stands { ProbesAt window.old key.now table.now at }
    ensures sees { Observes window.old window.new }
    ensures turns { Probes window.old window.new key.now table.now (Searching (Looking at)) result }
    ensures next { (next : _) → result ≡ Next next → IsWithin next }
    ensures stays { (next : _) → result ≡ Next next → next ≡ record at { probe = next.probe } }
    ensures fewer { left_to result < left_at at }
{
    let hint = window.hint(table, at.table, at.probe.i);
    let seen = at.hinted(hash, hint);
    let ProbeStep::On(Search::Reading(_)) = seen else {
        return without(seen);
    };
    read_at(window, key, table, at)
}

/// Searches one table for where a pair of the key may be put in: an empty place, or the place of a
/// live pair of the key.
#[inline(always)]
fn seek<'a, K: Hash + Eq, V, S: BuildHasher>(
    window: &mut Window<'a, K, V, S>,
    key: &K,
    hash: u64,
    table: &Table<K, V, S>,
    at: Place,
) -> ProbeHit<Live<'a, K, V>>
    requires within { IsWithin at }
    requires hashed { hash ≡ ⟦<S as Hashed<K>>⟧.hash window.old.book.now.parts.hasher key.now }
    requires stands { ProbesAt window.old key.now table.now at }
    ensures sees { Observes window.old window.new }
    ensures turns { Probes window.old window.new key.now table.now (Searching (Looking at)) result }
{
    let mut place = at;
    loop {
        match probe_at(window, key, hash, table, place) {
            ProbeHit::Next(next) => place.probe = next.probe,
            turned => return turned,
        }
    }
}

/// Returns the first place, from this one on, that the search does not pass.
pub(crate) fn pass_over<K: Hash + Eq, V, S: BuildHasher>(
    window: &mut Window<'_, K, V, S>,
    key: &K,
    hash: u64,
    table: &Table<K, V, S>,
    at: Place,
) -> Place
    requires within { IsWithin at }
    requires hashed { hash ≡ ⟦<S as Hashed<K>>⟧.hash window.old.book.now.parts.hasher key.now }
    requires stands { ProbesAt window.old key.now table.now at }
    ensures sees { Observes window.old window.new }
    ensures within { IsWithin result }
    ensures stays { result ≡ record at { probe = result.probe } }
    ensures turns { Probes window.old window.new key.now table.now (Searching (Looking at))
        (Next result) }
{
    let mut place = at;
    loop {
        match probe_at(window, key, hash, table, place) {
            ProbeHit::Next(next) => place.probe = next.probe,
            _ => {
                window.learn();
                return place;
            }
        }
    }
}

/// The end of a search of the root.
#[derive(Drop)]
pub struct SearchEnd<'a, K: Hash + Eq, V, S: BuildHasher> {
    pub table: &'a Table<K, V, S>,
    pub turn: ProbeHit<Live<'a, K, V>>,
}

/// Searches the root for where a pair of the key may be put in.
#[inline(always)]
pub fn find_place<'a, K: Hash + Eq, V, S: BuildHasher>(
    window: &mut Window<'a, K, V, S>,
    key: &K,
    hash: u64,
) -> Option<SearchEnd<'a, K, V, S>>
    requires lawful { IsLawful window.old }
    requires hashed { hash ≡ ⟦<S as Hashed<K>>⟧.hash window.old.book.now.parts.hasher key.now }
    ensures sees { Observes window.old window.new }
    ensures found { (spot : _) → result ≡ Some spot → IsFoundFor window.old window.new key.now
        spot.table.now spot.turn }
{
    let (number, root) = window.root();
    let Some(table) = root else {
        return None;
    };
    let (len, limit) = table.size();
    let first = Place::first(hash, number, len, limit);
    let turn = seek(window, key, hash, table, first);
    Some(SearchEnd { table, turn })
}

/// The outcome of an attempt to store a pair at a place that a search found.
#[derive(Drop)]
pub enum Tried<K, V, B> {
    /// It was put in.
    Put(Stored<K, V>),
    /// Another word is there now.
    Lost(Stored<K, V>),
    /// It was not stored, since the arena of pairs has no free slot: what was passed in.
    Back(B),
}

/// Stores a pair, and tries to claim for it the empty place that a search has found.
#[inline(always)]
pub fn claim<K: Hash + Eq + Drop, V: Drop, S: BuildHasher>(
    shard: &Shard<'_>,
    window: &mut Window<'_, K, V, S>,
    key: K,
    value: V,
    hash: u64,
    table: &Table<K, V, S>,
    at: Place,
) -> Tried<K, V, (K, V)>
    requires hashed { hash ≡ ⟦<S as Hashed<K>>⟧.hash window.old.book.now.parts.hasher key }
    requires limit { window.old.book.now.parts.limit ≡ None }
    requires open { IsOpen window.old }
    requires stands { IsStateAfter window.old key table.now (Empty at) }
    ensures tried { HasTried key value window.old window.new result }
    ensures put { (q : _) → result ≡ Put q → Offers window.old window.new key table.now
        (Empty at) q }
    ensures back { (back : _) → result ≡ Back back → back ≡ (key, value) }
{
    if at.is_crowded() {
        table.write_ahead(&window.sight, shard.count());
    }
    let pair = match window.book.store_fresh(hash, key, value) {
        Ok(pair) => pair,
        Err(back) => return Tried::Back(back),
    };
    let words = (0, Word::live(pair.index() as u64).0);
    let (slot, kind) = (at.probe.i, Some(StepKind::Claim));
    let (found, _) = window.put_slot(table, at.table, slot, kind, &pair, words);
    if found != 0 {
        return Tried::Lost(pair);
    }
    shard.add(hash, 1);
    window.write_hint(table, at.table, slot, hint(hash));
    Tried::Put(pair)
}

/// Stores a pair with the key that a search has met, and tries to replace the pair of that key by
/// it. The number of that pair picks the lane, so that a key which is replaced often takes slots of
/// all lanes.
#[inline(always)]
pub fn replace<K: Hash + Eq + Drop, V: Drop, S: BuildHasher>(
    window: &mut Window<'_, K, V, S>,
    value: V,
    table: &Table<K, V, S>,
    live: &Live<'_, K, V>,
) -> Tried<K, V, V>
    requires limit { window.old.book.now.parts.limit ≡ None }
    requires open { IsOpen window.old }
    requires stands { (key : K) × IsStateAfter window.old key table.now (MetPair live.now) }
    ensures tried { HasTried (key_of live.now.stored) value window.old window.new result }
    ensures put { (q : _) → result ≡ Put q → (key : K) → Offers window.old window.new key
        table.now (MetPair live.now) q }
    ensures back { (back : _) → result ≡ Back back → back ≡ value }
{
    let book = window.book;
    let met = &live.met;
    let (place, word) = (met.place, met.word);
    let lane = Word(word).pair();
    let pair = match book.store_renewed(lane, &met.stored, live.pair, value) {
        Ok(pair) => pair,
        Err(back) => return Tried::Back(back),
    };
    let words = (word, Word::live(pair.index() as u64).0);
    let (slot, kind) = (place.probe.i, Some(StepKind::Replace));
    let (found, before) = window.put_slot(table, place.table, slot, kind, &pair, words);
    if found != word {
        return Tried::Lost(pair);
    }
    let Some(taken) = before else { unreachable!() };
    book.parts.pairs.agrees(&met.stored, &taken);
    Tried::Put(pair)
}

/// Tries to exchange the word of a slot, which names this pair, for its buried word. Returns the
/// word found, and the pair that it names. If the exchange is made, the count has one pair less,
/// and the pair that was removed is this one.
#[inline(always)]
pub fn bury_slot<K: Hash + Eq, V, S: BuildHasher>(
    shard: &Shard<'_>,
    window: &mut Window<'_, K, V, S>,
    table: &Table<K, V, S>,
    number: u64,
    place: usize,
    word: u64,
    shown: &Stored<K, V>,
) -> (u64, Option<Stored<K, V>>)
    requires table { IsTable window.old number table.now }
    requires place { place < length table.now.slots }
    requires open { IsOpen window.old }
    requires can { CanTrySlot window.old number place (Some Bury) (word, grave_word word) }
    requires placed { IsIn window.old (PairNamed shown.now) }
    requires number { shown.now.index ≡ pair_of word }
    ensures sees { Sees window.old window.new }
    ensures does { Does (result.0 == word) window.old window.new }
    ensures tried { TriesSlot window.old window.new number place (Some Bury)
        (word, grave_word word) result.0 result.1 }
    ensures same { (result.0 == word) ≡ true → (taken : _) × (result.1 ≡ Some taken)
        × IsSamePair shown.now taken }
{
    let grave = Word::buried(Word(word).pair());
    let words = (word, grave.0);
    let (found, before) = window.exchange_slot(table, number, place, Some(StepKind::Bury), words);
    if found == word {
        shard.add(place as u64, -1);
        let Some(taken) = &before else { unreachable!() };
        window.book.parts.pairs.agrees(shown, taken);
    }
    (found, before)
}

/// Tries to bury the pair that a search has met; returns whether its word was still there. The
/// count then has one pair less, and the pair that was removed is the one that was met.
#[inline(always)]
pub(crate) fn bury_met<K: Hash + Eq, V, S: BuildHasher>(
    shard: &Shard<'_>,
    window: &mut Window<'_, K, V, S>,
    table: &Table<K, V, S>,
    met: &Met<K, V>,
) -> bool
    requires table { IsTable window.old met.now.place.table table.now }
    requires place { met.now.place.probe.i < length table.now.slots }
    requires open { IsOpen window.old }
    requires can { CanBury window.old met.now }
    requires placed { IsIn window.old (PairNamed met.now.stored) }
    requires number { met.now.stored.index ≡ pair_of met.now.word }
    ensures sees { Sees window.old window.new }
    ensures tried { TriesBurial window.old window.new met.now result }
    ensures does { Does result window.old window.new }
{
    let (place, word) = (met.place, met.word);
    let slot = place.probe.i;
    let (found, _) = bury_slot(shard, window, table, place.table, slot, word, &met.stored);
    found == word
}

/// Tries to remove the live pair that a compute's search has met; returns whether its word was
/// still there.
#[inline(always)]
pub fn bury<K: Hash + Eq, V, S: BuildHasher>(
    shard: &Shard<'_>,
    window: &mut Window<'_, K, V, S>,
    table: &Table<K, V, S>,
    met: &Met<K, V>,
) -> bool
    requires open { IsOpen window.old }
    requires shows { (key : K) × (begun : _) × CallsWith window.old key begun table.now met.now }
    ensures ends { Ends result window.old window.new }
    ensures went { result ≡ true → (key : K) → TakesOut window.old window.new key table.now
        met.now }
    ensures does { Does result window.old window.new }
{
    bury_met(shard, window, table, met)
}

/// Inserts a pair at the empty place that a search has found for it. If another word is there now,
/// its machine begins.
#[inline(always)]
fn claim_at<'a, R: Wait, K: Hash + Eq + Drop, V: Drop, S: BuildHasher>(
    means: &Means<'_, '_, R>,
    window: &mut Window<'a, K, V, S>,
    given: &mut OwnSteps<CapacityCause>,
    key: K,
    value: V,
    hash: u64,
    table: &Table<K, V, S>,
    at: Place,
) -> Result<Option<&'a V>, Refused>
    requires initial { IsPowerOfTwo means.now.initial }
    requires hashed { hash ≡ ⟦<S as Hashed<K>>⟧.hash window.old.book.now.parts.hasher key }
    requires limit { window.old.book.now.parts.limit ≡ None }
    requires open { IsOpen window.old }
    requires stands { IsStateAfter window.old key table.now (Empty at) }
    ensures ends { Ends (is_ok result) window.old window.new }
    ensures put { IfOk result (λ answer. HasWritten window.old window.new key value
        table.now (Empty at) answer) }
    ensures refused { IfErr result (λ refused. IsMemoryCapacityOrLimit refused) }
    ensures tells { HasCause means.now.initial window.new given.new.done
        (λ cause. result ≡ Err cause) }
{
    match claim(means.shard, window, key, value, hash, table, at) {
        Tried::Put(_) => Ok(None),
        Tried::Lost(pair) => insert_stored(means, window, given, hash, pair),
        Tried::Back((key, value)) => insert_slow(means, window, given, key, value),
    }
}

/// Replaces the pair that a search has met by one with its key; returns the old value. The key that
/// was passed in is dropped. If another word is there now, its machine begins.
#[inline(always)]
fn replace_at<'a, R: Wait, K: Hash + Eq + Drop, V: Drop, S: BuildHasher>(
    means: &Means<'_, '_, R>,
    window: &mut Window<'a, K, V, S>,
    given: &mut OwnSteps<CapacityCause>,
    key: K,
    value: V,
    hash: u64,
    table: &Table<K, V, S>,
    live: Live<'a, K, V>,
) -> Result<Option<&'a V>, Refused>
    requires initial { IsPowerOfTwo means.now.initial }
    requires hashed { hash ≡ ⟦<S as Hashed<K>>⟧.hash window.old.book.now.parts.hasher key }
    requires limit { window.old.book.now.parts.limit ≡ None }
    requires open { IsOpen window.old }
    requires stands { IsStateAfter window.old key table.now (MetPair live) }
    ensures ends { Ends (is_ok result) window.old window.new }
    ensures put { IfOk result (λ answer. HasWritten window.old window.new key value
        table.now (MetPair live.entry) answer) }
    ensures refused { IfErr result (λ refused. IsMemoryCapacityOrLimit refused) }
    ensures tells { HasCause means.now.initial window.new given.new.done
        (λ cause. result ≡ Err cause) }
{
    let book = window.book;
    match replace(window, value, table, &live) {
        Tried::Put(_) => Ok(Some(book.value(live.pair))),
        Tried::Lost(pair) => {
            let write = Write {
                place: live.met.place,
                old: live.met.word,
            };
            insert_met(means, window, given, key, hash, write, pair)
        }
        Tried::Back(value) => insert_slow(means, window, given, key, value),
    }
}

/// Inserts a pair; returns the value that its key had. If it fails with `Refused::Capacity`,
/// `given` records the number that a full arena of tables gave, or the sum of the count that makes
/// a next table too long.
#[inline(always)]
pub fn insert<'a, R: Wait, K: Hash + Eq + Drop, V: Drop, S: BuildHasher>(
    rt: &R,
    alloc: Global,
    initial: usize,
    shard: &Shard<'_>,
    window: &mut Window<'a, K, V, S>,
    given: &mut OwnSteps<CapacityCause>,
    key: K,
    value: V,
) -> Result<Option<&'a V>, Refused>
    requires initial { IsPowerOfTwo initial }
    requires open { IsOpen window.old }
    ensures ends { Ends (is_ok result) window.old window.new }
    ensures put { IfOk result (λ answer. IsPut K.eq key value (past window.old) (past window.new)
        answer) }
    ensures refused { IfErr result (λ refused. IsMemoryCapacityOrLimit refused) }
    ensures tells { HasCause initial window.new given.new.done (λ cause. result ≡ Err cause) }
{
    window.learn();
    let hash = hash(&window.book.parts.hasher, &key);
    let means = Means {
        rt,
        alloc,
        initial,
        shard,
    };
    // Searches the root for the key's pair or an empty place. The new pair is stored first, and
    // then one exchange puts it there, by which the insertion takes effect. If a limit requires a
    // number, the root has no place, pairs are being moved or the exchange is lost, the machine of
    // the call does it step by step.
    if window.book.parts.limit.is_some() {
        return insert_slow(&means, window, given, key, value);
    }
    let Some(spot) = find_place(window, &key, hash) else {
        return insert_slow(&means, window, given, key, value);
    };
    let table = spot.table;
    match spot.turn {
        ProbeHit::Empty(at) => claim_at(&means, window, given, key, value, hash, table, at),
        ProbeHit::Met(live) => replace_at(&means, window, given, key, value, hash, table, live),
        ProbeHit::Over(number) => insert_onward(
            &means, window, given, key, value, hash, table, number,
        ),
        _ => insert_slow(&means, window, given, key, value),
    }
}
