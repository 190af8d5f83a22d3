//! Calls that store a value as their rule decides. Each is a compute whose rule is a type in place
//! of a closure, and none removes a pair.
//!
//! A rule is called with a value alone, so the fast path reads no key of a pair, and returns the
//! outcome without a `Compute`. The slow path is that of all computes.
ghost use Rattle.papaya_map_change.specs.Window.Ends.{Ends, HasCause};
ghost use Rattle.std.specs.Prelude.{◌≡◌, None, Some, Option, Ok, Err};
ghost use Rattle.std.specs.Int.{IsPowerOfTwo};
ghost use Rattle.papaya_map_lookup.specs.Drivers.{past};
ghost use Rattle.papaya_map_book.specs.Windows.{IsLawful, IsOpen, Observes};
ghost use Rattle.papaya_map_change.specs.declared.fast_path.ProbeHit.TheVariants.{Empty, Met as MetPair};
ghost use Rattle.papaya_map_compute.specs.Deciding.{AsksRule, IsDecided, answer_of, outcome_of, puts};
ghost use Rattle.papaya_map_compute.specs.FastPath.{ComesTo, IsSearchEnd, IsOnItsWay};
ghost use Rattle.papaya_map_compute.specs.Operating.{CallsClosure};

use crate::fast_path::{Attempt, Start, search_root, store_by_waiting};
use crate::operating::{Operator, slow};
use papaya_call::answers::Operation;
use papaya_call::search::Place;
use papaya_map_book::book::pairs::KeyPart;
use papaya_map_book::count::Shard;
use papaya_map_book::rule::own::{CapacityCause, OwnSteps};
use papaya_map_book::table::Table;
use papaya_map_book::window::Window;
use papaya_map_change::driver::Means;
use papaya_map_change::fast_path::{Live, ProbeHit, Tried, claim, replace};
use papaya_map_change::removal::value_of;
use papaya_map_lookup::lookup::hash;
use papaya_words::refused::Refused;
use papaya_words_keys::results::Compute;
use std::alloc::Global;
use std::hash::{BuildHasher, Hash};
use std::sync::Wait;

/// The rule of such a call: it decides which value is stored, by the one that the key has. It may
/// be called again if another call was first to change the key's pair.
///
/// A rule states for contracts what each call of it may return, and the rule's state then.
pub trait Rule<V> {
    ghost callable: { Self → Type 0 };

    ghost decides: { Self → Option V → Option V → Self → Type 0 };

    /// Returns the value to store for an absent key, or `None` for none. Called once at most.
    fn absent(&mut self) -> Option<V>
        requires { callable self.old }
        ensures callable { callable self.new }
        ensures decides { decides self.old None result self.new };

    /// Returns the value to store in place of this one, or `None` to keep it.
    fn present(&mut self, value: &V) -> Option<V>
        requires { callable self.old }
        ensures callable { callable self.new }
        ensures decides { decides self.old (Some value.now) result self.new };
}

/// The outcome of such a call.
#[derive(Drop)]
pub enum Decided<'a, V> {
    /// The key had no pair, and has this value now.
    Put(&'a V),
    /// This value took another's place.
    Replaced(&'a V),
    /// All is as it was: the key's value, if it has one, and a value that was stored in the arena
    /// for an absent key and then lost the race.
    Left {
        current: Option<&'a V>,
        spare: Option<&'a V>,
    },
}

/// Calls a rule.
struct ByRule;

impl<'a, K, V, D: Rule<V>> Operator<'a, K, V, (), D> for ByRule {
    ghost callable = { D.callable };

    ghost operates = { AsksRule D.decides };

    #[inline(always)]
    fn operate(rule: &mut D, shown: Option<(&'a K, &'a V)>) -> Operation<V, ()> {
        let wanted = match shown {
            None => rule.absent(),
            Some((_, value)) => rule.present(value),
        };
        match wanted {
            Some(value) => Operation::Insert(value),
            None => Operation::Abort(()),
        }
    }
}

/// Returns the outcome by what the compute did, if the key had the current value, and the spare one
/// was stored.
#[inline(always)]
fn outcome_by<'a, K, V>(
    done: Compute<'a, K, V, ()>,
    current: Option<&'a V>,
    spare: Option<&'a V>,
) -> Decided<'a, V>
    requires { (k : _) (v : _) → done ≡ Compute.Removed k v → ⊥ }
    ensures { result ≡ outcome_of done.entry current.entry spare.entry }
{
    match done {
        Compute::Inserted(_, value) => Decided::Put(value),
        Compute::Updated { new, .. } => Decided::Replaced(new.1),
        Compute::Removed(_, _) => unreachable!(),
        Compute::Aborted(()) => Decided::Left { current, spare },
    }
}

/// Returns the result of the call by the result of its compute.
#[inline(always)]
fn decision<'a, K, V>(
    answer: Result<Compute<'a, K, V, ()>, Refused>,
    current: Option<&'a V>,
    spare: Option<&'a V>,
) -> Result<Decided<'a, V>, Refused>
    requires { (k : _) (v : _) → answer ≡ Ok (Compute.Removed k v) → ⊥ }
    ensures { result ≡ answer_of answer.entry current.entry spare.entry }
{
    match answer {
        Ok(done) => Ok(outcome_by(done, current, spare)),
        Err(refused) => Err(refused),
    }
}

/// Stores the value that the rule returns for an absent key, at the empty place that a search has
/// found. If another call was first, it returns where the machine starts.
#[inline(always)]
fn decide_absent<'a, R: Wait, K: Hash + Eq + Drop, V: Drop, S: BuildHasher, D: Rule<V>>(
    means: &Means<'_, '_, R>,
    window: &mut Window<'a, K, V, S>,
    key: K,
    hash: u64,
    table: &Table<K, V, S>,
    at: Place,
    rule: &mut D,
) -> Attempt<Start<K, V>, Result<Decided<'a, V>, Refused>>
    requires callable { D.callable rule.old }
    requires open { IsOpen window.old }
    requires led { (begun : _) × IsSearchEnd window.old key hash begun table.now (Empty at) }
    ensures callable { D.callable rule.new }
    ensures comes { (since : _) → IsSearchEnd window.old key hash since.sight.log table.now (Empty at)
        → Observes since window.old → ComesTo puts (IsDecided K.eq key (past since)
        (past window.new) D.decides rule.old rule.new) (IsOnItsWay since window.new key
        (CallsClosure (AsksRule D.decides)) rule.old rule.new) since window.new result }
{
    let Some(value) = rule.absent() else {
        return Attempt::Over(Ok(Decided::Left {
            current: None,
            spare: None,
        }));
    };
    match claim(means.shard, window, key, value, hash, table, at) {
        Tried::Put(pair) => Attempt::Over(Ok(Decided::Put(value_of(window.book, &pair)))),
        Tried::Lost(pair) => Attempt::On(Start::Filled { hash, pair }),
        Tried::Back((key, value)) => {
            match store_by_waiting(means.rt, window.book, hash, KeyPart::Own(key), value) {
                Some(pair) => Attempt::On(Start::Filled { hash, pair }),
                None => Attempt::Over(Err(Refused::Memory)),
            }
        }
    }
}

/// Replaces the value that a search has met by the one that the rule returns for it. If another
/// call was first, it returns where the machine starts.
#[inline(always)]
fn decide_present<'a, R: Wait, K: Hash + Eq + Drop, V: Drop, S: BuildHasher, D: Rule<V>>(
    means: &Means<'_, '_, R>,
    window: &mut Window<'a, K, V, S>,
    key: K,
    hash: u64,
    table: &Table<K, V, S>,
    live: Live<'a, K, V>,
    rule: &mut D,
) -> Attempt<Start<K, V>, Result<Decided<'a, V>, Refused>>
    requires callable { D.callable rule.old }
    requires open { IsOpen window.old }
    requires led { (begun : _) × IsSearchEnd window.old key hash begun table.now (MetPair live) }
    ensures callable { D.callable rule.new }
    ensures comes { (since : _) → IsSearchEnd window.old key hash since.sight.log table.now
        (MetPair live.entry) → Observes since window.old → ComesTo puts (IsDecided K.eq key
        (past since) (past window.new) D.decides rule.old rule.new) (IsOnItsWay since window.new
        key (CallsClosure (AsksRule D.decides)) rule.old rule.new) since window.new result }
{
    let book = window.book;
    let old = book.value(live.pair());
    let Some(value) = rule.present(old) else {
        return Attempt::Over(Ok(Decided::Left {
            current: Some(old),
            spare: None,
        }));
    };
    match replace(window, value, table, &live) {
        Tried::Put(pair) => Attempt::Over(Ok(Decided::Replaced(value_of(book, &pair)))),
        Tried::Lost(pair) => Attempt::On(Start::Replaced {
            key,
            hash,
            met: live.into_met(),
            pair,
        }),
        Tried::Back(value) => {
            let by = &live.met().stored;
            let (lane, of) = (by.index() as u64, KeyPart::Of(by.again()));
            match store_by_waiting(means.rt, book, lane, of, value) {
                Some(pair) => Attempt::On(Start::Replaced {
                    key,
                    hash,
                    met: live.into_met(),
                    pair,
                }),
                None => Attempt::Over(Err(Refused::Memory)),
            }
        }
    }
}

/// Looks for the key in the root. If the search ends at an empty place or at a live pair, it does
/// at once what the rule returns. Otherwise, and if another call was first, it returns where the
/// machine starts.
#[inline(always)]
fn decide_fast<'a, R: Wait, K: Hash + Eq + Drop, V: Drop, S: BuildHasher, D: Rule<V>>(
    means: &Means<'_, '_, R>,
    window: &mut Window<'a, K, V, S>,
    key: K,
    rule: &mut D,
) -> Attempt<Start<K, V>, Result<Decided<'a, V>, Refused>>
    requires callable { D.callable rule.old }
    requires open { IsOpen window.old }
    requires lawful { IsLawful window.old }
    ensures callable { D.callable rule.new }
    ensures comes { ComesTo puts (IsDecided K.eq key (past window.old) (past window.new) D.decides
        rule.old rule.new) (IsOnItsWay window.old window.new key (CallsClosure (AsksRule D.decides))
        rule.old rule.new) window.old window.new result }
{
    let hash = hash(&window.book.parts.hasher, &key);
    let Some(spot) = search_root(window, &key, hash) else {
        return Attempt::On(Start::Beginning(key));
    };
    let table = spot.table;
    match spot.turn {
        ProbeHit::Empty(at) => decide_absent(means, window, key, hash, table, at, rule),
        ProbeHit::Met(live) => decide_present(means, window, key, hash, table, live, rule),
        _ => Attempt::On(Start::Beginning(key)),
    }
}

/// Runs the machine of such a call from this start to its end. Like [`slow`] it is a call of its
/// own.
#[cold]
#[inline(never)]
fn decide_slow<'a, R: Wait, K: Hash + Eq + Drop, V: Drop, S: BuildHasher, D: Rule<V>>(
    means: &Means<'_, '_, R>,
    window: &mut Window<'a, K, V, S>,
    given: &mut OwnSteps<CapacityCause>,
    start: Start<K, V>,
    rule: &mut D,
) -> Result<Decided<'a, V>, Refused>
    requires callable { D.callable rule.old }
    requires initial { IsPowerOfTwo means.now.initial }
    requires open { IsOpen window.old }
    requires can { (since : _) × (key : K) × (first : D) × IsOnItsWay since window.old key
        (CallsClosure (AsksRule D.decides)) first rule.old start }
    ensures ends { Ends (puts result) window.old window.new }
    ensures tells { HasCause means.now.initial window.new given.new.done
        (λ cause. result ≡ Err cause) }
    ensures decided { (since : _) (key : K) (first : D) → IsOnItsWay since window.old key
        (CallsClosure (AsksRule D.decides)) first rule.old start → IsDecided K.eq key (past since)
        (past window.new) D.decides first rule.new result }
{
    let ended = slow::<ByRule, R, K, V, S, (), D>(means, window, given, start, rule);
    decision(ended.answer, ended.current, ended.spare)
}

/// Stores for a key what the rule returns. If it fails with `Refused::Capacity`, `given` records
/// the number that a full arena of tables gave, or the sum of the count that makes a next table too
/// long.
#[inline(always)]
pub fn decide<'a, R: Wait, K: Hash + Eq + Drop, V: Drop, S: BuildHasher, D: Rule<V>>(
    rt: &R,
    alloc: Global,
    initial: usize,
    shard: &Shard<'_>,
    window: &mut Window<'a, K, V, S>,
    given: &mut OwnSteps<CapacityCause>,
    key: K,
    rule: &mut D,
) -> Result<Decided<'a, V>, Refused>
    requires callable { D.callable rule.old }
    requires initial { IsPowerOfTwo initial }
    requires open { IsOpen window.old }
    ensures ends { Ends (puts result) window.old window.new }
    ensures tells { HasCause initial window.new given.new.done (λ cause. result ≡ Err cause) }
    ensures decided { IsDecided K.eq key (past window.old) (past window.new) D.decides rule.old
        rule.new result }
{
    window.learn();
    let means = Means {
        rt,
        alloc,
        initial,
        shard,
    };
    match decide_fast(&means, window, key, rule) {
        Attempt::Over(answer) => answer,
        Attempt::On(start) => decide_slow(&means, window, given, start, rule),
    }
}
