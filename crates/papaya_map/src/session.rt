//! The session, one thread's access to a map, and its calls, a file for each kind.
ghost use Rattle.std.specs.Prelude.{◌≡◌, IfOk, Err, [], is_ok, true};
ghost use mathlib.Core.List.{IsPrefix};
ghost use Rattle.papaya_map_lookup.specs.History.{IsLegalHistory, history_of, key_of};

mod computes;
mod copying;
mod deciding;
mod inserting;
mod lookups;
mod removals;
mod resizing;
mod scans;
mod updating;

use crate::map::{HashMap, HashMapRef};
use crate::observed::{Observed, Saying};
use crate::pass::Pass;
use papaya_map_scan::walk::Iter;
use papaya_words::refused::Refused;
use papaya_words_keys::guard::Guard;
use std::hash::{BuildHasher, BuildHasherDefault, FoldHasher, Hash};
use std::marker::Model;

/// One thread's access to a shared map. It records the history of the map that the thread has
/// observed. 0.2.5 has no such type. Each call takes effect after everything that the session had
/// observed before, and the session then has observed that effect too. So a thread reads its own
/// writes: a value that it reads was in the map at some point after them.
///
/// Contracts see the settings of the map, the observed history, and the changes that this session
/// made, oldest first. They see the length of each table that the session has observed. After
/// `Refused::Capacity` they see its cause: the number that a full arena of tables gave, or the sum
/// of the count. In a map with a limit on entries, they see how many numbers were taken for
/// entries.
pub struct Session<'a, K: Hash + Eq, V, S: BuildHasher = BuildHasherDefault<FoldHasher>> {
    map: HashMapRef<'a, K, V, S>,
    pass: Pass<K, V, S>,
}

impl<'a, K: Hash + Eq, V, S: BuildHasher> Model for Session<'a, K, V, S> {
    ghost use Rattle.std.specs.Prelude.{◌≡◌};
    ghost use Rattle.papaya_map.specs.Known.{Known};

    ghost Value = { Known K V S };

    ghost view = { λ s. record {
      map = s.map.map;
      history = s.pass.history;
      made = s.pass.made;
      tables = s.pass.tables;
      given = s.pass.given;
      taken = s.pass.taken;
    } };

    ghost invariant = { λ s. s.pass.book ≡ s.map.map.book };
}

impl<'a, K: Hash + Eq, V, S: BuildHasher> Drop for Session<'a, K, V, S> {
    #[inline(always)]
    fn drop(self) {
        let Self { map: _, pass: _ } = self;
    }
}

impl<'a, K: Hash + Eq, V, S: BuildHasher> Session<'a, K, V, S> {
    /// Returns a new session of this map. It takes the place of `pin` of 0.2.5. The session has
    /// observed no change yet. It draws a number by one addition to a counter that all threads
    /// share, and writes no word of a table.
    ///
    /// # Examples
    ///
    /// ```
    /// let map: HashMap<u64, u64> = HashMap::new(rt, alloc)?;
    /// let mut session = Session::new(&map);
    /// session.insert(rt, 1, 10)?;
    /// let value = session.get(&1); // Some(&10)
    /// ```
    pub fn new(map: &'a HashMap<K, V, S>) -> Session<'a, K, V, S>
        ensures map { result.map ≡ map.now }
        ensures new { result.history ≡ [] }
        ensures made { result.made ≡ [] }
        ensures tables { result.tables ≡ [] }
        ensures given { result.given ≡ [] }
    {
        Session {
            map: map.pin(),
            pass: map.pass(),
        }
    }

    /// Returns the number of entries in the map's arena, as [`HashMap::stored`] counts them.
    pub fn stored(&self) -> usize {
        self.map.stored()
    }

    /// Returns the map that this is a session of.
    pub fn map(&self) -> &'a HashMap<K, V, S>
        ensures { result.now ≡ self.now.map }
    {
        self.map.map()
    }

    /// Returns a pinned map, for calls without a history. It has observed what the session has
    /// observed: each result of its calls is correct for some state no earlier than that. Does
    /// nothing at run time.
    pub fn pinned(&self) -> HashMapRef<'a, K, V, S>
        ensures map { result.map ≡ self.now.map }
        ensures seen { IsPrefix self.now.history result.seen }
    {
        self.map.after(&self.pass)
    }

    /// Returns the number of entries: `len` of 0.2.5. Each change is counted one step after it is
    /// made, so a change that another thread is making may be counted or not.
    pub fn len(&self) -> usize {
        self.map.len()
    }

    /// Returns whether [`Session::len`] is 0: `is_empty` of 0.2.5.
    pub fn is_empty(&self) -> bool {
        self.map.is_empty()
    }

    /// Does nothing. Its contract states that the observed history is legal: each change takes out
    /// what the map has for its key, and puts in an entry of an equal key. An entry that replaces
    /// another one has the same stored key.
    pub fn legal(&self)
        ensures { IsLegalHistory K.eq key_of self.now.history }
    {
        let Observed {
            answer: _,
            marker: _,
        } = self.pass.tell(());
    }

    /// For this library's own calls. Returns a result together with evidence of the history that the
    /// session has observed and of the changes that it made. A call that creates its own session uses this to state for which
    /// history its result is correct, and which changes it made: see [`Observed`].
    #[inline(always)]
    pub fn tell<B>(&self, answer: B) -> Saying<B, K, V, S>
        ensures answer { result.answer ≡ answer }
        ensures book { result.book ≡ self.now.map.book }
        ensures history { history_of result.log ≡ self.now.history }
        ensures legal { IsLegalHistory K.eq key_of (history_of result.log) }
        ensures made { history_of result.made ≡ self.now.made }
    {
        self.pass.tell(answer)
    }

    /// Shares what two sessions of one map have observed. Afterwards both have observed the same
    /// history, which begins with what each had observed before. Does nothing at run time, and
    /// never fails. The caller proves that both sessions are of one map, since no type states it.
    pub fn meet(&mut self, other: &mut Session<'_, K, V, S>)
        requires { other.old.map.book ≡ self.old.map.book }
        ensures maps { (self.new.map ≡ self.old.map) × (other.new.map ≡ other.old.map) }
        ensures made { (self.new.made ≡ self.old.made) × (other.new.made ≡ other.old.made) }
        ensures one { (self.new.history ≡ other.new.history)
            × (self.new.tables ≡ other.new.tables) }
        ensures first { IsPrefix self.old.history self.new.history
            × IsPrefix self.old.tables self.new.tables }
        ensures second { IsPrefix other.old.history other.new.history
            × IsPrefix other.old.tables other.new.tables }
    {
        self.map.meet(&mut self.pass, &mut other.pass)
    }

    /// Adds what an iterator has observed to what the session has observed. Afterwards the
    /// session's calls take effect after everything that the iterator has yielded. Does nothing at
    /// run time, and never fails. As for [`Session::meet`], the caller proves that the iterator is
    /// of the session's map.
    pub fn learn_walk(&mut self, walk: &Iter<'_, K, V, S>)
        requires { walk.now.book ≡ self.old.map.book }
        ensures map { self.new.map ≡ self.old.map }
        ensures seen { IsPrefix self.old.history self.new.history }
        ensures walked { IsPrefix walk.now.history self.new.history }
        ensures tables { IsPrefix self.old.tables self.new.tables }
        ensures made { self.new.made ≡ self.old.made }
        ensures given { self.new.given ≡ self.old.given }
    {
        self.pass.learn_walk(walk);
    }
}

impl<'a, K: Hash + Eq, V, S: BuildHasher> HashMapRef<'a, K, V, S> {
    /// For this library's own calls. Returns a session of this map, which has observed the history
    /// up to the pin. Its calls pick the count's shard by this number if there is one, and otherwise
    /// by the key.
    #[inline(always)]
    pub fn begun_session(&self, number: Option<u64>) -> Session<'a, K, V, S>
        ensures map { result.map ≡ self.now.map }
        ensures seen { result.history ≡ self.now.seen }
        ensures made { result.made ≡ [] }
        ensures given { result.given ≡ [] }
    {
        Session {
            map: self.again(),
            pass: self.begun(number),
        }
    }
}

impl<K: Hash + Eq, V, S: BuildHasher> HashMap<K, V, S> {
    /// For this library's own calls. Returns a session of this map, which has observed the history
    /// up to the map's creation. Its calls pick the count's shard by this number if there is one,
    /// and otherwise by the key.
    #[inline(always)]
    pub fn begun_session(&self, number: Option<u64>) -> Session<'_, K, V, S>
        ensures map { result.map ≡ self.now }
        ensures seen { result.history ≡ self.now.seen }
        ensures made { result.made ≡ [] }
        ensures given { result.given ≡ [] }
    {
        Session {
            map: self.pin(),
            pass: self.begun(number),
        }
    }

    /// Returns a session for a call with this guard, by whose number it picks the count's shard.
    /// Fails as [`HashMap::verify`] does.
    #[inline(always)]
    pub(crate) fn session_by<'g, G: Guard>(
        &'g self,
        guard: &G,
    ) -> Result<Session<'g, K, V, S>, Refused>
        ensures map { IfOk result (λ session. session.map ≡ self.now) }
        ensures seen { IfOk result (λ session. session.history ≡ self.now.seen) }
        ensures made { IfOk result (λ session. session.made ≡ []) }
        ensures right { G.collector_number guard.now ≡ self.now.collector → is_ok result ≡ true }
        ensures wrong { (G.collector_number guard.now ≡ self.now.collector → ⊥)
            → result ≡ Err Refused.WrongGuard }
    {
        self.verify(guard)?;
        Ok(self.begun_session(Some(guard.number())))
    }
}
