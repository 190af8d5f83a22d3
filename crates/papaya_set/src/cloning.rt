//! Sets of clones, and comparisons of sets.
ghost use Rattle.std.specs.Prelude.{◌≡◌, ◌≢◌, ℕ, true, IfErr, IfOk, None, OnOk, length};
ghost use mathlib.Core.List.{IsPrefix};
ghost use Rattle.papaya_words.specs.Probe.{IsEntriesFor};
ghost use Rattle.papaya_words.specs.declared.limits.TheConstants.{DEFAULT_CHUNK, DEFAULT_SHARDS};
ghost use Rattle.papaya_core_timeline.specs.Content.{content};
ghost use Rattle.papaya_core_timeline.specs.Core.{unlimited};
ghost use Rattle.papaya_words_keys.specs.Hashes.{hash_of};
ghost use Rattle.papaya_seq.specs.Clones.{HasParts, IsCloneRefusal, IsRebuildRefusal, IsRebuilt};
ghost use Rattle.papaya_seq.specs.PutAlone.{IsClonedAlone, IsRebuiltAlone};
ghost use Rattle.papaya_map_change.specs.Writing.{IsMemoryOrCapacity};
ghost use Rattle.papaya_map.specs.Collected.{AreCopied};
ghost use Rattle.papaya_map.specs.Fixed.{HasFirstTable, HasSettingsOf, IsFor};
ghost use Rattle.papaya_map.specs.Limited.{IsPlainRefusal};

use crate::seq;
use crate::set::HashSet;
use papaya_map::pass::Pass;
use papaya_words::refused::Refused;
use papaya_words::resize_mode::ResizeMode;
use std::alloc::Global;
use std::hash::{BuildHasher, Hash};
use std::sync::Wait;

impl<K: Hash + Eq + Clone + Drop, S: BuildHasher + Clone + Drop> seq::HashSet<K, S> {
    /// Returns a set of clones: the trait `Clone` of 0.2.5. A key's clone must be equal to it. It
    /// works as [`papaya_seq::seq::HashMap::try_clone`] does for a map.
    ///
    /// # Errors
    ///
    /// Fails with `Refused::Memory` or `Refused::Capacity`, as
    /// [`papaya_seq::seq::HashMap::try_clone`] does.
    pub fn try_clone(&self, alloc: Global) -> Result<seq::HashSet<K, S>, Refused>
        requires { (k l : K) → K.is_clone k l → K.eq k l ≡ true }
        ensures clones { IfOk result (λ made. IsRebuilt K.eq K.is_clone (λ v w. w ≡ v) S.is_clone
            self.now made) }
        ensures parts { IfOk result (λ made. (made.mode
            ≡ unlimited (ResizeMode.Incremental DEFAULT_CHUNK))
            × IsEntriesFor (length (content K.eq self.now.store)) made.initial
            × (made.store.count.shards ≡ 1)) }
        ensures alone { IfOk result (IsClonedAlone K.eq
            (hash_of K.hash_input S.build_hasher S.Hasher.write S.Hasher.finish) K.is_clone
            (λ v w. w ≡ v) self.now) }
        ensures err { IfErr result (λ e. IsCloneRefusal K.eq K.is_clone (λ v w. w ≡ v)
            self.now.store e) }
        ensures below { IfErr result (λ e. e ≢ Refused.Limit) }
    {
        match self.map.try_clone(alloc) {
            Ok(map) => Ok(seq::HashSet { map }),
            Err(refused) => Err(refused),
        }
    }

    /// Rebuilds the set from clones of its keys, and frees everything else that it stored, as
    /// [`papaya_seq::seq::HashMap::reclaim`] does for a map. A key's clone must be equal to it.
    /// Only the set's keys count against a limit then, so the call does not reach it.
    ///
    /// # Errors
    ///
    /// Fails with `Refused::Memory` or `Refused::Capacity`, as that `reclaim` does, and then leaves
    /// the set as it was.
    pub fn reclaim(&mut self) -> Result<(), Refused>
        requires { (k l : K) → K.is_clone k l → K.eq k l ≡ true }
        ensures clones { OnOk result (IsRebuilt K.eq K.is_clone (λ v w. w ≡ v) S.is_clone self.old
            self.new) }
        ensures parts { OnOk result (HasParts self.old self.new) }
        ensures numbers { OnOk result (self.new.store.words.made
            ≡ length (content K.eq self.old.store)) }
        ensures alone { OnOk result (IsRebuiltAlone K.eq
            (hash_of K.hash_input S.build_hasher S.Hasher.write S.Hasher.finish) K.is_clone
            (λ v w. w ≡ v) self.old self.new) }
        ensures err { IfErr result (λ e. (self.new ≡ self.old)
            × IsRebuildRefusal K.eq K.is_clone (λ v w. w ≡ v) self.old e) }
        ensures below { IfErr result (λ e. e ≢ Refused.Limit) }
    {
        self.map.reclaim()
    }
}

impl<K: Hash + Eq, S: BuildHasher> HashSet<K, S> {
    /// Returns whether both sets have the same keys: `PartialEq` of 0.2.5. If another thread
    /// changes one of the sets meanwhile, the result may be either.
    ///
    /// # Errors
    ///
    /// Fails with `Refused::Memory` or `Refused::Capacity`, as
    /// [`HashSetRef::iter`](crate::set::HashSetRef::iter) does.
    pub fn eq<R: Wait>(&self, rt: &R, other: &HashSet<K, S>) -> Result<bool, Refused>
        ensures { IfErr result IsMemoryOrCapacity }
    {
        self.map.eq(rt, &other.map)
    }
}

impl<K: Hash + Eq + Clone + Drop, S: BuildHasher + Clone + Drop> HashSet<K, S> {
    /// Returns a set of clones of this one's keys: the trait `Clone` of 0.2.5. A key that is stored
    /// or removed meanwhile may be copied or not. It works as
    /// [`papaya_map::map::HashMap::try_clone`] does for a map.
    ///
    /// # Errors
    ///
    /// Fails with `Refused::Memory` or `Refused::Capacity`, as
    /// [`papaya_map::map::HashMap::try_clone`] does.
    pub fn try_clone<R: Wait>(&self, rt: &R, alloc: Global) -> Result<HashSet<K, S>, Refused>
        ensures made { IfOk result (λ set. (keys : ℕ)
            × IsFor (ResizeMode.Incremental DEFAULT_CHUNK) keys DEFAULT_SHARDS None set) }
        ensures hasher { IfOk result (λ set. S.is_clone self.now.begun.hasher set.begun.hasher) }
        ensures refused { IfErr result IsMemoryOrCapacity }
    {
        match self.map.try_clone(rt, alloc) {
            Ok(map) => Ok(HashSet { map }),
            Err(refused) => Err(refused),
        }
    }

    /// Returns a set of clones of this one's keys, by a pass of [`HashSet::map`]. Each key that the
    /// pass had observed in the set is copied, unless a change took it out meanwhile. Each key that
    /// is copied was in the set at some point since. The pass then has observed the iteration over
    /// this set. It works as [`papaya_map::map::HashMap::try_clone_as`] does for a map.
    ///
    /// # Errors
    ///
    /// Fails with `Refused::Memory` or `Refused::Capacity`, as [`HashSet::try_clone`] does.
    pub fn try_clone_as<R: Wait>(
        &self,
        rt: &R,
        alloc: Global,
        pass: &mut Pass<K, (), S>,
    ) -> Result<HashSet<K, S>, Refused>
        requires { pass.old.book ≡ self.now.book }
        ensures book { pass.new.book ≡ pass.old.book }
        ensures seen { IsPrefix pass.old.history pass.new.history }
        ensures tables { IsPrefix pass.old.tables pass.new.tables }
        ensures own { pass.new.made ≡ pass.old.made }
        ensures made { IfOk result (λ set. (keys : ℕ)
            × IsFor (ResizeMode.Incremental DEFAULT_CHUNK) keys DEFAULT_SHARDS None set) }
        ensures hasher { IfOk result (λ set. S.is_clone self.now.begun.hasher set.begun.hasher) }
        ensures copied { IfOk result (λ set. AreCopied K.eq K.is_clone (λ v w. w ≡ v)
            pass.old.history pass.new.history set.seen) }
        ensures refused { IfErr result IsMemoryOrCapacity }
    {
        match self.map.try_clone_as(rt, alloc, pass) {
            Ok(map) => Ok(HashSet { map }),
            Err(refused) => Err(refused),
        }
    }

    /// Rebuilds the set from clones of its keys, and frees everything that it held before, as
    /// [`papaya_map::map::HashMap::reclaim`] does for a map. No session or pinned set outlives the
    /// call, since it takes `&mut self`.
    ///
    /// # Errors
    ///
    /// Fails with `Refused::Memory` or `Refused::Capacity`, as that `reclaim` does. The set is then
    /// as it was.
    pub fn reclaim<R: Wait>(&mut self, rt: &R) -> Result<(), Refused>
        ensures ok { IfOk result (λ _. HasSettingsOf self.old self.new) }
        ensures hasher { IfOk result (λ _. S.is_clone self.old.begun.hasher
            self.new.begun.hasher) }
        ensures opened { IfOk result (λ _. HasFirstTable self.new) }
        ensures err { IfErr result (λ refused. IsPlainRefusal self.old.begun.limit refused
            × (self.new ≡ self.old)) }
    {
        self.map.reclaim(rt)
    }

    /// Rebuilds the set from clones of its keys, as [`HashSet::reclaim`] does, by a pass of
    /// [`HashSet::map`]. Each key that the pass had observed in the set is kept, unless a change
    /// took it out meanwhile. Each key that is kept was in the set at some point since. It works as
    /// [`papaya_map::map::HashMap::reclaim_as`] does for a map.
    ///
    /// # Errors
    ///
    /// Fails with `Refused::Memory` or `Refused::Capacity`, as [`HashSet::reclaim`] does. The set is
    /// then as it was, and the pass can still be used.
    pub fn reclaim_as<R: Wait>(&mut self, rt: &R, pass: &mut Pass<K, (), S>) -> Result<(), Refused>
        requires { pass.old.book ≡ self.old.book }
        ensures book { pass.new.book ≡ pass.old.book }
        ensures seen { IsPrefix pass.old.history pass.new.history }
        ensures own { pass.new.made ≡ pass.old.made }
        ensures ok { IfOk result (λ _. HasSettingsOf self.old self.new) }
        ensures hasher { IfOk result (λ _. S.is_clone self.old.begun.hasher
            self.new.begun.hasher) }
        ensures opened { IfOk result (λ _. HasFirstTable self.new) }
        ensures copied { IfOk result (λ _. AreCopied K.eq K.is_clone (λ v w. w ≡ v)
            pass.old.history pass.new.history self.new.seen) }
        ensures err { IfErr result (λ refused. IsPlainRefusal self.old.begun.limit refused
            × (self.new ≡ self.old)) }
    {
        self.map.reclaim_as(rt, pass)
    }
}
