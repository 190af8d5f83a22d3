//! The items that were met before: threads that work on one list of items skip those that another
//! has met. A set that threads share has the items. Each thread accesses it by a session of the
//! set's map, so that the results of two threads can be compared.
ghost use Rattle.std.specs.Prelude.{◌≡◌, ◌==◌, ◌⊎◌, ℕ, [], true, IfErr, IfOk, is_ok};
ghost use mathlib.Core.List.{IsPrefix};
ghost use Rattle.papaya.specs.Threads.{IsLegalHistory, IsMemoryOrCapacity, IsWriteRefusal, Makes, key_of};
ghost use Rattle.papaya_uses.specs.Answers.{is_yes};
ghost use Rattle.papaya_uses.specs.Seen.{IsForgotten, IsMet, Seen, WasForgotten};

use papaya::{HashSet, Refused, Session};
use std::hash::{BuildHasherDefault, FoldHasher};
use std::marker::Model;
use std::sync::Wait;

/// The items that were met, by their numbers.
pub type Items = HashSet<u64, BuildHasherDefault<FoldHasher>>;

/// One thread's access to the items, with the history that the thread has observed.
#[derive(Drop)]
pub struct Finder<'a> {
    items: Session<'a, u64, ()>,
}

impl<'a> Model for Finder<'a> {
    ghost use Rattle.std.specs.Prelude.{ℕ};
    ghost use Rattle.std.specs.declared.hash.FoldHasher.{FoldHasher};
    ghost use Rattle.std.specs.declared.hash.BuildHasherDefault.{BuildHasherDefault};
    ghost use Rattle.papaya.specs.Threads.{Known};

    ghost Value = { Known ℕ (Unit {0}) (BuildHasherDefault FoldHasher) };

    ghost view = { λ finder. finder.items };
}

impl<'a> Finder<'a> {
    /// Returns a finder of the thread's own.
    pub fn new(items: &'a Items) -> Finder<'a>
        ensures map { result.map ≡ items.now }
        ensures new { result.history ≡ [] }
        ensures made { result.made ≡ [] }
    {
        Finder {
            items: Session::new(items.map()),
        }
    }

    /// Records that an item was met, and returns whether it is new. As long as no thread forgets
    /// the item, at most one call returns true for it.
    ///
    /// # Errors
    ///
    /// Fails with `Refused::Memory`, `Refused::Capacity` or `Refused::Limit`, as
    /// [`Session::insert`] does, and then records nothing.
    pub fn meet<R: Wait>(&mut self, rt: &R, item: u64) -> Result<bool, Refused>
        ensures map { self.new.map ≡ self.old.map }
        ensures seen { IsPrefix self.old.history self.new.history }
        ensures met { IfOk result (IsMet item self.old.history self.new.history) }
        ensures made { Makes (is_ok result) self.old.made self.new.made self.new.history }
        ensures refused { IfErr result (IsWriteRefusal self.old.map.begun.limit self.new.taken) }
    {
        match self.items.insert(rt, item, ()) {
            Ok(before) => Ok(before.is_none()),
            Err(refused) => Err(refused),
        }
    }

    /// Forgets an item, so that it is new again; returns whether it was there.
    ///
    /// # Errors
    ///
    /// Fails with `Refused::Memory` or `Refused::Capacity`, as [`Session::remove`] does, and then
    /// forgets nothing.
    pub fn forget<R: Wait>(&mut self, rt: &R, item: u64) -> Result<bool, Refused>
        ensures map { self.new.map ≡ self.old.map }
        ensures seen { IsPrefix self.old.history self.new.history }
        ensures forgotten { IfOk result (IsForgotten item self.old.history self.new.history) }
        ensures made { Makes (is_yes result) self.old.made self.new.made self.new.history }
        ensures refused { IfErr result IsMemoryOrCapacity }
    {
        match self.items.remove(rt, &item) {
            Ok(removed) => Ok(removed.is_some()),
            Err(refused) => Err(refused),
        }
    }

    /// Shares what two finders have observed. Afterwards the results of both are in one history,
    /// which [`told_once`] is about.
    pub fn compare(&mut self, other: &mut Finder<'_>)
        requires { other.old.map.book ≡ self.old.map.book }
        ensures one { self.new.history ≡ other.new.history }
        ensures first { IsPrefix self.old.history self.new.history }
        ensures second { IsPrefix other.old.history other.new.history }
        ensures made { (self.new.made ≡ self.old.made) × (other.new.made ≡ other.old.made) }
    {
        self.items.meet(&mut other.items)
    }
}

/// States a law on two finders that found one item to be new, in one history (as both observe after
/// [`Finder::compare`]). Either that was at one point in time, or the item was forgotten in
/// between. So if no thread forgets an item, it is new to just one of the threads that meet it.
///
/// The function does nothing: its contract is the law.
pub fn told_once()
    ensures { (item : ℕ) (old one old' other all : Seen)
        → IsLegalHistory (λ a b. a == b) key_of all
        → IsMet item old one true → IsPrefix one all
        → IsMet item old' other true → IsPrefix other all
        → (one ≡ other) ⊎ (WasForgotten item one other ⊎ WasForgotten item other one) }
{}
