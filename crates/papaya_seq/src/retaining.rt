//! The call that keeps the entries that its closure accepts.
ghost use Rattle.std.specs.Prelude.{◌≡◌, ◌+◌, ◌<◌, IfErr, IsOk, OnOk};
ghost use Rattle.papaya_seq.specs.Map.{Keeps, KeepsSlots, Unchanged, next_of, slots_of};
ghost use Rattle.papaya_seq.specs.Resizes.{IsCopyCause};
ghost use Rattle.papaya_seq.specs.Retains.{IsRetained, IsRetainedTo, IsRetaining};

use crate::removal::call_closure;
use crate::seq::HashMap;
use papaya_call::ask::{Answer, At};
use papaya_words::refused::Refused;
use papaya_words::word::{Kind, Word};
use std::hash::{BuildHasher, Hash};

impl<K: Hash + Eq + Drop, V: Drop, S: BuildHasher> HashMap<K, V, S> {
    /// Calls the closure with the pair in a slot of the root, and deletes the pair if the closure
    /// returns `false`.
    fn retain_at<F: FnMut(&K, &V) -> bool>(&mut self, table: u64, slot: usize, agrees: &mut F)
        requires callable { F.IsAlwaysCallable agrees.old }
        requires root { table ≡ self.old.store.words.root }
        requires last { next_of self.old.store ≡ 0 }
        requires within { slot < slots_of self.old.store }
        ensures callable { F.IsAlwaysCallable agrees.new }
        ensures scanned { (s : _) (f : _) → IsRetaining F.FnMut s f slot self.old agrees.old
            → IsRetaining F.FnMut s f (slot + 1) self.new agrees.new }
    {
        // This read gives the proof that the count fits in 64 bits.
        let _count = self.store.count();
        let at = At::Slot(table, slot);
        let word = Word(self.store.word(at));
        if word.kind() != Kind::Live {
            return;
        }
        match call_closure(&self.store, word.pair(), agrees) {
            Answer::Yes(false) => {}
            _ => return,
        }
        let grave = Word::buried(word.pair());
        let _ = self.store.exchange(at, word.0, grave.0);
        self.store.add_to_shard(0, -1);
    }

    /// Calls the closure once with each entry, keeps those for which it returns `true`, and removes
    /// the others: `retain` of 0.2.5. A resize that is under way is finished first; then the root
    /// keeps its slots.
    ///
    /// # Errors
    ///
    /// Fails with `Refused::Memory` or `Refused::Capacity`, as [`HashMap::copy_all`] does. Then it
    /// has not called the closure and has removed no entry.
    pub fn retain<F: FnMut(&K, &V) -> bool>(&mut self, mut agrees: F) -> Result<(), Refused>
        requires { F.IsAlwaysCallable agrees }
        ensures ok { OnOk result (IsRetained F.FnMut K.eq agrees self.old.store self.new.store) }
        ensures err { IfErr result (λ e. IsCopyCause self.old e self.new
            × Unchanged K.eq self.old.store self.new.store) }
        ensures last { OnOk result (next_of self.new.store ≡ 0) }
        ensures never { next_of self.old.store ≡ 0 → IsOk result }
        ensures slots { KeepsSlots self.old self.new }
        ensures keeps { Keeps self.old self.new }
    {
        self.retain_by(&mut agrees)
    }

    /// Retains as [`HashMap::retain`] does, but borrows the closure. The contract names the state
    /// in which the calls leave the closure, so it rules out that the closure is called with
    /// anything else.
    ///
    /// # Errors
    ///
    /// Fails with `Refused::Memory` or `Refused::Capacity`, as [`HashMap::retain`] does.
    pub fn retain_by<F: FnMut(&K, &V) -> bool>(&mut self, agrees: &mut F) -> Result<(), Refused>
        requires { F.IsAlwaysCallable agrees.old }
        ensures ok { OnOk result (IsRetainedTo F.FnMut K.eq agrees.old self.old.store self.new.store
            agrees.new) }
        ensures err { IfErr result (λ e. IsCopyCause self.old e self.new
            × Unchanged K.eq self.old.store self.new.store) }
        ensures last { OnOk result (next_of self.new.store ≡ 0) }
        ensures never { next_of self.old.store ≡ 0 → IsOk result }
        ensures slots { KeepsSlots self.old self.new }
        ensures keeps { Keeps self.old self.new }
        ensures uncalled { IfErr result (λ _. agrees.new ≡ agrees.old) }
        ensures callable { F.IsAlwaysCallable agrees.new }
    {
        if self.resizing() {
            self.copy_all()?;
        }
        let table = self.store.word(At::Root);
        let slots = self.slots();
        let mut slot = 0;
        while slot < slots {
            self.retain_at(table, slot, agrees);
            slot += 1;
        }
        Ok(())
    }
}
