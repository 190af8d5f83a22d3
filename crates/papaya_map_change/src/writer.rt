//! The shared part of calls that insert: their machine's asks, performed by steps on the book.
ghost use Rattle.papaya_map_book.specs.Windows.{IsIn, IsOpen};
ghost use Rattle.papaya_map_change.specs.Window.ProbingOn.{HasPassedOver};
ghost use Rattle.papaya_map_change.specs.Window.Writing.{CanPut, CanWrite, StoresEntry, MakesPart, Puts, Steps, Tries, Waits, Writes};
ghost use Rattle.papaya_map_change.specs.Window.Writing.{WritesOn};
ghost use Rattle.std.specs.Prelude.{◌≡◌, ◌⊎◌, ℕ, ◌<◌, ◌^◌, IfErr, IfOk, None, Some};
ghost use Rattle.papaya_call.specs.Machine.{ask_of as call_ask_of};
ghost use Rattle.papaya_call.specs.ChainMachine.{IsValid, ask_of, kind_of_ask};
ghost use Rattle.papaya_call.specs.declared.chain.ask.Ask.TheVariants.{Call};
ghost use Rattle.papaya_call.specs.declared.chain.machine.Phase.TheVariants.{Calling};
ghost use Rattle.papaya_call.specs.Search.{IsSize};
ghost use Rattle.papaya_call.specs.declared.ask.Ask.TheVariants.{Exchange, Load, LoadHint, MakeTable, SameKey, SizeOf, WriteHint};
ghost use Rattle.papaya_call.specs.declared.ask.Ask.TheVariants.{MakeKey, MakePair, MakePairOf, MakeValue};
ghost use Rattle.papaya_call.specs.declared.ask.At.TheVariants.{Made as MadeWord, Root, Slot};
ghost use Rattle.papaya_call.specs.declared.ask.StepKind.TheVariants.{Bury};
ghost use Rattle.papaya_words.specs.Word.{pair_of};
ghost use Rattle.papaya_map_book.specs.Plays.{IsPutting};
ghost use Rattle.papaya_map_lookup.specs.History.{key_of};
ghost use Rattle.papaya_map_book.specs.Limits.{IsFull};
ghost use Rattle.papaya_map_book.specs.PairParts.{key_in};
ghost use Rattle.papaya_map_change.specs.Writing.{IsWithoutResult, IsTakenCount};
ghost use Rattle.papaya_map_book.specs.declared.rule.entry.Named.TheVariants.{Pair as PairNamed};

use crate::driver::Driver;
use papaya_call::ask::{Answer, At};
use papaya_map_book::book::pairs::{KeyPart, ValuePart};
use papaya_map_book::keyed::Keyed;
use papaya_map_book::rule::entry::Stored;
use papaya_map_book::window::Window;
use papaya_words::refused::Refused;
use std::alloc::Global;
use std::hash::{BuildHasher, Hash};
use std::sync::Wait;

/// A call that inserts, under way: its key, and the value of the pair that it makes next. Both are
/// passed in, and belong to a stored pair once they are in the arena with it.
#[derive(Drop)]
pub struct Writer<'a, K: Hash + Eq, V, S: BuildHasher> {
    pub call: Driver<'a, K, V, S>,
    pub key: Option<KeyPart<K, V>>,
    pub value: Option<ValuePart<K, V>>,
}

impl<'a, K: Hash + Eq + Drop, V: Drop, S: BuildHasher> Writer<'a, K, V, S> {
    /// Loads a word.
    pub fn load(&mut self, at: At, window: &mut Window<'a, K, V, S>) -> Answer
        requires waits { Waits window.old self.old (Load at) }
        requires valid { IsValid self.old.call.machine }
        ensures steps { Steps window.old self.old window.new self.new result }
        ensures tells { IsTakenCount window.new.sight.log (call_ask_of self.old.call.machine.call)
            result }
    {
        Answer::Word(self.call.load(at, window))
    }

    /// Tries to take the number of a further pair, in a map that has a limit on them.
    pub fn take(&self, words: (u64, u64), window: &mut Window<'a, K, V, S>) -> Answer
        requires waits { Waits window.old self.now (Exchange MadeWord words.0 words.1) }
        requires valid { IsValid self.now.call.machine }
        ensures steps { Steps window.old self.now window.new self.now result }
        ensures tells { IsTakenCount window.new.sight.log (call_ask_of self.now.call.machine.call)
            result }
    {
        self.call.take(words, window)
    }

    /// Loads the hint of a slot.
    pub fn hint(&self, number: u64, place: usize, window: &mut Window<'a, K, V, S>) -> Answer
        requires waits { Waits window.old self.now (LoadHint number place) }
        ensures steps { Steps window.old self.now window.new self.now result }
    {
        Answer::Word(self.call.hint(number, place, window))
    }

    /// Writes the hint of a slot, if it has none.
    pub fn write_hint(
        &self,
        number: u64,
        place: usize,
        hint: u8,
        window: &Window<'a, K, V, S>,
    ) -> Answer
        requires waits { Waits window.now self.now (WriteHint number place hint) }
        ensures steps { Steps window.now self.now window.now self.now result }
    {
        self.call.write_hint(number, place, hint, window);
        Answer::Ok
    }

    /// Returns the size of the table.
    pub fn size(&self, window: &Window<'a, K, V, S>) -> Answer
        requires waits { (t : ℕ) × Waits window.now self.now (SizeOf t) }
        requires valid { IsValid self.now.call.machine }
        ensures steps { Steps window.now self.now window.now self.now result }
    {
        self.call.size()
    }

    /// Returns whether the pair last loaded has a key that equals the call's.
    pub fn same(&self, window: &Window<'a, K, V, S>) -> Answer
        requires waits { (n : ℕ) × Waits window.now self.now (SameKey n) }
        requires valid { IsValid self.now.call.machine }
        ensures steps { Steps window.now self.now window.now self.now result }
    {
        let Some(last) = &self.call.copier.last else {
            unreachable!()
        };
        let book = window.book;
        let found = book.key(book.pair(last));
        let same = match &self.key {
            Some(KeyPart::Own(key)) => *key == *found,
            Some(KeyPart::Of(pair)) => *book.key(book.pair(pair)) == *found,
            None => unreachable!(),
        };
        Answer::Yes(same)
    }

    /// Moves a call that searches a table for its key past the places with other keys.
    #[inline(always)]
    pub fn probe_on(&mut self, window: &mut Window<'a, K, V, S>)
        requires can { CanWrite window.old self.old }
        requires valid { IsValid self.old.call.machine }
        requires calling { self.old.call.machine.phase ≡ Calling }
        ensures over { HasPassedOver window.old self.old.call window.new self.new.call }
        ensures looks { WritesOn window.old self.old window.new self.new }
        ensures rest { self.new ≡ record self.old { call = self.new.call } }
    {
        let book = window.book;
        match &self.key {
            Some(KeyPart::Own(key)) => self.call.probe_on(key, window),
            Some(KeyPart::Of(pair)) => self.call.probe_on(book.key(book.pair(pair)), window),
            None => unreachable!(),
        }
    }

    /// Answers that the key and the value are made. They enter the arena with the first pair that
    /// has them, so nothing is made now. They have no number yet, and their machine asks for none.
    pub fn make_part(&self) -> Answer
        requires asks { (ask_of self.now.call.machine ≡ Call MakeKey)
            ⊎ (ask_of self.now.call.machine ≡ Call MakeValue) }
        requires valid { IsValid self.now.call.machine }
        ensures unsaid { IsWithoutResult self.now.call.copier.given.done result }
        ensures makes { MakesPart ⟦<S as Keyed<K>>⟧.keys self.now result }
    {
        Answer::Made(0)
    }

    /// Stores the pair of the call's key and the value, and returns it. On failure it returns the
    /// answer for the machine.
    pub fn store_pair<R: Wait>(
        &mut self,
        rt: &R,
        window: &Window<'a, K, V, S>,
    ) -> Result<Stored<K, V>, Answer>
        requires waits { Waits window.now self.old MakePair }
        requires valid { IsValid self.old.call.machine }
        ensures key { IfOk result (λ q. (k : _) → self.old.key ≡ Some k → key_of q ≡ key_in k) }
        ensures stores { StoresEntry window.now self.old self.new result }
    {
        let Some(value) = self.value.take() else {
            return Err(Answer::Ok);
        };
        let Some(key) = self.key.take() else {
            unreachable!()
        };
        let lane = self.call.machine.call.hash;
        match window.book.store_pair(rt, lane, key, value) {
            Ok(pair) => {
                self.key = Some(KeyPart::Of(pair.again()));
                Ok(self.hold(pair))
            }
            Err((key, value)) => {
                self.key = Some(key);
                self.value = Some(value);
                Err(Answer::Refused(Refused::Memory))
            }
        }
    }

    /// Stores the pair of the value and the key of the pair last loaded, and returns it. On failure
    /// it returns the answer for the machine.
    pub fn store_pair_of<R: Wait>(
        &mut self,
        rt: &R,
        window: &Window<'a, K, V, S>,
    ) -> Result<Stored<K, V>, Answer>
        requires waits { (n : ℕ) × Waits window.now self.old (MakePairOf n) }
        requires valid { IsValid self.old.call.machine }
        ensures key { IfOk result (λ q. (p : _) → self.old.call.copier.last ≡ Some p
            → key_of q ≡ key_of p) }
        ensures stores { StoresEntry window.now self.old self.new result }
    {
        let Some(value) = self.value.take() else {
            return Err(Answer::Ok);
        };
        let Some(last) = &self.call.copier.last else {
            unreachable!()
        };
        let lane = last.index() as u64;
        match window
            .book
            .store_pair(rt, lane, KeyPart::Of(last.again()), value)
        {
            Ok(pair) => Ok(self.hold(pair)),
            Err((_, value)) => {
                self.value = Some(value);
                Err(Answer::Refused(Refused::Memory))
            }
        }
    }

    /// Records that the pair with the value was stored, and returns it.
    fn hold(&mut self, pair: Stored<K, V>) -> Stored<K, V>
        ensures pair { result ≡ pair }
        ensures value { self.new ≡ record self.old { value = Some (ValuePart.Of pair) } }
    {
        self.value = Some(ValuePart::Of(pair.again()));
        pair
    }

    /// Makes a table, and keeps it with its seal until it is tried to be opened.
    pub fn make_table<R: Wait>(
        &mut self,
        rt: &R,
        alloc: Global,
        len: usize,
        limit: usize,
        chunks: usize,
        window: &mut Window<'a, K, V, S>,
    ) -> Answer
        requires waits { Waits window.old self.old (MakeTable len limit chunks) }
        requires valid { IsValid self.old.call.machine }
        requires size { IsSize len limit }
        ensures steps { Steps window.old self.old window.new self.new result }
    {
        let made = window.make_table(
            rt,
            alloc,
            len,
            limit,
            chunks,
            None,
            &mut self.call.copier.given,
        );
        window.learn();
        match made {
            Ok((table, seal)) => {
                let number = table.index() as u64 + 1;
                self.call.copier.fresh = Some((table, seal));
                Answer::Made(number)
            }
            Err(refused) => Answer::Refused(refused),
        }
    }

    /// Tries to make the new table the root.
    pub fn open(&mut self, window: &mut Window<'a, K, V, S>) -> Answer
        requires waits { (old : ℕ) × (new : ℕ) × Waits window.old self.old (Exchange Root old new) }
        requires valid { IsValid self.old.call.machine }
        ensures steps { Steps window.old self.old window.new self.new result }
    {
        let Some((table, mut seal)) = self.call.copier.fresh.take() else {
            unreachable!()
        };
        let (found, root) = window.open_root(&table, &mut seal);
        self.call.table = Some(root);
        if found == 0 {
            Answer::Exchanged
        } else {
            Answer::Found(found)
        }
    }

    /// Tries to put this pair into a slot, one of those made.
    pub fn put(
        &mut self,
        number: u64,
        place: usize,
        words: (u64, u64),
        pair: &Stored<K, V>,
        window: &mut Window<'a, K, V, S>,
    ) -> Answer
        requires open { IsOpen window.old }
        requires can { CanPut window.old self.old number place words.0 pair.now }
        requires number { pair_of words.1 ≡ pair.now.index }
        requires asks { ask_of self.old.call.machine ≡ Call (Exchange (Slot number place)
            words.0 words.1) }
        requires kind { IsPutting (kind_of_ask self.old.call.machine) }
        requires valid { IsValid self.old.call.machine }
        ensures tries { Tries window.old self.old (Some pair.now) window.new self.new result }
        ensures writes { Puts window.old self.old number place words.0 pair.now window.new self.new
            result }
    {
        let Some(table) = self.call.table else {
            unreachable!()
        };
        let kind = self.call.machine.kind();
        let (found, before) = window.put_slot(table, number, place, kind, pair, words);
        let put = pair.again();
        self.call.tried(words.0, found, before, Some(put))
    }

    /// Tries to remove the pair that a slot holds.
    pub fn bury(
        &mut self,
        number: u64,
        place: usize,
        words: (u64, u64),
        window: &mut Window<'a, K, V, S>,
    ) -> Answer
        requires open { IsOpen window.old }
        requires waits { Waits window.old self.old (Exchange (Slot number place) words.0 words.1) }
        requires kind { kind_of_ask self.old.call.machine ≡ Some Bury }
        requires valid { IsValid self.old.call.machine }
        ensures tries { Tries window.old self.old None window.new self.new result }
        ensures writes { Writes window.old self.old window.new self.new result }
    {
        self.call.bury(number, place, words, window)
    }
}
