//! Maps whose keys are texts and whose values are counters, as in a registry of metrics. Texts are
//! looked up by `&str`, and several threads add to the counters.
use crate::collections::{Collection, Shared};
use crate::plan::{key_of, number_of};
use crate::steps::{Target, ThreadWork};
use papaya_map::map::{HashMap, HashMapRef};
use papaya_map::session::Session;
use papaya_run_shell::failure::Failure;
use papaya_seq::seq;
use papaya_words_keys::guard::TextKey;
use std::alloc::Global;
use std::collections;
use std::hash::{BuildHasherDefault, FoldHasher};
use std::sync::atomic::{AtomicU64, Ordering};
use std::sync::{RwLock, Wait};

type Hasher = BuildHasherDefault<FoldHasher>;

type SharedMap = HashMap<String, AtomicU64>;

type SeqMap = seq::HashMap<String, AtomicU64>;

type StdMap = collections::HashMap<String, AtomicU64, Hasher>;

/// A map, and the texts of all numbers: those of its keys, and as many that it does not have.
#[derive(Drop)]
pub(crate) struct Texts<M> {
    texts: Vec<String>,
    map: M,
}

/// The map for one caller.
pub(crate) type Seq = Texts<SeqMap>;

/// The shared map, pinned by each thread.
pub(crate) type Pinned = Texts<SharedMap>;

/// The shared map, by a session.
#[derive(Drop)]
pub(crate) struct BySession(Pinned);

/// The shared map, pinned again for each call.
#[derive(Drop)]
pub(crate) struct PinACall(Pinned);

/// The kit's map.
pub(crate) type Std = Texts<StdMap>;

/// The kit's map behind a readers-writer lock.
pub(crate) type Locked = Texts<RwLock<StdMap>>;

/// A call on a counter.
#[derive(Clone, Copy)]
enum Use {
    Load,
    Add,
}

impl Use {
    /// Makes the call on a counter; returns its value afterwards, or 1 if there is none.
    #[inline(always)]
    fn of(self, counter: Option<&AtomicU64>) -> u64 {
        match (self, counter) {
            (Use::Load, Some(counter)) => counter.load(Ordering::SeqCst),
            (Use::Add, Some(counter)) => counter.fetch_add(1, Ordering::SeqCst).wrapping_add(1),
            (_, None) => 1,
        }
    }
}

/// A thread's access to a map.
trait Counters {
    /// Looks a text up, and uses its counter.
    fn find<R: Wait>(&mut self, rt: &R, text: &str, by: Use) -> u64;

    /// Inserts a text, whose counter has this value.
    fn put<R: Wait>(&mut self, rt: &R, text: String, value: u64) -> Result<(), Failure>;
}

impl Counters for &mut SeqMap {
    #[inline(always)]
    fn find<R: Wait>(&mut self, _rt: &R, text: &str, by: Use) -> u64 {
        by.of(self.get(&TextKey(text)))
    }

    fn put<R: Wait>(&mut self, _rt: &R, text: String, value: u64) -> Result<(), Failure> {
        self.insert(text, AtomicU64::new(value))?;
        Ok(())
    }
}

impl Counters for HashMapRef<'_, String, AtomicU64, Hasher> {
    #[inline(always)]
    fn find<R: Wait>(&mut self, _rt: &R, text: &str, by: Use) -> u64 {
        by.of(self.get(&TextKey(text)))
    }

    fn put<R: Wait>(&mut self, rt: &R, text: String, value: u64) -> Result<(), Failure> {
        self.insert(rt, text, AtomicU64::new(value))?;
        Ok(())
    }
}

impl Counters for Session<'_, String, AtomicU64> {
    #[inline(always)]
    fn find<R: Wait>(&mut self, _rt: &R, text: &str, by: Use) -> u64 {
        by.of(self.get(&TextKey(text)))
    }

    fn put<R: Wait>(&mut self, rt: &R, text: String, value: u64) -> Result<(), Failure> {
        self.insert(rt, text, AtomicU64::new(value))?;
        Ok(())
    }
}

impl Counters for &SharedMap {
    #[inline(always)]
    fn find<R: Wait>(&mut self, _rt: &R, text: &str, by: Use) -> u64 {
        by.of(self.pin().get(&TextKey(text)))
    }

    fn put<R: Wait>(&mut self, rt: &R, text: String, value: u64) -> Result<(), Failure> {
        self.pin().put(rt, text, value)
    }
}

impl Counters for &mut StdMap {
    #[inline(always)]
    fn find<R: Wait>(&mut self, _rt: &R, text: &str, by: Use) -> u64 {
        by.of(self.get(text))
    }

    fn put<R: Wait>(&mut self, _rt: &R, text: String, value: u64) -> Result<(), Failure> {
        self.insert(text, AtomicU64::new(value))?;
        Ok(())
    }
}

impl Counters for &RwLock<StdMap> {
    #[inline(always)]
    fn find<R: Wait>(&mut self, rt: &R, text: &str, by: Use) -> u64 {
        by.of(self.read(rt).get(text))
    }

    fn put<R: Wait>(&mut self, rt: &R, text: String, value: u64) -> Result<(), Failure> {
        self.write(rt).insert(text, AtomicU64::new(value))?;
        Ok(())
    }
}

/// A thread's access to a map, by the numbers of the texts.
#[derive(Drop)]
struct ByNumber<'a, C> {
    texts: &'a [String],
    counters: C,
}

/// Returns the text of a key.
#[inline(always)]
fn text_of(texts: &[String], key: u64) -> &str {
    match texts.get(number_of(key) as usize) {
        Some(text) => text.as_str(),
        None => "",
    }
}

impl<C: Counters> Target for ByNumber<'_, C> {
    #[inline(always)]
    fn look_up<R: Wait>(&mut self, rt: &R, key: u64) -> u64 {
        self.counters.find(rt, text_of(self.texts, key), Use::Load)
    }

    fn put_in<R: Wait>(&mut self, rt: &R, key: u64, value: u64) -> Result<u64, Failure> {
        let text = self
            .texts
            .get(number_of(key) as usize)
            .ok_or(Failure::Arguments)?;
        self.counters.put(rt, text.clone()?, value)?;
        Ok(1)
    }

    #[inline(always)]
    fn count_up<R: Wait>(&mut self, rt: &R, key: u64) -> Result<u64, Failure> {
        Ok(self.counters.find(rt, text_of(self.texts, key), Use::Add))
    }
}

impl<M: Drop> Texts<M> {
    /// Returns a map with the texts of twice as many numbers as it has room for.
    fn of(alloc: Global, capacity: usize, map: M) -> Result<Texts<M>, Failure> {
        let mut texts = Vec::new(alloc);
        for number in 0..(capacity as u64).saturating_mul(2) {
            texts.push(format!(in alloc; "{}", key_of(number))?)?;
        }
        Ok(Texts { texts, map })
    }

    /// Returns an access to it, by these calls.
    fn by<C>(&self, counters: C) -> ByNumber<'_, C> {
        ByNumber {
            texts: self.texts.as_slice(),
            counters,
        }
    }
}

impl Collection for Seq {
    fn empty<R: Wait>(_rt: &R, alloc: Global, capacity: usize) -> Result<Seq, Failure> {
        Texts::of(alloc, capacity, SeqMap::with_capacity(alloc, capacity)?)
    }

    fn alone<R: Wait>(&mut self, rt: &R, work: ThreadWork) -> Result<u64, Failure> {
        let texts = self.texts.as_slice();
        let counters = &mut self.map;
        work.at(rt, &mut ByNumber { texts, counters })
    }
}

impl Collection for Pinned {
    fn empty<R: Wait>(rt: &R, alloc: Global, capacity: usize) -> Result<Pinned, Failure> {
        Texts::of(
            alloc,
            capacity,
            SharedMap::with_capacity(rt, alloc, capacity)?,
        )
    }

    fn alone<R: Wait>(&mut self, rt: &R, work: ThreadWork) -> Result<u64, Failure> {
        self.beside(rt, work)
    }
}

impl Shared for Pinned {
    fn beside<R: Wait>(&self, rt: &R, work: ThreadWork) -> Result<u64, Failure> {
        work.at(rt, &mut self.by(self.map.pin()))
    }
}

impl Collection for BySession {
    fn empty<R: Wait>(rt: &R, alloc: Global, capacity: usize) -> Result<BySession, Failure> {
        Ok(BySession(Pinned::empty(rt, alloc, capacity)?))
    }

    fn alone<R: Wait>(&mut self, rt: &R, work: ThreadWork) -> Result<u64, Failure> {
        let texts: &Pinned = &self.0;
        work.at(rt, &mut texts.by(Session::new(&texts.map)))
    }
}

impl Collection for PinACall {
    fn empty<R: Wait>(rt: &R, alloc: Global, capacity: usize) -> Result<PinACall, Failure> {
        Ok(PinACall(Pinned::empty(rt, alloc, capacity)?))
    }

    fn alone<R: Wait>(&mut self, rt: &R, work: ThreadWork) -> Result<u64, Failure> {
        let texts: &Pinned = &self.0;
        work.at(rt, &mut texts.by(&texts.map))
    }
}

impl Collection for Std {
    fn empty<R: Wait>(_rt: &R, alloc: Global, capacity: usize) -> Result<Std, Failure> {
        let hasher = BuildHasherDefault::new();
        let map = StdMap::with_capacity_and_hasher(alloc, capacity, hasher)?;
        Texts::of(alloc, capacity, map)
    }

    fn alone<R: Wait>(&mut self, rt: &R, work: ThreadWork) -> Result<u64, Failure> {
        let texts = self.texts.as_slice();
        let counters = &mut self.map;
        work.at(rt, &mut ByNumber { texts, counters })
    }
}

impl Collection for Locked {
    fn empty<R: Wait>(rt: &R, alloc: Global, capacity: usize) -> Result<Locked, Failure> {
        let Texts { texts, map } = Std::empty(rt, alloc, capacity)?;
        let map = RwLock::new(map);
        Ok(Texts { texts, map })
    }

    fn alone<R: Wait>(&mut self, rt: &R, work: ThreadWork) -> Result<u64, Failure> {
        self.beside(rt, work)
    }
}

impl Shared for Locked {
    fn beside<R: Wait>(&self, rt: &R, work: ThreadWork) -> Result<u64, Failure> {
        work.at(rt, &mut self.by(&self.map))
    }
}
