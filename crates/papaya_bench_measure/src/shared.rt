//! The shared map, by the calls of a map that is pinned once or for each call, or of a session, and
//! the shared set.
use crate::answers::weight;
use crate::collections::{Collection, Growing, Pinned, Shared};
use crate::reclaim::Reclaimed;
use crate::steps::{Target, ThreadWork, counted_up, one_more, stored, with_value};
use papaya_map::map::{HashMap, HashMapRef};
use papaya_map::session::Session;
use papaya_run_shell::failure::Failure;
use papaya_set::set::{HashSet, HashSetRef};
use papaya_words::limits::DEFAULT_SHARDS;
use papaya_words::resize_mode::ResizeMode;
use std::alloc::Global;
use std::hash::{BuildHasherDefault, FoldHasher};
use std::sync::Wait;

type Hasher = BuildHasherDefault<FoldHasher>;

/// The map.
pub(crate) type Map = HashMap<u64, u64>;

/// The map, of which each thread has a session.
#[derive(Drop)]
pub(crate) struct BySession(Map);

/// The map, pinned again for each call.
#[derive(Drop)]
pub(crate) struct PinACall(Map);

/// The set.
pub(crate) type Set = HashSet<u64>;

impl Target for HashMapRef<'_, u64, u64, Hasher> {
    #[inline(always)]
    fn look_up<R: Wait>(&mut self, _rt: &R, key: u64) -> u64 {
        weight(self.get(&key))
    }

    #[inline(always)]
    fn put_in<R: Wait>(&mut self, rt: &R, key: u64, value: u64) -> Result<u64, Failure> {
        Ok(weight(self.insert(rt, key, value)?))
    }

    #[inline(always)]
    fn take_out<R: Wait>(&mut self, rt: &R, key: u64) -> Result<u64, Failure> {
        Ok(weight(self.remove(rt, &key)?))
    }

    #[inline(always)]
    fn count_up<R: Wait>(&mut self, rt: &R, key: u64) -> Result<u64, Failure> {
        Ok(*self.update_or_insert(rt, key, one_more, 1)?)
    }

    #[inline(always)]
    fn work_out<R: Wait>(&mut self, rt: &R, key: u64) -> Result<u64, Failure> {
        Ok(stored(self.compute(rt, key, counted_up)?))
    }

    fn walk<R: Wait>(&mut self, rt: &R) -> Result<u64, Failure> {
        Ok(self.iter(rt)?.fold(0, with_value))
    }
}

impl Target for Session<'_, u64, u64> {
    #[inline(always)]
    fn look_up<R: Wait>(&mut self, _rt: &R, key: u64) -> u64 {
        weight(self.get(&key))
    }

    #[inline(always)]
    fn put_in<R: Wait>(&mut self, rt: &R, key: u64, value: u64) -> Result<u64, Failure> {
        Ok(weight(self.insert(rt, key, value)?))
    }

    #[inline(always)]
    fn take_out<R: Wait>(&mut self, rt: &R, key: u64) -> Result<u64, Failure> {
        Ok(weight(self.remove(rt, &key)?))
    }

    #[inline(always)]
    fn count_up<R: Wait>(&mut self, rt: &R, key: u64) -> Result<u64, Failure> {
        Ok(*self.update_or_insert(rt, key, one_more, 1)?)
    }

    #[inline(always)]
    fn work_out<R: Wait>(&mut self, rt: &R, key: u64) -> Result<u64, Failure> {
        Ok(stored(self.compute(rt, key, counted_up)?))
    }

    fn walk<R: Wait>(&mut self, rt: &R) -> Result<u64, Failure> {
        Ok(self.iter(rt)?.fold(0, with_value))
    }
}

impl Target for &PinACall {
    #[inline(always)]
    fn look_up<R: Wait>(&mut self, rt: &R, key: u64) -> u64 {
        self.0.look_up_once(rt, key)
    }

    #[inline(always)]
    fn put_in<R: Wait>(&mut self, rt: &R, key: u64, value: u64) -> Result<u64, Failure> {
        self.0.put_in_once(rt, key, value)
    }

    #[inline(always)]
    fn take_out<R: Wait>(&mut self, rt: &R, key: u64) -> Result<u64, Failure> {
        self.0.pin().take_out(rt, key)
    }

    #[inline(always)]
    fn count_up<R: Wait>(&mut self, rt: &R, key: u64) -> Result<u64, Failure> {
        self.0.pin().count_up(rt, key)
    }

    #[inline(always)]
    fn work_out<R: Wait>(&mut self, rt: &R, key: u64) -> Result<u64, Failure> {
        self.0.pin().work_out(rt, key)
    }
}

impl Target for HashSetRef<'_, u64, Hasher> {
    #[inline(always)]
    fn look_up<R: Wait>(&mut self, _rt: &R, key: u64) -> u64 {
        u64::from(self.contains(&key))
    }

    #[inline(always)]
    fn put_in<R: Wait>(&mut self, rt: &R, key: u64, _value: u64) -> Result<u64, Failure> {
        Ok(u64::from(self.insert(rt, key)?))
    }

    #[inline(always)]
    fn take_out<R: Wait>(&mut self, rt: &R, key: u64) -> Result<u64, Failure> {
        Ok(u64::from(self.remove(rt, &key)?))
    }

    fn walk<R: Wait>(&mut self, rt: &R) -> Result<u64, Failure> {
        let mut keys: u64 = 0;
        for _ in self.iter(rt)? {
            keys = keys.wrapping_add(1);
        }
        Ok(keys)
    }
}

impl Collection for Map {
    fn empty<R: Wait>(rt: &R, alloc: Global, capacity: usize) -> Result<Map, Failure> {
        Ok(HashMap::with_capacity(rt, alloc, capacity)?)
    }

    fn alone<R: Wait>(&mut self, rt: &R, work: ThreadWork) -> Result<u64, Failure> {
        self.beside(rt, work)
    }
}

impl Shared for Map {
    fn beside<R: Wait>(&self, rt: &R, work: ThreadWork) -> Result<u64, Failure> {
        work.at(rt, &mut self.pin())
    }
}

impl Collection for BySession {
    fn empty<R: Wait>(rt: &R, alloc: Global, capacity: usize) -> Result<BySession, Failure> {
        Ok(BySession(Map::empty(rt, alloc, capacity)?))
    }

    fn alone<R: Wait>(&mut self, rt: &R, work: ThreadWork) -> Result<u64, Failure> {
        work.at(rt, &mut Session::new(&self.0))
    }
}

impl Collection for PinACall {
    fn empty<R: Wait>(rt: &R, alloc: Global, capacity: usize) -> Result<PinACall, Failure> {
        Ok(PinACall(Map::empty(rt, alloc, capacity)?))
    }

    fn alone<R: Wait>(&mut self, rt: &R, work: ThreadWork) -> Result<u64, Failure> {
        let mut map: &PinACall = self;
        work.at(rt, &mut map)
    }
}

impl Collection for Set {
    fn empty<R: Wait>(rt: &R, alloc: Global, capacity: usize) -> Result<Set, Failure> {
        Ok(HashSet::with_capacity(rt, alloc, capacity)?)
    }

    fn alone<R: Wait>(&mut self, rt: &R, work: ThreadWork) -> Result<u64, Failure> {
        work.at(rt, &mut self.pin())
    }
}

impl Growing for Map {
    fn empty_in<R: Wait>(rt: &R, alloc: Global, mode: ResizeMode) -> Result<Map, Failure> {
        let hasher = BuildHasherDefault::new();
        let shards = DEFAULT_SHARDS;
        Ok(HashMap::with_parts(rt, alloc, mode, 0, shards, hasher, None)?)
    }
}

impl Pinned for Map {
    #[inline(always)]
    fn put_in_once<R: Wait>(&self, rt: &R, key: u64, value: u64) -> Result<u64, Failure> {
        self.pin().put_in(rt, key, value)
    }

    #[inline(always)]
    fn look_up_once<R: Wait>(&self, rt: &R, key: u64) -> u64 {
        self.pin().look_up(rt, key)
    }
}

impl Reclaimed for Map {
    fn give_back<R: Wait>(&mut self, rt: &R) -> Result<(), Failure> {
        Ok(self.reclaim(rt)?)
    }
}
