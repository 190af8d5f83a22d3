//! The map and the set for one caller.
use crate::answers::weight;
use crate::collections::{Collection, Growing};
use crate::reclaim::Reclaimed;
use crate::steps::{Target, ThreadWork, counted_up, one_more, stored, with_value};
use papaya_run_shell::failure::Failure;
use papaya_seq::seq::HashMap;
use papaya_set::seq::HashSet;
use papaya_words::resize_mode::ResizeMode;
use std::alloc::Global;
use std::hash::BuildHasherDefault;
use std::sync::Wait;

/// The map.
pub(crate) type Map = HashMap<u64, u64>;

/// The set.
pub(crate) type Set = HashSet<u64>;

impl Target for Map {
    #[inline(always)]
    fn look_up<R: Wait>(&mut self, _rt: &R, key: u64) -> u64 {
        weight(self.get(&key))
    }

    #[inline(always)]
    fn put_in<R: Wait>(&mut self, _rt: &R, key: u64, value: u64) -> Result<u64, Failure> {
        Ok(weight(self.insert(key, value)?))
    }

    #[inline(always)]
    fn take_out<R: Wait>(&mut self, _rt: &R, key: u64) -> Result<u64, Failure> {
        Ok(weight(self.remove(&key)?))
    }

    #[inline(always)]
    fn count_up<R: Wait>(&mut self, _rt: &R, key: u64) -> Result<u64, Failure> {
        Ok(*self.update_or_insert(key, one_more, 1)?)
    }

    #[inline(always)]
    fn work_out<R: Wait>(&mut self, _rt: &R, key: u64) -> Result<u64, Failure> {
        Ok(stored(self.compute(key, counted_up)?))
    }

    fn walk<R: Wait>(&mut self, _rt: &R) -> Result<u64, Failure> {
        Ok(self.iter().fold(0, with_value))
    }
}

impl Target for Set {
    #[inline(always)]
    fn look_up<R: Wait>(&mut self, _rt: &R, key: u64) -> u64 {
        u64::from(self.contains(&key))
    }

    #[inline(always)]
    fn put_in<R: Wait>(&mut self, _rt: &R, key: u64, _value: u64) -> Result<u64, Failure> {
        Ok(u64::from(self.insert(key)?))
    }

    #[inline(always)]
    fn take_out<R: Wait>(&mut self, _rt: &R, key: u64) -> Result<u64, Failure> {
        Ok(u64::from(self.remove(&key)?))
    }

    fn walk<R: Wait>(&mut self, _rt: &R) -> Result<u64, Failure> {
        let mut keys: u64 = 0;
        for _ in self.iter() {
            keys = keys.wrapping_add(1);
        }
        Ok(keys)
    }
}

impl Collection for Map {
    fn empty<R: Wait>(_rt: &R, alloc: Global, capacity: usize) -> Result<Map, Failure> {
        Ok(HashMap::with_capacity(alloc, capacity)?)
    }

    fn alone<R: Wait>(&mut self, rt: &R, work: ThreadWork) -> Result<u64, Failure> {
        work.at(rt, self)
    }
}

impl Collection for Set {
    fn empty<R: Wait>(_rt: &R, alloc: Global, capacity: usize) -> Result<Set, Failure> {
        Ok(HashSet::with_capacity(alloc, capacity)?)
    }

    fn alone<R: Wait>(&mut self, rt: &R, work: ThreadWork) -> Result<u64, Failure> {
        work.at(rt, self)
    }
}

impl Growing for Map {
    fn empty_in<R: Wait>(_rt: &R, alloc: Global, mode: ResizeMode) -> Result<Map, Failure> {
        let hasher = BuildHasherDefault::new();
        Ok(HashMap::with_parts(alloc, mode, 0, 1, hasher, None)?)
    }
}

impl Reclaimed for Map {
    fn give_back<R: Wait>(&mut self, _rt: &R) -> Result<(), Failure> {
        Ok(self.reclaim()?)
    }
}
