//! The kit's own hash map: alone, and behind a lock that each call takes.
use crate::answers::weight;
use crate::collections::{Collection, Shared};
use crate::steps::{Target, ThreadWork, one_more, with_value};
use papaya_run_shell::failure::Failure;
use std::alloc::Global;
use std::collections::HashMap;
use std::hash::{BuildHasherDefault, FoldHasher};
use std::sync::{Mutex, RwLock, Wait};

/// The map.
pub(crate) type Map = HashMap<u64, u64, BuildHasherDefault<FoldHasher>>;

impl Target for Map {
    #[inline(always)]
    fn look_up<R: Wait>(&mut self, _rt: &R, key: u64) -> u64 {
        weight(self.get(&key))
    }

    #[inline(always)]
    fn put_in<R: Wait>(&mut self, _rt: &R, key: u64, value: u64) -> Result<u64, Failure> {
        Ok(weight(self.insert(key, value)?.as_ref()))
    }

    #[inline(always)]
    fn take_out<R: Wait>(&mut self, _rt: &R, key: u64) -> Result<u64, Failure> {
        Ok(weight(self.remove(&key).as_ref()))
    }

    /// Counts up by other calls: the kit's map has no `update_or_insert`, and the key is there.
    #[inline(always)]
    fn count_up<R: Wait>(&mut self, _rt: &R, key: u64) -> Result<u64, Failure> {
        match self.get_mut(&key) {
            Some(count) => {
                *count = one_more(count);
                Ok(*count)
            }
            None => Ok(0),
        }
    }

    fn walk<R: Wait>(&mut self, _rt: &R) -> Result<u64, Failure> {
        Ok(self.iter().fold(0, with_value))
    }
}

impl Target for &RwLock<Map> {
    #[inline(always)]
    fn look_up<R: Wait>(&mut self, rt: &R, key: u64) -> u64 {
        weight(self.read(rt).get(&key))
    }

    #[inline(always)]
    fn put_in<R: Wait>(&mut self, rt: &R, key: u64, value: u64) -> Result<u64, Failure> {
        self.write(rt).put_in(rt, key, value)
    }

    #[inline(always)]
    fn take_out<R: Wait>(&mut self, rt: &R, key: u64) -> Result<u64, Failure> {
        self.write(rt).take_out(rt, key)
    }

    #[inline(always)]
    fn count_up<R: Wait>(&mut self, rt: &R, key: u64) -> Result<u64, Failure> {
        self.write(rt).count_up(rt, key)
    }
}

impl Target for &Mutex<Map> {
    #[inline(always)]
    fn look_up<R: Wait>(&mut self, rt: &R, key: u64) -> u64 {
        self.lock(rt).look_up(rt, key)
    }

    #[inline(always)]
    fn put_in<R: Wait>(&mut self, rt: &R, key: u64, value: u64) -> Result<u64, Failure> {
        self.lock(rt).put_in(rt, key, value)
    }

    #[inline(always)]
    fn take_out<R: Wait>(&mut self, rt: &R, key: u64) -> Result<u64, Failure> {
        self.lock(rt).take_out(rt, key)
    }

    #[inline(always)]
    fn count_up<R: Wait>(&mut self, rt: &R, key: u64) -> Result<u64, Failure> {
        self.lock(rt).count_up(rt, key)
    }
}

impl Collection for Map {
    fn empty<R: Wait>(_rt: &R, alloc: Global, capacity: usize) -> Result<Map, Failure> {
        let hasher = BuildHasherDefault::new();
        Ok(HashMap::with_capacity_and_hasher(alloc, capacity, hasher)?)
    }

    fn alone<R: Wait>(&mut self, rt: &R, work: ThreadWork) -> Result<u64, Failure> {
        work.at(rt, self)
    }
}

impl Collection for RwLock<Map> {
    fn empty<R: Wait>(rt: &R, alloc: Global, capacity: usize) -> Result<RwLock<Map>, Failure> {
        Ok(RwLock::new(Map::empty(rt, alloc, capacity)?))
    }

    fn alone<R: Wait>(&mut self, rt: &R, work: ThreadWork) -> Result<u64, Failure> {
        self.beside(rt, work)
    }
}

impl Shared for RwLock<Map> {
    fn beside<R: Wait>(&self, rt: &R, work: ThreadWork) -> Result<u64, Failure> {
        let mut lock = self;
        work.at(rt, &mut lock)
    }
}

impl Collection for Mutex<Map> {
    fn empty<R: Wait>(rt: &R, alloc: Global, capacity: usize) -> Result<Mutex<Map>, Failure> {
        Ok(Mutex::new(Map::empty(rt, alloc, capacity)?))
    }

    fn alone<R: Wait>(&mut self, rt: &R, work: ThreadWork) -> Result<u64, Failure> {
        self.beside(rt, work)
    }
}

impl Shared for Mutex<Map> {
    fn beside<R: Wait>(&self, rt: &R, work: ThreadWork) -> Result<u64, Failure> {
        let mut lock = self;
        work.at(rt, &mut lock)
    }
}
