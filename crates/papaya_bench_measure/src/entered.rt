//! The shared map that is reclaimed in between, which a thread enters for each call.
use crate::collections::{Collection, Pinned, Shared};
use crate::shared;
use crate::steps::{Target, ThreadWork};
use papaya_reclaiming::reclaiming::{Handle, Reclaiming, ReclaimingMap};
use papaya_run_shell::failure::Failure;
use std::alloc::Global;
use std::sync::Wait;

/// The map.
pub(crate) type Map = ReclaimingMap<u64, u64>;

impl Target for Handle<'_, shared::Map> {
    #[inline(always)]
    fn look_up<R: Wait>(&mut self, rt: &R, key: u64) -> u64 {
        self.enter(rt).look_up_once(rt, key)
    }

    #[inline(always)]
    fn put_in<R: Wait>(&mut self, rt: &R, key: u64, value: u64) -> Result<u64, Failure> {
        self.enter(rt).put_in_once(rt, key, value)
    }

    #[inline(always)]
    fn take_out<R: Wait>(&mut self, rt: &R, key: u64) -> Result<u64, Failure> {
        self.enter(rt).pin().take_out(rt, key)
    }

    #[inline(always)]
    fn count_up<R: Wait>(&mut self, rt: &R, key: u64) -> Result<u64, Failure> {
        self.enter(rt).pin().count_up(rt, key)
    }

    #[inline(always)]
    fn work_out<R: Wait>(&mut self, rt: &R, key: u64) -> Result<u64, Failure> {
        self.enter(rt).pin().work_out(rt, key)
    }

    #[inline(always)]
    fn pass_through<R: Wait>(&mut self, rt: &R) -> Result<u64, Failure> {
        let _entered = self.enter(rt);
        Ok(1)
    }
}

impl Collection for Map {
    fn empty<R: Wait>(rt: &R, alloc: Global, capacity: usize) -> Result<Map, Failure> {
        let map = shared::Map::empty(rt, alloc, capacity)?;
        Ok(Reclaiming::new(alloc, map)?)
    }

    fn alone<R: Wait>(&mut self, rt: &R, work: ThreadWork) -> Result<u64, Failure> {
        self.beside(rt, work)
    }
}

impl Shared for Map {
    fn beside<R: Wait>(&self, rt: &R, work: ThreadWork) -> Result<u64, Failure> {
        work.at(rt, &mut self.handle())
    }
}
