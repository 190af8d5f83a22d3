//! The loop of the workloads without a map, which shows how long the loop itself takes.
use crate::collections::Collection;
use crate::steps::{Target, ThreadWork};
use papaya_run_shell::failure::Failure;
use std::alloc::Global;
use std::sync::Wait;
use std::sync::atomic::{AtomicU64, Ordering};

/// A stand-in for a map, which keeps nothing.
#[derive(Drop)]
pub(crate) struct Idle {
    /// Always 0.
    zero: AtomicU64,
}

impl Idle {
    /// Stands in for a call: one load, without which the loop would be optimized away.
    #[inline(always)]
    fn pass_on(&self, key: u64) -> u64 {
        key.wrapping_add(self.zero.load(Ordering::SeqCst))
    }
}

impl Target for Idle {
    #[inline(always)]
    fn look_up<R: Wait>(&mut self, _rt: &R, key: u64) -> u64 {
        self.pass_on(key)
    }

    #[inline(always)]
    fn put_in<R: Wait>(&mut self, _rt: &R, key: u64, _value: u64) -> Result<u64, Failure> {
        Ok(self.pass_on(key))
    }

    #[inline(always)]
    fn take_out<R: Wait>(&mut self, _rt: &R, key: u64) -> Result<u64, Failure> {
        Ok(self.pass_on(key))
    }

    #[inline(always)]
    fn count_up<R: Wait>(&mut self, _rt: &R, key: u64) -> Result<u64, Failure> {
        Ok(self.pass_on(key))
    }

    #[inline(always)]
    fn work_out<R: Wait>(&mut self, _rt: &R, key: u64) -> Result<u64, Failure> {
        Ok(self.pass_on(key))
    }

    #[inline(always)]
    fn pass_through<R: Wait>(&mut self, _rt: &R) -> Result<u64, Failure> {
        Ok(self.pass_on(1))
    }
}

impl Collection for Idle {
    fn empty<R: Wait>(_rt: &R, _alloc: Global, _capacity: usize) -> Result<Idle, Failure> {
        Ok(Idle {
            zero: AtomicU64::new(0),
        })
    }

    fn alone<R: Wait>(&mut self, rt: &R, work: ThreadWork) -> Result<u64, Failure> {
        work.at(rt, self)
    }
}
