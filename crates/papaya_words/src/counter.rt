//! The count of a map's entries, split into shards so that threads rarely contend for one word.
ghost use Rattle.std.specs.Prelude.{◌≡◌, ℕ, ◌-◌, ◌<◌, ◌≤◌, length, slice_set, slice_index_or};
ghost use Rattle.std.specs.Prelude.{pos, ◌+ℤ◌, bit_and, Err, FitsSigned, IfErr, IfOk};
ghost use Rattle.std.specs.Int.{w64, int_wrap, IsPowerOfTwo, IsNextPowerOfTwo};
ghost use Rattle.papaya_words.specs.Counter.{added_at, count_of, shard_of};

use crate::limits::MAX_SHARDS;
use crate::refused::Refused;
use std::alloc::Global;
use std::marker::Model;

/// A signed number that is the sum of its shards. Contracts see the number of shards, the value of
/// each, and their sum, wrapped to 64 bits. The sum is exact whenever it fits.
///
/// The shards are plain words. In 0.2.5 each shard has a cache line of its own, and their number
/// depends on the machine's processors.
pub struct Counter {
    shards: Vec<i64>,
}

impl Model for Counter {
    ghost use Rattle.std.specs.Prelude.{length};
    ghost use Rattle.std.specs.Int.{IsPowerOfTwo};
    ghost use Rattle.papaya_words.specs.Counter.{Count, sum_of};

    ghost Value = { Count };

    ghost view = { λ c. record {
      shards = length c.shards.items;
      sum = sum_of c.shards.items;
      each = c.shards.items;
    } };

    ghost invariant = { λ c. IsPowerOfTwo (length c.shards.items) };
}

impl Drop for Counter {
    fn drop(self) {
        let Self { shards: _ } = self;
    }
}

impl Counter {
    /// Creates a counter of 0 with at least `shards` shards, rounded up to a power of two.
    ///
    /// # Errors
    ///
    /// Fails with `Refused::Capacity` above [`MAX_SHARDS`], and with `Refused::Memory` if memory
    /// runs out.
    pub fn new(alloc: Global, shards: usize) -> Result<Counter, Refused>
        ensures many { 65536 < shards → result ≡ Err Refused.Capacity }
        ensures few { shards ≤ 65536 → IfErr result (λ refused. refused ≡ Refused.Memory) }
        ensures shards { IfOk result (λ counter. IsNextPowerOfTwo shards counter.shards) }
        ensures sum { IfOk result (λ counter. counter.sum ≡ pos 0) }
    {
        if shards > MAX_SHARDS {
            return Err(Refused::Capacity);
        }
        match vec![in alloc; 0; shards.next_power_of_two()] {
            Ok(shards) => Ok(Counter { shards }),
            Err(_) => Err(Refused::Memory),
        }
    }

    /// Returns the number of shards, a power of two.
    pub fn shards(&self) -> usize
        ensures count { result ≡ self.now.shards }
        ensures power { IsPowerOfTwo result }
    {
        self.shards.len()
    }

    /// Returns the shard to which a guard with this number adds.
    #[inline(always)]
    pub fn get(&self, guard_number: u64) -> usize
        ensures place { result ≡ shard_of self.now guard_number }
        ensures bound { result < self.now.shards }
    {
        (guard_number & (self.shards.len() as u64 - 1)) as usize
    }

    /// Adds `by` to one shard, wrapping around on overflow.
    #[inline(always)]
    pub fn add(&mut self, place: usize, by: i64)
        requires { place < self.old.shards }
        ensures { self.new ≡ added_at self.old place by }
    {
        add_at(&mut self.shards, place, by);
    }

    /// Returns the sum of all shards, or 0 if it is negative.
    pub fn sum(&self) -> usize
        ensures value { result ≡ count_of self.now.sum }
        ensures fits { FitsSigned w64 self.now.sum }
    {
        let mut sum: i64 = 0;
        for shard in &self.shards {
            sum = sum.wrapping_add(*shard);
        }
        if sum < 0 { 0 } else { sum as usize }
    }
}

// A function of its own, so that it is proved over the bare list.
fn add_at(shards: &mut Vec<i64>, place: usize, by: i64)
    requires { place < length shards.old.items }
    ensures { shards.new.items ≡ slice_set shards.old.items place
        (int_wrap w64 (slice_index_or shards.old.items place (pos 0) +ℤ by)) }
{
    shards[place] = shards[place].wrapping_add(by);
}
