//! The count of a map's pairs, in shards, so that callers seldom meet at one word; and where the
//! next copy begins, so that copiers seldom meet at one chunk.
ghost use Rattle.std.specs.Prelude.{◌≡◌, ◌<◌, ◌≤◌, [], ◌∷◌, Err, IfErr, IfOk, IfSome, length};
ghost use Rattle.std.specs.Int.{IsNextPowerOfTwo, IsPowerOfTwo};
ghost use Rattle.papaya_map_book.specs.declared.rule.own.CapacityCause.TheVariants as numbers;

use crate::rule::own::{CapacityCause, OwnSteps};
use crossbeam_utils::CachePadded;
use papaya_words::limits::MAX_SHARDS;
use papaya_words::refused::Refused;
use std::alloc::Global;
use std::marker::Model;
use std::sync::atomic::{AtomicI64, AtomicU64, Ordering};

/// A signed number in shards. Contracts see the number of shards. Additions are steps apart
/// from the changes that they count. So a sum may lag behind them, and no contract states what it
/// is.
///
/// As in 0.2.5 each shard has cache lines of its own. There the number of shards is derived from
/// the machine's processors.
pub struct Count {
    shards: Vec<CachePadded<AtomicI64>>,
    start: CachePadded<AtomicU64>,
}

impl Model for Count {
    ghost use Rattle.std.specs.Prelude.{ℕ, length};
    ghost use Rattle.std.specs.Int.{IsPowerOfTwo};

    ghost Value = { ℕ };

    ghost view = { λ c. length c.shards.items };

    ghost invariant = { λ c. IsPowerOfTwo (length c.shards.items) };
}

impl Drop for Count {
    fn drop(self) {
        let Self {
            shards: _,
            start: _,
        } = self;
    }
}

impl Count {
    /// Returns a count of 0 over at least this many shards, rounded up to a power of two.
    ///
    /// # Errors
    ///
    /// Fails with `Refused::Capacity` if there are more shards than
    /// [`papaya_words::limits::MAX_SHARDS`], and with `Refused::Memory` if an allocation fails.
    pub fn new(alloc: Global, shards: usize) -> Result<Count, Refused>
        ensures many { MAX_SHARDS < shards → result ≡ Err Refused.Capacity }
        ensures few { shards ≤ MAX_SHARDS → IfErr result (λ refused. refused ≡ Refused.Memory) }
        ensures shards { IfOk result (λ count. IsNextPowerOfTwo shards count) }
    {
        if shards > MAX_SHARDS {
            return Err(Refused::Capacity);
        }
        zero(alloc, shards.next_power_of_two())
    }

    /// Returns a count of 0 over as many shards.
    ///
    /// # Errors
    ///
    /// Fails with `Refused::Memory` if an allocation fails.
    pub fn new_like(&self, alloc: Global) -> Result<Count, Refused>
        ensures ok { IfOk result (λ count. count ≡ self.now) }
        ensures err { IfErr result (λ refused. refused ≡ Refused.Memory) }
    {
        zero(alloc, self.shards.len())
    }

    /// Returns the shard that a caller adds to: the one that its number picks, or one for each key
    /// if it has no number.
    #[inline(always)]
    pub fn shard(&self, number: Option<u64>) -> Shard<'_> {
        Shard {
            count: self,
            number,
        }
    }

    /// Returns the number that says at which chunk a copy begins. It is one more each time, so that
    /// a copy continues where the one before began. It is a hint: any number will do.
    pub fn next_start(&self) -> u64 {
        self.start.fetch_add(1, Ordering::SeqCst)
    }

    /// Returns the sum of all shards, each as it is when it is read; a negative sum counts as 0.
    pub fn sum(&self) -> usize {
        let mut sum: i64 = 0;
        for shard in &self.shards {
            sum = sum.wrapping_add(shard.load(Ordering::SeqCst));
        }
        if sum < 0 { 0 } else { sum as usize }
    }

    /// Returns the sum, with evidence that the count gave it.
    pub fn given_sum(&self) -> (usize, OwnSteps<CapacityCause>)
        ensures { result.1.done ≡ numbers.Sum result.0 ∷ [] }
    {
        let sum = self.sum();
        let given = CapacityCause::Sum(sum);
        (sum, OwnSteps::only(&given))
    }
}

/// Returns this many shards of 0, or `None` if memory runs out.
fn row(alloc: Global, len: usize) -> Option<Vec<CachePadded<AtomicI64>>>
    ensures { IfSome result (λ shards. length shards.items ≡ len) }
{
    let mut shards = Vec::with_capacity(alloc, len).ok()?;
    for _ in 0..len {
        shards.push(CachePadded::new(AtomicI64::new(0))).ok()?;
    }
    Some(shards)
}

/// Returns a count of 0 over this many shards.
fn zero(alloc: Global, len: usize) -> Result<Count, Refused>
    requires { IsPowerOfTwo len }
    ensures ok { IfOk result (λ count. count ≡ len) }
    ensures err { IfErr result (λ refused. refused ≡ Refused.Memory) }
{
    let Some(shards) = row(alloc, len) else {
        return Err(Refused::Memory);
    };
    Ok(Count {
        shards,
        start: CachePadded::new(AtomicU64::new(0)),
    })
}

/// The shards of one caller.
#[derive(Drop)]
pub struct Shard<'a> {
    count: &'a Count,
    number: Option<u64>,
}

impl Shard<'_> {
    /// Returns the count that the shard is of.
    #[inline(always)]
    pub fn count(&self) -> &Count {
        self.count
    }

    /// Adds to the caller's shard. If the caller has no number, `pick` selects the shard: the hash
    /// of a key, or the place of its slot. The sum wraps.
    #[inline(always)]
    pub fn add(&self, pick: u64, by: i64) {
        let count: &Count = self.count;
        let number = match self.number {
            Some(number) => number,
            None => pick,
        };
        let place = number & (count.shards.len() as u64).wrapping_sub(1);
        if let Some(sum) = count.shards.get(place as usize) {
            sum.fetch_add(by, Ordering::SeqCst);
        }
    }
}
