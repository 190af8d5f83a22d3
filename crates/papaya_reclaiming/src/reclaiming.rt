//! A map or set that threads enter and leave, and that is reclaimed in between.
ghost use Rattle.std.specs.Prelude.{◌≡◌, IfErr};

use crate::reclaim::Reclaim;
use crossbeam_utils::CachePadded;
use crossbeam_utils::sync::{ShardedLock, ShardedLockReadGuard, ShardedLockWriteGuard};
use papaya_map::map::HashMap;
use papaya_set::set::HashSet;
use papaya_words::refused::Refused;
use std::alloc::Global;
use std::fmt;
use std::hash::{BuildHasherDefault, FoldHasher};
use std::ops::Deref;
use std::sync::Wait;
use std::sync::atomic::{AtomicU64, Ordering};

/// A shared map whose memory any thread can reclaim while others use it.
pub type ReclaimingMap<K, V, S = BuildHasherDefault<FoldHasher>> = Reclaiming<HashMap<K, V, S>>;

/// A shared set whose memory any thread can reclaim while others use it.
pub type ReclaimingSet<K, S = BuildHasherDefault<FoldHasher>> = Reclaiming<HashSet<K, S>>;

/// The number of stored entries up to which [`Handle::reclaim_if`] does nothing, so that a small
/// map is not rebuilt all the time. That many entries of two `u64`s take 192 KiB.
pub const LEAST_STORED: usize = 8192;

/// A map or set whose memory can be freed while threads use it. In 0.2.5 a collector frees replaced
/// entries during the calls. Here a thread requests it, by [`Handle::reclaim`] or
/// [`Handle::reclaim_if`].
///
/// Each thread makes a [`Handle`], and enters by it for one call or for many. Threads that enter
/// never wait for each other. A thread that reclaims waits until each existing guard has been
/// dropped or refreshed, and lets no thread enter until it is done. Other threads wait for as long
/// as it copies the entries.
///
/// It is a lock of the kit with eight places, each on a cache line of its own. Entering writes to
/// one of them, and reclaiming takes all eight.
pub struct Reclaiming<M> {
    lock: ShardedLock<M>,
    handles: AtomicU64,
    waiting: CachePadded<AtomicU64>,
}

impl<M: Drop> Drop for Reclaiming<M> {
    fn drop(self) {
        let Self {
            lock: _,
            handles: _,
            waiting: _,
        } = self;
    }
}

impl<M: Reclaim + Drop> Reclaiming<M> {
    /// Wraps a map or set. A reclaim keeps all its settings: hasher, resize mode, capacity, shards
    /// and limit.
    ///
    /// # Errors
    ///
    /// Fails with `Refused::Memory` if there is no memory for the lock. The map is then dropped.
    pub fn new(alloc: Global, map: M) -> Result<Reclaiming<M>, Refused>
        ensures { IfErr result (λ refused. refused ≡ Refused.Memory) }
    {
        let Ok(lock) = ShardedLock::new(alloc, map) else {
            return Err(Refused::Memory);
        };
        Ok(Reclaiming {
            lock,
            handles: AtomicU64::new(0),
            waiting: CachePadded::new(AtomicU64::new(0)),
        })
    }

    /// Returns a handle to the map for one thread. Make one handle in each thread and keep it.
    /// Handles are assigned to the eight places of the lock in turn, so that up to eight threads
    /// each write to a cache line of their own.
    ///
    /// # Examples
    ///
    /// ```
    /// let map: ReclaimingMap<u64, u64> = Reclaiming::new(alloc, HashMap::new(rt, alloc)?)?;
    /// let mut handle = map.handle(); // one for each thread
    /// handle.enter(rt).pin().insert(rt, 1, 10)?;
    /// let reclaimed = handle.reclaim_if(rt, 2)?; // false, since only one entry is stored
    /// ```
    pub fn handle(&self) -> Handle<'_, M> {
        Handle {
            shared: self,
            place: self.handles.fetch_add(1, Ordering::SeqCst) as usize,
        }
    }

    /// Waits until there are no guards, and returns a guard that keeps new ones off while it is
    /// kept.
    fn alone<R: Wait>(&self, rt: &R) -> ShardedLockWriteGuard<'_, M> {
        let waiting: &AtomicU64 = &self.waiting;
        waiting.fetch_add(1, Ordering::SeqCst);
        let map = self.lock.write(rt);
        waiting.fetch_sub(1, Ordering::SeqCst);
        map
    }

    /// Returns the map or set itself. No handle can exist any more, since the call takes `self`. It
    /// would return `None` only if a write guard of the lock had been leaked; no such guard leaves
    /// this module, and none is leaked here.
    pub fn into_inner(self) -> Option<M> {
        let Self {
            lock,
            handles: _,
            waiting: _,
        } = self;
        lock.into_inner()
    }
}

impl<M: Drop + fmt::Debug> fmt::Debug for Reclaiming<M> {
    /// Prints the map, and never waits: while a thread reclaims the map or waits to, it prints
    /// `Reclaiming { .. }`.
    fn fmt<W: fmt::Write>(&self, f: &mut fmt::Formatter<W>) -> fmt::Result {
        match self.lock.try_read(0) {
            Some(map) => f.debug_tuple("Reclaiming").field(&*map).finish(),
            None => f.debug_struct("Reclaiming").finish_non_exhaustive(),
        }
    }
}

/// One thread's access to a [`Reclaiming`] map or set. While its guard exists, the borrow checker
/// rules out that the handle enters again or reclaims. A thread with two handles could wait for
/// itself forever, so make one per thread.
#[derive(Drop)]
pub struct Handle<'a, M> {
    shared: &'a Reclaiming<M>,
    place: usize,
}

impl<M> fmt::Debug for Handle<'_, M> {
    /// Prints the handle with its number, and not the map, which it may have to wait for.
    fn fmt<W: fmt::Write>(&self, f: &mut fmt::Formatter<W>) -> fmt::Result {
        f.debug_struct("Handle")
            .field("place", &self.place)
            .finish_non_exhaustive()
    }
}

impl<'a, M: Reclaim + Drop> Handle<'a, M> {
    /// Enters the map, and returns a guard by which any number of calls can be made. Waits while
    /// another thread reclaims the map or waits to do so.
    ///
    /// A thread that keeps a guard for a long time should call [`Entered::refresh`] from time to
    /// time. Until it does, the map cannot be reclaimed. Threads that want to enter may then wait
    /// for a thread that waits to reclaim.
    ///
    /// # Examples
    ///
    /// ```
    /// let entered = handle.enter(rt);
    /// entered.pin().insert(rt, 1, 10)?;
    /// let len = entered.len(); // 1
    /// ```
    #[inline(always)]
    pub fn enter<R: Wait>(&mut self, rt: &R) -> Entered<'_, M> {
        Entered {
            shared: self.shared,
            place: self.place,
            guard: self.shared.lock.read(rt, self.place),
        }
    }

    /// Reclaims the map: waits until each existing guard has been dropped or refreshed, copies the
    /// entries into a new map, and frees everything that the old one held. Threads that enter and
    /// leave all the time cannot delay it forever. A thread that never drops or refreshes its guard
    /// does.
    ///
    /// # Errors
    ///
    /// Fails with `Refused::Memory` if there is no memory for both maps or an entry is not cloned,
    /// and with `Refused::Capacity` if there is no room, as `reclaim` of the map itself does. The
    /// map is then as it was.
    pub fn reclaim<R: Wait>(&mut self, rt: &R) -> Result<(), Refused> {
        self.shared.alone(rt).reclaim(rt)
    }

    /// Reclaims the map and returns `true`. Returns `false` at once if a guard exists, or if another
    /// thread reclaims the map or waits to. Call it in a thread that must not wait, or that may have
    /// a guard of another handle.
    ///
    /// # Errors
    ///
    /// Fails with `Refused::Memory` or `Refused::Capacity`, as [`Handle::reclaim`] does.
    pub fn try_reclaim<R: Wait>(&mut self, rt: &R) -> Result<bool, Refused> {
        match self.shared.lock.try_write() {
            Some(mut map) => {
                map.reclaim(rt)?;
                Ok(true)
            }
            None => Ok(false),
        }
    }

    /// Reclaims the map if it stores more than `share` times as many entries as it has, and more
    /// than [`LEAST_STORED`]. Returns whether this call reclaimed it: if several threads call at
    /// once, one of them does. With a share of 2 it reclaims once more than half of the stored
    /// entries were replaced or removed, so it copies about one entry for each that was replaced.
    /// With a share of 4 it copies about one for every three.
    ///
    /// If there is nothing to reclaim, the call takes a few hundred instructions. So call it from
    /// time to time, such as once in a thousand changes.
    ///
    /// # Errors
    ///
    /// Fails with `Refused::Memory` or `Refused::Capacity`, as [`Handle::reclaim`] does.
    pub fn reclaim_if<R: Wait>(&mut self, rt: &R, share: usize) -> Result<bool, Refused> {
        if !is_due(&*self.enter(rt), share) {
            return Ok(false);
        }
        let mut map = self.shared.alone(rt);
        if !is_due(&*map, share) {
            return Ok(false);
        }
        map.reclaim(rt)?;
        Ok(true)
    }
}

/// Returns whether the map stores more than `share` times its entries.
fn is_due<M: Reclaim>(map: &M, share: usize) -> bool {
    let stored = map.stored();
    stored > LEAST_STORED && stored > map.entries().saturating_mul(share)
}

/// A guard of a map or set that a thread has entered. It derefs to the map, so `entered.pin()` and
/// `Session::new(&entered)` work as usual. No session, pinned map or reference to an entry outlives
/// the guard.
pub struct Entered<'a, M> {
    shared: &'a Reclaiming<M>,
    place: usize,
    guard: ShardedLockReadGuard<'a, M>,
}

impl<'a, M> Drop for Entered<'a, M> {
    fn drop(self) {
        let Self {
            shared: _,
            place: _,
            guard: _,
        } = self;
    }
}

impl<'a, M> Deref for Entered<'a, M> {
    type Target = M;

    ghost deref_gives = { λ entered map. ⟦<ShardedLockReadGuard<'a, M> as Deref>⟧.deref_gives
        entered.guard map };

    fn deref(&self) -> &M {
        &self.guard
    }
}

impl<M: fmt::Debug> fmt::Debug for Entered<'_, M> {
    /// Prints the map.
    fn fmt<W: fmt::Write>(&self, f: &mut fmt::Formatter<W>) -> fmt::Result {
        fmt::Debug::fmt(&**self, f)
    }
}

impl<'a, M: Reclaim + Drop> Entered<'a, M> {
    /// Leaves the map and enters it again if a thread waits to reclaim it, and otherwise does
    /// nothing. Call it between two requests in a thread that keeps its guard. If no thread waits,
    /// it takes one load of a word that seldom changes.
    #[inline(always)]
    pub fn refresh<R: Wait>(self, rt: &R) -> Entered<'a, M> {
        let waiting: &AtomicU64 = &self.shared.waiting;
        if waiting.load(Ordering::SeqCst) == 0 {
            return self;
        }
        self.enter_again(rt)
    }

    /// Leaves the map, lets it be reclaimed, and enters it again.
    #[cold]
    #[inline(never)]
    fn enter_again<R: Wait>(self, rt: &R) -> Entered<'a, M> {
        let Self {
            shared,
            place,
            guard,
        } = self;
        drop(guard);
        Entered {
            shared,
            place,
            guard: shared.lock.read(rt, place),
        }
    }
}
