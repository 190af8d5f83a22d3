//! The work that is done on the maps, and how often.
ghost use Rattle.std.specs.Prelude.{◌≡◌, ◌≢◌, cond, ◌+◌, ◌*◌, ◌/◌, ◌%◌, ◌^◌, ◌<◌, ◌≤◌, ◌-◌, min};
ghost use Rattle.std.specs.Int.{IsPowerOfTwo};
ghost use Rattle.papaya_bench_measure.specs.declared.plan.Workload.TheVariants.{InsertFresh, WornHit, WornMiss};
ghost use Rattle.papaya_bench_measure.specs.Plan.{uses_up};

/// The number of threads that work at once, if there are several.
pub const THREADS: u64 = 4;

/// The work of a round's steps on a map.
#[derive(Clone, Copy)]
pub enum Workload {
    /// Looks up a key that the map has.
    GetHit,
    /// Looks up a key that it does not have.
    GetMiss,
    /// Inserts a key that it does not have.
    InsertFresh,
    /// Inserts a key that it has.
    InsertReplace,
    /// Removes a key that it has, and inserts it again.
    RemoveInsert,
    /// Inserts one in ten of the keys that it has, and looks the others up.
    Mixed,
    /// Counts a key that it has one up, by `update_or_insert`.
    UpdateOrInsert,
    /// Counts a key that it has one up, by `compute`.
    Compute,
    /// Finds all keys that it has, by an iteration in each round.
    Iterate,
    /// Enters the map and leaves it, and makes no call.
    Enter,
    /// Looks up a key that the map has, in which each key was replaced once.
    WornHit,
    /// Looks up a key that such a map does not have.
    WornMiss,
    /// Looks up by `&str` a text that a map from texts to counters has.
    TextHit,
    /// Looks up a text that it does not have.
    TextMiss,
    /// Looks up a text that it has, and adds 1 to its counter.
    Registry,
    /// Looks up keys that the map has, or inserts them again, as they were drawn.
    Zipf,
}

impl Workload {
    /// All workloads, in the order in which they are run.
    pub const ALL: [Workload; 16] = [
        Workload::GetHit,
        Workload::GetMiss,
        Workload::InsertFresh,
        Workload::InsertReplace,
        Workload::RemoveInsert,
        Workload::Mixed,
        Workload::UpdateOrInsert,
        Workload::Compute,
        Workload::Iterate,
        Workload::Enter,
        Workload::WornHit,
        Workload::WornMiss,
        Workload::TextHit,
        Workload::TextMiss,
        Workload::Registry,
        Workload::Zipf,
    ];

    /// Returns the name in what is printed.
    pub fn name(self) -> &'static str {
        match self {
            Workload::GetHit => "get-hit",
            Workload::GetMiss => "get-miss",
            Workload::InsertFresh => "insert-fresh",
            Workload::InsertReplace => "insert-replace",
            Workload::RemoveInsert => "remove-insert",
            Workload::Mixed => "mixed",
            Workload::UpdateOrInsert => "update-or-insert",
            Workload::Compute => "compute",
            Workload::Iterate => "iterate",
            Workload::Enter => "enter",
            Workload::WornHit => "worn-hit",
            Workload::WornMiss => "worn-miss",
            Workload::TextHit => "text-hit",
            Workload::TextMiss => "text-miss",
            Workload::Registry => "registry",
            Workload::Zipf => "zipf",
        }
    }
}

/// A workload, the number of keys, and the number of rounds. One round is a step at each key.
#[derive(Clone, Copy)]
pub struct Plan {
    pub workload: Workload,
    /// A power of two, so that each key has its turn in a round.
    pub keys: u32,
    pub rounds: u32,
}

impl Plan {
    /// Returns how many maps are made, and how many rounds each of them has. If a round uses up
    /// what a further round needs, each round has a map of its own.
    pub fn maps(self) -> (u32, u32)
        ensures each { result ≡ cond (uses_up self.workload) (self.rounds, 1) (1, self.rounds) }
        ensures all { result.0 * result.1 ≡ self.rounds }
    {
        match self.workload {
            // A removed entry keeps its slot.
            Workload::InsertFresh | Workload::RemoveInsert => (self.rounds, 1),
            _ => (1, self.rounds),
        }
    }

    /// Returns how many times all keys are inserted before the first round.
    pub fn fills(self) -> u32
        ensures none { self.workload ≡ InsertFresh → result ≡ 0 }
        ensures worn { self.workload ≡ WornHit → result ≡ 2 }
        ensures worn_too { self.workload ≡ WornMiss → result ≡ 2 }
        ensures some { self.workload ≢ InsertFresh → 0 < result }
    {
        match self.workload {
            Workload::InsertFresh => 0,
            Workload::WornHit | Workload::WornMiss => 2,
            _ => 1,
        }
    }

    /// Returns the capacity with which a map is made, so that no table grows in a round.
    pub fn capacity(self) -> usize
        ensures { self.keys ≤ result }
    {
        match self.workload {
            Workload::RemoveInsert => self.keys as usize * 2,
            _ => self.keys as usize,
        }
    }

    /// Returns the number of steps of all rounds.
    pub fn steps(self) -> u64
        ensures { result ≡ self.keys * self.rounds }
    {
        u64::from(self.keys) * u64::from(self.rounds)
    }

    /// Returns the number of the key whose turn it is, in an order in which neighbours are far
    /// apart. By `back`, each number below `keys` has one turn in a round.
    #[inline(always)]
    pub fn number_at(self, turn: u64) -> u64
        ensures value { IsPowerOfTwo self.keys → result ≡ (turn * 2654435761) % self.keys }
        ensures back { IsPowerOfTwo self.keys → turn < self.keys
            → (result * 14962265741255716689) % self.keys ≡ turn }
    {
        turn.wrapping_mul(2_654_435_761) & u64::from(self.keys).wrapping_sub(1)
    }
}

/// Returns the key of a number. By `back`, different numbers have different keys.
#[inline(always)]
pub fn key_of(number: u64) -> u64
    ensures value { result ≡ (number * 3787392781) % 2 ^ 64 }
    ensures back { (result * 1847824006677864389) % 2 ^ 64 ≡ number }
{
    number.wrapping_mul(3_787_392_781)
}

/// Returns the number of a key.
#[inline(always)]
pub fn number_of(key: u64) -> u64
    ensures { result ≡ (key * 1847824006677864389) % 2 ^ 64 }
{
    key.wrapping_mul(1_847_824_006_677_864_389)
}

/// The turns of one of several parts: from the first to below the second.
#[derive(Clone, Copy)]
pub struct TurnRange {
    pub start: u64,
    pub end: u64,
}

impl TurnRange {
    /// Returns a part with all of this many turns.
    pub fn whole(turns: u32) -> TurnRange
        ensures { (result.start ≡ 0) × (result.end ≡ turns) }
    {
        TurnRange {
            start: 0,
            end: u64::from(turns),
        }
    }

    /// Returns the part of this number, of as many as there are threads. They follow one another.
    pub fn of_thread(turns: u32, thread: u32) -> TurnRange
        ensures { (result.start ≡ turns * thread / THREADS)
            × (result.end ≡ turns * (thread + 1) / THREADS) }
    {
        let turns = u64::from(turns);
        let thread = u64::from(thread);
        TurnRange {
            start: turns * thread / THREADS,
            end: turns * (thread + 1) / THREADS,
        }
    }

    /// Returns the number of blocks of this many turns that it has. The last may have fewer.
    pub fn blocks(self, turns: u32) -> u64
        requires { 0 < turns }
        ensures { (self.end ≤ self.start + result * turns)
            × (0 < result → self.start + (result - 1) * turns < self.end) }
    {
        self.end
            .saturating_sub(self.start)
            .div_ceil(u64::from(turns))
    }

    /// Returns the block of this number, of this many turns.
    pub fn block(self, turns: u32, number: u64) -> TurnRange
        ensures { (result.start ≡ min (self.start + number * turns) self.end)
            × (result.end ≡ min (self.start + (number + 1) * turns) self.end) }
    {
        let turns = u64::from(turns);
        let start = self.start.saturating_add(number.saturating_mul(turns));
        TurnRange {
            start: start.min(self.end),
            end: start.saturating_add(turns).min(self.end),
        }
    }
}
