//! The counters of an arena's lanes.
ghost use Rattle.std.specs.Prelude.{◌≡◌, ◌<◌, IfOk, length, slice_index_or};

use boxcar::tag::{Names, Tag};
use papaya_map_cells::tickets::TicketCounter;
use std::alloc::{AllocError, Global};
use std::marker::Model;

/// The number of lanes of an arena, so that threads rarely contend for one. Each row has a part for
/// each lane.
pub(crate) const LANES: usize = 8;

/// The counter of a lane. It is 128 bytes from the next one, so that it has cache lines of its own
/// and is found by a shift.
#[derive(Drop)]
struct Lane {
    counter: TicketCounter,
    apart: [u64; 15],
}

/// A counter for each lane. Contracts see the counters' names.
#[derive(Drop)]
pub(crate) struct Lanes {
    lanes: Vec<Lane>,
}

impl Model for Lanes {
    ghost use Rattle.std.specs.Prelude.{◌≡◌, ℕ, List, length, map};
    ghost use base.Stored.{coded_ℕ, coded_list};

    ghost Value = { List ℕ };

    ghost coded = { coded_list coded_ℕ };

    ghost view = { λ l. map (λ lane. lane.counter) l.lanes.items };

    ghost invariant = { λ l. length l.lanes.items ≡ 8 };
}

struct All;

impl Names<Lanes> for All {
    ghost numbers = { λ lanes. lanes };
}

impl Lanes {
    /// Creates lanes that have given out no number.
    pub(crate) fn new(alloc: Global) -> Result<Lanes, AllocError> {
        let mut lanes = Vec::with_capacity(alloc, LANES)?;
        for _ in 0..LANES {
            lanes.push(Lane {
                counter: TicketCounter::new(),
                apart: [0; 15],
            })?;
        }
        Ok(Lanes { lanes })
    }

    /// Returns the counter of a lane.
    #[inline(always)]
    pub(crate) fn counter(&self, lane: usize) -> &TicketCounter
        requires { lane < 8 }
        ensures { result.now ≡ slice_index_or self.now lane 0 }
    {
        &self.lanes[lane].counter
    }

    /// Returns how many numbers the lanes have given out. It loads one counter after another.
    pub(crate) fn given(&self) -> u64 {
        let mut given: u64 = 0;
        for lane in &self.lanes {
            given = given.saturating_add(lane.counter.given());
        }
        given
    }

    /// Returns the names of the counters.
    pub(crate) fn tag(&self) -> Tag
        ensures { result.numbers ≡ self.now }
    {
        Tag::of::<Lanes, All>(self)
    }
}
