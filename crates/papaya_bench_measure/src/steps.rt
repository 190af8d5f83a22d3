//! The work of one thread on a map, a set, or a lock around a map.
use crate::action::Action;
use crate::draw::Draw;
use crate::plan::{Plan, TurnRange, Workload, key_of};
use papaya_call::answers::Operation;
use papaya_run_shell::failure::Failure;
use papaya_words_keys::results::Compute;
use std::sync::Wait;

/// An object on which calls are made. Each makes one call, and returns the weight of its result.
/// [`crate::backends::BenchBackend::does`] says which have the calls that are refused here.
pub(crate) trait Target {
    fn look_up<R: Wait>(&mut self, rt: &R, key: u64) -> u64;

    fn put_in<R: Wait>(&mut self, rt: &R, key: u64, value: u64) -> Result<u64, Failure>;

    fn take_out<R: Wait>(&mut self, _rt: &R, _key: u64) -> Result<u64, Failure> {
        Err(Failure::Arguments)
    }

    /// Counts the value of a key one up by `update_or_insert`, or its counter, and returns it.
    fn count_up<R: Wait>(&mut self, _rt: &R, _key: u64) -> Result<u64, Failure> {
        Err(Failure::Arguments)
    }

    /// Counts it one up by `compute`, and returns it.
    fn work_out<R: Wait>(&mut self, _rt: &R, _key: u64) -> Result<u64, Failure> {
        Err(Failure::Arguments)
    }

    /// Iterates over all entries; returns the sum of their values, or how many keys a set has.
    fn walk<R: Wait>(&mut self, _rt: &R) -> Result<u64, Failure> {
        Err(Failure::Arguments)
    }

    /// Enters the map and leaves it; returns 1.
    fn pass_through<R: Wait>(&mut self, _rt: &R) -> Result<u64, Failure> {
        Err(Failure::Arguments)
    }
}

/// Returns the count after one more.
pub(crate) fn one_more(count: &u64) -> u64 {
    count.wrapping_add(1)
}

/// Returns a compute's operation for this argument: it counts one up.
pub(crate) fn counted_up(shown: Option<(&u64, &u64)>) -> Operation<u64, ()> {
    match shown {
        Some((_, count)) => Operation::Insert(one_more(count)),
        None => Operation::Insert(1),
    }
}

/// Returns the value that a compute has stored, or 0 if it has stored none.
pub(crate) fn stored(computed: Compute<'_, u64, u64, ()>) -> u64 {
    match computed {
        Compute::Inserted(_, value) => *value,
        Compute::Updated { new, .. } => *new.1,
        Compute::Removed(..) | Compute::Aborted(()) => 0,
    }
}

/// Returns the sum with the value of one more entry.
#[inline(always)]
pub(crate) fn with_value(sum: u64, entry: (&u64, &u64)) -> u64 {
    sum.wrapping_add(*entry.1)
}

/// The work of one thread.
#[derive(Clone, Copy)]
pub(crate) enum ThreadWork<'a> {
    /// Inserts the keys of this many numbers, each with its number.
    Fill(u32),
    /// Makes this range of the plan's turns in each of its rounds. The draws are the steps of `Zipf`.
    Rounds(Plan, &'a [Draw], TurnRange),
}

impl ThreadWork<'_> {
    /// Does the work; returns the sum of the calls' results.
    pub(crate) fn at<R: Wait, T: Target>(self, rt: &R, target: &mut T) -> Result<u64, Failure> {
        match self {
            ThreadWork::Fill(keys) => fill(rt, target, keys),
            ThreadWork::Rounds(plan, draws, part) => match plan.workload {
                Workload::UpdateOrInsert | Workload::Compute | Workload::Registry => {
                    counts(rt, target, plan, part)
                }
                Workload::Iterate => walks(rt, target, plan),
                Workload::Enter => entries(rt, target, plan, part),
                _ => rounds(rt, target, plan, draws, part),
            },
        }
    }
}

fn fill<R: Wait, T: Target>(rt: &R, target: &mut T, keys: u32) -> Result<u64, Failure> {
    let mut sum: u64 = 0;
    for number in 0..u64::from(keys) {
        sum = sum.wrapping_add(target.put_in(rt, key_of(number), number)?);
    }
    Ok(sum)
}

fn rounds<R: Wait, T: Target>(
    rt: &R,
    target: &mut T,
    plan: Plan,
    draws: &[Draw],
    part: TurnRange,
) -> Result<u64, Failure> {
    let mut sum: u64 = 0;
    let (_, rounds) = plan.maps();
    for round in 0..rounds {
        for turn in part.start..part.end {
            let action = match plan.workload {
                Workload::Zipf => plan.drawn_at(draws, turn, round),
                _ => plan.action_at(plan.number_at(turn), round),
            };
            sum = sum.wrapping_add(step(rt, target, action)?);
        }
    }
    Ok(sum)
}

/// Makes one step; returns its result.
#[inline(always)]
pub(crate) fn step<R: Wait, T: Target>(
    rt: &R,
    target: &mut T,
    action: Action,
) -> Result<u64, Failure> {
    match action {
        Action::Get(number) => Ok(target.look_up(rt, key_of(number))),
        Action::Insert(number, value) => target.put_in(rt, key_of(number), value),
        Action::Renew(number) => {
            let key = key_of(number);
            let removed = target.take_out(rt, key)?;
            Ok(removed.wrapping_add(target.put_in(rt, key, number)?))
        }
    }
}

/// Runs rounds in which each key's value is counted up. They are apart, as iterations are, so that
/// the loop of other rounds is as fast as without them.
#[inline(never)]
fn counts<R: Wait, T: Target>(
    rt: &R,
    target: &mut T,
    plan: Plan,
    part: TurnRange,
) -> Result<u64, Failure> {
    let mut sum: u64 = 0;
    let (_, rounds) = plan.maps();
    for _ in 0..rounds {
        for turn in part.start..part.end {
            let key = key_of(plan.number_at(turn));
            let counted = match plan.workload {
                Workload::Compute => target.work_out(rt, key)?,
                _ => target.count_up(rt, key)?,
            };
            sum = sum.wrapping_add(counted);
        }
    }
    Ok(sum)
}

/// Runs rounds that are iterations, which one thread makes.
#[inline(never)]
fn walks<R: Wait, T: Target>(rt: &R, target: &mut T, plan: Plan) -> Result<u64, Failure> {
    let mut sum: u64 = 0;
    let (_, rounds) = plan.maps();
    for _ in 0..rounds {
        sum = sum.wrapping_add(target.walk(rt)?);
    }
    Ok(sum)
}

/// Runs rounds in which no call is made.
#[inline(never)]
fn entries<R: Wait, T: Target>(
    rt: &R,
    target: &mut T,
    plan: Plan,
    part: TurnRange,
) -> Result<u64, Failure> {
    let mut sum: u64 = 0;
    let (_, rounds) = plan.maps();
    for _ in 0..rounds {
        for _ in part.start..part.end {
            sum = sum.wrapping_add(target.pass_through(rt)?);
        }
    }
    Ok(sum)
}
