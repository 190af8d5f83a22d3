// Makes a call with one request after another refused, each time on a new map.
use crate::heap::{refuse, relent};
use papaya_words::refused::Refused;
use std::alloc::Global;

/// A call, with a map or set that is ready for it.
pub trait ReadyCall {
    /// Makes the call. Returns whether its result and the state that it leaves are right.
    fn is_made(&mut self) -> Result<bool, Refused>;

    /// Returns whether the state is one that a refused call may leave.
    fn is_kept(&mut self) -> bool;
}

/// The outcome of a call with one refused request.
#[derive(Clone, Copy, PartialEq)]
pub enum TryResult {
    /// The call made fewer requests than that, and succeeded.
    Answers,
    /// The call ran out of memory and left a right state; with memory it succeeds.
    IsRefused,
    /// The call succeeded without the request, which was for what is written ahead.
    Spares,
    /// Anything else.
    Fails,
}

/// Returns whether the state is right and the call succeeds now.
fn goes_on<T: ReadyCall>(ready: &mut T) -> bool {
    ready.is_kept() && ready.is_made() == Ok(true)
}

/// Makes a call with this request refused. Returns `Answers` if no request was refused.
pub fn tries<T: ReadyCall>(alloc: Global, ready: &mut T, number: usize) -> TryResult {
    refuse(alloc, number);
    let first = ready.is_made();
    let was_refused = relent(alloc);
    match first {
        Ok(true) if was_refused => TryResult::Spares,
        Ok(true) => TryResult::Answers,
        Err(Refused::Memory) if was_refused && goes_on(ready) => TryResult::IsRefused,
        _ => TryResult::Fails,
    }
}

/// A call that is tried again and again.
pub trait Trial {
    /// Makes a map or a set ready, and makes the call with the request of this number refused.
    fn with_refused(&self, number: usize) -> Result<TryResult, Refused>;
}

/// More requests than any call makes.
const MOST: usize = 10_000;

/// Refuses each request of a call in turn, until the call makes no further one. Returns the number
/// of the first request without which the call fails, if there is one.
pub fn fails_at<T: Trial>(trial: &T) -> Result<Option<usize>, Refused> {
    for number in 1..MOST {
        match trial.with_refused(number)? {
            TryResult::Answers => return Ok(None),
            TryResult::IsRefused | TryResult::Spares => {}
            TryResult::Fails => return Ok(Some(number)),
        }
    }
    Ok(Some(MOST))
}
