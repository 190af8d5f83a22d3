// Commands of a test to a heap that refuses requests, or holds a thread up. A command is a request
// for a number of bytes that no test needs.
use std::alloc::Global;

/// The first command's number of bytes, without its argument, and the distance to the next one.
const WORDS: usize = 7_000_000;

const BETWEEN: usize = 1_000_000;

/// The commands that hold a thread up, and let it go on.
const HOLD: usize = WORDS + 3 * BETWEEN;

const LET_GO: usize = WORDS + 4 * BETWEEN;

/// Requests this many bytes and gives them back. Returns whether they were granted.
fn is_granted(alloc: Global, bytes: usize) -> bool {
    Vec::<u8>::with_capacity(alloc, bytes).is_ok()
}

/// Makes the heap refuse the request with this number from here on, counted from 1.
pub fn refuse(alloc: Global, number: usize) -> bool {
    is_granted(alloc, WORDS.wrapping_add(number))
}

/// Makes the heap refuse each request from here on whose number is a multiple of this one.
pub fn refuse_each(alloc: Global, number: usize) -> bool {
    is_granted(alloc, WORDS.wrapping_add(BETWEEN).wrapping_add(number))
}

/// Makes the heap refuse nothing from here on. Returns whether it refused a request before.
pub fn relent(alloc: Global) -> bool {
    !is_granted(alloc, WORDS.wrapping_add(BETWEEN).wrapping_add(BETWEEN))
}

/// Makes the heap hold up the next request for exactly this many bytes until [`let_go`] is called,
/// or for some seconds. Returns whether the heap can do so.
pub fn hold(alloc: Global, bytes: usize) -> bool {
    !is_granted(alloc, HOLD.wrapping_add(bytes))
}

/// Grants the request that is held up. Returns whether a thread was held up in it.
pub fn let_go(alloc: Global) -> bool {
    !is_granted(alloc, LET_GO)
}
