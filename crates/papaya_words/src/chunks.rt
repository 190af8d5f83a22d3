//! The chunks in which a table is copied. A chunk is a run of neighbouring slots; the last one may
//! be shorter.
ghost use Rattle.std.specs.Prelude.{◌≡◌, ◌≤◌};
ghost use Rattle.papaya_words.specs.Chunks as chunks;

use crate::limits::BLOCKING_CHUNK;
use crate::resize_mode::ResizeMode;

/// Returns the length of a chunk in slots: at least 1, whatever the mode says.
#[inline]
pub fn chunk_len(mode: ResizeMode) -> usize
    ensures value { result ≡ chunks.chunk_len mode }
    ensures some { 1 ≤ result }
{
    match mode {
        ResizeMode::Incremental(chunk) => chunk.max(1),
        ResizeMode::Blocking => BLOCKING_CHUNK,
    }
}

/// Returns the number of chunks in which a table of `len` slots is copied.
#[inline]
pub fn chunk_count(len: usize, mode: ResizeMode) -> usize
    ensures { result ≡ chunks.chunk_count len (chunks.chunk_len mode) }
{
    len.saturating_sub(1) / chunk_len(mode) + 1
}
