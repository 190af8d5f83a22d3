//! The largest sizes of a map and its parts, and the defaults.

/// The greatest length of a table, in slots.
pub const MAX_TABLE_LEN: usize = 0x1_0000_0000;

/// The most tables that one map makes in its life. Tables are numbered from 1.
pub const MAX_TABLES: u64 = 0x1_0000_0000;

/// The most pairs that the map for one caller stores, and the most keys. A pair's number is its
/// index in the arena, and so is smaller. A map that threads share stores at most 2^42 pairs.
pub const MAX_LOG_LEN: usize = 0x1_0000_0000_0000;

/// The least length of a table, in slots.
pub const LEAST_TABLE_LEN: usize = 8;

/// The length, in slots, of the first table of a map that was built without a capacity.
pub const FIRST_TABLE_LEN: usize = 32;

/// The probe limit of that table: how many places after the first a search looks at. It is
/// [`crate::probe::limit`] of [`FIRST_TABLE_LEN`].
pub const FIRST_TABLE_LIMIT: usize = 25;

/// The default chunk of `ResizeMode::Incremental`: how many slots a changing call copies at a time.
pub const DEFAULT_CHUNK: usize = 64;

/// How many slots a changing call copies at a time in `ResizeMode::Blocking`.
pub const BLOCKING_CHUNK: usize = 4096;

/// The default number of shards of a map's count.
pub const DEFAULT_SHARDS: usize = 16;

/// The most shards of a map's count.
pub const MAX_SHARDS: usize = 65_536;
