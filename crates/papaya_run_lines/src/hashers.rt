//! The program's hashers, of keys that are numbers.
ghost use Rattle.std.specs.Prelude.{◌≡◌, ℕ, List};
ghost use Rattle.papaya_run_lines.specs.Hashers.{number_written};

use std::hash::{BuildHasher, Hasher};

/// The hash that is the number written last.
#[derive(Clone, Copy)]
pub struct IdentityHasher {
    pub number: u64,
}

/// Returns the number of these eight bytes, the lowest first, or 0 for any other count of bytes.
fn number_written(bytes: &[u8]) -> u64
    ensures { result ≡ number_written bytes.now }
{
    match bytes {
        [a, b, c, d, e, f, g, h] => u64::from_le_bytes([*a, *b, *c, *d, *e, *f, *g, *h]),
        _ => 0,
    }
}

impl Hasher for IdentityHasher {
    ghost write = { λ s bytes. record { number = number_written bytes } };

    ghost finish = { λ s. s.number };

    fn finish(&self) -> u64 {
        self.number
    }

    fn write(&mut self, bytes: &[u8]) {
        self.number = number_written(bytes);
    }
}

/// Hashes a `u64` key to itself: the argument `id`.
#[derive(Clone, Copy)]
pub struct Identity;

impl BuildHasher for Identity {
    type Hasher = IdentityHasher;

    ghost build_hasher = { λ _. record { number = 0 } };

    fn build_hasher(&self) -> IdentityHasher {
        IdentityHasher { number: 0 }
    }
}

/// The hash that is always 0.
#[derive(Clone, Copy)]
pub struct ZeroHasher;

impl Hasher for ZeroHasher {
    ghost write = { λ s bytes. s };

    ghost finish = { λ s. 0 };

    fn finish(&self) -> u64 {
        0
    }

    fn write(&mut self, _bytes: &[u8]) {}
}

/// Hashes every key to 0, so that all keys take one path: the argument `zero`.
#[derive(Clone, Copy)]
pub struct Zero;

impl BuildHasher for Zero {
    type Hasher = ZeroHasher;

    ghost build_hasher = { λ _. record {} };

    fn build_hasher(&self) -> ZeroHasher {
        ZeroHasher
    }
}
