//! A hasher that hashes each key to the same number.
ghost use Rattle.std.specs.Prelude.{◌≡◌};

use std::hash::{BuildHasher, Hasher};

/// Hashes each key to this number, so that all keys share one probe sequence.
#[derive(Clone, Copy)]
pub struct Same(pub u64);

/// The probe sequence begins at a table's first slot.
pub const FIRST: Same = Same(0);

/// The probe sequence begins at a table's last slot.
pub const LAST: Same = Same(u64::MAX);

/// A hasher whose result is the same whatever is written.
#[derive(Clone, Copy)]
pub struct SameHasher {
    hash: u64,
}

impl Hasher for SameHasher {
    ghost write = { λ s bytes. s };

    ghost finish = { λ s. s.hash };

    fn finish(&self) -> u64 {
        self.hash
    }

    fn write(&mut self, _bytes: &[u8]) {}
}

impl BuildHasher for Same {
    type Hasher = SameHasher;

    ghost build_hasher = { λ same. record { hash = same.0 } };

    fn build_hasher(&self) -> SameHasher {
        SameHasher { hash: self.0 }
    }
}
