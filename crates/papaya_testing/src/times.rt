//! Hashers with which a test chooses the keys that share a probe sequence.
ghost use Rattle.std.specs.Prelude.{◌≡◌, ◌*◌, slice_index};

use std::hash::{BuildHasher, Hasher};

/// Hashes a key below 256 to this multiple of itself.
#[derive(Clone, Copy)]
pub struct Times(pub u8);

/// Each key has a slot of its own.
pub const APART: Times = Times(1);

/// All keys share one probe sequence.
pub const TOGETHER: Times = Times(0);

/// The first byte of the last write, and the factor of its hash.
#[derive(Drop)]
pub struct FirstByte {
    factor: u8,
    byte: u8,
}

/// Returns the first of the bytes, or 0.
fn first_of(bytes: &[u8]) -> u8
    ensures { result ≡ slice_index bytes.now 0 }
{
    match bytes {
        [first, ..] => *first,
        [] => 0,
    }
}

impl Hasher for FirstByte {
    ghost write = { λ s bytes. record s { byte = slice_index bytes 0 } };

    ghost finish = { λ s. s.byte * s.factor };

    fn finish(&self) -> u64 {
        self.byte as u64 * self.factor as u64
    }

    fn write(&mut self, bytes: &[u8]) {
        self.byte = first_of(bytes);
    }
}

impl BuildHasher for Times {
    type Hasher = FirstByte;

    ghost build_hasher = { λ times. record { factor = times.0; byte = 0 } };

    fn build_hasher(&self) -> FirstByte {
        FirstByte {
            factor: self.0,
            byte: 0,
        }
    }
}
