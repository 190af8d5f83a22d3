//! How a map resizes.

use crate::limits::DEFAULT_CHUNK;

/// How entries move from a full table to the next one: `ResizeMode` of 0.2.5. The default is
/// `Incremental(64)`.
#[derive(Clone, Copy, Debug, PartialEq, Eq)]
pub enum ResizeMode {
    /// Each changing call that meets the resize copies this many slots. A map can't be made with a
    /// chunk of 0.
    Incremental(usize),
    /// A changing call that meets the resize copies the whole table.
    Blocking,
}

impl Default for ResizeMode {
    ghost use Rattle.std.specs.Prelude.{◌≡◌};
    ghost use Rattle.papaya_words.specs.declared.resize_mode.ResizeMode.TheVariants.{Incremental};

    ghost is_default = { λ mode. mode ≡ Incremental 64 };

    /// Returns `Incremental(64)`.
    fn default() -> ResizeMode {
        ResizeMode::Incremental(DEFAULT_CHUNK)
    }
}
