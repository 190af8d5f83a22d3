//! The program's arguments.
ghost use Rattle.std.specs.Prelude.{◌≡◌, ◌≢◌, ℕ, List, map, string_bytes, MatchOption};
ghost use Rattle.papaya_run_lines.specs.declared.arguments.Backend.{Backend};
ghost use Rattle.papaya_words.specs.declared.resize_mode.ResizeMode.{ResizeMode};
ghost use Rattle.papaya_run_lines.specs.declared.arguments.Arguments.{Arguments};
ghost use Rattle.papaya_run_lines.specs.declared.arguments.Hashing.{Hashing};
ghost use Rattle.papaya_run_lines.specs.Arguments.{WritesArguments, WritesMode, backend_word, hashing_word};

use crate::numbers::number_of;
use papaya_words::resize_mode::ResizeMode;

/// The map that the lines run on.
#[derive(Clone, Copy)]
pub enum Backend {
    /// Any number of callers on one map, one step at a time.
    Core,
    /// One caller, one call at a time.
    Seq,
    /// The map that threads share, by its plain calls, one call at a time.
    Shared,
}

/// The hash of keys.
#[derive(Clone, Copy)]
pub enum Hashing {
    /// A key to itself.
    Identity,
    /// Every key to 0.
    Zero,
}

/// The parsed arguments.
#[derive(Clone, Copy)]
pub struct Arguments {
    pub backend: Backend,
    pub mode: ResizeMode,
    pub hashing: Hashing,
}

/// Returns the backend of this word.
fn backend_of(word: &str) -> Option<Backend>
    ensures { MatchOption result ((backend : Backend) → word.now ≢ backend_word backend)
        (λ backend. word.now ≡ backend_word backend) }
{
    match word {
        "core" => Some(Backend::Core),
        "seq" => Some(Backend::Seq),
        "shared" => Some(Backend::Shared),
        _ => None,
    }
}

/// Returns the mode of this word.
fn mode_of(word: &[u8]) -> Option<ResizeMode>
    ensures { MatchOption result ((mode : ResizeMode) → ¬ (WritesMode word.now mode))
        (WritesMode word.now) }
{
    match word {
        b"block" => Some(ResizeMode::Blocking),
        [b'i', b'n', b'c', b':', chunk @ ..] => Some(ResizeMode::Incremental(
            number_of(chunk)? as usize,
        )),
        _ => None,
    }
}

/// Returns the hash of this word.
fn hashing_of(word: &str) -> Option<Hashing>
    ensures { MatchOption result ((hashing : Hashing) → word.now ≢ hashing_word hashing)
        (λ hashing. word.now ≡ hashing_word hashing) }
{
    match word {
        "id" => Some(Hashing::Identity),
        "zero" => Some(Hashing::Zero),
        _ => None,
    }
}

impl Arguments {
    /// Returns the arguments behind the program's name, or `None` if they are bad. The map checks
    /// that a chunk is not 0.
    pub fn from_words(words: &[String]) -> Option<Arguments>
        ensures { MatchOption result ((arguments : Arguments)
            → ¬ (WritesArguments (map string_bytes words.now) arguments))
            (WritesArguments (map string_bytes words.now)) }
    {
        match words {
            [backend, mode, hashing] => Some(Arguments {
                backend: backend_of(backend.as_str())?,
                mode: mode_of(mode.as_bytes())?,
                hashing: hashing_of(hashing.as_str())?,
            }),
            _ => None,
        }
    }
}
