//! The entries of an iteration, as they are printed.
ghost use Rattle.std.specs.Prelude.{◌≡◌};
ghost use Rattle.papaya_run_lines.specs.Walk.{IsByKey};

use std::fmt;
use std::marker::Model;

/// The entries of an iteration, by rising key. Contracts see them as a list.
#[derive(Drop)]
pub struct Walk {
    pairs: Vec<(u64, u64)>,
}

impl Model for Walk {
    ghost use Rattle.std.specs.Prelude.{ℕ, List};

    ghost Value = { List (ℕ × ℕ) };

    ghost view = { λ walk. walk.pairs.items };
}

impl Walk {
    /// Returns an iteration of these entries.
    pub fn new(mut pairs: Vec<(u64, u64)>) -> Walk
        ensures { IsByKey pairs.items result }
    {
        pairs.sort_unstable_by_key(
            |pair|
                ensures { result ≡ pair.now.0 }
            { pair.0 },
        );
        Walk { pairs }
    }
}

impl fmt::Display for Walk {
    ghost use Rattle.std.specs.Prelude.{Some};
    ghost use Rattle.papaya_run_lines.specs.Walk.{pairs_text};

    ghost output = { λ walk. Some (pairs_text walk) };

    fn fmt<W: fmt::Write>(&self, f: &mut fmt::Formatter<W>) -> fmt::Result {
        for (key, value) in &self.pairs {
            write!(f, " {key}={value}")?;
        }
        Ok(())
    }
}
