//! Keys that are equal if their numbers are. A label shows which of them is stored.
ghost use Rattle.std.specs.Prelude.{◌≡◌, ◌==◌};
ghost use Rattle.std.proofs.Common.{ap};
ghost use Rattle.std.specs.Cmp.{nat_eq_equiv, on_equiv, partial_equiv_from_equiv, unsigned_Decides};
ghost use Rattle.std.specs.Hash as fed;

use std::hash::{Hash, Hasher};

/// A number with a label that comparisons ignore.
#[derive(Clone, Copy, Debug)]
pub struct Labelled {
    pub number: u64,
    pub label: char,
}

impl PartialEq for Labelled {
    ghost eq = { λ x y. x.number == y.number };

    ghost laws = { partial_equiv_from_equiv (on_equiv (λ key. key.number) nat_eq_equiv) };

    fn eq(&self, other: &Labelled) -> bool {
        self.number == other.number
    }
}

impl Eq for Labelled {
    ghost laws = { on_equiv (λ key. key.number) nat_eq_equiv };
}

impl Hash for Labelled {
    ghost hash_input = { λ key. fed.u64 key.number };

    ghost respects_eq = { λ x y same. ap fed.u64 ((unsigned_Decides x.number y.number).0 same) };

    fn hash<H: Hasher>(&self, state: &mut H) {
        self.number.hash(state);
    }
}

/// Returns key 7 with this label.
pub fn seven(label: char) -> Labelled {
    Labelled { number: 7, label }
}
