//! Results of closures, as values: for calls that are values themselves.
ghost use Rattle.std.specs.Prelude.{◌≡◌, ℕ, Option, Bool, option_map, false};
ghost use Rattle.papaya_call.specs.declared.answers.Operation.{Operation};
ghost use Rattle.papaya_call.specs.Answers.{first_or, rest_of};

/// The result of a closure that may insert, remove or abort: `Operation` of 0.2.5.
#[derive(Debug, PartialEq, Eq, Drop)]
pub enum Operation<V, T> {
    /// Store this value. It replaces the entry's value, if there is an entry.
    Insert(V),
    /// Remove the entry.
    Remove,
    /// Change nothing, and return this.
    Abort(T),
}

/// The closure of a call, where calls are values.
///
/// A type of answers states in contracts which result and which next state each of its calls gives.
pub trait Answers<K, V> {
    ghost op_gives: { Self → Option (K × V) → Operation V ℕ → Self → Type 0 };

    ghost yes_gives: { Self → K → V → Bool → Self → Type 0 };

    /// Returns the result of a closure that may insert, remove or abort. It is called with `None`
    /// if the key is absent.
    fn op(&mut self, shown: Option<(&K, &V)>) -> Operation<V, u64>
        ensures { op_gives self.old (option_map (λ p. (p.0.now, p.1.now)) shown.entry) result
            self.new };

    /// Returns whether the entry is to be removed.
    fn yes(&mut self, key: &K, value: &V) -> bool
        ensures { yes_gives self.old key.now value.now result self.new };
}

/// Results that are listed in advance, whatever the closure is called with.
///
/// After the last one, `op` returns `Abort(0)`, and `yes` returns `false`.
pub struct Listed<V> {
    /// The results of `op`, the first one first.
    pub ops: Vec<Operation<V, u64>>,
    /// The results of `yes`, the first one first.
    pub yes: Vec<bool>,
}

impl<V: Drop> Drop for Listed<V> {
    fn drop(self) {
        let Self { ops: _, yes: _ } = self;
    }
}

impl<K, V: Drop> Answers<K, V> for Listed<V> {
    ghost op_gives = { λ s shown answer t. (answer ≡ first_or (Operation.Abort 0) s.ops.items)
        × (t.ops.items ≡ rest_of s.ops.items) × (t.yes ≡ s.yes) };

    ghost yes_gives = { λ s key value answer t. (answer ≡ first_or false s.yes.items)
        × (t.yes.items ≡ rest_of s.yes.items) × (t.ops ≡ s.ops) };

    fn op(&mut self, _shown: Option<(&K, &V)>) -> Operation<V, u64> {
        if self.ops.is_empty() {
            Operation::Abort(0)
        } else {
            self.ops.remove(0)
        }
    }

    fn yes(&mut self, _key: &K, _value: &V) -> bool {
        if self.yes.is_empty() {
            false
        } else {
            self.yes.remove(0)
        }
    }
}
