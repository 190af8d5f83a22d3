//! The rules of the calls that store a value as their rule decides.
ghost use Rattle.std.specs.Prelude.{◌≡◌, MatchOption};
ghost use Rattle.std.specs.Fn.{FnReturnsAt};
ghost use Rattle.papaya_map_compute.specs.Rules.{Gives, Updates, Upserts};

use crate::deciding::Rule;

/// A source of a value that is needed once at most.
pub trait Supply<V> {
    ghost can_give: { Self → Type 0 };

    ghost gives: { Self → V → Type 0 };

    /// Returns the value.
    fn give(self) -> V
        requires { can_give self }
        ensures { gives self result };
}

/// A value that exists already.
#[derive(Drop)]
pub struct Ready<V> {
    pub value: V,
}

impl<V> Supply<V> for Ready<V> {
    ghost can_give = { λ s. Unit {0} };

    ghost gives = { λ s v. v ≡ s.value };

    fn give(self) -> V {
        self.value
    }
}

/// A value that a closure makes.
#[derive(Drop)]
pub struct MadeBy<F> {
    pub make: F,
}

impl<V, F: FnOnce() -> V> Supply<V> for MadeBy<F> {
    ghost can_give = { λ s. F.IsAlwaysCallable s.make };

    ghost gives = { λ s v. F.post s.make v };

    fn give(self) -> V {
        (self.make)()
    }
}

/// Stores a value if the key has none.
#[derive(Drop)]
pub struct Giving<G> {
    pub supply: Option<G>,
}

impl<V, G: Supply<V>> Rule<V> for Giving<G> {
    ghost callable = { λ d. MatchOption d.supply (Unit {0}) G.can_give };

    ghost decides = { Gives G.gives };

    fn absent(&mut self) -> Option<V> {
        match self.supply.take() {
            Some(supply) => Some(supply.give()),
            None => None,
        }
    }

    fn present(&mut self, _value: &V) -> Option<V> {
        None
    }
}

/// Replaces the value that is there by what the closure makes of it.
#[derive(Drop)]
pub struct Updating<F> {
    pub update: F,
}

impl<V, F: Fn(&V) -> V> Rule<V> for Updating<F> {
    ghost callable = { λ d. F.IsAlwaysCallable d.update };

    ghost decides = { Updates (FnReturnsAt F.Fn) };

    fn absent(&mut self) -> Option<V> {
        None
    }

    fn present(&mut self, value: &V) -> Option<V> {
        Some((self.update)(value))
    }
}

/// Replaces the value that is there in the same way, and stores a value if the key has none.
#[derive(Drop)]
pub struct Upserting<F, G> {
    pub update: F,
    pub supply: Option<G>,
}

impl<V, F: Fn(&V) -> V, G: Supply<V>> Rule<V> for Upserting<F, G> {
    ghost callable = { λ d. F.IsAlwaysCallable d.update
        × MatchOption d.supply (Unit {0}) G.can_give };

    ghost decides = { Upserts (FnReturnsAt F.Fn) G.gives };

    fn absent(&mut self) -> Option<V> {
        match self.supply.take() {
            Some(supply) => Some(supply.give()),
            None => None,
        }
    }

    fn present(&mut self, value: &V) -> Option<V> {
        Some((self.update)(value))
    }
}
