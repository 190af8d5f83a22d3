//! Equality of keys and their hashes, as contracts name them.
use papaya_words_keys::guard::Equivalent;
use std::hash::{BuildHasher, Hash};

/// A hasher together with the keys of a map that has it. Every hasher implements it.
pub trait Keyed<K: Hash + Eq>: BuildHasher {
    ghost use Rattle.papaya_map_book.specs.Keys.{Keys};

    ghost keys: { Keys K Self };
}

impl<K: Hash + Eq, S: BuildHasher> Keyed<K> for S {
    ghost use Rattle.papaya_map_book.specs.Keys.{keys_of};

    ghost keys = { keys_of K.Hash S.BuildHasher S.Hasher.Hasher };
}

/// A hasher together with the hashes of lookups in a map that has it. Every hasher implements it.
pub trait Hashed<Q: Hash>: BuildHasher {
    ghost use Rattle.std.specs.Prelude.{ℕ};

    ghost hash: { Self → Q → ℕ };
}

impl<Q: Hash, S: BuildHasher> Hashed<Q> for S {
    ghost use Rattle.papaya_map_book.specs.Hashes.{hash_of};

    ghost hash = { hash_of Q.hash_input S.build_hasher S.Hasher.write S.Hasher.finish };
}

/// A hasher together with the queries to a map that has it.
pub trait Asked<K: Hash + Eq, Q: Equivalent<K>>: BuildHasher {
    ghost use Rattle.papaya_map_book.specs.Keys.{Query};

    ghost query: { Q → Query K Self };
}

impl<K: Hash + Eq, Q: Equivalent<K>, S: BuildHasher> Asked<K, Q> for S {
    ghost use Rattle.papaya_map_book.specs.Hashes.{hash_of};

    ghost query = { λ q. record {
      matches = Q.matches q;
      hash = λ s. hash_of Q.hash_input S.build_hasher S.Hasher.write S.Hasher.finish s q;
    } };
}
