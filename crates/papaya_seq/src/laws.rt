//! Consequences of several calls' contracts together. The functions have empty bodies; their
//! contracts are the laws.
ghost use Rattle.std.specs.Prelude.{◌≡◌, ℕ, Bool, Option, Some, None, false, true};
ghost use Rattle.papaya_core_timeline.specs.Content.{map_in};
ghost use Rattle.papaya_core_store.specs.Store.{StoreState, Stored};
ghost use Rattle.papaya_seq.specs.Clones.{AreEqual, IsCloned};
ghost use Rattle.papaya_seq.specs.Map.{Inserts, Removes, value_of};

use std::hash::Hash;

/// States that an inserted key has its value, and a key whose entry was removed has none. Keys that
/// are not equal to it have what they had.
///
/// [`crate::seq::HashMap::get`] returns what the finite map has. So a lookup after an insertion of
/// its key finds the inserted value.
pub fn changes_are_found<K: Hash + Eq, V, S>()
    ensures inserted { (k : K) (v : V) (went : Option V) (s s' : StoreState K V S)
        → Inserts K.eq k v s went s' → value_of (map_in K.eq s' k) ≡ Some v }
    ensures beside { (k : K) (v : V) (went : Option V) (s s' : StoreState K V S)
        → Inserts K.eq k v s went s' → (j : K) → K.eq j k ≡ false
        → map_in K.eq s' j ≡ map_in K.eq s j }
    ensures removed { (matches : K → Bool) (p : Stored K V) (s s' : StoreState K V S)
        → Removes K.eq matches s p s' → map_in K.eq s' p.key ≡ None }
    ensures left { (matches : K → Bool) (p : Stored K V) (s s' : StoreState K V S)
        → Removes K.eq matches s p s' → (j : K) → K.eq j p.key ≡ false
        → map_in K.eq s' j ≡ map_in K.eq s j }
{}

/// States that a map of clones is equal to its original if clones of values are equal to them.
///
/// So [`crate::seq::HashMap::eq`] finds a map equal to what it was before
/// [`crate::seq::HashMap::reclaim`], and to what [`crate::seq::HashMap::try_clone`] makes of it.
pub fn clones_are_equal<K: Hash + Eq + Clone, V: Clone + PartialEq, S>()
    ensures { (s s' : StoreState K V S) → ((v w : V) → V.is_clone v w → V.eq v w ≡ true)
        → IsCloned K.eq K.is_clone V.is_clone s s' → AreEqual K.eq V.eq s s' }
{}
