//! Consequences of several calls' contracts together. The functions have empty bodies; their
//! contracts are the laws. They take the caller's functions only to name them.
ghost use Rattle.std.specs.Prelude.{◌≡◌, Bool};
ghost use Rattle.std.specs.Fn.{FnReturnsAt};
ghost use Rattle.serde_json.specs.declared.value.Value.{Value as Json};
ghost use Rattle.papaya_words_law.specs.Content.{AreApart};
ghost use Rattle.papaya_core_timeline.specs.Content.{content};
ghost use Rattle.papaya_seq.specs.Clones.{AreEqual};
ghost use Rattle.papaya_seq.specs.Map.{MapState};
ghost use Rattle.papaya_set.specs.Sets.{HaveSameKeys, keys_of};
ghost use Rattle.papaya_json.specs.Arrays.{IsArray, IsSetOf};
ghost use Rattle.papaya_json.specs.Objects.{IsMapOf, IsObject, pairs_of};
ghost use Rattle.papaya_json.specs.Undoing.{UndoesItems, UndoesTexts, UndoesValues};

use serde_json::Value;
use std::hash::Hash;

/// States that a map read from the JSON of a map is equal to it if the reading functions undo the
/// writing ones. `text` and `member` are those of [`crate::to_value::map_to_value`], `key` and
/// `value` those of [`crate::from_value::map_from_value`].
///
/// [`papaya_seq::seq::HashMap::len`] states that no two keys of a map are equal.
pub fn maps_read_back<K: Hash + Eq, V, S, Z, T, W, R, U>(text: &T, member: &W, key: &R, value: &U)
where
    T: Fn(&K) -> Option<String>,
    W: Fn(&V) -> Option<Value>,
    R: Fn(&str) -> Option<K>,
    U: Fn(&Value) -> Option<V>,
    ensures { (same : V → V → Bool) (s : MapState K V S) (v : Json) (t : MapState K V Z)
        → UndoesTexts K.eq (FnReturnsAt T.Fn text.now) (FnReturnsAt R.Fn key.now)
        → UndoesValues same (FnReturnsAt W.Fn member.now) (FnReturnsAt U.Fn value.now)
        → AreApart K.eq (λ p. p.key) (content K.eq s.store)
        → IsObject (FnReturnsAt T.Fn text.now) (FnReturnsAt W.Fn member.now)
        (pairs_of K.eq s.store) v
        → IsMapOf (FnReturnsAt R.Fn key.now) (FnReturnsAt U.Fn value.now) K.eq v t
        → AreEqual K.eq same s.store t.store }
{}

/// States that a set read from the JSON of a set has the same keys if the reading function `key`
/// undoes the writing one.
pub fn sets_read_back<K: Hash + Eq, S, Z, T, R>(item: &T, key: &R)
where
    T: Fn(&K) -> Option<Value>,
    R: Fn(&Value) -> Option<K>,
    ensures { (s : MapState K (Unit {0}) S) (v : Json) (t : MapState K (Unit {0}) Z)
        → UndoesItems K.eq (FnReturnsAt T.Fn item.now) (FnReturnsAt R.Fn key.now)
        → AreApart K.eq (λ p. p.key) (content K.eq s.store)
        → IsArray (FnReturnsAt T.Fn item.now) (keys_of K.eq s.store) v
        → IsSetOf (FnReturnsAt R.Fn key.now) K.eq v t → HaveSameKeys K.eq s.store t.store }
{}
