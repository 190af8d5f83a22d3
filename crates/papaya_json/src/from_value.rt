//! Maps from JSON objects, and sets from JSON arrays.
ghost use Rattle.std.specs.Prelude.{◌≡◌, IfErr, IfOk};
ghost use Rattle.std.specs.Fn.{FnReturnsAt};
ghost use Rattle.papaya_set.specs.Sets.{entry_of_key};
ghost use Rattle.papaya_json.specs.Arrays.{HasNoKey, IsKey, IsSetOf, IsSetRefusal};
ghost use Rattle.papaya_json.specs.Objects.{HasNoPair, IsMapOf, IsMapRefusal, IsPair};
ghost use Rattle.papaya_json.specs.Reads.{IsRead, IsReadRefusal};

use papaya_seq::seq::HashMap;
use papaya_set::seq::HashSet;
use papaya_words::refused::Refused;
use serde_json::{Map, Value};
use std::alloc::Global;
use std::hash::{BuildHasher, Hash};

/// Returns the map of an object's members.
fn map_of<K: Hash + Eq + Drop, V: Drop, S: BuildHasher + Drop, T, W>(
    alloc: Global,
    members: &Map<String, Value>,
    hasher: S,
    key: T,
    value: W,
) -> Result<HashMap<K, V, S>, Refused>
where
    T: Fn(&str) -> Option<K>,
    W: Fn(&Value) -> Option<V>,
    requires key { T.IsAlwaysCallable key }
    requires value { W.IsAlwaysCallable value }
    ensures ok { IfOk result (IsRead K.eq (IsPair (FnReturnsAt T.Fn key) (FnReturnsAt W.Fn value))
        (λ p. p) members.now.entries) }
    ensures hasher { IfOk result (λ map. map.store.hasher ≡ hasher) }
    ensures err { IfErr result (λ e. IsReadRefusal S K.eq
        (IsPair (FnReturnsAt T.Fn key) (FnReturnsAt W.Fn value))
        (HasNoPair (FnReturnsAt T.Fn key) (FnReturnsAt W.Fn value)) (λ p. p) e
        members.now.entries) }
{
    let mut map = HashMap::with_hasher(alloc, hasher)?;
    for (name, member) in members {
        let Some(k) = key(name.as_str()) else {
            return Err(Refused::Item);
        };
        let Some(v) = value(member) else {
            return Err(Refused::Item);
        };
        match map.put(k, v) {
            Ok(_) => {}
            Err(refused) => return Err(refused),
        }
    }
    Ok(map)
}

/// Returns a map with an entry for each member of a JSON object. One function returns the key for a
/// member's text, and the other the value for its JSON value. This replaces the implementation of
/// `Deserialize` in 0.2.5. Members are read in the order of their texts. If two members have equal
/// keys, the map has the key of the first and the value of the last. No room is reserved ahead, and
/// the map has no limit on entries.
///
/// # Errors
///
/// Fails with `Refused::Shape`, before all else, if the value is not an object. Fails with
/// `Refused::Item` at the first member for which a function returns `None`. Fails with
/// `Refused::Memory` if memory runs out, and with `Refused::Capacity` if an entry has no room, as
/// [`HashMap::put`] does.
pub fn map_from_value<K: Hash + Eq + Drop, V: Drop, S: BuildHasher + Drop, T, W>(
    alloc: Global,
    v: &Value,
    hasher: S,
    key: T,
    value: W,
) -> Result<HashMap<K, V, S>, Refused>
where
    T: Fn(&str) -> Option<K>,
    W: Fn(&Value) -> Option<V>,
    requires key { T.IsAlwaysCallable key }
    requires value { W.IsAlwaysCallable value }
    ensures ok { IfOk result (IsMapOf (FnReturnsAt T.Fn key) (FnReturnsAt W.Fn value) K.eq
        v.now) }
    ensures hasher { IfOk result (λ map. map.store.hasher ≡ hasher) }
    ensures err { IfErr result (IsMapRefusal (FnReturnsAt T.Fn key) (FnReturnsAt W.Fn value) S K.eq
        v.now) }
{
    let Value::Object(members) = v else {
        return Err(Refused::Shape);
    };
    map_of(alloc, members, hasher, key, value)
}

/// Returns the set of an array's items.
fn set_of<K: Hash + Eq + Drop, S: BuildHasher + Drop, T: Fn(&Value) -> Option<K>>(
    alloc: Global,
    items: &Vec<Value>,
    hasher: S,
    key: T,
) -> Result<HashSet<K, S>, Refused>
    requires { T.IsAlwaysCallable key }
    ensures ok { IfOk result (IsRead K.eq (IsKey (FnReturnsAt T.Fn key)) entry_of_key
        items.now.items) }
    ensures hasher { IfOk result (λ set. set.store.hasher ≡ hasher) }
    ensures err { IfErr result (λ e. IsReadRefusal S K.eq (IsKey (FnReturnsAt T.Fn key))
        (HasNoKey (FnReturnsAt T.Fn key)) entry_of_key e items.now.items) }
{
    let mut set = HashSet::with_hasher(alloc, hasher)?;
    for item in items {
        let Some(k) = key(item) else {
            return Err(Refused::Item);
        };
        match set.insert(k) {
            Ok(_) => {}
            Err(refused) => return Err(refused),
        }
    }
    Ok(set)
}

/// Returns a set with a key for each item of a JSON array. The function returns the key for an
/// item. This replaces the implementation of `Deserialize` in 0.2.5. If two items have equal keys,
/// the set has the first one. No room is reserved ahead, and the set has no limit on keys.
///
/// # Errors
///
/// Fails with `Refused::Shape`, before all else, if the value is not an array. Fails with
/// `Refused::Item` at the first item for which the function returns `None`. Fails with
/// `Refused::Memory` if memory runs out, and with `Refused::Capacity` if a key has no room, as
/// [`HashSet::insert`] does.
pub fn set_from_value<K: Hash + Eq + Drop, S: BuildHasher + Drop, T: Fn(&Value) -> Option<K>>(
    alloc: Global,
    v: &Value,
    hasher: S,
    key: T,
) -> Result<HashSet<K, S>, Refused>
    requires { T.IsAlwaysCallable key }
    ensures ok { IfOk result (IsSetOf (FnReturnsAt T.Fn key) K.eq v.now) }
    ensures hasher { IfOk result (λ set. set.store.hasher ≡ hasher) }
    ensures err { IfErr result (IsSetRefusal (FnReturnsAt T.Fn key) S K.eq v.now) }
{
    let Value::Array(items) = v else {
        return Err(Refused::Shape);
    };
    set_of(alloc, items, hasher, key)
}
