//! Shared maps as JSON objects, shared sets as JSON arrays, and back.
ghost use Rattle.std.specs.Prelude.{◌≡◌, IfErr, IfOk, List, None, [], map};
ghost use Rattle.std.specs.Fn.{FnReturnsAt};
ghost use Rattle.std.specs.List.{All};
ghost use mathlib.Core.List.{IsPrefix};
ghost use Rattle.papaya_words.specs.declared.limits.TheConstants.{DEFAULT_CHUNK, DEFAULT_SHARDS};
ghost use Rattle.papaya_map.specs.Collected.{AreStored, AreYielded, Had};
ghost use Rattle.papaya_map.specs.Fixed.{IsFor};
ghost use Rattle.papaya_set.specs.Sets.{entry_of_key};
ghost use Rattle.papaya_json.specs.Arrays.{HasNoKey, IsArray, IsArrayWith, IsKey};
ghost use Rattle.papaya_json.specs.Arrays.{IsListRefusal, IsNoArrayOr};
ghost use Rattle.papaya_json.specs.Objects.{HasNoPair, IsNoObjectOr, IsObject, IsObjectWith};
ghost use Rattle.papaya_json.specs.Objects.{IsPair, IsWriteRefusal};
ghost use Rattle.papaya_json.specs.Shared.{IsEachStored, IsUnread, IsUnwritten, IsUnwrittenOf};

use crate::to_value::{push, put};
use papaya_map::map::HashMap;
use papaya_map::pass::Pass;
use papaya_map::session::Session;
use papaya_map_scan::walk::Iter;
use papaya_set::set::HashSet;
use papaya_words::refused::Refused;
use papaya_words::resize_mode::ResizeMode;
use serde_json::{Map, Value};
use std::alloc::Global;
use std::hash::{BuildHasher, Hash};
use std::sync::Wait;

/// Returns a shared map as a JSON object, as [`crate::to_value::map_to_value`] does. The object has
/// the entries that an iteration yields. If other threads change the map meanwhile, these are the
/// entries that [`papaya_map::map::HashMapRef::iter`] describes.
///
/// # Errors
///
/// Fails with `Refused::Item`, `Refused::KeyClash` or `Refused::Memory`, as `map_to_value` does. If
/// the iteration needs a table, it may also fail with `Refused::Capacity`.
pub fn shared_map_to_value<R: Wait, K: Hash + Eq, V, S: BuildHasher, T, W>(
    rt: &R,
    alloc: Global,
    map: &HashMap<K, V, S>,
    key: T,
    value: W,
) -> Result<Value, Refused>
where
    T: Fn(&K) -> Option<String>,
    W: Fn(&V) -> Option<Value>,
    requires key { T.IsAlwaysCallable key }
    requires value { W.IsAlwaysCallable value }
    ensures ok { IfOk result (λ v. (pairs : List (K × V))
        × IsObject (FnReturnsAt T.Fn key) (FnReturnsAt W.Fn value) pairs v) }
    ensures err { IfErr result (IsUnwritten (IsWriteRefusal (FnReturnsAt T.Fn key)
        (FnReturnsAt W.Fn value))) }
{
    let mut pairs = map.pin().iter(rt)?;
    object_of(alloc, &mut pairs, key, value)
}

/// Returns the map of a session as a JSON object, as [`shared_map_to_value`] does. The object has a
/// member for each entry that the session had observed in the map, unless a change took the entry
/// out meanwhile. Each member is that of an entry which the map had at some point since. The session
/// then has observed the iteration.
///
/// # Errors
///
/// Fails with `Refused::Item`, `Refused::KeyClash`, `Refused::Memory` or `Refused::Capacity`, as
/// `shared_map_to_value` does.
pub fn session_to_value<R: Wait, K: Hash + Eq, V, S: BuildHasher, T, W>(
    rt: &R,
    alloc: Global,
    session: &mut Session<'_, K, V, S>,
    key: T,
    value: W,
) -> Result<Value, Refused>
where
    T: Fn(&K) -> Option<String>,
    W: Fn(&V) -> Option<Value>,
    requires key { T.IsAlwaysCallable key }
    requires value { W.IsAlwaysCallable value }
    ensures map { session.new.map ≡ session.old.map }
    ensures seen { IsPrefix session.old.history session.new.history }
    ensures tables { IsPrefix session.old.tables session.new.tables }
    ensures made { session.new.made ≡ session.old.made }
    ensures ok { IfOk result (λ v. (pairs : List (K × V))
        × AreYielded K.eq session.old.history session.new.history pairs
        × IsObject (FnReturnsAt T.Fn key) (FnReturnsAt W.Fn value) pairs v) }
    ensures err { IfErr result (IsUnwrittenOf (Had K.eq session.old.history session.new.history)
        (IsWriteRefusal (FnReturnsAt T.Fn key) (FnReturnsAt W.Fn value))) }
{
    let mut pairs = session.iter(rt)?;
    let written = object_of(alloc, &mut pairs, key, value);
    session.learn_walk(&pairs);
    written
}

/// Returns the object of the entries that an iterator yields, as `object_from` does. The iterator
/// has not yielded any yet.
fn object_of<K: Hash + Eq, V, S: BuildHasher, T, W>(
    alloc: Global,
    pairs: &mut Iter<'_, K, V, S>,
    key: T,
    value: W,
) -> Result<Value, Refused>
where
    T: Fn(&K) -> Option<String>,
    W: Fn(&V) -> Option<Value>,
    requires new { pairs.old.given ≡ [] }
    requires key { T.IsAlwaysCallable key }
    requires value { W.IsAlwaysCallable value }
    ensures book { pairs.new.book ≡ pairs.old.book }
    ensures seen { IsPrefix pairs.old.history pairs.new.history }
    ensures had { All (Had K.eq pairs.old.began pairs.new.history) pairs.new.given }
    ensures yielded { IfOk result (λ _. AreYielded K.eq pairs.old.began pairs.new.history
        pairs.new.given) }
    ensures ok { IfOk result (IsObject (FnReturnsAt T.Fn key) (FnReturnsAt W.Fn value)
        pairs.new.given) }
    ensures err { IfErr result (IsWriteRefusal (FnReturnsAt T.Fn key) (FnReturnsAt W.Fn value)
        pairs.new.given) }
{
    let mut members: Map<String, Value> = Map::new(alloc);
    let mut clash = false;
    while let Some((k, v)) = pairs.next() {
        let Some(name) = key(k) else {
            return Err(Refused::Item);
        };
        let Some(member) = value(v) else {
            return Err(Refused::Item);
        };
        match put(&mut members, name, member) {
            Ok(new) => clash = clash || !new,
            Err(refused) => return Err(refused),
        }
    }
    if clash {
        return Err(Refused::KeyClash);
    }
    Ok(Value::Object(members))
}

/// Inserts the entries of an object's members into a map without a limit, by a pass.
fn fill<R: Wait, K: Hash + Eq + Drop, V: Drop, S: BuildHasher, T, W>(
    rt: &R,
    map: &HashMap<K, V, S>,
    members: &Map<String, Value>,
    key: T,
    value: W,
    pass: &mut Pass<K, V, S>,
) -> Result<(), Refused>
where
    T: Fn(&str) -> Option<K>,
    W: Fn(&Value) -> Option<V>,
    requires limit { map.now.begun.limit ≡ None }
    requires key { T.IsAlwaysCallable key }
    requires value { W.IsAlwaysCallable value }
    requires book { pass.old.book ≡ map.now.book }
    ensures book { pass.new.book ≡ pass.old.book }
    ensures stored { IfOk result (λ _. IsEachStored (IsPair (FnReturnsAt T.Fn key)
        (FnReturnsAt W.Fn value)) (λ pairs. AreStored K.eq pairs pass.old.history pass.new.history)
        members.now.entries) }
    ensures err { IfErr result (λ e. IsUnread (HasNoPair (FnReturnsAt T.Fn key)
        (FnReturnsAt W.Fn value)) e members.now.entries) }
{
    for (name, member) in members {
        let Some(k) = key(name.as_str()) else {
            return Err(Refused::Item);
        };
        let Some(v) = value(member) else {
            return Err(Refused::Item);
        };
        match map.pin().insert_as(rt, k, v, pass) {
            Ok(_) => {}
            Err(refused) => return Err(refused),
        }
    }
    Ok(())
}

/// Returns the map of an object's members.
fn shared_map_of<R: Wait, K: Hash + Eq + Drop, V: Drop, S: BuildHasher + Drop, T, W>(
    rt: &R,
    alloc: Global,
    members: &Map<String, Value>,
    hasher: S,
    key: T,
    value: W,
) -> Result<HashMap<K, V, S>, Refused>
where
    T: Fn(&str) -> Option<K>,
    W: Fn(&Value) -> Option<V>,
    requires key { T.IsAlwaysCallable key }
    requires value { W.IsAlwaysCallable value }
    ensures stored { IfOk result (λ map. IsEachStored (IsPair (FnReturnsAt T.Fn key)
        (FnReturnsAt W.Fn value)) (λ pairs. AreStored K.eq pairs [] map.seen)
        members.now.entries) }
    ensures made { IfOk result (IsFor (ResizeMode.Incremental DEFAULT_CHUNK) 0 DEFAULT_SHARDS
        None) }
    ensures hasher { IfOk result (λ made. made.begun.hasher ≡ hasher) }
    ensures err { IfErr result (λ e. IsUnread (HasNoPair (FnReturnsAt T.Fn key)
        (FnReturnsAt W.Fn value)) e members.now.entries) }
{
    let mut map = HashMap::with_hasher(rt, alloc, hasher)?;
    let mut pass = map.pass();
    fill(rt, &map, members, key, value, &mut pass)?;
    map.learn(&pass);
    Ok(map)
}

/// Returns a shared map with an entry for each member of a JSON object, as
/// [`crate::from_value::map_from_value`] does. Entries are inserted in the order of the members'
/// texts.
///
/// # Errors
///
/// Fails with `Refused::Shape` if the value is not an object, before the map is made. Fails with
/// `Refused::Item` at the first member for which a function returns `None`. Fails with
/// `Refused::Memory` if an allocation fails, and with `Refused::Capacity` if an entry has no room,
/// as an insertion does. The map has no limit on entries.
pub fn shared_map_from_value<R: Wait, K: Hash + Eq + Drop, V: Drop, S: BuildHasher + Drop, T, W>(
    rt: &R,
    alloc: Global,
    v: &Value,
    hasher: S,
    key: T,
    value: W,
) -> Result<HashMap<K, V, S>, Refused>
where
    T: Fn(&str) -> Option<K>,
    W: Fn(&Value) -> Option<V>,
    requires key { T.IsAlwaysCallable key }
    requires value { W.IsAlwaysCallable value }
    ensures stored { IfOk result (λ map. IsObjectWith v.now (IsEachStored (IsPair
        (FnReturnsAt T.Fn key) (FnReturnsAt W.Fn value))
        (λ pairs. AreStored K.eq pairs [] map.seen))) }
    ensures made { IfOk result (IsFor (ResizeMode.Incremental DEFAULT_CHUNK) 0 DEFAULT_SHARDS
        None) }
    ensures hasher { IfOk result (λ made. made.begun.hasher ≡ hasher) }
    ensures err { IfErr result (IsNoObjectOr v.now (IsUnread (HasNoPair (FnReturnsAt T.Fn key)
        (FnReturnsAt W.Fn value)))) }
{
    let Value::Object(members) = v else {
        return Err(Refused::Shape);
    };
    shared_map_of(rt, alloc, members, hasher, key, value)
}

/// Returns a shared set as a JSON array, as [`crate::to_value::set_to_value`] does: the array of
/// the keys that an iteration returns. If other threads change the set meanwhile, those keys are as
/// [`papaya_set::set::HashSetRef::iter`] returns them.
///
/// # Errors
///
/// Fails with `Refused::Item` or `Refused::Memory`, as `set_to_value` does. If the iteration needs
/// a table, it may also fail with `Refused::Capacity`.
pub fn shared_set_to_value<R: Wait, K: Hash + Eq, S: BuildHasher, T: Fn(&K) -> Option<Value>>(
    rt: &R,
    alloc: Global,
    set: &HashSet<K, S>,
    key: T,
) -> Result<Value, Refused>
    requires { T.IsAlwaysCallable key }
    ensures ok { IfOk result (λ v. (keys : List K) × IsArray (FnReturnsAt T.Fn key) keys v) }
    ensures err { IfErr result (IsUnwritten (IsListRefusal (FnReturnsAt T.Fn key))) }
{
    let mut pairs = set.map().pin().iter(rt)?;
    array_of(alloc, &mut pairs, key)
}

/// Returns the set of a session as a JSON array, as [`shared_set_to_value`] does. The session is of
/// the set's map ([`HashSet::map`]). The array has an item for each key that the session had
/// observed in the set, unless a change took the key out meanwhile. Each item is that of a key which
/// the set had at some point since. The session then has observed the iteration.
///
/// # Errors
///
/// Fails with `Refused::Item`, `Refused::Memory` or `Refused::Capacity`, as `shared_set_to_value`
/// does.
pub fn set_session_to_value<R: Wait, K: Hash + Eq, S: BuildHasher, T: Fn(&K) -> Option<Value>>(
    rt: &R,
    alloc: Global,
    session: &mut Session<'_, K, (), S>,
    key: T,
) -> Result<Value, Refused>
    requires { T.IsAlwaysCallable key }
    ensures map { session.new.map ≡ session.old.map }
    ensures seen { IsPrefix session.old.history session.new.history }
    ensures tables { IsPrefix session.old.tables session.new.tables }
    ensures made { session.new.made ≡ session.old.made }
    ensures ok { IfOk result (λ v. (keys : List K)
        × AreYielded K.eq session.old.history session.new.history (map entry_of_key keys)
        × IsArray (FnReturnsAt T.Fn key) keys v) }
    ensures err { IfErr result (IsUnwrittenOf (λ k. Had K.eq session.old.history
        session.new.history (entry_of_key k)) (IsListRefusal (FnReturnsAt T.Fn key))) }
{
    let mut pairs = session.iter(rt)?;
    let written = array_of(alloc, &mut pairs, key);
    session.learn_walk(&pairs);
    written
}

/// Returns the array of the keys of the entries that an iterator yields, as `array_from` does. The
/// iterator has not yielded any yet.
fn array_of<K: Hash + Eq, S: BuildHasher, T: Fn(&K) -> Option<Value>>(
    alloc: Global,
    pairs: &mut Iter<'_, K, (), S>,
    key: T,
) -> Result<Value, Refused>
    requires new { pairs.old.given ≡ [] }
    requires key { T.IsAlwaysCallable key }
    ensures book { pairs.new.book ≡ pairs.old.book }
    ensures seen { IsPrefix pairs.old.history pairs.new.history }
    ensures had { All (Had K.eq pairs.old.began pairs.new.history) pairs.new.given }
    ensures yielded { IfOk result (λ _. AreYielded K.eq pairs.old.began pairs.new.history
        pairs.new.given) }
    ensures ok { IfOk result (IsArray (FnReturnsAt T.Fn key) (map (λ e. e.0) pairs.new.given)) }
    ensures err { IfErr result (IsListRefusal (FnReturnsAt T.Fn key)
        (map (λ e. e.0) pairs.new.given)) }
{
    let mut items: Vec<Value> = Vec::new(alloc);
    while let Some((k, _)) = pairs.next() {
        let Some(item) = key(k) else {
            return Err(Refused::Item);
        };
        match push(&mut items, item) {
            Ok(()) => {}
            Err(refused) => return Err(refused),
        }
    }
    Ok(Value::Array(items))
}

/// Inserts the keys of an array's items into a set without a limit, by a pass.
fn fill_set<R: Wait, K: Hash + Eq + Drop, S: BuildHasher, T: Fn(&Value) -> Option<K>>(
    rt: &R,
    set: &HashSet<K, S>,
    items: &Vec<Value>,
    key: T,
    pass: &mut Pass<K, (), S>,
) -> Result<(), Refused>
    requires limit { set.now.begun.limit ≡ None }
    requires key { T.IsAlwaysCallable key }
    requires book { pass.old.book ≡ set.now.book }
    ensures book { pass.new.book ≡ pass.old.book }
    ensures stored { IfOk result (λ _. IsEachStored (IsKey (FnReturnsAt T.Fn key))
        (λ keys. AreStored K.eq (map entry_of_key keys) pass.old.history pass.new.history)
        items.now.items) }
    ensures err { IfErr result (λ e. IsUnread (HasNoKey (FnReturnsAt T.Fn key)) e
        items.now.items) }
{
    for item in items {
        let Some(k) = key(item) else {
            return Err(Refused::Item);
        };
        match set.map().pin().insert_as(rt, k, (), pass) {
            Ok(_) => {}
            Err(why) => return Err(why),
        }
    }
    Ok(())
}

/// Returns the set of an array's items.
fn shared_set_of<R: Wait, K: Hash + Eq + Drop, S: BuildHasher + Drop, T>(
    rt: &R,
    alloc: Global,
    items: &Vec<Value>,
    hasher: S,
    key: T,
) -> Result<HashSet<K, S>, Refused>
where
    T: Fn(&Value) -> Option<K>,
    requires { T.IsAlwaysCallable key }
    ensures stored { IfOk result (λ set. IsEachStored (IsKey (FnReturnsAt T.Fn key))
        (λ keys. AreStored K.eq (map entry_of_key keys) [] set.seen) items.now.items) }
    ensures made { IfOk result (IsFor (ResizeMode.Incremental DEFAULT_CHUNK) 0 DEFAULT_SHARDS
        None) }
    ensures hasher { IfOk result (λ made. made.begun.hasher ≡ hasher) }
    ensures err { IfErr result (λ e. IsUnread (HasNoKey (FnReturnsAt T.Fn key)) e
        items.now.items) }
{
    let mut set = HashSet::with_hasher(rt, alloc, hasher)?;
    let mut pass = set.map().pass();
    fill_set(rt, &set, items, key, &mut pass)?;
    set.learn(&pass);
    Ok(set)
}

/// Returns a shared set with a key for each item of a JSON array, as
/// [`crate::from_value::set_from_value`] does. Keys are inserted in the order of the items.
///
/// # Errors
///
/// Fails with `Refused::Shape` if the value is not an array, before the set is made. Fails with
/// `Refused::Item` at the first item for which the function returns `None`. Fails with
/// `Refused::Memory` if an allocation fails, and with `Refused::Capacity` if a key has no room, as
/// an insertion does. The set has no limit on keys.
pub fn shared_set_from_value<R: Wait, K: Hash + Eq + Drop, S: BuildHasher + Drop, T>(
    rt: &R,
    alloc: Global,
    v: &Value,
    hasher: S,
    key: T,
) -> Result<HashSet<K, S>, Refused>
where
    T: Fn(&Value) -> Option<K>,
    requires { T.IsAlwaysCallable key }
    ensures stored { IfOk result (λ set. IsArrayWith v.now (IsEachStored
        (IsKey (FnReturnsAt T.Fn key))
        (λ keys. AreStored K.eq (map entry_of_key keys) [] set.seen))) }
    ensures made { IfOk result (IsFor (ResizeMode.Incremental DEFAULT_CHUNK) 0 DEFAULT_SHARDS
        None) }
    ensures hasher { IfOk result (λ made. made.begun.hasher ≡ hasher) }
    ensures err { IfErr result (IsNoArrayOr v.now (IsUnread (HasNoKey (FnReturnsAt T.Fn key)))) }
{
    let Value::Array(items) = v else {
        return Err(Refused::Shape);
    };
    shared_set_of(rt, alloc, items, hasher, key)
}
