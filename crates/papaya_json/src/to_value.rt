//! Maps as JSON objects, and sets as JSON arrays.
ghost use Rattle.std.specs.Prelude.{◌≡◌, ◌+◌, ◌⊎◌, ◌++◌, ◌∷◌, [], IfErr, IfOk, OnOk, length};
ghost use Rattle.std.specs.Prelude.{if◌then◌else◌, map, string_cmp};
ghost use Rattle.std.specs.BTreeMap.{insert_entry};
ghost use Rattle.std.specs.Fn.{FnReturnsAt};
ghost use Rattle.std.specs.Iterator.{IsFiniteIterable};
ghost use Rattle.std.specs.Map.Iter.{deref_pair};
ghost use Rattle.papaya_seq.specs.Entries.{AllCome, ComesNext};
ghost use Rattle.papaya_set.specs.Sets.{keys_of};
ghost use Rattle.papaya_json.specs.Arrays.{HasNoItem, IsArray, IsListRefusal};
ghost use Rattle.papaya_json.specs.Objects.{HasClash, HasNoMember, IsObject};
ghost use Rattle.papaya_json.specs.Objects.{IsWriteRefusal, pairs_of};

use papaya_seq::seq::HashMap;
use papaya_set::seq::HashSet;
use papaya_words::refused::Refused;
use serde_json::{Map, Value};
use std::alloc::Global;
use std::hash::{BuildHasher, Hash};

/// Inserts a member, and returns whether its text is new.
pub(crate) fn put(
    members: &mut Map<String, Value>,
    name: String,
    member: Value,
) -> Result<bool, Refused>
    ensures entries { OnOk result (members.new.entries
        ≡ insert_entry string_cmp members.old.entries name member) }
    ensures new { IfOk result (λ new. length members.new.entries
        ≡ length members.old.entries + (if new then 1 else 0)) }
    ensures err { IfErr result (λ e. e ≡ Refused.Memory) }
{
    match members.insert(name, member) {
        Ok(old) => {
            let new = old.is_none();
            drop(old);
            Ok(new)
        }
        Err(failed) => {
            drop(failed);
            Err(Refused::Memory)
        }
    }
}

/// Returns the object of these entries, with the text and the value that the functions return for
/// each.
///
/// Fails with `Refused::Item` at the first entry for which one of them returns `None`, with
/// `Refused::KeyClash` after the last entry if two texts are equal, or with `Refused::Memory` at
/// once.
pub(crate) fn object_from<'a, K, V, U, T, W>(
    alloc: Global,
    pairs: U,
    key: T,
    value: W,
) -> Result<Value, Refused>
where
    K: 'a,
    V: 'a,
    U: IntoIterator<Item = (&'a K, &'a V)>,
    U::IntoIter: Drop,
    T: Fn(&K) -> Option<String>,
    W: Fn(&V) -> Option<Value>,
    requires pairs { IsFiniteIterable U.into_iter_gives U.IntoIter.can_next
        U.IntoIter.remaining pairs }
    requires key { T.IsAlwaysCallable key }
    requires value { W.IsAlwaysCallable value }
    ensures ok { IfOk result (λ v. AllCome U.into_iter_gives U.IntoIter.next_gives pairs
        (λ items. IsObject (FnReturnsAt T.Fn key) (FnReturnsAt W.Fn value)
        (map deref_pair items) v)) }
    ensures err { IfErr result (λ e. (e ≡ Refused.Memory)
        ⊎ ((e ≡ Refused.KeyClash)
        × AllCome U.into_iter_gives U.IntoIter.next_gives pairs
        (λ items. HasClash (FnReturnsAt T.Fn key) (FnReturnsAt W.Fn value)
        (map deref_pair items)))
        ⊎ ((e ≡ Refused.Item)
        × ComesNext U.into_iter_gives U.IntoIter.next_gives pairs
        (λ items item. HasNoMember (FnReturnsAt T.Fn key) (FnReturnsAt W.Fn value)
        (deref_pair item)))) }
{
    let mut members: Map<String, Value> = Map::new(alloc);
    let mut clash = false;
    for (k, v) in pairs {
        let Some(name) = key(k) else {
            return Err(Refused::Item);
        };
        let Some(member) = value(v) else {
            return Err(Refused::Item);
        };
        match put(&mut members, name, member) {
            Ok(new) => clash = clash || !new,
            Err(refused) => return Err(refused),
        }
    }
    if clash {
        return Err(Refused::KeyClash);
    }
    Ok(Value::Object(members))
}

/// Returns the map as a JSON object, with one member for each entry. One function returns the text
/// of a key, and the other the JSON value of a value. This replaces the implementation of
/// `Serialize` in 0.2.5.
///
/// # Errors
///
/// Fails with `Refused::Item` if a function returns `None`, and otherwise with `Refused::KeyClash`
/// if two texts are equal. Fails with `Refused::Memory` if memory runs out.
pub fn map_to_value<K: Hash + Eq, V, S: BuildHasher, T, W>(
    alloc: Global,
    map: &HashMap<K, V, S>,
    key: T,
    value: W,
) -> Result<Value, Refused>
where
    T: Fn(&K) -> Option<String>,
    W: Fn(&V) -> Option<Value>,
    requires key { T.IsAlwaysCallable key }
    requires value { W.IsAlwaysCallable value }
    ensures ok { IfOk result (IsObject (FnReturnsAt T.Fn key) (FnReturnsAt W.Fn value)
        (pairs_of K.eq map.now.store)) }
    ensures err { IfErr result (IsWriteRefusal (FnReturnsAt T.Fn key) (FnReturnsAt W.Fn value)
        (pairs_of K.eq map.now.store)) }
{
    object_from(alloc, map, key, value)
}

/// Appends an item.
pub(crate) fn push(items: &mut Vec<Value>, item: Value) -> Result<(), Refused>
    ensures ok { OnOk result (items.new.items ≡ items.old.items ++ item ∷ []) }
    ensures err { IfErr result (λ e. e ≡ Refused.Memory) }
{
    match items.push(item) {
        Ok(()) => Ok(()),
        Err(failed) => {
            drop(failed);
            Err(Refused::Memory)
        }
    }
}

/// Returns the array of these keys: for each an item, which the function returns.
///
/// Fails with `Refused::Item` at the first key for which it returns `None`, and with
/// `Refused::Memory` if memory runs out.
pub(crate) fn array_from<'a, K, U, T>(alloc: Global, keys: U, key: T) -> Result<Value, Refused>
where
    K: 'a,
    U: IntoIterator<Item = &'a K>,
    U::IntoIter: Drop,
    T: Fn(&K) -> Option<Value>,
    requires keys { IsFiniteIterable U.into_iter_gives U.IntoIter.can_next
        U.IntoIter.remaining keys }
    requires key { T.IsAlwaysCallable key }
    ensures ok { IfOk result (λ v. AllCome U.into_iter_gives U.IntoIter.next_gives keys
        (λ items. IsArray (FnReturnsAt T.Fn key) (map (λ k. k.now) items) v)) }
    ensures err { IfErr result (λ e. (e ≡ Refused.Memory)
        ⊎ ((e ≡ Refused.Item)
        × ComesNext U.into_iter_gives U.IntoIter.next_gives keys
        (λ items item. HasNoItem (FnReturnsAt T.Fn key) item.now))) }
{
    let mut items: Vec<Value> = Vec::new(alloc);
    for k in keys {
        let Some(item) = key(k) else {
            return Err(Refused::Item);
        };
        match push(&mut items, item) {
            Ok(()) => {}
            Err(refused) => return Err(refused),
        }
    }
    Ok(Value::Array(items))
}

/// Returns the set as a JSON array, with one item for each key, in the order of an iteration. The
/// function returns the item of a key. This replaces the implementation of `Serialize` in 0.2.5.
///
/// # Errors
///
/// Fails with `Refused::Item` at the first key for which it returns `None`, and with
/// `Refused::Memory` if memory runs out.
pub fn set_to_value<K: Hash + Eq, S: BuildHasher, T: Fn(&K) -> Option<Value>>(
    alloc: Global,
    set: &HashSet<K, S>,
    key: T,
) -> Result<Value, Refused>
    requires { T.IsAlwaysCallable key }
    ensures ok { IfOk result (IsArray (FnReturnsAt T.Fn key) (keys_of K.eq set.now.store)) }
    ensures err { IfErr result (IsListRefusal (FnReturnsAt T.Fn key)
        (keys_of K.eq set.now.store)) }
{
    array_from(alloc, set, key)
}
