//! The write of a pair at one place, and insertions that end with the root's search, as most do:
//! their pair is written at once. The machine exists in the proof alone.
ghost use Rattle.std.specs.Prelude.{◌≡◌, ◌≢◌, ℕ, IfOk, IfErr, IsSome, length, Some};
ghost use Rattle.papaya_words.specs.Word.{pair_of as number_of};
ghost use Rattle.papaya_call.specs.Search.{IsSize};
ghost use Rattle.papaya_words_keys.specs.Hashes.{hash_of};
ghost use Rattle.papaya_call_law.specs.Alone.{IsBare};
ghost use Rattle.papaya_core_store.specs.Store.{pair_of};
ghost use Rattle.papaya_core_store.specs.Tables.{table_of, word_at};
ghost use Rattle.papaya_seq.specs.Drives.{IsInsertedFast, IsLedTo, led_state};
ghost use Rattle.papaya_seq.specs.Writes.{IsKeyFor, IsWritten, slot_of};

use crate::search::{ProbeHit, search_root};
use papaya_call::ask::At;
use papaya_call::call::Reply;
use papaya_call::write::Write;
use papaya_core_store::pairs::Part;
use papaya_core_store::store::Store;
use papaya_words::word::{Kind, Word, hint};
use std::alloc::Global;
use std::hash::{BuildHasher, Hash};

/// Returns the key part of a pair for a place that holds this word: the key of the pair that the
/// word names, or else the key that was passed in.
#[inline(always)]
fn key_for<K: Hash + Eq + Drop, V, S: BuildHasher>(
    store: &Store<K, V, S>,
    key: K,
    old: u64,
) -> Part<K>
    requires { old ≢ 0 → IsSome (pair_of store.now (number_of old)) }
    ensures { IsKeyFor store.now old key result }
{
    if old == 0 {
        return Part::Own(key);
    }
    match store.key_from(Word(old).pair()) {
        Some(first) => Part::Logged(first),
        None => unreachable!(),
    }
}

/// Stores a pair, and writes it where its search ended, over the word there. Its key is that of the
/// pair that this word names, or otherwise the key that was passed in.
#[inline(always)]
pub(crate) fn write<K: Hash + Eq + Drop, V: Drop, S: BuildHasher>(
    store: &mut Store<K, V, S>,
    alloc: Global,
    key: K,
    value: V,
    hash: u64,
    write: Write,
) -> (Reply, Option<V>)
    requires stands { word_at store.old.words (slot_of write.place) ≡ write.old }
    requires pair { write.old ≢ 0 → IsSome (pair_of store.old (number_of write.old)) }
    ensures { IsWritten store.old hash write key value result.0 result.1 store.new }
{
    let old = Word(write.old).pair();
    let mut key = key_for(store, key, write.old);
    let mut value = Part::Own(value);
    let pair = match store.store_pair(&mut key, &mut value) {
        Ok(pair) => pair,
        Err(refused) => return (Reply::Refused(refused), value.own()),
    };
    let at = At::Slot(write.place.table, write.place.probe.i);
    let _ = store.exchange(at, write.old, Word::live(pair).0);
    if write.old == 0 {
        store.add_to_shard(0, 1);
        store.write_hint(write.place.table, write.place.probe.i, hint(hash));
        if write.place.is_crowded() {
            store.write_ahead(alloc);
        }
        return (Reply::Inserted(pair), None);
    }
    (Reply::Replaced { old, new: pair }, None)
}

/// Inserts a pair at once. Returns it if there is no root, if the root has no place for its key, or
/// if its key's pair is being moved. A number is returned with it: the root's if that is full, and
/// otherwise 0.
#[inline(always)]
pub(crate) fn insert_fast<K: Hash + Eq + Drop, V: Drop, S: BuildHasher>(
    store: &mut Store<K, V, S>,
    alloc: Global,
    key: K,
    value: V,
    hash: u64,
    replace: bool,
) -> Result<(Reply, Option<V>), (K, V, u64)>
    requires sized { (n : ℕ) (t : _) → table_of store.old.words.tables n ≡ Some t
        → IsSize (length t.slots) t.limit }
    requires bare { IsBare (λ at. word_at store.old.words at) }
    ensures ok { IfOk result (λ done. IsInsertedFast K.eq
        (hash_of K.hash_input S.build_hasher S.Hasher.write S.Hasher.finish) hash replace key value
        store.old done store.new) }
    ensures err { IfErr result (λ back. (back.0 ≡ key) × (back.1 ≡ value) × (store.new ≡ store.old)
        × IsLedTo (K.eq key) store.old hash replace (led_state back.2)) }
{
    match search_root(store, &key, hash) {
        Some(ProbeHit::Empty(place)) => {
            let claim = Write { place, old: 0 };
            Ok(write(store, alloc, key, value, hash, claim))
        }
        Some(ProbeHit::Here(place, word)) if Word(word).kind() == Kind::Live => {
            if !replace {
                return Ok((Reply::Occupied(Word(word).pair()), Some(value)));
            }
            Ok(write(store, alloc, key, value, hash, Write { place, old: word }))
        }
        Some(ProbeHit::Over(table)) => Err((key, value, table)),
        _ => Err((key, value, 0)),
    }
}
