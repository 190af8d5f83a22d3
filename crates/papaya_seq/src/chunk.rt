//! The copy of a chunk's slots by a loop. The machine exists in the proof alone; it takes over at a
//! slot that needs more than most.
ghost use Rattle.std.specs.Prelude.{◌≡◌, ℕ};
ghost use Rattle.papaya_call.specs.Search.{IsWithin};
ghost use Rattle.papaya_call.specs.declared.ask.At.TheVariants as words;
ghost use Rattle.papaya_call.specs.ChainMachine.{IsValid};
ghost use Rattle.papaya_call.specs.Resizer.{IsValidResizer};
ghost use Rattle.papaya_call.specs.Step.{IsValidChunk, IsValidCursor};
ghost use Rattle.papaya_call.specs.declared.copy.carry.Carry.TheVariants as carries;
ghost use Rattle.papaya_call.specs.declared.copy.settle.Settle.TheVariants as settles;
ghost use Rattle.papaya_call.specs.declared.copy.settle.Settled.TheVariants.{On};
ghost use Rattle.papaya_call.specs.declared.copy.settle.SlotToCopy as slots;
ghost use Rattle.papaya_call.specs.declared.copy.step.Step.TheVariants as steps;
ghost use Rattle.papaya_words_keys.specs.Hashes.{hash_of};
ghost use Rattle.papaya_core_store.specs.Tables.{word_at};
ghost use Rattle.papaya_words.specs.declared.resize_mode.ResizeMode as modes;
ghost use Rattle.papaya_seq.specs.Copies.{CopiesCall, CopiesResizer, IsSized, Settles, Steps, settled_as};
ghost use Rattle.papaya_seq.specs.Searches.{IsThere};

use crate::search::pass_by;
use papaya_call::ask::{Answer, At};
use papaya_call::chain::machine::{Machine, Phase};
use papaya_call::chain::resizer::{Resizer, ResizerState};
use papaya_call::copy::carry::Carry;
use papaya_call::copy::copying::Copying;
use papaya_call::copy::settle::{Settle, SlotToCopy};
use papaya_call::copy::step::{Chunk, Cursor, Step};
use papaya_call::search::{Place, ProbeStep, Search};
use papaya_core_store::store::Store;
use papaya_words::resize_mode::ResizeMode;
use papaya_words::word::{Kind, SHUT, Word, hint};
use std::hash::{BuildHasher, Hash};

/// Looks for an empty place for a pair whose key has this hash, from `place` on.
#[inline(always)]
fn find_place<K: Hash + Eq, V, S: BuildHasher>(
    store: &Store<K, V, S>,
    hash: u64,
    place: Place,
) -> Carry
    requires within { IsWithin place }
    requires there { IsThere store.now place.table place.len }
    ensures finds { (mode : modes.ResizeMode) (slot : slots.SlotToCopy) (marked : ℕ) → Settles K.eq
        (hash_of K.hash_input S.build_hasher S.Hasher.write S.Hasher.finish) mode slot store.now
        (On (settles.Carrying marked (carries.Looking hash place))) store.now
        (On (settles.Carrying marked result)) }
    ensures empty { (hashed : ℕ) (at : _) → result ≡ carries.Placing hashed at
        → word_at store.now.words (words.Slot at.table at.probe.i) ≡ 0 }
{
    match pass_by(store, hash, place) {
        ProbeStep::On(Search::Reading(place)) => {
            if store.word(At::Slot(place.table, place.probe.i)) == 0 {
                return Carry::Placing { hash, place };
            }
            Carry::Reading { hash, place }
        }
        _ => Carry::Looking { hash, place },
    }
}

/// Looks for an empty place for the pair of a marked word, in the first table that may take it.
#[inline(always)]
fn carry<K: Hash + Eq, V, S: BuildHasher>(store: &Store<K, V, S>, table: u64, marked: u64) -> Carry
    requires { IsSized store.now }
    ensures carries { (mode : modes.ResizeMode) (slot : slots.SlotToCopy) → Settles K.eq
        (hash_of K.hash_input S.build_hasher S.Hasher.write S.Hasher.finish) mode slot store.now
        (On (settles.Carrying marked (carries.Hashing table))) store.now
        (On (settles.Carrying marked result)) }
    ensures empty { (hashed : ℕ) (at : _) → result ≡ carries.Placing hashed at
        → word_at store.now.words (words.Slot at.table at.probe.i) ≡ 0 }
{
    let Some((key, _)) = store.pair(Word(marked).pair()) else {
        return Carry::Hashing(table);
    };
    let hash = store.hash(key);
    match store.size_of(table) {
        Answer::Size { len, limit } => {
            let first = Place::first(hash, table, len, limit);
            find_place(store, hash, first)
        }
        _ => Carry::Sizing { hash, table },
    }
}

/// Moves the pair of a live word to the next table. Returns the state of the slot's copy if the
/// pair has no place there.
#[inline(always)]
fn move_pair<K: Hash + Eq, V, S: BuildHasher>(
    store: &mut Store<K, V, S>,
    mode: ResizeMode,
    slot: SlotToCopy,
    word: u64,
) -> Option<Settle>
    requires sized { IsSized store.old }
    requires stands { word_at store.old.words (words.Slot slot.from slot.index) ≡ word }
    ensures settles { Settles K.eq
        (hash_of K.hash_input S.build_hasher S.Hasher.write S.Hasher.finish) mode slot store.old
        (On (settles.Marking word)) store.new (settled_as result) }
    ensures sized { IsSized store.new }
{
    let at = At::Slot(slot.from, slot.index);
    let marked = Word::marked(Word(word).pair()).0;
    let _ = store.exchange(at, word, marked);
    let carry = carry(store, slot.to, marked);
    let Carry::Placing { hash, place } = carry else {
        return Some(Settle::Carrying(marked, carry));
    };
    let pair = Word(marked).pair();
    let _ = store.exchange(At::Slot(place.table, place.probe.i), 0, Word::live(pair).0);
    store.write_hint(place.table, place.probe.i, hint(hash));
    if let ResizeMode::Incremental(_) = mode {
        let _ = store.exchange(at, marked, Word::copied(pair).0);
    }
    None
}

/// Copies one slot. Returns the state of its copy if the slot is not settled.
#[inline(always)]
fn copy_slot<K: Hash + Eq, V, S: BuildHasher>(
    store: &mut Store<K, V, S>,
    mode: ResizeMode,
    slot: SlotToCopy,
) -> Option<Settle>
    requires { IsSized store.old }
    ensures settles { Settles K.eq
        (hash_of K.hash_input S.build_hasher S.Hasher.write S.Hasher.finish) mode slot store.old
        (On settles.Looking) store.new (settled_as result) }
    ensures sized { IsSized store.new }
{
    let at = At::Slot(slot.from, slot.index);
    let word = store.word(at);
    if word == 0 {
        let _ = store.exchange(at, 0, Word::CLOSED.0);
        store.write_hint(slot.from, slot.index, SHUT);
        return None;
    }
    match Word(word).kind() {
        Kind::Live => move_pair(store, mode, slot, word),
        Kind::Copied | Kind::Buried | Kind::Closed => None,
        Kind::Empty | Kind::Marked => Some(Settle::Looking),
    }
}

/// Writes that a chunk is copied, and passes the copied ones after it. Returns the copy's state.
#[inline]
fn advance<K: Hash + Eq, V, S: BuildHasher>(store: &mut Store<K, V, S>, mut cursor: Cursor) -> Step
    requires { IsValidCursor cursor }
    ensures { (mode : modes.ResizeMode) → Steps K.eq
        (hash_of K.hash_input S.build_hasher S.Hasher.write S.Hasher.finish) mode store.old
        (steps.Advancing cursor) store.new result }
{
    let _ = store.exchange(At::Done(cursor.to, cursor.at), 0, 1);
    cursor.copied = true;
    loop {
        let step = cursor.next();
        let Step::AtChunk(at) = step else {
            return step;
        };
        if store.word(At::Done(at.to, at.at)) == 0 {
            return step;
        }
        cursor = at;
    }
}

/// Copies the slots of a chunk one after another, until the last or one that needs the machine.
/// After the last it passes the chunks that are already copied.
fn copy_slots<K: Hash + Eq, V, S: BuildHasher>(
    store: &mut Store<K, V, S>,
    mode: ResizeMode,
    chunk: Chunk,
) -> Step
    requires sized { IsSized store.old }
    requires valid { IsValidChunk chunk }
    ensures { Steps K.eq (hash_of K.hash_input S.build_hasher S.Hasher.write S.Hasher.finish) mode
        store.old (steps.Settling chunk settles.Looking) store.new result }
{
    let mut chunk = chunk;
    loop {
        if let Some(settle) = copy_slot(store, mode, chunk.slot()) {
            return Step::Settling(chunk, settle);
        }
        chunk.at += 1;
        if chunk.at >= chunk.end {
            return advance(store, chunk.cursor);
        }
    }
}

/// Copies the slots that a call is about to copy.
#[inline(always)]
pub(crate) fn copy_for_call<K: Hash + Eq, V, S: BuildHasher>(
    store: &mut Store<K, V, S>,
    machine: &mut Machine,
)
    requires sized { IsSized store.old }
    requires valid { IsValid machine.old }
    ensures { CopiesCall K.eq (hash_of K.hash_input S.build_hasher S.Hasher.write S.Hasher.finish)
        store.old machine.old store.new machine.new }
{
    if let Phase::Copying(
        Copying::Stepping(aim, Step::Settling(chunk, Settle::Looking)),
    ) = machine.phase
    {
        let step = copy_slots(store, machine.call.mode, chunk);
        machine.phase = Phase::Copying(Copying::Stepping(aim, step));
    }
}

/// Copies the slots that a call that resizes the map is about to copy.
#[inline(always)]
pub(crate) fn copy_for_resizer<K: Hash + Eq, V, S: BuildHasher>(
    store: &mut Store<K, V, S>,
    resizer: &mut Resizer,
)
    requires sized { IsSized store.old }
    requires valid { IsValidResizer resizer.old }
    ensures { CopiesResizer K.eq
        (hash_of K.hash_input S.build_hasher S.Hasher.write S.Hasher.finish) store.old resizer.old
        store.new resizer.new }
{
    let ResizerState::Copying { from, copying } = resizer.state else {
        return;
    };
    if let Copying::Stepping(aim, Step::Settling(chunk, Settle::Looking)) = copying {
        let step = copy_slots(store, resizer.mode, chunk);
        resizer.state = ResizerState::Copying {
            from,
            copying: Copying::Stepping(aim, step),
        };
    }
}
