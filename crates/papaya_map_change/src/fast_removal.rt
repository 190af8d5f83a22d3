//! Removals whose pair a lookup's search finds live: it is removed at once. Only the proof has the
//! machine.
ghost use Rattle.papaya_map_change.specs.Window.Ends.{Ends};
ghost use Rattle.std.specs.Int.{IsPowerOfTwo};
ghost use Rattle.papaya_call.specs.Made.{IsLimit};
ghost use Rattle.papaya_map_book.specs.Windows.{IsOpen};
ghost use Rattle.papaya_map_lookup.specs.Drivers.{past};
ghost use Rattle.papaya_map_change.specs.RemovalAnswers.{IsTriedRemoval, has_removed_fast};
ghost use Rattle.papaya_map_change.specs.ClosureCalls.{Judges};

use crate::driver::Means;
use crate::fast_path::bury_met;
use crate::resizing::copy_chunk;
use papaya_map_book::book::Book;
use papaya_map_book::window::Window;
use papaya_map_lookup::lookup::{Hit, LookupEnd, find};
use papaya_words::word::{Kind, Word};
use papaya_words_keys::guard::Equivalent;
use std::hash::{BuildHasher, Hash};
use std::sync::Wait;

/// States that a limit on pairs is a number of 64 bits, which no clause of the book does. No code
/// is left of this.
#[inline(always)]
fn fits(limit: Option<u64>)
    ensures { IsLimit limit }
{}

/// Copies a chunk for a removal that went on to a later table, as every call does that goes on.
#[inline(always)]
fn help<R: Wait, K: Hash + Eq, V, S: BuildHasher>(
    means: &Means<'_, '_, R>,
    book: &Book<K, V, S>,
    later: bool,
)
    requires initial { IsPowerOfTwo means.now.initial }
{
    if later {
        copy_chunk(means, book);
    }
}

/// Finds a key's pair by a lookup's search, calls the closure with it if it is live, and removes it
/// if the closure returns true. Returns `None` if the pair is being moved or another word is in its
/// place; the closure may have been called all the same.
///
/// If the search went on past the root, it copies a chunk of the root afterwards, whether it found
/// a pair or not. Otherwise maps whose keys are removed would stay in their resize, and search two
/// tables each time.
#[inline(always)]
pub fn remove_fast<
    'a,
    R: Wait,
    K: Hash + Eq,
    V,
    S: BuildHasher,
    Q: Equivalent<K>,
    F: FnMut(&K, &V) -> bool,
>(
    means: &Means<'_, '_, R>,
    window: &mut Window<'a, K, V, S>,
    key: &Q,
    agrees: &mut F,
) -> Option<Result<Option<(&'a K, &'a V)>, (&'a K, &'a V)>>
    requires callable { F.IsAlwaysCallable agrees.old }
    requires initial { IsPowerOfTwo means.now.initial }
    requires open { IsOpen window.old }
    ensures callable { F.IsAlwaysCallable agrees.new }
    ensures ends { Ends (has_removed_fast result) window.old window.new }
    ensures removed { IsTriedRemoval K.eq (Q.matches key.now) (past window.old) (past window.new)
        (Judges F.FnMut) agrees.old agrees.new result }
{
    let LookupEnd { hit, later } = find(window, key);
    let Some(hit) = hit else {
        help(means, window.book, later);
        return Some(Ok(None));
    };
    if Word(hit.met.word).kind() != Kind::Live {
        return None;
    }
    fits(window.book.parts.limit);
    let Hit {
        table,
        met,
        key: stored_key,
        value,
    } = hit;
    if !agrees(stored_key, value) {
        help(means, window.book, later);
        return Some(Err((stored_key, value)));
    }
    if !bury_met(means.shard, window, table, &met) {
        return None;
    }
    help(means, window.book, later);
    Some(Ok(Some((stored_key, value))))
}
