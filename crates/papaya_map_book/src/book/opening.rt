//! Opening the book of a map.
ghost use Rattle.std.specs.Prelude.{◌≡◌, IfOk, None, [], ◌∷◌};
ghost use Rattle.papaya_words.specs.Mode.{IsChunked};
ghost use Rattle.papaya_map_book.specs.Parts.{begun_of};
ghost use Rattle.papaya_map_book.specs.declared.rule.entry.Event.TheVariants.{Begin};

use crate::book::Book;
use crate::book::parts::Parts;
use crate::rule::offer::Seen;
use papaya_map_arena::arena::Arena;
use papaya_words::resize_mode::ResizeMode;
use std::alloc::{AllocError, Global};
use std::hash::{BuildHasher, Hash};
use std::sync::Wait;

impl<K: Hash + Eq + Drop, V: Drop, S: BuildHasher + Drop> Parts<K, V, S> {
    /// Returns the hasher with two empty arenas. The arena of pairs will begin with room for
    /// `capacity`, and may hold no more pairs than `limit`.
    pub fn new(
        alloc: Global,
        mode: ResizeMode,
        limit: Option<u64>,
        capacity: usize,
        hasher: S,
    ) -> Result<Parts<K, V, S>, AllocError>
        ensures { IfOk result (λ p. (p.hasher ≡ hasher) × (p.mode ≡ mode) × (p.limit ≡ limit)) }
    {
        let pairs = Arena::new(alloc, capacity)?;
        let tables = boxcar::Vec::new(alloc)?;
        Ok(Parts {
            hasher,
            mode,
            limit,
            pairs,
            tables,
        })
    }
}

impl<K: Hash + Eq, V, S: BuildHasher> Book<K, V, S> {
    /// Returns the book of a new map.
    pub fn opened<R: Wait>(rt: &R, parts: Parts<K, V, S>) -> Book<K, V, S>
        requires { IsChunked parts.mode }
        ensures { (result.parts ≡ parts) × (result.gate.era ≡ None) }
    {
        let mut parts = parts;
        for _ in rt.forever() {
            match Book::begin(parts) {
                Ok(book) => return book,
                Err(back) => parts = back,
            }
        }
        unreachable!()
    }

    /// Returns the history of a caller that has observed only the opening of the book: no exchange.
    pub fn unseen(&self) -> Seen<K, V, S>
        ensures book { result.book ≡ self.now.begun.book }
        ensures log { result.log ≡ Begin (begun_of self.now.parts) ∷ [] }
    {
        self.origin.again()
    }

    /// Returns a new history: a prefix of every other caller's.
    pub fn pass(&self) -> Seen<K, V, S>
        ensures { result ≡ self.now.begun }
    {
        self.begun.again()
    }
}
