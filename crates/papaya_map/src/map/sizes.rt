//! How much a map holds: the entries of its arena, and the slots of its root table.
//!
//! Each call only loads words. No contract states what it returns, since other threads change the
//! map meanwhile.
use crate::map::{HashMap, HashMapRef};
use std::hash::{BuildHasher, Hash};

impl<K: Hash + Eq, V, S: BuildHasher> HashMap<K, V, S> {
    /// Returns the number of entries that the arena holds: those in the map, those that were
    /// replaced or removed since the map was created or reclaimed, and those of calls under way. An
    /// entry whose insertion lost a race counts too. An entry of two `u64`s takes 24 bytes, and keeps
    /// 24 to 48 bytes of memory resident.
    ///
    /// After `reclaim` it is what [`HashMap::len`] returns, unless an insertion lost a race since. It
    /// counts a few insertions that were refused too, so it may be one to three above a `pair_limit`.
    pub fn stored(&self) -> usize {
        self.book.stored()
    }

    /// Returns the number of slots of the root table, or 0 if there is none yet.
    pub fn slots(&self) -> usize {
        self.pin().slots()
    }

    /// Returns whether entries are being moved to a next table.
    pub fn resizing(&self) -> bool {
        self.pin().resizing()
    }
}

impl<'a, K: Hash + Eq, V, S: BuildHasher> HashMapRef<'a, K, V, S> {
    /// Returns the number of entries in the arena, as [`HashMap::stored`] counts them.
    pub fn stored(&self) -> usize {
        self.map.stored()
    }

    /// Returns the number of slots of the current root table, or 0 if there is none yet.
    pub fn slots(&self) -> usize {
        let mut pass = self.begun(None);
        let mut window = self.window(&mut pass);
        let (_, root) = window.root();
        match root {
            Some(table) => table.len(),
            None => 0,
        }
    }

    /// Returns whether entries are being moved to a next table now.
    pub fn resizing(&self) -> bool {
        let mut pass = self.begun(None);
        let mut window = self.window(&mut pass);
        let (number, root) = window.root();
        let Some(table) = root else {
            return false;
        };
        let (next, _) = window.next(table, number);
        next != 0
    }
}
