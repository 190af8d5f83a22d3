//! `Debug` of a map prints `{key: value, ..}`, as in 0.2.5. A pinned map and a session print their
//! map.
use crate::map::{HashMap, HashMapRef};
use crate::pass::Pass;
use crate::session::Session;
use papaya_map_book::window::Window;
use papaya_map_scan::printing::{print, print_keys};
use std::fmt;
use std::hash::{BuildHasher, Hash};

impl<K: Hash + Eq + fmt::Debug, V: fmt::Debug, S: BuildHasher> fmt::Debug for HashMap<K, V, S> {
    /// Prints the entries. It never waits, locks or allocates, and copies no table.
    fn fmt<W: fmt::Write>(&self, f: &mut fmt::Formatter<W>) -> fmt::Result {
        let kept = self.book.keep_root();
        let mut window = Window::new(&self.book, &kept, &self.book.unseen());
        print(&mut window, f)
    }
}

impl<K: Hash + Eq + fmt::Debug, V, S: BuildHasher> HashMap<K, V, S> {
    /// For this library's own calls. Prints the keys alone, as `{key, ..}`: `Debug` of a set. It never
    /// waits, locks or allocates, and copies no table.
    pub fn print_keys<W: fmt::Write>(&self, f: &mut fmt::Formatter<W>) -> fmt::Result {
        let kept = self.book.keep_root();
        let mut window = Window::new(&self.book, &kept, &self.book.unseen());
        print_keys(&mut window, f)
    }
}

impl<'a, K: Hash + Eq + fmt::Debug, V: fmt::Debug, S: BuildHasher> fmt::Debug
    for HashMapRef<'a, K, V, S> {
    fn fmt<W: fmt::Write>(&self, f: &mut fmt::Formatter<W>) -> fmt::Result {
        fmt::Debug::fmt(self.map(), f)
    }
}

impl<'a, K: Hash + Eq + fmt::Debug, V: fmt::Debug, S: BuildHasher> fmt::Debug
    for Session<'a, K, V, S> {
    fn fmt<W: fmt::Write>(&self, f: &mut fmt::Formatter<W>) -> fmt::Result {
        fmt::Debug::fmt(self.map(), f)
    }
}

impl<K: Hash + Eq, V, S: BuildHasher> fmt::Debug for Pass<K, V, S> {
    /// The pass's number, which is all that it holds at run time.
    fn fmt<W: fmt::Write>(&self, f: &mut fmt::Formatter<W>) -> fmt::Result {
        f.debug_struct("Pass")
            .field("number", &self.number)
            .finish()
    }
}
