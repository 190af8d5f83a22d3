//! Lookups by a session.
ghost use Rattle.std.specs.Prelude.{◌≡◌, Option, is_some};
ghost use Rattle.std.specs.Borrow.{Bor};
ghost use mathlib.Core.List.{IsPrefix};
ghost use Rattle.papaya_map_lookup.specs.Answers.{IsAnsweredBetween, IsPairAnsweredBetween};

use crate::session::Session;
use papaya_map_lookup::lookup::look_up_pair;
use papaya_words_keys::guard::Equivalent;
use std::hash::{BuildHasher, Hash};

impl<'a, K: Hash + Eq, V, S: BuildHasher> Session<'a, K, V, S> {
    /// Returns the key's value, or `None` if the map has no entry of the key: `get` of 0.2.5. It
    /// only loads words: it waits for no thread, takes no lock and allocates nothing.
    #[inline(always)]
    pub fn get<Q: Equivalent<K>>(&mut self, key: &Q) -> Option<&'a V>
        ensures map { self.new.map ≡ self.old.map }
        ensures seen { IsPrefix self.old.history self.new.history }
        ensures tables { IsPrefix self.old.tables self.new.tables }
        ensures made { self.new.made ≡ self.old.made }
        ensures answered { IsAnsweredBetween K.eq (Q.matches key.now) self.old.history
            self.new.history result }
    {
        self.map.get_as(key, &mut self.pass)
    }

    /// Returns the stored key and its value, or `None` if the map has no entry of the key:
    /// `get_key_value` of 0.2.5. As [`Session::get`], it never waits, locks or allocates.
    #[inline]
    pub fn get_key_value<Q: Equivalent<K>>(&mut self, key: &Q) -> Option<(&'a K, &'a V)>
        ensures map { self.new.map ≡ self.old.map }
        ensures seen { IsPrefix self.old.history self.new.history }
        ensures tables { IsPrefix self.old.tables self.new.tables }
        ensures made { self.new.made ≡ self.old.made }
        ensures answered { IsPairAnsweredBetween K.eq (Q.matches key.now) self.old.history
            self.new.history result }
    {
        let Session { map, pass } = self;
        let mut window = map.window(pass);
        let found = look_up_pair(&mut window, key);
        pass.keep(window);
        found
    }

    /// Returns whether the map has an entry of the key: `contains_key` of 0.2.5. It never waits,
    /// locks or allocates.
    #[inline(always)]
    pub fn contains_key<Q: Equivalent<K>>(&mut self, key: &Q) -> bool
        ensures map { self.new.map ≡ self.old.map }
        ensures seen { IsPrefix self.old.history self.new.history }
        ensures tables { IsPrefix self.old.tables self.new.tables }
        ensures made { self.new.made ≡ self.old.made }
        ensures answered { (found : Option (Bor V)) × (result ≡ is_some found)
            × IsAnsweredBetween K.eq (Q.matches key.now) self.old.history self.new.history found }
    {
        self.get(key).is_some()
    }
}
