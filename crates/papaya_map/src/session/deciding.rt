//! The call by which other calls of a session store what a rule returns.
ghost use Rattle.std.specs.Prelude.{◌≡◌, Err, Some};
ghost use mathlib.Core.List.{IsPrefix};
ghost use Rattle.papaya_map_book.specs.Limits.{HasNoRoom};
ghost use Rattle.papaya_map_compute.specs.Deciding.{IsDecided, puts};
ghost use Rattle.papaya_map_lookup.specs.History.{Makes};

use crate::session::Session;
use papaya_map_compute::deciding::{Decided, Rule, decide};
use papaya_words::refused::Refused;
use std::hash::{BuildHasher, Hash};
use std::sync::Wait;

impl<'a, K: Hash + Eq + Drop, V: Drop, S: BuildHasher> Session<'a, K, V, S> {
    /// Stores for the key what the rule returns. Fails as [`Session::insert`] does.
    #[inline(always)]
    pub(crate) fn decide<R: Wait, D: Rule<V>>(
        &mut self,
        rt: &R,
        key: K,
        rule: &mut D,
    ) -> Result<Decided<'a, V>, Refused>
        requires callable { D.callable rule.old }
        ensures map { self.new.map ≡ self.old.map }
        ensures seen { IsPrefix self.old.history self.new.history }
        ensures tables { IsPrefix self.old.tables self.new.tables }
        ensures made { Makes (puts result) self.old.made self.new.made self.new.history }
        ensures decided { IsDecided K.eq key self.old.history self.new.history D.decides rule.old
            rule.new result }
        ensures crowded { result ≡ Err Refused.Capacity → HasNoRoom self.old.map.initial
            self.new.tables self.new.given }
        ensures spent { result ≡ Err Refused.Limit → self.old.map.begun.limit
            ≡ Some self.new.taken }
    {
        let Session { map: pinned, pass } = self;
        let map = pinned.map;
        let shard = map.count.shard(pass.number);
        let mut window = pinned.window(pass);
        let decided = decide(
            rt,
            map.alloc,
            map.initial,
            &shard,
            &mut window,
            &mut pass.given,
            key,
            rule,
        );
        pass.keep(window);
        decided
    }
}
