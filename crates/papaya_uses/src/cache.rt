//! A cache with a limit, for one owner: the texts of pages, by their numbers. It has two
//! generations, and a page that is put in goes to the young one. When that is full, `reclaim` frees
//! the pages that were replaced in it, if they are half of it. Otherwise it becomes the elder one,
//! whose pages are dropped.
ghost use Rattle.std.specs.Prelude.{◌≡◌, ◌≢◌, ◌⊎◌, ◌+◌, ◌<◌, ◌≤◌, None, Some};
ghost use Rattle.std.specs.Prelude.{IfOk, IsErr, OnOk, length, option_map, string_bytes};
ghost use Rattle.papaya_uses.specs.Cache.{StaysOrGoes, stored_in, text_of};

use papaya::Refused;
use papaya::seq::HashMap;
use std::alloc::Global;
use std::marker::Model;
use std::mem;

/// The texts of pages, by their numbers.
#[derive(Drop)]
pub struct Cache {
    alloc: Global,
    young: HashMap<u64, String>,
    elder: HashMap<u64, String>,
    // at most this many pages are stored in each, including those that were replaced
    limit: usize,
}

impl Model for Cache {
    ghost use Rattle.std.specs.Prelude.{◌<◌, ◌≤◌, length};
    ghost use Rattle.papaya_uses.specs.Cache.{Generations};

    ghost Value = { Generations };

    ghost view = { λ c. record {
      young = c.young;
      elder = c.elder;
      limit = c.limit;
    } };

    ghost invariant = { λ c. (0 < c.limit) × (length c.young.store.pairs ≤ c.limit)
        × (length c.elder.store.pairs ≤ c.limit) };
}

impl Cache {
    /// Returns a cache in which each of the two generations stores at most `limit` pages.
    ///
    /// # Errors
    ///
    /// Fails with `Refused::Memory` if an allocation fails.
    pub fn new(alloc: Global, limit: usize) -> Result<Cache, Refused>
        requires { 0 < limit }
        ensures empty { IfOk result (λ cache. (page : _) → text_of cache page ≡ None) }
        ensures few { IfOk result (λ cache. (cache.limit ≡ limit) × (stored_in cache ≡ 0)) }
    {
        Ok(Cache {
            alloc,
            young: HashMap::new(alloc)?,
            elder: HashMap::new(alloc)?,
            limit,
        })
    }

    /// Returns the text of a page: the one that was put in last, unless it was dropped since.
    pub fn get(&self, page: u64) -> Option<&str>
        ensures { option_map (λ text. text.now) result ≡ text_of self.now page }
    {
        match self.young.get(&page) {
            Some(text) => Some(text.as_str()),
            None => match self.elder.get(&page) {
                Some(text) => Some(text.as_str()),
                None => None,
            },
        }
    }

    /// Puts the text of a page in. Each other page stays, except those of the elder generation
    /// alone if the young one is full. The cache stores at most twice the limit of pages, including
    /// those that were replaced.
    ///
    /// # Errors
    ///
    /// Fails with `Refused::Memory` or `Refused::Capacity` if the page cannot be stored, or the
    /// young generation cannot make room for it. The page then has the text that it had, or was
    /// dropped with its generation.
    pub fn put(&mut self, page: u64, text: String) -> Result<(), Refused>
        ensures there { OnOk result (text_of self.new page ≡ Some (string_bytes text)) }
        ensures others { (other : _) → (other ≢ page) ⊎ IsErr result
            → StaysOrGoes self.old self.new other }
        ensures few { (self.new.limit ≡ self.old.limit)
            × (stored_in self.new ≤ self.new.limit + self.new.limit) }
    {
        if self.young.stored() == self.limit {
            self.make_room()?;
        }
        self.young.put(page, text)?;
        Ok(())
    }

    /// Makes room in the young generation, which is full.
    fn make_room(&mut self) -> Result<(), Refused>
        requires { length self.old.young.store.pairs ≡ self.old.limit }
        ensures room { OnOk result (length self.new.young.store.pairs < self.new.limit) }
        ensures pages { (page : _) → StaysOrGoes self.old self.new page }
        ensures few { (self.new.limit ≡ self.old.limit)
            × (stored_in self.new ≤ self.new.limit + self.new.limit) }
    {
        let pages = self.young.len();
        if pages <= self.limit / 2 {
            self.young.reclaim()?;
            return Ok(());
        }
        let young = HashMap::new(self.alloc)?;
        self.elder = mem::replace(&mut self.young, young);
        Ok(())
    }
}
