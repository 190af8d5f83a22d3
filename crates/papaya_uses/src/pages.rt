//! A cache of pages for a server that runs for months. Threads share it, and it stores at most as
//! many pages as its limit, including those that were replaced or dropped.

use papaya::reclaiming::Handle;
use papaya::{HashMap, Reclaiming, ReclaimingMap, Refused};
use std::alloc::Global;
use std::hash::{BuildHasherDefault, FoldHasher};
use std::sync::Wait;

/// The text of a page, and when it was put in, in seconds since the server was started.
#[derive(Clone, Drop)]
pub struct Page {
    pub text: String,
    pub since: u64,
}

/// The pages by their numbers, as a guard lends them.
pub type Table = HashMap<u64, Page, BuildHasherDefault<FoldHasher>>;

/// A thread's handle to the cache. Each thread makes one, `pages.handle()`.
pub type Reader<'a> = Handle<'a, Table>;

/// The age in seconds at which a page is dropped when the cache is full.
pub const KEPT: u64 = 600;

/// Returns an empty cache that stores this many pages at a time.
///
/// # Errors
///
/// Fails with `Refused::Memory` if an allocation fails.
pub fn pages<R: Wait>(
    rt: &R,
    alloc: Global,
    limit: u64,
) -> Result<ReclaimingMap<u64, Page>, Refused> {
    let map: Table = HashMap::builder().pair_limit(limit).build(rt, alloc)?;
    Reclaiming::new(alloc, map)
}

/// Returns a copy of a page's text, if the cache has the page.
///
/// # Errors
///
/// Fails with `Refused::Memory` if there is no memory for the copy.
pub fn text_of<R: Wait>(
    rt: &R,
    reader: &mut Reader<'_>,
    page: u64,
) -> Result<Option<String>, Refused> {
    match reader.enter(rt).pin().get(&page) {
        Some(page) => Ok(Some(page.text.clone()?)),
        None => Ok(None),
    }
}

/// Puts a page in. If the cache is full, it drops old pages first, and all if that is not enough.
///
/// # Errors
///
/// Fails with `Refused::Memory` or `Refused::Capacity` if the page cannot be stored. Fails with
/// `Refused::Limit` if other threads fill the cache again before the page is stored, or if its
/// limit is 0.
pub fn put<R: Wait>(
    rt: &R,
    reader: &mut Reader<'_>,
    number: u64,
    page: &Page,
) -> Result<(), Refused> {
    match try_put(rt, reader, number, page) {
        Err(Refused::Limit) => {
            make_room(rt, reader, page.since)?;
            try_put(rt, reader, number, page)
        }
        done => done,
    }
}

/// Puts a page in, if the cache is not full.
fn try_put<R: Wait>(
    rt: &R,
    reader: &mut Reader<'_>,
    number: u64,
    page: &Page,
) -> Result<(), Refused> {
    let page = page.clone()?;
    reader.enter(rt).pin().insert(rt, number, page)?;
    Ok(())
}

/// Drops the pages that were put in long before now, or all if these are less than half.
fn drop_old<R: Wait>(rt: &R, cache: &Table, now: u64) -> Result<(), Refused> {
    let before = cache.len();
    cache
        .pin()
        .retain(rt, |_, page| now.saturating_sub(page.since) < KEPT)?;
    if cache.len() > before / 2 {
        cache.pin().clear(rt)?;
    }
    Ok(())
}

/// Drops pages, and frees their memory.
fn make_room<R: Wait>(rt: &R, reader: &mut Reader<'_>, now: u64) -> Result<(), Refused> {
    drop_old(rt, &reader.enter(rt), now)?;
    reader.reclaim(rt)
}
