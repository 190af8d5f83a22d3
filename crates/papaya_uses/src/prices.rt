//! Prices that threads record, and a price list that threads then only read. The list is checked
//! once, and each later lookup relies on that.
ghost use Rattle.std.specs.Prelude.{◌≡◌, IfOk, MatchOption};
ghost use mathlib.Core.List.{IsPrefix};
ghost use Rattle.papaya_uses.specs.Prices.{AreChecked, HasZeroSince, pieces_of};

use papaya::{HashMap, ReadOnly, Refused, Session};
use std::alloc::Global;
use std::hash::{BuildHasherDefault, FoldHasher};
use std::marker::Model;
use std::sync::Wait;
use std::thread::{Threads, join, map_chunks};

/// The price of each article, by the numbers of the articles.
pub type Prices = HashMap<u64, u64, BuildHasherDefault<FoldHasher>>;

/// Records the prices of some articles, by one thread.
fn record(rt: &impl Wait, prices: &Prices, some: &[(u64, u64)]) -> Result<(), Refused> {
    let mut session = Session::new(prices);
    for (article, price) in some {
        session.insert(rt, *article, *price)?;
    }
    Ok(())
}

/// Records the prices of all articles by four threads, each of which gets a part of them.
pub fn record_all(
    rt: &(impl Threads + Wait + Sync),
    alloc: Global,
    prices: &Prices,
    articles: &[(u64, u64)],
) -> Result<(), Refused> {
    // `map_chunks` requires a size above 0
    let size = articles.len().div_ceil(4).max(1);
    let recorded = map_chunks(
        rt,
        alloc,
        articles,
        size,
        &|_, part| record(rt, prices, part),
    );
    let Ok(parts) = recorded else {
        return Err(Refused::Memory);
    };
    for part in parts {
        part?;
    }
    Ok(())
}

/// A price list, which no call can change. No price is 0.
#[derive(Drop)]
pub struct PriceList {
    prices: ReadOnly<u64, u64, BuildHasherDefault<FoldHasher>>,
}

impl Model for PriceList {
    ghost use Rattle.std.specs.Prelude.{ℕ};
    ghost use Rattle.std.specs.declared.hash.FoldHasher.{FoldHasher};
    ghost use Rattle.std.specs.declared.hash.BuildHasherDefault.{BuildHasherDefault};
    ghost use Rattle.papaya.specs.Threads.{Frozen};
    ghost use Rattle.papaya_uses.specs.Prices.{HasNoZero};

    ghost Value = { Frozen ℕ ℕ (BuildHasherDefault FoldHasher) };

    ghost view = { λ list. list.prices };

    ghost invariant = { λ list. HasNoZero list.prices.history };
}

/// Returns whether each price is over 0.
fn are_over_zero<R: Wait>(
    rt: &R,
    prices: &ReadOnly<u64, u64, BuildHasherDefault<FoldHasher>>,
) -> Result<bool, Refused>
    ensures { IfOk result (AreChecked prices.now.history) }
{
    let mut entries = prices.iter(rt)?;
    while let Some((_, price)) = entries.next() {
        if *price == 0 {
            return Ok(false);
        }
    }
    Ok(true)
}

impl PriceList {
    /// Returns the list of these prices. No thread can change it. Returns `None` if a price is 0.
    ///
    /// # Errors
    ///
    /// Fails with `Refused::Memory` or `Refused::Capacity`, as [`ReadOnly::iter`] does.
    pub fn new<R: Wait>(rt: &R, prices: Prices) -> Result<Option<PriceList>, Refused>
        ensures { IfOk result (λ list. MatchOption list (HasZeroSince prices.seen)
            (λ made. (made.map ≡ prices) × IsPrefix prices.seen made.history)) }
    {
        let prices = prices.into_read_only();
        if are_over_zero(rt, &prices)? {
            Ok(Some(PriceList { prices }))
        } else {
            Ok(None)
        }
    }

    /// Returns how many pieces of an article the money buys, or `None` if the article has no price.
    pub fn pieces(&self, article: u64, money: u64) -> Option<u64>
        ensures { result ≡ pieces_of self.now.history article money }
    {
        match self.prices.get(&article) {
            Some(price) => Some(money / *price),
            None => None,
        }
    }
}

/// Returns how many pieces of an article two customers can buy. Two threads look the price up at
/// once.
pub fn pieces_for_two<R: Threads + Sync>(
    rt: &R,
    list: &PriceList,
    article: u64,
    moneys: (u64, u64),
) -> (Option<u64>, Option<u64>)
    ensures first { result.0 ≡ pieces_of list.now.history article moneys.0 }
    ensures second { result.1 ≡ pieces_of list.now.history article moneys.1 }
{
    let (first, second) = moneys;
    join(
        rt,
        || list.pieces(article, first),
        || list.pieces(article, second),
    )
}
