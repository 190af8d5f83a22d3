//! An interner of texts: each text is stored once, and keeps its number. Threads share it.
ghost use Rattle.std.specs.Prelude.{◌≡◌, IfErr, None};
ghost use Rattle.papaya.specs.Threads.{IsMemoryOrCapacity};

use papaya::{HashMap, Refused, Session, TextKey};
use std::alloc::Global;
use std::hash::{BuildHasherDefault, FoldHasher};
use std::sync::Wait;
use std::sync::atomic::{AtomicU64, Ordering};

/// The numbers of the texts, and the texts of the numbers.
#[derive(Drop)]
pub struct Interner {
    numbers: HashMap<String, u64, BuildHasherDefault<FoldHasher>>,
    texts: HashMap<u64, String, BuildHasherDefault<FoldHasher>>,
    next: AtomicU64,
    ghost numbers_unlimited: { numbers.begun.limit ≡ None },
    ghost texts_unlimited: { texts.begun.limit ≡ None },
}

impl Interner {
    /// Returns an interner without texts.
    ///
    /// # Errors
    ///
    /// Fails with `Refused::Memory` if an allocation fails.
    pub fn new<R: Wait>(rt: &R, alloc: Global) -> Result<Interner, Refused> {
        Ok(Interner {
            numbers: HashMap::new(rt, alloc)?,
            texts: HashMap::new(rt, alloc)?,
            next: AtomicU64::new(0),
        })
    }

    /// Returns the number of a text, which gets one if it has none. If threads pass in one text at
    /// once, all get the number of the first; a number that another has drawn for it stays unused.
    ///
    /// # Errors
    ///
    /// Fails with `Refused::Memory` if an allocation fails, and with `Refused::Capacity` if one of
    /// the two maps has no room.
    #[tactic(auto, using(crate::proofs::LimitLemmas::unlimited))]
    pub fn number<R: Wait>(&self, rt: &R, alloc: Global, text: &str) -> Result<u64, Refused>
        ensures { IfErr result IsMemoryOrCapacity }
    {
        let mut numbers = Session::new(&self.numbers);
        if let Some(number) = numbers.get(&TextKey(text)) {
            return Ok(*number);
        }
        let key = text.to_string(alloc)?;
        let copy = text.to_string(alloc)?;
        let next = &self.next;
        let number = match numbers.get_or_insert_with(
            rt,
            key,
            || next.fetch_add(1, Ordering::SeqCst),
        ) {
            Ok(number) => *number,
            Err(refused) => return Err(refused),
        };
        match Session::new(&self.texts).get_or_insert(rt, number, copy) {
            Ok(_) => Ok(number),
            Err(refused) => Err(refused),
        }
    }

    /// Returns the text of a number that [`Interner::number`] has returned.
    pub fn text(&self, number: u64) -> Option<&str> {
        match Session::new(&self.texts).get(&number) {
            Some(text) => Some(text.as_str()),
            None => None,
        }
    }
}
