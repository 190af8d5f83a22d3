//! The removal of the pair that a word names.
ghost use Rattle.std.specs.Prelude.{◌≡◌};
ghost use Rattle.papaya_words.specs.Word.{pair_of};
ghost use Rattle.papaya_call.specs.Remove.{removal_ask, show_ask};

use crate::ask::{Ask, At};
use crate::search::Place;
use papaya_words::word::Word;

/// A pair that is to be removed if the call's closure agrees: the word that names it, and the place
/// of the word.
#[derive(Clone, Copy)]
pub struct Removal {
    /// The place at which the word was loaded.
    pub place: Place,
    /// A `Live` word, which names a pair with a matching key.
    pub word: u64,
}

impl Removal {
    /// Returns the number of the pair.
    #[inline(always)]
    pub fn pair(self) -> u64
        ensures { result ≡ pair_of self.word }
    {
        Word(self.word).pair()
    }

    /// Returns the ask that calls the closure with the pair.
    #[inline(always)]
    pub fn show(self) -> Ask
        ensures { result ≡ show_ask self }
    {
        Ask::ShowPair(self.pair())
    }

    /// Returns the ask that deletes the pair. The slot keeps its number.
    #[inline(always)]
    pub fn ask(self) -> Ask
        ensures { result ≡ removal_ask self }
    {
        let word = Word(self.word);
        Ask::Exchange(
            At::Slot(self.place.table, self.place.probe.i),
            self.word,
            Word::buried(word.pair()).0,
        )
    }
}
