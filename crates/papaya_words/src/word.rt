//! The words of slots: what a word says, and how it may change.
ghost use Rattle.std.specs.Prelude.{◌≡◌, ℕ, ◌+◌, ◌*◌, ◌%◌, ◌^◌, ◌<◌, ◌≤◌, ◌↔◌, ◌≢◌, IsTrue};
ghost use Rattle.papaya_words.specs.Word.{kind_of, kind_of_code, pair_of, filled_word};
ghost use Rattle.papaya_words.specs.Word.{live_word, marked_word, copied_word, buried_word};
ghost use Rattle.papaya_words.specs.Word.{top_byte, hint_of, may_hold, IsSlotStep};
ghost use Rattle.papaya_words.specs.declared.word.Kind.TheVariants.{Empty, Live, Marked, Copied, Buried, Closed};

/// The kind of a slot's word. Its code in the word is its index in this list, from 0.
#[derive(Clone, Copy, Debug, PartialEq, Eq)]
pub enum Kind {
    /// Nothing was ever written here.
    Empty,
    /// The pair is in this table.
    Live,
    /// The pair is being copied to the next table, and can't be changed here.
    Marked,
    /// The pair was copied, and is found in a later table.
    Copied,
    /// The pair was removed, and the word keeps its number. This is a tombstone.
    Buried,
    /// The slot was `Empty` when a copier sealed it.
    Closed,
}

/// The word of a slot: `kind + 1024 * pair`.
///
/// It replaces the tagged pointer to an entry of 0.2.5.
#[derive(Clone, Copy, Debug, PartialEq, Eq)]
pub struct Word(pub u64);

impl Word {
    /// The word of a slot to which nothing was ever written.
    pub const EMPTY: Word = Word(0);

    /// The word of a slot that a copier found `Empty` and sealed.
    pub const CLOSED: Word = Word(5);

    /// Returns the word of a slot that holds this pair.
    #[inline(always)]
    pub fn live(pair: u64) -> Word
        requires { pair < 2 ^ 54 }
        ensures { result.0 ≡ live_word pair }
    {
        Word(1 + 1024 * pair)
    }

    /// Returns the word of a slot whose pair is being copied.
    pub fn marked(pair: u64) -> Word
        requires { pair < 2 ^ 54 }
        ensures { result.0 ≡ marked_word pair }
    {
        Word(2 + 1024 * pair)
    }

    /// Returns the word of a slot whose pair was copied.
    pub fn copied(pair: u64) -> Word
        requires { pair < 2 ^ 54 }
        ensures { result.0 ≡ copied_word pair }
    {
        Word(3 + 1024 * pair)
    }

    /// Returns the word of a slot whose pair was removed.
    #[inline(always)]
    pub fn buried(pair: u64) -> Word
        requires { pair < 2 ^ 54 }
        ensures { result.0 ≡ buried_word pair }
    {
        Word(4 + 1024 * pair)
    }

    /// Returns the word's kind. Bits 3 to 9 are zero in each word of a table; any other code reads
    /// as `Closed`.
    #[inline(always)]
    pub fn kind(self) -> Kind
        ensures { result ≡ kind_of self.0 }
    {
        match self.0 % 1024 {
            0 => Kind::Empty,
            1 => Kind::Live,
            2 => Kind::Marked,
            3 => Kind::Copied,
            4 => Kind::Buried,
            _ => Kind::Closed,
        }
    }

    /// Returns the number of the pair. It is meaningless in an `Empty` or a `Closed` word.
    #[inline(always)]
    pub fn pair(self) -> u64
        ensures { result ≡ pair_of self.0 }
    {
        self.0 / 1024
    }
}

/// Returns whether one step may change a slot from `old` to `new`. No step makes a slot `Empty`
/// again.
///
/// Words do not show which keys are equal, nor which of two steps filled an `Empty` slot. Those are
/// conditions of the steps, not of the words.
pub fn legal(old: Word, new: Word) -> bool
    ensures steps { IsTrue result ↔ IsSlotStep old.0 new.0 }
    ensures not_empty { IsTrue result → kind_of new.0 ≢ Empty }
{
    let same_pair = old.pair() == new.pair();
    match (old.kind(), new.kind()) {
        (Kind::Empty, Kind::Live) => old == Word::EMPTY,
        (Kind::Empty, Kind::Closed) => old == Word::EMPTY && new == Word::CLOSED,
        (Kind::Live, Kind::Live) => true,
        (Kind::Live, Kind::Marked) => same_pair,
        (Kind::Live, Kind::Buried) => same_pair,
        (Kind::Marked, Kind::Copied) => same_pair,
        _ => false,
    }
}

/// States that a word gives back the kind and the pair that it was made of, and a filled word is
/// made of the kind and the pair that it gives.
pub fn words_read_back()
    ensures kind { (code pair : ℕ) → code < 8
        → kind_of (filled_word code pair) ≡ kind_of_code code }
    ensures pair { (code pair : ℕ) → code < 8 → pair_of (filled_word code pair) ≡ pair }
    ensures bare { (kind_of 0 ≡ Empty) × (kind_of 5 ≡ Closed) }
    ensures live { (w : ℕ) → kind_of w ≡ Live → w ≡ live_word (pair_of w) }
    ensures marked { (w : ℕ) → kind_of w ≡ Marked → w ≡ marked_word (pair_of w) }
    ensures copied { (w : ℕ) → kind_of w ≡ Copied → w ≡ copied_word (pair_of w) }
    ensures buried { (w : ℕ) → kind_of w ≡ Buried → w ≡ buried_word (pair_of w) }
{}

/// Returns the hash from which the probe sequence starts.
#[inline(always)]
pub fn h1(hash: u64) -> usize
    ensures { result ≡ hash }
{
    hash as usize
}

/// Returns the hash byte: the top seven bits of the hash.
#[inline(always)]
pub fn h2(hash: u64) -> u8
    ensures value { result ≡ top_byte hash }
    ensures byte { result < 128 }
{
    (hash / 0x200_0000_0000_0000) as u8
}

/// Returns the hint of a slot that was filled by a key with this hash. A hint of 0 says nothing.
///
/// It replaces the metadata byte of 0.2.5.
#[inline(always)]
pub fn hint(hash: u64) -> u8
    ensures { result ≡ hint_of hash }
{
    1 + h2(hash)
}

/// Returns whether a slot with this hint may hold a pair whose key has this hash. A search loads
/// the word of such slots only.
#[inline(always)]
pub fn may_hold(found: u64, hash: u64) -> bool
    ensures { result ≡ may_hold found hash }
{
    found == 0 || found == hint(hash) as u64
}

/// The hint of a `Closed` slot.
pub const SHUT: u8 = 129;
