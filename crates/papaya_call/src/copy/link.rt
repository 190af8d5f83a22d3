//! The making of the table after another.
ghost use Rattle.std.specs.Prelude.{◌≡◌};
ghost use Rattle.std.specs.Int.{IsPowerOfTwo};
ghost use Rattle.papaya_call.specs.Search.{IsSize};
ghost use Rattle.papaya_call.specs.Link.{IsFitCopyAsk, IsValidLink, IsValidLinked, at_count, at_exchanged, at_found};
ghost use Rattle.papaya_call.specs.Link.{at_made, at_refused, at_size, link_ask, link_kind, follows};

use crate::ask::{At, StepKind};
use crate::copy_ask::CopyAsk;
use papaya_words::chunks::chunk_count;
use papaya_words::refused::Refused;
use papaya_words::resize_mode::ResizeMode;
use papaya_words::table::{next_len, next_limit, table_len};

/// The state of making a table, between two answers.
///
/// In 0.2.5 this is `get_or_alloc_next`. There one caller makes the table and the others wait for
/// it. Here each makes one, and all continue with the one that was linked first.
#[derive(Clone, Copy)]
pub enum Link {
    /// Asks for the size of this table, which is to get a next one. `unfit` says that a pair found
    /// no place, or that this table was given up.
    Sizing {
        after: u64,
        /// The table that is copied to the next one: this one, or the root if this one was given
        /// up.
        copied: u64,
        unfit: bool,
    },
    /// Asks for the size of the table that is copied, which is another one.
    Measuring {
        after: u64,
        copied: u64,
        unfit: bool,
        /// The number of slots of the table that is to get a next one.
        len: usize,
    },
    /// Asks for the count of pairs.
    Counting {
        after: u64,
        unfit: bool,
        len: usize,
        /// The number of slots of the table that is copied.
        copied: usize,
    },
    /// Makes a table of `len` slots, with a word for each chunk of the table that is copied.
    Making {
        after: u64,
        len: usize,
        limit: usize,
        chunks: usize,
    },
    /// Links this table, which it made, as the next one.
    Linking {
        after: u64,
        table: u64,
        chunks: usize,
    },
}

/// The outcome of an answer while a table is made.
#[derive(Clone, Copy)]
pub enum Linked {
    /// The making continues.
    On(Link),
    /// This is the next table.
    Table(u64),
    /// No table could be made.
    Refused(Refused),
}

impl Link {
    /// Returns the next ask.
    #[inline]
    pub fn ask(self) -> CopyAsk
        requires { IsValidLink self }
        ensures value { result ≡ link_ask self }
        ensures size { IsFitCopyAsk result }
    {
        match self {
            Link::Sizing { after, .. } => CopyAsk::SizeOf(after),
            Link::Measuring { copied, .. } => CopyAsk::SizeOf(copied),
            Link::Counting { .. } => CopyAsk::Count,
            Link::Making {
                len,
                limit,
                chunks,
                ..
            } => CopyAsk::MakeTable { len, limit, chunks },
            Link::Linking { after, table, .. } => CopyAsk::Exchange(At::Next(after), 0, table),
        }
    }

    /// Returns the exchange's kind, if the next ask is an exchange.
    #[inline]
    pub fn kind(self) -> Option<StepKind>
        ensures { result ≡ link_kind self }
    {
        match self {
            Link::Linking { .. } => Some(StepKind::Link),
            _ => None,
        }
    }

    /// Returns the table that is to get a next one. The table that is made has a greater number.
    #[inline]
    pub fn follows(self) -> u64
        ensures { result ≡ follows self }
    {
        match self {
            Link::Sizing { after, .. }
            | Link::Measuring { after, .. }
            | Link::Counting { after, .. }
            | Link::Making { after, .. }
            | Link::Linking { after, .. } => after,
        }
    }

    /// Continues with the size of the table.
    #[inline]
    pub fn at_size(self, len: usize, limit: usize) -> Link
        requires valid { IsValidLink self }
        requires size { IsSize len limit }
        ensures value { result ≡ at_size self len }
        ensures valid { IsValidLink result }
    {
        match self {
            Link::Sizing {
                after,
                copied,
                unfit,
            } => {
                if copied == after {
                    Link::Counting {
                        after,
                        unfit,
                        len,
                        copied: len,
                    }
                } else {
                    Link::Measuring {
                        after,
                        copied,
                        unfit,
                        len,
                    }
                }
            }
            Link::Measuring {
                after,
                unfit,
                len: before,
                ..
            } => Link::Counting {
                after,
                unfit,
                len: before,
                copied: len,
            },
            link => link,
        }
    }

    /// Continues with the map's count of pairs and its initial capacity.
    #[inline]
    pub fn at_count(self, mode: ResizeMode, count: usize, initial: usize) -> Linked
        requires valid { IsValidLink self }
        requires initial { IsPowerOfTwo initial }
        ensures value { result ≡ at_count self mode count initial }
        ensures valid { IsValidLinked result }
    {
        match self {
            Link::Counting {
                after,
                unfit,
                len,
                copied,
            } => match next_len(len, count, initial, unfit) {
                Ok(next) => {
                    let next = table_len(next);
                    Linked::On(Link::Making {
                        after,
                        len: next,
                        limit: next_limit(next, len, unfit),
                        chunks: chunk_count(copied, mode),
                    })
                }
                Err(refused) => Linked::Refused(refused),
            },
            link => Linked::On(link),
        }
    }

    /// Continues with the number of the table that was made.
    #[inline]
    pub fn at_made(self, number: u64) -> Link
        requires { IsValidLink self }
        ensures value { result ≡ at_made self number }
        ensures valid { IsValidLink result }
    {
        match self {
            Link::Making { after, chunks, .. } => Link::Linking {
                after,
                table: number,
                chunks,
            },
            link => link,
        }
    }

    /// Ends because the table could not be made.
    #[inline]
    pub fn at_refused(self, refused: Refused) -> Linked
        requires { IsValidLink self }
        ensures value { result ≡ at_refused self refused }
        ensures valid { IsValidLinked result }
    {
        match self {
            Link::Making { .. } => Linked::Refused(refused),
            link => Linked::On(link),
        }
    }

    /// Ends because the table was linked.
    #[inline]
    pub fn at_exchanged(self) -> Linked
        requires { IsValidLink self }
        ensures value { result ≡ at_exchanged self }
        ensures valid { IsValidLinked result }
    {
        match self {
            Link::Linking { table, .. } => Linked::Table(table),
            link => Linked::On(link),
        }
    }

    /// Ends because another caller linked this table first.
    #[inline]
    pub fn at_found(self, word: u64) -> Linked
        requires { IsValidLink self }
        ensures value { result ≡ at_found self word }
        ensures valid { IsValidLinked result }
    {
        match self {
            Link::Linking { .. } => Linked::Table(word),
            link => Linked::On(link),
        }
    }
}
