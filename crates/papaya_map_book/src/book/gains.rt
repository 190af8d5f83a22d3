//! The pairs that the words of slots name, which steps on such words gain.
ghost use Rattle.std.specs.Prelude.{◌≡◌, Some};
ghost use Rattle.papaya_words.specs.Word.{pair_of};
ghost use Rattle.papaya_map_book.specs.Calls.{IsPairOf, NamesPair};
ghost use Rattle.papaya_map_book.specs.declared.rule.entry.Named.TheVariants.{Pair as PairNamed};

use crate::rule::entry::Stored;
use crate::rule::offer;
use crate::rule::offer::Offer;
use papaya_map_arena::token::token;
use papaya_words::word::{Kind, Word};
use std::hash::{BuildHasher, Hash};

/// Returns the token of the pair that a slot's word names.
#[inline(always)]
pub fn named_pair<K: Hash + Eq, V, S: BuildHasher>(
    found: u64,
    offer: Offer<K, V, S>,
) -> Stored<K, V>
    requires { (p : _) × (offer.state ≡ Some (PairNamed p)) × (pair_of found ≡ p.index) }
    ensures { offer.state ≡ Some (PairNamed result) }
{
    let known = offer::pair_known(offer.into_gain());
    token(known, Word(found).pair() as usize)
}

/// Returns the token of the pair that a slot's word names, if it names one.
#[inline(always)]
pub fn pair_in<K: Hash + Eq, V, S: BuildHasher>(
    found: u64,
    offer: Offer<K, V, S>,
) -> Option<Stored<K, V>>
    requires { NamesPair found offer.state }
    ensures { IsPairOf found offer.state result }
{
    match Word(found).kind() {
        Kind::Empty | Kind::Closed => None,
        _ => Some(named_pair(found, offer)),
    }
}
