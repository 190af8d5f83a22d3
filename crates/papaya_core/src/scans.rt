//! One step of a call that scans a table.
ghost use Rattle.std.specs.Prelude.{◌≡◌, ℕ, IsSome, Some, length};
ghost use Rattle.papaya_words.specs.Table.{TableWords};
ghost use Rattle.papaya_call.specs.Search.{IsSize};
ghost use Rattle.papaya_words_keys.specs.Hashes.{hash_of};
ghost use Rattle.papaya_core_store.specs.Tables.{table_of};
ghost use Rattle.papaya_call.specs.Scanner.{IsValidScanner, ask_of};
ghost use Rattle.papaya_core.specs.Goes.{ScanGoes};
ghost use Rattle.papaya_core_timeline.specs.Outcomes.{AnswersWalk, ListsGiven, as_reply, reply_told};
ghost use Rattle.papaya_core_timeline.specs.ScanGoes.{list_refusal};

use crate::entries::event_of_scan;
use papaya_call::answers::Answers;
use papaya_call::ask::Answer as CallAnswer;
use papaya_call::call::Reply;
use papaya_call::chain::ask::{Answer, ScanAsk};
use papaya_call::chain::scanner::Scan;
use papaya_core_store::scans::{Scanning, perform_scan};
use papaya_core_store::store::Store;
use papaya_core_timeline::outcome::Outcome;
use papaya_core_timeline::seat::Work;
use papaya_core_timeline::trace::Event;
use papaya_words::refused::Refused;
use std::alloc::Global;
use std::hash::{BuildHasher, Hash};

/// Returns why the list of a scan could not grow, if it could not.
fn list_refusal(ask: ScanAsk, answer: Answer) -> Option<Refused>
    ensures { result ≡ list_refusal ask answer }
{
    match (ask, answer) {
        (ScanAsk::Given(_), Answer::Call(CallAnswer::Refused(refused))) => Some(refused),
        _ => None,
    }
}

/// Returns the outcome of a call that scans a table: a finished iteration has a list.
fn outcome_of<A: Drop>(scanning: Scanning<A>, reply: Reply) -> Outcome
    ensures told { reply_told result ≡ reply }
    ensures listed { ListsGiven scanning.scanner.scan scanning.given result }
{
    match (scanning.scanner.scan, reply) {
        (Scan::Walk, Reply::Done) => Outcome::Walked(scanning.given.into_vec()),
        _ => Outcome::Replied(reply),
    }
}

/// Performs one ask of a call that scans a table. Returns the event, the outcome if the call ended,
/// and the call if it continues.
pub(crate) fn advance_scan<K: Hash + Eq + Drop, V: Drop, S: BuildHasher, A: Answers<K, V> + Drop>(
    alloc: Global,
    store: &mut Store<K, V, S>,
    caller: usize,
    mut scanning: Scanning<A>,
    refuse: bool,
) -> (Event, Option<Outcome>, Option<Work<K, V, A>>)
    requires sizes { (n : ℕ) (t : TableWords) → table_of store.old.words.tables n ≡ Some t
        → IsSize (length t.slots) t.limit }
    requires valid { IsValidScanner scanning.scanner }
    requires asks { IsSome (ask_of scanning.scanner) }
    ensures goes { ScanGoes K.eq (record { op = A.op_gives; yes = A.yes_gives })
        (hash_of K.hash_input S.build_hasher S.Hasher.write S.Hasher.finish) refuse store.old caller
        store.new result.0 (as_reply result.1) result.2 scanning }
    ensures walked { AnswersWalk (Some scanning) result.1 }
{
    let kind = scanning.scanner.kind();
    let ask = match scanning.scanner.ask() {
        Some(ask) => ask,
        None => unreachable!(),
    };
    let answer = perform_scan(store, alloc, caller, &mut scanning, ask, refuse);
    let event = event_of_scan(kind, ask, answer);
    if let Some(refused) = list_refusal(ask, answer) {
        return (event, Some(Outcome::Replied(Reply::Refused(refused))), None);
    }
    scanning.scanner.answer(answer);
    match scanning.scanner.reply() {
        Some(reply) => (event, Some(outcome_of(scanning, reply)), None),
        None => (event, None, Some(Work::Scan(scanning))),
    }
}
