//! The machine of a call that scans each slot of a table.
ghost use Rattle.std.specs.Prelude.{◌≡◌};
ghost use Rattle.std.specs.Int.{IsPowerOfTwo};
ghost use Rattle.papaya_words.specs.Mode.{IsChunked};
ghost use Rattle.papaya_words.specs.Word.{kind_of};
ghost use Rattle.papaya_call.specs.Search.{IsSize};
ghost use Rattle.papaya_call.specs.ChainMachine.{IsFit};
ghost use Rattle.papaya_call.specs.Resizer.{IsValidIn as IsStandingStage, IsValidResizer};
ghost use Rattle.papaya_call.specs.Scanner.{IsValidIn, IsValidScanner, IsValidSpot};
ghost use Rattle.papaya_call.specs.Scanner.{after, ask_of, at_root, begun, copied, buries};
ghost use Rattle.papaya_call.specs.Scanner.{follows_of, found_by, kind_of_ask, looks, meets};
ghost use Rattle.papaya_call.specs.Scanner.{next, reply_of, resizer_of, scanned};

use crate::ask::{Answer as CallAnswer, At, StepKind};
use crate::call::Reply;
use crate::chain::ask::{Answer, ScanAsk};
use crate::chain::resizer::{Resize, Resizer, ResizerState as Stage};
use crate::copy_ask::CopyAsk;
use papaya_words::refused::Refused;
use papaya_words::resize_mode::ResizeMode;
use papaya_words::word::{Kind, Word};

/// The work of a scan on each pair that it meets.
#[derive(Clone, Copy)]
pub enum Scan {
    /// Removes the pair: `clear` of 0.2.5.
    Clear,
    /// Calls the closure with the pair, and removes it if the closure returns `false`: `retain` of
    /// 0.2.5.
    Retain,
    /// Passes the pair to the caller, and changes nothing: `iter` of 0.2.5.
    Walk,
}

/// A slot of the table that is scanned.
#[derive(Clone, Copy)]
pub struct Spot {
    /// The table's number.
    pub table: u64,
    /// The number of slots of the table.
    pub len: usize,
    /// The slot's index in it, from 0.
    pub slot: usize,
}

/// The state of a scanner, between two answers.
#[derive(Clone, Copy)]
pub enum ScannerState {
    /// Copies everything; this is the state of the copy. The scan then takes the root that the copy
    /// found without a next table. A root that is loaded again may have got a next table.
    Copying(Stage),
    /// With `Blocking`, loads the root.
    AtRoot,
    /// Asks for the size of this table, which it scans.
    Sizing(u64),
    /// Loads the word of this slot.
    Looking(Spot),
    /// Passes the pair of this word to the caller.
    Giving(Spot, u64),
    /// Calls the closure with the pair of this word.
    Showing(Spot, u64),
    /// Deletes the pair of this word.
    Burying(Spot, u64),
    /// The scanner has deleted a pair: takes 1 from the count.
    Uncounting(Spot),
    /// Each slot was scanned.
    Done,
    /// A table could not be made. Removed pairs stay removed, and marked words stay marked.
    Refused(Refused),
}

impl Spot {
    /// Loads the slot's word, or ends if the table has no more slots.
    fn look(self) -> ScannerState
        ensures value { result ≡ looks self }
        ensures valid { IsValidIn result }
    {
        if self.slot < self.len {
            ScannerState::Looking(self)
        } else {
            ScannerState::Done
        }
    }

    /// Returns the exchange that deletes the pair of this word. The slot keeps its number.
    fn bury(self, word: u64) -> CopyAsk
        ensures { result ≡ buries self word }
    {
        let buried = Word::buried(Word(word).pair());
        CopyAsk::Exchange(At::Slot(self.table, self.slot), word, buried.0)
    }

    /// Moves to the next slot.
    fn next(self) -> ScannerState
        requires { IsValidSpot self }
        ensures value { result ≡ next self }
        ensures valid { IsValidIn result }
    {
        Spot {
            slot: self.slot + 1,
            ..self
        }
        .look()
    }
}

impl Scan {
    /// Continues with the slot's word. If a clear or a retain meets a copier's work, it copies
    /// everything and begins again.
    fn meet(self, spot: Spot, word: u64) -> ScannerState
        requires { IsValidSpot spot }
        ensures value { result ≡ meets self spot word (kind_of word) }
        ensures valid { IsValidIn result }
    {
        match (Word(word).kind(), self) {
            (Kind::Live, Scan::Clear) => ScannerState::Burying(spot, word),
            (Kind::Live, Scan::Retain) => ScannerState::Showing(spot, word),
            (Kind::Live | Kind::Marked | Kind::Copied, Scan::Walk) => ScannerState::Giving(
                spot, word,
            ),
            (Kind::Marked | Kind::Copied, Scan::Clear | Scan::Retain) => {
                ScannerState::Copying(Stage::AtRoot)
            }
            (Kind::Empty | Kind::Buried | Kind::Closed, _) => spot.next(),
        }
    }
}

/// Scans this root, or ends if it is 0.
fn at_root(root: u64) -> ScannerState
    ensures value { result ≡ at_root root }
    ensures valid { IsValidIn result }
{
    if root == 0 {
        ScannerState::Done
    } else {
        ScannerState::Sizing(root)
    }
}

/// Returns the root that a copy of everything found, if it ended in this state.
fn found_by(stage: Stage) -> u64
    ensures { result ≡ found_by stage }
{
    match stage {
        Stage::Looking { root, .. } => root,
        _ => 0,
    }
}

/// Continues after an answer changed the copy of everything from one state to another.
fn copied(from: Stage, to: Stage) -> ScannerState
    requires { IsStandingStage to }
    ensures value { result ≡ copied from to }
    ensures valid { IsValidIn result }
{
    match to {
        Stage::Done => at_root(found_by(from)),
        Stage::Refused(refused) => ScannerState::Refused(refused),
        stage => ScannerState::Copying(stage),
    }
}

/// A scanner under way. It is plain data, as a call is.
#[derive(Clone, Copy)]
pub struct Scanner {
    /// How the map's tables are copied.
    pub mode: ResizeMode,
    /// The initial capacity of the map in slots. No table is made shorter.
    pub initial: usize,
    /// The work of the scan on each pair.
    pub scan: Scan,
    /// Decides at which chunk it starts to copy a table, modulo the number of chunks.
    pub number: u64,
    /// The scanner's state.
    pub state: ScannerState,
}

impl Scanner {
    /// Begins a scan. Calls with different numbers start to copy a table at different chunks.
    pub fn new(scan: Scan, mode: ResizeMode, initial: usize, number: u64) -> Scanner
        requires chunked { IsChunked mode }
        requires initial { IsPowerOfTwo initial }
        ensures value { result ≡ begun scan mode initial number }
        ensures valid { IsValidScanner result }
    {
        let state = match mode {
            ResizeMode::Incremental(_) => ScannerState::Copying(Stage::AtRoot),
            ResizeMode::Blocking => ScannerState::AtRoot,
        };
        Scanner {
            mode,
            initial,
            scan,
            number,
            state,
        }
    }

    /// Returns the resizer that copies everything, in this state.
    fn resizer(&self, stage: Stage) -> Resizer
        requires valid { IsValidScanner self.now }
        requires stage { IsStandingStage stage }
        ensures value { result ≡ resizer_of self.now stage }
        ensures valid { IsValidResizer result }
    {
        Resizer {
            mode: self.mode,
            initial: self.initial,
            resize: Resize::CopyAll,
            number: self.number,
            state: stage,
        }
    }

    /// Returns the next ask, or `None` if the scanner has ended.
    pub fn ask(&self) -> Option<ScanAsk>
        requires { IsValidScanner self.now }
        ensures { result ≡ ask_of self.now }
    {
        match self.state {
            ScannerState::Copying(stage) => match self.resizer(stage).ask() {
                Some(ask) => Some(ScanAsk::Copy(ask)),
                None => None,
            },
            ScannerState::AtRoot => Some(ScanAsk::Copy(CopyAsk::Load(At::Root))),
            ScannerState::Sizing(table) => Some(ScanAsk::Copy(CopyAsk::SizeOf(table))),
            ScannerState::Looking(spot) => Some(ScanAsk::Copy(CopyAsk::Load(At::Slot(
                spot.table, spot.slot,
            )))),
            ScannerState::Giving(_, word) => Some(ScanAsk::Given(Word(word).pair())),
            ScannerState::Showing(_, word) => Some(ScanAsk::Show(Word(word).pair())),
            ScannerState::Burying(spot, word) => Some(ScanAsk::Copy(spot.bury(word))),
            ScannerState::Uncounting(_) => Some(ScanAsk::AddToShard(-1)),
            ScannerState::Done | ScannerState::Refused(_) => None,
        }
    }

    /// Returns the reply if the scanner has ended.
    pub fn reply(&self) -> Option<Reply>
        ensures { result ≡ reply_of self.now }
    {
        match self.state {
            ScannerState::Done => Some(Reply::Done),
            ScannerState::Refused(refused) => Some(Reply::Refused(refused)),
            _ => None,
        }
    }

    /// Returns the exchange's kind, if the next ask is an exchange.
    pub fn kind(&self) -> Option<StepKind>
        requires { IsValidScanner self.now }
        ensures { result ≡ kind_of_ask self.now }
    {
        match self.state {
            ScannerState::Copying(stage) => self.resizer(stage).kind(),
            ScannerState::Burying(_, _) => Some(StepKind::Bury),
            _ => None,
        }
    }

    /// Returns the table that a table in the making will follow, or 0 if none is made.
    pub fn follows(&self) -> u64
        requires { IsValidScanner self.now }
        ensures { result ≡ follows_of self.now }
    {
        match self.state {
            ScannerState::Copying(stage) => self.resizer(stage).follows(),
            _ => 0,
        }
    }

    /// Returns the state after an answer while nothing is copied. Ignores an answer to another ask.
    fn scanned(&self, answer: Answer) -> ScannerState
        requires valid { IsValidIn self.now.state }
        requires fit { IsFit answer }
        ensures value { result ≡ scanned self.now.scan self.now.state answer }
        ensures valid { IsValidIn result }
    {
        let Answer::Call(answer) = answer else {
            return self.state;
        };
        match (self.state, answer) {
            (ScannerState::AtRoot, CallAnswer::Word(root)) => at_root(root),
            (ScannerState::Sizing(table), CallAnswer::Size { len, .. }) => Spot {
                table,
                len,
                slot: 0,
            }
            .look(),
            (ScannerState::Looking(spot), CallAnswer::Word(word)) => self.scan.meet(spot, word),
            (ScannerState::Giving(spot, _), CallAnswer::Ok) => spot.next(),
            (ScannerState::Showing(spot, _), CallAnswer::Yes(true)) => spot.next(),
            (ScannerState::Showing(spot, word), CallAnswer::Yes(false)) => ScannerState::Burying(
                spot, word,
            ),
            (ScannerState::Burying(spot, _), CallAnswer::Exchanged) => ScannerState::Uncounting(
                spot,
            ),
            (ScannerState::Burying(spot, _), CallAnswer::Found(word)) => self.scan.meet(spot, word),
            (ScannerState::Uncounting(spot), CallAnswer::Ok) => spot.next(),
            (state, _) => state,
        }
    }

    /// Continues after an answer to the last ask.
    pub fn answer(&mut self, answer: Answer)
        requires valid { IsValidScanner self.old }
        requires fit { IsFit answer }
        ensures after { self.new ≡ after self.old answer }
        ensures valid { IsValidScanner self.new }
    {
        self.state = match self.state {
            ScannerState::Copying(stage) => {
                let mut resizer = self.resizer(stage);
                resizer.answer(answer);
                copied(stage, resizer.state)
            }
            ScannerState::AtRoot
            | ScannerState::Sizing(_)
            | ScannerState::Looking(_)
            | ScannerState::Giving(_, _)
            | ScannerState::Showing(_, _)
            | ScannerState::Burying(_, _)
            | ScannerState::Uncounting(_)
            | ScannerState::Done
            | ScannerState::Refused(_) => self.scanned(answer),
        };
    }
}
