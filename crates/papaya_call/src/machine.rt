//! The machine of a call: what it asks, and how it continues after each answer.
ghost use Rattle.std.specs.Prelude.{◌≡◌, ◌<◌, ◌≤◌, ◌^◌};
ghost use Rattle.papaya_call.specs.Search.{IsSize, IsProbed, IsWithin};
ghost use Rattle.papaya_call.specs.declared.call.Task.{Task};
ghost use Rattle.papaya_call.specs.Compute.{IsGap};
ghost use Rattle.papaya_words.specs.Mode.{IsChunked};
ghost use Rattle.papaya_call.specs.Machine.{IsFit, IsFitAsk, IsValid, IsValidState, IsLookup, MayInsert, IsComputer, started, ask_of};
ghost use Rattle.papaya_call.specs.Machine.{kind_of_ask, after, absent, at_root, goes, found, passes, left, beaten, written};
ghost use Rattle.papaya_call.specs.Machine.{at_yes, state_op, state_told, at_size, state_made, at_ok, at_refused};

use crate::ask::{Answer, Ask, At, OpKind, StepKind};
use crate::call::{Reply, Task};
use crate::compute::{Gap, Purpose, Put, Remembered};
use crate::made::{Grown, Made};
use crate::need::Need;
use crate::remove::Removal;
use crate::search::{Place, ProbeStep, Search};
use crate::write::{Claimed, Write};
use papaya_words::limits::{FIRST_TABLE_LEN, FIRST_TABLE_LIMIT};
use papaya_words::refused::Refused;
use papaya_words::resize_mode::ResizeMode;
use papaya_words::word::{Kind, Word};

/// The state of a call, between two answers.
#[derive(Clone, Copy)]
pub enum State {
    /// Loads the root.
    AtRoot,
    /// There is no root: makes the first table.
    Making,
    /// Makes this table, which the call made, the root.
    Opening(u64),
    /// Searches a table.
    Searching(Search),
    /// Makes a pair, and writes it.
    Writing(Write),
    /// Calls the closure without a pair, because the key is absent.
    Offering(Gap),
    /// Calls the closure with this pair.
    Showing(Removal),
    /// Makes a pair of the value that the closure returned.
    Pairing(Purpose),
    /// Writes the pair that was made in this way.
    Putting(Put),
    /// Removes this pair, as the closure decided.
    Burying(Removal),
    /// The pair was claimed: counts it.
    Counting(Claimed),
    /// The pair was claimed and counted: writes the hint of its key.
    Noting(Claimed),
    /// The pair of this number was deleted: counts it out.
    Uncounting(u64),
    /// The key is not in this table: loads the number of the next one.
    Leaving(u64),
    /// The call needs the table after one: loads its number.
    Growing(Need),
    /// The call has replied.
    Ended(Reply),
}

/// A call under way. It is plain data and holds no key, value or memory. A backend does nothing for
/// it but what it asks.
#[derive(Clone, Copy)]
pub struct Machine {
    /// The call's task.
    pub task: Task,
    /// The hash of the call's key.
    pub hash: u64,
    /// How the map's tables are copied.
    pub mode: ResizeMode,
    /// The initial capacity of the map in slots. No table is made shorter.
    pub initial: usize,
    /// The parts of its pair that the call has asked for.
    pub made: Made,
    /// The results of its closure that a compute remembers.
    pub remembered: Remembered,
    /// The call's state.
    pub state: State,
}

impl Machine {
    /// Begins a call. If there is a limit on pairs, the call stores no pair once that many are
    /// stored.
    ///
    /// It replaces the whole of a call of 0.2.5, whose steps run one after another.
    #[inline(always)]
    pub fn new(
        task: Task,
        hash: u64,
        mode: ResizeMode,
        initial: usize,
        limit: Option<u64>,
    ) -> Machine
        requires { IsChunked mode }
        ensures value { result ≡ started task hash mode initial limit }
        ensures valid { IsValid result }
    {
        Machine {
            task,
            hash,
            mode,
            initial,
            made: Made::nothing(limit),
            remembered: Remembered::nothing(),
            state: State::AtRoot,
        }
    }

    /// Returns the next ask of the machine: the same until it is answered.
    #[inline(always)]
    pub fn ask(&self) -> Ask
        requires { IsValid self.now }
        ensures value { result ≡ ask_of self.now }
        ensures size { IsFitAsk result }
        ensures lookup { self.now.task ≡ Task.Get → IsLookup result }
    {
        match self.state {
            State::AtRoot => Ask::Load(At::Root),
            State::Making => Ask::MakeTable {
                len: FIRST_TABLE_LEN,
                limit: FIRST_TABLE_LIMIT,
                chunks: 0,
            },
            State::Opening(table) => Ask::Exchange(At::Root, 0, table),
            State::Searching(search) => search.ask(),
            State::Writing(write) => write.ask(self.made),
            State::Offering(_) => Ask::ShowNone,
            State::Showing(removal) => removal.show(),
            State::Pairing(purpose) => self.made.ask(purpose.in_place_of()),
            State::Putting(put) => put.write.put(put.pair),
            State::Burying(removal) => removal.ask(),
            State::Counting(_) => Ask::AddToShard(1),
            State::Noting(claimed) => claimed.note(self.hash),
            State::Uncounting(_) => Ask::AddToShard(-1),
            State::Leaving(table) => Ask::Load(At::Next(table)),
            State::Growing(need) => Ask::Load(At::Next(need.table())),
            State::Ended(reply) => Ask::Done(reply),
        }
    }

    /// Returns the exchange's kind, if the next ask is an exchange. The words alone do not show the
    /// kind.
    #[inline]
    pub fn kind(&self) -> Option<StepKind>
        ensures { result ≡ kind_of_ask self.now }
    {
        match self.state {
            State::Opening(_) => Some(StepKind::Open),
            State::Writing(write) => match write.served(self.made) {
                Some(_) => Some(write.kind()),
                None => self.made.kind(),
            },
            State::Pairing(_) => self.made.kind(),
            State::Putting(put) => Some(put.write.kind()),
            State::Burying(_) => Some(StepKind::Bury),
            _ => None,
        }
    }

    /// Continues after an answer to the last ask. A machine that has replied does not change.
    #[inline(always)]
    pub fn answer(&mut self, answer: Answer)
        requires valid { IsValid self.old }
        requires fit { IsFit answer }
        ensures after { self.new ≡ after self.old answer }
        ensures valid { IsValid self.new }
    {
        match answer {
            Answer::Word(word) => self.at_word(word),
            Answer::Exchanged => self.at_exchanged(),
            Answer::Found(word) => self.at_found(word),
            Answer::Yes(yes) => self.state = self.at_yes(yes),
            Answer::Op(kind) => self.at_op(kind),
            Answer::Size { len, limit } => self.state = self.at_size(len, limit),
            Answer::Made(number) => self.at_made(number),
            Answer::Ok => self.state = self.at_ok(),
            Answer::Refused(refused) => self.state = self.at_refused(refused),
        }
    }
}

impl Machine {
    #[inline(always)]
    fn at_word(&mut self, word: u64)
        requires { IsValid self.old }
        ensures after { self.new ≡ after self.old (Answer.Word word) }
        ensures valid { IsValid self.new }
    {
        match self.state {
            State::AtRoot => self.state = self.at_root(word),
            State::Searching(search) => {
                self.state = self.goes(search.at_word(self.hash, word));
            }
            State::Leaving(table) => self.state = self.left(table, word),
            State::Growing(_) => self.state = State::Ended(Reply::Refused(Refused::Capacity)),
            State::Writing(write) => {
                if write.served(self.made).is_none() {
                    self.told(word);
                }
            }
            State::Pairing(_) => self.told(word),
            _ => {}
        }
    }

    #[inline(always)]
    fn at_exchanged(&mut self)
        requires { IsValid self.old }
        ensures after { self.new ≡ after self.old Answer.Exchanged }
        ensures valid { IsValid self.new }
    {
        match self.state {
            State::Opening(table) => self.state = State::Searching(Search::Sizing(table)),
            State::Writing(write) => match write.served(self.made) {
                Some(pair) => self.state = self.written(write, pair),
                None => self.made = self.made.taken(),
            },
            State::Pairing(_) => self.made = self.made.taken(),
            State::Putting(put) => self.state = self.written(put.write, put.pair),
            State::Burying(removal) => self.state = State::Uncounting(removal.pair()),
            _ => {}
        }
    }

    /// Continues with the count of numbers taken for pairs. If it is the limit, the call ends.
    #[inline]
    fn told(&mut self, count: u64)
        requires { IsValid self.old }
        ensures after { self.new ≡ state_told self.old count }
        ensures valid { IsValid self.new }
    {
        match self.made.told(count) {
            Some(made) => self.made = made,
            None => self.state = State::Ended(Reply::Refused(Refused::Limit)),
        }
    }

    /// Continues after the pair of this number was written.
    #[inline(always)]
    fn written(&self, write: Write, pair: u64) -> State
        requires { MayInsert self.now.task }
        ensures value { result ≡ written write pair }
        ensures valid { IsValidState self.now.task result }
    {
        if write.old == 0 {
            State::Counting(Claimed {
                place: write.place,
                pair,
            })
        } else {
            State::Ended(Reply::Replaced {
                old: Word(write.old).pair(),
                new: pair,
            })
        }
    }

    #[inline(always)]
    fn at_found(&mut self, word: u64)
        requires { IsValid self.old }
        ensures after { self.new ≡ after self.old (Answer.Found word) }
        ensures valid { IsValid self.new }
    {
        match self.state {
            State::Opening(_) => self.state = State::Searching(Search::Sizing(word)),
            State::Writing(write) => match write.served(self.made) {
                Some(_) => self.state = self.goes(write.place.look(word)),
                None => self.told(word),
            },
            State::Pairing(_) => self.told(word),
            State::Putting(put) => self.state = self.goes(put.write.place.look(word)),
            State::Burying(removal) => self.state = self.beaten(removal, word),
            _ => {}
        }
    }

    /// Continues after a deletion found `word` instead of its own. If another call deleted the pair
    /// of a removal, the key was absent at that point.
    #[inline(always)]
    fn beaten(&self, removal: Removal, word: u64) -> State
        requires within { IsWithin removal.place }
        requires valid { IsValid self.now }
        ensures value { result ≡ beaten self.now removal word }
        ensures valid { IsValidState self.now.task result }
    {
        if Word(word).kind() == Kind::Buried && self.task != Task::Compute {
            return State::Ended(Reply::Absent);
        }
        self.goes(removal.place.look(word))
    }

    #[inline(always)]
    fn at_yes(&self, yes: bool) -> State
        requires { IsValid self.now }
        ensures value { result ≡ at_yes self.now yes self.now.state }
        ensures valid { IsValidState self.now.task result }
    {
        match self.state {
            State::Searching(search) => self.goes(search.at_yes(yes)),
            State::Showing(removal) if self.task == Task::RemoveIf => {
                if yes {
                    State::Burying(removal)
                } else {
                    State::Ended(Reply::Kept(removal.pair()))
                }
            }
            state => state,
        }
    }

    #[inline(always)]
    fn at_op(&mut self, kind: OpKind)
        requires { IsValid self.old }
        ensures after { self.new ≡ state_op self.old kind }
        ensures valid { IsValid self.new }
    {
        match self.state {
            State::Offering(gap) => {
                self.state = State::offered(gap, kind);
                self.made = self.made.answered(kind);
            }
            State::Showing(shown) if self.task == Task::Compute => {
                self.state = State::chosen(shown, kind);
                self.made = self.made.answered(kind);
                self.remembered = self.remembered.with_choice(shown, kind);
            }
            _ => {}
        }
    }

    #[inline(always)]
    fn at_size(&self, len: usize, limit: usize) -> State
        requires valid { IsValid self.now }
        requires size { IsSize len limit }
        ensures value { result ≡ at_size self.now.hash len limit self.now.state }
        ensures valid { IsValidState self.now.task result }
    {
        match self.state {
            State::Searching(search) => State::Searching(search.at_size(self.hash, len, limit)),
            state => state,
        }
    }

    #[inline(always)]
    fn at_made(&mut self, number: u64)
        requires valid { IsValid self.old }
        requires number { number < 2 ^ 48 }
        ensures after { self.new ≡ state_made self.old number }
        ensures valid { IsValid self.new }
    {
        match self.state {
            State::Making => self.state = State::Opening(number),
            State::Writing(write) => self.made = write.grown(self.made, number),
            State::Pairing(purpose) => match self.made.grown(purpose.in_place_of()) {
                Grown::On(made) => self.made = made,
                Grown::Pair(made) => {
                    self.made = made;
                    self.state = State::provides(purpose, number);
                    self.remembered = self.remembered.with_pair(purpose, number);
                }
            },
            _ => {}
        }
    }

    #[inline(always)]
    fn at_ok(&self) -> State
        requires { IsValid self.now }
        ensures value { result ≡ at_ok self.now.state }
        ensures valid { IsValidState self.now.task result }
    {
        match self.state {
            State::Counting(claimed) => State::Noting(claimed),
            State::Noting(claimed) => State::Ended(Reply::Inserted(claimed.pair)),
            State::Uncounting(pair) => State::Ended(Reply::Removed(pair)),
            state => state,
        }
    }

    /// Ends because something could not be made. The call has made no change before.
    #[inline(always)]
    fn at_refused(&self, refused: Refused) -> State
        requires { IsValid self.now }
        ensures value { result ≡ at_refused self.now.made refused self.now.state }
        ensures valid { IsValidState self.now.task result }
    {
        match self.state {
            State::Making => State::Ended(Reply::Refused(refused)),
            State::Writing(write) => match write.served(self.made) {
                Some(_) => State::Writing(write),
                None => State::Ended(Reply::Refused(refused)),
            },
            State::Pairing(_) => State::Ended(Reply::Refused(refused)),
            state => state,
        }
    }

    /// Continues with the number of the root, or 0.
    #[inline(always)]
    fn at_root(&self, word: u64) -> State
        requires { IsValid self.now }
        ensures value { result ≡ at_root self.now.task self.now.remembered.fill word }
        ensures valid { IsValidState self.now.task result }
    {
        if word != 0 {
            return State::Searching(Search::Sizing(word));
        }
        match self.task {
            Task::Insert { .. } => State::Making,
            Task::Get | Task::RemoveIf | Task::Compute => self.absent(Gap::NoRoot),
        }
    }

    /// Continues with the outcome of a search's step.
    #[inline(always)]
    fn goes(&self, seen: ProbeStep) -> State
        requires seen { IsProbed seen }
        requires valid { IsValid self.now }
        ensures value { result ≡ goes self.now seen }
        ensures valid { IsValidState self.now.task result }
    {
        match seen {
            ProbeStep::On(search) => State::Searching(search),
            ProbeStep::Empty(place) => match self.task {
                Task::Insert { .. } => State::Writing(Write { place, old: 0 }),
                Task::Get | Task::RemoveIf | Task::Compute => self.absent(Gap::At(place)),
            },
            ProbeStep::Here(place, word) => self.found(place, word),
            ProbeStep::Over(table) => match self.task {
                Task::Insert { .. } => State::Growing(Need::Room(table)),
                Task::Get | Task::RemoveIf | Task::Compute => self.passes(table),
            },
        }
    }

    /// Continues at a word that names a pair with a matching key. A marked pair can't be changed
    /// here, so each call but a lookup first carries it on.
    #[inline(always)]
    fn found(&self, place: Place, word: u64) -> State
        requires within { IsWithin place }
        requires valid { IsValid self.now }
        ensures value { result ≡ found self.now.task self.now.remembered place word }
        ensures valid { IsValidState self.now.task result }
    {
        if self.task == Task::Get {
            return State::Ended(Reply::Found(Word(word).pair()));
        }
        if Word(word).kind() != Kind::Live {
            return State::Growing(Need::Pair(place.table, place.probe.i));
        }
        match self.task {
            Task::Insert { replace: false } => State::Ended(Reply::Occupied(Word(word).pair())),
            Task::RemoveIf => State::Showing(Removal { place, word }),
            Task::Compute => self.remembered.meets(place, word),
            _ => State::Writing(Write { place, old: word }),
        }
    }

    /// Passes a table in the search for the key. With `Blocking`, no later table has the key.
    #[inline(always)]
    fn passes(&self, table: u64) -> State
        requires { IsValid self.now }
        ensures value { result ≡ passes self.now.task self.now.mode self.now.remembered.fill table }
        ensures valid { IsValidState self.now.task result }
    {
        match self.mode {
            ResizeMode::Incremental(_) => State::Leaving(table),
            ResizeMode::Blocking => self.absent(Gap::After(table)),
        }
    }

    /// Continues with the number of the next table, or 0.
    #[inline(always)]
    fn left(&self, table: u64, word: u64) -> State
        requires { IsValid self.now }
        ensures value { result ≡ left self.now.task self.now.remembered.fill table word }
        ensures valid { IsValidState self.now.task result }
    {
        if word == 0 {
            self.absent(Gap::After(table))
        } else {
            State::Searching(Search::Sizing(word))
        }
    }

    /// Continues because the key is absent and its pair would be in this gap.
    #[inline(always)]
    fn absent(&self, gap: Gap) -> State
        requires gap { IsGap gap }
        requires valid { IsValid self.now }
        ensures value { result ≡ absent self.now.task self.now.remembered.fill gap }
        ensures valid { IsValidState self.now.task result }
    {
        if self.task != Task::Compute {
            return State::Ended(Reply::Absent);
        }
        match self.remembered.fill {
            None => State::Offering(gap),
            Some(pair) => State::fills(gap, pair),
        }
    }
}
