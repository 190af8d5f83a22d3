//! The callers and their calls under way: on one key, to resize the map, or to scan a table.
ghost use Rattle.std.specs.Prelude.{◌≡◌, ◌<◌, length, [], ◌∷◌, ◌++◌, None, Some, is_some, IsSome, OnOk, IfErr, slice_get, slice_set};
ghost use Rattle.papaya_core_timeline.specs.Callers.{working, with_seat, with_work, IsSeated, IsSeatAt};

pub use papaya_core_timeline::seat::{Seat, Work};
use papaya_words::refused::Refused;
use std::alloc::Global;
use std::marker::Model;

/// The callers that ever began a call, in the order of their first begins. A large caller number
/// takes no more memory than a small one.
pub struct Callers<K, V, A> {
    seats: Vec<Seat<K, V, A>>,
}

impl<K, V, A> Model for Callers<K, V, A> {
    ghost use Rattle.std.specs.Prelude.{List};
    ghost use Rattle.papaya_core_timeline.specs.declared.seat.Seat.{Seat};

    ghost Value = { List (Seat K V A) };

    ghost view = { λ c. c.seats.items };
}

impl<K: Drop, V: Drop, A: Drop> Drop for Callers<K, V, A> {
    fn drop(self) {
        let Self { seats: _ } = self;
    }
}

/// Returns the first index among the seats with this caller, or the number of seats.
fn place_of<K, V, A>(seats: &[Seat<K, V, A>], caller: usize) -> usize
    ensures { IsSeatAt seats.now caller result }
{
    for (place, seat) in seats.iter().enumerate() {
        if seat.caller == caller {
            return place;
        }
    }
    seats.len()
}

/// Adds a seat.
fn add_seat<K: Drop, V: Drop, A: Drop>(
    seats: &mut Vec<Seat<K, V, A>>,
    caller: usize,
) -> Result<(), Refused>
    ensures ok { OnOk result (seats.new.items ≡ seats.old.items ++ record {
      caller = caller;
      work = None;
    } ∷ []) }
    ensures err { IfErr result (λ e. (e ≡ Refused.Memory) × (seats.new.items ≡ seats.old.items)) }
{
    match seats.push(Seat { caller, work: None }) {
        Ok(()) => Ok(()),
        Err(_) => Err(Refused::Memory),
    }
}

/// Takes the work out of a seat.
fn take_work<K, V, A>(seats: &mut Vec<Seat<K, V, A>>, place: usize) -> Option<Work<K, V, A>>
    requires { place < length seats.old.items }
    ensures seat { (seat : Seat K V A) → slice_get seats.old.items place ≡ Some seat
        → (result ≡ seat.work) × (seats.new.items ≡ slice_set seats.old.items place
        (record seat { work = None })) }
{
    seats[place].work.take()
}

/// Puts work into a seat, or leaves it without any.
fn put_work<K: Drop, V: Drop, A: Drop>(
    seats: &mut Vec<Seat<K, V, A>>,
    place: usize,
    work: Option<Work<K, V, A>>,
)
    requires { place < length seats.old.items }
    ensures { (seat : Seat K V A) → slice_get seats.old.items place ≡ Some seat
        → seats.new.items ≡ slice_set seats.old.items place (record seat { work = work }) }
{
    seats[place].work = work;
}

impl<K, V, A> Callers<K, V, A> {
    /// Creates a list without callers.
    pub fn new(alloc: Global) -> Callers<K, V, A>
        ensures { result ≡ [] }
    {
        Callers {
            seats: Vec::new(alloc),
        }
    }

    /// Returns whether this caller is in a call.
    pub fn is_running(&self, caller: usize) -> bool
        ensures { result ≡ is_some (working self.now caller) }
    {
        match self.seats.get(place_of(&self.seats, caller)) {
            Some(seat) => seat.work.is_some(),
            None => false,
        }
    }

    /// Takes the call of a caller that is in one.
    pub fn take(&mut self, caller: usize) -> Work<K, V, A>
        requires { IsSome (working self.old caller) }
        ensures call { working self.old caller ≡ Some result }
        ensures taken { self.new ≡ with_work self.old caller None }
        ensures seat { IsSeated self.new caller }
    {
        let place = place_of(&self.seats, caller);
        match take_work(&mut self.seats, place) {
            Some(work) => work,
            None => unreachable!(),
        }
    }
}

impl<K: Drop, V: Drop, A: Drop> Callers<K, V, A> {
    /// Makes a seat for this caller, unless it has one.
    ///
    /// # Errors
    ///
    /// Fails with `Refused::Memory` if memory runs out.
    pub fn seat(&mut self, caller: usize) -> Result<(), Refused>
        ensures ok { OnOk result ((self.new ≡ with_seat self.old caller)
            × IsSeated self.new caller) }
        ensures err { IfErr result (λ e. (e ≡ Refused.Memory) × (self.new ≡ self.old)) }
    {
        if place_of(&self.seats, caller) < self.seats.len() {
            return Ok(());
        }
        add_seat(&mut self.seats, caller)?;
        Ok(())
    }

    /// Gives a caller that has a seat this call, or none.
    pub fn put(&mut self, caller: usize, work: Option<Work<K, V, A>>)
        requires { IsSeated self.old caller }
        ensures { self.new ≡ with_work self.old caller work }
    {
        let place = place_of(&self.seats, caller);
        put_work(&mut self.seats, place, work);
    }
}
