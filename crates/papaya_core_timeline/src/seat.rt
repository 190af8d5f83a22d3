//! A caller's seat.
use papaya_call::chain::resizer::Resizer;
use papaya_core_store::pairs::Running;
use papaya_core_store::scans::Scanning;

/// A call under way.
#[derive(Drop)]
pub enum Work<K, V, A> {
    /// A call on one key.
    Call(Running<K, V, A>),
    /// A call that resizes the map.
    Resize(Resizer),
    /// A call that scans a table.
    Scan(Scanning<A>),
}

/// A caller that has begun a call at some time, and the call that it has under way.
#[derive(Drop)]
pub struct Seat<K, V, A> {
    pub caller: usize,
    pub work: Option<Work<K, V, A>>,
}
