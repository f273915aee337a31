//! What a seat at the lock's table knows, for the proofs. Of these types only `Begun` has values.
use host_events::{Entry, Event, Listed, Reply};
use std::snapshot::Snapshot;

/// What a lock was made with: the state, as contracts see it, and how many threads it has.
#[derive(Drop)]
pub(crate) struct Begun<S> {
    pub(crate) state: Snapshot<S>,
    pub(crate) threads: u32,
}

/// A thread, with its own events and their replies.
pub(crate) struct Own {
    pub(crate) thread: u32,
    pub(crate) mine: Listed<(Event, Reply)>,
}

/// What a seat knows.
pub(crate) struct View<S> {
    /// What its lock was made with. A seat that was joined into another knows nothing.
    pub(crate) begun: Option<Begun<S>>,
    /// Its threads: one, until seats are joined.
    pub(crate) threads: Listed<Own>,
    /// A beginning of the counted journal.
    pub(crate) seen: Listed<Entry>,
    /// Beginnings of `seen`, which the seats that were joined had seen.
    pub(crate) known: Listed<Listed<Entry>>,
    /// Its ticket, if it has one.
    pub(crate) ticket: Option<u64>,
    /// In its turn, the journal of the state that it took.
    pub(crate) taken: Option<Listed<Entry>>,
    /// Of the seat that is split, how many threads were handed out.
    pub(crate) handed: Option<u32>,
}
