//! One thread's flow, and its turns.
ghost use Rattle.std.specs.Prelude.{◌≡◌, ◌≢◌, ◌<◌, ◌≤◌, ◌++◌, ◌∷◌, [], ℕ, None, length, IsTrue};
ghost use Rattle.host_events.specs.declared.journal.Entry.{Entry};
ghost use Rattle.host_events.specs.Flows.{Stand, stand_after, Gives};
ghost use Rattle.host_events.specs.Steps.{own_steps};
ghost use Rattle.host_threads.specs.Drive.{CanDrive, Suits};
ghost use Rattle.host_threads.specs.Seats.{asks, IfGoesOn};

use host_events::{Flow, Kept, Next};
use std::alloc::Global;
use std::mem;

/// A thread's flow, and what it gave last.
#[derive(Drop)]
pub(crate) struct Seat<L, O, E> {
    pub flow: L,
    pub next: Next<O, E>,
}

/// Whether the flow asks for an event.
pub(crate) fn asks<O, E>(next: &Next<O, E>) -> bool
    ensures { result ≡ asks next.now }
{
    matches!(next, Next::Ask(_))
}

/// Gives the thread a turn: asks for the event that its flow waits for, and hands the answer to the
/// flow. A flow that lacks memory then leaves its operation.
pub(crate) fn take_turn<K, L>(
    alloc: Global,
    state: &mut K,
    thread: u32,
    seat: &mut Seat<L, K::Order, L::End>,
)
where
    K: Kept,
    L: Flow<Order = K::Order, Answer = K::Answer>,
    K::Order: Drop,
    K::Answer: Drop,
    L::End: Drop,
    requires drives { CanDrive K.Order.event (K.Allows (K.fixed state.old))
        (K.Accepts (K.fixed state.old)) K.code_of (L.Asks (L.plan seat.old.flow))
        (L.Leaves (L.plan seat.old.flow)) (L.Takes (L.plan seat.old.flow)) thread }
    requires suits { Suits (K.Allows (K.fixed state.old)) K.code_of thread
        (L.trace seat.old.flow) (K.journal state.old) }
    requires stand { L.stand seat.old.flow ≡ stand_after seat.old.next }
    requires gives { Gives (L.Asks (L.plan seat.old.flow) (L.trace seat.old.flow))
        (L.Ends (L.plan seat.old.flow) (L.trace seat.old.flow)) seat.old.next }
    requires asked { IsTrue (asks seat.old.next) }
    ensures fixed { K.fixed state.new ≡ K.fixed state.old }
    ensures plan { L.plan seat.new.flow ≡ L.plan seat.old.flow }
    ensures allowed { K.Allows (K.fixed state.new) (K.journal state.new) }
    ensures own { IfGoesOn seat.new.next (own_steps K.code_of (K.journal state.new) thread
        ≡ L.trace seat.new.flow) }
    ensures entry { IfGoesOn seat.new.next ((entry : Entry) × (entry.thread ≡ thread)
        × (K.journal state.new ≡ K.journal state.old ++ entry ∷ [])) }
    ensures others { (other : ℕ) → thread ≢ other → own_steps K.code_of (K.journal state.new) other
        ≡ own_steps K.code_of (K.journal state.old) other }
    ensures longer { length (K.journal state.old) < length (K.journal state.new) }
    ensures stand { L.stand seat.new.flow ≡ stand_after seat.new.next }
    ensures gives { Gives (L.Asks (L.plan seat.new.flow) (L.trace seat.new.flow))
        (L.Ends (L.plan seat.new.flow) (L.trace seat.new.flow)) seat.new.next }
{
    let Next::Ask(order) = mem::replace(&mut seat.next, Next::OutOfMemory) else {
        unreachable!()
    };
    seat.next = ask(alloc, state, thread, &mut seat.flow, order);
    if let Next::OutOfMemory = seat.next {
        leave(alloc, state, thread, &seat.flow);
    }
}

/// Asks the state for the event of the order, and hands the answer to the flow.
fn ask<K, L>(
    alloc: Global,
    state: &mut K,
    thread: u32,
    flow: &mut L,
    order: K::Order,
) -> Next<K::Order, L::End>
where
    K: Kept,
    L: Flow<Order = K::Order, Answer = K::Answer>,
    requires drives { CanDrive K.Order.event (K.Allows (K.fixed state.old))
        (K.Accepts (K.fixed state.old)) K.code_of (L.Asks (L.plan flow.old))
        (L.Leaves (L.plan flow.old)) (L.Takes (L.plan flow.old)) thread }
    requires suits { Suits (K.Allows (K.fixed state.old)) K.code_of thread (L.trace flow.old)
        (K.journal state.old) }
    requires waits { L.stand flow.old ≡ Stand.Waiting order }
    requires asked { L.Asks (L.plan flow.old) (L.trace flow.old) order }
    ensures fixed { K.fixed state.new ≡ K.fixed state.old }
    ensures plan { L.plan flow.new ≡ L.plan flow.old }
    ensures suits { Suits (K.Allows (K.fixed state.new)) K.code_of thread (L.trace flow.new)
        (K.journal state.new) }
    ensures entry { (entry : Entry) × (entry.thread ≡ thread)
        × (K.journal state.new ≡ K.journal state.old ++ entry ∷ []) }
    ensures others { (other : ℕ) → thread ≢ other → own_steps K.code_of (K.journal state.new) other
        ≡ own_steps K.code_of (K.journal state.old) other }
    ensures stand { L.stand flow.new ≡ stand_after result }
    ensures gives { Gives (L.Asks (L.plan flow.new) (L.trace flow.new))
        (L.Ends (L.plan flow.new) (L.trace flow.new)) result }
{
    let answer = state.step(thread, order);
    flow.resume(alloc, Some(answer))
}

/// Asks the state for the `Leave` of the operation that the flow has open, if it has one.
fn leave<K, L>(alloc: Global, state: &mut K, thread: u32, flow: &L)
where
    K: Kept,
    L: Flow<Order = K::Order, Answer = K::Answer>,
    K::Answer: Drop,
    requires drives { CanDrive K.Order.event (K.Allows (K.fixed state.old))
        (K.Accepts (K.fixed state.old)) K.code_of (L.Asks (L.plan flow.now))
        (L.Leaves (L.plan flow.now)) (L.Takes (L.plan flow.now)) thread }
    requires suits { Suits (K.Allows (K.fixed state.old)) K.code_of thread (L.trace flow.now)
        (K.journal state.old) }
    ensures fixed { K.fixed state.new ≡ K.fixed state.old }
    ensures allowed { K.Allows (K.fixed state.new) (K.journal state.new) }
    ensures others { (other : ℕ) → thread ≢ other → own_steps K.code_of (K.journal state.new) other
        ≡ own_steps K.code_of (K.journal state.old) other }
    ensures longer { length (K.journal state.old) ≤ length (K.journal state.new) }
{
    if let Some(order) = flow.owed(alloc) {
        let _ = state.step(thread, order);
    }
}
