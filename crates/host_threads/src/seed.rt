//! The driver that takes turns by a schedule.
ghost use Rattle.std.specs.Prelude.{◌≡◌, ◌<◌, ◌≤◌, ◌+◌, ◌^◌, ◌++◌, ◌∷◌, if◌then◌else◌, ◌==◌, not};
ghost use Rattle.std.specs.Prelude.{ℕ, [], None, Some, length, map, IfOk};
ghost use Rattle.std.specs.List.{filter, slice_get};
ghost use Rattle.host_events.specs.declared.flow.Next.TheVariants.{End};
ghost use Rattle.host_events.specs.Flows.{Stand, stand_after, Gives};
ghost use Rattle.host_events.specs.Steps.{own_steps};
ghost use Rattle.host_threads.specs.Drive.{CanDrive};
ghost use Rattle.host_threads.specs.Seats.{asking, given};
ghost use Rattle.host_threads.specs.Turns.{IsSchedule, IsOfThreads, TakesTurns};

use crate::seat::{Seat, asks, take_turn};
use host_events::{Flow, Kept, Next};
use std::alloc::{AllocError, Global};

/// Runs the flows over the state, each as a thread, counted from 1 in their order, to their ends.
/// The threads take turns by the schedule, an event a turn: where u of them have a further event to
/// ask, it is the turn of the one at the place that is the turn's digit modulo u. The state and
/// each flow's end are given back. A flow that lacks memory leaves its operation, the others go on,
/// and the answer is `AllocError`.
pub fn run_by_seed<K, L>(
    alloc: Global,
    mut state: K,
    flows: Vec<L>,
    schedule: &[u8],
) -> Result<(K, Vec<L::End>), AllocError>
where
    K: Kept,
    L: Flow<Order = K::Order, Answer = K::Answer> + Drop,
    K::Order: Drop,
    K::Answer: Drop,
    L::End: Drop,
    requires some { 1 ≤ length flows.items }
    requires few { length flows.items < 2 ^ 32 }
    requires fresh { (i : ℕ) (flow : L) → slice_get flows.items i ≡ Some flow →
        (L.stand flow ≡ Stand.Fresh) × (L.trace flow ≡ []) }
    requires empty { K.journal state ≡ [] }
    requires schedule { IsSchedule schedule.now }
    requires drives { (i : ℕ) (flow : L) → slice_get flows.items i ≡ Some flow →
        CanDrive K.Order.event (K.Allows (K.fixed state)) (K.Accepts (K.fixed state)) K.code_of
        (L.Asks (L.plan flow)) (L.Leaves (L.plan flow)) (L.Takes (L.plan flow)) (i + 1) }
    ensures fixed { IfOk result (λ run. K.fixed run.0 ≡ K.fixed state) }
    ensures allowed { IfOk result (λ run. K.Allows (K.fixed state) (K.journal run.0)) }
    ensures threads { IfOk result (λ run. IsOfThreads (length flows.items) (K.journal run.0)) }
    ensures turns { IfOk result (λ run.
        TakesTurns (length flows.items) (K.journal run.0) schedule.now) }
    ensures one_end_each { IfOk result (λ run. length run.1.items ≡ length flows.items) }
    ensures ends { IfOk result (λ run. (i : ℕ) (flow : L) (end : L.End) →
        slice_get flows.items i ≡ Some flow → slice_get run.1.items i ≡ Some end →
        L.Ends (L.plan flow) (own_steps K.code_of (K.journal run.0) (i + 1)) end) }
{
    state.keeps();
    let mut seats = begin(alloc, flows)?;
    let mut waiting = waiting_threads(alloc, seats.as_slice())?;
    let mut turn = 0;
    while !waiting.is_empty() {
        let digit = (schedule[turn] - b'0') as usize;
        let thread = waiting[digit % waiting.len()];
        let seat = &mut seats[thread as usize - 1];
        take_turn(alloc, &mut state, thread, seat);
        if !asks(&seat.next) {
            remove(&mut waiting, thread);
        }
        turn = (turn + 1) % schedule.len();
    }
    let ends = ends_of(alloc, seats)?;
    Ok((state, ends))
}

/// Lets each flow go to its first event.
fn begin<L>(alloc: Global, flows: Vec<L>) -> Result<Vec<Seat<L, L::Order, L::End>>, AllocError>
where
    L: Flow + Drop,
    L::Order: Drop,
    L::Answer: Drop,
    L::End: Drop,
    requires { (i : ℕ) (flow : L) → slice_get flows.items i ≡ Some flow →
        (L.stand flow ≡ Stand.Fresh) × (L.trace flow ≡ []) }
    ensures count { IfOk result (λ seats. length seats.items ≡ length flows.items) }
    ensures begun { IfOk result (λ seats. (i : ℕ) (flow : L) (seat : Seat L L.Order L.End) →
        slice_get flows.items i ≡ Some flow → slice_get seats.items i ≡ Some seat →
        (L.plan seat.flow ≡ L.plan flow) × (L.trace seat.flow ≡ [])
        × (L.stand seat.flow ≡ stand_after seat.next)
        × Gives (L.Asks (L.plan flow) []) (L.Ends (L.plan flow) []) seat.next) }
{
    let mut seats = Vec::with_capacity(alloc, flows.len())?;
    for flow in flows {
        let mut flow = flow;
        let next = flow.resume(alloc, None);
        seats.push(Seat { flow, next })?;
    }
    Ok(seats)
}

/// The threads whose flows ask for an event, in rising order.
fn waiting_threads<L, O, E>(alloc: Global, seats: &[Seat<L, O, E>]) -> Result<Vec<u32>, AllocError>
    requires { length seats.now < 2 ^ 32 }
    ensures { IfOk result (λ threads. threads.items ≡ asking (given seats.now)) }
{
    let mut threads = Vec::with_capacity(alloc, seats.len())?;
    for (before, seat) in seats.iter().enumerate() {
        push_if(asks(&seat.next), before as u32 + 1, &mut threads)?;
    }
    Ok(threads)
}

/// The ends of the flows, in their order, unless one of them lacked memory.
fn ends_of<L, O, E>(alloc: Global, seats: Vec<Seat<L, O, E>>) -> Result<Vec<E>, AllocError>
where
    L: Drop,
    O: Drop,
    E: Drop,
    ensures { IfOk result (λ ends. given seats.items ≡ map End ends.items) }
{
    let mut ends = Vec::with_capacity(alloc, seats.len())?;
    for seat in seats {
        ends.push(end_of(seat)?)?;
    }
    Ok(ends)
}

/// The end of the flow, unless it lacked memory.
fn end_of<L, O, E>(seat: Seat<L, O, E>) -> Result<E, AllocError>
where
    L: Drop,
    O: Drop,
    E: Drop,
    ensures { IfOk result (λ end. seat.next ≡ End end) }
{
    let Seat { flow: _, next } = seat;
    match next {
        Next::End(end) => Ok(end),
        Next::Ask(_) | Next::OutOfMemory => Err(AllocError),
    }
}

/// Takes the number out of the list.
fn remove(numbers: &mut Vec<u32>, number: u32)
    ensures { numbers.new.items ≡ filter (λ other. not (other == number)) numbers.old.items }
{
    numbers.retain(|other| *other != number);
}

/// Puts the number at the end of the list where the test passes.
fn push_if(passes: bool, number: u32, numbers: &mut Vec<u32>) -> Result<(), AllocError>
    ensures { IfOk result (λ _. numbers.new.items
        ≡ numbers.old.items ++ (if passes then number ∷ [] else [])) }
{
    if passes {
        numbers.push(number)?;
    }
    Ok(())
}
