//! A thread's place at a lock.
ghost use Rattle.std.specs.Prelude.{◌≡◌, ◌<◌, ◌∷◌, [], Some, IfOk, map, length, All};
ghost use Rattle.std.specs.List.{range_with_len};
ghost use Rattle.host_lock.specs.Views.{first_seat};
ghost use Rattle.host_lock.specs.Known.{new_seat, seat_view, lock_of, IsSeated, Gathers};

use crate::rule::{DeskSeat, HandOut, SharedDesk, TakeIn};
use host_events::Kept;
use std::alloc::{AllocError, Global};
use std::marker::Model;

/// A thread's place at a lock. Contracts see its lock, its thread, counted from 1, the journal that
/// it has seen, and its own events with their replies. It crosses threads where the state does.
#[derive(Drop)]
pub struct LockSeat<K> {
    pub(crate) seat: DeskSeat<K>,
    pub(crate) thread: u32,
}

impl<K> Model for LockSeat<K> {
    ghost use Rattle.host_lock.specs.Known.{SeatView, seat_view, IsSeated};

    ghost Value = { SeatView K };

    ghost view = { λ s. seat_view s.seat.table_id s.thread s.seat.me.0 };

    ghost invariant = { λ s. IsSeated s.thread s.seat.me };
}

// A seat with its thread.
fn seat_of<K>(seat: DeskSeat<K>, thread: u32) -> LockSeat<K>
    requires { IsSeated thread seat.me }
    ensures { result ≡ seat_view seat.table_id thread seat.me.0 }
{
    LockSeat { seat, thread }
}

// The seats of all threads, in their order: each but the first is split from the first.
pub(crate) fn hand_out<K: Kept>(
    alloc: Global,
    table: &SharedDesk<K>,
    threads: u32,
    mut first: DeskSeat<K>,
) -> Result<Vec<LockSeat<K>>, AllocError>
    requires own { (first.table_id ≡ table.now.table_id) × (0 < table.now.table_id.words) }
    requires first { first.me ≡ (first_seat table.now.key, []) }
    requires threads { (threads ≡ table.now.key.threads) × (0 < threads) }
    ensures { IfOk result (λ seats. seats.items ≡
        map (new_seat (lock_of table.entry.now.table_id table.entry.now.key))
        (range_with_len 1 threads)) }
{
    let mut seats = Vec::with_capacity(alloc, threads as usize)?;
    for thread in 1..threads {
        let seat = table.split_seat::<HandOut>(&mut first);
        seats.push(seat_of(seat, thread + 1))?;
    }
    seats.insert(0, seat_of(first, 1))?;
    Ok(seats)
}

// Joins every other seat into the first, one after another.
pub(crate) fn join_all<K: Kept>(
    table: &SharedDesk<K>,
    first: LockSeat<K>,
    others: Vec<LockSeat<K>>,
) -> DeskSeat<K>
    requires own { (first.lock ≡ Some (lock_of table.now.table_id table.now.key))
        × All (λ seat. seat.lock ≡ Some (lock_of table.now.table_id table.now.key)) others.items }
    requires words { 0 < table.now.table_id.words }
    ensures own { result.table_id ≡ table.entry.now.table_id }
    ensures gathers { Gathers (first ∷ others.items) result.me.0 }
{
    let LockSeat {
        seat: mut taker,
        ..
    } = first;
    for other in others {
        let LockSeat { seat, .. } = other;
        table.join_seat::<TakeIn>(&mut taker, seat);
    }
    taker
}
