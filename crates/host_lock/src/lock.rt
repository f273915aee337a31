//! A ticket lock round a state that keeps a journal.
ghost use Rattle.std.specs.Prelude.{◌≡◌, ◌<◌, ◌∷◌, [], ℕ, List, Some, None, All, IfOk, length, map};
ghost use Rattle.std.specs.List.{range_with_len};
ghost use Rattle.host_events.specs.declared.journal.Entry.{Entry};
ghost use Rattle.host_lock.specs.Known.{IsPossible, HasHappened, IsHistory, new_seat};
ghost use Rattle.host_events.specs.Steps.{entry_of};
ghost use Rattle.host_lock.specs.Steps.{IsIdle, IsWaiting, MayPass, Takes};
ghost use Rattle.host_lock.specs.Steps.{draws, takes_out, puts_in, passes};

use crate::rule::{Desk, DeskSeat, Draw, Look, Pass};
use crate::seat::{LockSeat, hand_out, join_all};
use crate::view::Begun;
use atomic_table::Table;
use host_events::Kept;
use std::alloc::{AllocError, Global};
use std::marker::Model;
use std::snapshot::Snapshot;
use std::sync::Wait;
use std::thread;

/// A ticket lock round a state. Contracts see which lock it is, the state that it was made with,
/// and how many threads it has. It is shared by threads where the state may cross them.
#[derive(Drop)]
pub struct Lock<K: Kept> {
    table: Desk<K>,
}

impl<K: Kept> Model for Lock<K> {
    ghost use Rattle.std.specs.Prelude.{◌≡◌, ◌<◌};
    ghost use Rattle.host_lock.specs.Known.{LockId, lock_of};

    ghost Value = { LockId K };

    ghost view = { λ l. lock_of l.table.shared.table_id l.table.shared.key };

    ghost invariant = { λ l. (l.table.shared.table_id.words ≡ 2) × (l.table.shared.table_id.slots ≡ 1)
        × (0 < l.table.shared.key.threads) };
}

impl<K: Kept> Lock<K> {
    /// A lock round a state with an empty journal, and the seats of its threads, from thread 1 on,
    /// of which there is at least one. Where memory is short, the state is given up.
    pub fn new(
        alloc: Global,
        state: K,
        threads: u32,
    ) -> Result<(Lock<K>, Vec<LockSeat<K>>), AllocError>
        requires threads { 0 < threads }
        requires empty { K.journal state ≡ [] }
        ensures lock { IfOk result (λ made. (made.0.begun ≡ state) × (made.0.threads ≡ threads)) }
        ensures seats { IfOk result
            (λ made. made.1.items ≡ map (new_seat made.0) (range_with_len 1 threads)) }
    {
        state.keeps();
        let begun = Begun {
            state: Snapshot::of(&state),
            threads,
        };
        let mut slots = Vec::new(alloc);
        slots.push(Some(state))?;
        let Ok((table, first)) = Table::new(alloc, &[0, 0], slots, &begun) else {
            return Err(AllocError);
        };
        let seats = hand_out(alloc, &table.shared, threads, first)?;
        Ok((Lock { table }, seats))
    }

    /// Waits for the seat's turn, and steps the state in it. It takes no memory. Its condition is
    /// that the state takes the order after each journal that may be the lock's as far as the seat
    /// knows. The answer is the one that the state gives after one such journal, which the seat has
    /// then seen, with the new entry at its end.
    pub fn event<R: Wait>(&self, rt: &R, seat: &mut LockSeat<K>, order: K::Order) -> K::Answer
        requires own { seat.old.lock ≡ Some self.now }
        requires may { (journal : List Entry) →
            IsPossible K.fixed K.Allows self.now seat.old journal →
            K.Accepts (K.fixed self.now.begun) journal seat.old.thread order }
        ensures { (journal : List Entry)
            × HasHappened K.fixed K.Allows self.now seat.old journal
            (K.Order.event order) (K.Answer.reply result) seat.new
            × (K.Answer.code result ≡ K.code_of journal
            (entry_of seat.old.thread (K.Order.event order) (K.Answer.reply result))) }
    {
        let ticket = self.draw(&mut seat.seat);
        self.wait_turn(rt, &mut seat.seat, ticket);
        let mut state = self.take_out(&mut seat.seat);
        let answer = state.step(seat.thread, order);
        self.put_in(&mut seat.seat, state);
        self.pass_on(&mut seat.seat);
        answer
    }

    /// Ends the lock, with all its seats, in any order, and gives back the state, whose journal is
    /// the one history of these seats.
    pub fn close(self, mut seats: Vec<LockSeat<K>>) -> K
        requires own { All (λ seat. seat.lock ≡ Some self) seats.items }
        requires all { length seats.items ≡ self.threads }
        ensures fixed { K.fixed result ≡ K.fixed self.begun }
        ensures history { IsHistory seats.items (K.journal result) }
    {
        let Lock { table } = self;
        let first = seats.remove(0);
        let seat = join_all(&table.shared, first, seats);
        let mut closed = table.close_with(seat);
        let slot = closed.take(0);
        closed.free();
        match slot {
            Some(state) => state,
            None => unreachable!(),
        }
    }

    // Fetch_add on the ticket.
    fn draw(&self, seat: &mut DeskSeat<K>) -> u64
        requires own { seat.old.table_id ≡ self.now.table }
        requires idle { IsIdle seat.old.me }
        ensures own { (seat.new.table_id ≡ seat.old.table_id) × (seat.new.id ≡ seat.old.id) }
        ensures draws { draws seat.old.me result seat.new.me }
    {
        self.table.shared.fetch_add::<Draw>(seat, 0, 1)
    }

    // Loads of serving, until it is the ticket.
    fn wait_turn<R: Wait>(&self, rt: &R, seat: &mut DeskSeat<K>, ticket: u64)
        requires own { seat.old.table_id ≡ self.now.table }
        requires waits { IsWaiting ticket seat.old.me }
        ensures own { (seat.new.table_id ≡ seat.old.table_id) × (seat.new.id ≡ seat.old.id) }
        ensures takes { Takes K.journal K.fixed K.Allows seat.old.me seat.new.me }
    {
        for _ in rt.forever() {
            if self.table.shared.load::<Look>(seat, 1) == ticket {
                return;
            }
            thread::yield_now();
        }
        unreachable!()
    }

    // The exchange that takes the state out of the slot.
    fn take_out(&self, seat: &mut DeskSeat<K>) -> K
        requires own { seat.old.table_id ≡ self.now.table }
        requires holds { (state : K) × (seat.old.me.1 ≡ (0, Some state) ∷ []) }
        ensures own { (seat.new.table_id ≡ seat.old.table_id) × (seat.new.id ≡ seat.old.id) }
        ensures takes { takes_out result seat.old.me seat.new.me }
    {
        match self.table.shared.exchange(seat, 0, None) {
            Some(state) => state,
            None => unreachable!(),
        }
    }

    // The exchange that puts the state into the slot.
    fn put_in(&self, seat: &mut DeskSeat<K>, state: K)
        requires own { seat.old.table_id ≡ self.now.table }
        requires holds { seat.old.me.1 ≡ (0, None) ∷ [] }
        ensures own { (seat.new.table_id ≡ seat.old.table_id) × (seat.new.id ≡ seat.old.id) }
        ensures puts { puts_in state seat.old.me seat.new.me }
    {
        match self.table.shared.exchange(seat, 0, Some(state)) {
            Some(_) => unreachable!(),
            None => {}
        }
    }

    // Fetch_add on serving.
    fn pass_on(&self, seat: &mut DeskSeat<K>)
        requires own { seat.old.table_id ≡ self.now.table }
        requires may { MayPass K.journal K.fixed K.Allows seat.old.me }
        ensures own { (seat.new.table_id ≡ seat.old.table_id) × (seat.new.id ≡ seat.old.id) }
        ensures passes { passes K.journal seat.old.me seat.new.me }
    {
        self.table.shared.fetch_add::<Pass>(seat, 1, 1);
    }
}
