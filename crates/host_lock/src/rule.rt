//! The rule of the lock's table, and what each kind of step on it tells and changes.
use crate::view::{Begun, View};
use atomic_table::{Join, Play, Seat, Shared, Split, Table, TableRule};
use host_events::Kept;
use std::alloc::Global;
use std::marker::PhantomData;

/// The lock's table: word 0 is the ticket, word 1 is serving, and slot 0 holds the state.
pub(crate) type Desk<K> = Table<Option<K>, View<K>, Begun<K>, OneHistory<K>, Global>;

/// The table as seats step on it.
pub(crate) type SharedDesk<K> = Shared<Option<K>, View<K>, Begun<K>, OneHistory<K>>;

/// A seat at the table.
pub(crate) type DeskSeat<K> = Seat<Option<K>, View<K>>;

/// The rule that the events of all threads have one history.
pub(crate) struct OneHistory<K> {
    of: PhantomData<K>,
}

impl<K: Kept> TableRule<Option<K>, View<K>, Begun<K>> for OneHistory<K> {
    ghost use Rattle.host_lock.specs.Rule.{IsOneHistory};
    ghost use Rattle.host_lock.specs.Views.{first_seat};

    ghost holds = { IsOneHistory K.journal K.fixed K.Allows };

    ghost first = { first_seat };
}

/// Split of a seat.
pub(crate) struct HandOut;

impl<S> Split<View<S>> for HandOut {
    ghost use Rattle.host_lock.specs.Views.{with_one_more, next_seat};

    ghost left = { with_one_more };

    ghost right = { next_seat };
}

/// Fetch_add on the ticket.
pub(crate) struct Draw;

impl<S> Play<Option<S>, View<S>> for Draw {
    ghost use Rattle.host_lock.specs.Steps.{draws};

    ghost then = { λ _ m found after. draws m found after };
}

/// Load of serving.
pub(crate) struct Look;

impl<K: Kept> Play<Option<K>, View<K>> for Look {
    ghost use Rattle.host_lock.specs.Steps.{looks};

    ghost then = { λ _ m found after. looks K.journal K.fixed K.Allows m found after };
}

/// Fetch_add on serving.
pub(crate) struct Pass;

impl<K: Kept> Play<Option<K>, View<K>> for Pass {
    ghost use Rattle.host_lock.specs.Steps.{passes};

    ghost then = { λ _ m _ after. passes K.journal m after };
}

/// Join of a seat.
pub(crate) struct TakeIn;

impl<S> Join<View<S>> for TakeIn {
    ghost use Rattle.host_lock.specs.Views.{joined, spent};

    ghost both = { joined };

    ghost spent = { spent };
}
