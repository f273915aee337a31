ghost use Rattle.std.specs.Prelude.{◌≡◌, ◌+◌, ◌<◌, ◌≤◌, ◌^◌, [], Some, length};
ghost use Rattle.host_lock.specs.Tallies.{share_of};

use crate::{Lock, LockSeat};
use host_events::{Answer, Entry, Reply};
use std::sync::Wait;
use std::test::Fail;
use std::thread;

mod tallies;

use tallies::{Count, Tally, Tick};

fn number(answer: Answer) -> u32 {
    match answer.reply {
        Reply::Made(number) => number,
        _ => 0,
    }
}

// Counts one more, and answers its number.
fn count<R: Wait>(rt: &R, lock: &Lock<Count>, seat: &mut LockSeat<Count>) -> u32
    requires { (seat.old.lock ≡ Some lock.now) × (seat.old.thread ≡ 1)
        × (length seat.old.mine < 2) }
    ensures { (seat.new.lock ≡ seat.old.lock) × (seat.new.thread ≡ 1)
        × (length seat.new.mine ≡ length seat.old.mine + 1) }
{
    number(lock.event(rt, seat, Tick))
}

#[test]
fn one_seat_counts(rt: HostRuntime) -> Result<(), Fail> {
    let (lock, mut seats) = Lock::new(rt.alloc(), Count { made: 0 }, 1)?;
    assert!(rt; seats.len() == 1);
    let mut seat = seats.remove(0);
    assert!(rt; count(&rt, &lock, &mut seat) == 1);
    assert!(rt; count(&rt, &lock, &mut seat) == 2);
    let seats = vec![in rt.alloc(); seat]?;
    assert!(rt; lock.close(seats).made == 2);
    Ok(())
}

// Makes a hundred entries within the thread's share, and answers their numbers.
fn hundred<R: Wait>(
    rt: &R,
    lock: &Lock<Tally>,
    mut seat: LockSeat<Tally>,
) -> (LockSeat<Tally>, [u32; 100])
    requires own { (seat.lock ≡ Some lock.now) × (seat.mine ≡ []) }
    requires share { 100 ≤ share_of lock.now.begun.shares seat.thread }
    ensures { result.0.lock ≡ Some lock.entry.now }
{
    let mut numbers = [0; 100];
    for i in 0..100 {
        numbers[i] = number(lock.event(rt, &mut seat, Tick));
    }
    (seat, numbers)
}

fn entries_of(entries: &[Entry], thread: u32) -> usize {
    entries
        .iter()
        .filter(|entry| entry.thread == thread)
        .count()
}

#[test]
fn two_threads_have_one_history(rt: HostRuntime) -> Result<(), Fail> {
    let state = Tally::new(rt.alloc(), 100, 100)?;
    let (lock, mut seats) = Lock::new(rt.alloc(), state, 2)?;
    let second = seats.remove(1);
    let first = seats.remove(0);
    let shared = &lock;
    let (first, second) = thread::join(
        &rt,
        || hundred(&rt, shared, first),
        || hundred(&rt, shared, second),
    );
    assert!(rt; first.1.is_sorted() && second.1.is_sorted());
    let seats = vec![in rt.alloc(); second.0, first.0]?;
    let state = lock.close(seats);
    let entries = state.entries();
    assert!(rt; entries.len() == 200);
    assert!(rt; entries_of(entries, 1) == 100 && entries_of(entries, 2) == 100);
    Ok(())
}
