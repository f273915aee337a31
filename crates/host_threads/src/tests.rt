ghost use Rattle.std.specs.Prelude.{◌≡◌, ◌≤◌, ◌<◌, ℕ, IfOk, length};
ghost use Rattle.host_threads.specs.Turns.{IsSchedule, is_schedule};
ghost use Rattle.std.specs.List.{list_all};
ghost use Rattle.std.specs.Char.{is_ascii_digit};

use crate::fakes::{Counter, Counting};
use crate::{one_journal, run_by_seed};
use host_events::Entry;
use std::alloc::{AllocError, Global};
use std::test::Fail;

/// The state and the ends of a run of two flows that ask for so many events, and of one that asks
/// for none, or lacks memory after one.
fn run(
    alloc: Global,
    first: u32,
    second: u32,
    third: u32,
    schedule: &[u8],
) -> Result<(Counter, Vec<usize>), AllocError>
    requires first { first < 9 }
    requires second { second < 9 }
    requires third { third ≤ 1 }
    requires schedule { IsSchedule schedule.now }
{
    let flows = vec![in alloc;
        Counting::new(alloc, first, false)?,
        Counting::new(alloc, second, false)?,
        Counting::new(alloc, third, true)?,
    ]?;
    run_by_seed(alloc, Counter::new(alloc, 9)?, flows, schedule)
}

fn is_schedule(bytes: &[u8]) -> bool
    ensures { result ≡ is_schedule bytes.now }
{
    1 <= bytes.len() && bytes.len() <= 64 && are_digits(bytes)
}

fn are_digits(bytes: &[u8]) -> bool
    ensures { result ≡ list_all is_ascii_digit bytes.now }
{
    bytes.iter().all(|byte| byte.is_ascii_digit())
}

/// Whether the entries are of these threads, in this order.
fn are_of(entries: &[Entry], threads: &[u32]) -> bool {
    entries.len() == threads.len()
        && entries
            .iter()
            .zip(threads)
            .all(|(entry, thread)| entry.thread == *thread)
}

/// How many events two threads ask for, a schedule, and the threads of the turns.
struct Row {
    events: (u32, u32),
    schedule: &'static [u8],
    threads: &'static [u32],
}

const ROWS: [Row; 8] = [
    Row {
        events: (2, 1),
        schedule: b"0",
        threads: &[1, 1, 2],
    },
    Row {
        events: (2, 1),
        schedule: b"1",
        threads: &[2, 1, 1],
    },
    Row {
        events: (2, 2),
        schedule: b"01",
        threads: &[1, 2, 1, 2],
    },
    Row {
        events: (2, 2),
        schedule: b"011",
        threads: &[1, 2, 2, 1],
    },
    Row {
        events: (3, 2),
        schedule: b"7",
        threads: &[2, 2, 1, 1, 1],
    },
    Row {
        events: (2, 3),
        schedule: b"100",
        threads: &[2, 1, 1, 2, 2],
    },
    Row {
        events: (0, 2),
        schedule: b"9",
        threads: &[2, 2],
    },
    Row {
        events: (0, 0),
        schedule: b"5",
        threads: &[],
    },
];

#[test]
fn threads_take_turns(rt: HostRuntime) -> Result<(), Fail> {
    for row in &ROWS {
        let (first, second) = row.events;
        assert!(rt; first < 9 && second < 9 && is_schedule(row.schedule));
        let (state, ends) = run(rt.alloc(), first, second, 0, row.schedule)?;
        assert!(rt; are_of(state.entries(), row.threads));
        assert_eq!(rt;
            ends.as_slice(),
            [first as usize, second as usize, 0].as_slice()
        );
    }
    one_journal();
    Ok(())
}

#[test]
fn a_flow_lacks_memory(rt: HostRuntime) -> Result<(), Fail> {
    assert!(rt; is_schedule(b"2"));
    assert!(rt; run(rt.alloc(), 2, 1, 1, b"2").is_err());
    Ok(())
}
