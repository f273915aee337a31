//! Two small states under a journal.
ghost use Rattle.std.specs.Prelude.{◌≡◌, ◌+◌, ◌<◌, ◌^◌, [], IfOk, None};
ghost use Rattle.host_events.specs.declared.reply.Reply.TheVariants.{Made};

use host_events::{Answer, Entry, Event, HasEvent, Kept, Reply};
use std::alloc::{AllocError, Global};
use std::marker::Model;

/// Asks for one more.
#[derive(Drop)]
pub(super) struct Tick;

impl HasEvent for Tick {
    ghost use Rattle.host_events.specs.declared.event.Event.TheVariants.{Collect};

    ghost event = { λ _. Collect };
}

fn made(number: u32) -> Answer
    ensures { result ≡ record { reply = Made number; code = None } }
{
    Answer {
        reply: Reply::Made(number),
        code: None,
    }
}

/// Counts the events of thread 1.
#[derive(Drop)]
pub(super) struct Count {
    pub(super) made: u32,
}

impl Kept for Count {
    ghost use Rattle.std.specs.Prelude.{None};
    ghost use Rattle.host_lock.specs.Tallies.{ticks, IsCounted, MayCount};

    type Order = Tick;

    type Answer = Answer;

    ghost Fixed = { Unit {0} };

    ghost fixed = { λ count. tt };

    ghost journal = { λ count. ticks count.made };

    ghost Allows = { λ part entries. IsCounted entries };

    ghost Accepts = { λ part entries thread order. MayCount entries thread };

    ghost code_of = { λ before entry. None };

    ghost few = { λ part entries counted. counted.1 };

    fn keeps(&self) {
        let _made = self.made;
    }

    fn step(&mut self, _thread: u32, _order: Tick) -> Answer {
        self.made += 1;
        made(self.made)
    }
}

/// Lists the events of threads 1 and 2, of which each may make its share.
#[derive(Drop)]
pub(super) struct Tally {
    entries: Vec<Entry>,
    first: u32,
    second: u32,
}

impl Model for Tally {
    ghost use Rattle.std.specs.Prelude.{◌+◌, ◌≤◌};
    ghost use Rattle.std.specs.Vec.{vec_capacity};
    ghost use Rattle.host_lock.specs.Tallies.{Tallied, IsTallied};

    ghost Value = { Tallied };

    ghost view = { λ t. record { shares = (t.first, t.second); entries = t.entries.items } };

    ghost invariant = { λ t. IsTallied (t.first, t.second) t.entries.items
        × (t.first + t.second ≤ vec_capacity t.entries) };
}

impl Tally {
    /// A state without entries.
    pub(super) fn new(alloc: Global, first: u32, second: u32) -> Result<Tally, AllocError>
        requires { first + second < 2 ^ 32 }
        ensures { IfOk result (λ t. t ≡ record { shares = (first, second); entries = [] }) }
    {
        Ok(Tally {
            entries: Vec::with_capacity(alloc, (first + second) as usize)?,
            first,
            second,
        })
    }

    /// The entries, the oldest first.
    pub(super) fn entries(&self) -> &[Entry]
        ensures { result.now ≡ self.now.entries }
    {
        self.entries.as_slice()
    }
}

impl Kept for Tally {
    ghost use Rattle.std.specs.Prelude.{None, ℕ};
    ghost use Rattle.host_lock.specs.Tallies.{IsTallied, MayTick};

    type Order = Tick;

    type Answer = Answer;

    ghost Fixed = { ℕ × ℕ };

    ghost fixed = { λ t. t.shares };

    ghost journal = { λ t. t.entries };

    ghost Allows = { IsTallied };

    ghost Accepts = { λ part entries thread order. MayTick part entries thread };

    ghost code_of = { λ before entry. None };

    ghost few = { λ part entries tallied. tallied.short };

    fn keeps(&self) {
        let _ = &self.first;
    }

    fn step(&mut self, thread: u32, _order: Tick) -> Answer {
        let number = self.entries.len() as u32 + 1;
        let entry = Entry {
            thread,
            event: Event::Collect,
            reply: Reply::Made(number),
        };
        self.entries.push(entry).unwrap();
        made(number)
    }
}
