//! A state and flows to try the drivers with.
ghost use Rattle.std.specs.Prelude.{◌≡◌, ◌≤◌, ◌<◌, ◌^◌, ℕ, Bool, List, [], IfOk, length};
ghost use Rattle.host_events.specs.declared.journal.Entry.{Entry};
ghost use Rattle.host_threads.specs.Counted.{counted_reply, numbered_reply};

use host_events::{Answer, Due, Entry, Event, Flow, HasEvent, Kept, Next, Reply};
use std::alloc::{AllocError, Global};
use std::marker::Model;

/// An event that is asked for.
#[derive(Drop)]
pub struct Asked {
    pub event: Event,
}

impl HasEvent for Asked {
    ghost event = { λ asked. asked.event };
}

/// The journal of three threads, each of which has the same share of entries.
#[derive(Drop)]
pub struct Counter {
    entries: Vec<Entry>,
    share: u32,
}

impl Model for Counter {
    ghost use Rattle.std.specs.Prelude.{ℕ, List, ◌≤◌, ◌*◌};
    ghost use Rattle.std.specs.Vec.{vec_capacity};
    ghost use Rattle.host_events.specs.declared.journal.Entry.{Entry};
    ghost use Rattle.host_threads.specs.Counted.{IsCounted};

    ghost Value = { ℕ × List Entry };

    ghost view = { λ counter. (counter.share, counter.entries.items) };

    ghost invariant = { λ counter. IsCounted counter.share counter.entries.items
        × (3 * counter.share ≤ vec_capacity counter.entries) };
}

impl Counter {
    pub fn new(alloc: Global, share: u32) -> Result<Counter, AllocError>
        requires { share ≤ 100 }
        ensures { IfOk result (λ counter. counter ≡ (share, [])) }
    {
        let entries = Vec::with_capacity(alloc, 3 * share as usize)?;
        Ok(Counter { entries, share })
    }

    pub fn entries(&self) -> &[Entry]
        ensures { result.now ≡ self.now.1 }
    {
        self.entries.as_slice()
    }
}

/// The reply to a thread's event after so many entries.
fn reply_of(count: usize, thread: u32, event: &Event) -> Reply
    requires { count < 2 ^ 32 }
    ensures { (before : List Entry) → length before ≡ count →
        result ≡ counted_reply before thread event.now }
{
    match (thread, event) {
        (3, Event::Leave { operation: 7 }) => Reply::Left,
        (3, _) => Reply::Entered(7, 0),
        _ => Reply::Made(count as u32),
    }
}

impl Kept for Counter {
    ghost use Rattle.std.specs.Prelude.{ℕ, None};
    ghost use Rattle.host_threads.specs.Counted.{IsCounted, MayCount, few_counted};

    type Order = Asked;

    type Answer = Answer;

    ghost Fixed = { ℕ };

    ghost fixed = { λ counter. counter.0 };

    ghost journal = { λ counter. counter.1 };

    ghost Allows = { IsCounted };

    ghost Accepts = { λ share journal thread order. MayCount share journal thread };

    ghost code_of = { λ journal entry. None };

    ghost few = { few_counted };

    fn keeps(&self) {
        let _share = self.share;
    }

    fn step(&mut self, thread: u32, order: Asked) -> Answer {
        let Asked { event } = order;
        let count = self.entries.len();
        let reply = reply_of(count, thread, &event);
        let again = reply_of(count, thread, &event);
        self.entries
            .push(Entry {
                thread,
                event,
                reply,
            })
            .unwrap();
        Answer {
            reply: again,
            code: None,
        }
    }
}

/// How far a flow is.
#[derive(Clone, Copy, PartialEq, Eq)]
enum At {
    Fresh,
    Waits,
    Ended,
    Failed,
}

/// A flow that asks for so many events, and ends with the count of the answers. One that
/// fails begins an operation by its one event, and then lacks memory.
#[derive(Drop)]
pub struct Counting {
    events: u32,
    fails: bool,
    numbers: Vec<u32>,
    at: At,
}

impl Model for Counting {
    ghost use Rattle.std.specs.Prelude.{ℕ, Bool, true, List, ◌≡◌, ◌≤◌, ◌<◌, length};
    ghost use Rattle.std.specs.Vec.{vec_capacity};
    ghost use Rattle.host_threads.specs.declared.fakes.At.{At};
    ghost use Rattle.host_threads.specs.declared.fakes.At.TheVariants as places;

    ghost Value = { ℕ × Bool × List ℕ × At };

    ghost view = { λ flow. (flow.events, flow.fails, flow.numbers.items, flow.at) };

    ghost invariant = { λ flow. (flow.events ≤ vec_capacity flow.numbers)
        × (length flow.numbers.items ≤ flow.events)
        × (flow.at ≡ places.Waits → length flow.numbers.items < flow.events)
        × (flow.fails ≡ true → flow.events ≤ 1) };
}

impl Counting {
    ghost use Rattle.std.specs.Prelude.{true};
    ghost use Rattle.host_threads.specs.declared.fakes.At.TheVariants as places;

    pub fn new(alloc: Global, events: u32, fails: bool) -> Result<Counting, AllocError>
        requires { fails ≡ true → events ≤ 1 }
        ensures { IfOk result (λ flow. flow ≡ (events, fails, [], places.Fresh)) }
    {
        Ok(Counting {
            events,
            fails,
            numbers: Vec::with_capacity(alloc, events as usize)?,
            at: At::Fresh,
        })
    }
}

/// The number in a reply that has one.
fn number_of(reply: &Reply) -> u32
    ensures { (enters : Bool) (n : ℕ) → reply.now ≡ numbered_reply enters n → result ≡ n }
{
    match reply {
        Reply::Made(number) | Reply::Entered(number, _) => *number,
        _ => 0,
    }
}

impl Flow for Counting {
    ghost use Rattle.std.specs.Prelude.{ℕ, Bool, List, Option, None, ◌≡◌, ◌≤◌, ◌<◌, length};
    ghost use Rattle.host_events.specs.declared.event.Event.TheVariants as events;
    ghost use Rattle.host_events.specs.declared.flow.Due.TheVariants as dues;
    ghost use Rattle.host_events.specs.Flows.{Stand, IsResumable, trace_after, stand_after, Gives};
    ghost use Rattle.host_threads.specs.declared.fakes.At.TheVariants as places;
    ghost use Rattle.host_threads.specs.declared.fakes.Asked.{Asked};
    ghost use Rattle.host_events.specs.declared.order.Answer.{Answer};
    ghost use Rattle.host_threads.specs.Counted.{counted_steps, numbered_reply};

    type Order = Asked;

    type Answer = Answer;

    type End = usize;

    ghost Plan = { ℕ × Bool };

    ghost plan = { λ flow. (flow.0, flow.1) };

    ghost trace = { λ flow. counted_steps flow.1 flow.2 };

    ghost Asks = { λ plan trace order. (order.event ≡ events.Collect) × (length trace < plan.0) };

    ghost Takes = { λ plan trace order reply code.
        (n : ℕ) × (reply ≡ numbered_reply plan.1 n) × (code ≡ None) };

    ghost Ends = { λ plan trace end. length trace ≡ plan.0 };

    ghost Leaves = { λ plan trace order. length trace ≤ plan.0 };

    ghost stand = { λ flow. elim flow.3 [
      | places.Fresh ↦ Stand.Fresh
      | places.Waits ↦ Stand.Waiting (record { event = events.Collect })
      | places.Ended ↦ Stand.Ended
      | places.Failed ↦ Stand.WithoutMemory
    ] };

    ghost due_of = { λ plan trace stand. dues.Plain };

    fn resume(&mut self, _alloc: Global, last: Option<Answer>) -> Next<Asked, usize>
        requires { IsResumable
            (⟦<Counting as Flow>⟧.Takes (⟦<Counting as Flow>⟧.plan self.old)
            (⟦<Counting as Flow>⟧.trace self.old))
            (λ (a : Answer). a.reply) (λ (a : Answer). a.code)
            (⟦<Counting as Flow>⟧.stand self.old) last }
        ensures plan { ⟦<Counting as Flow>⟧.plan self.new ≡ ⟦<Counting as Flow>⟧.plan self.old }
        ensures trace { ⟦<Counting as Flow>⟧.trace self.new ≡ trace_after (λ (a : Asked). a.event)
            (λ (a : Answer). a.reply) (λ (a : Answer). a.code)
            (⟦<Counting as Flow>⟧.trace self.old) (⟦<Counting as Flow>⟧.stand self.old) last }
        ensures stand { ⟦<Counting as Flow>⟧.stand self.new ≡ stand_after result }
        ensures gives { Gives
            (⟦<Counting as Flow>⟧.Asks (⟦<Counting as Flow>⟧.plan self.new)
            (⟦<Counting as Flow>⟧.trace self.new))
            (⟦<Counting as Flow>⟧.Ends (⟦<Counting as Flow>⟧.plan self.new)
            (⟦<Counting as Flow>⟧.trace self.new))
            result }
    {
        if let Some(answer) = last {
            self.numbers.push(number_of(&answer.reply)).unwrap();
            if self.fails {
                self.at = At::Failed;
                return Next::OutOfMemory;
            }
        }
        if self.numbers.len() < self.events as usize {
            self.at = At::Waits;
            let event = Event::Collect;
            return Next::Ask(Asked { event });
        }
        self.at = At::Ended;
        Next::End(self.numbers.len())
    }

    fn owed(&self, _alloc: Global) -> Option<Asked> {
        if !self.fails {
            return None;
        }
        let operation = *self.numbers.first()?;
        let event = Event::Leave { operation };
        Some(Asked { event })
    }

    fn due(&self) -> Due {
        Due::Plain
    }
}
