//! What asks for one event after another.
ghost use Rattle.std.specs.Prelude.{ℕ, ◌≡◌, List, [], Option, None, Some};
ghost use Rattle.host_events.specs.declared.flow.Due.{Due};
ghost use Rattle.host_events.specs.declared.order.CodeOf.{CodeOf};
ghost use Rattle.host_events.specs.declared.reply.Reply.{Reply};
ghost use Rattle.host_events.specs.Flows.{Stand, IsResumable, trace_after, stand_after, Gives, Owes};
ghost use Rattle.host_events.specs.Steps.{Step};

use crate::order::{HasEvent, HasReply};
use std::alloc::Global;

/// What a flow does next.
#[derive(Debug, Drop)]
pub enum Next<O, E> {
    /// It asks for an event, and waits for the answer.
    Ask(O),
    /// It has ended.
    End(E),
    /// It lacks memory, and goes no further.
    OutOfMemory,
}

/// What the event is that a flow asked for.
#[derive(Clone, Copy, Debug, PartialEq, Eq)]
pub enum Due {
    /// Neither of these.
    Plain,
    /// The first of the thread's command of this number, counted from 1.
    Command(u32),
    /// The first `Publish` of a bind.
    Publish,
}

/// A thread's work, which stops at each event that it asks for and is resumed with the answer.
pub trait Flow {
    type Order: HasEvent;

    type Answer: HasReply;

    type End;

    /// What the flow was made to do, which nothing changes.
    ghost Plan: { Type 0 };

    ghost plan: { Self → Plan };

    /// The steps so far.
    ghost trace: { Self → List Step };

    /// The orders that it may ask after a trace.
    ghost Asks: { Plan → List Step → Self.Order → Type 0 };

    /// The answers that it takes to an order after a trace.
    ghost Takes: { Plan → List Step → Self.Order → Reply → Option CodeOf → Type 0 };

    /// What an ended trace and the end have to do with each other.
    ghost Ends: { Plan → List Step → Self.End → Type 0 };

    /// The orders by which it leaves its open operation after a trace.
    ghost Leaves: { Plan → List Step → Self.Order → Type 0 };

    ghost stand: { Self → Stand Self.Order };

    /// What the event is that a flow with such a trace and stand asked for last.
    ghost due_of: { Plan → List Step → Stand Self.Order → Due };

    /// Goes on to the next event or to the end: at first with no answer, later with one to what was
    /// asked last. After an end it isn't resumed, nor after it lacked memory.
    fn resume(&mut self, alloc: Global, last: Option<Self::Answer>) -> Next<Self::Order, Self::End>
        requires { IsResumable (Takes (plan self.old) (trace self.old)) Self.Answer.reply Self.Answer.code
            (stand self.old) last }
        ensures plan { plan self.new ≡ plan self.old }
        ensures trace { trace self.new ≡ trace_after Self.Order.event Self.Answer.reply Self.Answer.code
            (trace self.old) (stand self.old) last }
        ensures stand { stand self.new ≡ stand_after result }
        ensures gives { Gives (Asks (plan self.new) (trace self.new))
            (Ends (plan self.new) (trace self.new)) result };

    /// The order of the `Leave` of the open operation, which is still due after want of memory. It
    /// takes no memory; `None` exactly where no operation is open.
    fn owed(&self, alloc: Global) -> Option<Self::Order>
        ensures { Owes Self.Order.event (Leaves (plan self.now) (trace self.now)) (trace self.now) result };

    /// What the event is that was asked for last.
    fn due(&self) -> Due
        ensures { result ≡ due_of (plan self.now) (trace self.now) (stand self.now) };
}
