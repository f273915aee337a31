//! The flow of a thread.
ghost use Rattle.std.specs.Prelude.{◌≡◌, ◌<◌, ◌^◌, true, IfOk, All, length};
ghost use Rattle.std.specs.Arc.{arc_value};
ghost use Rattle.command_flow.specs.Events.{is_built};

use crate::run::Run;
use bind_flow::{ImageCode, Images};
use host_events::{Answer, Due, End, Flow, Next, Order};
use host_script::Command;
use std::alloc::{AllocError, Global};
use std::marker::Model;
use std::sync::Arc;

/// The flow of a thread's commands: it asks for the events of each, one after the other, and ends
/// with how each ended.
#[derive(Drop)]
pub struct ThreadFlow {
    run: Run,
}

impl Model for ThreadFlow {
    ghost use Rattle.command_flow.specs.Flow.{Thread};
    ghost use Rattle.command_flow.specs.State.{stand_at};

    ghost Value = { Thread };

    ghost view = { λ flow. record {
      plan = flow.run.plan;
      trace = flow.run.trace;
      stand = stand_at flow.run.at;
    } };
}

impl ThreadFlow {
    ghost use Rattle.command_flow.specs.Flow.{HasImage, fresh};

    /// A flow that was not yet resumed. Its commands are built, and the images that they name are
    /// among these.
    pub fn new(
        alloc: Global,
        commands: Vec<Command>,
        images: Arc<Images>,
    ) -> Result<ThreadFlow, AllocError>
        requires few { length commands.items < 2 ^ 32 }
        requires built { All (λ command. is_built command ≡ true) commands.items }
        requires images { All (HasImage (arc_value images)) commands.items }
        ensures { IfOk result
            (λ flow. flow ≡ fresh (record { commands = commands.items; images = arc_value images })) }
    {
        let run = Run::new(alloc, commands, images)?;
        Ok(ThreadFlow { run })
    }
}

impl Flow for ThreadFlow {
    ghost use Rattle.std.specs.Prelude.{List, ◌≡◌};
    ghost use Rattle.host_events.specs.declared.order.Answer.{Answer};
    ghost use Rattle.host_events.specs.declared.order.Order.{Order};
    ghost use Rattle.host_events.specs.Flows.{IsResumable, trace_after, stand_after, Gives};
    ghost use Rattle.bind_flow.specs.declared.images.ImageCode.{ImageCode};
    ghost use Rattle.bind_flow.specs.Flow.{CanCome};
    ghost use Rattle.command_flow.specs.Flow.{IsAsked, IsEnd, IsLeave, Plan, due_of, due_with};

    type Order = Order<ImageCode>;

    type Answer = Answer;

    type End = End;

    ghost Plan = { Plan };

    ghost plan = { λ flow. flow.plan };

    ghost trace = { λ flow. flow.trace };

    ghost Asks = { IsAsked };

    ghost Takes = { λ plan trace order reply code. CanCome plan.images trace order reply code };

    ghost Ends = { IsEnd };

    ghost Leaves = { IsLeave };

    ghost stand = { λ flow. flow.stand };

    ghost due_of = { λ plan trace stand. due_with plan.commands trace stand };

    fn resume(&mut self, alloc: Global, last: Option<Answer>) -> Next<Order<ImageCode>, End>
        requires { IsResumable (CanCome self.old.plan.images self.old.trace) (λ (a : Answer). a.reply)
            (λ (a : Answer). a.code) self.old.stand last }
        ensures plan { self.new.plan ≡ self.old.plan }
        ensures trace { self.new.trace ≡ trace_after (λ (o : Order ImageCode). o.event)
            (λ (a : Answer). a.reply) (λ (a : Answer). a.code)
            self.old.trace self.old.stand last }
        ensures stand { self.new.stand ≡ stand_after result }
        ensures gives { Gives (IsAsked self.new.plan self.new.trace)
            (IsEnd self.new.plan self.new.trace) result }
    {
        self.run.resume(alloc, last)
    }

    fn owed(&self, alloc: Global) -> Option<Order<ImageCode>> {
        self.run.owed(alloc)
    }

    fn due(&self) -> Due
        ensures { result ≡ due_of self.now }
    {
        self.run.due()
    }
}
