//! A thread's run: it goes from one event to the next.
ghost use Rattle.std.specs.Prelude.{◌≡◌, ◌<◌, ◌≤◌, ◌+◌, ◌^◌, ◌++◌, ◌∷◌, [], Bool, false, true, None, Some};
ghost use Rattle.std.specs.Prelude.{IfOk, IsSome, All, length, if◌then◌else◌, nat_lt};
ghost use Rattle.std.specs.Arc.{arc_value};
ghost use Rattle.bind_flow.specs.Binds.{Wanted};
ghost use Rattle.bind_flow.specs.Flow.{Plan as BindPlan};
ghost use Rattle.bind_flow.specs.Images.{reading_at};
ghost use Rattle.bind_flow.specs.State.{fresh as fresh_bind};
ghost use Rattle.command_flow.specs.Events.{is_built};
ghost use Rattle.command_flow.specs.Flow.{HasImage};
ghost use Rattle.command_flow.specs.Run.{loads, most_within};
ghost use Rattle.command_flow.specs.Turns.{first_wait};

use crate::order::{first_order, leave_order, load_order, refused};
use crate::turn::{Turn, Wait};
use assembly_name::{SimpleName, Version};
use bind_flow::{BindFlow, ImageCode, Images};
use host_events::{Answer, CommandEnd, Due, End, Flow, Lines, Next, Order, Outcome};
use host_script::Command;
use std::alloc::{AllocError, Global};
use std::marker::Model;
use std::mem;
use std::snapshot::Snapshot;
use std::sync::Arc;

/// The most events that an operation makes between its first and its last.
const MOST_WITHIN: u32 = 1000;

/// How far a run is.
#[derive(Drop)]
pub enum At {
    /// It was not yet resumed.
    Fresh,
    /// It waits for the answer to this order.
    Waits(Wait, Snapshot<Order<ImageCode>>),
    Ended,
    WithoutMemory,
}

/// An order with its answer.
#[derive(Drop)]
pub struct Told {
    pub order: Snapshot<Order<ImageCode>>,
    pub answer: Snapshot<Answer>,
}

/// A thread's commands, and how far they are.
#[derive(Drop)]
pub struct Run {
    commands: Vec<Command>,
    images: Arc<Images>,
    /// How the commands ended so far, until they are given as the thread's end.
    ends: Vec<CommandEnd>,
    /// What was told so far, which no memory holds.
    told: Vec<Told>,
    /// The operation within which the thread is.
    entered: Option<u32>,
    at: At,
}

impl Model for Run {
    ghost use Rattle.std.specs.Prelude.{length};
    ghost use Rattle.std.specs.Arc.{arc_value};
    ghost use Rattle.std.specs.Vec.{vec_capacity};
    ghost use Rattle.command_flow.specs.Flow.{Plan};
    ghost use Rattle.command_flow.specs.State.{IsKeptUp, Running, steps_told};

    ghost Value = { Running };

    ghost view = { λ run. record {
      plan = record { commands = run.commands.items; images = arc_value run.images };
      trace = steps_told run.told.items;
      ends = run.ends.items;
      at = run.at;
    } };

    ghost invariant = { λ run. IsKeptUp
        (record { commands = run.commands.items; images = arc_value run.images })
        (steps_told run.told.items) run.ends.items run.entered run.at
        (length run.told.items) (vec_capacity run.told) };
}

impl Run {
    ghost use Rattle.host_events.specs.declared.order.Answer.{Answer};
    ghost use Rattle.host_events.specs.declared.order.Order.{Order};
    ghost use Rattle.host_events.specs.Flows.{IsResumable, Owes, trace_after};
    ghost use Rattle.bind_flow.specs.declared.images.ImageCode.{ImageCode};
    ghost use Rattle.bind_flow.specs.Flow.{CanCome};
    ghost use Rattle.command_flow.specs.declared.run.At.TheVariants as places;
    ghost use Rattle.command_flow.specs.Flow.{IsAsked, IsLeave, due_with};
    ghost use Rattle.command_flow.specs.Run.{end_of};
    ghost use Rattle.command_flow.specs.State.{CanGo, CanResume, CanWait, IsBetween, IsEntered, IsInside};
    ghost use Rattle.command_flow.specs.State.{IsLeaving, Moves, fresh_run, stand_at};

    /// A run that was not yet resumed.
    pub fn new(
        alloc: Global,
        commands: Vec<Command>,
        images: Arc<Images>,
    ) -> Result<Run, AllocError>
        requires few { length commands.items < 2 ^ 32 }
        requires built { All (λ command. is_built command ≡ true) commands.items }
        requires images { All (HasImage (arc_value images)) commands.items }
        ensures { IfOk result
            (λ run. run ≡ fresh_run (record { commands = commands.items; images = arc_value images })) }
    {
        let ends = Vec::with_capacity(alloc, commands.len())?;
        Ok(Run {
            commands,
            images,
            ends,
            told: Vec::new(alloc),
            entered: None,
            at: At::Fresh,
        })
    }

    /// Goes on to the next event or to the end: at first with no answer, later with one.
    pub fn resume(&mut self, alloc: Global, last: Option<Answer>) -> Next<Order<ImageCode>, End>
        requires { IsResumable (CanCome self.old.plan.images self.old.trace) (λ (a : Answer). a.reply)
            (λ (a : Answer). a.code) (stand_at self.old.at) last }
        ensures { Moves self.old.plan (trace_after (λ (o : Order ImageCode). o.event)
            (λ (a : Answer). a.reply) (λ (a : Answer). a.code)
            self.old.trace (stand_at self.old.at) last) self.new result }
    {
        let Some(answer) = last else {
            self.begin();
            return self.start(alloc);
        };
        let turn = self.take(answer);
        self.go_on(alloc, turn)
    }

    fn begin(&mut self)
        requires { self.old.at ≡ places.Fresh }
        ensures run { self.new ≡ record self.old { at = places.WithoutMemory } }
        ensures can { IsBetween self.old.plan self.old.trace self.old.ends }
    {
        self.at = At::WithoutMemory;
    }

    /// Takes the answer to what was asked, and says where the thread goes with it.
    fn take(&mut self, answer: Answer) -> Turn
        requires { IsResumable (CanCome self.old.plan.images self.old.trace) (λ (a : Answer). a.reply)
            (λ (a : Answer). a.code) (stand_at self.old.at) (Some answer) }
        ensures plan { self.new.plan ≡ self.old.plan }
        ensures trace { self.new.trace ≡ trace_after (λ (o : Order ImageCode). o.event)
            (λ (a : Answer). a.reply) (λ (a : Answer). a.code)
            self.old.trace (stand_at self.old.at) (Some answer) }
        ensures at { self.new.at ≡ places.WithoutMemory }
        ensures can { CanGo self.new.plan self.new.trace self.new.ends result }
    {
        match mem::replace(&mut self.at, At::WithoutMemory) {
            At::Waits(wait, order) => {
                let told = Snapshot::of(&answer);
                let turn = wait.turn(answer);
                self.told
                    .push(Told {
                        order,
                        answer: told,
                    })
                    .unwrap();
                self.entered = turn.open();
                turn
            }
            _ => unreachable!(),
        }
    }

    /// Goes on as the turn says.
    fn go_on(&mut self, alloc: Global, turn: Turn) -> Next<Order<ImageCode>, End>
        requires at { self.old.at ≡ places.WithoutMemory }
        requires can { CanGo self.old.plan self.old.trace self.old.ends turn }
        ensures { Moves self.old.plan self.old.trace self.new result }
    {
        match turn {
            Turn::Ends(outcome) => self.end_command(alloc, outcome),
            Turn::Begins { operation, context } => self.enter(alloc, operation, context),
            Turn::Binds {
                operation,
                count,
                flow,
                answer,
            } => self.bind(alloc, operation, count, flow, Some(answer)),
            Turn::Leaves { operation, outcome } => self.leave(alloc, operation, outcome),
        }
    }

    /// The command under way has ended so; the next one begins.
    fn end_command(&mut self, alloc: Global, outcome: Outcome) -> Next<Order<ImageCode>, End>
        requires at { self.old.at ≡ places.WithoutMemory }
        requires can { IsBetween self.old.plan self.old.trace (self.old.ends ++ end_of outcome ∷ []) }
        ensures { Moves self.old.plan self.old.trace self.new result }
    {
        let end = CommandEnd {
            lines: Lines::of(Vec::new(alloc)),
            outcome,
        };
        if self.ends.push(end).is_err() {
            return Next::OutOfMemory;
        }
        self.start(alloc)
    }

    /// Asks for the first event of the next command, or ends after the last.
    fn start(&mut self, alloc: Global) -> Next<Order<ImageCode>, End>
        requires at { self.old.at ≡ places.WithoutMemory }
        requires can { IsBetween self.old.plan self.old.trace self.old.ends }
        ensures { Moves self.old.plan self.old.trace self.new result }
    {
        let Some(command) = self.commands.get(self.ends.len()) else {
            return self.end(alloc);
        };
        let Ok(order) = first_order(alloc, command) else {
            return Next::OutOfMemory;
        };
        let wait = first_wait(command);
        self.ask(wait, order)
    }

    /// Gives the ends.
    fn end(&mut self, alloc: Global) -> Next<Order<ImageCode>, End>
        requires can { IsBetween self.old.plan self.old.trace self.old.ends }
        requires all { length self.old.plan.commands ≤ length self.old.ends }
        ensures { Moves self.old.plan self.old.trace self.new result }
    {
        let ends = mem::replace(&mut self.ends, Vec::new(alloc));
        self.at = At::Ended;
        Next::End(End::of(ends))
    }

    /// Begins the work of the operation in this context.
    fn enter(&mut self, alloc: Global, operation: u32, context: u32) -> Next<Order<ImageCode>, End>
        requires at { self.old.at ≡ places.WithoutMemory }
        requires can { IsEntered self.old.plan self.old.trace self.old.ends operation context }
        ensures { Moves self.old.plan self.old.trace self.new result }
    {
        match self.commands.get(self.ends.len()) {
            Some(Command::Load { image, .. }) => {
                let image = *image;
                self.load(alloc, operation, context, image)
            }
            Some(Command::Bind { name, version, .. }) => {
                let Ok(flow) = bind_flow(alloc, &self.images, context, name, *version) else {
                    return Next::OutOfMemory;
                };
                self.bind(alloc, operation, 0, flow, None)
            }
            _ => unreachable!(),
        }
    }

    /// Publishes an image under its own name, if it is one.
    fn load(
        &mut self,
        alloc: Global,
        operation: u32,
        context: u32,
        image: u32,
    ) -> Next<Order<ImageCode>, End>
        requires at { self.old.at ≡ places.WithoutMemory }
        requires inside { IsInside self.old.plan self.old.trace self.old.ends operation []
            (λ world. loads world image context) false }
        requires there { IsSome (reading_at self.old.plan.images image) }
        ensures { Moves self.old.plan self.old.trace self.new result }
    {
        if let Some(failed) = refused(&self.images, image) {
            return self.leave(alloc, operation, Outcome::BadImage(failed));
        }
        let Ok(order) = load_order(alloc, &self.images, context, image) else {
            return Next::OutOfMemory;
        };
        self.ask(Wait::Load { operation }, order)
    }

    /// Goes on with a bind, until it ends or would make one event more than may be.
    fn bind(
        &mut self,
        alloc: Global,
        operation: u32,
        count: u32,
        flow: BindFlow,
        last: Option<Answer>,
    ) -> Next<Order<ImageCode>, End>
        requires at { self.old.at ≡ places.WithoutMemory }
        requires can { CanResume self.old.plan self.old.trace self.old.ends operation count flow last }
        ensures { Moves self.old.plan self.old.trace self.new result }
    {
        let mut flow = flow;
        match flow.resume(alloc, last) {
            Next::Ask(order) => {
                if !is_below_limit(count) {
                    return self.leave(alloc, operation, Outcome::EventLimit);
                }
                let wait = Wait::Bind {
                    operation,
                    count,
                    flow,
                };
                self.ask(wait, order)
            }
            Next::End(outcome) => self.leave(alloc, operation, outcome),
            Next::OutOfMemory => Next::OutOfMemory,
        }
    }

    /// Leaves the operation, whose work has ended so.
    fn leave(
        &mut self,
        alloc: Global,
        operation: u32,
        outcome: Outcome,
    ) -> Next<Order<ImageCode>, End>
        requires at { self.old.at ≡ places.WithoutMemory }
        requires can { IsLeaving self.old.plan self.old.trace self.old.ends operation outcome }
        ensures { Moves self.old.plan self.old.trace self.new result }
    {
        let order = leave_order(alloc, operation);
        self.ask(Wait::Leave { operation, outcome }, order)
    }

    /// Asks for an event. Room for the answer is taken before.
    fn ask(&mut self, wait: Wait, order: Order<ImageCode>) -> Next<Order<ImageCode>, End>
        requires at { self.old.at ≡ places.WithoutMemory }
        requires can { CanWait self.old.plan self.old.trace self.old.ends wait order }
        requires asked { IsAsked self.old.plan self.old.trace order }
        ensures { Moves self.old.plan self.old.trace self.new result }
    {
        if self.told.reserve(1).is_err() {
            return Next::OutOfMemory;
        }
        self.at = At::Waits(wait, Snapshot::of(&order));
        Next::Ask(order)
    }

    /// The order of the last event of the operation that is open. It takes no memory.
    pub fn owed(&self, alloc: Global) -> Option<Order<ImageCode>>
        ensures { Owes (λ (o : Order ImageCode). o.event) (IsLeave self.now.plan self.now.trace)
            self.now.trace result }
    {
        match self.entered {
            Some(operation) => Some(leave_order(alloc, operation)),
            None => None,
        }
    }

    /// What the event is that was asked for last.
    pub fn due(&self) -> Due
        ensures { result ≡ due_with self.now.plan.commands self.now.trace (stand_at self.now.at) }
    {
        match &self.at {
            At::Waits(Wait::Event | Wait::Enter, _) => Due::Command(self.ends.len() as u32 + 1),
            At::Waits(Wait::Bind { flow, .. }, _) => flow.due(),
            At::Waits(Wait::Load { .. } | Wait::Leave { .. }, _)
            | At::Fresh
            | At::Ended
            | At::WithoutMemory => Due::Plain,
        }
    }
}

/// The bind of a name in a context.
fn bind_flow(
    alloc: Global,
    images: &Arc<Images>,
    context: u32,
    name: &SimpleName,
    version: Version,
) -> Result<BindFlow, AllocError>
    ensures { IfOk result (λ flow. flow ≡ fresh_bind (record {
      wanted = record { context = context; name = name.now; version = version };
      images = arc_value images.now;
    })) }
{
    let images = Arc::try_clone(images)?;
    BindFlow::new(alloc, context, name.share(alloc)?, version, images)
}

/// For the reply to which event a command waits first.
fn first_wait(command: &Command) -> Wait
    ensures { result ≡ first_wait command.now }
{
    match command {
        Command::Load { .. } | Command::Bind { .. } => Wait::Enter,
        _ => Wait::Event,
    }
}

/// A test of whether one event more may be made within an operation.
#[tactic(auto, unfolding(crate::specs::Run::most_within))]
fn is_below_limit(count: u32) -> bool
    ensures { result ≡ nat_lt count most_within }
{
    count < MOST_WITHIN
}
