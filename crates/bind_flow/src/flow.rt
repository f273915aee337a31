//! The flow of a bind.
ghost use Rattle.std.specs.Prelude.{◌≡◌, ◌++◌, ◌∷◌, [], IfOk};
ghost use Rattle.std.specs.Arc.{arc_value};

use crate::images::{ImageCode, Images};
use crate::search::Search;
use crate::turn::{Turn, Wait};
use assembly_name::{SimpleName, Version};
use host_events::{Answer, Due, Flow, Next, Order, Outcome};
use std::alloc::{AllocError, Global};
use std::marker::Model;
use std::mem;
use std::snapshot::Snapshot;
use std::sync::Arc;

/// How far a flow is.
#[derive(Drop)]
pub enum At {
    /// It was not yet resumed.
    Fresh,
    /// It waits for the answer to this order.
    Waits(Wait, Snapshot<Order<ImageCode>>),
    Ended,
    WithoutMemory,
}

/// An order with its answer.
#[derive(Drop)]
pub struct Told {
    pub order: Snapshot<Order<ImageCode>>,
    pub answer: Answer,
}

/// The flow of a bind: it asks the steps that lead from a name to an assembly, one after the other,
/// publishes what they give, and ends with the assembly that the name means, or with why it means
/// none.
#[derive(Drop)]
pub struct BindFlow {
    search: Search,
    /// What was told so far.
    told: Vec<Told>,
    at: At,
}

impl Model for BindFlow {
    ghost use Rattle.std.specs.Prelude.{length};
    ghost use Rattle.std.specs.Vec.{vec_capacity};
    ghost use Rattle.bind_flow.specs.State.{Bind, IsKeptUp, plan_of, steps_told};

    ghost Value = { Bind };

    ghost view = { λ flow. record {
      plan = plan_of flow.search;
      trace = steps_told flow.told.items;
      at = flow.at;
    } };

    ghost invariant = { λ flow. IsKeptUp (plan_of flow.search) (steps_told flow.told.items) flow.at
        (length flow.told.items) (vec_capacity flow.told) };
}

impl BindFlow {
    ghost use Rattle.std.specs.Prelude.{Some};
    ghost use Rattle.host_events.specs.declared.flow.Next.TheVariants as nexts;
    ghost use Rattle.host_events.specs.Flows.{IsResumable, stand_after, trace_after, Gives};
    ghost use Rattle.bind_flow.specs.declared.flow.At.TheVariants as places;
    ghost use Rattle.bind_flow.specs.declared.turn.Turn.TheVariants as turns;
    ghost use Rattle.bind_flow.specs.declared.turn.Wait.TheVariants as waits;
    ghost use Rattle.bind_flow.specs.Flow.{CanCome, IsAsked, IsEnd};
    ghost use Rattle.bind_flow.specs.State.{CanGo, CanWait, fresh, stand_of};

    /// The bind of a name in a context, in the version that is wanted or a later one, among these
    /// images. It was not yet resumed.
    pub fn new(
        alloc: Global,
        context: u32,
        name: SimpleName,
        version: Version,
        images: Arc<Images>,
    ) -> Result<BindFlow, AllocError>
        ensures { IfOk result (λ flow. flow ≡ fresh (record {
          wanted = record { context = context; name = name; version = version };
          images = arc_value images;
        })) }
    {
        Ok(BindFlow {
            search: Search {
                context,
                name,
                version,
                images,
            },
            told: Vec::new(alloc),
            at: At::Fresh,
        })
    }

    /// Begins with the look-up.
    fn begin(&mut self) -> Turn
        requires { self.old.at ≡ places.Fresh }
        ensures flow { self.new ≡ record self.old { at = places.WithoutMemory } }
        ensures turn { result ≡ turns.Asks waits.Lookup }
        ensures can { CanGo self.new.plan self.new.trace result }
        ensures empty { self.old.trace ≡ [] }
    {
        self.at = At::WithoutMemory;
        Turn::Asks(Wait::Lookup)
    }

    /// Takes the answer to what was asked, and says where the bind goes with it.
    fn take(&mut self, alloc: Global, answer: Answer) -> Result<Turn, AllocError>
        requires { IsResumable (CanCome self.old.plan.images self.old.trace) (λ (a : Answer). a.reply)
            (λ (a : Answer). a.code) (stand_of self.old) (Some answer) }
        ensures plan { self.new.plan ≡ self.old.plan }
        ensures trace { self.new.trace ≡ trace_after (λ (o : Order ImageCode). o.event)
            (λ (a : Answer). a.reply) (λ (a : Answer). a.code)
            self.old.trace (stand_of self.old) (Some answer) }
        ensures at { self.new.at ≡ places.WithoutMemory }
        ensures can { IfOk result (CanGo self.new.plan self.new.trace) }
    {
        match mem::replace(&mut self.at, At::WithoutMemory) {
            At::Waits(wait, order) => {
                let turn = self.search.turn(alloc, wait, &answer.reply, answer.code);
                self.told.push(Told { order, answer }).unwrap();
                turn
            }
            _ => unreachable!(),
        }
    }

    /// Asks for the event that is due. Room for the answer is taken before.
    fn ask(&mut self, alloc: Global, wait: Wait) -> Next<Order<ImageCode>, Outcome>
        requires at { self.old.at ≡ places.WithoutMemory }
        requires can { CanWait self.old.plan self.old.trace wait }
        ensures plan { self.new.plan ≡ self.old.plan }
        ensures trace { self.new.trace ≡ self.old.trace }
        ensures stand { stand_of self.new ≡ stand_after result }
        ensures gives { Gives (IsAsked self.new.plan self.new.trace)
            (IsEnd self.new.plan self.new.trace) result }
    {
        if self.told.reserve(1).is_err() {
            return Next::OutOfMemory;
        }
        let Ok(order) = self.search.order(alloc, wait) else {
            return Next::OutOfMemory;
        };
        self.at = At::Waits(wait, Snapshot::of(&order));
        Next::Ask(order)
    }

    fn end(&mut self, outcome: Outcome) -> Next<Order<ImageCode>, Outcome>
        ensures flow { self.new ≡ record self.old { at = places.Ended } }
        ensures end { result ≡ nexts.End outcome }
    {
        self.at = At::Ended;
        Next::End(outcome)
    }

    /// Goes on as the turn says.
    fn go_on(&mut self, alloc: Global, turn: Turn) -> Next<Order<ImageCode>, Outcome>
        requires at { self.old.at ≡ places.WithoutMemory }
        requires can { CanGo self.old.plan self.old.trace turn }
        ensures plan { self.new.plan ≡ self.old.plan }
        ensures trace { self.new.trace ≡ self.old.trace }
        ensures stand { stand_of self.new ≡ stand_after result }
        ensures gives { Gives (IsAsked self.new.plan self.new.trace)
            (IsEnd self.new.plan self.new.trace) result }
    {
        match turn {
            Turn::Asks(wait) => self.ask(alloc, wait),
            Turn::Found(assembly) => self.end(Outcome::Assembly(assembly)),
            Turn::Refused(outcome) => self.end(outcome),
        }
    }
}

impl Flow for BindFlow {
    ghost use Rattle.std.specs.Prelude.{List, ◌≡◌};
    ghost use Rattle.host_events.specs.declared.order.Answer.{Answer};
    ghost use Rattle.host_events.specs.declared.order.Order.{Order};
    ghost use Rattle.host_events.specs.Flows.{IsResumable, trace_after, stand_after, Gives};
    ghost use Rattle.bind_flow.specs.declared.images.ImageCode.{ImageCode};
    ghost use Rattle.bind_flow.specs.Flow.{CanCome, IsAsked, IsEnd, Plan};
    ghost use Rattle.bind_flow.specs.State.{due_of, due_with, stand_of};

    type Order = Order<ImageCode>;

    type Answer = Answer;

    type End = Outcome;

    ghost Plan = { Plan };

    ghost plan = { λ flow. flow.plan };

    ghost trace = { λ flow. flow.trace };

    ghost Asks = { IsAsked };

    ghost Takes = { λ plan trace order reply code. CanCome plan.images trace order reply code };

    ghost Ends = { IsEnd };

    ghost Leaves = { λ plan trace order. ⊥ };

    ghost stand = { stand_of };

    ghost due_of = { λ plan trace stand. due_with trace stand };

    fn resume(&mut self, alloc: Global, last: Option<Answer>) -> Next<Order<ImageCode>, Outcome>
        requires { IsResumable (CanCome self.old.plan.images self.old.trace) (λ (a : Answer). a.reply)
            (λ (a : Answer). a.code) (stand_of self.old) last }
        ensures plan { self.new.plan ≡ self.old.plan }
        ensures trace { self.new.trace ≡ trace_after (λ (o : Order ImageCode). o.event)
            (λ (a : Answer). a.reply) (λ (a : Answer). a.code)
            self.old.trace (stand_of self.old) last }
        ensures stand { stand_of self.new ≡ stand_after result }
        ensures gives { Gives (IsAsked self.new.plan self.new.trace)
            (IsEnd self.new.plan self.new.trace) result }
    {
        let Some(answer) = last else {
            let turn = self.begin();
            return self.go_on(alloc, turn);
        };
        let Ok(turn) = self.take(alloc, answer) else {
            return Next::OutOfMemory;
        };
        self.go_on(alloc, turn)
    }

    fn owed(&self, _alloc: Global) -> Option<Order<ImageCode>> {
        let _told = &self.told;
        None
    }

    fn due(&self) -> Due
        ensures { result ≡ due_of self.now }
    {
        match self.at {
            At::Waits(Wait::PublishDefault(_) | Wait::Publish(_), _) => Due::Publish,
            At::Waits(Wait::Lookup | Wait::Ask(_) | Wait::Share(_), _)
            | At::Fresh
            | At::Ended
            | At::WithoutMemory => Due::Plain,
        }
    }
}
