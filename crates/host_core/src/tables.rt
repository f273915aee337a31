//! What the host looks up: what the journal says of contexts, rules, bindings and assemblies.
ghost use Rattle.std.specs.Prelude.{◌≡◌, ◌+◌, ◌<◌, ◌≤◌, ◌^◌, [], ◌++◌, IfOk, IfSome, is_some};
ghost use Rattle.std.specs.Prelude.{if◌then◌else◌};
ghost use Rattle.std.specs.List.{cons_option};
ghost use Rattle.std.specs.Option.{option_map_or};
ghost use Rattle.std.specs.Vec.{vec_capacity};
ghost use Rattle.bind_cache.specs.Bindings.{published};
ghost use Rattle.host_events.specs.Assemblies.{bound_assembly};
ghost use Rattle.host_events.specs.Bindings.{assembly_published};
ghost use Rattle.host_events.specs.Contexts.{freed_contexts, made_context, unloading_context};
ghost use Rattle.host_events.specs.Operations.{begun_operation};
ghost use Rattle.host_events.specs.Rules.{set_context};
ghost use Rattle.host_core.specs.After.{AreOthers, CanAdd, CanFollow, CanLoad, HaveFollowed, IsOther};
ghost use Rattle.host_core.specs.After.{loaded_in, with_context, with_freed, with_rule};
ghost use Rattle.host_core.specs.After.{with_unloaded};
ghost use Rattle.host_core.specs.Fresh.{IsFresh};
ghost use Rattle.host_core.specs.Tables.{place_in, loaded_of};

use crate::bounds::Bounds;
use assembly_name::SimpleName;
use bind_cache::Bindings;
use cli_words::Name;
use host_events::{Code, CodeOf, ContextKind, Event, Numbers, Reply, RuleAnswer, RuleAt};
use load_context::Contexts;
use probing::{RulePlace, Rules};
use std::alloc::{AllocError, Global};

/// The code of an assembly, and the context in which it lives.
#[derive(Drop)]
pub(crate) struct Loaded<C> {
    pub(crate) code: C,
    pub(crate) context: u32,
}

impl<C: Code> Loaded<C> {
    /// Where the code comes from.
    pub(crate) fn code_of(&self) -> CodeOf
        ensures { result ≡ loaded_of C.image self.now }
    {
        CodeOf {
            image: self.code.image(),
            context: self.context,
        }
    }
}

/// The tables, and the counts of what was made.
#[derive(Drop)]
pub(crate) struct Tables<C> {
    /// The contexts that are there.
    pub(crate) contexts: Contexts,
    pub(crate) rules: Rules,
    /// The names that are bound to assemblies, but for those of the platform.
    pub(crate) bindings: Bindings,
    /// The code of each assembly, from assembly 1 on.
    pub(crate) codes: Vec<Loaded<C>>,
    /// How many contexts were made.
    pub(crate) made: u32,
    /// How many operations were begun.
    pub(crate) begun: u32,
}

impl<C> Tables<C> {
    /// The tables before the first event, with room for all that the bounds allow.
    pub(crate) fn new(alloc: Global, bounds: &Bounds) -> Result<Tables<C>, AllocError>
        ensures { IfOk result (λ tables. IsFresh bounds.now tables (vec_capacity tables.codes)) }
    {
        Ok(Tables {
            contexts: Contexts::new(alloc, bounds.contexts.saturating_sub(1))?,
            rules: Rules::new(alloc, bounds.rules)?,
            bindings: Bindings::new(alloc, bounds.events)?,
            codes: Vec::with_capacity(alloc, bounds.events as usize)?,
            made: 0,
            begun: 0,
        })
    }

    /// Puts into the tables what the event with its reply changes. It takes no memory.
    pub(crate) fn follow(&mut self, event: Event, code: Option<C>, reply: &Reply)
    where
        C: Drop,
        requires { CanFollow self.old event code reply.now }
        ensures { HaveFollowed self.old self.new event code reply.now }
    {
        match event {
            Event::New { name, kind } => self.follow_new(name, kind, reply),
            Event::Rule {
                place,
                name,
                answer,
            } => self.follow_rule(place, name, answer, reply),
            Event::Enter { .. } => self.follow_enter(reply),
            Event::Publish { context, name, .. } => self.follow_publish(context, name, code, reply),
            Event::Unload { .. } => self.follow_unload(reply),
            Event::Collect => self.follow_collect(reply),
            _ => {}
        }
    }

    fn follow_new(&mut self, name: Name, kind: ContextKind, reply: &Reply)
        requires { IfSome (made_context reply.now) (CanAdd self.old) }
        ensures { self.new ≡ record self.old {
          contexts = option_map_or (with_context self.old.contexts name kind) (made_context reply.now)
              self.old.contexts;
          made = if is_some (made_context reply.now) then self.old.made + 1 else self.old.made;
        } }
    {
        if let Reply::Made(context) = reply {
            let collectible = kind == ContextKind::Collectible;
            self.contexts.add_reserved(*context, name, collectible);
            self.made += 1;
        }
    }

    fn follow_rule(&mut self, place: RuleAt, name: SimpleName, answer: RuleAnswer, reply: &Reply)
        requires { IfSome (set_context reply.now) (λ c. 0 < self.old.rules.spare) }
        ensures { self.new ≡ record self.old {
          rules = option_map_or (with_rule self.old.rules place name answer) (set_context reply.now)
              self.old.rules;
        } }
    {
        if let Reply::Set(context) = reply {
            let place = place_in(&place, *context);
            self.rules.add_reserved(place, name, answer);
        }
    }

    fn follow_enter(&mut self, reply: &Reply)
        requires { self.old.begun + 1 < 2 ^ 32 }
        ensures { self.new ≡ record self.old {
          begun = if is_some (begun_operation reply.now) then self.old.begun + 1 else self.old.begun;
        } }
    {
        if begins(reply) {
            self.begun += 1;
        }
    }

    fn follow_publish(&mut self, context: u32, name: SimpleName, code: Option<C>, reply: &Reply)
    where
        C: Drop,
        requires binds { IfSome (assembly_published reply.now) (λ a. 0 < self.old.bindings.spare) }
        requires loads { IfSome (bound_assembly reply.now) (λ a. CanLoad self.old code) }
        ensures tables { self.new ≡ record self.old {
          bindings = option_map_or (published self.old.bindings context name)
              (assembly_published reply.now) self.old.bindings;
          codes = self.new.codes;
        } }
        ensures codes { self.new.codes.items
            ≡ self.old.codes.items ++ cons_option (loaded_in context code (bound_assembly reply.now)) [] }
        ensures capacity { vec_capacity self.old.codes ≤ vec_capacity self.new.codes }
    {
        match reply {
            Reply::Shared(assembly) => self.bind(context, name, *assembly),
            Reply::Bound(assembly) => {
                let code = code.unwrap();
                self.codes.push(Loaded { code, context }).unwrap();
                self.bind(context, name, *assembly);
            }
            _ => {}
        }
    }

    fn bind(&mut self, context: u32, name: SimpleName, assembly: u32)
        requires { 0 < self.old.bindings.spare }
        ensures { self.new ≡ record self.old {
          bindings = published self.old.bindings context name assembly;
        } }
    {
        let _ = self.bindings.publish_reserved(context, name, assembly);
    }

    fn follow_unload(&mut self, reply: &Reply)
        requires { IfSome (unloading_context reply.now) (IsOther self.old.contexts.list) }
        ensures { self.new ≡ record self.old {
          contexts = option_map_or (with_unloaded self.old.contexts) (unloading_context reply.now)
              self.old.contexts;
        } }
    {
        if let Reply::Unloading(context) = reply {
            self.contexts.unload(*context);
        }
    }

    fn follow_collect(&mut self, reply: &Reply)
        requires { AreOthers self.old.contexts.list (freed_contexts reply.now) }
        ensures { self.new ≡ record self.old {
          contexts = with_freed self.old.contexts (freed_contexts reply.now);
        } }
    {
        if let Reply::Freed(contexts) = reply {
            take_all(&mut self.contexts, contexts.numbers());
        }
    }
}

/// Whether the reply says that an operation began.
fn begins(reply: &Reply) -> bool
    ensures { result ≡ is_some (begun_operation reply.now) }
{
    matches!(reply, Reply::Entered(..) | Reply::EnteredAt(..))
}

/// Takes these contexts out, which are there.
fn take_all(contexts: &mut Contexts, numbers: &[u32])
    requires { AreOthers contexts.old.list numbers.now }
    ensures { contexts.new ≡ with_freed contexts.old numbers.now }
{
    for number in numbers {
        contexts.take(*number);
    }
}

/// The place of a rule, with the number of the context in which it is set.
fn place_in(place: &RuleAt, context: u32) -> RulePlace
    ensures { result ≡ place_in place.now context }
{
    match place {
        RuleAt::On(_) => RulePlace::Load(context),
        RuleAt::Resolving(_) => RulePlace::Resolving(context),
        RuleAt::Resolve => RulePlace::Resolve,
    }
}
