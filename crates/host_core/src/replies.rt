//! The reply to an event.
ghost use Rattle.std.specs.Prelude.{ℕ, ◌≡◌, ◌+◌, ◌<◌, ◌≤◌, ◌^◌, if◌then◌else◌, [], ◌∷◌, ◌++◌, length};
ghost use Rattle.std.specs.Prelude.{IfSome, IsTrue};
ghost use Rattle.host_events.specs.Reply.{reply_to_weak};

use crate::handles::weakly;
use crate::host::HostCore;
use assembly_name::{SimpleName, Version};
use host_events::{AskStep, Candidate, Code, Event, Numbers, Reply, RuleAt};

impl<C: Code> HostCore<C> {
    ghost use Rattle.host_events.specs.Bindings.{binding};
    ghost use Rattle.host_events.specs.Contexts.{IsLive, freed_contexts, made_count};
    ghost use Rattle.host_events.specs.Journal.{Fits};
    ghost use Rattle.host_events.specs.Reply.{IsReply, ListsUnkept, reply_to_alive, reply_to_enter};
    ghost use Rattle.host_events.specs.Reply.{reply_to_lookup, reply_to_new, reply_to_publish};
    ghost use Rattle.host_events.specs.Reply.{reply_to_rule, reply_to_rule_in, reply_to_unload};
    ghost use Rattle.host_events.specs.Reserved.{sealed};
    ghost use Rattle.host_events.specs.Rooms.{numbers_due};
    ghost use Rattle.host_core.specs.Allowed.{keeps_to};
    ghost use Rattle.host_core.specs.Tables.{IsNotGone};

    /// The reply to the event after the journal. The numbers that it lists stand in the room.
    pub(crate) fn reply_to(&self, event: &Event, room: Numbers) -> Reply
        requires fits { (thread : ℕ) × Fits self.now.journal thread event.now }
        requires kind { IsTrue (keeps_to self.now.fixed.collects event.now) }
        requires short { length self.now.journal + 1 < 2 ^ 32 }
        requires empty { room.list ≡ [] }
        requires room { numbers_due (made_count self.now.journal + 1) event.now ≤ room.spare }
        ensures reply { IsReply self.now.fixed.files self.now.journal event.now result }
        ensures few { length (freed_contexts result) ≤ made_count self.now.journal + 1 }
    {
        match event {
            Event::New { name, .. } => self.reply_to_new(self.named(name)),
            Event::Rule { place, .. } => self.reply_to_rule(place),
            Event::Enter { name } => self.reply_to_enter(self.named(name)),
            Event::Lookup {
                context,
                name,
                version,
            } => self.reply_to_lookup(*version, self.binding(*context, name)),
            Event::Ask {
                step,
                context,
                name,
            } => self.reply_to_ask(*step, *context, name),
            Event::Publish {
                context,
                name,
                candidate,
            } => self.reply_to_publish(*context, *candidate, self.binding(*context, name)),
            Event::Weak { handle, name } => {
                let used = weakly(self.journal.as_slice(), handle.bytes());
                reply_to_weak(used, self.named(name))
            }
            Event::Alive { handle } => {
                self.reply_to_alive(weakly(self.journal.as_slice(), handle.bytes()))
            }
            Event::Unload { name } => self.reply_to_unload(self.named(name)),
            Event::Collect => Reply::Freed(self.unkept(room)),
            Event::Leave { .. } => Reply::Left,
            _ => unreachable!(),
        }
    }

    fn reply_to_new(&self, context: Option<u32>) -> Reply
        ensures { result ≡ reply_to_new self.now.journal context }
    {
        match context {
            Some(context) => Reply::Exists(context),
            None => Reply::Made(self.tables.made + 1),
        }
    }

    fn reply_to_rule(&self, place: &RuleAt) -> Reply
        ensures { result ≡ reply_to_rule self.now.journal place.now }
    {
        match place {
            RuleAt::On(name) => self.reply_to_rule_in(self.named(name)),
            RuleAt::Resolving(name) => self.reply_to_rule_in(self.named(name)),
            RuleAt::Resolve => Reply::Set(0),
        }
    }

    fn reply_to_rule_in(&self, context: Option<u32>) -> Reply
        requires { IfSome context (λ c. IsLive self.now.journal c) }
        ensures { result ≡ reply_to_rule_in self.now.journal context }
    {
        match context {
            None => Reply::NoContext,
            Some(context) if self.is_unloaded(context) => Reply::Unloading(context),
            Some(context) => Reply::Set(context),
        }
    }

    fn reply_to_enter(&self, context: Option<u32>) -> Reply
        requires live { IfSome context (λ c. IsLive self.now.journal c) }
        requires short { length self.now.journal + 1 < 2 ^ 32 }
        ensures { result ≡ reply_to_enter self.now.journal context }
    {
        match context {
            None => Reply::NoContext,
            Some(context) if self.is_unloaded(context) => Reply::Unloading(context),
            Some(context) => Reply::Entered(self.tables.begun + 1, context),
        }
    }

    fn reply_to_lookup(&self, version: Version, assembly: Option<u32>) -> Reply
        ensures { result ≡ reply_to_lookup self.now.fixed.files self.now.journal version assembly }
    {
        match assembly {
            None => Reply::Miss,
            Some(assembly) if self.is_good(assembly, version) => Reply::Hit(assembly),
            Some(assembly) => Reply::Low(assembly),
        }
    }

    fn reply_to_publish(&self, context: u32, candidate: Candidate, bound: Option<u32>) -> Reply
        requires there { (c : ℕ) → IsNotGone self.now.journal c }
        requires short { length self.now.journal + 1 < 2 ^ 32 }
        ensures { result ≡ reply_to_publish self.now.journal context candidate bound }
    {
        if let Some(assembly) = bound {
            return Reply::Lost(assembly);
        }
        match candidate {
            Candidate::Assembly(assembly) => self.reply_to_share(context, assembly),
            Candidate::Image(_) => Reply::Bound((self.bound_count() + 1) as u32),
        }
    }

    fn reply_to_share(&self, context: u32, assembly: u32) -> Reply
        requires { (c : ℕ) → IsNotGone self.now.journal c }
        ensures { result ≡ reply_to_publish self.now.journal context (Candidate.Assembly assembly) None }
    {
        if self.is_of_collectible(assembly) && !self.is_collectible(context) {
            Reply::NotCollectible(assembly)
        } else {
            Reply::Shared(assembly)
        }
    }

    fn reply_to_alive(&self, context: Option<u32>) -> Reply
        ensures { result ≡ reply_to_alive self.now.journal context }
    {
        match context {
            None => Reply::NoHandle,
            Some(context) if self.is_live(context) => Reply::Alive(context),
            Some(context) => Reply::Gone(context),
        }
    }

    fn reply_to_unload(&self, context: Option<u32>) -> Reply
        requires { IfSome context (λ c. IsLive self.now.journal c) }
        ensures { result ≡ reply_to_unload self.now.journal context }
    {
        match context {
            None => Reply::NoContext,
            Some(context) if !self.is_collectible(context) => Reply::Fixed(context),
            Some(context) if self.is_unloaded(context) => Reply::Already(context),
            Some(context) => Reply::Unloading(context),
        }
    }

    /// The live contexts that nothing keeps, in rising order. Where contexts are collected, no
    /// operation pins one and no context refers to another, so these are the ones that were given
    /// up.
    fn unkept(&self, room: Numbers) -> Numbers
        requires collects { IsTrue self.now.fixed.collects }
        requires empty { room.list ≡ [] }
        requires room { made_count self.now.journal + 1 ≤ room.spare }
        ensures unkept { ListsUnkept self.now.journal result.list }
        ensures few { length result.list ≤ made_count self.now.journal + 1 }
        ensures sealed { result ≡ sealed result.list }
    {
        let mut freed = room;
        for context in 0..self.tables.made + 1 {
            put_if(&mut freed, context, self.is_unkept(context));
        }
        freed.sealed()
    }
}

fn reply_to_weak(used: Option<u32>, context: Option<u32>) -> Reply
    ensures { result ≡ reply_to_weak used context }
{
    match (used, context) {
        (Some(_), _) => Reply::InUse,
        (None, None) => Reply::NoContext,
        (None, Some(context)) => Reply::Weakly(context),
    }
}

/// Puts the number at the end of the list if it belongs there.
fn put_if(list: &mut Numbers, number: u32, belongs: bool)
    requires { 0 < list.old.spare }
    ensures list { list.new.list ≡ (if belongs then list.old.list ++ number ∷ [] else list.old.list) }
    ensures spare { list.old.spare ≤ list.new.spare + 1 }
{
    if belongs {
        list.push_reserved(number);
    }
}
