//! What the steps of a bind are given.
ghost use Rattle.std.specs.Prelude.{◌≡◌, map, None};
ghost use Rattle.host_events.specs.Rules.{foreign, is_candidate};

use crate::host::HostCore;
use assembly_name::SimpleName;
use cli_words::Name;
use host_events::{AskStep, Code, Reply, RuleAnswer};
use probing::RulePlace;

impl<C: Code> HostCore<C> {
    ghost use Rattle.std.specs.List.{last_or};
    ghost use Rattle.std.specs.Option.{option_and_then, option_map_or};
    ghost use Rattle.host_events.specs.Bindings.{binding};
    ghost use Rattle.host_events.specs.Contexts.{named};
    ghost use Rattle.host_events.specs.Rules.{default_for, first_candidate, given_by};
    ghost use Rattle.host_events.specs.Rules.{reply_to_ask};
    ghost use Rattle.probing.specs.Rules.{answer_at, answers};
    ghost use Rattle.host_core.specs.Tables.{rules_of};

    /// What the step is given for the name in the context.
    pub(crate) fn reply_to_ask(&self, step: AskStep, context: u32, name: &SimpleName) -> Reply
        ensures { result ≡ reply_to_ask self.now.fixed.files self.now.journal step context name.now }
    {
        let _ = &self.journal;
        match step {
            AskStep::Load => self.last_given(RulePlace::Load(context), name),
            AskStep::Default => self.default_for(name),
            AskStep::Resolving => self.first_given(RulePlace::Resolving(context), name),
            AskStep::Resolve => self.first_given(RulePlace::Resolve, name),
        }
    }

    /// What the rule gives that was set last.
    fn last_given(&self, place: RulePlace, name: &SimpleName) -> Reply
        ensures { result ≡ option_map_or (given_by self.now.journal name.now)
            (last_or None (answers place name.now (rules_of self.now.journal))) Reply.Nothing }
    {
        let count = self.tables.rules.count(place, name);
        self.nth_given(place, name, count)
    }

    /// What the first rule gives that names a candidate.
    fn first_given(&self, place: RulePlace, name: &SimpleName) -> Reply
        ensures { result ≡ first_candidate (map (given_by self.now.journal name.now)
            (answers place name.now (rules_of self.now.journal))) }
    {
        for before in 0..self.tables.rules.count(place, name) {
            let given = self.nth_given(place, name, before + 1);
            if is_candidate(&given) {
                return given;
            }
        }
        Reply::Nothing
    }

    /// What the n-th rule gives, counted from 1, if there is one.
    fn nth_given(&self, place: RulePlace, name: &SimpleName, n: u32) -> Reply
        ensures { result ≡ option_map_or (given_by self.now.journal name.now)
            (answer_at place name.now n (rules_of self.now.journal)) Reply.Nothing }
    {
        match self.tables.rules.nth(place, name, n) {
            Some(answer) => self.given_by(answer, name),
            None => Reply::Nothing,
        }
    }

    fn given_by(&self, answer: &RuleAnswer, name: &SimpleName) -> Reply
        ensures { result ≡ given_by self.now.journal name.now answer.now }
    {
        match answer {
            RuleAnswer::Image(image) => Reply::Image(*image),
            RuleAnswer::Share(context) => foreign(self.shared(context, name)),
            RuleAnswer::Nothing => Reply::Nothing,
        }
    }

    /// The assembly that the context of this name has under the name of an assembly.
    fn shared(&self, context: &Name, name: &SimpleName) -> Option<u32>
        ensures { result ≡ option_and_then (λ c. binding self.now.journal c name.now)
            (named self.now.journal context.now) }
    {
        let context = self.named(context)?;
        self.binding(context, name)
    }

    /// What every context finds by itself.
    fn default_for(&self, name: &SimpleName) -> Reply
        ensures { result ≡ default_for self.now.fixed.files name.now (binding self.now.journal 0 name.now) }
    {
        match self.binding(0, name) {
            Some(assembly) => Reply::Foreign(assembly),
            None => self.image_for(name),
        }
    }

    fn image_for(&self, name: &SimpleName) -> Reply
        ensures { result ≡ default_for self.now.fixed.files name.now None }
    {
        match self.app.first(name) {
            Some(image) => Reply::Image(image),
            None => Reply::Nothing,
        }
    }
}

fn foreign(assembly: Option<u32>) -> Reply
    ensures { result ≡ foreign assembly }
{
    match assembly {
        Some(assembly) => Reply::Foreign(assembly),
        None => Reply::Nothing,
    }
}

/// Whether the reply names a candidate.
fn is_candidate(reply: &Reply) -> bool
    ensures { result ≡ is_candidate reply.now }
{
    matches!(reply, Reply::Image(_) | Reply::Foreign(_))
}
