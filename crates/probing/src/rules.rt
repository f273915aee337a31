//! The table of rules.
ghost use Rattle.std.specs.Prelude.{◌≡◌, ◌-◌, ◌<◌, [], ◌∷◌, ◌++◌, length, IfOk, if◌then◌else◌};
ghost use Rattle.std.specs.List.{count_by};
ghost use Rattle.std.specs.Option.{option_copied};
ghost use Rattle.probing.specs.Rules.{answer_at, answers, is_for, is_same_place};

use assembly_name::{SimpleName, same_name};
use host_events::RuleAnswer;
use std::alloc::{AllocError, Global};
use std::marker::Model;

/// Where a rule stands, with the number of its context.
#[derive(Clone, Copy, PartialEq, Eq, Debug)]
pub enum RulePlace {
    /// The Load rules of the context.
    Load(u32),
    /// The Resolving rules of the context.
    Resolving(u32),
    /// The rules of AssemblyResolve, which all contexts share.
    Resolve,
}

/// A rule: what it answers for a name at its place.
#[derive(Debug, Drop)]
pub(crate) struct Rule {
    pub(crate) place: RulePlace,
    pub(crate) name: SimpleName,
    pub(crate) answer: RuleAnswer,
}

/// The rules in the order in which they were set. Names are the same without regard to ASCII case.
/// Contracts see the list of the rules and the spare, the count of rules that can still be set. All
/// calls but `new` take no memory.
#[derive(Debug, Drop)]
pub struct Rules {
    rules: Vec<Rule>,
    spare: u32,
}

impl Model for Rules {
    ghost use Rattle.probing.specs.Rules.{IsRoomy, Rules};
    ghost use Rattle.std.specs.Vec.{vec_capacity};

    ghost Value = { Rules };

    ghost view = { λ a. record { list = a.rules.items; spare = a.spare } };

    ghost invariant = { λ a. IsRoomy a.rules.items a.spare (vec_capacity a.rules) };
}

impl Rules {
    /// No rule, and a spare of `room`.
    pub fn new(alloc: Global, room: u32) -> Result<Rules, AllocError>
        ensures { IfOk result (λ made. made ≡ record { list = []; spare = room }) }
    {
        Ok(Rules {
            rules: Vec::with_capacity(alloc, room as usize)?,
            spare: room,
        })
    }

    /// How many rules are set at the place for the name. It looks at each rule once.
    pub fn count(&self, place: RulePlace, name: &SimpleName) -> u32
        ensures { result ≡ length (answers place name.now self.now.list) }
    {
        count_of(self.rules.as_slice(), place, name) as u32
    }

    /// What the n-th rule at the place for the name answers, in the order in which they were set,
    /// counted from 1; `None` exactly where n is 0 or there are fewer. It looks at each rule up to
    /// the one found.
    pub fn nth(&self, place: RulePlace, name: &SimpleName, n: u32) -> Option<&RuleAnswer>
        ensures { option_copied result ≡ answer_at place name.now n self.now.list }
    {
        nth_of(self.rules.as_slice(), place, name, n)
    }

    /// Sets a rule at the place for the name, after all others.
    pub fn add_reserved(&mut self, place: RulePlace, name: SimpleName, answer: RuleAnswer)
        requires { 0 < self.old.spare }
        ensures { self.new ≡ record {
          list = self.old.list ++ record { place = place; name = name; answer = answer } ∷ [];
          spare = self.old.spare - 1;
        } }
    {
        self.spare -= 1;
        let rule = Rule {
            place,
            name,
            answer,
        };
        self.rules.push(rule).unwrap();
    }
}

fn count_of(rules: &[Rule], place: RulePlace, name: &SimpleName) -> usize
    ensures { result ≡ count_by (is_for place name.now) rules.now }
{
    rules
        .iter()
        .filter(|rule| is_for(rule, place, name))
        .count()
}

fn nth_of<'a>(
    rules: &'a [Rule],
    place: RulePlace,
    name: &SimpleName,
    n: u32,
) -> Option<&'a RuleAnswer>
    ensures { option_copied result ≡ answer_at place name.now n rules.now }
{
    let mut left = n;
    for rule in rules {
        if left == 1 && is_for(rule, place, name) {
            return Some(&rule.answer);
        }
        left = left_after(left, rule, place, name);
    }
    None
}

/// How many rules are left to the one that is sought.
fn left_after(left: u32, rule: &Rule, place: RulePlace, name: &SimpleName) -> u32
    ensures { result ≡ if is_for place name.now rule.now then left - 1 else left }
{
    if is_for(rule, place, name) {
        left.saturating_sub(1)
    } else {
        left
    }
}

/// Whether the rule is set at the place for the name.
fn is_for(rule: &Rule, place: RulePlace, name: &SimpleName) -> bool
    ensures { result ≡ is_for place name.now rule.now }
{
    is_same_place(rule.place, place) && same_name(&rule.name, name)
}

fn is_same_place(place: RulePlace, other: RulePlace) -> bool
    ensures { result ≡ is_same_place place other }
{
    match (place, other) {
        (RulePlace::Load(context), RulePlace::Load(found)) => context == found,
        (RulePlace::Resolving(context), RulePlace::Resolving(found)) => context == found,
        (RulePlace::Resolve, RulePlace::Resolve) => true,
        _ => false,
    }
}
