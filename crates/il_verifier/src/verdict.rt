//! The verdict on a body.
ghost use Rattle.std.specs.Prelude.{◌≡◌, ◌<◌, ◌-◌, ◌^◌, ℕ, List, map, length, Some, IfOk};
ghost use Rattle.std.specs.Prelude.{is_none};
ghost use Rattle.std.specs.List.{list_any};
ghost use Rattle.il_reader.specs.Offsets.{AreBoundaries};
ghost use Rattle.il_verifier.specs.Laws.{IsVerdict};
ghost use Rattle.il_verifier.specs.Lines.{line_at};
ghost use Rattle.il_verifier.specs.TypeRules.{IsRuleAt, IsTypeFault};
ghost use Rattle.il_verifier.specs.Worklist.{stack_at, stacks_by, typing_of, AreIds, ArePlaced};

use crate::depth::{depths, line_at};
use crate::facts::BodyFacts;
use crate::fault::depth_fault;
use crate::known::{Known, seek_operands};
use crate::laws::verdicts_are_one;
use crate::line::{Line, lines};
use crate::rules::type_rule;
use crate::typing::{Typing, least_typing};
use host_events::VerifyRule;
use il_flow::Parents;
use std::alloc::{AllocError, Global};

/// The first rule on types that fails at a place.
fn rule_at<P: Parents>(
    alloc: Global,
    parents: &mut Known<'_, P>,
    lines: &[Option<Line>],
    typing: &Typing,
    mixed: &[bool],
    at: usize,
) -> Result<Option<VerifyRule>, AllocError>
    requires within { at < length typing.now.stacks.items }
    requires ids { AreIds typing.now.pool typing.now.stacks.items }
    requires mixed { mixed.now ≡ map (list_any is_none) typing.now.pool }
    ensures same { parents.new ≡ parents.old }
    ensures rule { IfOk result (IsRuleAt (P.family parents.old) (line_at lines.now at)
        (stack_at (stacks_by typing.now.pool typing.now.stacks.items) at)) }
{
    let Some(line) = line_at(lines, at) else {
        return Ok(None);
    };
    let Some(id) = typing.stacks[at] else {
        return Ok(None);
    };
    seek_operands(alloc, parents, &line.effect.operands, &typing.pool, id)?;
    type_rule(alloc, parents, line, &typing.pool, id, mixed[id])
}

/// The first place at which a rule on types fails, with the first of the rules that fail there.
fn type_fault<P: Parents>(
    alloc: Global,
    parents: &P,
    lines: &[Option<Line>],
    typing: &Typing,
) -> Result<Option<(usize, VerifyRule)>, AllocError>
    requires ids { AreIds typing.now.pool typing.now.stacks.items }
    requires sized { length typing.now.stacks.items ≡ length lines.now }
    ensures { IfOk result (λ fault. (max : ℕ) →
        ArePlaced max lines.now (stacks_by typing.now.pool typing.now.stacks.items) →
        IsTypeFault (P.family parents.now) max lines.now
        (typing_of (stacks_by typing.now.pool typing.now.stacks.items)) fault) }
{
    let mixed = typing.pool.mixed(alloc)?;
    let mut known = Known::new(alloc, parents);
    for at in 0..lines.len() {
        if let Some(rule) = rule_at(alloc, &mut known, lines, typing, &mixed, at)? {
            return Ok(Some((at, rule)));
        }
    }
    Ok(None)
}

/// Checks the body of a method: `None` exactly where each rule is kept, and otherwise the first
/// place at which one fails, with the first of the rules that fail there. ECMA-335 III.1.8.
pub fn typed_or_fault<P: Parents>(
    alloc: Global,
    parents: &P,
    facts: &BodyFacts,
) -> Result<Option<(usize, VerifyRule)>, AllocError>
    requires whole { (places : List ℕ) × AreBoundaries facts.now.code places }
    requires short { length facts.now.code < 2 ^ 32 - 1 }
    ensures { IfOk result (IsVerdict (P.family parents.now) facts.now) }
{
    verdicts_are_one();
    let max = facts.max_stack;
    let lines = lines(alloc, facts)?;
    let depths = depths(alloc, max, &lines)?;
    if let Some(fault) = depth_fault(alloc, max, &lines, &depths)? {
        return Ok(Some(fault));
    }
    let typing = least_typing(alloc, parents, max, &lines)?;
    type_fault(alloc, parents, &lines, &typing)
}
