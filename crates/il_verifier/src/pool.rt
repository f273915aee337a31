//! Stacks that share what lies at their bottoms.
ghost use Rattle.std.specs.Prelude.{◌≡◌, ◌⊎◌, ◌-◌, ◌<◌, ◌≤◌, ◌+◌, ◌++◌, ◌∷◌, [], List, IsTrue, map, length, take, drop, slice_index_or, false, ◌||◌, option_copied, IfOk, OnOk};
ghost use Rattle.std.specs.Prelude.{is_none};
ghost use Rattle.std.specs.List.{list_any};
ghost use mathlib.Core.List.{reverse};
ghost use Rattle.il_flow.specs.Merging.{Held};
ghost use Rattle.il_verifier.specs.Effects.{given, operands_on, stack_after};
ghost use Rattle.il_verifier.specs.Pools.{stack_by, IsTop, Grows, IsMade};

use crate::depth::takes;
use crate::effect::{Effect, Gift};
use crate::gift::{copy_held, given};
use il_flow::StackType;
use std::alloc::{AllocError, Global};
use std::marker::Model;

/// A value on the stack with the number `below`; nothing where types met that do not merge.
#[derive(Drop)]
pub(crate) struct Node {
    pub(crate) held: Option<StackType>,
    pub(crate) below: usize,
}

/// Stacks by numbers. The empty one has the number 0, and each node makes one more.
#[derive(Drop)]
pub(crate) struct Pool {
    nodes: Vec<Node>,
}

impl Model for Pool {
    ghost use Rattle.std.specs.Prelude.{List};
    ghost use Rattle.il_flow.specs.Merging.{Held};
    ghost use Rattle.il_verifier.specs.Pools.{pool_of, AreLaid};

    ghost Value = { List (List Held) };

    ghost view = { λ pool. pool_of pool.nodes.items };

    ghost invariant = { λ pool. AreLaid 1 pool.nodes.items };
}

impl Pool {
    /// The empty stack alone.
    pub(crate) fn new(alloc: Global) -> Pool
        ensures { result ≡ [] ∷ [] }
    {
        Pool {
            nodes: Vec::new(alloc),
        }
    }

    /// The top of a stack, which the empty one has not.
    pub(crate) fn top(&self, id: usize) -> Option<&Node>
        requires { id < length self.now }
        ensures { IsTop self.now id (option_copied result) }
    {
        let nodes = &self.nodes;
        if id == 0 {
            return None;
        }
        Some(&nodes[id - 1])
    }

    /// One stack more: a value on another.
    pub(crate) fn push(
        &mut self,
        below: usize,
        held: Option<StackType>,
    ) -> Result<usize, AllocError>
        requires { below < length self.old }
        ensures { IfOk result (IsMade self.old self.new (stack_by self.old below ++ held ∷ [])) }
    {
        self.nodes.push(Node { held, below })?;
        Ok(self.nodes.len())
    }

    /// For each stack, whether types that do not merge met at a place of it.
    pub(crate) fn mixed(&self, alloc: Global) -> Result<Vec<bool>, AllocError>
        ensures { IfOk result (λ marks. marks.items ≡ map (list_any is_none) self.now) }
    {
        let mut marks = vec![in alloc; false]?;
        for node in &self.nodes {
            let mark = is_mixed(&marks, node);
            marks.push(mark)?;
        }
        Ok(marks)
    }
}

/// Whether types that do not merge met in the stack of a node, by the marks of those before it.
fn is_mixed(marks: &[bool], node: &Node) -> bool
    requires { node.now.below < length marks.now }
    ensures { result ≡ (slice_index_or marks.now node.now.below false || is_none node.now.held) }
{
    marks[node.below] || node.held.is_none()
}

/// The stack without its top. That without the top of an empty stack is empty.
fn below(pool: &Pool, id: usize) -> usize
    requires { id < length pool.now }
    ensures within { result < length pool.now }
    ensures below { stack_by pool.now result
        ≡ take (length (stack_by pool.now id) - 1) (stack_by pool.now id) }
{
    match pool.top(id) {
        Some(node) => node.below,
        None => id,
    }
}

/// The stack without so many values on its top.
fn beneath(pool: &Pool, id: usize, count: usize) -> usize
    requires { id < length pool.now }
    ensures within { result < length pool.now }
    ensures beneath { stack_by pool.now result
        ≡ take (length (stack_by pool.now id) - count) (stack_by pool.now id) }
{
    let mut low = id;
    for _ in 0..count {
        low = below(pool, low);
    }
    low
}

/// One more of the top of a stack, where it has one, and the stack below it.
fn take_top(
    alloc: Global,
    pool: &Pool,
    id: usize,
    onto: &mut Vec<Option<StackType>>,
) -> Result<usize, AllocError>
    requires { id < length pool.now }
    ensures within { IfOk result (λ low. low < length pool.now) }
    ensures taken { IfOk result (λ low. stack_by pool.now id ++ reverse onto.old.items
        ≡ stack_by pool.now low ++ reverse onto.new.items) }
    ensures counted { IfOk result (λ low. (length onto.new.items ≡ length onto.old.items + 1)
        ⊎ ((length onto.new.items ≡ length onto.old.items) × (stack_by pool.now id ≡ [])
        × (stack_by pool.now low ≡ []))) }
{
    let Some(node) = pool.top(id) else {
        return Ok(id);
    };
    onto.push(copy_held(alloc, node.held.as_ref())?)?;
    Ok(node.below)
}

/// So many values on the top of a stack, the lowest first, or all where there are fewer.
pub(crate) fn upper(
    alloc: Global,
    pool: &Pool,
    id: usize,
    count: usize,
) -> Result<Vec<Option<StackType>>, AllocError>
    requires { id < length pool.now }
    ensures { IfOk result (λ values. values.items
        ≡ drop (length (stack_by pool.now id) - count) (stack_by pool.now id)) }
{
    let mut values = Vec::new(alloc);
    let mut low = id;
    for _ in 0..count {
        low = take_top(alloc, pool, low, &mut values)?;
    }
    values.reverse();
    Ok(values)
}

/// The operands of an instruction on a stack.
pub(crate) fn operands(
    alloc: Global,
    pool: &Pool,
    effect: &Effect,
    id: usize,
) -> Result<Vec<Option<StackType>>, AllocError>
    requires { id < length pool.now }
    ensures { IfOk result (λ values.
        values.items ≡ operands_on effect.now (stack_by pool.now id)) }
{
    upper(alloc, pool, id, takes(&effect.operands))
}

/// The types of gifts are told without the operands: of a call, which may have many.
fn are_told(gives: &[Gift]) -> bool
    ensures { IsTrue result → (operands : List Held) →
        map (given []) gives.now ≡ map (given operands) gives.now }
{
    matches!(gives, [] | [Gift::Is(_)])
}

/// A stack with what an instruction gives on another.
fn push_gifts(
    alloc: Global,
    pool: &mut Pool,
    below: usize,
    operands: &[Option<StackType>],
    gives: &[Gift],
) -> Result<usize, AllocError>
    requires { below < length pool.old }
    ensures { IfOk result (IsMade pool.old pool.new
        (stack_by pool.old below ++ map (given operands.now) gives.now)) }
{
    let mut top = below;
    for gift in gives {
        top = pool.push(top, given(alloc, operands, gift)?)?;
    }
    Ok(top)
}

/// The stack after an instruction.
pub(crate) fn stack_after(
    alloc: Global,
    pool: &mut Pool,
    effect: &Effect,
    id: usize,
) -> Result<usize, AllocError>
    requires { id < length pool.old }
    ensures { IfOk result (IsMade pool.old pool.new
        (stack_after effect.now (stack_by pool.old id))) }
{
    let low = beneath(pool, id, takes(&effect.operands));
    let gives = effect.gives.items();
    if are_told(gives) {
        return push_gifts(alloc, pool, low, &[], gives);
    }
    let operands = operands(alloc, pool, effect, id)?;
    push_gifts(alloc, pool, low, &operands, gives)
}
