//! The least typing of a body.
ghost use Rattle.std.specs.Prelude.{◌≡◌, ◌<◌, ◌≤◌, ◌+◌, ◌++◌, ◌∷◌, [], ℕ, length, Contains, slice_set, slice_index_or, Some, None, IfOk, OnOk};
ghost use Rattle.il_verifier.specs.declared.joins.Join.{Join};
ghost use Rattle.il_verifier.specs.Depths.{start};
ghost use Rattle.il_verifier.specs.Faults.{NoneFails, FailsDepths, depth_rules};
ghost use Rattle.il_verifier.specs.Pools.{stack_by, Grows};
ghost use Rattle.il_verifier.specs.Search.{depth_at, LeadsInside};
ghost use Rattle.il_verifier.specs.Typings.{IsLeast};
ghost use Rattle.il_verifier.specs.Worklist.{
  stacks_by,
  weights,
  typing_of,
  AreIds,
  ArePlaced,
  AreSought,
  IsListed,
  IsSound,
  HasMet,
};

use crate::depth::{line_at, start};
use crate::joins::{Joins, Pair, join_pair};
use crate::laws::stacks_rise;
use crate::line::Line;
use crate::pool::{Pool, stack_after};
use crate::sweep::falling_numbers;
use crate::todo::Todo;
use il_flow::{Parents, merging_is_least, rank_falls_upwards};
use std::alloc::{AllocError, Global};

/// How far the search has come.
#[derive(Drop)]
struct Search {
    pool: Pool,
    joins: Joins,
    /// The stacks of the places that were visited.
    stacks: Vec<Option<usize>>,
    /// The visited places whose stacks are to be handed on.
    todo: Todo,
}

/// A stack for each place that is reached.
#[derive(Drop)]
pub(crate) struct Typing {
    pub(crate) pool: Pool,
    pub(crate) stacks: Vec<Option<usize>>,
}

/// A place has another stack than before, and is to be done.
fn set_stack(search: &mut Search, to: usize, id: usize) -> Result<(), AllocError>
    requires { to < length search.old.stacks.items }
    ensures pool { search.new.pool ≡ search.old.pool }
    ensures joins { search.new.joins ≡ search.old.joins }
    ensures stacks { search.new.stacks.items ≡ slice_set search.old.stacks.items to (Some id) }
    ensures todo { OnOk result (IsListed to search.old.todo search.new.todo) }
{
    search.stacks[to] = Some(id);
    search.todo.add(to)
}

/// Hands a stack on to a place.
fn meet<P: Parents>(
    alloc: Global,
    parents: &P,
    search: &mut Search,
    after: usize,
    to: usize,
) -> Result<(), AllocError>
    requires within { to < length search.old.stacks.items }
    requires there { after < length search.old.pool }
    requires even { (own : ℕ) → slice_index_or search.old.stacks.items to None ≡ Some own →
        length (stack_by search.old.pool own) ≡ length (stack_by search.old.pool after) }
    requires sound { IsSound (P.family parents.now) search.old.pool search.old.joins
        search.old.stacks.items }
    ensures sound { OnOk result (IsSound (P.family parents.now) search.new.pool search.new.joins
        search.new.stacks.items) }
    ensures grows { OnOk result (Grows search.old.pool search.new.pool) }
    ensures sized { OnOk result
        (length search.new.stacks.items ≡ length search.old.stacks.items) }
    ensures met { OnOk result (HasMet (P.family parents.now) (stack_by search.old.pool after) to
        (stacks_by search.old.pool search.old.stacks.items)
        (stacks_by search.new.pool search.new.stacks.items) search.old.todo search.new.todo) }
{
    let Some(own) = search.stacks[to] else {
        return set_stack(search, to, after);
    };
    let pair = Pair { own, after };
    let join = join_pair(alloc, parents, &mut search.pool, &mut search.joins, pair)?;
    if join.both == own {
        return Ok(());
    }
    set_stack(search, to, join.both)
}

/// Hands the stack at a place on to each place to which control passes from there.
fn hand_on<P: Parents>(
    alloc: Global,
    parents: &P,
    max: u16,
    lines: &[Option<Line>],
    search: &mut Search,
    at: usize,
) -> Result<(), AllocError>
    requires inside { LeadsInside lines.now }
    requires clear { NoneFails (FailsDepths max lines.now) depth_rules }
    requires sound { IsSound (P.family parents.now) search.old.pool search.old.joins
        search.old.stacks.items }
    requires sought { AreSought (P.family parents.now) max lines.now
        (stacks_by search.old.pool search.old.stacks.items) (search.old.todo ++ at ∷ []) }
    ensures sound { OnOk result (IsSound (P.family parents.now) search.new.pool search.new.joins
        search.new.stacks.items) }
    ensures sought { OnOk result (AreSought (P.family parents.now) max lines.now
        (stacks_by search.new.pool search.new.stacks.items) search.new.todo) }
    ensures lighter { OnOk result
        (weights (P.family parents.now) max (stacks_by search.new.pool search.new.stacks.items)
        + length search.new.todo
        ≤ weights (P.family parents.now) max (stacks_by search.old.pool search.old.stacks.items)
        + length search.old.todo) }
{
    merging_is_least();
    rank_falls_upwards();
    stacks_rise();
    let Some(line) = line_at(lines, at) else {
        return Ok(());
    };
    let Some(own) = search.stacks[at] else {
        return Ok(());
    };
    let after = stack_after(alloc, &mut search.pool, &line.effect, own)?;
    for place in line.goes.items() {
        let Some(to) = *place else {
            continue;
        };
        meet(alloc, parents, search, after, to)?;
    }
    Ok(())
}

/// Where the search begins: the stack of the first place is empty.
fn begin(alloc: Global, lines: &[Option<Line>]) -> Result<Search, AllocError>
    requires { 0 < length lines.now }
    ensures pool { IfOk result (λ search. search.pool ≡ [] ∷ []) }
    ensures joins { IfOk result (λ search.
        (join : Join) → Contains search.joins.joins (Some join) → ⊥) }
    ensures merges { IfOk result (λ search. search.joins.merges ≡ []) }
    ensures sized { IfOk result (λ search. length search.stacks.items ≡ length lines.now) }
    ensures stacks { IfOk result (λ search. (at : ℕ) → depth_at search.stacks.items at ≡ start at) }
    ensures todo { IfOk result (λ search. search.todo ≡ 0 ∷ []) }
{
    let numbers = falling_numbers(alloc, lines)?;
    Ok(Search {
        pool: Pool::new(alloc),
        joins: Joins::new(alloc, lines.len())?,
        stacks: start(alloc, lines.len())?,
        todo: Todo::new(alloc, numbers)?,
    })
}

/// The least typing of a body in which no rule on depths fails.
pub(crate) fn least_typing<P: Parents>(
    alloc: Global,
    parents: &P,
    max: u16,
    lines: &[Option<Line>],
) -> Result<Typing, AllocError>
    requires inside { LeadsInside lines.now }
    requires clear { NoneFails (FailsDepths max lines.now) depth_rules }
    ensures ids { IfOk result (λ typing. AreIds typing.pool typing.stacks.items) }
    ensures sized { IfOk result (λ typing. length typing.stacks.items ≡ length lines.now) }
    ensures placed { IfOk result (λ typing.
        ArePlaced max lines.now (stacks_by typing.pool typing.stacks.items)) }
    ensures least { IfOk result (λ typing. IsLeast (P.family parents.now) max lines.now
        (typing_of (stacks_by typing.pool typing.stacks.items))) }
{
    let mut search = begin(alloc, lines)?;
    'turns: while let Some(at) = search.todo.next() {
        hand_on(alloc, parents, max, lines, &mut search, at)?;
    }
    let Search { pool, stacks, .. } = search;
    Ok(Typing { pool, stacks })
}
