//! Two stacks as one.
ghost use Rattle.std.specs.Prelude.{◌≡◌, ◌≢◌, ◌⊎◌, ◌↔◌, [], IsTrue, not, Contains, Some};
ghost use Rattle.std.specs.Prelude.{IfOk, OnOk};
ghost use Rattle.il_flow.specs.Merging.{joined, merged};
ghost use Rattle.il_verifier.specs.declared.joins.Join.{Join};
ghost use Rattle.il_verifier.specs.Pools.{
  stack_by,
  Grows,
  IsEven,
  IsJoin,
  AreMerges,
  AreNoted,
  IsKnown,
  IsStep,
  IsWay,
};

use crate::filled::nothing_at;
use crate::gift::copy_held;
use crate::keys::is_same_key;
use crate::pairs::{Entry, Pairs};
use crate::pool::Pool;
use il_flow::{Parents, StackType, merge, merging_is_least};
use std::alloc::{AllocError, Global};
use std::marker::Model;

/// The stack of a place, and one that is handed on to it.
#[derive(Clone, Copy)]
pub(crate) struct Pair {
    pub(crate) own: usize,
    pub(crate) after: usize,
}

/// A pair, and its two stacks as one.
#[derive(Clone, Copy)]
pub(crate) struct Join {
    pub(crate) pair: Pair,
    pub(crate) both: usize,
}

/// What references merge to.
type Merges = Pairs<Option<StackType>>;

/// Some of the joins that were made, and each merging of two references. A join of two deep stacks
/// is often asked for again, at another place or with other values on top.
#[derive(Drop)]
pub(crate) struct Joins {
    kept: Vec<Option<Join>>,
    merges: Merges,
}

impl Model for Joins {
    ghost use Rattle.std.specs.Prelude.{◌<◌, length};
    ghost use Rattle.il_verifier.specs.Pools.{Noted};

    ghost Value = { Noted };

    ghost view = { λ joins. record { joins = joins.kept.items; merges = joins.merges } };

    ghost invariant = { λ joins. 0 < length joins.kept.items };
}

impl Joins {
    /// Room for so many, and for one at least.
    pub(crate) fn new(alloc: Global, room: usize) -> Result<Joins, AllocError>
        ensures joins { IfOk result (λ noted.
            (join : Join) → Contains noted.joins (Some join) → ⊥) }
        ensures merges { IfOk result (λ noted. noted.merges ≡ []) }
    {
        Ok(Joins {
            kept: nothing_at(alloc, room.max(1))?,
            merges: Pairs::new(alloc),
        })
    }

    /// A pair as one stack, where that is known.
    fn known(&self, pair: Pair) -> Option<usize>
        ensures { IsKnown self.now.joins pair result }
    {
        if pair.own == pair.after {
            return Some(pair.own);
        }
        match self.kept[pair.own % self.kept.len()] {
            Some(join) if is_same(join.pair, pair) => Some(join.both),
            _ => None,
        }
    }

    /// Notes a join in the place of another.
    fn note(&mut self, join: Join)
        ensures joins { (other : Join) → Contains self.new.joins (Some other) →
            Contains self.old.joins (Some other) ⊎ (other ≡ join) }
        ensures merges { self.new.merges ≡ self.old.merges }
    {
        let slot = join.pair.own % self.kept.len();
        self.kept[slot] = Some(join);
    }
}

fn is_same(a: Pair, b: Pair) -> bool
    ensures { IsTrue result → a ≡ b }
{
    a.own == b.own && a.after == b.after
}

fn is_same_type(a: &StackType, b: &StackType) -> bool
    ensures { IsTrue result ↔ (a.now ≡ b.now) }
{
    match (a, b) {
        (StackType::Int32, StackType::Int32)
        | (StackType::Int64, StackType::Int64)
        | (StackType::Native, StackType::Native)
        | (StackType::Null, StackType::Null) => true,
        (StackType::Ref(a), StackType::Ref(b)) => is_same_key(a, b),
        _ => false,
    }
}

fn is_same_held(a: &Option<StackType>, b: &Option<StackType>) -> bool
    ensures { IsTrue result ↔ (a.now ≡ b.now) }
{
    match (a, b) {
        (Some(a), Some(b)) => is_same_type(a, b),
        (None, None) => true,
        _ => false,
    }
}

/// What two types merge to. It is sought once for two references: their chains are long.
fn merge_once<P: Parents>(
    alloc: Global,
    parents: &P,
    merges: &mut Merges,
    own: &StackType,
    after: &StackType,
) -> Result<Option<StackType>, AllocError>
    requires { AreMerges (P.family parents.now) merges.old }
    ensures merges { OnOk result (AreMerges (P.family parents.now) merges.new) }
    ensures held { IfOk result (λ held.
        held ≡ merged (P.family parents.now) own.now after.now) }
{
    let (StackType::Ref(low), StackType::Ref(high)) = (own, after) else {
        return merge(alloc, parents, own, after);
    };
    if let Some(held) = merges.find(low, high) {
        return copy_held(alloc, held.as_ref());
    }
    let held = merge(alloc, parents, own, after)?;
    let found = copy_held(alloc, held.as_ref())?;
    merges.note(Entry::of(alloc, low, high, found)?)?;
    Ok(held)
}

/// What two places of a stack hold, as one.
fn join_held<P: Parents>(
    alloc: Global,
    parents: &P,
    merges: &mut Merges,
    own: &Option<StackType>,
    after: &Option<StackType>,
) -> Result<Option<StackType>, AllocError>
    requires { AreMerges (P.family parents.now) merges.old }
    ensures merges { OnOk result (AreMerges (P.family parents.now) merges.new) }
    ensures held { IfOk result (λ held.
        held ≡ joined (P.family parents.now) own.now after.now) }
{
    merging_is_least();
    if is_same_held(own, after) {
        return copy_held(alloc, own.as_ref());
    }
    match (own, after) {
        (Some(own), Some(after)) => merge_once(alloc, parents, merges, own, after),
        _ => Ok(None),
    }
}

/// The pair that lies right below the stacks of one, which are not the same.
fn below_both(pool: &Pool, pair: Pair) -> Pair
    requires even { IsEven pool.now pair }
    requires apart { pair.own ≢ pair.after }
    ensures step { IsStep pool.now pair result }
    ensures even { IsEven pool.now result }
{
    let top = pool.top(pair.after);
    let Some(own) = pool.top(pair.own) else {
        unreachable!()
    };
    let Some(after) = top else { unreachable!() };
    Pair {
        own: own.below,
        after: after.below,
    }
}

/// The pairs from one down to one of which the join is known.
#[derive(Drop)]
struct Descent {
    path: Vec<Pair>,
    low: Join,
}

fn descend(alloc: Global, pool: &Pool, joins: &Joins, pair: Pair) -> Result<Descent, AllocError>
    requires { IsEven pool.now pair }
    ensures way { IfOk result (λ found. IsWay pool.now pair found.path.items found.low.pair) }
    ensures even { IfOk result (λ found. IsEven pool.now found.low.pair) }
    ensures known { IfOk result (λ found.
        IsKnown joins.now.joins found.low.pair (Some found.low.both)) }
{
    let mut path = Vec::new(alloc);
    let mut pair = pair;
    'down: loop {
        if let Some(both) = joins.known(pair) {
            let low = Join { pair, both };
            return Ok(Descent { path, low });
        }
        path.push(pair)?;
        pair = below_both(pool, pair);
    }
}

/// A value on a stack is the same as another one on another.
fn is_same_top(
    below: usize,
    held: &Option<StackType>,
    other: usize,
    its: &Option<StackType>,
) -> bool
    ensures yes { IsTrue result → (below ≡ other) × (held.now ≡ its.now) }
    ensures no { IsTrue (not result) → (below ≢ other) ⊎ (held.now ≢ its.now) }
{
    below == other && is_same_held(held, its)
}

/// The join of a pair that lies one step above another, by the join of that.
fn raise<P: Parents>(
    alloc: Global,
    parents: &P,
    merges: &mut Merges,
    pool: &mut Pool,
    low: Join,
    pair: Pair,
) -> Result<Join, AllocError>
    requires merges { AreMerges (P.family parents.now) merges.old }
    requires step { IsStep pool.old pair low.pair }
    requires low { IsJoin (P.family parents.now) pool.old low }
    ensures merges { OnOk result (AreMerges (P.family parents.now) merges.new) }
    ensures grows { OnOk result (Grows pool.old pool.new) }
    ensures pair { IfOk result (λ join. join.pair ≡ pair) }
    ensures join { IfOk result (IsJoin (P.family parents.now) pool.new) }
{
    let Some(own) = pool.top(pair.own) else {
        unreachable!()
    };
    let Some(after) = pool.top(pair.after) else {
        unreachable!()
    };
    let held = join_held(alloc, parents, merges, &own.held, &after.held)?;
    if is_same_top(low.both, &held, low.pair.own, &own.held) {
        let both = pair.own;
        return Ok(Join { pair, both });
    }
    if is_same_top(low.both, &held, low.pair.after, &after.held) {
        let both = pair.after;
        return Ok(Join { pair, both });
    }
    let both = pool.push(low.both, held)?;
    Ok(Join { pair, both })
}

/// The join of the pair from which a path leads down to another, by the join of that.
fn ascend<P: Parents>(
    alloc: Global,
    parents: &P,
    pool: &mut Pool,
    joins: &mut Joins,
    descent: Descent,
    start: Pair,
) -> Result<Join, AllocError>
    requires way { IsWay pool.old start descent.path.items descent.low.pair }
    requires low { IsJoin (P.family parents.now) pool.old descent.low }
    requires joins { AreNoted (P.family parents.now) pool.old joins.old }
    ensures grows { OnOk result (Grows pool.old pool.new) }
    ensures joins { OnOk result (AreNoted (P.family parents.now) pool.new joins.new) }
    ensures pair { IfOk result (λ join. join.pair ≡ start) }
    ensures join { IfOk result (IsJoin (P.family parents.now) pool.new) }
{
    let Descent { mut path, low } = descent;
    let mut join = low;
    'up: while let Some(pair) = path.pop() {
        join = raise(alloc, parents, &mut joins.merges, pool, join, pair)?;
        joins.note(join);
    }
    Ok(join)
}

/// Two stacks of one depth as one. It goes down to where that is known, and up again.
pub(crate) fn join_pair<P: Parents>(
    alloc: Global,
    parents: &P,
    pool: &mut Pool,
    joins: &mut Joins,
    pair: Pair,
) -> Result<Join, AllocError>
    requires even { IsEven pool.old pair }
    requires joins { AreNoted (P.family parents.now) pool.old joins.old }
    ensures grows { OnOk result (Grows pool.old pool.new) }
    ensures joins { OnOk result (AreNoted (P.family parents.now) pool.new joins.new) }
    ensures pair { IfOk result (λ join. join.pair ≡ pair) }
    ensures join { IfOk result (IsJoin (P.family parents.now) pool.new) }
{
    merging_is_least();
    let descent = descend(alloc, pool, joins, pair)?;
    ascend(alloc, parents, pool, joins, descent, pair)
}
