//! What was found of pairs of types, so that it is not sought again.
ghost use Rattle.std.specs.Prelude.{◌≡◌, ◌⊎◌, ◌≤◌, [], length, IsTrue, Some, Contains};
ghost use Rattle.std.specs.Prelude.{option_copied, IfOk};
ghost use Rattle.il_verifier.specs.declared.pairs.Entry.{Entry};

use crate::keys::is_same_key;
use signatures::{KeyPart, TypeKey};
use std::alloc::{AllocError, Global};
use std::cmp::Ordering;
use std::marker::Model;

/// What was found of two types.
#[derive(Drop)]
pub(crate) struct Entry<T> {
    pub(crate) low: TypeKey,
    pub(crate) high: TypeKey,
    pub(crate) found: T,
}

/// What was found of pairs of types, in an order of the pairs.
#[derive(Drop)]
pub(crate) struct Pairs<T> {
    kept: Vec<Entry<T>>,
}

impl<T> Model for Pairs<T> {
    ghost use Rattle.std.specs.Prelude.{List};
    ghost use Rattle.il_verifier.specs.declared.pairs.Entry.{Entry};

    ghost Value = { List (Entry T) };

    ghost view = { λ pairs. pairs.kept.items };
}

/// Numbers that no two parts have in common. A row is never 0.
fn numbers(part: KeyPart) -> (u32, u32, u32) {
    match part {
        KeyPart::Class {
            assembly,
            row,
            args,
        } => (row, assembly, args),
        KeyPart::Prim(prim) => (0, 0, prim as u32),
        KeyPart::Vector => (0, 1, 0),
    }
}

fn part_order(a: KeyPart, b: KeyPart) -> Ordering {
    numbers(a).cmp(&numbers(b))
}

fn key_order(a: &[KeyPart], b: &[KeyPart]) -> Ordering {
    for i in 0..a.len() {
        let Some(other) = b.get(i) else {
            return Ordering::Greater;
        };
        let order = part_order(a[i], *other);
        if order.is_ne() {
            return order;
        }
    }
    a.len().cmp(&b.len())
}

fn pair_order<T>(entry: &Entry<T>, low: &TypeKey, high: &TypeKey) -> Ordering {
    let order = key_order(entry.low.key().parts(), low.key().parts());
    if order.is_ne() {
        return order;
    }
    key_order(entry.high.key().parts(), high.key().parts())
}

/// How many pairs stand before two types.
fn place_of<T>(kept: &[Entry<T>], low: &TypeKey, high: &TypeKey) -> usize
    ensures { result ≤ length kept.now }
{
    let mut start = 0;
    let mut size = kept.len();
    'halves: while size > 0 {
        let half = size / 2;
        if pair_order(&kept[start + half], low, high).is_lt() {
            start += half + 1;
            size -= half + 1;
        } else {
            size = half;
        }
    }
    start
}

fn is_of<T>(entry: &Entry<T>, low: &TypeKey, high: &TypeKey) -> bool
    ensures { IsTrue result → (entry.now.low ≡ low.now) × (entry.now.high ≡ high.now) }
{
    is_same_key(&entry.low, low) && is_same_key(&entry.high, high)
}

impl<T: Drop> Entry<T> {
    /// What was found of two types, by keys of its own.
    pub(crate) fn of(
        alloc: Global,
        low: &TypeKey,
        high: &TypeKey,
        found: T,
    ) -> Result<Entry<T>, AllocError>
        ensures { IfOk result (λ entry.
            entry ≡ record { low = low.now; high = high.now; found = found }) }
    {
        let low = low.share(alloc)?;
        let high = high.share(alloc)?;
        Ok(Entry { low, high, found })
    }
}

impl<T: Drop> Pairs<T> {
    /// No pair.
    pub(crate) fn new(alloc: Global) -> Pairs<T>
        ensures { result ≡ [] }
    {
        Pairs {
            kept: Vec::new(alloc),
        }
    }

    /// What was found of two types, where that is known.
    pub(crate) fn find(&self, low: &TypeKey, high: &TypeKey) -> Option<&T>
        ensures { (found : T) → option_copied result ≡ Some found →
            Contains self.now (record { low = low.now; high = high.now; found = found }) }
    {
        let at = place_of(&self.kept, low, high);
        match self.kept.get(at) {
            Some(entry) if is_of(entry, low, high) => Some(&entry.found),
            _ => None,
        }
    }

    /// Notes what was found of two types.
    pub(crate) fn note(&mut self, entry: Entry<T>) -> Result<(), AllocError>
        ensures { (other : Entry T) → Contains self.new other →
            Contains self.old other ⊎ (other ≡ entry) }
    {
        let at = place_of(&self.kept, &entry.low, &entry.high);
        self.kept.insert(at, entry)?;
        Ok(())
    }
}
