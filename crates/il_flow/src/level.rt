//! The types that stand so many steps above a type, by parents and interfaces.
ghost use Rattle.std.specs.Prelude.{◌≡◌, ◌⊎◌, ◌↔◌, IsTrue, IfOk, OnOk, Contains, List};
ghost use Rattle.signatures.specs.declared.key.KeyPart.{KeyPart};
ghost use Rattle.il_flow.specs.Families.{interfaces_of, Names, IsLed};
ghost use Rattle.il_flow.specs.Assigning.{AreJust};

use crate::classes::{is_among, is_array, parent_of};
use crate::stack::Parents;
use signatures::TypeKey;
use std::alloc::{AllocError, Global};

/// The most steps that lead up from a type, by the law of `Parents`.
const MAX_STEPS: u32 = 64;

/// One more key, where it isn't among them yet.
fn add_key(keys: &mut Vec<TypeKey>, key: TypeKey) -> Result<(), AllocError>
    ensures { OnOk result (AreJust keys.new.items
        (λ other. Contains keys.old.items other ⊎ (key ≡ other))) }
{
    if is_among(&key, keys) {
        return Ok(());
    }
    keys.push(key)?;
    Ok(())
}

/// The interfaces of a type.
fn add_interfaces<P: Parents>(
    alloc: Global,
    parents: &P,
    key: &TypeKey,
    keys: &mut Vec<TypeKey>,
) -> Result<(), AllocError>
    ensures { OnOk result (AreJust keys.new.items (λ other. Contains keys.old.items other
        ⊎ Contains (interfaces_of (P.family parents.now) key.now) other)) }
{
    if is_array(key) {
        return Ok(());
    }
    let mut n = 1;
    while let Some(interface) = parents.interface(alloc, key, n)? {
        add_key(keys, interface)?;
        n += 1;
    }
    Ok(())
}

/// The parent and the interfaces of a type.
fn add_above<P: Parents>(
    alloc: Global,
    parents: &P,
    key: &TypeKey,
    keys: &mut Vec<TypeKey>,
) -> Result<(), AllocError>
    ensures { OnOk result (AreJust keys.new.items (λ other. Contains keys.old.items other
        ⊎ Names (P.family parents.now) key.now other)) }
{
    if let Some(parent) = parent_of(alloc, parents, key)? {
        add_key(keys, parent)?;
    }
    add_interfaces(alloc, parents, key, keys)
}

/// The types one step above those of a level, each once.
fn next_level<P: Parents>(
    alloc: Global,
    parents: &P,
    level: &[TypeKey],
) -> Result<Vec<TypeKey>, AllocError>
    ensures { IfOk result (λ next. AreJust next.items (λ high. (low : List KeyPart)
        × Contains level.now low × Names (P.family parents.now) low high)) }
{
    let mut next = Vec::new(alloc);
    for key in level {
        add_above(alloc, parents, key, &mut next)?;
    }
    Ok(next)
}

/// Steps to parents and interfaces lead from one type to another. It goes up level by level, each
/// type of a level once: there can be far more ways up than types.
pub(crate) fn leads<P: Parents>(
    alloc: Global,
    parents: &P,
    low: &TypeKey,
    high: &TypeKey,
) -> Result<bool, AllocError>
    ensures { IfOk result (λ found. IsTrue found ↔ IsLed (P.family parents.now) low.now high.now) }
{
    let mut level = vec![in alloc; low.share(alloc)?]?;
    for _ in 0..MAX_STEPS {
        if is_among(high, &level) {
            return Ok(true);
        }
        level = next_level(alloc, parents, &level)?;
    }
    Ok(is_among(high, &level))
}
