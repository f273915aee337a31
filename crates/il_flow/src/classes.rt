//! The class right above a type, and the chain of classes above it.
ghost use Rattle.std.specs.Prelude.{◌≡◌, ◌↔◌, IsTrue, IfOk, is_some, Contains};
ghost use Rattle.std.specs.List.{list_any};
ghost use Rattle.signatures.specs.SameKeys.{same_key};
ghost use Rattle.il_flow.specs.Families.{object, parent_of, above};
ghost use Rattle.il_flow.specs.Merging.{chain_of};
ghost use Rattle.signatures.specs.Keys.{element_of};

use crate::stack::Parents;
use signatures::{Key, KeyPart, Prim, TypeKey, equal_keys_are_same};
use std::alloc::{AllocError, Global};
use std::mem;

/// The parts of the key of System.Object.
const OBJECT: [KeyPart; 1] = [KeyPart::Prim(Prim::Object)];

/// The most classes that stand above a type: 64 by the law of `Parents`, and System.Object.
const MAX_ABOVE: u32 = 65;

/// The key is that of System.Object.
pub(crate) fn is_object(key: &TypeKey) -> bool
    ensures test { result ≡ same_key key.now object }
    ensures object { IsTrue result ↔ (key.now ≡ object) }
{
    equal_keys_are_same();
    key.key().parts() == OBJECT.as_slice()
}

/// The key is that of an array.
pub(crate) fn is_array(key: &TypeKey) -> bool
    ensures { result ≡ is_some (element_of key.now) }
{
    matches!(key.key().parts(), [KeyPart::Vector, ..])
}

/// One of the keys is this one.
pub(crate) fn is_among(key: &TypeKey, keys: &[TypeKey]) -> bool
    ensures test { result ≡ list_any (same_key key.now) keys.now }
    ensures among { IsTrue result ↔ Contains keys.now key.now }
{
    equal_keys_are_same();
    is_equal_to_any(key, keys)
}

fn is_equal_to_any(key: &TypeKey, keys: &[TypeKey]) -> bool
    ensures { result ≡ list_any (same_key key.now) keys.now }
{
    keys.iter().any(|other| key == other)
}

/// The parent of a type. An array has none.
pub(crate) fn parent_of<P: Parents>(
    alloc: Global,
    parents: &P,
    key: &TypeKey,
) -> Result<Option<TypeKey>, AllocError>
    ensures { IfOk result (λ parent. parent ≡ parent_of (P.family parents.now) key.now) }
{
    if is_array(key) {
        return Ok(None);
    }
    parents.parent(alloc, key)
}

fn object(alloc: Global) -> Result<TypeKey, AllocError>
    ensures { IfOk result (λ key. key ≡ object) }
{
    TypeKey::of(alloc, Key::of(Vec::from_slice(alloc, &OBJECT)?))
}

/// The class right above a type: its parent, or System.Object where it has none.
fn above<P: Parents>(
    alloc: Global,
    parents: &P,
    key: &TypeKey,
) -> Result<Option<TypeKey>, AllocError>
    ensures { IfOk result (λ next. next ≡ above (P.family parents.now) key.now) }
{
    if is_object(key) {
        return Ok(None);
    }
    match parent_of(alloc, parents, key)? {
        Some(parent) => Ok(Some(parent)),
        None => Ok(Some(object(alloc)?)),
    }
}

/// A type and the classes above it, the nearest first.
pub(crate) fn chain<P: Parents>(
    alloc: Global,
    parents: &P,
    key: &TypeKey,
) -> Result<Vec<TypeKey>, AllocError>
    ensures { IfOk result (λ keys. keys.items ≡ chain_of (P.family parents.now) key.now) }
{
    let mut keys = Vec::new(alloc);
    let mut last = key.share(alloc)?;
    for _ in 0..MAX_ABOVE {
        let Some(next) = above(alloc, parents, &last)? else {
            break;
        };
        keys.push(mem::replace(&mut last, next))?;
    }
    keys.push(last)?;
    Ok(keys)
}
