//! Merging of stack types.
ghost use Rattle.std.specs.Prelude.{◌≡◌, IfOk};
ghost use Rattle.std.specs.List.{find, list_any};
ghost use Rattle.signatures.specs.SameKeys.{same_key};
ghost use Rattle.il_flow.specs.Merging.{nearest, merged};

use crate::classes::{chain, is_among};
use crate::stack::{Parents, StackType};
use signatures::TypeKey;
use std::alloc::{AllocError, Global};

/// The type that two types merge to where two ways meet: equal types as they are, null with a
/// reference as that reference, two references as their nearest common class. `None` exactly where
/// they do not merge. ECMA-335 III.1.8.1.3.
pub fn merge<P: Parents>(
    alloc: Global,
    parents: &P,
    a: &StackType,
    b: &StackType,
) -> Result<Option<StackType>, AllocError>
    ensures { IfOk result (λ type. type ≡ merged (P.family parents.now) a.now b.now) }
{
    match (a, b) {
        (StackType::Int32, StackType::Int32) => Ok(Some(StackType::Int32)),
        (StackType::Int64, StackType::Int64) => Ok(Some(StackType::Int64)),
        (StackType::Native, StackType::Native) => Ok(Some(StackType::Native)),
        (StackType::Null, StackType::Null) => Ok(Some(StackType::Null)),
        (StackType::Null, StackType::Ref(key)) | (StackType::Ref(key), StackType::Null) => {
            Ok(Some(StackType::Ref(key.share(alloc)?)))
        }
        (StackType::Ref(a), StackType::Ref(b)) => {
            let class = nearest(alloc, parents, a, b)?;
            Ok(class.map(StackType::Ref))
        }
        _ => Ok(None),
    }
}

/// The nearest class above two types, or one of them.
fn nearest<P: Parents>(
    alloc: Global,
    parents: &P,
    a: &TypeKey,
    b: &TypeKey,
) -> Result<Option<TypeKey>, AllocError>
    ensures { IfOk result (λ class. class ≡ nearest (P.family parents.now) a.now b.now) }
{
    let a_chain = chain(alloc, parents, a)?;
    let b_chain = chain(alloc, parents, b)?;
    first_among(alloc, &a_chain, &b_chain)
}

/// The first key that is among others.
fn first_among(
    alloc: Global,
    keys: &[TypeKey],
    others: &[TypeKey],
) -> Result<Option<TypeKey>, AllocError>
    ensures { IfOk result (λ found.
        found ≡ find (λ key. list_any (same_key key) others.now) keys.now) }
{
    for key in keys {
        if is_among(key, others) {
            return Ok(Some(key.share(alloc)?));
        }
    }
    Ok(None)
}
