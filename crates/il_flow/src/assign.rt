//! Which values may go into a place.
ghost use Rattle.std.specs.Prelude.{◌≡◌, ◌↔◌, IsTrue, IfOk};
ghost use Rattle.il_flow.specs.Assigning.{IsKindOf, Suits, IsAssignable};

use crate::classes::is_object;
use crate::level::leads;
use crate::stack::{Parents, StackType, is_reference};
use signatures::TypeKey;
use std::alloc::{AllocError, Global};

/// Whether a value of one type may go into a place of another: the same number, an int32 into a
/// native place, null into any reference, a reference into its classes, its interfaces and
/// System.Object, an array of references into an array of what its elements may go into. ECMA-335
/// III.1.8.1.2.3.
pub fn assignable<P: Parents>(
    alloc: Global,
    parents: &P,
    value: &StackType,
    place: &StackType,
) -> Result<bool, AllocError>
    ensures { IfOk result (λ fits.
        IsTrue fits ↔ IsAssignable (P.family parents.now) value.now place.now) }
{
    match (value, place) {
        (StackType::Int32, StackType::Int32 | StackType::Native)
        | (StackType::Int64, StackType::Int64)
        | (StackType::Native, StackType::Native)
        | (StackType::Null, StackType::Ref(_)) => Ok(true),
        (StackType::Ref(value), StackType::Ref(place)) => suits(alloc, parents, value, place),
        _ => Ok(false),
    }
}

/// The type of a place is that of the value, stands above it, or is an array like it whose elements
/// take its elements.
fn suits<P: Parents>(
    alloc: Global,
    parents: &P,
    value: &TypeKey,
    place: &TypeKey,
) -> Result<bool, AllocError>
    ensures { IfOk result (λ fits. IsTrue fits ↔ Suits (P.family parents.now) value.now place.now) }
{
    let mut low = value.share(alloc)?;
    let mut high = place.share(alloc)?;
    while !is_kind_of(alloc, parents, &low, &high)? {
        let Some(from) = low.element(alloc)? else {
            return Ok(false);
        };
        let Some(to) = high.element(alloc)? else {
            return Ok(false);
        };
        if !is_reference(&from) || !is_reference(&to) {
            return Ok(false);
        }
        low = from;
        high = to;
    }
    Ok(true)
}

/// A type is another, or stands above it.
fn is_kind_of<P: Parents>(
    alloc: Global,
    parents: &P,
    value: &TypeKey,
    place: &TypeKey,
) -> Result<bool, AllocError>
    ensures { IfOk result (λ is.
        IsTrue is ↔ IsKindOf (P.family parents.now) value.now place.now) }
{
    if is_object(place) {
        return Ok(true);
    }
    leads(alloc, parents, value, place)
}
