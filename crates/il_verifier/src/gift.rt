//! What an instruction gives.
ghost use Rattle.std.specs.Prelude.{◌≡◌, ◌∷◌, [], ◌&&◌, Some, if◌then◌else◌, option_copied, slice_index_or, IfOk};
ghost use Rattle.std.specs.Prelude.{unwrap_or};
ghost use Rattle.il_flow.specs.Families.{object};
ghost use Rattle.il_flow.specs.StackTypes.{is_reference};
ghost use Rattle.il_verifier.specs.Effects.{
  agreed,
  is_number,
  is_size,
  operand,
  sum_of,
  same_of,
  element_of,
  given,
};

use crate::effect::Gift;
use crate::keys::{is_reference, prim_key};
use il_flow::StackType;
use signatures::{Prim, TypeKey};
use std::alloc::{AllocError, Global};

/// The same type once more.
pub(crate) fn copy_type(alloc: Global, held: &StackType) -> Result<StackType, AllocError>
    ensures { IfOk result (λ copy. copy ≡ held.now) }
{
    match held {
        StackType::Int32 => Ok(StackType::Int32),
        StackType::Int64 => Ok(StackType::Int64),
        StackType::Native => Ok(StackType::Native),
        StackType::Null => Ok(StackType::Null),
        StackType::Ref(key) => Ok(StackType::Ref(key.share(alloc)?)),
    }
}

/// The same for what a place of the stack holds: nothing where types met that do not merge.
pub(crate) fn copy_held(
    alloc: Global,
    held: Option<&StackType>,
) -> Result<Option<StackType>, AllocError>
    ensures { IfOk result (λ copy. copy ≡ option_copied held.entry) }
{
    match held {
        Some(held) => Ok(Some(copy_type(alloc, held)?)),
        None => Ok(None),
    }
}

/// The operand at a place.
pub(crate) fn operand(operands: &[Option<StackType>], n: usize) -> Option<&StackType>
    ensures { option_copied result ≡ operand operands.now n }
{
    match operands.get(n) {
        Some(held) => held.as_ref(),
        None => None,
    }
}

/// The type of a sum of two numbers that go together.
pub(crate) fn agreed(a: &StackType, b: &StackType) -> Option<StackType>
    ensures { result ≡ agreed a.now b.now }
{
    match (a, b) {
        (StackType::Int32, StackType::Int32) => Some(StackType::Int32),
        (StackType::Int64, StackType::Int64) => Some(StackType::Int64),
        (StackType::Native, StackType::Native)
        | (StackType::Int32, StackType::Native)
        | (StackType::Native, StackType::Int32) => Some(StackType::Native),
        _ => None,
    }
}

pub(crate) fn is_number(held: &StackType) -> bool
    ensures { result ≡ is_number held.now }
{
    matches!(
        held,
        StackType::Int32 | StackType::Int64 | StackType::Native
    )
}

/// An index, a length or a count of bits.
pub(crate) fn is_size(held: &StackType) -> bool
    ensures { result ≡ is_size held.now }
{
    matches!(held, StackType::Int32 | StackType::Native)
}

/// What two operands make: the number on which they agree, or one of 32 bits; nothing where one
/// has no type.
fn sum_of(a: Option<&StackType>, b: Option<&StackType>) -> Option<StackType>
    ensures { result ≡ sum_of (option_copied a.entry) (option_copied b.entry) }
{
    match (a, b) {
        (Some(a), Some(b)) => Some(sum(a, b)),
        _ => None,
    }
}

fn sum(a: &StackType, b: &StackType) -> StackType
    ensures { result ≡ unwrap_or (agreed a.now b.now) StackType.Int32 }
{
    agreed(a, b).unwrap_or(StackType::Int32)
}

/// A number, where it is one and fits; else one of 32 bits.
fn number(held: &StackType, fits: bool) -> StackType
    ensures { result ≡ (if is_number held.now && fits then held.now else StackType.Int32) }
{
    match held {
        StackType::Int64 if fits => StackType::Int64,
        StackType::Native if fits => StackType::Native,
        _ => StackType::Int32,
    }
}

/// The lowest operand, where it is a number and a second one, if there is one, a count of bits; else
/// a number of 32 bits, and nothing where one has no type.
fn same_of(operands: &[Option<StackType>]) -> Option<StackType>
    ensures { result ≡ same_of operands.now }
{
    match operands {
        [Some(a)] => Some(number(a, true)),
        [Some(a), Some(b)] => Some(number(a, is_size(b))),
        _ => None,
    }
}

fn object(alloc: Global) -> Result<StackType, AllocError>
    ensures { IfOk result (λ held. held ≡ StackType.Ref object) }
{
    Ok(StackType::Ref(prim_key(alloc, Prim::Object)?))
}

/// A reference to a type, or to System.Object where values of the type are none.
fn element_type(alloc: Global, element: TypeKey) -> Result<StackType, AllocError>
    ensures { IfOk result (λ held. held
        ≡ (if is_reference element then StackType.Ref element else StackType.Ref object)) }
{
    if is_reference(element.key().parts()) {
        return Ok(StackType::Ref(element));
    }
    object(alloc)
}

/// The element of an array of references.
fn array_element(alloc: Global, key: &TypeKey) -> Result<StackType, AllocError>
    ensures { IfOk result (λ held. held ≡ element_of (Some (StackType.Ref key.now))) }
{
    match key.element(alloc)? {
        Some(element) => element_type(alloc, element),
        None => object(alloc),
    }
}

fn element_of(alloc: Global, held: Option<&StackType>) -> Result<StackType, AllocError>
    ensures { IfOk result (λ element. element ≡ element_of (option_copied held.entry)) }
{
    match held {
        Some(StackType::Null) => Ok(StackType::Null),
        Some(StackType::Ref(key)) => array_element(alloc, key),
        _ => object(alloc),
    }
}

/// The type of a gift.
pub(crate) fn given(
    alloc: Global,
    operands: &[Option<StackType>],
    gift: &Gift,
) -> Result<Option<StackType>, AllocError>
    ensures { IfOk result (λ held. held ≡ given operands.now gift.now) }
{
    match gift {
        Gift::Is(held) => Ok(Some(copy_type(alloc, held)?)),
        Gift::Again => copy_held(alloc, operand(operands, 0)),
        Gift::Sum => Ok(sum_of(operand(operands, 0), operand(operands, 1))),
        Gift::Same => Ok(same_of(operands)),
        Gift::Element => Ok(Some(element_of(alloc, operand(operands, 0))?)),
    }
}
