//! The rules on types at one instruction.
ghost use Rattle.std.specs.Prelude.{◌≡◌, ◌↔◌, ◌<◌, ◌∷◌, [], IsTrue, Some, length, option_copied, IfOk};
ghost use Rattle.std.specs.Prelude.{is_none};
ghost use Rattle.std.specs.List.{AllZip, list_any};
ghost use Rattle.il_flow.specs.StackTypes.{is_object};
ghost use Rattle.il_verifier.specs.Effects.{
  is_int32,
  IsOrSuits,
  AreElements,
  IsArrayOf,
  IsWanted,
  HasPlace,
};
ghost use Rattle.il_verifier.specs.Faults.{OnType, AreWanted, HavePlaces, Agree, IsGivenBack, Returns};
ghost use Rattle.il_verifier.specs.Pools.{stack_by};
ghost use Rattle.il_verifier.specs.TypeRules.{IsTypeRule};

use crate::effect::{Elements, Operands, Want};
use crate::gift::{agreed, is_number, is_size};
use crate::keys::{is_reference, is_same_key, width_of_key};
use crate::kind::Width;
use crate::known::Known;
use crate::line::Line;
use crate::pool::{Pool, operands, upper};
use host_events::VerifyRule;
use il_flow::{Parents, StackType};
use signatures::TypeKey;
use std::alloc::{AllocError, Global};

/// A width that was found is another.
fn is_width(found: Option<Width>, width: Width) -> bool
    ensures { IsTrue result ↔ (found ≡ Some width) }
{
    match (found, width) {
        (Some(Width::One), Width::One)
        | (Some(Width::Two), Width::Two)
        | (Some(Width::Four), Width::Four)
        | (Some(Width::Eight), Width::Eight)
        | (Some(Width::Native), Width::Native) => true,
        _ => false,
    }
}

/// Null, or a reference.
fn is_object(held: &StackType) -> bool
    ensures { result ≡ is_object held.now }
{
    matches!(held, StackType::Null | StackType::Ref(_))
}

fn is_int32(held: &StackType) -> bool
    ensures { result ≡ is_int32 held.now }
{
    matches!(held, StackType::Int32)
}

/// A type is the other, or both are references of which the one suits the other.
fn is_or_suits<P: Parents>(
    alloc: Global,
    parents: &Known<'_, P>,
    value: &TypeKey,
    place: &TypeKey,
) -> Result<bool, AllocError>
    ensures { IfOk result (λ fits. IsTrue fits
        ↔ IsOrSuits (P.family parents.now) value.now place.now) }
{
    if is_same_key(value, place) {
        return Ok(true);
    }
    if !is_reference(value.key().parts()) {
        return Ok(false);
    }
    if !is_reference(place.key().parts()) {
        return Ok(false);
    }
    parents.suits(alloc, value, place)
}

fn are_elements<P: Parents>(
    alloc: Global,
    parents: &Known<'_, P>,
    elements: &Elements,
    element: &TypeKey,
) -> Result<bool, AllocError>
    ensures { IfOk result (λ fits. IsTrue fits
        ↔ AreElements (P.family parents.now) elements.now element.now) }
{
    match elements {
        Elements::Any => Ok(true),
        Elements::Numbers(width) => Ok(is_width(width_of_key(element.key().parts()), *width)),
        Elements::References => Ok(is_reference(element.key().parts())),
        Elements::ReadAs(key) => is_or_suits(alloc, parents, element, key),
        Elements::WrittenAs(key) => is_or_suits(alloc, parents, key, element),
    }
}

/// A reference to an array of such elements.
fn is_such_array<P: Parents>(
    alloc: Global,
    parents: &Known<'_, P>,
    elements: &Elements,
    key: &TypeKey,
) -> Result<bool, AllocError>
    ensures { IfOk result (λ fits. IsTrue fits
        ↔ IsArrayOf (P.family parents.now) elements.now (StackType.Ref key.now)) }
{
    match key.element(alloc)? {
        Some(element) => are_elements(alloc, parents, elements, &element),
        None => Ok(false),
    }
}

/// Null, or an array of such elements.
fn is_array_of<P: Parents>(
    alloc: Global,
    parents: &Known<'_, P>,
    elements: &Elements,
    held: &StackType,
) -> Result<bool, AllocError>
    ensures { IfOk result (λ fits. IsTrue fits
        ↔ IsArrayOf (P.family parents.now) elements.now held.now) }
{
    match held {
        StackType::Null => Ok(true),
        StackType::Ref(key) => is_such_array(alloc, parents, elements, key),
        _ => Ok(false),
    }
}

/// An operand is of the kind that is wanted.
fn is_wanted<P: Parents>(
    alloc: Global,
    parents: &Known<'_, P>,
    want: &Want,
    held: &StackType,
) -> Result<bool, AllocError>
    ensures { IfOk result (λ fits. IsTrue fits
        ↔ IsWanted (P.family parents.now) want.now held.now) }
{
    match want {
        Want::Anything | Want::Into(_) => Ok(true),
        Want::Numeric => Ok(is_number(held)),
        Want::Size => Ok(is_size(held)),
        Want::Int32 => Ok(is_int32(held)),
        Want::Reference => Ok(is_object(held)),
        Want::ArrayOf(elements) => is_array_of(alloc, parents, elements, held),
    }
}

/// A value goes into its place, where one is wanted.
fn has_place<P: Parents>(
    alloc: Global,
    parents: &Known<'_, P>,
    want: &Want,
    held: &StackType,
) -> Result<bool, AllocError>
    ensures { IfOk result (λ fits. IsTrue fits
        ↔ HasPlace (P.family parents.now) want.now held.now) }
{
    match want {
        Want::Into(place) => parents.assignable(alloc, held, place),
        _ => Ok(true),
    }
}

/// The same where the operand has a type.
fn is_wanted_held<P: Parents>(
    alloc: Global,
    parents: &Known<'_, P>,
    want: &Want,
    held: Option<&StackType>,
) -> Result<bool, AllocError>
    ensures { IfOk result (λ fits. IsTrue fits
        ↔ OnType (IsWanted (P.family parents.now)) want.now (option_copied held.entry)) }
{
    match held {
        Some(held) => is_wanted(alloc, parents, want, held),
        None => Ok(false),
    }
}

fn has_place_held<P: Parents>(
    alloc: Global,
    parents: &Known<'_, P>,
    want: &Want,
    held: Option<&StackType>,
) -> Result<bool, AllocError>
    ensures { IfOk result (λ fits. IsTrue fits
        ↔ OnType (HasPlace (P.family parents.now)) want.now (option_copied held.entry)) }
{
    match held {
        Some(held) => has_place(alloc, parents, want, held),
        None => Ok(false),
    }
}

/// Each operand is of the kind that is wanted.
fn each_is_wanted<P: Parents>(
    alloc: Global,
    parents: &Known<'_, P>,
    wants: &[Want],
    held: &[Option<StackType>],
) -> Result<bool, AllocError>
    ensures { IfOk result (λ fits. IsTrue fits
        ↔ AllZip (OnType (IsWanted (P.family parents.now))) wants.now held.now) }
{
    if wants.len() != held.len() {
        return Ok(false);
    }
    for i in 0..wants.len() {
        if !is_wanted_held(alloc, parents, &wants[i], held[i].as_ref())? {
            return Ok(false);
        }
    }
    Ok(true)
}

/// Each value goes into its place, where one is wanted.
fn each_has_place<P: Parents>(
    alloc: Global,
    parents: &Known<'_, P>,
    wants: &[Want],
    held: &[Option<StackType>],
) -> Result<bool, AllocError>
    ensures { IfOk result (λ fits. IsTrue fits
        ↔ AllZip (OnType (HasPlace (P.family parents.now))) wants.now held.now) }
{
    if wants.len() != held.len() {
        return Ok(false);
    }
    for i in 0..wants.len() {
        if !has_place_held(alloc, parents, &wants[i], held[i].as_ref())? {
            return Ok(false);
        }
    }
    Ok(true)
}

/// Two numbers go together or, where it says so, two references.
fn agree(references: bool, held: &[Option<StackType>]) -> bool
    ensures { IsTrue result ↔ Agree references held.now }
{
    match held {
        [Some(a), Some(b)] => go_together(references, a, b),
        _ => false,
    }
}

fn go_together(references: bool, a: &StackType, b: &StackType) -> bool
    ensures { IsTrue result ↔ Agree references (Some a.now ∷ Some b.now ∷ []) }
{
    if agreed(a, b).is_some() {
        return true;
    }
    references && is_object(a) && is_object(b)
}

/// The operands are of the kinds that are wanted.
fn are_wanted<P: Parents>(
    alloc: Global,
    parents: &Known<'_, P>,
    operands: &Operands,
    held: &[Option<StackType>],
) -> Result<bool, AllocError>
    ensures { IfOk result (λ fits. IsTrue fits
        ↔ AreWanted (P.family parents.now) operands.now held.now) }
{
    match operands {
        Operands::Each(wants) => each_is_wanted(alloc, parents, wants.items(), held),
        Operands::Agreeing(references) => Ok(agree(*references, held)),
        Operands::Returned(_) => Ok(true),
    }
}

/// The operands go into their places.
fn have_places<P: Parents>(
    alloc: Global,
    parents: &Known<'_, P>,
    operands: &Operands,
    held: &[Option<StackType>],
) -> Result<bool, AllocError>
    ensures { IfOk result (λ fits. IsTrue fits
        ↔ HavePlaces (P.family parents.now) operands.now held.now) }
{
    match operands {
        Operands::Each(wants) => each_has_place(alloc, parents, wants.items(), held),
        _ => Ok(true),
    }
}

/// A stack is just one value that goes into a place.
fn gives_back<P: Parents>(
    alloc: Global,
    parents: &Known<'_, P>,
    place: &StackType,
    stack: &[Option<StackType>],
) -> Result<bool, AllocError>
    ensures { IfOk result (λ fits. IsTrue fits
        ↔ IsGivenBack (P.family parents.now) (Some place.now) stack.now) }
{
    match stack {
        [Some(held)] => parents.assignable(alloc, held, place),
        _ => Ok(false),
    }
}

/// A stack is what a method gives back.
fn is_given_back<P: Parents>(
    alloc: Global,
    parents: &Known<'_, P>,
    given: &Option<StackType>,
    stack: &[Option<StackType>],
) -> Result<bool, AllocError>
    ensures { IfOk result (λ fits. IsTrue fits
        ↔ IsGivenBack (P.family parents.now) given.now stack.now) }
{
    match given {
        Some(place) => gives_back(alloc, parents, place, stack),
        None => Ok(stack.is_empty()),
    }
}

/// At a return a stack is what the method gives back.
fn returns<P: Parents>(
    alloc: Global,
    parents: &Known<'_, P>,
    operands: &Operands,
    stack: &[Option<StackType>],
) -> Result<bool, AllocError>
    ensures { IfOk result (λ fits. IsTrue fits
        ↔ Returns (P.family parents.now) operands.now stack.now) }
{
    match operands {
        Operands::Returned(given) => is_given_back(alloc, parents, given, stack),
        _ => Ok(true),
    }
}

/// At a return the stack with a number is what the method gives back. That is told by the two values
/// on its top.
fn returns_well<P: Parents>(
    alloc: Global,
    parents: &Known<'_, P>,
    operands: &Operands,
    pool: &Pool,
    id: usize,
) -> Result<bool, AllocError>
    requires { id < length pool.now }
    ensures { IfOk result (λ fits. IsTrue fits
        ↔ Returns (P.family parents.now) operands.now (stack_by pool.now id)) }
{
    let top = upper(alloc, pool, id, 2)?;
    returns(alloc, parents, operands, &top)
}

/// The first rule on types that an instruction fails on the stack with a number, of which is told
/// whether types that do not merge met at a place of it.
pub(crate) fn type_rule<P: Parents>(
    alloc: Global,
    parents: &Known<'_, P>,
    line: &Line,
    pool: &Pool,
    id: usize,
    is_mixed: bool,
) -> Result<Option<VerifyRule>, AllocError>
    requires within { id < length pool.now }
    requires mixed { is_mixed ≡ list_any is_none (stack_by pool.now id) }
    ensures { IfOk result (IsTypeRule (P.family parents.now) line.now (stack_by pool.now id)) }
{
    if is_mixed {
        return Ok(Some(VerifyRule::Kind));
    }
    let operands = operands(alloc, pool, &line.effect, id)?;
    let held = operands.as_slice();
    if !are_wanted(alloc, parents, &line.effect.operands, held)? {
        return Ok(Some(VerifyRule::Operand));
    }
    if !have_places(alloc, parents, &line.effect.operands, held)? {
        return Ok(Some(VerifyRule::Assign));
    }
    if !returns_well(alloc, parents, &line.effect.operands, pool, id)? {
        return Ok(Some(VerifyRule::Return));
    }
    Ok(None)
}
