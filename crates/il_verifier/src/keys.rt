//! What the keys of types say of values.
ghost use Rattle.std.specs.Prelude.{◌≡◌, ◌↔◌, ◌∷◌, [], ◌++◌, IsTrue, IfOk};
ghost use Rattle.il_flow.specs.StackTypes.{is_reference};
ghost use Rattle.il_verifier.specs.Effects.{width_of, width_of_key};

use crate::kind::Width;
use signatures::{Key, KeyPart, Prim, TypeKey, equal_keys_are_same};
use std::alloc::{AllocError, Global};

/// How wide a number is in an array; `None` for what is no number.
fn width_of(prim: Prim) -> Option<Width>
    ensures { result ≡ width_of prim }
{
    match prim {
        Prim::Bool | Prim::Int8 | Prim::UInt8 => Some(Width::One),
        Prim::Char | Prim::Int16 | Prim::UInt16 => Some(Width::Two),
        Prim::Int32 | Prim::UInt32 => Some(Width::Four),
        Prim::Int64 | Prim::UInt64 => Some(Width::Eight),
        Prim::Native | Prim::UNative => Some(Width::Native),
        Prim::Text | Prim::Object => None,
    }
}

/// The same for a type.
pub(crate) fn width_of_key(parts: &[KeyPart]) -> Option<Width>
    ensures { result ≡ width_of_key parts.now }
{
    match parts {
        [KeyPart::Prim(prim), ..] => width_of(*prim),
        _ => None,
    }
}

/// Values of a type are references.
#[tactic(auto, using(crate::proofs::Widths::by_width))]
pub(crate) fn is_reference(parts: &[KeyPart]) -> bool
    ensures { result ≡ is_reference parts.now }
{
    width_of_key(parts).is_none()
}

pub(crate) fn is_same_key(a: &TypeKey, b: &TypeKey) -> bool
    ensures { IsTrue result ↔ (a.now ≡ b.now) }
{
    equal_keys_are_same();
    a == b
}

/// The type with a key of its own.
pub(crate) fn prim_key(alloc: Global, prim: Prim) -> Result<TypeKey, AllocError>
    ensures { IfOk result (λ key. key ≡ KeyPart.Prim prim ∷ []) }
{
    TypeKey::of(alloc, Key::of(vec![in alloc; KeyPart::Prim(prim)]?))
}

/// The array of a type.
pub(crate) fn array_key(alloc: Global, element: &TypeKey) -> Result<TypeKey, AllocError>
    ensures { IfOk result (λ key. key ≡ KeyPart.Vector ∷ element.now) }
{
    let mut parts = vec![in alloc; KeyPart::Vector]?;
    parts.extend_from_slice(element.key().parts())?;
    TypeKey::of(alloc, Key::of(parts))
}
