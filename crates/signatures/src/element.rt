//! Element types. ECMA-335 II.23.1.16.
ghost use Rattle.std.specs.Prelude.{◌≡◌};
ghost use Rattle.signatures.specs.Elements.{element_of};

use crate::feature::Feature;
use crate::sig::Primitive;

/// VOID, of a result alone.
pub(crate) const VOID: u8 = 0x01;

/// VALUETYPE.
pub(crate) const VALUE_TYPE: u8 = 0x11;

/// CLASS.
pub(crate) const CLASS: u8 = 0x12;

/// What a byte begins where a type is due.
#[derive(Clone, Copy, PartialEq, Eq, Debug)]
pub(crate) enum Element {
    Prim(Primitive),
    Class,
    Var,
    Inst,
    Vector,
    Feature(Feature),
}

/// What the byte begins, if any type begins with it.
#[tactic(auto, unfolding(crate::specs::Elements::element_of))]
pub(crate) fn element_of(byte: u8) -> Option<Element>
    ensures { result ≡ element_of byte }
{
    let element = match byte {
        0x02 => Element::Prim(Primitive::Bool),
        0x03 => Element::Prim(Primitive::Char),
        0x04 => Element::Prim(Primitive::Int8),
        0x05 => Element::Prim(Primitive::UInt8),
        0x06 => Element::Prim(Primitive::Int16),
        0x07 => Element::Prim(Primitive::UInt16),
        0x08 => Element::Prim(Primitive::Int32),
        0x09 => Element::Prim(Primitive::UInt32),
        0x0A => Element::Prim(Primitive::Int64),
        0x0B => Element::Prim(Primitive::UInt64),
        0x0C | 0x0D => Element::Feature(Feature::Float),
        0x0E => Element::Prim(Primitive::Text),
        0x0F | 0x10 | 0x16 | 0x1B | 0x45 => Element::Feature(Feature::Pointer),
        VALUE_TYPE => Element::Feature(Feature::ValueType),
        CLASS => Element::Class,
        0x13 => Element::Var,
        0x14 => Element::Feature(Feature::ArrayShape),
        0x15 => Element::Inst,
        0x18 => Element::Prim(Primitive::Native),
        0x19 => Element::Prim(Primitive::UNative),
        0x1C => Element::Prim(Primitive::Object),
        0x1D => Element::Vector,
        0x1E => Element::Feature(Feature::GenericMethod),
        _ => return None,
    };
    Some(element)
}
