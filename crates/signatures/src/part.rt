//! Parts of types in a signature.
ghost use Rattle.std.specs.Prelude.{◌≡◌, ◌≤◌, ◌+◌, ◌<◌, length, IfOk};
ghost use Rattle.signatures.specs.Grammar.{generic_at, bare_part_at, part_at};
ghost use Rattle.signatures.specs.Signatures.{Agrees};

use crate::element::{CLASS, Element, VALUE_TYPE, element_of};
use crate::fault::Stop;
use crate::feature::Feature;
use crate::number::{read_class, read_modifiers, read_number};
use crate::sig::SigPart;

/// The part at the front of the bytes, after modifiers, and the bytes after it.
/// ECMA-335 II.23.2.12.
#[tactic(auto, unfolding(crate::specs::Grammar::part_at))]
pub(crate) fn read_part(bytes: &[u8]) -> Result<(SigPart, &[u8]), Stop>
    ensures read { Agrees (λ x. (x.0, x.1.now)) result (part_at bytes.now) }
    ensures within { IfOk result (λ x. length x.1.now < length bytes.now) }
{
    read_bare_part(read_modifiers(bytes)?)
}

#[tactic(auto, unfolding(crate::specs::Grammar::bare_part_at))]
fn read_bare_part(bytes: &[u8]) -> Result<(SigPart, &[u8]), Stop>
    ensures read { Agrees (λ x. (x.0, x.1.now)) result (bare_part_at bytes.now) }
    ensures within { IfOk result (λ x. length x.1.now < length bytes.now) }
{
    let [byte, rest @ ..] = bytes else {
        return Err(Stop::Bad { left: 0 });
    };
    let Some(element) = element_of(*byte) else {
        return Err(Stop::Bad { left: bytes.len() });
    };
    match element {
        Element::Prim(prim) => Ok((SigPart::Prim(prim), rest)),
        Element::Class => {
            let (class, rest) = read_class(rest)?;
            Ok((SigPart::Class(class), rest))
        }
        Element::Var => {
            let (number, rest) = read_number(rest)?;
            Ok((SigPart::Var(number), rest))
        }
        Element::Inst => read_generic(rest),
        Element::Vector => Ok((SigPart::Vector, rest)),
        Element::Feature(feature) => Err(Stop::Feature { feature }),
    }
}

/// The generic class at the front of the bytes, and the bytes after the count of its arguments.
#[tactic(auto, unfolding(crate::specs::Grammar::generic_at))]
fn read_generic(bytes: &[u8]) -> Result<(SigPart, &[u8]), Stop>
    ensures read { Agrees (λ x. (x.0, x.1.now)) result (generic_at bytes.now) }
    ensures within { IfOk result (λ x. length x.1.now ≤ length bytes.now) }
{
    match bytes {
        [CLASS, rest @ ..] => {
            let (class, rest) = read_class(rest)?;
            let (args, rest) = read_number(rest)?;
            Ok((SigPart::Inst { class, args }, rest))
        }
        [VALUE_TYPE, ..] => Err(Stop::Feature {
            feature: Feature::ValueType,
        }),
        _ => Err(Stop::Bad { left: bytes.len() }),
    }
}
