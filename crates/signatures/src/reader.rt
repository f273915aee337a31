//! Signatures in blobs. ECMA-335 II.23.2.
ghost use Rattle.std.specs.Prelude.{◌≡◌, ◌+◌, ◌<◌, ◌^◌, List, length, IfOk, IfErr, Ok};
ghost use Rattle.cli_words.specs.Span.{LiesIn, cut};
ghost use Rattle.signatures.specs.Grammar.{type_at, result_at, sigs_at, head_at, method_at};
ghost use Rattle.signatures.specs.Grammar.{locals_at, field_at};
ghost use Rattle.signatures.specs.declared.sig.SigPart.{SigPart};
ghost use Rattle.signatures.specs.declared.sig.MethodSig.{MethodSig};
ghost use Rattle.signatures.specs.Spelling.{SpellsField, SpellsMethod, SpellsLocals, SpellsType};
ghost use Rattle.signatures.specs.Signatures.{IsIn, whole, ended, Gives, Agrees, GivesReading};
ghost use Rattle.signatures.specs.Signatures.{field_of, method_of, locals_of, type_of, told_fault};

use crate::element::VOID;
use crate::fault::{ReadFault, SigFault, Stop};
use crate::feature::Feature;
use crate::number::{read_kind, read_modifiers, read_number};
use crate::part::read_part;
use crate::sig::{MethodSig, Sig, Sigs};
use cli_words::Span;
use std::alloc::Global;

/// FIELD, which begins the signature of a field. ECMA-335 II.23.2.4.
const FIELD: u8 = 0x06;

/// LOCAL_SIG, which begins the types of locals. ECMA-335 II.23.2.6.
const LOCALS: u8 = 0x07;

/// DEFAULT, which begins the signature of a method. ECMA-335 II.23.2.1.
const DEFAULT: u8 = 0x00;

/// The same with HASTHIS.
const DEFAULT_THIS: u8 = 0x20;

/// GENERIC, which a method with type parameters has.
const GENERIC: u8 = 0x10;

/// The same with HASTHIS.
const GENERIC_THIS: u8 = 0x30;

/// VARARG, which a method with a variable count of arguments has.
const VARARG: u8 = 0x05;

/// The same with HASTHIS.
const VARARG_THIS: u8 = 0x25;

/// The type of the field whose signature the blob is: 06 and a type. `Bad` exactly where the blob
/// has no reading, `Feature` exactly where the reading comes to something that is left out.
/// ECMA-335 II.23.2.4.
pub fn field_sig(alloc: Global, bytes: &[u8], blob: Span) -> Result<Sig, SigFault>
    requires { LiesIn (length bytes.now) blob }
    ensures read { GivesReading (λ sig. sig) result (field_of bytes.now blob) }
    ensures spelled { IfOk result (λ sig. SpellsField sig (cut bytes.now blob)) }
    ensures only { (value : List SigPart) → SpellsField value (cut bytes.now blob)
        → GivesReading (λ sig. sig) result (Ok value) }
    ensures place { IfErr result (λ fault. IsIn blob fault) }
{
    read_field(alloc, blob.cut(bytes)).map_err(|fault| told(blob, fault))
}

/// The signature of a method, of a head, a count, a result and as many parameters. `Bad` exactly
/// where the blob has no reading, `Feature` exactly where the reading comes to something that is
/// left out. ECMA-335 II.23.2.1.
pub fn method_sig(alloc: Global, bytes: &[u8], blob: Span) -> Result<MethodSig, SigFault>
    requires { LiesIn (length bytes.now) blob }
    ensures read { GivesReading (λ sig. sig) result (method_of bytes.now blob) }
    ensures spelled { IfOk result (λ sig. SpellsMethod sig (cut bytes.now blob)) }
    ensures only { (value : MethodSig) → SpellsMethod value (cut bytes.now blob)
        → GivesReading (λ sig. sig) result (Ok value) }
    ensures place { IfErr result (λ fault. IsIn blob fault) }
{
    read_method(alloc, blob.cut(bytes)).map_err(|fault| told(blob, fault))
}

/// The types of locals: 07, a count and as many types. `Bad` exactly where the blob has no
/// reading, `Feature` exactly where the reading comes to something that is left out. The count is
/// to be 1 to FFFE (hexadecimal) by the standard; 0 and greater ones are read here too.
/// ECMA-335 II.23.2.6.
pub fn local_sig(alloc: Global, bytes: &[u8], blob: Span) -> Result<Vec<Sig>, SigFault>
    requires { LiesIn (length bytes.now) blob }
    ensures read { GivesReading (λ sigs. sigs.items) result (locals_of bytes.now blob) }
    ensures spelled { IfOk result (λ sigs. SpellsLocals sigs.items (cut bytes.now blob)) }
    ensures only { (value : List (List SigPart)) → SpellsLocals value (cut bytes.now blob)
        → GivesReading (λ sigs. sigs.items) result (Ok value) }
    ensures place { IfErr result (λ fault. IsIn blob fault) }
{
    read_locals(alloc, blob.cut(bytes)).map_err(|fault| told(blob, fault))
}

/// The type of a type specification. `Bad` exactly where the blob has no reading, `Feature`
/// exactly where the reading comes to something that is left out. ECMA-335 II.23.2.14.
pub fn type_sig(alloc: Global, bytes: &[u8], blob: Span) -> Result<Sig, SigFault>
    requires { LiesIn (length bytes.now) blob }
    ensures read { GivesReading (λ sig. sig) result (type_of bytes.now blob) }
    ensures spelled { IfOk result (λ sig. SpellsType sig (cut bytes.now blob)) }
    ensures only { (value : List SigPart) → SpellsType value (cut bytes.now blob)
        → GivesReading (λ sig. sig) result (Ok value) }
    ensures place { IfErr result (λ fault. IsIn blob fault) }
{
    read_specification(alloc, blob.cut(bytes)).map_err(|fault| told(blob, fault))
}

#[tactic(auto, unfolding(crate::specs::Grammar::field_at))]
fn read_field(alloc: Global, bytes: &[u8]) -> Result<Sig, ReadFault>
    ensures { Gives (λ sig. sig) result (whole (field_at bytes.now)) }
{
    let rest = read_kind(FIELD, bytes)?;
    let (sig, rest) = read_type(alloc, rest)?;
    read_end(rest)?;
    Ok(sig)
}

#[tactic(auto, unfolding(crate::specs::Grammar::method_at))]
fn read_method(alloc: Global, bytes: &[u8]) -> Result<MethodSig, ReadFault>
    ensures { Gives (λ sig. sig) result (whole (method_at bytes.now)) }
{
    let (has_this, rest) = read_head(bytes)?;
    let (count, rest) = read_number(rest)?;
    let (result_type, rest) = read_result(alloc, rest)?;
    let (params, rest) = read_types(alloc, count, rest)?;
    read_end(rest)?;
    Ok(MethodSig {
        has_this,
        result: result_type,
        params: Sigs::of(params),
    })
}

#[tactic(auto, unfolding(crate::specs::Grammar::locals_at))]
fn read_locals(alloc: Global, bytes: &[u8]) -> Result<Vec<Sig>, ReadFault>
    ensures { Gives (λ sigs. sigs.items) result (whole (locals_at bytes.now)) }
{
    let rest = read_kind(LOCALS, bytes)?;
    let (count, rest) = read_number(rest)?;
    let (sigs, rest) = read_types(alloc, count, rest)?;
    read_end(rest)?;
    Ok(sigs)
}

fn read_specification(alloc: Global, bytes: &[u8]) -> Result<Sig, ReadFault>
    ensures { Gives (λ sig. sig) result (whole (type_at bytes.now)) }
{
    let (sig, rest) = read_type(alloc, bytes)?;
    read_end(rest)?;
    Ok(sig)
}

/// The type at the front of the bytes, and the bytes after it.
fn read_type(alloc: Global, bytes: &[u8]) -> Result<(Sig, &[u8]), ReadFault>
    ensures { Gives (λ x. (x.0, x.1.now)) result (type_at bytes.now) }
{
    let mut parts = Vec::new(alloc);
    let mut rest = bytes;
    // how many types are still to come
    let mut due: u128 = 1;
    while due > 0 {
        let (part, after) = read_part(rest)?;
        due = due - 1 + u128::from(part.arity());
        parts.push(part)?;
        rest = after;
    }
    Ok((Sig::of(parts), rest))
}

/// So many types at the front of the bytes, and the bytes after them.
fn read_types(alloc: Global, count: u32, bytes: &[u8]) -> Result<(Vec<Sig>, &[u8]), ReadFault>
    ensures { Gives (λ x. (x.0.items, x.1.now)) result (sigs_at count bytes.now) }
{
    let mut sigs = Vec::new(alloc);
    let mut rest = bytes;
    for _ in 0..count {
        let (sig, after) = read_type(alloc, rest)?;
        sigs.push(sig)?;
        rest = after;
    }
    Ok((sigs, rest))
}

/// The type of a method's result, or `None` for void, and the bytes after it.
#[tactic(auto, unfolding(crate::specs::Grammar::result_at))]
fn read_result(alloc: Global, bytes: &[u8]) -> Result<(Option<Sig>, &[u8]), ReadFault>
    ensures { Gives (λ x. (x.0, x.1.now)) result (result_at bytes.now) }
{
    match read_modifiers(bytes)? {
        [] => Err(ReadFault::Stopped(Stop::Bad { left: 0 })),
        [VOID, rest @ ..] => Ok((None, rest)),
        rest => {
            let (sig, rest) = read_type(alloc, rest)?;
            Ok((Some(sig), rest))
        }
    }
}

/// Whether a method whose signature begins so is called on an object, and the bytes after it.
#[tactic(auto, unfolding(crate::specs::Grammar::head_at))]
fn read_head(bytes: &[u8]) -> Result<(bool, &[u8]), Stop>
    ensures { Agrees (λ x. (x.0, x.1.now)) result (head_at bytes.now) }
{
    match bytes {
        [DEFAULT, rest @ ..] => Ok((false, rest)),
        [DEFAULT_THIS, rest @ ..] => Ok((true, rest)),
        [GENERIC | GENERIC_THIS, ..] => Err(Stop::Feature {
            feature: Feature::GenericMethod,
        }),
        [VARARG | VARARG_THIS, ..] => Err(Stop::Feature {
            feature: Feature::Varargs,
        }),
        _ => Err(Stop::Bad { left: bytes.len() }),
    }
}

/// Refuses bytes that are left over.
fn read_end(rest: &[u8]) -> Result<(), Stop>
    ensures { Agrees (λ x. x) result (ended tt rest.now) }
{
    if rest.is_empty() {
        Ok(())
    } else {
        Err(Stop::Bad { left: rest.len() })
    }
}

/// The fault of a blob that was not read.
fn told(blob: Span, fault: ReadFault) -> SigFault
    requires { blob.at + blob.len < 2 ^ 64 }
    ensures { result ≡ told_fault blob fault }
{
    match fault {
        ReadFault::Stopped(Stop::Bad { left }) => SigFault::Bad {
            at: (blob.at + blob.len).saturating_sub(left),
        },
        ReadFault::Stopped(Stop::Feature { feature }) => SigFault::Feature { feature },
        ReadFault::OutOfMemory => SigFault::OutOfMemory,
    }
}
