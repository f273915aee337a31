//! Keys of the types in a signature.
ghost use Rattle.std.specs.Prelude.{◌≡◌, ◌≤◌, ◌==◌, ◌++◌, [], ◌∷◌, length, false, is_some};
ghost use Rattle.std.specs.Prelude.{IsTrue, IfOk, IfErr, OnOk, vec_len};
ghost use Rattle.std.specs.List.{find, list_any};
ghost use Rattle.std.specs.Option.{option_map};
ghost use Rattle.signatures.specs.Types.{IsSig, arity};
ghost use Rattle.signatures.specs.Keys.{IsProper, IsTypeKey};
ghost use Rattle.signatures.specs.Substitution.{class_key, with_args, closed_part, closed, lacks};
ghost use Rattle.signatures.specs.Substitution.{is_definition, has_class, HasClasses, key_of};
ghost use Rattle.signatures.specs.Substitution.{GivesKey, StandsFor, Passes};

use crate::fault::KeyFault;
use crate::key::{Key, KeyPart, TypeKey};
use crate::levels::levels;
use crate::sig::{Sig, SigPart};
use std::alloc::Global;

/// The most levels of a key; a leaf is one.
const MAX_LEVELS: usize = 16;

/// The most nodes of a key.
const MAX_NODES: usize = 256;

/// The key of a type in a signature. `classes` has the key for which each TypeDefOrRef number in
/// it stands; for the class of an instantiation, that of a TypeDef row without arguments. `args`
/// has the key of each type variable, from 0. `Index` exactly where a variable has no argument,
/// else `Deep` exactly where the key passes 16 levels or 256 nodes. ECMA-335 II.9.4.
#[tactic(auto, unfolding(crate::specs::Substitution::key_of))]
pub fn substitute(
    alloc: Global,
    sig: &Sig,
    classes: &[(u32, TypeKey)],
    args: &[TypeKey],
) -> Result<TypeKey, KeyFault>
    requires { HasClasses classes.now sig.now }
    ensures { GivesKey result (key_of classes.now args.now sig.now) }
{
    if lacks_argument(sig.parts(), args.len()) {
        return Err(KeyFault::Index);
    }
    let parts = closed(alloc, sig.parts(), classes, args)?;
    let levels = levels(alloc, &parts).map_err(|_| KeyFault::OutOfMemory)?;
    if levels > MAX_LEVELS {
        return Err(KeyFault::Deep);
    }
    TypeKey::of(alloc, Key::of(parts)).map_err(|_| KeyFault::OutOfMemory)
}

/// Some part is a type variable with no argument, where there are so many.
fn lacks_argument(parts: &[SigPart], count: usize) -> bool
    ensures { result ≡ list_any (lacks count) parts.now }
{
    parts.iter().any(|part| lacks(*part, count))
}

fn lacks(part: SigPart, count: usize) -> bool
    ensures { result ≡ lacks count part }
{
    match part {
        SigPart::Var(number) => count <= number as usize,
        _ => false,
    }
}

/// The parts with each class and each variable replaced.
fn closed(
    alloc: Global,
    parts: &[SigPart],
    classes: &[(u32, TypeKey)],
    args: &[TypeKey],
) -> Result<Vec<KeyPart>, KeyFault>
    requires known { HasClasses classes.now parts.now }
    requires given { list_any (lacks (length args.now)) parts.now ≡ false }
    requires whole { IsSig parts.now }
    ensures parts { IfOk result (λ key. key.items ≡ closed classes.now args.now parts.now) }
    ensures short { IfOk result (λ key. vec_len key ≤ 256) }
    ensures whole { IfOk result (λ key. IsTypeKey key.items) }
    ensures deep { IfErr result (λ fault. Passes fault (closed classes.now args.now parts.now)) }
{
    let mut key = Vec::new(alloc);
    for part in parts {
        append(&mut key, *part, classes, args)?;
    }
    Ok(key)
}

/// Adds what a part stands for.
fn append(
    key: &mut Vec<KeyPart>,
    part: SigPart,
    classes: &[(u32, TypeKey)],
    args: &[TypeKey],
) -> Result<(), KeyFault>
    requires short { vec_len key.old ≤ 256 }
    requires known { IsTrue (has_class classes.now part) }
    requires given { lacks (length args.now) part ≡ false }
    ensures added { OnOk result
        (key.new.items ≡ key.old.items ++ closed_part classes.now args.now part) }
    ensures short { OnOk result (vec_len key.new ≤ 256) }
    ensures stands { StandsFor (arity part) (closed_part classes.now args.now part) }
    ensures proper { IsProper (closed_part classes.now args.now part) }
    ensures deep { IfErr result (λ fault.
        Passes fault (key.old.items ++ closed_part classes.now args.now part)) }
{
    match part {
        SigPart::Prim(prim) => extend(key, &[KeyPart::Prim(prim)]),
        SigPart::Class(class) => extend(key, class_parts(classes, class)),
        SigPart::Var(number) => extend(key, args[number as usize].key().parts()),
        SigPart::Inst { class, args } => {
            extend(key, &[definition(class_parts(classes, class), args)])
        }
        SigPart::Vector => extend(key, &[KeyPart::Vector]),
    }
}

/// Adds parts, if they are no more than 256 then.
fn extend(key: &mut Vec<KeyPart>, more: &[KeyPart]) -> Result<(), KeyFault>
    requires { vec_len key.old ≤ 256 }
    ensures added { OnOk result (key.new.items ≡ key.old.items ++ more.now) }
    ensures short { OnOk result (vec_len key.new ≤ 256) }
    ensures deep { IfErr result (λ fault. Passes fault (key.old.items ++ more.now)) }
{
    if more.len() > MAX_NODES - key.len() {
        return Err(KeyFault::Deep);
    }
    key.extend_from_slice(more)
        .map_err(|_| KeyFault::OutOfMemory)
}

/// The parts of the key for which a TypeDefOrRef number stands; none where no key is given.
fn class_parts(classes: &[(u32, TypeKey)], class: u32) -> &[KeyPart]
    ensures parts { result.now ≡ class_key classes.now class }
    ensures whole { IsTrue (is_some (find (λ row. row.0 == class) classes.now))
        → IsTypeKey result.now }
{
    match class_row(classes, class) {
        Some((_, key)) => key.key().parts(),
        None => &[],
    }
}

fn class_row(classes: &[(u32, TypeKey)], class: u32) -> Option<&(u32, TypeKey)>
    ensures { option_map (λ row. row.now) result ≡ find (λ row. row.0 == class) classes.now }
{
    classes.iter().find(|row| row.0 == class)
}

/// The class of a definition, with so many arguments.
fn definition(key: &[KeyPart], args: u32) -> KeyPart
    requires { IsTrue (is_definition key.now) }
    ensures { result ∷ [] ≡ with_args args key.now }
{
    match key {
        [KeyPart::Class { assembly, row, .. }] => KeyPart::Class {
            assembly: *assembly,
            row: *row,
            args,
        },
        _ => unreachable!(),
    }
}
