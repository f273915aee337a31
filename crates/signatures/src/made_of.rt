//! The types that a type is made of.
ghost use Rattle.std.specs.Prelude.{◌≡◌, ℕ, ◌-◌, ◌<◌, ◌≤◌, ◌^◌, true, length, map, take, drop, IfOk};
ghost use Rattle.std.specs.List.{AllByRecursion, flat_map};
ghost use Rattle.std.specs.Option.{option_map};
ghost use Rattle.signatures.specs.Types.{arity, are_types, IsSig, AreMadeOf};
ghost use Rattle.signatures.specs.Keys.{IsKey, IsTypeKey, IsProper, key_arity, element_of};

use crate::key::{Key, KeyPart, TypeKey};
use crate::sig::{Sig, SigPart};
use std::alloc::{AllocError, Global};

/// A part of a type, after which come the types that it is made of.
trait Part: Copy {
    ghost made_of: { Self → ℕ };

    /// How many types come next, of which this one is made.
    fn count(self) -> u32
        ensures { result ≡ made_of self };
}

impl Part for SigPart {
    ghost made_of = { arity };

    fn count(self) -> u32 {
        self.arity()
    }
}

impl Part for KeyPart {
    ghost made_of = { key_arity };

    fn count(self) -> u32 {
        self.arity()
    }
}

/// The element of an array, if the parts are one.
pub(crate) fn element(alloc: Global, parts: &[KeyPart]) -> Result<Option<TypeKey>, AllocError>
    requires { IsTypeKey parts.now }
    ensures { IfOk result (λ element. element ≡ element_of parts.now) }
{
    match element_parts(parts) {
        Some(element) => Ok(Some(key_of(alloc, element)?)),
        None => Ok(None),
    }
}

fn element_parts(parts: &[KeyPart]) -> Option<&[KeyPart]>
    ensures { option_map (λ element. element.now) result ≡ element_of parts.now }
{
    match parts {
        [KeyPart::Vector, element @ ..] => Some(element),
        _ => None,
    }
}

/// The keys that come after the first part.
#[tactic(auto, using(std::proofs::lemmas::List::take_rest))]
pub(crate) fn keys_of(alloc: Global, parts: &[KeyPart]) -> Result<Vec<TypeKey>, AllocError>
    requires { IsTypeKey parts.now }
    ensures { IfOk result (λ keys. AreMadeOf key_arity parts.now keys.items) }
{
    let [first, rest @ ..] = parts else {
        return Ok(Vec::new(alloc));
    };
    keys(alloc, first.arity(), rest)
}

/// So many keys, one after another.
fn keys(alloc: Global, count: u32, parts: &[KeyPart]) -> Result<Vec<TypeKey>, AllocError>
    requires whole { are_types count (map key_arity parts.now) ≡ true }
    requires proper { IsProper parts.now }
    ensures { IfOk result (λ keys. (flat_map (λ key. key) keys.items ≡ parts.now)
        × AllByRecursion IsKey keys.items) }
{
    let mut keys = Vec::new(alloc);
    let mut rest = parts;
    for i in 0..count {
        let (first, after) = rest.split_at(first_len(rest, count - i));
        keys.push(key_of(alloc, first)?)?;
        rest = after;
    }
    Ok(keys)
}

fn key_of(alloc: Global, parts: &[KeyPart]) -> Result<TypeKey, AllocError>
    requires { IsTypeKey parts.now }
    ensures { IfOk result (λ key. key ≡ parts.now) }
{
    TypeKey::of(alloc, Key::of(Vec::from_slice(alloc, parts)?))
}

/// The types of a signature that come after the first part.
#[tactic(auto, using(std::proofs::lemmas::List::take_rest))]
pub(crate) fn sigs_of(alloc: Global, parts: &[SigPart]) -> Result<Vec<Sig>, AllocError>
    requires { IsSig parts.now }
    ensures { IfOk result (λ sigs. AreMadeOf arity parts.now sigs.items) }
{
    let [first, rest @ ..] = parts else {
        return Ok(Vec::new(alloc));
    };
    sigs(alloc, first.arity(), rest)
}

/// So many types, one after another.
fn sigs(alloc: Global, count: u32, parts: &[SigPart]) -> Result<Vec<Sig>, AllocError>
    requires { are_types count (map arity parts.now) ≡ true }
    ensures { IfOk result (λ sigs. (flat_map (λ sig. sig) sigs.items ≡ parts.now)
        × AllByRecursion IsSig sigs.items) }
{
    let mut sigs = Vec::new(alloc);
    let mut rest = parts;
    for i in 0..count {
        let (first, after) = rest.split_at(first_len(rest, count - i));
        sigs.push(Sig::of(Vec::from_slice(alloc, first)?))?;
        rest = after;
    }
    Ok(sigs)
}

/// How many parts the first of so many types has.
fn first_len<P: Part>(parts: &[P], count: u32) -> usize
    requires some { 0 < count }
    requires whole { are_types count (map P.made_of parts.now) ≡ true }
    ensures within { result ≤ length parts.now }
    ensures first { are_types 1 (map P.made_of (take result parts.now)) ≡ true }
    ensures others { are_types (count - 1) (map P.made_of (drop result parts.now)) ≡ true }
{
    let mut due: u128 = 1;
    let mut at = 0;
    while due > 0 {
        due = due - 1 + u128::from(parts[at].count());
        at += 1;
    }
    at
}
