ghost use Rattle.std.specs.Prelude.{◌≡◌, IfOk};
ghost use Rattle.signatures.specs.Keys.{IsTypeKey};

use crate::{Parents, StackType, assignable, merge};
use Shape::{Array, Class, Int32, Int64, Ints, Native, Null, Object, Objects, Words};
use signatures::{Key, KeyPart, Prim, TypeKey};
use std::alloc::{AllocError, Global};
use std::test::Fail;

/// Class 2 has class 1 as its parent, and class 3 as its interface.
struct Sample;

impl Parents for Sample {
    ghost use Rattle.il_flow.specs.Samples.{sample, sample_lawful};

    ghost family = { λ _. sample };

    fn parent(&self, alloc: Global, key: &TypeKey) -> Result<Option<TypeKey>, AllocError> {
        if key.key().parts() != [class(2)].as_slice() {
            return Ok(None);
        }
        Ok(Some(key_of(alloc, &[class(1)])?))
    }

    fn interface(
        &self,
        alloc: Global,
        key: &TypeKey,
        n: u32,
    ) -> Result<Option<TypeKey>, AllocError> {
        if n != 1 || key.key().parts() != [class(2)].as_slice() {
            return Ok(None);
        }
        Ok(Some(key_of(alloc, &[class(3)])?))
    }

    ghost lawful = { λ _. sample_lawful };
}

/// Some types.
#[derive(Clone, Copy)]
enum Shape {
    Int32,
    Int64,
    Native,
    Null,
    Class(u32),
    Array(u32),
    Object,
    Objects,
    Ints,
    Words,
}

fn class(row: u32) -> KeyPart
    ensures { result ≡ KeyPart.Class 1 row 0 }
{
    KeyPart::Class {
        assembly: 1,
        row,
        args: 0,
    }
}

fn key_of(alloc: Global, parts: &[KeyPart]) -> Result<TypeKey, AllocError>
    requires { IsTypeKey parts.now }
    ensures { IfOk result (λ key. key ≡ parts.now) }
{
    TypeKey::of(alloc, Key::of(Vec::from_slice(alloc, parts)?))
}

/// What a value of a type of these parts is on the stack.
fn stack_of(alloc: Global, parts: &[KeyPart]) -> Result<StackType, AllocError>
    requires { IsTypeKey parts.now }
{
    StackType::of(alloc, &key_of(alloc, parts)?)
}

fn stack(alloc: Global, shape: Shape) -> Result<StackType, AllocError> {
    match shape {
        Int32 => stack_of(alloc, &[KeyPart::Prim(Prim::Char)]),
        Int64 => stack_of(alloc, &[KeyPart::Prim(Prim::UInt64)]),
        Native => stack_of(alloc, &[KeyPart::Prim(Prim::Native)]),
        Null => Ok(StackType::Null),
        Class(row) => stack_of(alloc, &[class(row)]),
        Array(row) => stack_of(alloc, &[KeyPart::Vector, class(row)]),
        Object => stack_of(alloc, &[KeyPart::Prim(Prim::Object)]),
        Objects => stack_of(alloc, &[KeyPart::Vector, KeyPart::Prim(Prim::Object)]),
        Ints => stack_of(alloc, &[KeyPart::Vector, KeyPart::Prim(Prim::Int32)]),
        Words => stack_of(alloc, &[KeyPart::Vector, KeyPart::Prim(Prim::UInt32)]),
    }
}

#[test]
fn merges_to_the_nearest_class(rt: HostRuntime) -> Result<(), Fail> {
    let rows = [
        (Int32, Int32, Some(Int32)),
        (Native, Native, Some(Native)),
        (Native, Int32, None),
        (Int64, Int32, None),
        (Null, Null, Some(Null)),
        (Null, Class(2), Some(Class(2))),
        (Class(2), Int32, None),
        (Class(2), Class(1), Some(Class(1))),
        (Class(1), Class(2), Some(Class(1))),
        (Class(2), Class(3), Some(Object)),
        (Array(2), Array(2), Some(Array(2))),
        (Array(2), Class(2), Some(Object)),
    ];
    for (a, b, merged) in rows {
        let found = merge(
            rt.alloc(),
            &Sample,
            &stack(rt.alloc(), a)?,
            &stack(rt.alloc(), b)?,
        )?;
        let wanted = match merged {
            Some(shape) => Some(stack(rt.alloc(), shape)?),
            None => None,
        };
        assert_eq!(rt; found, wanted);
    }
    Ok(())
}

#[test]
fn assigns_to_what_stands_above(rt: HostRuntime) -> Result<(), Fail> {
    let rows = [
        (Int32, Native, true),
        (Native, Int32, false),
        (Int32, Int64, false),
        (Null, Class(1), true),
        (Null, Native, false),
        (Class(2), Class(1), true),
        (Class(1), Class(2), false),
        (Class(2), Class(3), true),
        (Class(1), Class(3), false),
        (Class(3), Object, true),
        (Array(2), Array(3), true),
        (Array(1), Array(2), false),
        (Array(2), Objects, true),
        (Ints, Object, true),
        (Ints, Objects, false),
        (Ints, Words, false),
        (Class(2), Objects, false),
    ];
    for (value, place, fits) in rows {
        let value = stack(rt.alloc(), value)?;
        let place = stack(rt.alloc(), place)?;
        assert_eq!(rt; assignable(rt.alloc(), &Sample, &value, &place)?, fits);
    }
    Ok(())
}
