//! The types of values on the stack, and what stands above them.
ghost use Rattle.std.specs.Prelude.{◌≡◌, IfOk};
ghost use Rattle.il_flow.specs.StackTypes.{number_of, number_of_key, is_reference, stack_of};

use signatures::{KeyPart, Prim, TypeKey};
use std::alloc::{AllocError, Global};

/// The type of a value on the stack. ECMA-335 III.1.1.
#[derive(PartialEq, Eq, Debug, Drop)]
pub enum StackType {
    /// A number of 32 bits or less.
    Int32,
    /// A number of 64 bits.
    Int64,
    /// A native number.
    Native,
    /// The null reference.
    Null,
    /// A reference to an object of the type, or null.
    Ref(TypeKey),
}

impl StackType {
    /// What a value of a type is on the stack.
    pub fn of(alloc: Global, key: &TypeKey) -> Result<StackType, AllocError>
        ensures { IfOk result (λ stack. stack ≡ stack_of key.now) }
    {
        match number_of_key(key.key().parts()) {
            Some(number) => Ok(number),
            None => Ok(StackType::Ref(key.share(alloc)?)),
        }
    }
}

/// A value of the type is no number on the stack.
pub(crate) fn is_reference(key: &TypeKey) -> bool
    ensures { result ≡ is_reference key.now }
{
    number_of_key(key.key().parts()).is_none()
}

fn number_of_key(parts: &[KeyPart]) -> Option<StackType>
    ensures { result ≡ number_of_key parts.now }
{
    match parts {
        [KeyPart::Prim(prim), ..] => number_of(*prim),
        _ => None,
    }
}

fn number_of(prim: Prim) -> Option<StackType>
    ensures { result ≡ number_of prim }
{
    match prim {
        Prim::Bool
        | Prim::Char
        | Prim::Int8
        | Prim::UInt8
        | Prim::Int16
        | Prim::UInt16
        | Prim::Int32
        | Prim::UInt32 => Some(StackType::Int32),
        Prim::Int64 | Prim::UInt64 => Some(StackType::Int64),
        Prim::Native | Prim::UNative => Some(StackType::Native),
        Prim::Text | Prim::Object => None,
    }
}

/// What stands right above the types that keys name.
pub trait Parents {
    ghost use Rattle.il_flow.specs.Families.{Family, IsFamily, interface_of};

    /// The parent and the interfaces of each key.
    ghost family: { Self → Family };

    /// The parent of a type; `None` exactly where it has none.
    fn parent(&self, alloc: Global, key: &TypeKey) -> Result<Option<TypeKey>, AllocError>
        ensures { IfOk result (λ parent. parent ≡ (family self.now).parent key.now) };

    /// The `n`-th interface of a type in the order of the rows, from 1; `None` exactly where there
    /// is none.
    fn interface(&self, alloc: Global, key: &TypeKey, n: u32) -> Result<Option<TypeKey>, AllocError>
        ensures { IfOk result (λ found. found ≡ interface_of (family self.now) key.now n) };

    /// No chain of parents and interfaces is longer than 64, and no parent is an array.
    ghost lawful: { (parents : Self) → IsFamily (family parents) };
}
