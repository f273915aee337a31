//! Keys of closed types: types in which each class is the row of an assembly and no type variable
//! is left.
ghost use Rattle.std.specs.Prelude.{◌≡◌, IfOk};
ghost use Rattle.signatures.specs.Keys.{IsKey, IsProper, IsTypeKey, key_arity};
ghost use Rattle.signatures.specs.Keys.{element_of};
ghost use Rattle.signatures.specs.Types.{AreMadeOf};

use crate::made_of::{element, keys_of};
use crate::sig::Primitive;
use std::alloc::{AllocError, Global};
use std::marker::Model;
use std::sync::Arc;

/// What a closed type is, before the types that it is made of.
#[derive(Clone, Copy, PartialEq, Eq, Debug)]
pub enum KeyPart {
    /// A type with a key of its own.
    Prim(Primitive),
    /// The TypeDef row, from 1, of an assembly, with this many arguments, which come next.
    Class { assembly: u32, row: u32, args: u32 },
    /// An array from index 0, of one dimension, of the type that comes next.
    Vector,
}

impl KeyPart {
    /// How many types come next, of which this one is made.
    pub fn arity(self) -> u32
        ensures { result ≡ key_arity self }
    {
        match self {
            KeyPart::Class { args, .. } => args,
            KeyPart::Vector => 1,
            KeyPart::Prim(_) => 0,
        }
    }
}

/// A closed type: its parts from the left, each before the types that it is made of. Nothing
/// recurses over it, however deep it is.
#[derive(Debug, Drop)]
pub struct Key {
    parts: Vec<KeyPart>,
}

impl Model for Key {
    ghost use Rattle.std.specs.Prelude.{List};
    ghost use Rattle.signatures.specs.declared.key.KeyPart.{KeyPart};

    ghost Value = { List KeyPart };

    ghost use Rattle.signatures.specs.Keys.{IsKey};

    ghost view = { λ key. key.parts.items };

    ghost invariant = { λ key. IsKey key.parts.items };
}

impl Key {
    /// The type of these parts.
    pub fn of(parts: Vec<KeyPart>) -> Key
        requires { IsKey parts.items }
        ensures { result ≡ parts.items }
    {
        Key { parts }
    }

    /// The parts of the type, from the left.
    pub fn parts(&self) -> &[KeyPart]
        ensures parts { result.now ≡ self.now }
        ensures whole { IsKey self.now }
    {
        self.parts.as_slice()
    }
}

/// A key that its owners share. System.Object and System.String have the keys `Prim` alone: no
/// class in it is row 1 or 2 of assembly 0.
#[derive(Debug, Drop)]
pub struct TypeKey {
    shared: Arc<Key>,
}

impl Model for TypeKey {
    ghost use Rattle.std.specs.Prelude.{List};
    ghost use Rattle.std.specs.Arc.{arc_value};
    ghost use Rattle.signatures.specs.declared.key.KeyPart.{KeyPart};

    ghost Value = { List KeyPart };

    ghost use Rattle.signatures.specs.Keys.{IsTypeKey};

    ghost view = { λ key. arc_value key.shared };

    ghost invariant = { λ key. IsTypeKey (arc_value key.shared) };
}

impl TypeKey {
    /// The key, to be shared; no class in it may be row 1 or 2 of assembly 0.
    pub fn of(alloc: Global, key: Key) -> Result<TypeKey, AllocError>
        requires { IsProper key }
        ensures { IfOk result (λ shared. shared ≡ key) }
    {
        let shared = Arc::new(alloc, key)?;
        Ok(TypeKey { shared })
    }

    /// The key.
    pub fn key(&self) -> &Key
        ensures key { result.now ≡ self.now }
        ensures proper { IsTypeKey self.now }
    {
        &self.shared
    }

    /// The element of an array; `None` exactly where the key is no array.
    pub fn element(&self, alloc: Global) -> Result<Option<TypeKey>, AllocError>
        ensures { IfOk result (λ element. element ≡ element_of self.now) }
    {
        element(alloc, self.key().parts())
    }

    /// The keys of the arguments of a class, or of the element of an array, in their order.
    pub fn made_of(&self, alloc: Global) -> Result<Vec<TypeKey>, AllocError>
        ensures { IfOk result (λ keys. AreMadeOf key_arity self.now keys.items) }
    {
        keys_of(alloc, self.key().parts())
    }

    /// One more owner of the key. It can be refused, as memory can.
    pub fn share(&self, _alloc: Global) -> Result<TypeKey, AllocError>
        ensures { IfOk result (λ key. key ≡ self.now) }
    {
        let shared = Arc::try_clone(&self.shared)?;
        Ok(TypeKey { shared })
    }
}

impl PartialEq for TypeKey {
    ghost use Rattle.std.specs.Cmp.Lexicographic.{lists_per};
    ghost use Rattle.signatures.specs.SameKeys.{same_key};
    ghost use Rattle.signatures.specs.contracts.key.KeyPartPartialEq.TheImpl.Laws.{laws-law};

    ghost eq = { same_key };

    ghost laws = { lists_per laws-law };

    fn eq(&self, other: &TypeKey) -> bool {
        self.key().parts() == other.key().parts()
    }
}

impl Eq for TypeKey {
    ghost use Rattle.std.specs.Cmp.Lexicographic.{lists_equiv};
    ghost use Rattle.signatures.specs.contracts.key.KeyPartEq.TheImpl.Laws.{laws-law};

    ghost laws = { lists_equiv laws-law };
}
