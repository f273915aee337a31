//! Types as signatures have them.
ghost use Rattle.std.specs.Prelude.{◌≡◌, IfOk};
ghost use Rattle.signatures.specs.Types.{IsSig, AreMadeOf, arity};

use crate::made_of::sigs_of;
use cli_words::Listed;
use std::alloc::{AllocError, Global};
use std::marker::Model;

/// A type that has a key of its own: twelve numbers, `Text` for System.String and `Object` for
/// System.Object. ECMA-335 II.23.1.16.
#[derive(Clone, Copy, PartialEq, Eq, Debug)]
pub enum Primitive {
    Bool,
    Char,
    Int8,
    UInt8,
    Int16,
    UInt16,
    Int32,
    UInt32,
    Int64,
    UInt64,
    Native,
    UNative,
    Text,
    Object,
}

/// What a type is, before the types that it is made of. A class is given by its TypeDefOrRef
/// number, `row * 4 + tag`. ECMA-335 II.23.2.8, II.23.2.12.
#[derive(Clone, Copy, PartialEq, Eq, Debug)]
pub enum SigPart {
    /// A type with a key of its own.
    Prim(Primitive),
    /// The class of a TypeDefOrRef number.
    Class(u32),
    /// The type parameter of this number, from 0.
    Var(u32),
    /// A generic class with this many arguments, which come next.
    Inst { class: u32, args: u32 },
    /// An array from index 0, of one dimension, of the type that comes next.
    Vector,
}

impl SigPart {
    /// How many types come next, of which this one is made.
    pub fn arity(self) -> u32
        ensures { result ≡ arity self }
    {
        match self {
            SigPart::Inst { args, .. } => args,
            SigPart::Vector => 1,
            SigPart::Prim(_) | SigPart::Class(_) | SigPart::Var(_) => 0,
        }
    }
}

/// A type in a signature: its parts from the left, each before the types that it is made of.
/// Nothing recurses over it, however deep it is.
#[derive(Debug, Drop)]
pub struct Sig {
    parts: Vec<SigPart>,
}

impl Model for Sig {
    ghost use Rattle.std.specs.Prelude.{List};
    ghost use Rattle.signatures.specs.declared.sig.SigPart.{SigPart};

    ghost Value = { List SigPart };

    ghost use Rattle.signatures.specs.Types.{IsSig};

    ghost view = { λ sig. sig.parts.items };

    ghost invariant = { λ sig. IsSig sig.parts.items };
}

impl Sig {
    /// The type of these parts.
    pub fn of(parts: Vec<SigPart>) -> Sig
        requires { IsSig parts.items }
        ensures { result ≡ parts.items }
    {
        Sig { parts }
    }

    /// The parts of the type, from the left.
    pub fn parts(&self) -> &[SigPart]
        ensures parts { result.now ≡ self.now }
        ensures whole { IsSig self.now }
    {
        self.parts.as_slice()
    }

    /// The types of the arguments of a generic class, or of the element of an array, in their
    /// order.
    pub fn made_of(&self, alloc: Global) -> Result<Vec<Sig>, AllocError>
        ensures { IfOk result (λ sigs. AreMadeOf arity self.now sigs.items) }
    {
        sigs_of(alloc, self.parts())
    }
}

/// Types, one after another.
pub type Sigs = Listed<Sig>;

/// The signature of a method. ECMA-335 II.23.2.1.
#[derive(Debug, Drop)]
pub struct MethodSig {
    /// It is called on an object.
    pub has_this: bool,
    /// The type of its result; `None` is void.
    pub result: Option<Sig>,
    /// The types of its parameters, without the object.
    pub params: Sigs,
}
