//! The instructions by what they do to types on the stack.
ghost use Rattle.std.specs.Prelude.{◌≡◌};
ghost use Rattle.il_verifier.specs.Kinds.{run_of};

use Computing::{Arithmetic, Conversion, Negation, Order, Sameness, Shift};
use Flow::{Choice, Comparison, Jump, Return, SameComparison, Test, Throw};
use Kind::{OfArray, OfFlow, OfMember, OfNumbers, OfPlace, OfValue};
use Naming::{
    Array, Call, Cast, Creation, Element, ElementStore, Field, FieldStore, Static, StaticStore,
    VirtualCall,
};
use Place::{Argument, ArgumentStore, Local, LocalStore};
use Simple::{Constant, Discard, Duplicate, Idle, Null, Text};
use Vector::{Length, NumberElement, NumberStore, ReferenceElement, ReferenceStore};

/// The types of numbers on the stack. ECMA-335 III.1.1.
#[derive(Clone, Copy)]
pub(crate) enum Number {
    Int32,
    Int64,
    Native,
}

/// How wide the elements of an array of numbers are.
#[derive(Clone, Copy)]
pub(crate) enum Width {
    One,
    Two,
    Four,
    Eight,
    Native,
}

/// Instructions that give constants, copy or drop a value, or do nothing.
#[derive(Clone, Copy)]
pub(crate) enum Simple {
    Idle,
    Null,
    Constant(Number),
    Text,
    Duplicate,
    Discard,
}

/// Instructions that compute with numbers, or compare.
#[derive(Clone, Copy)]
pub(crate) enum Computing {
    Arithmetic,
    Shift,
    Negation,
    Conversion(Number),
    /// Compares two numbers.
    Order,
    /// Compares two numbers or two references.
    Sameness,
}

/// Instructions that say where control passes to.
#[derive(Clone, Copy)]
pub(crate) enum Flow {
    Jump,
    Test,
    /// Compares two numbers.
    Comparison,
    /// Compares two numbers or two references.
    SameComparison,
    Choice,
    Return,
    Throw,
}

/// Instructions on arguments and locals.
#[derive(Clone, Copy)]
pub(crate) enum Place {
    Argument,
    ArgumentStore,
    Local,
    LocalStore,
}

/// Instructions whose token names a member or a type.
#[derive(Clone, Copy)]
pub(crate) enum Naming {
    Call,
    VirtualCall,
    Creation,
    Cast,
    Field,
    FieldStore,
    Static,
    StaticStore,
    Array,
    Element,
    ElementStore,
}

/// Instructions on arrays that have no token.
#[derive(Clone, Copy)]
pub(crate) enum Vector {
    Length,
    NumberElement(Width),
    NumberStore(Width),
    ReferenceElement,
    ReferenceStore,
}

/// What an instruction does, as far as types go.
#[derive(Clone, Copy)]
pub(crate) enum Kind {
    OfValue(Simple),
    OfNumbers(Computing),
    OfFlow(Flow),
    OfPlace(Place),
    OfMember(Naming),
    OfArray(Vector),
}

/// The first and the last opcode of each run of instructions of one kind. FE and a second byte `n`
/// are the opcode `FE00 + n`. ECMA-335 III.3, III.4.
const KINDS: [(u16, u16, Kind); 79] = [
    // nop
    (0x00, 0x00, OfValue(Idle)),
    // ldarg.0 to ldarg.3
    (0x02, 0x05, OfPlace(Argument)),
    // ldloc.0 to ldloc.3
    (0x06, 0x09, OfPlace(Local)),
    // stloc.0 to stloc.3
    (0x0A, 0x0D, OfPlace(LocalStore)),
    // ldarg.s
    (0x0E, 0x0E, OfPlace(Argument)),
    // starg.s
    (0x10, 0x10, OfPlace(ArgumentStore)),
    // ldloc.s
    (0x11, 0x11, OfPlace(Local)),
    // stloc.s
    (0x13, 0x13, OfPlace(LocalStore)),
    // ldnull
    (0x14, 0x14, OfValue(Null)),
    // ldc.i4 in all its forms
    (0x15, 0x20, OfValue(Constant(Number::Int32))),
    // ldc.i8
    (0x21, 0x21, OfValue(Constant(Number::Int64))),
    // dup
    (0x25, 0x25, OfValue(Duplicate)),
    // pop
    (0x26, 0x26, OfValue(Discard)),
    // call
    (0x28, 0x28, OfMember(Call)),
    // ret
    (0x2A, 0x2A, OfFlow(Return)),
    // br.s
    (0x2B, 0x2B, OfFlow(Jump)),
    // brfalse.s, brtrue.s
    (0x2C, 0x2D, OfFlow(Test)),
    // beq.s
    (0x2E, 0x2E, OfFlow(SameComparison)),
    // bge.s, bgt.s, ble.s, blt.s
    (0x2F, 0x32, OfFlow(Comparison)),
    // bne.un.s
    (0x33, 0x33, OfFlow(SameComparison)),
    // bge.un.s, bgt.un.s, ble.un.s, blt.un.s
    (0x34, 0x37, OfFlow(Comparison)),
    // br
    (0x38, 0x38, OfFlow(Jump)),
    // brfalse, brtrue
    (0x39, 0x3A, OfFlow(Test)),
    // beq
    (0x3B, 0x3B, OfFlow(SameComparison)),
    // bge, bgt, ble, blt
    (0x3C, 0x3F, OfFlow(Comparison)),
    // bne.un
    (0x40, 0x40, OfFlow(SameComparison)),
    // bge.un, bgt.un, ble.un, blt.un
    (0x41, 0x44, OfFlow(Comparison)),
    // switch
    (0x45, 0x45, OfFlow(Choice)),
    // add, sub, mul, div, div.un, rem, rem.un, and, or, xor
    (0x58, 0x61, OfNumbers(Arithmetic)),
    // shl, shr, shr.un
    (0x62, 0x64, OfNumbers(Shift)),
    // neg, not
    (0x65, 0x66, OfNumbers(Negation)),
    // conv.i1, conv.i2, conv.i4
    (0x67, 0x69, OfNumbers(Conversion(Number::Int32))),
    // conv.i8
    (0x6A, 0x6A, OfNumbers(Conversion(Number::Int64))),
    // conv.u4
    (0x6D, 0x6D, OfNumbers(Conversion(Number::Int32))),
    // conv.u8
    (0x6E, 0x6E, OfNumbers(Conversion(Number::Int64))),
    // callvirt
    (0x6F, 0x6F, OfMember(VirtualCall)),
    // ldstr
    (0x72, 0x72, OfValue(Text)),
    // newobj
    (0x73, 0x73, OfMember(Creation)),
    // castclass, isinst
    (0x74, 0x75, OfMember(Cast)),
    // throw
    (0x7A, 0x7A, OfFlow(Throw)),
    // ldfld
    (0x7B, 0x7B, OfMember(Field)),
    // stfld
    (0x7D, 0x7D, OfMember(FieldStore)),
    // ldsfld
    (0x7E, 0x7E, OfMember(Static)),
    // stsfld
    (0x80, 0x80, OfMember(StaticStore)),
    // conv.ovf.i1.un, conv.ovf.i2.un, conv.ovf.i4.un
    (0x82, 0x84, OfNumbers(Conversion(Number::Int32))),
    // conv.ovf.i8.un
    (0x85, 0x85, OfNumbers(Conversion(Number::Int64))),
    // conv.ovf.u1.un, conv.ovf.u2.un, conv.ovf.u4.un
    (0x86, 0x88, OfNumbers(Conversion(Number::Int32))),
    // conv.ovf.u8.un
    (0x89, 0x89, OfNumbers(Conversion(Number::Int64))),
    // conv.ovf.i.un, conv.ovf.u.un
    (0x8A, 0x8B, OfNumbers(Conversion(Number::Native))),
    // newarr
    (0x8D, 0x8D, OfMember(Array)),
    // ldlen
    (0x8E, 0x8E, OfArray(Length)),
    // ldelem.i1, ldelem.u1
    (0x90, 0x91, OfArray(NumberElement(Width::One))),
    // ldelem.i2, ldelem.u2
    (0x92, 0x93, OfArray(NumberElement(Width::Two))),
    // ldelem.i4, ldelem.u4
    (0x94, 0x95, OfArray(NumberElement(Width::Four))),
    // ldelem.i8
    (0x96, 0x96, OfArray(NumberElement(Width::Eight))),
    // ldelem.i
    (0x97, 0x97, OfArray(NumberElement(Width::Native))),
    // ldelem.ref
    (0x9A, 0x9A, OfArray(ReferenceElement)),
    // stelem.i
    (0x9B, 0x9B, OfArray(NumberStore(Width::Native))),
    // stelem.i1
    (0x9C, 0x9C, OfArray(NumberStore(Width::One))),
    // stelem.i2
    (0x9D, 0x9D, OfArray(NumberStore(Width::Two))),
    // stelem.i4
    (0x9E, 0x9E, OfArray(NumberStore(Width::Four))),
    // stelem.i8
    (0x9F, 0x9F, OfArray(NumberStore(Width::Eight))),
    // stelem.ref
    (0xA2, 0xA2, OfArray(ReferenceStore)),
    // ldelem
    (0xA3, 0xA3, OfMember(Element)),
    // stelem
    (0xA4, 0xA4, OfMember(ElementStore)),
    // conv.ovf.i1, conv.ovf.u1, conv.ovf.i2, conv.ovf.u2, conv.ovf.i4, conv.ovf.u4
    (0xB3, 0xB8, OfNumbers(Conversion(Number::Int32))),
    // conv.ovf.i8, conv.ovf.u8
    (0xB9, 0xBA, OfNumbers(Conversion(Number::Int64))),
    // conv.u2, conv.u1
    (0xD1, 0xD2, OfNumbers(Conversion(Number::Int32))),
    // conv.i, conv.ovf.i, conv.ovf.u
    (0xD3, 0xD5, OfNumbers(Conversion(Number::Native))),
    // add.ovf, add.ovf.un, mul.ovf, mul.ovf.un, sub.ovf, sub.ovf.un
    (0xD6, 0xDB, OfNumbers(Arithmetic)),
    // conv.u
    (0xE0, 0xE0, OfNumbers(Conversion(Number::Native))),
    // ceq
    (0xFE01, 0xFE01, OfNumbers(Sameness)),
    // cgt
    (0xFE02, 0xFE02, OfNumbers(Order)),
    // cgt.un
    (0xFE03, 0xFE03, OfNumbers(Sameness)),
    // clt, clt.un
    (0xFE04, 0xFE05, OfNumbers(Order)),
    // ldarg
    (0xFE09, 0xFE09, OfPlace(Argument)),
    // starg
    (0xFE0B, 0xFE0B, OfPlace(ArgumentStore)),
    // ldloc
    (0xFE0C, 0xFE0C, OfPlace(Local)),
    // stloc
    (0xFE0E, 0xFE0E, OfPlace(LocalStore)),
];

/// The run of instructions in which an opcode is: its first and last opcode, and their kind. `None`
/// exactly where no kind of instruction has the opcode.
#[tactic(auto, unfolding(crate::specs::Kinds::run_of))]
pub(crate) fn run_of(opcode: u16) -> Option<(u16, u16, Kind)>
    ensures { result ≡ run_of opcode }
{
    KINDS
        .iter()
        .copied()
        .find(|run| run.0 <= opcode && opcode <= run.1)
}
