//! The instructions by their opcodes.
ghost use Rattle.std.specs.Prelude.{◌≡◌};
ghost use Rattle.il_reader.specs.Opcodes.{form_of};

use Form::{
    Bare, Distances, Int8, Int32, Int64, LongBranch, ShortBranch, TokenWord, UInt8, UInt16,
};

/// How the operand of an instruction is spelled. ECMA-335 III.1.2, VI.C.2.
#[derive(Clone, Copy, PartialEq, Eq, Debug)]
pub(crate) enum Form {
    /// It has none.
    Bare,
    /// A signed number of one byte.
    Int8,
    /// An unsigned number of one byte.
    UInt8,
    /// An unsigned number of two bytes.
    UInt16,
    /// A signed number of four bytes.
    Int32,
    /// A signed number of eight bytes.
    Int64,
    /// A metadata token of four bytes.
    TokenWord,
    /// A branch's distance of one byte, signed.
    ShortBranch,
    /// A branch's distance of four bytes, signed.
    LongBranch,
    /// A count of four bytes, and as many distances of four bytes.
    Distances,
}

/// The first and the last opcode of each run of instructions whose operands have one form. FE and
/// a second byte `n` are the opcode `FE00 + n`.
const INSTRUCTIONS: [(u16, u16, Form); 52] = [
    // nop, break, ldarg.0 to ldarg.3, ldloc.0 to ldloc.3, stloc.0 to stloc.3
    (0x00, 0x0D, Bare),
    // ldarg.s, ldarga.s, starg.s, ldloc.s, ldloca.s, stloc.s
    (0x0E, 0x13, UInt8),
    // ldnull, ldc.i4.m1, ldc.i4.0 to ldc.i4.8
    (0x14, 0x1E, Bare),
    // ldc.i4.s
    (0x1F, 0x1F, Int8),
    // ldc.i4
    (0x20, 0x20, Int32),
    // ldc.i8
    (0x21, 0x21, Int64),
    // ldc.r4, whose four bytes are taken as a number
    (0x22, 0x22, Int32),
    // ldc.r8, whose eight bytes are taken as a number
    (0x23, 0x23, Int64),
    // dup, pop
    (0x25, 0x26, Bare),
    // jmp, call, calli
    (0x27, 0x29, TokenWord),
    // ret
    (0x2A, 0x2A, Bare),
    // br.s, brfalse.s, brtrue.s, beq.s, bge.s, bgt.s, ble.s, blt.s, bne.un.s, bge.un.s, bgt.un.s,
    // ble.un.s, blt.un.s
    (0x2B, 0x37, ShortBranch),
    // br, brfalse, brtrue, beq, bge, bgt, ble, blt, bne.un, bge.un, bgt.un, ble.un, blt.un
    (0x38, 0x44, LongBranch),
    // switch
    (0x45, 0x45, Distances),
    // ldind: i1, u1, i2, u2, i4, u4, i8, i, r4, r8, ref; stind: ref, i1, i2, i4, i8, r4, r8
    (0x46, 0x57, Bare),
    // add, sub, mul, div, div.un, rem, rem.un, and, or, xor, shl, shr, shr.un, neg, not
    (0x58, 0x66, Bare),
    // conv: i1, i2, i4, i8, r4, r8, u4, u8
    (0x67, 0x6E, Bare),
    // callvirt, cpobj, ldobj, ldstr, newobj, castclass, isinst
    (0x6F, 0x75, TokenWord),
    // conv.r.un
    (0x76, 0x76, Bare),
    // unbox
    (0x79, 0x79, TokenWord),
    // throw
    (0x7A, 0x7A, Bare),
    // ldfld, ldflda, stfld, ldsfld, ldsflda, stsfld, stobj
    (0x7B, 0x81, TokenWord),
    // conv.ovf with .un: i1, i2, i4, i8, u1, u2, u4, u8, i, u
    (0x82, 0x8B, Bare),
    // box, newarr
    (0x8C, 0x8D, TokenWord),
    // ldlen
    (0x8E, 0x8E, Bare),
    // ldelema
    (0x8F, 0x8F, TokenWord),
    // ldelem: i1, u1, i2, u2, i4, u4, i8, i, r4, r8, ref
    (0x90, 0x9A, Bare),
    // stelem: i, i1, i2, i4, i8, r4, r8, ref
    (0x9B, 0xA2, Bare),
    // ldelem, stelem, unbox.any
    (0xA3, 0xA5, TokenWord),
    // conv.ovf: i1, u1, i2, u2, i4, u4, i8, u8
    (0xB3, 0xBA, Bare),
    // refanyval
    (0xC2, 0xC2, TokenWord),
    // ckfinite
    (0xC3, 0xC3, Bare),
    // mkrefany
    (0xC6, 0xC6, TokenWord),
    // ldtoken
    (0xD0, 0xD0, TokenWord),
    // conv: u2, u1, i; conv.ovf: i, u
    (0xD1, 0xD5, Bare),
    // add.ovf, add.ovf.un, mul.ovf, mul.ovf.un, sub.ovf, sub.ovf.un, endfinally
    (0xD6, 0xDC, Bare),
    // leave
    (0xDD, 0xDD, LongBranch),
    // leave.s
    (0xDE, 0xDE, ShortBranch),
    // stind.i, conv.u
    (0xDF, 0xE0, Bare),
    // arglist, ceq, cgt, cgt.un, clt, clt.un
    (0xFE00, 0xFE05, Bare),
    // ldftn, ldvirtftn
    (0xFE06, 0xFE07, TokenWord),
    // ldarg, ldarga, starg, ldloc, ldloca, stloc
    (0xFE09, 0xFE0E, UInt16),
    // localloc
    (0xFE0F, 0xFE0F, Bare),
    // endfilter
    (0xFE11, 0xFE11, Bare),
    // unaligned.
    (0xFE12, 0xFE12, UInt8),
    // volatile., tail.
    (0xFE13, 0xFE14, Bare),
    // initobj, constrained.
    (0xFE15, 0xFE16, TokenWord),
    // cpblk, initblk
    (0xFE17, 0xFE18, Bare),
    // no.
    (0xFE19, 0xFE19, UInt8),
    // rethrow
    (0xFE1A, 0xFE1A, Bare),
    // sizeof
    (0xFE1C, 0xFE1C, TokenWord),
    // refanytype, readonly.
    (0xFE1D, 0xFE1E, Bare),
];

/// The form of the operand of an opcode's instruction. `None` exactly where no instruction has the
/// opcode.
#[tactic(auto, unfolding(crate::specs::Opcodes::form_of))]
pub(crate) fn operand_form(opcode: u16) -> Option<Form>
    ensures { result ≡ form_of opcode }
{
    let run = INSTRUCTIONS
        .iter()
        .find(|run| run.0 <= opcode && opcode <= run.1)?;
    Some(run.2)
}
