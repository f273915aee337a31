//! Instructions.
ghost use Rattle.std.specs.Prelude.{◌≡◌, ◌+◌, ◌<◌, ◌≤◌, nat_le, if◌then◌else◌, length, Some};
ghost use Rattle.std.specs.Prelude.{None, IfOk, IfSome};
ghost use Rattle.std.specs.Option.{ok_or};
ghost use Rattle.il_reader.specs.declared.fault.IlFault.TheVariants.{Bad};
ghost use Rattle.il_reader.specs.Instructions.{opcode_at, opcode_len, operand_at, operand_len};
ghost use Rattle.il_reader.specs.Instructions.{instruction_at};

use crate::fault::IlFault;
use crate::opcode::{Form, operand_form};
use cli_words::{Span, u16_at, u32_at, u64_at};

/// The first byte of an opcode of two bytes.
const PREFIX: u8 = 0xFE;

/// The opcode of two bytes whose second is 0.
const LONG_OPCODES: u16 = 0xFE00;

/// The length of a distance, and of the count before distances, in bytes.
const DISTANCE_LEN: usize = 4;

/// What follows an opcode. ECMA-335 III.1.2.
#[derive(Clone, Copy, PartialEq, Eq, Debug)]
pub enum Operand {
    /// Nothing does.
    Nothing,
    /// A number: widened by its sign, or with zeros where its bytes are an unsigned number. The
    /// bytes of a float are taken as a signed number.
    Number(i64),
    /// A distance in bytes from the next instruction.
    Branch(i32),
    /// A metadata token.
    Token(u32),
    /// The distances of a switch, four bytes each, as a span of the code.
    Switch(Span),
}

/// An instruction.
#[derive(Clone, Copy, PartialEq, Eq, Debug)]
pub struct Instr {
    /// Its opcode: its byte, or FE00 plus the byte after FE.
    pub code: u16,
    pub operand: Operand,
}

/// The instruction at byte `at` of the code, and the place after it. `Bad` with `at` exactly where
/// no instruction stands there whole: no instruction has the opcode, or the code ends before the
/// instruction does. ECMA-335 III.1.2, VI.C.2.
pub fn next(code: &[u8], at: usize) -> Result<(Instr, usize), IlFault>
    ensures value { result ≡ ok_or (instruction_at code.now at) (Bad at) }
    ensures onward { IfOk result (λ found. at < found.1) }
    ensures within { IfOk result (λ found. found.1 ≤ length code.now) }
{
    read_instruction(code, at).ok_or(IlFault::Bad { at })
}

#[tactic(auto, unfolding(crate::specs::Instructions::instruction_at, crate::specs::Instructions::whole))]
fn read_instruction(code: &[u8], at: usize) -> Option<(Instr, usize)>
    ensures value { result ≡ instruction_at code.now at }
    ensures onward { IfSome result (λ found. at < found.1) }
    ensures within { IfSome result (λ found. found.1 ≤ length code.now) }
{
    let (opcode, from) = read_opcode(code, at)?;
    let form = operand_form(opcode)?;
    let end = operand_end(code, from, form)?;
    let operand = read_operand(code, from, form);
    Some((
        Instr {
            code: opcode,
            operand,
        },
        end,
    ))
}

/// The opcode at a place, and the place after it, where the code goes on to there.
#[tactic(auto, unfolding(crate::specs::Instructions::opcode_at, crate::specs::Instructions::opcode_len))]
fn read_opcode(code: &[u8], at: usize) -> Option<(u16, usize)>
    ensures found { let end = at + opcode_len code.now at in
        let found = Some (opcode_at code.now at, end) in
        result ≡ (if nat_le end (length code.now) then found else None) }
    ensures onward { IfSome result (λ found. at < found.1) }
{
    let first = *code.get(at)?;
    if first != PREFIX {
        return Some((u16::from(first), at + 1));
    }
    let second = *code.get(at + 1)?;
    Some((LONG_OPCODES + u16::from(second), at + 2))
}

/// The place after an operand, where the code goes on to there.
#[tactic(auto, unfolding(crate::specs::Instructions::operand_len))]
fn operand_end(code: &[u8], from: usize, form: Form) -> Option<usize>
    requires { from ≤ length code.now }
    ensures found { let end = from + operand_len code.now from form in
        result ≡ (if nat_le end (length code.now) then Some end else None) }
    ensures onward { IfSome result (λ end. from ≤ end) }
{
    let room = code.len() - from;
    let len = match form {
        Form::Bare => 0,
        Form::Int8 | Form::UInt8 | Form::ShortBranch => 1,
        Form::UInt16 => 2,
        Form::Int32 | Form::TokenWord | Form::LongBranch => 4,
        Form::Int64 => 8,
        Form::Distances if room < DISTANCE_LEN => return None,
        Form::Distances => DISTANCE_LEN + DISTANCE_LEN * u32_at(code, from) as usize,
    };
    if len <= room { Some(from + len) } else { None }
}

/// What an operand says that stands whole in the code.
#[tactic(auto, unfolding(crate::specs::Instructions::operand_len, crate::specs::Instructions::operand_at))]
fn read_operand(code: &[u8], from: usize, form: Form) -> Operand
    requires { from + operand_len code.now from form ≤ length code.now }
    ensures { result ≡ operand_at code.now from form }
{
    match form {
        Form::Bare => Operand::Nothing,
        Form::Int8 => Operand::Number(code[from].cast_signed() as i64),
        Form::UInt8 => Operand::Number(i64::from(code[from])),
        Form::UInt16 => Operand::Number(i64::from(u16_at(code, from))),
        Form::Int32 => Operand::Number(i64::from(u32_at(code, from).cast_signed())),
        Form::Int64 => Operand::Number(u64_at(code, from).cast_signed()),
        Form::TokenWord => Operand::Token(u32_at(code, from)),
        Form::ShortBranch => Operand::Branch(i32::from(code[from].cast_signed())),
        Form::LongBranch => Operand::Branch(u32_at(code, from).cast_signed()),
        Form::Distances => Operand::Switch(Span {
            at: from + DISTANCE_LEN,
            len: DISTANCE_LEN * u32_at(code, from) as usize,
        }),
    }
}
