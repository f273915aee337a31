use crate::{
    Body, CATCH, Clause, FAULT, FINALLY, IlFault, Instr, Operand, boundaries, next, read_body,
};
use cli_words::Span;
use std::alloc::{AllocError, Global};
use std::test::Fail;

/// The instructions without an operand.
const BARE: [u16; 139] = [
    0x00, 0x01, 0x02, 0x03, 0x04, 0x05, 0x06, 0x07, 0x08, 0x09, 0x0A, 0x0B, 0x0C, 0x0D, 0x14, 0x15,
    0x16, 0x17, 0x18, 0x19, 0x1A, 0x1B, 0x1C, 0x1D, 0x1E, 0x25, 0x26, 0x2A, 0x46, 0x47, 0x48, 0x49,
    0x4A, 0x4B, 0x4C, 0x4D, 0x4E, 0x4F, 0x50, 0x51, 0x52, 0x53, 0x54, 0x55, 0x56, 0x57, 0x58, 0x59,
    0x5A, 0x5B, 0x5C, 0x5D, 0x5E, 0x5F, 0x60, 0x61, 0x62, 0x63, 0x64, 0x65, 0x66, 0x67, 0x68, 0x69,
    0x6A, 0x6B, 0x6C, 0x6D, 0x6E, 0x76, 0x7A, 0x82, 0x83, 0x84, 0x85, 0x86, 0x87, 0x88, 0x89, 0x8A,
    0x8B, 0x8E, 0x90, 0x91, 0x92, 0x93, 0x94, 0x95, 0x96, 0x97, 0x98, 0x99, 0x9A, 0x9B, 0x9C, 0x9D,
    0x9E, 0x9F, 0xA0, 0xA1, 0xA2, 0xB3, 0xB4, 0xB5, 0xB6, 0xB7, 0xB8, 0xB9, 0xBA, 0xC3, 0xD1, 0xD2,
    0xD3, 0xD4, 0xD5, 0xD6, 0xD7, 0xD8, 0xD9, 0xDA, 0xDB, 0xDC, 0xDF, 0xE0, 0xFE00, 0xFE01, 0xFE02,
    0xFE03, 0xFE04, 0xFE05, 0xFE0F, 0xFE11, 0xFE13, 0xFE14, 0xFE17, 0xFE18, 0xFE1A, 0xFE1D, 0xFE1E,
];

/// Those with a token.
const TOKENS: [u16; 32] = [
    0x27, 0x28, 0x29, 0x6F, 0x70, 0x71, 0x72, 0x73, 0x74, 0x75, 0x79, 0x7B, 0x7C, 0x7D, 0x7E, 0x7F,
    0x80, 0x81, 0x8C, 0x8D, 0x8F, 0xA3, 0xA4, 0xA5, 0xC2, 0xC6, 0xD0, 0xFE06, 0xFE07, 0xFE15,
    0xFE16, 0xFE1C,
];

/// Those with a short distance.
const SHORT: [u16; 14] = [
    0x2B, 0x2C, 0x2D, 0x2E, 0x2F, 0x30, 0x31, 0x32, 0x33, 0x34, 0x35, 0x36, 0x37, 0xDE,
];

/// Those with a long one.
const LONG: [u16; 14] = [
    0x38, 0x39, 0x3A, 0x3B, 0x3C, 0x3D, 0x3E, 0x3F, 0x40, 0x41, 0x42, 0x43, 0x44, 0xDD,
];

/// Those that number an argument or a local, or have a byte of flags.
const BYTES: [u16; 8] = [0x0E, 0x0F, 0x10, 0x11, 0x12, 0x13, 0xFE12, 0xFE19];

/// The same with two bytes.
const HALVES: [u16; 6] = [0xFE09, 0xFE0A, 0xFE0B, 0xFE0C, 0xFE0D, 0xFE0E];

/// A fat body with a small section: a catch.
const WITH_CATCH: [u8; 44] = [
    0x1B, 0x30, 0x02, 0x00, 0x0D, 0x00, 0x00, 0x00, 0x01, 0x00, 0x00, 0x11, 0x17, 0x16, 0x5B, 0x0A,
    0xDE, 0x05, 0x26, 0x1B, 0x0A, 0xDE, 0x00, 0x06, 0x2A, 0x00, 0x00, 0x00, 0x01, 0x10, 0x00, 0x00,
    0x00, 0x00, 0x00, 0x00, 0x06, 0x06, 0x00, 0x05, 0x03, 0x00, 0x00, 0x01,
];

/// A fat body with two sections at byte 3: a fat one with a finally and a fault, and a small one
/// with no clause.
const TWO_SECTIONS: [u8; 76] = [
    0xAA, 0xAA, 0xAA, 0x0B, 0x30, 0x07, 0x00, 0x02, 0x00, 0x00, 0x00, 0x00, 0x00, 0x00, 0x00, 0x00,
    0x2A, 0xAA, 0xAA, 0xAA, 0xC1, 0x34, 0x00, 0x00, 0x02, 0x00, 0x00, 0x00, 0x01, 0x02, 0x03, 0x04,
    0x05, 0x00, 0x00, 0x00, 0x06, 0x00, 0x00, 0x00, 0x07, 0x00, 0x00, 0x00, 0x00, 0x00, 0x00, 0x00,
    0x04, 0x00, 0x00, 0x00, 0x00, 0x00, 0x00, 0x00, 0x01, 0x00, 0x00, 0x00, 0x01, 0x00, 0x00, 0x00,
    0xFF, 0xFF, 0xFF, 0xFF, 0x00, 0x00, 0x00, 0x80, 0x01, 0x04, 0xAA, 0xAA,
];

/// The bytes of an instruction.
fn coded(alloc: Global, opcode: u16, operand: &[u8]) -> Result<Vec<u8>, AllocError> {
    let mut code = Vec::new(alloc);
    if opcode >= 0x100 {
        code.push(0xFE)?;
    }
    code.push((opcode % 0x100) as u8)?;
    code.extend_from_slice(operand)?;
    Ok(code)
}

/// The bytes are just this instruction.
fn is_whole(bytes: &[u8], code: u16, operand: Operand) -> bool {
    match next(bytes, 0) {
        Ok((instr, end)) => instr == Instr { code, operand } && end == bytes.len(),
        Err(_) => false,
    }
}

/// Instructions, the bytes of an operand and what they are.
static OPERANDS: [(&[u16], &[u8], Operand); 11] = [
    (&BARE, &[], Operand::Nothing),
    (&BYTES, &[0xF0], Operand::Number(240)),
    (&HALVES, &[0xF0, 0xFF], Operand::Number(65_520)),
    (&[0x1F], &[0xF0], Operand::Number(-16)),
    (
        &[0x20, 0x22],
        &[0xF0, 0xFF, 0xFF, 0xFF],
        Operand::Number(-16),
    ),
    (
        &[0x21, 0x23],
        &[1, 0, 0, 0, 0, 0, 0, 0x80],
        Operand::Number(-9_223_372_036_854_775_807),
    ),
    (&TOKENS, &[2, 1, 0, 0x1B], Operand::Token(0x1B00_0102)),
    (&SHORT, &[0xF0], Operand::Branch(-16)),
    (&LONG, &[0xF0, 0xFF, 0xFF, 0xFF], Operand::Branch(-16)),
    (
        &[0x45],
        &[0, 0, 0, 0],
        Operand::Switch(Span { at: 5, len: 0 }),
    ),
    (
        &[0x45],
        &[2, 0, 0, 0, 1, 2, 3, 4, 5, 6, 7, 8],
        Operand::Switch(Span { at: 5, len: 8 }),
    ),
];

#[test]
fn decodes_each_instruction(rt: HostRuntime) -> Result<(), Fail> {
    for (opcodes, bytes, operand) in &OPERANDS {
        for code in *opcodes {
            let mut coded = coded(rt.alloc(), *code, bytes)?;
            assert!(rt; is_whole(&coded, *code, *operand));
            let _ = coded.pop();
            assert!(rt; next(&coded, 0) == Err(IlFault::Bad { at: 0 }));
        }
    }
    Ok(())
}

/// There are no others.
#[test]
fn refuses_other_instructions(rt: HostRuntime) {
    let mut known = 0_u32;
    for byte in 0..=0xFF_u8 {
        if byte != 0xFE && next(&[byte, 0, 0, 0, 0, 0, 0, 0, 0], 0).is_ok() {
            known = known.saturating_add(1);
        }
        if next(&[0xFE, byte, 0, 0, 0, 0, 0, 0, 0, 0], 0).is_ok() {
            known = known.saturating_add(1);
        }
    }
    assert!(rt; known == 219);
}

/// Code, and where its instructions begin, or where none stands.
static CODE: [(&[u8], Result<&[u32], usize>); 16] = [
    (&[], Ok(&[])),
    (&[0x17, 0x2A], Ok(&[0, 1])),
    (&[0x1F, 0x2A, 0x2A], Ok(&[0, 2])),
    (&[0x02, 0x03, 0x5B, 0x2A], Ok(&[0, 1, 2, 3])),
    (&[0x28, 0x01, 0x00, 0x00, 0x0A, 0x2A], Ok(&[0, 5])),
    (&[0x17, 0x17, 0x2D, 0x01, 0x18, 0x2A], Ok(&[0, 1, 2, 4, 5])),
    (
        &[0x02, 0x8D, 0x02, 0x00, 0x00, 0x01, 0x8E, 0x69, 0x2A],
        Ok(&[0, 1, 6, 7, 8]),
    ),
    (
        &[
            0x7E, 0x01, 0x00, 0x00, 0x04, 0x26, 0x02, 0x17, 0x59, 0x10, 0x00, 0x02, 0x2D, 0xF2,
            0x2A,
        ],
        Ok(&[0, 5, 6, 7, 8, 9, 11, 12, 14]),
    ),
    (
        &[
            0x17, 0x16, 0x5B, 0x0A, 0xDE, 0x05, 0x26, 0x1B, 0x0A, 0xDE, 0x00, 0x06, 0x2A,
        ],
        Ok(&[0, 1, 2, 3, 4, 6, 7, 8, 9, 11, 12]),
    ),
    (
        &[
            0x73, 0x02, 0x00, 0x00, 0x0A, 0x7A, 0x72, 0x01, 0x00, 0x00, 0x70, 0x28, 0x01, 0x00,
            0x00, 0x0A, 0xDC,
        ],
        Ok(&[0, 5, 6, 11, 16]),
    ),
    (
        &[
            0xFE, 0x0C, 0x01, 0x00, 0x45, 1, 0, 0, 0, 0, 0, 0, 0, 0xFE, 0x01,
        ],
        Ok(&[0, 4, 13]),
    ),
    (&[0xFE], Err(0)),
    (&[0x17, 0x24], Err(1)),
    (&[0x17, 0x20, 0x00, 0x00, 0x00], Err(1)),
    (
        &[0x2A, 0x45, 0x02, 0x00, 0x00, 0x00, 0x00, 0x00, 0x00, 0x00],
        Err(1),
    ),
    (&[0x45, 0xFF, 0xFF, 0xFF, 0xFF, 0x00], Err(0)),
];

#[test]
fn finds_boundaries(rt: HostRuntime) {
    for (n, (code, wanted)) in CODE.iter().enumerate() {
        let is_as = match (boundaries(rt.alloc(), code), wanted) {
            (Ok(found), Ok(wanted)) => found.as_slice() == *wanted,
            (Err(fault), Err(at)) => fault == IlFault::Bad { at: *at },
            _ => false,
        };
        assert!(rt; is_as, "row {n}");
    }
}

/// A body to be read, its place, what its header says, and its clauses.
struct BodyRow {
    bytes: &'static [u8],
    at: usize,
    max_stack: u16,
    init_locals: bool,
    locals: u32,
    code: Span,
    clauses: &'static [Clause],
}

static BODIES: [BodyRow; 4] = [
    BodyRow {
        bytes: &[0x0A, 0x17, 0x2A],
        at: 0,
        max_stack: 8,
        init_locals: false,
        locals: 0,
        code: Span { at: 1, len: 2 },
        clauses: &[],
    },
    BodyRow {
        bytes: &[0xFF, 0x02],
        at: 1,
        max_stack: 8,
        init_locals: false,
        locals: 0,
        code: Span { at: 2, len: 0 },
        clauses: &[],
    },
    BodyRow {
        bytes: &WITH_CATCH,
        at: 0,
        max_stack: 2,
        init_locals: true,
        locals: 0x1100_0001,
        code: Span { at: 12, len: 13 },
        clauses: &[Clause {
            kind: CATCH,
            try_at: 0,
            try_len: 6,
            handler_at: 6,
            handler_len: 5,
            last: 0x0100_0003,
        }],
    },
    BodyRow {
        bytes: &TWO_SECTIONS,
        at: 3,
        max_stack: 7,
        init_locals: false,
        locals: 0,
        code: Span { at: 15, len: 2 },
        clauses: &[
            Clause {
                kind: FINALLY,
                try_at: 0x0403_0201,
                try_len: 5,
                handler_at: 6,
                handler_len: 7,
                last: 0,
            },
            Clause {
                kind: FAULT,
                try_at: 0,
                try_len: 1,
                handler_at: 1,
                handler_len: u32::MAX,
                last: 0x8000_0000,
            },
        ],
    },
];

fn is_as(body: &Body, row: &BodyRow) -> bool {
    body.max_stack == row.max_stack
        && body.init_locals == row.init_locals
        && body.locals == row.locals
        && body.code == row.code
        && body.clauses.items() == row.clauses
}

/// Without its last byte no body stands whole.
fn is_whole_only(alloc: Global, bytes: &[u8], at: usize) -> bool {
    match bytes.split_last() {
        Some((_, front)) => read_body(alloc, front, at).err() == Some(IlFault::Bad { at }),
        None => false,
    }
}

#[test]
fn reads_bodies(rt: HostRuntime) -> Result<(), Fail> {
    for (n, row) in BODIES.iter().enumerate() {
        let body = read_body(rt.alloc(), row.bytes, row.at)?;
        assert!(rt; is_as(&body, row), "row {n}");
        assert!(rt; is_whole_only(rt.alloc(), row.bytes, row.at), "row {n}");
    }
    Ok(())
}

/// A byte of the body with a catch, what stands there instead, and how many clauses are read.
static CHANGED: [(usize, u8, Option<usize>); 14] = [
    (0, 0x13, Some(0)),
    (0, 0x19, None),
    (1, 0x20, None),
    (1, 0x3F, Some(1)),
    (4, 0x10, Some(1)),
    (4, 0x11, None),
    (25, 0xFF, Some(1)),
    (28, 0x02, None),
    (28, 0x41, None),
    (28, 0x81, None),
    (29, 0x04, Some(0)),
    (29, 0x0F, None),
    (32, 0x01, Some(1)),
    (32, 0x03, None),
];

fn clause_count(alloc: Global, bytes: &[u8]) -> Option<usize> {
    let body = read_body(alloc, bytes, 0).ok()?;
    Some(body.clauses.items().len())
}

#[test]
fn refuses_what_is_no_body(rt: HostRuntime) -> Result<(), Fail> {
    for (n, (at, byte, clauses)) in CHANGED.iter().enumerate() {
        let mut bytes = WITH_CATCH.to_vec(rt.alloc())?;
        if let Some(place) = bytes.get_mut(*at) {
            *place = *byte;
        }
        assert!(rt; clause_count(rt.alloc(), &bytes) == *clauses, "row {n}");
    }
    let far = read_body(rt.alloc(), &WITH_CATCH, usize::MAX).err();
    assert!(rt; far == Some(IlFault::Bad { at: usize::MAX }));
    Ok(())
}

/// A fat body of 65,536 instructions, and after them a fat section of 100 clauses of no bytes.
#[test]
fn reads_what_is_long(rt: HostRuntime) -> Result<(), Fail> {
    let mut bytes = b"\x0B\x30\0\0\0\0\x01\0\0\0\0\0".to_vec(rt.alloc())?;
    bytes.resize(12 + 65_536, 0)?;
    bytes.extend_from_slice(b"\x41\x64\x09")?;
    bytes.resize(12 + 65_536 + 4 + 24 * 100, 0)?;
    let body = read_body(rt.alloc(), &bytes, 0)?;
    assert!(rt; body.clauses.items().len() == 100);
    assert!(rt;
        body.code
            == Span {
                at: 12,
                len: 65_536
            }
    );
    let code = body.code.cut(&bytes);
    assert!(rt; boundaries(rt.alloc(), code)?.len() == 65_536);
    Ok(())
}
