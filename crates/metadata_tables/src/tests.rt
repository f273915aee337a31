//! Streams written by hand from ECMA-335 II.22 and II.24.2.6.
ghost use Rattle.std.specs.Prelude.{◌≤◌, length, IfOk};
ghost use Rattle.metadata_tables.specs.Layout.{rows_end};

use crate::{CodedIndex, Column, HeapSizes, Tables, columns, read_tables};
use cli_words::CheckCode::{self, Bounds, Table};
use cli_words::{FailedCheck, Span};
use std::alloc::{AllocError, Global};
use std::process::Abort;
use std::test::Fail;

/// Module 1 row, TypeRef 2, Constant 1, Assembly 1; heap indexes have two bytes. Two bytes stand
/// before the stream.
static SMALL: &[u8] = &[
    0xEE, 0xEE, 0, 0, 0, 0, 2, 0, 0, 1, 0x03, 0x08, 0, 0, 1, 0, 0, 0, 0, 0xFA, 1, 0x33, 0, 0x16, 0,
    0, 1, 0, 0, 0, 2, 0, 0, 0, 1, 0, 0, 0, 1, 0, 0, 0, // Module
    0, 0, 1, 0, 1, 0, 0, 0, 0, 0, // TypeRef
    6, 0, 0x0A, 0, 0x0F, 0, 0x0A, 0, 0xFF, 0xFF, 0x34, 0x12, // Constant
    8, 0, 4, 0, 0x21, 0, // Assembly
    4, 0x80, 0, 0, 1, 0, 2, 0, 3, 0, 4, 0, 1, 0, 0, 0, 7, 0, 0x0B, 0, 0, 0,
];

/// Module 1 row, Field 1; heap indexes have four bytes.
static WIDE: &[u8] = &[
    0, 0, 0, 0, 2, 0, 7, 1, 0x11, 0, 0, 0, 0, 0, 0, 0, 0, 0, 0, 0, 0, 0, 0, 0, 1, 0, 0, 0, 1, 0, 0,
    0, // Module
    0, 0, 1, 0, 0, 0, 2, 0, 0, 0, 3, 0, 0, 0, 4, 0, 0, 1, // Field
    6, 0, 0x78, 0x56, 0x34, 0x12, 5, 0, 0, 0,
];

fn read(rt: &impl Abort, bytes: &[u8], at: usize, len: usize) -> Result<Tables, FailedCheck>
    ensures { IfOk result (λ read. rows_end read ≤ length bytes.now) }
{
    assert!(rt; bytes.len() < 1_000_000);
    assert!(rt; 24 <= len);
    assert!(rt; len <= bytes.len());
    assert!(rt; at <= bytes.len() - len);
    let sizes = HeapSizes {
        strings: 0,
        guid: 0,
        blob: 0,
    };
    read_tables(bytes, Span { at, len }, sizes)
}

/// The row has these numbers and no more, read whole as one by one.
fn row_is(rt: &impl Abort, tables: &Tables, bytes: &[u8], table: u8, n: u32, wanted: &[u32])
    requires { rows_end tables.now ≤ length bytes.now }
{
    let row = tables.row(bytes, table, n);
    assert!(rt; row.is_some() != wanted.is_empty());
    for k in 0..10_usize {
        let number = wanted.get(k).copied();
        assert!(rt;
            tables.number(bytes, table, n, k) == number,
            "column {k} of {table}"
        );
        assert!(rt; tables.column_at(table, n, k).is_some() == number.is_some());
        if let Some(row) = &row {
            assert!(rt; row.column(k) == number);
        }
    }
}

/// Tables and rows of `SMALL`, and the numbers in them: none where there is no such row.
static SMALL_ROWS: [(u8, u32, &[u32]); 10] = [
    (0, 0, &[]),
    (0, 1, &[0, 1, 1, 0, 0]),
    (0, 2, &[]),
    (1, 1, &[6, 10, 15]),
    (1, 2, &[10, 0xFFFF, 0x1234]),
    (1, 3, &[]),
    (2, 1, &[]),
    (0x0B, 1, &[8, 0, 4, 0x21]),
    (0x20, 1, &[0x8004, 1, 2, 3, 4, 1, 7, 11, 0]),
    (255, 1, &[]),
];

#[test]
fn reads_rows(rt: HostRuntime) -> Result<(), Fail> {
    let tables = read(&rt, SMALL, 2, 90)?;
    for (table, n, wanted) in &SMALL_ROWS {
        row_is(&rt, &tables, SMALL, *table, *n, wanted);
    }
    assert!(rt; tables.count(1) == 2);
    assert!(rt; tables.column_at(1, 2, 2) == Some(62));
    assert!(rt; tables.column_at(0x20, 1, 8) == Some(90));
    let tables = read(&rt, WIDE, 0, 60)?;
    row_is(&rt, &tables, WIDE, 0, 1, &[0, 1, 2, 3, 0x0100_0004]);
    row_is(&rt, &tables, WIDE, 4, 1, &[6, 0x1234_5678, 5]);
    Ok(())
}

/// A stream of these tables and counts, with rows of zeros up to its length.
fn stream(alloc: Global, valid: u64, counts: &[u32], len: usize) -> Result<Vec<u8>, AllocError> {
    let mut bytes = [0, 0, 0, 0, 2, 0, 0, 1].to_vec(alloc)?;
    bytes.extend_from_slice(&valid.to_le_bytes())?;
    bytes.extend_from_slice(&[0; 8])?;
    for count in counts {
        bytes.extend_from_slice(&count.to_le_bytes())?;
    }
    bytes.resize(len, 0)?;
    Ok(bytes)
}

/// MemberRef, ModuleRef and ImplMap: the count of ModuleRef decides how wide indexes into it are.
const INDEXED: u64 = (1 << 0x0A) + (1 << 0x1A) + (1 << 0x1C);

/// The tables of a stream, their counts, its length, and the check that it fails.
static STREAMS: [(u64, &[u32], usize, Option<CheckCode>); 30] = [
    (0, &[], 24, None),
    (1, &[], 24, Some(Bounds)),
    (1, &[1], 27, Some(Bounds)),
    (1, &[0], 28, None),
    (1, &[1], 37, Some(Bounds)),
    (1, &[1], 38, None),
    (1, &[0x00FF_FFFF], 28, Some(Bounds)),
    (1, &[0x0100_0000], 28, Some(Table)),
    (1, &[0x0100_0000], 27, Some(Bounds)),
    (3, &[0, 0x0100_0000], 31, Some(Bounds)),
    (3, &[0, 0x0100_0000], 32, Some(Table)),
    (1 << 0x03, &[0], 28, Some(Table)),
    (1 << 0x05, &[0], 28, Some(Table)),
    (1 << 0x07, &[0], 28, Some(Table)),
    (1 << 0x13, &[0], 28, Some(Table)),
    (1 << 0x16, &[0], 28, Some(Table)),
    (1 << 0x1E, &[0], 28, Some(Table)),
    (1 << 0x1F, &[0], 28, Some(Table)),
    (1 << 0x2C, &[1], 32, None),
    (1 << 0x2D, &[], 24, Some(Table)),
    (1 << 0x3F, &[0], 28, Some(Table)),
    ((1 << 0x3F) + 1, &[1], 28, Some(Table)),
    (INDEXED, &[1, 8_191, 1], 16_432, None),
    (INDEXED, &[1, 8_191, 1], 16_431, Some(Bounds)),
    (INDEXED, &[1, 8_192, 1], 16_436, None),
    (INDEXED, &[1, 8_192, 1], 16_435, Some(Bounds)),
    (INDEXED, &[1, 65_535, 1], 131_122, None),
    (INDEXED, &[1, 65_535, 1], 131_121, Some(Bounds)),
    (INDEXED, &[1, 65_536, 1], 131_126, None),
    (INDEXED, &[1, 65_536, 1], 131_125, Some(Bounds)),
];

#[test]
fn refuses_streams(rt: HostRuntime) -> Result<(), Fail> {
    for (n, (valid, counts, len, wanted)) in STREAMS.iter().enumerate() {
        let bytes = stream(rt.alloc(), *valid, counts, *len)?;
        let failed = read(&rt, &bytes, 0, *len).err();
        assert!(rt; failed.map(|failed| failed.code) == *wanted, "row {n}");
    }
    let failed = read(&rt, SMALL, 2, 89).err();
    assert!(rt; failed == Some(FailedCheck::of(Bounds, 2)));
    Ok(())
}

/// The columns of MethodSpec.
static METHOD_SPEC: [Column; 2] = [Column::Coded(CodedIndex::MethodDefOrRef), Column::Blob];

/// Coded indexes, and the table and the row that each names.
static TARGETS: [(CodedIndex, u32, Option<(u8, u32)>); 8] = [
    (CodedIndex::TypeDefOrRef, 0x49, Some((0x01, 0x12))),
    (CodedIndex::TypeDefOrRef, 0x4B, None),
    (CodedIndex::HasCustomAttribute, 0x2A, Some((0x14, 1))),
    (CodedIndex::HasCustomAttribute, 0x15, Some((0x2B, 0))),
    (CodedIndex::HasCustomAttribute, 0x16, None),
    (CodedIndex::CustomAttributeType, 0, None),
    (CodedIndex::CustomAttributeType, 0x0B, Some((0x0A, 1))),
    (CodedIndex::CustomAttributeType, 0x0C, None),
];

#[test]
fn names_targets(rt: HostRuntime) {
    assert!(rt; columns(0x2B) == METHOD_SPEC.as_slice());
    for (n, (kind, index, wanted)) in TARGETS.iter().enumerate() {
        assert!(rt; kind.target(*index) == *wanted, "row {n}");
    }
}
