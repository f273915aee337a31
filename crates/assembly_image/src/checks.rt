//! The checks on the rows of a file that is not yet known to be an image.
ghost use Rattle.std.specs.Prelude.{◌≡◌, ℕ, ◌-◌, ◌^◌, ◌≤◌, ◌<◌, length, IsTrue};
ghost use Rattle.std.specs.Option.{option_map};
ghost use Rattle.cli_words.specs.Check.{first_fault};
ghost use Rattle.meta_heaps.specs.Heaps.{IsWithin};
ghost use Rattle.metadata_tables.specs.Columns.{columns_of, target_of};
ghost use Rattle.metadata_tables.specs.Layout.{count_of, rows_end, row_of, has_row, column_at};
ghost use Rattle.metadata_tables.specs.Tables as tables_spec;
ghost use Rattle.assembly_image.specs.Checks as spec;
ghost use Rattle.assembly_image.specs.Texts.{AreTexts};

use crate::cells::value_in;
use crate::texts::Texts;
use cli_words::{CheckCode, FailedCheck};
use meta_heaps::Root;
use metadata_tables::{CodedIndex, Column, Row, TABLE_COUNT, Tables, column, columns, table};
use std::alloc::Global;

/// How many tables there may be.
const TABLES: u8 = TABLE_COUNT as u8;

/// The bytes of an entry of a GUID heap.
const GUID_LEN: usize = 16;

/// The first check on the rows that fails, or then the check that there is an assembly.
pub(crate) fn first_failed(
    alloc: Global,
    bytes: &[u8],
    root: &Root,
    tables: &Tables,
) -> Option<FailedCheck>
    requires within { IsWithin (length bytes.now) root.now }
    requires rows { rows_end tables.now ≤ length bytes.now }
    requires near { root.now.tables.at < 2 ^ 32 }
    ensures { result ≡ first_fault (spec.content_checks bytes.now root.now tables.now) }
{
    let texts = Texts::of(alloc, bytes, root.strings);
    for table in 0..TABLES {
        if let Some(failed) = table_failed(bytes, root, tables, &texts, table) {
            return Some(failed);
        }
    }
    if has_assembly(bytes, root, tables) {
        return None;
    }
    Some(FailedCheck::of(CheckCode::NoAssembly, root.tables.at))
}

fn table_failed(
    bytes: &[u8],
    root: &Root,
    tables: &Tables,
    texts: &Texts,
    table: u8,
) -> Option<FailedCheck>
    requires within { IsWithin (length bytes.now) root.now }
    requires texts { AreTexts bytes.now root.now.strings texts.now }
    requires rows { rows_end tables.now ≤ length bytes.now }
    ensures { result ≡ first_fault (spec.table_checks bytes.now root.now tables.now table) }
{
    let mut before = None;
    for n in 0..tables.count(table) {
        let row = tables.row(bytes, table, n + 1);
        if let Some(failed) = row_failed(bytes, root, tables, texts, table, n + 1, &before, &row) {
            return Some(failed);
        }
        before = row;
    }
    None
}

/// The first check that fails in row `n` of a table: `row`, after the row `before`.
fn row_failed(
    bytes: &[u8],
    root: &Root,
    tables: &Tables,
    texts: &Texts,
    table: u8,
    n: u32,
    before: &Option<Row>,
    row: &Option<Row>,
) -> Option<FailedCheck>
    requires within { IsWithin (length bytes.now) root.now }
    requires texts { AreTexts bytes.now root.now.strings texts.now }
    requires has_row { IsTrue (has_row tables.now table n) }
    requires before { before.now ≡ row_of bytes.now tables.now table (n - 1) }
    requires row { row.now ≡ row_of bytes.now tables.now table n }
    ensures { result ≡ first_fault (spec.row_checks bytes.now root.now tables.now table n) }
{
    let columns = columns(table);
    for k in 0..columns.len() {
        let (least, value) = (value_in(before, k), value_in(row, k));
        if let Some(code) = value_failed(bytes, root, tables, texts, columns[k], least, value) {
            return Some(failed_at(tables, table, n, k, code));
        }
    }
    None
}

/// The fault of a check that fails: its code, and the place of column `k` of row `n`.
fn failed_at(tables: &Tables, table: u8, n: u32, k: usize, code: CheckCode) -> FailedCheck
    requires has_row { IsTrue (has_row tables.now table n) }
    requires has_column { k < length (columns_of table) }
    ensures { result ≡ spec.failed_at (column_at tables.now table n k) code }
{
    let at = tables.column_at(table, n, k).unwrap_or(0);
    FailedCheck { code, at }
}

/// The code of the first check that fails for a column's value, where the row before has the value
/// `before` in that column, or 0 where there is none.
fn value_failed(
    bytes: &[u8],
    root: &Root,
    tables: &Tables,
    texts: &Texts,
    column: Column,
    before: u32,
    value: u32,
) -> Option<CheckCode>
    requires within { IsWithin (length bytes.now) root.now }
    requires texts { AreTexts bytes.now root.now.strings texts.now }
    ensures { (at : ℕ) →
        first_fault (spec.value_checks bytes.now root.now tables.now column before value at)
        ≡ option_map (spec.failed_at at) result }
{
    if !is_inside(bytes, root, tables, column, value) {
        return Some(CheckCode::Index);
    }
    if !is_in_order(tables, column, before, value) {
        return Some(CheckCode::List);
    }
    if !is_text(bytes, root, texts, column, value) {
        return Some(CheckCode::Text);
    }
    None
}

fn is_inside(bytes: &[u8], root: &Root, tables: &Tables, column: Column, value: u32) -> bool
    requires within { IsWithin (length bytes.now) root.now }
    ensures { result ≡ spec.is_inside bytes.now root.now tables.now column value }
{
    match column {
        Column::U8 | Column::U16 | Column::U32 | Column::List(_) => true,
        Column::Strings => (value as usize) < root.strings.len,
        Column::Guid => GUID_LEN * value as usize <= root.guids.len,
        Column::Blob => root.blob(bytes, value).is_some(),
        Column::Table(table) => value <= tables.count(table),
        Column::Coded(index) => has_target(tables, index, value),
    }
}

fn has_target(tables: &Tables, index: CodedIndex, value: u32) -> bool
    ensures { result ≡ spec.has_target tables.now (target_of index value) }
{
    match index.target(value) {
        Some((table, row)) => row <= tables.count(table),
        None => false,
    }
}

fn is_in_order(tables: &Tables, column: Column, before: u32, value: u32) -> bool
    ensures { result ≡ spec.is_in_order tables.now column before value }
{
    match column {
        Column::List(table) => {
            1 <= value && u64::from(value) <= u64::from(tables.count(table)) + 1 && before <= value
        }
        _ => true,
    }
}

fn is_text(bytes: &[u8], root: &Root, texts: &Texts, column: Column, value: u32) -> bool
    requires within { IsWithin (length bytes.now) root.now }
    requires texts { AreTexts bytes.now root.now.strings texts.now }
    ensures { result ≡ spec.is_text bytes.now root.now column value }
{
    match column {
        Column::Strings => texts.is_string(bytes, root.strings, value as usize),
        _ => true,
    }
}

fn has_assembly(bytes: &[u8], root: &Root, tables: &Tables) -> bool
    requires within { IsWithin (length bytes.now) root.now }
    requires rows { rows_end tables.now ≤ length bytes.now }
    ensures { result ≡ spec.has_assembly bytes.now root.now tables.now }
{
    tables.count(table::ASSEMBLY) == 1
        && !assembly_name(bytes, root, tables).is_empty()
        && 1 <= tables.count(table::MODULE)
        && 1 <= tables.count(table::TYPE_DEF)
}

/// The bytes of the assembly's name.
pub(crate) fn assembly_name<'a>(bytes: &'a [u8], root: &Root, tables: &Tables) -> &'a [u8]
    requires within { IsWithin (length bytes.now) root.now }
    requires rows { rows_end tables.now ≤ length bytes.now }
    requires one { count_of tables.now tables_spec.assembly ≡ 1 }
    ensures { result.now ≡ spec.name_bytes bytes.now root.now tables.now }
{
    let row = tables.row(bytes, table::ASSEMBLY, 1);
    match root.string(bytes, value_in(&row, column::ASSEMBLY_NAME)) {
        Some(name) => name.cut(bytes),
        None => &[],
    }
}
