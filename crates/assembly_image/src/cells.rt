//! The rows of an image: what stands in their columns.
ghost use Rattle.std.specs.Prelude.{◌≡◌, ◌^◌, ◌<◌, length, slice_get, IsTrue};
ghost use Rattle.cli_words.specs.Text.{units_of};
ghost use Rattle.metadata_tables.specs.Columns.{columns_of, column_of};
ghost use Rattle.metadata_tables.specs.Layout.{row_of};
ghost use Rattle.metadata_tables.specs.Tables.{table_count};
ghost use Rattle.assembly_image.specs.Cells as cells;
ghost use Rattle.assembly_image.specs.Module as held;
ghost use Rattle.assembly_image.specs.Reading.{tables_of, module_of, Reads};

use crate::image::AssemblyImage;
use crate::strings::text;
use metadata_tables::{Column, Row, columns};

impl AssemblyImage {
    /// The number in column `k`, counted from 0, of row `n`, counted from 1: also a row, a coded
    /// index or an index into the GUID heap. 0 where there is no such row or column, or a text or
    /// a blob stands in it.
    pub fn number(&self, table: u8, n: u32, k: usize) -> u32
        ensures value { result ≡ held.number (module_of self.now) table n k }
        ensures range { column_of table k ≡ Column.U16 → result < 2 ^ 16 }
    {
        let Some(column) = column(table, k) else {
            return 0;
        };
        if !holds_number(column) {
            return 0;
        }
        self.index(table, n, k)
    }

    /// The text in column `k`, counted from 0, of row `n`, counted from 1. Empty where there is no
    /// such row or column, or no text stands in it.
    pub fn text(&self, table: u8, n: u32, k: usize) -> &str
        ensures { units_of result.now ≡ held.text (module_of self.now) table n k }
    {
        let Some(column) = column(table, k) else {
            return "";
        };
        if !holds_text(column) {
            return "";
        }
        if !self.has_row(table, n) {
            return "";
        }
        self.string(table, n, k)
    }

    /// The blob in column `k`, counted from 0, of row `n`, counted from 1, without its length. Empty
    /// where there is no such row or column, or no blob stands in it. ECMA-335 II.24.2.4.
    pub fn blob(&self, table: u8, n: u32, k: usize) -> &[u8]
        ensures { result.now ≡ held.blob (module_of self.now) table n k }
    {
        let Some(column) = column(table, k) else {
            return &[];
        };
        if !holds_blob(column) {
            return &[];
        }
        if !self.has_row(table, n) {
            return &[];
        }
        self.whole_blob(table, n, k)
    }

    /// Whether there is such a row.
    pub(crate) fn has_row(&self, table: u8, n: u32) -> bool
        requires { table < table_count }
        ensures { result ≡ held.has_row (module_of self.now) table n }
    {
        1 <= n && n <= self.count(table)
    }

    /// What stands in the file at a column of a row: a number, or an index; 0 where there is no such
    /// row.
    pub(crate) fn index(&self, table: u8, n: u32, k: usize) -> u32
        requires { k < length (columns_of table) }
        ensures reads { Reads self.now (module_of self.now) }
        ensures value { result
            ≡ cells.value_in (row_of self.now (tables_of self.now) table n) k }
        ensures range { column_of table k ≡ Column.U16 → result < 2 ^ 16 }
    {
        self.tables.number(self.bytes(), table, n, k).unwrap_or(0)
    }

    fn string(&self, table: u8, n: u32, k: usize) -> &str
        requires row { IsTrue (held.has_row (module_of self.now) table n) }
        requires column { k < length (columns_of table) }
        requires strings { column_of table k ≡ Column.Strings }
        ensures { units_of result.now ≡ held.text (module_of self.now) table n k }
    {
        let index = self.index(table, n, k);
        match self.root.string(self.bytes(), index) {
            Some(span) => text(span.cut(self.bytes())),
            None => "",
        }
    }

    fn whole_blob(&self, table: u8, n: u32, k: usize) -> &[u8]
        requires row { IsTrue (held.has_row (module_of self.now) table n) }
        requires column { k < length (columns_of table) }
        requires blobs { column_of table k ≡ Column.Blob }
        ensures { result.now ≡ held.blob (module_of self.now) table n k }
    {
        let index = self.index(table, n, k);
        match self.root.blob(self.bytes(), index) {
            Some(span) => span.cut(self.bytes()),
            None => &[],
        }
    }
}

/// The number in a column of a row; 0 where there is none.
pub(crate) fn value_in(row: &Option<Row>, k: usize) -> u32
    ensures { result ≡ cells.value_in row.now k }
{
    match row {
        Some(row) => row.column(k).unwrap_or(0),
        None => 0,
    }
}

/// The kind of a table's column, counted from 0.
fn column(table: u8, k: usize) -> Option<Column>
    ensures { result ≡ slice_get (columns_of table) k }
{
    columns(table).get(k).copied()
}

/// Whether a column of this kind holds a number.
fn holds_number(column: Column) -> bool
    ensures { result ≡ cells.holds_number column }
{
    !matches!(column, Column::Strings | Column::Blob)
}

/// Whether a column of this kind holds a text.
fn holds_text(column: Column) -> bool
    ensures { result ≡ cells.holds_text column }
{
    matches!(column, Column::Strings)
}

/// Whether a column of this kind holds a blob.
fn holds_blob(column: Column) -> bool
    ensures { result ≡ cells.holds_blob column }
{
    matches!(column, Column::Blob)
}
