//! The tables of a stream.
ghost use Rattle.std.specs.Prelude.{◌≡◌, ◌+◌, ◌-◌, ◌*◌, ◌^◌, ◌<◌, ◌≤◌, length, IfOk, IfSome};
ghost use Rattle.std.specs.Prelude.{slice_get};
ghost use Rattle.std.specs.Option.{option_and_then};
ghost use Rattle.cli_words.specs.Check.{first_fault, answer};
ghost use Rattle.cli_words.specs.Span.{LiesIn};
ghost use Rattle.metadata_tables.specs.Tables.{table_count};
ghost use Rattle.metadata_tables.specs.Columns.{columns_of, column_of};
ghost use Rattle.metadata_tables.specs.Layout.{count_of, rows_end, row_of, row_size_of};
ghost use Rattle.metadata_tables.specs.Layout.{row_place_of, place_of, number_in_row};
ghost use Rattle.metadata_tables.specs.Layout.{limit_of, width_of};
ghost use Rattle.metadata_tables.specs.Places.{IsPlaced, column_place};
ghost use Rattle.metadata_tables.specs.Reading.{checks, layout_of};

use crate::layout::Layout;
use crate::place::{ColumnPlace, Places, TablePlace};
use crate::reading::{are_allowed, count_places, read_layout};
use crate::row::Row;
use crate::schema::columns;
use cli_words::{CheckCode, FailedCheck, Span};
use std::marker::Model;

/// How many bytes each heap has that rows point into. Whether indexes into a heap have two bytes or
/// four doesn't depend on these: the field HeapSizes of the stream `#~` says it. ECMA-335 II.24.2.6.
#[derive(Clone, Copy, PartialEq, Eq, Debug)]
pub struct HeapSizes {
    pub strings: u32,
    pub guid: u32,
    pub blob: u32,
}

/// The tables of a stream `#~`: how many rows each has, and where they stand. ECMA-335 II.24.2.6.
#[derive(Drop)]
pub struct Tables {
    layout: Layout,
    places: Places,
}

impl Model for Tables {
    ghost use Rattle.std.specs.Prelude.{◌<◌, ◌^◌};
    ghost use Rattle.metadata_tables.specs.declared.layout.Layout.{Layout};
    ghost use Rattle.metadata_tables.specs.Layout.{rows_end};
    ghost use Rattle.metadata_tables.specs.Places.{ArePlaced};

    ghost Value = { Layout };

    ghost view = { λ tables. tables.layout };

    ghost invariant = { λ tables. record {
      placed : ArePlaced tables.layout tables.places;
      near : rows_end tables.layout < 2 ^ 32;
    } };
}

/// The tables of the stream `#~` that stands at `tables`. A fault with the stream's place exactly
/// where a check fails, with the code of the first that does: `Table` where a table is refused or
/// has 2^24 rows or more by a count that lies whole in the stream, `Bounds` where not all counts
/// and all rows lie in the stream. How wide an index into a heap is stands in the stream, whatever
/// the sizes of the heaps are. ECMA-335 II.24.2.6.
pub fn read_tables(bytes: &[u8], tables: Span, _sizes: HeapSizes) -> Result<Tables, FailedCheck>
    requires short { length bytes.now < 2 ^ 32 - 1 }
    requires lies { LiesIn (length bytes.now) tables }
    requires head { 24 ≤ tables.len }
    ensures tables { result
        ≡ answer (first_fault (checks bytes.now tables)) (layout_of bytes.now tables.at) }
    ensures rows { IfOk result (λ read. rows_end read ≤ length bytes.now) }
{
    let counts = count_places(bytes, tables.at);
    if !are_allowed(bytes, tables, &counts) {
        return Err(FailedCheck::of(CheckCode::Table, tables.at));
    }
    let end = tables.at + tables.len;
    if end < counts[64] {
        return Err(FailedCheck::of(CheckCode::Bounds, tables.at));
    }
    let layout = read_layout(bytes, tables.at, &counts);
    let places = layout.places();
    if end < places.end {
        return Err(FailedCheck::of(CheckCode::Bounds, tables.at));
    }
    Ok(Tables { layout, places })
}

impl Tables {
    /// How many rows the table of this number has: 0 where it is absent.
    pub fn count(&self, table: u8) -> u32
        ensures { result ≡ count_of self.now table }
    {
        self.layout.count(table)
    }

    /// Row `n` of a table, counted from 1. `None` exactly where `n` is 0 or past the table's
    /// count. What stands in `bytes` is read, so they are to be those that the tables were read
    /// from. ECMA-335 II.22, II.24.2.6.
    pub fn row(&self, bytes: &[u8], table: u8, n: u32) -> Option<Row>
        requires { rows_end self.now ≤ length bytes.now }
        ensures { result ≡ row_of bytes.now self.now table n }
    {
        let at = self.row_at(table, n)?;
        let mut row = Row::new();
        for k in 0..columns(table).len() {
            row.push(self.column(table, k).number(bytes, at));
        }
        Some(row)
    }

    /// The number in column `k`, counted from 0, of row `n` of a table, counted from 1: that of
    /// `Row::column`, without the rest of the row. `None` exactly where the table has no such row
    /// or no such column. `bytes` are to be those that the tables were read from. ECMA-335 II.22,
    /// II.24.2.6.
    pub fn number(&self, bytes: &[u8], table: u8, n: u32, k: usize) -> Option<u32>
        requires { rows_end self.now ≤ length bytes.now }
        ensures number { result ≡ number_in_row bytes.now self.now table n k }
        ensures row { result
            ≡ option_and_then (λ row. slice_get row k) (row_of bytes.now self.now table n) }
        ensures range { IfSome result (λ number.
            number < limit_of (width_of self.now (column_of table k))) }
    {
        let at = self.row_at(table, n)?;
        if k < columns(table).len() {
            Some(self.column(table, k).number(bytes, at))
        } else {
            None
        }
    }

    /// The place of column `k`, counted from 0, of row `n`, counted from 1, in bytes from the
    /// start of the file. `None` exactly where the table has no such row or no such column.
    pub fn column_at(&self, table: u8, n: u32, k: usize) -> Option<u32>
        ensures { result ≡ place_of self.now table n k }
    {
        let at = self.row_at(table, n)?;
        if k < columns(table).len() {
            Some((at + usize::from(self.column(table, k).offset)) as u32)
        } else {
            None
        }
    }

    /// The place of a row, where the table has it.
    fn row_at(&self, table: u8, n: u32) -> Option<usize>
        ensures value { result ≡ row_place_of self.now table n }
        ensures room { IfSome result (λ at. at + row_size_of self.now table ≤ rows_end self.now) }
        ensures near { rows_end self.now < 2 ^ 32 }
        ensures known { IfSome result (λ at. table < table_count) }
    {
        if n == 0 || self.layout.count(table) < n {
            return None;
        }
        let place = self.table(table);
        Some(place.start + (n as usize - 1) * place.row_size)
    }

    /// Where a column stands in the rows of a table.
    #[tactic(auto, using(crate::proofs::SchemaLemmas::short))]
    fn column(&self, table: u8, k: usize) -> ColumnPlace
        requires table { table < table_count }
        requires column { k < length (columns_of table) }
        ensures { result ≡ column_place self.now table k }
    {
        self.table(table).columns[k]
    }

    /// Where the rows of a table stand.
    fn table(&self, table: u8) -> &TablePlace
        requires { table < table_count }
        ensures { IsPlaced self.now table result.now }
    {
        &self.places.tables[usize::from(table)]
    }
}
