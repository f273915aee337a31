//! Where rows and their columns stand.
ghost use Rattle.std.specs.Prelude.{◌≡◌, ◌+◌, ◌*◌, ◌^◌, ◌<◌, ◌≤◌, length};
ghost use Rattle.metadata_tables.specs.Columns.{columns_of};
ghost use Rattle.metadata_tables.specs.Layout as spec;
ghost use Rattle.metadata_tables.specs.Places.{ArePlaced, IsPlaced};

use crate::layout::{Layout, Width};
use crate::schema::{COLUMN_LIMIT, Column, columns};
use crate::table::TABLE_COUNT;

/// Where a column stands in each row of its table.
#[derive(Clone, Copy)]
pub(crate) struct ColumnPlace {
    /// How many bytes of the row stand before it.
    pub(crate) offset: u8,
    pub(crate) width: Width,
}

/// Where the rows of a table stand.
#[derive(Clone, Copy)]
pub(crate) struct TablePlace {
    /// The place of the first row, in bytes from the start of the file.
    pub(crate) start: usize,
    /// How many bytes a row takes.
    pub(crate) row_size: usize,
    pub(crate) columns: [ColumnPlace; COLUMN_LIMIT],
}

/// Where the rows of the tables 00 to 2C stand.
#[derive(Drop)]
pub(crate) struct Places {
    pub(crate) tables: [TablePlace; TABLE_COUNT],
    /// The place after the last row.
    pub(crate) end: usize,
}

const NO_COLUMN: ColumnPlace = ColumnPlace {
    offset: 0,
    width: Width::One,
};

const NO_TABLE: TablePlace = TablePlace {
    start: 0,
    row_size: 0,
    columns: [NO_COLUMN; COLUMN_LIMIT],
};

impl ColumnPlace {
    /// The number that stands there in the row at `row_at`.
    pub(crate) fn number(self, bytes: &[u8], row_at: usize) -> u32
        requires { row_at + self.offset + spec.len_of self.width ≤ length bytes.now }
        ensures value { result ≡ spec.number_of self.width bytes.now (row_at + self.offset) }
        ensures range { result < spec.limit_of self.width }
    {
        self.width.number(bytes, row_at + usize::from(self.offset))
    }
}

impl Layout {
    /// Where the rows of each table stand: the tables stand one after the other.
    pub(crate) fn places(&self) -> Places
        requires { self.now.rows_at < 2 ^ 33 }
        ensures { ArePlaced self.now result }
    {
        let mut tables = [NO_TABLE; TABLE_COUNT];
        let mut end = self.rows_at;
        for table in 0..TABLE_COUNT as u8 {
            let place = self.table_place(table, end);
            tables[usize::from(table)] = place;
            end += self.count(table) as usize * place.row_size;
        }
        Places { tables, end }
    }

    /// Where the rows of a table stand, the first of them at `start`.
    fn table_place(&self, table: u8, start: usize) -> TablePlace
        requires { start ≡ spec.table_at self.now table }
        ensures placed { IsPlaced self.now table result }
        ensures small { result.row_size ≤ 36 }
    {
        let mut places = [NO_COLUMN; COLUMN_LIMIT];
        let mut size = 0;
        let columns = columns(table);
        for k in 0..columns.len() {
            let width = self.width(columns[k]);
            places[k] = ColumnPlace {
                offset: size,
                width,
            };
            size += width.len() as u8;
        }
        TablePlace {
            start,
            row_size: usize::from(size),
            columns: places,
        }
    }
}
