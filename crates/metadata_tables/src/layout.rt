//! How wide columns are, and where rows stand.
ghost use Rattle.std.specs.Prelude.{◌≡◌, ℕ, ◌+◌, ◌-◌, ◌*◌, ◌^◌, ◌<◌, ◌≤◌, length, slice_index};
ghost use Rattle.std.specs.List.{list_all, sum_by};
ghost use Rattle.metadata_tables.specs.Columns.{tag_bits_of, tables_of};
ghost use Rattle.metadata_tables.specs.Layout as spec;
ghost use Rattle.metadata_tables.specs.Tables.{table_count};

use crate::schema::{CodedIndex, Column};
use crate::table::TABLE_COUNT;
use cli_words::{u16_at, u32_at};

/// How many bytes a number takes.
#[derive(Clone, Copy, PartialEq, Eq, Debug)]
pub enum Width {
    One,
    Two,
    Four,
}

/// What a stream `#~` says of its tables.
#[derive(Drop)]
pub struct Layout {
    /// The place after the counts, where the first row stands if there is one, in bytes from the
    /// start of the file.
    pub rows_at: usize,
    /// The bits of value 1, 2 and 4 say that an index into `#Strings`, `#GUID` and `#Blob` has four bytes.
    pub heap_sizes: u8,
    /// How many rows each of the tables 00 to 2C has.
    pub counts: [u32; TABLE_COUNT],
}

impl Width {
    /// How many bytes these are.
    pub fn len(self) -> usize
        ensures value { result ≡ spec.len_of self }
        ensures small { result ≤ 4 }
    {
        match self {
            Width::One => 1,
            Width::Two => 2,
            Width::Four => 4,
        }
    }

    /// The number from byte `at` on.
    pub fn number(self, bytes: &[u8], at: usize) -> u32
        requires { at + spec.len_of self ≤ length bytes.now }
        ensures value { result ≡ spec.number_of self bytes.now at }
        ensures range { result < spec.limit_of self }
    {
        match self {
            Width::One => u32::from(bytes[at]),
            Width::Two => u32::from(u16_at(bytes, at)),
            Width::Four => u32_at(bytes, at),
        }
    }

    fn of_index(fits: bool) -> Width
        ensures { result ≡ spec.index_width fits }
    {
        if fits { Width::Two } else { Width::Four }
    }
}

pub(crate) fn is_set(number: u64, bit: u8) -> bool
    requires { bit < 64 }
    ensures { result ≡ spec.is_set number bit }
{
    number & (1 << bit) != 0
}

impl Layout {
    /// How many rows a table has.
    pub fn count(&self, table: u8) -> u32
        ensures value { result ≡ spec.count_of self.now table }
        ensures known { 0 < result → table < table_count }
    {
        self.counts.get(usize::from(table)).copied().unwrap_or(0)
    }

    fn is_narrow(&self, tag_bits: u32, table: u8) -> bool
        requires { tag_bits ≤ 5 }
        ensures { result ≡ spec.is_narrow self.now tag_bits table }
    {
        self.count(table) < 1 << (16 - tag_bits)
    }

    fn are_narrow(&self, index: CodedIndex) -> bool
        ensures { result
            ≡ list_all (spec.is_narrow self.now (tag_bits_of index)) (tables_of index) }
    {
        let tag_bits = index.tag_bits();
        index
            .tables()
            .iter()
            .all(|table| self.is_narrow(tag_bits, *table))
    }

    fn heap_width(&self, bit: u8) -> Width
        requires { bit < 64 }
        ensures { result ≡ spec.heap_width self.now bit }
    {
        Width::of_index(!is_set(u64::from(self.heap_sizes), bit))
    }

    /// How wide a column is.
    pub fn width(&self, column: Column) -> Width
        ensures { result ≡ spec.width_of self.now column }
    {
        match column {
            Column::U8 => Width::One,
            Column::U16 => Width::Two,
            Column::U32 => Width::Four,
            Column::Strings => self.heap_width(0),
            Column::Guid => self.heap_width(1),
            Column::Blob => self.heap_width(2),
            Column::Table(table) | Column::List(table) => {
                Width::of_index(self.is_narrow(0, table))
            }
            Column::Coded(index) => Width::of_index(self.are_narrow(index)),
        }
    }
}
