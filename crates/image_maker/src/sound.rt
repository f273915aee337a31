//! Whether an image can stand for a module.
ghost use Rattle.std.specs.Prelude.{◌≡◌, ℕ, ◌+◌, ◌==◌, ◌&&◌, [], length, nat_le, nat_lt};
ghost use Rattle.std.specs.Prelude.{slice_index, slice_index_or};
ghost use Rattle.std.specs.List.{flat_map, list_all, list_any, range_with_len, sum_by};
ghost use Rattle.std.specs.Str.{bytes_eq};
ghost use Rattle.metadata_tables.specs.declared.schema.Column.TheVariants.{U8};
ghost use Rattle.metadata_tables.specs.declared.schema.CodedIndex.TheVariants.{ResolutionScope};
ghost use Rattle.metadata_tables.specs.declared.schema.CodedIndex.TheVariants.{TypeDefOrRef};
ghost use Rattle.metadata_tables.specs.declared.schema.CodedIndex.TheVariants.{MemberRefParent};
ghost use Rattle.metadata_tables.specs.Columns.{columns_of, target_of};
ghost use Rattle.assembly_image.specs.Checks as checks;
ghost use Rattle.image_maker.specs.declared.module.Module.{Module};
ghost use Rattle.image_maker.specs.declared.module.Cell.TheVariants.{Number};
ghost use Rattle.image_maker.specs.Rows.{given_rows, all_methods};
ghost use Rattle.image_maker.specs.Sound as spec;
ghost use Rattle.image_maker.specs.Params.{are_within, left_of};
ghost use Rattle.image_maker.specs.Tally.{Tells, layout_of, given_count};

use crate::counts::TABLES;
use crate::module::{Cell, MethodRow, Module, TypeRow};
use crate::units::is_whole;
use assembly_name::AssemblyRef;
use cli_words::{Listed, Utf8Text};
use metadata_tables::{CodedIndex, Column, columns, table};

/// The bytes of an entry of a GUID heap.
const GUID_LEN: u64 = 16;

/// The most bytes of the name of a stream.
const STREAM_NAME_LIMIT: usize = 31;

impl Module {
    /// An image can stand for the module, but for the lengths of its names, the counts of its rows
    /// and its size.
    pub fn sound(&self) -> bool
        ensures { result ≡ spec.is_sound self.now }
    {
        let counts = self.counts();
        let has_name = !self.name.as_str().is_empty();
        let has_type = !self.types.items().is_empty();
        let are_rising = are_rising(self.rows.items());
        let are_fitting = are_fitting(self.rows.items());
        let are_tables_sound = self.are_tables_sound(&counts);
        let has_no_zero = self.tally().has_no_zero;
        let are_whole = are_whole(self.refs.items());
        let are_streams = are_stream_names(self.streams.items());
        let has_parts = has_name & has_type;
        let are_given = are_rising & are_fitting;
        let are_named = has_no_zero & are_whole & are_streams;
        has_parts & are_given & are_tables_sound & are_named
    }

    fn are_tables_sound(&self, counts: &[u32; 45]) -> bool
        requires { Tells counts.now self.now }
        ensures { result ≡ list_all (spec.is_table_sound self.now) (range_with_len 0 45) }
    {
        (0..TABLES).all(|table| self.is_table_sound(counts, table))
    }

    fn is_table_sound(&self, counts: &[u32; 45], table: u8) -> bool
        requires { Tells counts.now self.now }
        ensures { result ≡ spec.is_table_sound self.now table }
    {
        match table {
            table::MODULE | table::FIELD | table::TYPE_SPEC => true,
            table::ASSEMBLY | table::ASSEMBLY_REF => true,
            table::TYPE_REF => self.are_scopes_sound(counts),
            table::TYPE_DEF => self.are_parents_sound(counts),
            table::METHOD_DEF => self.are_params_sound(),
            table::MEMBER_REF => self.are_classes_sound(counts),
            _ => self.are_given_sound(counts, table),
        }
    }

    fn are_scopes_sound(&self, counts: &[u32; 45]) -> bool
        requires { Tells counts.now self.now }
        ensures { result ≡ list_all (λ r. checks.has_target (layout_of self.now)
            (target_of ResolutionScope r.scope)) self.now.type_refs }
    {
        let scopes = self.type_refs.items();
        scopes.iter().all(|row| self.has_target(counts, CodedIndex::ResolutionScope, row.scope))
    }

    fn are_parents_sound(&self, counts: &[u32; 45]) -> bool
        requires { Tells counts.now self.now }
        ensures { result ≡ list_all (λ r. checks.has_target (layout_of self.now)
            (target_of TypeDefOrRef r.parent)) self.now.types }
    {
        let types = self.types.items();
        types.iter().all(|row| self.has_target(counts, CodedIndex::TypeDefOrRef, row.parent))
    }

    fn are_classes_sound(&self, counts: &[u32; 45]) -> bool
        requires { Tells counts.now self.now }
        ensures { result ≡ list_all (λ r. checks.has_target (layout_of self.now)
            (target_of MemberRefParent r.class)) self.now.members }
    {
        let members = self.members.items();
        members.iter().all(|row| self.has_target(counts, CodedIndex::MemberRefParent, row.class))
    }

    fn has_target(&self, counts: &[u32; 45], index: CodedIndex, value: u32) -> bool
        requires { Tells counts.now self.now }
        ensures { result ≡ checks.has_target (layout_of self.now) (target_of index value) }
    {
        match index.target(value) {
            Some((table, row)) => row <= count_in(counts, table),
            None => false,
        }
    }

    fn are_params_sound(&self) -> bool
        ensures { result ≡ are_within (given_count 8 self.now.rows) 0 (all_methods self.now) }
    {
        are_types_within(Some(self.given_count(table::PARAM)), self.types.items())
    }

    fn are_given_sound(&self, counts: &[u32; 45], table: u8) -> bool
        requires { Tells counts.now self.now }
        ensures { result ≡ spec.are_rows_sound (layout_of self.now) (length self.now.guids) table
            [] (given_rows table self.now.rows) }
    {
        let mut before: &[Cell] = &[];
        for row in self.rows.items() {
            if row.0 == table {
                let cells = row.1.items();
                if !self.is_row_sound(counts, table, before, cells) {
                    return false;
                }
                before = cells;
            }
        }
        true
    }

    fn is_row_sound(&self, counts: &[u32; 45], table: u8, before: &[Cell], row: &[Cell]) -> bool
        requires { Tells counts.now self.now }
        ensures { result ≡ spec.is_row_sound (layout_of self.now) (length self.now.guids) table
            before.now row.now }
    {
        row.len() == columns(table).len()
            && self.are_cells_sound(counts, columns(table), before, row)
    }

    fn are_cells_sound(
        &self,
        counts: &[u32; 45],
        columns: &[Column],
        before: &[Cell],
        row: &[Cell],
    ) -> bool
        requires tells { Tells counts.now self.now }
        requires whole { length row.now ≡ length columns.now }
        ensures { result ≡ list_all (λ k. spec.is_value_sound (layout_of self.now)
            (length self.now.guids) (slice_index_or columns.now k U8) (spec.number_at before.now k)
            (slice_index_or row.now k (Number 0))) (range_with_len 0 (length row.now)) }
    {
        for k in 0..row.len() {
            if !self.is_cell_sound(counts, columns[k], number_at(before, k), &row[k]) {
                return false;
            }
        }
        true
    }

    fn is_cell_sound(&self, counts: &[u32; 45], column: Column, before: u32, cell: &Cell) -> bool
        requires { Tells counts.now self.now }
        ensures { result ≡ spec.is_value_sound (layout_of self.now) (length self.now.guids) column
            before cell.now }
    {
        match cell {
            Cell::Number(value) => {
                let is_inside = self.is_inside(counts, column, *value);
                is_inside && is_in_order(counts, column, before, *value)
            }
            Cell::Text(_) | Cell::Bytes(_) => true,
        }
    }

    fn is_inside(&self, counts: &[u32; 45], column: Column, value: u32) -> bool
        requires { Tells counts.now self.now }
        ensures { result ≡ checks.is_inside [] (spec.heaps_with (length self.now.guids))
            (layout_of self.now) column value }
    {
        match column {
            Column::U8 | Column::U16 | Column::U32 | Column::List(_) => true,
            Column::Strings => false,
            Column::Blob => value == 0,
            Column::Guid => GUID_LEN * u64::from(value) <= self.guids.items().len() as u64,
            Column::Table(table) => value <= count_in(counts, table),
            Column::Coded(index) => self.has_target(counts, index, value),
        }
    }
}

/// A list begins at a row of its table or right after the last, and not before the list of the row
/// before.
fn is_in_order(counts: &[u32; 45], column: Column, before: u32, value: u32) -> bool
    ensures { (m : Module) → Tells counts.now m
        → result ≡ checks.is_in_order (layout_of m) column before value }
{
    match column {
        Column::List(table) => {
            let is_near = value <= count_in(counts, table).saturating_add(1);
            1 <= value && is_near && before <= value
        }
        _ => true,
    }
}

fn count_in(counts: &[u32; 45], table: u8) -> u32
    ensures { result ≡ slice_index counts.now table }
{
    counts.get(usize::from(table)).copied().unwrap_or(0)
}

/// The number in a column of a row; 0 where there is none.
fn number_at(row: &[Cell], k: usize) -> u32
    ensures { result ≡ spec.number_at row.now k }
{
    match row.get(k) {
        Some(Cell::Number(value)) => *value,
        _ => 0,
    }
}

/// The params of each method of types begin in their table, or right after its last row, where so
/// many rows are left of it.
fn are_types_within(left: Option<u64>, types: &[TypeRow]) -> bool
    ensures { (rows : ℕ) → left ≡ left_of rows 0
        → result ≡ are_within rows 0 (flat_map (λ t. t.methods) types.now) }
{
    let mut left = left;
    for item in types {
        if !are_params_within(left, item.methods.items()) {
            return false;
        }
        left = left_after(left, item.methods.items());
    }
    true
}

/// The params of methods begin in their table where so many rows are left of it.
fn are_params_within(left: Option<u64>, methods: &[MethodRow]) -> bool
    ensures { (rows before : ℕ) → left ≡ left_of rows before
        → result ≡ are_within rows before methods.now }
{
    let mut left = left;
    for method in methods {
        if left.is_none() {
            return false;
        }
        left = less(left, method.params);
    }
    true
}

/// How many rows are left after the params of methods.
fn left_after(left: Option<u64>, methods: &[MethodRow]) -> Option<u64>
    ensures { (rows before : ℕ) → left ≡ left_of rows before
        → result ≡ left_of rows (before + sum_by (λ m. m.params) methods.now) }
{
    let mut left = left;
    for method in methods {
        left = less(left, method.params);
    }
    left
}

fn less(left: Option<u64>, params: u32) -> Option<u64>
    ensures { (rows before : ℕ) → left ≡ left_of rows before
        → result ≡ left_of rows (before + params) }
{
    match left {
        Some(left) => left.checked_sub(u64::from(params)),
        None => None,
    }
}

fn are_rising(rows: &[(u8, Listed<Cell>)]) -> bool
    ensures { result ≡ spec.are_rising 0 rows.now }
{
    let mut least = 0;
    for row in rows {
        let is_next = is_given(row.0) && least <= row.0;
        if !is_next {
            return false;
        }
        least = row.0;
    }
    true
}

/// A table is read, and a module gives its rows as cells.
fn is_given(table: u8) -> bool
    ensures { result ≡ spec.is_given table }
{
    let is_own = matches!(
        table,
        0x00 | 0x01 | 0x02 | 0x04 | 0x06 | 0x0A | 0x1B | 0x20 | 0x23
    );
    !columns(table).is_empty() && !is_own
}

fn are_fitting(rows: &[(u8, Listed<Cell>)]) -> bool
    ensures { result ≡ list_all spec.has_fitting rows.now }
{
    rows.iter().all(|row| has_fitting(row.0, row.1.items()))
}

fn has_fitting(table: u8, row: &[Cell]) -> bool
    ensures { result ≡ spec.has_fitting (table, row.now) }
{
    row.len() == columns(table).len() && are_cells_fitting(columns(table), row)
}

fn are_cells_fitting(columns: &[Column], row: &[Cell]) -> bool
    requires { length row.now ≡ length columns.now }
    ensures { result ≡ list_all (λ k. spec.fits (slice_index_or columns.now k U8)
        (slice_index_or row.now k (Number 0))) (range_with_len 0 (length row.now)) }
{
    for k in 0..row.len() {
        if !fits(columns[k], &row[k]) {
            return false;
        }
    }
    true
}

/// A cell is of the kind that stands in the column, and not too great for a column of one or two
/// bytes.
fn fits(column: Column, cell: &Cell) -> bool
    ensures { result ≡ spec.fits column cell.now }
{
    match cell {
        Cell::Number(value) => match column {
            Column::U8 => *value < 1 << 8,
            Column::U16 => *value < 1 << 16,
            Column::Strings | Column::Blob => false,
            _ => true,
        },
        Cell::Text(_) => matches!(column, Column::Strings),
        Cell::Bytes(_) => matches!(column, Column::Blob),
    }
}

fn are_whole(refs: &[AssemblyRef]) -> bool
    ensures { result ≡ list_all (λ r. spec.is_whole r.name) refs.now }
{
    refs.iter().all(|row| is_whole(row.name.units().units()))
}

fn are_stream_names(streams: &[(Utf8Text, Listed<u8>)]) -> bool
    ensures { result ≡ list_all (λ s. spec.is_stream_name s.0) streams.now }
{
    streams
        .iter()
        .all(|stream| is_stream_name(stream.0.as_str()))
}

/// 1 to 31 ASCII bytes, none of them 0, and no name that a reader looks for.
fn is_stream_name(name: &str) -> bool
    ensures { result ≡ spec.is_stream_name name.now }
{
    let is_near = 1 <= name.len() && name.len() <= STREAM_NAME_LIMIT;
    let is_ascii = is_ascii(name.as_bytes());
    let is_known = is_known_stream(name);
    is_near && is_ascii && !is_known
}

fn is_ascii(name: &[u8]) -> bool
    ensures { result ≡ list_all (λ b. nat_lt 0 b && nat_lt b 128) name.now }
{
    name.iter().all(|byte| 0 < *byte && *byte < 128)
}

fn is_known_stream(name: &str) -> bool
    ensures { result ≡ list_any (bytes_eq name.now) spec.known_streams }
{
    name == "#~"
        || name == "#-"
        || name == "#Strings"
        || name == "#US"
        || name == "#GUID"
        || name == "#Blob"
}
