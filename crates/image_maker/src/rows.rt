//! The rows of a module are written, table by table.
ghost use Rattle.std.specs.Prelude.{◌≡◌, ℕ, ◌+◌, ◌≤◌, ◌<◌, ◌^◌, ◌==◌};
ghost use Rattle.std.specs.Prelude.{List, [], ◌∷◌, map, length, take, true, false};
ghost use Rattle.std.specs.List.{flat_map, list_all, sum_by};
ghost use Rattle.cli_words.specs.Text.{bytes_of};
ghost use Rattle.metadata_tables.specs.declared.schema.Column.TheVariants.{Strings};
ghost use Rattle.image_maker.specs.declared.module.Cell.TheVariants as cell;
ghost use Rattle.image_maker.specs.File.{bodies_bytes, rva_of};
ghost use Rattle.image_maker.specs.Rows as rows;
ghost use Rattle.image_maker.specs.Sound.{has_fitting};
ghost use Rattle.metadata_tables.specs.Columns.{columns_of};
ghost use Rattle.image_maker.specs.Written.{Holds, Puts, cells_below, row_cells, table_cells};
ghost use Rattle.image_maker.specs.Held.{cell_of, are_fitting, fits_in, IsFittingAs};
ghost use Rattle.image_maker.specs.MethodsPut.{PutsMethods, Starts};

use crate::counts::TABLES;
use crate::module::{Cell, FieldRow, MemberRow, MethodRow, Module, TypeRefRow, TypeRow};
use crate::writer::Writer;
use assembly_name::{AssemblyRef, SimpleName};
use cli_words::{Listed, Utf8Text};
use metadata_tables::{Column, Layout, columns, table};
use std::alloc::Global;

/// What stands in a column of a row.
#[derive(Clone, Copy)]
pub(crate) enum Held<'a> {
    Half(u16),
    Number(u32),
    Text(&'a Utf8Text),
    Name(&'a SimpleName),
    Bytes(&'a Listed<u8>),
    NoText,
    NoBytes,
}

impl Held<'_> {
    /// What a cell holds.
    fn of(cell: &Cell) -> Held<'_>
        ensures is { cell_of result ≡ cell.now }
        ensures fits { IsFittingAs cell.now result }
    {
        match cell {
            Cell::Number(value) => Held::Number(*value),
            Cell::Text(text) => Held::Text(text),
            Cell::Bytes(bytes) => Held::Bytes(bytes),
        }
    }
}

/// What is a row of a table.
trait Row {
    ghost use Rattle.std.specs.Prelude.{ℕ, List};
    ghost use Rattle.image_maker.specs.declared.module.Cell.{Cell};

    /// The number of the table.
    ghost table: { ℕ };

    /// What stands in its columns.
    ghost cells: { Self → List Cell };

    fn put(&self, writer: &mut Writer)
        ensures { Puts (row_cells table (cells self.now)) writer.old writer.new };
}

impl Row for TypeRefRow {
    ghost use Rattle.image_maker.specs.Rows.{type_ref_row};

    ghost table = { 0x01 };

    ghost cells = { type_ref_row };

    #[tactic(auto, unfolding(metadata_tables::specs::Columns::columns_of))]
    fn put(&self, writer: &mut Writer) {
        let (name, space) = (Held::Text(&self.name), Held::Text(&self.space));
        put_row(
            writer,
            table::TYPE_REF,
            &[Held::Number(self.scope), name, space],
        );
    }
}

impl Row for FieldRow {
    ghost use Rattle.image_maker.specs.Rows.{field_row};

    ghost table = { 0x04 };

    ghost cells = { field_row };

    #[tactic(auto, unfolding(metadata_tables::specs::Columns::columns_of))]
    fn put(&self, writer: &mut Writer) {
        let (name, sig) = (Held::Text(&self.name), Held::Bytes(&self.sig));
        put_row(writer, table::FIELD, &[Held::Half(self.flags), name, sig]);
    }
}

impl Row for MemberRow {
    ghost use Rattle.image_maker.specs.Rows.{member_row};

    ghost table = { 0x0A };

    ghost cells = { member_row };

    #[tactic(auto, unfolding(metadata_tables::specs::Columns::columns_of))]
    fn put(&self, writer: &mut Writer) {
        let (name, sig) = (Held::Text(&self.name), Held::Bytes(&self.sig));
        put_row(
            writer,
            table::MEMBER_REF,
            &[Held::Number(self.class), name, sig],
        );
    }
}

impl Row for Listed<u8> {
    ghost use Rattle.image_maker.specs.Rows.{spec_row};

    ghost table = { 0x1B };

    ghost cells = { spec_row };

    #[tactic(auto, unfolding(metadata_tables::specs::Columns::columns_of))]
    fn put(&self, writer: &mut Writer) {
        put_row(writer, table::TYPE_SPEC, &[Held::Bytes(self)]);
    }
}

impl Row for AssemblyRef {
    ghost use Rattle.image_maker.specs.Rows.{reference_row};

    ghost table = { 0x23 };

    ghost cells = { reference_row };

    #[tactic(auto, unfolding(metadata_tables::specs::Columns::columns_of))]
    fn put(&self, writer: &mut Writer) {
        let cells = [
            Held::Half(self.version.major),
            Held::Half(self.version.minor),
            Held::Half(self.version.build),
            Held::Half(self.version.revision),
            Held::Number(0),
            Held::NoBytes,
            Held::Name(&self.name),
            Held::NoText,
            Held::NoBytes,
        ];
        put_row(writer, table::ASSEMBLY_REF, &cells);
    }
}

/// Writes the rows of all tables. ECMA-335 II.22.
pub(crate) fn write_rows(alloc: Global, source: &Module, layout: Layout) -> Writer
    requires params { (n : ℕ) → n < length (rows.all_methods source.now)
        → sum_by (λ m. m.params) (take n (rows.all_methods source.now)) ≤ 65534 }
    requires fields { length (rows.all_fields source.now) ≤ 65534 }
    requires methods { length (rows.all_methods source.now) ≤ 65534 }
    requires bodies { length (bodies_bytes (rows.all_methods source.now)) < 2 ^ 31 }
    requires given { list_all has_fitting source.now.rows ≡ true }
    ensures layout { result.layout ≡ layout }
    ensures holds { Holds
        (cells_below (rows.rows_of source.now (rva_of (rows.all_methods source.now))) 45)
        (rows.all_methods source.now) result }
{
    let mut writer = Writer::new(alloc, layout);
    for table in 0..table::METHOD_DEF {
        put_table(&mut writer, source, table);
    }
    put_methods(&mut writer, source.types.items());
    for table in table::METHOD_DEF + 1..TABLES {
        put_table(&mut writer, source, table);
    }
    writer
}

/// Puts the rows of a table other than MethodDef.
fn put_table(writer: &mut Writer, source: &Module, table: u8)
    requires other { (table == 0x06) ≡ false }
    requires fields { length (rows.all_fields source.now) ≤ 65534 }
    requires methods { length (rows.all_methods source.now) ≤ 65534 }
    requires given { list_all has_fitting source.now.rows ≡ true }
    ensures { (rva : ℕ → ℕ)
        → Puts (table_cells table (rows.rows_of source.now rva table)) writer.old writer.new }
{
    match table {
        table::MODULE => put_module(writer, source),
        table::TYPE_REF => put_all(writer, source.type_refs.items()),
        table::TYPE_DEF => put_types(writer, source.types.items()),
        table::FIELD => put_fields(writer, source.types.items()),
        table::MEMBER_REF => put_all(writer, source.members.items()),
        table::TYPE_SPEC => put_all(writer, source.specs.items()),
        table::ASSEMBLY => put_assembly(writer, source),
        table::ASSEMBLY_REF => put_all(writer, source.refs.items()),
        _ => put_given(writer, source.rows.items(), table),
    }
}

fn put_all<R: Row>(writer: &mut Writer, rows: &[R])
    ensures { Puts (table_cells R.table (map R.cells rows.now)) writer.old writer.new }
{
    for row in rows {
        row.put(writer);
    }
}

#[tactic(auto, unfolding(metadata_tables::specs::Columns::columns_of))]
fn put_module(writer: &mut Writer, source: &Module)
    ensures { Puts (row_cells 0x00 (rows.module_row source.now)) writer.old writer.new }
{
    let (name, none) = (Held::Text(&source.name), Held::Number(0));
    put_row(
        writer,
        table::MODULE,
        &[Held::Half(0), name, none, none, none],
    );
}

#[tactic(auto, unfolding(metadata_tables::specs::Columns::columns_of))]
fn put_assembly(writer: &mut Writer, source: &Module)
    ensures { Puts (row_cells 0x20 (rows.assembly_row source.now)) writer.old writer.new }
{
    let cells = [
        Held::Number(0),
        Held::Half(source.version.major),
        Held::Half(source.version.minor),
        Held::Half(source.version.build),
        Held::Half(source.version.revision),
        Held::Number(0),
        Held::NoBytes,
        Held::Text(&source.name),
        Held::NoText,
    ];
    put_row(writer, table::ASSEMBLY, &cells);
}

fn put_types(writer: &mut Writer, types: &[TypeRow])
    requires fields { length (flat_map (λ t. t.fields) types.now) ≤ 65534 }
    requires methods { length (flat_map (λ t. t.methods) types.now) ≤ 65534 }
    ensures { Puts (table_cells 0x02 (rows.type_rows 1 1 types.now)) writer.old writer.new }
{
    let mut field = 1;
    let mut method = 1;
    for row in types {
        put_type(writer, row, field, method);
        field += row.fields.items().len() as u32;
        method += row.methods.items().len() as u32;
    }
}

/// Puts a type whose fields and methods begin at these rows.
#[tactic(auto, unfolding(metadata_tables::specs::Columns::columns_of))]
fn put_type(writer: &mut Writer, row: &TypeRow, field: u32, method: u32)
    ensures { Puts (row_cells 0x02 (rows.type_row row.now field method)) writer.old writer.new }
{
    let cells = [
        Held::Number(row.flags),
        Held::Text(&row.name),
        Held::Text(&row.space),
        Held::Number(row.parent),
        Held::Number(field),
        Held::Number(method),
    ];
    put_row(writer, table::TYPE_DEF, &cells);
}

fn put_fields(writer: &mut Writer, types: &[TypeRow])
    ensures { Puts (table_cells 0x04 (map rows.field_row (flat_map (λ t. t.fields) types.now)))
        writer.old writer.new }
{
    for row in types {
        put_all(writer, row.fields.items());
    }
}

fn put_methods(writer: &mut Writer, types: &[TypeRow])
    requires { Starts 1 (flat_map (λ t. t.methods) types.now) }
    ensures { PutsMethods 1 (flat_map (λ t. t.methods) types.now) writer.old writer.new }
{
    let mut param = 1;
    for row in types {
        param = put_methods_of(writer, row.methods.items(), param);
    }
}

/// Puts the methods of a type, whose params begin at this row, and gives the row after these.
fn put_methods_of(writer: &mut Writer, methods: &[MethodRow], first: u64) -> u64
    requires { Starts first methods.now }
    ensures puts { PutsMethods first methods.now writer.old writer.new }
    ensures next { result ≡ first + sum_by (λ m. m.params) methods.now }
{
    let mut param = first;
    for row in methods {
        put_method(writer, row, param as u32);
        param += u64::from(row.params);
    }
    param
}

/// Puts a method, and its body, whose params begin at this row.
fn put_method(writer: &mut Writer, row: &MethodRow, param: u32)
    ensures { PutsMethods param (row.now ∷ []) writer.old writer.new }
{
    let rva = writer.body(row);
    put_method_cells(writer, row, rva, param);
}

#[tactic(auto, unfolding(metadata_tables::specs::Columns::columns_of))]
fn put_method_cells(writer: &mut Writer, row: &MethodRow, rva: u32, param: u32)
    ensures { Puts (row_cells 0x06 (rows.method_row row.now rva param)) writer.old writer.new }
{
    let cells = [
        Held::Number(rva),
        Held::Half(row.impl_flags),
        Held::Half(row.flags),
        Held::Text(&row.name),
        Held::Bytes(&row.sig),
        Held::Number(param),
    ];
    put_row(writer, table::METHOD_DEF, &cells);
}

/// Puts the rows that a module gives of a table as cells.
fn put_given(writer: &mut Writer, given: &[(u8, Listed<Cell>)], table: u8)
    requires { list_all has_fitting given.now ≡ true }
    ensures { Puts (table_cells table (rows.given_rows table given.now)) writer.old writer.new }
{
    for row in given {
        if row.0 == table {
            put_given_row(writer, table, row.1.items());
        }
    }
}

fn put_given_row(writer: &mut Writer, table: u8, cells: &[Cell])
    requires { has_fitting (table, cells.now) ≡ true }
    ensures { Puts (row_cells table cells.now) writer.old writer.new }
{
    let columns = columns(table);
    for k in 0..cells.len() {
        put_cell(writer, columns[k], Held::of(&cells[k]));
    }
}

fn put_row(writer: &mut Writer, table: u8, cells: &[Held<'_>])
    requires { are_fitting (columns_of table) cells.now ≡ true }
    ensures { Puts (row_cells table (map cell_of cells.now)) writer.old writer.new }
{
    let columns = columns(table);
    for k in 0..cells.len() {
        put_cell(writer, columns[k], cells[k]);
    }
}

fn put_cell(writer: &mut Writer, column: Column, cell: Held<'_>)
    requires { fits_in column cell ≡ true }
    ensures { Puts ((column, cell_of cell.entry) ∷ []) writer.old writer.new }
{
    match cell {
        Held::Half(value) => writer.number(column, u32::from(value)),
        Held::Number(value) => writer.number(column, value),
        Held::Text(text) => writer.text(text.as_str()),
        Held::Name(name) => put_name(writer, name),
        Held::Bytes(bytes) => writer.blob(bytes.items()),
        Held::NoText => writer.text(""),
        Held::NoBytes => writer.blob(&[]),
    }
}

/// Puts a text in UTF-16.
fn put_name(writer: &mut Writer, name: &SimpleName)
    ensures { Puts ((Strings, cell.Text (bytes_of name.now)) ∷ []) writer.old writer.new }
{
    match String::from_utf16_lossy(writer.alloc, name.units().units()) {
        Ok(text) => writer.text(text.as_str()),
        Err(_) => writer.failed = true,
    }
}
