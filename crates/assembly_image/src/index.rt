//! The rows of some tables by the type that they belong to.
ghost use Rattle.std.specs.Prelude.{◌≡◌, ◌≤◌, length, IfOk, IsTrue};
ghost use Rattle.metadata_tables.specs.Layout.{rows_end};
ghost use Rattle.assembly_image.specs.Index as spec;
ghost use Rattle.assembly_image.specs.Index.{IsIndexed, IsLinked};
ghost use Rattle.assembly_image.specs.Names.{has_type};
ghost use Rattle.assembly_image.specs.Reading.{tables_of, module_of};

use crate::image::AssemblyImage;
use metadata_tables::{Tables, column, table};
use std::alloc::{AllocError, Global};

/// The rows of a table by the number that stands in a column: from the first row of a number a
/// chain leads over all rows of that number, in their order.
#[derive(Drop)]
pub(crate) struct RowIndex {
    /// The first row of each number, or 0.
    pub(crate) first: Vec<u32>,
    /// The next row of the same number after each row, or 0.
    pub(crate) next: Vec<u32>,
}

/// By which table, and which of its columns, rows belong to a type.
#[derive(Clone, Copy)]
pub(crate) enum Belongs {
    /// The class of a row of InterfaceImpl.
    Interface,
    /// The class of a row of MethodImpl.
    Implementation,
    /// The owner of a row of GenericParam.
    Parameter,
}

impl AssemblyImage {
    /// The rows of InterfaceImpl of a type, in their order. None where there is no such type.
    /// ECMA-335 II.22.23.
    pub fn interface_impls(&self, alloc: Global, row: u32) -> Result<Vec<u32>, AllocError>
        ensures { IfOk result (λ rows. rows.items ≡ spec.interface_impls (module_of self.now) row) }
    {
        if !self.has_row(table::TYPE_DEF, row) {
            return Ok(Vec::new(alloc));
        }
        self.rows_of(alloc, Belongs::Interface, row)
    }

    /// The rows of MethodImpl of a type, in their order. None where there is no such type. ECMA-335
    /// II.22.27.
    pub fn method_impls(&self, alloc: Global, row: u32) -> Result<Vec<u32>, AllocError>
        ensures { IfOk result (λ rows. rows.items ≡ spec.method_impls (module_of self.now) row) }
    {
        if !self.has_row(table::TYPE_DEF, row) {
            return Ok(Vec::new(alloc));
        }
        self.rows_of(alloc, Belongs::Implementation, row)
    }

    /// The rows of GenericParam that a type owns, in their order: one for each of its type
    /// parameters. None where there is no such type. ECMA-335 II.22.20.
    pub fn type_params(&self, alloc: Global, row: u32) -> Result<Vec<u32>, AllocError>
        ensures { IfOk result (λ rows. rows.items ≡ spec.type_params (module_of self.now) row) }
    {
        if !self.has_row(table::TYPE_DEF, row) {
            return Ok(Vec::new(alloc));
        }
        self.rows_of(alloc, Belongs::Parameter, row)
    }

    /// The rows that belong to a type, in their order.
    fn rows_of(&self, alloc: Global, by: Belongs, row: u32) -> Result<Vec<u32>, AllocError>
        requires { IsTrue (has_type (module_of self.now) row) }
        ensures { IfOk result (λ rows. rows.items ≡ spec.rows_by (module_of self.now) by row) }
    {
        let index = self.index_by(by);
        let mut rows = Vec::new(alloc);
        let mut n = index.first.as_slice()[value_of(by, row)];
        while n != 0 {
            rows.push(n)?;
            n = index.next.as_slice()[n as usize - 1];
        }
        Ok(rows)
    }

    fn index_by(&self, by: Belongs) -> &RowIndex
        ensures { IsIndexed (module_of self.now) by result.now }
    {
        match by {
            Belongs::Interface => &self.interface_impls,
            Belongs::Implementation => &self.method_impls,
            Belongs::Parameter => &self.type_params,
        }
    }
}

/// What stands in the column of the rows that belong to a type.
fn value_of(by: Belongs, row: u32) -> usize
    ensures { result ≡ spec.value_by by row }
{
    match by {
        Belongs::Interface | Belongs::Implementation => row as usize,
        // TypeOrMethodDef has one bit of tag, which is 0 for a type
        Belongs::Parameter => 2 * row as usize,
    }
}

/// The table of these rows.
fn table_of(by: Belongs) -> u8
    ensures { result ≡ spec.table_by by }
{
    match by {
        Belongs::Interface => table::INTERFACE_IMPL,
        Belongs::Implementation => table::METHOD_IMPL,
        Belongs::Parameter => table::GENERIC_PARAM,
    }
}

/// The column that says to what they belong.
fn column_of(by: Belongs) -> usize
    ensures { result ≡ spec.column_by by }
{
    match by {
        Belongs::Interface => column::INTERFACE_IMPL_CLASS,
        Belongs::Implementation => column::METHOD_IMPL_CLASS,
        Belongs::Parameter => column::GENERIC_PARAM_OWNER,
    }
}

/// The index of the rows that belong to types. The rows are gone through from the last.
pub(crate) fn read_index(
    alloc: Global,
    bytes: &[u8],
    tables: &Tables,
    by: Belongs,
) -> Result<RowIndex, AllocError>
    requires rows { rows_end tables.now ≤ length bytes.now }
    requires tables { tables.now ≡ tables_of bytes.now }
    ensures { IfOk result (λ index. IsIndexed (module_of bytes.now) by index) }
{
    let rows = tables.count(table_of(by));
    let limit = value_of(by, tables.count(table::TYPE_DEF)) + 1;
    let mut first = vec![in alloc; 0; limit]?;
    let mut next = vec![in alloc; 0; rows as usize]?;
    for after in 0..rows {
        let n = rows - after;
        let value = tables
            .number(bytes, table_of(by), n, column_of(by))
            .unwrap_or(0);
        link(&mut first, &mut next, n, value);
    }
    Ok(RowIndex { first, next })
}

/// One more row, counted from 1, in front of those of the same number.
fn link(first: &mut Vec<u32>, next: &mut Vec<u32>, n: u32, value: u32)
    requires { (1 ≤ n) × (n ≤ length next.old.items) }
    ensures { IsLinked first.old.items first.new.items next.old.items next.new.items n value }
{
    let value = value as usize;
    if first.len() <= value {
        return;
    }
    next[n as usize - 1] = first[value];
    first[value] = n;
}
