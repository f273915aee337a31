//! An image of an assembly.
ghost use Rattle.std.specs.Prelude.{◌≡◌, ℕ, ◌-◌, ◌^◌, ◌<◌, ◌≤◌, length, slice_index, unwrap_or};
ghost use Rattle.pe_image.specs.Reading.{pe_of};
ghost use Rattle.meta_heaps.specs.Heaps.{IsWithin};
ghost use Rattle.metadata_tables.specs.Layout.{rows_end};
ghost use Rattle.metadata_tables.specs.Tables as tables;
ghost use Rattle.assembly_image.specs.Module as held;
ghost use Rattle.assembly_image.specs.Names.{assembly_name, assembly_version, encloser};
ghost use Rattle.assembly_image.specs.Reading.{heaps_of, tables_of, module_of, Reads};

use crate::index::RowIndex;
use assembly_name::{SimpleName, Version};
use meta_heaps::Root;
use metadata_tables::{Tables, table};
use pe_image::Pe;
use std::marker::Model;
use std::sync::Arc;

/// An assembly's image: bytes that pass every check of the reading. Contracts see its bytes, and
/// `module_of` what they hold. ECMA-335 II.22 to II.25.
#[derive(Drop)]
pub struct AssemblyImage {
    pub(crate) bytes: Arc<Vec<u8>>,
    pub(crate) pe: Pe,
    pub(crate) root: Root,
    pub(crate) tables: Tables,
    pub(crate) name: SimpleName,
    pub(crate) version: Version,
    /// The row of each type's encloser, or 0, so that a name costs no search of NestedClass.
    pub(crate) enclosers: Vec<u32>,
    /// The rows that belong to each type, so that they cost no search of their tables.
    pub(crate) interface_impls: RowIndex,
    pub(crate) method_impls: RowIndex,
    pub(crate) type_params: RowIndex,
}

impl Model for AssemblyImage {
    ghost use Rattle.std.specs.Prelude.{List, ℕ};
    ghost use Rattle.std.specs.Arc.{arc_value};
    ghost use Rattle.assembly_image.specs.Image.{IsImage};

    ghost Value = { List ℕ };

    ghost view = { λ image. (arc_value image.bytes).items };

    ghost invariant = { λ image. IsImage (arc_value image.bytes).items image.pe image.root
        image.tables image.name image.version image.enclosers.items
        image.interface_impls image.method_impls image.type_params };
}

impl AssemblyImage {
    /// The assembly's simple name. ECMA-335 II.22.2.
    pub fn name(&self) -> &SimpleName
        ensures { result.now ≡ assembly_name (module_of self.now) }
    {
        &self.name
    }

    /// The assembly's version. ECMA-335 II.22.2.
    pub fn version(&self) -> Version
        ensures { result ≡ assembly_version (module_of self.now) }
    {
        self.version
    }

    /// How many references to assemblies there are.
    pub fn refs(&self) -> u32
        ensures { result ≡ held.count (module_of self.now) tables.assembly_ref }
    {
        self.count(table::ASSEMBLY_REF)
    }

    /// How many types there are.
    pub fn types(&self) -> u32
        ensures { result ≡ held.count (module_of self.now) tables.type_def }
    {
        self.count(table::TYPE_DEF)
    }

    /// How many fields there are.
    pub fn fields(&self) -> u32
        ensures { result ≡ held.count (module_of self.now) tables.field }
    {
        self.count(table::FIELD)
    }

    /// How many methods there are.
    pub fn methods(&self) -> u32
        ensures { result ≡ held.count (module_of self.now) tables.method_def }
    {
        self.count(table::METHOD_DEF)
    }

    /// The bytes of the image.
    pub fn bytes(&self) -> &[u8]
        ensures bytes { result.now ≡ self.now }
        ensures short { length result.now < 2 ^ 32 - 1 }
        ensures range { (i : ℕ) → slice_index self.now i < 2 ^ 8 }
        ensures reads { Reads self.now (module_of self.now) }
    {
        self.bytes.as_slice()
    }

    /// Where its parts lie.
    pub fn pe(&self) -> &Pe
        ensures { result.now ≡ pe_of self.now }
    {
        &self.pe
    }

    /// The streams of its metadata.
    pub fn root(&self) -> &Root
        ensures root { result.now ≡ heaps_of self.now }
        ensures within { IsWithin (length self.now) result.now }
    {
        &self.root
    }

    /// Its tables.
    pub fn tables(&self) -> &Tables
        ensures tables { result.now ≡ tables_of self.now }
        ensures rows { rows_end result.now ≤ length self.now }
    {
        &self.tables
    }

    /// The row of the type that encloses the type of a row. `None` where there is no such type, it
    /// stands in no row of NestedClass, or the first row that names it names no row before its own.
    /// ECMA-335 II.22.32.
    pub fn encloser(&self, row: u32) -> Option<u32>
        ensures { result ≡ encloser (module_of self.now) row }
    {
        if row == 0 || self.types() < row {
            return None;
        }
        match self.outer(row) {
            0 => None,
            outer => Some(outer),
        }
    }

    /// The row of a type's encloser, or 0.
    fn outer(&self, row: u32) -> u32
        requires first { 1 ≤ row }
        requires last { row ≤ held.count (module_of self.now) tables.type_def }
        ensures { result ≡ unwrap_or (encloser (module_of self.now) row) 0 }
    {
        self.enclosers.as_slice()[row as usize - 1]
    }

    pub(crate) fn count(&self, table: u8) -> u32
        requires { table < 45 }
        ensures { result ≡ held.count (module_of self.now) table }
    {
        self.tables.count(table)
    }
}
