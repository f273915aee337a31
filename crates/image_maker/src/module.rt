use assembly_name::{AssemblyRef, Version};
use cli_words::{Listed, Utf8Text};

/// What stands in a column of a row that a module gives as cells.
#[derive(Debug, Drop)]
pub enum Cell {
    /// A number, which an index of a row or into the heap of GUIDs is too.
    Number(u32),
    /// A string.
    Text(Utf8Text),
    /// The bytes of a blob.
    Bytes(Listed<u8>),
}

/// What an image is made of. Coded indexes are as ECMA-335 II.24.2.6 spells them, and rows are
/// counted from 1.
#[derive(Debug, Drop)]
pub struct Module {
    /// The simple name of the assembly, which its one Module row has too.
    pub name: Utf8Text,
    pub version: Version,
    /// The rows of AssemblyRef.
    pub refs: Listed<AssemblyRef>,
    pub type_refs: Listed<TypeRefRow>,
    pub types: Listed<TypeRow>,
    /// The rows of MemberRef.
    pub members: Listed<MemberRow>,
    /// The signatures of the rows of TypeSpec.
    pub specs: Listed<Listed<u8>>,
    /// The bytes of the heap of user strings.
    pub user_strings: Listed<u8>,
    /// The bytes of the heap of GUIDs, 16 for each.
    pub guids: Listed<u8>,
    /// The rows of all other tables, each with the number of its table, the tables in rising order.
    pub rows: Listed<(u8, Listed<Cell>)>,
    /// Further streams, each with its name.
    pub streams: Listed<(Utf8Text, Listed<u8>)>,
}

/// A row of TypeRef. ECMA-335 II.22.38.
#[derive(Debug, Drop)]
pub struct TypeRefRow {
    /// A coded index, ResolutionScope.
    pub scope: u32,
    pub name: Utf8Text,
    pub space: Utf8Text,
}

/// A row of TypeDef, with the fields and the methods of the type. ECMA-335 II.22.37.
#[derive(Debug, Drop)]
pub struct TypeRow {
    pub flags: u32,
    pub name: Utf8Text,
    pub space: Utf8Text,
    /// A coded index, TypeDefOrRef.
    pub parent: u32,
    pub fields: Listed<FieldRow>,
    pub methods: Listed<MethodRow>,
}

/// A row of Field. ECMA-335 II.22.15.
#[derive(Debug, Drop)]
pub struct FieldRow {
    pub flags: u16,
    pub name: Utf8Text,
    pub sig: Listed<u8>,
}

/// A row of MethodDef, with the body of the method. ECMA-335 II.22.26.
#[derive(Debug, Drop)]
pub struct MethodRow {
    pub flags: u16,
    pub impl_flags: u16,
    /// How many rows of Param the method has.
    pub params: u32,
    pub name: Utf8Text,
    pub sig: Listed<u8>,
    /// The bytes from the body's header to its last section.
    pub body: Option<Listed<u8>>,
}

/// A row of MemberRef. ECMA-335 II.22.25.
#[derive(Debug, Drop)]
pub struct MemberRow {
    /// A coded index, MemberRefParent.
    pub class: u32,
    pub name: Utf8Text,
    pub sig: Listed<u8>,
}
