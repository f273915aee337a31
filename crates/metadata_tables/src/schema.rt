//! The columns of the tables.
ghost use Rattle.std.specs.Prelude.{◌≡◌, ◌^◌, ◌≤◌, [], length, map, slice_index_or};
ghost use Rattle.metadata_tables.specs.Columns.{columns_of, tag_bits_of, first_tag_of, tables_of};
ghost use Rattle.metadata_tables.specs.Columns.{table_of, target_of};

use crate::table::{
    ASSEMBLY, ASSEMBLY_REF, DECL_SECURITY, EVENT, EXPORTED_TYPE, FIELD, FILE, GENERIC_PARAM,
    GENERIC_PARAM_CONSTRAINT, INTERFACE_IMPL, MANIFEST_RESOURCE, MEMBER_REF, METHOD_DEF,
    METHOD_SPEC, MODULE, MODULE_REF, PARAM, PROPERTY, STAND_ALONE_SIG, TABLE_COUNT, TYPE_DEF,
    TYPE_REF, TYPE_SPEC,
};
use CodedIndex::{
    CustomAttributeType, HasConstant, HasCustomAttribute, HasDeclSecurity, HasFieldMarshal,
    HasSemantics, Implementation, MemberForwarded, MemberRefParent, MethodDefOrRef,
    ResolutionScope, TypeDefOrRef, TypeOrMethodDef,
};
use Column::{Blob, Coded, Guid, List, Strings, Table, U8, U16, U32};

/// What stands in a column. ECMA-335 II.22, II.24.2.6.
#[derive(Clone, Copy, PartialEq, Eq, Debug)]
pub enum Column {
    /// A number of one byte.
    U8,
    /// A number of two bytes.
    U16,
    /// A number of four bytes.
    U32,
    /// An index into the heap `#Strings`.
    Strings,
    /// An index into the heap `#GUID`.
    Guid,
    /// An index into the heap `#Blob`.
    Blob,
    /// A row of the table of this number.
    Table(u8),
    /// A list of rows of the table of this number: its first row. The list ends where that of the
    /// row after begins.
    List(u8),
    /// A row of one of several tables.
    Coded(CodedIndex),
}

/// A kind of coded index: the tables that it may point into. ECMA-335 II.24.2.6.
#[derive(Clone, Copy, PartialEq, Eq, Debug)]
pub enum CodedIndex {
    TypeDefOrRef,
    HasConstant,
    HasCustomAttribute,
    HasFieldMarshal,
    HasDeclSecurity,
    MemberRefParent,
    HasSemantics,
    MethodDefOrRef,
    MemberForwarded,
    Implementation,
    CustomAttributeType,
    ResolutionScope,
    TypeOrMethodDef,
}

/// No table has more columns.
pub(crate) const COLUMN_LIMIT: usize = 9;

const TABLES: [&[Column]; TABLE_COUNT] = [
    // 00 Module: Generation, Name, Mvid, EncId, EncBaseId.
    &[U16, Strings, Guid, Guid, Guid],
    // 01 TypeRef: ResolutionScope, Name, Namespace.
    &[Coded(ResolutionScope), Strings, Strings],
    // 02 TypeDef: Flags, Name, Namespace, Extends, FieldList, MethodList.
    &[
        U32,
        Strings,
        Strings,
        Coded(TypeDefOrRef),
        List(FIELD),
        List(METHOD_DEF),
    ],
    // 03 FieldPtr is refused.
    &[],
    // 04 Field: Flags, Name, Signature.
    &[U16, Strings, Blob],
    // 05 MethodPtr is refused.
    &[],
    // 06 MethodDef: RVA, ImplFlags, Flags, Name, Signature, ParamList.
    &[U32, U16, U16, Strings, Blob, List(PARAM)],
    // 07 ParamPtr is refused.
    &[],
    // 08 Param: Flags, Sequence, Name.
    &[U16, U16, Strings],
    // 09 InterfaceImpl: Class, Interface.
    &[Table(TYPE_DEF), Coded(TypeDefOrRef)],
    // 0A MemberRef: Class, Name, Signature.
    &[Coded(MemberRefParent), Strings, Blob],
    // 0B Constant: Type, padding, Parent, Value.
    &[U8, U8, Coded(HasConstant), Blob],
    // 0C CustomAttribute: Parent, Type, Value.
    &[Coded(HasCustomAttribute), Coded(CustomAttributeType), Blob],
    // 0D FieldMarshal: Parent, NativeType.
    &[Coded(HasFieldMarshal), Blob],
    // 0E DeclSecurity: Action, Parent, PermissionSet.
    &[U16, Coded(HasDeclSecurity), Blob],
    // 0F ClassLayout: PackingSize, ClassSize, Parent.
    &[U16, U32, Table(TYPE_DEF)],
    // 10 FieldLayout: Offset, Field.
    &[U32, Table(FIELD)],
    // 11 StandAloneSig: Signature.
    &[Blob],
    // 12 EventMap: Parent, EventList.
    &[Table(TYPE_DEF), List(EVENT)],
    // 13 EventPtr is refused.
    &[],
    // 14 Event: EventFlags, Name, EventType.
    &[U16, Strings, Coded(TypeDefOrRef)],
    // 15 PropertyMap: Parent, PropertyList.
    &[Table(TYPE_DEF), List(PROPERTY)],
    // 16 PropertyPtr is refused.
    &[],
    // 17 Property: Flags, Name, Type.
    &[U16, Strings, Blob],
    // 18 MethodSemantics: Semantics, Method, Association.
    &[U16, Table(METHOD_DEF), Coded(HasSemantics)],
    // 19 MethodImpl: Class, MethodBody, MethodDeclaration.
    &[
        Table(TYPE_DEF),
        Coded(MethodDefOrRef),
        Coded(MethodDefOrRef),
    ],
    // 1A ModuleRef: Name.
    &[Strings],
    // 1B TypeSpec: Signature.
    &[Blob],
    // 1C ImplMap: MappingFlags, MemberForwarded, ImportName, ImportScope.
    &[U16, Coded(MemberForwarded), Strings, Table(MODULE_REF)],
    // 1D FieldRVA: RVA, Field.
    &[U32, Table(FIELD)],
    // 1E EncLog is refused.
    &[],
    // 1F EncMap is refused.
    &[],
    // 20 Assembly: HashAlgId, four words of the version, Flags, PublicKey, Name, Culture.
    &[U32, U16, U16, U16, U16, U32, Blob, Strings, Strings],
    // 21 AssemblyProcessor: Processor.
    &[U32],
    // 22 AssemblyOS: OSPlatformID, OSMajorVersion, OSMinorVersion.
    &[U32, U32, U32],
    // 23 AssemblyRef: four words of the version, Flags, PublicKeyOrToken, Name, Culture, HashValue.
    &[U16, U16, U16, U16, U32, Blob, Strings, Strings, Blob],
    // 24 AssemblyRefProcessor: Processor, AssemblyRef.
    &[U32, Table(ASSEMBLY_REF)],
    // 25 AssemblyRefOS: OSPlatformID, OSMajorVersion, OSMinorVersion, AssemblyRef.
    &[U32, U32, U32, Table(ASSEMBLY_REF)],
    // 26 File: Flags, Name, HashValue.
    &[U32, Strings, Blob],
    // 27 ExportedType: Flags, TypeDefId, TypeName, TypeNamespace, Implementation.
    &[U32, U32, Strings, Strings, Coded(Implementation)],
    // 28 ManifestResource: Offset, Flags, Name, Implementation.
    &[U32, U32, Strings, Coded(Implementation)],
    // 29 NestedClass: NestedClass, EnclosingClass.
    &[Table(TYPE_DEF), Table(TYPE_DEF)],
    // 2A GenericParam: Number, Flags, Owner, Name.
    &[U16, U16, Coded(TypeOrMethodDef), Strings],
    // 2B MethodSpec: Method, Instantiation.
    &[Coded(MethodDefOrRef), Blob],
    // 2C GenericParamConstraint: Owner, Constraint.
    &[Table(GENERIC_PARAM), Coded(TypeDefOrRef)],
];

/// The columns of a table, from the left: none exactly where the table is refused.
pub fn columns(table: u8) -> &'static [Column]
    ensures value { result.now ≡ columns_of table }
    ensures short { length result.now ≤ 9 }
{
    columns_at(&TABLES, usize::from(table))
}

fn columns_at(tables: &[&'static [Column]], index: usize) -> &'static [Column]
    ensures { result.now ≡ slice_index_or (map (λ columns. columns.now) tables.now) index [] }
{
    if index < tables.len() {
        tables[index]
    } else {
        &[]
    }
}

impl CodedIndex {
    /// The table and the row that an index names: its lowest bits are the tag that picks the
    /// table, the bits above are the row, counted from 1, or 0. `None` exactly where the tag is
    /// not in use. ECMA-335 II.24.2.6.
    pub fn target(self, index: u32) -> Option<(u8, u32)>
        ensures { result ≡ target_of self index }
    {
        let tags = self.tag_count();
        let table = self.table(index % tags)?;
        Some((table, index / tags))
    }

    fn table(self, tag: u32) -> Option<u8>
        ensures { result ≡ table_of self tag }
    {
        let first = self.first_tag();
        if tag < first {
            return None;
        }
        self.tables().get((tag - first) as usize).copied()
    }

    fn tag_count(self) -> u32
        ensures { result ≡ 2 ^ tag_bits_of self }
    {
        1 << self.tag_bits()
    }

    /// The tag of the first of its tables: the tags below it are not in use.
    fn first_tag(self) -> u32
        ensures { result ≡ first_tag_of self }
    {
        match self {
            CustomAttributeType => 2,
            _ => 0,
        }
    }

    /// How many of the index's lowest bits are its tag.
    pub(crate) fn tag_bits(self) -> u32
        ensures { result ≡ tag_bits_of self }
    {
        match self {
            HasFieldMarshal | HasSemantics | MethodDefOrRef | MemberForwarded | TypeOrMethodDef =>
                1,
            TypeDefOrRef | HasConstant | HasDeclSecurity | Implementation | ResolutionScope => 2,
            MemberRefParent | CustomAttributeType => 3,
            HasCustomAttribute => 5,
        }
    }

    /// The numbers of its tables, in the order of their tags. No greater tag is in use.
    pub(crate) fn tables(self) -> &'static [u8]
        ensures { result.now ≡ tables_of self }
    {
        match self {
            TypeDefOrRef => &[TYPE_DEF, TYPE_REF, TYPE_SPEC],
            HasConstant => &[FIELD, PARAM, PROPERTY],
            HasCustomAttribute => &[
                METHOD_DEF,
                FIELD,
                TYPE_REF,
                TYPE_DEF,
                PARAM,
                INTERFACE_IMPL,
                MEMBER_REF,
                MODULE,
                DECL_SECURITY,
                PROPERTY,
                EVENT,
                STAND_ALONE_SIG,
                MODULE_REF,
                TYPE_SPEC,
                ASSEMBLY,
                ASSEMBLY_REF,
                FILE,
                EXPORTED_TYPE,
                MANIFEST_RESOURCE,
                GENERIC_PARAM,
                GENERIC_PARAM_CONSTRAINT,
                METHOD_SPEC,
            ],
            HasFieldMarshal => &[FIELD, PARAM],
            HasDeclSecurity => &[TYPE_DEF, METHOD_DEF, ASSEMBLY],
            MemberRefParent => &[TYPE_DEF, TYPE_REF, MODULE_REF, METHOD_DEF, TYPE_SPEC],
            HasSemantics => &[EVENT, PROPERTY],
            MethodDefOrRef => &[METHOD_DEF, MEMBER_REF],
            MemberForwarded => &[FIELD, METHOD_DEF],
            Implementation => &[FILE, ASSEMBLY_REF, EXPORTED_TYPE],
            CustomAttributeType => &[METHOD_DEF, MEMBER_REF],
            ResolutionScope => &[MODULE, MODULE_REF, ASSEMBLY_REF, TYPE_REF],
            TypeOrMethodDef => &[TYPE_DEF, METHOD_DEF],
        }
    }
}
