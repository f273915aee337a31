//! Modules are made of literals.
ghost use Rattle.std.specs.Prelude.{◌≡◌, IfOk, map};
ghost use Rattle.image_maker.specs.Plans as plans;

use crate::module;
use crate::module::{FieldRow, MemberRow, MethodRow, Module, TypeRefRow, TypeRow};
use assembly_name::{AssemblyRef, SimpleName, Version};
use cli_words::{Listed, Units, Utf8Text};
use std::alloc::{AllocError, Global};

/// What a module has beside what all that are made of literals have.
#[derive(Clone, Copy)]
pub(crate) struct Plan {
    pub(crate) name: &'static str,
    pub(crate) version: [u16; 4],
    pub(crate) refs: &'static [Ref],
    pub(crate) type_refs: &'static [TypeRef],
    pub(crate) types: &'static [Class],
    pub(crate) members: &'static [Member],
    pub(crate) specs: &'static [&'static [u8]],
    pub(crate) user_strings: &'static [u8],
    pub(crate) rows: &'static [Row],
    pub(crate) streams: &'static [Stream],
}

/// A reference: a name, which is ASCII, and a version.
pub(crate) struct Ref(pub(crate) &'static str, pub(crate) [u16; 4]);

/// A type of another module: its scope, its namespace and its name.
pub(crate) struct TypeRef(
    pub(crate) u32,
    pub(crate) &'static str,
    pub(crate) &'static str,
);

/// A type without flags: its namespace, its name, its parent, its fields and its methods.
pub(crate) struct Class(
    pub(crate) &'static str,
    pub(crate) &'static str,
    pub(crate) u32,
    pub(crate) &'static [Field],
    pub(crate) &'static [Method],
);

/// A static field: its name and its signature.
pub(crate) struct Field(pub(crate) &'static str, pub(crate) &'static [u8]);

/// A static method: how many rows of Param it has, its name, its signature and its body.
pub(crate) struct Method(
    pub(crate) u32,
    pub(crate) &'static str,
    pub(crate) &'static [u8],
    pub(crate) &'static [u8],
);

/// A member of another type: its parent, its name and its signature.
pub(crate) struct Member(
    pub(crate) u32,
    pub(crate) &'static str,
    pub(crate) &'static [u8],
);

/// A row of a table.
pub(crate) struct Row(pub(crate) u8, pub(crate) &'static [Cell]);

pub(crate) enum Cell {
    Number(u32),
    Text(&'static str),
    Bytes(&'static [u8]),
}

/// A further stream: its name and its bytes.
pub(crate) struct Stream(pub(crate) &'static str, pub(crate) &'static [u8]);

/// The flag of a static field or method. ECMA-335 II.23.1.5, II.23.1.10.
const STATIC: u16 = 0x10;

/// The heap of GUIDs: one of them.
const GUID: &[u8] = b"GaddrefI\x8C\x01\x02\x03\x04\x05\x06\x07";

/// What a part of a module is made of.
pub(crate) trait Literal {
    type Part: Drop;

    ghost part: { Self → Self.Part };

    fn make(&self, alloc: Global) -> Result<Self::Part, AllocError>
        ensures { IfOk result (λ made. made ≡ part self.now) };
}

fn list<T: Literal>(alloc: Global, items: &[T]) -> Result<Listed<T::Part>, AllocError>
    ensures { IfOk result (λ made. made ≡ map T.part items.now) }
{
    let mut made = Vec::new(alloc);
    for item in items {
        made.push(item.make(alloc)?)?;
    }
    Ok(Listed::of(made))
}

fn version(parts: [u16; 4]) -> Version
    ensures { result ≡ plans.version_by parts }
{
    let [major, minor, build, revision] = parts;
    Version {
        major,
        minor,
        build,
        revision,
    }
}

impl Plan {
    /// The module of these parts.
    pub(crate) fn module(&self, alloc: Global) -> Result<Module, AllocError>
        ensures { IfOk result (λ m. m ≡ plans.module_by self.now) }
    {
        Ok(Module {
            name: self.name.make(alloc)?,
            version: version(self.version),
            refs: list(alloc, self.refs)?,
            type_refs: list(alloc, self.type_refs)?,
            types: list(alloc, self.types)?,
            members: list(alloc, self.members)?,
            specs: list(alloc, self.specs)?,
            user_strings: self.user_strings.make(alloc)?,
            guids: GUID.make(alloc)?,
            rows: list(alloc, self.rows)?,
            streams: list(alloc, self.streams)?,
        })
    }
}

impl Literal for &'static str {
    type Part = Utf8Text;

    ghost part = { λ s. s.now };

    fn make(&self, alloc: Global) -> Result<Utf8Text, AllocError> {
        Ok(Utf8Text::of(String::from_str(alloc, self)?))
    }
}

impl Literal for &'static [u8] {
    type Part = Listed<u8>;

    ghost part = { λ s. s.now };

    fn make(&self, alloc: Global) -> Result<Listed<u8>, AllocError> {
        Ok(Listed::of(self.to_vec(alloc)?))
    }
}

impl Literal for Ref {
    ghost use Rattle.image_maker.specs.Plans.{ref_by};

    type Part = AssemblyRef;

    ghost part = { ref_by };

    fn make(&self, alloc: Global) -> Result<AssemblyRef, AllocError> {
        let ascii = self.0.as_bytes().iter();
        let units: Vec<u16> = ascii.map(|byte| u16::from(*byte)).collect(alloc)?;
        let name = SimpleName::of(Units::of(alloc, units)?);
        Ok(AssemblyRef {
            name,
            version: version(self.1),
        })
    }
}

impl Literal for TypeRef {
    ghost use Rattle.image_maker.specs.Plans.{type_ref_by};

    type Part = TypeRefRow;

    ghost part = { type_ref_by };

    fn make(&self, alloc: Global) -> Result<TypeRefRow, AllocError> {
        Ok(TypeRefRow {
            scope: self.0,
            name: self.2.make(alloc)?,
            space: self.1.make(alloc)?,
        })
    }
}

impl Literal for Class {
    ghost use Rattle.image_maker.specs.Plans.{class_by};

    type Part = TypeRow;

    ghost part = { class_by };

    fn make(&self, alloc: Global) -> Result<TypeRow, AllocError> {
        Ok(TypeRow {
            flags: 0,
            name: self.1.make(alloc)?,
            space: self.0.make(alloc)?,
            parent: self.2,
            fields: list(alloc, self.3)?,
            methods: list(alloc, self.4)?,
        })
    }
}

impl Literal for Field {
    ghost use Rattle.image_maker.specs.Plans.{field_by};

    type Part = FieldRow;

    ghost part = { field_by };

    fn make(&self, alloc: Global) -> Result<FieldRow, AllocError> {
        Ok(FieldRow {
            flags: STATIC,
            name: self.0.make(alloc)?,
            sig: self.1.make(alloc)?,
        })
    }
}

impl Literal for Method {
    ghost use Rattle.image_maker.specs.Plans.{method_by};

    type Part = MethodRow;

    ghost part = { method_by };

    fn make(&self, alloc: Global) -> Result<MethodRow, AllocError> {
        Ok(MethodRow {
            flags: STATIC,
            impl_flags: 0,
            params: self.0,
            name: self.1.make(alloc)?,
            sig: self.2.make(alloc)?,
            body: Some(self.3.make(alloc)?),
        })
    }
}

impl Literal for Member {
    ghost use Rattle.image_maker.specs.Plans.{member_by};

    type Part = MemberRow;

    ghost part = { member_by };

    fn make(&self, alloc: Global) -> Result<MemberRow, AllocError> {
        Ok(MemberRow {
            class: self.0,
            name: self.1.make(alloc)?,
            sig: self.2.make(alloc)?,
        })
    }
}

impl Literal for Row {
    ghost use Rattle.image_maker.specs.Plans.{row_by};

    type Part = (u8, Listed<module::Cell>);

    ghost part = { row_by };

    fn make(&self, alloc: Global) -> Result<(u8, Listed<module::Cell>), AllocError> {
        Ok((self.0, list(alloc, self.1)?))
    }
}

impl Literal for Cell {
    ghost use Rattle.image_maker.specs.Plans.{cell_by};

    type Part = module::Cell;

    ghost part = { cell_by };

    fn make(&self, alloc: Global) -> Result<module::Cell, AllocError> {
        Ok(match self {
            Cell::Number(value) => module::Cell::Number(*value),
            Cell::Text(text) => module::Cell::Text(text.make(alloc)?),
            Cell::Bytes(bytes) => module::Cell::Bytes(bytes.make(alloc)?),
        })
    }
}

impl Literal for Stream {
    ghost use Rattle.image_maker.specs.Plans.{stream_by};

    type Part = (Utf8Text, Listed<u8>);

    ghost part = { stream_by };

    fn make(&self, alloc: Global) -> Result<(Utf8Text, Listed<u8>), AllocError> {
        Ok((self.0.make(alloc)?, self.1.make(alloc)?))
    }
}
