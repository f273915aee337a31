use crate::plans::Cell::{Number, Text};
use crate::plans::{Class, Field, Literal, Row, TypeRef};
use crate::{MakeFault, Module, SampleName, TypeRow, make, sample};
use cli_words::{Listed, Utf8Text};
use metadata_tables::table;
use std::alloc::{AllocError, Global};
use std::process::Abort;
use std::test::Fail;

const PARAM: Row = Row(table::PARAM, &[Number(0), Number(0), Text("p")]);

/// So many of what a literal stands for.
fn repeated<T: Literal>(
    alloc: Global,
    item: &T,
    count: u32,
) -> Result<Listed<T::Part>, AllocError> {
    let mut made = Vec::new(alloc);
    for _ in 0..count {
        made.push(item.make(alloc)?)?;
    }
    Ok(Listed::of(made))
}

/// A module with so many rows of TypeRef, Field and Param, and a name and a heap of user strings
/// of so many bytes.
fn grown(
    alloc: Global,
    rows: [u32; 3],
    name: usize,
    user_strings: usize,
) -> Result<Module, AllocError> {
    let mut module = sample(alloc, SampleName::Lib1)?;
    module.name = Utf8Text::of("n".repeat(alloc, name)?);
    module.type_refs = repeated(alloc, &TypeRef(0, "", "R"), rows[0])?;
    module.types = types(alloc, rows[1])?;
    module.rows = repeated(alloc, &PARAM, rows[2])?;
    module.user_strings = Listed::of(vec![in alloc; 0; user_strings]?);
    Ok(module)
}

/// One type with so many fields.
fn types(alloc: Global, fields: u32) -> Result<Listed<TypeRow>, AllocError> {
    let mut row = Class("", "T", 0, &[], &[]).make(alloc)?;
    row.fields = repeated(alloc, &Field("f", b"\x06\x08"), fields)?;
    Ok(Listed::of(vec![in alloc; row]?))
}

/// The limit that a sound module passes, if there is one.
fn limit(rt: &impl Abort, alloc: Global, source: &Module) -> Result<Option<u8>, Fail> {
    assert!(rt; source.sound());
    match make(alloc, source) {
        Ok(_) => Ok(None),
        Err(MakeFault::Limit { what }) => Ok(Some(what)),
        Err(MakeFault::OutOfMemory) => Err(Fail::new("out of memory")),
    }
}

/// Counts of rows, of a name's bytes and of the bytes of user strings, and the limit that is passed.
/// A module with these rows and a name of 1,023 bytes takes 9,543 bytes without its user strings.
static LIMITS: [([u32; 3], usize, usize, Option<u8>); 9] = [
    ([65_534, 65_534, 1], 1, 0, Some(0xFF)),
    ([1, 65_534, 1], 1, 0, None),
    ([1, 65_535, 1], 1_024, 5_000_000, Some(0x04)),
    ([65_535, 65_535, 1], 1, 0, Some(0x01)),
    ([1, 1, 65_535], 1, 0, Some(0x08)),
    ([1, 1, 1], 1_024, 5_000_000, Some(0xFE)),
    ([1, 1, 1], 1_023, 5_000_000, Some(0xFF)),
    ([1, 1, 1], 1_023, 4_184_761, None),
    ([1, 1, 1], 1_023, 4_184_762, Some(0xFF)),
];

/// Which limit a module passes: the least table, then a name, then the size.
#[test]
fn limits(rt: HostRuntime) -> Result<(), Fail> {
    for (n, (rows, name, user_strings, what)) in LIMITS.iter().enumerate() {
        let source = grown(rt.alloc(), *rows, *name, *user_strings)?;
        assert!(rt; limit(&rt, rt.alloc(), &source)? == *what, "row {n}");
    }
    Ok(())
}
