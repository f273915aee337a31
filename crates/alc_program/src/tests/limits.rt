//! An inspection nearly as long as there may be, with ample memory.
use super::devices::comes_to;
use super::samples::made;
use crate::status::Status;
use cli_words::{Listed, Utf8Text};
use image_maker::{FieldRow, Module, SampleName, TypeRow, sample};
use std::alloc::{AllocError, Global};
use std::test::Fail;

/// How many fields the long image has.
const FIELDS: u32 = 3_950;

/// The name of a field: 1,000 digits.
fn field_name(alloc: Global, n: u32) -> Result<String, AllocError> {
    format!(in alloc; "{n:01000}")
}

/// Many fields that have long names.
fn long_fields(alloc: Global) -> Result<Vec<FieldRow>, AllocError> {
    let mut fields = Vec::new(alloc);
    for n in 0..FIELDS {
        let sig = [6u8, 8].to_vec(alloc)?;
        fields.push(FieldRow {
            flags: 6,
            name: Utf8Text::of(field_name(alloc, n)?),
            sig: Listed::of(sig),
        })?;
    }
    Ok(fields)
}

/// The sample `Lib1`, whose one type is `C` with these fields.
fn long_module(alloc: Global) -> Result<Module, AllocError> {
    let mut module = sample(alloc, SampleName::Lib1)?;
    let only = TypeRow {
        flags: 1,
        name: Utf8Text::of(String::from_str(alloc, "C")?),
        space: Utf8Text::of(String::new(alloc)),
        parent: 0,
        fields: Listed::of(long_fields(alloc)?),
        methods: Listed::of(Vec::new(alloc)),
    };
    module.types = Listed::of(vec![in alloc; only]?);
    Ok(module)
}

fn long_image(alloc: Global) -> Result<Option<Vec<u8>>, AllocError> {
    let module = long_module(alloc)?;
    Ok(made(alloc, &module))
}

/// The line of a field in the inspection of that module's image.
fn field_line(alloc: Global, n: u32) -> Result<String, AllocError> {
    let row = n.saturating_add(1);
    format!(in alloc; "field {row} \"{n:01000}\"\n")
}

fn long_inspection(alloc: Global) -> Result<String, AllocError> {
    let mut text = String::from_str(
        alloc,
        "inspect 1\nassembly \"Lib\" 1.0.0.0\nref \"System.Runtime\" 8.0.0.0\ntype 1 \"C\"\n",
    )?;
    for n in 0..FIELDS {
        let line = field_line(alloc, n)?;
        text.push_str(line.as_str())?;
    }
    text.push_str("end\n")?;
    Ok(text)
}

#[test]
fn inspects_a_long_image(rt: HostRuntime) -> Result<(), Fail> {
    let image = long_image(rt.alloc())?.ok_or("no image")?;
    assert!(rt; image.len() > 3_900_000);
    let text = long_inspection(rt.alloc())?;
    let held = Some(image.as_slice());
    assert!(rt; comes_to(rt.alloc(), "inspect F", held, Status::Done, text.as_str())?);
    Ok(())
}
