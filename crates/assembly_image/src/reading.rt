//! Reading an image.
ghost use Rattle.std.specs.Prelude.{◌≡◌, ℕ, ◌-◌, ◌^◌, ◌<◌, ◌≤◌, length};
ghost use Rattle.std.specs.Prelude.{IfOk, Err, MatchResult, Some};
ghost use Rattle.std.specs.Arc.{arc_value};
ghost use Rattle.cli_words.specs.Check.{first_fault};
ghost use Rattle.metadata_tables.specs.Layout.{count_of, rows_end};
ghost use Rattle.metadata_tables.specs.Tables as tables_spec;
ghost use Rattle.cli_words.specs.declared.check.FailedCheck.{FailedCheck};
ghost use Rattle.assembly_image.specs.declared.fault.ImageFault.TheVariants.{Bad};
ghost use Rattle.assembly_image.specs.Names.{assembly_name};
ghost use Rattle.assembly_image.specs.Reading.{image_checks, module_of, Reads, IsRefused};
ghost use Rattle.assembly_image.specs.Image.{ArePartsOf, IsRestOf, AreEnclosers, IsEnclosed};
ghost use Rattle.assembly_image.specs.Image.{version_in};

use crate::cells::value_in;
use crate::checks::{assembly_name, first_failed};
use crate::fault::ImageFault;
use crate::image::AssemblyImage;
use crate::index::{Belongs, RowIndex, read_index};
use assembly_name::{SimpleName, Version};
use cli_words::{FailedCheck, Span, Units};
use meta_heaps::{Root, read_root};
use metadata_tables::{HeapSizes, Tables, column, read_tables, table};
use pe_image::{Pe, read_pe};
use std::alloc::{AllocError, Global};
use std::sync::Arc;

/// What is read off the bytes of an image.
#[derive(Drop)]
pub(crate) struct Parts {
    pub(crate) pe: Pe,
    pub(crate) root: Root,
    pub(crate) tables: Tables,
}

/// The image that the bytes are. They are shared and not copied. `Bad` exactly where they fail a
/// check, with the first that they fail. ECMA-335 II.22 to II.25.
pub fn read_image(alloc: Global, bytes: Arc<Vec<u8>>) -> Result<AssemblyImage, ImageFault>
    requires { length (arc_value bytes).items < 2 ^ 32 - 1 }
    ensures image { IfOk result (λ image. image ≡ (arc_value bytes).items) }
    ensures reads { IfOk result (λ image. Reads image (module_of image)) }
    ensures refused { (failed : FailedCheck) → result ≡ Err (Bad failed)
        → IsRefused (arc_value bytes).items failed }
    ensures exact { (failed : FailedCheck) → IsRefused (arc_value bytes).items failed
        → result ≡ Err (Bad failed) }
{
    let parts = match read_parts(alloc, bytes.as_slice()) {
        Ok(parts) => parts,
        Err(failed) => return Err(ImageFault::Bad(failed)),
    };
    match read_rest(alloc, bytes.as_slice(), &parts) {
        Ok(rest) => Ok(AssemblyImage {
            bytes,
            pe: parts.pe,
            root: parts.root,
            tables: parts.tables,
            name: rest.name,
            version: rest.version,
            enclosers: rest.enclosers,
            interface_impls: rest.interface_impls,
            method_impls: rest.method_impls,
            type_params: rest.type_params,
        }),
        Err(_) => Err(ImageFault::OutOfMemory),
    }
}

/// What is kept of an image beside its parts.
#[derive(Drop)]
struct Rest {
    name: SimpleName,
    version: Version,
    enclosers: Vec<u32>,
    interface_impls: RowIndex,
    method_impls: RowIndex,
    type_params: RowIndex,
}

fn read_rest(alloc: Global, bytes: &[u8], parts: &Parts) -> Result<Rest, AllocError>
    requires { ArePartsOf bytes.now parts.now.pe parts.now.root parts.now.tables }
    ensures { IfOk result (λ rest. IsRestOf bytes.now rest.name rest.version
        rest.enclosers.items rest.interface_impls rest.method_impls rest.type_params) }
{
    let name = read_name(alloc, bytes, parts)?;
    let version = read_version(bytes, &parts.tables);
    let enclosers = read_enclosers(alloc, bytes, parts)?;
    let interface_impls = read_index(alloc, bytes, &parts.tables, Belongs::Interface)?;
    let method_impls = read_index(alloc, bytes, &parts.tables, Belongs::Implementation)?;
    let type_params = read_index(alloc, bytes, &parts.tables, Belongs::Parameter)?;
    Ok(Rest {
        name,
        version,
        enclosers,
        interface_impls,
        method_impls,
        type_params,
    })
}

fn read_name(alloc: Global, bytes: &[u8], parts: &Parts) -> Result<SimpleName, AllocError>
    requires { ArePartsOf bytes.now parts.now.pe parts.now.root parts.now.tables }
    ensures { IfOk result (λ name. name ≡ assembly_name (module_of bytes.now)) }
{
    // That it is UTF-8 has been checked, so that only memory can be wanting.
    match Units::from_utf8(alloc, assembly_name(bytes, &parts.root, &parts.tables)) {
        Ok(units) => Ok(SimpleName::of(units)),
        Err(_) => Err(AllocError),
    }
}

fn read_version(bytes: &[u8], tables: &Tables) -> Version
    requires rows { rows_end tables.now ≤ length bytes.now }
    requires one { count_of tables.now tables_spec.assembly ≡ 1 }
    ensures { result ≡ version_in bytes.now tables.now }
{
    let row = tables.row(bytes, table::ASSEMBLY, 1);
    Version {
        major: value_in(&row, column::ASSEMBLY_MAJOR) as u16,
        minor: value_in(&row, column::ASSEMBLY_MINOR) as u16,
        build: value_in(&row, column::ASSEMBLY_BUILD) as u16,
        revision: value_in(&row, column::ASSEMBLY_REVISION) as u16,
    }
}

/// The encloser of each type, or 0. The rows of NestedClass are gone through from the last, so that
/// the first that names a type counts.
fn read_enclosers(alloc: Global, bytes: &[u8], parts: &Parts) -> Result<Vec<u32>, AllocError>
    requires { ArePartsOf bytes.now parts.now.pe parts.now.root parts.now.tables }
    ensures { IfOk result (λ enclosers. AreEnclosers bytes.now enclosers.items) }
{
    let types = parts.tables.count(table::TYPE_DEF) as usize;
    let rows = parts.tables.count(table::NESTED_CLASS);
    let mut enclosers = vec![in alloc; 0; types]?;
    for after in 0..rows {
        let row = parts.tables.row(bytes, table::NESTED_CLASS, rows - after);
        let nested = value_in(&row, column::NESTED_CLASS_NESTED);
        let enclosing = value_in(&row, column::NESTED_CLASS_ENCLOSING);
        enclose(&mut enclosers, nested, enclosing);
    }
    Ok(enclosers)
}

/// The type of one row is enclosed by that of another, where that one stands before it.
fn enclose(enclosers: &mut Vec<u32>, nested: u32, enclosing: u32)
    ensures { IsEnclosed enclosers.old.items enclosers.new.items nested enclosing }
{
    if nested == 0 || enclosers.len() < nested as usize {
        return;
    }
    enclosers[nested as usize - 1] = if enclosing < nested { enclosing } else { 0 };
}

/// The parts of the bytes, where they pass every check.
pub(crate) fn read_parts(alloc: Global, bytes: &[u8]) -> Result<Parts, FailedCheck>
    requires { length bytes.now < 2 ^ 32 - 1 }
    ensures { MatchResult result
        (λ parts. ArePartsOf bytes.now parts.pe parts.root parts.tables)
        (λ failed. first_fault (image_checks bytes.now) ≡ Some failed) }
{
    let pe = read_pe(bytes)?;
    let metadata = Span {
        at: pe.root_at,
        len: pe.root_len,
    };
    let root = read_root(bytes, metadata)?;
    let sizes = HeapSizes {
        strings: root.strings.len as u32,
        guid: root.guids.len as u32,
        blob: root.blobs.len as u32,
    };
    let tables = read_tables(bytes, root.tables, sizes)?;
    match first_failed(alloc, bytes, &root, &tables) {
        None => Ok(Parts { pe, root, tables }),
        Some(failed) => Err(failed),
    }
}
