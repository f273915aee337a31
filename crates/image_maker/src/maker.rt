//! Making an image of a module.
ghost use Rattle.std.specs.Prelude.{◌≡◌, ℕ, ◌++◌, map, None, Some, Err, IfOk, true};
ghost use Rattle.std.specs.List.{list_all};
ghost use Rattle.image_maker.specs.declared.fault.MakeFault.TheVariants.{Limit};
ghost use Rattle.image_maker.specs.Sound.{is_sound};
ghost use Rattle.image_maker.specs.Size.{limit_of};
ghost use Rattle.image_maker.specs.Written.{is_kept};
ghost use Rattle.image_maker.specs.Whole.{IsReady, cells_in, image_bytes};
ghost use Rattle.image_maker.specs.Made.{IsMade};
ghost use Rattle.image_maker.specs.File.{known_parts};
ghost use Rattle.image_maker.specs.Headers.{part_of};

use crate::fault::MakeFault;
use crate::file::write_file;
use crate::module::Module;
use crate::rows::write_rows;
use crate::streams::{Part, all_parts, pad, write_root, write_tables};
use crate::writer::Writer;
use metadata_tables::Layout;
use std::alloc::{AllocError, Global};

// The bits that say that indexes into all heaps have four bytes.
const HEAP_SIZES: u8 = 7;

/// An image that is read as the module, with its bodies and its further streams: a PE32 file with
/// the sections `.text`, `.rsrc` and `.reloc`, never longer than the module's size. The RVA of a
/// method without a body is 0, and that of a body with a fat header a multiple of four. `Limit`
/// exactly where the module passes a limit. ECMA-335 II.22 to II.25.
pub fn make(alloc: Global, source: &Module) -> Result<Vec<u8>, MakeFault>
    requires { is_sound source.now ≡ true }
    ensures made { IfOk result (λ image. IsMade source.now image.items) }
    ensures limit { (what : ℕ) → result ≡ Err (Limit what) → limit_of source.now ≡ Some what }
    ensures exact { (what : ℕ) → limit_of source.now ≡ Some what → result ≡ Err (Limit what) }
{
    if let Some(what) = source.limit() {
        return Err(MakeFault::Limit { what });
    }
    match write_image(alloc, source) {
        Ok(image) => Ok(image),
        Err(_) => Err(MakeFault::OutOfMemory),
    }
}

// The bytes of the image.
fn write_image(alloc: Global, source: &Module) -> Result<Vec<u8>, AllocError>
    requires sound { is_sound source.now ≡ true }
    requires within { limit_of source.now ≡ None }
    ensures { IfOk result (λ image. (list_all is_kept (cells_in source.now) ≡ true)
        × (image.items ≡ image_bytes source.now)) }
{
    let layout = Layout {
        rows_at: 0,
        heap_sizes: HEAP_SIZES,
        counts: source.counts(),
    };
    let mut written = write_rows(alloc, source, layout);
    if written.failed {
        return Err(AllocError);
    }
    pad(&mut written.strings)?;
    pad(&mut written.blobs)?;
    write_parts(alloc, source, &written)
}

// The bytes of the image, where the rows and the bodies are written.
fn write_parts(alloc: Global, source: &Module, written: &Writer) -> Result<Vec<u8>, AllocError>
    requires sound { is_sound source.now ≡ true }
    requires within { limit_of source.now ≡ None }
    requires ready { IsReady source.now written.now }
    ensures { IfOk result (λ image. image.items ≡ image_bytes source.now) }
{
    let tables = write_tables(alloc, &written.layout.counts, &written.rows)?;
    let parts = parts_of(alloc, source, written, &tables)?;
    let root = write_root(alloc, &parts)?;
    write_file(alloc, &written.bodies, &root)
}

// The streams of the image, whose stream of tables is written.
fn parts_of<'a>(
    alloc: Global,
    source: &'a Module,
    written: &'a Writer,
    tables: &'a [u8],
) -> Result<Vec<Part<'a>>, AllocError>
    ensures { IfOk result (λ parts. map part_of parts.items ≡ known_parts tables.now
        written.now.strings.items source.now.user_strings source.now.guids
        written.now.blobs.items ++ source.now.streams) }
{
    let known = [
        Part(b"#~", tables),
        Part(b"#Strings", &written.strings),
        Part(b"#US", source.user_strings.items()),
        Part(b"#GUID", source.guids.items()),
        Part(b"#Blob", &written.blobs),
    ];
    all_parts(alloc, &known, source.streams.items())
}
