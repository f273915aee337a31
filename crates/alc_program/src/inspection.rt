//! The inspection of a file that was read as an image: what the image names, or why there is none.
ghost use Rattle.std.specs.Prelude.{◌≡◌, ℕ, ◌≤◌, OnOk, OnErr, decimal};
ghost use Rattle.std.specs.List.{flat_map, range_with_len};
ghost use Rattle.plug_io.specs.Faults.{HasRisen};
ghost use Rattle.plug_io.specs.Sink.{HasAppended};
ghost use Rattle.metadata_tables.specs.Tables as tables;
ghost use Rattle.cli_words.specs.Text.{units_of};
ghost use Rattle.assembly_image.specs.Members.{member_name, members_of};
ghost use Rattle.assembly_image.specs.Module.{count};
ghost use Rattle.assembly_image.specs.Names.{full_name, full_name_within, qualified};
ghost use Rattle.assembly_image.specs.Names.{type_name, type_namespace};
ghost use Rattle.assembly_image.specs.Reading.{module_of};
ghost use Rattle.bind_flow.specs.Readings.{meaning};
ghost use Rattle.alc_program.specs.Inspection as spec;
ghost use Rattle.host_report.specs.Line.{HasStopped, Puts};
ghost use Rattle.host_report.specs.Quote.{units_text, quoted, IsApart};

use crate::images::IMAGE_LIMIT;
use assembly_image::{AssemblyImage, Member};
use assembly_name::Version;
use bind_flow::ImageReading;
use cli_words::CheckCode;
use host_report::{Line, flush, put, put_number, put_quoted, put_quoted_text, put_text};
use metadata_tables::{column, table};
use plug_io::{Failed, Sink};

/// The most enclosers that a full name has.
const MOST_ENCLOSERS: u32 = 16;

/// Writes the inspection of what a file was read as, line by line.
///
/// `Failed` comes only where the sink counted a fault in this call. Of the text it has then taken a
/// proper prefix.
pub fn write_inspection<S: Sink>(
    line: &mut Line,
    reading: &ImageReading,
    out: &mut S,
) -> Result<(), Failed>
    ensures written { let text = spec.inspection_text (meaning reading.now) in
        OnOk result (HasAppended (S.written out.old) (S.written out.new) text) }
    ensures stopped { let text = spec.inspection_text (meaning reading.now) in
        OnErr result (HasStopped (S.written out.old) (S.written out.new) text) }
    ensures failed { OnErr result (HasRisen (S.faults out.old) (S.faults out.new)) }
    ensures faults { S.faults out.old ≤ S.faults out.new }
{
    line.clear();
    put_inspection(line, out, reading);
    flush(line, out);
    if line.has_failed() {
        Err(Failed)
    } else {
        Ok(())
    }
}

fn put_inspection<S: Sink>(line: &mut Line, out: &mut S, reading: &ImageReading)
    ensures { Puts S.written S.faults line.old out.old line.new out.new
        (spec.inspection_text (meaning reading.now)) }
{
    put(line, out, b"inspect 1\n");
    put_reading(line, out, reading);
    put(line, out, b"end\n");
}

fn put_reading<S: Sink>(line: &mut Line, out: &mut S, reading: &ImageReading)
    ensures { Puts S.written S.faults line.old out.old line.new out.new
        (spec.reading_text (meaning reading.now)) }
{
    match reading {
        ImageReading::Absent => put_bad_image(line, out, CheckCode::Absent, 0),
        ImageReading::TooLong => put_bad_image(line, out, CheckCode::TooLong, IMAGE_LIMIT),
        ImageReading::Bad(failed) => put_bad_image(line, out, failed.code, failed.at),
        ImageReading::Good(image) => put_module(line, out, image),
    }
}

fn put_bad_image<S: Sink>(line: &mut Line, out: &mut S, code: CheckCode, at: u32)
    ensures { Puts S.written S.faults line.old out.old line.new out.new
        (spec.bad_image_text code at) }
{
    put(line, out, b"BadImage ");
    put(line, out, code.name().as_bytes());
    put(line, out, b" ");
    put_number(line, out, at as u64);
    put(line, out, b"\n");
}

fn put_module<S: Sink>(line: &mut Line, out: &mut S, image: &AssemblyImage)
    ensures { Puts S.written S.faults line.old out.old line.new out.new
        (spec.module_text (module_of image.now)) }
{
    put_assembly(line, out, image);
    put_references(line, out, image);
    put_types(line, out, image);
}

fn put_assembly<S: Sink>(line: &mut Line, out: &mut S, image: &AssemblyImage)
    ensures { Puts S.written S.faults line.old out.old line.new out.new
        (spec.assembly_text (module_of image.now)) }
{
    put(line, out, b"assembly ");
    put_quoted(line, out, image.name().units().units());
    put(line, out, b" ");
    put_version(line, out, image.version());
    put(line, out, b"\n");
}

fn put_references<S: Sink>(line: &mut Line, out: &mut S, image: &AssemblyImage)
    ensures { let m = module_of image.now in
        Puts S.written S.faults line.old out.old line.new out.new
        (flat_map (spec.reference_text m) (range_with_len 1 (count m tables.assembly_ref))) }
{
    for before in 0..image.refs() {
        put_reference(line, out, image, before + 1);
    }
}

fn put_reference<S: Sink>(line: &mut Line, out: &mut S, image: &AssemblyImage, row: u32)
    ensures { Puts S.written S.faults line.old out.old line.new out.new
        (spec.reference_text (module_of image.now) row) }
{
    put(line, out, b"ref ");
    put_quoted_text(line, out, image.reference_name(row));
    put(line, out, b" ");
    put_version(line, out, image.reference_version(row));
    put(line, out, b"\n");
}

fn put_version<S: Sink>(line: &mut Line, out: &mut S, version: Version)
    ensures { Puts S.written S.faults line.old out.old line.new out.new
        (spec.version_text version) }
{
    put_number(line, out, version.major as u64);
    put(line, out, b".");
    put_number(line, out, version.minor as u64);
    put(line, out, b".");
    put_number(line, out, version.build as u64);
    put(line, out, b".");
    put_number(line, out, version.revision as u64);
}

fn put_types<S: Sink>(line: &mut Line, out: &mut S, image: &AssemblyImage)
    ensures { let m = module_of image.now in
        Puts S.written S.faults line.old out.old line.new out.new
        (flat_map (spec.type_text m) (range_with_len 1 (count m tables.type_def))) }
{
    for before in 0..image.types() {
        put_type(line, out, image, before + 1);
    }
}

fn put_type<S: Sink>(line: &mut Line, out: &mut S, image: &AssemblyImage, row: u32)
    ensures { Puts S.written S.faults line.old out.old line.new out.new
        (spec.type_text (module_of image.now) row) }
{
    put(line, out, b"type ");
    put_number(line, out, row as u64);
    put(line, out, b" ");
    put_full_name(line, out, image, row);
    put(line, out, b"\n");
    put_members(line, out, image, Member::Field, row);
    put_members(line, out, image, Member::Method, row);
}

/// Puts the full name of a type in quotes.
fn put_full_name<S: Sink>(line: &mut Line, out: &mut S, image: &AssemblyImage, row: u32)
    ensures { Puts S.written S.faults line.old out.old line.new out.new
        (quoted (full_name (module_of image.now) row)) }
{
    put(line, out, b"\"");
    put_name_within(line, out, image, MOST_ENCLOSERS, row);
    put(line, out, b"\"");
}

/// Puts the full name of a type, of whose enclosers at most so many are named.
fn put_name_within<S: Sink>(
    line: &mut Line,
    out: &mut S,
    image: &AssemblyImage,
    most: u32,
    row: u32,
)
    ensures puts { Puts S.written S.faults line.old out.old line.new out.new
        (units_text (full_name_within (module_of image.now) most row)) }
    ensures apart { IsApart (full_name_within (module_of image.now) most row) }
{
    match image.encloser(row) {
        Some(outer) if most > 0 => {
            put_name_within(line, out, image, most - 1, outer);
            put(line, out, b"/");
            put_text(
                line,
                out,
                image.text(table::TYPE_DEF, row, column::TYPE_DEF_NAME),
            );
        }
        _ => put_qualified(line, out, image, row),
    }
}

/// Puts the namespace, a dot and the name of a type, or the name alone.
fn put_qualified<S: Sink>(line: &mut Line, out: &mut S, image: &AssemblyImage, row: u32)
    ensures puts { let m = module_of image.now in
        Puts S.written S.faults line.old out.old line.new out.new
        (units_text (qualified (type_namespace m row) (type_name m row))) }
    ensures apart { let m = module_of image.now in
        IsApart (qualified (type_namespace m row) (type_name m row)) }
{
    let namespace = image.text(table::TYPE_DEF, row, column::TYPE_DEF_NAMESPACE);
    let name = image.text(table::TYPE_DEF, row, column::TYPE_DEF_NAME);
    if namespace.is_empty() {
        put_text(line, out, name);
    } else {
        put_text(line, out, namespace);
        put(line, out, b".");
        put_text(line, out, name);
    }
}

fn put_members<S: Sink>(
    line: &mut Line,
    out: &mut S,
    image: &AssemblyImage,
    member: Member,
    row: u32,
)
    ensures { let m = module_of image.now in
        Puts S.written S.faults line.old out.old line.new out.new
        (flat_map (spec.member_text m member) (members_of m member row)) }
{
    let rows = image.members(member, row);
    let (first, after) = (rows.start, rows.end);
    for n in first..after {
        put_member(line, out, image, member, n);
    }
}

fn put_member<S: Sink>(
    line: &mut Line,
    out: &mut S,
    image: &AssemblyImage,
    member: Member,
    row: u32,
)
    ensures { Puts S.written S.faults line.old out.old line.new out.new
        (spec.member_text (module_of image.now) member row) }
{
    put(line, out, member_word(member));
    put_number(line, out, row as u64);
    put(line, out, b" ");
    put_quoted_text(line, out, member_name(image, member, row));
    put(line, out, b"\n");
}

fn member_word(member: Member) -> &'static [u8]
    ensures { result.now ≡ spec.member_word member }
{
    match member {
        Member::Field => b"field ",
        Member::Method => b"method ",
    }
}

fn member_name(image: &AssemblyImage, member: Member, row: u32) -> &str
    ensures { units_of result.now ≡ member_name (module_of image.now) member row }
{
    match member {
        Member::Field => image.text(table::FIELD, row, column::FIELD_NAME),
        Member::Method => image.text(table::METHOD_DEF, row, column::METHOD_DEF_NAME),
    }
}
