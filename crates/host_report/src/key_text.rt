// The texts of keys. What has to be put behind a type is found by going back over the parts before it,
// so that no memory is taken, however deep a key is.
ghost use Rattle.std.specs.Prelude.{◌≡◌, ℕ, ◌+◌, ◌-◌, ◌<◌, ◌≤◌, ◌++◌, ◌==◌, if◌then◌else◌, List};
ghost use Rattle.std.specs.Prelude.{[], ◌∷◌, length, take, reverse, codes, decimal};
ghost use Rattle.signatures.specs.declared.key.KeyPart.{KeyPart};
ghost use Rattle.signatures.specs.Keys.{key_arity};
ghost use Rattle.host_report.specs.Fields.{spaced};
ghost use Rattle.host_report.specs.KeyText.{key_text, primitive_text};
ghost use Rattle.host_report.specs.KeySteps.{comma, ending, ending_of, endings, opening, texts_from};
ghost use Rattle.host_report.specs.Line.{Puts};

use crate::line::{Line, put, put_number};
use plug_io::Sink;
use signatures::{KeyPart, Prim, TypeKey};

/// Puts a key, with the space before it.
pub(crate) fn put_key<S: Sink>(line: &mut Line, out: &mut S, key: &TypeKey)
    ensures { Puts S.written S.faults line.old out.old line.new out.new
        (spaced (key_text key.now)) }
{
    put(line, out, b" ");
    put_parts(line, out, key.key().parts());
}

fn put_parts<S: Sink>(line: &mut Line, out: &mut S, parts: &[KeyPart])
    ensures { Puts S.written S.faults line.old out.old line.new out.new (texts_from [] parts.now) }
{
    for i in 0..parts.len() {
        put_part(line, out, &parts[..i], parts[i]);
        put_comma(line, out, parts[i], parts.len() - i - 1);
    }
}

// Puts a comma between arguments, where so many parts follow.
fn put_comma<S: Sink>(line: &mut Line, out: &mut S, part: KeyPart, following: usize)
    ensures { (parts : List KeyPart) → following ≡ length parts →
        Puts S.written S.faults line.old out.old line.new out.new (comma part parts) }
{
    if part.arity() == 0 && following > 0 {
        put(line, out, b",");
    }
}

// Puts what a part begins with, and where it is made of nothing what ends with it.
fn put_part<S: Sink>(line: &mut Line, out: &mut S, before: &[KeyPart], part: KeyPart)
    ensures { Puts S.written S.faults line.old out.old line.new out.new
        (opening part ++ ending (reverse before.now) part) }
{
    put_opening(line, out, part);
    if part.arity() > 0 {
        return;
    }
    put_endings(line, out, before);
}

fn put_opening<S: Sink>(line: &mut Line, out: &mut S, part: KeyPart)
    ensures { Puts S.written S.faults line.old out.old line.new out.new (opening part) }
{
    match part {
        KeyPart::Prim(primitive) => put(line, out, primitive_text(primitive)),
        KeyPart::Class {
            assembly,
            row,
            args,
        } => put_class(line, out, assembly, row, args),
        KeyPart::Vector => {}
    }
}

fn put_class<S: Sink>(line: &mut Line, out: &mut S, assembly: u32, row: u32, args: u32)
    ensures { Puts S.written S.faults line.old out.old line.new out.new
        (opening (KeyPart.Class assembly row args)) }
{
    put(line, out, b"[");
    put_number(line, out, assembly as u64);
    put(line, out, b"]");
    put_number(line, out, row as u64);
    put(line, out, arguments_mark(args));
}

// What stands before the arguments of a class.
fn arguments_mark(args: u32) -> &'static [u8]
    ensures { result.now ≡ (if args == 0 then [] else codes "<") }
{
    if args == 0 { b"" } else { b"<" }
}

// Puts what stands behind the types that end with the part after these ones, the inner ones first.
fn put_endings<S: Sink>(line: &mut Line, out: &mut S, before: &[KeyPart])
    ensures { Puts S.written S.faults line.old out.old line.new out.new
        (endings 1 (reverse before.now)) }
{
    let mut types = 1;
    let mut i = before.len();
    while i > 0 {
        let part = before[i - 1];
        let arity = part.arity() as usize;
        if arity > types {
            return;
        }
        put_ending(line, out, part, types);
        types = types - arity + 1;
        i -= 1;
    }
}

// Puts what stands behind the type that the part begins, if it is made of so many.
fn put_ending<S: Sink>(line: &mut Line, out: &mut S, part: KeyPart, types: usize)
    ensures { Puts S.written S.faults line.old out.old line.new out.new
        (if key_arity part == types then ending_of part else []) }
{
    if part.arity() as usize == types {
        put(line, out, ending_of(part));
    }
}

pub(crate) fn primitive_text(primitive: Prim) -> &'static [u8]
    ensures { result.now ≡ primitive_text primitive }
{
    match primitive {
        Prim::Bool => b"bool",
        Prim::Char => b"char",
        Prim::Int8 => b"int8",
        Prim::UInt8 => b"uint8",
        Prim::Int16 => b"int16",
        Prim::UInt16 => b"uint16",
        Prim::Int32 => b"int32",
        Prim::UInt32 => b"uint32",
        Prim::Int64 => b"int64",
        Prim::UInt64 => b"uint64",
        Prim::Native => b"native",
        Prim::UNative => b"unative",
        Prim::Text => b"string",
        Prim::Object => b"object",
    }
}

fn ending_of(part: KeyPart) -> &'static [u8]
    ensures { result.now ≡ ending_of part }
{
    match part {
        KeyPart::Prim(_) => b"",
        KeyPart::Class { .. } => b">",
        KeyPart::Vector => b"[]",
    }
}
