// The fields of a line, each with the space before it.
ghost use Rattle.std.specs.Prelude.{◌≡◌, ℕ, ◌/◌, ◌%◌, ◌<◌, ◌++◌, codes, decimal};
ghost use Rattle.std.specs.Fmt.{signed_decimal};
ghost use Rattle.std.specs.Int.{w32, w64};
ghost use Rattle.std.specs.List.{flat_map};
ghost use Rattle.host_report.specs.Fields.{Field, byte_digits, field_text, spaced};
ghost use Rattle.host_report.specs.Fields.{token_text, version_text};
ghost use Rattle.host_report.specs.Line.{Puts};

use crate::line::{Line, put, put_number};
use crate::quote::{digit, put_quoted};
use assembly_name::{SimpleName, Version};
use cli_words::Name;
use itoa::Buffer;
use plug_io::Sink;

pub(crate) fn put_word<S: Sink>(line: &mut Line, out: &mut S, word: &[u8])
    ensures { Puts S.written S.faults line.old out.old line.new out.new (spaced word.now) }
{
    put(line, out, b" ");
    put(line, out, word);
}

pub(crate) fn put_decimal<S: Sink>(line: &mut Line, out: &mut S, number: u32)
    ensures { Puts S.written S.faults line.old out.old line.new out.new
        (spaced (decimal number)) }
{
    put(line, out, b" ");
    put_number(line, out, number as u64);
}

pub(crate) fn put_numbers<S: Sink>(line: &mut Line, out: &mut S, numbers: &[u32])
    ensures { Puts S.written S.faults line.old out.old line.new out.new
        (flat_map (λ number. spaced (decimal number)) numbers.now) }
{
    for number in numbers {
        put_decimal(line, out, *number);
    }
}

pub(crate) fn put_int<S: Sink>(line: &mut Line, out: &mut S, number: i32)
    ensures { Puts S.written S.faults line.old out.old line.new out.new
        (spaced (signed_decimal number)) }
{
    let mut digits = Buffer::new();
    put_word(line, out, digits.format(number).as_bytes());
}

pub(crate) fn put_long<S: Sink>(line: &mut Line, out: &mut S, number: i64)
    ensures { Puts S.written S.faults line.old out.old line.new out.new
        (spaced (signed_decimal number)) }
{
    let mut digits = Buffer::new();
    put_word(line, out, digits.format(number).as_bytes());
}

pub(crate) fn put_name<S: Sink>(line: &mut Line, out: &mut S, name: &Name)
    ensures { Puts S.written S.faults line.old out.old line.new out.new (spaced name.now) }
{
    put_word(line, out, name.bytes());
}

pub(crate) fn put_string<S: Sink>(line: &mut Line, out: &mut S, units: &[u16])
    ensures { Puts S.written S.faults line.old out.old line.new out.new
        (field_text (Field.Quoted units.now)) }
{
    put(line, out, b" ");
    put_quoted(line, out, units);
}

pub(crate) fn put_simple_name<S: Sink>(line: &mut Line, out: &mut S, name: &SimpleName)
    ensures { Puts S.written S.faults line.old out.old line.new out.new
        (field_text (Field.Quoted name.now)) }
{
    put_string(line, out, name.units().units());
}

pub(crate) fn put_version<S: Sink>(line: &mut Line, out: &mut S, version: Version)
    ensures { Puts S.written S.faults line.old out.old line.new out.new
        (spaced (version_text version)) }
{
    put_decimal(line, out, version.major as u32);
    put(line, out, b".");
    put_number(line, out, version.minor as u64);
    put(line, out, b".");
    put_number(line, out, version.build as u64);
    put(line, out, b".");
    put_number(line, out, version.revision as u64);
}

pub(crate) fn put_token<S: Sink>(line: &mut Line, out: &mut S, token: u32)
    ensures { Puts S.written S.faults line.old out.old line.new out.new
        (spaced (token_text token)) }
{
    put(line, out, b" ");
    put_byte(line, out, token >> 24);
    put_byte(line, out, (token >> 16) % 256);
    put_byte(line, out, (token >> 8) % 256);
    put_byte(line, out, token % 256);
}

// Two upper-case hexadecimal digits.
fn put_byte<S: Sink>(line: &mut Line, out: &mut S, byte: u32)
    requires { byte < 256 }
    ensures { Puts S.written S.faults line.old out.old line.new out.new (byte_digits byte) }
{
    put(line, out, &[digit(byte / 16), digit(byte % 16)]);
}
