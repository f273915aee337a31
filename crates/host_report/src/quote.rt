// Texts in quotes.
ghost use Rattle.std.specs.Prelude.{◌≡◌, ℕ, ◌+◌, ◌<◌, ◌≤◌, List, length, take, encode_utf8, true};
ghost use Rattle.std.specs.Prelude.{unwrap_or};
ghost use Rattle.std.specs.List.{flat_map, position};
ghost use Rattle.std.specs.Char.{IsScalar};
ghost use Rattle.std.specs.Fmt.{digit_glyph};
ghost use Rattle.std.specs.Char.Utf16.{surrogate_pair_char};
ghost use Rattle.host_report.specs.Line.{Puts};
ghost use Rattle.host_report.specs.Quote.{is_pair, is_surrogate, escape_text, unit_text};
ghost use Rattle.host_report.specs.Quote.{units_text, first_text, first_length, quoted, IsApart};
ghost use Rattle.host_report.specs.Quote.{is_escaped, byte_text};
ghost use Rattle.cli_words.specs.Text.{units_of};

use crate::line::{Line, put};
use plug_io::Sink;

/// Puts a text of UTF-16 units in quotes.
pub fn put_quoted<S: Sink>(line: &mut Line, out: &mut S, units: &[u16])
    ensures { Puts S.written S.faults line.old out.old line.new out.new (quoted units.now) }
{
    put(line, out, b"\"");
    put_units(line, out, units);
    put(line, out, b"\"");
}

/// Puts a text in quotes.
pub fn put_quoted_text<S: Sink>(line: &mut Line, out: &mut S, text: &str)
    ensures { Puts S.written S.faults line.old out.old line.new out.new
        (quoted (units_of text.now)) }
{
    put(line, out, b"\"");
    put_text(line, out, text);
    put(line, out, b"\"");
}

/// Puts a text as it stands within quotes.
pub fn put_text<S: Sink>(line: &mut Line, out: &mut S, text: &str)
    ensures puts { Puts S.written S.faults line.old out.old line.new out.new
        (units_text (units_of text.now)) }
    ensures apart { IsApart (units_of text.now) }
{
    put_bytes(line, out, text.as_bytes());
}

// Puts the bytes of a text. What is escaped is ASCII, so each run of other bytes is put at once.
fn put_bytes<S: Sink>(line: &mut Line, out: &mut S, bytes: &[u8])
    ensures { Puts S.written S.faults line.old out.old line.new out.new
        (flat_map byte_text bytes.now) }
{
    let mut rest = bytes;
    while !rest.is_empty() {
        let taken = put_front(line, out, rest);
        rest = &rest[taken..];
    }
}

// Puts the bytes before the first that is escaped, or that one, and gives how many were put.
fn put_front<S: Sink>(line: &mut Line, out: &mut S, bytes: &[u8]) -> usize
    requires { 0 < length bytes.now }
    ensures puts { Puts S.written S.faults line.old out.old line.new out.new
        (flat_map byte_text (take result bytes.now)) }
    ensures within { (0 < result) × (result ≤ length bytes.now) }
{
    let plain = plain_len(bytes);
    if plain == 0 {
        put_unit(line, out, u16::from(bytes[0]));
        return 1;
    }
    put(line, out, &bytes[..plain]);
    plain
}

// How many bytes stand before the first that is escaped.
fn plain_len(bytes: &[u8]) -> usize
    ensures { result ≡ unwrap_or (position is_escaped bytes.now) (length bytes.now) }
{
    first_escaped(bytes).unwrap_or(bytes.len())
}

fn first_escaped(bytes: &[u8]) -> Option<usize>
    ensures { result ≡ position is_escaped bytes.now }
{
    bytes.iter().position(|byte| is_escaped(*byte))
}

fn is_escaped(byte: u8) -> bool
    ensures { result ≡ is_escaped byte }
{
    matches!(byte, 0..0x20 | 0x22 | 0x5c | 0x7f)
}

fn put_units<S: Sink>(line: &mut Line, out: &mut S, units: &[u16])
    ensures { Puts S.written S.faults line.old out.old line.new out.new (units_text units.now) }
{
    let mut rest = units;
    while !rest.is_empty() {
        let taken = put_first(line, out, rest);
        rest = &rest[taken..];
    }
}

// Puts the first character, and gives how many units spell it.
fn put_first<S: Sink>(line: &mut Line, out: &mut S, units: &[u16]) -> usize
    requires { 0 < length units.now }
    ensures puts { Puts S.written S.faults line.old out.old line.new out.new
        (first_text units.now) }
    ensures taken { result ≡ first_length units.now }
    ensures within { (0 < result) × (result ≤ length units.now) }
{
    match units {
        [high, low, ..] if is_pair(*high, *low) => {
            let code = 0x1_0000 + (*high as u32 - 0xd800) * 0x400 + (*low as u32 - 0xdc00);
            put_char(line, out, code);
            2
        }
        _ => {
            put_unit(line, out, units[0]);
            1
        }
    }
}

fn put_unit<S: Sink>(line: &mut Line, out: &mut S, unit: u16)
    ensures { Puts S.written S.faults line.old out.old line.new out.new (unit_text unit) }
{
    match unit {
        0x22 => put(line, out, b"\\\""),
        0x5c => put(line, out, b"\\\\"),
        0x0a => put(line, out, b"\\n"),
        0..0x20 | 0x7f | 0xd800..0xe000 => put_escape(line, out, unit),
        _ => put_char(line, out, unit as u32),
    }
}

// `\u` and four hexadecimal digits.
fn put_escape<S: Sink>(line: &mut Line, out: &mut S, unit: u16)
    ensures { Puts S.written S.faults line.old out.old line.new out.new (escape_text unit) }
{
    let unit = unit as u32;
    let text = [
        b'\\',
        b'u',
        digit(unit / 4096),
        digit(unit / 256 % 16),
        digit(unit / 16 % 16),
        digit(unit % 16),
    ];
    put(line, out, &text);
}

/// An upper-case hexadecimal digit.
pub(crate) fn digit(value: u32) -> u8
    requires { value < 16 }
    ensures { result ≡ digit_glyph true value }
{
    if value < 10 {
        b'0' + value as u8
    } else {
        b'A' + (value as u8 - 10)
    }
}

fn put_char<S: Sink>(line: &mut Line, out: &mut S, code: u32)
    requires { IsScalar code }
    ensures { Puts S.written S.faults line.old out.old line.new out.new (encode_utf8 code) }
{
    let character = char::from_u32(code).unwrap();
    let mut bytes = [0; 4];
    put(line, out, character.encode_utf8(&mut bytes).as_bytes());
}

fn is_pair(high: u16, low: u16) -> bool
    ensures { result ≡ is_pair high low }
{
    matches!(high, 0xd800..0xdc00) && matches!(low, 0xdc00..0xe000)
}
