// The texts of values.
ghost use Rattle.std.specs.Prelude.{◌≡◌, ℕ, List, [], ◌∷◌, ◌++◌, codes};
ghost use Rattle.std.specs.Int.{w32, w64};
ghost use Rattle.host_report.specs.Fields.{Field, fields_text};
ghost use Rattle.host_report.specs.Table.{text_value, units_value};
ghost use Rattle.host_report.specs.Line.{Puts};

use crate::field::{put_int, put_long, put_string, put_word};
use crate::line::Line;
use cli_words::Units;
use host_events::{Datum, Text};
use plug_io::Sink;

/// Puts a value whose text is shared, with the space before it.
pub(crate) fn put_units_value<S: Sink>(line: &mut Line, out: &mut S, value: &Datum<Units>)
    ensures { Puts S.written S.faults line.old out.old line.new out.new
        (fields_text (units_value value.now)) }
{
    match value {
        Datum::I4(number) => put_int_value(line, out, *number),
        Datum::I8(number) => put_long_value(line, out, b"i8", *number),
        Datum::N(number) => put_long_value(line, out, b"n", *number),
        Datum::S(text) => put_string_value(line, out, text.units()),
        Datum::Null => put_word(line, out, b"null"),
        Datum::Ref => put_word(line, out, b"ref"),
    }
}

/// Puts a value whose text is one of a reply, with the space before it.
pub(crate) fn put_text_value<S: Sink>(line: &mut Line, out: &mut S, value: &Datum<Text>)
    ensures { Puts S.written S.faults line.old out.old line.new out.new
        (fields_text (text_value value.now)) }
{
    match value {
        Datum::I4(number) => put_int_value(line, out, *number),
        Datum::I8(number) => put_long_value(line, out, b"i8", *number),
        Datum::N(number) => put_long_value(line, out, b"n", *number),
        Datum::S(text) => put_string_value(line, out, text.units()),
        Datum::Null => put_word(line, out, b"null"),
        Datum::Ref => put_word(line, out, b"ref"),
    }
}

fn put_int_value<S: Sink>(line: &mut Line, out: &mut S, number: i32)
    ensures { Puts S.written S.faults line.old out.old line.new out.new
        (fields_text (Field.Word (codes "i4") ∷ Field.Signed w32 number ∷ [])) }
{
    put_word(line, out, b"i4");
    put_int(line, out, number);
}

fn put_long_value<S: Sink>(line: &mut Line, out: &mut S, word: &[u8], number: i64)
    ensures { Puts S.written S.faults line.old out.old line.new out.new
        (fields_text (Field.Word word.now ∷ Field.Signed w64 number ∷ [])) }
{
    put_word(line, out, word);
    put_long(line, out, number);
}

fn put_string_value<S: Sink>(line: &mut Line, out: &mut S, units: &[u16])
    ensures { Puts S.written S.faults line.old out.old line.new out.new
        (fields_text (Field.Word (codes "s") ∷ Field.Quoted units.now ∷ [])) }
{
    put_word(line, out, b"s");
    put_string(line, out, units);
}
