// Texts in quotes, read.
ghost use Rattle.std.specs.Prelude.{◌≡◌, ◌<◌, ◌≤◌, ◌+◌, ◌++◌, [], ◌∷◌, drop, length, Some, IfOk};
ghost use Rattle.std.specs.Char.Escape.{encode_utf16};
ghost use Rattle.host_report.specs.Reading.{Reads};
ghost use Rattle.host_report.specs.TextReading.{escape_read, escaped_unit, first_read, four_read};
ghost use Rattle.host_report.specs.TextReading.{units_read, within_read};

use crate::unread::Unread;
use crate::words::four_digits;
use cli_words::Units;
use std::alloc::Global;

/// The units of a text in quotes, and what stands behind the space that follows it.
pub(crate) fn units(alloc: Global, rest: &[u8]) -> Result<(Vec<u16>, &[u8]), Unread>
    ensures { Reads (λ x. (x.0.items, x.1.now)) result (units_read rest.now) }
{
    match rest {
        [b'"', after @ ..] => within(alloc, after),
        _ => Err(Unread::Differs),
    }
}

/// The text that stands in quotes, and what stands behind the space that follows it.
pub(crate) fn text(alloc: Global, rest: &[u8]) -> Result<(Units, &[u8]), Unread>
    ensures { Reads (λ x. (x.0, x.1.now)) result (units_read rest.now) }
{
    let (units, rest) = units(alloc, rest)?;
    Ok((Units::of(alloc, units)?, rest))
}

// The units up to the quote that ends them, and what stands behind the space that follows it.
fn within(alloc: Global, text: &[u8]) -> Result<(Vec<u16>, &[u8]), Unread>
    ensures { Reads (λ x. (x.0.items, x.1.now)) result (within_read 0 text.now) }
{
    let mut units = Vec::new(alloc);
    let mut rest = text;
    while !rest.is_empty() {
        if rest[0] == b'"' {
            return Ok((units, closed(rest)));
        }
        let (code, length) = first(rest)?;
        push_code(&mut units, code)?;
        rest = &rest[length..];
    }
    Err(Unread::Differs)
}

// What stands behind a quote and the space that follows it.
fn closed(rest: &[u8]) -> &[u8]
    ensures { result.now ≡ drop 2 rest.now }
{
    match rest {
        [_, _, after @ ..] => after,
        _ => &[],
    }
}

// The character or the lone unit that stands first, and how many bytes spell it.
fn first(rest: &[u8]) -> Result<(u32, usize), Unread>
    ensures read { Reads (λ x. x) result (first_read rest.now) }
    ensures within { IfOk result (λ x. (x.0 < 0x11_0000) × (0 < x.1) × (x.1 ≤ length rest.now)) }
{
    match rest {
        [b'\\', after @ ..] => escape(after),
        [a @ 0..0x80, ..] => Ok((*a as u32, 1)),
        [a @ 0x80..0xe0, b, ..] => Ok(((*a % 32) as u32 * 64 + (*b % 64) as u32, 2)),
        [a @ 0xe0..0xf0, b, c, ..] => {
            let code = (*a % 16) as u32 * 4096 + (*b % 64) as u32 * 64 + (*c % 64) as u32;
            Ok((code, 3))
        }
        [a @ 0xf0..=0xff, b, c, d, ..] => beyond(*a, *b, *c, *d),
        _ => Err(Unread::Differs),
    }
}

// What stands behind a backslash, and how many bytes spell it with that.
fn escape(rest: &[u8]) -> Result<(u32, usize), Unread>
    ensures read { Reads (λ x. x) result (escape_read rest.now) }
    ensures within { IfOk result (λ x. (x.0 < 0x1_0000) × (0 < x.1) × (x.1 ≤ length rest.now + 1)) }
{
    match rest {
        [b'u', a, b, c, d, ..] => Ok((four_digits(*a, *b, *c, *d)? as u32, 6)),
        [byte, ..] => Ok((escaped(*byte)? as u32, 2)),
        [] => Err(Unread::Differs),
    }
}

fn escaped(byte: u8) -> Result<u16, Unread>
    ensures { Reads (λ x. x) result (escaped_unit byte) }
{
    match byte {
        b'"' => Ok(0x22),
        b'\\' => Ok(0x5c),
        b'n' => Ok(0x0a),
        _ => Err(Unread::Differs),
    }
}

// A character of four bytes, which stands beyond the first plane.
fn beyond(a: u8, b: u8, c: u8, d: u8) -> Result<(u32, usize), Unread>
    ensures read { Reads (λ x. x) result (four_read a (b ∷ c ∷ d ∷ [])) }
    ensures within { IfOk result (λ x. (x.0 < 0x11_0000) × (x.1 ≡ 4)) }
{
    let high = (a % 8) as u32 * 64 + (b % 64) as u32;
    let low = (c % 64) as u32 * 64 + (d % 64) as u32;
    let code = high * 4096 + low;
    if !(0x1_0000..0x11_0000).contains(&code) {
        return Err(Unread::Differs);
    }
    Ok((code, 4))
}

// Adds the unit, or the two units of a character beyond the first plane.
fn push_code(units: &mut Vec<u16>, code: u32) -> Result<(), Unread>
    requires { code < 0x11_0000 }
    ensures { Reads (λ _. units.new.items) result (Some (units.old.items ++ encode_utf16 code)) }
{
    if code < 0x1_0000 {
        units.push(code as u16)?;
        return Ok(());
    }
    let over = code - 0x1_0000;
    units.push((0xd800 + over / 0x400) as u16)?;
    units.push((0xdc00 + over % 0x400) as u16)?;
    Ok(())
}
