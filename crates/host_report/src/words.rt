// Fields that are words: what stands up to the next space. Each call gives a value, and what stands
// behind that space. What it was given may still be spelled otherwise: a whole line is compared
// with its one spelling.
ghost use Rattle.std.specs.Prelude.{◌≡◌, ◌<◌, ◌≤◌, ◌==◌, length, IfOk};
ghost use Rattle.std.specs.List.{position, position_or_len};
ghost use Rattle.host_report.specs.Reading.{Reads};
ghost use Rattle.std.specs.Int.{w32, w64};
ghost use Rattle.host_report.specs.FieldReading.{cut_read, digit_read, four_digits_read, int_read, long_read};
ghost use Rattle.host_report.specs.FieldReading.{name_read, number_read, parsed, part_read, signed_parsed};
ghost use Rattle.host_report.specs.FieldReading.{token_of, token_read, two_digits, version_of, version_read};
ghost use Rattle.host_report.specs.FieldReading.{word_read};

use crate::unread::Unread;
use assembly_name::Version;
use cli_words::{Name, NameFault};
use std::alloc::Global;
use std::str;

/// What stands before the first such byte, and behind it.
pub(crate) fn cut(rest: &[u8], byte: u8) -> (&[u8], &[u8])
    ensures front { result.0.now ≡ (cut_read byte rest.now).0 }
    ensures back { result.1.now ≡ (cut_read byte rest.now).1 }
    ensures shorter { 0 < length rest.now → length result.1.now < length rest.now }
{
    let at = place_of(rest, byte);
    let (front, back) = rest.split_at(at);
    match back {
        [_, after @ ..] => (front, after),
        [] => (front, back),
    }
}

// How many bytes stand before the first such one.
fn place_of(rest: &[u8], byte: u8) -> usize
    ensures place { result ≡ position_or_len (λ other. other == byte) rest.now }
    ensures within { result ≤ length rest.now }
{
    first_such(rest, byte).unwrap_or(rest.len())
}

fn first_such(rest: &[u8], byte: u8) -> Option<usize>
    ensures { result ≡ position (λ other. other == byte) rest.now }
{
    rest.iter().position(|other| *other == byte)
}

/// What stands before the first space, and behind it.
pub(crate) fn word(rest: &[u8]) -> (&[u8], &[u8])
    ensures front { result.0.now ≡ (word_read rest.now).0 }
    ensures back { result.1.now ≡ (word_read rest.now).1 }
    ensures shorter { 0 < length rest.now → length result.1.now < length rest.now }
{
    cut(rest, b' ')
}

/// The number that digits tell, maybe after a plus.
pub(crate) fn number_of(digits: &[u8]) -> Result<u32, Unread>
    ensures { Reads (λ x. x) result (parsed 32 digits.now) }
{
    let Ok(text) = str::from_utf8(digits) else {
        return Err(Unread::Differs);
    };
    match text.parse::<u32>() {
        Ok(number) => Ok(number),
        Err(_) => Err(Unread::Differs),
    }
}

pub(crate) fn number(rest: &[u8]) -> Result<(u32, &[u8]), Unread>
    ensures read { Reads (λ x. (x.0, x.1.now)) result (number_read rest.now) }
    ensures shorter { IfOk result (λ x. 0 < length rest.now → length x.1.now < length rest.now) }
{
    let (digits, rest) = word(rest);
    Ok((number_of(digits)?, rest))
}

// The number that digits tell, maybe after a sign.
fn int_of(digits: &[u8]) -> Result<i32, Unread>
    ensures { Reads (λ x. x) result (signed_parsed w32 digits.now) }
{
    let Ok(text) = str::from_utf8(digits) else {
        return Err(Unread::Differs);
    };
    match text.parse::<i32>() {
        Ok(number) => Ok(number),
        Err(_) => Err(Unread::Differs),
    }
}

pub(crate) fn int(rest: &[u8]) -> Result<(i32, &[u8]), Unread>
    ensures { Reads (λ x. (x.0, x.1.now)) result (int_read rest.now) }
{
    let (digits, rest) = word(rest);
    Ok((int_of(digits)?, rest))
}

// The number that digits tell, maybe after a sign.
fn long_of(digits: &[u8]) -> Result<i64, Unread>
    ensures { Reads (λ x. x) result (signed_parsed w64 digits.now) }
{
    let Ok(text) = str::from_utf8(digits) else {
        return Err(Unread::Differs);
    };
    match text.parse::<i64>() {
        Ok(number) => Ok(number),
        Err(_) => Err(Unread::Differs),
    }
}

pub(crate) fn long(rest: &[u8]) -> Result<(i64, &[u8]), Unread>
    ensures { Reads (λ x. (x.0, x.1.now)) result (long_read rest.now) }
{
    let (digits, rest) = word(rest);
    Ok((long_of(digits)?, rest))
}

pub(crate) fn name(alloc: Global, rest: &[u8]) -> Result<(Name, &[u8]), Unread>
    ensures { Reads (λ x. (x.0, x.1.now)) result (name_read rest.now) }
{
    let (bytes, rest) = word(rest);
    match Name::new(alloc, bytes) {
        Ok(name) => Ok((name, rest)),
        Err(NameFault::Bad) => Err(Unread::Differs),
        Err(NameFault::OutOfMemory) => Err(Unread::OutOfMemory),
    }
}

pub(crate) fn version(rest: &[u8]) -> Result<(Version, &[u8]), Unread>
    ensures { Reads (λ x. (x.0, x.1.now)) result (version_read rest.now) }
{
    let (text, rest) = word(rest);
    Ok((version_of(text)?, rest))
}

// The version that a text begins with.
fn version_of(text: &[u8]) -> Result<Version, Unread>
    ensures { Reads (λ x. x) result (version_of text.now) }
{
    let (major, text) = part(text)?;
    let (minor, text) = part(text)?;
    let (build, text) = part(text)?;
    let (revision, _) = part(text)?;
    Ok(Version {
        major,
        minor,
        build,
        revision,
    })
}

// A part of a version, which a dot ends.
fn part(rest: &[u8]) -> Result<(u16, &[u8]), Unread>
    ensures { Reads (λ x. (x.0, x.1.now)) result (part_read rest.now) }
{
    let (digits, rest) = cut(rest, b'.');
    Ok((part_of(digits)?, rest))
}

fn part_of(digits: &[u8]) -> Result<u16, Unread>
    ensures { Reads (λ x. x) result (parsed 16 digits.now) }
{
    let Ok(text) = str::from_utf8(digits) else {
        return Err(Unread::Differs);
    };
    match text.parse::<u16>() {
        Ok(number) => Ok(number),
        Err(_) => Err(Unread::Differs),
    }
}

/// A token in eight hexadecimal digits.
pub(crate) fn token(rest: &[u8]) -> Result<(u32, &[u8]), Unread>
    ensures { Reads (λ x. (x.0, x.1.now)) result (token_read rest.now) }
{
    let (digits, rest) = word(rest);
    Ok((token_of(digits)?, rest))
}

fn token_of(digits: &[u8]) -> Result<u32, Unread>
    ensures { Reads (λ x. x) result (token_of digits.now) }
{
    match digits {
        [a, b, c, d, e, f, g, h] => {
            let high = four_digits(*a, *b, *c, *d)?;
            let low = four_digits(*e, *f, *g, *h)?;
            Ok(high as u32 * 0x1_0000 + low as u32)
        }
        _ => Err(Unread::Differs),
    }
}

/// The number of four hexadecimal digits.
pub(crate) fn four_digits(a: u8, b: u8, c: u8, d: u8) -> Result<u16, Unread>
    ensures { Reads (λ x. x) result (four_digits_read a b c d) }
{
    let high = two_digits(a, b)?;
    let low = two_digits(c, d)?;
    Ok(high as u16 * 256 + low as u16)
}

fn two_digits(a: u8, b: u8) -> Result<u8, Unread>
    ensures { Reads (λ x. x) result (two_digits a b) }
{
    let high = digit(a)?;
    let low = digit(b)?;
    Ok(high * 16 + low)
}

fn digit(byte: u8) -> Result<u8, Unread>
    ensures read { Reads (λ x. x) result (digit_read byte) }
    ensures small { IfOk result (λ value. value < 16) }
{
    match byte {
        b'0'..=b'9' => Ok(byte - b'0'),
        b'A'..=b'F' => Ok(byte - b'A' + 10),
        _ => Err(Unread::Differs),
    }
}
