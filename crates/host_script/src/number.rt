//! Numbers of scripts: versions and arguments.
ghost use Rattle.std.specs.Prelude.{◌≡◌, ◌-◌, ◌^◌, ◌≤◌, ◌∷◌, [], ◌==◌, min, true, MatchOption};
ghost use Rattle.std.specs.Char.{is_ascii_digit};
ghost use Rattle.std.specs.List.{list_all, slice_split};
ghost use Rattle.host_script.specs.Number.{are_digits, digits_value, part_of, version_of};
ghost use Rattle.host_script.specs.Number.{unsigned_part, is_wide, digits_of, signed, greatest};
ghost use Rattle.host_script.specs.Number.{integer_of, integer};
ghost use Rattle.host_script.specs.Bytes.{begins_with};

use crate::bytes::first_at;
use crate::command::Argument;
use assembly_name::Version;

const MAX_DIGITS: usize = 19;

/// The version that a word is: four numbers up to 65,535 parted by dots; `None` exactly where it is
/// none.
pub fn version_of(word: &[u8]) -> Option<Version>
    ensures { result ≡ version_of word.now }
{
    let (major, rest) = at_dot(word)?;
    let (minor, rest) = at_dot(rest)?;
    let (build, revision) = at_dot(rest)?;
    if let Some(_) = at_dot(revision) {
        return None;
    }
    Some(Version {
        major: part_of(major)?,
        minor: part_of(minor)?,
        build: part_of(build)?,
        revision: part_of(revision)?,
    })
}

/// What stands before the first dot, and what after it.
fn at_dot(bytes: &[u8]) -> Option<(&[u8], &[u8])>
    ensures { MatchOption result (slice_split (λ b. b == 46) bytes.now ≡ bytes.now ∷ [])
        (λ r. slice_split (λ b. b == 46) bytes.now ≡ r.0.now ∷ slice_split (λ b. b == 46) r.1.now) }
{
    let at = first_at(bytes, b'.');
    if at == bytes.len() {
        return None;
    }
    Some((&bytes[..at], &bytes[at + 1..]))
}

fn part_of(digits: &[u8]) -> Option<u16>
    ensures { result ≡ part_of digits.now }
{
    if !are_digits(digits) {
        return None;
    }
    let value = digits_value(digits);
    if value <= 0xFFFF {
        Some(value as u16)
    } else {
        None
    }
}

fn are_digits(bytes: &[u8]) -> bool
    ensures { result ≡ are_digits bytes.now }
{
    !bytes.is_empty() && all_digits(bytes)
}

fn all_digits(bytes: &[u8]) -> bool
    ensures { result ≡ list_all is_ascii_digit bytes.now }
{
    bytes.iter().all(|byte| byte.is_ascii_digit())
}

/// The number that decimal digits write, and the greatest `u64` where it is greater.
fn digits_value(digits: &[u8]) -> u64
    ensures { result ≡ min (digits_value digits.now) (2 ^ 64 - 1) }
{
    let mut value: u64 = 0;
    for digit in digits {
        value = value
            .saturating_mul(10)
            .saturating_add(u64::from(digit.saturating_sub(b'0')));
    }
    value
}

/// The argument that a number is; `None` exactly where the word is none or out of range.
pub fn integer_of(word: &[u8]) -> Option<Argument>
    ensures { result ≡ integer_of word.now }
{
    let minus = has_minus(word);
    let body = unsigned_part(word);
    let wide = is_wide(body);
    let digits = digits_of(body);
    if !are_digits(digits) || digits.len() > MAX_DIGITS {
        return None;
    }
    let value = digits_value(digits);
    if value > greatest(minus, wide) {
        return None;
    }
    Some(integer(minus, wide, value))
}

fn has_minus(word: &[u8]) -> bool
    ensures { result ≡ begins_with 45 word.now }
{
    match word.first() {
        Some(byte) => *byte == b'-',
        None => false,
    }
}

/// What follows the minus that may stand first.
fn unsigned_part(word: &[u8]) -> &[u8]
    ensures { result.now ≡ unsigned_part word.now }
{
    if has_minus(word) { &word[1..] } else { word }
}

/// Whether the last byte is `L`.
fn is_wide(word: &[u8]) -> bool
    ensures { result ≡ is_wide word.now }
{
    match word.last() {
        Some(byte) => *byte == b'L',
        None => false,
    }
}

/// What stands before the `L` that may stand last.
fn digits_of(word: &[u8]) -> &[u8]
    ensures { result.now ≡ digits_of word.now }
{
    if is_wide(word) {
        &word[..word.len() - 1]
    } else {
        word
    }
}

/// The greatest number that digits can write, after a minus and with a last `L` or not.
fn greatest(minus: bool, wide: bool) -> u64
    ensures { result ≡ greatest minus wide }
{
    let positive = if wide {
        i64::MAX as u64
    } else {
        i32::MAX as u64
    };
    if minus { positive + 1 } else { positive }
}

fn integer(minus: bool, wide: bool, value: u64) -> Argument
    requires { value ≤ greatest minus wide }
    ensures { result ≡ integer minus wide value }
{
    if wide {
        Argument::I8(signed(minus, value))
    } else {
        Argument::I4(signed(minus, value) as i32)
    }
}

fn signed(minus: bool, value: u64) -> i64
    requires { value ≤ greatest minus true }
    ensures { result ≡ signed minus value }
{
    if minus && value > 0 {
        -((value - 1) as i64) - 1
    } else {
        value as i64
    }
}
