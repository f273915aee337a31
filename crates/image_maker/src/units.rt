//! Texts in UTF-16, and what they are in UTF-8.
ghost use Rattle.std.specs.Prelude.{◌≡◌, ◌-◌, ◌^◌, length, min};
ghost use Rattle.std.specs.Option.{unwrap_or};
ghost use Rattle.std.specs.Char.{len_utf8};
ghost use Rattle.cli_words.specs.Text.{bytes_of};
ghost use Rattle.image_maker.specs.Sound as spec;

use cli_words::first_character;

/// No unit is a surrogate without its partner.
pub(crate) fn is_whole(units: &[u16]) -> bool
    ensures { result ≡ spec.is_whole units.now }
{
    let mut rest = units;
    while !rest.is_empty() {
        let (character, taken) = first_character(rest);
        if character.is_none() {
            return false;
        }
        rest = &rest[taken..];
    }
    true
}

/// No character is 0.
pub(crate) fn has_no_zero(units: &[u16]) -> bool
    ensures { result ≡ spec.has_no_zero (bytes_of units.now) }
{
    let mut rest = units;
    while !rest.is_empty() {
        let (character, taken) = first_character(rest);
        if character == Some(0) {
            return false;
        }
        rest = &rest[taken..];
    }
    true
}

/// How many bytes the text has in UTF-8, at most `u64::MAX`.
pub(crate) fn utf8_len(units: &[u16]) -> u64
    ensures { result ≡ min (length (bytes_of units.now)) (2 ^ 64 - 1) }
{
    let mut len: u64 = 0;
    let mut rest = units;
    while !rest.is_empty() {
        let (character, taken) = first_character(rest);
        len = len.saturating_add(char_len(character));
        rest = &rest[taken..];
    }
    len
}

/// How many bytes a character has in UTF-8, or else U+FFFD.
fn char_len(character: Option<u32>) -> u64
    ensures { result ≡ len_utf8 (unwrap_or character 0xFFFD) }
{
    match character {
        Some(0..0x80) => 1,
        Some(0x80..0x800) => 2,
        Some(0x1_0000..) => 4,
        _ => 3,
    }
}
