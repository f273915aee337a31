//! Texts between quotes.
ghost use Rattle.std.specs.Prelude.{◌≡◌, ◌++◌, ◌<◌, ◌∷◌, [], if◌then◌else◌, is_ok, IfOk, IfSome};
ghost use Rattle.std.specs.Prelude.{chars};
ghost use Rattle.std.specs.Option.{option_map};
ghost use Rattle.host_script.specs.Text.{text_of, text_in, place_after, after_escape, after_digit};
ghost use Rattle.host_script.specs.Text.{spelled, escaped, last_digit, hex_digit, unit_with};
ghost use Rattle.host_script.specs.Text.{end_place, units_from};

use std::alloc::{AllocError, Global};
use std::str;

/// What a character of a word is due to be, where the word is a text.
#[derive(Clone, Copy)]
pub enum TextPlace {
    /// The opening quote.
    Opening,
    /// A character, the start of an escape, or the closing quote.
    Open,
    /// What follows a backslash.
    Escape,
    /// A hexadecimal digit of a unit: how many follow it, and the value of those before it.
    Digit { more: u8, value: u16 },
    /// Nothing: the text was closed.
    Closed,
    /// Nothing: the word is no text.
    Bad,
}

/// The units of the text that a word is; `None` exactly where it is none.
pub fn text_of(alloc: Global, word: &[u8]) -> Result<Option<Vec<u16>>, AllocError>
    ensures { IfOk result (λ text. option_map (λ units. units.items) text ≡ text_of word.now) }
{
    match str::from_utf8(word) {
        Ok(text) => text_in(alloc, text),
        Err(_) => Ok(None),
    }
}

fn text_in(alloc: Global, text: &str) -> Result<Option<Vec<u16>>, AllocError>
    ensures { IfOk result (λ found. option_map (λ units. units.items) found ≡ text_in text.now) }
{
    let (place, units) = read_to_end(alloc, text)?;
    match place {
        TextPlace::Closed => Ok(Some(units)),
        _ => Ok(None),
    }
}

/// What is due after all characters, and the units that they spell.
fn read_to_end(alloc: Global, text: &str) -> Result<(TextPlace, Vec<u16>), AllocError>
    ensures place { IfOk result (λ r. r.0 ≡ end_place TextPlace.Opening (chars text.now)) }
    ensures units { IfOk result (λ r. r.1.items ≡ units_from TextPlace.Opening (chars text.now)) }
{
    let mut units = Vec::new(alloc);
    let mut place = TextPlace::Opening;
    for character in text.chars() {
        push_spelled(&mut units, place, character)?;
        place = place_after(place, character);
    }
    Ok((place, units))
}

/// What the character that follows this one is due to be.
fn place_after(place: TextPlace, character: char) -> TextPlace
    ensures { result ≡ place_after place character }
{
    match place {
        TextPlace::Opening if character == '"' => TextPlace::Open,
        TextPlace::Open if character == '"' => TextPlace::Closed,
        TextPlace::Open if character == '\\' => TextPlace::Escape,
        TextPlace::Open => TextPlace::Open,
        TextPlace::Escape => after_escape(character),
        TextPlace::Digit { more, value } => after_digit(more, value, character),
        TextPlace::Opening | TextPlace::Closed | TextPlace::Bad => TextPlace::Bad,
    }
}

fn after_escape(character: char) -> TextPlace
    ensures { result ≡ after_escape character }
{
    match character {
        '"' | '\\' | 'n' => TextPlace::Open,
        'u' => TextPlace::Digit { more: 3, value: 0 },
        _ => TextPlace::Bad,
    }
}

fn after_digit(more: u8, value: u16, character: char) -> TextPlace
    ensures { result ≡ after_digit more value character }
{
    match hex_digit(character) {
        None => TextPlace::Bad,
        Some(_) if more == 0 => TextPlace::Open,
        Some(digit) => TextPlace::Digit {
            more: more - 1,
            value: unit_with(value, digit),
        },
    }
}

/// The value of the digits before, with one more.
fn unit_with(value: u16, digit: u16) -> u16
    requires { digit < 16 }
    ensures { result ≡ unit_with value digit }
{
    (value % 0x1000) * 16 + digit
}

/// The value of a hexadecimal digit.
fn hex_digit(character: char) -> Option<u16>
    ensures value { result ≡ hex_digit character }
    ensures range { IfSome result (λ digit. digit < 16) }
{
    match character {
        '0'..='9' => Some(character as u16 - '0' as u16),
        'A'..='F' => Some(character as u16 - 'A' as u16 + 10),
        'a'..='f' => Some(character as u16 - 'a' as u16 + 10),
        _ => None,
    }
}

/// Puts at the end of the units what the character spells where it stands.
fn push_spelled(units: &mut Vec<u16>, place: TextPlace, character: char) -> Result<(), AllocError>
    ensures { units.new.items
        ≡ (if is_ok result then units.old.items ++ spelled place character else units.old.items) }
{
    match place {
        TextPlace::Open if character != '"' && character != '\\' => {
            units.extend_from_slice(character.encode_utf16(&mut [0; 2]))
        }
        TextPlace::Escape => push_escaped(units, character),
        TextPlace::Digit { more: 0, value } => push_last_digit(units, value, character),
        _ => Ok(()),
    }
}

fn push_escaped(units: &mut Vec<u16>, character: char) -> Result<(), AllocError>
    ensures { units.new.items
        ≡ (if is_ok result then units.old.items ++ escaped character else units.old.items) }
{
    match character {
        '"' => push_unit(units, 34),
        '\\' => push_unit(units, 92),
        'n' => push_unit(units, 10),
        _ => Ok(()),
    }
}

fn push_last_digit(units: &mut Vec<u16>, value: u16, character: char) -> Result<(), AllocError>
    ensures { units.new.items ≡ (if is_ok result
        then units.old.items ++ last_digit value character else units.old.items) }
{
    match hex_digit(character) {
        Some(digit) => push_unit(units, unit_with(value, digit)),
        None => Ok(()),
    }
}

fn push_unit(units: &mut Vec<u16>, unit: u16) -> Result<(), AllocError>
    ensures { units.new.items
        ≡ (if is_ok result then units.old.items ++ unit ∷ [] else units.old.items) }
{
    Ok(units.push(unit)?)
}
