//! What single words of a line say.
ghost use Rattle.std.specs.Prelude.{◌≡◌, IfOk, IfSome, MatchResult, not, is_some};
ghost use Rattle.std.specs.Option.{option_map};
ghost use Rattle.std.specs.String.{string_bytes};
ghost use Rattle.std.specs.List.{list_all};
ghost use Rattle.cli_words.specs.Text.{bytes_of};
ghost use Rattle.std.specs.Char.Utf16.{has_unpaired_surrogate};
ghost use Rattle.host_script.specs.Outcome.{Gives, GivesFault};
ghost use Rattle.host_script.specs.Bytes.{begins_with};
ghost use Rattle.host_script.specs.Images.{names};
ghost use Rattle.host_script.specs.Slot.{context_name, wording_of, is_graphic, text_word};
ghost use Rattle.host_script.specs.Slot.{path_word, version_word, argument_word, fixed_word};
ghost use Rattle.host_script.specs.Slot.{used_image, text_argument};

use crate::bytes::same;
use crate::cause::{LineCause, LineFault};
use crate::command::Argument;
use crate::images::ImageLines;
use crate::number::{integer_of, version_of};
use crate::text::text_of;
use assembly_name::{SimpleName, Version};
use cli_words::{Name, NameFault, Units, Utf8Text};
use std::alloc::{AllocError, Global};
use std::string::FromUtf16Error;

const MAX_WORDING: usize = 1023;

/// The units of a text, and its bytes in UTF-8.
#[derive(Drop)]
struct Wording {
    units: Vec<u16>,
    text: String,
}

/// The name that a word is, of an image, a context or a handle.
pub fn name(alloc: Global, word: &[u8]) -> Result<Name, LineFault>
    ensures { Gives result (context_name word.now) }
{
    match Name::new(alloc, word) {
        Ok(name) => Ok(name),
        Err(NameFault::Bad) => Err(LineFault::Cause(LineCause::BadName)),
        Err(NameFault::OutOfMemory) => Err(LineFault::OutOfMemory),
    }
}

/// The name of an assembly that a word is.
pub fn simple_name(alloc: Global, word: &[u8]) -> Result<SimpleName, LineFault>
    ensures { Gives result (text_word word.now) }
{
    Ok(SimpleName::of(units(alloc, word)?))
}

/// The name of a type or a method that a word is.
pub fn units(alloc: Global, word: &[u8]) -> Result<Units, LineFault>
    ensures { Gives result (text_word word.now) }
{
    let Wording { units, text: _ } = fit_wording(alloc, word)?;
    match Units::of(alloc, units) {
        Ok(units) => Ok(units),
        Err(_) => Err(LineFault::OutOfMemory),
    }
}

/// The path that a word is.
pub fn path(alloc: Global, word: &[u8]) -> Result<Utf8Text, LineFault>
    ensures { Gives result (path_word word.now) }
{
    let Wording { units: _, text } = fit_wording(alloc, word)?;
    Ok(Utf8Text::of(text))
}

fn fit_wording(alloc: Global, word: &[u8]) -> Result<Wording, LineFault>
    ensures { MatchResult result (λ w. (text_word word.now ≡ Ok w.units.items)
        × (string_bytes w.text ≡ bytes_of w.units.items))
        (λ fault. GivesFault fault (text_word word.now)) }
{
    let Some(units) = wording_of(alloc, word).map_err(|_| LineFault::OutOfMemory)? else {
        return Err(LineFault::Cause(LineCause::BadName));
    };
    let Some(text) = paired(alloc, &units).map_err(|_| LineFault::OutOfMemory)? else {
        return Err(LineFault::Cause(LineCause::BadName));
    };
    if text.is_empty() || text.len() > MAX_WORDING {
        return Err(LineFault::Cause(LineCause::BadName));
    }
    Ok(Wording { units, text })
}

/// The units in UTF-8; `None` exactly where they have a lone surrogate.
fn paired(alloc: Global, units: &[u16]) -> Result<Option<String>, AllocError>
    ensures text { IfOk result
        (λ found. IfSome found (λ text. string_bytes text ≡ bytes_of units.now)) }
    ensures none { IfOk result (λ found. is_some found ≡ not (has_unpaired_surrogate units.now)) }
{
    let decoded: Result<Result<String, FromUtf16Error>, AllocError> = String::from_utf16(
        alloc, units,
    );
    Ok(decoded?.ok())
}

/// The units that a word spells: a text's, or the visible characters of ASCII themselves.
fn wording_of(alloc: Global, word: &[u8]) -> Result<Option<Vec<u16>>, AllocError>
    ensures { IfOk result (λ found. option_map (λ units. units.items) found ≡ wording_of word.now) }
{
    if is_quoted(word) {
        return text_of(alloc, word);
    }
    if !are_graphic(word) {
        return Ok(None);
    }
    let units: Vec<u16> = word.iter().map(|byte| u16::from(*byte)).collect(alloc)?;
    Ok(Some(units))
}

/// Whether the word begins as texts do.
pub fn is_quoted(word: &[u8]) -> bool
    ensures { result ≡ begins_with 34 word.now }
{
    match word.first() {
        Some(byte) => *byte == b'"',
        None => false,
    }
}

fn are_graphic(word: &[u8]) -> bool
    ensures { result ≡ list_all is_graphic word.now }
{
    word.iter().all(|byte| byte.is_ascii_graphic())
}

/// The version that a word is.
pub fn version(word: &[u8]) -> Result<Version, LineFault>
    ensures { Gives result (version_word word.now) }
{
    match version_of(word) {
        Some(version) => Ok(version),
        None => Err(LineFault::Cause(LineCause::BadNumber)),
    }
}

/// The argument that a word is.
pub fn argument(alloc: Global, word: &[u8]) -> Result<Argument, LineFault>
    ensures { Gives result (argument_word word.now) }
{
    if is_quoted(word) {
        return text_argument(alloc, word);
    }
    if same(word, b"true") {
        return Ok(Argument::Bool(true));
    }
    if same(word, b"false") {
        return Ok(Argument::Bool(false));
    }
    match integer_of(word) {
        Some(argument) => Ok(argument),
        None => Err(LineFault::Cause(LineCause::BadNumber)),
    }
}

fn text_argument(alloc: Global, word: &[u8]) -> Result<Argument, LineFault>
    ensures { Gives result (text_argument word.now) }
{
    let Some(units) = text_of(alloc, word).map_err(|_| LineFault::OutOfMemory)? else {
        return Err(LineFault::Cause(LineCause::BadNumber));
    };
    match Units::of(alloc, units) {
        Ok(units) => Ok(Argument::Text(units)),
        Err(_) => Err(LineFault::OutOfMemory),
    }
}

/// Tells that the word is the one that is due.
pub fn fixed(word: &[u8], due: &[u8]) -> Result<(), LineFault>
    ensures { Gives result (fixed_word due.now word.now) }
{
    if word == due {
        Ok(())
    } else {
        Err(LineFault::Cause(LineCause::UnknownWord))
    }
}

/// The number of the image that a word names.
pub fn used_image(alloc: Global, images: &ImageLines, word: &[u8]) -> Result<u32, LineFault>
    ensures { Gives result (used_image (names images.now) word.now) }
{
    let name = name(alloc, word)?;
    match images.number(name.bytes()) {
        Some(number) => Ok(number),
        None => Err(LineFault::Cause(LineCause::NoImage)),
    }
}
