//! Numbers in signatures.
ghost use Rattle.std.specs.Prelude.{◌≡◌, ◌≤◌, ◌+◌, ◌<◌, length, IfOk};
ghost use Rattle.std.specs.Option.{option_map};
ghost use Rattle.signatures.specs.Grammar.{unread, number_at, class_at, past_modifier};
ghost use Rattle.signatures.specs.Grammar.{modifiers_at, after_kind};
ghost use Rattle.signatures.specs.Signatures.{Agrees};

use crate::fault::Stop;
use cli_words::read_compressed;

/// The tag that names no table in a TypeDefOrRef number. ECMA-335 II.23.2.8.
const NO_TABLE: u32 = 3;

/// The first bytes that no number begins with. ECMA-335 II.23.2.
const NO_NUMBER: u8 = 0xE0;

/// CMOD_REQD, which begins a custom modifier. ECMA-335 II.23.1.16.
const CMOD_REQD: u8 = 0x1F;

/// CMOD_OPT, which begins another.
const CMOD_OPT: u8 = 0x20;

/// The compressed number at the front of the bytes, and the bytes after it. ECMA-335 II.23.2.
#[tactic(auto, unfolding(crate::specs::Grammar::number_at))]
pub(crate) fn read_number(bytes: &[u8]) -> Result<(u32, &[u8]), Stop>
    ensures read { Agrees (λ x. (x.0, x.1.now)) result (number_at bytes.now) }
    ensures within { IfOk result (λ x. length x.1.now ≤ length bytes.now) }
{
    match read_compressed(bytes, 0) {
        Some((number, taken)) => Ok((number, &bytes[taken..])),
        None => Err(Stop::Bad {
            left: unread(bytes),
        }),
    }
}

/// How many bytes are left where bytes are no number: all of them, or none where it is cut.
fn unread(bytes: &[u8]) -> usize
    ensures { result ≡ unread bytes.now }
{
    match bytes {
        [byte, ..] if *byte >= NO_NUMBER => bytes.len(),
        _ => 0,
    }
}

/// The TypeDefOrRef number at the front of the bytes, and the bytes after it. ECMA-335 II.23.2.8.
#[tactic(auto, unfolding(crate::specs::Grammar::class_at))]
pub(crate) fn read_class(bytes: &[u8]) -> Result<(u32, &[u8]), Stop>
    ensures read { Agrees (λ x. (x.0, x.1.now)) result (class_at bytes.now) }
    ensures within { IfOk result (λ x. length x.1.now ≤ length bytes.now) }
{
    let (class, rest) = read_number(bytes)?;
    if class % 4 == NO_TABLE {
        return Err(Stop::Bad {
            left: rest.len() + 1,
        });
    }
    Ok((class, rest))
}

/// The bytes after the modifiers at the front. ECMA-335 II.23.2.7.
pub(crate) fn read_modifiers(bytes: &[u8]) -> Result<&[u8], Stop>
    ensures read { Agrees (λ x. x.now) result (modifiers_at bytes.now) }
    ensures within { IfOk result (λ x. length x.now ≤ length bytes.now) }
{
    let mut rest = bytes;
    while let Some(modified) = past_modifier(rest) {
        let (_, after) = read_class(modified)?;
        rest = after;
    }
    Ok(rest)
}

/// The bytes after a first byte that begins a modifier.
fn past_modifier(bytes: &[u8]) -> Option<&[u8]>
    ensures { option_map (λ x. x.now) result ≡ past_modifier bytes.now }
{
    match bytes {
        [CMOD_REQD | CMOD_OPT, rest @ ..] => Some(rest),
        _ => None,
    }
}

/// The bytes after a first byte of this kind.
#[tactic(auto, unfolding(crate::specs::Grammar::after_kind))]
pub(crate) fn read_kind(kind: u8, bytes: &[u8]) -> Result<&[u8], Stop>
    ensures read { Agrees (λ x. x.now) result (after_kind kind bytes.now) }
{
    match bytes {
        [byte, rest @ ..] if *byte == kind => Ok(rest),
        _ => Err(Stop::Bad { left: bytes.len() }),
    }
}
