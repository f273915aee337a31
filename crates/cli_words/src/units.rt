//! Texts in UTF-16.
ghost use Rattle.std.specs.Prelude.{◌≡◌, ℕ, ◌↔◌, IfOk};
ghost use Rattle.std.specs.Char.{to_ascii_lowercase};
ghost use Rattle.std.specs.Result.{IsErrOf};
ghost use Rattle.std.specs.Str.{IsUtf8};
ghost use Rattle.std.specs.Str.Lossy.{utf8_valid_len};
ghost use Rattle.cli_words.specs.Text.{AreUnits, units_in, units_of, bytes_of};
ghost use Rattle.cli_words.specs.Text.{ascii_lowercase, are_alike};

use std::alloc::{AllocError, Global};
use std::marker::Model;
use std::str;
use std::sync::Arc;
use thiserror::Error;

/// A text: any UTF-16 units, lone surrogates too, shared among its owners.
#[derive(Debug, Drop)]
pub struct Units {
    shared: Arc<Vec<u16>>,
}

impl Model for Units {
    ghost use Rattle.std.specs.Prelude.{List, ℕ};
    ghost use Rattle.std.specs.Arc.{arc_value};
    ghost use Rattle.cli_words.specs.Text.{AreUnits};

    ghost Value = { List ℕ };

    ghost view = { λ text. (arc_value text.shared).items };

    ghost invariant = { λ text. AreUnits (arc_value text.shared).items };
}

/// Why bytes are no text.
#[derive(Debug, Drop, Error)]
pub enum TextFault {
    /// The bytes are not UTF-8: their longest front that is has `at` bytes.
    #[error("not UTF-8 at byte {at}")]
    NotUtf8 { at: usize },
    /// Memory was wanting.
    #[error("out of memory")]
    OutOfMemory,
}

impl Units {
    /// The text that the bytes are in UTF-8. `NotUtf8` exactly where they are not UTF-8; its `at`
    /// is the length of their longest front that is.
    pub fn from_utf8(alloc: Global, bytes: &[u8]) -> Result<Units, TextFault>
        ensures text { IfOk result (λ text. (text ≡ units_of bytes.now) × IsUtf8 bytes.now) }
        ensures not_utf8 { (at : ℕ) → IsErrOf result (TextFault.NotUtf8 at)
            ↔ ((¬ IsUtf8 bytes.now) × (at ≡ utf8_valid_len bytes.now)) }
    {
        let text = match str::from_utf8(bytes) {
            Ok(text) => text,
            Err(error) => {
                return Err(TextFault::NotUtf8 {
                    at: error.valid_up_to(),
                });
            }
        };
        let units = encoded(alloc, text).map_err(|_| TextFault::OutOfMemory)?;
        Units::of(alloc, units).map_err(|_| TextFault::OutOfMemory)
    }

    /// The text whose units stand in the bytes, two bytes each and the lower byte first. A last odd
    /// byte is passed over. ECMA-335 II.24.2.4.
    pub fn from_utf16_le(alloc: Global, bytes: &[u8]) -> Result<Units, AllocError>
        ensures { IfOk result (λ text. text ≡ units_in bytes.now) }
    {
        let units = units_in(alloc, bytes)?;
        Units::of(alloc, units)
    }

    /// The text in UTF-8, with U+FFFD for each surrogate that is in no pair.
    pub fn to_utf8(&self, alloc: Global) -> Result<Vec<u8>, AllocError>
        ensures { IfOk result (λ bytes. bytes.items ≡ bytes_of self.now) }
    {
        let text = String::from_utf16_lossy(alloc, self.units())?;
        Ok(text.into_bytes())
    }

    /// The text with the letters `A` to `Z` as `a` to `z`.
    pub fn fold_ascii(&self, alloc: Global) -> Result<Units, AllocError>
        ensures { IfOk result (λ text. text ≡ ascii_lowercase self.now) }
    {
        let units: Vec<u16> = self.units().iter().map(|unit| lower(*unit)).collect(alloc)?;
        Units::of(alloc, units)
    }

    /// The text of just these units.
    pub fn of(alloc: Global, units: Vec<u16>) -> Result<Units, AllocError>
        ensures { IfOk result (λ text. text ≡ units.items) }
    {
        let shared = Arc::new(alloc, units)?;
        Ok(Units { shared })
    }

    /// The units of the text.
    pub fn units(&self) -> &[u16]
        ensures units { result.now ≡ self.now }
        ensures range { AreUnits self.now }
    {
        self.shared.as_slice()
    }

    /// The two texts are the same when folded by ASCII case.
    pub fn eq_ignore_ascii_case(&self, other: &Units) -> bool
        ensures { result ≡ are_alike self.now other.now }
    {
        are_alike(self.units(), other.units())
    }

    /// One more owner of the text. It can be refused, as memory can.
    pub fn share(&self, _alloc: Global) -> Result<Units, AllocError>
        ensures { IfOk result (λ text. text ≡ self.now) }
    {
        let shared = Arc::try_clone(&self.shared)?;
        Ok(Units { shared })
    }
}

impl PartialEq for Units {
    ghost use Rattle.std.specs.Str.{bytes_eq};
    ghost use Rattle.std.specs.Cmp.{nat_eq_equiv, partial_equiv_from_equiv};
    ghost use Rattle.std.specs.Cmp.Lexicographic.{lists_per};

    ghost eq = { bytes_eq };

    ghost laws = { lists_per (partial_equiv_from_equiv nat_eq_equiv) };

    fn eq(&self, other: &Units) -> bool {
        self.units() == other.units()
    }
}

impl Eq for Units {
    ghost use Rattle.std.specs.Cmp.{nat_eq_equiv};
    ghost use Rattle.std.specs.Cmp.Lexicographic.{lists_equiv};

    ghost laws = { lists_equiv nat_eq_equiv };
}

fn units_in(alloc: Global, bytes: &[u8]) -> Result<Vec<u16>, AllocError>
    ensures { IfOk result (λ units. units.items ≡ units_in bytes.now) }
{
    let mut units = Vec::with_capacity(alloc, bytes.len() / 2)?;
    let mut rest = bytes;
    while let [low, high, after @ ..] = rest {
        units.push(u16::from_le_bytes([*low, *high]))?;
        rest = after;
    }
    Ok(units)
}

fn encoded(alloc: Global, text: &str) -> Result<Vec<u16>, AllocError>
    ensures { IfOk result (λ units. units.items ≡ units_of text.now) }
{
    let mut units = Vec::new(alloc);
    for character in text.chars() {
        units.extend_from_slice(character.encode_utf16(&mut [0; 2]))?;
    }
    Ok(units)
}

fn are_alike(ours: &[u16], theirs: &[u16]) -> bool
    ensures { result ≡ are_alike ours.now theirs.now }
{
    if ours.len() != theirs.len() {
        return false;
    }
    for i in 0..ours.len() {
        if lower(ours[i]) != lower(theirs[i]) {
            return false;
        }
    }
    true
}

fn lower(unit: u16) -> u16
    ensures { result ≡ to_ascii_lowercase unit }
{
    match unit {
        0x41..=0x5A => unit + 0x20,
        _ => unit,
    }
}
