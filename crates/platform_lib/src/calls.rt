//! The methods of the platform by their numbers.
ghost use Rattle.std.specs.Prelude.{◌≡◌, ◌<◌, IfOk, IfSome, option_map, not, if◌then◌else◌};
ghost use Rattle.std.specs.Prelude.{length, position};
ghost use Rattle.platform_lib.specs.Types.{nth};
ghost use Rattle.platform_lib.specs.Methods.{Method, methods, sig_of, method_sig, is_prim};
ghost use Rattle.platform_lib.specs.Methods.{is_result, are_params, has_sig, is_method};
ghost use Rattle.platform_lib.specs.Methods.{method_number, method};
ghost use Rattle.platform_lib.specs.Rows.{shown, params_of};

use crate::classes::is_spelled;
use crate::names::letters;
use crate::table::Params::{Nothing, One, Two};
use crate::table::{Intrinsic, METHODS, Params, Row};
use cli_words::Units;
use signatures::{MethodSig, Prim, Sig, SigPart, Sigs};
use std::alloc::{AllocError, Global};

/// The method of a type's row, a name and a signature as it is spelled; `None` exactly where the
/// platform has no such method.
pub fn intrinsic(type_row: u32, name: &Units, sig: &MethodSig) -> Option<Intrinsic>
    ensures { option_map (λ found. found.number) result ≡ method_number type_row name.now sig.now }
{
    match place_of(&METHODS, type_row, name, sig) {
        Some(place) => Some(Intrinsic {
            number: place as u32 + 1,
        }),
        None => None,
    }
}

fn place_of(rows: &[Row], type_row: u32, name: &Units, sig: &MethodSig) -> Option<usize>
    ensures place { result
        ≡ position (λ row. is_method type_row name.now sig.now (shown row)) rows.now }
    ensures within { IfSome result (λ place. place < length rows.now) }
{
    rows.iter()
        .position(|row| is_method(type_row, name, sig, row))
}

/// The row of the type, the name and the signature of the method of a number; `None` exactly where
/// there is no such method.
pub fn method(alloc: Global, number: u32) -> Result<Option<(u32, Units, MethodSig)>, AllocError>
    ensures { IfOk result (λ found. found ≡ method number) }
{
    let Some(row) = row_at(&METHODS, number) else {
        return Ok(None);
    };
    let name = spelled(alloc, letters(row.1))?;
    let sig = method_sig(alloc, &row)?;
    Ok(Some((row.0, name, sig)))
}

fn row_at(rows: &[Row], number: u32) -> Option<Row>
    ensures { result ≡ nth rows.now number }
{
    if number == 0 || number as usize > rows.len() {
        return None;
    }
    Some(rows[number as usize - 1])
}

/// The text of these letters.
fn spelled(alloc: Global, letters: &[u8]) -> Result<Units, AllocError>
    ensures { IfOk result (λ text. text ≡ letters.now) }
{
    let units: Vec<u16> = letters
        .iter()
        .map(|letter| u16::from(*letter))
        .collect(alloc)?;
    Units::of(alloc, units)
}

fn method_sig(alloc: Global, row: &Row) -> Result<MethodSig, AllocError>
    ensures { IfOk result (λ sig. sig ≡ method_sig (shown row.now)) }
{
    let result = match row.4 {
        Some(prim) => Some(sig_of(alloc, prim)?),
        None => None,
    };
    let params = match row.3 {
        Nothing => Vec::new(alloc),
        One(only) => vec![in alloc; sig_of(alloc, only)?]?,
        Two(first, second) => vec![in alloc; sig_of(alloc, first)?, sig_of(alloc, second)?]?,
    };
    Ok(MethodSig {
        has_this: row.2,
        result,
        params: Sigs::of(params),
    })
}

fn sig_of(alloc: Global, prim: Prim) -> Result<Sig, AllocError>
    ensures { IfOk result (λ sig. sig ≡ sig_of prim) }
{
    Ok(Sig::of(vec![in alloc; SigPart::Prim(prim)]?))
}

fn is_method(type_row: u32, name: &Units, sig: &MethodSig, row: &Row) -> bool
    ensures { result ≡ is_method type_row name.now sig.now (shown row.now) }
{
    row.0 == type_row && is_spelled(name.units(), letters(row.1)) && has_sig(sig, row)
}

fn has_sig(sig: &MethodSig, row: &Row) -> bool
    ensures { result ≡ has_sig (shown row.now) sig.now }
{
    is_called_alike(row.2, sig.has_this)
        && is_result(row.4, &sig.result)
        && are_params(row.3, sig.params.items())
}

fn is_called_alike(ours: bool, theirs: bool) -> bool
    ensures { result ≡ (if ours then theirs else not theirs) }
{
    if ours { theirs } else { !theirs }
}

fn is_result(prim: Option<Prim>, sig: &Option<Sig>) -> bool
    ensures { result ≡ is_result prim sig.now }
{
    match (prim, sig) {
        (None, None) => true,
        (Some(prim), Some(sig)) => is_prim(prim, sig),
        _ => false,
    }
}

fn are_params(params: Params, sigs: &[Sig]) -> bool
    ensures { result ≡ are_params (params_of params) sigs.now }
{
    match (params, sigs) {
        (Nothing, []) => true,
        (One(only), [sig]) => is_prim(only, sig),
        (Two(first, second), [one, other]) => is_prim(first, one) && is_prim(second, other),
        _ => false,
    }
}

fn is_prim(prim: Prim, sig: &Sig) -> bool
    ensures { result ≡ is_prim prim sig.now }
{
    sig.parts() == [SigPart::Prim(prim)].as_slice()
}
