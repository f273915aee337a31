//! What stands above types, and which types suit places of which.
ghost use Rattle.std.specs.Prelude.{◌≡◌, ◌↔◌, ◌<◌, IsTrue, length, IfOk};
ghost use Rattle.il_flow.specs.Assigning.{Suits, IsAssignable};

use crate::effect::{Elements, Operands, Want};
use crate::keys::is_same_key;
use crate::pairs::{Entry, Pairs};
use crate::pool::Pool;
use il_flow::{Parents, StackType, assignable};
use signatures::TypeKey;
use std::alloc::{AllocError, Global};
use std::marker::Model;

/// What stands above types, and for some pairs of types whether a reference to the one suits a
/// place of the other: there may be many ways up.
#[derive(Drop)]
pub(crate) struct Known<'a, P: Parents> {
    parents: &'a P,
    fits: Pairs<bool>,
}

impl<'a, P: Parents> Model for Known<'a, P> {
    ghost use Rattle.il_verifier.specs.TypeRules.{AreFits};

    ghost Value = { P };

    ghost view = { λ known. known.parents.now };

    ghost invariant = { λ known. AreFits (P.family known.parents.now) known.fits };
}

/// A reference to a type suits a place of another.
fn suits<P: Parents>(
    alloc: Global,
    parents: &P,
    value: &TypeKey,
    place: &TypeKey,
) -> Result<bool, AllocError>
    ensures { IfOk result (λ fits. IsTrue fits
        ↔ Suits (P.family parents.now) value.now place.now) }
{
    let value = StackType::Ref(value.share(alloc)?);
    let place = StackType::Ref(place.share(alloc)?);
    assignable(alloc, parents, &value, &place)
}

impl<'a, P: Parents> Known<'a, P> {
    /// Nothing but what stands above types.
    pub(crate) fn new(alloc: Global, parents: &'a P) -> Known<'a, P>
        ensures { result ≡ parents.now }
    {
        let fits = Pairs::new(alloc);
        Known { parents, fits }
    }

    /// A reference to a type suits a place of another.
    pub(crate) fn suits(
        &self,
        alloc: Global,
        value: &TypeKey,
        place: &TypeKey,
    ) -> Result<bool, AllocError>
        ensures { IfOk result (λ fits. IsTrue fits
            ↔ Suits (P.family self.now) value.now place.now) }
    {
        if is_same_key(value, place) {
            return Ok(true);
        }
        if let Some(fits) = self.fits.find(value, place) {
            return Ok(*fits);
        }
        suits(alloc, self.parents, value, place)
    }

    /// A value may go into a place.
    pub(crate) fn assignable(
        &self,
        alloc: Global,
        value: &StackType,
        place: &StackType,
    ) -> Result<bool, AllocError>
        ensures { IfOk result (λ fits. IsTrue fits
            ↔ IsAssignable (P.family self.now) value.now place.now) }
    {
        match (value, place) {
            (StackType::Ref(value), StackType::Ref(place)) => self.suits(alloc, value, place),
            _ => assignable(alloc, self.parents, value, place),
        }
    }

    /// Seeks whether a type suits a place of another, where that is not known.
    fn seek(&mut self, alloc: Global, value: &TypeKey, place: &TypeKey) -> Result<(), AllocError>
        ensures { self.new ≡ self.old }
    {
        if is_same_key(value, place) || self.fits.find(value, place).is_some() {
            return Ok(());
        }
        let found = suits(alloc, self.parents, value, place)?;
        self.fits.note(Entry::of(alloc, value, place, found)?)
    }
}

fn seek_element<P: Parents>(
    alloc: Global,
    known: &mut Known<'_, P>,
    elements: &Elements,
    array: &TypeKey,
) -> Result<(), AllocError>
    ensures { known.new ≡ known.old }
{
    let Some(element) = array.element(alloc)? else {
        return Ok(());
    };
    match elements {
        Elements::ReadAs(key) => known.seek(alloc, &element, key),
        Elements::WrittenAs(key) => known.seek(alloc, key, &element),
        _ => Ok(()),
    }
}

fn seek_want<P: Parents>(
    alloc: Global,
    known: &mut Known<'_, P>,
    want: &Want,
    held: &Option<StackType>,
) -> Result<(), AllocError>
    ensures { known.new ≡ known.old }
{
    let Some(StackType::Ref(value)) = held else {
        return Ok(());
    };
    match want {
        Want::Into(StackType::Ref(place)) => known.seek(alloc, value, place),
        Want::ArrayOf(elements) => seek_element(alloc, known, elements, value),
        _ => Ok(()),
    }
}

/// The same for each operand on a stack.
fn seek_wants<P: Parents>(
    alloc: Global,
    known: &mut Known<'_, P>,
    wants: &[Want],
    pool: &Pool,
    id: usize,
) -> Result<(), AllocError>
    requires { id < length pool.now }
    ensures { known.new ≡ known.old }
{
    let mut low = id;
    for n in 0..wants.len() {
        let Some(node) = pool.top(low) else {
            return Ok(());
        };
        seek_want(alloc, known, &wants[wants.len() - 1 - n], &node.held)?;
        low = node.below;
    }
    Ok(())
}

/// The same for the value on top that a method gives back.
fn seek_result<P: Parents>(
    alloc: Global,
    known: &mut Known<'_, P>,
    place: &Option<StackType>,
    pool: &Pool,
    id: usize,
) -> Result<(), AllocError>
    requires { id < length pool.now }
    ensures { known.new ≡ known.old }
{
    let Some(StackType::Ref(place)) = place else {
        return Ok(());
    };
    let Some(node) = pool.top(id) else {
        return Ok(());
    };
    let Some(StackType::Ref(value)) = &node.held else {
        return Ok(());
    };
    known.seek(alloc, value, place)
}

/// Seeks for each operand of an instruction on a stack whether it suits its place, where that is
/// not known.
pub(crate) fn seek_operands<P: Parents>(
    alloc: Global,
    known: &mut Known<'_, P>,
    operands: &Operands,
    pool: &Pool,
    id: usize,
) -> Result<(), AllocError>
    requires { id < length pool.now }
    ensures { known.new ≡ known.old }
{
    match operands {
        Operands::Each(wants) => seek_wants(alloc, known, wants.items(), pool, id),
        Operands::Returned(place) => seek_result(alloc, known, place, pool, id),
        Operands::Agreeing(_) => Ok(()),
    }
}
