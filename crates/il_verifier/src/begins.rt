//! The places at which the instructions of a body begin.
ghost use Rattle.std.specs.Prelude.{◌≡◌, ℕ, ◌^◌, ◌-◌, ◌<◌, List, Bool, length, slice_index, slice_index_or, take, EachIndex, false, IfOk};
ghost use Rattle.il_reader.specs.Offsets.{AreBoundaries};
ghost use Rattle.il_verifier.specs.Lines.{is_begun};

use il_reader::{IlFault, boundaries, boundaries_lie_in_the_code, not_broken};
use std::alloc::{AllocError, Global};
use std::marker::Model;

/// The places at which instructions begin, with a mark for each byte at which one does.
#[derive(Drop)]
pub(crate) struct Begins {
    places: Vec<u32>,
    marks: Vec<bool>,
}

impl Model for Begins {
    ghost use Rattle.std.specs.Prelude.{◌≡◌, ℕ, List, slice_index_or, false};
    ghost use Rattle.il_verifier.specs.Lines.{is_begun};

    ghost Value = { List ℕ };

    ghost view = { λ begins. begins.places.items };

    ghost invariant = { λ begins. (at : ℕ) →
        slice_index_or begins.marks.items at false ≡ is_begun begins.places.items at };
}

impl Begins {
    /// The places of a code that has boundaries.
    pub(crate) fn of(alloc: Global, code: &[u8]) -> Result<Begins, AllocError>
        requires whole { (places : List ℕ) × AreBoundaries code.now places }
        requires short { length code.now < 2 ^ 32 - 1 }
        ensures { IfOk result (AreBoundaries code.now) }
    {
        let places = places_of(alloc, code)?;
        let marks = marks_at(alloc, &places, code.len())?;
        Ok(Begins { places, marks })
    }

    /// An instruction begins at a place.
    pub(crate) fn has(&self, at: usize) -> bool
        ensures { result ≡ is_begun self.now at }
    {
        at < self.marks.len() && self.marks[at]
    }
}

fn places_of(alloc: Global, code: &[u8]) -> Result<Vec<u32>, AllocError>
    requires whole { (places : List ℕ) × AreBoundaries code.now places }
    requires short { length code.now < 2 ^ 32 - 1 }
    ensures places { IfOk result (λ places. AreBoundaries code.now places.items) }
    ensures within { IfOk result (λ places.
        EachIndex places.items (λ k. slice_index places.items k < length code.now)) }
{
    not_broken();
    boundaries_lie_in_the_code();
    match boundaries(alloc, code) {
        Ok(places) => Ok(places),
        Err(IlFault::OutOfMemory) => Err(AllocError),
        Err(IlFault::Bad { .. }) => unreachable!(),
    }
}

/// For each of so many bytes, whether it is one of the places.
fn marks_at(alloc: Global, places: &[u32], len: usize) -> Result<Vec<bool>, AllocError>
    requires { EachIndex places.now (λ k. slice_index places.now k < len) }
    ensures { IfOk result (λ marks. (at : ℕ) →
        slice_index_or marks.items at false ≡ is_begun places.now at) }
{
    let mut marks = vec![in alloc; false; len]?;
    for place in places {
        marks[*place as usize] = true;
    }
    Ok(marks)
}
