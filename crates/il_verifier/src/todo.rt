//! The places that are to be done.
ghost use Rattle.std.specs.Prelude.{◌≡◌, ◌∷◌, [], IfOk, OnOk};
ghost use Rattle.il_verifier.specs.Worklist.{IsListed, IsTaken};

use std::alloc::{AllocError, Global};
use std::collections::BinaryHeap;
use std::marker::Model;

/// A place that is to be done. The greatest is the next.
#[derive(Clone, Copy, PartialEq, Eq, PartialOrd, Ord)]
pub(crate) struct Waiting {
    /// It falls from one sweep over the places to the next.
    sweep: usize,
    /// It falls along a way that does not lead back.
    number: usize,
    pub(crate) place: usize,
}

/// Places that are to be done, each once. They are done in sweeps: a place that lies behind the one
/// that was taken last waits for the next sweep, so that much is handed on to it at once.
#[derive(Drop)]
pub(crate) struct Todo {
    waiting: BinaryHeap<Waiting>,
    listed: Vec<bool>,
    numbers: Vec<usize>,
    /// Those of the place that was taken last.
    sweep: usize,
    number: usize,
}

impl Model for Todo {
    ghost use Rattle.std.specs.Prelude.{◌≡◌, ℕ, List, IsTrue, Contains, slice_index_or, false};
    ghost use Rattle.std.specs.BinaryHeap.{heap_items};
    ghost use Rattle.il_verifier.specs.Waits.{places_of};

    ghost Value = { List ℕ };

    ghost view = { λ todo. places_of (heap_items todo.waiting) };

    ghost invariant = { λ todo. (place : ℕ) →
        IsTrue (slice_index_or todo.listed.items place false) →
        Contains (places_of (heap_items todo.waiting)) place };
}

/// The sweep in which a place is done that lies behind the one taken last, or does not.
fn sweep_of(sweep: usize, is_behind: bool) -> usize {
    if is_behind {
        return sweep.saturating_sub(1);
    }
    sweep
}

fn number_of(numbers: &[usize], place: usize) -> usize {
    if place < numbers.len() {
        return numbers[place];
    }
    0
}

impl Todo {
    /// The place 0, with the numbers of places, which fall along a way that does not lead back.
    pub(crate) fn new(alloc: Global, numbers: Vec<usize>) -> Result<Todo, AllocError>
        ensures { IfOk result (λ todo. todo ≡ 0 ∷ []) }
    {
        let sweep = usize::MAX;
        let number = number_of(&numbers, 0);
        let listed = vec![in alloc; false; numbers.len()]?;
        let mut waiting = BinaryHeap::new(alloc);
        waiting.push(Waiting {
            sweep,
            number,
            place: 0,
        })?;
        Ok(Todo {
            waiting,
            listed,
            numbers,
            sweep,
            number,
        })
    }

    /// One place more, where it is not there yet.
    pub(crate) fn add(&mut self, place: usize) -> Result<(), AllocError>
        ensures { OnOk result (IsListed place self.old self.new) }
    {
        if place < self.listed.len() && self.listed[place] {
            return Ok(());
        }
        let number = number_of(&self.numbers, place);
        let sweep = sweep_of(self.sweep, number >= self.number);
        self.waiting.push(Waiting {
            sweep,
            number,
            place,
        })?;
        if place < self.listed.len() {
            self.listed[place] = true;
        }
        Ok(())
    }

    /// The next place to be done.
    pub(crate) fn next(&mut self) -> Option<usize>
        ensures { IsTaken self.old self.new result }
    {
        let taken = self.waiting.pop()?;
        self.sweep = taken.sweep;
        self.number = taken.number;
        let place = taken.place;
        if place < self.listed.len() {
            self.listed[place] = false;
        }
        Some(place)
    }
}
