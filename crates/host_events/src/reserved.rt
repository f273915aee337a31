ghost use Rattle.std.specs.Prelude.{◌≡◌, ◌+◌, ◌-◌, ◌<◌, [], ◌∷◌, ◌++◌, IfOk, IsOk};
ghost use Rattle.host_events.specs.Reserved.{sealed};

use std::alloc::{AllocError, Global};
use std::marker::Model;

/// A list with room that was taken before, so that adding to it takes no memory. Contracts see the
/// list and the spare, the count of elements that can still be added.
#[derive(Debug, Drop)]
pub struct Reserved<T> {
    items: Vec<T>,
    spare: u32,
}

impl<T> Model for Reserved<T> {
    ghost use Rattle.std.specs.Prelude.{ℕ, ◌+◌, ◌≤◌, length};
    ghost use Rattle.std.specs.Vec.{vec_capacity};
    ghost use Rattle.host_events.specs.Reserved.{Reserved};

    ghost Value = { Reserved T };

    ghost view = { λ a. record { list = a.items.items; spare = a.spare } };

    ghost invariant = { λ a. length a.items.items + a.spare ≤ vec_capacity a.items };
}

/// Context numbers.
pub type Numbers = Reserved<u32>;

/// UTF-16 units.
pub type Text = Reserved<u16>;

impl<T> Reserved<T> {
    /// An empty list with this spare. With a spare of 0 it is `Ok`.
    pub fn new(alloc: Global, spare: u32) -> Result<Reserved<T>, AllocError>
        ensures empty { IfOk result (λ made. made ≡ record { list = []; spare = spare }) }
        ensures free { spare ≡ 0 → IsOk result }
    {
        if spare == 0 {
            return Ok(Reserved {
                items: Vec::new(alloc),
                spare,
            });
        }
        let items = Vec::with_capacity(alloc, spare as usize)?;
        Ok(Reserved { items, spare })
    }

    /// The list of the elements of a `Vec`, with no spare.
    pub fn of(items: Vec<T>) -> Reserved<T>
        ensures { result ≡ sealed items.items }
    {
        Reserved { items, spare: 0 }
    }

    /// Puts one element at the end of the list.
    pub fn push_reserved(&mut self, element: T)
        requires { 0 < self.old.spare }
        ensures { self.new ≡ record { list = self.old.list ++ element ∷ []; spare = self.old.spare - 1 } }
    {
        self.spare -= 1;
        self.items.push(element).unwrap();
    }

    /// The same list, with no spare.
    pub fn sealed(self) -> Reserved<T>
        ensures { result ≡ sealed self.list }
    {
        Reserved {
            items: self.items,
            spare: 0,
        }
    }
}

impl Numbers {
    /// The numbers, in their order.
    pub fn numbers(&self) -> &[u32]
        ensures { result.now ≡ self.now.list }
    {
        self.items.as_slice()
    }
}

impl Text {
    /// The units, in their order.
    pub fn units(&self) -> &[u16]
        ensures { result.now ≡ self.now.list }
    {
        self.items.as_slice()
    }
}
