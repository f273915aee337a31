//! The table of contexts.
ghost use Rattle.std.specs.Prelude.{◌≡◌, ◌≢◌, ◌+◌, ◌-◌, ◌<◌, [], ◌∷◌, ◌++◌, IfOk, IsSome};
ghost use Rattle.std.specs.List.{AllByRecursion};
ghost use Rattle.std.specs.Option.{option_copied};
ghost use Rattle.load_context.specs.Contexts.{IsTable, added, default_context, named, row_of};
ghost use Rattle.load_context.specs.Contexts.{taken, unloaded};

use crate::scan::{last_named, place_of, row_of, unload};
use cli_words::Name;
use std::alloc::{AllocError, Global};
use std::marker::Model;

/// What is known of a context.
#[derive(PartialEq, Eq, Debug, Drop)]
pub struct ContextRow {
    /// The name under which it was made.
    pub name: Name,
    /// Whether it can be unloaded.
    pub collectible: bool,
    /// Whether it was unloaded. It is there until it is taken out.
    pub unloaded: bool,
}

/// A context that is there.
#[derive(Debug, Drop)]
pub(crate) struct Context {
    pub(crate) number: u32,
    pub(crate) row: ContextRow,
}

/// The contexts that are there, in rising order of their numbers. Contracts see the list of them
/// and the spare, the count of contexts that can still be added. All calls but `new` take no
/// memory.
#[derive(Debug, Drop)]
pub struct Contexts {
    contexts: Vec<Context>,
    spare: u32,
}

impl Model for Contexts {
    ghost use Rattle.load_context.specs.Contexts.{Contexts, IsRoomy};
    ghost use Rattle.std.specs.Vec.{vec_capacity};

    ghost Value = { Contexts };

    ghost view = { λ a. record { list = a.contexts.items; spare = a.spare } };

    ghost invariant = { λ a. IsRoomy a.contexts.items a.spare (vec_capacity a.contexts) };
}

impl Contexts {
    /// Context 0 alone, which is named `default` and is not collectible, and a spare of `room`.
    pub fn new(alloc: Global, room: u32) -> Result<Contexts, AllocError>
        ensures { IfOk result (λ made.
            made ≡ record { list = default_context ∷ []; spare = room }) }
    {
        let Ok(name) = Name::new(alloc, b"default") else {
            return Err(AllocError);
        };
        let mut contexts = Vec::with_capacity(alloc, room as usize + 1)?;
        let row = ContextRow {
            name,
            collectible: false,
            unloaded: false,
        };
        contexts.push(Context { number: 0, row })?;
        Ok(Contexts {
            contexts,
            spare: room,
        })
    }

    /// The number of the context that the name means: 0 for `default`, else the context that was
    /// added last under the name, of those that are there. `None` exactly where there is none. It
    /// looks at each row once.
    pub fn named(&self, name: &Name) -> Option<u32>
        ensures { result ≡ named self.now.list name.now }
    {
        if name.bytes() == b"default".as_slice() {
            return Some(0);
        }
        last_named(self.contexts.as_slice(), name)
    }

    /// What is known of the context of this number; `None` exactly where it is not there. It looks
    /// at each row up to that of the context.
    pub fn row(&self, context: u32) -> Option<&ContextRow>
        ensures row { option_copied result ≡ row_of self.now.list context }
        ensures table { IsTable self.now.list }
    {
        row_of(self.contexts.as_slice(), context)
    }

    /// Adds a context that is not unloaded, with a number greater than all that are there.
    pub fn add_reserved(&mut self, context: u32, name: Name, collectible: bool)
        requires room { 0 < self.old.spare }
        requires greater { AllByRecursion (λ other. other.number < context) self.old.list }
        ensures { self.new ≡ record {
          list = self.old.list ++ added context name collectible ∷ [];
          spare = self.old.spare - 1;
        } }
    {
        self.spare -= 1;
        let row = ContextRow {
            name,
            collectible,
            unloaded: false,
        };
        let added = Context {
            number: context,
            row,
        };
        self.contexts.push(added).unwrap();
    }

    /// Says that the context, which is there and is not context 0, is unloaded. It stays there. It
    /// looks at each row once.
    pub fn unload(&mut self, context: u32)
        requires there { IsSome (row_of self.old.list context) }
        requires other { context ≢ 0 }
        ensures { self.new ≡ record self.old { list = unloaded context self.old.list } }
    {
        unload(self.contexts.as_mut_slice(), context);
    }

    /// Takes out the context, which is there and is not context 0. Its room is spare again. It
    /// looks at each row up to that of the context, and moves each one behind it.
    pub fn take(&mut self, context: u32)
        requires there { IsSome (row_of self.old.list context) }
        requires other { context ≢ 0 }
        ensures { self.new ≡ record {
          list = taken context self.old.list;
          spare = self.old.spare + 1;
        } }
    {
        let index = place_of(self.contexts.as_slice(), context).unwrap();
        let _ = self.contexts.remove(index);
        self.spare += 1;
    }
}
