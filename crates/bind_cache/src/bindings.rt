//! The table of bindings.
ghost use Rattle.std.specs.Prelude.{◌≡◌, ◌<◌, [], IfOk};
ghost use Rattle.std.specs.List.{find};
ghost use Rattle.std.specs.Option.{option_copied};
ghost use Rattle.bind_cache.specs.Bindings.{AreSingle, binds, bound, published};

use assembly_name::{SimpleName, same_name};
use std::alloc::{AllocError, Global};
use std::marker::Model;

/// The assembly that a context has under a name.
#[derive(Debug, Drop)]
pub(crate) struct Binding {
    pub(crate) context: u32,
    pub(crate) name: SimpleName,
    pub(crate) assembly: u32,
}

/// The bindings in the order in which they were published, at most one for a context and a name.
/// Names are the same without regard to ASCII case. Contracts see the list of the bindings and the
/// spare, the count of bindings that can still be published. All calls but `new` take no memory.
#[derive(Debug, Drop)]
pub struct Bindings {
    bindings: Vec<Binding>,
    spare: u32,
}

impl Model for Bindings {
    ghost use Rattle.bind_cache.specs.Bindings.{Bindings, IsRoomy};
    ghost use Rattle.std.specs.Vec.{vec_capacity};

    ghost Value = { Bindings };

    ghost view = { λ a. record { list = a.bindings.items; spare = a.spare } };

    ghost invariant = { λ a. IsRoomy a.bindings.items a.spare (vec_capacity a.bindings) };
}

impl Bindings {
    /// No binding, and a spare of `room`.
    pub fn new(alloc: Global, room: u32) -> Result<Bindings, AllocError>
        ensures { IfOk result (λ made. made ≡ record { list = []; spare = room }) }
    {
        Ok(Bindings {
            bindings: Vec::with_capacity(alloc, room as usize)?,
            spare: room,
        })
    }

    /// The assembly that was published first for the context under the name; `None` exactly where
    /// none was. It compares the name with that of each binding of the context, up to the one
    /// found.
    pub fn lookup(&self, context: u32, name: &SimpleName) -> Option<u32>
        ensures bound { result ≡ bound self.now.list context name.now }
        ensures single { AreSingle self.now.list }
    {
        bound(self.bindings.as_slice(), context, name)
    }

    /// Publishes the assembly for the context under the name, where nothing is published for them
    /// yet. It answers the assembly that was there, and then nothing changes; `None` exactly where
    /// none was, and then the new binding stands behind all others. It costs what `lookup` does.
    pub fn publish_reserved(&mut self, context: u32, name: SimpleName, assembly: u32) -> Option<u32>
        requires { 0 < self.old.spare }
        ensures before { result ≡ bound self.old.list context name }
        ensures published { self.new ≡ published self.old context name assembly }
    {
        if let Some(there) = bound(self.bindings.as_slice(), context, &name) {
            return Some(there);
        }
        self.spare -= 1;
        let binding = Binding {
            context,
            name,
            assembly,
        };
        self.bindings.push(binding).unwrap();
        None
    }
}

/// The assembly of the first binding of the context and the name.
fn bound(bindings: &[Binding], context: u32, name: &SimpleName) -> Option<u32>
    ensures { result ≡ bound bindings.now context name.now }
{
    let first = first_of(bindings, context, name)?;
    Some(first.assembly)
}

fn first_of<'a>(bindings: &'a [Binding], context: u32, name: &SimpleName) -> Option<&'a Binding>
    ensures { option_copied result ≡ find (binds context name.now) bindings.now }
{
    bindings
        .iter()
        .find(|binding| binds(binding, context, name))
}

/// Whether the binding is one of the context and the name.
fn binds(binding: &Binding, context: u32, name: &SimpleName) -> bool
    ensures { result ≡ binds context name.now binding.now }
{
    binding.context == context && same_name(&binding.name, name)
}
