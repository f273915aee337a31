//! What the host looks up in its tables: each is what the journal says.
ghost use Rattle.std.specs.Prelude.{ℕ, ◌≡◌, ◌&&◌, IfSome};
ghost use Rattle.host_events.specs.Assemblies.{assembly_in};

use crate::host::HostCore;
use crate::platform::{PLATFORM_VERSION, is_platform_name};
use assembly_name::{SimpleName, Version, accepts};
use cli_words::Name;
use host_events::{Code, CodeOf, Reply};

impl<C: Code> HostCore<C> {
    ghost use Rattle.std.specs.Option.{option_and_then};
    ghost use Rattle.host_events.specs.Assemblies.{assembly_of, bound_count, context_of};
    ghost use Rattle.host_events.specs.Bindings.{binding, is_good, version_of_assembly};
    ghost use Rattle.host_events.specs.Contexts.{IsLive, is_collectible, is_freed, is_live};
    ghost use Rattle.host_events.specs.Contexts.{is_unloaded, named};
    ghost use Rattle.host_events.specs.Reply.{is_of_collectible};
    ghost use Rattle.host_core.specs.Tables.{IsNotGone};

    /// The context that the name means, which is there.
    pub(crate) fn named(&self, name: &Name) -> Option<u32>
        ensures named { result ≡ named self.now.journal name.now }
        ensures live { IfSome result (λ context. IsLive self.now.journal context) }
    {
        self.tables.contexts.named(name)
    }

    /// Whether the context is there: made and not freed. Context 0 always is.
    pub(crate) fn is_live(&self, context: u32) -> bool
        ensures { result ≡ is_live self.now.journal context }
    {
        self.tables.contexts.row(context).is_some()
    }

    /// Whether the context, which is there, was given up.
    pub(crate) fn is_unloaded(&self, context: u32) -> bool
        requires { IsLive self.now.journal context }
        ensures { result ≡ is_unloaded self.now.journal context }
    {
        match self.tables.contexts.row(context) {
            Some(row) => row.unloaded,
            None => false,
        }
    }

    /// Whether the context is there and was given up.
    pub(crate) fn is_unkept(&self, context: u32) -> bool
        ensures { result ≡ (is_unloaded self.now.journal context && is_live self.now.journal context) }
    {
        match self.tables.contexts.row(context) {
            Some(row) => row.unloaded,
            None => false,
        }
    }

    /// Whether the context, which was not freed, was made, and not as a fixed one.
    pub(crate) fn is_collectible(&self, context: u32) -> bool
        requires { IsNotGone self.now.journal context }
        ensures { result ≡ is_collectible self.now.journal context }
    {
        match self.tables.contexts.row(context) {
            Some(row) => row.collectible,
            None => false,
        }
    }

    /// What the name is bound to in the context.
    pub(crate) fn binding(&self, context: u32, name: &SimpleName) -> Option<u32>
        ensures { result ≡ binding self.now.journal context name.now }
    {
        if is_platform_name(name) {
            return Some(0);
        }
        self.tables.bindings.lookup(context, name)
    }

    /// How many assemblies were made.
    pub(crate) fn bound_count(&self) -> usize
        ensures { result ≡ bound_count self.now.journal }
    {
        self.tables.codes.as_slice().len()
    }

    /// The image and the context of the assembly; `None` for assembly 0, the platform, and exactly
    /// where no other such one was made.
    pub(crate) fn assembly_of(&self, assembly: u32) -> Option<CodeOf>
        ensures { result ≡ assembly_of self.now.journal assembly }
    {
        let index = assembly.checked_sub(1)?;
        let loaded = self.tables.codes.get(index as usize)?;
        Some(loaded.code_of())
    }

    /// The context in which the assembly lives.
    pub(crate) fn context_of(&self, assembly: u32) -> Option<u32>
        ensures { result ≡ context_of self.now.journal assembly }
    {
        if assembly == 0 {
            return Some(0);
        }
        let code = self.assembly_of(assembly)?;
        Some(code.context)
    }

    /// Whether the assembly lives in a collectible context. None was freed.
    pub(crate) fn is_of_collectible(&self, assembly: u32) -> bool
        requires { (context : ℕ) → IsNotGone self.now.journal context }
        ensures { result ≡ is_of_collectible self.now.journal assembly }
    {
        match self.context_of(assembly) {
            Some(context) => self.is_collectible(context),
            None => false,
        }
    }

    fn version_of_assembly(&self, assembly: u32) -> Option<Version>
        ensures { result ≡ version_of_assembly self.now.fixed.files self.now.journal assembly }
    {
        if assembly == 0 {
            return Some(PLATFORM_VERSION);
        }
        let code = self.assembly_of(assembly)?;
        self.app.version(code.image)
    }

    /// Whether the version of the assembly is the wanted one or a later one.
    pub(crate) fn is_good(&self, assembly: u32, wanted: Version) -> bool
        ensures { result ≡ is_good self.now.fixed.files self.now.journal assembly wanted }
    {
        match self.version_of_assembly(assembly) {
            Some(version) => accepts(version, wanted),
            None => false,
        }
    }

    /// Where the code of the assembly comes from that the reply names.
    pub(crate) fn code_in(&self, reply: &Reply) -> Option<CodeOf>
        ensures { result ≡ option_and_then (assembly_of self.now.journal) (assembly_in reply.now) }
    {
        let assembly = assembly_in(reply)?;
        self.assembly_of(assembly)
    }
}

/// The assembly that the reply names.
fn assembly_in(reply: &Reply) -> Option<u32>
    ensures { result ≡ assembly_in reply.now }
{
    match reply {
        Reply::EnteredAt(_, _, assembly, _)
        | Reply::Hit(assembly)
        | Reply::Low(assembly)
        | Reply::Foreign(assembly)
        | Reply::Lost(assembly)
        | Reply::NotCollectible(assembly)
        | Reply::Shared(assembly)
        | Reply::Bound(assembly) => Some(*assembly),
        _ => None,
    }
}
