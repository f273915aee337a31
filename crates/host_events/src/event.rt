use assembly_name::{SimpleName, Version};
use cli_words::{Name, Units};
use signatures::TypeKey;

/// Whether a context can be unloaded.
#[derive(Clone, Copy, Debug, PartialEq, Eq)]
pub enum ContextKind {
    /// It can be given up; a `Collect` after that frees it, unless something still keeps it.
    Collectible,
    /// It stays for as long as the host runs, and can't be given up.
    Fixed,
}

/// Where a rule for finding assemblies stands, in the order in which a bind asks these places.
#[derive(Debug, Drop)]
pub enum RuleAt {
    /// The Load rules of the context of this name.
    On(Name),
    /// The Resolving rules of the context of this name.
    Resolving(Name),
    /// The rules of AssemblyResolve, which all contexts share.
    Resolve,
}

/// What a rule answers for the name that it was set for.
#[derive(Debug, Drop)]
pub enum RuleAnswer {
    /// The image of this number, counted from 1.
    Image(u32),
    /// The assembly of that name in the context of this name.
    Share(Name),
    /// Nothing.
    Nothing,
}

/// A step of a bind, which looks for a candidate. The steps stand in the order in which a bind takes
/// them.
#[derive(Clone, Copy, Debug, PartialEq, Eq)]
pub enum AskStep {
    /// Asks the Load rules of the context. A bind in context 0 has no such step.
    Load,
    /// Looks in context 0, and then among the files of the application. It asks no rules.
    Default,
    /// Asks the Resolving rules of the context.
    Resolving,
    /// Asks the rules of AssemblyResolve, which all contexts share.
    Resolve,
}

/// What is published under a name.
#[derive(Clone, Copy, Debug, PartialEq, Eq)]
pub enum Candidate {
    /// The image of this number, counted from 1, becomes an assembly.
    Image(u32),
    /// The assembly of this number is shared.
    Assembly(u32),
}

/// What kind of value stands in a static field.
#[derive(Clone, Copy, Debug, PartialEq, Eq)]
pub enum ValueKind {
    /// An int32.
    I4,
    /// An int64.
    I8,
    /// A native int, of 64 bits.
    N,
    /// A string, or null.
    S,
}

/// A value, whose text is a `T`.
#[derive(Debug, Drop)]
pub enum Datum<T> {
    I4(i32),
    I8(i64),
    N(i64),
    S(T),
    Null,
    /// A reference to something else than a string. It stands in an outcome alone.
    Ref,
}

/// One request to the host. The host answers each by a `Reply`, which the journal before it
/// determines.
#[derive(Debug, Drop)]
pub enum Event {
    /// Makes a context under a name.
    New {
        name: Name,
        kind: ContextKind,
    },
    /// Sets a rule for finding the assembly of a name.
    Rule {
        place: RuleAt,
        name: SimpleName,
        answer: RuleAnswer,
    },
    /// Begins an operation in a context.
    Enter {
        name: Name,
    },
    /// Begins an operation in the context of what a strong handle holds.
    EnterHandle {
        handle: Name,
    },
    /// Looks for the assembly that is bound to a name in a context.
    Lookup {
        context: u32,
        name: SimpleName,
        version: Version,
    },
    /// Looks for a candidate for a name in a context, as the step says.
    Ask {
        step: AskStep,
        context: u32,
        name: SimpleName,
    },
    /// Binds a name in a context to a candidate, if it isn't bound there.
    Publish {
        context: u32,
        name: SimpleName,
        candidate: Candidate,
    },
    /// Places a type that the code of a context uses.
    Place {
        user: u32,
        key: TypeKey,
    },
    /// Reads a static field: a row of the assembly's table of fields, from 1.
    LoadStatic {
        key: TypeKey,
        field: u32,
        kind: ValueKind,
    },
    /// Writes a static field.
    StoreStatic {
        key: TypeKey,
        field: u32,
        value: Datum<Units>,
    },
    /// Makes a strong handle of a method: a row of the assembly's table of methods, from 1.
    Hold {
        handle: Name,
        assembly: u32,
        method: u32,
    },
    /// Gives a strong handle up.
    DropHandle {
        handle: Name,
    },
    /// Makes a weak handle of a context, which doesn't keep it.
    Weak {
        handle: Name,
        name: Name,
    },
    /// Asks whether the context of a weak handle is still there.
    Alive {
        handle: Name,
    },
    /// Gives a context up.
    Unload {
        name: Name,
    },
    /// Frees the contexts that were given up and that nothing keeps.
    Collect,
    /// Ends an operation.
    Leave {
        operation: u32,
    },
}
