//! Commands: what the threads of a host do.
use assembly_name::{SimpleName, Version};
use cli_words::{Listed, Name, Units};

/// A value that a script gives to a method.
#[derive(Drop)]
pub enum Argument {
    /// A number, as `-5`.
    I4(i32),
    /// A number with a last `L`, as `5L`.
    I8(i64),
    /// `true` or `false`.
    Bool(bool),
    /// A text, as `"a"`. It can hold lone surrogates.
    Text(Units),
}

/// What a rule answers.
#[derive(Drop)]
pub enum ScriptAnswer {
    /// The image of this number, from 1.
    Image(u32),
    /// The assembly that the context of this name binds.
    Share(Name),
    /// Nothing.
    Nothing,
}

/// One command of a thread. Images are numbered from 1, in the order of their lines.
#[derive(Drop)]
pub enum Command {
    /// Makes a context under this name. A `fixed` one is never unloaded.
    New {
        context: Name,
        fixed: bool,
    },
    /// Sets what loading the name in the context answers.
    On {
        context: Name,
        name: SimpleName,
        answer: ScriptAnswer,
    },
    /// Sets what the context answers where the name was not found.
    Resolving {
        context: Name,
        name: SimpleName,
        answer: ScriptAnswer,
    },
    /// Sets what the host answers where the name was not found.
    Resolve {
        name: SimpleName,
        answer: ScriptAnswer,
    },
    /// Loads an image in the context, under the image's own name.
    Load {
        context: Name,
        image: u32,
    },
    /// Binds a name in the context, at this version or a later one.
    Bind {
        context: Name,
        name: SimpleName,
        version: Version,
    },
    /// Calls a static method of a type of the assembly.
    Call {
        context: Name,
        name: SimpleName,
        type_name: Units,
        method: Units,
        args: Listed<Argument>,
    },
    /// Makes a handle to a static method.
    Hold {
        handle: Name,
        context: Name,
        name: SimpleName,
        type_name: Units,
        method: Units,
    },
    /// Calls the method of a handle.
    Invoke {
        handle: Name,
        args: Listed<Argument>,
    },
    /// Gives up a handle.
    DropHandle {
        handle: Name,
    },
    /// Makes a handle that does not keep the context of this name.
    Weak {
        handle: Name,
        context: Name,
    },
    /// Asks whether the context of a weak handle is there.
    Alive {
        handle: Name,
    },
    /// Gives up the context of this name.
    Unload {
        context: Name,
    },
    /// Frees the contexts that were given up and that nothing keeps.
    Collect,
}

/// A command, and where it stands.
#[derive(Drop)]
pub struct CommandLine {
    /// The line, counted from 1.
    pub line: u32,
    pub command: Command,
}
