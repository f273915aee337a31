use crate::event::Datum;
use crate::reply::Reply;
use assembly_name::{SimpleName, Version};
use cli_words::{FailedCheck, Listed, Units};
use signatures::Feature;

/// A rule by which code is refused before it runs.
#[derive(Clone, Copy, PartialEq, Eq, Debug)]
pub enum VerifyRule {
    /// Two ways in have unequal depth.
    Depth,
    /// Types that do not merge met at a place of the stack, or on the way there.
    Kind,
    /// Fewer operands than needed.
    Underflow,
    /// An operand of the wrong kind.
    Operand,
    /// The depth passes the greatest one.
    MaxStack,
    /// No such argument or local.
    Index,
    /// Control may pass to a place where no instruction begins.
    Target,
    /// A value that is not assignable to its place.
    Assign,
    /// A member that is not used so.
    Member,
    /// What a method gives back.
    Return,
    /// Clauses that handle exceptions do not nest. Nothing gives it yet.
    Region,
}

/// What a command ended with.
#[derive(Debug, Drop)]
pub enum Outcome {
    /// The reply to a command that is one event, or to the first event of an operation that did not
    /// begin.
    Replied(Reply),
    /// The name is bound to this assembly.
    Assembly(u32),
    /// The method gave this back.
    Value(Datum<Units>),
    /// The method gave nothing back.
    Void,
    /// No rule gave a candidate for the name.
    NotFound(SimpleName),
    /// What was found under the name has this version, which is too low.
    VersionLow(SimpleName, Version),
    /// A file is no image.
    BadImage(FailedCheck),
    /// The candidate for the name has another one.
    NameMismatch(SimpleName),
    /// This assembly is one of a context that can be unloaded, and was to be bound in one that can't.
    NotCollectible(u32),
    /// No type has this full name.
    NoType(Units),
    /// No method has this name.
    NoMethod(Units),
    /// No field has this name.
    NoField(Units),
    /// More than one method has this name.
    Ambiguous(Units),
    /// This token stands for nothing that its place takes.
    BadMember(u32),
    /// This is left out.
    Unsupported(Feature),
    /// The code of the method of this token fails a rule, at this byte of it.
    VerifyFault {
        token: u32,
        at: u32,
        rule: VerifyRule,
    },
    /// An exception of the type of this full name was not caught.
    Threw(Units),
    /// As many instructions as may be were executed, and one more was due.
    Budget,
    /// As many events as may be were made, and one more was due.
    EventLimit,
    /// As many calls as may be stand within one another, and one more was due.
    Depth,
    /// The objects of the operation need more room than they may take.
    HeapFull,
    /// A type nests too deep.
    TypeDepth,
    /// A text is too long for a static field.
    StaticLong,
}

/// Printed lines, in UTF-16 units.
pub type Lines = Listed<Units>;

/// How one command ended: the lines that it printed, and its outcome.
#[derive(Debug, Drop)]
pub struct CommandEnd {
    pub lines: Lines,
    pub outcome: Outcome,
}

/// How the commands of one thread ended, in their order.
pub type End = Listed<CommandEnd>;
