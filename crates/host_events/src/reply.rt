use crate::event::Datum;
use crate::reserved::{Numbers, Text};

/// What the host answers to an event. Contexts, assemblies and operations go by their numbers: one
/// more than the count of those that were made before. Context 0 is `default`, and assembly 0 the
/// platform.
#[derive(Debug, Drop)]
pub enum Reply {
    /// This live context has the name already.
    Exists(u32),
    /// This context was made.
    Made(u32),
    /// The name means no live context.
    NoContext,
    /// This context was given up.
    Unloading(u32),
    /// The rule was set in this context.
    Set(u32),
    /// This operation began, in this context.
    Entered(u32, u32),
    /// There is no such handle.
    NoHandle,
    /// This operation began, in this context, with the method that the handle holds: an assembly
    /// and a row of its table of methods.
    EnteredAt(u32, u32, u32, u32),
    /// No assembly is bound to the name.
    Miss,
    /// This assembly is bound to the name, and its version serves.
    Hit(u32),
    /// This assembly is bound to the name, and its version is too low.
    Low(u32),
    /// The candidate is this image.
    Image(u32),
    /// The candidate is this assembly.
    Foreign(u32),
    /// There is no candidate.
    Nothing,
    /// This assembly was bound to the name before.
    Lost(u32),
    /// A context that can't be unloaded isn't bound to this assembly of one that can.
    NotCollectible(u32),
    /// The name is bound to this assembly of another context.
    Shared(u32),
    /// The name is bound to this assembly, made of the image.
    Bound(u32),
    /// The type has its place in this context.
    Placed(u32),
    /// The static field holds this.
    Value(Datum<Text>),
    /// The static field was written.
    Stored,
    /// The handle is in use.
    InUse,
    /// The handle holds a method of this context.
    Held(u32),
    /// The handle was given up.
    Dropped,
    /// The weak handle is one of this context.
    Weakly(u32),
    /// This context is there.
    Alive(u32),
    /// This context was freed.
    Gone(u32),
    /// This context can't be unloaded.
    Fixed(u32),
    /// This context was given up before.
    Already(u32),
    /// These contexts were freed, in rising order.
    Freed(Numbers),
    /// The operation ended.
    Left,
}
