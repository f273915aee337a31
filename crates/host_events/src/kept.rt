//! What is kept under a journal.
ghost use Rattle.std.specs.Prelude.{ℕ, ◌≡◌, ◌∷◌, ◌++◌, ◌<◌, ◌^◌, List, [], Option, length};
ghost use Rattle.host_events.specs.declared.event.Event.{Event};
ghost use Rattle.host_events.specs.declared.journal.Entry.{Entry};
ghost use Rattle.host_events.specs.declared.order.CodeOf.{CodeOf};
ghost use Rattle.host_events.specs.Steps.{entry_of};

use crate::order::{HasEvent, HasReply};

/// A state with a journal, to which each step adds one entry.
pub trait Kept: Drop {
    type Order: HasEvent;

    type Answer: HasReply;

    /// What no step changes.
    ghost Fixed: { Type 0 };

    ghost fixed: { Self → Fixed };

    /// The entries so far, the oldest first.
    ghost journal: { Self → List Entry };

    /// The journals that the type allows beside a fixed part. Each has fewer than 2^32 entries.
    ghost Allows: { Fixed → List Entry → Type 0 };

    /// The condition of a step, by the fixed part, the journal before it, the thread and the order.
    ghost Accepts: { Fixed → List Entry → ℕ → Self.Order → Type 0 };

    /// Where the code of the assembly comes from that an entry names, after the journal before it.
    ghost code_of: { List Entry → Entry → Option CodeOf };

    ghost few: { (part : Fixed) (entries : List Entry) → Allows part entries → length entries < 2 ^ 32 };

    /// The journal is one that the type allows. The call does nothing.
    fn keeps(&self)
        ensures { Allows (fixed self.now) (journal self.now) };

    /// Adds one entry: the thread, the order's event and the answer's reply.
    fn step(&mut self, thread: u32, order: Self::Order) -> Self::Answer
        requires { Accepts (fixed self.old) (journal self.old) thread order }
        ensures entry { journal self.new ≡ journal self.old
            ++ entry_of thread (Self.Order.event order) (Self.Answer.reply result) ∷ [] }
        ensures fixed { fixed self.new ≡ fixed self.old }
        ensures allowed { Allows (fixed self.new) (journal self.new) }
        ensures code { Self.Answer.code result ≡ code_of (journal self.old)
            (entry_of thread (Self.Order.event order) (Self.Answer.reply result)) };
}
