//! What the entries say of handles, found by going through them.
ghost use Rattle.std.specs.Prelude.{◌≡◌};
ghost use Rattle.host_events.specs.Handles.{weak_context, weak_of, weakly};

use host_events::{Entry, Event, Reply};

/// The context of the weak handle; `None` exactly where it was not made.
pub(crate) fn weakly(entries: &[Entry], handle: &[u8]) -> Option<u32>
    ensures { result ≡ weakly entries.now handle.now }
{
    for entry in entries {
        let made = weak_of(handle, entry);
        if made.is_some() {
            return made;
        }
    }
    None
}

/// The context of which the entry made this weak handle.
fn weak_of(handle: &[u8], entry: &Entry) -> Option<u32>
    ensures { result ≡ weak_of handle.now entry.now.event entry.now.reply }
{
    match &entry.event {
        Event::Weak { handle: other, .. } if other.bytes() == handle => weak_context(&entry.reply),
        _ => None,
    }
}

fn weak_context(reply: &Reply) -> Option<u32>
    ensures { result ≡ weak_context reply.now }
{
    match reply {
        Reply::Weakly(context) => Some(*context),
        _ => None,
    }
}
