use crate::event::Event;
use crate::reply::Reply;
use cli_words::Listed;

/// One event of a thread, with the host's reply.
#[derive(Debug, Drop)]
pub struct Entry {
    /// The thread, counted from 1.
    pub thread: u32,
    pub event: Event,
    pub reply: Reply,
}

/// All entries of a run so far, the oldest first.
pub type Journal = Listed<Entry>;
