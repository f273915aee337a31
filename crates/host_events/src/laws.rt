ghost use Rattle.host_events.specs.Laws.{AssembliesStay, HasOneReply, NamedAreMade};
ghost use Rattle.host_events.specs.Laws.{OwnEntriesTellOpen, OwnEntriesTellReplies};
ghost use Rattle.host_events.specs.Laws.{OwnEntriesTellWithin};

/// A law over journals, which its clause states: an event has at most one reply after a journal.
/// The call does nothing.
pub fn one_reply()
    ensures { HasOneReply }
{}

/// A law over journals, which its clause states: a thread whose own entries leave no operation open
/// is within none. The call does nothing.
pub fn own_entries_tell_open()
    ensures { OwnEntriesTellOpen }
{}

/// A law over proper journals, which its clause states: what a thread has open follows from its own
/// entries. The call does nothing.
pub fn own_entries_tell_within()
    ensures { OwnEntriesTellWithin }
{}

/// A law over proper journals, which its clause states: the replies of an open operation are those
/// to the thread's own entries since it began. The call does nothing.
pub fn own_entries_tell_replies()
    ensures { OwnEntriesTellReplies }
{}

/// A law over proper journals, which its clause states: an assembly that a reply names is the
/// platform, or was made. The call does nothing.
pub fn named_are_made()
    ensures { NamedAreMade }
{}

/// A law over journals, which its clause states: an assembly stays what it was made of. The call
/// does nothing.
pub fn assemblies_stay()
    ensures { AssembliesStay }
{}
