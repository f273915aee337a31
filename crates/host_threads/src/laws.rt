ghost use Rattle.host_threads.specs.Laws.{HasOneJournal};

/// A law over turns, which its clause states: where what a thread asks for next is a function of its
/// events so far with their replies, a schedule has one journal at most. The call does nothing.
pub fn one_journal()
    ensures { HasOneJournal }
{}
