ghost use Rattle.command_flow.specs.Laws.{CommandsInOrder, DueEventsFit, HasOneEnd};

/// A law over threads, which its clause states: events with their replies have one list of ends at
/// most, and no whole run is a proper front of another. The call does nothing.
pub fn one_end()
    ensures { HasOneEnd }
{}

/// A law over threads, which its clause states: each event was due, and no other was. The call does
/// nothing.
pub fn commands_in_order()
    ensures { CommandsInOrder }
{}

/// A law over threads, which its clause states: what is due in a thread fits after a proper journal.
/// The call does nothing.
pub fn due_events_fit()
    ensures { DueEventsFit }
{}
