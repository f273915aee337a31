ghost use Rattle.bind_flow.specs.Laws.{BindsInOrder, OneBind};

/// A law over binds, which its clause states: a bind has one outcome at most, and no whole bind is a
/// proper front of another. The call does nothing.
pub fn one_bind()
    ensures { OneBind }
{}

/// A law over binds, which its clause states: which event is due follows from the events before it
/// with their replies. The call does nothing.
pub fn binds_in_order()
    ensures { BindsInOrder }
{}
