ghost use Rattle.alc_program.specs.Laws.{GoodIsPrintable, GoodIsProper, HasOneRun};

/// A law over runs, which its clause states: a script and a schedule have one journal and one list
/// of ends at most, so a report says all there is to say. The call does nothing.
pub fn one_run()
    ensures { HasOneRun }
{}

/// A law over runs, which its clause states: in a good journal each entry came where it fits. The
/// call does nothing.
pub fn good_is_proper()
    ensures { GoodIsProper }
{}

/// A law over runs, which its clause states: in a good journal of an accepted script, and in its
/// ends, each value is one that a report can tell, so the report reads back. The call does nothing.
pub fn good_is_printable()
    ensures { GoodIsPrintable }
{}
