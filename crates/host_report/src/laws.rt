ghost use Rattle.host_report.specs.Laws.{ReadsBack, ReadsInOneWay};
ghost use Rattle.host_report.specs.Laws.{ReadsOrRefuses, RefusesNoReport, RefusesOnce};

/// A law over reports, which its clause states: a report reads back as the ends and the journal
/// that it was written of. The call does nothing.
pub fn reports_read_back()
    ensures { ReadsBack }
{}

/// A law over texts, which its clause states: a text reads back in one way at most. The call does
/// nothing.
pub fn one_reading()
    ensures { ReadsInOneWay }
{}

/// Laws over texts, which its clauses state: each text reads back or is refused at a line, none does
/// both, and it is refused at one line at most. The call does nothing.
pub fn read_or_refused()
    ensures either { ReadsOrRefuses }
    ensures apart { RefusesNoReport }
    ensures once { RefusesOnce }
{}
