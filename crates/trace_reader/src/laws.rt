// What holds of every reading of a trace, as the contracts of functions that do nothing.

ghost use Rattle.trace_reader.specs.inner.Laws.{ClosedStays, EventsAreDistinct, LaterLinesAreLater, LinesAreProper, LinesAreSorted};
ghost use Rattle.trace_reader.specs.inner.Laws.{LinesStay, OthersLeaveReading};
ghost use Rattle.trace_reader.specs.inner.Laws.{RefusalStays, SpelledAgrees};

/// The lines of a beginning of a trace are the first lines of the whole.
pub fn lines_stay()
    ensures { LinesStay }
{}

/// What a beginning is refused for, the whole is refused for.
pub fn refusal_stays()
    ensures { RefusalStays }
{}

/// The times of lines never fall.
pub fn lines_are_sorted()
    ensures { LinesAreSorted }
{}

/// Each time is below 2^63, each event is one of an input and of its type, and texts are short.
pub fn lines_are_proper()
    ensures { LinesAreProper }
{}

/// An input has one event at a time at most.
pub fn events_are_distinct()
    ensures { EventsAreDistinct }
{}

/// Lines that follow a beginning's last line have no lower times.
pub fn later_lines_are_later()
    ensures { LaterLinesAreLater }
{}

/// What a beginning closes, the whole closes.
pub fn closed_stays()
    ensures { ClosedStays }
{}

/// A line is skipped, says what it says and is refused exactly as the relation over its characters
/// has it: blanks and comments, the three forms, names, values and the causes in their order.
pub fn spelled_agrees()
    ensures { SpelledAgrees }
{}

/// Equations that are no inputs change nothing of what is read.
pub fn others_leave_reading()
    ensures { OthersLeaveReading }
{}
