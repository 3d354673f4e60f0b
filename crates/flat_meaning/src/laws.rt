// Laws of meanings, as the contracts of functions that do nothing.

ghost use Rattle.flat_meaning.specs.inner.Laws.{FlatMeansTheSame, FlatTextIsDue, OneThingHappens, OneTextIsDue};

/// At most one thing happens at an occurrence at a time.
pub fn one_thing_happens()
    ensures { OneThingHappens }
{}

/// At most one text is due.
pub fn one_text_is_due()
    ensures { OneTextIsDue }
{}

/// Streams that solve the flat system of a specification are those of the specification, with the same root faults and the same
/// events of delays.
pub fn flat_means_the_same()
    ensures { FlatMeansTheSame }
{}

/// The text of the output events of the flat system of a specification is the text that is due.
pub fn flat_text_is_due()
    ensures { FlatTextIsDue }
{}
