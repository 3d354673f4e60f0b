// Laws of answers, as the contracts of functions that do nothing.

ghost use Rattle.trace_why.specs.inner.Laws.{AnswersAsMeant, AwaitsAsMeant, OneAnswer, OneKindIsMeant};

/// Causes exclude each other: after some bytes of a trace a question has one answer, but for the text of its derivation.
pub fn one_answer()
    ensures { OneAnswer }
{}

/// The cause that an ending has in the system of a source, it has by the meaning of the specification.
pub fn answers_as_meant()
    ensures { AnswersAsMeant }
{}

/// Where the system lets the trace be read further, the specification does.
pub fn awaits_as_meant()
    ensures { AwaitsAsMeant }
{}

/// By the meaning causes of different kinds exclude each other as well.
pub fn one_kind_is_meant()
    ensures { OneKindIsMeant }
{}
