// What holds of all written types.

ghost use Rattle.type_rules.specs.inner.Laws.{StreamOrBad, WrittenOrBad};

/// The type of a parameter, a macro or a value function stands for something just where nothing in it may not stand.
#[tactic(auto, using(crate::proofs::WrittenLemmas::written_or_bad))]
pub fn written_or_bad()
    ensures { WrittenOrBad }
{}

/// So does that of an input or of a definition without parameters.
#[tactic(auto, using(crate::proofs::WrittenLemmas::stream_or_bad))]
pub fn stream_or_bad()
    ensures { StreamOrBad }
{}
