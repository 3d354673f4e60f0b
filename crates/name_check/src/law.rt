// What holds of all answers.

ghost use Rattle.name_check.specs.inner.Laws.{HasOneAnswer};

/// No specification has two answers, other than out of memory.
#[tactic(auto, using(crate::proofs::LawLemmas::one_answer))]
pub fn one_answer()
    ensures { HasOneAnswer }
{}
