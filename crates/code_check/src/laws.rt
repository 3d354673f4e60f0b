// A law of what is answered, as the contract of a function that does nothing.

ghost use Rattle.code_check.specs.Laws.{AllHaveOneAnswer};

/// Bytes are one code, or one fault aside from being out of memory: each answer comes exactly where it holds.
pub fn all_have_one_answer()
    ensures { AllHaveOneAnswer }
{}
