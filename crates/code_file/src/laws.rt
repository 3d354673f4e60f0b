// The laws of the spelling of code, as the contracts of functions that do nothing.

ghost use Rattle.code_file.specs.Laws.{SpellOneCode};

/// No two codes have one spelling, aside from equations that do not run, and no spelling begins another.
pub fn spell_one_code()
    ensures { SpellOneCode }
{}
