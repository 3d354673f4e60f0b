// The laws of the spelling of states, as the contracts of functions that do nothing.

ghost use Rattle.state_snapshot.specs.Laws.{NoneBegins, NoneBeginsOther, SpellOneState};

/// No two states that fit a code have one spelling.
pub fn spell_one_state()
    ensures { SpellOneState }
{}

/// No spelling of a state that fits a code begins another, so nothing may follow one.
pub fn none_begins()
    ensures { NoneBegins }
{}

/// No spelling begins one of a program with another text.
pub fn none_begins_other()
    ensures { NoneBeginsOther }
{}
