// Laws of compiled sources, as the contracts of functions that do nothing.

ghost use Rattle.compiled_code.specs.Laws.{CompiledHasShortNames, CompiledHasNamedInputs, CompiledHasFewUpdates};
ghost use Rattle.compiled_code.specs.Spelled.{CompiledCodeHasASpelling, BareIsAlike, OneSpellingIsAlike};

/// Each name in a compiled system is one of the language.
pub fn compiled_has_short_names()
    ensures { CompiledHasShortNames }
{}

/// Each of its inputs has a name, and no two have the same.
pub fn compiled_has_named_inputs()
    ensures { CompiledHasNamedInputs }
{}

/// At most 256 of its updates run.
pub fn compiled_has_few_updates()
    ensures { CompiledHasFewUpdates }
{}

/// So compiled code has a spelling.
pub fn compiled_code_has_a_spelling()
    ensures { CompiledCodeHasASpelling }
{}

/// A system is like what a spelling of its code keeps of it.
pub fn bare_is_alike()
    ensures { BareIsAlike }
{}

/// Codes of one spelling have systems that are alike, and one plan.
pub fn one_spelling_is_alike()
    ensures { OneSpellingIsAlike }
{}
