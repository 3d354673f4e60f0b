// Laws of compiled specifications, as the contracts of functions that do nothing.

ghost use Rattle.compiled_meaning.specs.inner.Laws.{OneIsCompiled, RefusedCompilesNone, CompiledSaysWhatIsMeant, SomethingHappens};
ghost use Rattle.compiled_meaning.specs.inner.Laws.{CompiledIsReady, FaultsAreDecided, InputsAreDeclared, InputsStandAtTheirNumbers};

/// A source is one specification at most, and one system at most is run for it.
pub fn one_is_compiled()
    ensures { OneIsCompiled }
{}

/// For a source that is refused, other than out of memory, no system is run.
pub fn refused_compiles_none()
    ensures { RefusedCompilesNone }
{}

/// What is compiled is ready to run, whoever compiled it.
pub fn compiled_is_ready()
    ensures { CompiledIsReady }
{}

/// The system that is run has the inputs that the items declare, under the same numbers, and no others.
pub fn inputs_are_declared()
    ensures { InputsAreDeclared }
{}

/// The input that an item declares stands at the number by which the meaning knows it.
pub fn inputs_stand_at_their_numbers()
    ensures { InputsStandAtTheirNumbers }
{}

/// What the system that is run says of a trace, the specification says, where the events of its lines are of their inputs' types.
pub fn compiled_says_what_is_meant()
    ensures { CompiledSaysWhatIsMeant }
{}

/// In a specification that is compiled one thing happens at each occurrence that is needed, at each time.
pub fn something_happens()
    ensures { SomethingHappens }
{}

/// It is decided whether a time has a root fault.
pub fn faults_are_decided()
    ensures { FaultsAreDecided }
{}
