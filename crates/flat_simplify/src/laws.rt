// Laws of simplification, as the contracts of functions that do nothing.

ghost use Rattle.flat_simplify.specs.inner.Laws.{StandInsFit, OneStandsForEach, OneIsSimplified, ReplacementsExist, EquationsAreKept};
ghost use Rattle.flat_simplify.specs.inner.Laws.{SimplifiedIsFit, StreamsAreKept, FaultsAreKept, TextIsKept, EndsAreKept};

/// What stands for a running equation runs, is not replaced and has its type.
pub fn stand_ins_fit()
    ensures { StandInsFit }
{}

/// At most one number stands for an equation.
pub fn one_stands_for_each()
    ensures { OneStandsForEach }
{}

/// At most one system is what simplification makes of a system.
pub fn one_is_simplified()
    ensures { OneIsSimplified }
{}

/// Where it can be told which equations are replaced, each has a number that stands for it.
pub fn replacements_exist()
    ensures { ReplacementsExist }
{}

/// Each equation stays at its number, and has its operation, type, name and place.
pub fn equations_are_kept()
    ensures { EquationsAreKept }
{}

/// What simplification makes is proper, well typed and well-formed, and runs all that ran and can fault.
pub fn simplified_is_fit()
    ensures { SimplifiedIsFit }
{}

/// Up to the fault time an equation that is not Fault has the outcome of what stands for it.
pub fn streams_are_kept()
    ensures { StreamsAreKept }
{}

/// The fault time stays, and at it all root faults.
pub fn faults_are_kept()
    ensures { FaultsAreKept }
{}

/// The instants up to the fault time stay, and so does the text that is due.
pub fn text_is_kept()
    ensures { TextIsKept }
{}

/// A run ends in a fault, at the limit of instants or at the bound, in both systems alike.
pub fn ends_are_kept()
    ensures { EndsAreKept }
{}
