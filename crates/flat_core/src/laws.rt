// Laws of solutions, as the contracts of functions that do nothing.

ghost use Rattle.flat_core.specs.inner.Laws.{SolutionsAgree, SolutionsExist, WellFormedHasOneSolution};
ghost use Rattle.flat_core.specs.inner.TypedEvents.{TypedLinesGiveTypedInputs, TypedInputsGiveTypedEvents};
ghost use Rattle.flat_core.specs.inner.BoundLaws.{LaterLinesLeaveEarlier, SmallerBoundIsSolved, EarlierInstantsComeFirst};
ghost use Rattle.flat_core.specs.inner.BoundLaws.{AgreeingStreamsMeanTheSame, OneFaultIsNamed, AllHappensAtInstants};

/// A system in dependency order has one solution at most.
pub fn solutions_agree()
    ensures { SolutionsAgree }
{}

/// A system in dependency order has a solution.
pub fn solutions_exist()
    ensures { SolutionsExist }
{}

/// A well-formed system has one solution below each bound.
pub fn well_formed_has_one_solution()
    ensures { WellFormedHasOneSolution }
{}

/// What happens below a bound does not depend on lines from the bound on.
pub fn later_lines_leave_earlier()
    ensures { LaterLinesLeaveEarlier }
{}

/// A solution below a bound is one below each smaller bound.
pub fn smaller_bound_is_solved()
    ensures { SmallerBoundIsSolved }
{}

/// The instants below a smaller bound are the first of those below a larger one.
pub fn earlier_instants_come_first()
    ensures { EarlierInstantsComeFirst }
{}

/// Whichever of two solutions that agree is taken, instants, faults and output events are the same.
pub fn agreeing_streams_mean_the_same()
    ensures { AgreeingStreamsMeanTheSame }
{}

/// At most one fault is named.
pub fn one_fault_is_named()
    ensures { OneFaultIsNamed }
{}

/// All that happens in a well-formed system, root faults among it, happens at instants.
pub fn all_happens_at_instants()
    ensures { AllHappensAtInstants }
{}

/// Lines whose events are of their inputs' types give typed inputs.
pub fn typed_lines_give_typed_inputs()
    ensures { TypedLinesGiveTypedInputs }
{}

/// In a solution for typed inputs each event is of its equation's type.
pub fn typed_inputs_give_typed_events()
    ensures { TypedInputsGiveTypedEvents }
{}
