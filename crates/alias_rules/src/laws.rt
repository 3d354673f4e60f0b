// Laws of updates in place, as the contracts of functions that do nothing.

ghost use Rattle.alias_rules.specs.inner.Laws.{SharingIsOfStored, AliasedRootsShare, AliasTurns, NoneBypassesItself, OneIsKeptFirst};
ghost use Rattle.alias_rules.specs.inner.Laws.{OneIsNotOverwrittenFirst, OneListedSet, EmptySetIsFine, ListedSetIsFit};
ghost use Rattle.alias_rules.specs.inner.Laws.{OneLeastOrder, TakenPlanIsFine, OneTakenPlan, SomePlanIsTaken, FineSetHasAnOrder};

/// Sharing is of stored variables.
pub fn sharing_is_of_stored()
    ensures { SharingIsOfStored }
{}

/// Stored variables share where they have roots that alias.
pub fn aliased_roots_share()
    ensures { AliasedRootsShare }
{}

/// A root aliases another where the other aliases it.
pub fn alias_turns()
    ensures { AliasTurns }
{}

/// No update of the set bypasses itself.
pub fn none_bypasses_itself()
    ensures { NoneBypassesItself }
{}

/// At most one update and variable are the first that are kept.
pub fn one_is_kept_first()
    ensures { OneIsKeptFirst }
{}

/// At most one update and variable are the first that are not overwritten.
pub fn one_is_not_overwritten_first()
    ensures { OneIsNotOverwrittenFirst }
{}

/// At most one set of updates is listed.
pub fn one_listed_set()
    ensures { OneListedSet }
{}

/// Without updates in place a well-formed system has no conflict.
pub fn empty_set_is_fine()
    ensures { EmptySetIsFine }
{}

/// The listed set is one of running updates, and fine.
pub fn listed_set_is_fit()
    ensures { ListedSetIsFit }
{}

/// A set of updates has at most one least order of the steps.
pub fn one_least_order()
    ensures { OneLeastOrder }
{}

/// The plan that is taken is fine.
pub fn taken_plan_is_fine()
    ensures { TakenPlanIsFine }
{}

/// At most one plan is taken.
pub fn one_taken_plan()
    ensures { OneTakenPlan }
{}

/// It cannot be that no plan is taken.
pub fn some_plan_is_taken()
    ensures { SomePlanIsTaken }
{}

/// It cannot be that a fine set has no least order of the steps.
pub fn fine_set_has_an_order()
    ensures { FineSetHasAnOrder }
{}
