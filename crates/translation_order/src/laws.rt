// Laws of orders and cycles, as the contracts of functions that do nothing.

ghost use Rattle.translation_order.specs.inner.Laws.{OneOrder, OneCycle, CycleOfWalkIsCycle};

/// At most one list is the order of steps.
pub fn one_order()
    ensures { OneOrder }
{}

/// At most one list is the cycle that is answered.
pub fn one_cycle()
    ensures { OneCycle }
{}

/// The cycle at the end of the walk is a cycle.
pub fn cycle_of_walk_is_cycle()
    ensures { CycleOfWalkIsCycle }
{}
