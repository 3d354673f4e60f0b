// Laws of the order of a plan, as the contracts of functions that do nothing.

ghost use Rattle.register_code.specs.inner.Laws.{LeastStepsFirst, OnePlanOrder};

/// At each place of the order stands the least step that may stand there.
pub fn least_steps_come_first()
    ensures { LeastStepsFirst }
{}

/// A system has at most one such order.
pub fn one_plan_order()
    ensures { OnePlanOrder }
{}
