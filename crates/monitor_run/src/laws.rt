// What the steps of a run make together, as the contracts of functions that do nothing.

ghost use Rattle.monitor_run.specs.inner.Laws.{FaultEndsInFault, IdleEndsAtBound, LimitEndsAtLimit, StepsGoOn};
ghost use Rattle.monitor_run.specs.inner.Resumed.{OneStateAfter, ResumesTheState, SavesTheState};

/// The text of an instant goes on from the text of those before.
pub fn steps_go_on()
    ensures { StepsGoOn }
{}

/// Where no step is left, the text is the due text, and the run ends at the bound.
pub fn idle_ends_at_bound()
    ensures { IdleEndsAtBound }
{}

/// Where a step answers a fault, the text is the due text, and the run ends in this fault.
pub fn fault_ends_in_fault()
    ensures { FaultEndsInFault }
{}

/// Where a step answers the limit, the text is the due text, and the run ends at the limit.
pub fn limit_ends_at_limit()
    ensures { LimitEndsAtLimit }
{}

/// What is saved of a monitor is the state after all events for which it stands.
pub fn saves_the_state()
    ensures { SavesTheState }
{}

/// A monitor that goes on from a state stands for all events that the state comes after.
pub fn resumes_the_state()
    ensures { ResumesTheState }
{}

/// There is one state after some events, at a bound. Neither handles show in it nor the order in which the events of a time came.
pub fn one_state_after()
    ensures { OneStateAfter }
{}
