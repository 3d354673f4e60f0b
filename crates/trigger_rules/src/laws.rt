// Laws of trigger formulas, as the contracts of functions that do nothing.

ghost use Rattle.trigger_rules.specs.inner.Laws.{FormulasTellEvents, SoundTimesHaveNoFault, StartingHappens, StartedIsThere};
ghost use Rattle.trigger_rules.specs.inner.Laws.{ImpliedHappens};
ghost use Rattle.trigger_rules.specs.inner.Laws.{ApartNeverMeet};

/// The formula of an equation that is not Fault is true exactly where the equation has an event, up to the fault time.
pub fn formulas_tell_events()
    ensures { FormulasTellEvents }
{}

/// No outcome is Fault at a time that has no root fault.
pub fn sound_times_have_no_fault()
    ensures { SoundTimesHaveNoFault }
{}

/// An equation that starts has an event at 0.
pub fn starting_happens()
    ensures { StartingHappens }
{}

/// After 0 a `last` of an equation that starts has an event wherever its second argument has one.
pub fn started_is_there()
    ensures { StartedIsThere }
{}

/// Where an equation has an event, so has each one that it implies.
pub fn implied_happens()
    ensures { ImpliedHappens }
{}

/// Equations that are not together never have events at one time.
pub fn apart_never_meet()
    ensures { ApartNeverMeet }
{}
