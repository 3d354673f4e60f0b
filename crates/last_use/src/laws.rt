// Laws of reasons, as the contracts of functions that do nothing.

ghost use Rattle.last_use.specs.inner.Laws.{OneReason, FineSetHasNoReason};

/// A set has at most one reason why its updates cannot all happen in place.
pub fn one_reason()
    ensures { OneReason }
{}

/// A fine set has none.
pub fn fine_set_has_no_reason()
    ensures { FineSetHasNoReason }
{}
