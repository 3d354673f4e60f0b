// A law of cycles, as the contract of a function that does nothing.

ghost use Rattle.recursion_check.specs.inner.Laws.{OneCycle};

/// At most one list is the cycle that is answered.
pub fn one_cycle()
    ensures { OneCycle }
{}
