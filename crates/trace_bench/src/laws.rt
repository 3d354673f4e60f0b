// Laws of the bench, as the contracts of functions that do nothing.

ghost use Rattle.trace_bench.specs.inner.Laws.{OneEnding, RefusedBenchesNone};

/// What comes of a specification over the sample trace ends in one way.
pub fn one_ending()
    ensures { OneEnding }
{}

/// Nothing comes of a specification that is refused, other than out of memory.
pub fn refused_benches_none()
    ensures { RefusedBenchesNone }
{}
