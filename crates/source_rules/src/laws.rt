// Laws of sources, as the contracts of functions that do nothing.

ghost use Rattle.source_rules.specs.inner.Laws.{OneReading, OneSystem, RefusedSpellsNone, OneRefusal, RefusalsAreNoMemory};

/// A source has one reading: it specifies one list of items at most, with one kind of each name.
pub fn one_reading()
    ensures { OneReading }
{}

/// A source is one specification at most, which means one system.
pub fn one_system()
    ensures { OneSystem }
{}

/// A source that is refused, other than out of memory, is none.
pub fn refused_spells_none()
    ensures { RefusedSpellsNone }
{}

/// A source is refused in one way at most, other than out of memory: two refusals by a cycle have the same place and the same
/// names, and any other two are equal.
pub fn one_refusal()
    ensures { OneRefusal }
{}

/// A refusal that names a phase has a reason of that phase, and is never that the phase was out of memory.
pub fn refusals_are_no_memory()
    ensures { RefusalsAreNoMemory }
{}
