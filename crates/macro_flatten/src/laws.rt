// Laws of the marks of flat systems, as the contracts of functions that do nothing.

ghost use Rattle.macro_flatten.specs.inner.Laws.{FlatsHaveTheMarks, RefusalsAreThoseOfMarks};

/// The equations of a checked specification have its marks, however many they are.
pub fn flats_have_the_marks()
    ensures { FlatsHaveTheMarks }
{}

/// The marks of a checked specification pass the limits just where its equations do.
pub fn refusals_are_those_of_marks()
    ensures { RefusalsAreThoseOfMarks }
{}
