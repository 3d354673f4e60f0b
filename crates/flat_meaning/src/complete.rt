// A law of flat systems, as the contract of a function that does nothing.

ghost use Rattle.flat_meaning.specs.inner.Complete.{FlatsAreComplete};

/// The flat system of a checked specification that has outputs is complete: its equations are well typed, its outputs are those of
/// equations that are there, under different names, and its texts are as short as those of the source.
pub fn flats_are_complete()
    ensures { FlatsAreComplete }
{}
