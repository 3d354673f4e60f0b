// Laws of flat systems, as the contracts of functions that do nothing.

ghost use Rattle.flat_meaning.specs.inner.OneFlat.{OneFlat, OneSystem};

/// The equations and the outputs of a specification are determined by what its declared names are.
pub fn one_flat()
    ensures { OneFlat }
{}

/// A specification has one flat system at most.
pub fn one_system()
    ensures { OneSystem }
{}
