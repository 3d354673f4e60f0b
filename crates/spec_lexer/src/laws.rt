// Laws of sources, as the contracts of functions that do nothing.

ghost use Rattle.spec_lexer.specs.inner.Laws.{OneList, OneFault, FaultExcludesTokens, SomeAnswer};

/// A source has one list of tokens at most.
pub fn one_list()
    ensures { OneList }
{}

/// A source has one fault at most.
pub fn one_fault()
    ensures { OneFault }
{}

/// A source that has a fault has no tokens.
pub fn fault_excludes_tokens()
    ensures { FaultExcludesTokens }
{}

/// Each source, whatever its bytes, has tokens or a fault.
pub fn some_answer()
    ensures { SomeAnswer }
{}
