// Laws of typed expressions, as the contracts of functions that do nothing.

ghost use Rattle.checked_spec.specs.inner.FlatLaws.{PartsAreTyped, ConstructsFit, ChoicesFit, NamesAreTyped, CallsAreTyped};
ghost use Rattle.checked_spec.specs.inner.Chains.{ChainsBegin, ChainsAreOfLevel, OperandsOfChains, OneOperandIsTyped};
ghost use Rattle.checked_spec.specs.inner.Inner.{SubsAreFormed, OperandsStandIn, ArgumentsStandIn};

/// The parts of a typed stream are streams.
pub fn parts_are_typed()
    ensures { PartsAreTyped }
{}

/// The construct of a typed stream fits the streams of its parts.
pub fn constructs_fit()
    ensures { ConstructsFit }
{}

/// A choice between sets or maps fits the streams of its parts.
pub fn choices_fit()
    ensures { ChoicesFit }
{}

/// A name is what it stands for.
pub fn names_are_typed()
    ensures { NamesAreTyped }
{}

/// What is typed around a call of a macro is typed inside of it.
pub fn calls_are_typed()
    ensures { CallsAreTyped }
{}

/// Each beginning of a typed chain is of the type of the whole.
pub fn chains_begin()
    ensures { ChainsBegin }
{}

/// A typed chain with an operator is of the type of the operands of its level.
pub fn chains_are_of_level()
    ensures { ChainsAreOfLevel }
{}

/// All the operands of a typed chain are of the type of the operands of its level.
pub fn operands_of_chains()
    ensures { OperandsOfChains }
{}

/// A typed chain of one operand is of the type of that.
pub fn one_operand_is_typed()
    ensures { OneOperandIsTyped }
{}

/// What stands in the parts of an expression stands in the expression itself.
pub fn subs_are_formed()
    ensures { SubsAreFormed }
{}

/// What stands in an operand of a chain stands in the chain.
pub fn operands_stand_in()
    ensures { OperandsStandIn }
{}

/// What stands in an argument of a call that is no `lift` stands in the call.
pub fn arguments_stand_in()
    ensures { ArgumentsStandIn }
{}
