// That the equations of constructs make their streams, as the contracts of functions that do nothing.

ghost use Rattle.stream_constructs.specs.Agree.{ConstructsAreMade, ConstructsHangTogether, ChoicesAreMade, ChoicesHangTogether};
ghost use Rattle.stream_constructs.specs.Agree.{AliasesAreMade, AliasesHangTogether};

/// Where the equations of a construct have their cases, the last one has what the construct makes of its parts.
pub fn constructs_are_made()
    ensures { ConstructsAreMade }
{}

/// The equations of a construct hang together, and are well typed where its parts are.
pub fn constructs_hang_together()
    ensures { ConstructsHangTogether }
{}

/// A choice between two sets or maps means what `if` means.
pub fn choices_are_made()
    ensures { ChoicesAreMade }
{}

/// The equations of such a choice hang together, and are well typed where its parts are.
pub fn choices_hang_together()
    ensures { ChoicesHangTogether }
{}

/// The equation of a definition that is only a name has the stream of that name.
pub fn aliases_are_made()
    ensures { AliasesAreMade }
{}

/// It hangs together with that stream, and is well typed where it is.
pub fn aliases_hang_together()
    ensures { AliasesHangTogether }
{}
