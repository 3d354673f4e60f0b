// A law of value functions.

ghost use Rattle.body_eval.specs.inner.Textless.{TextlessBodies};

/// In a well typed body of which no literal, argument or operation is of a text's type, none is a text.
pub fn textless_bodies()
    ensures { TextlessBodies }
{}
