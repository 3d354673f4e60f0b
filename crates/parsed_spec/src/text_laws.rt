// The law as the contract of a function that does nothing.

ghost use Rattle.parsed_spec.specs.inner.TextLaws.{SpelledHaveShortTexts};

/// Each text in the bodies of items that the tokens of a source spell has at most 65,536 bytes.
pub fn spelled_have_short_texts()
    ensures { SpelledHaveShortTexts }
{}
