// A law of the sample trace, as the contract of a function that does nothing.

ghost use Rattle.sample_trace.specs.inner.Laws.{HasOneLineEach};

/// The trace has one line for each time, in order.
pub fn has_one_line_each()
    ensures { HasOneLineEach }
{}
