// Laws of values.

ghost use Rattle.tsl_value.specs.inner.Laws.{ReadsPrinted};

/// What is printed of an Int, a Bool, or a text of at most 65,536 bytes, is read as the same value.
pub fn printed_values_are_read()
    ensures { ReadsPrinted }
{}
