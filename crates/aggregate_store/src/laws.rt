// Laws of what cells have.

ghost use Rattle.aggregate_store.specs.Content.{ContentsAreViews};

/// A value and its content, with keys in their order, are two forms of the same.
pub fn contents_are_views()
    ensures { ContentsAreViews }
{}
