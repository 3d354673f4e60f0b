// Laws of diagrams, as the contracts of functions that do nothing.

ghost use Rattle.trigger_diagram.specs.inner.Ways.{NestsByVariables, VariablesStand};

/// Calls for two nodes nest no deeper than both nodes have different variables.
pub fn calls_nest_by_variables()
    ensures { NestsByVariables }
{}

/// The node of an equation has no variable but those of atoms that stand in the equation's formula.
pub fn variables_stand_in_formulas()
    ensures { VariablesStand }
{}
