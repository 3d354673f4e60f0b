// Expressions that do not fit.

use tsl_value::place::Place;
use type_rules::rule::{Asked, Clash, ExprType};

/// An expression whose parts are well typed and whose own rule is broken, or a body that is not what is asked of it.
#[derive(Clone, Copy, PartialEq, Eq, Debug)]
pub enum Wrong {
    /// A part does not fit, at the place of the expression.
    Part {
        place: Place,
        clash: Clash,
    },
    /// Braces stand where no macro is defined. What is written there is wanted, or a literal where nothing is.
    Braces {
        place: Place,
        written: Option<ExprType>,
    },
}
