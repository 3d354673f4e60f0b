// Constructs over streams, and the expressions of their parts.

use lift_func::body::Body;
use syntax_tree::tree::Expr;
use tsl_value::operation::Update;
use tsl_value::scalar::{Scalar, ValueType};

/// What is made of the streams of some parts.
#[derive(Drop)]
pub enum Construct {
    /// The stream without events.
    Nil,
    /// A unit at time 0.
    Unit,
    /// A literal at time 0.
    Literal(Scalar),
    /// The set or the map of this type that has no element, at time 0.
    Empty(ValueType),
    Time,
    Last,
    Delay,
    Merge,
    /// A literal at each event of its part.
    Const(Scalar),
    Filter,
    /// A filter whose condition is a literal, which is no part.
    FilterBy(bool),
    /// A function of the options of events, by its body.
    Lift(Body),
    /// A function of current values, by its body. Operands that are literals stand in the body and are no parts.
    Signal(Body),
    /// An update of a set or a map, with its operands: a literal, or None for the next part.
    Update(Update, Vec<Option<Scalar>>),
}

/// A construct, and the expressions of its parts in the order of the source.
#[derive(Drop)]
pub struct Shape<'a> {
    pub construct: Construct,
    pub parts: Vec<&'a Expr>,
}
