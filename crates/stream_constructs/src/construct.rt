// Streams that constructs are made of.

use tsl_value::ids::EqId;
use tsl_value::scalar::{Scalar, ValueType};

/// The stream of an equation: its number, and the type of its events.
#[derive(Clone, Copy)]
pub struct Stream {
    pub id: EqId,
    pub of: ValueType,
}

/// An operand of an update or of a choice: a literal, or a stream.
#[derive(Drop)]
pub enum Operand {
    Fixed(Scalar),
    Varying(Stream),
}
