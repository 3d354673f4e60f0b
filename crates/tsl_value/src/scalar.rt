// Scalars and types.

ghost use Rattle.std.specs.Prelude.{◌≡◌, IfOk, OnErr};
ghost use Rattle.tsl_value.specs.Aggregate.{is_aggregate};
ghost use Rattle.tsl_value.specs.View.{type_of};

use crate::memory::NoMemory;
use crate::text::Text;
use std::alloc::AllocError;

/// A value that is no aggregate.
#[derive(Drop)]
pub enum Scalar {
    Unit,
    Int(i64),
    Bool(bool),
    Text(Text),
}

impl Scalar {
    /// An equal value. Only a text takes memory.
    pub fn copy(&self) -> Result<Scalar, NoMemory>
        ensures equal { IfOk result (λ s. s ≡ self.now) }
        ensures text { OnErr result (type_of self.now ≡ ScalarType.Text) }
    {
        match self {
            Scalar::Unit => Ok(Scalar::Unit),
            Scalar::Int(n) => Ok(Scalar::Int(*n)),
            Scalar::Bool(b) => Ok(Scalar::Bool(*b)),
            Scalar::Text(text) => Ok(Scalar::Text(text.copy()?)),
        }
    }
}

impl Clone for Scalar {
    ghost is_clone = { λ a b. b ≡ a };

    fn clone(&self) -> Result<Scalar, AllocError> {
        match self {
            Scalar::Unit => Ok(Scalar::Unit),
            Scalar::Int(n) => Ok(Scalar::Int(*n)),
            Scalar::Bool(b) => Ok(Scalar::Bool(*b)),
            Scalar::Text(text) => Ok(Scalar::Text(text.clone()?)),
        }
    }
}

/// The types of scalars.
#[derive(Clone, Copy, PartialEq, Eq, Debug)]
pub enum ScalarType {
    Unit,
    Int,
    Bool,
    Text,
}

/// The types of the keys of sets and maps.
#[derive(Clone, Copy, PartialEq, Eq, Debug)]
pub enum KeyType {
    Int,
    Bool,
    Text,
}

/// The types of values: a scalar, a set of keys, a map from keys to scalars, or a queue of scalars.
#[derive(Clone, Copy, PartialEq, Eq, Debug)]
pub enum ValueType {
    Scalar(ScalarType),
    Set(KeyType),
    Map(KeyType, ScalarType),
    Queue(ScalarType),
}

impl ValueType {
    /// Whether its values are aggregates.
    pub fn is_aggregate(self) -> bool
        ensures { result ≡ is_aggregate self }
    {
        match self {
            ValueType::Scalar(_) => false,
            ValueType::Set(_) => true,
            ValueType::Map(_, _) => true,
            ValueType::Queue(_) => true,
        }
    }
}
