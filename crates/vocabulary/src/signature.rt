// What functions take and give, and what they are.

ghost use Rattle.std.specs.Prelude.{◌≡◌};
ghost use Rattle.vocabulary.specs.Table.{how_many};

use crate::kind::Kind;
use tsl_value::operation::{Binary, Unary, Update};
use tsl_value::scalar::ScalarType;

/// A type in a signature. Every signature has the same two variables, the type of keys and the type of entries. The first argument
/// fixes them.
#[derive(Clone, Copy)]
pub enum Term {
    /// An aggregate of this kind: a set of keys, a map from keys to entries, a queue of entries.
    Of(Kind),
    Key,
    Entry,
    Scalar(ScalarType),
}

/// What a function takes.
#[derive(Clone, Copy)]
pub enum Parameters {
    One(Term),
    Two(Term, Term),
    Three(Term, Term, Term),
}

impl Parameters {
    pub(crate) fn how_many(self) -> usize
        ensures { result ≡ how_many self }
    {
        match self {
            Parameters::One(_) => 1,
            Parameters::Two(_, _) => 2,
            Parameters::Three(_, _, _) => 3,
        }
    }
}

/// What a function is: an operation of value functions, or an update.
#[derive(Clone, Copy)]
pub enum Role {
    Unary(Unary),
    Binary(Binary),
    Update(Update),
}
