// Why a specification is refused for its names or its types.

ghost use Rattle.std.specs.Prelude.{◌≡◌};
ghost use Rattle.type_check.specs.Kind.{kind_of, asked_kind, written_kind, wrong_type};
ghost use Rattle.type_check.specs.declared.fault.TypeFault.TheVariants.{Memory as OutOfMemory};

use expr_types::wrong::Wrong;
use tsl_value::memory::NoMemory;
use tsl_value::place::Place;
use tsl_value::scalar::ValueType;
use type_rules::rule::{Asked, ExprType, Family};

/// What an expression is, or what is asked of it.
#[derive(Clone, Copy, PartialEq, Eq, Debug)]
pub enum Kind {
    Stream(ValueType),
    Value(ValueType),
    /// An option of a type.
    Optional(ValueType),
    Function,
    Literal,
    /// One of the types of a family.
    OneOf(Family),
}

/// Why a specification is refused. The kinds stand in the order in which they are checked, and the first that occurs is
/// answered, at its first place in the source.
#[derive(Clone, Copy, PartialEq, Eq, Debug)]
pub enum TypeFault {
    /// The name is declared in its scope already, or is one of the language's own.
    DefinedTwice {
        place: Place,
    },
    /// The name is not declared where it stands, or is a function that is not called.
    UnknownName {
        place: Place,
    },
    /// The type may not stand here.
    BadType {
        place: Place,
    },
    /// Some parameters are streams and some are not.
    MixedParameters {
        place: Place,
    },
    /// An input of a set or a map.
    AggregateInput {
        place: Place,
    },
    /// The value function lies on a cycle of calls.
    FunctionCycle {
        place: Place,
    },
    /// The definition has no written type and lies on a cycle of such.
    NeedsType {
        place: Place,
    },
    /// A call with another number of arguments.
    WrongArity {
        place: Place,
    },
    /// An expression whose parts are well typed, and whose own rule is broken, or a body of another kind than is asked.
    WrongType {
        place: Place,
        have: Kind,
        want: Kind,
    },
    /// The value function's result is a set, a map or an option of one.
    AggregateResult {
        place: Place,
    },
    /// An output of this printed name stands before.
    OutputTwice {
        place: Place,
    },
    /// The source, which ends here, has no output.
    NoOutput {
        place: Place,
    },
    /// Out of memory.
    Memory,
}

impl From<NoMemory> for TypeFault {
    ghost from_gives = { λ _ f. f ≡ OutOfMemory };

    fn from(_error: NoMemory) -> TypeFault {
        TypeFault::Memory
    }
}

/// What an expression is.
fn kind_of(of: ExprType) -> Kind
    ensures { result ≡ kind_of of }
{
    match of {
        ExprType::Stream(t) => Kind::Stream(t),
        ExprType::Value(t) => Kind::Value(t),
        ExprType::Optional(t) => Kind::Optional(t),
    }
}

/// What a rule asks.
fn asked_kind(asked: Asked) -> Kind
    ensures { result ≡ asked_kind asked }
{
    match asked {
        Asked::Exactly(of) => kind_of(of),
        Asked::StreamOf(family) | Asked::ValueOf(family) | Asked::OptionOf(family) => {
            Kind::OneOf(family)
        }
        Asked::NoStream => Kind::OneOf(Family::Any),
        Asked::Literal => Kind::Literal,
    }
}

/// What is asked where braces may not stand.
fn written_kind(written: Option<ExprType>) -> Kind
    ensures { result ≡ written_kind written }
{
    match written {
        Some(of) => kind_of(of),
        None => Kind::Literal,
    }
}

/// The fault of what does not fit.
pub(crate) fn wrong_type(wrong: Wrong) -> TypeFault
    ensures { result ≡ wrong_type wrong }
{
    match wrong {
        Wrong::Part { place, clash } => TypeFault::WrongType {
            place,
            have: kind_of(clash.have),
            want: asked_kind(clash.want),
        },
        Wrong::Braces { place, written } => TypeFault::WrongType {
            place,
            have: Kind::Function,
            want: written_kind(written),
        },
    }
}
