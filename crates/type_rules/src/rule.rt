// What expressions are, and what is asked of them.

use tsl_value::scalar::ValueType;
use vocabulary::kind::Kind;

/// What an expression is: a stream, a value, or an optional value.
#[derive(Clone, Copy, PartialEq, Eq, Debug)]
pub enum ExprType {
    Stream(ValueType),
    Value(ValueType),
    Optional(ValueType),
}

/// Types that a rule allows for one part.
#[derive(Clone, Copy, PartialEq, Eq, Debug)]
pub enum Family {
    Any,
    Scalars,
    Of(Kind),
}

/// Where an expression stands: in the body of a value function, or elsewhere.
#[derive(Clone, Copy, PartialEq, Eq, Debug)]
pub enum Setting {
    Streams,
    Values,
}

/// What a rule asks of a part.
#[derive(Clone, Copy, PartialEq, Eq, Debug)]
pub enum Asked {
    Exactly(ExprType),
    StreamOf(Family),
    ValueOf(Family),
    OptionOf(Family),
    /// A value or an option.
    NoStream,
    Literal,
}

/// A part that does not fit, and what its rule asks there.
#[derive(Clone, Copy, PartialEq, Eq, Debug)]
pub struct Clash {
    pub have: ExprType,
    pub want: Asked,
}

/// The names of the language that are called, other than `lift` and `const`. `default` is `merge`.
#[derive(Clone, Copy, PartialEq, Eq, Debug)]
pub enum Builtin {
    Time,
    Last,
    Delay,
    Merge,
    Filter,
    IsSome,
    IsNone,
    GetSome,
    Some,
}
