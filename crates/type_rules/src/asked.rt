// What is asked of a part, and whether it fits.

ghost use Rattle.std.specs.Prelude.{◌≡◌};
ghost use Rattle.vocabulary.specs.Kinds.{kind_of};
ghost use Rattle.type_rules.specs.Asked.{is_of, is_in, fits, ask, lifted, lifted_of, inner, key_of, entry_of, of_key};

use crate::rule::{Asked, Clash, ExprType, Family, Setting};
use tsl_value::scalar::{KeyType, ScalarType, ValueType};
use vocabulary::kind::{Kind, kind_of};

pub const UNIT: ValueType = ValueType::Scalar(ScalarType::Unit);

pub const INT: ValueType = ValueType::Scalar(ScalarType::Int);

pub const BOOL: ValueType = ValueType::Scalar(ScalarType::Bool);

pub const TEXT: ValueType = ValueType::Scalar(ScalarType::Text);

impl Family {
    /// The family has the type.
    pub fn has(self, of: ValueType) -> bool
        ensures { result ≡ is_in self of }
    {
        match (self, of) {
            (Family::Any, _) => true,
            (Family::Scalars, ValueType::Scalar(_)) => true,
            (Family::Of(kind), _) => is_of(kind, of),
            _ => false,
        }
    }
}

/// The type is one of aggregates of this kind.
fn is_of(kind: Kind, of: ValueType) -> bool
    ensures { result ≡ is_of kind (kind_of of) }
{
    match kind_of(of) {
        Some(its) => kind.is(its),
        None => false,
    }
}

impl Asked {
    /// An expression is what is asked. That a literal is asked is judged by its form, so nothing fits it here.
    pub fn fits(self, of: ExprType) -> bool
        ensures { result ≡ fits self of }
    {
        match (self, of) {
            (Asked::Exactly(wanted), of) => of.is(wanted),
            (Asked::StreamOf(family), ExprType::Stream(of)) => family.has(of),
            (Asked::ValueOf(family), ExprType::Value(of)) => family.has(of),
            (Asked::OptionOf(family), ExprType::Optional(of)) => family.has(of),
            (Asked::NoStream, ExprType::Value(_)) => true,
            (Asked::NoStream, ExprType::Optional(_)) => true,
            _ => false,
        }
    }
}

/// Refuses a part that does not fit.
pub fn ask(wanted: Asked, part: ExprType) -> Result<(), Clash>
    ensures { result ≡ ask wanted part }
{
    if wanted.fits(part) {
        Ok(())
    } else {
        Err(Clash {
            have: part,
            want: wanted,
        })
    }
}

impl Setting {
    /// What operations take and give: values in a value function, and streams elsewhere.
    pub fn lifted(self, of: ValueType) -> ExprType
        ensures { result ≡ lifted self of }
    {
        match self {
            Setting::Streams => ExprType::Stream(of),
            Setting::Values => ExprType::Value(of),
        }
    }

    pub fn lifted_of(self, family: Family) -> Asked
        ensures { result ≡ lifted_of self family }
    {
        match self {
            Setting::Streams => Asked::StreamOf(family),
            Setting::Values => Asked::ValueOf(family),
        }
    }
}

impl ExprType {
    /// The type of the events, of the value, or of the value in the option.
    pub fn inner(self) -> ValueType
        ensures { result ≡ inner self }
    {
        match self {
            ExprType::Stream(of) => of,
            ExprType::Value(of) => of,
            ExprType::Optional(of) => of,
        }
    }
}

fn of_key(key: KeyType) -> ValueType
    ensures { result ≡ of_key key }
{
    match key {
        KeyType::Int => INT,
        KeyType::Bool => BOOL,
        KeyType::Text => TEXT,
    }
}

/// The type of the keys of a set or a map; of another type the type itself.
pub fn key_of(of: ValueType) -> ValueType
    ensures { result ≡ key_of of }
{
    match of {
        ValueType::Scalar(_) => of,
        ValueType::Set(key) => of_key(key),
        ValueType::Map(key, _) => of_key(key),
        ValueType::Queue(_) => of,
    }
}

/// The type of the values of a map or a queue; of another type the type itself.
pub fn entry_of(of: ValueType) -> ValueType
    ensures { result ≡ entry_of of }
{
    match of {
        ValueType::Scalar(_) => of,
        ValueType::Set(_) => of,
        ValueType::Map(_, entry) => ValueType::Scalar(entry),
        ValueType::Queue(entry) => ValueType::Scalar(entry),
    }
}
