// The names that are called without a dot.

ghost use Rattle.std.specs.Prelude.{◌≡◌};
ghost use Rattle.vocabulary.specs.PlainTable.{spelling, plain_takes, plain_role, plain_of};

use crate::signature::Role;
use tsl_value::operation::Unary;

#[derive(Clone, Copy)]
pub enum Plain {
    Time,
    Last,
    Delay,
    Merge,
    Default,
    Lift,
    Const,
    Filter,
    IsSome,
    IsNone,
    GetSome,
    Some,
}

impl Plain {
    pub fn name(self) -> &'static str
        ensures { result.now ≡ spelling self }
    {
        match self {
            Plain::Time => "time",
            Plain::Last => "last",
            Plain::Delay => "delay",
            Plain::Merge => "merge",
            Plain::Default => "default",
            Plain::Lift => "lift",
            Plain::Const => "const",
            Plain::Filter => "filter",
            Plain::IsSome => "isSome",
            Plain::IsNone => "isNone",
            Plain::GetSome => "getSome",
            Plain::Some => "Some",
        }
    }

    /// How many arguments it takes, where their number is fixed.
    pub fn takes(self) -> Option<usize>
        ensures { result ≡ plain_takes self }
    {
        match self {
            Plain::Time | Plain::IsSome | Plain::IsNone | Plain::GetSome | Plain::Some => Some(1),
            Plain::Last | Plain::Delay | Plain::Merge | Plain::Default => Some(2),
            Plain::Const | Plain::Filter => Some(2),
            Plain::Lift => None,
        }
    }

    /// The operation of value functions that it is. A construct of streams is none.
    pub fn role(self) -> Option<Role>
        ensures { result ≡ plain_role self }
    {
        match self {
            Plain::Time | Plain::Last | Plain::Delay | Plain::Merge | Plain::Default => None,
            Plain::Lift | Plain::Const | Plain::Filter => None,
            Plain::IsSome => Some(Role::Unary(Unary::IsSome)),
            Plain::IsNone => Some(Role::Unary(Unary::IsNone)),
            Plain::GetSome => Some(Role::Unary(Unary::GetSome)),
            Plain::Some => Some(Role::Unary(Unary::Some)),
        }
    }
}

/// The name that is spelled so.
#[tactic(auto, unfolding(crate::specs::PlainTable::plain_of))]
pub fn plain_named(name: &str) -> Option<Plain>
    ensures { result ≡ plain_of name.now }
{
    match name.len() {
        4 => match name {
            "time" => Some(Plain::Time),
            "last" => Some(Plain::Last),
            "lift" => Some(Plain::Lift),
            "Some" => Some(Plain::Some),
            _ => None,
        },
        5 => match name {
            "delay" => Some(Plain::Delay),
            "merge" => Some(Plain::Merge),
            "const" => Some(Plain::Const),
            _ => None,
        },
        6 => match name {
            "filter" => Some(Plain::Filter),
            "isSome" => Some(Plain::IsSome),
            "isNone" => Some(Plain::IsNone),
            _ => None,
        },
        7 => match name {
            "default" => Some(Plain::Default),
            "getSome" => Some(Plain::GetSome),
            _ => None,
        },
        _ => None,
    }
}
