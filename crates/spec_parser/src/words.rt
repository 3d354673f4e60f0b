// Names that the grammar knows.

ghost use Rattle.std.specs.Prelude.{◌≡◌};
ghost use Rattle.spec_parser.specs.Words.{type_word_of, typed_word_of};
ghost use Rattle.spec_parser.specs.inner.Reading.{empty_member, member_of};

use tsl_value::text::Text;
use vocabulary::dotted::{Dotted, Family, dotted_named};
use vocabulary::kind::{Kind, kind_named};

/// The names of types.
#[derive(Clone, Copy, PartialEq, Eq, Debug)]
pub(crate) enum TypeWord {
    Unit,
    Int,
    Bool,
    Text,
    Of(Kind),
    Option,
    Events,
}

/// The names after which a type may stand in brackets.
#[derive(Clone, Copy, PartialEq, Eq, Debug)]
pub(crate) enum TypedWord {
    Nil,
    None,
}

/// The types of one type in brackets that are no aggregates.
#[derive(Clone, Copy, PartialEq, Eq, Debug)]
pub(crate) enum Wrapper {
    Option,
    Events,
}

/// What is called.
#[derive(Drop)]
pub(crate) enum Callee {
    Name(Text),
    Dotted(Dotted),
}

/// What the name after a dot stands for.
#[derive(Clone, Copy, PartialEq, Eq, Debug)]
pub(crate) enum Member {
    Empty(Kind),
    Called(Dotted),
}

pub(crate) fn type_word(name: &str) -> Option<TypeWord>
    ensures { result ≡ type_word_of name.now }
{
    if name == "Unit" {
        Some(TypeWord::Unit)
    } else if name == "Int" {
        Some(TypeWord::Int)
    } else if name == "Bool" {
        Some(TypeWord::Bool)
    } else if name == "String" {
        Some(TypeWord::Text)
    } else if name == "Option" {
        Some(TypeWord::Option)
    } else if name == "Events" {
        Some(TypeWord::Events)
    } else {
        match kind_named(name) {
            Some(kind) => Some(TypeWord::Of(kind)),
            None => None,
        }
    }
}

pub(crate) fn typed_word(name: &str) -> Option<TypedWord>
    ensures { result ≡ typed_word_of name.now }
{
    if name == "nil" {
        Some(TypedWord::Nil)
    } else if name == "None" {
        Some(TypedWord::None)
    } else {
        None
    }
}

/// An empty aggregate.
fn empty_member(family: Family, name: &str) -> Option<Member>
    ensures { result ≡ empty_member family name.now }
{
    if name == "empty" {
        match family {
            Family::Of(kind) => Some(Member::Empty(kind)),
            Family::Text => None,
        }
    } else {
        None
    }
}

/// What the name after the dot stands for.
#[tactic(auto, unfolding(crate::specs::inner::Reading::member_of))]
pub(crate) fn member_named(family: Family, name: &str) -> Option<Member>
    ensures { result ≡ member_of family name.now }
{
    match dotted_named(family, name) {
        Some(function) => Some(Member::Called(function)),
        None => empty_member(family, name),
    }
}
