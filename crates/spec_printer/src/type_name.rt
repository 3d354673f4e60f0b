// Types.

ghost use Rattle.std.specs.Prelude.{◌≡◌, ◌∷◌, ◌++◌, length, take, OnOk, OnErr};
ghost use Rattle.syntax_tree.specs.inner.OneLevel.{aggregate_in};
ghost use Rattle.spec_printer.specs.inner.Marks.{named, text_of};
ghost use Rattle.spec_printer.specs.inner.Print.{type_marks, aggregate_marks, shape_marks, bracketed, both_bracketed, second_bracketed};

use crate::mark::{put_name, put_symbol};
use spec_lexer::token::Symbol;
use syntax_tree::tree::{Aggregate, TypeName, TypeShape};
use tsl_value::bytes::Bytes;
use tsl_value::memory::NoMemory;

#[cycle(types)]
#[tactic(auto, using(crate::proofs::Anywhere::marks_of_shape, crate::proofs::Anywhere::size_of_shape))]
pub(crate) fn put_type(of: &TypeName, out: &mut Bytes) -> Result<(), NoMemory>
    ensures ok { OnOk result (out.new ≡ out.old ++ text_of (type_marks of.now)) }
    ensures err { OnErr result (take (length out.old) out.new ≡ out.old) }
{
    put_shape(of.shape(), out)
}

#[cycle(types)]
fn put_shape(shape: &TypeShape, out: &mut Bytes) -> Result<(), NoMemory>
    ensures ok { OnOk result (out.new ≡ out.old ++ text_of (shape_marks shape.now)) }
    ensures err { OnErr result (take (length out.old) out.new ≡ out.old) }
{
    match shape {
        TypeShape::Unit => put_name("Unit", out),
        TypeShape::Int => put_name("Int", out),
        TypeShape::Bool => put_name("Bool", out),
        TypeShape::Text => put_name("String", out),
        TypeShape::Aggregate(of) => {
            put_name(of.kind().name(), out)?;
            put_aggregate(of, out)
        }
        TypeShape::Option(inner) => put_one("Option", inner, out),
        TypeShape::Events(inner) => put_one("Events", inner, out),
    }
}

/// What stands in the brackets of an aggregate, with them.
#[cycle(types)]
pub(crate) fn put_aggregate(of: &Aggregate, out: &mut Bytes) -> Result<(), NoMemory>
    ensures ok { OnOk result (out.new ≡ out.old ++ text_of (aggregate_marks (aggregate_in of.now))) }
    ensures err { OnErr result (take (length out.old) out.new ≡ out.old) }
{
    match of {
        Aggregate::Set(key) => put_bracketed(key, out),
        Aggregate::Map(key, value) => put_both(key, value, out),
        Aggregate::Queue(of) => put_bracketed(of, out),
    }
}

/// A name and the type after it, in brackets.
#[cycle(types)]
pub(crate) fn put_one(name: &str, of: &TypeName, out: &mut Bytes) -> Result<(), NoMemory>
    ensures ok { OnOk result (out.new ≡ out.old ++ text_of (named name.now ∷ bracketed of.now)) }
    ensures err { OnErr result (take (length out.old) out.new ≡ out.old) }
{
    put_name(name, out)?;
    put_bracketed(of, out)
}

/// A type in brackets.
#[cycle(types)]
fn put_bracketed(of: &TypeName, out: &mut Bytes) -> Result<(), NoMemory>
    ensures ok { OnOk result (out.new ≡ out.old ++ text_of (bracketed of.now)) }
    ensures err { OnErr result (take (length out.old) out.new ≡ out.old) }
{
    put_symbol(Symbol::OpenBracket, out)?;
    put_type(of, out)?;
    put_symbol(Symbol::CloseBracket, out)
}

/// Two types in brackets.
#[cycle(types)]
fn put_both(key: &TypeName, value: &TypeName, out: &mut Bytes) -> Result<(), NoMemory>
    ensures ok { OnOk result (out.new ≡ out.old ++ text_of (both_bracketed key.now value.now)) }
    ensures err { OnErr result (take (length out.old) out.new ≡ out.old) }
{
    put_symbol(Symbol::OpenBracket, out)?;
    put_type(key, out)?;
    put_second(value, out)
}

/// The second of two types in brackets, between the comma and the closing one.
#[cycle(types)]
fn put_second(of: &TypeName, out: &mut Bytes) -> Result<(), NoMemory>
    ensures ok { OnOk result (out.new ≡ out.old ++ text_of (second_bracketed of.now)) }
    ensures err { OnErr result (take (length out.old) out.new ≡ out.old) }
{
    put_symbol(Symbol::Comma, out)?;
    put_type(of, out)?;
    put_symbol(Symbol::CloseBracket, out)
}
