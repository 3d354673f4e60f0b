// The kind of a body.

ghost use Rattle.std.specs.Prelude.{◌≡◌, ◌↔◌, Some, map, slice_get};
ghost use Rattle.std.specs.Option.{option_map};
ghost use Rattle.tsl_value.specs.View.{type_of};
ghost use Rattle.flat_core.specs.Typed.{kind_of};
ghost use Rattle.lift_func.specs.Typing.{ValueKind, HasKind};
ghost use Rattle.lift_func.specs.inner.OneLevel.{tree_of};
ghost use Rattle.equation_types.specs.Kinds.{value_kind};
ghost use Rattle.equation_types.specs.inner.Rules.{kind_at, kind_in};

use crate::kind::{Kind, kind_at, of_choice, of_one, of_two, plain};
use lift_func::body::{Body, Node};
use tsl_value::scalar::{Scalar, ScalarType, ValueType};

fn type_of(scalar: &Scalar) -> ScalarType
    ensures { result ≡ type_of scalar.now }
{
    match scalar {
        Scalar::Unit => ScalarType::Unit,
        Scalar::Int(_) => ScalarType::Int,
        Scalar::Bool(_) => ScalarType::Bool,
        Scalar::Text(_) => ScalarType::Text,
    }
}

/// The kind of the argument of this number, if there is one.
fn argument_kind(types: &[ValueType], strict: bool, number: usize) -> Option<Kind>
    ensures { result ≡ option_map (kind_at strict) (slice_get types.now number) }
{
    let of = types.get(number)?;
    Some(kind_at(strict, *of))
}

/// The kind of a body by the rules. A body has at most 1,024 nodes, so it is no deeper.
#[cycle(kind)]
pub(crate) fn kind_in(types: &[ValueType], strict: bool, body: &Body) -> Option<Kind>
    ensures { result ≡ kind_in types.now strict body.now }
{
    kind_of_node(types, strict, body.node())
}

#[cycle(kind)]
fn kind_of_node(types: &[ValueType], strict: bool, node: &Node) -> Option<Kind>
    ensures { result ≡ kind_in types.now strict (tree_of node.now) }
{
    match node {
        Node::Literal(scalar) => Some(plain(type_of(scalar))),
        Node::Argument(number) => argument_kind(types, strict, *number),
        Node::Absent(of) => Some(Kind::Optional(*of)),
        Node::One(operation, a) => {
            let a = kind_in(types, strict, a)?;
            of_one(*operation, a)
        }
        Node::Two(operation, a, b) => {
            let a = kind_in(types, strict, a)?;
            let b = kind_in(types, strict, b)?;
            of_two(*operation, a, b)
        }
        Node::Choice(condition, a, b) => {
            let condition = kind_in(types, strict, condition)?;
            let a = kind_in(types, strict, a)?;
            let b = kind_in(types, strict, b)?;
            of_choice(condition, a, b)
        }
    }
}

/// The kind that a body has at arguments of these types, which are values where the lift is strict, and else options. `None` comes
/// exactly where it has none.
pub fn body_kind(types: &[ValueType], strict: bool, body: &Body) -> Option<Kind>
    ensures { (k : ValueKind) → (option_map value_kind result ≡ Some k) ↔ HasKind (map (kind_of strict) types.now) body.now k }
{
    kind_in(types, strict, body)
}
