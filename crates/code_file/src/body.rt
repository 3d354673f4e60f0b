// Bodies, written.

ghost use Rattle.std.specs.Prelude.{◌≡◌, [], ◌∷◌, ◌++◌, ◌^◌, length, take, OnErr, OnOk};
ghost use Rattle.tsl_value.specs.View as view;
ghost use Rattle.tsl_value.specs.inner.Laws.{IsInBounds};
ghost use Rattle.lift_func.specs.inner.OneLevel.{tree_of};
ghost use Rattle.flat_core.specs.Complete.{HasShortTexts, IsShort};
ghost use Rattle.code_file.specs.Form.{IsBodyForm};
ghost use Rattle.code_file.specs.Spelling as seen;
ghost use Rattle.code_file.specs.inner.Writing.{HasArgumentsBelow};

use crate::numbers::put_count;
use crate::types::{Operation, operation_place, put_type, scalar_place};
use lift_func::body::{Body, Node};
use tsl_value::bytes::Bytes;
use tsl_value::memory::NoMemory;
use tsl_value::scalar::{Scalar, ScalarType};

/// Appends a flag.
pub(crate) fn put_flag(value: bool, out: &mut Bytes) -> Result<(), NoMemory>
    ensures ok { OnOk result (out.new ≡ out.old ++ seen.flag value) }
    ensures err { OnErr result (out.new ≡ out.old) }
{
    if value { out.push(1) } else { out.push(0) }
}

fn put_text(bytes: &[u8], out: &mut Bytes) -> Result<(), NoMemory>
    ensures ok { OnOk result (out.new ≡ out.old ++ seen.text_bytes bytes.now) }
    ensures err { OnErr result (take (length out.old) out.new ≡ out.old) }
{
    out.append(&(bytes.len() as u64).to_be_bytes())?;
    out.append(bytes)
}

fn type_of(value: &Scalar) -> ScalarType
    ensures { result ≡ view.type_of value.now }
{
    match value {
        Scalar::Unit => ScalarType::Unit,
        Scalar::Int(_) => ScalarType::Int,
        Scalar::Bool(_) => ScalarType::Bool,
        Scalar::Text(_) => ScalarType::Text,
    }
}

fn put_scalar(value: &Scalar, out: &mut Bytes) -> Result<(), NoMemory>
    requires { IsShort value.now }
    ensures ok { OnOk result (out.new ≡ out.old ++ seen.scalar_bytes value.now) }
    ensures err { OnErr result (take (length out.old) out.new ≡ out.old) }
    ensures form { IsInBounds value.now }
{
    match value {
        Scalar::Unit => Ok(()),
        Scalar::Int(number) => out.append(&number.to_be_bytes()),
        Scalar::Bool(value) => put_flag(*value, out),
        Scalar::Text(text) => put_text(text.as_str().as_bytes(), out),
    }
}

fn put_literal(value: &Scalar, out: &mut Bytes) -> Result<(), NoMemory>
    requires { IsShort value.now }
    ensures ok { OnOk result (out.new ≡ out.old ++ (1 ∷ seen.scalar_place (view.type_of value.now) ∷ seen.scalar_bytes value.now)) }
    ensures err { OnErr result (take (length out.old) out.new ≡ out.old) }
    ensures form { OnOk result (IsInBounds value.now) }
{
    out.append(&[1, scalar_place(type_of(value))])?;
    put_scalar(value, out)
}

fn put_operation(operation: Operation, out: &mut Bytes) -> Result<(), NoMemory>
    ensures ok { OnOk result (out.new ≡ out.old ++ (2 ∷ seen.operation_place operation ∷ [])) }
    ensures err { OnErr result (out.new ≡ out.old) }
{
    out.append(&[2, operation_place(operation)])
}

/// Appends a body. A body has at most 1,024 nodes, so it is no deeper.
#[cycle(body)]
pub(crate) fn put_body(body: &Body, out: &mut Bytes) -> Result<(), NoMemory>
    requires short { HasShortTexts body.now }
    requires few { HasArgumentsBelow (2 ^ 32) body.now }
    ensures ok { OnOk result (out.new ≡ out.old ++ seen.body_bytes body.now) }
    ensures err { OnErr result (take (length out.old) out.new ≡ out.old) }
    ensures form { OnOk result (IsBodyForm body.now) }
{
    put_node(body.node(), out)
}

#[cycle(body)]
fn put_node(node: &Node, out: &mut Bytes) -> Result<(), NoMemory>
    requires short { HasShortTexts (tree_of node.now) }
    requires few { HasArgumentsBelow (2 ^ 32) (tree_of node.now) }
    ensures ok { OnOk result (out.new ≡ out.old ++ seen.body_bytes (tree_of node.now)) }
    ensures err { OnErr result (take (length out.old) out.new ≡ out.old) }
    ensures form { OnOk result (IsBodyForm (tree_of node.now)) }
{
    match node {
        Node::Literal(value) => put_literal(value, out),
        Node::Argument(number) => {
            out.push(0)?;
            put_count(*number, out)
        }
        Node::Absent(of) => {
            put_operation(Operation::Absent, out)?;
            put_type(*of, out)
        }
        Node::One(operation, a) => {
            put_operation(Operation::One(*operation), out)?;
            put_body(a, out)
        }
        Node::Two(operation, a, b) => {
            put_operation(Operation::Two(*operation), out)?;
            put_body(a, out)?;
            put_body(b, out)
        }
        Node::Choice(condition, a, b) => {
            put_operation(Operation::If, out)?;
            put_body(condition, out)?;
            put_body(a, out)?;
            put_body(b, out)
        }
    }
}
