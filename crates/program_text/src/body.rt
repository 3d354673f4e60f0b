// The text of bodies.

ghost use Rattle.std.specs.Prelude.{◌≡◌, ◌++◌, codes, length, take, OnOk, OnErr};
ghost use Rattle.lift_func.specs.inner.OneLevel.{tree_of};
ghost use Rattle.program_text.specs.Text.{body_text};

use lift_func::body::{Body, Node};
use tsl_value::bytes::Bytes;
use tsl_value::memory::NoMemory;
use tsl_value::print::{print_number, print_scalar};

/// Appends a body. A body has at most 1,024 nodes, so it is no deeper.
#[cycle(body)]
pub(crate) fn put_body(body: &Body, out: &mut Bytes) -> Result<(), NoMemory>
    ensures ok { OnOk result (out.new ≡ out.old ++ body_text body.now) }
    ensures err { OnErr result (take (length out.old) out.new ≡ out.old) }
{
    put_node(body.node(), out)
}

#[cycle(body)]
fn put_node(node: &Node, out: &mut Bytes) -> Result<(), NoMemory>
    ensures ok { OnOk result (out.new ≡ out.old ++ body_text (tree_of node.now)) }
    ensures err { OnErr result (take (length out.old) out.new ≡ out.old) }
{
    match node {
        Node::Literal(scalar) => print_scalar(scalar, out),
        Node::Argument(number) => {
            out.push(b'$')?;
            print_number(*number as u64, out)
        }
        Node::Absent(_) => out.append(b"none"),
        Node::One(operation, a) => {
            put_first(operation.name(), a, out)?;
            out.push(b')')
        }
        Node::Two(operation, a, b) => {
            put_first(operation.name(), a, out)?;
            put_next(b, out)?;
            out.push(b')')
        }
        Node::Choice(condition, a, b) => {
            put_first(b"if", condition, out)?;
            put_next(a, out)?;
            put_next(b, out)?;
            out.push(b')')
        }
    }
}

/// Appends the name of an operation and its first part.
#[cycle(body)]
fn put_first(name: &[u8], body: &Body, out: &mut Bytes) -> Result<(), NoMemory>
    ensures ok { OnOk result (out.new ≡ out.old ++ (name.now ++ (codes "(" ++ body_text body.now))) }
    ensures err { OnErr result (take (length out.old) out.new ≡ out.old) }
{
    out.append(name)?;
    out.push(b'(')?;
    put_body(body, out)
}

/// Appends a part that is not the first.
#[cycle(body)]
fn put_next(body: &Body, out: &mut Bytes) -> Result<(), NoMemory>
    ensures ok { OnOk result (out.new ≡ out.old ++ (codes ", " ++ body_text body.now)) }
    ensures err { OnErr result (take (length out.old) out.new ≡ out.old) }
{
    out.append(b", ")?;
    put_body(body, out)
}
