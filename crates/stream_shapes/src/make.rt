// Making the equations of constructs.

ghost use Rattle.std.specs.Prelude.{◌≡◌, ◌++◌, true, length, map, IfOk, OnOk, IfErr, OnErr};
ghost use Rattle.spec_meaning.specs.Shape.{operand};
ghost use Rattle.spec_meaning.specs.Makes.{choice_operands, is_own, last_of, with_itself};
ghost use Rattle.stream_constructs.specs.Agree.{Fits, FitsChoice};
ghost use Rattle.stream_constructs.specs.Equations.{choice_equations, own_equations};
ghost use Rattle.stream_constructs.specs.Limits.{IsRefusal};
ghost use Rattle.stream_constructs.specs.Made.{HasFirst, operands_of, varying_count, varying_of, with_equations};
ghost use Rattle.stream_shapes.specs.inner.Shape.{construct_of};

use crate::construct::Construct;
use crate::literal::literal;
use std::alloc::Global;
use stream_constructs::construct::{Operand, Stream};
use stream_constructs::maker::{MakeFault, Maker};
use syntax_tree::tree::{Expr, Node};
use tsl_value::memory::NoMemory;
use tsl_value::place::Place;
use tsl_value::scalar::{Scalar, ValueType};

/// Operands, each of which is a literal or else the next of these streams.
fn with_streams(
    alloc: Global,
    literals: Vec<Option<Scalar>>,
    streams: &[Stream],
) -> Result<Vec<Operand>, NoMemory>
    requires { varying_count (map operand literals.items) ≡ length streams.now }
    ensures operands { IfOk result (λ found. operands_of found.items ≡ map operand literals.items) }
    ensures streams { IfOk result (λ found. varying_of found.items ≡ streams.now) }
{
    let mut operands = Vec::new(alloc);
    let mut next = 0;
    for literal in literals {
        match literal {
            Some(s) => operands.push(Operand::Fixed(s))?,
            None => {
                operands.push(Operand::Varying(streams[next]))?;
                next += 1;
            }
        }
    }
    Ok(operands)
}

/// Makes the equations of a construct of this type over the streams of its parts, and gives the stream of the last of them.
pub fn make(
    maker: &mut Maker,
    place: Place,
    of: ValueType,
    construct: Construct,
    parts: &[Stream],
) -> Result<Stream, MakeFault>
    requires fits { Fits (construct_of construct) (with_itself (construct_of construct) (length maker.old.equations) parts.now) of }
    requires own { is_own (construct_of construct) ≡ true }
    ensures made { OnOk result (maker.new ≡ with_equations maker.old (own_equations place of (length maker.old.equations)
        (construct_of construct) (with_itself (construct_of construct) (length maker.old.equations) parts.now))) }
    ensures stream { IfOk result (λ s. s ≡ last_of (length maker.old.equations) (own_equations place of (length maker.old.equations)
        (construct_of construct) (with_itself (construct_of construct) (length maker.old.equations) parts.now)) of) }
    ensures refused { IfErr result (IsRefusal (maker.old.equations ++ own_equations place of (length maker.old.equations)
        (construct_of construct) (with_itself (construct_of construct) (length maker.old.equations) parts.now))) }
    ensures partly { OnErr result (HasFirst maker.old (own_equations place of (length maker.old.equations)
        (construct_of construct) (with_itself (construct_of construct) (length maker.old.equations) parts.now)) maker.new) }
{
    match construct {
        Construct::Nil => maker.nil(place, of),
        Construct::Unit => maker.unit(place),
        Construct::Literal(s) => maker.literal(place, s),
        Construct::Empty(of) => maker.empty(place, of),
        Construct::Time => maker.time(place, parts[0]),
        Construct::Last => maker.last(place, parts[0], parts[1]),
        Construct::Delay => maker.delay(place, parts[0], parts[1]),
        Construct::Merge => maker.merge(place, parts[0], parts[1]),
        Construct::Const(s) => maker.constant(place, s, parts[0]),
        Construct::Filter => maker.filter(place, parts[0], parts[1]),
        Construct::FilterBy(holds) => maker.filter_by(place, parts[0], holds),
        Construct::Lift(body) => maker.lift(place, body, parts, of),
        Construct::Signal(body) => maker.signal(place, body, parts, of),
        Construct::Update(op, literals) => {
            let operands = with_streams(*literals.allocator(), literals, parts)?;
            maker.update(place, op, &operands, of)
        }
    }
}

/// Makes the equations of a choice between two sets or two maps, and gives the stream of the last of them. Its operands are literals,
/// or None for the next of the streams.
pub fn make_choice(
    maker: &mut Maker,
    place: Place,
    of: ValueType,
    operands: Vec<Option<Scalar>>,
    parts: &[Stream],
) -> Result<Stream, MakeFault>
    requires { FitsChoice (map operand operands.items) parts.now of }
    ensures made { OnOk result (maker.new ≡ with_equations maker.old
        (choice_equations place of (length maker.old.equations) (map operand operands.items) parts.now)) }
    ensures stream { IfOk result (λ s. s ≡ last_of (length maker.old.equations)
        (choice_equations place of (length maker.old.equations) (map operand operands.items) parts.now) of) }
    ensures refused { IfErr result (IsRefusal (maker.old.equations
        ++ choice_equations place of (length maker.old.equations) (map operand operands.items) parts.now)) }
    ensures partly { OnErr result (HasFirst maker.old
        (choice_equations place of (length maker.old.equations) (map operand operands.items) parts.now) maker.new) }
{
    let operands = with_streams(*operands.allocator(), operands, parts)?;
    maker.choice(place, &operands, of)
}

/// The operands of a choice: its condition and what it is between, each as a literal, or None.
pub fn choice_operands(alloc: Global, expression: &Expr) -> Result<Vec<Option<Scalar>>, NoMemory>
    ensures { IfOk result (λ found. map operand found.items ≡ choice_operands expression.now) }
{
    let mut operands = Vec::new(alloc);
    if let Node::If(condition, yes, no) = expression.node() {
        operands.push(literal(condition)?)?;
        operands.push(literal(yes)?)?;
        operands.push(literal(no)?)?;
    }
    Ok(operands)
}
