// The equations of a chain of operators.

ghost use Rattle.std.specs.Prelude.{◌≡◌, ◌<◌, ◌++◌, [], length, IfOk, OnOk, IfErr};
ghost use Rattle.syntax_tree.specs.Tree as tree;
ghost use Rattle.syntax_tree.specs.inner.OneLevel.{links_in};
ghost use Rattle.type_rules.specs.Rules.{operand_type as type_of_operands};
ghost use Rattle.stream_constructs.specs.Agree.{Fits};
ghost use Rattle.stream_constructs.specs.Equations.{own_equations};
ghost use Rattle.stream_constructs.specs.Limits.{IsRefusal};
ghost use Rattle.stream_constructs.specs.Made.{equations_for, stream_of, with_equations};
ghost use Rattle.macro_flatten.specs.inner.Answers.{CanMake, IsExpression};
ghost use Rattle.macro_flatten.specs.inner.Sides.{IsSide, link_construct, side_streams};

use crate::context::{Context, Here};
use std::alloc::Global;
use stream_constructs::construct::Stream;
use stream_constructs::maker::{MakeFault, Maker};
use stream_shapes::body::link_body;
use stream_shapes::construct::Construct;
use stream_shapes::literal::literal;
use stream_shapes::make::make;
use syntax_tree::tree::{Expr, Level, Link, Operator};
use tsl_value::place::Place;
use tsl_value::scalar::{Scalar, ScalarType, ValueType};

/// An operand of a link: a literal, or the stream of what stands there.
#[derive(Drop)]
pub(crate) enum Side {
    Fixed(Scalar),
    Varying(Stream),
}

impl Side {
    ghost use Rattle.macro_flatten.specs.inner.Sides.{side_literal, side_streams};

    /// Adds its stream, if it is no literal.
    fn part(self, streams: &mut Vec<Stream>) -> Result<Option<Scalar>, MakeFault>
        ensures is { IfOk result (λ s. s ≡ side_literal self) }
        ensures added { OnOk result (streams.new.items ≡ streams.old.items ++ side_streams self) }
        ensures memory { IfErr result (IsRefusal []) }
    {
        match self {
            Side::Fixed(s) => Ok(Some(s)),
            Side::Varying(stream) => {
                streams.push(stream)?;
                Ok(None)
            }
        }
    }
}

/// The type of the operands of a level, and of the whole.
fn operand_type(level: Level) -> ValueType
    ensures { result ≡ type_of_operands level }
{
    match level {
        Level::Disjunction | Level::Conjunction => ValueType::Scalar(ScalarType::Bool),
        Level::Sum | Level::Product => ValueType::Scalar(ScalarType::Int),
    }
}

/// Makes the signal lift of an operator over its operands.
fn lift(
    alloc: Global,
    maker: &mut Maker,
    place: Place,
    level: Level,
    operator: Operator,
    left: Side,
    right: Side,
) -> Result<Stream, MakeFault>
    requires { Fits (link_construct operator left right) (side_streams left ++ side_streams right) (type_of_operands level) }
    ensures made { OnOk result (maker.new ≡ with_equations maker.old (equations_for maker.old place (type_of_operands level)
        (link_construct operator left right) (side_streams left ++ side_streams right))) }
    ensures stream { IfOk result (λ s. s ≡ stream_of maker.old (equations_for maker.old place (type_of_operands level)
        (link_construct operator left right) (side_streams left ++ side_streams right)) (type_of_operands level)) }
    ensures refused { IfErr result (IsRefusal (maker.old.equations ++ equations_for maker.old place (type_of_operands level)
        (link_construct operator left right) (side_streams left ++ side_streams right))) }
{
    let mut parts = Vec::new(alloc);
    let left = left.part(&mut parts)?;
    let right = right.part(&mut parts)?;
    let body = link_body(alloc, operator, left, right)?;
    make(
        maker,
        place,
        operand_type(level),
        Construct::Signal(body),
        &parts,
    )
}

impl Context<'_> {
    /// A chain of operators, each of which is a signal lift of the chain before it and its operand.
    #[cycle(expression)]
    pub(crate) fn chain(
        &self,
        maker: &mut Maker,
        here: &Here<'_, '_>,
        place: Place,
        level: Level,
        first: &Expr,
        links: &[Link],
    ) -> Result<Stream, MakeFault>
        requires some { 0 < length links.now }
        requires may { CanMake self.now here.now (tree.Chain place level first.now (links_in links.now)) }
        ensures { IsExpression self.now here.now (tree.Chain place level first.now (links_in links.now)) maker.old maker.new result }
    {
        let mut left = self.side(maker, here, first)?;
        for link in links {
            let right = self.side(maker, here, &link.operand)?;
            let stream = lift(self.alloc, maker, place, level, link.operator, left, right)?;
            left = Side::Varying(stream);
        }
        match left {
            Side::Varying(stream) => Ok(stream),
            Side::Fixed(_) => unreachable!(),
        }
    }

    /// An operand. A literal makes nothing itself.
    #[cycle(expression)]
    fn side(
        &self,
        maker: &mut Maker,
        here: &Here<'_, '_>,
        operand: &Expr,
    ) -> Result<Side, MakeFault>
        requires { CanMake self.now here.now operand.now }
        ensures { IsSide self.now here.now operand.now maker.old maker.new result }
    {
        match literal(operand)? {
            Some(s) => Ok(Side::Fixed(s)),
            None => {
                let stream = self.expression(maker, here, operand)?;
                Ok(Side::Varying(stream))
            }
        }
    }
}
