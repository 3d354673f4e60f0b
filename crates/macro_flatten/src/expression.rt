// The equations of an expression.

ghost use Rattle.std.specs.Prelude.{◌≡◌, ◌++◌, true, length, IfOk, OnOk, IfErr};
ghost use Rattle.spec_meaning.specs.Makes.{is_own};
ghost use Rattle.stream_constructs.specs.Limits.{IsRefusal};
ghost use Rattle.stream_constructs.specs.Made.{stream_of, with_equations};
ghost use Rattle.stream_constructs.specs.declared.maker.MakeFault.TheVariants as fault;
ghost use Rattle.stream_shapes.specs.inner.Shape.{construct_of, expressions_in};
ghost use Rattle.macro_flatten.specs.inner.Own.{FitsOwn, IsAliased, own_of};
ghost use Rattle.macro_flatten.specs.inner.Answers.{AreExpressions, CanConstruct, CanMake, CanMakeAll, CanName, IsBody, IsConstructed};
ghost use Rattle.macro_flatten.specs.inner.Answers.{IsExpression, IsNamed, IsTypeOf};

use crate::context::{Context, Here, macro_named};
use equation_marks::body::is_only_name;
use expr_types::judge::expression as judge;
use expr_types::stop::Stop;
use name_check::builtin::{is_called, is_unit};
use std::alloc::Global;
use stream_constructs::construct::Stream;
use stream_constructs::maker::{MakeFault, Maker};
use stream_shapes::construct::Construct;
use stream_shapes::make::{choice_operands, make, make_choice};
use stream_shapes::shape::shape;
use syntax_tree::tree::{Expr, Node};
use tsl_value::scalar::ValueType;

/// Makes the equations of an expression besides those of its parts.
fn own(
    alloc: Global,
    maker: &mut Maker,
    expression: &Expr,
    of: ValueType,
    construct: Construct,
    parts: &[Stream],
) -> Result<Stream, MakeFault>
    requires fits { FitsOwn expression.now of (length maker.old.equations) (construct_of construct) parts.now }
    requires own { is_own (construct_of construct) ≡ true }
    ensures made { OnOk result (maker.new ≡ with_equations maker.old
        (own_of expression.now of (length maker.old.equations) (construct_of construct) parts.now)) }
    ensures stream { IfOk result (λ s. s ≡ stream_of maker.old
        (own_of expression.now of (length maker.old.equations) (construct_of construct) parts.now) of) }
    ensures refused { IfErr result (IsRefusal (maker.old.equations
        ++ own_of expression.now of (length maker.old.equations) (construct_of construct) parts.now)) }
{
    let operands = choice_operands(alloc, expression)?;
    if !operands.is_empty() && of.is_aggregate() {
        make_choice(maker, expression.place(), of, operands, parts)
    } else {
        make(maker, expression.place(), of, construct, parts)
    }
}

/// The stream of a body: one that is only a name makes the merge of its stream with itself.
fn aliased(maker: &mut Maker, expression: &Expr, stream: Stream) -> Result<Stream, MakeFault>
    ensures { IsAliased expression.now stream maker.old maker.new result }
{
    if is_only_name(expression) {
        maker.alias(expression.place(), stream)
    } else {
        Ok(stream)
    }
}

impl Context<'_> {
    /// Makes the equations of an expression, and gives its stream.
    #[cycle(expression)]
    pub(crate) fn expression(
        &self,
        maker: &mut Maker,
        here: &Here<'_, '_>,
        expression: &Expr,
    ) -> Result<Stream, MakeFault>
        requires { CanMake self.now here.now expression.now }
        ensures { IsExpression self.now here.now expression.now maker.old maker.new result }
    {
        match expression.node() {
            Node::Name(name) => {
                if is_unit(name.as_str()) {
                    self.construct(maker, here, expression)
                } else {
                    self.named(here, name.as_str())
                }
            }
            Node::Chain(level, first, links) => {
                if links.is_empty() {
                    self.expression(maker, here, first)
                } else {
                    self.chain(maker, here, expression.place(), *level, first, links)
                }
            }
            Node::Call(name, arguments) => {
                if is_called(name.as_str()) {
                    return self.construct(maker, here, expression);
                }
                match macro_named(here, name.as_str()) {
                    Some(number) => self.call(maker, here, number, arguments),
                    None => self.construct(maker, here, expression),
                }
            }
            _ => self.construct(maker, here, expression),
        }
    }

    /// A name makes nothing: it stands for a stream.
    pub(crate) fn named(&self, here: &Here<'_, '_>, name: &str) -> Result<Stream, MakeFault>
        requires { CanName self.now here.now name.now }
        ensures { IsNamed self.now here.now name.now result }
    {
        match self.stream(here, name) {
            Some(stream) => Ok(stream),
            None => unreachable!(),
        }
    }

    /// The type of the events of an expression.
    fn type_of(&self, here: &Here<'_, '_>, expression: &Expr) -> Result<ValueType, MakeFault>
        requires { CanMake self.now here.now expression.now }
        ensures is { IfOk result (IsTypeOf self.now here.now expression.now) }
        ensures memory { IfErr result (λ f. f ≡ fault.Memory) }
    {
        match judge(self.alloc, &here.around, expression) {
            Ok(Some(of)) => Ok(of.inner()),
            Ok(None) => unreachable!(),
            Err(Stop::Wrong(_)) => unreachable!(),
            Err(Stop::Memory) => Err(MakeFault::Memory),
        }
    }

    /// An expression with equations of its own, which come after those of its parts.
    #[cycle(expression)]
    fn construct(
        &self,
        maker: &mut Maker,
        here: &Here<'_, '_>,
        expression: &Expr,
    ) -> Result<Stream, MakeFault>
        requires { CanConstruct self.now here.now expression.now }
        ensures { IsConstructed self.now here.now expression.now maker.old maker.new result }
    {
        let of = self.type_of(here, expression)?;
        let shape = shape(self.alloc, self.functions, here.around.scope, expression)?;
        let parts = self.parts(maker, here, &shape.parts)?;
        own(self.alloc, maker, expression, of, shape.construct, &parts)
    }

    /// The streams of expressions, from left to right.
    #[cycle(expression)]
    fn parts(
        &self,
        maker: &mut Maker,
        here: &Here<'_, '_>,
        parts: &[&Expr],
    ) -> Result<Vec<Stream>, MakeFault>
        requires { CanMakeAll self.now here.now (expressions_in parts.now) }
        ensures { AreExpressions self.now here.now (expressions_in parts.now) maker.old maker.new result }
    {
        let mut streams = Vec::new(self.alloc);
        for part in parts {
            let stream = self.expression(maker, here, part)?;
            streams.push(stream)?;
        }
        Ok(streams)
    }

    /// A body: one that is only a name makes the merge of its stream with itself.
    #[cycle(expression)]
    pub(crate) fn body(
        &self,
        maker: &mut Maker,
        here: &Here<'_, '_>,
        expression: &Expr,
    ) -> Result<Stream, MakeFault>
        requires { CanMake self.now here.now expression.now }
        ensures { IsBody self.now here.now expression.now maker.old maker.new result }
    {
        let stream = self.expression(maker, here, expression)?;
        aliased(maker, expression, stream)
    }
}
