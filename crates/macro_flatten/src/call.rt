// The equations of a call of a macro.

ghost use Rattle.std.specs.Prelude.{◌≡◌, ◌-◌, ◌<◌, false, map, length, slice_get, IfOk, IfErr, MatchOption};
ghost use Rattle.std.specs.Option.{option_map};
ghost use Rattle.syntax_tree.specs.inner.OneLevel.{definition_of, definitions_of, exprs_of, item_of};
ghost use Rattle.name_check.specs.Scope.{top};
ghost use Rattle.type_rules.specs.Asked.{inner};
ghost use Rattle.syntax_tree.specs.Tree.{params_of};
ghost use Rattle.expr_types.specs.Bodies.{may_have_braces};
ghost use Rattle.expr_types.specs.inner.Shown.{around_of, kinds_of};
ghost use Rattle.stream_constructs.specs.declared.maker.MakeFault.TheVariants as fault;
ghost use Rattle.equation_marks.specs.Marks.{macro_marks};
ghost use Rattle.macro_flatten.specs.inner.Answers.{AreExpressions, AreNumbered, AreStreams, CanCall, CanEnter, CanMakeAll, CanMakeBlock};
ghost use Rattle.macro_flatten.specs.inner.Answers.{IsBlock, IsCalled, IsDefinedAt, IsInside, to_enough};

use crate::context::{Context, Here};
use equation_marks::body::result_of;
use expr_types::around::Around;
use flat_core::limits::MOST_EQUATIONS;
use name_check::scope::{Scope, locals, parameters};
use stream_constructs::construct::Stream;
use stream_constructs::maker::{MakeFault, Maker};
use syntax_tree::tree::{Body, Definition, DefinitionParts, Expr, Item};
use tsl_value::ids::EqId;
use type_rules::rule::{ExprType, Setting};

/// The stream of the last of equations that end here.
pub(crate) fn ending_at(count: u32, kind: Option<ExprType>) -> Option<Stream>
    ensures { result ≡ option_map (λ t. record { id = count - 1; of = inner t }) kind }
{
    match kind {
        Some(kind) => Some(Stream {
            id: EqId::new(count.saturating_sub(1)),
            of: kind.inner(),
        }),
        None => None,
    }
}

/// The definition of an item, if it is one.
fn definition_at(items: &[Item], number: usize) -> Option<&DefinitionParts>
    ensures { MatchOption result (may_have_braces (params_of (slice_get (map item_of items.now) number)) ≡ false)
        (λ d. IsDefinedAt (map item_of items.now) number d.now) }
{
    match items.get(number) {
        Some(Item::Defined(_, definition)) => Some(definition.parts()),
        Some(Item::Input(_, _, _, _)) => None,
        Some(Item::Output(_, _, _)) => None,
        Some(Item::OutputAs(_, _, _, _)) => None,
        None => None,
    }
}

impl<'a> Context<'a> {
    /// A call: first the arguments, then the definitions of the block, then the result.
    #[cycle(expression)]
    pub(crate) fn call(
        &self,
        maker: &mut Maker,
        here: &Here<'_, '_>,
        number: usize,
        arguments: &[Expr],
    ) -> Result<Stream, MakeFault>
        requires { CanCall self.now here.now number (exprs_of arguments.now) }
        ensures { IsCalled self.now here.now number (exprs_of arguments.now) maker.old maker.new result }
    {
        let params = self.arguments(maker, here, arguments)?;
        match definition_at(self.items, number) {
            Some(parts) => {
                if here.deep == 0 {
                    unreachable!()
                }
                self.inside(maker, number, parts, &params, here.deep - 1)
            }
            None => unreachable!(),
        }
    }

    /// The streams of arguments, from left to right.
    #[cycle(expression)]
    fn arguments(
        &self,
        maker: &mut Maker,
        here: &Here<'_, '_>,
        arguments: &[Expr],
    ) -> Result<Vec<Stream>, MakeFault>
        requires { CanMakeAll self.now here.now arguments.now }
        ensures { AreExpressions self.now here.now arguments.now maker.old maker.new result }
    {
        let mut streams = Vec::new(self.alloc);
        for argument in arguments {
            let stream = self.expression(maker, here, argument)?;
            streams.push(stream)?;
        }
        Ok(streams)
    }

    /// The block and the result of a macro whose parameters are these streams.
    #[cycle(expression)]
    fn inside(
        &self,
        maker: &mut Maker,
        number: usize,
        parts: &'a DefinitionParts,
        params: &[Stream],
        deep: u32,
    ) -> Result<Stream, MakeFault>
        requires { CanEnter self.now number (definition_of parts.now) params.now deep }
        ensures { IsInside self.now number (definition_of parts.now) params.now deep maker.old maker.new result }
    {
        let written = parts.params.as_slice();
        let outer = Scope::around(self.names, written);
        let scope = Scope::inner(parameters(self.alloc, written)?, &outer);
        let around = Around {
            items: self.items,
            kinds: self.kinds,
            scope: &scope,
            setting: Setting::Streams,
            number,
            params: written,
        };
        match &parts.body {
            Body::Plain(result) => {
                let inside = Here {
                    around,
                    params,
                    locals: &[],
                    deep,
                };
                self.body(maker, &inside, result)
            }
            Body::Block(definitions, result) => {
                let block = Scope::inner(locals(self.alloc, 0, definitions)?, &scope);
                let around = around.within(&block);
                let locals = self.locals(&around, deep, definitions, maker.count())?;
                let inside = Here {
                    around,
                    params,
                    locals: &locals,
                    deep,
                };
                self.block(maker, &inside, definitions)?;
                // so they have the numbers that were foreseen
                prove!(maker.count() <= MOST_EQUATIONS);
                self.body(maker, &inside, result)
            }
        }
    }

    /// The streams that the definitions of a block will have, where so many equations are made. Definitions use each other in any
    /// order, so their numbers have to be known before.
    fn locals(
        &self,
        around: &Around<'_>,
        deep: u32,
        definitions: &[Definition],
        made: u32,
    ) -> Result<Vec<Stream>, MakeFault>
        requires names { self.now.names.now ≡ top (map item_of self.now.items.now) }
        requires streams { AreStreams (kinds_of around.now.kinds.now) around.now.number (length definitions.now) }
        ensures numbered { IfOk result (λ v. AreNumbered to_enough (around_of around.now) (macro_marks (map item_of self.now.items.now)
            (kinds_of self.now.kinds.now) deep) 0 made (definitions_of definitions.now) v.items) }
        ensures memory { IfErr result (λ f. f ≡ fault.Memory) }
    {
        let counter = self.counter();
        let mut streams = Vec::new(self.alloc);
        let mut count = made;
        for (number, definition) in definitions.iter().enumerate() {
            count = counter.definition(around, deep, definition, count)?;
            match ending_at(count, around.kinds.local(around.number, number)) {
                Some(stream) => streams.push(stream)?,
                None => unreachable!(),
            }
        }
        Ok(streams)
    }

    /// Makes the definitions of a block.
    #[cycle(expression)]
    fn block(
        &self,
        maker: &mut Maker,
        here: &Here<'_, '_>,
        definitions: &[Definition],
    ) -> Result<(), MakeFault>
        requires { CanMakeBlock self.now here.now (definitions_of definitions.now) }
        ensures { IsBlock self.now here.now (definitions_of definitions.now) maker.old maker.new result }
    {
        for definition in definitions {
            let _stream = self.body(maker, here, result_of(&definition.parts().body))?;
        }
        Ok(())
    }
}
