// The number of equations that expressions make.

ghost use Rattle.std.specs.Prelude.{◌≡◌, ◌++◌, suc, IfOk, map};
ghost use Rattle.std.specs.List.{flat_map, filter};
ghost use Rattle.tsl_value.specs.declared.place.Place.{Place};
ghost use Rattle.syntax_tree.specs.Tree as tree;
ghost use Rattle.syntax_tree.specs.declared.tree.Level.{Level as Levels};
ghost use Rattle.syntax_tree.specs.inner.OneLevel.{definition_of, definitions_of, exprs_of, links_in, item_of};
ghost use Rattle.name_check.specs.inner.Steps.{local_body};
ghost use Rattle.name_check.specs.inner.Shown.{nowhere};
ghost use Rattle.expr_types.specs.Judge.{type_of};
ghost use Rattle.expr_types.specs.inner.Shown.{around_of};
ghost use Rattle.spec_meaning.specs.Occurrence.{result_of as result_in};
ghost use Rattle.spec_meaning.specs.Shape.{is_part};
ghost use Rattle.equation_marks.specs.Marks.{marks, link_marks, body_marks, block_marks, unless_literal, holds_aggregate};
ghost use Rattle.equation_marks.specs.inner.Counted.{counted};
ghost use Rattle.equation_marks.specs.inner.Counters.{calls_of, HasNames, IsDefinitionAt};

use crate::body::{block_of, definition_at, is_only_name, result_of, setting_of};
use crate::call::call_parts;
pub use crate::own::ENOUGH;
use crate::own::{choice, dotted_over, more, signal_after, signal_of_one, signal_of_two, varies};
use expr_types::around::Around;
use expr_types::judge::expression as judge;
use expr_types::kinds::KindTable;
use expr_types::stop::Stop;
use name_check::builtin::is_unit;
use name_check::names::Names;
use name_check::scope::{Scope, locals, parameters};
use std::alloc::Global;
use syntax_tree::tree::{Definition, DefinitionParts, Expr, Item, Link, Node};
use tsl_value::memory::NoMemory;
use tsl_value::scalar::ValueType;
use type_rules::rule::ExprType;

/// Counts the equations that the expressions of a specification make. Nothing is counted beyond `ENOUGH`.
#[derive(Drop)]
pub struct Counter<'a> {
    pub alloc: Global,
    pub items: &'a [Item],
    /// The names that the items declare.
    pub names: &'a Names,
    /// What the declared names are.
    pub kinds: &'a KindTable,
}

impl Counter<'_> {
    /// How many equations there are with those of an expression, after so many others. Calls of macros nest no deeper than is
    /// said.
    #[cycle(counting)]
    pub fn expression(
        &self,
        at: &Around<'_>,
        deep: u32,
        expression: &Expr,
        count: u32,
    ) -> Result<u32, NoMemory>
        requires { HasNames self.now }
        ensures { IfOk result (λ n. n ≡ counted count (marks (around_of at.now) (calls_of self.now deep) expression.now)) }
    {
        if count >= ENOUGH {
            return Ok(ENOUGH);
        }
        match expression.node() {
            Node::If(condition, yes, no) => {
                let own = choice(self.is_aggregate(at, expression)?, condition, yes, no);
                let count = self.operand(at, deep, condition, count)?;
                let count = self.operand(at, deep, yes, count)?;
                let count = self.operand(at, deep, no, count)?;
                Ok(more(count, own))
            }
            Node::Chain(_, first, links) => self.chain(at, deep, first, links, count),
            Node::Compare(_, left, right) => {
                let count = self.operand(at, deep, left, count)?;
                let count = self.operand(at, deep, right, count)?;
                Ok(more(count, signal_of_two(left, right)))
            }
            Node::Negate(operand) | Node::Not(operand) => {
                let count = self.operand(at, deep, operand, count)?;
                Ok(more(count, signal_of_one(operand)))
            }
            Node::Number(_) | Node::Negative(_) | Node::Text(_) | Node::Boolean(_) => {
                Ok(more(count, 2))
            }
            Node::Unit => Ok(more(count, 1)),
            Node::Name(name) => {
                if is_unit(name.as_str()) {
                    Ok(more(count, 1))
                } else {
                    Ok(count)
                }
            }
            Node::Call(name, arguments) => self.call(at, deep, name.as_str(), arguments, count),
            Node::CallDotted(function, arguments) => {
                let count = self.operands(at, deep, arguments, count)?;
                Ok(more(count, dotted_over(*function, arguments)))
            }
            Node::Nil(_) | Node::Empty(_) => Ok(more(count, 1)),
            Node::None(_) => Ok(count),
        }
    }

    /// It is a set or a map.
    fn is_aggregate(&self, at: &Around<'_>, expression: &Expr) -> Result<bool, NoMemory>
        ensures { IfOk result (λ b. b ≡ holds_aggregate (type_of (around_of at.now) expression.now)) }
    {
        match judge(self.alloc, at, expression) {
            Ok(Some(ExprType::Stream(ValueType::Scalar(_)))) => Ok(false),
            Ok(Some(ExprType::Stream(_))) => Ok(true),
            Ok(_) => Ok(false),
            Err(Stop::Wrong(_)) => Ok(false),
            Err(Stop::Memory) => Err(NoMemory),
        }
    }

    /// An operand, which makes nothing itself where it is a literal.
    #[cycle(counting)]
    fn operand(
        &self,
        at: &Around<'_>,
        deep: u32,
        operand: &Expr,
        count: u32,
    ) -> Result<u32, NoMemory>
        requires { HasNames self.now }
        ensures { IfOk result (λ n. n ≡ counted count
            (unless_literal operand.now (marks (around_of at.now) (calls_of self.now deep) operand.now))) }
    {
        if varies(operand) {
            self.expression(at, deep, operand, count)
        } else {
            Ok(count.min(ENOUGH))
        }
    }

    #[cycle(counting)]
    fn chain(
        &self,
        at: &Around<'_>,
        deep: u32,
        first: &Expr,
        links: &[Link],
        count: u32,
    ) -> Result<u32, NoMemory>
        requires { HasNames self.now }
        ensures { IfOk result (λ n. (p : Place) (l : Levels)
            → n ≡ counted count (marks (around_of at.now) (calls_of self.now deep) (tree.Chain p l first.now (links_in links.now)))) }
    {
        match links.split_first() {
            None => self.expression(at, deep, first, count),
            Some((second, rest)) => {
                let count = self.operand(at, deep, first, count)?;
                let count = self.operand(at, deep, &second.operand, count)?;
                let count = more(count, signal_of_two(first, &second.operand));
                self.links(at, deep, rest, count)
            }
        }
    }

    /// Further links, on the left of which stands a stream.
    #[cycle(counting)]
    fn links(
        &self,
        at: &Around<'_>,
        deep: u32,
        links: &[Link],
        mut count: u32,
    ) -> Result<u32, NoMemory>
        requires { HasNames self.now }
        ensures { IfOk result (λ n. (p : Place)
            → n ≡ counted count (link_marks (around_of at.now) (calls_of self.now deep) p (links_in links.now))) }
    {
        for link in links {
            count = self.operand(at, deep, &link.operand, count)?;
            count = more(count, signal_after(&link.operand));
        }
        Ok(count.min(ENOUGH))
    }

    /// Expressions, one after the other.
    #[cycle(counting)]
    fn all(
        &self,
        at: &Around<'_>,
        deep: u32,
        expressions: &[Expr],
        mut count: u32,
    ) -> Result<u32, NoMemory>
        requires { HasNames self.now }
        ensures { IfOk result (λ n. n ≡ counted count (flat_map (marks (around_of at.now) (calls_of self.now deep)) expressions.now)) }
    {
        for expression in expressions {
            count = self.expression(at, deep, expression, count)?;
        }
        Ok(count.min(ENOUGH))
    }

    #[cycle(counting)]
    fn operands(
        &self,
        at: &Around<'_>,
        deep: u32,
        operands: &[Expr],
        mut count: u32,
    ) -> Result<u32, NoMemory>
        requires { HasNames self.now }
        ensures { IfOk result (λ n. n ≡ counted count
            (flat_map (marks (around_of at.now) (calls_of self.now deep)) (filter is_part operands.now))) }
    {
        for operand in operands {
            count = self.operand(at, deep, operand, count)?;
        }
        Ok(count.min(ENOUGH))
    }

    #[cycle(counting)]
    fn call(
        &self,
        at: &Around<'_>,
        deep: u32,
        name: &str,
        arguments: &[Expr],
        count: u32,
    ) -> Result<u32, NoMemory>
        requires { HasNames self.now }
        ensures { IfOk result (λ n. (p : Place)
            → n ≡ counted count (marks (around_of at.now) (calls_of self.now deep) (tree.Call p name.now (exprs_of arguments.now)))) }
    {
        let parts = call_parts(at.scope, name, arguments);
        let count = self.all(at, deep, parts.streams, count)?;
        let count = self.operands(at, deep, parts.operands, count)?;
        let count = more(count, parts.own);
        match parts.callee {
            Some(number) => self.callee_count(deep, number, count),
            None => Ok(count),
        }
    }

    /// With those that a call of the macro of this number makes besides its arguments.
    #[cycle(counting)]
    pub fn callee_count(&self, deep: u32, number: usize, count: u32) -> Result<u32, NoMemory>
        requires { HasNames self.now }
        ensures { IfOk result (λ n. n ≡ counted count (calls_of self.now deep number)) }
    {
        if count >= ENOUGH {
            return Ok(ENOUGH);
        }
        if deep == 0 {
            return Ok(count);
        }
        match definition_at(self.items, number) {
            Some(parts) => self.inside(deep - 1, number, parts, count),
            None => Ok(count),
        }
    }

    /// The block of a macro, and its result.
    #[cycle(counting)]
    fn inside(
        &self,
        deep: u32,
        number: usize,
        parts: &DefinitionParts,
        count: u32,
    ) -> Result<u32, NoMemory>
        requires names { HasNames self.now }
        requires definition { IsDefinitionAt (map item_of self.now.items.now) number parts.now }
        ensures { IfOk result (λ n. n ≡ counted count (calls_of self.now (suc deep) number)) }
    {
        let params = parts.params.as_slice();
        let definitions = block_of(&parts.body);
        let outer = Scope::around(self.names, params);
        let scope = Scope::inner(parameters(self.alloc, params)?, &outer);
        let block = Scope::inner(locals(self.alloc, 0, definitions)?, &scope);
        let at = Around {
            items: self.items,
            kinds: self.kinds,
            scope: &block,
            setting: setting_of(params),
            number,
            params,
        };
        let count = self.block(&at, deep, definitions, count)?;
        self.body(&at, deep, result_of(&parts.body), count)
    }

    #[cycle(counting)]
    fn block(
        &self,
        at: &Around<'_>,
        deep: u32,
        definitions: &[Definition],
        mut count: u32,
    ) -> Result<u32, NoMemory>
        requires { HasNames self.now }
        ensures { IfOk result (λ n. n ≡ counted count
            (block_marks (around_of at.now) (calls_of self.now deep) (definitions_of definitions.now))) }
    {
        for definition in definitions {
            count = self.body(at, deep, result_of(&definition.parts().body), count)?;
        }
        Ok(count.min(ENOUGH))
    }

    /// With those of a definition of a block.
    pub fn definition(
        &self,
        at: &Around<'_>,
        deep: u32,
        definition: &Definition,
        count: u32,
    ) -> Result<u32, NoMemory>
        requires { HasNames self.now }
        ensures { IfOk result (λ n. n ≡ counted count
            (body_marks (around_of at.now) (calls_of self.now deep) (result_in (local_body definition.now)))) }
    {
        self.body(at, deep, result_of(&definition.parts().body), count)
    }

    /// With those of a body. One that is only a name makes the merge of its stream with itself.
    #[cycle(counting)]
    pub fn body(
        &self,
        at: &Around<'_>,
        deep: u32,
        expression: &Expr,
        count: u32,
    ) -> Result<u32, NoMemory>
        requires { HasNames self.now }
        ensures { IfOk result (λ n. n ≡ counted count (body_marks (around_of at.now) (calls_of self.now deep) expression.now)) }
    {
        if is_only_name(expression) {
            Ok(more(count, 1))
        } else {
            self.expression(at, deep, expression, count)
        }
    }
}
