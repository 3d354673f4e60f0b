// The expressions that stand in an expression.

ghost use Rattle.std.specs.Prelude.{◌≡◌, ◌++◌, [], ◌∷◌, IfOk, OnOk, if◌then◌else◌};
ghost use Rattle.syntax_tree.specs.inner.OneLevel.{exprs_of, links_in, expr_of};
ghost use Rattle.name_check.specs.Builtin.{is_lift as is_lift_name};
ghost use Rattle.name_check.specs.Parts.{parts, part_place, argument_parts, lift_parts, link_parts};
ghost use Rattle.name_check.specs.inner.Shown.{part_of, parts_in, nowhere, inner_parts};

use crate::builtin::is_lift;
use std::alloc::Global;
use syntax_tree::tree::{Expr, Link, Node};
use tsl_value::memory::NoMemory;
use tsl_value::place::Place;

/// A part of an expression.
#[derive(Clone, Copy)]
pub enum Part<'a> {
    Operand(&'a Expr),
    /// What stands where `lift` has the name of its function. What is in it is no part.
    Function(&'a Expr),
}

impl<'a> Part<'a> {
    /// The place of its first token.
    pub fn place(&self) -> Place
        ensures { result ≡ part_place (part_of self.now) }
    {
        match self {
            Part::Operand(expression) => expression.place(),
            Part::Function(expression) => expression.place(),
        }
    }
}

/// All expressions that stand in an expression, itself first, in the order of the source.
pub fn parts<'a>(alloc: Global, expression: &'a Expr) -> Result<Vec<Part<'a>>, NoMemory>
    ensures { IfOk result (λ found. parts_in found.items ≡ parts expression.now) }
{
    let mut out = Vec::new(alloc);
    add_parts(expression, &mut out)?;
    Ok(out)
}

#[cycle(parts)]
fn add_parts<'a>(expression: &'a Expr, out: &mut Vec<Part<'a>>) -> Result<(), NoMemory>
    ensures { OnOk result (parts_in out.new.items ≡ parts_in out.old.items ++ parts expression.now) }
{
    out.push(Part::Operand(expression))?;
    add_inner(expression.node(), out)
}

/// What stands in one level, without itself.
#[cycle(parts)]
fn add_inner<'a>(node: &'a Node, out: &mut Vec<Part<'a>>) -> Result<(), NoMemory>
    ensures { OnOk result (parts_in out.new.items ≡ parts_in out.old.items ++ inner_parts (expr_of nowhere node.now)) }
{
    match node {
        Node::If(condition, yes, no) => {
            add_parts(condition, out)?;
            add_parts(yes, out)?;
            add_parts(no, out)
        }
        Node::Chain(_, first, links) => {
            add_parts(first, out)?;
            add_links(links, out)
        }
        Node::Compare(_, left, right) => {
            add_parts(left, out)?;
            add_parts(right, out)
        }
        Node::Negate(operand) => add_parts(operand, out),
        Node::Not(operand) => add_parts(operand, out),
        Node::Call(name, arguments) => add_call(name.as_str(), arguments, out),
        Node::CallDotted(_, arguments) => add_arguments(arguments, out),
        Node::Number(_) => Ok(()),
        Node::Negative(_) => Ok(()),
        Node::Text(_) => Ok(()),
        Node::Boolean(_) => Ok(()),
        Node::Unit => Ok(()),
        Node::Name(_) => Ok(()),
        Node::Nil(_) => Ok(()),
        Node::None(_) => Ok(()),
        Node::Empty(_) => Ok(()),
    }
}

/// What stands in the arguments of a call.
#[cycle(parts)]
fn add_call<'a>(name: &str, arguments: &'a [Expr], out: &mut Vec<Part<'a>>) -> Result<(), NoMemory>
    ensures { OnOk result (parts_in out.new.items ≡ parts_in out.old.items
        ++ (if is_lift_name name.now then lift_parts (exprs_of arguments.now) else argument_parts (exprs_of arguments.now))) }
{
    if is_lift(name) {
        add_lift(arguments, out)
    } else {
        add_arguments(arguments, out)
    }
}

#[cycle(parts)]
fn add_arguments<'a>(arguments: &'a [Expr], out: &mut Vec<Part<'a>>) -> Result<(), NoMemory>
    ensures { OnOk result (parts_in out.new.items ≡ parts_in out.old.items ++ argument_parts (exprs_of arguments.now)) }
{
    for argument in arguments {
        add_parts(argument, out)?;
    }
    Ok(())
}

/// The arguments of `lift`, the last of which is the name of its function.
#[cycle(parts)]
fn add_lift<'a>(arguments: &'a [Expr], out: &mut Vec<Part<'a>>) -> Result<(), NoMemory>
    ensures { OnOk result (parts_in out.new.items ≡ parts_in out.old.items ++ lift_parts (exprs_of arguments.now)) }
{
    let Some((function, before)) = arguments.split_last() else {
        return Ok(());
    };
    add_arguments(before, out)?;
    out.push(Part::Function(function))?;
    Ok(())
}

#[cycle(parts)]
fn add_links<'a>(links: &'a [Link], out: &mut Vec<Part<'a>>) -> Result<(), NoMemory>
    ensures { OnOk result (parts_in out.new.items ≡ parts_in out.old.items ++ link_parts (links_in links.now)) }
{
    for link in links {
        add_parts(&link.operand, out)?;
    }
    Ok(())
}
