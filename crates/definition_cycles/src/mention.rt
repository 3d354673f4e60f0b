// The names that stand in an expression.

ghost use Rattle.std.specs.Prelude.{◌≡◌, ◌++◌, length, take, OnOk, OnErr};
ghost use Rattle.name_check.specs.Scope.{seen};
ghost use Rattle.name_check.specs.Parts.{parts};
ghost use Rattle.name_check.specs.inner.Shown.{part_of};
ghost use Rattle.definition_cycles.specs.Mentions.{declared, declared_in};
ghost use Rattle.definition_cycles.specs.Calls.{is_call};
ghost use Rattle.definition_cycles.specs.inner.Walk.{mention_in, mentions_among};

use crate::list::push_some;
use name_check::declaration::Declaration;
use name_check::parts::{Part, parts};
use name_check::scope::Scope;
use std::alloc::Global;
use syntax_tree::tree::{Expr, Node};
use tsl_value::memory::NoMemory;

/// A declared name that stands in the expression of a node.
#[derive(Clone, Copy)]
pub struct Mention {
    /// The item of the node.
    pub item: usize,
    pub node: usize,
    /// What the name stands for there.
    pub is: Declaration,
    /// Whether it is called, or is the function of a `lift`.
    pub calls: bool,
}

/// What the name of an expression stands for.
fn declared_in(scope: &Scope<'_>, expression: &Expr) -> Option<Declaration>
    ensures { result ≡ declared_in (seen scope.now) expression.now }
{
    match expression.node() {
        Node::Name(name) => scope.find(name.as_str()),
        Node::Call(name, _) => scope.find(name.as_str()),
        _ => None,
    }
}

/// What the name of a part stands for.
fn declared(scope: &Scope<'_>, part: &Part<'_>) -> Option<Declaration>
    ensures { result ≡ declared (seen scope.now) (part_of part.now) }
{
    match part {
        Part::Operand(expression) => declared_in(scope, expression),
        Part::Function(expression) => declared_in(scope, expression),
    }
}

/// A call, or what stands where `lift` has the name of its function.
fn is_call(part: &Part<'_>) -> bool
    ensures { result ≡ is_call (part_of part.now) }
{
    match part {
        Part::Operand(expression) => match expression.node() {
            Node::Call(_, _) => true,
            _ => false,
        },
        Part::Function(_) => true,
    }
}

/// What a part mentions, in the expression of a node of an item.
fn mention_in(item: usize, node: usize, scope: &Scope<'_>, part: &Part<'_>) -> Option<Mention>
    ensures { result ≡ mention_in item node (seen scope.now) (part_of part.now) }
{
    match declared(scope, part) {
        Some(is) => Some(Mention {
            item,
            node,
            is,
            calls: is_call(part),
        }),
        None => None,
    }
}

/// Appends the mentions in the expression of a node of an item, or leaves the list as it was.
pub fn add_mentions(
    mentions: &mut Vec<Mention>,
    alloc: Global,
    item: usize,
    node: usize,
    expression: &Expr,
    scope: &Scope<'_>,
) -> Result<(), NoMemory>
    ensures added { OnOk result (mentions.new.items
        ≡ mentions.old.items ++ mentions_among item node (seen scope.now) (parts expression.now)) }
    ensures err { OnErr result (mentions.new.items ≡ mentions.old.items) }
{
    let before = mentions.len();
    match append_mentions(mentions, alloc, item, node, expression, scope) {
        Ok(()) => Ok(()),
        Err(none) => {
            mentions.truncate(before);
            Err(none)
        }
    }
}

/// Appends the mentions. After out of memory some of them may stand there.
fn append_mentions(
    mentions: &mut Vec<Mention>,
    alloc: Global,
    item: usize,
    node: usize,
    expression: &Expr,
    scope: &Scope<'_>,
) -> Result<(), NoMemory>
    ensures added { OnOk result (mentions.new.items
        ≡ mentions.old.items ++ mentions_among item node (seen scope.now) (parts expression.now)) }
    ensures err { OnErr result (take (length mentions.old.items) mentions.new.items ≡ mentions.old.items) }
{
    let parts = parts(alloc, expression)?;
    for part in &parts {
        push_some(mentions, mention_in(item, node, scope, part))?;
    }
    Ok(())
}
