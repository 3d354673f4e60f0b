// How many arguments a call takes.

ghost use Rattle.std.specs.Prelude.{◌≡◌, not, map};
ghost use Rattle.std.specs.Option.{option_and_then};
ghost use Rattle.vocabulary.specs.PlainTable.{plain_of, plain_takes};
ghost use Rattle.syntax_tree.specs.inner.OneLevel.{exprs_of, definition_of, item_of};
ghost use Rattle.name_check.specs.Scope.{meaning, seen};
ghost use Rattle.name_check.specs.inner.Shown.{part_of};
ghost use Rattle.form_check.specs.Arity.{last_of, definition_params, item_params, params_at};
ghost use Rattle.form_check.specs.Arity.{declared_takes, function_takes, takes, call_fits, lifted_takes, lift_may_have, lift_fits};
ghost use Rattle.form_check.specs.Arity.{is_wrong_lift, is_wrong_call, is_wrong};

use name_check::builtin::{is_lift, is_unit};
use name_check::declaration::Declaration;
use name_check::parts::Part;
use name_check::scope::Scope;
use syntax_tree::tree::{DefinitionParts, Expr, Item, Node};
use vocabulary::plain::plain_named;

/// How many arguments a name of the language takes, `lift` aside.
fn own_takes(name: &str) -> Option<usize>
    ensures { result ≡ option_and_then plain_takes (plain_of name.now) }
{
    plain_named(name)?.takes()
}

fn definition_params(parts: &DefinitionParts) -> usize
    ensures { result ≡ definition_params (definition_of parts.now) }
{
    parts.params.len()
}

/// The parameters of the definition of an item. Another item has none.
fn item_params(item: &Item) -> usize
    ensures { result ≡ item_params (Some (item_of item.now)) }
{
    match item {
        Item::Defined(_, definition) => definition_params(definition.parts()),
        Item::Input(_, _, _, _) => 0,
        Item::Output(_, _, _) => 0,
        Item::OutputAs(_, _, _, _) => 0,
    }
}

fn params_at(items: &[Item], number: usize) -> usize
    ensures { result ≡ params_at (map item_of items.now) number }
{
    match items.get(number) {
        Some(item) => item_params(item),
        None => 0,
    }
}

/// How many arguments a name takes that stands for this, if it may be called at all.
fn declared_takes(items: &[Item], is: Option<Declaration>) -> Option<usize>
    ensures { result ≡ declared_takes (map item_of items.now) is }
{
    match is {
        Some(Declaration::Macro(number)) => Some(params_at(items, number)),
        Some(Declaration::Function(number)) => Some(params_at(items, number)),
        Some(Declaration::Mixed(number)) => Some(params_at(items, number)),
        Some(Declaration::Input(_)) => None,
        Some(Declaration::Stream(_)) => None,
        Some(Declaration::Parameter(_)) => None,
        Some(Declaration::Local(_)) => None,
        None => None,
    }
}

/// How many parameters a value function has.
fn function_takes(items: &[Item], is: Option<Declaration>) -> Option<usize>
    ensures { result ≡ function_takes (map item_of items.now) is }
{
    match is {
        Some(Declaration::Function(number)) => Some(params_at(items, number)),
        Some(Declaration::Macro(_)) => None,
        Some(Declaration::Mixed(_)) => None,
        Some(Declaration::Input(_)) => None,
        Some(Declaration::Stream(_)) => None,
        Some(Declaration::Parameter(_)) => None,
        Some(Declaration::Local(_)) => None,
        None => None,
    }
}

/// How many arguments a name other than `lift` takes, if it may be called at all.
fn takes(items: &[Item], scope: &Scope<'_>, name: &str) -> Option<usize>
    ensures { result ≡ takes (map item_of items.now) (seen scope.now) name.now }
{
    if is_unit(name) {
        return None;
    }
    match own_takes(name) {
        Some(number) => Some(number),
        None => declared_takes(items, scope.find(name)),
    }
}

/// A call has as many arguments as its name takes, if it may be called at all.
fn call_fits(taken: Option<usize>, given: usize) -> bool
    ensures { result ≡ call_fits taken given }
{
    match taken {
        Some(taken) => taken == given,
        None => false,
    }
}

/// The parameters of the value function that `lift` has as its last argument.
fn lifted_takes(items: &[Item], scope: &Scope<'_>, arguments: &[Expr]) -> Option<usize>
    ensures { result ≡ lifted_takes (map item_of items.now) (seen scope.now) (last_of (exprs_of arguments.now)) }
{
    let (function, _) = arguments.split_last()?;
    match function.node() {
        Node::Name(name) => function_takes(items, scope.find(name.as_str())),
        _ => None,
    }
}

/// One to eight streams and the function.
fn lift_may_have(given: usize) -> bool
    ensures { result ≡ lift_may_have given }
{
    2 <= given && given <= 9
}

/// `lift` has a stream for each parameter of its function.
fn lift_fits(taken: Option<usize>, given: usize) -> bool
    ensures { result ≡ lift_fits taken given }
{
    match taken {
        Some(taken) => lift_may_have(given) && taken == given - 1,
        None => lift_may_have(given),
    }
}

#[tactic(auto, using(crate::proofs::CountLemmas::count_length))]
fn is_wrong_lift(items: &[Item], scope: &Scope<'_>, arguments: &[Expr]) -> bool
    ensures { result ≡ is_wrong_lift (map item_of items.now) (seen scope.now) (exprs_of arguments.now) }
{
    let taken = lifted_takes(items, scope, arguments);
    !lift_fits(taken, arguments.len())
}

#[tactic(auto, using(crate::proofs::CountLemmas::count_length))]
fn is_wrong_call(items: &[Item], scope: &Scope<'_>, name: &str, arguments: &[Expr]) -> bool
    ensures { result ≡ is_wrong_call (map item_of items.now) (seen scope.now) name.now (exprs_of arguments.now) }
{
    if is_lift(name) {
        is_wrong_lift(items, scope, arguments)
    } else {
        !call_fits(takes(items, scope, name), arguments.len())
    }
}

/// The part is a call with another number of arguments than it takes.
#[tactic(auto, using(crate::proofs::CountLemmas::count_length))]
pub(crate) fn is_wrong(items: &[Item], scope: &Scope<'_>, part: &Part<'_>) -> bool
    ensures { result ≡ is_wrong (map item_of items.now) (seen scope.now) (part_of part.now) }
{
    match part {
        Part::Operand(expression) => match expression.node() {
            Node::Call(name, arguments) => is_wrong_call(items, scope, name.as_str(), arguments),
            Node::CallDotted(function, arguments) => function.takes() != arguments.len(),
            _ => false,
        },
        Part::Function(_) => false,
    }
}
