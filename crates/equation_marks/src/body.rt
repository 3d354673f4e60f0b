// Bodies, and the definitions of items.

ghost use Rattle.std.specs.Prelude.{◌≡◌, MatchOption, Some, None, map, slice_get};
ghost use Rattle.syntax_tree.specs.inner.OneLevel.{item_of, params_in, definitions_of};
ghost use Rattle.syntax_tree.specs.inner.OneLevel as code;
ghost use Rattle.expr_types.specs.Bodies.{setting_of};
ghost use Rattle.spec_meaning.specs.Occurrence.{result_of, block_of, body_of};
ghost use Rattle.spec_meaning.specs.Makes.{is_name};
ghost use Rattle.equation_marks.specs.inner.Counters.{IsDefinitionAt};

use name_check::builtin::is_unit;
use name_check::scope::are_values;
use syntax_tree::tree::{Body, Definition, DefinitionParts, Expr, Item, Node, Param};
use type_rules::rule::Setting;

/// An expression that is only a name, also in a chain of one operand.
pub fn is_only_name(expression: &Expr) -> bool
    ensures { result ≡ is_name expression.now }
{
    match expression.node() {
        Node::Name(name) => !is_unit(name.as_str()),
        Node::Chain(_, first, links) => match links.split_first() {
            None => is_only_name(first),
            Some(_) => false,
        },
        _ => false,
    }
}

/// The definitions between braces.
pub(crate) fn block_of(body: &Body) -> &[Definition]
    ensures { definitions_of result.now ≡ block_of (Some (code.body_of body.now)) }
{
    match body {
        Body::Plain(_) => &[],
        Body::Block(definitions, _) => definitions.as_slice(),
    }
}

/// The result of a body.
pub fn result_of(body: &Body) -> &Expr
    ensures { result.now ≡ result_of (code.body_of body.now) }
{
    match body {
        Body::Plain(result) => result,
        Body::Block(_, result) => result,
    }
}

pub(crate) fn setting_of(params: &[Param]) -> Setting
    ensures { result ≡ setting_of (params_in params.now) }
{
    if are_values(params) {
        Setting::Values
    } else {
        Setting::Streams
    }
}

/// The definition of an item, if it is one.
pub(crate) fn definition_at(items: &[Item], number: usize) -> Option<&DefinitionParts>
    ensures { MatchOption result (body_of (slice_get (map item_of items.now) number) ≡ None)
        (λ d. IsDefinitionAt (map item_of items.now) number d.now) }
{
    match items.get(number) {
        Some(Item::Defined(_, definition)) => Some(definition.parts()),
        Some(Item::Input(_, _, _, _)) => None,
        Some(Item::Output(_, _, _)) => None,
        Some(Item::OutputAs(_, _, _, _)) => None,
        None => None,
    }
}
