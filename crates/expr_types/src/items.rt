// What is wrong in a specification, and what its items are.

ghost use Rattle.std.specs.Prelude.{◌≡◌, [], IfOk, map};
ghost use Rattle.syntax_tree.specs.Counts.{HasFewInside};
ghost use Rattle.syntax_tree.specs.inner.OneLevel.{body_of, definition_of, item_of};
ghost use Rattle.name_check.specs.Scope.{seen, top};
ghost use Rattle.type_rules.specs.declared.rule.Setting.TheVariants as setting;
ghost use Rattle.expr_types.specs.Bodies.{item_wrongs, all_wrongs, aggregate_results_from, holds_aggregate};
ghost use Rattle.expr_types.specs.inner.BodySteps.{wrongs_in_definition, aggregate_result};
ghost use Rattle.expr_types.specs.inner.Shown.{around_of, kinds_of};
ghost use Rattle.expr_types.specs.inner.Answers.{first};

use crate::around::Around;
use crate::body::{find_in_body, find_in_expression, find_in_mention, setting_of};
use crate::kinds::KindTable;
use crate::wrong::Wrong;
use name_check::names::Names;
use name_check::scope::{Scope, are_values, parameters};
use std::alloc::Global;
use syntax_tree::tree::{DefinitionParts, Item};
use tsl_value::memory::NoMemory;
use tsl_value::place::Place;
use type_rules::rule::{ExprType, Setting};

fn find_in_definition(
    alloc: Global,
    items: &[Item],
    names: &Names,
    kinds: &KindTable,
    number: usize,
    parts: &DefinitionParts,
) -> Result<Option<Wrong>, NoMemory>
    requires names { names.now ≡ top (map item_of items.now) }
    requires few { HasFewInside (body_of parts.now.body) }
    ensures { IfOk result (λ found. found
        ≡ first (wrongs_in_definition (map item_of items.now) (kinds_of kinds.now) number (definition_of parts.now))) }
{
    let params = parts.params.as_slice();
    let outer = Scope::around(names, params);
    let scope = Scope::inner(parameters(alloc, params)?, &outer);
    let at = Around {
        items,
        kinds,
        scope: &scope,
        setting: setting_of(params),
        number,
        params,
    };
    find_in_body(alloc, &at, parts)
}

/// Where outputs stand.
fn at_top<'a>(
    items: &'a [Item],
    scope: &'a Scope<'a>,
    kinds: &'a KindTable,
    number: usize,
) -> Around<'a>
    ensures { around_of result ≡ record {
      items = map item_of items.now;
      kinds = kinds_of kinds.now;
      scope = seen scope.now;
      setting = setting.Streams;
      number = number;
      params = [];
    } }
{
    Around {
        items,
        kinds,
        scope,
        setting: Setting::Streams,
        number,
        params: &[],
    }
}

fn find_in_item(
    alloc: Global,
    items: &[Item],
    names: &Names,
    kinds: &KindTable,
    number: usize,
    item: &Item,
) -> Result<Option<Wrong>, NoMemory>
    requires { names.now ≡ top (map item_of items.now) }
    ensures { IfOk result (λ found. found ≡ first (item_wrongs (map item_of items.now) (kinds_of kinds.now) number (item_of item.now))) }
{
    match item {
        Item::Input(_, _, _, _) => Ok(None),
        Item::Defined(_, definition) => {
            find_in_definition(alloc, items, names, kinds, number, definition.parts())
        }
        Item::Output(_, place, name) => {
            let scope = Scope::all(names);
            let at = at_top(items, &scope, kinds, number);
            Ok(find_in_mention(&at, *place, name.as_str()))
        }
        Item::OutputAs(_, expression, _, _) => {
            let scope = Scope::all(names);
            let at = at_top(items, &scope, kinds, number);
            find_in_expression(alloc, &at, None, expression)
        }
    }
}

/// The first expression or body of a specification that does not fit, where these names are declared at the top and are
/// these.
pub fn find_wrong_type(
    alloc: Global,
    items: &[Item],
    names: &Names,
    kinds: &KindTable,
) -> Result<Option<Wrong>, NoMemory>
    requires { names.now ≡ top (map item_of items.now) }
    ensures { IfOk result (λ found. found ≡ first (all_wrongs (map item_of items.now) (kinds_of kinds.now))) }
{
    for (number, item) in items.iter().enumerate() {
        if let Some(wrong) = find_in_item(alloc, items, names, kinds, number, item)? {
            return Ok(Some(wrong));
        }
    }
    Ok(None)
}

fn holds_aggregate(of: Option<ExprType>) -> bool
    ensures { result ≡ holds_aggregate of }
{
    match of {
        Some(ExprType::Value(of)) => of.is_aggregate(),
        Some(ExprType::Optional(of)) => of.is_aggregate(),
        Some(ExprType::Stream(_)) => false,
        None => false,
    }
}

/// The name of a value function whose result is an aggregate or an option of one.
fn aggregate_in(kinds: &KindTable, number: usize, item: &Item) -> Option<Place>
    ensures { result ≡ first (aggregate_result (kinds_of kinds.now) number (item_of item.now)) }
{
    match item {
        Item::Defined(_, definition) => {
            let parts = definition.parts();
            if are_values(&parts.params) && holds_aggregate(kinds.item(number)) {
                Some(parts.place)
            } else {
                None
            }
        }
        Item::Input(_, _, _, _) => None,
        Item::Output(_, _, _) => None,
        Item::OutputAs(_, _, _, _) => None,
    }
}

/// The name of the first value function whose result is a set, a map or an option of one.
pub fn find_aggregate_result(items: &[Item], kinds: &KindTable) -> Option<Place>
    ensures { result ≡ first (aggregate_results_from (kinds_of kinds.now) 0 (map item_of items.now)) }
{
    for (number, item) in items.iter().enumerate() {
        if let Some(place) = aggregate_in(kinds, number, item) {
            return Some(place);
        }
    }
    None
}
