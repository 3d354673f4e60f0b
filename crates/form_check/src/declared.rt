// Definitions with mixed parameters, and inputs of aggregates.

ghost use Rattle.std.specs.Prelude.{◌≡◌, not, map};
ghost use Rattle.std.specs.List.{list_any, flat_map};
ghost use Rattle.syntax_tree.specs.inner.OneLevel.{params_in, definition_of, item_of};
ghost use Rattle.name_check.specs.Scope.{is_events as is_events_type};
ghost use Rattle.name_check.specs.Faults.{first};
ghost use Rattle.form_check.specs.Declared.{are_mixed, mixed_in_definition, mixed_in_item, mixed_parameters, is_aggregate};
ghost use Rattle.form_check.specs.Declared.{is_of_aggregates, aggregate_in_item, aggregate_inputs};

use name_check::scope::{is_events, some_are_streams};
use syntax_tree::tree::{DefinitionParts, Item, Param, TypeName, TypeShape};
use tsl_value::place::Place;

fn some_are_values(params: &[Param]) -> bool
    ensures { result ≡ list_any (λ q. not (is_events_type q.of)) params.now }
{
    params.iter().any(|param| !is_events(&param.of))
}

/// Some are streams, and some are not.
fn are_mixed(params: &[Param]) -> bool
    ensures { result ≡ are_mixed (params_in params.now) }
{
    some_are_streams(params) && some_are_values(params)
}

fn find_mixed_in_definition(parts: &DefinitionParts) -> Option<Place>
    ensures { result ≡ first (mixed_in_definition (definition_of parts.now)) }
{
    if are_mixed(&parts.params) {
        Some(parts.place)
    } else {
        None
    }
}

fn find_mixed_in_item(item: &Item) -> Option<Place>
    ensures { result ≡ first (mixed_in_item (item_of item.now)) }
{
    match item {
        Item::Input(_, _, _, _) => None,
        Item::Defined(_, definition) => find_mixed_in_definition(definition.parts()),
        Item::Output(_, _, _) => None,
        Item::OutputAs(_, _, _, _) => None,
    }
}

/// The name of the first definition some of whose parameters are streams and some are not.
pub fn find_mixed_parameters(items: &[Item]) -> Option<Place>
    ensures { result ≡ first (mixed_parameters (map item_of items.now)) }
{
    for item in items {
        if let Some(place) = find_mixed_in_item(item) {
            return Some(place);
        }
    }
    None
}

/// A type of aggregates.
fn is_aggregate(of: &TypeName) -> bool
    ensures { result ≡ is_aggregate of.now }
{
    match of.shape() {
        TypeShape::Aggregate(_) => true,
        TypeShape::Unit | TypeShape::Int | TypeShape::Bool | TypeShape::Text => false,
        TypeShape::Option(_) | TypeShape::Events(_) => false,
    }
}

/// A stream of aggregates, whether `Events` is written or left out.
fn is_of_aggregates(of: &TypeName) -> bool
    ensures { result ≡ is_of_aggregates of.now }
{
    match of.shape() {
        TypeShape::Events(of) => is_aggregate(of),
        TypeShape::Unit
        | TypeShape::Int
        | TypeShape::Bool
        | TypeShape::Text
        | TypeShape::Aggregate(_)
        | TypeShape::Option(_) => is_aggregate(of),
    }
}

fn find_aggregate_in_item(item: &Item) -> Option<Place>
    ensures { result ≡ first (aggregate_in_item (item_of item.now)) }
{
    match item {
        Item::Input(_, place, _, of) => {
            if is_of_aggregates(of) {
                Some(*place)
            } else {
                None
            }
        }
        Item::Defined(_, _) => None,
        Item::Output(_, _, _) => None,
        Item::OutputAs(_, _, _, _) => None,
    }
}

/// The name of the first input whose type is a set or a map.
pub fn find_aggregate_input(items: &[Item]) -> Option<Place>
    ensures { result ≡ first (aggregate_inputs (map item_of items.now)) }
{
    for item in items {
        if let Some(place) = find_aggregate_in_item(item) {
            return Some(place);
        }
    }
    None
}
