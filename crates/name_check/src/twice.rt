// Names that are declared twice.

ghost use Rattle.std.specs.Prelude.{◌≡◌, [], ◌∷◌, ◌++◌, map, IfOk, IfNone};
ghost use Rattle.syntax_tree.specs.inner.OneLevel.{params_in, body_of, definition_of, definitions_of, item_of};
ghost use Rattle.name_check.specs.Scope.{declared_as};
ghost use Rattle.name_check.specs.Faults.{first, again, twice_in_params, twice_in_body, twice_in_block};
ghost use Rattle.name_check.specs.inner.Steps.{names_of, local_name, twice_in_local, declared_by_definition, declared_by};
ghost use Rattle.name_check.specs.inner.Steps.{twice_in_definition};
ghost use Rattle.name_check.specs.inner.Steps.{twice_in_item};
ghost use Rattle.name_check.specs.inner.Answer.{AreDeclared};

use crate::builtin::is_built_in;
use crate::check::NameFault;
use crate::declaration::Declaration;
use crate::names::Names;
use crate::scope::{all_are_streams, some_are_streams};
use std::alloc::Global;
use syntax_tree::tree::{Body, Definition, DefinitionParts, Item, Param};
use tsl_value::memory::NoMemory;
use tsl_value::place::Place;

/// Declares a name, or answers its place where it may not be declared.
fn declare(
    names: &mut Names,
    name: &str,
    is: Declaration,
    place: Place,
) -> Result<Option<Place>, NoMemory>
    ensures found { IfOk result (λ found. found ≡ first (again (names_of names.old) place name.now)) }
    ensures declared { IfOk result (λ found. IfNone found (names.new ≡ names.old ++ record { name = name.now; is = is } ∷ [])) }
{
    if is_built_in(name) {
        return Ok(Some(place));
    }
    if names.declare(name, is)? {
        Ok(None)
    } else {
        Ok(Some(place))
    }
}

/// The first parameter that is declared twice.
fn find_in_params(alloc: Global, params: &[Param]) -> Result<Option<Place>, NoMemory>
    ensures { IfOk result (λ found. found ≡ first (twice_in_params [] (params_in params.now))) }
{
    let mut before = Names::new(alloc);
    for param in params {
        let is = Declaration::Parameter(0);
        if let Some(place) = declare(&mut before, param.name.as_str(), is, param.place)? {
            return Ok(Some(place));
        }
    }
    Ok(None)
}

#[cycle(twice)]
fn find_in_body(alloc: Global, body: &Body) -> Result<Option<Place>, NoMemory>
    ensures { IfOk result (λ found. found ≡ first (twice_in_body (body_of body.now))) }
{
    match body {
        Body::Plain(_) => Ok(None),
        Body::Block(definitions, _) => find_in_block(alloc, definitions),
    }
}

#[cycle(twice)]
fn find_in_block(alloc: Global, definitions: &[Definition]) -> Result<Option<Place>, NoMemory>
    ensures { IfOk result (λ found. found ≡ first (twice_in_block [] (definitions_of definitions.now))) }
{
    let mut before = Names::new(alloc);
    for definition in definitions {
        if let Some(place) = find_in_local(alloc, definition.parts(), &mut before)? {
            return Ok(Some(place));
        }
    }
    Ok(None)
}

/// Declares a definition of a block, and looks into its body.
#[cycle(twice)]
fn find_in_local(
    alloc: Global,
    parts: &DefinitionParts,
    before: &mut Names,
) -> Result<Option<Place>, NoMemory>
    ensures found { IfOk result (λ found. found ≡ first (twice_in_local (names_of before.old) (definition_of parts.now))) }
    ensures declared { IfOk result (λ found. IfNone found (names_of before.new
        ≡ local_name (definition_of parts.now) ∷ names_of before.old)) }
{
    let is = Declaration::Local(0);
    if let Some(place) = declare(before, parts.name.as_str(), is, parts.place)? {
        return Ok(Some(place));
    }
    find_in_body(alloc, &parts.body)
}

/// What the definition of an item is declared as.
pub(crate) fn declared_as(number: usize, params: &[Param]) -> Declaration
    ensures { result ≡ declared_as number (params_in params.now) }
{
    if params.is_empty() {
        Declaration::Stream(number)
    } else if all_are_streams(params) {
        Declaration::Macro(number)
    } else if some_are_streams(params) {
        Declaration::Mixed(number)
    } else {
        Declaration::Function(number)
    }
}

/// Declares the definition of an item, and looks into it.
fn find_in_definition(
    alloc: Global,
    parts: &DefinitionParts,
    number: usize,
    names: &mut Names,
) -> Result<Option<Place>, NoMemory>
    ensures found { IfOk result (λ found. found ≡ first (twice_in_definition (names_of names.old) (definition_of parts.now))) }
    ensures declared { IfOk result (λ found. IfNone found (names.new
        ≡ names.old ++ declared_by_definition number (definition_of parts.now))) }
{
    let is = declared_as(number, &parts.params);
    if let Some(place) = declare(names, parts.name.as_str(), is, parts.place)? {
        return Ok(Some(place));
    }
    if let Some(place) = find_in_params(alloc, &parts.params)? {
        return Ok(Some(place));
    }
    find_in_body(alloc, &parts.body)
}

fn find_in_item(
    alloc: Global,
    item: &Item,
    number: usize,
    names: &mut Names,
) -> Result<Option<Place>, NoMemory>
    ensures found { IfOk result (λ found. found ≡ first (twice_in_item (names_of names.old) (item_of item.now))) }
    ensures declared { IfOk result (λ found. IfNone found (names.new ≡ names.old ++ declared_by number (item_of item.now))) }
{
    match item {
        Item::Input(_, place, name, _) => {
            declare(names, name.as_str(), Declaration::Input(number), *place)
        }
        Item::Defined(_, definition) => {
            find_in_definition(alloc, definition.parts(), number, names)
        }
        Item::Output(_, _, _) => Ok(None),
        Item::OutputAs(_, _, _, _) => Ok(None),
    }
}

/// The names of the top, where no name is declared twice.
pub(crate) fn declare_items(alloc: Global, items: &[Item]) -> Result<Names, NameFault>
    ensures { AreDeclared (map item_of items.now) result }
{
    let mut names = Names::new(alloc);
    for (number, item) in items.iter().enumerate() {
        if let Some(place) = find_in_item(alloc, item, number, &mut names)? {
            return Err(NameFault::DefinedTwice { place });
        }
    }
    Ok(names)
}
