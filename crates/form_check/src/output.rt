// Outputs of one printed name, and sources without an output.

ghost use Rattle.std.specs.Prelude.{◌≡◌, ◌∷◌, [], ◌++◌, map, IfOk, IfNone};
ghost use Rattle.std.specs.List.{list_any};
ghost use Rattle.std.specs.String.{string_bytes};
ghost use Rattle.syntax_tree.specs.inner.OneLevel.{item_of, items_of};
ghost use Rattle.name_check.specs.Faults.{first};
ghost use Rattle.form_check.specs.Outputs.{printed_again, printed_name, printed_again_by, outputs_twice, is_output, without_output};

use indexmap::IndexSet;
use std::alloc::Global;
use syntax_tree::tree::{Item, Tree};
use tsl_value::memory::NoMemory;
use tsl_value::place::Place;

/// Adds the name under which an output is printed, or answers the output's place where an earlier one has that name.
fn print(names: &mut IndexSet<String>, name: &str, place: Place) -> Result<Option<Place>, NoMemory>
    ensures found { IfOk result (λ found. found ≡ first (printed_again (map string_bytes names.old.keys) place name.now)) }
    ensures printed { IfOk result (λ found. IfNone found (map string_bytes names.new.keys
        ≡ map string_bytes names.old.keys ++ name.now ∷ [])) }
{
    if names.contains(name) {
        return Ok(Some(place));
    }
    let name = String::from_str(*names.allocator(), name)?;
    let _new = names.insert(name)?;
    Ok(None)
}

fn find_in_item(item: &Item, names: &mut IndexSet<String>) -> Result<Option<Place>, NoMemory>
    ensures found { IfOk result (λ found. found ≡ first (printed_again_by (map string_bytes names.old.keys) (item_of item.now))) }
    ensures printed { IfOk result (λ found. IfNone found (map string_bytes names.new.keys
        ≡ map string_bytes names.old.keys ++ printed_name (item_of item.now))) }
{
    match item {
        Item::Input(_, _, _, _) => Ok(None),
        Item::Defined(_, _) => Ok(None),
        Item::Output(place, _, name) => print(names, name.as_str(), *place),
        Item::OutputAs(place, _, _, name) => print(names, name.as_str(), *place),
    }
}

/// The first output whose printed name an earlier output has.
pub fn find_output_twice(alloc: Global, items: &[Item]) -> Result<Option<Place>, NoMemory>
    ensures { IfOk result (λ found. found ≡ first (outputs_twice (map item_of items.now))) }
{
    let mut names = IndexSet::new(alloc);
    for item in items {
        if let Some(place) = find_in_item(item, &mut names)? {
            return Ok(Some(place));
        }
    }
    Ok(None)
}

fn is_output(item: &Item) -> bool
    ensures { result ≡ is_output (item_of item.now) }
{
    match item {
        Item::Output(_, _, _) => true,
        Item::OutputAs(_, _, _, _) => true,
        Item::Input(_, _, _, _) => false,
        Item::Defined(_, _) => false,
    }
}

fn has_output(items: &[Item]) -> bool
    ensures { result ≡ list_any (λ i. is_output (item_of i)) items.now }
{
    items.iter().any(|item| is_output(item))
}

/// The end of a source that has no output.
pub fn find_missing_output(tree: &Tree) -> Option<Place>
    ensures { result ≡ first (without_output (items_of tree.now) tree.now.end) }
{
    if has_output(tree.items()) {
        None
    } else {
        Some(tree.end())
    }
}
