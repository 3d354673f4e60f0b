// The places of a table of kinds.

ghost use Rattle.std.specs.Prelude.{◌≡◌, ◌++◌, IfOk, OnOk, map, vec_len};
ghost use Rattle.syntax_tree.specs.inner.OneLevel.{item_of};
ghost use Rattle.type_check.specs.inner.Slots.{block_count, local_slots, slots};

use name_check::count::count_in;
use std::alloc::Global;
use syntax_tree::tree::Item;
use tsl_value::memory::NoMemory;

/// An item by its number, or a definition of an item's block by the item's number and its own.
#[derive(Clone, Copy)]
pub enum Slot {
    Item(usize),
    Local(usize, usize),
}

/// How many definitions stand in the block of an item.
fn block_count(item: &Item) -> usize
    ensures { result ≡ block_count (item_of item.now) }
{
    match item {
        Item::Defined(_, definition) => count_in(&definition.parts().body),
        Item::Input(_, _, _, _) => 0,
        Item::Output(_, _, _) => 0,
        Item::OutputAs(_, _, _, _) => 0,
    }
}

/// Appends the definitions of an item's block.
fn add_locals(slots: &mut Vec<Slot>, number: usize, count: usize) -> Result<(), NoMemory>
    ensures { OnOk result (slots.new.items ≡ slots.old.items ++ local_slots number 0 count) }
{
    for local in 0..count {
        slots.push(Slot::Local(number, local))?;
    }
    Ok(())
}

/// The items and the definitions in their blocks, in the order of the source.
pub fn slots_of(alloc: Global, items: &[Item]) -> Result<Vec<Slot>, NoMemory>
    ensures { IfOk result (λ all. all.items ≡ slots (map item_of items.now)) }
{
    let mut slots = Vec::new(alloc);
    for (number, item) in items.iter().enumerate() {
        slots.push(Slot::Item(number))?;
        add_locals(&mut slots, number, block_count(item))?;
    }
    Ok(slots)
}
