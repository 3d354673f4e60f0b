// What the declared names are.

ghost use Rattle.std.specs.Prelude.{◌≡◌, map, IfOk, OnOk};
ghost use Rattle.syntax_tree.specs.inner.OneLevel.{item_of};
ghost use Rattle.name_check.specs.Scope.{top};
ghost use Rattle.definition_cycles.specs.inner.Order.{IsKindOrder};
ghost use Rattle.expr_types.specs.inner.Blocks.{AreBlocks};
ghost use Rattle.expr_types.specs.Bodies.{AreKinds};
ghost use Rattle.expr_types.specs.inner.Shown.{kinds_of};
ghost use Rattle.type_check.specs.inner.Slots.{slots, kind_by, IsSet, NothingElse, FixedAreRight, AllAreRight};

use crate::slot::{Slot, slots_of};
use expr_types::block::Blocks;
use expr_types::define::{block_kind, item_kind};
use expr_types::kinds::KindTable;
use name_check::names::Names;
use std::alloc::Global;
use syntax_tree::tree::Item;
use translation_order::steps::Steps;
use tsl_value::memory::NoMemory;
use type_rules::rule::ExprType;

/// Sets what stands at a place.
fn set(
    kinds: &mut KindTable,
    alloc: Global,
    slot: Slot,
    kind: Option<ExprType>,
) -> Result<(), NoMemory>
    ensures { OnOk result (IsSet (kinds_of kinds.old) (kinds_of kinds.new) slot kind) }
{
    match slot {
        Slot::Item(number) => kinds.set_item(number, kind),
        Slot::Local(number, local) => kinds.set_local(alloc, number, local, kind),
    }
}

/// What stands at a place by its written type, or else by its body and what is known.
fn kind_of(
    alloc: Global,
    items: &[Item],
    names: &Names,
    kinds: &KindTable,
    blocks: &Blocks<'_>,
    slot: Slot,
) -> Result<Option<ExprType>, NoMemory>
    requires names { names.now ≡ top (map item_of items.now) }
    requires blocks { AreBlocks blocks.now (map item_of items.now) }
    ensures { IfOk result (λ kind. kind ≡ kind_by (map item_of items.now) (kinds_of kinds.now) slot) }
{
    match slot {
        Slot::Item(number) => item_kind(alloc, items, names, kinds, number),
        Slot::Local(number, local) => {
            block_kind(alloc, items, names, kinds, blocks, number, local)
        }
    }
}

/// Sets at each place what stands there by what is known, in this order. Written types don't depend on what is known; where they are
/// known, so is all that a body mentions when it is its turn.
fn settle(
    kinds: &mut KindTable,
    alloc: Global,
    items: &[Item],
    names: &Names,
    blocks: &Blocks<'_>,
    places: &[Slot],
    order: &[u32],
) -> Result<(), NoMemory>
    requires names { names.now ≡ top (map item_of items.now) }
    requires blocks { AreBlocks blocks.now (map item_of items.now) }
    requires places { places.now ≡ slots (map item_of items.now) }
    requires order { IsKindOrder (map item_of items.now) order.now }
    ensures nothing { NothingElse (map item_of items.now) (kinds_of kinds.old)
        → OnOk result (NothingElse (map item_of items.now) (kinds_of kinds.new)) }
    ensures written { OnOk result (FixedAreRight (map item_of items.now) (kinds_of kinds.new)) }
    ensures all { FixedAreRight (map item_of items.now) (kinds_of kinds.old)
        → OnOk result (AllAreRight (map item_of items.now) (kinds_of kinds.new)) }
{
    for node in order {
        let slot = places[*node as usize];
        let kind = kind_of(alloc, items, names, kinds, blocks, slot)?;
        set(kinds, alloc, slot, kind)?;
    }
    Ok(())
}

/// What the declared names are. The first turn finds those of written types, which the order lets stand anywhere, and the second all
/// others.
pub fn find_kinds(
    alloc: Global,
    items: &[Item],
    names: &Names,
    order: &Steps,
) -> Result<KindTable, NoMemory>
    requires names { names.now ≡ top (map item_of items.now) }
    requires order { IsKindOrder (map item_of items.now) order.now }
    ensures { IfOk result (λ kinds. AreKinds (map item_of items.now) (kinds_of kinds)) }
{
    let slots = slots_of(alloc, items)?;
    let blocks = Blocks::of_items(alloc, items)?;
    let mut kinds = KindTable::new(alloc);
    let order = order.as_slice();
    settle(&mut kinds, alloc, items, names, &blocks, &slots, order)?;
    settle(&mut kinds, alloc, items, names, &blocks, &slots, order)?;
    Ok(kinds)
}
