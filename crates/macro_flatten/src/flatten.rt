// The flattening.

ghost use Rattle.std.specs.Prelude.{◌≡◌, ◌<◌, ◌^◌, [], length, map, None, IfOk, IfErr, OnOk};
ghost use Rattle.flat_core.specs.Complete.{IsFlat};
ghost use Rattle.flat_core.specs.Needed.{RunsNeeded};
ghost use Rattle.syntax_tree.specs.inner.OneLevel.{item_of};
ghost use Rattle.name_check.specs.Scope.{top};
ghost use Rattle.expr_types.specs.inner.Shown.{kinds_of};
ghost use Rattle.spec_meaning.specs.Flat.{IsFlatOf};
ghost use Rattle.checked_spec.specs.inner.Checked.{IsChecked};
ghost use Rattle.function_bodies.specs.Bodies.{AreBodies, too_large_bodies};
ghost use Rattle.parsed_spec.specs.inner.Short.{HaveShortTexts};
ghost use Rattle.flat_meaning.specs.inner.Complete.{HasOutputs};
ghost use Rattle.equation_marks.specs.Marks.{all_marks, mark_of};
ghost use Rattle.equation_marks.specs.Refused.{AreRefused, refused};
ghost use Rattle.macro_flatten.specs.inner.Items.{IsBegun, items_in, kinds_in};
ghost use Rattle.macro_flatten.specs.inner.Laws.{NestsWithin};

use crate::context::Context;
use crate::top::{foresee, inputs};
use equation_marks::count::Counter;
use expr_types::kinds::KindTable;
use flat_core::flat::Flat;
use flat_core::limits::MOST_EQUATIONS;
use function_bodies::functions::Functions;
use name_check::names::Names;
use std::alloc::Global;
use stream_constructs::maker::{MakeFault, Maker};
use syntax_tree::tree::Item;

/// Makes the flat system of a checked specification: first its inputs, then its definitions of the top that are streams, then its
/// outputs, each in the order of the source.
pub fn flatten(
    alloc: Global,
    items: &[Item],
    names: &Names,
    kinds: &KindTable,
    functions: &Functions,
) -> Result<Flat, MakeFault>
    requires names { names.now ≡ top (map item_of items.now) }
    requires checked { IsChecked (map item_of items.now) (kinds_of kinds.now) }
    requires outputs { HasOutputs (map item_of items.now) }
    requires short { HaveShortTexts (map item_of items.now) }
    requires bodies { AreBodies (map item_of items.now) functions.now }
    requires small { too_large_bodies (map item_of items.now) ≡ [] }
    requires nests { NestsWithin (map item_of items.now) }
    requires few { length items.now < 2 ^ 31 }
    ensures flat { IfOk result (λ f. IsFlatOf (map item_of items.now) (kinds_of kinds.now) f.equations f.outputs) }
    ensures marks { IfOk result (λ f. map mark_of f.equations ≡ all_marks (map item_of items.now) (kinds_of kinds.now)) }
    ensures within { OnOk result (refused (all_marks (map item_of items.now) (kinds_of kinds.now)) ≡ None) }
    ensures is_flat { IfOk result (λ f. IsFlat f) }
    ensures needed { IfOk result (λ f. RunsNeeded f) }
    ensures refused { IfErr result (AreRefused (all_marks (map item_of items.now) (kinds_of kinds.now))) }
{
    let mut maker = Maker::new(alloc);
    let mut streams = inputs(alloc, &mut maker, items)?;
    let counter = Counter {
        alloc,
        items,
        names,
        kinds,
    };
    foresee(&counter, maker.count(), &mut streams)?;
    let context = Context {
        alloc,
        items,
        names,
        kinds,
        functions,
        streams: &streams,
    };
    context.after_inputs(maker)
}

impl Context<'_> {
    /// Makes the definitions of the top and the outputs after the inputs.
    fn after_inputs(&self, mut maker: Maker) -> Result<Flat, MakeFault>
        requires begun { IsBegun self.now maker }
        requires outputs { HasOutputs (items_in self.now) }
        requires short { HaveShortTexts (items_in self.now) }
        requires few { length self.now.items.now < 2 ^ 31 }
        ensures flat { IfOk result (λ f. IsFlatOf (items_in self.now) (kinds_in self.now) f.equations f.outputs) }
        ensures marks { IfOk result (λ f. map mark_of f.equations ≡ all_marks (items_in self.now) (kinds_in self.now)) }
        ensures within { OnOk result (refused (all_marks (items_in self.now) (kinds_in self.now)) ≡ None) }
        ensures is_flat { IfOk result (λ f. IsFlat f) }
        ensures needed { IfOk result (λ f. RunsNeeded f) }
        ensures refused { IfErr result (AreRefused (all_marks (items_in self.now) (kinds_in self.now))) }
    {
        self.definitions(&mut maker)?;
        self.outputs(&mut maker)?;
        // Within the limit the foreseen streams are those that were made.
        prove!(maker.count() <= MOST_EQUATIONS);
        Ok(maker.finish()?)
    }
}
