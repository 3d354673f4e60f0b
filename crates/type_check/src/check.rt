// The check.

ghost use Rattle.std.specs.Prelude.{◌≡◌, [], map, IfOk, IfErr, OnOk};
ghost use Rattle.syntax_tree.specs.inner.OneLevel.{item_of, items_of};
ghost use Rattle.name_check.specs.Scope.{top};
ghost use Rattle.definition_cycles.specs.Nodes.{HasFewNodes};
ghost use Rattle.definition_cycles.specs.inner.Order.{IsKindOrder};
ghost use Rattle.type_rules.specs.Kinds.{Kinds};
ghost use Rattle.expr_types.specs.inner.Shown.{kinds_of};
ghost use Rattle.type_check.specs.inner.Answer.{IsAcceptedUnlessMemory, IsFaultOf, IsRefusedUnlessMemory};
ghost use Rattle.type_check.specs.Faults.{HasNoCycle, IsAccepted, IsCycleFault, IsFirstFault, form_faults, late, name_faults};
ghost use Rattle.type_check.specs.inner.FirstFault.{IsCycleOf, IsFirstOf};
ghost use Rattle.type_check.specs.declared.fault.TypeFault.{TypeFault as Fault};

use crate::fault::{TypeFault, wrong_type};
use crate::kinds::find_kinds;
use crate::typed::Typed;
use definition_cycles::functions::find_function_cycle;
use definition_cycles::kinds::{find_untyped_cycle, kind_order};
use expr_types::items::{find_aggregate_result, find_wrong_type};
use expr_types::kinds::KindTable;
use form_check::arity::find_wrong_arity;
use form_check::declared::{find_aggregate_input, find_mixed_parameters};
use form_check::output::{find_missing_output, find_output_twice};
use form_check::written::find_bad_type;
use name_check::check::{NameFault, check_names};
use name_check::names::Names;
use std::alloc::Global;
use syntax_tree::tree::{Item, Tree};
use translation_order::order::OrderFault;
use translation_order::steps::Steps;

/// What the names of the top stand for, where all names are declared once and known.
fn names_of(alloc: Global, tree: &Tree) -> Result<Names, TypeFault>
    ensures names { IfOk result (λ names. names ≡ top (items_of tree.now)) }
    ensures ok { OnOk result (name_faults (items_of tree.now) ≡ []) }
    ensures err { IfErr result (IsFirstOf (name_faults (items_of tree.now))) }
{
    match check_names(alloc, tree) {
        Ok(names) => Ok(names),
        Err(NameFault::DefinedTwice { place }) => Err(TypeFault::DefinedTwice { place }),
        Err(NameFault::UnknownName { place }) => Err(TypeFault::UnknownName { place }),
        Err(NameFault::Memory) => Err(TypeFault::Memory),
    }
}

/// Checks the written types, the parameters and the inputs.
fn check_forms(alloc: Global, items: &[Item]) -> Result<(), TypeFault>
    ensures ok { OnOk result (form_faults (map item_of items.now) ≡ []) }
    ensures err { IfErr result (IsFirstOf (form_faults (map item_of items.now))) }
{
    if let Some(place) = find_bad_type(alloc, items)? {
        return Err(TypeFault::BadType { place });
    }
    if let Some(place) = find_mixed_parameters(items) {
        return Err(TypeFault::MixedParameters { place });
    }
    if let Some(place) = find_aggregate_input(items) {
        return Err(TypeFault::AggregateInput { place });
    }
    Ok(())
}

/// The order in which the declared names are found, where no cycle hinders it.
fn order_of(alloc: Global, tree: &Tree) -> Result<Steps, TypeFault>
    requires { HasFewNodes (items_of tree.now) }
    ensures order { IfOk result (IsKindOrder (items_of tree.now)) }
    ensures ok { OnOk result (HasNoCycle (items_of tree.now)) }
    ensures err { IfErr result (IsCycleOf (items_of tree.now)) }
{
    if let Some(place) = find_function_cycle(alloc, tree)? {
        return Err(TypeFault::FunctionCycle { place });
    }
    if let Some(place) = find_untyped_cycle(alloc, tree)? {
        return Err(TypeFault::NeedsType { place });
    }
    match kind_order(alloc, tree) {
        Ok(order) => Ok(order),
        Err(OrderFault::CycleOf { steps: _ }) => unreachable!(),
        Err(OrderFault::Memory) => Err(TypeFault::Memory),
    }
}

/// Checks the calls, the expressions and the outputs, where what the declared names are is known.
fn check_expressions(
    alloc: Global,
    tree: &Tree,
    names: &Names,
    kinds: &KindTable,
) -> Result<(), TypeFault>
    requires { names.now ≡ top (items_of tree.now) }
    ensures ok { OnOk result (late (items_of tree.now) tree.now.end (kinds_of kinds.now) ≡ []) }
    ensures err { IfErr result (IsFirstOf (late (items_of tree.now) tree.now.end (kinds_of kinds.now))) }
{
    let items = tree.items();
    if let Some(place) = find_wrong_arity(alloc, items, names)? {
        return Err(TypeFault::WrongArity { place });
    }
    if let Some(wrong) = find_wrong_type(alloc, items, names, kinds)? {
        return Err(wrong_type(wrong));
    }
    if let Some(place) = find_aggregate_result(items, kinds) {
        return Err(TypeFault::AggregateResult { place });
    }
    if let Some(place) = find_output_twice(alloc, items)? {
        return Err(TypeFault::OutputTwice { place });
    }
    if let Some(place) = find_missing_output(tree) {
        return Err(TypeFault::NoOutput { place });
    }
    Ok(())
}

/// Checks the names and types of a specification, phase by phase.
fn checked<'t>(alloc: Global, tree: &'t Tree) -> Result<Typed<'t>, TypeFault>
    requires { HasFewNodes (items_of tree.now) }
    ensures tree { IfOk result (λ typed. typed.tree.now ≡ tree.now) }
    ensures names { IfOk result (λ typed. typed.names ≡ top (items_of tree.now)) }
    ensures accepted { IfOk result (λ typed. IsAccepted (items_of tree.now) tree.now.end (kinds_of typed.kinds)) }
    ensures fault { IfErr result (IsFaultOf (items_of tree.now) tree.now.end) }
{
    let names = names_of(alloc, tree)?;
    check_forms(alloc, tree.items())?;
    let order = order_of(alloc, tree)?;
    let kinds = find_kinds(alloc, tree.items(), &names, &order)?;
    check_expressions(alloc, tree, &names, &kinds)?;
    Ok(Typed { tree, names, kinds })
}

/// Checks the names and types of a specification. It is accepted exactly where it has none of the faults of `TypeFault`. The first
/// kind that occurs is answered, in the order in which they are listed there, at its first place in the source.
pub fn check<'t>(alloc: Global, tree: &'t Tree) -> Result<Typed<'t>, TypeFault>
    requires { HasFewNodes (items_of tree.now) }
    ensures tree { IfOk result (λ typed. typed.tree.now ≡ tree.now) }
    ensures names { IfOk result (λ typed. typed.names ≡ top (items_of tree.now)) }
    ensures accepted { IfOk result (λ typed. IsAccepted (items_of tree.now) tree.now.end (kinds_of typed.kinds)) }
    ensures fault { IfErr result (IsFaultOf (items_of tree.now) tree.now.end) }

    // Unless out of memory, a specification is accepted wherever it has no fault, and so does each fault come.
    ensures accepted_exactly { (kinds : Kinds) → IsAccepted (items_of tree.now) tree.now.end kinds → IsAcceptedUnlessMemory result }
    ensures fault_exactly { (f : Fault) → IsFirstFault (items_of tree.now) tree.now.end f → IsRefusedUnlessMemory result f }
{
    checked(alloc, tree)
}
