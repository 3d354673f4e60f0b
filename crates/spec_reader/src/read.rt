// The reader.

ghost use Rattle.std.specs.Prelude.{◌≡◌, ℕ, List, [], None, map, IfOk, OnOk, IfErr};
ghost use Rattle.flat_core.specs.Complete.{IsFlat};
ghost use Rattle.flat_core.specs.inner.Dependency.{IsRunOrder};
ghost use Rattle.flat_core.specs.WellFormed.{IsWellFormed};
ghost use Rattle.syntax_tree.specs.inner.OneLevel.{item_of, items_of};
ghost use Rattle.syntax_tree.specs.Tree.{Item as ItemTree};
ghost use Rattle.name_check.specs.Scope.{top};
ghost use Rattle.type_rules.specs.Kinds.{Kinds};
ghost use Rattle.expr_types.specs.inner.Shown.{kinds_of};
ghost use Rattle.definition_cycles.specs.Cycles.{IsFirstFunctionCycle};
ghost use Rattle.definition_cycles.specs.Nodes.{HasFewNodes};
ghost use Rattle.call_limits.specs.Nesting.{IsFirstMacroCycle, IsFirstTooDeep};
ghost use Rattle.function_bodies.specs.inner.Calls.{ArePlain};
ghost use Rattle.function_bodies.specs.Bodies.{AreBodies, too_large_bodies};
ghost use Rattle.source_rules.specs.Source.{IsWellTyped, HasSystem, SpellsSomething, IsFlatFault, IsRefused, IsOfFlat};

use crate::cycle::cyclic;
use call_limits::cycle::find_macro_cycle;
use call_limits::deep::find_too_deep;
use flat_core::flat::Flat;
use function_bodies::functions::Functions;
use function_bodies::order::bodies;
use macro_flatten::flatten::flatten;
use name_check::names::Names;
use recursion_check::check::{CycleFault, run_order};
use source_rules::fault::{FlatFault, SpecFault};
use spec_lexer::lex::lex;
use spec_parser::parse::parse;
use std::alloc::Global;
use syntax_tree::tree::Item;
use translation_order::steps::Steps;
use type_check::check::check;
use type_check::typed::Typed;

/// A specification that can be run, and an order to run it in.
#[derive(Drop)]
pub struct Specification {
    /// The system that the specification means.
    pub flat: Flat,
    /// The numbers of its equations, counted from 0: each once, after those that it uses at the same time.
    pub order: Steps,
}

/// Refuses cycles of macros, and else calls that nest too deep.
fn check_calls(alloc: Global, items: &[Item]) -> Result<(), SpecFault>
    requires few { HasFewNodes (map item_of items.now) }
    requires no_cycle { IsFirstFunctionCycle (map item_of items.now) None }
    ensures no_macro_cycle { OnOk result (IsFirstMacroCycle (map item_of items.now) None) }
    ensures nests { OnOk result (IsFirstTooDeep (map item_of items.now) None) }
    ensures refused { (kinds : Kinds) → IfErr result (IsOfFlat (IsFlatFault (map item_of items.now) kinds)) }
{
    if let Some(place) = find_macro_cycle(alloc, items)? {
        return Err(SpecFault::Flat(FlatFault::MacroCycle { place }));
    }
    if let Some(place) = find_too_deep(alloc, items)? {
        return Err(SpecFault::Flat(FlatFault::CallsTooDeep { place }));
    }
    Ok(())
}

/// The bodies of the value functions, where calls do not nest too deep and no body is too large.
fn bodies_of(alloc: Global, items: &[Item], names: &Names) -> Result<Functions, SpecFault>
    requires few { HasFewNodes (map item_of items.now) }
    requires names { names.now ≡ top (map item_of items.now) }
    requires no_cycle { IsFirstFunctionCycle (map item_of items.now) None }
    requires plain { ArePlain (map item_of items.now) }
    ensures bodies { IfOk result (AreBodies (map item_of items.now)) }
    ensures no_macro_cycle { OnOk result (IsFirstMacroCycle (map item_of items.now) None) }
    ensures nests { OnOk result (IsFirstTooDeep (map item_of items.now) None) }
    ensures small { OnOk result (too_large_bodies (map item_of items.now) ≡ []) }
    ensures refused { (kinds : Kinds) → IfErr result (IsOfFlat (IsFlatFault (map item_of items.now) kinds)) }
{
    check_calls(alloc, items)?;
    let functions = bodies(alloc, items, names)?;
    match functions.find_too_large(items) {
        Some(place) => Err(SpecFault::Flat(FlatFault::BodyTooLarge { place })),
        None => Ok(functions),
    }
}

/// The flat system of a specification that the check accepts.
fn flat_of(alloc: Global, typed: &Typed<'_>) -> Result<Flat, SpecFault>
    requires names { typed.now.names ≡ top (items_of typed.now.tree.now) }
    requires typed { (source : List ℕ) × IsWellTyped source (items_of typed.now.tree.now) (kinds_of typed.now.kinds) }
    ensures system { (source : List ℕ)
        → IsWellTyped source (items_of typed.now.tree.now) (kinds_of typed.now.kinds)
        → IfOk result (HasSystem source (items_of typed.now.tree.now)) }
    ensures refused { (source : List ℕ)
        → IsWellTyped source (items_of typed.now.tree.now) (kinds_of typed.now.kinds)
        → IfErr result (IsRefused source) }
{
    let items = typed.tree.items();
    let functions = bodies_of(alloc, items, &typed.names)?;
    let flat = flatten(alloc, items, &typed.names, &typed.kinds, &functions)?;
    Ok(flat)
}

/// A system with an order to run it in, unless its equations have a cycle without a guard.
fn in_order(alloc: Global, flat: Flat) -> Result<Specification, SpecFault>
    ensures flat { IfOk result (λ c. c.flat ≡ flat) }
    ensures ordered { IfOk result (λ c. IsRunOrder c.flat c.order) }
    ensures well_formed { IfOk result (λ c. IsWellFormed c.flat) }
    ensures cyclic { (source : List ℕ) (items : List ItemTree) → HasSystem source items flat → IfErr result (IsRefused source) }
{
    match run_order(alloc, &flat) {
        Ok(order) => Ok(Specification { flat, order }),
        Err(CycleFault::Cycle { equations }) => Err(cyclic(alloc, &flat, &equations)?),
        Err(CycleFault::Memory) => Err(SpecFault::Memory),
    }
}

/// Reads the bytes of a specification. They are refused exactly where they are none that can be run, unless memory runs out, and in the
/// first of these ways: they have no tokens, the tokens no tree, the tree no types; a macro lies on a cycle of calls, calls nest too
/// deep, the body of a value function is too large; equations or updates are too many; or equations wait for each other.
pub fn read_spec(alloc: Global, source: &[u8]) -> Result<Specification, SpecFault>
    ensures system { IfOk result (λ c. SpellsSomething source.now c.flat) }
    ensures ordered { IfOk result (λ c. IsRunOrder c.flat c.order) }
    ensures is_flat { IfOk result (λ c. IsFlat c.flat) }
    ensures fault { IfErr result (IsRefused source.now) }
{
    let tokens = lex(alloc, source)?;
    let tree = parse(alloc, &tokens)?;
    let typed = check(alloc, &tree)?;
    let flat = flat_of(alloc, &typed)?;
    in_order(alloc, flat)
}
