// Of which equations it is asked what they have to do with an update.

ghost use Rattle.std.specs.Prelude.{◌≡◌, ◌<◌, length, IfOk, OnOk};
ghost use Rattle.translation_order.specs.Order.{AreOfSteps};
ghost use Rattle.alias_paths.specs.inner.Kept.{AreUses};

use crate::merges::is_merge;
use alias_paths::links::Links;
use alias_paths::numbers::Numbers;
use alias_paths::pairs::{push_all, turned};
use alias_paths::sharing::stored;
use alias_paths::uses::{Uses, is_variable};
use flat_core::flat::Flat;
use std::alloc::Global;
use translation_order::steps::Edges;
use tsl_value::ids::EqId;
use tsl_value::memory::NoMemory;

/// How content goes from equation to equation where all updates happen in place, at one time or from an earlier one, forth and back.
pub fn content_links(alloc: Global, flat: &Flat, uses: &Uses) -> Result<Links, NoMemory>
    requires { AreUses flat.now uses.now }
    ensures { IfOk result (λ l. AreOfSteps (length flat.now.equations) l) }
{
    let mut pairs = Edges::new(alloc);
    push_all(&mut pairs, uses.passed.as_slice())?;
    push_all(&mut pairs, uses.written.as_slice())?;
    push_all(&mut pairs, uses.lasts.as_slice())?;
    let back = turned(alloc, pairs.as_slice())?;
    push_all(&mut pairs, back.as_slice())?;
    Links::of(alloc, flat.count() as usize, pairs)
}

/// Whether an equation merges this one before another.
fn is_merged_first(flat: &Flat, id: EqId, argument: EqId) -> bool
    requires { id < length flat.now.equations }
{
    let equation = flat.equation(id);
    match equation.args.ids().first() {
        Some(first) => is_merge(&equation.op) && *first == argument,
        None => false,
    }
}

/// Marks the first arguments of merges.
fn mark_merged(asked: &mut Numbers, flat: &Flat, passed: &[(u32, u32)]) -> Result<(), NoMemory>
    requires there { AreOfSteps (length flat.now.equations) passed.now }
    requires one_each { length asked.old ≡ length flat.now.equations }
    ensures { OnOk result (length asked.new ≡ length asked.old) }
{
    for (variable, passer) in passed {
        let wanted = is_merged_first(flat, EqId::new(*passer), EqId::new(*variable));
        asked.mark_if(*variable, wanted)?;
    }
    Ok(())
}

/// The equations of which it is asked whether they have an event wherever an update has one: stored variables, and first arguments of
/// merges.
pub fn asked_implied(alloc: Global, flat: &Flat, uses: &Uses) -> Result<Numbers, NoMemory>
    requires { AreUses flat.now uses.now }
    ensures { IfOk result (λ a. length a ≡ length flat.now.equations) }
{
    let mut asked = stored(alloc, flat, uses)?;
    mark_merged(&mut asked, flat, uses.passed.as_slice())?;
    Ok(asked)
}

/// The aggregate variables.
pub fn variables(alloc: Global, flat: &Flat) -> Result<Numbers, NoMemory>
    ensures { IfOk result (λ v. length v ≡ length flat.now.equations) }
{
    let mut variables = Numbers::none(alloc, flat.count() as usize)?;
    for number in 0..flat.count() {
        variables.mark_if(number, is_variable(flat, EqId::new(number)))?;
    }
    Ok(variables)
}
