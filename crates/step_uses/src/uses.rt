// The steps of an order that use an equation at the same time, and the delays that wait for it.

ghost use Rattle.std.specs.Prelude.{IsTrue, ◌≡◌, ◌==◌, ◌<◌, ◌||◌, ◌&&◌, ℕ, All, IfOk, OnOk, false, length, nat_lt, slice_index};
ghost use Rattle.std.specs.Prelude.{eqb, slice_index_or};
ghost use Rattle.std.specs.List.{IsDistinct};
ghost use Rattle.flat_core.specs.Case.{used_of};
ghost use Rattle.flat_core.specs.Members.{is_in};
ghost use Rattle.step_uses.specs.Uses.{is_of_delay, row, used_by};

use crate::rows::Rows;
use flat_core::equation::{Equation, Op};
use flat_core::flat::Flat;
use std::alloc::Global;
use tsl_value::ids::EqId;
use tsl_value::memory::NoMemory;

/// The arguments that an equation uses at the same time.
fn used(e: &Equation) -> &[EqId]
    ensures { result.now ≡ used_of e.now.op e.now.args }
{
    match &e.op {
        Op::Delay => &[],
        _ => e.unguarded(),
    }
}

/// Adds a number to the list of each of these equations.
fn add_each(ids: &[EqId], number: u32, rows: &mut Rows) -> Result<(), NoMemory>
    ensures size { length rows.new ≡ length rows.old }
    ensures added { OnOk result ((a p : ℕ)
        → a < length rows.old
        → is_in (row rows.new a) p ≡ (is_in (row rows.old a) p || (is_in ids.now a && number == p))) }
{
    for id in ids {
        rows.add(*id, number)?;
    }
    Ok(())
}

/// Adds the place of a step to the list of each equation that it uses.
fn add_step(flat: &Flat, step: u32, place: u32, rows: &mut Rows) -> Result<(), NoMemory>
    ensures size { length rows.new ≡ length rows.old }
    ensures added { OnOk result ((a p : ℕ)
        → a < length rows.old
        → is_in (row rows.new a) p ≡ (is_in (row rows.old a) p || (is_in (used_by flat.now step) a && place == p))) }
{
    if step < flat.count() {
        return add_each(used(flat.equation(EqId::new(step))), place, rows);
    }
    match flat.outputs().get((step - flat.count()) as usize) {
        Some(output) => add_each(&[output.equation], place, rows),
        None => Ok(()),
    }
}

/// For each equation the places in an order of the steps that use it at the same time.
pub fn step_uses(alloc: Global, flat: &Flat, order: &[u32]) -> Result<Rows, NoMemory>
    requires { IsDistinct eqb order.now }
    ensures size { IfOk result (λ r. length r ≡ length flat.now.equations) }
    ensures uses { IfOk result (λ r. (a p : ℕ)
        → a < length flat.now.equations
        → is_in (row r a) p ≡ (nat_lt p (length order.now) && is_in (used_by flat.now (slice_index order.now p)) a)) }
{
    let mut rows = Rows::with_count(alloc, flat.count())?;
    for (place, step) in order.iter().enumerate() {
        add_step(flat, *step, place as u32, &mut rows)?;
    }
    Ok(rows)
}

/// For each equation the delays that it is itself, or the amount or the reset of.
pub fn delay_uses(alloc: Global, flat: &Flat, delays: &[EqId]) -> Result<Rows, NoMemory>
    requires { All (λ d. d < length flat.now.equations) delays.now }
    ensures size { IfOk result (λ r. length r ≡ length flat.now.equations) }
    ensures uses { IfOk result (λ r. (a d : ℕ)
        → a < length flat.now.equations
        → is_in (row r a) d ≡ (is_in delays.now d && is_of_delay flat.now d a)) }
{
    let mut rows = Rows::with_count(alloc, flat.count())?;
    for delay in delays {
        rows.add(*delay, delay.get())?;
        add_each(flat.equation(*delay).args.ids(), delay.get(), &mut rows)?;
    }
    Ok(rows)
}

/// For each of so many equations whether it is among these.
pub fn marked(alloc: Global, count: u32, ids: &[EqId]) -> Result<Vec<bool>, NoMemory>
    ensures size { IfOk result (λ v. length v.items ≡ count) }
    ensures marked { IfOk result (λ v. (i : ℕ) → i < count → slice_index_or v.items i false ≡ is_in ids.now i) }
{
    let mut marks = vec![in alloc; false; count as usize]?;
    for id in ids {
        let place = id.get() as usize;
        if place < marks.len() {
            marks[place] = true;
        }
    }
    Ok(marks)
}

/// The numbers of so many equations.
pub fn every(alloc: Global, count: u32) -> Result<Vec<EqId>, NoMemory>
    ensures known { IfOk result (λ v. (i : ℕ) → IsTrue (is_in v.items i) → i < count) }
    ensures listed { IfOk result (λ v. (i : ℕ) → i < count → IsTrue (is_in v.items i)) }
{
    let mut ids = Vec::new(alloc);
    for number in 0..count {
        ids.push(EqId::new(number))?;
    }
    Ok(ids)
}
