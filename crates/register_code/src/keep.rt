// The equations that the last instructions of an instant are about.

ghost use Rattle.std.specs.Prelude.{◌≡◌, ◌<◌, ◌||◌, ℕ, length, IfOk, OnOk};
ghost use Rattle.std.specs.List.{filter, range_with_len};
ghost use Rattle.flat_core.specs.Instant.{is_delay_op};
ghost use Rattle.flat_core.specs.Members.{is_in};
ghost use Rattle.flat_core.specs.Kept as seen;

use flat_core::equation::{Equation, Op};
use flat_core::flat::Flat;
use flat_core::lists::EqSet;
use std::alloc::Global;
use tsl_value::ids::EqId;
use tsl_value::memory::NoMemory;

/// The first argument of a last.
fn kept(equation: &Equation) -> Option<EqId>
    ensures { result ≡ seen.kept_by equation.now.op equation.now.args }
{
    match &equation.op {
        Op::Last => equation.args.get(0).copied(),
        _ => None,
    }
}

/// Puts the first argument of a running last into the set.
fn push_kept(set: &mut EqSet, flat: &Flat, id: EqId) -> Result<(), NoMemory>
    requires { id < length flat.now.equations }
    ensures { OnOk result ((i : ℕ) → is_in set.new i ≡ seen.keeps flat.now id i || is_in set.old i) }
{
    if !flat.runs(id) {
        return Ok(());
    }
    match kept(flat.equation(id)) {
        Some(first) => set.push(first),
        None => Ok(()),
    }
}

fn kept_set(alloc: Global, flat: &Flat) -> Result<EqSet, NoMemory>
    ensures { IfOk result (λ set. (i : ℕ) → is_in set i ≡ seen.is_kept flat.now i) }
{
    let mut set = EqSet::new(alloc);
    for number in 0..flat.count() {
        push_kept(&mut set, flat, EqId::new(number))?;
    }
    Ok(set)
}

/// Those of the first numbers that are in the set.
fn listed(alloc: Global, set: &EqSet, count: u32) -> Result<Vec<EqId>, NoMemory>
    ensures { IfOk result (λ ids. ids.items ≡ filter (is_in set.now) (range_with_len 0 count)) }
{
    let mut ids = Vec::new(alloc);
    for number in 0..count {
        let id = EqId::new(number);
        if set.contains(id) {
            ids.push(id)?;
        }
    }
    Ok(ids)
}

/// The first arguments of the running lasts, each once, by number.
pub(crate) fn keeps(alloc: Global, flat: &Flat) -> Result<Vec<EqId>, NoMemory>
    ensures { IfOk result (λ ids. ids.items ≡ seen.keeps_of flat.now) }
{
    let set = kept_set(alloc, flat)?;
    listed(alloc, &set, flat.count())
}

fn is_delay(equation: &Equation) -> bool
    ensures { result ≡ is_delay_op equation.now.op }
{
    matches!(&equation.op, Op::Delay)
}

fn is_timer(flat: &Flat, id: EqId) -> bool
    requires { id < length flat.now.equations }
    ensures { result ≡ seen.is_timer flat.now id }
{
    flat.runs(id) && is_delay(flat.equation(id))
}

/// The running delays by number.
pub(crate) fn timers(alloc: Global, flat: &Flat) -> Result<Vec<EqId>, NoMemory>
    ensures { IfOk result (λ ids. ids.items ≡ seen.timers_of flat.now) }
{
    let mut ids = Vec::new(alloc);
    for number in 0..flat.count() {
        let id = EqId::new(number);
        if is_timer(flat, id) {
            ids.push(id)?;
        }
    }
    Ok(ids)
}
