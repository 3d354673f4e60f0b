// The parts of code, read.

ghost use Rattle.std.specs.Prelude.{◌≡◌, ◌<◌, ◌∷◌, ◌++◌, [], ℕ, if◌then◌else◌, IsTrue, OnOk};
ghost use Rattle.flat_core.specs.Members.{is_in};
ghost use Rattle.code_file.specs.inner.Reading.{count_at, items_at, list_at, number_at, output_at};
ghost use Rattle.code_reader.specs.Parts.{code_in};
ghost use Rattle.code_reader.specs.inner.Gives.{Gives};
ghost use Rattle.code_reader.specs.inner.Rising.{equations_at, if_rising, parts_at, plan_at};

use crate::equation::{read_entry, read_output};
use crate::fields::{Read, read_number};
use code_file::fault::CodeFault;
use flat_core::equation::{Equation, Output};
use flat_core::limits::MOST_EQUATIONS;
use flat_core::lists::EqSet;
use register_code::plan::Plan;
use std::alloc::Global;
use translation_order::steps::Steps;
use tsl_value::ids::EqId;
use tsl_value::memory::NoMemory;

/// The parts of code, as bytes spell them. Nobody has judged whether the equations have the types that they should, and whether the plan
/// is fine.
#[derive(Drop)]
pub struct Parts {
    pub equations: Vec<Equation>,
    pub outputs: Vec<Output>,
    /// The equations that run.
    pub running: EqSet,
    pub plan: Plan,
}

/// Equations, and the numbers of those that run.
#[derive(Drop)]
struct Equations {
    all: Vec<Equation>,
    running: EqSet,
}

/// As many outputs as a system may have.
const MOST_OUTPUTS: u32 = 0x8000_0000;

/// A number that is not above a limit.
fn read_count(most: u32, bytes: &[u8]) -> Read<'_, u32>
    ensures { Gives (λ x. (x.0, x.1.now)) result (count_at most bytes.now) }
{
    let (count, rest) = read_number(bytes)?;
    if count <= most {
        Ok((count, rest))
    } else {
        Err(CodeFault::WrongForm)
    }
}

/// Adds a number that is greater than all that are there.
fn push_last(number: u32, set: &mut EqSet) -> Result<(), NoMemory>
    requires { (j : ℕ) → IsTrue (is_in set.old j) → j < number }
    ensures { OnOk result (set.new ≡ set.old ++ number ∷ []) }
{
    set.assert_ascending();
    set.push(EqId::new(number))
}

/// Adds the number of an equation where it runs.
fn add_running(runs: bool, number: u32, running: &mut EqSet) -> Result<(), NoMemory>
    requires { (j : ℕ) → IsTrue (is_in running.old j) → j < number }
    ensures { OnOk result (running.new ≡ (if runs then running.old ++ number ∷ [] else running.old)) }
{
    if runs {
        push_last(number, running)
    } else {
        Ok(())
    }
}

/// So many equations, and the numbers of those that run.
fn read_equations(alloc: Global, count: u32, bytes: &[u8]) -> Read<'_, Equations>
    ensures { Gives (λ x. ((x.0.all.items, x.0.running), x.1.now)) result (equations_at count bytes.now) }
{
    let mut all = Vec::new(alloc);
    let mut running = EqSet::new(alloc);
    let mut rest = bytes;
    for number in 0..count {
        let (entry, after) = read_entry(alloc, rest)?;
        add_running(entry.0, number, &mut running)?;
        all.push(entry.1)?;
        rest = after;
    }
    Ok((Equations { all, running }, rest))
}

/// So many outputs.
fn read_outputs(alloc: Global, count: u32, bytes: &[u8]) -> Read<'_, Vec<Output>>
    ensures { Gives (λ x. (x.0.items, x.1.now)) result (items_at output_at count bytes.now) }
{
    let mut outputs = Vec::new(alloc);
    let mut rest = bytes;
    for _ in 0..count {
        let (output, after) = read_output(alloc, rest)?;
        outputs.push(output)?;
        rest = after;
    }
    Ok((outputs, rest))
}

/// So many numbers.
fn read_numbers(alloc: Global, count: u32, bytes: &[u8]) -> Read<'_, Steps>
    ensures { Gives (λ x. (x.0, x.1.now)) result (items_at number_at count bytes.now) }
{
    let mut numbers = Steps::new(alloc);
    let mut rest = bytes;
    for _ in 0..count {
        let (number, after) = read_number(rest)?;
        numbers.push(number)?;
        rest = after;
    }
    Ok((numbers, rest))
}

#[tactic(auto, unfolding(code_file::specs::inner::Reading::list_at))]
fn read_list(alloc: Global, bytes: &[u8]) -> Read<'_, Steps>
    ensures { Gives (λ x. (x.0, x.1.now)) result (list_at bytes.now) }
{
    let (count, rest) = read_number(bytes)?;
    read_numbers(alloc, count, rest)
}

/// The set of numbers that rise.
fn set_of(alloc: Global, numbers: &[u32]) -> Result<EqSet, CodeFault>
    ensures { Gives (λ set. set) result (if_rising numbers.now) }
{
    let mut set = EqSet::new(alloc);
    let mut least = 0;
    for number in numbers {
        if u64::from(*number) < least {
            return Err(CodeFault::WrongForm);
        }
        push_last(*number, &mut set)?;
        least = u64::from(*number) + 1;
    }
    Ok(set)
}

/// The set and the order of a plan.
fn read_plan(alloc: Global, bytes: &[u8]) -> Read<'_, Plan>
    ensures { Gives (λ x. ((x.0.in_place, x.0.order), x.1.now)) result (plan_at bytes.now) }
{
    let (in_place, rest) = read_list(alloc, bytes)?;
    let (order, rest) = read_list(alloc, rest)?;
    let in_place = set_of(alloc, in_place.as_slice())?;
    Ok((Plan { in_place, order }, rest))
}

/// The parts of code, which stand after the mark.
pub(crate) fn read_parts(alloc: Global, bytes: &[u8]) -> Read<'_, Parts>
    ensures { Gives (λ x. (code_in x.0, x.1.now)) result (parts_at bytes.now) }
{
    let (count, rest) = read_count(MOST_EQUATIONS, bytes)?;
    let (equations, rest) = read_equations(alloc, count, rest)?;
    let (count, rest) = read_count(MOST_OUTPUTS, rest)?;
    let (outputs, rest) = read_outputs(alloc, count, rest)?;
    let (plan, rest) = read_plan(alloc, rest)?;
    let Equations { all, running } = equations;
    let parts = Parts {
        equations: all,
        outputs,
        running,
        plan,
    };
    Ok((parts, rest))
}
