// Values lent to what reads registers, as the evaluation of bodies does.

ghost use Rattle.std.specs.Prelude.{◌≡◌, ◌≤◌, None, length, slice_index_or, IfOk, map};
ghost use Rattle.std.specs.FinMap as finite_map;
ghost use Rattle.std.specs.Option.{option_copied, option_map};
ghost use Rattle.body_eval.specs.inner.Answered.{IsValue};
ghost use Rattle.lift_func.specs.Apply.{apply};
ghost use Rattle.aggregate_store.specs.inner.CellView as cell_view;
ghost use Rattle.plain_solver.specs.inner.Lent.{IsEvaluableAt, aggregate_in, cells_of, numbers_from, register_of, registers_from};

use crate::value::{Held, Value};
use aggregate_store::cell::Cell;
use aggregate_store::print::print_cell;
use body_eval::eval::{EvalFault, eval};
use body_eval::register::Register;
use cell_reader::reader::Reader;
use lift_func::body::Body;
use std::alloc::Global;
use tsl_value::bytes::Bytes;
use tsl_value::ids::{EqId, Handle};
use tsl_value::memory::NoMemory;
use tsl_value::print::print_scalar;
use tsl_value::scalar::Scalar;

/// Lends values to what reads registers: a handle is the number of the value that is its aggregate.
#[derive(Drop)]
pub(crate) struct Lender<'a> {
    pub(crate) values: &'a [Option<Value>],
}

impl<'a> Lender<'a> {
    fn cell(&self, handle: Handle) -> Option<&Cell>
        ensures { option_map cell_view.view_of (option_copied result) ≡ finite_map.get (cells_of self.now.values.now) handle }
    {
        match self.values.get(handle.get() as usize) {
            Some(Some(value)) => value.cell(),
            Some(None) => None,
            None => None,
        }
    }
}

impl<'a> Reader for Lender<'a> {
    ghost cells = { λ lender. cells_of lender.values.now };

    fn size(&self, handle: Handle) -> u64 {
        match self.cell(handle) {
            Some(cell) => cell.size(),
            None => 0,
        }
    }

    fn contains(&self, handle: Handle, key: &Scalar) -> bool {
        match self.cell(handle) {
            Some(cell) => cell.contains(key),
            None => false,
        }
    }

    fn get(&self, handle: Handle, key: &Scalar) -> Option<&Scalar> {
        match self.cell(handle) {
            Some(cell) => cell.get(key),
            None => None,
        }
    }

    fn front(&self, handle: Handle) -> Option<&Scalar> {
        match self.cell(handle) {
            Some(cell) => cell.front(),
            None => None,
        }
    }

    fn print(&self, handle: Handle, out: &mut Bytes) -> Result<(), NoMemory> {
        match self.cell(handle) {
            Some(cell) => print_cell(cell, out),
            None => print_scalar(&Scalar::Unit, out),
        }
    }
}

/// The register of a value of this number.
pub(crate) fn register(value: &Option<Value>, number: usize) -> Result<Register, NoMemory>
    ensures { IfOk result (λ r. r ≡ register_of number value.now) }
{
    match value {
        None => Ok(Register::Empty),
        Some(value) => match value.held() {
            Held::Scalar(scalar) => Ok(Register::Scalar(scalar.copy()?)),
            Held::Aggregate(_) => Ok(Register::Aggregate(Handle::new(number as u64))),
        },
    }
}

/// The registers of arguments.
fn registers(alloc: Global, values: &[Option<Value>]) -> Result<Vec<Register>, NoMemory>
    ensures { IfOk result (λ r. r.items ≡ registers_from 0 values.now) }
{
    let mut registers = Vec::new(alloc);
    for (number, value) in values.iter().enumerate() {
        registers.push(register(value, number)?)?;
    }
    Ok(registers)
}

/// So many numbers from 0 on.
fn numbers(alloc: Global, count: u32) -> Result<Vec<EqId>, NoMemory>
    ensures { IfOk result (λ v. v.items ≡ numbers_from 0 count) }
{
    let mut numbers = Vec::new(alloc);
    for number in 0..count {
        let id = EqId::new(number);
        numbers.push(id)?;
    }
    Ok(numbers)
}

/// The value of a body at values that may be absent, or its fault.
pub(crate) fn evaluated(
    alloc: Global,
    body: &Body,
    values: &[Option<Value>],
) -> Result<Option<Scalar>, EvalFault>
    requires { IsEvaluableAt body.now values.now }
    ensures { IsValue result (apply body.now values.now) }
{
    let registers = registers(alloc, values)?;
    let arguments = numbers(alloc, values.len() as u32)?;
    eval(alloc, body, &registers, &arguments, &Lender { values })
}
