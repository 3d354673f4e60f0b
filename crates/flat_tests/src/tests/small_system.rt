// A small system, and lines of traces.

ghost use Rattle.std.specs.Prelude.{◌≡◌, ◌<◌, ◌^◌, [], ◌∷◌, slice_get, IfOk, IsTrue};
ghost use Rattle.flat_core.specs.Line.{IsSorted};
ghost use Rattle.flat_core.specs.inner.TypedLines.{AreTypedLines, IsTypedLine};
ghost use Rattle.flat_tests.specs.Small.{equation_of, small_equations};

use flat_core::builder::FlatBuilder;
use flat_core::equation::{Equation, Op, Output};
use flat_core::flat::Flat;
use flat_core::line::TraceLine;
use flat_core::lists::Args;
use std::alloc::Global;
use tsl_value::ids::EqId;
use tsl_value::memory::NoMemory;
use tsl_value::place::Place;
use tsl_value::scalar::{Scalar, ScalarType, ValueType};
use tsl_value::text::Text;
use tsl_value::time::Time;

/// Both inputs.
fn inputs(alloc: Global) -> Result<Args, NoMemory>
    ensures { IfOk result (λ a. a ≡ 0 ∷ 1 ∷ []) }
{
    let mut args = Args::new(alloc);
    args.push(EqId::new(0))?;
    args.push(EqId::new(1))?;
    Ok(args)
}

fn equation(
    alloc: Global,
    name: &str,
    op: Op,
    args: Args,
    of: ValueType,
) -> Result<Equation, NoMemory>
    ensures { IfOk result (λ e. e ≡ equation_of name.now op args of) }
{
    Ok(Equation {
        op,
        args,
        of,
        place: Place { line: 1, column: 1 },
        name: Some(Text::from_str(alloc, name)?),
    })
}

fn small_equation(alloc: Global, n: u32) -> Result<Equation, NoMemory>
    requires { n < 4 }
    ensures { IfOk result (λ e. slice_get small_equations n ≡ Some e) }
{
    let int = ValueType::Scalar(ScalarType::Int);
    let unit = ValueType::Scalar(ScalarType::Unit);
    match n {
        0 => equation(alloc, "i", Op::Input, Args::new(alloc), int),
        1 => equation(alloc, "j", Op::Input, Args::new(alloc), int),
        2 => equation(alloc, "p", Op::Last, inputs(alloc)?, int),
        _ => equation(alloc, "d", Op::Delay, inputs(alloc)?, unit),
    }
}

/// The system of which `small_equations` are the equations, with the outputs p and d.
pub(crate) fn small_system(alloc: Global) -> Result<Flat, NoMemory> {
    let mut builder = FlatBuilder::new(alloc);
    for n in 0..4 {
        builder.add(small_equation(alloc, n)?)?;
    }
    builder.add_output(Output {
        name: Text::from_str(alloc, "p")?,
        equation: EqId::new(2),
    })?;
    builder.add_output(Output {
        name: Text::from_str(alloc, "d")?,
        equation: EqId::new(3),
    })?;
    builder.finish()
}

/// The time of a number.
pub(crate) fn at(t: u64) -> Time
    requires { t < 2 ^ 63 }
    ensures { result ≡ t }
{
    match Time::new(t) {
        Some(time) => time,
        None => unreachable!(),
    }
}

/// Lines of a time, an input and its event.
pub(crate) fn trace(alloc: Global, events: &[(u64, u32, i64)]) -> Result<Vec<TraceLine>, NoMemory> {
    let mut lines = Vec::new(alloc);
    for (time, input, value) in events {
        if let Some(time) = Time::new(*time) {
            lines.push(TraceLine {
                time,
                event: Some((EqId::new(*input), Scalar::Int(*value))),
            })?;
        }
    }
    Ok(lines)
}

/// No line comes before another that is earlier.
pub(crate) fn are_sorted(lines: &[TraceLine]) -> bool
    ensures { IsTrue result → IsSorted lines.now }
{
    let Some((first, rest)) = lines.split_first() else {
        return true;
    };
    match rest.first() {
        Some(next) => first.time.get() <= next.time.get() && are_sorted(rest),
        None => true,
    }
}

/// The line's event, if it has one, is an integer for an input of integers.
fn is_typed(flat: &Flat, line: &TraceLine) -> bool
    ensures { IsTrue result → IsTypedLine flat.now line.now }
{
    match &line.event {
        None => true,
        Some((input, Scalar::Int(_))) => {
            input.get() < flat.count() && is_int(flat.equation(*input).of)
        }
        Some(_) => false,
    }
}

fn is_int(of: ValueType) -> bool
    ensures { IsTrue result → of ≡ ValueType.Scalar ScalarType.Int }
{
    match of {
        ValueType::Scalar(ScalarType::Int) => true,
        _ => false,
    }
}

pub(crate) fn are_typed(flat: &Flat, lines: &[TraceLine]) -> bool
    ensures { IsTrue result → AreTypedLines flat.now lines.now }
{
    match lines.split_first() {
        Some((line, rest)) => is_typed(flat, line) && are_typed(flat, rest),
        None => true,
    }
}
