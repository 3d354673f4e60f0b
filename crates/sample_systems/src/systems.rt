// Two systems that tests ask about, here and above.

ghost use Rattle.std.specs.Prelude.{◌≡◌, ◌<◌, true, slice_get, IfOk};
ghost use Rattle.lift_func.specs.BodyTree.{Argument, Two};
ghost use Rattle.sample_systems.specs.Systems.{equation_of, growing_equations, merged_equations, sample_equations};

use flat_core::builder::FlatBuilder;
use flat_core::equation::{Equation, Op, Output};
use flat_core::flat::Flat;
use flat_core::lists::Args;
use lift_func::body::Body;
use std::alloc::Global;
use tsl_value::ids::EqId;
use tsl_value::memory::NoMemory;
use tsl_value::operation::Binary;
use tsl_value::place::Place;
use tsl_value::scalar::{KeyType, ScalarType, ValueType};
use tsl_value::text::Text;

/// Arguments by their numbers.
pub fn args(alloc: Global, ids: &[u32]) -> Result<Args, NoMemory>
    ensures { IfOk result (λ a. a ≡ ids.now) }
{
    let mut args = Args::new(alloc);
    for id in ids {
        args.push(EqId::new(*id))?;
    }
    Ok(args)
}

/// An equation without a name, at the first place.
pub fn equation(op: Op, args: Args, of: ValueType) -> Equation
    ensures { result ≡ equation_of op args of }
{
    Equation {
        op,
        args,
        of,
        place: Place { line: 1, column: 1 },
        name: None,
    }
}

/// Whether a set contains a key.
fn contains(alloc: Global) -> Result<Op, NoMemory>
    ensures { IfOk result (λ o. o ≡ Op.Lift (Two Binary.Contains (Argument 0) (Argument 1)) true) }
{
    let body = Body::two(
        alloc,
        Binary::Contains,
        Body::argument(0),
        Body::argument(1),
    )?;
    Ok(Op::Lift { body, strict: true })
}

fn sample_equation(alloc: Global, n: u32) -> Result<Equation, NoMemory>
    requires { n < 12 }
    ensures { IfOk result (λ e. slice_get sample_equations n ≡ Some e) }
{
    let int = ValueType::Scalar(ScalarType::Int);
    let bool = ValueType::Scalar(ScalarType::Bool);
    let ints = ValueType::Set(KeyType::Int);
    Ok(match n {
        0 => equation(Op::Input, args(alloc, &[])?, int),
        1 => equation(Op::Empty, args(alloc, &[])?, ints),
        2 => equation(Op::Merge, args(alloc, &[8, 1])?, ints),
        3 => equation(Op::Last, args(alloc, &[2, 0])?, ints),
        4 => equation(Op::Last, args(alloc, &[3, 0])?, ints),
        5 => equation(Op::Merge, args(alloc, &[3, 4])?, ints),
        6 => equation(Op::Last, args(alloc, &[0, 3])?, int),
        7 => equation(Op::Merge, args(alloc, &[0, 6])?, int),
        8 => equation(Op::SetAdd, args(alloc, &[5, 7])?, ints),
        9 => equation(contains(alloc)?, args(alloc, &[5, 7])?, bool),
        10 => equation(Op::Filter, args(alloc, &[8, 9])?, ints),
        _ => equation(
            Op::Delay,
            args(alloc, &[0, 9])?,
            ValueType::Scalar(ScalarType::Unit),
        ),
    })
}

fn growing_equation(alloc: Global, n: u32) -> Result<Equation, NoMemory>
    requires { n < 8 }
    ensures { IfOk result (λ e. slice_get growing_equations n ≡ Some e) }
{
    let int = ValueType::Scalar(ScalarType::Int);
    let ints = ValueType::Set(KeyType::Int);
    Ok(match n {
        0 => equation(Op::Empty, args(alloc, &[])?, ints),
        1 => equation(Op::Merge, args(alloc, &[42, 35])?, ints),
        2 => equation(Op::Last, args(alloc, &[36, 34])?, ints),
        3 => equation(Op::Last, args(alloc, &[37, 34])?, ints),
        4 => equation(Op::Merge, args(alloc, &[37, 38])?, ints),
        5 => equation(Op::Last, args(alloc, &[34, 37])?, int),
        6 => equation(Op::Merge, args(alloc, &[34, 40])?, int),
        _ => equation(Op::SetAdd, args(alloc, &[39, 41])?, ints),
    })
}

fn merged_equation(alloc: Global, n: u32) -> Result<Equation, NoMemory>
    requires { n < 43 }
    ensures { IfOk result (λ e. slice_get merged_equations n ≡ Some e) }
{
    let int = ValueType::Scalar(ScalarType::Int);
    if n < 18 {
        let none = args(alloc, &[])?;
        return Ok(equation(Op::Input, none, int));
    }
    if n < 35 {
        let two = args(alloc, &[34 - n, n - 1])?;
        return Ok(equation(Op::Merge, two, int));
    }
    growing_equation(alloc, n - 35)
}

/// The system of which `sample_equations` are the equations.
pub fn sample(alloc: Global) -> Result<Flat, NoMemory>
    ensures { IfOk result (λ f. f.equations ≡ sample_equations) }
{
    let mut builder = FlatBuilder::new(alloc);
    for n in 0..12 {
        builder.add(sample_equation(alloc, n)?)?;
    }
    builder.add_output(Output {
        name: Text::from_str(alloc, "f")?,
        equation: EqId::new(10),
    })?;
    builder.finish()
}

/// The system of which `merged_equations` are the equations.
pub fn merged(alloc: Global) -> Result<Flat, NoMemory>
    ensures { IfOk result (λ f. f.equations ≡ merged_equations) }
{
    let mut builder = FlatBuilder::new(alloc);
    for n in 0..43 {
        builder.add(merged_equation(alloc, n)?)?;
    }
    builder.add_output(Output {
        name: Text::from_str(alloc, "m")?,
        equation: EqId::new(36),
    })?;
    builder.finish()
}
