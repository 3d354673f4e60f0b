// Which steps have to stand before others, as far as no trigger is asked.

ghost use Rattle.std.specs.Prelude.{◌≡◌, ◌↔◌, ◌<◌, ◌^◌, length, OnOk, IsTrue};
ghost use Rattle.translation_order.specs.Order.{AreOfSteps};
ghost use Rattle.alias_paths.specs.inner.Pairs.{Adds};
ghost use Rattle.alias_nears.specs.inner.Constraints.{IsArgumentAt, IsNeeded, IsPrintOf, IsMarkedBefore, IsTakenBefore};
ghost use Rattle.alias_nears.specs.inner.Constraints.{WritesMarked, IsWrittenBefore, IsPrintedBefore};

use alias_paths::pairs::push_if;
use flat_core::flat::Flat;
use translation_order::steps::Edges;
use tsl_value::ids::EqId;
use tsl_value::memory::NoMemory;

/// Appends a pair of each of these arguments and the equation that has them, if it runs.
fn push_arguments(
    pairs: &mut Edges,
    arguments: &[EqId],
    number: u32,
    runs: bool,
) -> Result<(), NoMemory>
    ensures { OnOk result (Adds pairs.old (IsArgumentAt arguments.now number runs) pairs.new) }
{
    for argument in arguments {
        push_if(pairs, (argument.get(), number), runs)?;
    }
    Ok(())
}

/// Appends a pair of each argument that has to stand before a running equation, and that equation.
pub fn push_needed(pairs: &mut Edges, flat: &Flat) -> Result<(), NoMemory>
    ensures { OnOk result (Adds pairs.old (IsNeeded flat.now) pairs.new) }
{
    for number in 0..flat.count() {
        let id = EqId::new(number);
        push_arguments(pairs, flat.equation(id).unguarded(), number, flat.runs(id))?;
    }
    Ok(())
}

/// Appends a pair of each printed equation and its print.
pub fn push_prints(pairs: &mut Edges, flat: &Flat) -> Result<(), NoMemory>
    ensures { OnOk result (Adds pairs.old (IsPrintOf flat.now) pairs.new) }
{
    let count = flat.count();
    let outputs = flat.outputs();
    for place in 0..outputs.len() {
        let printed = outputs[place].equation.get();
        pairs.push((printed, count + place as u32))?;
    }
    Ok(())
}

/// Appends a pair of each marked equation and the update.
pub fn push_marked(pairs: &mut Edges, marks: &[bool], update: u32) -> Result<(), NoMemory>
    requires { length marks.now < 2 ^ 32 }
    ensures { OnOk result (Adds pairs.old (IsMarkedBefore marks.now update) pairs.new) }
{
    for index in 0..marks.len() {
        push_if(pairs, (index as u32, update), marks[index])?;
    }
    Ok(())
}

/// Appends a pair of each equation that reads a marked one, and the update.
pub fn push_readers(
    pairs: &mut Edges,
    read: &[(u32, u32)],
    marks: &[bool],
    update: u32,
) -> Result<(), NoMemory>
    requires { AreOfSteps (length marks.now) read.now }
    ensures { OnOk result (Adds pairs.old (IsTakenBefore read.now marks.now update) pairs.new) }
{
    for (variable, reader) in read {
        push_if(pairs, (*reader, update), marks[*variable as usize])?;
    }
    Ok(())
}

/// Whether this writer is another than the update, and writes a marked variable.
fn writes_marked(marks: &[bool], variable: u32, writer: u32, update: u32) -> bool
    requires { variable < length marks.now }
    ensures { IsTrue result ↔ WritesMarked marks.now update variable writer }
{
    marks[variable as usize] && writer != update
}

/// Appends a pair of each other equation that writes a marked one, and the update.
pub fn push_writers(
    pairs: &mut Edges,
    written: &[(u32, u32)],
    marks: &[bool],
    update: u32,
) -> Result<(), NoMemory>
    requires { AreOfSteps (length marks.now) written.now }
    ensures { OnOk result (Adds pairs.old (IsWrittenBefore written.now marks.now update) pairs.new) }
{
    for (variable, writer) in written {
        let wanted = writes_marked(marks, *variable, *writer, update);
        push_if(pairs, (*writer, update), wanted)?;
    }
    Ok(())
}

/// Appends a pair of each print of a marked equation, and the update.
pub fn push_printers(
    pairs: &mut Edges,
    flat: &Flat,
    marks: &[bool],
    update: u32,
) -> Result<(), NoMemory>
    requires { length marks.now ≡ length flat.now.equations }
    ensures { OnOk result (Adds pairs.old (IsPrintedBefore flat.now marks.now update) pairs.new) }
{
    let count = flat.count();
    let outputs = flat.outputs();
    for place in 0..outputs.len() {
        let printed = outputs[place].equation.get() as usize;
        push_if(pairs, (count + place as u32, update), marks[printed])?;
    }
    Ok(())
}
