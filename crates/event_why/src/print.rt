// The text of a derivation.

ghost use Rattle.std.specs.Prelude.{◌≡◌, ◌++◌, codes, length, take, OnOk, OnErr};
ghost use Rattle.std.specs.Fmt.{decimal};
ghost use Rattle.std.specs.List.{flat_map};
ghost use Rattle.program_text.specs.Text.{name_text};
ghost use Rattle.tsl_value.specs.Print.{view_text};
ghost use Rattle.event_why.specs.Said.{said};
ghost use Rattle.event_why.specs.Text.{by_text, due_text, fact_text, step_number, step_text, steps_text, subject_text, times_text};

use crate::fact::{Fact, Why, WhyStep};
use flat_core::flat::Flat;
use plain_solver::print::print_value;
use plain_solver::value::Value;
use program_text::print::print_id;
use tsl_value::bytes::Bytes;
use tsl_value::ids::EqId;
use tsl_value::memory::NoMemory;
use tsl_value::print::print_number;
use tsl_value::text::Text;
use tsl_value::time::Time;

/// Appends a name and a blank, where there is one.
fn put_name(name: &Option<Text>, out: &mut Bytes) -> Result<(), NoMemory>
    ensures ok { OnOk result (out.new ≡ out.old ++ name_text name.now) }
    ensures err { OnErr result (take (length out.old) out.new ≡ out.old) }
{
    match name {
        Some(name) => {
            out.append(name.as_str().as_bytes())?;
            out.push(b' ')
        }
        None => Ok(()),
    }
}

/// Appends the number of an equation, and its name where it has one.
fn put_subject(flat: &Flat, i: EqId, out: &mut Bytes) -> Result<(), NoMemory>
    ensures ok { OnOk result (out.new ≡ out.old ++ subject_text flat.now i) }
    ensures err { OnErr result (take (length out.old) out.new ≡ out.old) }
{
    print_id(i, out)?;
    out.push(b' ')?;
    if i.get() < flat.count() {
        put_name(&flat.equation(i).name, out)
    } else {
        Ok(())
    }
}

fn put_times(from: Time, to: Time, out: &mut Bytes) -> Result<(), NoMemory>
    ensures ok { OnOk result (out.new ≡ out.old ++ times_text from to) }
    ensures err { OnErr result (take (length out.old) out.new ≡ out.old) }
{
    print_number(from.get(), out)?;
    out.append(b" to ")?;
    print_number(to.get(), out)
}

fn put_due(due: Option<Time>, out: &mut Bytes) -> Result<(), NoMemory>
    ensures ok { OnOk result (out.new ≡ out.old ++ due_text due) }
    ensures err { OnErr result (take (length out.old) out.new ≡ out.old) }
{
    match due {
        Some(due) => print_number(due.get(), out),
        None => out.append(b"none"),
    }
}

/// Appends a time and the value of an event then.
fn put_event(t: Time, value: &Value, out: &mut Bytes) -> Result<(), NoMemory>
    ensures ok { OnOk result (out.new ≡ out.old ++ (codes "at " ++ (decimal t ++ (codes " = " ++ view_text value.now)))) }
    ensures err { OnErr result (take (length out.old) out.new ≡ out.old) }
{
    out.append(b"at ")?;
    print_number(t.get(), out)?;
    out.append(b" = ")?;
    print_value(value, out)
}

/// Appends up to which time it counts what happened.
fn put_after(t: Time, out: &mut Bytes) -> Result<(), NoMemory>
    ensures ok { OnOk result (out.new ≡ out.old ++ (codes "pending after " ++ decimal t)) }
    ensures err { OnErr result (take (length out.old) out.new ≡ out.old) }
{
    out.append(b"pending after ")?;
    print_number(t.get(), out)
}

/// Appends when a delay is due then.
fn put_then(due: Option<Time>, out: &mut Bytes) -> Result<(), NoMemory>
    ensures ok { OnOk result (out.new ≡ out.old ++ (codes ": " ++ due_text due)) }
    ensures err { OnErr result (take (length out.old) out.new ≡ out.old) }
{
    out.append(b": ")?;
    put_due(due, out)
}

/// Appends when a delay is due, by what happened up to a time.
fn put_pending(t: Time, due: Option<Time>, out: &mut Bytes) -> Result<(), NoMemory>
    ensures ok { OnOk result (out.new ≡ out.old ++ ((codes "pending after " ++ decimal t) ++ (codes ": " ++ due_text due))) }
    ensures err { OnErr result (take (length out.old) out.new ≡ out.old) }
{
    put_after(t, out)?;
    put_then(due, out)
}

fn put_fact(flat: &Flat, fact: &Fact, out: &mut Bytes) -> Result<(), NoMemory>
    ensures ok { OnOk result (out.new ≡ out.old ++ fact_text flat.now (said fact.now)) }
    ensures err { OnErr result (take (length out.old) out.new ≡ out.old) }
{
    match fact {
        Fact::Event {
            equation,
            time,
            value,
        } => {
            put_subject(flat, *equation, out)?;
            put_event(*time, value, out)
        }
        Fact::Silent { equation, from, to } => {
            put_subject(flat, *equation, out)?;
            out.append(b"silent ")?;
            put_times(*from, *to, out)
        }
        Fact::Gap { from, to } => {
            out.append(b"gap ")?;
            put_times(*from, *to, out)
        }
        Fact::Pending {
            equation,
            time,
            due,
        } => {
            put_subject(flat, *equation, out)?;
            put_pending(*time, *due, out)
        }
    }
}

/// Appends the number of a step.
fn put_number(number: u64, out: &mut Bytes) -> Result<(), NoMemory>
    ensures ok { OnOk result (out.new ≡ out.old ++ step_number number) }
    ensures err { OnErr result (take (length out.old) out.new ≡ out.old) }
{
    out.push(b'#')?;
    print_number(number, out)
}

/// Appends the numbers of steps, each with a blank before it.
fn put_numbers(numbers: &[u64], out: &mut Bytes) -> Result<(), NoMemory>
    ensures ok { OnOk result (out.new ≡ out.old ++ flat_map (λ k. codes " " ++ step_number k) numbers.now) }
    ensures err { OnErr result (take (length out.old) out.new ≡ out.old) }
{
    for number in numbers {
        out.push(b' ')?;
        put_number(*number, out)?;
    }
    Ok(())
}

/// Appends which steps one names, where it names any.
fn put_by(numbers: &[u64], out: &mut Bytes) -> Result<(), NoMemory>
    ensures ok { OnOk result (out.new ≡ out.old ++ by_text numbers.now) }
    ensures err { OnErr result (take (length out.old) out.new ≡ out.old) }
{
    if numbers.is_empty() {
        return Ok(());
    }
    out.append(b" by")?;
    put_numbers(numbers, out)
}

/// Appends what stands before the steps that one names.
fn put_head(flat: &Flat, number: u64, fact: &Fact, out: &mut Bytes) -> Result<(), NoMemory>
    ensures ok { OnOk result (out.new ≡ out.old ++ (step_number number ++ (codes " " ++ fact_text flat.now (said fact.now)))) }
    ensures err { OnErr result (take (length out.old) out.new ≡ out.old) }
{
    put_number(number, out)?;
    out.push(b' ')?;
    put_fact(flat, fact, out)
}

/// Appends the line of a step.
fn put_step(flat: &Flat, number: u64, step: &WhyStep, out: &mut Bytes) -> Result<(), NoMemory>
    ensures ok { OnOk result (out.new ≡ out.old ++ step_text flat.now number step.now) }
    ensures err { OnErr result (take (length out.old) out.new ≡ out.old) }
{
    put_head(flat, number, &step.fact, out)?;
    put_by(&step.by, out)?;
    out.push(b'\n')
}

fn put_steps(flat: &Flat, steps: &[WhyStep], out: &mut Bytes) -> Result<(), NoMemory>
    ensures ok { OnOk result (out.new ≡ out.old ++ steps_text flat.now 0 steps.now) }
    ensures err { OnErr result (take (length out.old) out.new ≡ out.old) }
{
    for (number, step) in steps.iter().enumerate() {
        put_step(flat, number as u64, step, out)?;
    }
    Ok(())
}

/// Appends the lines of a derivation, one for each fact by its number, or leaves `out` as it was.
pub fn print_why(flat: &Flat, why: &Why, out: &mut Bytes) -> Result<(), NoMemory>
    ensures ok { OnOk result (out.new ≡ out.old ++ steps_text flat.now 0 why.now.steps.items) }
    ensures err { OnErr result (out.new ≡ out.old) }
{
    let before = out.len();
    match put_steps(flat, &why.steps, out) {
        Ok(()) => Ok(()),
        Err(none) => {
            out.truncate(before);
            Err(none)
        }
    }
}
