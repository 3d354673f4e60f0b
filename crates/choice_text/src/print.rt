// The lines of the updates.

ghost use Rattle.std.specs.Prelude.{◌≡◌, ◌<◌, [], ◌++◌, codes, if◌then◌else◌, length, option_map, take, OnOk, OnErr};
ghost use Rattle.std.specs.List.{flat_map};
ghost use Rattle.flat_core.specs.System.{equation};
ghost use Rattle.flat_core.specs.Updates.{is_running_update};
ghost use Rattle.program_text.specs.Text.{label_text};
ghost use Rattle.choice_text.specs.Text.{cycle_text, how_text, print_text, reason_of};
ghost use Rattle.choice_text.specs.Text.{reason_text, show_text, step_label, update_at, update_line};

use alias_nears::reason::Reason;
use event_writer::place::print_place;
use flat_core::equation::{Equation, Output};
use flat_core::flat::Flat;
use program_text::print::{print_label, print_name_or_id};
use tsl_value::bytes::Bytes;
use tsl_value::ids::EqId;
use tsl_value::memory::NoMemory;
use tsl_value::text::Text;

/// Appends what the print of an output is called.
fn put_print(output: Option<&Output>, out: &mut Bytes) -> Result<(), NoMemory>
    ensures ok { OnOk result (out.new ≡ out.old ++ print_text (option_map (λ o. o.now) output.entry)) }
    ensures err { OnErr result (take (length out.old) out.new ≡ out.old) }
{
    match output {
        Some(output) => {
            out.append(b"out ")?;
            out.append(output.name.as_str().as_bytes())
        }
        None => Ok(()),
    }
}

/// Appends what a step is called.
fn put_step(flat: &Flat, step: u32, out: &mut Bytes) -> Result<(), NoMemory>
    ensures ok { OnOk result (out.new ≡ out.old ++ step_label flat.now step) }
    ensures err { OnErr result (take (length out.old) out.new ≡ out.old) }
{
    let count = flat.count();
    if step < count {
        return print_label(flat, EqId::new(step), out);
    }
    put_print(flat.outputs().get((step - count) as usize), out)
}

/// Appends what steps are called, each with an arrow after it.
fn put_steps(flat: &Flat, steps: &[u32], out: &mut Bytes) -> Result<(), NoMemory>
    ensures ok { OnOk result (out.new ≡ out.old ++ flat_map (λ y. step_label flat.now y ++ codes " -> ") steps.now) }
    ensures err { OnErr result (take (length out.old) out.new ≡ out.old) }
{
    for step in steps {
        put_step(flat, *step, out)?;
        out.append(b" -> ")?;
    }
    Ok(())
}

/// Appends the steps of a cycle, which ends with the step with which it begins.
fn put_cycle(flat: &Flat, steps: &[u32], out: &mut Bytes) -> Result<(), NoMemory>
    ensures ok { OnOk result (out.new ≡ out.old ++ cycle_text flat.now steps.now) }
    ensures err { OnErr result (take (length out.old) out.new ≡ out.old) }
{
    put_steps(flat, steps, out)?;
    match steps.first() {
        Some(first) => put_step(flat, *first, out),
        None => Ok(()),
    }
}

/// Appends two equations with a text between them.
fn put_pair(
    flat: &Flat,
    first: EqId,
    text: &[u8],
    second: EqId,
    out: &mut Bytes,
) -> Result<(), NoMemory>
    ensures ok { OnOk result (out.new ≡ out.old ++ (label_text flat.now first ++ (text.now ++ label_text flat.now second))) }
    ensures err { OnErr result (take (length out.old) out.new ≡ out.old) }
{
    print_label(flat, first, out)?;
    out.append(text)?;
    print_label(flat, second, out)
}

/// Appends why an update copies.
fn put_reason(flat: &Flat, reason: &Reason, out: &mut Bytes) -> Result<(), NoMemory>
    ensures ok { OnOk result (out.new ≡ out.old ++ reason_text flat.now reason.now) }
    ensures err { OnErr result (take (length out.old) out.new ≡ out.old) }
{
    match reason {
        Reason::Kept { update, by } => put_pair(flat, *update, b" kept by ", *by, out),
        Reason::NotOverwritten { update, last } => {
            put_pair(flat, *update, b" not overwritten in ", *last, out)
        }
        Reason::Cycle { steps } => {
            out.append(b"cycle ")?;
            put_cycle(flat, steps.as_slice(), out)
        }
    }
}

/// The first reason that is given for an update.
fn reason_of(reasons: &[(EqId, Reason)], update: EqId) -> Option<&(EqId, Reason)>
    ensures { option_map (λ r. r.now) result ≡ reason_of reasons.now update }
{
    reasons.iter().find(|reason| reason.0 == update)
}

/// Appends how an update happens.
fn put_how(flat: &Flat, reason: Option<&(EqId, Reason)>, out: &mut Bytes) -> Result<(), NoMemory>
    ensures ok { OnOk result (out.new ≡ out.old ++ how_text flat.now (option_map (λ r. r.now) reason.entry)) }
    ensures err { OnErr result (take (length out.old) out.new ≡ out.old) }
{
    match reason {
        Some((_, reason)) => {
            out.append(b"copied: ")?;
            put_reason(flat, reason, out)
        }
        None => out.append(b"in place"),
    }
}

/// The same, with the end of the line.
fn put_end(flat: &Flat, reason: Option<&(EqId, Reason)>, out: &mut Bytes) -> Result<(), NoMemory>
    ensures ok { OnOk result (out.new ≡ out.old ++ (how_text flat.now (option_map (λ r. r.now) reason.entry) ++ codes "\n")) }
    ensures err { OnErr result (take (length out.old) out.new ≡ out.old) }
{
    put_how(flat, reason, out)?;
    out.push(b'\n')
}

/// Appends what an update is called, and where it stands.
fn put_head(id: EqId, equation: &Equation, out: &mut Bytes) -> Result<(), NoMemory>
    ensures ok { OnOk result (out.new ≡ out.old ++ update_at id (Some equation.now)) }
    ensures err { OnErr result (take (length out.old) out.new ≡ out.old) }
{
    print_name_or_id(id, &equation.name, out)?;
    out.push(b' ')?;
    print_place(equation.place, out)
}

/// Appends the line of an update.
fn put_line(
    flat: &Flat,
    reasons: &[(EqId, Reason)],
    id: EqId,
    out: &mut Bytes,
) -> Result<(), NoMemory>
    requires { id < length flat.now.equations }
    ensures ok { OnOk result (out.new ≡ out.old ++ update_line flat.now reasons.now id) }
    ensures err { OnErr result (take (length out.old) out.new ≡ out.old) }
{
    put_head(id, flat.equation(id), out)?;
    out.push(b' ')?;
    put_end(flat, reason_of(reasons, id), out)
}

/// Appends the line of an equation, if it is an update that runs.
fn put_if_update(
    flat: &Flat,
    reasons: &[(EqId, Reason)],
    id: EqId,
    out: &mut Bytes,
) -> Result<(), NoMemory>
    requires { id < length flat.now.equations }
    ensures ok { OnOk result (out.new ≡ out.old ++ (if is_running_update flat.now id then update_line flat.now reasons.now id else [])) }
    ensures err { OnErr result (take (length out.old) out.new ≡ out.old) }
{
    if flat.is_running_update(id) {
        put_line(flat, reasons, id, out)
    } else {
        Ok(())
    }
}

/// Appends the lines of the updates that run, by number.
fn put_updates(flat: &Flat, reasons: &[(EqId, Reason)], out: &mut Bytes) -> Result<(), NoMemory>
    ensures ok { OnOk result (out.new ≡ out.old ++ show_text flat.now reasons.now) }
    ensures err { OnErr result (take (length out.old) out.new ≡ out.old) }
{
    for number in 0..flat.count() {
        put_if_update(flat, reasons, EqId::new(number), out)?;
    }
    Ok(())
}

/// Appends a line for each update that runs, by number, or leaves `out` as it was.
///
/// The line has the update's name, or `%N` where it has none, its place, and `in place` where no reason is given for it. Otherwise it has
/// `copied: U kept by V`, `copied: U not overwritten in V` or `copied: cycle A -> B -> A` by the first reason that is. In a cycle the
/// print of an output is called `out NAME`.
pub fn print_choice(
    flat: &Flat,
    reasons: &[(EqId, Reason)],
    out: &mut Bytes,
) -> Result<(), NoMemory>
    ensures ok { OnOk result (out.new ≡ out.old ++ show_text flat.now reasons.now) }
    ensures err { OnErr result (out.new ≡ out.old) }
{
    let before = out.len();
    match put_updates(flat, reasons, out) {
        Ok(()) => Ok(()),
        Err(none) => {
            out.truncate(before);
            Err(none)
        }
    }
}
