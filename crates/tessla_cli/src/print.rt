// The texts of a compiled specification.

ghost use Rattle.std.specs.Prelude.{◌≡◌, ℕ, List, ◌++◌, length, IfOk, OnOk};
ghost use Rattle.alias_rules.specs.Fine.{IsTakenPlan};
ghost use Rattle.choice_text.specs.Text.{show_text};
ghost use Rattle.code_file.specs.Form.{HasSpelling};
ghost use Rattle.flat_core.specs.WellFormed.{IsWellFormed};
ghost use Rattle.last_use.specs.Reasons.{AreReasons};
ghost use Rattle.program_text.specs.Text.{flat_text, running};
ghost use Rattle.register_code.specs.Text.{code_text};
ghost use Rattle.tessla_cli.specs.Printed.{check_text, counts_text, updates_text};
ghost use Rattle.tessla_cli.specs.inner.RunPhases.{IsMadeOf};
ghost use Rattle.flat_core.specs.Updates.{running_updates};

use crate::ending::{Ending, no_code};
use crate::made::Made;
use choice_text::print::print_choice;
use code_file::write::write_code;
use command_words::command::Form;
use flat_compiler::compile::Compiled;
use flat_core::flat::Flat;
use last_use::reasons::Reasons;
use program_text::print::print_flat;
use register_code::code::Code;
use register_code::print::print_code;
use slice_text::print::slice_text;
use std::alloc::Global;
use tsl_value::bytes::Bytes;
use tsl_value::ids::EqId;
use tsl_value::memory::NoMemory;
use tsl_value::print::print_number;
use tsl_value::text::Text;

/// How many equations run.
fn count_running(flat: &Flat) -> u64
    ensures { result ≡ length (running flat.now) }
{
    let mut count = 0;
    for number in 0..flat.count() {
        if flat.runs(EqId::new(number)) {
            count += 1;
        }
    }
    count
}

/// How many updates run.
fn count_updates(flat: &Flat) -> u64
    ensures { result ≡ length (running_updates flat.now) }
{
    let mut count = 0;
    for number in 0..flat.count() {
        if flat.is_running_update(EqId::new(number)) {
            count += 1;
        }
    }
    count
}

fn print_counts(equations: u64, updates: u64, out: &mut Bytes) -> Result<(), NoMemory>
    ensures { OnOk result (out.new ≡ out.old ++ counts_text equations updates) }
{
    out.append(b"ok ")?;
    print_number(equations, out)?;
    print_updates(updates, out)
}

/// Appends a blank and the number of updates, with the end of the line.
fn print_updates(updates: u64, out: &mut Bytes) -> Result<(), NoMemory>
    ensures { OnOk result (out.new ≡ out.old ++ updates_text updates) }
{
    out.push(b' ')?;
    print_number(updates, out)?;
    out.push(b'\n')
}

/// How many equations and how many updates of a system run.
fn counted(alloc: Global, flat: &Flat) -> Result<Bytes, NoMemory>
    ensures { IfOk result (λ text. text ≡ check_text flat.now) }
{
    let mut text = Bytes::new(alloc);
    print_counts(count_running(flat), count_updates(flat), &mut text)?;
    Ok(text)
}

/// The running equations and the outputs of a system.
fn listed(alloc: Global, flat: &Flat) -> Result<Bytes, NoMemory>
    ensures { IfOk result (λ text. text ≡ flat_text flat.now) }
{
    let mut text = Bytes::new(alloc);
    print_flat(flat, &mut text)?;
    Ok(text)
}

/// Which updates of a system happen in place, and why the others copy.
fn shown(alloc: Global, flat: &Flat, reasons: &Reasons) -> Result<Bytes, NoMemory>
    ensures { IfOk result (λ text. text ≡ show_text flat.now reasons.now) }
{
    let mut text = Bytes::new(alloc);
    print_choice(flat, reasons.as_slice(), &mut text)?;
    Ok(text)
}

/// The lines of code.
fn coded(alloc: Global, code: &Code) -> Result<Bytes, NoMemory>
    ensures { IfOk result (λ text. text ≡ code_text code.now) }
{
    let mut text = Bytes::new(alloc);
    print_code(code, &mut text)?;
    Ok(text)
}

/// What the output of a name can depend on, or how the program ends where none is printed under it.
fn sliced(alloc: Global, code: &Code, name: &Text) -> Result<Made, NoMemory>
    requires { IsWellFormed code.now.system }
    ensures { IfOk result (IsMadeOf (Form.Slice name.now) code.now) }
{
    match slice_text(alloc, code.flat(), name.as_str())? {
        Some(text) => Ok(Made::Text(text)),
        None => Ok(Made::Stops(Ending::NoOutput(name.copy()?))),
    }
}

/// The bytes of code for a file of any name, or how the program ends where they are too many.
fn spelled(alloc: Global, code: &Code) -> Result<Made, NoMemory>
    requires taken { IsTakenPlan code.now.system code.now.in_place code.now.order }
    requires spelling { HasSpelling code.now.system }
    ensures { IfOk result (λ made. (name : List ℕ) → IsMadeOf (Form.File name) code.now made) }
{
    let mut text = Bytes::new(alloc);
    match write_code(code, &mut text) {
        Ok(()) => Ok(Made::Text(text)),
        Err(fault) => Ok(Made::Stops(no_code(fault)?)),
    }
}

/// The text that a compiled specification has in a form, or the ending that stands against it.
pub fn text_of(alloc: Global, form: &Form, compiled: &Compiled) -> Result<Made, NoMemory>
    requires taken { IsTakenPlan compiled.now.code.system compiled.now.code.in_place compiled.now.code.order }
    requires reasons { AreReasons compiled.now.code.system compiled.now.code.in_place compiled.now.reasons }
    requires well_formed { IsWellFormed compiled.now.code.system }
    requires spelling { HasSpelling compiled.now.code.system }
    ensures { IfOk result (IsMadeOf form.now compiled.now.code) }
{
    let Compiled { code, reasons } = compiled;
    let flat = code.flat();
    match form {
        Form::Check => Ok(Made::Text(counted(alloc, flat)?)),
        Form::Flat => Ok(Made::Text(listed(alloc, flat)?)),
        Form::Show => Ok(Made::Text(shown(alloc, flat, reasons)?)),
        Form::Code => Ok(Made::Text(coded(alloc, code)?)),
        Form::Slice(name) => sliced(alloc, code, name),
        Form::File(_) => spelled(alloc, code),
    }
}
