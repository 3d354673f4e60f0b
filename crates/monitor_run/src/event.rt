// The lines of events. Each is taken when its print comes, since a later update may change the cell. That of an only output is put at once
// where all are wanted; else each output has a text, and all are appended at the end, by output.

ghost use Rattle.std.specs.Prelude.{◌≡◌, ◌<◌, ◌++◌, ℕ, [], is_some, length, slice_index_or, slice_set, IfOk, IsTrue, OnOk, OnErr};
ghost use Rattle.std.specs.List.{flat_map};
ghost use Rattle.body_eval.specs.inner.Registers.{HoldsLive};
ghost use Rattle.flat_core.specs.Text.{event_line};
ghost use Rattle.monitor_run.specs.inner.Begun.{IsBegunOf};
ghost use Rattle.monitor_run.specs.inner.Machine.{CanPrint, front_of, texts_with};
ghost use Rattle.monitor_run.specs.inner.Registers.{register_at, value_at};
ghost use Rattle.monitor_run.specs.inner.Visits.{AreUnprinted};

use agenda::marks::Agenda;
use aggregate_store::store::Store;
use body_eval::register::Register;
use event_writer::event::write_event;
use flat_core::equation::Output;
use tsl_value::bytes::Bytes;
use tsl_value::memory::NoMemory;
use tsl_value::time::Time;

/// Adds the line of an output at a time to a text, or nothing where the output has no event.
#[inline(always)]
pub(crate) fn add_line(
    output: &Output,
    time: Time,
    registers: &[Register],
    store: &Store,
    text: &mut Bytes,
) -> Result<(), NoMemory>
    requires known { output.now.equation < length registers.now }
    requires live { HoldsLive store.now.cells (register_at registers.now output.now.equation) }
    ensures ok { OnOk result (text.new
        ≡ text.old ++ event_line time output.now.name (value_at store.now.cells registers.now output.now.equation)) }
    ensures err { OnErr result (text.new ≡ text.old) }
{
    let register = &registers[output.equation.get() as usize];
    if register.is_empty() {
        return Ok(());
    }
    write_event(time, &output.name, register, store, text)
}

/// Makes a text the line of an output at a time, or nothing where the output has no event.
fn take_line(
    output: &Output,
    time: Time,
    registers: &[Register],
    store: &Store,
    text: &mut Bytes,
) -> Result<(), NoMemory>
    requires known { output.now.equation < length registers.now }
    requires live { HoldsLive store.now.cells (register_at registers.now output.now.equation) }
    ensures { OnOk result (text.new ≡ event_line time output.now.name (value_at store.now.cells registers.now output.now.equation)) }
{
    text.truncate(0);
    add_line(output, time, registers, store, text)
}

/// Prints an output into its text.
pub(crate) fn print_output(
    output: &Output,
    place: usize,
    time: Time,
    registers: &[Register],
    store: &Store,
    texts: &mut [Bytes],
) -> Result<(), NoMemory>
    requires known { output.now.equation < length registers.now }
    requires live { HoldsLive store.now.cells (register_at registers.now output.now.equation) }
    requires place { place < length texts.old }
    ensures length { length texts.new ≡ length texts.old }
    ensures text { OnOk result (texts.new
        ≡ slice_set texts.old place (event_line time output.now.name (value_at store.now.cells registers.now output.now.equation))) }
{
    take_line(output, time, registers, store, &mut texts[place])
}

/// Moves a text to the end of what is to be written. Its room is kept.
fn append_text(text: &mut Bytes, out: &mut Bytes) -> Result<(), NoMemory>
    ensures ok { OnOk result (out.new ≡ out.old ++ text.old) }
    ensures empty { OnOk result (text.new ≡ []) }
    ensures err { OnErr result (out.new ≡ out.old) }
{
    out.append(text.as_slice())?;
    text.truncate(0);
    Ok(())
}

/// Moves the texts of the marked outputs to the end of what is to be written, by output.
fn append_texts(marked: &mut Agenda, texts: &mut [Bytes], out: &mut Bytes) -> Result<(), NoMemory>
    requires size { length marked.old ≡ length texts.old }
    requires unprinted { AreUnprinted marked.old texts.old }
    ensures size { length marked.new ≡ length marked.old }
    ensures ok { OnOk result (out.new ≡ out.old ++ flat_map (λ x. x) texts.old) }
    ensures empty { OnOk result ((k : ℕ) → slice_index_or texts.new k [] ≡ []) }
    ensures err { OnErr result (IsBegunOf out.old out.new (flat_map (λ x. x) texts.old)) }
{
    // The outputs before this one have no text any more.
    let mut next = 0;
    while let Some(output) = marked.take_least() {
        append_text(&mut texts[output], out)?;
        next = output + 1;
    }
    Ok(())
}

/// Where lines are printed at once: after what there is, if there is one output.
pub(crate) fn start_of(texts: &[Bytes], out: &Bytes) -> Option<usize>
    ensures can { CanPrint result out.now texts.now }
    ensures front { front_of result out.now ≡ out.now }
{
    if texts.len() == 1 {
        Some(out.len())
    } else {
        None
    }
}

/// Takes back what was printed at once.
pub(crate) fn take_back(at_once: Option<usize>, out: &mut Bytes)
    ensures { out.new ≡ front_of at_once out.old }
{
    if let Some(start) = at_once {
        out.truncate(start);
    }
}

/// Appends the texts that were not printed at once.
pub(crate) fn append_rest(
    at_once: Option<usize>,
    marked: &mut Agenda,
    texts: &mut [Bytes],
    out: &mut Bytes,
) -> Result<(), NoMemory>
    requires size { length marked.old ≡ length texts.old }
    requires unprinted { AreUnprinted marked.old texts.old }
    requires blank { IsTrue (is_some at_once) → (k : ℕ) → slice_index_or texts.old k [] ≡ [] }
    ensures size { length marked.new ≡ length marked.old }
    ensures ok { OnOk result (out.new ≡ front_of at_once out.old ++ flat_map (λ x. x) (texts_with at_once out.old texts.old)) }
    ensures empty { OnOk result ((k : ℕ) → slice_index_or texts.new k [] ≡ []) }
    ensures err { OnErr result (IsBegunOf (front_of at_once out.old) out.new
        (flat_map (λ x. x) (texts_with at_once out.old texts.old))) }
{
    match at_once {
        Some(_) => Ok(()),
        None => append_texts(marked, texts, out),
    }
}
