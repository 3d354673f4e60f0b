// A run, from the words to its end.

ghost use Rattle.std.specs.Prelude.{◌≡◌, ◌<◌, ◌≤◌, ◌^◌, ℕ, List, false, length, IfOk, OnErr, OnOk, IsErrOf};
ghost use Rattle.alias_rules.specs.Fine.{IsTakenPlan};
ghost use Rattle.code_file.specs.Form.{HasSpelling};
ghost use Rattle.command_words.specs.Words.{IsLimited, command_of};
ghost use Rattle.flat_core.specs.WellFormed.{IsWellFormed};
ghost use Rattle.last_use.specs.Reasons.{AreReasons};
ghost use Rattle.sample_trace.specs.Trace.{trace_text};
ghost use Rattle.compiled_meaning.specs.Compiled.{CompilesSomething};
ghost use Rattle.spec_lexer.specs.declared.limits.TheConstants.{MOST_SOURCE_BYTES};
ghost use Rattle.tsl_world.specs.Standing.{at_first, is_open, is_writable};
ghost use Rattle.tsl_world.specs.Runs.{Grows};
ghost use Rattle.tsl_world.specs.World.{RoseBy};
ghost use Rattle.tessla_cli.specs.Alone.{BenchStops, IsTallyText};
ghost use Rattle.tessla_cli.specs.inner.RunPhases.{AloneEnds, Does, DoesAll, DoesAllAsked, DoesAsked, GivesName, HasPut, HasWritten};
ghost use Rattle.tessla_cli.specs.inner.RunPhases.{Prints, Puts, ReadsName, RunsAlone, RunsSource, RunsSpec, SourceEnds, SpecEnds};
ghost use Rattle.tessla_cli.specs.Conduct.{MakesNothing};

use crate::bench::outcome_of;
use crate::ended::Ended;
use crate::ending::{Ending, refused};
use crate::file::{put_file, read_file};
use crate::made::Made;
use crate::print::text_of;
use crate::put::put_made;
use crate::trace::run_in_pieces;
use crate::why::explain_in_pieces;
use command_words::command::{Command, Form, Workload};
use command_words::words::Words;
use flat_compiler::compile::Compiled;
use sample_trace::trace::sample_trace;
use spec_compiler::compile::compile;
use spec_lexer::limits::MOST_SOURCE_BYTES;
use std::alloc::Global;
use trace_reader::limits::MOST_PIECE_BYTES;
use trace_run::write::write_all;
use tsl_value::bytes::Bytes;
use tsl_world::{Broken, Channel, Failed, Slot, World};

/// Writes a text where those of a form go: to the file of the form, which is made for it, or to Out.
fn put_text<W: World>(world: &mut W, form: &Form, text: &[u8]) -> Result<(), Failed>
    requires { is_writable (W.standing world.old) Channel.Code ≡ false }
    ensures ok { OnOk result (W.faults world.new ≡ W.faults world.old) }
    ensures failed { OnErr result (RoseBy 1 (W.faults world.old) (W.faults world.new)) }
    ensures heard { W.unheard world.new ≡ W.unheard world.old }
    ensures calls { Grows W.told W.journal world.old world.new (Puts text.now form.now) }
    ensures whole { OnOk result (Grows W.told W.journal world.old world.new (HasPut text.now form.now)) }
{
    match form {
        Form::File(name) => put_file(world, Channel::Code, name.as_str(), text),
        _ => write_all(world, Channel::Out, text),
    }
}

/// Writes the text that the code of a source has in a form. All that takes memory is done before.
fn write_text<W: World>(
    alloc: Global,
    world: &mut W,
    form: &Form,
    compiled: &Compiled,
) -> Result<Ended, Broken>
    requires taken { IsTakenPlan compiled.now.code.system compiled.now.code.in_place compiled.now.code.order }
    requires reasons { AreReasons compiled.now.code.system compiled.now.code.in_place compiled.now.reasons }
    requires well_formed { IsWellFormed compiled.now.code.system }
    requires spelling { HasSpelling compiled.now.code.system }
    requires stands { is_writable (W.standing world.old) Channel.Code ≡ false }
    ensures ok { OnOk result (W.faults world.new ≡ W.faults world.old) }
    ensures outside { IsErrOf result Broken.Outside → RoseBy 1 (W.faults world.old) (W.faults world.new) }
    ensures memory { IsErrOf result Broken.Memory → W.faults world.new ≡ W.faults world.old }
    ensures unmade { IsErrOf result Broken.Memory → Grows W.told W.journal world.old world.new MakesNothing }
    ensures heard { W.unheard world.new ≡ W.unheard world.old }
    ensures calls { (source : List ℕ) → CompilesSomething source compiled.now.code.system
        → Grows W.told W.journal world.old world.new (RunsSource (Prints source form.now)) }
    ensures ending { IfOk result (λ ended. (source : List ℕ) → CompilesSomething source compiled.now.code.system
        → Grows W.told W.journal world.old world.new (HasWritten source form.now ended)) }
{
    match text_of(alloc, form, compiled)? {
        Made::Text(text) => {
            let ended = Ended::alone(alloc, Ending::Done)?;
            put_text(world, form, text.as_slice())?;
            Ok(ended)
        }
        Made::Stops(ending) => Ok(Ended::alone(alloc, ending)?),
    }
}

/// Compiles a source and writes the text that it has in a form.
fn write_source<W: World>(
    alloc: Global,
    world: &mut W,
    source: &[u8],
    form: &Form,
) -> Result<Ended, Broken>
    requires { is_writable (W.standing world.old) Channel.Code ≡ false }
    ensures ok { OnOk result (W.faults world.new ≡ W.faults world.old) }
    ensures outside { IsErrOf result Broken.Outside → RoseBy 1 (W.faults world.old) (W.faults world.new) }
    ensures memory { IsErrOf result Broken.Memory → W.faults world.new ≡ W.faults world.old }
    ensures unmade { IsErrOf result Broken.Memory → Grows W.told W.journal world.old world.new MakesNothing }
    ensures heard { W.unheard world.new ≡ W.unheard world.old }
    ensures calls { Grows W.told W.journal world.old world.new (RunsSource (Prints source.now form.now)) }
    ensures ending { IfOk result (λ ended. Grows W.told W.journal world.old world.new
        (SourceEnds source.now (HasWritten source.now form.now ended) ended)) }
{
    match compile(alloc, source) {
        Ok(compiled) => write_text(alloc, world, form, &compiled),
        Err(fault) => Ok(Ended::alone(alloc, refused(fault)?)?),
    }
}

/// Opens a specification and reads it.
fn read_spec<W: World>(
    alloc: Global,
    world: &mut W,
    name: &str,
    buf: &mut [u8],
) -> Result<Bytes, Broken>
    requires room { 0 < length buf.old }
    requires short { length buf.old ≤ MOST_PIECE_BYTES }
    requires stands { W.standing world.old ≡ at_first }
    ensures ok { OnOk result (W.faults world.new ≡ W.faults world.old) }
    ensures outside { IsErrOf result Broken.Outside → RoseBy 1 (W.faults world.old) (W.faults world.new) }
    ensures memory { IsErrOf result Broken.Memory → W.faults world.new ≡ W.faults world.old }
    ensures heard { W.unheard world.new ≡ W.unheard world.old }
    ensures trace { OnOk result (is_open (W.standing world.new) Slot.Trace ≡ false) }
    ensures code { OnOk result (is_writable (W.standing world.new) Channel.Code ≡ false) }
    ensures calls { Grows W.told W.journal world.old world.new (ReadsName Slot.Spec MOST_SOURCE_BYTES name.now) }
    ensures source { IfOk result (λ source. Grows W.told W.journal world.old world.new
        (GivesName Slot.Spec MOST_SOURCE_BYTES name.now source)) }
{
    read_file(alloc, world, Slot::Spec, name, MOST_SOURCE_BYTES, buf)
}

/// Reads a specification and writes a text of it, by this buffer.
fn write_form<W: World>(
    alloc: Global,
    world: &mut W,
    spec: &str,
    form: &Form,
    buf: &mut [u8],
) -> Result<Ended, Broken>
    requires room { 0 < length buf.old }
    requires short { length buf.old ≤ MOST_PIECE_BYTES }
    requires stands { W.standing world.old ≡ at_first }
    ensures ok { OnOk result (W.faults world.new ≡ W.faults world.old) }
    ensures outside { IsErrOf result Broken.Outside → RoseBy 1 (W.faults world.old) (W.faults world.new) }
    ensures memory { IsErrOf result Broken.Memory → W.faults world.new ≡ W.faults world.old }
    ensures unmade { IsErrOf result Broken.Memory → Grows W.told W.journal world.old world.new MakesNothing }
    ensures heard { W.unheard world.new ≡ W.unheard world.old }
    ensures calls { Grows W.told W.journal world.old world.new (RunsSpec spec.now (λ source. RunsSource (Prints source form.now))) }
    ensures ending { IfOk result (λ ended. Grows W.told W.journal world.old world.new
        (SpecEnds spec.now (λ source. SourceEnds source (HasWritten source form.now ended) ended))) }
{
    let source = read_spec(alloc, world, spec, buf)?;
    write_source(alloc, world, source.as_slice(), form)
}

/// Writes a text of a specification, with a buffer of its own.
fn write_in_pieces<W: World>(
    alloc: Global,
    world: &mut W,
    spec: &str,
    form: &Form,
) -> Result<Ended, Broken>
    requires { W.standing world.old ≡ at_first }
    ensures ok { OnOk result (W.faults world.new ≡ W.faults world.old) }
    ensures outside { IsErrOf result Broken.Outside → RoseBy 1 (W.faults world.old) (W.faults world.new) }
    ensures memory { IsErrOf result Broken.Memory → W.faults world.new ≡ W.faults world.old }
    ensures unmade { IsErrOf result Broken.Memory → Grows W.told W.journal world.old world.new MakesNothing }
    ensures heard { W.unheard world.new ≡ W.unheard world.old }
    ensures calls { Grows W.told W.journal world.old world.new (RunsSpec spec.now (λ source. RunsSource (Prints source form.now))) }
    ensures ending { IfOk result (λ ended. Grows W.told W.journal world.old world.new
        (SpecEnds spec.now (λ source. SourceEnds source (HasWritten source form.now ended) ended))) }
{
    let mut buf = vec![in alloc; 0u8; MOST_PIECE_BYTES]?;
    Ok(write_form(alloc, world, spec, form, &mut buf)?)
}

/// Writes the sample trace with so many lines.
fn generate<W: World>(alloc: Global, world: &mut W, lines: u64) -> Result<Ended, Broken>
    requires { lines < 2 ^ 63 }
    ensures ok { OnOk result (W.faults world.new ≡ W.faults world.old) }
    ensures outside { IsErrOf result Broken.Outside → RoseBy 1 (W.faults world.old) (W.faults world.new) }
    ensures memory { IsErrOf result Broken.Memory → W.faults world.new ≡ W.faults world.old }
    ensures heard { W.unheard world.new ≡ W.unheard world.old }
    ensures calls { Grows W.told W.journal world.old world.new (RunsAlone (λ text. text ≡ trace_text lines)) }
    ensures ending { IfOk result (λ ended. Grows W.told W.journal world.old world.new
        (AloneEnds (λ text. text ≡ trace_text lines) (λ by. ⊥) ended)) }
{
    let text = sample_trace(alloc, lines)?;
    write_all(world, Channel::Out, text.as_slice())?;
    Ok(Ended::alone(alloc, Ending::Done)?)
}

/// Writes the tally of a bench, or tells how the program ends where there is none.
fn tell_bench<W: World>(
    alloc: Global,
    world: &mut W,
    kind: Workload,
    lines: u64,
) -> Result<Ended, Broken>
    requires { lines < 2 ^ 63 }
    ensures ok { OnOk result (W.faults world.new ≡ W.faults world.old) }
    ensures outside { IsErrOf result Broken.Outside → RoseBy 1 (W.faults world.old) (W.faults world.new) }
    ensures memory { IsErrOf result Broken.Memory → W.faults world.new ≡ W.faults world.old }
    ensures heard { W.unheard world.new ≡ W.unheard world.old }
    ensures calls { Grows W.told W.journal world.old world.new (RunsAlone (IsTallyText kind lines)) }
    ensures ending { IfOk result (λ ended. Grows W.told W.journal world.old world.new
        (AloneEnds (IsTallyText kind lines) (BenchStops kind lines) ended)) }
{
    put_made(alloc, world, outcome_of(alloc, kind, lines)?)
}

/// Does what a command asks for.
fn perform<W: World>(alloc: Global, world: &mut W, command: &Command) -> Result<Ended, Broken>
    requires stands { W.standing world.old ≡ at_first }
    requires limited { IsLimited command.now }
    ensures ok { OnOk result (W.faults world.new ≡ W.faults world.old) }
    ensures outside { IsErrOf result Broken.Outside → RoseBy 1 (W.faults world.old) (W.faults world.new) }
    ensures memory { IsErrOf result Broken.Memory → W.faults world.new ≡ W.faults world.old }
    ensures unmade { IsErrOf result Broken.Memory → Grows W.told W.journal world.old world.new MakesNothing }
    ensures heard { W.unheard world.new ≡ W.unheard world.old }
    ensures calls { Grows W.told W.journal world.old world.new (Does command.now) }
    ensures ending { IfOk result (λ ended. Grows W.told W.journal world.old world.new (DoesAll command.now ended)) }
{
    match command {
        Command::Write { spec, form } => write_in_pieces(alloc, world, spec.as_str(), form),
        Command::Run(run) => run_in_pieces(alloc, world, run),
        Command::Why(why) => explain_in_pieces(alloc, world, why),
        Command::Generate { lines } => generate(alloc, world, *lines),
        Command::Bench { kind, lines } => tell_bench(alloc, world, *kind, *lines),
    }
}

/// Does what the words ask for.
pub fn run<W: World>(alloc: Global, words: &Words, world: &mut W) -> Result<Ended, Broken>
    requires { W.standing world.old ≡ at_first }
    ensures ok { OnOk result (W.faults world.new ≡ W.faults world.old) }
    ensures outside { IsErrOf result Broken.Outside → RoseBy 1 (W.faults world.old) (W.faults world.new) }
    ensures memory { IsErrOf result Broken.Memory → W.faults world.new ≡ W.faults world.old }
    ensures unmade { IsErrOf result Broken.Memory → Grows W.told W.journal world.old world.new MakesNothing }
    ensures heard { W.unheard world.new ≡ W.unheard world.old }
    ensures calls { Grows W.told W.journal world.old world.new (DoesAsked (command_of words.now)) }
    ensures ending { IfOk result (λ ended. Grows W.told W.journal world.old world.new (DoesAllAsked (command_of words.now) ended)) }
{
    match words.command(alloc)? {
        Some(command) => Ok(perform(alloc, world, &command)?),
        None => Ok(Ended::alone(alloc, Ending::Words)?),
    }
}
