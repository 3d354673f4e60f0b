// A question why an output has an event, from its files to its end.

ghost use Rattle.std.specs.Prelude.{◌≡◌, ◌<◌, ◌≤◌, ℕ, List, false, length, IfOk, OnOk, IsErrOf};
ghost use Rattle.command_words.specs.Words.{IsLimitedWhy};
ghost use Rattle.compiled_meaning.specs.Compiled.{Compiles};
ghost use Rattle.compiled_meaning.specs.inner.Ready.{IsReady};
ghost use Rattle.slice_text.specs.Text.{IsOutputCalled};
ghost use Rattle.syntax_tree.specs.Tree as tree;
ghost use Rattle.trace_reader.specs.declared.limits.TheConstants.{MOST_PIECE_BYTES};
ghost use Rattle.tsl_world.specs.Runs.{Grows};
ghost use Rattle.tsl_world.specs.Standing.{at_first, is_open};
ghost use Rattle.tsl_world.specs.World.{RoseBy};
ghost use Rattle.tessla_cli.specs.Asked.{why_options};
ghost use Rattle.tessla_cli.specs.inner.RunPhases.{Explains, HasExplained, IsAnsweredAs, RunsSource, RunsSpec, SourceEnds, SpecEnds};

use crate::ended::Ended;
use crate::ending::{Ending, refused};
use crate::file::read_file;
use crate::made::Made;
use crate::put::put_made;
use command_words::command::Why;
use register_code::code::Code;
use slice_text::number::number_of;
use spec_compiler::compile::compile;
use spec_lexer::limits::MOST_SOURCE_BYTES;
use std::alloc::Global;
use trace_monitor::options::Options;
use trace_reader::limits::MOST_PIECE_BYTES;
use trace_why::ending::WhyEnding;
use trace_why::question::Question;
use tsl_value::memory::NoMemory;
use tsl_world::{Broken, Slot, World};
use why_run::ask::ask;

/// How far the trace of a question is read.
fn options_of(why: &Why) -> Options
    ensures { result ≡ why_options why.now }
{
    Options {
        until: 0,
        instants: why.instants,
        bytes: why.bytes,
        strict: why.strict,
    }
}

/// What comes of an answer: the text of a derivation, or how the program ends.
fn made_of(why: &Why, answer: WhyEnding) -> Result<Made, NoMemory>
    ensures { IfOk result (IsAnsweredAs why.now answer) }
{
    match answer {
        WhyEnding::Text(text) => Ok(Made::Text(text)),
        WhyEnding::NoEvent => Ok(Made::Stops(Ending::NoEvent {
            name: why.output.copy()?,
            time: why.time,
        })),
        WhyEnding::Refused(fault) => Ok(Made::Stops(Ending::Trace(fault))),
        WhyEnding::Fault { time, kind, place } => {
            Ok(Made::Stops(Ending::Fault { time, kind, place }))
        }
        WhyEnding::Limit { count, time } => Ok(Made::Stops(Ending::Limit { count, time })),
    }
}

/// Asks the question of its trace, about the output of this number, and writes the answer.
fn explain_output<W: World>(
    alloc: Global,
    world: &mut W,
    code: &Code,
    output: u32,
    why: &Why,
    buf: &mut [u8],
) -> Result<Ended, Broken>
    requires room { 0 < length buf.old }
    requires short { length buf.old ≤ MOST_PIECE_BYTES }
    requires trace { is_open (W.standing world.old) Slot.Trace ≡ false }
    requires ready { IsReady code.now.system }
    requires limited { IsLimitedWhy why.now }
    requires called { IsOutputCalled code.now.system why.now.output output }
    ensures ok { OnOk result (W.faults world.new ≡ W.faults world.old) }
    ensures outside { IsErrOf result Broken.Outside → RoseBy 1 (W.faults world.old) (W.faults world.new) }
    ensures memory { IsErrOf result Broken.Memory → W.faults world.new ≡ W.faults world.old }
    ensures heard { W.unheard world.new ≡ W.unheard world.old }
    ensures calls { (source : List ℕ) (items : List tree.Item) → Compiles source items code.now.system
        → Grows W.told W.journal world.old world.new (RunsSource (Explains source why.now)) }
    ensures ending { IfOk result (λ ended. (source : List ℕ) (items : List tree.Item) → Compiles source items code.now.system
        → Grows W.told W.journal world.old world.new (HasExplained source why.now ended)) }
{
    let question = Question {
        output,
        time: why.time,
    };
    let trace = why.trace.as_str();
    let answer = ask(alloc, world, code, trace, options_of(why), question, buf)?;
    put_made(alloc, world, made_of(why, answer)?)
}

/// Asks the question of its trace by the code of a specification, and writes the answer.
fn explain_code<W: World>(
    alloc: Global,
    world: &mut W,
    code: &Code,
    why: &Why,
    buf: &mut [u8],
) -> Result<Ended, Broken>
    requires room { 0 < length buf.old }
    requires short { length buf.old ≤ MOST_PIECE_BYTES }
    requires trace { is_open (W.standing world.old) Slot.Trace ≡ false }
    requires ready { IsReady code.now.system }
    requires limited { IsLimitedWhy why.now }
    ensures ok { OnOk result (W.faults world.new ≡ W.faults world.old) }
    ensures outside { IsErrOf result Broken.Outside → RoseBy 1 (W.faults world.old) (W.faults world.new) }
    ensures memory { IsErrOf result Broken.Memory → W.faults world.new ≡ W.faults world.old }
    ensures heard { W.unheard world.new ≡ W.unheard world.old }
    ensures calls { (source : List ℕ) (items : List tree.Item) → Compiles source items code.now.system
        → Grows W.told W.journal world.old world.new (RunsSource (Explains source why.now)) }
    ensures ending { IfOk result (λ ended. (source : List ℕ) (items : List tree.Item) → Compiles source items code.now.system
        → Grows W.told W.journal world.old world.new (HasExplained source why.now ended)) }
{
    match number_of(code.flat(), why.output.as_str()) {
        Some(output) => explain_output(alloc, world, code, output, why, buf),
        None => Ok(Ended::alone(alloc, Ending::NoOutput(why.output.copy()?))?),
    }
}

/// Asks the question under a specification, and writes the answer.
fn explain_source<W: World>(
    alloc: Global,
    world: &mut W,
    source: &[u8],
    why: &Why,
    buf: &mut [u8],
) -> Result<Ended, Broken>
    requires room { 0 < length buf.old }
    requires short { length buf.old ≤ MOST_PIECE_BYTES }
    requires trace { is_open (W.standing world.old) Slot.Trace ≡ false }
    requires limited { IsLimitedWhy why.now }
    ensures ok { OnOk result (W.faults world.new ≡ W.faults world.old) }
    ensures outside { IsErrOf result Broken.Outside → RoseBy 1 (W.faults world.old) (W.faults world.new) }
    ensures memory { IsErrOf result Broken.Memory → W.faults world.new ≡ W.faults world.old }
    ensures heard { W.unheard world.new ≡ W.unheard world.old }
    ensures calls { Grows W.told W.journal world.old world.new (RunsSource (Explains source.now why.now)) }
    ensures ending { IfOk result (λ ended. Grows W.told W.journal world.old world.new
        (SourceEnds source.now (HasExplained source.now why.now ended) ended)) }
{
    match compile(alloc, source) {
        Ok(compiled) => explain_code(alloc, world, &compiled.code, why, buf),
        Err(fault) => Ok(Ended::alone(alloc, refused(fault)?)?),
    }
}

/// Reads the specification and asks the question under it, with this buffer.
fn explain<W: World>(
    alloc: Global,
    world: &mut W,
    why: &Why,
    buf: &mut [u8],
) -> Result<Ended, Broken>
    requires room { 0 < length buf.old }
    requires short { length buf.old ≤ MOST_PIECE_BYTES }
    requires stands { W.standing world.old ≡ at_first }
    requires limited { IsLimitedWhy why.now }
    ensures ok { OnOk result (W.faults world.new ≡ W.faults world.old) }
    ensures outside { IsErrOf result Broken.Outside → RoseBy 1 (W.faults world.old) (W.faults world.new) }
    ensures memory { IsErrOf result Broken.Memory → W.faults world.new ≡ W.faults world.old }
    ensures heard { W.unheard world.new ≡ W.unheard world.old }
    ensures calls { Grows W.told W.journal world.old world.new
        (RunsSpec why.now.spec (λ source. RunsSource (Explains source why.now))) }
    ensures ending { IfOk result (λ ended. Grows W.told W.journal world.old world.new
        (SpecEnds why.now.spec (λ source. SourceEnds source (HasExplained source why.now ended) ended))) }
{
    let spec = why.spec.as_str();
    let source = read_file(alloc, world, Slot::Spec, spec, MOST_SOURCE_BYTES, buf)?;
    explain_source(alloc, world, source.as_slice(), why, buf)
}

/// Tells why an output has an event, with a buffer of its own.
pub fn explain_in_pieces<W: World>(alloc: Global, world: &mut W, why: &Why) -> Result<Ended, Broken>
    requires stands { W.standing world.old ≡ at_first }
    requires limited { IsLimitedWhy why.now }
    ensures ok { OnOk result (W.faults world.new ≡ W.faults world.old) }
    ensures outside { IsErrOf result Broken.Outside → RoseBy 1 (W.faults world.old) (W.faults world.new) }
    ensures memory { IsErrOf result Broken.Memory → W.faults world.new ≡ W.faults world.old }
    ensures heard { W.unheard world.new ≡ W.unheard world.old }
    ensures calls { Grows W.told W.journal world.old world.new
        (RunsSpec why.now.spec (λ source. RunsSource (Explains source why.now))) }
    ensures ending { IfOk result (λ ended. Grows W.told W.journal world.old world.new
        (SpecEnds why.now.spec (λ source. SourceEnds source (HasExplained source why.now ended) ended))) }
{
    let mut buf = vec![in alloc; 0u8; MOST_PIECE_BYTES]?;
    Ok(explain(alloc, world, why, &mut buf)?)
}
