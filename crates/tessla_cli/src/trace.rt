// A run over a trace, from its files to its end.

ghost use Rattle.std.specs.Prelude.{◌≡◌, ◌<◌, ◌≤◌, None, Some, false, length, IfOk, OnErr, OnOk, IsErrOf};
ghost use Rattle.command_words.specs.Words.{IsLimitedRun};
ghost use Rattle.compiled_meaning.specs.inner.Ready.{IsReady};
ghost use Rattle.trace_run.specs.Limited.{AreLimited};
ghost use Rattle.trace_run.specs.Starts.{CanStart};
ghost use Rattle.tsl_world.specs.Standing.{at_first, is_open, is_writable};
ghost use Rattle.tsl_world.specs.Runs.{Grows};
ghost use Rattle.tsl_world.specs.World.{RoseBy};
ghost use Rattle.tessla_cli.specs.Asked.{options_of};
ghost use Rattle.tessla_cli.specs.Conduct.{MakesNothing};
ghost use Rattle.tessla_cli.specs.inner.RunPhases.{EndsSince, GivesOrigin, HasRunFrom, HasSavedTo, Monitors, OriginEnds, ReadsOrigin};
ghost use Rattle.tessla_cli.specs.inner.RunPhases.{RunEnds, RunsFrom, RunsOrigin, RunsSince, RunsSource, SavesTo};

use crate::begun::{Begun, resumed};
use crate::ended::Ended;
use crate::file::{put_file, read_file};
use crate::limits::MOST_STATE_BYTES;
use crate::program::{Loaded, load};
use code_file::limits::MOST_CODE_BYTES;
use command_words::command::{Origin, Run};
use register_code::code::Code;
use spec_lexer::limits::MOST_SOURCE_BYTES;
use std::alloc::Global;
use trace_monitor::options::Options;
use trace_reader::limits::MOST_PIECE_BYTES;
use trace_run::run::run_code;
use trace_run::start::Start;
use tsl_value::bytes::Bytes;
use tsl_value::text::Text;
use tsl_world::{Broken, Channel, Failed, Slot, World};

/// How far a run goes.
fn options_of(run: &Run) -> Options
    ensures options { result ≡ options_of run.now }
    ensures limited { IsLimitedRun run.now → AreLimited result }
{
    Options {
        until: run.until,
        instants: run.instants,
        bytes: run.bytes,
        strict: run.strict,
    }
}

/// Writes what is left of a run to the file of its state, where it has one and anything is left.
fn save<W: World>(world: &mut W, file: &Option<Text>, left: &Option<Bytes>) -> Result<(), Failed>
    requires { is_writable (W.standing world.old) Channel.State ≡ false }
    ensures ok { OnOk result (W.faults world.new ≡ W.faults world.old) }
    ensures failed { OnErr result (RoseBy 1 (W.faults world.old) (W.faults world.new)) }
    ensures heard { W.unheard world.new ≡ W.unheard world.old }
    ensures calls { Grows W.told W.journal world.old world.new (SavesTo file.now left.now) }
    ensures whole { OnOk result (Grows W.told W.journal world.old world.new
        (λ part. (file.now ≡ None → left.now ≡ None) → HasSavedTo file.now left.now part)) }
{
    match (file, left) {
        (Some(file), Some(left)) => put_file(world, Channel::State, file.as_str(), left.as_slice()),
        _ => Ok(()),
    }
}

/// Monitors the trace of a run that begins so, and saves what is left of it. All that takes memory is done before a file is made.
fn run_from<W: World>(
    alloc: Global,
    world: &mut W,
    code: &Code,
    run: &Run,
    start: Start,
    buf: &mut [u8],
) -> Result<Ended, Broken>
    requires room { 0 < length buf.old }
    requires short { length buf.old ≤ MOST_PIECE_BYTES }
    requires trace { is_open (W.standing world.old) Slot.Trace ≡ false }
    requires saves { is_writable (W.standing world.old) Channel.State ≡ false }
    requires ready { IsReady code.now.system }
    requires starts { CanStart code.now start }
    ensures ok { OnOk result (W.faults world.new ≡ W.faults world.old) }
    ensures outside { IsErrOf result Broken.Outside → RoseBy 1 (W.faults world.old) (W.faults world.new) }
    ensures memory { IsErrOf result Broken.Memory → W.faults world.new ≡ W.faults world.old }
    ensures unmade { IsErrOf result Broken.Memory → Grows W.told W.journal world.old world.new MakesNothing }
    ensures heard { W.unheard world.new ≡ W.unheard world.old }
    ensures calls { Grows W.told W.journal world.old world.new (RunsFrom run.now code.now start) }
    ensures ending { IfOk result (λ ended. Grows W.told W.journal world.old world.new (HasRunFrom run.now code.now start ended)) }
{
    let trace = run.trace.as_str();
    let saves = run.save.is_some();
    let ran = run_code(alloc, world, code, trace, start, saves, run.stats, buf)?;
    let ended = Ended::of(ran.ending, ran.statistics)?;
    save(world, &run.save, &ran.state)?;
    Ok(ended)
}

/// Reads the file of the state that a run goes on from, and monitors its trace from there.
fn run_resumed<W: World>(
    alloc: Global,
    world: &mut W,
    code: &Code,
    run: &Run,
    file: &str,
    buf: &mut [u8],
) -> Result<Ended, Broken>
    requires room { 0 < length buf.old }
    requires short { length buf.old ≤ MOST_PIECE_BYTES }
    requires trace { is_open (W.standing world.old) Slot.Trace ≡ false }
    requires state { is_open (W.standing world.old) Slot.State ≡ false }
    requires saves { is_writable (W.standing world.old) Channel.State ≡ false }
    requires ready { IsReady code.now.system }
    requires limited { IsLimitedRun run.now }
    ensures ok { OnOk result (W.faults world.new ≡ W.faults world.old) }
    ensures outside { IsErrOf result Broken.Outside → RoseBy 1 (W.faults world.old) (W.faults world.new) }
    ensures memory { IsErrOf result Broken.Memory → W.faults world.new ≡ W.faults world.old }
    ensures unmade { IsErrOf result Broken.Memory → Grows W.told W.journal world.old world.new MakesNothing }
    ensures heard { W.unheard world.new ≡ W.unheard world.old }
    ensures calls { Grows W.told W.journal world.old world.new (RunsSince (Some file.now) run.now code.now) }
    ensures ending { IfOk result (λ ended. Grows W.told W.journal world.old world.new
        (EndsSince (Some file.now) run.now code.now ended)) }
{
    let bytes = read_file(alloc, world, Slot::State, file, MOST_STATE_BYTES, buf)?;
    match resumed(alloc, code, run.until, bytes.as_slice())? {
        Begun::Starts(start) => run_from(alloc, world, code, run, start, buf),
        Begun::Stops(ending) => Ok(Ended::alone(alloc, ending)?),
    }
}

/// Monitors the trace of a run by its code, anew or from a state.
fn run_program<W: World>(
    alloc: Global,
    world: &mut W,
    code: &Code,
    run: &Run,
    buf: &mut [u8],
) -> Result<Ended, Broken>
    requires room { 0 < length buf.old }
    requires short { length buf.old ≤ MOST_PIECE_BYTES }
    requires trace { is_open (W.standing world.old) Slot.Trace ≡ false }
    requires state { is_open (W.standing world.old) Slot.State ≡ false }
    requires saves { is_writable (W.standing world.old) Channel.State ≡ false }
    requires ready { IsReady code.now.system }
    requires limited { IsLimitedRun run.now }
    ensures ok { OnOk result (W.faults world.new ≡ W.faults world.old) }
    ensures outside { IsErrOf result Broken.Outside → RoseBy 1 (W.faults world.old) (W.faults world.new) }
    ensures memory { IsErrOf result Broken.Memory → W.faults world.new ≡ W.faults world.old }
    ensures unmade { IsErrOf result Broken.Memory → Grows W.told W.journal world.old world.new MakesNothing }
    ensures heard { W.unheard world.new ≡ W.unheard world.old }
    ensures calls { Grows W.told W.journal world.old world.new (RunsSince run.now.resume run.now code.now) }
    ensures ending { IfOk result (λ ended. Grows W.told W.journal world.old world.new
        (EndsSince run.now.resume run.now code.now ended)) }
{
    match &run.resume {
        Some(file) => run_resumed(alloc, world, code, run, file.as_str(), buf),
        None => run_from(alloc, world, code, run, Start::Anew(options_of(run)), buf),
    }
}

/// Monitors the trace of a run by what comes of the bytes of its file.
fn run_loaded<W: World>(
    alloc: Global,
    world: &mut W,
    bytes: &[u8],
    run: &Run,
    buf: &mut [u8],
) -> Result<Ended, Broken>
    requires room { 0 < length buf.old }
    requires short { length buf.old ≤ MOST_PIECE_BYTES }
    requires trace { is_open (W.standing world.old) Slot.Trace ≡ false }
    requires state { is_open (W.standing world.old) Slot.State ≡ false }
    requires saves { is_writable (W.standing world.old) Channel.State ≡ false }
    requires limited { IsLimitedRun run.now }
    ensures ok { OnOk result (W.faults world.new ≡ W.faults world.old) }
    ensures outside { IsErrOf result Broken.Outside → RoseBy 1 (W.faults world.old) (W.faults world.new) }
    ensures memory { IsErrOf result Broken.Memory → W.faults world.new ≡ W.faults world.old }
    ensures unmade { IsErrOf result Broken.Memory → Grows W.told W.journal world.old world.new MakesNothing }
    ensures heard { W.unheard world.new ≡ W.unheard world.old }
    ensures calls { Grows W.told W.journal world.old world.new (RunsSource (Monitors bytes.now run.now)) }
    ensures ending { IfOk result (λ ended. Grows W.told W.journal world.old world.new (RunEnds bytes.now run.now ended)) }
{
    match load(alloc, &run.origin, bytes)? {
        Loaded::Runs(code) => run_program(alloc, world, &code, run, buf),
        Loaded::Stops(ending) => Ok(Ended::alone(alloc, ending)?),
    }
}

/// Opens the file of what runs and reads it.
fn read_origin<W: World>(
    alloc: Global,
    world: &mut W,
    from: &Origin,
    buf: &mut [u8],
) -> Result<Bytes, Broken>
    requires room { 0 < length buf.old }
    requires short { length buf.old ≤ MOST_PIECE_BYTES }
    requires stands { W.standing world.old ≡ at_first }
    ensures ok { OnOk result (W.faults world.new ≡ W.faults world.old) }
    ensures outside { IsErrOf result Broken.Outside → RoseBy 1 (W.faults world.old) (W.faults world.new) }
    ensures memory { IsErrOf result Broken.Memory → W.faults world.new ≡ W.faults world.old }
    ensures heard { W.unheard world.new ≡ W.unheard world.old }
    ensures trace { OnOk result (is_open (W.standing world.new) Slot.Trace ≡ false) }
    ensures state { OnOk result (is_open (W.standing world.new) Slot.State ≡ false) }
    ensures saves { OnOk result (is_writable (W.standing world.new) Channel.State ≡ false) }
    ensures calls { Grows W.told W.journal world.old world.new (ReadsOrigin from.now) }
    ensures bytes { IfOk result (λ bytes. Grows W.told W.journal world.old world.new (GivesOrigin from.now bytes)) }
{
    match from {
        Origin::Spec(spec) => read_file(
            alloc,
            world,
            Slot::Spec,
            spec.as_str(),
            MOST_SOURCE_BYTES,
            buf,
        ),
        Origin::Code(file) => read_file(
            alloc,
            world,
            Slot::Code,
            file.as_str(),
            MOST_CODE_BYTES,
            buf,
        ),
    }
}

/// Reads the file of what runs and monitors a trace by it, with this buffer.
fn run_trace<W: World>(
    alloc: Global,
    world: &mut W,
    run: &Run,
    buf: &mut [u8],
) -> Result<Ended, Broken>
    requires room { 0 < length buf.old }
    requires short { length buf.old ≤ MOST_PIECE_BYTES }
    requires stands { W.standing world.old ≡ at_first }
    requires limited { IsLimitedRun run.now }
    ensures ok { OnOk result (W.faults world.new ≡ W.faults world.old) }
    ensures outside { IsErrOf result Broken.Outside → RoseBy 1 (W.faults world.old) (W.faults world.new) }
    ensures memory { IsErrOf result Broken.Memory → W.faults world.new ≡ W.faults world.old }
    ensures unmade { IsErrOf result Broken.Memory → Grows W.told W.journal world.old world.new MakesNothing }
    ensures heard { W.unheard world.new ≡ W.unheard world.old }
    ensures calls { Grows W.told W.journal world.old world.new (RunsOrigin run.now.origin (λ bytes. RunsSource (Monitors bytes run.now))) }
    ensures ending { IfOk result (λ ended. Grows W.told W.journal world.old world.new
        (OriginEnds run.now.origin (λ bytes. RunEnds bytes run.now ended))) }
{
    let bytes = read_origin(alloc, world, &run.origin, buf)?;
    run_loaded(alloc, world, bytes.as_slice(), run, buf)
}

/// Monitors a trace, with a buffer of its own.
pub fn run_in_pieces<W: World>(alloc: Global, world: &mut W, run: &Run) -> Result<Ended, Broken>
    requires stands { W.standing world.old ≡ at_first }
    requires limited { IsLimitedRun run.now }
    ensures ok { OnOk result (W.faults world.new ≡ W.faults world.old) }
    ensures outside { IsErrOf result Broken.Outside → RoseBy 1 (W.faults world.old) (W.faults world.new) }
    ensures memory { IsErrOf result Broken.Memory → W.faults world.new ≡ W.faults world.old }
    ensures unmade { IsErrOf result Broken.Memory → Grows W.told W.journal world.old world.new MakesNothing }
    ensures heard { W.unheard world.new ≡ W.unheard world.old }
    ensures calls { Grows W.told W.journal world.old world.new (RunsOrigin run.now.origin (λ bytes. RunsSource (Monitors bytes run.now))) }
    ensures ending { IfOk result (λ ended. Grows W.told W.journal world.old world.new
        (OriginEnds run.now.origin (λ bytes. RunEnds bytes run.now ended))) }
{
    let mut buf = vec![in alloc; 0u8; MOST_PIECE_BYTES]?;
    Ok(run_trace(alloc, world, run, &mut buf)?)
}
