// The monitor of a trace.

ghost use Rattle.std.specs.Prelude.{◌≡◌, ◌≢◌, ◌≤◌, ◌<◌, ◌^◌, ◌++◌, ◌∷◌, ℕ, List, [], false, true, length, IfErr, IfOk, IsTrue, None, Err, Ok};
ghost use Rattle.std.specs.Prelude.{OnErr, OnOk, Some, if◌then◌else◌, is_ok, slice_index};
ghost use Rattle.lift_func.specs.declared.fault.FaultKind.{FaultKind};
ghost use Rattle.trace_reader.specs.inner.LastTime.{or_zero};
ghost use Rattle.trace_reader.specs.inner.Reader.{AwaitsMore};
ghost use Rattle.tsl_value.specs.declared.scalar.Scalar.{Scalar};
ghost use Rattle.tsl_value.specs.declared.limits.TheConstants.{MOST_INSTANTS, MOST_TRACE_BYTES};
ghost use Rattle.run_state.specs.Fits.{FitsRun};
ghost use Rattle.monitor_run.specs.inner.AnyMonitor.{NamesRunning};
ghost use Rattle.monitor_run.specs.inner.Saved.{CanSave};
ghost use Rattle.monitor_run.specs.inner.Steps.{AreAsSet, CanTake};
ghost use Rattle.flat_core.specs.Updates.{is_running_update};
ghost use Rattle.trace_monitor.specs.Counted.{HasCounted};
ghost use Rattle.trace_monitor.specs.Due.{IsDue};
ghost use Rattle.trace_monitor.specs.Saved.{IsRunAfter};
ghost use Rattle.trace_monitor.specs.inner.Kept.{Kept, events_of};
ghost use Rattle.trace_monitor.specs.inner.Snapshot.{HasRunState, code_of};
ghost use Rattle.trace_monitor.specs.inner.Waits.{AreInStep, HaltsAny, WaitsAgain, HasRunOutAny, HasTakenIn, MayCome, Waits, open_from};
ghost use Rattle.trace_monitor.specs.Next.{EndsFor, EndsSo, IsNext, is_nothing};
ghost use Rattle.trace_monitor.specs.inner.Run.{HasLines, HasRunBelow, HasRunOut, HasStopped, HasStoppedAt, HasTaken, closed_to};
ghost use Rattle.trace_monitor.specs.inner.Reading.{Fed, HasRead, HasReadAll, HasRunAll, HasStoppedIn, bound_at};
ghost use Rattle.flat_core.specs.Line.{Line};
ghost use Rattle.trace_reader.specs.inner.AnyReader as any_reader;
ghost use Rattle.trace_reader.specs.inner.Reads.{Reads};
ghost use Rattle.trace_reader.specs.declared.limits.TheConstants.{MOST_PIECE_BYTES};
ghost use Rattle.monitor_run.specs.inner.Written.{HasWritten};

use crate::ending::RunEnding;
use crate::halt::Halt;
use crate::options::Options;
use flat_core::line::TraceLine;
use monitor_run::monitor::{Closed, Monitor, Step, Stop};
use register_code::code::Code;
use run_state::state::RunState;
use std::alloc::Global;
use std::marker::Model;
use trace_reader::fault::TraceFault;
use trace_reader::next::Next;
use trace_reader::reader::TraceReader;
use trace_reader::state::ReaderState;
use tsl_value::bytes::Bytes;
use tsl_value::ids::EqId;
use tsl_value::memory::NoMemory;
use tsl_value::time::Time;

/// Runs code over the pieces of a trace.
///
/// It keeps the bytes of the line that is not whole yet and what the engine keeps, and no line that was read.
#[derive(Drop)]
pub struct TraceMonitor<'c> {
    code: &'c Code,
    options: Options,
    reader: TraceReader<'c>,
    // The time of the last line.
    last: Time,
    engine: Monitor<'c>,
}

impl<'c> Model for TraceMonitor<'c> {
    ghost use Rattle.std.specs.Coded.{codes};
    ghost use Rattle.std.specs.Prelude.{◌≤◌, ◌<◌, ◌^◌};
    ghost use Rattle.lift_func.specs.contracts.body.Body as body;
    ghost use Rattle.monitor_run.specs.inner.Code.{cells_code, times_code};
    ghost use Rattle.trace_monitor.specs.inner.State.{State};
    ghost use Rattle.tsl_value.specs.declared.limits.TheConstants.{MOST_TRACE_BYTES};

    ghost Value = { State };

    ghost coded = { Prim.hlevel (codes, body.the_row.coded, cells_code, times_code) };

    ghost view = { λ m. record { system = m.code.now.system; options = m.options; reader = m.reader; last = m.last; engine = m.engine } };

    ghost invariant = { λ m. (1 ≤ m.options.instants)
        × (m.options.until < 2 ^ 63)
        × (1 ≤ m.options.bytes)
        × (m.options.bytes ≤ MOST_TRACE_BYTES) };
}

/// Runs all instants at closed times and appends their text. The answer is the stop, where one comes.
fn run(engine: &mut Monitor, out: &mut Bytes) -> Result<(), Stop>
    requires { engine.old.stop ≡ None }
    ensures any { OnOk result (HasRunOutAny engine.old engine.new) }
    ensures named { IfErr result (NamesRunning engine.old.system) }
    ensures system { engine.new.system ≡ engine.old.system }
    ensures set { engine.new.in_place ≡ engine.old.in_place }
    ensures order { engine.new.order ≡ engine.old.order }
    ensures runs { OnOk result ((lines : List Line) (text : List ℕ)
        → HasWritten engine.old lines text
        → HasRunOut engine.old engine.new lines text out.old out.new) }
    ensures stops { IfErr result (λ stop. (lines : List Line) (text : List ℕ)
        → HasWritten engine.old lines text
        → HasStopped engine.old engine.new lines text out.old out.new stop) }
{
    loop {
        // What it answers is not needed: its contract says what every engine has.
        engine.instants();
        match engine.step(out) {
            Ok(Step::Ran) => {}
            Ok(Step::Idle) => return Ok(()),
            Err(stop) => return Err(stop),
        }
    }
}

/// Closes the times below one and runs all their instants. The answer is the stop, where one comes.
fn run_below(engine: &mut Monitor, time: Time, out: &mut Bytes) -> Result<(), Stop>
    requires going { engine.old.stop ≡ None }
    requires later { engine.old.bound ≤ time }
    ensures any { OnOk result (HasRunOutAny (closed_to engine.old time) engine.new) }
    ensures named { IfErr result (NamesRunning engine.old.system) }
    ensures system { engine.new.system ≡ engine.old.system }
    ensures set { engine.new.in_place ≡ engine.old.in_place }
    ensures order { engine.new.order ≡ engine.old.order }
    ensures runs { OnOk result ((lines : List Line) (text : List ℕ)
        → HasWritten engine.old lines text
        → HasRunBelow engine.old engine.new lines time text out.old out.new) }
    ensures stops { IfErr result (λ stop. (lines : List Line) (text : List ℕ)
        → HasWritten engine.old lines text
        → HasStoppedAt engine.old engine.new lines time text out.old out.new stop) }
{
    engine.close(Closed::Below(time))?;
    run(engine, out)
}

/// Gives the event of a line, where it has one. It stops only where memory runs out.
fn give(engine: &mut Monitor, line: TraceLine) -> Result<(), Stop>
    requires going { engine.old.stop ≡ None }
    requires takes { (i : ℕ) (value : Scalar) → line.event ≡ Some (i, value) → CanTake engine.old line.time i value }
    ensures any { OnOk result (engine.new ≡ record engine.old { given = engine.old.given ++ events_of (line ∷ []) }) }
    ensures system { engine.new.system ≡ engine.old.system }
    ensures set { engine.new.in_place ≡ engine.old.in_place }
    ensures order { engine.new.order ≡ engine.old.order }
    ensures given { OnOk result ((lines : List Line) (text : List ℕ)
        → HasWritten engine.old lines text
        → HasWritten engine.new (lines ++ events_of (line ∷ [])) text) }
    ensures as_set { OnOk result (AreAsSet engine.old engine.new) }
    ensures stop { IfErr result (λ stop. stop ≡ Stop.Memory) }
{
    // What it answers is not needed: its contract says what every engine has.
    engine.instants();
    let time = line.time;
    match line.event {
        Some(event) => engine.event(time, event.0, event.1),
        None => Ok(()),
    }
}

/// Closes the times below a line, runs all their instants, and gives the line's event. The answer is the stop, where one comes.
fn take_line(engine: &mut Monitor, line: TraceLine, out: &mut Bytes) -> Result<(), Stop>
    requires can_save { CanSave engine.old }
    requires may { MayCome engine.old line }
    ensures can_save { OnOk result (CanSave engine.new) }
    ensures bound { OnOk result (engine.new.bound ≡ line.time) }
    ensures limit { OnOk result (engine.new.limit ≡ engine.old.limit) }
    ensures still_open { OnOk result (engine.new.given ≡ open_from line.time engine.old.given ++ events_of (line ∷ [])) }
    ensures named { IfErr result (NamesRunning engine.old.system) }
    ensures system { engine.new.system ≡ engine.old.system }
    ensures set { engine.new.in_place ≡ engine.old.in_place }
    ensures order { engine.new.order ≡ engine.old.order }
    ensures taken { OnOk result ((lines : List Line) (text : List ℕ)
        → HasLines engine.old lines text
        → HasTaken engine.old engine.new lines line text out.old out.new) }
    ensures stops { IfErr result (λ stop. (lines : List Line) (text : List ℕ)
        → HasLines engine.old lines text
        → HasStoppedAt engine.old engine.new (events_of lines) line.time text out.old out.new stop) }
{
    if let Err(stop) = run_below(engine, line.time, out) {
        return Err(stop);
    }
    give(engine, line)
}

/// Why no further line is taken where one is refused. Out of memory refuses none.
fn halt_at(fault: TraceFault) -> Result<Halt, Stop>
    ensures halt { IfOk result (λ by. by ≡ Halt.Refused fault) }
    ensures refused { IfOk result (λ _. fault ≢ TraceFault.Memory) }
    ensures memory { IfErr result (λ stop. stop ≡ Stop.Memory) }
{
    match fault {
        TraceFault::Memory => Err(Stop::Memory),
        fault => Ok(Halt::Refused(fault)),
    }
}

/// Takes all lines that stand. The answer is why no further one is taken, or the stop, where one comes.
fn take_lines(
    reader: &mut TraceReader,
    engine: &mut Monitor,
    last: &mut Time,
    out: &mut Bytes,
) -> Result<Halt, Stop>
    requires { AreInStep reader.old engine.old last.old }
    ensures in_step { OnOk result (AreInStep reader.new engine.new last.new) }
    ensures limit { OnOk result (engine.new.limit ≡ engine.old.limit) }
    ensures as_set { any_reader.AreAsSet reader.old reader.new }
    ensures halts { IfOk result (HaltsAny reader.old reader.new) }
    ensures named { IfErr result (NamesRunning engine.old.system) }
    ensures system { engine.new.system ≡ engine.old.system }
    ensures set { engine.new.in_place ≡ engine.old.in_place }
    ensures order { engine.new.order ≡ engine.old.order }
    ensures read { IfOk result (λ by. (x : Fed) (lines : List Line) (text : List ℕ)
        → HasRead reader.old engine.old last.old x lines text
        → HasReadAll reader.new engine.old engine.new last.new x lines text out.old out.new by) }
    ensures stops { IfErr result (λ stop. stop ≢ Stop.Memory → (x : Fed) (lines : List Line) (text : List ℕ) (until : ℕ)
        → HasRead reader.old engine.old last.old x lines text → HasStoppedIn engine.old engine.new x until text out.old out.new stop) }
{
    loop {
        match reader.next_line() {
            Ok(Next::Line(line)) => {
                *last = line.time;
                take_line(engine, line, out)?;
            }
            Ok(Next::More) => return Ok(Halt::More),
            Ok(Next::End) => return Ok(Halt::End),
            Err(fault) => return halt_at(fault),
        }
    }
}

/// Closes the times that a halt closes, and runs all their instants. The answer is the stop, where one comes.
fn run_to_halt(
    engine: &mut Monitor,
    by: &Halt,
    last: Time,
    until: Time,
    out: &mut Bytes,
) -> Result<(), Stop>
    requires going { engine.old.stop ≡ None }
    requires last { engine.old.bound ≡ last }
    ensures any { OnOk result (HasRunOutAny (closed_to engine.old (bound_at by.now last until)) engine.new) }
    ensures named { IfErr result (NamesRunning engine.old.system) }
    ensures system { engine.new.system ≡ engine.old.system }
    ensures set { engine.new.in_place ≡ engine.old.in_place }
    ensures order { engine.new.order ≡ engine.old.order }
    ensures runs { OnOk result ((lines : List Line) (text : List ℕ) → HasWritten engine.old lines text
        → HasRunOut (closed_to engine.old (bound_at by.now last until)) engine.new lines text out.old out.new) }
    ensures stops { IfErr result (λ stop. (lines : List Line) (text : List ℕ) → HasWritten engine.old lines text
        → HasStopped (closed_to engine.old (bound_at by.now last until)) engine.new lines text out.old out.new stop) }
{
    if let Halt::End = by {
        engine.close(Closed::Through(last))?;
        engine.close(Closed::Through(until))?;
    }
    run(engine, out)
}

/// Takes all lines that stand, and runs all instants at the times that are closed then.
fn run_all(
    reader: &mut TraceReader,
    engine: &mut Monitor,
    last: &mut Time,
    until: Time,
    out: &mut Bytes,
) -> Result<Halt, Stop>
    requires { AreInStep reader.old engine.old last.old }
    ensures in_step { result ≡ Ok Halt.More → AreInStep reader.new engine.new last.new }
    ensures limit { OnOk result (engine.new.limit ≡ engine.old.limit) }
    ensures as_set { any_reader.AreAsSet reader.old reader.new }
    ensures halts { IfOk result (HaltsAny reader.old reader.new) }
    ensures named { IfErr result (NamesRunning engine.old.system) }
    ensures system { engine.new.system ≡ engine.old.system }
    ensures set { engine.new.in_place ≡ engine.old.in_place }
    ensures order { engine.new.order ≡ engine.old.order }
    ensures run { IfOk result (λ by. (x : Fed) (lines : List Line) (text : List ℕ)
        → HasRead reader.old engine.old last.old x lines text
        → HasRunAll reader.new engine.old engine.new last.new until x lines text out.old out.new by) }
    ensures stops { IfErr result (λ stop. stop ≢ Stop.Memory → (x : Fed) (lines : List Line) (text : List ℕ)
        → HasRead reader.old engine.old last.old x lines text → HasStoppedIn engine.old engine.new x until text out.old out.new stop) }
{
    let by = take_lines(reader, engine, last, out)?;
    run_to_halt(engine, &by, *last, until, out)?;
    Ok(by)
}

/// The ending of a run whose engine stops so.
fn ending_of(code: &Code, stop: Stop) -> Result<RunEnding, NoMemory>
    requires { (time : ℕ) (i : ℕ) (kind : FaultKind) → stop ≡ Stop.Fault time i kind → i < length code.now.system.equations }
    ensures { IfOk result (EndsFor code.now.system stop) }
{
    match stop {
        Stop::Fault {
            time,
            equation,
            kind,
        } => {
            let place = code.flat().equation(equation).place;
            Ok(RunEnding::Fault { time, kind, place })
        }
        Stop::Limit { count, time } => Ok(RunEnding::Limit { count, time }),
        Stop::Memory => Err(NoMemory),
    }
}

/// The answer of a monitor that takes no further line for this reason, or whose engine stops.
fn conclude(code: &Code, halted: Result<Halt, Stop>) -> Result<Option<RunEnding>, NoMemory>
    requires { (time : ℕ) (i : ℕ) (kind : FaultKind)
        → halted ≡ Err (Stop.Fault time i kind)
        → i < length code.now.system.equations }
    ensures { IfOk result (EndsSo code.now.system halted) }
{
    match halted {
        Ok(Halt::More) => Ok(None),
        Ok(Halt::End) => Ok(Some(RunEnding::Done)),
        Ok(Halt::Refused(fault)) => Ok(Some(RunEnding::Trace(fault))),
        Err(stop) => Ok(Some(ending_of(code, stop)?)),
    }
}

/// Leaves no text where memory ran out.
fn clear_if_err(ending: &Result<Option<RunEnding>, NoMemory>, text: &mut Bytes)
    ensures { text.new ≡ (if is_ok ending.now then text.old else []) }
{
    if ending.is_err() {
        text.truncate(0);
    }
}

/// The time of the last line of a state, or 0 where there is none.
fn last_or_zero(state: &ReaderState) -> Time
    ensures { result ≡ or_zero state.now.last }
{
    match state.last {
        Some(time) => time,
        None => Time::new(0).unwrap(),
    }
}

impl<'c> TraceMonitor<'c> {
    /// A monitor of a trace of which nothing was taken.
    pub fn new(
        alloc: Global,
        code: &'c Code,
        options: Options,
    ) -> Result<TraceMonitor<'c>, NoMemory>
        requires some { 1 ≤ options.bytes }
        requires few { options.bytes ≤ MOST_TRACE_BYTES }
        requires instants { 1 ≤ options.instants }
        requires until { options.until < 2 ^ 63 }
        ensures kept { IfOk result (λ m. Kept m []) }
        ensures system { IfOk result (λ m. m.system ≡ code.now.system) }
        ensures in_place { IfOk result (λ m. m.engine.in_place ≡ code.now.in_place) }
        ensures order { IfOk result (λ m. m.engine.order ≡ code.now.order) }
        ensures options { IfOk result (λ m. m.options ≡ options) }
    {
        let reader = TraceReader::new(alloc, code.flat(), options.strict, options.bytes)?;
        let engine = Monitor::new(alloc, code, options.instants)?;
        engine.instants();
        Ok(TraceMonitor {
            code,
            options,
            reader,
            last: Time::new(0).unwrap(),
            engine,
        })
    }

    /// A monitor that goes on from a state, within the limits that the state has, and closes the times up to `until` at the end of the
    /// trace. It stands for all bytes that the state comes after. The state is gone where memory ran out.
    pub fn from_state(
        alloc: Global,
        code: &'c Code,
        until: u64,
        state: RunState,
    ) -> Result<TraceMonitor<'c>, NoMemory>
        requires fits { FitsRun code.now.system state }
        requires until { until < 2 ^ 63 }
        ensures state { IfOk result (λ m. HasRunState m state) }
        ensures waits { IfOk result Waits }
        ensures kept { IfOk result (λ m. (fed : List ℕ) → IsRunAfter code.now m.options fed state → Kept m fed) }
        ensures system { IfOk result (λ m. m.system ≡ code.now.system) }
        ensures in_place { IfOk result (λ m. m.engine.in_place ≡ code.now.in_place) }
        ensures order { IfOk result (λ m. m.engine.order ≡ code.now.order) }
        ensures until { IfOk result (λ m. m.options.until ≡ until) }
    {
        let options = Options {
            until,
            instants: state.instants_limit,
            bytes: state.bytes_limit,
            strict: state.strict,
        };
        let last = last_or_zero(&state.reader);
        let reader = TraceReader::from_state(
            alloc,
            code.flat(),
            options.strict,
            options.bytes,
            state.reader,
        )?;
        let engine = Monitor::from_state(alloc, code, options.instants, state.monitor)?;
        Ok(TraceMonitor {
            code,
            options,
            reader,
            last,
            engine,
        })
    }

    /// What the monitor keeps, as a state. It is asked for where the run goes on after the last piece, or none was taken.
    pub fn state(&self, alloc: Global) -> Result<RunState, NoMemory>
        requires { Waits self.now }
        ensures state { IfOk result (HasRunState self.now) }
        ensures fits { self.now.options.instants ≤ MOST_INSTANTS → IfOk result (FitsRun self.now.system) }
        ensures after { IfOk result (λ st. (fed : List ℕ)
            → Kept self.now fed
            → IsRunAfter (code_of self.now) self.now.options fed st) }
    {
        // What these answer is not needed: their contracts say what every engine and every set has.
        self.engine.instants();
        let reader = self.reader.state(alloc)?;
        reader.seen.assert_ascending();
        let monitor = self.engine.state(alloc)?;
        Ok(RunState {
            strict: self.options.strict,
            instants_limit: self.options.instants,
            bytes_limit: self.options.bytes,
            reader,
            monitor,
        })
    }

    /// Feeds a piece of the trace to the reader, or its end, which is an empty piece.
    fn feed(&mut self, piece: &[u8]) -> Result<(), NoMemory>
        requires awaits { AwaitsMore self.old.reader }
        requires short { length piece.now ≤ MOST_PIECE_BYTES }
        ensures any { OnOk result (HasTakenIn self.old.reader self.new.reader piece.now) }
        ensures fed { OnOk result ((fed : List ℕ) (lines : List Line)
            → Reads self.old.reader self.old.system self.old.options.strict self.old.options.bytes fed lines false
            → Reads self.new.reader self.old.system self.old.options.strict self.old.options.bytes
            (fed ++ piece.now) lines (is_nothing piece.now)) }
        ensures rest { self.new ≡ record self.old { reader = self.new.reader } }
    {
        if piece.is_empty() {
            self.reader.finish();
        } else {
            self.reader.feed(piece)?;
        }
        Ok(())
    }

    /// Takes a piece of the trace, or its end, which is an empty piece. `out` then has the text that it adds to what is due, in place of
    /// what it had. The answer is how the run ends, if it does. Out of memory, `out` has nothing, and no further piece may come.
    pub fn advance(&mut self, piece: &[u8], out: &mut Bytes) -> Result<Option<RunEnding>, NoMemory>
        requires waits { Waits self.old }
        requires short { length piece.now ≤ MOST_PIECE_BYTES }
        ensures goes_on { result ≡ Ok None → WaitsAgain self.old self.new piece.now }
        ensures done { result ≡ Ok (Some RunEnding.Done) → is_nothing piece.now ≡ true }
        ensures system { self.new.system ≡ self.old.system }
        ensures options { self.new.options ≡ self.old.options }
        ensures engine { self.new.engine.system ≡ self.old.engine.system }
        ensures set { self.new.engine.in_place ≡ self.old.engine.in_place }
        ensures order { self.new.engine.order ≡ self.old.engine.order }
        ensures kept { (fed : List ℕ) → Kept self.old fed → result ≡ Ok None → Kept self.new (fed ++ piece.now) }
        ensures text { OnOk result ((fed text : List ℕ) → Kept self.old fed → IsDue self.old.system self.old.options fed false text
            → IsDue self.old.system self.old.options (fed ++ piece.now) (is_nothing piece.now) (text ++ out.new)) }
        ensures ending { IfOk result (λ ending. (fed : List ℕ) → Kept self.old fed
            → IsNext self.old.system self.old.options (fed ++ piece.now) (is_nothing piece.now) ending) }
        ensures counted { (fed : List ℕ) (how : RunEnding) → Kept self.old fed → result ≡ Ok (Some how)
            → HasCounted self.old.system self.old.options (fed ++ piece.now) (is_nothing piece.now) self.new.engine how }
        ensures err { OnErr result (out.new ≡ []) }
    {
        out.truncate(0);
        self.feed(piece)?;
        // What it answers is not needed: its contract says what every engine has.
        self.engine.instants();
        let until = Time::new(self.options.until).unwrap();
        let halted = run_all(
            &mut self.reader,
            &mut self.engine,
            &mut self.last,
            until,
            out,
        );
        let ending = conclude(self.code, halted);
        clear_if_err(&ending, out);
        ending
    }

    /// How many elements a running update has copied, or 2^64 - 1 where there were more.
    pub fn copied(&self, update: EqId) -> u64
        requires { IsTrue (is_running_update self.now.engine.system update) }
        ensures { result ≡ slice_index self.now.engine.ledger update }
    {
        self.engine.copied(update)
    }

    /// The number of instants that have run.
    ///
    /// Its second clause gives callers what the engine has counted of the bytes so far.
    pub fn instants(&self) -> u64
        ensures ran { result ≡ self.now.engine.ran }
        ensures counted { (fed : List ℕ)
            → Kept self.now fed
            → HasCounted self.now.system self.now.options fed false self.now.engine RunEnding.Done }
    {
        self.engine.instants()
    }
}
