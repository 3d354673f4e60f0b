// The reader of a trace.

ghost use Rattle.std.specs.Prelude.{◌≡◌, ◌≤◌, ◌<◌, [], ◌∷◌, ◌++◌, ℕ, Bool, List, None, false, true, length, slice_get, IfOk, IfSome};
ghost use Rattle.std.specs.Prelude.{IsTrue, OnOk, OnErr, vec_capacity, vec_len};
ghost use Rattle.trace_reader.specs.Form.{is_long};
ghost use Rattle.trace_reader.specs.inner.LastTime.{is_later, last_of};
ghost use Rattle.trace_reader.specs.declared.limits.TheConstants.{MOST_PIECE_BYTES};
ghost use Rattle.tsl_value.specs.declared.limits.TheConstants.{MOST_TRACE_BYTES};

use crate::fault::TraceFault;
use crate::inputs::Inputs;
use crate::last::LastTime;
use crate::line::{Judge, is_long};
use crate::next::{Next, Rest};
use crate::plain::{PlainLine, plain_line};
use crate::seen::{listed, note_event, set_of};
use crate::state::ReaderState;
use crate::unread::Unread;
use flat_core::flat::Flat;
use flat_core::line::TraceLine;
use std::alloc::Global;
use std::marker::Model;
use tsl_value::bytes::Bytes;
use tsl_value::ids::EqId;
use tsl_value::memory::NoMemory;

/// Reads the lines of a trace from pieces of its bytes.
///
/// It keeps the bytes of the line that is not whole yet, and which inputs had an event at the last
/// time. Lines that say nothing are taken as soon as they stand.
#[derive(Drop)]
pub struct TraceReader<'f> {
    alloc: Global,
    inputs: Inputs<'f>,
    strict: bool,
    // As many bytes are read at most, and so many were fed.
    limit: u64,
    taken: u64,
    unread: Unread,
    // The first byte beyond the limit, where it was fed.
    beyond: Option<u8>,
    ended: bool,
    // The number of lines that were read, the time of the last one that has a time, and the inputs
    // that had an event at it.
    count: u64,
    last: LastTime,
    seen: Vec<EqId>,
    refused: Option<TraceFault>,
}

impl<'f> Model for TraceReader<'f> {
    ghost use Rattle.lift_func.specs.contracts.body.Body as body;
    ghost use Rattle.std.specs.Coded.{codes};
    ghost use Rattle.trace_reader.specs.inner.LastTime.{last_of};
    ghost use Rattle.trace_reader.specs.inner.Reader.{IsSound, Reader};

    ghost Value = { Reader };

    ghost coded = { Prim.hlevel (codes, body.the_row.coded) };

    ghost view = { λ r. record {
      system = r.inputs;
      strict = r.strict;
      limit = r.limit;
      taken = r.taken;
      unread = r.unread;
      beyond = r.beyond;
      ended = r.ended;
      count = r.count;
      last = last_of r.last.number;
      seen = r.seen.items;
      refused = r.refused;
    } };

    ghost invariant = { λ r. IsSound (record {
      system = r.inputs;
      strict = r.strict;
      limit = r.limit;
      taken = r.taken;
      unread = r.unread;
      beyond = r.beyond;
      ended = r.ended;
      count = r.count;
      last = last_of r.last.number;
      seen = r.seen.items;
      refused = r.refused;
    }) };
}

impl<'f> TraceReader<'f> {
    ghost use Rattle.flat_core.specs.System.{System};
    ghost use Rattle.flat_core.specs.Line.{Line};
    ghost use Rattle.trace_reader.specs.inner.Plain.{StandsPlain};
    ghost use Rattle.trace_reader.specs.inner.AnyReader.{AreAsSet, HasAnswered, HasEnded, HasFed};
    ghost use Rattle.trace_reader.specs.inner.Reader.{AwaitsMore, HasLine, at_fault, last_counts};
    ghost use Rattle.trace_reader.specs.inner.Saved.{FitsReader, HasState, IsReaderAfter};
    ghost use Rattle.trace_reader.specs.Reading.{first_line, reading};
    ghost use Rattle.trace_reader.specs.inner.Reads.{AnswersAgain, Gathers, IfLine, IfMore, IfRestMore, IsPastLine, Reads, Rests, SaysNext};
    ghost use Rattle.trace_reader.specs.inner.Reads.{TakesLine, after_all, lines_in};

    /// A reader of the trace of a system's inputs, which was fed nothing. At most `limit` bytes of a
    /// trace are read. A line of a name that no input has only says its time; with `strict` it is
    /// refused.
    pub fn new(
        alloc: Global,
        flat: &'f Flat,
        strict: bool,
        limit: u64,
    ) -> Result<TraceReader<'f>, NoMemory>
        requires some { 1 ≤ limit }
        requires few { limit ≤ MOST_TRACE_BYTES }
        ensures reads { IfOk result (λ r. Reads r flat.now strict limit [] [] false) }
        ensures awaits { IfOk result AwaitsMore }
    {
        Ok(TraceReader {
            alloc,
            inputs: Inputs::new(alloc, flat)?,
            strict,
            limit,
            taken: 0,
            unread: Unread::new(alloc),
            beyond: None,
            ended: false,
            count: 0,
            last: LastTime::none(),
            seen: Vec::new(alloc),
            refused: None,
        })
    }

    /// A reader that goes on from a state. At most `limit` bytes are read, those that the state has
    /// taken among them. It stands for all bytes that the state comes after.
    pub fn from_state(
        alloc: Global,
        flat: &'f Flat,
        strict: bool,
        limit: u64,
        state: ReaderState,
    ) -> Result<TraceReader<'f>, NoMemory>
        requires some { 1 ≤ limit }
        requires few { limit ≤ MOST_TRACE_BYTES }
        requires fits { FitsReader limit state }
        ensures state { IfOk result (λ r. HasState r state) }
        ensures awaits { IfOk result AwaitsMore }
        ensures system { IfOk result (λ r. r.system ≡ flat.now) }
        ensures strict { IfOk result (λ r. r.strict ≡ strict) }
        ensures limit { IfOk result (λ r. r.limit ≡ limit) }
        ensures reads { IfOk result (λ r. (fed : List ℕ) (given : List Line)
            → IsReaderAfter flat.now strict limit fed given state → Reads r flat.now strict limit fed given false) }
    {
        Ok(TraceReader {
            alloc,
            inputs: Inputs::new(alloc, flat)?,
            strict,
            limit,
            taken: state.taken,
            unread: Unread::from_bytes(state.rest),
            beyond: None,
            ended: false,
            count: state.lines,
            last: LastTime::from_option(state.last),
            seen: listed(alloc, &state.seen)?,
            refused: None,
        })
    }

    /// What the reader keeps, as a state. It is asked for where `next_line` answered `More` last, or
    /// nothing was fed.
    pub fn state(&self, alloc: Global) -> Result<ReaderState, NoMemory>
        requires { AwaitsMore self.now }
        ensures state { IfOk result (HasState self.now) }
        ensures fits { IfOk result (FitsReader self.now.limit) }
        ensures after { IfOk result (λ st. (s : System) (strict : Bool) (limit : ℕ) (fed : List ℕ) (given : List Line) →
            Reads self.now s strict limit fed given false → IsReaderAfter s strict limit fed given st) }
    {
        Ok(ReaderState {
            taken: self.taken,
            lines: self.count,
            last: self.last.get(),
            seen: set_of(alloc, &self.seen)?,
            rest: Bytes::from_slice(alloc, self.unread.as_slice())?,
        })
    }

    /// Appends a piece to the trace. It is asked for where `next_line` answered `More`, or nothing was
    /// fed yet. Out of memory leaves the reader as it was.
    pub fn feed(&mut self, piece: &[u8]) -> Result<(), NoMemory>
        requires awaits { AwaitsMore self.old }
        requires some { 1 ≤ length piece.now }
        requires short { length piece.now ≤ MOST_PIECE_BYTES }
        ensures reads { OnOk result ((s : System) (strict : Bool) (limit : ℕ) (fed : List ℕ) (given : List Line) →
            Reads self.old s strict limit fed given false → Reads self.new s strict limit (fed ++ piece.now) given false) }
        ensures fed { OnOk result (HasFed self.old self.new piece.now) }
        ensures err { OnErr result (self.new ≡ self.old) }
    {
        let len = piece.len() as u64;
        let fits = len.min(self.limit - self.taken);
        self.unread.append(&piece[..fits as usize])?;
        self.beyond = byte_at(piece, fits as usize);
        self.taken += len;
        self.count += self.unread.pass_skipped(false);
        Ok(())
    }

    /// Says that the trace has ended. Bytes after the last line's end are a line from then on. Said
    /// again, it leaves the reader as it is, so that the last line is not given twice.
    pub fn finish(&mut self)
        ensures reads { (s : System) (strict : Bool) (limit : ℕ) (fed : List ℕ) (given : List Line) →
            Reads self.old s strict limit fed given false → Reads self.new s strict limit fed given true }
        ensures ended { self.old.ended ≡ false → HasEnded self.old self.new }
        ensures again { self.old.ended ≡ true → self.new ≡ self.old }
        ensures as_set { AreAsSet self.old self.new }
    {
        if !self.ended {
            self.ended = true;
            self.count += self.unread.pass_skipped(self.beyond.is_none());
        }
    }

    /// The next line of what was fed. `More` comes where no further whole line stands, nothing is
    /// refused and the trace has not ended, and `End` where it has. A fault is answered again by
    /// every further call, or else that it is out of memory. The reader keeps the fault, and else is as it was.
    /// Out of memory leaves it as it was.
    pub fn next_line(&mut self) -> Result<Next, TraceFault>
        ensures says { (s : System) (strict : Bool) (limit : ℕ) (fed : List ℕ) (given : List Line) (ended : Bool) →
            Reads self.old s strict limit fed given ended → SaysNext (reading s strict limit fed ended) given ended result }
        ensures reads { (s : System) (strict : Bool) (limit : ℕ) (fed : List ℕ) (given : List Line) (ended : Bool) →
            Reads self.old s strict limit fed given ended → Reads self.new s strict limit fed (given ++ lines_in result) ended }
        ensures more { IfMore result (AwaitsMore self.new) }
        ensures again { AnswersAgain self.old self.new result }
        ensures answered { HasAnswered self.old self.new result }
        ensures fewer { IfLine result (length self.new.unread < length self.old.unread) }
    {
        if let Some(fault) = &self.refused {
            return Err(fault.copy()?);
        }
        if let Some(line) = self.plain_next() {
            return self.take_plain(line);
        }
        let last_counts = self.last_counts();
        match self.unread.line_len(last_counts) {
            Some(len) => self.take_line(len),
            None => self.next_at_rest(),
        }
    }

    /// Whether bytes after the last line's end are a line.
    fn last_counts(&self) -> bool
        ensures { result ≡ last_counts self.now }
    {
        self.ended && self.beyond.is_none()
    }

    /// The first line that stands, where it is of the form in which most are written, and later than the last one. `None` says nothing
    /// of it.
    fn plain_next(&self) -> Option<PlainLine>
        ensures { IfSome result (StandsPlain self.now) }
    {
        let line = plain_line(self.alloc, &self.inputs, self.unread.as_slice())?;
        if_later(line, self.last)
    }

    /// Gives the first line that stands, which is of this form.
    fn take_plain(&mut self, plain: PlainLine) -> Result<Next, TraceFault>
        requires { StandsPlain self.old plain }
        ensures { TakesLine self.old self.new plain.len result }
    {
        let line = TraceLine {
            time: plain.time,
            event: Some((plain.input, plain.value)),
        };
        self.pass_line(plain.len, &line)?;
        Ok(Next::Line(line))
    }

    /// Gives the first line that stands.
    #[inline(never)]
    fn take_line(&mut self, len: usize) -> Result<Next, TraceFault>
        requires line { HasLine self.old len }
        requires within { len ≤ length self.old.unread }
        requires some { 0 < length self.old.unread }
        requires accepted { self.old.refused ≡ None }
        ensures { TakesLine self.old self.new len result }
    {
        let judge = Judge {
            alloc: self.alloc,
            inputs: &self.inputs,
            strict: self.strict,
            seen: &self.seen,
            last: self.last,
            number: self.count + 1,
        };
        match judge.judge(&self.unread.as_slice()[..len])? {
            Ok(line) => {
                self.pass_line(len, &line)?;
                Ok(Next::Line(line))
            }
            Err(fault) => {
                self.refuse(&fault)?;
                Err(fault)
            }
        }
    }

    /// Takes the first line that stands, which says this, and the lines after it that say nothing.
    #[inline(always)]
    fn pass_line(&mut self, len: usize, line: &TraceLine) -> Result<(), NoMemory>
        requires line { HasLine self.old len }
        requires within { len ≤ length self.old.unread }
        requires some { 0 < length self.old.unread }
        ensures ok { OnOk result (IsPastLine self.old self.new len line.now) }
        ensures err { OnErr result (self.new ≡ self.old) }
    {
        let last_counts = self.last_counts();
        note_event(&mut self.seen, self.last, line)?;
        self.unread.skip_line(len);
        self.count += 1;
        self.count += self.unread.pass_skipped(last_counts);
        self.last = LastTime::of(line.time);
        Ok(())
    }

    /// Keeps a fault, which every further call answers.
    fn refuse(&mut self, fault: &TraceFault) -> Result<(), NoMemory>
        ensures ok { OnOk result (self.new ≡ at_fault self.old fault.now) }
        ensures err { OnErr result (self.new ≡ self.old) }
    {
        self.refused = Some(fault.copy()?);
        Ok(())
    }

    /// What comes where no line stands.
    #[inline(never)]
    fn next_at_rest(&mut self) -> Result<Next, TraceFault>
        requires line { first_line self.old.unread (last_counts self.old) ≡ None }
        requires accepted { self.old.refused ≡ None }
        ensures { Rests self.old self.new result }
    {
        if let Some(fault) = self.after_all() {
            self.refuse(&fault)?;
            return Err(fault);
        }
        if self.ended {
            Ok(Next::End)
        } else {
            Ok(Next::More)
        }
    }

    /// Why what stands after the whole lines is refused.
    fn after_all(&self) -> Option<TraceFault>
        ensures { result ≡ after_all self.now }
    {
        let line = self.count + 1;
        let more = self.beyond.is_some_and(|byte| byte != b'\n');
        if is_long(self.unread.len() + usize::from(more)) {
            Some(TraceFault::LineTooLong { line })
        } else if self.beyond.is_some() {
            Some(TraceFault::TraceTooLong { line })
        } else {
            None
        }
    }

    /// Gives all lines that stand, by `next_line`. What was gathered before memory ran out stays
    /// gathered.
    pub fn read_all(&mut self, lines: &mut Vec<TraceLine>) -> Result<Rest, TraceFault>
        ensures gathers { (s : System) (strict : Bool) (limit : ℕ) (fed : List ℕ) (given : List Line) (ended : Bool) →
            Reads self.old s strict limit fed given ended →
            Gathers self.new s strict limit fed given ended lines.old.items lines.new.items result }
        ensures more { IfRestMore result (AwaitsMore self.new) }
        ensures as_set { AreAsSet self.old self.new }
    {
        loop {
            lines.reserve(1)?;
            match self.next_line()? {
                Next::Line(line) => put(lines, line),
                Next::More => return Ok(Rest::More),
                Next::End => return Ok(Rest::End),
            }
        }
    }
}

/// A line that is not too long and comes after the last time.
fn if_later(line: PlainLine, last: LastTime) -> Option<PlainLine>
    ensures { IfSome result (λ p. (p ≡ line) × (is_long p.len ≡ false) × IsTrue (is_later (last_of last.number) p.time)) }
{
    if is_long(line.len) || !last.is_before(line.time) {
        None
    } else {
        Some(line)
    }
}

/// The byte at a place.
fn byte_at(bytes: &[u8], place: usize) -> Option<u8>
    ensures { result ≡ slice_get bytes.now place }
{
    bytes.get(place).copied()
}

/// Appends a line, for which there is room.
fn put(lines: &mut Vec<TraceLine>, line: TraceLine)
    requires { vec_len lines.old < vec_capacity lines.old }
    ensures { lines.new.items ≡ lines.old.items ++ line ∷ [] }
{
    let _ = lines.push(line);
}
