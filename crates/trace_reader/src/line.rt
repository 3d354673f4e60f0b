// What a line says, and whether it may stand where it does.

ghost use Rattle.std.specs.Prelude.{◌≡◌, ◌<◌, IfOk, IfSome, IsTrue, Ok, Some, length, option_map, false};
ghost use Rattle.std.specs.Result.{result_ok};
ghost use Rattle.tsl_value.specs.Literal.{are_digits, literal};
ghost use Rattle.trace_reader.specs.inner.Borrowed.{bytes_of};
ghost use Rattle.trace_reader.specs.Form.{is_long};
ghost use Rattle.trace_reader.specs.inner.LastTime.{last_of, or_zero};
ghost use Rattle.trace_reader.specs.inner.Reader.{had_now, is_skipped};
ghost use Rattle.trace_reader.specs.Reading.{addressed, as_read, formed, input_called, judged, placed, said, value_at, value_of};

use crate::fault::TraceFault;
use crate::form::{LineParts, content, parts_of, says_nothing, time_of};
use crate::inputs::Inputs;
use crate::int::small_int;
use crate::last::LastTime;
use crate::limits::MOST_LINE_BYTES;
use flat_core::line::TraceLine;
use std::alloc::Global;
use tsl_value::ids::EqId;
use tsl_value::literal::{LiteralFault, read_literal};
use tsl_value::memory::NoMemory;
use tsl_value::scalar::{Scalar, ScalarType, ValueType};
use tsl_value::text::Text;
use tsl_value::time::Time;

/// A line's time and perhaps an event, or why the line is refused.
type Verdict = Result<TraceLine, TraceFault>;

/// Whether a line of so many bytes is too long.
pub(crate) fn is_long(count: usize) -> bool
    ensures { result ≡ is_long count }
{
    count > MOST_LINE_BYTES
}

/// Whether a line is empty or a comment.
pub(crate) fn is_skipped(line: &[u8]) -> bool
    ensures { result ≡ is_skipped line.now }
{
    !is_long(line.len()) && says_nothing(content(line))
}

/// The value of a type that a line has. A unit may have none.
fn value_of(alloc: Global, of: ValueType, value: Option<&[u8]>) -> Result<Option<Scalar>, NoMemory>
    ensures { IfOk result (λ v. v ≡ value_of of (option_map (λ b. b.now) value.entry)) }
{
    match (of, value) {
        (ValueType::Scalar(of), Some(bytes)) => literal_of(alloc, bytes, of),
        (ValueType::Scalar(ScalarType::Unit), None) => Ok(Some(Scalar::Unit)),
        _ => Ok(None),
    }
}

pub(crate) fn literal_of(
    alloc: Global,
    bytes: &[u8],
    of: ScalarType,
) -> Result<Option<Scalar>, NoMemory>
    ensures { IfOk result (λ v. v ≡ result_ok (literal of bytes.now)) }
{
    if let Some(value) = small_literal(bytes, of) {
        return Ok(Some(value));
    }
    match read_literal(alloc, bytes, of) {
        Ok(value) => Ok(Some(value)),
        Err(LiteralFault::Memory) => Err(NoMemory),
        Err(_) => Ok(None),
    }
}

/// The value of bytes that are read without a look at their characters. `None` says nothing of them.
fn small_literal(bytes: &[u8], of: ScalarType) -> Option<Scalar>
    ensures { IfSome result (λ v. literal of bytes.now ≡ Ok v) }
{
    match of {
        ScalarType::Int => small_int(bytes),
        _ => None,
    }
}

/// Judges the line that comes next.
#[derive(Clone, Copy, Drop)]
pub(crate) struct Judge<'a> {
    pub(crate) alloc: Global,
    pub(crate) inputs: &'a Inputs<'a>,
    // Names have to be inputs'.
    pub(crate) strict: bool,
    // The inputs that had an event at the last time, which is that of the line before.
    pub(crate) seen: &'a [EqId],
    pub(crate) last: LastTime,
    pub(crate) number: u64,
}

impl<'a> Judge<'a> {
    /// What a line says that is not skipped, or why it is refused.
    pub(crate) fn judge(&self, line: &[u8]) -> Result<Verdict, NoMemory>
        requires { is_skipped line.now ≡ false }
        ensures { IfOk result (λ v. as_read v ≡ judged self.now.inputs.now self.now.strict
            (had_now (last_of self.now.last.number) self.now.seen.now)
            (or_zero (last_of self.now.last.number)) self.now.number line.now) }
    {
        if is_long(line.len()) {
            return Ok(Err(TraceFault::LineTooLong { line: self.number }));
        }
        match parts_of(content(line)) {
            Some(parts) => self.said_at(&parts),
            None => Ok(Err(TraceFault::BadLine { line: self.number })),
        }
    }

    /// What a line of these parts says.
    fn said_at(&self, parts: &LineParts<'_>) -> Result<Verdict, NoMemory>
        requires { IsTrue (are_digits parts.now.time.now) }
        ensures { IfOk result (λ v. v ≡ formed self.now.inputs.now self.now.strict
            (had_now (last_of self.now.last.number) self.now.seen.now) (or_zero (last_of self.now.last.number))
            self.now.number (Some (bytes_of parts.now))) }
    {
        match time_of(parts.time) {
            None => Ok(Err(TraceFault::TimeTooLarge { line: self.number })),
            Some(time) if self.last.is_after(time) => Ok(Err(TraceFault::TimeBack {
                line: self.number,
                before: self.last.or_zero(),
                now: time,
            })),
            Some(time) => self.said(time, parts),
        }
    }

    /// The line of a time, and perhaps of an event.
    fn said(&self, time: Time, parts: &LineParts<'_>) -> Result<Verdict, NoMemory>
        ensures { IfOk result (λ v. v ≡ said self.now.inputs.now self.now.strict
            (had_now (last_of self.now.last.number) self.now.seen.now) (or_zero (last_of self.now.last.number))
            self.now.number time (bytes_of parts.now).name (bytes_of parts.now).value) }
    {
        match parts.name {
            Some(name) => self.addressed(time, name, parts.value),
            None => Ok(Ok(TraceLine { time, event: None })),
        }
    }

    /// The line of a time and a name.
    fn addressed(&self, time: Time, name: &str, value: Option<&[u8]>) -> Result<Verdict, NoMemory>
        ensures { IfOk result (λ v. v ≡ addressed self.now.inputs.now self.now.strict
            (had_now (last_of self.now.last.number) self.now.seen.now)
            (or_zero (last_of self.now.last.number)) self.now.number time name.now
            (option_map (λ b. b.now) value.entry) (input_called self.now.inputs.now name.now)) }
    {
        match self.inputs.find(name) {
            Some(input) => self.placed(time, name, input, value),
            None if self.strict => Ok(Err(TraceFault::UnknownStream { line: self.number })),
            None => Ok(Ok(TraceLine { time, event: None })),
        }
    }

    /// The line of an input's event.
    fn placed(
        &self,
        time: Time,
        name: &str,
        input: EqId,
        value: Option<&[u8]>,
    ) -> Result<Verdict, NoMemory>
        requires { input < length self.now.inputs.now.equations }
        ensures { IfOk result (λ v. v ≡ placed self.now.inputs.now self.now.strict
            (had_now (last_of self.now.last.number) self.now.seen.now) (or_zero (last_of self.now.last.number))
            self.now.number time name.now input (value_at self.now.inputs.now input (option_map (λ b. b.now) value.entry))) }
    {
        let of = self.inputs.equation(input).of;
        let Some(value) = value_of(self.alloc, of, value)? else {
            let name = Text::from_str(self.alloc, name)?;
            return Ok(Err(TraceFault::WrongValue {
                line: self.number,
                name,
            }));
        };
        if self.last.is(time) && self.seen.contains(&input) {
            let name = Text::from_str(self.alloc, name)?;
            return Ok(Err(TraceFault::Twice {
                line: self.number,
                name,
            }));
        }
        Ok(Ok(TraceLine {
            time,
            event: Some((input, value)),
        }))
    }
}
