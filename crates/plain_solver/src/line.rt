// The lines of a trace.

ghost use Rattle.std.specs.Prelude.{◌≡◌, ◌<◌, ◌≤◌, length};
ghost use Rattle.std.specs.List.Sorted.{IsPartitionPoint};
ghost use Rattle.std.specs.Option.{option_map, option_copied};
ghost use Rattle.tsl_value.specs.View.{Plain};
ghost use Rattle.flat_core.specs.Line.{IsSorted, event_in, inputs_of, is_line_on};
ghost use Rattle.flat_core.specs.declared.line.TraceLine.{TraceLine};
ghost use Rattle.plain_solver.specs.inner.Lines.{IsLeast};

use flat_core::line::TraceLine;
use tsl_value::ids::EqId;
use tsl_value::scalar::Scalar;
use tsl_value::time::Time;

/// The event of an input at a time that a line has.
pub fn event_on(line: &TraceLine, i: EqId, t: Time) -> Option<&Scalar>
    ensures { option_map Plain (option_copied result) ≡ event_in i t line.now.time line.now.event }
{
    match &line.event {
        Some((j, v)) => {
            if line.time.get() == t.get() && j.get() == i.get() {
                Some(v)
            } else {
                None
            }
        }
        None => None,
    }
}

/// The number of lines before a time.
pub fn count_before(lines: &[TraceLine], t: u64) -> usize
    requires { IsSorted lines.now }
    ensures within { result ≤ length lines.now }
    ensures place { IsPartitionPoint (λ (l : TraceLine). l.time < t) (λ (l : TraceLine). t ≤ l.time) lines.now result }
{
    lines.partition_point(|line| line.time.get() < t)
}

/// The event of an input at a time, if the lines before that time are left out.
fn input_among(lines: &[TraceLine], i: EqId, t: Time) -> Option<&Scalar>
    requires { IsSorted lines.now }
    ensures { option_map Plain (option_copied result) ≡ inputs_of lines.now i t }
{
    for line in lines {
        if t.get() < line.time.get() {
            return None;
        }
        if let Some(v) = event_on(line, i, t) {
            return Some(v);
        }
    }
    None
}

/// The event of an input at a time.
pub fn input_at(lines: &[TraceLine], i: EqId, t: Time) -> Option<&Scalar>
    requires { IsSorted lines.now }
    ensures { option_map Plain (option_copied result) ≡ inputs_of lines.now i t }
{
    let rest = &lines[count_before(lines, t.get())..];
    input_among(rest, i, t)
}

/// The first time before another at which a line has an event, else that other time.
fn first_event(lines: &[TraceLine], high: u64) -> u64
    requires { IsSorted lines.now }
    ensures { IsLeast (λ u. is_line_on u lines.now) 0 high result }
{
    for line in lines {
        let time = line.time.get();
        if high <= time {
            return high;
        }
        if line.event.is_some() {
            return time;
        }
    }
    high
}

/// The least time from one on and before another at which a line has an event, else that other time.
pub fn least_line(lines: &[TraceLine], low: u64, high: u64) -> u64
    requires { IsSorted lines.now }
    ensures { IsLeast (λ u. is_line_on u lines.now) low high result }
{
    let rest = &lines[count_before(lines, low)..];
    first_event(rest, high)
}
