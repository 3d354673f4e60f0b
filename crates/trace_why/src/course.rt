// How a question stands where a run over the same bytes has come to something.

ghost use Rattle.std.specs.Prelude.{◌≡◌, ℕ, Bool, List, None};
ghost use Rattle.flat_core.specs.Complete.{IsFlat};
ghost use Rattle.flat_core.specs.Line.{last_time};
ghost use Rattle.flat_core.specs.System.{System};
ghost use Rattle.flat_core.specs.WellFormed.{IsWellFormed};
ghost use Rattle.trace_why.specs.inner.Course.{HasRun, IsCourse, comes_in_time, course_after, ending_of};

use crate::ending::WhyEnding;
use crate::question::Question;
use flat_core::line::TraceLine;
use trace_monitor::ending::RunEnding;
use trace_monitor::options::Options;
use tsl_value::time::Time;

/// How a question stands.
#[derive(Drop)]
pub(crate) enum Course {
    /// Its time is not closed yet.
    Open,
    /// Its time is closed, and the lines answer it.
    Closed,
    /// It has its ending.
    Ended(WhyEnding),
}

/// The time of the last line, or 0 where there is none.
fn last_time(lines: &[TraceLine]) -> u64
    ensures { result ≡ last_time lines.now }
{
    match lines.last() {
        Some(line) => line.time.get(),
        None => 0,
    }
}

/// Whether the end of a run comes in time for a question.
fn comes_in_time(by: &RunEnding, last: u64, until: u64, asked: Time) -> bool
    ensures { result ≡ comes_in_time by.now last until asked }
{
    match by {
        RunEnding::Done => last.max(until) < asked.get(),
        RunEnding::Trace(_) => last <= asked.get(),
        RunEnding::Fault { time, .. } => time.get() <= asked.get(),
        RunEnding::Limit { time, .. } => time.get() <= asked.get(),
    }
}

/// The ending of a question for which a run has ended in time.
fn ending_of(by: RunEnding) -> WhyEnding
    ensures { result ≡ ending_of by }
{
    match by {
        RunEnding::Done => WhyEnding::NoEvent,
        RunEnding::Trace(fault) => WhyEnding::Refused(fault),
        RunEnding::Fault { time, kind, place } => WhyEnding::Fault { time, kind, place },
        RunEnding::Limit { count, time } => WhyEnding::Limit { count, time },
    }
}

/// How a question stands after a last line, where a run has come to something.
fn course_after(by: Option<RunEnding>, last: u64, until: u64, asked: Time) -> Course
    ensures { result ≡ course_after by last until asked }
{
    match by {
        Some(by) => {
            if comes_in_time(&by, last, until, asked) {
                Course::Ended(ending_of(by))
            } else {
                Course::Closed
            }
        }
        None => {
            if last <= asked.get() {
                Course::Open
            } else {
                Course::Closed
            }
        }
    }
}

/// How a question stands where a run over these lines has come to something.
pub(crate) fn course_of(
    by: Option<RunEnding>,
    lines: &[TraceLine],
    options: Options,
    question: Question,
) -> Course
    ensures course { (s : System) (bytes : List ℕ) (ended : Bool)
        → IsFlat s
        → IsWellFormed s
        → HasRun s options bytes ended lines.now by
        → IsCourse s options question bytes ended result }
    ensures goes_on { result ≡ Course.Open → by ≡ None }
{
    course_after(by, last_time(lines), options.until, question.time)
}
