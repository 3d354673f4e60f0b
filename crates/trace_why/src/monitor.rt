// The monitor of a question.

ghost use Rattle.std.specs.Prelude.{◌≡◌, ◌≤◌, ◌<◌, ◌^◌, ◌++◌, ℕ, Bool, List, [], Ok, None, length, IfOk, OnOk};
ghost use Rattle.flat_core.specs.WellFormed.{IsWellFormed};
ghost use Rattle.trace_monitor.specs.Next.{is_nothing};
ghost use Rattle.trace_reader.specs.declared.limits.TheConstants.{MOST_PIECE_BYTES};
ghost use Rattle.trace_why.specs.Answer.{IsAnswerFor};
ghost use Rattle.trace_why.specs.inner.Course.{HasRun};
ghost use Rattle.trace_why.specs.inner.Kept.{Kept};
ghost use Rattle.tsl_value.specs.declared.limits.TheConstants.{MOST_TRACE_BYTES};

use crate::answer::answer;
use crate::course::{Course, course_of};
use crate::ending::WhyEnding;
use crate::gather::gather;
use crate::question::Question;
use flat_core::line::TraceLine;
use register_code::code::Code;
use std::alloc::Global;
use std::marker::Model;
use trace_monitor::ending::RunEnding;
use trace_monitor::monitor::TraceMonitor;
use trace_monitor::options::Options;
use trace_reader::reader::TraceReader;
use tsl_value::bytes::Bytes;
use tsl_value::memory::NoMemory;

/// Asks a question of the pieces of a trace.
///
/// It runs code over them, which shows faults and how many instants there are, and keeps all lines, of which a derivation is made.
#[derive(Drop)]
pub struct WhyMonitor<'c> {
    alloc: Global,
    code: &'c Code,
    options: Options,
    question: Question,
    run: TraceMonitor<'c>,
    reader: TraceReader<'c>,
    lines: Vec<TraceLine>,
}

/// What is answered where a run over these lines has come to something.
fn conclude(
    alloc: Global,
    code: &Code,
    options: Options,
    question: Question,
    lines: &[TraceLine],
    by: Option<RunEnding>,
) -> Result<Option<WhyEnding>, NoMemory>
    requires well_formed { IsWellFormed code.now.system }
    requires there { question.output < length code.now.system.outputs }
    requires run { (bytes : List ℕ) × (ended : Bool) × HasRun code.now.system options bytes ended lines.now by }
    ensures answer { IfOk result (λ answer. (bytes : List ℕ) (ended : Bool)
        → HasRun code.now.system options bytes ended lines.now by
        → IsAnswerFor code.now.system options question bytes ended answer) }
    ensures goes_on { result ≡ Ok None → by ≡ None }
{
    code.assert_whole();
    match course_of(by, lines, options, question) {
        Course::Open => Ok(None),
        Course::Closed => Ok(Some(answer(alloc, code.flat(), lines, question)?)),
        Course::Ended(by) => Ok(Some(by)),
    }
}

impl<'c> Model for WhyMonitor<'c> {
    ghost use Rattle.lift_func.specs.contracts.body.Body as body;
    ghost use Rattle.monitor_run.specs.inner.Code.{cells_code, times_code};
    ghost use Rattle.std.specs.Coded.{codes};
    ghost use Rattle.trace_why.specs.inner.State.{State};

    ghost Value = { State };

    ghost coded = { Prim.hlevel (codes, body.the_row.coded, cells_code, times_code) };

    ghost view = { λ m. record {
      system = m.code.now.system;
      options = m.options;
      question = m.question;
      run = m.run;
      reader = m.reader;
      lines = m.lines.items;
    } };
}

impl<'c> WhyMonitor<'c> {
    /// A question of a trace of which nothing was taken.
    pub fn new(
        alloc: Global,
        code: &'c Code,
        options: Options,
        question: Question,
    ) -> Result<WhyMonitor<'c>, NoMemory>
        requires well_formed { IsWellFormed code.now.system }
        requires there { question.output < length code.now.system.outputs }
        requires some { 1 ≤ options.bytes }
        requires few { options.bytes ≤ MOST_TRACE_BYTES }
        requires instants { 1 ≤ options.instants }
        requires until { options.until < 2 ^ 63 }
        ensures kept { IfOk result (λ m. Kept m []) }
        ensures system { IfOk result (λ m. m.system ≡ code.now.system) }
        ensures options { IfOk result (λ m. m.options ≡ options) }
        ensures question { IfOk result (λ m. m.question ≡ question) }
    {
        Ok(WhyMonitor {
            alloc,
            code,
            options,
            question,
            run: TraceMonitor::new(alloc, code, options)?,
            reader: TraceReader::new(alloc, code.flat(), options.strict, options.bytes)?,
            lines: Vec::new(alloc),
        })
    }

    /// Takes a piece of the trace, or its end, which is an empty piece. The answer is the ending of the question, if it has one. Else the
    /// trace may be read further. Out of memory, no further piece may come.
    pub fn advance(&mut self, piece: &[u8]) -> Result<Option<WhyEnding>, NoMemory>
        requires kept { (fed : List ℕ) × Kept self.old fed }
        requires short { length piece.now ≤ MOST_PIECE_BYTES }
        ensures kept { (fed : List ℕ) → Kept self.old fed → result ≡ Ok None → Kept self.new (fed ++ piece.now) }
        ensures answer { IfOk result (λ answer. (fed : List ℕ) → Kept self.old fed
            → IsAnswerFor self.old.system self.old.options self.old.question (fed ++ piece.now) (is_nothing piece.now) answer) }
        ensures system { self.new.system ≡ self.old.system }
        ensures options { self.new.options ≡ self.old.options }
        ensures question { self.new.question ≡ self.old.question }
    {
        gather(&mut self.reader, &mut self.lines, piece)?;
        let mut text = Bytes::new(self.alloc);
        let by = self.run.advance(piece, &mut text)?;
        conclude(
            self.alloc,
            self.code,
            self.options,
            self.question,
            &self.lines,
            by,
        )
    }
}
